// The program that a text spells.

ghost use Rattle.std.specs.Prelude.{◌≡◌, ◌≤◌, ◌<◌, Some, length, map, slice_get, IfOk};
ghost use Rattle.nxt_model.specs.Nbc.Text.{numbered, ordered, program_block, program_of};
ghost use Rattle.nxt_model.specs.TextProgram.{text_of};
ghost use Rattle.nxt_nbc_lines.specs.Whole.{AreWhole, BlocksAreWhole, most_in_text};
ghost use Rattle.nxt_nbc_names.specs.BlocksSeen.{block_seen};
ghost use Rattle.nxt_nbc_names.specs.SourceSeen.{source_seen};
ghost use Rattle.nxt_nbc_program.specs.Fits.{SourceFits};
ghost use Rattle.nxt_nbc_program.specs.Links.{links_of as links_in_source};
ghost use Rattle.nxt_nbc_program.specs.LinksSeen.{links_seen};

use crate::links::{Links, fire, links_of};
use crate::statements::body_of;
use crate::types::{copy_of_bytes, structs_of, vars_of};
use nxt_model::nbc::{NbcBlock, NbcBlocks, NbcProgram};
use nxt_nbc_names::{Block, Source};
use nxt_types::NoMemory;
use std::alloc::Global;

/// The program that a text spells.
pub fn program_of(alloc: Global, source: &Source<'_, '_>) -> Result<NbcProgram, NoMemory>
    requires fits { SourceFits (source_seen source.now) }
    requires whole { BlocksAreWhole source.now.blocks }
    ensures { IfOk result (λ p. text_of p ≡ program_of (source_seen source.now)) }
{
    Ok(NbcProgram {
        structs: structs_of(alloc, &source.structs)?,
        vars: vars_of(alloc, source.variables.as_slice())?,
        blocks: blocks_of(alloc, source)?,
    })
}

fn blocks_of(alloc: Global, source: &Source<'_, '_>) -> Result<NbcBlocks, NoMemory>
    requires fits { SourceFits (source_seen source.now) }
    requires whole { BlocksAreWhole source.now.blocks }
    ensures { IfOk result (λ bs. bs ≡ map (program_block (source_seen source.now)) (numbered (source_seen source.now))) }
{
    let links = links_of(alloc, source)?;
    let mut blocks = NbcBlocks::new(alloc);
    for (number, block) in source.blocks.numbered().iter().enumerate() {
        let written = block_of(alloc, source, links.as_slice(), number, block)?;
        blocks.push(written)?;
    }
    Ok(blocks)
}

// The block of a number.
fn block_of(
    alloc: Global,
    source: &Source<'_, '_>,
    links: &[Links],
    number: usize,
    block: &Block<'_, '_>,
) -> Result<NbcBlock, NoMemory>
    requires fits { SourceFits (source_seen source.now) }
    requires links { map links_seen links.now ≡ links_in_source (source_seen source.now) }
    requires within { number < length source.now.blocks }
    requires block { slice_get (ordered (source_seen source.now)) number ≡ Some (block_seen block.now) }
    requires whole { AreWhole (block_seen block.now).items }
    requires few { length (block_seen block.now).items ≤ most_in_text }
    ensures { IfOk result (λ b. b ≡ program_block (source_seen source.now) (number, block_seen block.now)) }
{
    let dependents = links[number].dependents.as_slice();
    let body = body_of(alloc, source, number as u8, block, dependents.len())?;
    Ok(NbcBlock {
        subroutine: block.subroutine,
        fire: fire(source, links, number, block),
        dependents: copy_of_bytes(alloc, dependents)?,
        body,
    })
}
