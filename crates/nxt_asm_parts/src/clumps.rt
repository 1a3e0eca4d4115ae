// The clumps of a program's blocks.

ghost use Rattle.std.specs.Prelude.{◌≡◌, ◌≤◌, ◌<◌, length, flat_map, sum_by, All, IfOk};
ghost use Rattle.nxt_model.specs.Assembled.{block_words, records_from};
ghost use Rattle.nxt_asm_parts.specs.Starts.{blocks_starts};

use crate::starts::Starts;
use nxt_model::nbc::NbcBlock;
use nxt_types::NoMemory;
use nxt_types::lists::{Bytes, ClumpRec, ClumpRecs};
use std::alloc::Global;

/// The records of a program's blocks.
pub fn clump_records(
    alloc: Global,
    blocks: &[NbcBlock],
    starts: &Starts,
) -> Result<ClumpRecs, NoMemory>
    requires placed { starts.now ≡ blocks_starts 0 blocks.now }
    requires small { sum_by block_words blocks.now ≤ 65535 }
    requires few { All (λ b. length b.dependents < 256) blocks.now }
    ensures { IfOk result (λ records. records ≡ records_from 0 blocks.now) }
{
    let mut records = ClumpRecs::new(alloc);
    for (i, block) in blocks.iter().enumerate() {
        records.push(clump_record(block, starts.start(i, 0)))?;
    }
    Ok(records)
}

// The record of a block that starts at a word.
fn clump_record(block: &NbcBlock, start: u64) -> ClumpRec
    requires small { start ≤ 65535 }
    requires few { length block.now.dependents < 256 }
    ensures { result ≡ record { fire = block.now.fire; dependents = length block.now.dependents; start = start } }
{
    ClumpRec {
        fire: block.fire,
        dependents: block.dependents.len() as u8,
        start: start as u16,
    }
}

/// The dependents of a program's blocks, one block's after another's.
pub fn clump_dependents(alloc: Global, blocks: &[NbcBlock]) -> Result<Bytes, NoMemory>
    ensures { IfOk result (λ all. all ≡ flat_map (λ b. b.dependents) blocks.now) }
{
    let mut all = Bytes::new(alloc);
    for block in blocks {
        all.append(block.dependents.as_slice())?;
    }
    Ok(all)
}
