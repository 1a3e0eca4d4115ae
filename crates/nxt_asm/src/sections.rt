// The parts of an image.

ghost use Rattle.std.specs.Prelude.{◌≡◌, ◌≤◌, length, IfOk};
ghost use Rattle.nxt_model.specs.Assembled.{assembled};
ghost use Rattle.nxt_model.specs.TextProgram.{text_of};
ghost use Rattle.nxt_asm_parts.specs.AssembledParts.{dynamic_defaults, header_of, parts_of, static_defaults};
ghost use Rattle.nxt_asm_parts.specs.Sound.{IsSound};
ghost use Rattle.nxt_asm_rules.specs.Fits.{PartsFit};

use crate::draft::Draft;
use nxt_asm_parts::{
    Numbers, clump_dependents, clump_records, code_of, dynamic_defaults_of, static_defaults_of,
    table_of,
};
use nxt_rxe::{Header, Parts};
use nxt_types::NoMemory;
use nxt_types::lists::{Bytes, ClumpRecs, Entries, Words};
use std::alloc::Global;

/// The parts of the image of a program whose parts fit in a file.
pub fn sections_of(alloc: Global, draft: &Draft<'_>) -> Result<Parts, NoMemory>
    requires sound { IsSound draft.now }
    requires fits { PartsFit (text_of draft.now) }
    ensures { IfOk result (λ parts. parts ≡ parts_of (text_of draft.now)) }
{
    let toc = table(alloc, draft)?;
    let code = code(alloc, draft)?;
    let blocks = draft.program.blocks.as_slice();
    let clumps = clump_records(alloc, blocks, &draft.starts)?;
    let dependents = clump_dependents(alloc, blocks)?;
    let mut defaults = static_defaults_of(alloc, draft.program, &draft.constants)?;
    let dynamic = dynamic_defaults(alloc, draft)?;
    let header = header_of(draft, &toc, &defaults, &dynamic, &clumps, &code);
    defaults.append(dynamic.as_slice())?;
    Ok(Parts {
        header,
        toc,
        defaults,
        clumps,
        dependents,
        code,
    })
}

fn table(alloc: Global, draft: &Draft<'_>) -> Result<Entries, NoMemory>
    requires { PartsFit (text_of draft.now) }
    ensures { IfOk result (λ es. es ≡ (assembled (text_of draft.now)).entries) }
{
    table_of(
        alloc,
        draft.program.structs.as_slice(),
        &draft.measures,
        draft.types.as_slice(),
    )
}

fn code(alloc: Global, draft: &Draft<'_>) -> Result<Words, NoMemory>
    requires sound { IsSound draft.now }
    requires fits { PartsFit (text_of draft.now) }
    ensures { IfOk result (λ ws. ws ≡ (assembled (text_of draft.now)).words) }
{
    let numbers = Numbers::of(alloc, draft.program, &draft.measures, &draft.constants)?;
    code_of(alloc, draft.program, &numbers, &draft.starts)
}

fn dynamic_defaults(alloc: Global, draft: &Draft<'_>) -> Result<Bytes, NoMemory>
    requires sound { IsSound draft.now }
    requires fits { PartsFit (text_of draft.now) }
    ensures { IfOk result (λ bytes. bytes ≡ dynamic_defaults (text_of draft.now)) }
{
    dynamic_defaults_of(
        alloc,
        draft.program,
        &draft.measures,
        &draft.constants,
        draft.static_bytes,
    )
}

// The header of an image with these sections.
fn header_of(
    draft: &Draft<'_>,
    toc: &Entries,
    defaults: &Bytes,
    dynamic: &Bytes,
    clumps: &ClumpRecs,
    code: &Words,
) -> Header
    requires fits { PartsFit (text_of draft.now) }
    requires blocks { length draft.now.blocks ≤ 255 }
    requires toc { toc.now ≡ (assembled (text_of draft.now)).entries }
    requires defaults { defaults.now ≡ static_defaults (text_of draft.now) }
    requires dynamic { dynamic.now ≡ dynamic_defaults (text_of draft.now) }
    requires clumps { clumps.now ≡ (assembled (text_of draft.now)).clumps }
    requires code { code.now ≡ (assembled (text_of draft.now)).words }
    ensures { result ≡ header_of (text_of draft.now) }
{
    let static_size = draft.static_bytes as u16;
    let dyn_at = defaults.len() as u16;
    let dyn_size = dynamic.len() as u16;
    Header {
        toc_count: toc.len() as u16,
        initial: static_size + dyn_size,
        static_size,
        default_size: dyn_at + dyn_size,
        dyn_at,
        dyn_size,
        head: 0,
        tail: 0,
        dope_at: if dynamic.is_empty() { 0 } else { static_size },
        clump_count: clumps.len() as u16,
        word_count: code.len() as u16,
    }
}
