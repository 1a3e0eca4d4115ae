// A program with what its image is made from.

ghost use Rattle.std.specs.Prelude.{◌≡◌, ◌+◌, ℕ, IfOk};
ghost use Rattle.nxt_asm_parts.specs.Measures.{held};

use nxt_asm_parts::{Constants, Measures, Starts, measure_together, types_of};
use nxt_model::nbc::{NbcProgram, NbcTypes};
use nxt_types::NoMemory;
use std::alloc::Global;
use std::marker::Model;

/// A program with what is found in it once: the measures of its structs, its constants, where its statements begin, and of
/// all variables and constants together the types, the table entries, the static bytes and the arrays.
#[derive(Drop)]
pub struct Draft<'p> {
    pub program: &'p NbcProgram,
    pub measures: Measures,
    pub constants: Constants<'p>,
    pub starts: Starts,
    pub types: NbcTypes,
    pub entries: u64,
    pub static_bytes: u64,
    pub arrays: u64,
}

impl<'p> Model for Draft<'p> {
    ghost use Rattle.nxt_model.specs.declared.nbc.NbcProgram.{NbcProgram};
    ghost use Rattle.nxt_asm.specs.Drafts.{IsFound, AreCounted};

    ghost Value = { NbcProgram };

    ghost view = { λ d. d.program.now };

    ghost invariant = { λ d. IsFound d.program.now d.measures d.constants d.starts d.types × AreCounted d.program.now d.entries d.static_bytes d.arrays };
}

impl<'p> Draft<'p> {
    /// That of a program. Counts that don't fit their fields are in no memory.
    pub fn of(alloc: Global, program: &'p NbcProgram) -> Result<Draft<'p>, NoMemory>
        ensures { IfOk result (λ d. d ≡ program.now) }
    {
        let measures = Measures::of(alloc, program.structs.as_slice())?;
        let constants = Constants::of(alloc, program.blocks.as_slice())?;
        let starts = Starts::of(alloc, program.blocks.as_slice())?;
        let types = types_of(alloc, program, &constants)?;
        let whole = measure_together(&measures, types.as_slice());
        let entries = exact(whole.entries)?.saturating_sub(1);
        let static_bytes = exact(whole.bytes())?;
        let arrays = exact(whole.arrays)?;
        Ok(Draft {
            program,
            measures,
            constants,
            starts,
            types,
            entries,
            static_bytes,
            arrays,
        })
    }
}

/// A count that was held at the greatest number where it didn't fit.
pub fn exact(count: u64) -> Result<u64, NoMemory>
    ensures { (n : ℕ) → count ≡ held n → IfOk result (λ m. m ≡ n) }
{
    if count == u64::MAX {
        Err(NoMemory)
    } else {
        Ok(count)
    }
}
