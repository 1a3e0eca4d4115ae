// The rules of the assembler, one after another.

ghost use Rattle.std.specs.Prelude.{◌≡◌, All, IfErr, IfOk, OnOk};
ghost use Rattle.nxt_types.specs.Refusals.{IsAccepted};
ghost use Rattle.nxt_model.specs.TextProgram.{text_of};
ghost use Rattle.nxt_asm_parts.specs.Defaults.{StartFits};
ghost use Rattle.nxt_asm_rules.specs.AsmRules.{Broken, start_footprint};
ghost use Rattle.nxt_asm_rules.specs.Kept.{KeepsJumps, KeepsSize, KeepsSizes, Refuses};

use crate::draft::{Draft, exact};
use crate::footprint::footprint;
use crate::jumps::far_jump;
use nxt_asm_rules::AsmFault;
use nxt_types::NoMemory;
use nxt_types::pool::POOL_BYTES;
use nxt_types::words::MOST_ENTRIES;

/// The most words of code.
const MOST_WORDS: u64 = 65_535;

/// Whether a program keeps the rules of the assembler: neither its table nor its code nor an array's element is too large,
/// no jump is too far, and the pool holds its variables at the start. It gives their footprint. A refusal is the first
/// broken rule at its least place.
pub fn check_rules(draft: &Draft<'_>) -> Result<u64, AsmFault>
    requires { All (λ v. StartFits v.shape v.start) draft.now.vars }
    ensures kept { OnOk result (IsAccepted (Broken (text_of draft.now))) }
    ensures footprint { IfOk result (λ n. n ≡ start_footprint (text_of draft.now)) }
    ensures refused { IfErr result (Refuses (text_of draft.now)) }
{
    check_sizes(draft)?;
    check_jumps(draft)?;
    check_footprint(draft)
}

// The rule of sizes.
fn check_sizes(draft: &Draft<'_>) -> Result<(), AsmFault>
    ensures kept { OnOk result (KeepsSizes (text_of draft.now)) }
    ensures refused { IfErr result (Refuses (text_of draft.now)) }
{
    let words = draft.starts.code_size();
    if draft.entries > u64::from(MOST_ENTRIES) {
        Err(AsmFault::TooLarge(0, size_told(draft.entries)?))
    } else if words > MOST_WORDS {
        Err(AsmFault::TooLarge(1, size_told(words)?))
    } else {
        check_elements(draft)
    }
}

// The rule of sizes, where neither the table nor the code is too large.
fn check_elements(draft: &Draft<'_>) -> Result<(), AsmFault>
    requires entries { KeepsSize (text_of draft.now) 0 }
    requires words { KeepsSize (text_of draft.now) 1 }
    ensures kept { OnOk result (KeepsSizes (text_of draft.now)) }
    ensures refused { IfErr result (Refuses (text_of draft.now)) }
{
    match draft.measures.large_element(draft.types.as_slice()) {
        Some(bytes) => Err(AsmFault::TooLarge(2, size_told(exact(bytes)?)?)),
        None => Ok(()),
    }
}

// A size as a refusal tells it. One that doesn't fit is that of a program in no memory.
fn size_told(size: u64) -> Result<u32, NoMemory>
    ensures { IfOk result (λ n. n ≡ size) }
{
    if size > u64::from(u32::MAX) {
        Err(NoMemory)
    } else {
        Ok(size as u32)
    }
}

// The rule of jumps.
fn check_jumps(draft: &Draft<'_>) -> Result<(), AsmFault>
    requires { KeepsSizes (text_of draft.now) }
    ensures kept { OnOk result (KeepsJumps (text_of draft.now)) }
    ensures refused { IfErr result (Refuses (text_of draft.now)) }
{
    match far_jump(draft.program.blocks.as_slice(), &draft.starts) {
        Some(line) => Err(AsmFault::FarJump(line)),
        None => Ok(()),
    }
}

// The rule of the pool. It gives the footprint at the start.
fn check_footprint(draft: &Draft<'_>) -> Result<u64, AsmFault>
    requires starts { All (λ v. StartFits v.shape v.start) draft.now.vars }
    requires sizes { KeepsSizes (text_of draft.now) }
    requires jumps { KeepsJumps (text_of draft.now) }
    ensures kept { OnOk result (IsAccepted (Broken (text_of draft.now))) }
    ensures footprint { IfOk result (λ n. n ≡ start_footprint (text_of draft.now)) }
    ensures refused { IfErr result (Refuses (text_of draft.now)) }
{
    let bytes = footprint(draft)?;
    if bytes > POOL_BYTES {
        Err(AsmFault::PoolPassed(bytes))
    } else {
        Ok(bytes)
    }
}
