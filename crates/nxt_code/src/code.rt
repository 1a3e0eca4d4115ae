// Accepted code.

ghost use Rattle.std.specs.Prelude.{◌≡◌, ◌⊎◌, ◌≤◌, length, IfOk, IfErr, IfNone, IfSome, OnOk};
ghost use Rattle.nxt_types.specs.Refusals.{IsAccepted, IsRefusal};
ghost use Rattle.nxt_rxe.specs.Files.{dependent_count};
ghost use Rattle.nxt_code.specs.CodeRules.{program, Broken, rank, is_bad_count, IsFit};
ghost use Rattle.nxt_code.specs.Decoding.{IsDecoded};
ghost use Rattle.nxt_code.specs.Inside.Places.{Finds};

use crate::clumps::{bad_dependent, bad_start};
use crate::fault::CodeFault;
use crate::jumps::{missing_statement, open_end, stray_jump};
use crate::operands::bad_operand;
use crate::statements::{Decoded, decode_all};
use nxt_types::NoMemory;
use nxt_types::lists::{Bytes, ClumpRec, ClumpRecs, Words};
use nxt_types::toc::Toc;
use std::alloc::Global;

/// Code that no rule refuses, with the clumps that run it and its statements (Executable File Specification, "Clump Records"
/// and "Bytecode Instructions").
#[derive(Drop)]
pub struct Code {
    pub words: Words,
    pub clumps: ClumpRecs,
    /// The dependents of each clump, one clump after another.
    pub dependents: Bytes,
    pub decoded: Decoded,
}

impl Code {
    /// The code words.
    pub fn words(&self) -> &[u16]
        ensures { result.now ≡ self.now.words }
    {
        self.words.as_slice()
    }

    /// The clump records.
    pub fn clumps(&self) -> &ClumpRecs
        ensures { result.now ≡ self.now.clumps }
    {
        &self.clumps
    }

    /// The dependents of each clump, one clump after another.
    pub fn dependents(&self) -> &Bytes
        ensures { result.now ≡ self.now.dependents }
    {
        &self.dependents
    }
}

/// The code with its clumps, if no rule refuses them for the table's variables. A dependent is the number of a clump, and
/// each clump has as many as its record says, one clump after another.
pub fn check_code(
    alloc: Global,
    toc: &Toc,
    clumps: ClumpRecs,
    dependents: Bytes,
    words: Words,
) -> Result<Code, CodeFault>
    requires dependents { length dependents ≡ dependent_count clumps }
    requires few_clumps { length clumps ≤ 65535 }
    requires few_words { length words ≤ 65535 }
    ensures found { OnOk result (IsAccepted (Broken (program toc.now.shapes clumps dependents words))) }
    // Each clump starts at a statement, and each statement is fit to run.
    ensures fit { OnOk result (IsFit (program toc.now.shapes clumps dependents words)) }
    ensures parts { IfOk result (λ c. (c.words ≡ words) × (c.clumps ≡ clumps) × (c.dependents ≡ dependents)) }
    ensures decoded { IfOk result (λ c. IsDecoded words c.decoded) }

    // A refusal is the first rule in order of number, at its least place.
    ensures refused { IfErr result (λ f. (f ≡ CodeFault.NoMemory)
        ⊎ IsRefusal (Broken (program toc.now.shapes clumps dependents words)) rank f) }
{
    let decoded = decode_all(alloc, words.as_slice())?;
    match first_fault(
        alloc,
        toc,
        clumps.as_slice(),
        dependents.as_slice(),
        words.as_slice(),
        &decoded,
    )? {
        Some(fault) => Err(fault),
        None => Ok(Code {
            words,
            clumps,
            dependents,
            decoded,
        }),
    }
}

// The first broken rule, at its least place.
fn first_fault(
    alloc: Global,
    toc: &Toc,
    clumps: &[ClumpRec],
    dependents: &[u8],
    words: &[u16],
    code: &Decoded,
) -> Result<Option<CodeFault>, NoMemory>
    requires dependents { length dependents.now ≡ dependent_count clumps.now }
    requires few_clumps { length clumps.now ≤ 65535 }
    requires few_words { length words.now ≤ 65535 }
    requires decoded { IsDecoded words.now code.now }
    ensures none { IfOk result (λ f. IfNone f (IsAccepted (Broken (program toc.now.shapes clumps.now dependents.now words.now)))) }
    ensures some { IfOk result (λ f. IfSome f (IsRefusal (Broken (program toc.now.shapes clumps.now dependents.now words.now)) rank)) }
{
    if let Some(count) = bad_count(clumps.len()) {
        return Ok(Some(CodeFault::ClumpCount(count)));
    }
    if let Some(clump) = bad_start(code, words, clumps) {
        return Ok(Some(CodeFault::ClumpStart(clump)));
    }
    if let Some((clump, position)) = bad_dependent(clumps, dependents) {
        return Ok(Some(CodeFault::Dependent(clump, position)));
    }
    if let Some(word) = missing_statement(code, words) {
        return Ok(Some(CodeFault::Instr(word)));
    }
    if let Some((word, operand)) = bad_operand(alloc, toc, clumps.len(), code, words)? {
        return Ok(Some(CodeFault::Operand(word, operand)));
    }
    if let Some(word) = stray_jump(code, words) {
        return Ok(Some(CodeFault::Jump(word)));
    }
    if let Some(word) = open_end(code, words) {
        return Ok(Some(CodeFault::FallsOut(word)));
    }
    Ok(None)
}

// A number of clumps that no file may have.
fn bad_count(clumps: usize) -> Option<u32>
    requires { clumps ≤ 65535 }
    ensures { Finds (is_bad_count clumps) result }
{
    if clumps == 0 || clumps > 255 {
        Some(clumps as u32)
    } else {
        None
    }
}
