// The rule of operands.

ghost use Rattle.std.specs.Prelude.{◌≡◌, ◌<◌, length, IfOk, OnOk};
ghost use Rattle.nxt_types.specs.Shapes.{Members};
ghost use Rattle.nxt_types.specs.Statements.{IsWhole, statement_of};
ghost use Rattle.nxt_types.specs.OperandRules.{sort_of, sort_at, shape_of as shape_of_sort, operand_fits as is_fit};
ghost use Rattle.nxt_operand_rules.specs.SeenOf.{seen as seen_of};
ghost use Rattle.nxt_code.specs.CodeRules.{is_refused_operand, is_bad_operand};
ghost use Rattle.nxt_code.specs.Decoding.{IsDecoded};
ghost use Rattle.nxt_code.specs.Inside.KnownShapes.{shape_by, IsKnown};
ghost use Rattle.nxt_code.specs.OperandsSeen.{operands, shape_seen};
ghost use Rattle.nxt_code.specs.Inside.Places.{Finds, FindsPair};

use crate::between::fits_others;
use crate::known::Known;
use crate::shapes::seen;
use crate::statements::Decoded;
use nxt_operand_rules::{Seen, is_allowed, is_of_class};
use nxt_types::NoMemory;
use nxt_types::instr::Instr;
use nxt_types::opcodes::Class;
use nxt_types::shape::Shape;
use nxt_types::toc::Toc;
use nxt_types::words::{LEFT_OUT, NAMELESS};
use std::alloc::Global;

/// The word of the first statement with an operand that isn't of its class, and the first such operand, counted from 1.
pub fn bad_operand(
    alloc: Global,
    toc: &Toc,
    clumps: usize,
    code: &Decoded,
    words: &[u16],
) -> Result<Option<(u32, u32)>, NoMemory>
    requires { IsDecoded words.now code.now }
    ensures { IfOk result (FindsPair (is_bad_operand toc.now.shapes clumps words.now)) }
{
    let mut known = Known::new(alloc);
    for placed in &code.placed {
        if let Some(operand) = refused_operand(&mut known, toc, clumps, &placed.instr, words)? {
            return Ok(Some((placed.word, operand)));
        }
    }
    Ok(None)
}

// The first operand of a statement that isn't of its class or doesn't fit those before it, counted from 1.
fn refused_operand(
    known: &mut Known,
    toc: &Toc,
    clumps: usize,
    instr: &Instr,
    words: &[u16],
) -> Result<Option<u32>, NoMemory>
    requires whole { IsWhole words.now instr.now }
    requires known { IsKnown toc.now.shapes known.old }
    ensures found { IfOk result (Finds (λ k. is_refused_operand toc.now.shapes clumps k (statement_of instr.now words.now))) }
    ensures known { OnOk result (IsKnown toc.now.shapes known.new) }
{
    for k in 0..instr.operand_count(words) {
        if !operand_fits(known, toc, clumps, instr, words, k)? {
            return Ok(Some(k as u32 + 1));
        }
    }
    Ok(None)
}

// Whether operand k, counted from 0, is of its class, and fits those before it.
fn operand_fits(
    known: &mut Known,
    toc: &Toc,
    clumps: usize,
    instr: &Instr,
    words: &[u16],
    k: usize,
) -> Result<bool, NoMemory>
    requires whole { IsWhole words.now instr.now }
    requires within { k < length (statement_of instr.now words.now).args }
    requires known { IsKnown toc.now.shapes known.old }
    ensures fits { IfOk result (λ fits. fits ≡ is_fit clumps instr.now.op (operands toc.now.shapes instr.now words.now) k) }
    ensures known { OnOk result (IsKnown toc.now.shapes known.new) }
{
    let class = instr.op.class(k);
    let operand = seen_at(toc, instr, words, k);
    if !is_of_class(clumps, class, operand) || !is_allowed(instr.op, k, operand.word()) {
        return Ok(false);
    }
    fits_others(known, toc, instr, words, k)
}

/// The word of operand k where it names a part, counted from 0; else one that names nothing.
pub fn name_at(instr: &Instr, words: &[u16], k: usize) -> u16
    requires { IsWhole words.now instr.now }
    ensures { (ss : Members) → shape_by ss result ≡ shape_of_sort (sort_at (operands ss instr.now words.now) k) }
{
    if k >= instr.operand_count(words) {
        return LEFT_OUT;
    }
    let class = instr.op.class(k);
    let word = instr.operand(words, k);
    name_of(class, word)
}

/// What is seen of operand k, counted from 0.
pub fn seen_at(toc: &Toc, instr: &Instr, words: &[u16], k: usize) -> Seen
    requires { IsWhole words.now instr.now }
    ensures { result ≡ seen_of (sort_at (operands toc.now.shapes instr.now words.now) k) }
{
    if k >= instr.operand_count(words) {
        return Seen::Nothing;
    }
    let class = instr.op.class(k);
    let word = instr.operand(words, k);
    seen_in(toc, class, word)
}

// What is seen of an operand of the class, by its word.
fn seen_in(toc: &Toc, class: Class, word: u16) -> Seen
    ensures { result ≡ seen_of (sort_of toc.now.shapes class word) }
{
    match class {
        Class::Immediate | Class::Clump | Class::Offset => Seen::Word(word),
        Class::OptionalOut | Class::OptionalIn => {
            if word == LEFT_OUT {
                Seen::Absent
            } else {
                seen(named(toc, word))
            }
        }
        _ => seen(named(toc, word)),
    }
}

// The word of an operand of the class where it names a part; else one that names nothing.
fn name_of(class: Class, word: u16) -> u16
    ensures { (ss : Members) → shape_by ss result ≡ shape_of_sort (sort_of ss class word) }
{
    match class {
        Class::Immediate | Class::Clump | Class::Offset => LEFT_OUT,
        _ => word,
    }
}

/// The shape of the part that a word names.
pub fn named(toc: &Toc, word: u16) -> Option<&Shape>
    ensures { shape_seen result ≡ shape_by toc.now.shapes word }
{
    if word < NAMELESS {
        toc.shape(word)
    } else {
        None
    }
}
