// Statements out of words.

ghost use Rattle.std.specs.Prelude.{◌≡◌, ◌+◌, ◌≤◌, ◌<◌, ◌==◌, ℕ, [], Bool, false, length, drop, if◌then◌else◌, IsTrue, IfOk, IfErr, Some, None, slice_get};
ghost use Rattle.nxt_types.specs.Opcodes.{arity, takes, has_comparison, op_of, exactly, several};
ghost use Rattle.nxt_types.specs.Statements.{Statement, statement, statement_at, IsStatement, IsWhole, statement_of, short_forms, short_form, Short, two, one, sized_form, fixed_form, wait_form, comparison_of, by_arity, long_form, plus_argument};
ghost use Rattle.nxt_instr.specs.Decoded.{instr_of, decoded, placed, closed, open_ended, operand, form_by};

use nxt_types::instr::{Instr, Op};
use nxt_types::kind::Cmp;
use nxt_types::opcodes::Arity;
use nxt_types::words::LEFT_OUT;

/// No statement is spelled at this word of the code.
#[derive(Clone, Copy, PartialEq, Eq, Debug)]
pub struct InstrFault(pub u32);

/// The statement at a word of the code, and its length in words (Executable File Specification, "Bytecode
/// Instructions" and "Short Instruction Encodings"). It takes no memory.
pub fn decode(words: &[u16], at: u32) -> Result<(Instr, u32), InstrFault>
    requires inside { at < length words.now }
    requires few { length words.now ≤ 4294967295 }
    ensures found { IfOk result (λ r. IsStatement words.now at (statement_of r.0 words.now) r.1) }
    ensures fields { IfOk result (λ r. r.0 ≡ instr_of at (statement_of r.0 words.now)) }
    ensures within { IfOk result (λ r. at + r.1 ≤ length words.now) }
    ensures some { IfOk result (λ r. 1 ≤ r.1) }
    ensures whole { IfOk result (λ r. IsWhole words.now r.0) }
    ensures plain { IfOk result (λ r. has_comparison r.0.op ≡ false → r.0.cmp ≡ Cmp.Lt) }

    ensures fault { IfErr result (λ f. (f.0 ≡ at) × (statement_at (drop at words.now) ≡ None)) }

    // A law over the definition, which is proved here: at most one statement is spelled at a word.
    ensures only { (s t : Statement) (m n : ℕ) →
        IsStatement words.now at s m → IsStatement words.now at t n → (s ≡ t) × (m ≡ n) }
{
    match spelled(&words[at as usize..], at) {
        Some(found) => Ok(found),
        None => Err(InstrFault(at)),
    }
}

// The statement at the front of the words from `at` on. In the high byte of its first word the upper half is the size in
// bytes, bit 3 marks a short form, and the lowest three bits are the number of the short form or of the comparison.
fn spelled(words: &[u16], at: u32) -> Option<(Instr, u32)>
    requires { at + length words.now ≤ 4294967295 }
    ensures { result ≡ decoded at (statement_at words.now) }
{
    let [first, rest @ ..] = words else {
        return None;
    };
    let size = *first / 4096;
    let bits = (*first / 256 % 8) as u8;
    let low = (*first % 256) as u8;
    if *first / 2048 % 2 == 1 {
        short_form(bits, size, low, rest, at)
    } else {
        long_form(low, bits, size, rest, at)
    }
}

// A short form ("Short Instruction Encodings").
fn short_form(number: u8, size: u16, argument: u8, rest: &[u16], at: u32) -> Option<(Instr, u32)>
    ensures { result ≡ decoded at (short_form (slice_get short_forms number) size argument rest.now) }
{
    match number {
        0 => short_pair(Op::Mov, size, argument, rest),
        1 => short_one(Op::Acquire, size, argument),
        2 => short_one(Op::Release, size, argument),
        3 => short_pair(Op::Subcall, size, argument, rest),
        _ => None,
    }
}

// The second operand follows, and the argument leads from it to the first.
fn short_pair(op: Op, size: u16, argument: u8, rest: &[u16]) -> Option<(Instr, u32)>
    ensures { result ≡ placed (exactly 2) 0 (short_form (Some (two op)) size argument rest.now) }
{
    if size != 4 {
        return None;
    }
    let [second, ..] = rest else {
        return None;
    };
    let operands = [moved(argument, *second), *second];
    Some((closed(op, Cmp::Lt, &operands), 2))
}

// The argument is the operand.
fn short_one(op: Op, size: u16, argument: u8) -> Option<(Instr, u32)>
    ensures { result ≡ placed (exactly 1) 0 (short_form (Some (one op)) size argument []) }
{
    if size != 2 {
        return None;
    }
    let operands = [moved(argument, 0)];
    Some((closed(op, Cmp::Lt, &operands), 1))
}

// An operand and a signed argument, modulo 65,536.
fn moved(argument: u8, operand: u16) -> u16
    ensures { result ≡ plus_argument argument operand }
{
    let high = if argument < 128 { 0 } else { 0xFF00 };
    operand.wrapping_add(high + u16::from(argument))
}

// A long form.
fn long_form(code: u8, bits: u8, size: u16, rest: &[u16], at: u32) -> Option<(Instr, u32)>
    requires { at + 1 + length rest.now ≤ 4294967295 }
    ensures { result ≡ decoded at (long_form (op_of code) size bits rest.now) }
{
    let op = Op::from_code(code)?;
    let cmp = comparison(op, bits)?;
    match op {
        Op::Wait => wait_form(size, rest),
        _ => by_arity(op, cmp, size, rest, at),
    }
}

// The comparison that the first word names; `Lt` where the operation has none.
fn comparison(op: Op, bits: u8) -> Option<Cmp>
    ensures { result ≡ comparison_of op bits }
{
    if op.has_comparison() {
        Cmp::from_number(bits)
    } else {
        Some(Cmp::Lt)
    }
}

// The long form of an operation that isn't wait.
fn by_arity(op: Op, cmp: Cmp, size: u16, rest: &[u16], at: u32) -> Option<(Instr, u32)>
    requires { at + 1 + length rest.now ≤ 4294967295 }
    ensures { result ≡ placed (arity op) at (form_by op (arity op) cmp size rest.now) }
{
    match op.arity() {
        Arity::Exactly(count) => fixed_form(op, cmp, count, size, rest),
        Arity::Several | Arity::Pairs => sized_form(op, size, rest, at),
    }
}

// One operand, or one that isn't kept and then that one.
fn wait_form(size: u16, rest: &[u16]) -> Option<(Instr, u32)>
    ensures { result ≡ placed (exactly 1) 0 (wait_form size rest.now) }
{
    if size != 6 {
        return fixed_form(Op::Wait, Cmp::Lt, 1, size, rest);
    }
    let [_, milliseconds, ..] = rest else {
        return None;
    };
    let operands = [*milliseconds];
    Some((closed(Op::Wait, Cmp::Lt, &operands), 3))
}

// A long form of `count` operands.
fn fixed_form(op: Op, cmp: Cmp, count: u8, size: u16, rest: &[u16]) -> Option<(Instr, u32)>
    ensures { result ≡ placed (exactly count) 0 (fixed_form op cmp count size rest.now) }
{
    if size != 2 + 2 * u16::from(count) || rest.len() < usize::from(count) {
        return None;
    }
    let operands = &rest[..usize::from(count)];
    Some((closed(op, cmp, operands), 1 + u32::from(count)))
}

// A long form with a size word, the size in bytes, in front of its operands.
fn sized_form(op: Op, size: u16, rest: &[u16], at: u32) -> Option<(Instr, u32)>
    requires within { at + 1 + length rest.now ≤ 4294967295 }
    requires some { takes (arity op) 0 ≡ false }
    ensures { result ≡ placed several at (if size == 14 then sized_form op rest.now else None) }
{
    let [bytes, rest @ ..] = rest else {
        return None;
    };
    let count = (bytes / 2).saturating_sub(2);
    if size != 14 || bytes % 2 != 0 || !op.arity().takes(usize::from(count)) {
        return None;
    }
    if rest.len() < usize::from(count) {
        return None;
    }
    let operands = &rest[..usize::from(count)];
    Some((open_ended(op, operands, at + 3), 2 + u32::from(count)))
}

// An instruction of fixed operands.
fn closed(op: Op, cmp: Cmp, operands: &[u16]) -> Instr
    ensures { result ≡ closed (statement op cmp operands.now) }
{
    Instr {
        op,
        cmp,
        a: operand(operands, 0),
        b: operand(operands, 1),
        c: operand(operands, 2),
        d: operand(operands, 3),
        e: operand(operands, 4),
        rest_at: 0,
        rest: 0,
    }
}

// An instruction of a first operand and others, which stand at a word.
fn open_ended(op: Op, operands: &[u16], rest_at: u32) -> Instr
    requires { length operands.now < 65536 }
    ensures { (at : ℕ) → at + 3 ≡ rest_at → result ≡ open_ended at (statement op Cmp.Lt operands.now) }
{
    Instr {
        op,
        cmp: Cmp::Lt,
        a: operand(operands, 0),
        b: LEFT_OUT,
        c: LEFT_OUT,
        d: LEFT_OUT,
        e: LEFT_OUT,
        rest_at,
        rest: operands.len().saturating_sub(1) as u16,
    }
}

fn operand(operands: &[u16], k: usize) -> u16
    ensures { result ≡ operand k operands.now }
{
    operands.get(k).copied().unwrap_or(LEFT_OUT)
}
