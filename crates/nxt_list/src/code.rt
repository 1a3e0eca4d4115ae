// The lines of the statements.

ghost use Rattle.std.specs.Prelude.{◌≡◌, ◌++◌, ◌∷◌, [], flat_map, OnOk};
ghost use Rattle.nxt_model.specs.LineText.{fields, fields_then};
ghost use Rattle.nxt_types.specs.Mnemonics.{cmp_name as name_of_comparison};
ghost use Rattle.nxt_types.specs.Statements.{IsWhole, statement_of, statements};
ghost use Rattle.nxt_code.specs.Decoding.{IsDecoded, placed_of};
ghost use Rattle.nxt_list.specs.Listing.{statement_line, operand_fields, operand_field, comparison_fields, is_signed as has_sign};

use crate::fields::{push_number, push_signed, push_text};
use nxt_code::{Decoded, StatementAt};
use nxt_types::instr::{Instr, Op};
use nxt_types::kind::Cmp;
use nxt_types::opcodes::Class;
use nxt_types::{Bytes, NoMemory};

/// Adds a line for each statement of the code (Executable File Specification, "Bytecode Instructions").
pub fn push_statements(into: &mut Bytes, words: &[u16], code: &Decoded) -> Result<(), NoMemory>
    requires { IsDecoded words.now code.now }
    ensures { OnOk result (into.new ≡ into.old ++ flat_map statement_line (statements words.now)) }
{
    for placed in &code.placed {
        push_statement(into, words, placed)?;
    }
    Ok(())
}

fn push_statement(into: &mut Bytes, words: &[u16], placed: &StatementAt) -> Result<(), NoMemory>
    requires { IsWhole words.now placed.now.instr }
    ensures { OnOk result (into.new ≡ into.old ++ statement_line (placed_of words.now placed.now)) }
{
    let instr = &placed.instr;
    into.append(b"code")?;
    push_number(into, placed.word as usize)?;
    push_text(into, instr.op.name())?;
    push_comparison(into, instr.op, instr.cmp)?;
    push_operands(into, words, instr)
}

// Adds the comparison of an operation that has one.
fn push_comparison(into: &mut Bytes, op: Op, cmp: Cmp) -> Result<(), NoMemory>
    ensures { OnOk result (into.new ≡ into.old ++ fields_then (comparison_fields op cmp) []) }
{
    if op.has_comparison() {
        push_text(into, cmp_name(cmp))
    } else {
        Ok(())
    }
}

fn cmp_name(cmp: Cmp) -> &'static str
    ensures { result.now ≡ name_of_comparison cmp }
{
    match cmp {
        Cmp::Lt => "LT",
        Cmp::Gt => "GT",
        Cmp::Lteq => "LTEQ",
        Cmp::Gteq => "GTEQ",
        Cmp::Eq => "EQ",
        Cmp::Neq => "NEQ",
    }
}

// Adds the operands, which end the line.
fn push_operands(into: &mut Bytes, words: &[u16], instr: &Instr) -> Result<(), NoMemory>
    requires { IsWhole words.now instr.now }
    ensures { OnOk result (into.new ≡ into.old ++ fields (operand_fields instr.now.op (statement_of instr.now words.now).args)) }
{
    for k in 0..instr.operand_count(words) {
        push_operand(into, instr.op, k, instr.operand(words, k))?;
    }
    into.push(b'\n')
}

fn push_operand(into: &mut Bytes, op: Op, k: usize, word: u16) -> Result<(), NoMemory>
    ensures { OnOk result (into.new ≡ into.old ++ 44 ∷ operand_field op (k, word)) }
{
    if is_signed(op, k) {
        push_signed(into, word.cast_signed())
    } else {
        push_number(into, usize::from(word))
    }
}

// Whether operand k, counted from 0, has a sign.
fn is_signed(op: Op, k: usize) -> bool
    ensures { result ≡ has_sign op k }
{
    matches!(op, Op::Finclump) || matches!(op.class(k), Class::Offset)
}
