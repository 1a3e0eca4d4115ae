// What the operands of a line stand for, by their classes.

ghost use Rattle.std.specs.Prelude.{◌≡◌, if◌then◌else◌, length, IfOk, true};
ghost use Rattle.nxt_types.specs.Opcodes.{arity, takes};
ghost use Rattle.nxt_types.specs.OperandRules.{is_destination as is_destination_of, stores_nothing as stores_nothing_of};
ghost use Rattle.nxt_model.specs.Nbc.NbcRules.{sort_of_denoted, sort_of_number, sort_of_term, sorts_of, word_for as word_for_number};
ghost use Rattle.nxt_model.specs.declared.nbc.NbcBase.TheVariants.{Number};
ghost use Rattle.nxt_nbc_lines.specs.Seen.{term_seen, terms_seen};
ghost use Rattle.nxt_nbc_names.specs.DenotedSeen.{denoted_seen};
ghost use Rattle.nxt_nbc_names.specs.SourceSeen.{source_seen};
ghost use Rattle.nxt_model.specs.Nbc.Structs.{Types};
ghost use Rattle.nxt_nbc_kinds.specs.OperandsSeen.{operand_seen, operands_seen};
ghost use Rattle.nxt_nbc_kinds.specs.declared.operand.Operand.TheVariants.{Part, Unknown};

use crate::operand::{Operand, Operands};
use nxt_model::nbc::{NbcBase, NbcType};
use nxt_nbc_lines::Term;
use nxt_nbc_names::{Denoted, Source};
use nxt_types::NoMemory;
use nxt_types::instr::Op;
use nxt_types::kind::Kind;
use nxt_types::opcodes::Class;
use std::alloc::Global;

/// What a statement's operands are, at a line.
pub fn operands_of<'a>(
    alloc: Global,
    source: &Source<'_, 'a>,
    line: u32,
    op: Op,
    terms: &[Term<'a>],
) -> Result<Operands, NoMemory>
    requires { takes (arity op) (length terms.now) ≡ true }
    ensures { IfOk result (λ os. operands_seen source.now.structs os ≡ sorts_of (source_seen source.now) line op (terms_seen terms.now)) }
{
    let mut operands = Operands::new(alloc);
    for (k, term) in terms.iter().enumerate() {
        let operand = operand_of(
            alloc,
            source,
            line,
            op.class(k),
            is_destination(op, k),
            term,
        )?;
        operands.push(operand)?;
    }
    Ok(operands)
}

// What an operand of a class is, in which something is stored or isn't.
fn operand_of<'a>(
    alloc: Global,
    source: &Source<'_, 'a>,
    line: u32,
    class: Class,
    stored: bool,
    term: &Term<'a>,
) -> Result<Operand, NoMemory>
    ensures { IfOk result (λ o. operand_seen source.now.structs o ≡ sort_of_term (source_seen source.now) line class stored (term_seen term.now)) }
{
    let optional = matches!(class, Class::OptionalOut | Class::OptionalIn);
    if optional && source.is_left_out(line, term) {
        return Ok(Operand::Absent);
    }
    let denoted = source.denoted(alloc, line, term)?;
    Ok(operand_denoted(class, stored, &denoted))
}

// The same by what it stands for.
fn operand_denoted(class: Class, stored: bool, denoted: &Denoted<'_>) -> Operand
    ensures { (t : Types) → operand_seen t result ≡ sort_of_denoted class stored (denoted_seen t denoted.now) }
{
    match denoted {
        Denoted::Part(part) => Operand::Part(part.shape),
        Denoted::Number(z) => operand_number(class, stored, *z),
        Denoted::Text(_) => constant(stored, Kind::Ubyte, 1),
        Denoted::Block(_, true) => Operand::Word(0),
        Denoted::Block(_, false) | Denoted::Type | Denoted::Missing => Operand::Unknown,
    }
}

fn operand_number(class: Class, stored: bool, z: i64) -> Operand
    ensures { (t : Types) → operand_seen t result ≡ sort_of_number class stored z }
{
    match class {
        Class::Immediate => Operand::Word(word_for(z)),
        _ => constant(stored, Kind::Slong, 0),
    }
}

// A constant of numbers, in which nothing can be stored.
fn constant(stored: bool, kind: Kind, arrays: usize) -> Operand
    ensures { result ≡ (if stored then Unknown else Part (record { base = Number kind; arrays = arrays })) }
{
    if stored {
        Operand::Unknown
    } else {
        Operand::Part(NbcType {
            base: NbcBase::Number(kind),
            arrays,
        })
    }
}

// An immediate's word. A number that has none counts as the greatest.
fn word_for(z: i64) -> u16
    ensures { result ≡ word_for_number z }
{
    if 0 <= z && z < 65536 { z as u16 } else { 65535 }
}

// Whether a value is stored in operand k, counted from 0.
fn is_destination(op: Op, k: usize) -> bool
    ensures { result ≡ is_destination_of op k }
{
    match op {
        Op::Unflatten | Op::Strtonum => k <= 1,
        Op::Subcall | Op::Syscall => k == 1,
        _ => !stores_nothing(op) && k == 0,
    }
}

// Whether no operand is stored in.
fn stores_nothing(op: Op) -> bool
    ensures { result ≡ stores_nothing_of op }
{
    matches!(
        op,
        Op::Jmp
            | Op::Brcmp
            | Op::Brtst
            | Op::Stop
            | Op::Finclump
            | Op::Finclumpimmed
            | Op::Acquire
            | Op::Release
            | Op::Subret
            | Op::Setin
            | Op::Setout
            | Op::Wait
    )
}
