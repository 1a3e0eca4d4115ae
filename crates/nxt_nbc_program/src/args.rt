// The operands of statements.

ghost use Rattle.std.specs.Prelude.{◌≡◌, ◌^◌, List, length, map, pos, true, IfOk};
ghost use Rattle.nxt_types.specs.Opcodes.{arity, takes};
ghost use Rattle.nxt_types.specs.declared.opcodes.Class.TheVariants.{Offset};
ghost use Rattle.nxt_model.specs.Nbc.Text.{LabelAt, arg_of, args_of, denoted_arg, is_word, label_arg, number_arg};
ghost use Rattle.nxt_nbc_lines.specs.Seen.{term_seen, terms_seen};
ghost use Rattle.nxt_nbc_names.specs.DenotedSeen.{denoted_seen};
ghost use Rattle.nxt_nbc_names.specs.SourceSeen.{source_seen};
ghost use Rattle.nxt_model.specs.Nbc.Structs.{Types};
ghost use Rattle.nxt_nbc_program.specs.Classes.{is_optional};
ghost use Rattle.nxt_nbc_program.specs.Fits.{AreBelow, IsDenoted, LabelsFit, SourceFits};

use crate::types::copy_of_bytes;
use nxt_model::nbc::{NbcArg, NbcArgs};
use nxt_nbc_lines::Term;
use nxt_nbc_names::{Denoted, Labels, Source};
use nxt_types::NoMemory;
use nxt_types::instr::Op;
use nxt_types::kind::Kind;
use nxt_types::lists::Nums;
use nxt_types::numbers::cut;
use nxt_types::opcodes::Class;
use std::alloc::Global;

/// The operands of a statement.
pub fn args_of<'a>(
    alloc: Global,
    source: &Source<'_, 'a>,
    labels: &Labels<'a>,
    line: u32,
    op: Op,
    terms: &[Term<'a>],
) -> Result<NbcArgs, NoMemory>
    requires takes { takes (arity op) (length terms.now) ≡ true }
    requires source { SourceFits (source_seen source.now) }
    requires labels { LabelsFit labels.now }
    ensures { IfOk result (λ xs. xs ≡ args_of (source_seen source.now) labels.now line op (terms_seen terms.now)) }
{
    let mut args = NbcArgs::new(alloc);
    for (k, term) in terms.iter().enumerate() {
        let arg = arg_of(alloc, source, labels, line, op.class(k), term)?;
        args.push(arg)?;
    }
    Ok(args)
}

// An operand of a class.
fn arg_of<'a>(
    alloc: Global,
    source: &Source<'_, 'a>,
    labels: &Labels<'a>,
    line: u32,
    class: Class,
    term: &Term<'a>,
) -> Result<NbcArg, NoMemory>
    requires source { SourceFits (source_seen source.now) }
    requires labels { LabelsFit labels.now }
    ensures { IfOk result (λ x. x ≡ arg_of (source_seen source.now) labels.now line class (term_seen term.now)) }
{
    match class {
        Class::Offset => Ok(label_arg(labels, term)),
        _ => value_arg(alloc, source, line, class, term),
    }
}

// An operand that is no label.
fn value_arg<'a>(
    alloc: Global,
    source: &Source<'_, 'a>,
    line: u32,
    class: Class,
    term: &Term<'a>,
) -> Result<NbcArg, NoMemory>
    requires { SourceFits (source_seen source.now) }
    ensures { (ls : List LabelAt) → (class ≡ Offset → ⊥) → IfOk result (λ x. x ≡ arg_of (source_seen source.now) ls line class (term_seen term.now)) }
{
    if is_optional(class) && source.is_left_out(line, term) {
        return Ok(NbcArg::Left);
    }
    denoted_arg(alloc, class, source.denoted(alloc, line, term)?)
}

// Whether an operand of a class may be left out.
fn is_optional(class: Class) -> bool
    ensures { result ≡ is_optional class }
{
    matches!(class, Class::OptionalOut | Class::OptionalIn)
}

// The statement that a label names.
fn label_arg<'a>(labels: &Labels<'a>, term: &Term<'a>) -> NbcArg
    requires { LabelsFit labels.now }
    ensures { result ≡ label_arg labels.now (term_seen term.now) }
{
    match term.single_name() {
        Some(label) => NbcArg::Jump(labels.position(label).unwrap_or(0) as u32),
        None => NbcArg::Left,
    }
}

// What an operand stands for.
fn denoted_arg(alloc: Global, class: Class, denoted: Denoted<'_>) -> Result<NbcArg, NoMemory>
    requires { IsDenoted denoted }
    ensures { (t : Types) → IfOk result (λ x. x ≡ denoted_arg class (denoted_seen t denoted.entry)) }
{
    Ok(match denoted {
        Denoted::Part(part) => {
            NbcArg::Var(part.variable as u32, path_of(alloc, part.path.as_slice())?)
        }
        Denoted::Number(z) => number_arg(class, z),
        Denoted::Text(text) => NbcArg::Text(copy_of_bytes(alloc, text)?),
        Denoted::Block(number, _) => NbcArg::Block(number as u8),
        Denoted::Type | Denoted::Missing => NbcArg::Left,
    })
}

// Positions of members as numbers.
fn path_of(alloc: Global, positions: &[usize]) -> Result<Nums, NoMemory>
    requires { AreBelow (2 ^ 63) positions.now }
    ensures { IfOk result (λ zs. zs ≡ map pos positions.now) }
{
    let mut path = Nums::new(alloc);
    for position in positions {
        path.push(*position as i64)?;
    }
    Ok(path)
}

fn number_arg(class: Class, z: i64) -> NbcArg
    ensures { result ≡ number_arg class z }
{
    match class {
        Class::Immediate if is_word(z) => NbcArg::Imm(z as u16),
        _ => NbcArg::Number(cut(Kind::Slong, z)),
    }
}

// Whether it is a number from 0 to 65535.
fn is_word(z: i64) -> bool
    ensures { result ≡ is_word z }
{
    (0..65536).contains(&z)
}
