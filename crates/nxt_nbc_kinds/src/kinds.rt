// The rule of kinds: each operand is of its class, and fits the operands before it.

ghost use Rattle.std.specs.Prelude.{◌≡◌, ◌≤◌, ℕ, List, Option, Some, None, if◌then◌else◌, length, IfOk, true};
ghost use Rattle.nxt_types.specs.Opcodes.{arity, takes};
ghost use Rattle.nxt_types.specs.declared.kind.Cmp.{Cmp as Comparison};
ghost use Rattle.nxt_model.specs.Nbc.Forms.{Do, Precedes};
ghost use Rattle.nxt_model.specs.Nbc.Text.{source_of};
ghost use Rattle.nxt_model.specs.Nbc.NbcRules.{WrongKind, has_class as has_class_in, is_label as is_label_of, is_mutex_type as is_mutex_type_of, is_number as is_number_of, is_subroutine as is_subroutine_of, is_thread as is_thread_of, is_wrong_kind, tells};
ghost use Rattle.nxt_nbc_lines.specs.Firsts.{IsLeast, IsLeastPair};
ghost use Rattle.nxt_nbc_lines.specs.Seen.{form_seen, formed_seen, term_seen, terms_seen, type_seen};
ghost use Rattle.nxt_nbc_lines.specs.Whole.{AreLines, IsWhole, most_in_text};
ghost use Rattle.nxt_nbc_names.specs.DenotedSeen.{denoted_seen};
ghost use Rattle.nxt_nbc_names.specs.SourceSeen.{source_seen};
ghost use Rattle.nxt_model.specs.Nbc.Structs.{Types};
ghost use Rattle.nxt_nbc_kinds.specs.ConvertingStructs.{AreConversions};

use crate::between::has_kind;
use crate::conversions::Conversions;
use crate::sorts::operands_of;
use nxt_nbc_lines::{Form, Formed, Term, TypeName};
use nxt_nbc_names::{Denoted, Source};
use nxt_types::NoMemory;
use nxt_types::instr::Op;
use nxt_types::opcodes::Class;
use std::alloc::Global;

/// The first line with an operand of a wrong kind, and the first such operand there, counted from 1.
pub fn wrong_kind<'a>(
    alloc: Global,
    formed: &Formed<'a>,
    source: &Source<'_, 'a>,
    conversions: &Conversions,
) -> Result<Option<(u32, u32)>, NoMemory>
    requires of { source_seen source.now ≡ source_of (formed_seen formed.now).forms }
    requires lines { AreLines (formed_seen formed.now).forms }
    requires conversions { AreConversions source.now.structs conversions.now }
    ensures { IfOk result (IsLeastPair (λ l k. tells (formed_seen formed.now) (WrongKind l k))) }
{
    for line in formed.forms.as_slice() {
        let wrong = wrong_operand(alloc, source, conversions, line.line, &line.form)?;
        if let Some(operand) = wrong {
            return Ok(Some((line.line, operand)));
        }
    }
    Ok(None)
}

// The first operand of a line that is of a wrong kind, counted from 1.
fn wrong_operand<'a>(
    alloc: Global,
    source: &Source<'_, 'a>,
    conversions: &Conversions,
    line: u32,
    form: &Form<'a>,
) -> Result<Option<u32>, NoMemory>
    requires whole { IsWhole (form_seen form.now) }
    requires conversions { AreConversions source.now.structs conversions.now }
    ensures { IfOk result (IsLeast (λ k. is_wrong_kind (source_seen source.now) line k (form_seen form.now))) }
{
    match form {
        Form::Do(_, op, _, terms) => {
            wrong_term(alloc, source, conversions, line, *op, terms.as_slice())
        }
        Form::Precedes(terms) => wrong_thread(alloc, source, line, terms.as_slice()),
        Form::Follows(terms) => wrong_thread(alloc, source, line, terms.as_slice()),
        Form::ExitTo(term) => {
            let denoted = source.denoted(alloc, line, term)?;
            Ok(first_if(!is_thread(&denoted)))
        }
        Form::Call(term) => {
            let denoted = source.denoted(alloc, line, term)?;
            Ok(first_if(!is_subroutine(&denoted)))
        }
        Form::Member(_, of) => Ok(first_if(is_mutex_type(*of))),
        Form::Declare(_, of, _) => Ok(first_if(of.arrays > 0 && is_mutex_type(*of))),
        _ => Ok(None),
    }
}

// The first operand, where it is of a wrong kind.
fn first_if(wrong: bool) -> Option<u32>
    ensures { result ≡ (if wrong then Some 1 else None) }
{
    if wrong { Some(1) } else { None }
}

// ---- statements

// The first operand of a statement that is of a wrong kind, counted from 1.
fn wrong_term<'a>(
    alloc: Global,
    source: &Source<'_, 'a>,
    conversions: &Conversions,
    line: u32,
    op: Op,
    terms: &[Term<'a>],
) -> Result<Option<u32>, NoMemory>
    requires takes { takes (arity op) (length terms.now) ≡ true }
    requires few { length terms.now ≤ most_in_text }
    requires conversions { AreConversions source.now.structs conversions.now }
    ensures { (label : Option (List ℕ)) (cmp : Comparison) →
        IfOk result (IsLeast (λ k. is_wrong_kind (source_seen source.now) line k (Do label op cmp (terms_seen terms.now)))) }
{
    let all = operands_of(alloc, source, line, op, terms)?;
    let operands = all.as_slice();
    for (k, term) in terms.iter().enumerate() {
        if !has_class(alloc, source, line, op.class(k), term)?
            || !has_kind(&source.structs, conversions, op, operands, k)
        {
            return Ok(Some(k as u32 + 1));
        }
    }
    Ok(None)
}

// Whether an operand is a label, the name of a subroutine or a number, where the class asks for it.
fn has_class<'a>(
    alloc: Global,
    source: &Source<'_, 'a>,
    line: u32,
    class: Class,
    term: &Term<'a>,
) -> Result<bool, NoMemory>
    ensures { IfOk result (λ b. b ≡ has_class_in (source_seen source.now) line class (term_seen term.now)) }
{
    match class {
        Class::Offset => Ok(is_label(term)),
        Class::Clump => {
            let denoted = source.denoted(alloc, line, term)?;
            Ok(is_subroutine(&denoted))
        }
        Class::Immediate => {
            let denoted = source.denoted(alloc, line, term)?;
            Ok(is_number(&denoted))
        }
        _ => Ok(true),
    }
}

fn is_label(term: &Term<'_>) -> bool
    ensures { result ≡ is_label_of (term_seen term.now) }
{
    term.single_name().is_some()
}

fn is_subroutine(denoted: &Denoted<'_>) -> bool
    ensures { (t : Types) → result ≡ is_subroutine_of (denoted_seen t denoted.now) }
{
    match denoted {
        Denoted::Block(_, subroutine) => *subroutine,
        _ => false,
    }
}

fn is_thread(denoted: &Denoted<'_>) -> bool
    ensures { (t : Types) → result ≡ is_thread_of (denoted_seen t denoted.now) }
{
    match denoted {
        Denoted::Block(_, subroutine) => !*subroutine,
        _ => false,
    }
}

fn is_number(denoted: &Denoted<'_>) -> bool
    ensures { (t : Types) → result ≡ is_number_of (denoted_seen t denoted.now) }
{
    matches!(denoted, Denoted::Number(_))
}

// ---- threads

// The first operand that names no thread, counted from 1.
fn wrong_thread<'a>(
    alloc: Global,
    source: &Source<'_, 'a>,
    line: u32,
    terms: &[Term<'a>],
) -> Result<Option<u32>, NoMemory>
    requires { length terms.now ≤ most_in_text }
    ensures { IfOk result (IsLeast (λ k. is_wrong_kind (source_seen source.now) line k (Precedes (terms_seen terms.now)))) }
{
    for (k, term) in terms.iter().enumerate() {
        let denoted = source.denoted(alloc, line, term)?;
        if !is_thread(&denoted) {
            return Ok(Some(k as u32 + 1));
        }
    }
    Ok(None)
}

// ---- types

// Whether a type's name is that of mutexes.
fn is_mutex_type(of: TypeName<'_>) -> bool
    ensures { result ≡ is_mutex_type_of (type_seen of.entry) }
{
    of.name == "mutex".as_bytes()
}
