// Statements: an operation with its operands, and labels.

ghost use Rattle.std.specs.Prelude.{◌≡◌, option_map, IfOk};
ghost use Rattle.nxt_model.specs.Nbc.Forms.{by_commas, compared, comparison_word, labelled_form, statement_form, statement_op, with_terms};
ghost use Rattle.nxt_types.specs.Mnemonics.{cmp_named};
ghost use Rattle.nxt_types.specs.Opcodes.{op_named};
ghost use Rattle.nxt_nbc_lines.specs.Seen.{form_seen, label_seen, terms_seen, words_seen};
ghost use Rattle.nxt_nbc_lines.specs.Statements.{form_of_op, label_of};

use crate::form::Form;
use crate::terms::{Terms, front_piece, terms_in, terms_of};
use crate::words::{Word, is_name};
use nxt_types::NoMemory;
use nxt_types::instr::Op;
use nxt_types::kind::Cmp;
use nxt_types::opcodes::ALL_OPS;
use std::alloc::Global;

/// The most operands that a statement has.
const MOST_OPERANDS: usize = 32_765;

// ---- names

// The operation of this name.
fn op_named(name: &[u8]) -> Option<Op>
    ensures { result ≡ op_named name.now }
{
    ALL_OPS
        .iter()
        .copied()
        .find(|op| op.name().as_bytes() == name)
}

// The operation that a statement's first word names.
fn statement_op(name: &[u8]) -> Option<Op>
    ensures { result ≡ statement_op name.now }
{
    if is_name(name, b"waitv") {
        Some(Op::Wait)
    } else if is_name(name, b"finclump") || is_name(name, b"finclumpimmed") {
        None
    } else {
        op_named(name)
    }
}

// The comparison of this name.
fn cmp_named(name: &[u8]) -> Option<Cmp>
    ensures { result ≡ cmp_named name.now }
{
    match name {
        b"LT" => Some(Cmp::Lt),
        b"GT" => Some(Cmp::Gt),
        b"LTEQ" => Some(Cmp::Lteq),
        b"GTEQ" => Some(Cmp::Gteq),
        b"EQ" => Some(Cmp::Eq),
        b"NEQ" => Some(Cmp::Neq),
        _ => None,
    }
}

// The comparison that words name.
fn comparison_word(words: &[Word<'_>]) -> Option<Cmp>
    ensures { result ≡ comparison_word (words_seen words.now) }
{
    match words {
        [Word::Name(name)] => cmp_named(name),
        _ => None,
    }
}

// ---- statements

// The statement of an operation, if it takes as many operands.
fn with_terms<'a>(label: Option<&'a [u8]>, op: Op, cmp: Cmp, terms: Terms<'a>) -> Option<Form<'a>>
    ensures { option_map form_seen result ≡ with_terms (label_seen label.entry) op cmp (terms_seen terms.entry) }
{
    if op.arity().takes(terms.len()) && terms.len() <= MOST_OPERANDS {
        Some(Form::Do(label, op, cmp, terms))
    } else {
        None
    }
}

// The statement of an operation that compares, by the words behind it: a comparison, and then the operands.
fn compared<'a>(
    alloc: Global,
    label: Option<&'a [u8]>,
    op: Op,
    words: &[Word<'a>],
) -> Result<Option<Form<'a>>, NoMemory>
    ensures { IfOk result (λ o. option_map form_seen o ≡ compared (label_seen label.entry) op (by_commas (words_seen words.now))) }
{
    let (first, others) = front_piece(words);
    let Some(cmp) = comparison_word(first) else {
        return Ok(None);
    };
    match terms_in(alloc, others)? {
        Some(terms) => Ok(with_terms(label, op, cmp, terms)),
        None => Ok(None),
    }
}

// The statement of an operation, by the words behind its name.
fn form_of_op<'a>(
    alloc: Global,
    label: Option<&'a [u8]>,
    op: Op,
    words: &[Word<'a>],
) -> Result<Option<Form<'a>>, NoMemory>
    ensures { IfOk result (λ o. option_map form_seen o ≡ form_of_op (label_seen label.entry) (words_seen words.now) op) }
{
    if op.has_comparison() {
        return compared(alloc, label, op, words);
    }
    match terms_of(alloc, words)? {
        Some(terms) => Ok(with_terms(label, op, Cmp::Lt, terms)),
        None => Ok(None),
    }
}

// The statement that words are, behind a label if one stands before it.
fn statement_form<'a>(
    alloc: Global,
    label: Option<&'a [u8]>,
    words: &[Word<'a>],
) -> Result<Option<Form<'a>>, NoMemory>
    ensures { IfOk result (λ o. option_map form_seen o ≡ statement_form (label_seen label.entry) (words_seen words.now)) }
{
    let [Word::Name(name), operands @ ..] = words else {
        return Ok(None);
    };
    match statement_op(name) {
        Some(op) => form_of_op(alloc, label, op, operands),
        None => Ok(None),
    }
}

// ---- labels

// The label in front of words, and what is behind its colon.
fn front_label<'w, 'a>(words: &'w [Word<'a>]) -> Option<(&'a [u8], &'w [Word<'a>])>
    ensures { option_map (λ r. (r.0.now, words_seen r.1.now)) result ≡ label_of (words_seen words.now) }
{
    match words {
        [Word::Name(label), Word::Sign(b':'), rest @ ..] => Some((*label, rest)),
        _ => None,
    }
}

/// A label, a statement, or a statement behind a label.
pub(crate) fn labelled_form<'a>(
    alloc: Global,
    words: &[Word<'a>],
) -> Result<Option<Form<'a>>, NoMemory>
    ensures { IfOk result (λ o. option_map form_seen o ≡ labelled_form (words_seen words.now)) }
{
    match front_label(words) {
        Some((label, [])) => Ok(Some(Form::Label(label))),
        Some((label, statement)) => statement_form(alloc, Some(label), statement),
        None => statement_form(alloc, None, words),
    }
}
