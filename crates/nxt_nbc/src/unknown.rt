// The rule of names: each name that a line uses is declared.

ghost use Rattle.std.specs.Prelude.{◌≡◌, length, map, true, zip, IfOk};
ghost use Rattle.std.specs.List.{list_any};
ghost use Rattle.nxt_types.specs.Opcodes.{arity, classes, takes};
ghost use Rattle.nxt_model.specs.Nbc.Text.{denoted, labels_from, source_of};
ghost use Rattle.nxt_model.specs.Nbc.NbcRules.{UnknownName, any_missing, is_missing, is_unknown, lacks_label, tells, uses_unknown, uses_unknown_type};
ghost use Rattle.nxt_nbc_lines.specs.Firsts.{IsLeast, first_in_blocks, first_line};
ghost use Rattle.nxt_nbc_lines.specs.Seen.{form_seen, formed_seen, line_form_seen, term_seen, terms_seen};
ghost use Rattle.nxt_nbc_lines.specs.Whole.{AreLines, AreWhole, BlocksAreWhole, IsWhole};
ghost use Rattle.nxt_nbc_names.specs.BlocksSeen.{block_seen};
ghost use Rattle.nxt_nbc_names.specs.SourceSeen.{source_seen};

use crate::lines::lesser;
use nxt_nbc_lines::{Form, Formed, LineForm, Term};
use nxt_nbc_names::{Block, Denoted, Labels, Source};
use nxt_types::NoMemory;
use nxt_types::instr::Op;
use nxt_types::opcodes::Class;
use std::alloc::Global;

/// The first line that uses a name that nothing declares, or a member or a label that isn't there.
pub fn unknown_line<'a>(
    alloc: Global,
    formed: &Formed<'a>,
    source: &Source<'_, 'a>,
) -> Result<Option<u32>, NoMemory>
    requires of { source_seen source.now ≡ source_of (formed_seen formed.now).forms }
    requires lines { AreLines (formed_seen formed.now).forms }
    ensures { IfOk result (IsLeast (λ l. tells (formed_seen formed.now) (UnknownName l))) }
{
    let declared = first_unknown_type(formed.forms.as_slice(), source);
    let used = first_in_blocks(alloc, source, source.blocks.in_text())?;
    Ok(lesser(declared, used))
}

// ---- types

// The first line that declares something of a type that isn't there.
fn first_unknown_type<'a>(lines: &[LineForm<'a>], source: &Source<'_, 'a>) -> Option<u32>
    ensures { result ≡ first_line (uses_unknown_type (source_seen source.now)) (map line_form_seen lines.now) }
{
    for line in lines {
        if uses_unknown_type(line, source) {
            return Some(line.line);
        }
    }
    None
}

fn uses_unknown_type<'a>(line: &LineForm<'a>, source: &Source<'_, 'a>) -> bool
    ensures { result ≡ uses_unknown_type (source_seen source.now) line.now.line (form_seen line.now.form) }
{
    match &line.form {
        Form::Declare(_, of, _) | Form::Member(_, of) => {
            !source.structs.is_type(of.name, line.line)
        }
        _ => false,
    }
}

// ---- blocks

// The first line of some blocks that uses what isn't there.
fn first_in_blocks<'a>(
    alloc: Global,
    source: &Source<'_, 'a>,
    blocks: &[Block<'_, 'a>],
) -> Result<Option<u32>, NoMemory>
    requires { BlocksAreWhole (map block_seen blocks.now) }
    ensures { IfOk result (λ o. o ≡ first_in_blocks (λ line ls. uses_unknown (source_seen source.now) ls line) (map block_seen blocks.now)) }
{
    let mut first = None;
    for block in blocks {
        first = lesser(first, first_in_block(alloc, source, block)?);
    }
    Ok(first)
}

// The first line of a block that uses what isn't there.
fn first_in_block<'a>(
    alloc: Global,
    source: &Source<'_, 'a>,
    block: &Block<'_, 'a>,
) -> Result<Option<u32>, NoMemory>
    requires { AreWhole (block_seen block.now).items }
    ensures { let items = (block_seen block.now).items in
        IfOk result (λ o. o ≡ first_line (λ line f. uses_unknown (source_seen source.now) (labels_from 0 items) line f) items) }
{
    let labels = Labels::of(alloc, block.lines)?;
    for line in block.lines {
        if uses_unknown(alloc, source, &labels, line)? {
            return Ok(Some(line.line));
        }
    }
    Ok(None)
}

fn uses_unknown<'a>(
    alloc: Global,
    source: &Source<'_, 'a>,
    labels: &Labels<'a>,
    line: &LineForm<'a>,
) -> Result<bool, NoMemory>
    requires { IsWhole (form_seen line.now.form) }
    ensures { IfOk result (λ b. b ≡ uses_unknown (source_seen source.now) labels.now line.now.line (form_seen line.now.form)) }
{
    match &line.form {
        Form::Do(_, op, _, terms) => {
            any_unknown(alloc, source, labels, line.line, *op, terms.as_slice())
        }
        Form::Call(term) | Form::ExitTo(term) => is_missing(alloc, source, line.line, term),
        Form::Precedes(terms) | Form::Follows(terms) => {
            any_missing(alloc, source, line.line, terms.as_slice())
        }
        _ => Ok(false),
    }
}

// ---- operands

// Whether some operand of a statement isn't there.
fn any_unknown<'a>(
    alloc: Global,
    source: &Source<'_, 'a>,
    labels: &Labels<'a>,
    line: u32,
    op: Op,
    terms: &[Term<'a>],
) -> Result<bool, NoMemory>
    requires { takes (arity op) (length terms.now) ≡ true }
    ensures { let ts = terms_seen terms.now in
        IfOk result (λ b. b ≡ list_any (λ p. is_unknown (source_seen source.now) labels.now line p.0 p.1) (zip (classes op (length ts)) ts)) }
{
    for (k, term) in terms.iter().enumerate() {
        if is_unknown(alloc, source, labels, line, op.class(k), term)? {
            return Ok(true);
        }
    }
    Ok(false)
}

fn is_unknown<'a>(
    alloc: Global,
    source: &Source<'_, 'a>,
    labels: &Labels<'a>,
    line: u32,
    class: Class,
    term: &Term<'a>,
) -> Result<bool, NoMemory>
    ensures { IfOk result (λ b. b ≡ is_unknown (source_seen source.now) labels.now line class (term_seen term.now)) }
{
    match class {
        Class::Offset => lacks_label(alloc, source, labels, line, term),
        _ => is_missing(alloc, source, line, term),
    }
}

// Whether a label isn't in its block. An operand that is no name is none.
fn lacks_label<'a>(
    alloc: Global,
    source: &Source<'_, 'a>,
    labels: &Labels<'a>,
    line: u32,
    term: &Term<'a>,
) -> Result<bool, NoMemory>
    ensures { IfOk result (λ b. b ≡ lacks_label (source_seen source.now) labels.now line (term_seen term.now)) }
{
    match term.single_name() {
        Some(label) => Ok(labels.position(label).is_none()),
        None => is_missing(alloc, source, line, term),
    }
}

// Whether some operand isn't there.
fn any_missing<'a>(
    alloc: Global,
    source: &Source<'_, 'a>,
    line: u32,
    terms: &[Term<'a>],
) -> Result<bool, NoMemory>
    ensures { IfOk result (λ b. b ≡ any_missing (source_seen source.now) line (terms_seen terms.now)) }
{
    for term in terms {
        if is_missing(alloc, source, line, term)? {
            return Ok(true);
        }
    }
    Ok(false)
}

// Whether nothing declares what an operand names.
fn is_missing<'a>(
    alloc: Global,
    source: &Source<'_, 'a>,
    line: u32,
    term: &Term<'a>,
) -> Result<bool, NoMemory>
    ensures { IfOk result (λ b. b ≡ is_missing (denoted (source_seen source.now) line (term_seen term.now))) }
{
    Ok(matches!(source.denoted(alloc, line, term)?, Denoted::Missing))
}
