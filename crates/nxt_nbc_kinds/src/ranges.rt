// The rule of ranges: each variable holds its start, and each operand is a number that it may be.

ghost use Rattle.std.specs.Prelude.{◌≡◌, ◌||◌, length, map, not, true, IfOk};
ghost use Rattle.std.specs.List.{enumerate_from, list_all, list_any};
ghost use Rattle.std.specs.Ordering.{int_eq};
ghost use Rattle.nxt_types.specs.Arithmetic.{cut as cut_to};
ghost use Rattle.nxt_types.specs.Opcodes.{arity, takes};
ghost use Rattle.nxt_types.specs.OperandRules.{is_allowed as is_allowed_in};
ghost use Rattle.nxt_model.specs.Nbc.NbcRules.{OutOfRange, fit_elements as fit_elements_of, fits_shape, is_out_of_range as is_out_of_range_in, is_refused_number, is_wide as is_wide_number, start_fits as start_fits_shape, tells};
ghost use Rattle.nxt_model.specs.Nbc.Text.{denoted, source_of};
ghost use Rattle.nxt_nbc_lines.specs.Firsts.{IsLeast, first_line};
ghost use Rattle.nxt_nbc_lines.specs.Seen.{form_seen, formed_seen, given_seen, line_form_seen, term_seen, terms_seen};
ghost use Rattle.nxt_nbc_lines.specs.Whole.{AreLines, AreWhole, IsWhole};
ghost use Rattle.nxt_nbc_names.specs.DenotedSeen.{denoted_seen};
ghost use Rattle.nxt_nbc_names.specs.SourceSeen.{source_seen};
ghost use Rattle.nxt_model.specs.Nbc.Types.{shape_in};
ghost use Rattle.nxt_model.specs.Nbc.Structs.{Types};
ghost use Rattle.nxt_nbc_kinds.specs.OperandsSeen.{operands_seen, shape_seen};

use crate::between::is_allowed;
use crate::operand::Operand;
use crate::sorts::operands_of;
use crate::types::{element, is_list, single_base};
use nxt_model::nbc::{NbcBase, NbcType};
use nxt_nbc_lines::{Form, Formed, Given, LineForm, Term};
use nxt_nbc_names::{Denoted, Source};
use nxt_types::NoMemory;
use nxt_types::instr::Op;
use nxt_types::kind::Kind;
use nxt_types::numbers::cut;
use std::alloc::Global;

/// The least number that an operand may be.
const LEAST_OPERAND: i64 = -2_147_483_648;

/// The greatest.
const GREATEST_OPERAND: i64 = 4_294_967_295;

/// The first line with a number that is out of the range of its place: a start that its variable doesn't hold, an operand
/// below -2,147,483,648 or above 4,294,967,295, or the number of a call or a property that there isn't.
pub fn range_line<'a>(
    alloc: Global,
    formed: &Formed<'a>,
    source: &Source<'_, 'a>,
) -> Result<Option<u32>, NoMemory>
    requires of { source_seen source.now ≡ source_of (formed_seen formed.now).forms }
    requires lines { AreLines (formed_seen formed.now).forms }
    ensures { IfOk result (IsLeast (λ l. tells (formed_seen formed.now) (OutOfRange l))) }
{
    first_out_of_range(alloc, source, formed.forms.as_slice())
}

fn first_out_of_range<'a>(
    alloc: Global,
    source: &Source<'_, 'a>,
    lines: &[LineForm<'a>],
) -> Result<Option<u32>, NoMemory>
    requires { AreWhole (map line_form_seen lines.now) }
    ensures { IfOk result (λ o. o ≡ first_line (is_out_of_range_in (source_seen source.now)) (map line_form_seen lines.now)) }
{
    for line in lines {
        if is_out_of_range(alloc, source, line)? {
            return Ok(Some(line.line));
        }
    }
    Ok(None)
}

fn is_out_of_range<'a>(
    alloc: Global,
    source: &Source<'_, 'a>,
    line: &LineForm<'a>,
) -> Result<bool, NoMemory>
    requires { IsWhole (form_seen line.now.form) }
    ensures { IfOk result (λ b. b ≡ is_out_of_range_in (source_seen source.now) line.now.line (form_seen line.now.form)) }
{
    match &line.form {
        Form::Declare(_, of, given) => {
            Ok(!start_fits(source.structs.shape(*of, line.line), given))
        }
        Form::Do(_, op, _, terms) => any_refused(alloc, source, line.line, *op, terms.as_slice()),
        _ => Ok(false),
    }
}

// ---- starts

// Whether a variable of a type holds its start.
fn start_fits(shape: NbcType, given: &Given<'_>) -> bool
    ensures { (t : Types) → result ≡ start_fits_shape (shape_in t.structs shape) (given_seen given.now) }
{
    match given {
        Given::Nothing | Given::Bytes(_) => true,
        Given::One(z) => fits(Some(shape), *z),
        Given::Many(zs) => fit_elements(Some(shape), zs.as_slice()),
    }
}

// Whether it is a list that holds numbers.
fn fit_elements(shape: Option<NbcType>, zs: &[i64]) -> bool
    ensures { (t : Types) → result ≡ fit_elements_of (shape_seen t shape) zs.now }
{
    is_list(shape) && all_fit(element(shape), zs)
}

fn all_fit(shape: Option<NbcType>, zs: &[i64]) -> bool
    ensures { (t : Types) → result ≡ list_all (fits_shape (shape_seen t shape)) zs.now }
{
    for z in zs {
        if !fits(shape, *z) {
            return false;
        }
    }
    true
}

// Whether it holds a number.
#[tactic(auto, using(crate::proofs::TypeTests::fits_by_base))]
fn fits(shape: Option<NbcType>, z: i64) -> bool
    ensures { (t : Types) → result ≡ fits_shape (shape_seen t shape) z }
{
    match single_base(shape) {
        Some(NbcBase::Number(kind)) => fits_kind(kind, z),
        Some(NbcBase::Mutex | NbcBase::Struct(_)) | None => false,
    }
}

fn fits_kind(kind: Kind, z: i64) -> bool
    ensures { result ≡ int_eq (cut_to kind z) z }
{
    cut(kind, z) == z
}

// ---- operands

// Whether some operand of a statement is out of its range.
fn any_refused<'a>(
    alloc: Global,
    source: &Source<'_, 'a>,
    line: u32,
    op: Op,
    terms: &[Term<'a>],
) -> Result<bool, NoMemory>
    requires { takes (arity op) (length terms.now) ≡ true }
    ensures { let ts = terms_seen terms.now in
        IfOk result (λ b. b ≡ list_any (is_refused_number (source_seen source.now) line op ts) (enumerate_from 0 ts)) }
{
    let operands = operands_of(alloc, source, line, op, terms)?;
    for (k, term) in terms.iter().enumerate() {
        if is_refused(alloc, source, line, op, operands.as_slice(), k, term)? {
            return Ok(true);
        }
    }
    Ok(false)
}

// Whether operand k, counted from 0, is a number that it may not be.
fn is_refused<'a>(
    alloc: Global,
    source: &Source<'_, 'a>,
    line: u32,
    op: Op,
    operands: &[Operand],
    k: usize,
    term: &Term<'a>,
) -> Result<bool, NoMemory>
    ensures { let d = denoted (source_seen source.now) line (term_seen term.now) in
        IfOk result (λ b. b ≡ (is_wide_number d || not (is_allowed_in op (operands_seen source.now.structs operands.now) k))) }
{
    let denoted = source.denoted(alloc, line, term)?;
    Ok(is_wide(&denoted) || !is_allowed(op, operands, k))
}

// Whether it is a number that no operand may be.
fn is_wide(denoted: &Denoted<'_>) -> bool
    ensures { (t : Types) → result ≡ is_wide_number (denoted_seen t denoted.now) }
{
    match denoted {
        Denoted::Number(z) => *z < LEAST_OPERAND || *z > GREATEST_OPERAND,
        _ => false,
    }
}
