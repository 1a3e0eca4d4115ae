// From a text to its program.

ghost use Rattle.std.specs.Prelude.{◌≤◌, length, IfErr, IfOk};
ghost use Rattle.nxt_nbc.specs.Checked.{IsParsed};
ghost use Rattle.nxt_nbc.specs.Faults.{IsRefused};

use crate::rules::check_rules;
use nxt_model::nbc::NbcProgram;
use nxt_nbc_lines::{NbcFault, forms_of, lex};
use nxt_nbc_names::Source;
use nxt_nbc_program::program_of;
use std::alloc::Global;

/// The program that a text spells (NBC Programmer's Guide). A refusal is the first broken rule at its least place.
pub fn parse(alloc: Global, text: &[u8]) -> Result<NbcProgram, NbcFault>
    requires { length text.now ≤ 16777216 }
    ensures parsed { IfOk result (IsParsed text.now) }
    ensures refused { IfErr result (IsRefused text.now) }
{
    let tokens = lex(alloc, text)?;
    let formed = forms_of(alloc, text, tokens.as_slice())?;
    let source = Source::of(alloc, formed.forms.as_slice())?;
    check_rules(alloc, &formed, &source)?;
    Ok(program_of(alloc, &source)?)
}
