// The rules of a text, one after another.

ghost use Rattle.std.specs.Prelude.{◌≡◌, nat_lt, IfErr, IfOk, OnOk};
ghost use Rattle.std.specs.List.{list_any};
ghost use Rattle.nxt_model.specs.Nbc.Text.{is_main, source_of};
ghost use Rattle.nxt_model.specs.Nbc.NbcRules.{TooMany, tells};
ghost use Rattle.nxt_nbc_lines.specs.Firsts.{Keeps};
ghost use Rattle.nxt_nbc_lines.specs.Seen.{formed_seen};
ghost use Rattle.nxt_nbc_lines.specs.Whole.{AreLines};
ghost use Rattle.nxt_nbc_names.specs.BlocksSeen.{block_seen};
ghost use Rattle.nxt_nbc_names.specs.SourceSeen.{source_seen};
ghost use Rattle.nxt_nbc.specs.Checked.{Refuses};

use crate::spaces::declarations_of;
use crate::syntax::bad_line;
use crate::unknown::unknown_line;
use nxt_nbc_kinds::{Conversions, range_line, wrong_kind};
use nxt_nbc_lines::{Formed, NbcFault};
use nxt_nbc_names::{Block, Source};
use std::alloc::Global;

/// The most threads and subroutines of a text.
const MOST_BLOCKS: usize = 255;
/// The most names that a text declares.
const MOST_NAMES: usize = 10_000;

/// Whether a text keeps the rules of its forms (NBC Programmer's Guide, "Program Structure"): each line has a form of its
/// place, names are declared, and once, operands are of the kinds and in the ranges of their places, one thread is
/// `main`, and neither blocks nor names are too many. A refusal is the first broken rule at its least place.
pub fn check_rules<'a>(
    alloc: Global,
    formed: &Formed<'a>,
    source: &Source<'_, 'a>,
) -> Result<(), NbcFault>
    requires of { source_seen source.now ≡ source_of (formed_seen formed.now).forms }
    requires lines { AreLines (formed_seen formed.now).forms }
    ensures kept { OnOk result (Keeps (formed_seen formed.now) 47) }
    ensures refused { IfErr result (Refuses (formed_seen formed.now)) }
{
    check_lines(formed, source)?;
    let names = check_names(alloc, formed, source)?;
    check_operands(alloc, formed, source)?;
    check_counts(formed, source, names)
}

// The rule of syntax.
fn check_lines<'a>(formed: &Formed<'a>, source: &Source<'_, 'a>) -> Result<(), NbcFault>
    requires of { source_seen source.now ≡ source_of (formed_seen formed.now).forms }
    requires lines { AreLines (formed_seen formed.now).forms }
    ensures kept { OnOk result (Keeps (formed_seen formed.now) 41) }
    ensures refused { IfErr result (Refuses (formed_seen formed.now)) }
{
    match bad_line(formed, source) {
        Some(line) => Err(NbcFault::Syntax(line)),
        None => Ok(()),
    }
}

// The rules of names that nothing declares, and of names that are declared twice. It gives how many are declared.
fn check_names<'a>(
    alloc: Global,
    formed: &Formed<'a>,
    source: &Source<'_, 'a>,
) -> Result<usize, NbcFault>
    requires of { source_seen source.now ≡ source_of (formed_seen formed.now).forms }
    requires lines { AreLines (formed_seen formed.now).forms }
    requires kept { Keeps (formed_seen formed.now) 41 }
    ensures kept { OnOk result (Keeps (formed_seen formed.now) 43) }
    ensures count { IfOk result (λ n. nat_lt 10000 n ≡ tells (formed_seen formed.now) (TooMany 1)) }
    ensures refused { IfErr result (Refuses (formed_seen formed.now)) }
{
    if let Some(line) = unknown_line(alloc, formed, source)? {
        return Err(NbcFault::UnknownName(line));
    }
    let declared = declarations_of(alloc, formed, source)?;
    match declared.twice {
        Some(line) => Err(NbcFault::TwiceNamed(line)),
        None => Ok(declared.count),
    }
}

// The rules of kinds and of ranges.
fn check_operands<'a>(
    alloc: Global,
    formed: &Formed<'a>,
    source: &Source<'_, 'a>,
) -> Result<(), NbcFault>
    requires of { source_seen source.now ≡ source_of (formed_seen formed.now).forms }
    requires lines { AreLines (formed_seen formed.now).forms }
    requires kept { Keeps (formed_seen formed.now) 43 }
    ensures kept { OnOk result (Keeps (formed_seen formed.now) 45) }
    ensures refused { IfErr result (Refuses (formed_seen formed.now)) }
{
    let conversions = Conversions::of(alloc, &source.structs)?;
    if let Some((line, operand)) = wrong_kind(alloc, formed, source, &conversions)? {
        return Err(NbcFault::Kind(line, operand));
    }
    match range_line(alloc, formed, source)? {
        Some(line) => Err(NbcFault::Range(line)),
        None => Ok(()),
    }
}

// The rules of main and of counts, where `names` names are declared.
fn check_counts<'a>(
    formed: &Formed<'a>,
    source: &Source<'_, 'a>,
    names: usize,
) -> Result<(), NbcFault>
    requires of { source_seen source.now ≡ source_of (formed_seen formed.now).forms }
    requires kept { Keeps (formed_seen formed.now) 45 }
    requires names { nat_lt 10000 names ≡ tells (formed_seen formed.now) (TooMany 1) }
    ensures kept { OnOk result (Keeps (formed_seen formed.now) 47) }
    ensures refused { IfErr result (Refuses (formed_seen formed.now)) }
{
    let blocks = source.blocks.in_text();
    if !has_main(blocks) {
        Err(NbcFault::NoMain)
    } else if blocks.len() > MOST_BLOCKS {
        Err(NbcFault::TooMany(0))
    } else if names > MOST_NAMES {
        Err(NbcFault::TooMany(1))
    } else {
        Ok(())
    }
}

// Whether one of some blocks is the thread with which a program starts.
fn has_main(blocks: &[Block<'_, '_>]) -> bool
    ensures { result ≡ list_any (λ b. is_main (block_seen b)) blocks.now }
{
    blocks.iter().any(|block| block.is_main())
}
