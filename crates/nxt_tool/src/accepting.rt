// Whether a program file is accepted, and the line of one that isn't.

ghost use Rattle.std.specs.Prelude.{◌≡◌, MatchResult, IfOk};
ghost use Rattle.nxt_types.specs.BrokenRules.{rule_and_place};
ghost use Rattle.nxt_rxe.specs.declared.parts.Parts.{Parts as FileParts};
ghost use Rattle.nxt_rxe.specs.Files.{HasCounts, Fits, IsFile};
ghost use Rattle.nxt_model.specs.Image.{program_of};
ghost use Rattle.nxt_model.specs.Program.{start};
ghost use Rattle.nxt_tool.specs.Accepted.{IsJudged, IsRun, IsSoundFile, IsListing, IsDescribed, IsAcceptedAs, HasCause, PartsCause, accepted_line, refused_line};
ghost use Rattle.nxt_tool.specs.Refused.{told};

use crate::fault::{AcceptFault, Refusal};
use crate::words::Description;
use nxt_code::{Code, check_code};
use nxt_layout::{Layout, check_layout};
use nxt_list::list;
use nxt_machine::Machine;
use nxt_model::text::{count_line, number_line};
use nxt_rxe::{Parts, read_rxe};
use nxt_types::refusal::{BrokenRule, Place};
use nxt_types::{Bytes, NoMemory};
use std::alloc::Global;

/// The machine of a file's program at its start, or why there is none. At the end of each turn it lets `effort` blocks of the
/// pool settle.
pub fn accept(alloc: Global, bytes: &[u8], effort: u8) -> Result<Machine, AcceptFault>
    ensures start { IfOk result (λ m. m.state ≡ start (program_of m.image)) }
    ensures effort { IfOk result (λ m. m.effort ≡ effort) }
    ensures accepted { MatchResult result (λ m. IsAcceptedAs bytes.now m.image) (HasCause bytes.now) }
{
    let parts = read_rxe(alloc, bytes)?;
    machine_of(alloc, parts, effort)
}

/// The machine of the program of parts at its start, or the first rule that they break.
pub fn machine_of(alloc: Global, parts: Parts, effort: u8) -> Result<Machine, AcceptFault>
    requires counts { HasCounts parts }
    requires fits { Fits parts }
    ensures start { IfOk result (λ m. m.state ≡ start (program_of m.image)) }
    ensures effort { IfOk result (λ m. m.effort ≡ effort) }
    ensures accepted { MatchResult result (λ m. IsRun parts m.image) (PartsCause parts) }
{
    let (layout, code) = judge(alloc, parts)?;
    Ok(Machine::new(alloc, layout, code, effort)?)
}

/// What is told of a file that breaks no rule, or the first rule that it breaks.
pub fn describe(alloc: Global, description: Description, bytes: &[u8]) -> Result<Bytes, AcceptFault>
    ensures { MatchResult result (IsDescribed description bytes.now) (HasCause bytes.now) }
{
    match description {
        Description::Footprint => footprint(alloc, bytes),
        Description::Listing => listing(alloc, bytes),
    }
}

// The line of the bytes of the pool that the start of a file needs.
fn footprint(alloc: Global, bytes: &[u8]) -> Result<Bytes, AcceptFault>
    ensures { MatchResult result (IsDescribed Description.Footprint bytes.now) (HasCause bytes.now) }
{
    let size = check(alloc, bytes)?;
    Ok(footprint_line(alloc, size)?)
}

// The listing of a file.
fn listing(alloc: Global, bytes: &[u8]) -> Result<Bytes, AcceptFault>
    ensures { MatchResult result (IsListing bytes.now) (HasCause bytes.now) }
{
    let parts = read_rxe(alloc, bytes)?;
    let header = parts.header;
    let (layout, code) = judge(alloc, parts)?;
    Ok(list(alloc, &header, &layout, &code)?)
}

// The bytes of the pool that the start of a file needs, or the first rule that the file breaks.
fn check(alloc: Global, bytes: &[u8]) -> Result<u32, AcceptFault>
    ensures { MatchResult result (IsSoundFile bytes.now) (HasCause bytes.now) }
{
    let (layout, _code) = judged(alloc, bytes)?;
    Ok(layout.footprint())
}

// The layout and the code of a file that breaks no rule.
fn judged(alloc: Global, bytes: &[u8]) -> Result<(Layout, Code), AcceptFault>
    ensures { MatchResult result (λ x. (p : FileParts) × IsFile bytes.now p × IsJudged p x.0 x.1) (HasCause bytes.now) }
{
    let parts = read_rxe(alloc, bytes)?;
    judge(alloc, parts)
}

// The layout and the code of the parts of a file, where they break no rule.
fn judge(alloc: Global, parts: Parts) -> Result<(Layout, Code), AcceptFault>
    requires counts { HasCounts parts }
    requires fits { Fits parts }
    ensures { MatchResult result (λ x. IsJudged parts x.0 x.1) (PartsCause parts) }
{
    let (layout, rest) = check_layout(alloc, parts)?;
    let code = check_code(alloc, layout.toc(), rest.clumps, rest.dependents, rest.code)?;
    Ok((layout, code))
}

// The line of an accepted file: the bytes of the pool that its start needs.
fn footprint_line(alloc: Global, footprint: u32) -> Result<Bytes, NoMemory>
    ensures { IfOk result (λ text. text ≡ accepted_line footprint) }
{
    number_line(alloc, b"accepted", &[i64::from(footprint)])
}

/// The line of a refused file: the rule's number and its place.
pub fn refusal_line(alloc: Global, refusal: Refusal) -> Result<Bytes, NoMemory>
    ensures { IfOk result (λ text. text ≡ refused_line (told refusal)) }
{
    let broken = refusal.broken_rule()?;
    rule_line(alloc, broken)
}

fn rule_line(alloc: Global, broken: BrokenRule) -> Result<Bytes, NoMemory>
    ensures { IfOk result (λ text. text ≡ refused_line (rule_and_place broken)) }
{
    let rule = i64::from(broken.rule);
    match broken.place {
        Place::Only => number_line(alloc, b"refused", &[rule]),
        Place::At(place) => count_line(alloc, b"refused", &[rule], place),
        Place::Pair(first, second) => {
            let numbers = [rule, i64::from(first), i64::from(second)];
            number_line(alloc, b"refused", &numbers)
        }
    }
}
