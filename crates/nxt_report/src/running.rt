// A script's rows on a machine, and the report.

ghost use Rattle.std.specs.Prelude.{◌≡◌, ◌≤◌, ◌++◌, ◌∷◌, [], ℕ, List, OnOk, OnErr, IfOk, Some, Ok, Err, replicate, decimal};
ghost use Rattle.std.specs.Io.KnownBytes.{Appends, IsAtEnd};
ghost use Rattle.nxt_edge.specs.Edge.{Rose, AppendsFront};
ghost use Rattle.nxt_model.specs.LineText.{line_of};
ghost use Rattle.nxt_model.specs.Step.{events_of};
ghost use Rattle.nxt_script.specs.Rows.{rows as rows_of};
ghost use Rattle.nxt_report.specs.Cut.{CutText};
ghost use Rattle.nxt_report.specs.Running.{Ran, Reports, ReportsUpTo};
ghost use Rattle.nxt_report.specs.Statuses.{status_of, IsRunEnd};
ghost use Rattle.nxt_report.specs.Writing.{Writes};

use crate::status::Status;
use crate::writing::{Fault, gather, put};
use nxt_edge::{Sink, Source};
use nxt_machine::Machine;
use nxt_model::event::{Event, ScriptRow};
use nxt_model::line::Lines;
use nxt_model::text::number_line;
use nxt_script::{Script, ScriptFault};
use nxt_types::Bytes;
use std::alloc::Global;

// Runs bytecodes, and gathers their lines.
fn run_bytecodes<R: Sink>(
    alloc: Global,
    machine: &mut Machine,
    count: u32,
    gathered: &mut Bytes,
    report: &mut R,
) -> Result<(), Fault>
    ensures { Ran machine.old machine.new (replicate count Event.Bytecode) (R.written report.old) (R.written report.new) (R.faults report.old) (R.faults report.new) result gathered.old gathered.new }
{
    let mut lines = Lines::new(alloc);
    let mut left = count;
    while left > 0 {
        let ran = machine.run(alloc, left, &mut lines)?;
        gather(report, gathered, lines.as_slice())?;
        lines.clear();
        left -= ran;
    }
    Ok(())
}

// Lets one event happen, and gathers its lines.
fn run_event<R: Sink>(
    alloc: Global,
    machine: &mut Machine,
    event: &Event,
    gathered: &mut Bytes,
    report: &mut R,
) -> Result<(), Fault>
    ensures { Ran machine.old machine.new (event.now ∷ []) (R.written report.old) (R.written report.new) (R.faults report.old) (R.faults report.new) result gathered.old gathered.new }
{
    let mut lines = Lines::new(alloc);
    machine.event(alloc, event, &mut lines)?;
    gather(report, gathered, lines.as_slice())
}

// Runs a row, and gathers its lines.
fn run_row<R: Sink>(
    alloc: Global,
    machine: &mut Machine,
    row: &ScriptRow,
    gathered: &mut Bytes,
    report: &mut R,
) -> Result<(), Fault>
    ensures { Ran machine.old machine.new (events_of row.now) (R.written report.old) (R.written report.new) (R.faults report.old) (R.faults report.new) result gathered.old gathered.new }
{
    match row {
        ScriptRow::Run(count) => run_bytecodes(alloc, machine, *count, gathered, report),
        ScriptRow::One(event) => run_event(alloc, machine, event, gathered, report),
    }
}

// Writes what was gathered, and behind it the line that ends a report: a name and a number. The run then ends with this status.
fn put_last_line<R: Sink>(
    alloc: Global,
    gathered: &mut Bytes,
    name: &[u8],
    number: u32,
    status: Status,
    report: &mut R,
) -> Result<Status, Fault>
    ensures writes { Writes (R.written report.old) (R.written report.new) (R.faults report.old) (R.faults report.new) result
        (gathered.old ++ line_of name.now (decimal number ∷ [])) }
    ensures status { IfOk result (λ s. s ≡ status) }
{
    let line = number_line(alloc, name, &[i64::from(number)])?;
    gathered.append(line.as_slice())?;
    put(report, gathered.as_slice())?;
    Ok(status)
}

/// Runs a script on a machine, and writes the report.
pub fn run_script<Q: Source, R: Sink>(
    alloc: Global,
    machine: &mut Machine,
    source: &mut Q,
    report: &mut R,
) -> Result<Status, Fault>
    // Let the source tell its bytes. The report is one that the machine may give of the script's rows.
    ensures told { (s : List ℕ) → Q.left source.old ≡ Some s
        → OnOk result ((text : List ℕ) × Reports machine.old (rows_of s) text × Appends (R.written report.old) (R.written report.new) text) }

    // After a fault or want of memory a front of such a report is there, as far as it goes.
    ensures front { (s : List ℕ) → Q.left source.old ≡ Some s
        → OnErr result ((text : List ℕ) × ReportsUpTo machine.old (rows_of s) text × AppendsFront (R.written report.old) (R.written report.new) text) }
    ensures status { (s : List ℕ) → Q.left source.old ≡ Some s → IfOk result (λ status. status ≡ status_of (rows_of s).end) }
    ensures cut { (s : List ℕ) → Q.left source.old ≡ Some s → result ≡ Err Fault.Read
        → CutText machine.old s (Q.left source.old) (Q.left source.new) (R.written report.old) (R.written report.new) }
    ensures end { IfOk result IsRunEnd }

    // After the last row the script's source is at its end.
    ensures done { result ≡ Ok Status.Done → IsAtEnd (Q.left source.new) }
    ensures read { result ≡ Err Fault.Read → Rose (Q.faults source.old) (Q.faults source.new) }
    ensures write { result ≡ Err Fault.Write → Rose (R.faults report.old) (R.faults report.new) }
    ensures source { Q.faults source.old ≤ Q.faults source.new }
    ensures report { R.faults report.old ≤ R.faults report.new }
{
    let mut script = Script::new(alloc);
    let mut gathered = Bytes::new(alloc);
    let mut rows: u32 = 0;
    loop {
        match script.next_row(source) {
            Ok(Some(row)) => run_row(alloc, machine, &row, &mut gathered, report)?,
            Ok(None) => {
                return put_last_line(alloc, &mut gathered, b"end", rows, Status::Done, report);
            }
            Err(ScriptFault::Row(n)) => {
                let refused = Status::ScriptRefused;
                return put_last_line(alloc, &mut gathered, b"script", n, refused, report);
            }
            Err(ScriptFault::TooMany(n)) => {
                let refused = Status::ScriptRefused;
                return put_last_line(alloc, &mut gathered, b"script", n, refused, report);
            }
            Err(ScriptFault::TooLarge) => {
                put(report, gathered.as_slice())?;
                return Ok(Status::TooLarge);
            }
            Err(ScriptFault::Failed) => {
                put(report, gathered.as_slice())?;
                return Err(Fault::Read);
            }
            Err(ScriptFault::NoMemory) => return Err(Fault::NoMemory),
        }
        rows += 1;
    }
}
