// A generated program, and what is told of its run.

ghost use Rattle.std.specs.Prelude.{◌≡◌, ◌≤◌, All, length, flat_map, replicate, MatchResult, IfOk, OnOk};
ghost use Rattle.nxt_model.specs.Step.{events_of};
ghost use Rattle.nxt_tool.specs.Assembling.{HasTextCause, IsGenerated, IsTold};
ghost use Rattle.nxt_tool.specs.Runs.{HasRun, IsPlain};

use crate::assembling::machine_of_text;
use crate::fault::AcceptFault;
use nxt_gen::{generated_rows, generated_text, told};
use nxt_machine::Machine;
use nxt_model::event::{Event, ScriptRow};
use nxt_model::line::Lines;
use nxt_types::{Bytes, NoMemory};
use std::alloc::Global;

/// What is told of the run of the program that a number gives. No text that a number gives is refused.
pub fn generate(alloc: Global, number: u32) -> Result<Bytes, NoMemory>
    ensures { IfOk result (IsGenerated number) }
{
    let text = generated_text(alloc, number)?;
    let rows = generated_rows(alloc)?;
    match tell_run(alloc, text.as_slice(), rows.as_slice(), number) {
        Ok(told) => Ok(told),
        Err(AcceptFault::NoMemory) => Err(NoMemory),
        Err(AcceptFault::Refused(_)) => unreachable!(),
    }
}

// What is told under a number of the run of rows without dumps on a text, or the first rule that the text breaks.
fn tell_run(
    alloc: Global,
    text: &[u8],
    rows: &[ScriptRow],
    number: u32,
) -> Result<Bytes, AcceptFault>
    requires few { length text.now ≤ 16777216 }
    requires plain { All IsPlain rows.now }
    ensures { MatchResult result (IsTold text.now rows.now number) (HasTextCause text.now) }
{
    let mut machine = machine_of_text(alloc, text, 0)?;
    let mut lines = Lines::new(alloc);
    run_rows(alloc, &mut machine, rows, &mut lines)?;
    Ok(told(alloc, number, lines.as_slice())?)
}

// Runs rows without dumps, and adds their lines.
fn run_rows(
    alloc: Global,
    machine: &mut Machine,
    rows: &[ScriptRow],
    lines: &mut Lines,
) -> Result<(), NoMemory>
    requires { All IsPlain rows.now }
    ensures { OnOk result (HasRun machine.old machine.new (flat_map events_of rows.now) lines.old.lines lines.new.lines) }
{
    for row in rows {
        run_row(alloc, machine, row, lines)?;
    }
    Ok(())
}

// Runs a row that is no dump, and adds its lines.
fn run_row(
    alloc: Global,
    machine: &mut Machine,
    row: &ScriptRow,
    lines: &mut Lines,
) -> Result<(), NoMemory>
    requires { IsPlain row.now }
    ensures { OnOk result (HasRun machine.old machine.new (events_of row.now) lines.old.lines lines.new.lines) }
{
    match row {
        ScriptRow::Run(count) => run_bytecodes(alloc, machine, *count, lines),
        ScriptRow::One(event) => machine.event(alloc, event, lines),
    }
}

// Runs bytecodes, and adds their lines.
fn run_bytecodes(
    alloc: Global,
    machine: &mut Machine,
    count: u32,
    lines: &mut Lines,
) -> Result<(), NoMemory>
    ensures { OnOk result (HasRun machine.old machine.new (replicate count Event.Bytecode) lines.old.lines lines.new.lines) }
{
    let mut left = count;
    while left > 0 {
        let ran = machine.run(alloc, left, lines)?;
        left -= ran;
    }
    Ok(())
}
