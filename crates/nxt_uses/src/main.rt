//! What a tool maker writes who runs programs of the brick from a program of their own: a machine from an image and one from a
//! text, events one by one, lines as they come, variables, and a dump of the pool. `docs/embedding.md` goes through it.
#![tactic(auto)]

use anyhow::{Error, Result, anyhow};
use nxt_machine::Machine;
use nxt_model::event::Event;
use nxt_model::line::Lines;
use nxt_model::text::line_text;
use nxt_space::Space;
use nxt_tool::{accept, machine_of_text};
use nxt_types::Bytes;
use std::fs;
use std::process::ExitCode;

/// The greatest text that `machine_of_text` takes, in bytes.
const MOST_TEXT: usize = 16_777_216;

/// Bytecodes that are run at once.
const AT_ONCE: u32 = 1_000;

// The bytes of a file.
fn read(rt: &HostRuntime, path: &str) -> Result<Vec<u8>> {
    Ok(fs::read(rt, path)?)
}

fn refused() -> Error {
    anyhow!("the program is refused, or there is no memory")
}

fn no_memory() -> Error {
    anyhow!("no memory")
}

// The machine of the image in a file.
fn machine_of_image(rt: &HostRuntime, path: &str) -> Result<Machine> {
    let image = read(rt, path)?;
    accept(rt.alloc(), image.as_slice(), 0).map_err(|_| refused())
}

// The machine of the text in a file.
fn machine_of_nbc(rt: &HostRuntime, path: &str) -> Result<Machine> {
    let text = read(rt, path)?;
    if text.len() > MOST_TEXT {
        return Err(anyhow!("the text is too large"));
    }
    machine_of_text(rt.alloc(), text.as_slice(), 0).map_err(|_| refused())
}

// Prints bytes of a report.
fn print_text(rt: &HostRuntime, text: &[u8]) -> Result<()> {
    print!(rt; "{}", str::from_utf8(text).unwrap_or(""))?;
    Ok(())
}

// Prints lines, as a report has them.
fn print_lines(rt: &HostRuntime, lines: &Lines) -> Result<()> {
    let mut text = Bytes::new(rt.alloc());
    for line in lines.as_slice() {
        line_text(line, &mut text).map_err(|_| no_memory())?;
    }
    print_text(rt, text.as_slice())
}

// Gives the machine an event, and prints what it tells of it.
fn give(rt: &HostRuntime, machine: &mut Machine, event: &Event) -> Result<()> {
    let mut lines = Lines::new(rt.alloc());
    machine
        .event(rt.alloc(), event, &mut lines)
        .map_err(|_| no_memory())?;
    print_lines(rt, &lines)
}

// Runs at most so many bytecodes, until one tells a line, and prints it. The answer is how many ran.
fn run_on(rt: &HostRuntime, machine: &mut Machine, most: u32) -> Result<u32> {
    let mut lines = Lines::new(rt.alloc());
    let ran = machine
        .run(rt.alloc(), most, &mut lines)
        .map_err(|_| no_memory())?;
    print_lines(rt, &lines)?;
    Ok(ran)
}

// Runs bytecodes, and prints each line as it comes.
fn run(rt: &HostRuntime, machine: &mut Machine) -> Result<()> {
    let mut left = AT_ONCE;
    for _ in 0..AT_ONCE {
        left = left.saturating_sub(run_on(rt, machine, left)?);
        if left == 0 {
            break;
        }
    }
    Ok(())
}

// The sensor reads a value, the program runs, and time passes.
fn look(rt: &HostRuntime, machine: &mut Machine, scaled: i16) -> Result<()> {
    give(rt, machine, &Event::Reading(2, 500, 512, scaled))?;
    run(rt, machine)?;
    give(rt, machine, &Event::Tick(100))
}

// Prints a number, and what it is of.
fn print_number(rt: &HostRuntime, of: &str, number: i64) -> Result<()> {
    println!(rt; "{}: {}", of, number)?;
    Ok(())
}

// How many numbers the list of an entry has.
fn count_of(space: &Space, entry: u16) -> u32 {
    match space.list_spot(entry) {
        Some(spot) => space.count(spot),
        None => 0,
    }
}

// What the robot keeps is read from its variables.
fn print_variables(rt: &HostRuntime, machine: &Machine) -> Result<()> {
    let space = machine.space();
    print_number(rt, "light", space.get(0))?;
    print_number(rt, "numbers in seen", i64::from(count_of(space, 1)))?;
    print_number(rt, "bytes of the pool", i64::from(machine.footprint()))
}

// The robot looks four times, 100 ms apart, while the light changes.
fn brightest(rt: &HostRuntime) -> Result<()> {
    let mut machine = machine_of_nbc(rt, "brightest.nbc")?;
    for scaled in [40, 61, 52, 47] {
        look(rt, &mut machine, scaled)?;
    }
    run(rt, &mut machine)?;
    print_variables(rt, &machine)
}

// An image's start, as its pool stands.
fn laps(rt: &HostRuntime) -> Result<()> {
    let mut machine = machine_of_image(rt, "laps.rxe")?;
    give(rt, &mut machine, &Event::Dump)
}

fn main(rt: HostRuntime) -> Result<ExitCode> {
    brightest(&rt)?;
    laps(&rt)?;
    Ok(ExitCode::SUCCESS)
}
