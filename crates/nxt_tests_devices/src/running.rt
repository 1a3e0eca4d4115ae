// A program that is run to its end, after what comes from outside.

ghost use Rattle.std.specs.Prelude.{◌≤◌, IfOk};

use nxt_images::{Image, Statement, file_of};
use nxt_machine::Machine;
use nxt_model::event::Event;
use nxt_model::line::{Line, Lines};
use nxt_model::text::line_text;
use nxt_space::{Flat, Path, Space};
use nxt_tool::accept;
use nxt_types::lists::Bytes;
use std::alloc::Global;
use std::process::Abort;
use std::test::Fail;

/// How many bytecodes a program has time for.
const BYTECODES: u32 = 1000;

/// What comes from outside.
#[derive(Clone, Copy)]
pub(crate) enum Outside {
    Reading(u8, u16, u16, i16),
    Tacho(u8, i8, i32, i32, i32),
    Button(u8, u8, u8),
    Random(i16),
}

impl Outside {
    fn event(self) -> Event {
        match self {
            Outside::Reading(port, raw, normalized, scaled) => {
                Event::Reading(port, raw, normalized, scaled)
            }
            Outside::Tacho(port, speed, count, block, rotation) => {
                Event::Tacho(port, speed, count, block, rotation)
            }
            Outside::Button(index, pressed, presses) => Event::Button(index, pressed, presses),
            Outside::Random(word) => Event::Random(word),
        }
    }
}

fn machine_of(alloc: Global, image: &Image) -> Result<Machine, Fail> {
    let file = file_of(alloc, image)?;
    match accept(alloc, file.as_slice(), 0) {
        Ok(machine) => Ok(machine),
        Err(_) => Err("the file is refused".into()),
    }
}

fn add_texts(lines: &[Line], into: &mut Bytes) -> Result<(), Fail> {
    for line in lines {
        line_text(line, into)?;
    }
    Ok(())
}

// Runs `most` bytecodes at most, and adds the texts of their lines.
fn run_some(alloc: Global, machine: &mut Machine, most: u32, texts: &mut Bytes) -> Result<u32, Fail>
    ensures most { IfOk result (λ n. n ≤ most) }
    ensures some { 1 ≤ most → IfOk result (λ n. 1 ≤ n) }
{
    let mut lines = Lines::new(alloc);
    let ran = machine.run(alloc, most, &mut lines)?;
    add_texts(lines.as_slice(), texts)?;
    Ok(ran)
}

fn run_all(alloc: Global, machine: &mut Machine, texts: &mut Bytes) -> Result<(), Fail> {
    let mut left = BYTECODES;
    while left > 0 {
        left -= run_some(alloc, machine, left, texts)?;
    }
    Ok(())
}

// Runs bytecodes, and gives the texts of all lines.
fn report(alloc: Global, machine: &mut Machine) -> Result<Bytes, Fail> {
    let mut texts = Bytes::new(alloc);
    run_all(alloc, machine, &mut texts)?;
    Ok(texts)
}

fn expect_report(
    rt: &impl Abort,
    alloc: Global,
    machine: &mut Machine,
    lines: &str,
    name: &str,
) -> Result<(), Fail> {
    let texts = report(alloc, machine)?;
    let told = str::from_utf8(texts.as_slice()).unwrap_or("(no text)\n");
    assert_eq!(rt; told, lines, "{name}");
    Ok(())
}

// The flat form of the variable at an entry.
fn gathered(rt: &impl Abort, alloc: Global, space: &Space, i: u16) -> Result<Flat, Fail> {
    let named = space.shape(i).is_some();
    assert!(rt; named, "no variable at {i}");
    let path = Path::whole(alloc, i);
    let mut found = Flat::new(alloc);
    space.gather(&path, &mut found)?;
    Ok(found)
}

fn expect(
    rt: &impl Abort,
    alloc: Global,
    space: &Space,
    i: u16,
    flat: &[i64],
    name: &str,
) -> Result<(), Fail> {
    let found = gathered(rt, alloc, space, i)?;
    assert_eq!(rt; found.as_slice(), flat, "{name}: the entry {i}");
    Ok(())
}

/// A program's report after these events, and the flat forms of variables behind it.
#[derive(Clone, Copy)]
pub(crate) struct Due<'a> {
    pub lines: &'a str,
    pub after: &'a [(u16, &'a [i64])],
}

/// A name, the statements of a program, what comes from outside first, and what is due.
pub(crate) type Case<'a> = (&'a str, &'a [Statement<'a>], &'a [Outside], Due<'a>);

fn expect_all(
    rt: &impl Abort,
    alloc: Global,
    space: &Space,
    after: &[(u16, &[i64])],
    name: &str,
) -> Result<(), Fail> {
    for (i, flat) in after {
        expect(rt, alloc, space, *i, flat, name)?;
    }
    Ok(())
}

fn take_all(machine: &mut Machine, events: &[Outside]) {
    for event in events {
        machine.take(&event.event());
    }
}

// A machine goes on to its end, and has then told and stored what is due.
fn ends_with(
    rt: &impl Abort,
    alloc: Global,
    machine: &mut Machine,
    due: &Due,
    name: &str,
) -> Result<(), Fail> {
    expect_report(rt, alloc, machine, due.lines, name)?;
    expect_all(rt, alloc, machine.space(), due.after, name)
}

// A program is run to its end, after these events.
fn runs_to(
    rt: &impl Abort,
    alloc: Global,
    name: &str,
    image: &Image,
    events: &[Outside],
    due: &Due,
) -> Result<(), Fail> {
    let mut machine = machine_of(alloc, image)?;
    take_all(&mut machine, events);
    ends_with(rt, alloc, &mut machine, due, name)
}

/// Each program, which has this table, is run to its end, and ends as is due.
pub(crate) fn check_all(
    rt: &impl Abort,
    alloc: Global,
    table: &Image,
    cases: &[Case],
) -> Result<(), Fail> {
    for (name, code, events, due) in cases {
        let image = Image {
            code: *code,
            ..*table
        };
        runs_to(rt, alloc, name, &image, events, due)?;
    }
    Ok(())
}
