// Machines that go on where the host refuses memory. What the tests themselves ask for they ask for once more where it is
// refused, so that only the conduct of a machine fails them.

use nxt_edge::{MemSink, SureSink, SureSource};
use nxt_machine::Machine;
use nxt_model::event::Event;
use nxt_model::line::{Line, Lines, Stop};
use nxt_tool::{Status, accept, nxt};
use std::alloc::Global;
use std::process::Abort;
use std::test::Fail;

/// How often is tried what the host refuses.
const TRIES: u32 = 100;

/// Lists in lists, put together to a text.
const NESTED_LISTS: &[u8] =
    b"#include \"NXTDefs.h\"\ndseg segment\na byte[] 'ab'\ny byte[] 'hi'\nx byte[][]\ndt TDrawText\n\
    dseg ends\nthread main\nstrcat a, a, a\narrbuild x, y, y\nreplace x, x, 0, a\nindex y, x, 1\n\
    index dt.Text, x, 0\nstrcat dt.Text, dt.Text, y\nsyscall DrawText, dt\nendt\n";

/// Three statements on lists leave a gap in the pool. Then come statements on numbers without end, none of which gives a line.
const NUMBERS: &[u8] =
    b"#include \"NXTDefs.h\"\ndseg segment\na byte[]\nb byte[]\nn ulong\ns slong -7\nk ubyte 3\nf sbyte\n\
    w word\ndseg ends\nthread main\narrinit a, 0, 100\narrinit b, 1, 100\narrsubset a, a, 0, 0\n\
    Again:\nadd n, n, k\nsub s, s, n\nmul w, s, k\ndiv s, s, k\nmod f, s, k\nand n, n, 255\nor n, n, k\n\
    xor n, n, s\nnot f, f\nneg s, s\ncmp LT, f, s, n\ntst EQ, f, s\nmov w, n\nset w, 77\n\
    brcmp GT, Over, n, 1000\nbrtst LT, Over, s\nOver:\nsetin IN_TYPE_LIGHT_ACTIVE, IN_3, Type\n\
    getin w, IN_3, ScaledValue\nsetout OUT_A, Power, 75\ngetout f, OUT_A, Power\ngettick n\nwait 1\n\
    jmp Again\nendt\n";

/// The words of a command.
struct Words {
    all: Vec<Vec<u8>>,
}

// With a function of its own a drop is proved once, and not at each end of a test.
impl Drop for Words {
    fn drop(self) {
        let Words { all: _ } = self;
    }
}

impl Words {
    fn add(&mut self, alloc: Global, text: &[u8]) -> Option<()> {
        self.all.push(text.to_vec(alloc).ok()?).ok()
    }

    fn add_all(&mut self, alloc: Global) -> Option<()> {
        self.add(alloc, b"asm")?;
        self.add(alloc, b"a")?;
        self.add(alloc, b"b")
    }
}

// The words that assemble a text, if the host has the memory.
fn words_of(alloc: Global) -> Option<Words> {
    let mut words = Words {
        all: Vec::new(alloc),
    };
    words.add_all(alloc)?;
    Some(words)
}

/// What the command reads and writes.
struct Objects {
    program: SureSource,
    script: SureSource,
    image: MemSink,
    report: SureSink,
}

impl Drop for Objects {
    fn drop(self) {
        let Objects {
            program: _,
            script: _,
            image: _,
            report: _,
        } = self;
    }
}

fn objects_of(alloc: Global, text: &[u8]) -> Option<Objects> {
    let program = SureSource::new(text.to_vec(alloc).ok()?);
    Some(Objects {
        program,
        script: SureSource::new(Vec::new(alloc)),
        image: MemSink::new(alloc, 4096, Vec::new(alloc)),
        report: SureSink::new(),
    })
}

fn status_of(alloc: Global, words: &[Vec<u8>], objects: &mut Objects) -> Status {
    nxt(
        alloc,
        words,
        &mut objects.program,
        &mut objects.script,
        &mut objects.image,
        &mut objects.report,
    )
}

// The machine of the image that was written, where the command succeeded.
fn machine_in(alloc: Global, status: Status, objects: &Objects) -> Option<Machine> {
    match status {
        Status::Done => accept(alloc, objects.image.bytes(), 0).ok(),
        _ => None,
    }
}

// The machine of a text, if the host has the memory.
fn made_of(alloc: Global, text: &[u8]) -> Option<Machine> {
    let words = words_of(alloc)?;
    let mut objects = objects_of(alloc, text)?;
    let status = status_of(alloc, words.all.as_slice(), &mut objects);
    machine_in(alloc, status, &objects)
}

// The machine of a text.
fn machine_of(alloc: Global, text: &[u8]) -> Result<Machine, Fail> {
    for _ in 0..TRIES {
        if let Some(machine) = made_of(alloc, text) {
            return Ok(machine);
        }
    }
    Err("there is no machine".into())
}

// Runs a bytecode, once more after each want of memory.
fn run_one(alloc: Global, machine: &mut Machine, out: &mut Lines) -> Result<(), Fail> {
    for _ in 0..TRIES {
        if machine.event(alloc, &Event::Bytecode, out).is_ok() {
            return Ok(());
        }
    }
    Err("a bytecode never runs".into())
}

// Whether a line is the one that is due behind those before it.
fn is_due(told: usize, line: &Line) -> bool {
    match line {
        Line::Text(x, y, options, text) => {
            let at_origin = *x == 0 && *y == 0 && *options == 0;
            told == 0 && at_origin && text.as_slice() == b"ababhi".as_slice()
        }
        Line::Stop(why) => told == 1 && *why == Stop::Finished,
        _ => false,
    }
}

// The lines of a step are those that are due behind the ones before; gives how many there are then.
fn expect_due(rt: &impl Abort, lines: &[Line], told: usize) -> usize {
    let mut told = told;
    for line in lines {
        assert!(rt; is_due(told, line), "after {told} lines");
        told = told.saturating_add(1);
    }
    told
}

// Runs a bytecode behind these lines, and gives how many there are then.
fn run_on(
    rt: &impl Abort,
    alloc: Global,
    machine: &mut Machine,
    told: usize,
) -> Result<usize, Fail> {
    let mut out = Lines::new(alloc);
    run_one(alloc, machine, &mut out)?;
    Ok(expect_due(rt, out.as_slice(), told))
}

fn run_all(rt: &impl Abort, alloc: Global, machine: &mut Machine) -> Result<(), Fail> {
    let mut told = 0;
    for _ in 0..20 {
        told = run_on(rt, alloc, machine, told)?;
    }
    assert_eq!(rt; told, 2);
    Ok(())
}

// After want of memory the same event is done as if nothing had been. Each line takes memory, since no list has room for it.
#[test]
fn nested_lists(rt: HostRuntime) -> Result<(), Fail> {
    let mut machine = machine_of(rt.alloc(), NESTED_LISTS)?;
    run_all(&rt, rt.alloc(), &mut machine)
}

fn takes(rt: &impl Abort, alloc: Global, machine: &mut Machine, event: &Event, out: &mut Lines) {
    assert!(rt; machine.event(alloc, event, out).is_ok());
}

fn take_each(rt: &impl Abort, alloc: Global, machine: &mut Machine, out: &mut Lines) {
    takes(rt, alloc, machine, &Event::Bytecode, out);
    takes(rt, alloc, machine, &Event::Compact(1), out);
    takes(rt, alloc, machine, &Event::Bytecode, out);
    takes(rt, alloc, machine, &Event::Tick(1), out);
    takes(rt, alloc, machine, &Event::Bytecode, out);
    takes(rt, alloc, machine, &Event::Reading(2, 500, 512, 60), out);
    takes(rt, alloc, machine, &Event::Tacho(0, 75, 100, 50, -360), out);
    takes(rt, alloc, machine, &Event::Button(3, 1, 1), out);
    takes(rt, alloc, machine, &Event::Battery(7500), out);
    takes(rt, alloc, machine, &Event::Random(-77), out);
}

fn take_many(
    rt: &impl Abort,
    alloc: Global,
    machine: &mut Machine,
    out: &mut Lines,
) -> Result<(), Fail> {
    for _ in 0..3 {
        run_one(alloc, machine, out)?;
    }
    assert_eq!(rt; machine.space().unsettled(), 1);
    for _ in 0..100 {
        take_each(rt, alloc, machine, out);
    }
    assert_eq!(rt; machine.space().unsettled(), 0);
    assert!(rt; machine.stopped().is_none() && out.as_slice().is_empty());
    Ok(())
}

// No event but a bytecode on lists or with a line, a telegram or a dump takes memory.
#[test]
fn events_without_memory(rt: HostRuntime) -> Result<(), Fail> {
    let mut machine = machine_of(rt.alloc(), NUMBERS)?;
    let mut out = Lines::new(rt.alloc());
    take_many(&rt, rt.alloc(), &mut machine, &mut out)
}
