// What crosses the crates: worked commands, each statement at its edges, and calls that fail.

mod checks;
mod events;
mod faults;
mod help;
mod kinds;
mod programs;
mod worked;

use nxt_edge::{MemSink, MemSource};
use nxt_images::{EMPTY, Image, SBYTE, Statement, UBYTE, op};
use nxt_tool::{Status, nxt};
use nxt_types::words::LEFT_OUT;
use std::alloc::Global;
use std::test::Fail;

/// The end of a program.
const FINISH: Statement<'static> = &[op::FINCLUMP, 0, LEFT_OUT];

/// Sets the power of the motor at output A to 75, commits it and ends.
const MOTOR: Image<'static> = Image {
    entries: &[(UBYTE, 0, 0), (SBYTE, 0, 1), (UBYTE, 0, 2)],
    static_size: 3,
    defaults: &[0, 75, 2],
    clumps: &[0],
    code: &[&[op::SETOUT, 0, 2, 1, 0, 2], FINISH],
    ..EMPTY
};

const MOTOR_REPORT: &[u8] = b"motor,0,0,75,0,0,0,0\nstop,finished\nend,1\n";

const MOTOR_LISTING: &[u8] =
    b"header,3,3,3,3,0,0,0,0,0,1,10\ntoc,0,ubyte,0,0\ntoc,1,sbyte,0,1\ntoc,2,ubyte,0,2\nclump,0,0,0\ncode,0,setout,0,2,1,0,2\ncode,7,finclump,0,-1\n";

/// Jumps to itself.
const ENDLESS_JUMP: Image<'static> = Image {
    clumps: &[0],
    code: &[&[op::JMP, 0]],
    ..EMPTY
};

/// The words of `run rxe` with names of files.
fn run_words(alloc: Global) -> Result<Vec<Vec<u8>>, Fail> {
    words_of(alloc, &[b"run", b"rxe", b"a", b"b"])
}

fn words_of(alloc: Global, texts: &[&[u8]]) -> Result<Vec<Vec<u8>>, Fail> {
    let mut words = Vec::new(alloc);
    for text in texts {
        words.push(text.to_vec(alloc)?)?;
    }
    Ok(words)
}

/// How a command ended, and what it wrote.
#[derive(Drop)]
struct Ended {
    status: Status,
    image: Vec<u8>,
    report: Vec<u8>,
}

/// The numbers of the calls that are to fail, by object.
#[derive(Clone, Copy)]
struct Failing<'a> {
    program: &'a [u32],
    script: &'a [u32],
    image: &'a [u32],
    report: &'a [u32],
}

const NONE: Failing<'static> = Failing {
    program: &[],
    script: &[],
    image: &[],
    report: &[],
};

/// The bytes that a call moves at most, where it moves all that there are.
const WHOLE: usize = 4096;

/// Runs a command over objects in memory, each of which moves `chunk` bytes with a call.
fn command(
    alloc: Global,
    words: &[Vec<u8>],
    program: &[u8],
    script: &[u8],
    chunk: usize,
    failing: Failing,
) -> Result<Ended, Fail> {
    let chunk = chunk.max(1);
    let mut program = MemSource::new(
        program.to_vec(alloc)?,
        chunk,
        failing.program.to_vec(alloc)?,
    );
    let mut script = MemSource::new(script.to_vec(alloc)?, chunk, failing.script.to_vec(alloc)?);
    let mut image = MemSink::new(alloc, chunk, failing.image.to_vec(alloc)?);
    let mut report = MemSink::new(alloc, chunk, failing.report.to_vec(alloc)?);
    let status = nxt(
        alloc,
        words,
        &mut program,
        &mut script,
        &mut image,
        &mut report,
    );
    Ok(Ended {
        status,
        image: image.bytes().to_vec(alloc)?,
        report: report.bytes().to_vec(alloc)?,
    })
}
