// The commands that assemble, run and generate, over objects in memory.

use nxt_edge::{MemSink, MemSource};
use nxt_tool::{Status, nxt};
use std::alloc::Global;
use std::test::Fail;

/// A text, by parts that are repeated.
pub(crate) type Text<'a> = &'a [(&'a [u8], usize)];

/// How a command ended, and what it wrote.
#[derive(Drop)]
pub(crate) struct Ended {
    pub status: Status,
    pub image: Vec<u8>,
    pub report: Vec<u8>,
}

/// The bytes of a text.
pub(crate) fn bytes_of(alloc: Global, text: Text) -> Result<Vec<u8>, Fail> {
    let mut bytes = Vec::new(alloc);
    for (part, times) in text {
        for _ in 0..*times {
            bytes.extend_from_slice(part)?;
        }
    }
    Ok(bytes)
}

/// Assembles a text, where calls of these numbers on the sinks of the image and of the report fail.
pub(crate) fn assembled(
    alloc: Global,
    text: Text,
    image: &[u32],
    report: &[u32],
) -> Result<Ended, Fail> {
    let words = words_of(alloc, &[b"asm", b"a", b"b"])?;
    let mut program = source_of(alloc, bytes_of(alloc, text)?);
    let mut script = source_of(alloc, Vec::new(alloc));
    let mut image = MemSink::new(alloc, 16, image.to_vec(alloc)?);
    let mut report = MemSink::new(alloc, 16, report.to_vec(alloc)?);
    done(
        alloc,
        words,
        &mut program,
        &mut script,
        &mut image,
        &mut report,
    )
}

/// Runs a script on a program of a kind, `nbc` or `rxe`, where calls of these numbers on the script's source fail.
pub(crate) fn ran(
    alloc: Global,
    kind: &[u8],
    program: Vec<u8>,
    script: &[u8],
    failing: &[u32],
) -> Result<Ended, Fail> {
    let words = words_of(alloc, &[b"run", kind, b"a", b"b"])?;
    let script = MemSource::new(script.to_vec(alloc)?, 4096, failing.to_vec(alloc)?);
    ran_by(alloc, words, program, script)
}

/// The same with an effort, where nothing fails.
pub(crate) fn ran_with_effort(
    alloc: Global,
    effort: &[u8],
    kind: &[u8],
    program: Vec<u8>,
    script: &[u8],
) -> Result<Ended, Fail> {
    let words = words_of(alloc, &[b"run", b"--effort", effort, kind, b"a", b"b"])?;
    let script = source_of(alloc, script.to_vec(alloc)?);
    ran_by(alloc, words, program, script)
}

// Runs a script on a program by these words.
fn ran_by(
    alloc: Global,
    words: Vec<Vec<u8>>,
    program: Vec<u8>,
    script: MemSource,
) -> Result<Ended, Fail> {
    let mut program = source_of(alloc, program);
    let mut script = script;
    let mut image = MemSink::new(alloc, 16, Vec::new(alloc));
    let mut report = MemSink::new(alloc, 16, Vec::new(alloc));
    done(
        alloc,
        words,
        &mut program,
        &mut script,
        &mut image,
        &mut report,
    )
}

/// Makes a program from a number and runs it, where the first read of any source fails.
pub(crate) fn generated(alloc: Global, number: &[u8]) -> Result<Ended, Fail> {
    let words = words_of(alloc, &[b"gen", number])?;
    let failing = [0].to_vec(alloc)?;
    let mut program = MemSource::new(Vec::new(alloc), 4096, failing);
    let failing = [0].to_vec(alloc)?;
    let mut script = MemSource::new(Vec::new(alloc), 4096, failing);
    let mut image = MemSink::new(alloc, 16, Vec::new(alloc));
    let mut report = MemSink::new(alloc, 16, Vec::new(alloc));
    done(
        alloc,
        words,
        &mut program,
        &mut script,
        &mut image,
        &mut report,
    )
}

// The words of a command.
fn words_of(alloc: Global, texts: &[&[u8]]) -> Result<Vec<Vec<u8>>, Fail> {
    let mut words = Vec::new(alloc);
    for text in texts {
        words.push(text.to_vec(alloc)?)?;
    }
    Ok(words)
}

// A source that never fails.
fn source_of(alloc: Global, bytes: Vec<u8>) -> MemSource {
    MemSource::new(bytes, 4096, Vec::new(alloc))
}

// What the tool does.
fn done(
    alloc: Global,
    words: Vec<Vec<u8>>,
    program: &mut MemSource,
    script: &mut MemSource,
    image: &mut MemSink,
    report: &mut MemSink,
) -> Result<Ended, Fail> {
    let status = nxt(alloc, words.as_slice(), program, script, image, report);
    Ok(Ended {
        status,
        image: image.bytes().to_vec(alloc)?,
        report: report.bytes().to_vec(alloc)?,
    })
}
