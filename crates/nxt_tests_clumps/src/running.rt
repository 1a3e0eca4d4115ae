// A program, run over a script.

use nxt_edge::{MemSink, MemSource, SureSink};
use nxt_images::{Image, file_of};
use nxt_tool::{Status, nxt};
use std::alloc::Global;
use std::process::Abort;
use std::test::Fail;

/// The bytes that a call moves at most.
const CHUNK: usize = 4096;

/// How a run ended, and what it wrote.
#[derive(Drop)]
struct Ended {
    status: Status,
    report: Vec<u8>,
}

/// The words of `run rxe` with names of files.
fn run_words(alloc: Global) -> Result<Vec<Vec<u8>>, Fail> {
    let texts: [&[u8]; 4] = [b"run", b"rxe", b"a", b"b"];
    let mut words = Vec::new(alloc);
    for text in texts {
        words.push(text.to_vec(alloc)?)?;
    }
    Ok(words)
}

fn run(alloc: Global, image: &Image, script: &[u8]) -> Result<Ended, Fail> {
    let words = run_words(alloc)?;
    let file = file_of(alloc, image)?.into_vec();
    let mut program = MemSource::new(file, CHUNK, Vec::new(alloc));
    let mut script = MemSource::new(script.to_vec(alloc)?, CHUNK, Vec::new(alloc));
    let mut unused = SureSink::new();
    let mut report = MemSink::new(alloc, CHUNK, Vec::new(alloc));
    let status = nxt(
        alloc,
        words.as_slice(),
        &mut program,
        &mut script,
        &mut unused,
        &mut report,
    );
    Ok(Ended {
        status,
        report: report.bytes().to_vec(alloc)?,
    })
}

/// A program runs the rows of a script, and gives a report.
pub(crate) fn reports(
    rt: &impl Abort,
    alloc: Global,
    name: &str,
    image: &Image,
    script: &[u8],
    report: &str,
) -> Result<(), Fail> {
    let ended = run(alloc, image, script)?;
    let told = str::from_utf8(ended.report.as_slice()).unwrap_or("(no text)\n");
    assert_eq!(rt; ended.status, Status::Done, "{name}");
    assert_eq!(rt; told, report, "{name}");
    Ok(())
}
