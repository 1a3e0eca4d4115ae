//! Runs each example through the tool, and compares what it writes with what is stored beside it.
#![tactic(auto)]

use anyhow::Result;
use nxt_edge::{FileSource, MemSink, Source, SureSink, SureSource};
use nxt_tool::nxt;
use std::alloc::Global;
use std::fs;
use std::process::ExitCode;

/// What is asked of the tool.
#[derive(Clone, Copy)]
enum Command {
    /// `run rxe NAME.rxe NAME.csv`, which is to write NAME.report.
    Run,
    /// `run nbc NAME.nbc NAME.csv`, which is to write NAME.report.
    RunText,
    /// `check NAME.rxe`, which is to write NAME.check.
    Check,
    /// `list NAME.rxe`, which is to write NAME.list.
    List,
    /// `asm NAME.nbc IMAGE`, which is to write NAME.rxe.
    Assemble,
    /// The same, and then `run rxe IMAGE NAME.csv`, which is to write NAME.report.
    AssembleAndRun,
}

static EXAMPLES: [(&str, Command); 64] = [
    ("motor", Command::Run),
    ("rising", Command::Run),
    ("average", Command::Run),
    ("log", Command::Run),
    ("fills", Command::Run),
    ("shared_motor", Command::Run),
    ("median", Command::Run),
    ("night_watch", Command::Run),
    ("laps", Command::Run),
    ("line_follower", Command::Run),
    ("bumper", Command::Run),
    ("route", Command::Run),
    ("lost_jump", Command::Run),
    ("shared_motor", Command::RunText),
    ("median", Command::RunText),
    ("night_watch", Command::RunText),
    ("laps", Command::RunText),
    ("line_follower", Command::RunText),
    ("bumper", Command::RunText),
    ("route", Command::RunText),
    ("drive", Command::RunText),
    ("dark", Command::RunText),
    ("brightest", Command::RunText),
    ("there_and_back", Command::RunText),
    ("answer", Command::RunText),
    ("motor", Command::Check),
    ("average", Command::Check),
    ("log", Command::Check),
    ("fills", Command::Check),
    ("line_follower", Command::Check),
    ("bumper", Command::Check),
    ("route", Command::Check),
    ("list", Command::Check),
    ("shared_row", Command::Check),
    ("motor", Command::List),
    ("rising", Command::List),
    ("average", Command::List),
    ("log", Command::List),
    ("fills", Command::List),
    ("shared_motor", Command::List),
    ("median", Command::List),
    ("night_watch", Command::List),
    ("laps", Command::List),
    ("line_follower", Command::List),
    ("bumper", Command::List),
    ("route", Command::List),
    ("list", Command::List),
    ("shared_motor", Command::Assemble),
    ("median", Command::Assemble),
    ("night_watch", Command::Assemble),
    ("laps", Command::Assemble),
    ("route", Command::Assemble),
    ("shared_motor", Command::AssembleAndRun),
    ("median", Command::AssembleAndRun),
    ("night_watch", Command::AssembleAndRun),
    ("laps", Command::AssembleAndRun),
    ("line_follower", Command::AssembleAndRun),
    ("bumper", Command::AssembleAndRun),
    ("route", Command::AssembleAndRun),
    ("drive", Command::AssembleAndRun),
    ("dark", Command::AssembleAndRun),
    ("brightest", Command::AssembleAndRun),
    ("there_and_back", Command::AssembleAndRun),
    ("answer", Command::AssembleAndRun),
];

// What the name of the file ends with that holds what is due.
fn due_ending(command: Command) -> &'static str {
    match command {
        Command::Run | Command::RunText | Command::AssembleAndRun => "report",
        Command::Check => "check",
        Command::List => "list",
        Command::Assemble => "rxe",
    }
}

// The name of an example's file.
fn file_name(alloc: Global, name: &str, ending: &str) -> Result<String> {
    Ok(format!(in alloc; "{name}.{ending}")?)
}

fn source_of(rt: &HostRuntime, name: &str, ending: &str) -> Result<FileSource<HostRuntime>> {
    let path = file_name(rt.alloc(), name, ending)?;
    Ok(FileSource::new(rt.clone()?, Some(path)))
}

// What the tool writes as a report, for words of which the last names no file that is read.
fn report_of(
    rt: &HostRuntime,
    words: &[&str],
    program: &mut impl Source,
    name: &str,
) -> Result<Vec<u8>> {
    let alloc = rt.alloc();
    let words = words_of(alloc, words)?;
    let mut script = source_of(rt, name, "csv")?;
    let mut image = SureSink::new();
    let mut report = MemSink::new(alloc, 4096, Vec::new(alloc));
    nxt(
        alloc,
        words.as_slice(),
        program,
        &mut script,
        &mut image,
        &mut report,
    );
    Ok(report.bytes().to_vec(alloc)?)
}

fn words_of(alloc: Global, texts: &[&str]) -> Result<Vec<Vec<u8>>> {
    let mut words = Vec::new(alloc);
    for text in texts {
        words.push(text.as_bytes().to_vec(alloc)?)?;
    }
    Ok(words)
}

// What the tool writes as the image of a text.
fn image_of(rt: &HostRuntime, name: &str) -> Result<Vec<u8>> {
    let alloc = rt.alloc();
    let words = words_of(alloc, &["asm", "a", "b"])?;
    let mut program = source_of(rt, name, "nbc")?;
    let mut script = SureSource::new(Vec::new(alloc));
    let mut image = MemSink::new(alloc, 4096, Vec::new(alloc));
    let mut report = SureSink::new();
    nxt(
        alloc,
        words.as_slice(),
        &mut program,
        &mut script,
        &mut image,
        &mut report,
    );
    Ok(image.bytes().to_vec(alloc)?)
}

// What the tool writes.
fn written(rt: &HostRuntime, name: &str, command: Command) -> Result<Vec<u8>> {
    let mut file = source_of(rt, name, "rxe")?;
    match command {
        Command::Run => report_of(rt, &["run", "rxe", "a", "b"], &mut file, name),
        Command::RunText => {
            let mut text = source_of(rt, name, "nbc")?;
            report_of(rt, &["run", "nbc", "a", "b"], &mut text, name)
        }
        Command::Check => report_of(rt, &["check", "a"], &mut file, name),
        Command::List => report_of(rt, &["list", "a"], &mut file, name),
        Command::Assemble => image_of(rt, name),
        Command::AssembleAndRun => {
            let mut image = SureSource::new(image_of(rt, name)?);
            report_of(rt, &["run", "rxe", "a", "b"], &mut image, name)
        }
    }
}

// Whether an example is as expected, which is printed.
fn is_as_expected(rt: &HostRuntime, name: &str, command: Command) -> Result<bool> {
    let due_name = file_name(rt.alloc(), name, due_ending(command))?;
    let due = fs::read(rt, due_name.as_str())?;
    let written = written(rt, name, command)?;
    if written.as_slice() == due.as_slice() {
        println!(rt; "{due_name}: as expected")?;
        return Ok(true);
    }
    println!(rt; "{due_name}: differs. It should be")?;
    show(rt, due.as_slice())?;
    println!(rt; "and is")?;
    show(rt, written.as_slice())?;
    Ok(false)
}

// Prints a text.
fn show(rt: &HostRuntime, text: &[u8]) -> Result<()> {
    let text = str::from_utf8(text).unwrap_or("(no text)");
    println!(rt; "{text}")?;
    Ok(())
}

fn main(rt: HostRuntime) -> Result<ExitCode> {
    let mut all = true;
    for (name, command) in &EXAMPLES {
        all &= is_as_expected(&rt, name, *command)?;
    }
    Ok(if all {
        ExitCode::SUCCESS
    } else {
        ExitCode::FAILURE
    })
}
