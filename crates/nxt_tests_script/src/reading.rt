// Scripts that are read to their end.

use nxt_edge::MemSource;
use nxt_model::event::{Event, ScriptRow};
use nxt_script::{Script, ScriptFault};
use std::alloc::Global;
use std::test::Fail;

/// A script, and the rows that it gives with the end behind them, one on each line.
pub(crate) type Case<'a> = (&'a [u8], &'a str);

/// The bytes that a source gives with a call at most.
pub(crate) const WHOLE: usize = 4096;

fn spelled(alloc: Global, row: &ScriptRow) -> Result<String, Fail> {
    let event = match row {
        ScriptRow::Run(count) => return Ok(format!(in alloc; "run {count}\n")?),
        ScriptRow::One(event) => event,
    };
    Ok(match event {
        Event::Tick(n) => format!(in alloc; "tick {n}\n")?,
        Event::Reading(port, raw, normalized, scaled) => {
            format!(in alloc; "reading {port} {raw} {normalized} {scaled}\n")?
        }
        Event::Tacho(port, speed, count, block, rotation) => {
            format!(in alloc; "tacho {port} {speed} {count} {block} {rotation}\n")?
        }
        Event::Button(i, pressed, count) => { format!(in alloc; "button {i} {pressed} {count}\n")? }
        Event::Battery(millivolts) => format!(in alloc; "battery {millivolts}\n")?,
        Event::Random(n) => format!(in alloc; "random {n}\n")?,
        Event::Telegram(bytes) => {
            let bytes = bytes.as_slice();
            format!(in alloc; "telegram {bytes:?}\n")?
        }
        Event::Compact(k) => format!(in alloc; "compact {k}\n")?,
        Event::Bytecode => format!(in alloc; "bytecode\n")?,
        Event::Dump => format!(in alloc; "dump\n")?,
    })
}

fn ended(alloc: Global, fault: ScriptFault) -> Result<String, Fail> {
    Ok(match fault {
        ScriptFault::Row(n) => format!(in alloc; "row {n} is bad\n")?,
        ScriptFault::TooMany(n) => format!(in alloc; "row {n} passes a limit\n")?,
        ScriptFault::Failed => format!(in alloc; "the source failed\n")?,
        ScriptFault::TooLarge => format!(in alloc; "too large\n")?,
        ScriptFault::NoMemory => format!(in alloc; "no memory\n")?,
    })
}

/// The rows that a script gives, with its end. The end is asked for twice.
pub(crate) fn read(
    alloc: Global,
    script: &[u8],
    chunk: usize,
    failing: &[u32],
) -> Result<String, Fail> {
    let bytes = script.to_vec(alloc)?;
    let mut source = MemSource::new(bytes, chunk.max(1), failing.to_vec(alloc)?);
    let mut script = Script::new(alloc);
    let mut told = String::new(alloc);
    let mut has_ended = false;
    for _ in 0..200_003 {
        let (text, ends) = match script.next_row(&mut source) {
            Ok(Some(row)) => (spelled(alloc, &row)?, false),
            Ok(None) => (format!(in alloc; "end\n")?, true),
            Err(fault) => (ended(alloc, fault)?, true),
        };
        told.push_str(text.as_str())?;
        if ends && has_ended {
            return Ok(told);
        }
        has_ended = ends;
    }
    Ok(told)
}
