// Telegrams that are told to devices, one after another.

use nxt_direct::{Effect, telegram};
use nxt_io::Io;
use nxt_model::line::{Line, Lines};
use nxt_model::text::line_text;
use nxt_types::Bytes;
use std::alloc::Global;
use std::process::Abort;
use std::test::Fail;

/// The moment at which telegrams come, in ms.
const CLOCK: u64 = 1000;

/// A telegram, what it does to the program, and the text of its lines, with the reply last.
pub(crate) type Told<'a> = (&'a [u8], Effect, &'a str);

/// A name, and telegrams that come to the same devices.
pub(crate) type Case<'a> = (&'a str, &'a [Told<'a>]);

/// Whether a program runs when a telegram comes.
#[derive(Clone, Copy, PartialEq, Eq, Debug)]
pub(crate) enum Program {
    Active,
    Idle,
}

/// The text of lines, with a reply behind them.
fn report_of(alloc: Global, mut lines: Lines, reply: Option<Bytes>) -> Result<Bytes, Fail> {
    if let Some(reply) = reply {
        lines.push(Line::Reply(reply))?;
    }
    let mut report = Bytes::new(alloc);
    for line in lines.as_slice() {
        line_text(line, &mut report)?;
    }
    Ok(report)
}

/// Telegrams come to these devices, one after another.
pub(crate) fn tell(
    rt: &impl Abort,
    alloc: Global,
    name: &str,
    program: Program,
    io: &mut Io,
    telegrams: &[Told],
) -> Result<(), Fail> {
    let active = program == Program::Active;
    for (bytes, effect, text) in telegrams {
        let mut lines = Lines::new(alloc);
        let answer = telegram(alloc, bytes, active, CLOCK, io, &mut lines)?;
        assert_eq!(rt; answer.effect, *effect, "{name}: {bytes:?}");
        let report = report_of(alloc, lines, answer.reply)?;
        let report = str::from_utf8(report.as_slice()).unwrap_or("(no text)\n");
        assert_eq!(rt; report, *text, "{name}: {bytes:?}");
    }
    Ok(())
}

/// Each case has devices of its own.
pub(crate) fn tell_cases(
    rt: &impl Abort,
    alloc: Global,
    program: Program,
    cases: &[Case],
) -> Result<(), Fail> {
    for (name, telegrams) in cases {
        let mut io = Io::new(alloc)?;
        tell(rt, alloc, name, program, &mut io, telegrams)?;
    }
    Ok(())
}
