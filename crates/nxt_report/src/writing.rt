ghost use Rattle.std.specs.Prelude.{◌≡◌, ◌++◌, OnOk};
ghost use Rattle.nxt_model.specs.LineText.{lines_text as texts};
ghost use Rattle.nxt_report.specs.Writing.{Writes, Gathers};
ghost use Rattle.nxt_report.specs.declared.writing.Fault.TheVariants.{NoMemory as no_memory};

use nxt_edge::{Sink, write_all};
use nxt_model::line::Line;
use nxt_model::text::line_text;
use nxt_types::{Bytes, NoMemory, memory};

/// Why a report was not written to its end.
#[derive(Clone, Copy, Debug, PartialEq, Eq)]
pub enum Fault {
    /// The script's source failed.
    Read,
    /// The sink of the report failed.
    Write,
    NoMemory,
}

impl From<memory::NoMemory> for Fault {
    ghost from_gives = { λ _ fault. fault ≡ no_memory };

    fn from(_: memory::NoMemory) -> Self {
        Fault::NoMemory
    }
}

/// Writes a piece of the report.
pub fn put<R: Sink>(report: &mut R, piece: &[u8]) -> Result<(), Fault>
    ensures { Writes (R.written report.old) (R.written report.new) (R.faults report.old) (R.faults report.new) result piece.now }
{
    match write_all(report, piece) {
        Ok(()) => Ok(()),
        Err(_) => Err(Fault::Write),
    }
}

/// The bytes from which on a gathered text is written.
const PIECE: usize = 4_000;

/// Adds the texts of lines to a gathered text, and writes that where it is long enough.
pub fn gather<R: Sink>(report: &mut R, gathered: &mut Bytes, lines: &[Line]) -> Result<(), Fault>
    ensures { Gathers (R.written report.old) (R.written report.new) (R.faults report.old) (R.faults report.new) result gathered.old gathered.new (texts lines.now) }
{
    add_texts(gathered, lines)?;
    if gathered.len() < PIECE {
        return Ok(());
    }
    put(report, gathered.as_slice())?;
    gathered.clear();
    Ok(())
}

// Adds the texts of lines.
fn add_texts(text: &mut Bytes, lines: &[Line]) -> Result<(), NoMemory>
    ensures { OnOk result (text.new ≡ text.old ++ texts lines.now) }
{
    for line in lines {
        line_text(line, text)?;
    }
    Ok(())
}
