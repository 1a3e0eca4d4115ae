// The lines of a dump.

ghost use Rattle.std.specs.Prelude.{◌≡◌, ◌++◌, ◌<◌, ◌^◌, length, OnOk, OnErr};
ghost use Rattle.nxt_model.specs.Dump.{bytes_lines};

use nxt_model::line::{Line, Lines};
use nxt_types::{Bytes, NoMemory};
use std::alloc::Global;

/// The bytes of one line.
const LINE_BYTES: usize = 64;

/// Adds the bytes of the pool, from its first one on, in lines of 64.
pub(crate) fn push_bytes(alloc: Global, bytes: &[u8], lines: &mut Vec<Line>) -> Result<(), NoMemory>
    requires { length bytes.now < 2 ^ 32 }
    ensures { OnOk result (lines.new.items ≡ lines.old.items ++ bytes_lines (length bytes.now) 0 bytes.now) }
{
    let mut at = 0;
    let mut rest = bytes;
    while !rest.is_empty() {
        let (now, later) = rest.split_at(rest.len().min(LINE_BYTES));
        let mut line = Bytes::new(alloc);
        line.append(now)?;
        lines.push(Line::Bytes(at, line))?;
        at += now.len() as u32;
        rest = later;
    }
    Ok(())
}

/// Adds lines, all of them or none.
pub(crate) fn push_lines(lines: Vec<Line>, out: &mut Lines) -> Result<(), NoMemory>
    ensures ok { OnOk result (out.new.lines ≡ out.old.lines ++ lines.items) }
    ensures told { OnErr result (out.new.lines ≡ out.old.lines) }
{
    out.reserve(lines.len())?;
    for line in lines {
        out.push(line).unwrap();
    }
    Ok(())
}
