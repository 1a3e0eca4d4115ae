// The lines of the rows of a file's table of rows.

ghost use Rattle.std.specs.Prelude.{◌≡◌, ◌+◌, ◌<◌, ◌^◌, ◌++◌, slice_index, OnOk};
ghost use Rattle.nxt_types.specs.Bytes.{u16_at};
ghost use Rattle.nxt_list.specs.Listing.{row_line, lines_of_rows};
ghost use Rattle.nxt_list.specs.Inside.RowLines.{memory_of, has_array_entry, lines_of_layout};

use crate::fields::push_line;
use nxt_layout::Layout;
use nxt_types::pool::ROW_BYTES;
use nxt_types::shape::TocEntry;
use nxt_types::{Bytes, NoMemory};

/// Adds a line for each row of a file whose table spells an array, row 0 too (Executable File Specification, "Dope Vectors").
pub fn push_rows(into: &mut Bytes, layout: &Layout) -> Result<(), NoMemory>
    ensures { OnOk result (into.new ≡ into.old ++ lines_of_layout layout.now) }
{
    if spells_array(layout.toc().entries()) {
        push_all_rows(into, layout)
    } else {
        Ok(())
    }
}

fn spells_array(entries: &[TocEntry]) -> bool
    ensures { result ≡ has_array_entry entries.now }
{
    entries.iter().any(|entry| entry.code == 7)
}

fn push_all_rows(into: &mut Bytes, layout: &Layout) -> Result<(), NoMemory>
    ensures { OnOk result (into.new ≡ into.old ++ lines_of_rows (memory_of layout.now) layout.now.rows) }
{
    for row in 0..layout.file_rows() {
        push_row(into, layout, row)?;
    }
    Ok(())
}

fn push_row(into: &mut Bytes, layout: &Layout, row: u16) -> Result<(), NoMemory>
    ensures { OnOk result (into.new ≡ into.old ++ row_line (memory_of layout.now) row) }
{
    let space = layout.dataspace();
    let at = usize::from(layout.dope_at()) + ROW_BYTES as usize * usize::from(row);
    let place = number_at(space, at);
    let stride = number_at(space, at + 2);
    let count = number_at(space, at + 4);
    let back = number_at(space, at + 6);
    let link = number_at(space, at + 8);
    push_line(into, "row", &[row, place, stride, count, back, link])
}

// The number of 16 bits at a place, the low byte first. A byte past the end counts as 0.
fn number_at(bytes: &[u8], at: usize) -> u16
    requires { at < 2 ^ 32 }
    ensures { result ≡ u16_at bytes.now at }
{
    u16::from_le_bytes([byte_at(bytes, at), byte_at(bytes, at + 1)])
}

fn byte_at(bytes: &[u8], at: usize) -> u8
    ensures { result ≡ slice_index bytes.now at }
{
    match bytes.get(at) {
        Some(byte) => *byte,
        None => 0,
    }
}
