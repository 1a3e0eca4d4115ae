// The lines of the dataspace table.

ghost use Rattle.std.specs.Prelude.{◌≡◌, ◌++◌, flat_map, OnOk};
ghost use Rattle.std.specs.List.{enumerate_from};
ghost use Rattle.nxt_types.specs.Mnemonics.{type_name as name_of_type};
ghost use Rattle.nxt_list.specs.Listing.{entry_line};

use crate::fields::{push_number, push_text};
use nxt_types::shape::TocEntry;
use nxt_types::{Bytes, NoMemory};

/// Adds a line for each entry of the table (Executable File Specification, "Dataspace Table of Contents").
pub fn push_entries(into: &mut Bytes, entries: &[TocEntry]) -> Result<(), NoMemory>
    ensures { OnOk result (into.new ≡ into.old ++ flat_map entry_line (enumerate_from 0 entries.now)) }
{
    for (i, entry) in entries.iter().enumerate() {
        push_entry(into, i, entry)?;
    }
    Ok(())
}

fn push_entry(into: &mut Bytes, i: usize, entry: &TocEntry) -> Result<(), NoMemory>
    ensures { OnOk result (into.new ≡ into.old ++ entry_line (i, entry.now)) }
{
    into.append(b"toc")?;
    push_number(into, i)?;
    push_text(into, type_name(entry.code))?;
    push_number(into, usize::from(entry.flags))?;
    push_number(into, usize::from(entry.desc))?;
    into.push(b'\n')
}

fn type_name(code: u8) -> &'static str
    ensures { result.now ≡ name_of_type code }
{
    match code {
        0 => "void",
        1 => "ubyte",
        2 => "sbyte",
        3 => "uword",
        4 => "sword",
        5 => "ulong",
        6 => "slong",
        7 => "array",
        8 => "cluster",
        9 => "mutex",
        _ => "",
    }
}
