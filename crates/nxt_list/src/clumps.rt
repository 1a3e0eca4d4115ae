// The lines of the clumps.

ghost use Rattle.std.specs.Prelude.{◌≡◌, ◌++◌, length, OnOk};
ghost use Rattle.nxt_rxe.specs.Files.{dependent_count};
ghost use Rattle.nxt_list.specs.Listing.{clump_line, clump_lines};

use crate::fields::{push_last, push_number};
use nxt_types::lists::ClumpRec;
use nxt_types::{Bytes, NoMemory};

/// Adds a line for each clump with its own dependents (Executable File Specification, "Clump Records").
pub fn push_clumps(into: &mut Bytes, clumps: &[ClumpRec], dependents: &[u8]) -> Result<(), NoMemory>
    requires { length dependents.now ≡ dependent_count clumps.now }
    ensures { OnOk result (into.new ≡ into.old ++ clump_lines clumps.now dependents.now) }
{
    let mut rest = dependents;
    for (i, clump) in clumps.iter().enumerate() {
        let (own, others) = rest.split_at(usize::from(clump.dependents));
        push_clump(into, i, clump, own)?;
        rest = others;
    }
    Ok(())
}

fn push_clump(
    into: &mut Bytes,
    i: usize,
    clump: &ClumpRec,
    dependents: &[u8],
) -> Result<(), NoMemory>
    ensures { OnOk result (into.new ≡ into.old ++ clump_line (i, (clump.now, dependents.now))) }
{
    into.append(b"clump")?;
    push_number(into, i)?;
    push_number(into, usize::from(clump.fire))?;
    push_number(into, usize::from(clump.start))?;
    push_last(into, dependents)
}
