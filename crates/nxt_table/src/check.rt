// The table of a file that keeps the rules on it.

ghost use Rattle.std.specs.Prelude.{◌≡◌, ◌<◌, ◌≤◌, ◌^◌, length, All, IfOk, IfErr, None, IsTrue, ◌⊎◌};
ghost use Rattle.nxt_types.specs.Refusals.{IsRefusal};
ghost use Rattle.nxt_rxe.specs.Files.{HasCounts};
ghost use Rattle.nxt_table.specs.declared.fault.TableFault.TheVariants.{NoMemory as no_memory};
ghost use Rattle.nxt_table.specs.Inside.Enclosing.{placed_entries as entries_placed};
ghost use Rattle.nxt_table.specs.TableRules.{rank, Broken};
ghost use Rattle.nxt_table.specs.Inside.Checks.{IsFound, table_fault, leaf_fault, leaves_of as leaves_in};
ghost use Rattle.nxt_table.specs.KeptTables.{IsTable};

use crate::dataspace::dataspace_of;
use crate::enclosing::{NestedEntry, inner_mutex, placed_entries};
use crate::fault::TableFault;
use crate::leaves::{PlacedLeaf, lacking_default, leaves_of, misplaced};
use crate::overlap::overlap;
use crate::table::{open_variable, unknown_code};
use nxt_rxe::parts::Parts;
use std::alloc::Global;

/// A table's entries with what encloses them, its leaves in order, and the bytes of the dataspace at the start.
#[derive(Drop)]
pub struct Table {
    pub placed: Vec<NestedEntry>,
    pub leaves: Vec<PlacedLeaf>,
    pub bytes: Vec<u8>,
}

/// The table of a file's parts, or the first broken rule of the table, of its leaves or of their defaults, at its least
/// place (Executable File Specification, "Dataspace Table of Contents", "Default Values"). Where the parts aren't as long as
/// their header tells the answer is `TypeOpen(0)`.
pub fn check_table(alloc: Global, parts: &Parts) -> Result<Table, TableFault>
    ensures found { IfOk result (IsTable parts.now) }
    ensures refused { HasCounts parts.now → IfErr result (λ fault. (fault ≡ no_memory) ⊎ IsRefusal (Broken parts.now) rank fault) }
    ensures count { IfOk result (λ _. length parts.now.toc < 2 ^ 16) }
    ensures places { IfOk result (λ table. All (λ l. l.place < 2 ^ 16) table.leaves.items) }
{
    if !has_counts(parts) {
        return Err(TableFault::TypeOpen(0));
    }
    let placed = check_entries(alloc, parts)?;
    let leaves = check_leaves(alloc, parts, placed.as_slice())?;
    let bytes = dataspace_of(alloc, parts, leaves.as_slice())?;
    Ok(Table {
        placed,
        leaves,
        bytes,
    })
}

// Whether the table and the default data are as long as the head tells.
fn has_counts(parts: &Parts) -> bool
    ensures few { IsTrue result → (length parts.now.toc < 2 ^ 16) × (parts.now.header.default_size ≤ length parts.now.defaults) }
    ensures file { HasCounts parts.now → IsTrue result }
{
    parts.toc.len() == usize::from(parts.header.toc_count)
        && parts.defaults.len() >= usize::from(parts.header.default_size)
}

// The entries of a table of whole variables that stand deep enough and have their mutexes outside.
fn check_entries(alloc: Global, parts: &Parts) -> Result<Vec<NestedEntry>, TableFault>
    requires { length parts.now.toc < 2 ^ 16 }
    ensures found { IfOk result (λ ps. (ps.items ≡ entries_placed parts.now.toc) × (table_fault parts.now ≡ None)) }
    ensures refused { IfErr result (IsFound (table_fault parts.now)) }
    ensures count { IfOk result (λ ps. length ps.items < 2 ^ 16) }
{
    let entries = parts.toc.as_slice();
    if let Some(entry) = unknown_code(entries) {
        return Err(TableFault::TypeCode(entry));
    }
    if let Some(entry) = open_variable(entries) {
        return Err(TableFault::TypeOpen(entry));
    }
    let placed = placed_entries(alloc, entries)?;
    if let Some(entry) = inner_mutex(placed.as_slice()) {
        return Err(TableFault::MutexInside(entry));
    }
    Ok(placed)
}

// The leaves of a table, in their places, apart, and with their defaults.
fn check_leaves(
    alloc: Global,
    parts: &Parts,
    placed: &[NestedEntry],
) -> Result<Vec<PlacedLeaf>, TableFault>
    requires count { length placed.now < 2 ^ 16 }
    requires placed { placed.now ≡ entries_placed parts.now.toc }
    ensures found { IfOk result (λ ls. (ls.items ≡ leaves_in parts.now) × (leaf_fault parts.now ≡ None)) }
    ensures refused { IfErr result (IsFound (leaf_fault parts.now)) }
    ensures places { IfOk result (λ ls. All (λ l. l.place < 2 ^ 16) ls.items) }
{
    let leaves = leaves_of(alloc, placed)?;
    if let Some(entry) = misplaced(leaves.as_slice(), parts.header.static_size) {
        return Err(TableFault::Place(entry));
    }
    if let Some((entry, other)) = overlap(alloc, leaves.as_slice())? {
        return Err(TableFault::Overlap(entry, other));
    }
    if let Some(entry) = lacking_default(leaves.as_slice(), parts.header.default_size) {
        return Err(TableFault::DefaultsShort(entry));
    }
    Ok(leaves)
}
