// The rules on a file's rows.

ghost use Rattle.std.specs.Prelude.{◌≡◌, ◌<◌, ◌≤◌, ◌^◌, [], ◌&&◌, not, nat_lt, map, length, slice_index, sum_by, option_map, List, All, IfOk, IfErr, None};
ghost use Rattle.nxt_model.specs.Reading.{row_count};
ghost use Rattle.nxt_layout.specs.LayoutRules.{has_table as tells_table};
ghost use Rattle.nxt_layout.specs.Rows.{is_placed};
ghost use Rattle.nxt_layout.specs.declared.fault.LayoutFault.TheVariants.{RowIndex};
ghost use Rattle.nxt_layout.specs.Inside.RowPasses.{ground_of, through_from, array_leaves, extent_in, first_beyond, first_below, is_full_by, full_bytes as bytes_of_full, least_of_all, ArraysRise, HaveStrides, Through, AreTold};
ghost use Rattle.nxt_layout.specs.Inside.Passes.{IsFound, rows_fault};

use crate::dataspace::Dataspace;
use crate::fault::LayoutFault;
use crate::reach::{ArrayRows, Arrays, arrays_of, extents_of};
use crate::spans::{is_full, overlap_of, spans_of};
use crate::strides::least;
use nxt_rxe::parts::Header;
use nxt_table::leaves::PlacedLeaf;
use nxt_types::NoMemory;
use std::alloc::Global;

/// Whether the table of rows lies behind the static bytes in the dataspace, and row 0 tells it.
pub fn has_table(header: &Header, space: &Dataspace) -> bool
    ensures { result ≡ tells_table header.now (ground_of space.now) }
{
    let table = u32::from(header.dope_at);
    let initial = u32::from(header.initial);
    header.static_size <= header.dope_at
        && table + 10 <= initial
        && space.stride(0) == 10
        && space.count(0) > 0
        && table + 10 * u32::from(space.count(0)) <= initial
}

/// What is found through each array of the table.
pub fn found_arrays(
    alloc: Global,
    space: &Dataspace,
    leaves: &[PlacedLeaf],
    entries: usize,
) -> Result<Arrays, LayoutFault>
    requires places { All (λ l. l.place < 2 ^ 16) leaves.now }
    requires entries { All (λ l. l.entry < entries) leaves.now }
    ensures count { IfOk result (λ a. length a.found.items ≤ length leaves.now) }
    ensures told { IfOk result (AreTold (ground_of space.now) (through_from (ground_of space.now) (extent_in leaves.now) [] (array_leaves leaves.now))) }
    ensures refused { IfErr result (IsFound (option_map RowIndex (first_beyond (through_from (ground_of space.now) (extent_in leaves.now) [] (array_leaves leaves.now))))) }
{
    let extents = extents_of(alloc, leaves, entries)?;
    arrays_of(alloc, space, leaves, extents.as_slice())
}

/// The first broken rule of 14 to 17: a row named twice, a stride, a place, an overlap.
pub fn check_rows(alloc: Global, space: &Dataspace, arrays: &Arrays) -> Result<(), LayoutFault>
    requires { length arrays.now.marks.items ≡ row_count (ground_of space.now).memory }
    ensures kept { (ts : List Through) → AreTold (ground_of space.now) ts arrays.now → IfOk result (λ _. rows_fault (ground_of space.now) ts ≡ None) }
    ensures refused { (ts : List Through) → AreTold (ground_of space.now) ts arrays.now → IfErr result (IsFound (rows_fault (ground_of space.now) ts)) }
{
    let marks = arrays.marks.as_slice();
    if let Some(row) = shared(space, marks) {
        return Err(LayoutFault::RowShared(u32::from(row)));
    }
    if let Some(row) = misstrided(arrays.found.as_slice()) {
        return Err(LayoutFault::Stride(u32::from(row)));
    }
    if let Some(row) = misplaced(space, marks) {
        return Err(LayoutFault::RowPlace(u32::from(row)));
    }
    let spans = spans_of(alloc, space, marks)?;
    if let Some((row, other)) = overlap_of(alloc, spans.as_slice())? {
        return Err(LayoutFault::RowOverlap(row, other));
    }
    Ok(())
}

// The least row whose stride isn't its array's.
fn misstrided(arrays: &[ArrayRows]) -> Option<u16>
    ensures { result ≡ least_of_all (map (λ a. a.misstrided) arrays.now) }
{
    let mut found: Option<u16> = None;
    for array in arrays {
        if let Some(row) = array.misstrided {
            found = Some(least(found, row));
        }
    }
    found
}

// The first row that two lists name.
fn shared(space: &Dataspace, marks: &[u8]) -> Option<u16>
    requires { length marks.now ≡ row_count (ground_of space.now).memory }
    ensures { result ≡ first_below (λ r. nat_lt 1 (slice_index marks.now r)) 0 (row_count (ground_of space.now).memory) }
{
    let rows = space.rows();
    for row in 0..rows {
        if marks[usize::from(row)] > 1 {
            return Some(row);
        }
    }
    None
}

// The first full row whose elements begin in the static bytes, or end past the dataspace.
fn misplaced(space: &Dataspace, marks: &[u8]) -> Option<u16>
    requires { length marks.now ≡ row_count (ground_of space.now).memory }
    ensures { result ≡ first_below (λ r. is_full_by (ground_of space.now) marks.now r && not (is_placed (ground_of space.now) r)) 0 (row_count (ground_of space.now).memory) }
{
    let rows = space.rows();
    for row in 0..rows {
        if is_full(space, marks, row) && !space.is_placed(row) {
            return Some(row);
        }
    }
    None
}

/// The bytes of the marked rows, each rounded up to a multiple of 4.
pub fn full_bytes(space: &Dataspace, marks: &[u8]) -> u64
    requires { length marks.now ≡ row_count (ground_of space.now).memory }
    ensures value { result ≡ bytes_of_full (ground_of space.now) (is_full_by (ground_of space.now) marks.now) }
    ensures bound { result ≤ 2 ^ 49 }
{
    let rows = space.rows();
    let mut bytes: u64 = 0;
    for row in 0..rows {
        if is_full(space, marks, row) {
            bytes += space.rounded_bytes(row);
        }
    }
    bytes
}

/// How many lists the variables have at the start.
pub fn lists_of(arrays: &[ArrayRows]) -> u64
    requires lists { All (λ a. a.lists ≤ 2 ^ 33) arrays.now }
    requires count { length arrays.now ≤ 2 ^ 16 }
    ensures value { result ≡ sum_by (λ a. a.lists) arrays.now }
    ensures bound { result ≤ 2 ^ 49 }
{
    let mut lists: u64 = 0;
    for array in arrays {
        lists += array.lists;
    }
    lists
}

/// The stride of each array by its entry, and 0 for the other entries.
pub fn strides_of(alloc: Global, arrays: &[ArrayRows], entries: usize) -> Result<Vec<u32>, NoMemory>
    requires { ArraysRise 0 entries arrays.now }
    ensures count { IfOk result (λ strides. length strides.items ≡ entries) }
    ensures strides { IfOk result (λ strides. HaveStrides strides.items arrays.now) }
{
    let mut strides = vec![in alloc; 0u32; entries]?;
    for array in arrays {
        strides[array.entry as usize] = array.stride;
    }
    Ok(strides)
}
