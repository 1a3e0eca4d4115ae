// Compactions of a pool in which the blocks have the same gap below them.

ghost use Rattle.std.specs.Prelude.{◌≤◌};

use nxt_heap::Heap;
use std::alloc::Global;
use std::test::Fail;

/// As many rows as a table has when each list has up to four bytes and the pool is full.
pub(crate) const MANY: u16 = 2_340;

// Gives a list another number of bytes, where the pool holds them.
fn resize(heap: &mut Heap, row: u16, bytes: u32) {
    if let Some(stride) = heap.stride(row) {
        if stride > 0 && bytes % u32::from(stride) == 0 {
            let _fits = heap.resize(row, bytes);
        }
    }
}

// A heap with a table of this many rows, and a list of four bytes in each but row 0.
fn filled(alloc: Global, rows: u16) -> Result<Heap, Fail>
    requires some { 1 ≤ rows }
    requires few { rows ≤ 2340 }
{
    let mut heap = Heap::new(alloc, 12, rows)?;
    for _ in 1..rows {
        if let Ok(row) = heap.new_array(1) {
            resize(&mut heap, row, 4);
        }
    }
    Ok(heap)
}

/// Each time a heap gets the lists of the start, the lowest list loses its bytes, and blocks have leave to move. Gives how
/// many moved in all.
pub(crate) fn compacted(alloc: Global, rows: u16, times: u32, leave: u16) -> Result<u32, Fail>
    requires some { 1 ≤ rows }
    requires few { rows ≤ 2340 }
{
    let first = filled(alloc, rows)?;
    let mut heap = filled(alloc, 1)?;
    let mut moved = 0u32;
    for _ in 0..times {
        heap.copy_from(&first);
        resize(&mut heap, 1, 0);
        moved = moved.wrapping_add(u32::from(heap.compact(leave)));
    }
    Ok(moved)
}
