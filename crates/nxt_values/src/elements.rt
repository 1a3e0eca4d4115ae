// The elements of lists that are held in rows.

ghost use Rattle.std.specs.Prelude.{◌≡◌, ◌<◌, ◌≤◌, ◌+◌, ◌*◌, ◌^◌, length};
ghost use Rattle.nxt_types.specs.Pool.{pool_size};
ghost use Rattle.nxt_heap.specs.Lists.{footprint, IsAlive};
ghost use Rattle.nxt_values.specs.Held.{leaf_place as place_of, row_in};
ghost use Rattle.nxt_values.specs.Regions.{bytes_in, IsRegion};
ghost use Rattle.nxt_values.specs.Elements.{AreElements, element_place};

use crate::reading::{Place, Region, leaf_place, row_at};
use nxt_heap::Heap;
use nxt_types::shape::TocEntry;

/// The elements of a list: the row that holds them, how many there are, how many bytes each is behind the one before it,
/// and the first entry of each.
#[derive(Clone, Copy, PartialEq, Eq, Debug)]
pub struct Elements {
    pub row: u16,
    pub count: u32,
    pub stride: u32,
    pub entry: u16,
}

impl Elements {
    /// Where the k-th element stands, counted from 0.
    pub fn place(self, k: u32) -> Place
        requires k { k < self.count }
        requires small { self.count * self.stride < 2 ^ 32 }
        ensures { result ≡ element_place self k }
    {
        Place {
            region: Region::Row(self.row),
            entry: self.entry,
            base: k * self.stride,
        }
    }
}

/// The row of the list whose leaf stands there.
pub fn list_row(heap: &Heap, entries: &[TocEntry], list: Place) -> u16
    requires pool { footprint heap.now.lists ≤ pool_size }
    requires region { IsRegion heap.now.lists list.region }
    requires within { place_of entries.now list.entry list.base + 2 ≤ length (bytes_in heap.now.lists list.region) }
    ensures { result ≡ row_in entries.now list.entry (bytes_in heap.now.lists list.region) list.base }
{
    row_at(
        heap,
        list.region,
        leaf_place(entries, list.entry, list.base),
    )
}

/// The elements of the list whose leaf stands there.
pub fn elements_at(heap: &Heap, entries: &[TocEntry], stride: u32, list: Place) -> Elements
    requires pool { footprint heap.now.lists ≤ pool_size }
    requires region { IsRegion heap.now.lists list.region }
    requires entries { list.entry + 1 < 2 ^ 16 }
    requires some { 1 ≤ stride }
    requires within { place_of entries.now list.entry list.base + 2 ≤ length (bytes_in heap.now.lists list.region) }
    requires alive { IsAlive heap.now.lists (row_in entries.now list.entry (bytes_in heap.now.lists list.region) list.base) }
    ensures { AreElements entries.now heap.now.lists stride list result }
{
    let row = list_row(heap, entries, list);
    let count = heap.bytes_of(row).len() as u32 / stride;
    Elements {
        row,
        count,
        stride,
        entry: list.entry + 1,
    }
}
