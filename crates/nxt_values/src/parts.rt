// Parts of values, and where they stand.

ghost use Rattle.std.specs.Prelude.{◌≡◌, ◌<◌, ◌≤◌, ◌+◌, ◌^◌, [], length, map, pos, slice_index_or};
ghost use Rattle.nxt_types.specs.Shapes.{Array, tree};
ghost use Rattle.nxt_types.specs.Names.{size};
ghost use Rattle.nxt_model.specs.Values.{Num, elements, part};
ghost use Rattle.nxt_types.specs.Pool.{pool_size};
ghost use Rattle.nxt_heap.specs.Lists.{footprint};
ghost use Rattle.nxt_values.specs.Regions.{IsRegion, HoldsThere, value_there};
ghost use Rattle.nxt_values.specs.Parts.{positions, AreWithin};

use crate::elements::elements_at;
use crate::reading::Place;
use nxt_heap::Heap;
use nxt_types::shape::{Shape, TocEntry};

/// Where the part of a value stands that positions in lists lead to, and its shape.
pub fn part_at<'s>(
    heap: &Heap,
    entries: &[TocEntry],
    shape: &'s Shape,
    at: Place,
    steps: &[i64],
) -> (&'s Shape, Place)
    requires pool { footprint heap.now.lists ≤ pool_size }
    requires region { IsRegion heap.now.lists at.region }
    requires entries { at.entry + size (tree shape.now) < 2 ^ 16 }
    requires holds { HoldsThere entries.now heap.now.lists (tree shape.now) at }
    requires within { AreWithin (tree shape.now) (value_there entries.now heap.now.lists (tree shape.now) at) (positions steps.now) }
    ensures region { IsRegion heap.now.lists result.1.region }
    ensures entries { result.1.entry + size (tree result.0.now) < 2 ^ 16 }
    ensures holds { HoldsThere entries.now heap.now.lists (tree result.0.now) result.1 }
    ensures value { value_there entries.now heap.now.lists (tree result.0.now) result.1 ≡ part (positions steps.now) (value_there entries.now heap.now.lists (tree shape.now) at) }
{
    let mut shape = shape;
    let mut at = at;
    for step in steps {
        if let Shape::List(stride, element) = shape {
            at = element_at(heap, entries, *stride, element, at, step.unsigned_abs());
            shape = element;
        }
    }
    (shape, at)
}

// Where the k-th element of a list stands, counted from 0.
fn element_at(
    heap: &Heap,
    entries: &[TocEntry],
    stride: u32,
    element: &Shape,
    list: Place,
    k: u64,
) -> Place
    requires pool { footprint heap.now.lists ≤ pool_size }
    requires region { IsRegion heap.now.lists list.region }
    requires entries { list.entry + size (tree element.now) + 1 < 2 ^ 16 }
    requires holds { HoldsThere entries.now heap.now.lists (Array stride (tree element.now)) list }
    requires within { k < length (elements (value_there entries.now heap.now.lists (Array stride (tree element.now)) list)) }
    ensures region { IsRegion heap.now.lists result.region }
    ensures entry { result.entry ≡ list.entry + 1 }
    ensures holds { HoldsThere entries.now heap.now.lists (tree element.now) result }
    ensures value { value_there entries.now heap.now.lists (tree element.now) result ≡ slice_index_or (elements (value_there entries.now heap.now.lists (Array stride (tree element.now)) list)) k (Num (pos 0)) }
{
    elements_at(heap, entries, stride, list).place(k as u32)
}
