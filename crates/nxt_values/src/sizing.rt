// How many lists stand in values, and how many bytes of the pool they take.

ghost use Rattle.std.specs.Prelude.{◌≡◌, ◌<◌, ◌≤◌, ◌+◌, ◌*◌, ◌^◌, length, drop, map, nat_abs};
ghost use Rattle.nxt_types.specs.Shapes.{tree, members};
ghost use Rattle.nxt_types.specs.Names.{size};
ghost use Rattle.nxt_types.specs.Pool.{pool_size, round4 as rounded};
ghost use Rattle.nxt_heap.specs.Lists.{footprint};
ghost use Rattle.nxt_values.specs.Regions.{IsRegion, HoldsThere, HoldAllThere};
ghost use Rattle.nxt_values.specs.Ahead.{ahead};
ghost use Rattle.nxt_values.specs.Fills.{filled, all_filled};
ghost use Rattle.nxt_values.specs.Sizes.{IsCountable, size_of_filled, size_of_all_filled, size_there, sizes_there};

use crate::elements::elements_at;
use crate::members::Members;
use crate::reading::Place;
use crate::shapes::is_number;
use crate::writing::{behind, behind_many, first_count};
use nxt_heap::Heap;
use nxt_types::pool::round4;
use nxt_types::shape::{Shape, TocEntry};

/// How many lists there are, and how many bytes of the pool they take, each list's rounded up to a multiple of 4.
#[derive(Clone, Copy, PartialEq, Eq, Debug)]
pub struct Size {
    pub lists: u64,
    pub bytes: u64,
}

/// Of no lists.
pub const NONE: Size = Size { lists: 0, bytes: 0 };

impl Size {
    /// Both together.
    pub fn plus(self, other: Size) -> Size
        requires lists { self.lists + other.lists < 2 ^ 64 }
        requires bytes { self.bytes + other.bytes < 2 ^ 64 }
        ensures { result ≡ record { lists = self.lists + other.lists; bytes = self.bytes + other.bytes } }
    {
        Size {
            lists: self.lists + other.lists,
            bytes: self.bytes + other.bytes,
        }
    }

    /// With a list around, of `count` elements, each `stride` bytes behind the one before it.
    pub fn in_list(self, count: u64, stride: u32) -> Size
        requires lists { self.lists + 1 < 2 ^ 64 }
        requires bytes { self.bytes + rounded (count * stride) < 2 ^ 64 }
        ensures { result ≡ record { lists = self.lists + 1; bytes = rounded (count * stride) + self.bytes } }
    {
        let own = round4(count * u64::from(stride));
        Size {
            lists: self.lists + 1,
            bytes: own + self.bytes,
        }
    }
}

/// The size of the value that stands there. No list stands in an element that is a number.
#[cycle(held)]
pub fn held_size(heap: &Heap, entries: &[TocEntry], shape: &Shape, at: Place) -> Size
    requires pool { footprint heap.now.lists ≤ pool_size }
    requires region { IsRegion heap.now.lists at.region }
    requires entries { at.entry + size (tree shape.now) < 2 ^ 16 }
    requires holds { HoldsThere entries.now heap.now.lists (tree shape.now) at }
    requires countable { IsCountable (size_there entries.now heap.now.lists (tree shape.now) at) }
    ensures { result ≡ size_there entries.now heap.now.lists (tree shape.now) at }
{
    match shape {
        Shape::Void | Shape::Mutex | Shape::Num(_) => NONE,
        Shape::List(stride, element) => {
            let elements = elements_at(heap, entries, *stride, at);
            if is_number(element) {
                return NONE.in_list(u64::from(elements.count), elements.stride);
            }
            let mut inner = NONE;
            for k in 0..elements.count {
                inner = inner.plus(held_size(heap, entries, element, elements.place(k)));
            }
            inner.in_list(u64::from(elements.count), elements.stride)
        }
        Shape::Group(group) => held_sizes(heap, entries, Members::of(group, at)),
    }
}

// The size of the members that are ahead.
#[cycle(held)]
fn held_sizes(heap: &Heap, entries: &[TocEntry], mut members: Members<'_>) -> Size
    requires pool { footprint heap.now.lists ≤ pool_size }
    requires region { IsRegion heap.now.lists members.first.region }
    requires holds { HoldAllThere entries.now heap.now.lists (ahead members) members.first }
    requires countable { IsCountable (sizes_there entries.now heap.now.lists (ahead members) members.first) }
    ensures { result ≡ sizes_there entries.now heap.now.lists (ahead members.entry) members.entry.first }
{
    let mut sum = NONE;
    while let Some((shape, place)) = members.next() {
        sum = sum.plus(held_size(heap, entries, shape, place));
    }
    sum
}

/// The size of the value that the numbers begin with, and the numbers behind it. An element that is a number is one of
/// them, and no list.
#[cycle(spelled)]
pub fn spelled_size<'a>(shape: &Shape, from: &'a [i64]) -> (Size, &'a [i64])
    requires { IsCountable (size_of_filled (tree shape.now) from.now) }
    ensures size { result.0 ≡ size_of_filled (tree shape.now) from.now }
    ensures rest { result.1.now ≡ (filled (tree shape.now) from.now).1 }
{
    match shape {
        Shape::Void | Shape::Mutex | Shape::Num(_) => (NONE, behind(from)),
        Shape::List(stride, element) => {
            let count = first_count(from);
            let mut left = behind(from);
            if is_number(element) {
                return (NONE.in_list(count, *stride), behind_many(left, count));
            }
            let mut inner = NONE;
            for _ in 0..count {
                let (one, rest) = spelled_size(element, left);
                inner = inner.plus(one);
                left = rest;
            }
            (inner.in_list(count, *stride), left)
        }
        Shape::Group(members) => spelled_sizes(members.items.as_slice(), from),
    }
}

/// The size of the values that the numbers begin with, and the numbers behind them.
#[cycle(spelled)]
pub fn spelled_sizes<'a>(shapes: &[Shape], from: &'a [i64]) -> (Size, &'a [i64])
    requires { IsCountable (size_of_all_filled (members (map tree shapes.now)) from.now) }
    ensures size { result.0 ≡ size_of_all_filled (members (map tree shapes.now)) from.now }
    ensures rest { result.1.now ≡ (all_filled (members (map tree shapes.now)) from.now).1 }
{
    let mut sum = NONE;
    let mut left = from;
    for shape in shapes {
        let (one, rest) = spelled_size(shape, left);
        sum = sum.plus(one);
        left = rest;
    }
    (sum, left)
}
