// Values that are read from the heap.

ghost use Rattle.std.specs.Prelude.{◌≡◌, ◌<◌, ◌≤◌, ◌+◌, ◌^◌, ◌++◌, OnOk, OnErr, length, drop, take, slice_index, slice_get, map};
ghost use Rattle.std.specs.Int.{from_le_bytes};
ghost use Rattle.nxt_types.specs.Arithmetic.{leaf_size as size_of_leaf, width_of};
ghost use Rattle.nxt_types.specs.Bytes.{u16_at};
ghost use Rattle.nxt_types.specs.Shapes.{tree, members};
ghost use Rattle.nxt_types.specs.Names.{size, sizes};
ghost use Rattle.nxt_model.specs.Values.{values, flat, flats};
ghost use Rattle.nxt_types.specs.Pool.{pool_size};
ghost use Rattle.nxt_model.specs.Means.Text.{number_in};
ghost use Rattle.nxt_model.specs.Reading.{desc_of};
ghost use Rattle.nxt_heap.specs.Lists.{footprint};
ghost use Rattle.nxt_values.specs.Regions.{bytes_in, IsRegion, value_there, values_there, HoldsThere, HoldAllThere};
ghost use Rattle.nxt_values.specs.Held.{leaf_place as place_of};
ghost use Rattle.nxt_values.specs.Ahead.{ahead};

use crate::elements::elements_at;
use crate::members::Members;
use nxt_heap::Heap;
use nxt_types::NoMemory;
use nxt_types::kind::Kind;
use nxt_types::lists::Nums;
use nxt_types::numbers::extend;
use nxt_types::shape::{Shape, TocEntry};

/// The bytes that a value stands in: the static bytes, or those of a row's list.
#[derive(Clone, Copy, PartialEq, Eq, Debug)]
pub enum Region {
    Static,
    Row(u16),
}

/// Where a value stands: the number of its first entry, and where the element that it is in begins among its region's
/// bytes. What is in no element has the base 0.
#[derive(Clone, Copy, PartialEq, Eq, Debug)]
pub struct Place {
    pub region: Region,
    pub entry: u16,
    pub base: u32,
}

/// The bytes of a region.
pub fn bytes_at_region(heap: &Heap, region: Region) -> &[u8]
    requires { IsRegion heap.now.lists region }
    ensures { result.now ≡ bytes_in heap.now.lists region }
{
    match region {
        Region::Static => heap.static_bytes(),
        Region::Row(row) => heap.bytes_of(row),
    }
}

/// The number of 16 bits whose low byte is there.
pub fn row_at(heap: &Heap, region: Region, at: u32) -> u16
    requires region { IsRegion heap.now.lists region }
    requires within { at + 2 ≤ length (bytes_in heap.now.lists region) }
    ensures { result ≡ u16_at (bytes_in heap.now.lists region) at }
{
    let bytes = bytes_at_region(heap, region);
    let at = at as usize;
    u16::from_le_bytes([bytes[at], bytes[at + 1]])
}

// The bytes of a number as a word. The kinds of 32 bits, which are the most frequent, are tested first.
fn word_at(heap: &Heap, region: Region, at: u32, kind: Kind) -> u32
    requires region { IsRegion heap.now.lists region }
    requires within { at + size_of_leaf kind ≤ length (bytes_in heap.now.lists region) }
    ensures { result ≡ from_le_bytes (width_of kind) (take (size_of_leaf kind) (drop at (bytes_in heap.now.lists region))) }
{
    let bytes = bytes_at_region(heap, region);
    let at = at as usize;
    if matches!(kind, Kind::Ulong | Kind::Slong) {
        return u32::from_le_bytes([bytes[at], bytes[at + 1], bytes[at + 2], bytes[at + 3]]);
    }
    match kind {
        Kind::Uword | Kind::Sword => u32::from(u16::from_le_bytes([bytes[at], bytes[at + 1]])),
        _ => u32::from(bytes[at]),
    }
}

/// The number of a kind whose low byte is there.
pub fn number_at(heap: &Heap, region: Region, at: u32, kind: Kind) -> i64
    requires pool { footprint heap.now.lists ≤ pool_size }
    requires region { IsRegion heap.now.lists region }
    requires within { at + size_of_leaf kind ≤ length (bytes_in heap.now.lists region) }
    ensures { result ≡ number_in kind (drop at (bytes_in heap.now.lists region)) }
{
    if matches!(kind, Kind::Slong) {
        return extend(Kind::Slong, word_at(heap, region, at, Kind::Slong));
    }
    if matches!(kind, Kind::Ulong) {
        return extend(Kind::Ulong, word_at(heap, region, at, Kind::Ulong));
    }
    match kind {
        Kind::Ubyte => extend(Kind::Ubyte, word_at(heap, region, at, Kind::Ubyte)),
        Kind::Sbyte => extend(Kind::Sbyte, word_at(heap, region, at, Kind::Sbyte)),
        Kind::Uword => extend(Kind::Uword, word_at(heap, region, at, Kind::Uword)),
        Kind::Sword => extend(Kind::Sword, word_at(heap, region, at, Kind::Sword)),
        Kind::Ulong | Kind::Slong => extend(kind, word_at(heap, region, at, kind)),
    }
}

/// The `desc` of an entry; 0 where there is no entry.
pub fn desc_at(entries: &[TocEntry], entry: u16) -> u16
    ensures { result ≡ desc_of (slice_get entries.now entry) }
{
    match entries.get(entry as usize) {
        Some(entry) => entry.desc,
        None => 0,
    }
}

/// Where an entry's leaf stands in an element at `base`, or where `base` is 0 outside of all elements.
pub fn leaf_place(entries: &[TocEntry], entry: u16, base: u32) -> u32
    requires { place_of entries.now entry base < 2 ^ 32 }
    ensures { result ≡ place_of entries.now entry base }
{
    base + u32::from(desc_at(entries, entry))
}

/// How many entries spell a shape.
#[cycle(size)]
pub fn size_of(shape: &Shape) -> u16
    requires { size (tree shape.now) < 2 ^ 16 }
    ensures { result ≡ size (tree shape.now) }
{
    match shape {
        Shape::List(_, element) => size_of(element) + 1,
        Shape::Group(members) => sizes_of(members.items.as_slice()) + 1,
        Shape::Void | Shape::Num(_) | Shape::Mutex => 1,
    }
}

#[cycle(size)]
fn sizes_of(shapes: &[Shape]) -> u16
    requires { sizes (members (map tree shapes.now)) < 2 ^ 16 }
    ensures { result ≡ sizes (members (map tree shapes.now)) }
{
    let mut sum = 0;
    for shape in shapes {
        sum += size_of(shape);
    }
    sum
}

/// Adds the flat form of the value that stands there. An `Err` may leave numbers behind those that were there.
#[cycle(gather)]
pub fn gather(
    heap: &Heap,
    entries: &[TocEntry],
    shape: &Shape,
    at: Place,
    into: &mut Nums,
) -> Result<(), NoMemory>
    requires pool { footprint heap.now.lists ≤ pool_size }
    requires region { IsRegion heap.now.lists at.region }
    requires entries { at.entry + size (tree shape.now) < 2 ^ 16 }
    requires holds { HoldsThere entries.now heap.now.lists (tree shape.now) at }
    ensures ok { OnOk result (into.new ≡ into.old ++ flat (value_there entries.now heap.now.lists (tree shape.now) at)) }
    ensures err { OnErr result (take (length into.old) into.new ≡ into.old) }
{
    match shape {
        Shape::Void | Shape::Mutex => into.push(0),
        Shape::Num(kind) => {
            let place = leaf_place(entries, at.entry, at.base);
            into.push(number_at(heap, at.region, place, *kind))
        }
        Shape::List(stride, element) => {
            let elements = elements_at(heap, entries, *stride, at);
            into.push(i64::from(elements.count))?;
            for k in 0..elements.count {
                gather(heap, entries, element, elements.place(k), into)?;
            }
            Ok(())
        }
        Shape::Group(group) => gather_members(heap, entries, Members::of(group, at), into),
    }
}

// Adds the flat forms of the members that are ahead.
#[cycle(gather)]
fn gather_members(
    heap: &Heap,
    entries: &[TocEntry],
    mut members: Members<'_>,
    into: &mut Nums,
) -> Result<(), NoMemory>
    requires pool { footprint heap.now.lists ≤ pool_size }
    requires region { IsRegion heap.now.lists members.first.region }
    requires holds { HoldAllThere entries.now heap.now.lists (ahead members) members.first }
    ensures ok { OnOk result (into.new ≡ into.old ++ flats (values (values_there entries.now heap.now.lists (ahead members.entry) members.entry.first))) }
    ensures err { OnErr result (take (length into.old) into.new ≡ into.old) }
{
    while let Some((shape, place)) = members.next() {
        gather(heap, entries, shape, place, into)?;
    }
    Ok(())
}
