// Values that are written to the heap.

ghost use Rattle.std.specs.Prelude.{◌≡◌, ◌<◌, ◌≤◌, ◌+◌, ◌*◌, ◌^◌, length, drop, slice_set, map, nat_abs, IfOk, OnOk, OnErr, false};
ghost use Rattle.std.specs.Int.{to_le_bytes, w16};
ghost use Rattle.nxt_types.specs.Arithmetic.{leaf_size as size_of_leaf, width_of};
ghost use Rattle.nxt_types.specs.Shapes.{tree, members, has_list, some_list};
ghost use Rattle.nxt_types.specs.Names.{size, sizes};
ghost use Rattle.nxt_types.specs.Pool.{pool_size, round4 as rounded};
ghost use Rattle.nxt_heap.specs.Lists.{footprint, bytes_at};
ghost use Rattle.nxt_heap.specs.Moves.{KeepsFront, RowsStay, NoneMoves};
ghost use Rattle.nxt_values.specs.Held.{leaf_place as place_of};
ghost use Rattle.nxt_values.specs.Regions.{bytes_in, IsRegion, HoldsThere, HoldAllThere};
ghost use Rattle.nxt_values.specs.Ahead.{ahead};
ghost use Rattle.nxt_values.specs.Writes.{with_bytes, put, bytes_of_number, without, emptied, rows_there, all_rows_there, AreOwn, KeepsRows};
ghost use Rattle.nxt_values.specs.Fills.{first_of, needs, needs_for, needs_for_all, needs_for_each, FillsThere, FillAllThere, RoomThere, RoomForAll};
ghost use Rattle.nxt_values.specs.Elements.{AreOpened, HaveRoom, FillsElements, HasRow, row_there, closed, GetsNoLonger};

use crate::elements::{Elements, elements_at, list_row};
use crate::members::Members;
use crate::reading::{Place, Region, leaf_place};
use crate::shapes::has_inner_list;
use nxt_heap::{Heap, PoolPassed};
use nxt_types::kind::Kind;
use nxt_types::numbers::wrap;
use nxt_types::pool::POOL_BYTES;
use nxt_types::shape::{Shape, TocEntry};

/// The pool does not hold what was to be stored.
#[derive(Clone, Copy, PartialEq, Eq, Debug)]
pub struct Full;

impl From<PoolPassed> for Full {
    fn from(_passed: PoolPassed) -> Full {
        Full
    }
}

// Stores bytes from a place on.
fn set_bytes(heap: &mut Heap, region: Region, at: u32, bytes: &[u8])
    requires region { IsRegion heap.old.lists region }
    requires within { at + length bytes.now ≤ length (bytes_in heap.old.lists region) }
    ensures lists { heap.new.lists ≡ with_bytes heap.old.lists region (put bytes.now at (bytes_in heap.old.lists region)) }
    ensures stay { RowsStay heap.old.pool heap.new.pool }
    ensures front { KeepsFront heap.old heap.new }
{
    match region {
        Region::Static => heap.set_static(at, bytes),
        Region::Row(row) => heap.write(row, at, bytes),
    }
}

/// Stores a row number of 16 bits.
pub fn set_row(heap: &mut Heap, region: Region, at: u32, row: u16)
    requires region { IsRegion heap.old.lists region }
    requires within { at + 2 ≤ length (bytes_in heap.old.lists region) }
    requires small { length (bytes_in heap.old.lists region) < 2 ^ 32 }
    ensures lists { heap.new.lists ≡ with_bytes heap.old.lists region (put (to_le_bytes w16 row) at (bytes_in heap.old.lists region)) }
    ensures stay { RowsStay heap.old.pool heap.new.pool }
    ensures front { KeepsFront heap.old heap.new }
{
    set_bytes(heap, region, at, &row.to_le_bytes());
}

/// Stores a number, cut to its kind. The kinds of 32 bits are tested first.
pub fn set_number(heap: &mut Heap, region: Region, at: u32, kind: Kind, x: i64)
    requires region { IsRegion heap.old.lists region }
    requires within { at + size_of_leaf kind ≤ length (bytes_in heap.old.lists region) }
    requires small { length (bytes_in heap.old.lists region) < 2 ^ 32 }
    ensures lists { heap.new.lists ≡ with_bytes heap.old.lists region (put (bytes_of_number kind x) at (bytes_in heap.old.lists region)) }
    ensures stay { RowsStay heap.old.pool heap.new.pool }
    ensures front { KeepsFront heap.old heap.new }
{
    let bytes = wrap(x).to_le_bytes();
    if matches!(kind, Kind::Ulong | Kind::Slong) {
        set_bytes(heap, region, at, &bytes);
        return;
    }
    match kind {
        Kind::Uword | Kind::Sword => set_bytes(heap, region, at, &bytes[..2]),
        _ => set_bytes(heap, region, at, &bytes[..1]),
    }
}

/// Frees the lists of the value that stands there, each after those in its elements.
#[cycle(free)]
pub fn free_lists(heap: &mut Heap, entries: &[TocEntry], shape: &Shape, at: Place)
    requires pool { footprint heap.old.lists ≤ pool_size }
    requires region { IsRegion heap.old.lists at.region }
    requires entries { at.entry + size (tree shape.now) < 2 ^ 16 }
    requires holds { HoldsThere entries.now heap.old.lists (tree shape.now) at }
    requires own { AreOwn at.region (rows_there entries.now heap.old.lists (tree shape.now) at) }
    ensures { heap.new.lists ≡ without heap.old.lists (rows_there entries.now heap.old.lists (tree shape.now) at) }
{
    match shape {
        Shape::Void | Shape::Mutex | Shape::Num(_) => {}
        Shape::List(stride, element) => {
            let elements = elements_at(heap, entries, *stride, at);
            for k in 0..elements.count {
                free_lists(heap, entries, element, elements.place(k));
            }
            heap.free_array(elements.row);
        }
        Shape::Group(group) => free_members(heap, entries, Members::of(group, at)),
    }
}

// Frees the lists of the members that are ahead.
#[cycle(free)]
fn free_members(heap: &mut Heap, entries: &[TocEntry], mut members: Members<'_>)
    requires pool { footprint heap.old.lists ≤ pool_size }
    requires region { IsRegion heap.old.lists members.first.region }
    requires holds { HoldAllThere entries.now heap.old.lists (ahead members) members.first }
    requires own { AreOwn members.first.region (all_rows_there entries.now heap.old.lists (ahead members) members.first) }
    ensures { heap.new.lists ≡ without heap.old.lists (all_rows_there entries.now heap.old.lists (ahead members.entry) members.entry.first) }
{
    while let Some((shape, place)) = members.next() {
        free_lists(heap, entries, shape, place);
    }
}

// The first of the numbers, or 0.
fn first_number(from: &[i64]) -> i64
    ensures { result ≡ first_of from.now }
{
    match from.first() {
        Some(&x) => x,
        None => 0,
    }
}

/// The first of the numbers as a count; a missing one is 0.
pub fn first_count(from: &[i64]) -> u64
    ensures { result ≡ nat_abs (first_of from.now) }
{
    first_number(from).unsigned_abs()
}

// Stores the first of the numbers, cut to a kind.
fn set_first(heap: &mut Heap, region: Region, at: u32, kind: Kind, from: &[i64])
    requires region { IsRegion heap.old.lists region }
    requires within { at + size_of_leaf kind ≤ length (bytes_in heap.old.lists region) }
    requires small { length (bytes_in heap.old.lists region) < 2 ^ 32 }
    ensures lists { heap.new.lists ≡ with_bytes heap.old.lists region (put (bytes_of_number kind (first_of from.now)) at (bytes_in heap.old.lists region)) }
    ensures stay { RowsStay heap.old.pool heap.new.pool }
    ensures front { KeepsFront heap.old heap.new }
{
    set_number(heap, region, at, kind, first_number(from));
}

/// The numbers behind the first.
pub fn behind(from: &[i64]) -> &[i64]
    ensures { result.now ≡ drop 1 from.now }
{
    if from.is_empty() { from } else { &from[1..] }
}

/// The numbers behind the first `count`.
pub fn behind_many(from: &[i64], count: u64) -> &[i64]
    ensures { result.now ≡ drop count from.now }
{
    if count < from.len() as u64 {
        &from[count as usize..]
    } else {
        &from[from.len()..]
    }
}

// Takes a row for a list of `count` zero elements, and stores its number in the leaf that stands there.
fn open_list(
    heap: &mut Heap,
    entries: &[TocEntry],
    list: Place,
    stride: u32,
    count: u64,
) -> Result<Elements, Full>
    requires region { IsRegion heap.old.lists list.region }
    requires entries { list.entry + 1 < 2 ^ 16 }
    requires within { place_of entries.now list.entry list.base + 2 ≤ length (bytes_in heap.old.lists list.region) }
    requires small { length (bytes_in heap.old.lists list.region) < 2 ^ 32 }
    requires some { 1 ≤ stride }
    requires low { stride < 2 ^ 16 }
    ensures pool { OnOk result (footprint heap.new.lists ≤ pool_size) }
    ensures passed { OnErr result (pool_size < needs heap.old.lists 1 (rounded (count * stride))) }
    ensures opened { IfOk result (λ elements. AreOpened entries.now heap.old.lists heap.new.lists list stride count elements) }
    ensures front { OnOk result (KeepsFront heap.old heap.new) }
{
    if count > POOL_BYTES {
        return Err(Full);
    }
    let count = count as u32;
    let row = heap.new_array(stride as u16)?;
    heap.resize(row, count * stride)?;
    let place = leaf_place(entries, list.entry, list.base);
    set_row(heap, list.region, place, row);
    Ok(Elements {
        row,
        count,
        stride,
        entry: list.entry + 1,
    })
}

// Gives the list whose leaf stands there `count` elements. It keeps its row.
fn reopen_list(
    heap: &mut Heap,
    entries: &[TocEntry],
    list: Place,
    stride: u32,
    count: u64,
) -> Result<Elements, Full>
    requires pool { footprint heap.old.lists ≤ pool_size }
    requires region { IsRegion heap.old.lists list.region }
    requires entries { list.entry + 1 < 2 ^ 16 }
    requires within { place_of entries.now list.entry list.base + 2 ≤ length (bytes_in heap.old.lists list.region) }
    requires has { HasRow entries.now heap.old.lists stride list }
    requires some { 1 ≤ stride }
    requires low { stride < 2 ^ 16 }
    ensures pool { OnOk result (footprint heap.new.lists ≤ pool_size) }
    ensures passed { OnErr result (pool_size < needs (closed entries.now heap.old.lists list) 1 (rounded (count * stride))) }
    ensures opened { IfOk result (λ elements. AreOpened entries.now (closed entries.now heap.old.lists list) heap.new.lists list stride count elements) }
    ensures row { IfOk result (λ elements. elements.row ≡ row_there entries.now heap.old.lists list) }
    ensures shorter { OnOk result (count * stride ≤ length (bytes_at heap.old.lists (row_there entries.now heap.old.lists list)) → NoneMoves heap.old.pool heap.new.pool) }
{
    if count > POOL_BYTES {
        return Err(Full);
    }
    heap.recall_sound();
    let count = count as u32;
    let bytes = count * stride;
    let row = list_row(heap, entries, list);
    heap.resize(row, bytes)?;
    Ok(Elements {
        row,
        count,
        stride,
        entry: list.entry + 1,
    })
}

/// Fills a place with the value that the numbers begin with, and gives the numbers behind it. The rows of the lists that
/// stood there before are neither read nor freed.
#[cycle(fill)]
pub fn fill<'a>(
    heap: &mut Heap,
    entries: &[TocEntry],
    shape: &Shape,
    at: Place,
    from: &'a [i64],
) -> Result<&'a [i64], Full>
    requires pool { footprint heap.old.lists ≤ pool_size }
    requires region { IsRegion heap.old.lists at.region }
    requires entries { at.entry + size (tree shape.now) < 2 ^ 16 }
    requires room { RoomThere entries.now heap.old.lists (tree shape.now) at }
    ensures pool { OnOk result (footprint heap.new.lists ≤ pool_size) }
    ensures passed { OnErr result (pool_size < needs_for heap.old.lists (tree shape.now) from.now) }
    ensures filled { IfOk result (λ rest. FillsThere entries.now heap.old.lists heap.new.lists (tree shape.now) at from.now rest.now) }
    ensures stays { has_list (tree shape.now) ≡ false → OnOk result (RowsStay heap.old.pool heap.new.pool) }
    ensures front { OnOk result (KeepsFront heap.old heap.new) }
{
    match shape {
        Shape::Void | Shape::Mutex => Ok(behind(from)),
        Shape::Num(kind) => {
            let place = leaf_place(entries, at.entry, at.base);
            set_first(heap, at.region, place, *kind, from);
            Ok(behind(from))
        }
        Shape::List(stride, element) => {
            let elements = open_list(heap, entries, at, *stride, first_count(from))?;
            fill_elements(heap, entries, element, elements, behind(from))
        }
        Shape::Group(group) => fill_ahead(heap, entries, Members::of(group, at), from),
    }
}

// Fills the elements of a list one after another, and gives the numbers behind them.
#[cycle(fill)]
fn fill_elements<'a>(
    heap: &mut Heap,
    entries: &[TocEntry],
    element: &Shape,
    elements: Elements,
    from: &'a [i64],
) -> Result<&'a [i64], Full>
    requires pool { footprint heap.old.lists ≤ pool_size }
    requires entries { elements.entry + size (tree element.now) < 2 ^ 16 }
    requires small { elements.count * elements.stride < 2 ^ 32 }
    requires room { HaveRoom entries.now heap.old.lists (tree element.now) elements }
    ensures pool { OnOk result (footprint heap.new.lists ≤ pool_size) }
    ensures passed { OnErr result (pool_size < needs_for_each heap.old.lists (tree element.now) elements.count from.now) }
    ensures filled { IfOk result (λ rest. FillsElements entries.now heap.old.lists heap.new.lists (tree element.now) elements from.now rest.now) }
    ensures stays { has_list (tree element.now) ≡ false → OnOk result (RowsStay heap.old.pool heap.new.pool) }
    ensures front { OnOk result (KeepsFront heap.old heap.new) }
{
    let mut left = from;
    for k in 0..elements.count {
        left = fill(heap, entries, element, elements.place(k), left)?;
    }
    Ok(left)
}

// Fills the places of the members that are ahead, one behind another.
#[cycle(fill)]
fn fill_ahead<'a>(
    heap: &mut Heap,
    entries: &[TocEntry],
    mut members: Members<'_>,
    from: &'a [i64],
) -> Result<&'a [i64], Full>
    requires pool { footprint heap.old.lists ≤ pool_size }
    requires region { IsRegion heap.old.lists members.first.region }
    requires room { RoomForAll entries.now heap.old.lists (ahead members) members.first }
    ensures pool { OnOk result (footprint heap.new.lists ≤ pool_size) }
    ensures passed { OnErr result (pool_size < needs_for_all heap.old.lists (ahead members.entry) from.now) }
    ensures filled { IfOk result (λ rest. FillAllThere entries.now heap.old.lists heap.new.lists (ahead members.entry) members.entry.first from.now rest.now) }
    ensures stays { some_list (ahead members.entry) ≡ false → OnOk result (RowsStay heap.old.pool heap.new.pool) }
    ensures front { OnOk result (KeepsFront heap.old heap.new) }
{
    let mut left = from;
    while let Some((shape, place)) = members.next() {
        left = fill(heap, entries, shape, place, left)?;
    }
    Ok(left)
}

/// Fills places one behind another, of which the first begins there.
pub fn fill_members<'a>(
    heap: &mut Heap,
    entries: &[TocEntry],
    shapes: &[Shape],
    at: Place,
    from: &'a [i64],
) -> Result<&'a [i64], Full>
    requires pool { footprint heap.old.lists ≤ pool_size }
    requires region { IsRegion heap.old.lists at.region }
    requires entries { at.entry + sizes (members (map tree shapes.now)) < 2 ^ 16 }
    requires room { RoomForAll entries.now heap.old.lists (members (map tree shapes.now)) at }
    ensures pool { OnOk result (footprint heap.new.lists ≤ pool_size) }
    ensures passed { OnErr result (pool_size < needs_for_all heap.old.lists (members (map tree shapes.now)) from.now) }
    ensures filled { IfOk result (λ rest. FillAllThere entries.now heap.old.lists heap.new.lists (members (map tree shapes.now)) at from.now rest.now) }
    ensures stays { some_list (members (map tree shapes.now)) ≡ false → OnOk result (RowsStay heap.old.pool heap.new.pool) }
    ensures front { OnOk result (KeepsFront heap.old heap.new) }
{
    fill_ahead(heap, entries, Members::from_first(shapes, at), from)
}

// Frees the lists of the value that stands there, and then fills the place with the value that the numbers begin with, whose
// lists may need what those took.
fn store_anew<'a>(
    heap: &mut Heap,
    entries: &[TocEntry],
    shape: &Shape,
    at: Place,
    from: &'a [i64],
) -> Result<&'a [i64], Full>
    requires pool { footprint heap.old.lists ≤ pool_size }
    requires region { IsRegion heap.old.lists at.region }
    requires entries { at.entry + size (tree shape.now) < 2 ^ 16 }
    requires holds { HoldsThere entries.now heap.old.lists (tree shape.now) at }
    requires own { AreOwn at.region (rows_there entries.now heap.old.lists (tree shape.now) at) }
    requires room { RoomThere entries.now heap.old.lists (tree shape.now) at }
    ensures pool { OnOk result (footprint heap.new.lists ≤ pool_size) }
    ensures passed { OnErr result (pool_size < needs_for (emptied entries.now heap.old.lists (tree shape.now) at) (tree shape.now) from.now) }
    ensures filled { IfOk result (λ rest. FillsThere entries.now (emptied entries.now heap.old.lists (tree shape.now) at) heap.new.lists (tree shape.now) at from.now rest.now) }
{
    free_lists(heap, entries, shape, at);
    fill(heap, entries, shape, at, from)
}

/// Stores the value that the numbers begin with in the place of another one, and gives the numbers behind it. A list whose
/// elements have no lists keeps its row. Else the lists of the value that stood there are freed first.
pub fn store<'a>(
    heap: &mut Heap,
    entries: &[TocEntry],
    shape: &Shape,
    at: Place,
    from: &'a [i64],
) -> Result<&'a [i64], Full>
    requires pool { footprint heap.old.lists ≤ pool_size }
    requires region { IsRegion heap.old.lists at.region }
    requires entries { at.entry + size (tree shape.now) < 2 ^ 16 }
    requires holds { HoldsThere entries.now heap.old.lists (tree shape.now) at }
    requires own { AreOwn at.region (rows_there entries.now heap.old.lists (tree shape.now) at) }
    requires room { RoomThere entries.now heap.old.lists (tree shape.now) at }
    ensures pool { OnOk result (footprint heap.new.lists ≤ pool_size) }
    ensures passed { OnErr result (pool_size < needs_for (emptied entries.now heap.old.lists (tree shape.now) at) (tree shape.now) from.now) }
    ensures filled { IfOk result (λ rest. FillsThere entries.now (emptied entries.now heap.old.lists (tree shape.now) at) heap.new.lists (tree shape.now) at from.now rest.now) }
    ensures rows { OnOk result (KeepsRows entries.now heap.old.lists heap.new.lists (tree shape.now) at) }
    ensures stays { has_list (tree shape.now) ≡ false → OnOk result (RowsStay heap.old.pool heap.new.pool) }
    ensures shorter { GetsNoLonger entries.now heap.old.lists (tree shape.now) at from.now → OnOk result (NoneMoves heap.old.pool heap.new.pool) }
{
    if has_inner_list(shape) {
        return store_anew(heap, entries, shape, at, from);
    }
    match shape {
        Shape::List(stride, element) => {
            let elements = reopen_list(heap, entries, at, *stride, first_count(from))?;
            fill_elements(heap, entries, element, elements, behind(from))
        }
        _ => fill(heap, entries, shape, at, from),
    }
}
