// Variables in a heap, by the entries of their table.

ghost use Rattle.std.specs.Prelude.{◌≡◌, ◌<◌, ◌≤◌, ◌+◌, ◌^◌, ℤ, List, length, map, sum_by, None, IfSome, IfOk, IsSome, true, false};
ghost use Rattle.nxt_types.specs.Shapes.{Array, Number, tree, members, has_list, is_numbers};
ghost use Rattle.nxt_types.specs.Names.{size, sizes, name_among};
ghost use Rattle.nxt_types.specs.declared.kind.Kind.TheVariants.{Ubyte};
ghost use Rattle.nxt_model.specs.Values.{lists_in, part as parts_value, number, elements};
ghost use Rattle.nxt_model.specs.Footprint.{rows_for as rows_at_start};
ghost use Rattle.nxt_types.specs.Pool.{pool_size};
ghost use Rattle.nxt_heap.specs.Lists.{base_of, footprint, block_of};
ghost use Rattle.nxt_heap.specs.Moves.{IsPacked, RowsStay, NoneMoves};
ghost use Rattle.nxt_values.specs.Regions.{IsRegion, HoldsThere, value_there};
ghost use Rattle.nxt_values.specs.Writes.{emptied, rows_there, AreOwn, has_inner_list, KeepsRows};
ghost use Rattle.nxt_values.specs.Elements.{GetsNoLonger};
ghost use Rattle.nxt_values.specs.Fills.{needs_for, FillsThere, RoomThere};
ghost use Rattle.nxt_values.specs.Sizes.{IsCountable, size_in, size_of_filled};
ghost use Rattle.nxt_space.specs.Inside.Kept.{values_of, rows_of, shape_in, value_in, with_stored, bytes_with, bytes_after, started_as, Stand, Stores, CanStart, IsThere, IsVariable};
ghost use Rattle.nxt_space.specs.Variables.{list_of_bytes, FitsPool};
ghost use Rattle.nxt_values.specs.Parts.{positions, AreWithin};

use crate::path::Path;
use nxt_heap::{Heap, PoolPassed};
use nxt_types::NoMemory;
use nxt_types::lists::Nums;
use nxt_types::pool::{POOL_BYTES, ROW_BYTES, round4};
use nxt_types::shape::{Shape, TocEntry};
use nxt_types::toc::{Toc, copy_of};
use nxt_values::elements::{elements_at, list_row};
use nxt_values::parts::part_at;
use nxt_values::reading::{Place, Region, leaf_place, number_at, size_of};
use nxt_values::sizing::{NONE, Size, held_size, spelled_size};
use nxt_values::writing::{fill_members, store};
use std::alloc::Global;

/// A value's numbers in reading order, and before the elements of each list that list's length.
pub type Flat = Nums;

/// The shapes of a table's variables.
pub fn variables_of(alloc: Global, toc: &Toc) -> Result<Vec<Shape>, NoMemory>
    requires { sizes toc.now.shapes < 2 ^ 16 }
    ensures { IfOk result (λ shapes. members (map tree shapes.items) ≡ toc.now.shapes) }
{
    let mut shapes = Vec::new(alloc);
    let mut entry = 0;
    while let Some(shape) = toc.shape(entry) {
        shapes.push(copy_of(alloc, shape)?)?;
        entry += size_of(shape);
    }
    Ok(shapes)
}

// The shape that begins at an entry, and where its value stands.
fn variable<'t>(heap: &Heap, toc: &'t Toc, i: u16) -> Option<(&'t Shape, Place)>
    requires stand { Stand toc.now heap.now.lists }
    ensures none { result ≡ None → name_among toc.now.shapes 0 i ≡ None }
    ensures found { IfSome result (λ x. IsVariable toc.now heap.now.lists i (tree x.0.now) x.1) }
{
    let shape = toc.shape(i)?;
    let at = Place {
        region: Region::Static,
        entry: i,
        base: 0,
    };
    Some((shape, at))
}

/// The number that begins at an entry, or 0.
pub fn number_of(heap: &Heap, toc: &Toc, i: u16) -> i64
    requires { Stand toc.now heap.now.lists }
    ensures { result ≡ number (value_in toc.now heap.now.lists i) }
{
    match variable(heap, toc, i) {
        Some((shape, at)) => number_there(heap, toc.entries(), shape, at),
        None => 0,
    }
}

/// The bytes of a list of bytes.
pub fn bytes_in_list<'h>(heap: &'h Heap, toc: &Toc, i: u16) -> &'h [u8]
    requires stand { Stand toc.now heap.now.lists }
    requires bytes { shape_in toc.now i ≡ Array 1 (Number Ubyte) }
    ensures { value_in toc.now heap.now.lists i ≡ list_of_bytes result.now }
{
    match variable(heap, toc, i) {
        Some((shape, at)) => bytes_there(heap, toc.entries(), shape, at),
        None => &[],
    }
}

// The bytes of the list of bytes that stands there.
fn bytes_there<'h>(heap: &'h Heap, entries: &[TocEntry], shape: &Shape, at: Place) -> &'h [u8]
    requires pool { footprint heap.now.lists ≤ pool_size }
    requires region { IsRegion heap.now.lists at.region }
    requires holds { HoldsThere entries.now heap.now.lists (tree shape.now) at }
    requires room { RoomThere entries.now heap.now.lists (tree shape.now) at }
    requires bytes { tree shape.now ≡ Array 1 (Number Ubyte) }
    ensures { value_there entries.now heap.now.lists (tree shape.now) at ≡ list_of_bytes result.now }
{
    match shape {
        Shape::List(..) => heap.bytes_of(list_row(heap, entries, at)),
        _ => &[],
    }
}

/// Where the part stands that a path leads to, and its shape.
pub fn part<'s>(heap: &Heap, toc: &'s Toc, path: &Path) -> Option<(&'s Shape, Place)>
    requires stand { Stand toc.now heap.now.lists }
    requires within { AreWithin (shape_in toc.now path.now.var) (value_in toc.now heap.now.lists path.now.var) (positions path.now.steps) }
    ensures none { result ≡ None → name_among toc.now.shapes 0 path.now.var ≡ None }
    ensures there { IfSome result (λ x. IsThere toc.now heap.now.lists (tree x.0.now) x.1) }
    ensures value { IfSome result (λ x. value_there toc.now.entries heap.now.lists (tree x.0.now) x.1 ≡ parts_value (positions path.now.steps) (value_in toc.now heap.now.lists path.now.var)) }
{
    let (shape, at) = variable(heap, toc, path.var)?;
    Some(part_at(heap, toc.entries(), shape, at, path.steps.as_slice()))
}

// The number that stands there, or 0.
fn number_there(heap: &Heap, entries: &[TocEntry], shape: &Shape, at: Place) -> i64
    requires pool { footprint heap.now.lists ≤ pool_size }
    requires region { IsRegion heap.now.lists at.region }
    requires holds { HoldsThere entries.now heap.now.lists (tree shape.now) at }
    ensures { result ≡ number (value_there entries.now heap.now.lists (tree shape.now) at) }
{
    match shape {
        Shape::Num(kind) => {
            let place = leaf_place(entries, at.entry, at.base);
            number_at(heap, at.region, place, *kind)
        }
        _ => 0,
    }
}

/// How many elements or members the value there has.
pub fn length_at(heap: &Heap, entries: &[TocEntry], shape: &Shape, at: Place) -> u32
    requires pool { footprint heap.now.lists ≤ pool_size }
    requires region { IsRegion heap.now.lists at.region }
    requires entries { at.entry + size (tree shape.now) < 2 ^ 16 }
    requires holds { HoldsThere entries.now heap.now.lists (tree shape.now) at }
    ensures { result ≡ length (elements (value_there entries.now heap.now.lists (tree shape.now) at)) }
{
    match shape {
        Shape::List(stride, _) => elements_at(heap, entries, *stride, at).count,
        Shape::Group(members) => members.items.as_slice().len() as u32,
        Shape::Void | Shape::Num(_) | Shape::Mutex => 0,
    }
}

/// The size of the value that begins at an entry.
pub fn size_at(heap: &Heap, toc: &Toc, i: u16) -> Size
    requires stand { Stand toc.now heap.now.lists }
    requires few { lists_in (values_of toc.now heap.now.lists) < 2 ^ 16 }
    ensures size { result ≡ size_in (shape_in toc.now i) (value_in toc.now heap.now.lists i) }
    ensures lists { result.lists ≤ lists_in (values_of toc.now heap.now.lists) }
    ensures bytes { result.bytes ≤ sum_by block_of heap.now.lists.by_row }
{
    match variable(heap, toc, i) {
        None => NONE,
        Some((shape, at)) => held_size(heap, toc.entries(), shape, at),
    }
}

/// The size of the value of an entry's shape that numbers begin with.
pub fn size_of_flat(toc: &Toc, i: u16, flat: &Flat) -> Size
    requires { IsCountable (size_of_filled (shape_in toc.now i) flat.now) }
    ensures { result ≡ size_of_filled (shape_in toc.now i) flat.now }
{
    match toc.shape(i) {
        None => NONE,
        Some(shape) => spelled_size(shape, flat.as_slice()).0,
    }
}

/// Whether the pool holds a value of a size in the place of another one, among `lists` lists; or how many bytes
/// would then be taken.
pub fn fits(heap: &Heap, lists: u64, old: Size, new: Size) -> Result<(), PoolPassed>
    requires lists { old.lists ≤ lists }
    requires few { lists < 2 ^ 16 }
    requires bytes { old.bytes ≤ sum_by block_of heap.now.lists.by_row }
    requires countable { IsCountable new }
    ensures { FitsPool (bytes_after heap.now.lists lists old new) result }
{
    let rows = u64::from(heap.row_count());
    let next_rows = rows.max(lists - old.lists + new.lists + 1);
    let kept = u64::from(heap.footprint()) - round4(ROW_BYTES * rows) - old.bytes;
    let bytes = kept + round4(ROW_BYTES * next_rows) + new.bytes;
    if bytes > POOL_BYTES {
        Err(PoolPassed(bytes))
    } else {
        Ok(())
    }
}

/// Stores the value that numbers begin with in the place of the one that begins at an entry; the pool holds it.
pub fn replace(heap: &mut Heap, toc: &Toc, i: u16, from: &[i64])
    requires stand { Stand toc.now heap.old.lists }
    requires named { IsSome (name_among toc.now.shapes 0 i) }
    requires fits { bytes_with toc.now heap.old.lists (with_stored toc.now heap.old.lists i from.now) ≤ pool_size }
    ensures stores { Stores toc.now heap.old.lists heap.new.lists (with_stored toc.now heap.old.lists i from.now) }
    ensures rows { has_inner_list (shape_in toc.now i) ≡ false → rows_of toc.now heap.new.lists ≡ rows_of toc.now heap.old.lists }
    ensures stays { has_list (shape_in toc.now i) ≡ false → RowsStay heap.old.pool heap.new.pool }
    ensures shorter { is_numbers (shape_in toc.now i) ≡ true → length (elements (value_in toc.now heap.new.lists i)) ≤ length (elements (value_in toc.now heap.old.lists i)) → NoneMoves heap.old.pool heap.new.pool }
{
    if let Some(shape) = toc.shape(i) {
        let at = Place {
            region: Region::Static,
            entry: i,
            base: 0,
        };
        put(heap, toc.entries(), shape, at, from);
    }
    let _rows = heap.row_count();
    heap.recall_sound();
}

// Stores the value that numbers begin with in the place of another one; the pool holds it.
fn put(heap: &mut Heap, entries: &[TocEntry], shape: &Shape, at: Place, from: &[i64])
    requires pool { footprint heap.old.lists ≤ pool_size }
    requires region { IsRegion heap.old.lists at.region }
    requires entries { at.entry + size (tree shape.now) < 2 ^ 16 }
    requires holds { HoldsThere entries.now heap.old.lists (tree shape.now) at }
    requires own { AreOwn at.region (rows_there entries.now heap.old.lists (tree shape.now) at) }
    requires room { RoomThere entries.now heap.old.lists (tree shape.now) at }
    requires fits { needs_for (emptied entries.now heap.old.lists (tree shape.now) at) (tree shape.now) from.now ≤ pool_size }
    ensures pool { footprint heap.new.lists ≤ pool_size }
    ensures filled { (rest : List ℤ) × FillsThere entries.now (emptied entries.now heap.old.lists (tree shape.now) at) heap.new.lists (tree shape.now) at from.now rest }
    ensures rows { KeepsRows entries.now heap.old.lists heap.new.lists (tree shape.now) at }
    ensures stays { has_list (tree shape.now) ≡ false → RowsStay heap.old.pool heap.new.pool }
    ensures shorter { GetsNoLonger entries.now heap.old.lists (tree shape.now) at from.now → NoneMoves heap.old.pool heap.new.pool }
{
    let stored = store(heap, entries, shape, at, from);
    prove!(stored.is_ok());
}

/// How many rows a table has at the start, by the rows of its file and the lists of its variables.
pub fn rows_for(file_rows: u16, lists: u64) -> u16
    requires { lists + 1 < 2 ^ 16 }
    ensures { result ≡ rows_at_start file_rows lists }
{
    file_rows.max(lists as u16 + 1)
}

/// Fills a heap without lists with the variables that numbers spell, and closes the gaps between its blocks. Where its table
/// stands in front and is long enough, it stays there.
pub fn fill_start(heap: &mut Heap, toc: &Toc, variables: &[Shape], start: &[i64])
    requires { CanStart toc.now (members (map tree variables.now)) heap.old.lists start.now }
    ensures stores { Stores toc.now heap.old.lists heap.new.lists (started_as toc.now.shapes start.now) }
    ensures packed { length heap.new.lists.by_row ≡ length heap.old.lists.by_row → heap.old.pool.table ≡ base_of heap.old.lists → IsPacked (base_of heap.new.lists) heap.new.pool }
{
    let at = Place {
        region: Region::Static,
        entry: 0,
        base: 0,
    };
    let filled = fill_members(heap, toc.entries(), variables, at, start);
    prove!(filled.is_ok());
    let _rows = heap.row_count();
    heap.recall_sound();
    heap.compact(u16::MAX);
}
