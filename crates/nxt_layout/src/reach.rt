// The rows that a table's arrays name, array by array.

ghost use Rattle.std.specs.Prelude.{◌≡◌, ℕ, ◌==◌, ◌<◌, ◌≤◌, ◌+◌, ◌^◌, [], ◌∷◌, ◌++◌, map, length, slice_index, max, min, option_map, All, IfOk, IfErr, OnOk, if◌then◌else◌};
ghost use Rattle.std.specs.Rc.{rc_slice_items};
ghost use Rattle.nxt_layout.specs.Rows.{Ground};
ghost use Rattle.nxt_table.specs.Inside.LeafPasses.{leaf_end};
ghost use Rattle.nxt_layout.specs.declared.fault.LayoutFault.TheVariants.{RowIndex};
ghost use Rattle.nxt_layout.specs.Inside.RowPasses.{ground_of, times, is_array_item, array_leaves, extent_in, back_to, is_back, places_in, through_by, through_from, open_by, opened, first_beyond, Through, AreTold};
ghost use Rattle.nxt_layout.specs.Inside.Known.{IsOpen, IsKnown, IsFoundIn};
ghost use Rattle.nxt_layout.specs.Inside.Passes.{IsFound};

use crate::dataspace::Dataspace;
use crate::fault::LayoutFault;
use crate::known::{Elements, Found, Known, found_outside};
use crate::marks::mark_all;
use crate::strides::{Reading, reading_of};
use nxt_table::item::Item;
use nxt_table::leaves::{PlacedLeaf, width};
use nxt_types::NoMemory;
use std::alloc::Global;
use std::collections::VecDeque;

/// What is told of an array by its entry: the stride of its rows, how many lists there are, and the least row that has
/// another stride or one below an element's bytes.
#[derive(Drop)]
pub struct ArrayRows {
    pub entry: u32,
    pub stride: u32,
    pub lists: u64,
    pub misstrided: Option<u16>,
}

/// What is told of a table's arrays, and how often their lists name each row: not at all, once, or more.
#[derive(Drop)]
pub struct Arrays {
    pub found: Vec<ArrayRows>,
    pub marks: Vec<u8>,
}

/// An array whose element's entries aren't all done, with the elements that are read through it.
#[derive(Drop)]
pub struct OpenArray {
    entry: u32,
    elements: Elements,
}

/// The bytes of an array's element by the array's entry: the greatest end of its leaves.
pub fn extents_of(
    alloc: Global,
    leaves: &[PlacedLeaf],
    entries: usize,
) -> Result<Vec<u32>, NoMemory>
    requires { All (λ l. l.place < 2 ^ 16) leaves.now }
    ensures count { IfOk result (λ extents. length extents.items ≡ entries) }
    ensures extents { IfOk result (λ extents. (a : ℕ) → a < entries → slice_index extents.items a ≡ extent_in leaves.now a) }
{
    let mut extents = vec![in alloc; 0u32; entries]?;
    for leaf in leaves {
        if let Some(array) = leaf.array {
            widen(extents.as_mut_slice(), array, leaf.place + width(leaf));
        }
    }
    Ok(extents)
}

fn widen(extents: &mut [u32], array: u16, end: u32)
    ensures count { length extents.new ≡ length extents.old }
    ensures extents { (a : ℕ) → a < length extents.old → slice_index extents.new a ≡ (if a == array then max (slice_index extents.old a) end else slice_index extents.old a) }
{
    let array = usize::from(array);
    if array < extents.len() {
        extents[array] = extents[array].max(end);
    }
}

/// What is told of each array of the table, in the order of the entries, or the first with a number past the table's rows.
pub fn arrays_of(
    alloc: Global,
    space: &Dataspace,
    leaves: &[PlacedLeaf],
    extents: &[u32],
) -> Result<Arrays, LayoutFault>
    requires { All (λ l. l.place < 2 ^ 16) leaves.now }
    ensures count { IfOk result (λ a. length a.found.items ≤ length leaves.now) }
    ensures told { IfOk result (AreTold (ground_of space.now) (through_from (ground_of space.now) (slice_index extents.now) [] (array_leaves leaves.now))) }
    ensures refused { IfErr result (IsFound (option_map RowIndex (first_beyond (through_from (ground_of space.now) (slice_index extents.now) [] (array_leaves leaves.now))))) }
{
    let mut known = Known::new(alloc);
    let mut stack: VecDeque<OpenArray> = VecDeque::new(alloc);
    let mut arrays = Arrays::new(alloc, space)?;
    for leaf in leaves {
        if is_array(leaf) {
            close(&mut stack, leaf.array);
            let found = rows_through(alloc, space, &mut known, &mut stack, leaf)?;
            if found.beyond {
                return Err(LayoutFault::RowIndex(leaf.entry));
            }
            let bytes = extent(extents, leaf.entry);
            let reading = reading_of(alloc, space, bytes, &found.rows)?;
            arrays.add(leaf.entry, &found, &reading)?;
            stack.push_front(OpenArray {
                entry: leaf.entry,
                elements: Elements::new(reading.rows),
            })?;
        }
    }
    Ok(arrays)
}

impl Arrays {
    fn new(alloc: Global, space: &Dataspace) -> Result<Arrays, NoMemory>
        ensures told { IfOk result (AreTold (ground_of space.now) []) }
        ensures none { IfOk result (λ a. a.found.items ≡ []) }
    {
        Ok(Arrays {
            found: Vec::new(alloc),
            marks: vec![in alloc; 0u8; usize::from(space.rows())]?,
        })
    }

    // Adds what is found through the array of an entry and what is read through it.
    fn add(&mut self, entry: u32, found: &Found, reading: &Reading) -> Result<(), NoMemory>
        ensures found { OnOk result (self.new.found.items ≡ self.old.found.items ++ record { entry = entry; stride = reading.now.stride; lists = found.now.lists; misstrided = reading.now.misstrided } ∷ []) }
        ensures count { OnOk result (length self.new.marks.items ≡ length self.old.marks.items) }
        ensures marks { OnOk result ((r : ℕ) → r < length self.old.marks.items → slice_index self.old.marks.items r ≤ 2 → slice_index self.new.marks.items r ≡ min 2 (slice_index self.old.marks.items r + times r (rc_slice_items found.now.rows))) }
    {
        mark_all(self.marks.as_mut_slice(), found.rows.as_slice());
        self.found.push(ArrayRows {
            entry,
            stride: reading.stride,
            lists: found.lists,
            misstrided: reading.misstrided,
        })?;
        Ok(())
    }
}

fn is_array(leaf: &PlacedLeaf) -> bool
    ensures { result ≡ is_array_item leaf.now.item }
{
    matches!(leaf.item, Item::Array)
}

// Ends the arrays up to this one, which is the next around a leaf.
fn close(stack: &mut VecDeque<OpenArray>, array: Option<u16>)
    ensures open { (g : Ground) → All (IsOpen g) stack.old.items → All (IsOpen g) stack.new.items }
    ensures rest { map opened stack.new.items ≡ back_to array (map opened stack.old.items) }
{
    while !is_next(stack, array) {
        let _over = stack.pop_front();
    }
}

fn is_next(stack: &VecDeque<OpenArray>, array: Option<u16>) -> bool
    ensures { result ≡ is_back array (map opened stack.now.items) }
{
    match (stack.front(), array) {
        (None, _) => true,
        (Some(_), None) => false,
        (Some(next), Some(array)) => next.entry == u32::from(array),
    }
}

// What is found through the array of this leaf, where these arrays are open.
fn rows_through(
    alloc: Global,
    space: &Dataspace,
    known: &mut Known,
    stack: &mut VecDeque<OpenArray>,
    leaf: &PlacedLeaf,
) -> Result<Found, NoMemory>
    requires place { leaf.now.place < 2 ^ 16 }
    requires open { All (IsOpen (ground_of space.now)) stack.old.items }
    requires known { IsKnown (ground_of space.now) known.old }
    ensures found { IfOk result (IsFoundIn (ground_of space.now) leaf.now.place (places_in (ground_of space.now) (map opened stack.old.items))) }
    ensures open { All (IsOpen (ground_of space.now)) stack.new.items }
    ensures stack { map opened stack.new.items ≡ map opened stack.old.items }
    ensures known { OnOk result (IsKnown (ground_of space.now) known.new) }
{
    match stack.front_mut() {
        None => found_outside(alloc, space, leaf.place),
        Some(array) => known.find(alloc, space, &mut array.elements, leaf.place),
    }
}

fn extent(extents: &[u32], entry: u32) -> u32
    ensures { result ≡ slice_index extents.now entry }
{
    extents.get(entry as usize).copied().unwrap_or(0)
}
