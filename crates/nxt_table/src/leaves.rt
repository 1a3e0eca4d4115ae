// The leaves of a table: numbers, row numbers and mutexes, with their places and their defaults.

ghost use Rattle.std.specs.Prelude.{◌≡◌, ◌<◌, ◌≤◌, ◌+◌, ◌-◌, ◌^◌, length, IfOk, IfSome, option_to_list, All, None, true};
ghost use Rattle.nxt_types.specs.Shapes.{outline};
ghost use Rattle.nxt_table.specs.Inside.Items.{item};
ghost use Rattle.nxt_facts.specs.PutAt.{put_at};
ghost use Rattle.nxt_table.specs.Inside.LeafPasses.{leaf_list, leaves_from, leaf_by as leaf_with, bytes_of, width_of, passes_end, first_leaf, lacking_from, filled_from, is_mutex_leaf};

use crate::enclosing::NestedEntry;
use crate::item::{Item, item_of};
use nxt_types::NoMemory;
use nxt_types::numbers::leaf_size;
use std::alloc::Global;

/// The greatest length of an array's element in bytes.
const ELEMENT_BYTES: u32 = 32_768;

/// A leaf: its entry, its place in bytes in the dataspace or in its array's element, what it is, the entry of that array,
/// and whether the default data have bytes for it (Executable File Specification, "Default Values").
#[derive(Clone, Copy, PartialEq, Eq, Debug)]
pub struct PlacedLeaf {
    pub entry: u32,
    pub place: u32,
    pub item: Item,
    pub array: Option<u16>,
    pub has_default: bool,
}

/// The bytes that the leaf takes.
pub fn width(leaf: &PlacedLeaf) -> u32
    ensures value { result ≡ width_of leaf.now }
    ensures small { result ≤ 4 }
{
    match leaf.item {
        Item::Void | Item::Cluster(_) => 0,
        Item::Number(kind) => leaf_size(kind),
        Item::Array => 2,
        Item::Mutex => 4,
    }
}

/// The leaves of a table's entries, in order.
pub fn leaves_of(alloc: Global, placed: &[NestedEntry]) -> Result<Vec<PlacedLeaf>, NoMemory>
    requires { length placed.now < 2 ^ 16 }
    ensures leaves { IfOk result (λ ls. ls.items ≡ leaves_from 0 placed.now) }
    ensures places { IfOk result (λ ls. All (λ l. l.place < 2 ^ 16) ls.items) }
{
    let mut leaves: Vec<PlacedLeaf> = Vec::new(alloc);
    for (i, place) in placed.iter().enumerate() {
        if let Some(leaf) = leaf_at(i as u32, place) {
            leaves.push(leaf)?;
        }
    }
    Ok(leaves)
}

fn leaf_at(i: u32, place: &NestedEntry) -> Option<PlacedLeaf>
    ensures leaf { option_to_list result ≡ leaf_list i place.now (item (outline place.now.entry)) }
    ensures place { IfSome result (λ l. l.place < 2 ^ 16) }
{
    match item_of(&place.entry) {
        Some(Item::Number(kind)) => Some(leaf_by(i, place, Item::Number(kind))),
        Some(Item::Array) => Some(leaf_by(i, place, Item::Array)),
        Some(Item::Mutex) => Some(leaf_by(i, place, Item::Mutex)),
        Some(Item::Void | Item::Cluster(_)) | None => None,
    }
}

fn leaf_by(i: u32, place: &NestedEntry, item: Item) -> PlacedLeaf
    ensures leaf { result ≡ leaf_with i place.now item }
    ensures place { result.place < 2 ^ 16 }
{
    PlacedLeaf {
        entry: i,
        place: u32::from(place.entry.desc),
        item,
        array: place.array,
        has_default: place.array.is_none() && place.entry.flags % 2 == 0,
    }
}

/// The first leaf that ends past the static bytes, or past an element's greatest length.
pub fn misplaced(leaves: &[PlacedLeaf], static_size: u16) -> Option<u32>
    requires { All (λ l. l.place < 2 ^ 16) leaves.now }
    ensures { result ≡ first_leaf (passes_end static_size) leaves.now }
{
    for leaf in leaves {
        let most = if leaf.array.is_none() {
            u32::from(static_size)
        } else {
            ELEMENT_BYTES
        };
        if leaf.place + width(leaf) > most {
            return Some(leaf.entry);
        }
    }
    None
}

/// The first leaf whose default ends past the default data.
pub fn lacking_default(leaves: &[PlacedLeaf], default_size: u16) -> Option<u32>
    ensures { result ≡ lacking_from default_size 0 leaves.now }
{
    let mut at: u32 = 0;
    for leaf in leaves {
        if leaf.has_default {
            at += width(leaf);
            if at > u32::from(default_size) {
                return Some(leaf.entry);
            }
        }
    }
    None
}

/// Gives the leaves their defaults.
pub fn fill(leaves: &[PlacedLeaf], defaults: &[u8], bytes: &mut [u8])
    requires placed { All (λ l. l.has_default ≡ true → l.place + width_of l ≤ length bytes.old) leaves.now }
    requires defaults { lacking_from (length defaults.now) 0 leaves.now ≡ None }
    ensures { bytes.new ≡ filled_from defaults.now 0 leaves.now bytes.old }
{
    let mut at: usize = 0;
    for leaf in leaves {
        if leaf.has_default {
            let end = at + width(leaf) as usize;
            if !is_mutex(leaf) {
                put(bytes, leaf.place as usize, &defaults[at..end]);
            }
            at = end;
        }
    }
}

fn is_mutex(leaf: &PlacedLeaf) -> bool
    ensures { result ≡ is_mutex_leaf leaf.now }
{
    matches!(leaf.item, Item::Mutex)
}

fn put(into: &mut [u8], at: usize, bytes: &[u8])
    requires { at + length bytes.now ≤ length into.old }
    ensures { into.new ≡ put_at at bytes.now into.old }
{
    into[at..at + bytes.len()].copy_from_slice(bytes);
}
