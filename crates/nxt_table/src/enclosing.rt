// What encloses the entries of a table.

ghost use Rattle.std.specs.Prelude.{◌≡◌, ◌<◌, ◌-◌, ◌^◌, length, map, IfOk, IfErr, OnOk, Some, None};
ghost use Rattle.nxt_types.specs.Shapes.{outline};
ghost use Rattle.nxt_table.specs.Inside.Items.{first_from, needs_behind};
ghost use Rattle.nxt_table.specs.Inside.Enclosing.{around as next_around, still_open, ends_where, frames_behind, marks, placed_entries as entries_with_marks, is_deep, DeepFirst, is_inner_mutex};

use crate::fault::TableFault;
use crate::item::{Item, item_of};
use crate::table::needed_behind;
use nxt_types::NoMemory;
use nxt_types::shape::TocEntry;
use std::alloc::Global;
use std::collections::VecDeque;

/// An entry of the table, how many arrays and clusters enclose it, and the entry of the next array around it.
#[derive(Clone, Copy, PartialEq, Eq, Debug)]
pub struct NestedEntry {
    pub entry: TocEntry,
    pub depth: u8,
    pub array: Option<u16>,
}

/// An array or a cluster whose entries aren't all read. It ends where the variable needs no more than `floor` shapes.
#[derive(Clone, Copy, PartialEq, Eq, Debug)]
pub struct Frame {
    floor: u32,
    array: Option<u16>,
}

/// How many arrays and clusters may enclose an entry.
const MOST_DEPTH: usize = 8;

/// The entries of a table of whole variables with what encloses them, or the first that is too deep.
pub fn placed_entries(alloc: Global, entries: &[TocEntry]) -> Result<Vec<NestedEntry>, TableFault>
    requires { length entries.now < 2 ^ 16 }
    ensures found { IfOk result (λ ps. (ps.items ≡ entries_with_marks entries.now) × (first_from is_deep 0 (marks entries.now) ≡ None)) }
    ensures refused { IfErr result (DeepFirst (marks entries.now)) }
    ensures count { IfOk result (λ ps. length ps.items ≡ length entries.now) }
{
    let mut placed: Vec<NestedEntry> = Vec::new(alloc);
    let mut frames: VecDeque<Frame> = VecDeque::new(alloc);
    let mut needed: u32 = 0;
    for (i, entry) in entries.iter().enumerate() {
        if frames.len() > MOST_DEPTH {
            return Err(TableFault::Depth(i as u32));
        }
        placed.push(NestedEntry {
            entry: *entry,
            depth: frames.len() as u8,
            array: around(&frames),
        })?;
        let item = item_of(entry);
        open(&mut frames, needed, i as u16, item)?;
        needed = needed_behind(needed, item);
    }
    Ok(placed)
}

fn around(frames: &VecDeque<Frame>) -> Option<u16>
    ensures { result ≡ next_around frames.now.items }
{
    match frames.front() {
        Some(frame) => frame.array,
        None => None,
    }
}

// Opens the frame of an entry that has one, and ends those that it ends.
fn open(
    frames: &mut VecDeque<Frame>,
    needed: u32,
    i: u16,
    item: Option<Item>,
) -> Result<(), NoMemory>
    requires { needed < 2 ^ 32 - 2 ^ 16 }
    ensures { OnOk result (frames.new.items ≡ frames_behind needed frames.old.items i item) }
{
    let floor = needed.saturating_sub(1);
    match item {
        Some(Item::Array) => {
            frames.push_front(Frame {
                floor,
                array: Some(i),
            })?;
        }
        Some(Item::Cluster(_)) => {
            let array = around(frames);
            frames.push_front(Frame { floor, array })?;
        }
        _ => {}
    }
    close(frames, needed_behind(needed, item));
    Ok(())
}

// Ends the frames that are over where the variable needs `needed` shapes more.
fn close(frames: &mut VecDeque<Frame>, needed: u32)
    ensures { frames.new.items ≡ still_open needed frames.old.items }
{
    while is_over(frames, needed) {
        let _over = frames.pop_front();
    }
}

fn is_over(frames: &VecDeque<Frame>, needed: u32) -> bool
    ensures { result ≡ ends_where needed frames.now.items }
{
    match frames.front() {
        Some(frame) => frame.floor >= needed,
        None => false,
    }
}

/// The first mutex in an array or a cluster.
pub fn inner_mutex(placed: &[NestedEntry]) -> Option<u32>
    requires { length placed.now < 2 ^ 16 }
    ensures { result ≡ first_from is_inner_mutex 0 placed.now }
{
    for (i, place) in placed.iter().enumerate() {
        if place.entry.code == 9 && place.depth > 0 {
            return Some(i as u32);
        }
    }
    None
}
