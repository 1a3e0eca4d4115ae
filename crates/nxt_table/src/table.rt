// Whether a table spells whole variables.

ghost use Rattle.std.specs.Prelude.{◌≡◌, ◌<◌, ◌^◌, ◌-◌, length, map};
ghost use Rattle.nxt_types.specs.Shapes.{outline};
ghost use Rattle.nxt_table.specs.Inside.Items.{first_from, open_from, needs_behind, breaks_off};
ghost use Rattle.nxt_table.specs.TableRules.{has_unknown_code};

use crate::item::{Item, item_of};
use nxt_types::shape::TocEntry;

/// The first entry with an unknown type code.
pub fn unknown_code(entries: &[TocEntry]) -> Option<u32>
    requires { length entries.now < 2 ^ 16 }
    ensures { result ≡ first_from has_unknown_code 0 entries.now }
{
    for (i, entry) in entries.iter().enumerate() {
        if entry.code > 9 {
            return Some(i as u32);
        }
    }
    None
}

/// The first entry at which a variable begins that the table doesn't spell: its entries pass the table's end, or it has
/// a cluster without members or a void inside.
pub fn open_variable(entries: &[TocEntry]) -> Option<u32>
    requires { length entries.now < 2 ^ 16 }
    ensures { result ≡ open_from 0 0 0 (map outline entries.now) }
{
    let mut start: u32 = 0;
    let mut needed: u32 = 0;
    for (i, entry) in entries.iter().enumerate() {
        if needed == 0 {
            start = i as u32;
        }
        let item = item_of(entry);
        if is_broken_off(needed, item) {
            return Some(start);
        }
        needed = needed_behind(needed, item);
    }
    if needed == 0 { None } else { Some(start) }
}

/// How many shapes a variable still needs behind an item, before which it needs `needed`.
pub fn needed_behind(needed: u32, item: Option<Item>) -> u32
    requires { needed < 2 ^ 32 - 2 ^ 16 }
    ensures { result ≡ needs_behind needed item }
{
    match item {
        Some(Item::Array) => needed.max(1),
        Some(Item::Cluster(members)) => needed.saturating_sub(1) + u32::from(members),
        _ => needed.saturating_sub(1),
    }
}

fn is_broken_off(needed: u32, item: Option<Item>) -> bool
    ensures { result ≡ breaks_off needed item }
{
    match item {
        Some(Item::Void) => needed > 0,
        Some(Item::Cluster(members)) => members == 0,
        Some(Item::Number(_) | Item::Array | Item::Mutex) => false,
        None => true,
    }
}
