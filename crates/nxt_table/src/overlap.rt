// Leaves that share a byte.

ghost use Rattle.std.specs.Prelude.{◌≡◌, ◌<◌, ◌^◌, ℕ, All, IfOk, OnOk, Option, Some, if◌then◌else◌};
ghost use Rattle.std.specs.BTreeMap.{get as owner_in};
ghost use Rattle.nxt_table.specs.Inside.LeafPasses.{first_pair, leaf_end, width_of, pair_or as pair_with};
ghost use Rattle.nxt_table.specs.Inside.Owners.{byte_cmp, covers, least_of, IsLeastOwner, AreRising};

use crate::leaves::{PlacedLeaf, width};
use nxt_types::NoMemory;
use std::alloc::Global;
use std::collections::BTreeMap;

/// The entry of the first leaf on each byte outside of all elements, or of an array's element.
type Owners = BTreeMap<(Option<u16>, u32), u32>;

/// The first leaf that shares a byte with a later one outside or in the same element, and the first of those.
pub fn overlap(alloc: Global, leaves: &[PlacedLeaf]) -> Result<Option<(u32, u32)>, NoMemory>
    requires places { All (λ l. l.place < 2 ^ 16) leaves.now }
    requires entries { AreRising leaves.now }
    requires bytes { All (λ l. 0 < width_of l) leaves.now }
    ensures { IfOk result (λ found. found ≡ first_pair leaves.now) }
{
    let mut owners: Owners = BTreeMap::new(alloc);
    let mut found: Option<(u32, u32)> = None;
    let mut left = leaves.len();
    while left > 0 {
        left -= 1;
        let leaf = leaves[left];
        found = pair_or(leaf.entry, first_owner(&owners, &leaf), found);
        own(&mut owners, &leaf)?;
    }
    Ok(found)
}

fn pair_or(entry: u32, other: Option<u32>, found: Option<(u32, u32)>) -> Option<(u32, u32)>
    ensures { result ≡ pair_with entry other found }
{
    match other {
        Some(other) => Some((entry, other)),
        None => found,
    }
}

fn owner(owners: &Owners, array: Option<u16>, at: u32) -> Option<u32>
    ensures { result ≡ owner_in byte_cmp owners.now (array, at) }
{
    owners.get(&(array, at)).copied()
}

// The least owner of the bytes that the leaf takes.
fn first_owner(owners: &Owners, leaf: &PlacedLeaf) -> Option<u32>
    requires { leaf.now.place < 2 ^ 16 }
    ensures { IsLeastOwner (owner_in byte_cmp owners.now) leaf.now (leaf_end leaf.now) result }
{
    let mut first: Option<u32> = None;
    for at in leaf.place..leaf.place + width(leaf) {
        first = least(first, owner(owners, leaf.array, at));
    }
    first
}

fn least(a: Option<u32>, b: Option<u32>) -> Option<u32>
    ensures { result ≡ least_of a b }
{
    match (a, b) {
        (Some(a), Some(b)) => Some(a.min(b)),
        (None, b) => b,
        (a, None) => a,
    }
}

// Makes the leaf the owner of its bytes.
fn own(owners: &mut Owners, leaf: &PlacedLeaf) -> Result<(), NoMemory>
    requires { leaf.now.place < 2 ^ 16 }
    ensures { OnOk result ((a : Option ℕ) (x : ℕ) → owner_in byte_cmp owners.new (a, x) ≡ (if covers (a, x) leaf.now then Some leaf.now.entry else owner_in byte_cmp owners.old (a, x))) }
{
    for at in leaf.place..leaf.place + width(leaf) {
        let _other = owners.insert((leaf.array, at), leaf.entry)?;
    }
    Ok(())
}
