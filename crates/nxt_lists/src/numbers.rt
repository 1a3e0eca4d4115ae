// Lists of numbers that stand one behind another, stored by their bytes.

ghost use Rattle.std.specs.Prelude.{◌≡◌, ◌≤◌, ◌<◌, ◌+◌, ◌^◌, ◌%◌, ◌++◌, ℕ, List, length, replicate, slice_range, slice_set, IfOk, OnOk, ◌∷◌, [], true, pos};
ghost use Rattle.nxt_types.specs.Arithmetic.{leaf_size as size_of_leaf};
ghost use Rattle.nxt_types.specs.Pool.{pool_size};
ghost use Rattle.nxt_model.specs.Means.Arrays.{overwritten};
ghost use Rattle.nxt_model.specs.Values.{Value, elements, list_of, stored, word_of};
ghost use Rattle.nxt_values.specs.Writes.{bytes_of_number};
ghost use Rattle.nxt_space.specs.Keeping.{Leaves};
ghost use Rattle.nxt_space.specs.Outcomes.{Does};
ghost use Rattle.nxt_space.specs.Spots.{IsSpot, IsListSpot};
ghost use Rattle.nxt_space.specs.Variables.{AreSound, shape_of, value_of, with_value};
ghost use Rattle.nxt_operands.specs.Operands.{Done};
ghost use Rattle.nxt_lists.specs.InBytes.{AreStored};

use nxt_operands::lists::push_number;
use nxt_operands::storing::check_room;
use nxt_space::{ListSpot, OpFault, Space, Spot};
use nxt_types::kind::Kind;
use nxt_types::numbers::leaf_size;
use nxt_types::{Bytes, NoMemory};
use nxt_values::sizing::NONE;
use std::alloc::Global;

/// Stores a list with a number in place of an element, counted from 0, in a list of its kind; past the list's end as it is.
pub fn replace_number(
    space: &mut Space,
    dest: u16,
    list: u16,
    spots: (ListSpot, ListSpot),
    k: u32,
    new: Spot,
) -> Result<(), OpFault>
    requires sound { AreSound space.old.vars }
    requires to { IsListSpot space.old.vars dest spots.0 }
    requires from { IsListSpot space.old.vars list spots.1 }
    requires kind { spots.1.kind ≡ spots.0.kind }
    requires new { (j : ℕ) × IsSpot space.old.vars j new }
    ensures does { (j : ℕ) → IsSpot space.old.vars j new → Does Done (with_value space.old.vars dest (stored (shape_of space.old.vars dest) (list_of (slice_set (elements (value_of space.old.vars list)) k (value_of space.old.vars j))))) space.old result space.new }
    ensures leaves { Leaves (dest ∷ []) space.old space.new }
{
    let word = space.word(new);
    take_over(space, dest, list, spots)?;
    space.set_element(spots.0, k, word);
    Ok(())
}

/// Stores a list with the numbers of another one in place of its elements from an index on, as many as fit, in a list of its
/// kind.
pub fn replace_numbers(
    alloc: Global,
    space: &mut Space,
    spots: (ListSpot, ListSpot),
    k: u32,
    new: ListSpot,
) -> Result<(), OpFault>
    requires to { (i : ℕ) × IsListSpot space.old.vars i spots.0 }
    requires from { (j : ℕ) × IsListSpot space.old.vars j spots.1 }
    requires kind { spots.1.kind ≡ spots.0.kind }
    requires new { (m : ℕ) × IsListSpot space.old.vars m new }
    requires new_kind { new.kind ≡ spots.0.kind }
    ensures does { (i j m : ℕ) → IsListSpot space.old.vars i spots.0 → IsListSpot space.old.vars j spots.1 → IsListSpot space.old.vars m new → Does Done (with_value space.old.vars i (stored (shape_of space.old.vars i) (list_of (overwritten (elements (value_of space.old.vars j)) k (elements (value_of space.old.vars m)))))) space.old result space.new }
    ensures leaves { (i : ℕ) → IsListSpot space.old.vars i spots.0 → Leaves (i ∷ []) space.old space.new }
{
    let (to, list) = spots;
    let length = space.count(list);
    let from = k.min(length);
    let count = space.count(new).min(length - from);
    let mut bytes = Bytes::new(alloc);
    push_section(space, list, 0, from, &mut bytes)?;
    push_section(space, new, 0, count, &mut bytes)?;
    push_section(space, list, from + count, length, &mut bytes)?;
    store_numbers(space, to, &bytes)
}

// Gives a list the value of one of its kind.
fn take_over(
    space: &mut Space,
    dest: u16,
    list: u16,
    spots: (ListSpot, ListSpot),
) -> Result<(), OpFault>
    requires sound { AreSound space.old.vars }
    requires to { IsListSpot space.old.vars dest spots.0 }
    requires from { IsListSpot space.old.vars list spots.1 }
    requires kind { spots.1.kind ≡ spots.0.kind }
    ensures does { Does Done (with_value space.old.vars dest (value_of space.old.vars list)) space.old result space.new }
    ensures leaves { Leaves (dest ∷ []) space.old space.new }
{
    if dest == list {
        return Ok(());
    }
    space.copy_list(spots.0, spots.1)?;
    Ok(())
}

/// Stores a list's elements from one index up to another in a list of its kind.
pub fn store_section(
    alloc: Global,
    space: &mut Space,
    to: ListSpot,
    list: ListSpot,
    from: u32,
    end: u32,
) -> Result<(), OpFault>
    requires to { (i : ℕ) × IsListSpot space.old.vars i to }
    requires list { (j : ℕ) × IsListSpot space.old.vars j list × (end ≤ length (elements (value_of space.old.vars j))) }
    requires kind { list.kind ≡ to.kind }
    requires ordered { from ≤ end }
    ensures does { (i j : ℕ) → IsListSpot space.old.vars i to → IsListSpot space.old.vars j list → Does Done (with_value space.old.vars i (stored (shape_of space.old.vars i) (list_of (slice_range (elements (value_of space.old.vars j)) from end)))) space.old result space.new }
    ensures leaves { (i : ℕ) → IsListSpot space.old.vars i to → Leaves (i ∷ []) space.old space.new }
{
    let mut bytes = Bytes::new(alloc);
    push_section(space, list, from, end, &mut bytes)?;
    store_numbers(space, to, &bytes)
}

// Adds the bytes of a list's elements from one index up to another.
fn push_section(
    space: &Space,
    list: ListSpot,
    from: u32,
    end: u32,
    into: &mut Bytes,
) -> Result<(), NoMemory>
    requires list { (i : ℕ) × IsListSpot space.now.vars i list × (end ≤ length (elements (value_of space.now.vars i))) }
    requires ordered { from ≤ end }
    ensures numbers { (i : ℕ) (vs : List Value) → IsListSpot space.now.vars i list → AreStored list.kind into.old vs → OnOk result (AreStored list.kind into.new (vs ++ slice_range (elements (value_of space.now.vars i)) from end)) }
    ensures short { OnOk result (length into.new ≤ length into.old + pool_size) }
{
    let size = leaf_size(list.kind());
    let held = space.bytes(list);
    into.append(&held[(from * size) as usize..(end * size) as usize])
}

/// Stores a list of `count` copies of a number, where the pool has room for it.
pub fn store_copies(
    alloc: Global,
    space: &mut Space,
    dest: u16,
    to: ListSpot,
    number: Spot,
    count: u32,
) -> Result<(), OpFault>
    requires sound { AreSound space.old.vars }
    requires to { IsListSpot space.old.vars dest to }
    requires number { (j : ℕ) × IsSpot space.old.vars j number }
    ensures does { (j : ℕ) → IsSpot space.old.vars j number → Does Done (with_value space.old.vars dest (stored (shape_of space.old.vars dest) (list_of (replicate count (value_of space.old.vars j))))) space.old result space.new }
    ensures leaves { Leaves (dest ∷ []) space.old space.new }
{
    check_room(space, dest, u64::from(count), NONE)?;
    let bytes = bytes_of_copies(alloc, to.kind(), space.word(number), count)?;
    store_numbers(space, to, &bytes)
}

// The bytes of `count` copies of a number of a kind.
fn bytes_of_copies(alloc: Global, kind: Kind, word: u32, count: u32) -> Result<Bytes, NoMemory>
    ensures { IfOk result (λ bytes. (v : Value) → word ≡ word_of v → AreStored kind bytes (replicate count v)) }
{
    if are_alike(kind, word) {
        let size = count as usize * leaf_size(kind) as usize;
        return Ok(Bytes::from_vec(vec![in alloc; word.to_le_bytes()[0]; size]?));
    }
    let mut bytes = Bytes::new(alloc);
    for _ in 0..count {
        push_number(&mut bytes, kind, word)?;
    }
    Ok(bytes)
}

// Whether the bytes of a number of a kind are all alike, since it has one byte or is 0.
fn are_alike(kind: Kind, word: u32) -> bool
    ensures { result ≡ true → bytes_of_number kind (pos word) ≡ replicate (size_of_leaf kind) (word % 256) }
{
    leaf_size(kind) == 1 || word == 0
}

/// Gives a list the numbers that stand in bytes.
pub fn store_numbers(space: &mut Space, to: ListSpot, bytes: &Bytes) -> Result<(), OpFault>
    requires to { (i : ℕ) × IsListSpot space.old.vars i to }
    requires whole { length bytes.now % size_of_leaf to.kind ≡ 0 }
    requires small { length bytes.now < 2 ^ 32 }
    ensures does { (i : ℕ) (vs : List Value) → IsListSpot space.old.vars i to → AreStored to.kind bytes.now vs → Does Done (with_value space.old.vars i (stored (shape_of space.old.vars i) (list_of vs))) space.old result space.new }
    ensures leaves { (i : ℕ) → IsListSpot space.old.vars i to → Leaves (i ∷ []) space.old space.new }
{
    space.set_list(to, bytes.as_slice())?;
    Ok(())
}
