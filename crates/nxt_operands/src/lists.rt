// Lists of numbers that stand in their place, one number behind another.

ghost use Rattle.std.specs.Prelude.{◌≡◌, ◌<◌, ◌≤◌, length, take, ◌++◌, ◌∷◌, [], ℕ, pos, slice_index_or, slice_set, IfSome, None, OnOk, Ok};
ghost use Rattle.std.specs.Int.{from_le_bytes, to_le_bytes, w32};
ghost use Rattle.nxt_types.specs.Shapes.{Array, Number};
ghost use Rattle.nxt_types.specs.declared.kind.Kind.{Kind};
ghost use Rattle.nxt_types.specs.Arithmetic.{leaf_size as size_of_leaf, width_of, word};
ghost use Rattle.nxt_model.specs.Values.{Num, elements, list_of, number, stored};
ghost use Rattle.nxt_space.specs.Outcomes.{Does};
ghost use Rattle.nxt_space.specs.Keeping.{TableStays};
ghost use Rattle.nxt_space.specs.Spots.{IsSpot, IsListSpot, numbers_in_bytes};
ghost use Rattle.nxt_space.specs.Variables.{AreSound, shape_of, value_of, with_value};
ghost use Rattle.nxt_values.specs.Writes.{bytes_of_number};
ghost use Rattle.nxt_operands.specs.Operands.{Done};

use nxt_space::{ListSpot, Space, Spot};
use nxt_types::kind::Kind;
use nxt_types::numbers::{extend, leaf_size, wrap};
use nxt_types::{Bytes, NoMemory};

/// The spots of two lists, where both are lists of numbers of one kind that stand one behind another.
pub fn lists_of_a_kind(space: &Space, x: u16, y: u16) -> Option<(ListSpot, ListSpot)>
    ensures found { IfSome result (λ p. IsListSpot space.now.vars x p.0 × IsListSpot space.now.vars y p.1 × (p.1.kind ≡ p.0.kind)) }
    ensures none { result ≡ None → (k : Kind) → shape_of space.now.vars x ≡ Array (size_of_leaf k) (Number k) → shape_of space.now.vars y ≡ Array (size_of_leaf k) (Number k) → ⊥ }
{
    let x = space.list_spot(x)?;
    let y = space.list_spot(y)?;
    if y.kind() == x.kind() {
        Some((x, y))
    } else {
        None
    }
}

/// Stores an element of a list, counted from 0, in a number; past the list's end 0. It takes no memory.
#[inline(always)]
pub fn pick(space: &mut Space, dest: Spot, list: ListSpot, k: u32)
    requires sound { AreSound space.old.vars }
    requires dest { (i : ℕ) × IsSpot space.old.vars i dest }
    requires list { (j : ℕ) × IsListSpot space.old.vars j list }
    ensures does { (i j : ℕ) → IsSpot space.old.vars i dest → IsListSpot space.old.vars j list → Does Done (with_value space.old.vars i (stored (shape_of space.old.vars i) (slice_index_or (elements (value_of space.old.vars j)) k (Num (pos 0))))) space.old (Ok tt) space.new }
    ensures stays { TableStays space.old space.new }
{
    let word = space.element(list, k);
    space.set_word(dest, word);
}

/// Stores a number in an element of a list, counted from 0; past the list's end nothing. It takes no memory.
#[inline(always)]
pub fn put(space: &mut Space, list: ListSpot, k: u32, x: Spot)
    requires sound { AreSound space.old.vars }
    requires list { (i : ℕ) × IsListSpot space.old.vars i list }
    requires x { (j : ℕ) × IsSpot space.old.vars j x }
    ensures does { (i j : ℕ) → IsListSpot space.old.vars i list → IsSpot space.old.vars j x → Does Done (with_value space.old.vars i (stored (shape_of space.old.vars i) (list_of (slice_set (elements (value_of space.old.vars i)) k (value_of space.old.vars j))))) space.old (Ok tt) space.new }
    ensures stays { TableStays space.old space.new }
{
    let word = space.word(x);
    space.set_element(list, k, word);
}

/// Adds the bytes of a number of a kind, the low ones first.
pub fn push_number(into: &mut Bytes, kind: Kind, word: u32) -> Result<(), NoMemory>
    ensures { OnOk result (into.new ≡ into.old ++ bytes_of_number kind (pos word)) }
{
    into.append(number_bytes(kind, &word.to_le_bytes()))
}

/// The bytes of a number of a kind, the low ones first, among those of its word. It takes no memory.
pub fn number_bytes(kind: Kind, word: &[u8; 4]) -> &[u8]
    ensures { (w : ℕ) → word.now ≡ to_le_bytes w32 w → result.now ≡ bytes_of_number kind (pos w) }
{
    &word[..leaf_size(kind) as usize]
}

/// How many numbers of a kind stand in bytes.
pub fn count_in(kind: Kind, bytes: &[u8]) -> usize
    ensures count { result ≡ length (elements (numbers_in_bytes kind bytes.now)) }
    ensures few { result ≤ length bytes.now }
{
    bytes.len() / leaf_size(kind) as usize
}

/// The word of the k-th number of a kind in bytes, counted from 0.
#[inline(always)]
pub fn word_in(kind: Kind, bytes: &[u8], k: usize) -> u32
    requires { k < length (elements (numbers_in_bytes kind bytes.now)) }
    ensures { result ≡ word (number (slice_index_or (elements (numbers_in_bytes kind bytes.now)) k (Num (pos 0)))) }
{
    let at = k * leaf_size(kind) as usize;
    let (_, rest) = bytes.split_at(at);
    wrap(extend(kind, first_word(kind, rest)))
}

/// The first bytes of a number of a kind as a word.
#[inline(always)]
pub fn first_word(kind: Kind, bytes: &[u8]) -> u32
    requires { size_of_leaf kind ≤ length bytes.now }
    ensures { result ≡ from_le_bytes (width_of kind) (take (size_of_leaf kind) bytes.now) }
{
    match kind {
        Kind::Ubyte | Kind::Sbyte => u32::from(bytes[0]),
        Kind::Uword | Kind::Sword => u32::from(u16::from_le_bytes([bytes[0], bytes[1]])),
        Kind::Ulong | Kind::Slong => {
            u32::from_le_bytes([bytes[0], bytes[1], bytes[2], bytes[3]])
        }
    }
}
