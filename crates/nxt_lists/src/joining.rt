// Lists of numbers that stand one behind another, built of numbers and of such lists.

ghost use Rattle.std.specs.Prelude.{◌≡◌, false, ◌++◌, ◌*◌, ◌≤◌, ◌<◌, ◌^◌, ℕ, List, None, length, All, Err, IfErr, IfOk, IfSome, OnOk, ◌∷◌, []};
ghost use Rattle.nxt_types.specs.Arithmetic.{leaf_size as size_of_leaf};
ghost use Rattle.nxt_types.specs.Shapes.{is_number};
ghost use Rattle.nxt_types.specs.declared.kind.Kind.{Kind};
ghost use Rattle.nxt_model.specs.Values.{Value, elements, list_of, stored};
ghost use Rattle.nxt_space.specs.Keeping.{Leaves};
ghost use Rattle.nxt_space.specs.Outcomes.{Does};
ghost use Rattle.nxt_space.specs.Spots.{IsSpot, IsListSpot};
ghost use Rattle.nxt_space.specs.Variables.{AreSound, shape_of, value_of, with_value};
ghost use Rattle.nxt_operands.specs.Operands.{Done};
ghost use Rattle.nxt_lists.specs.InBytes.{AreStored};
ghost use Rattle.nxt_lists.specs.Joined.{IsPiece, GivesNumbers, numbers_given};
ghost use Rattle.nxt_lists.specs.Pieces.{pieces_of};

use crate::numbers::store_numbers;
use nxt_operands::lists::{number_bytes, push_number};
use nxt_operands::storing::check_room;
use nxt_space::{ListSpot, OpFault, Space, Spot};
use nxt_types::kind::Kind;
use nxt_types::numbers::leaf_size;
use nxt_types::pool::POOL_BYTES;
use nxt_types::{Bytes, NoMemory};
use nxt_values::sizing::NONE;
use std::alloc::Global;

/// What a variable gives for a list of numbers: itself as one of them, or all those of a list of that kind.
#[derive(Clone, Copy)]
pub enum Piece {
    Single(Spot),
    Each(ListSpot),
}

impl Piece {
    /// What a variable gives for a list of numbers of a kind; `None` where it gives anything else.
    pub fn at(space: &Space, kind: Kind, i: u16) -> Option<Piece>
        ensures found { IfSome result (IsPiece space.now.vars kind i) }
        ensures none { result ≡ None → GivesNumbers space.now.vars kind i → ⊥ }
    {
        if let Some(number) = space.spot(i) {
            return Some(Piece::Single(number));
        }
        let list = space.list_spot(i)?;
        if list.kind() == kind {
            Some(Piece::Each(list))
        } else {
            None
        }
    }

    // How many numbers it gives.
    fn count(self, space: &Space) -> u32
        requires { (k : Kind) × (i : ℕ) × IsPiece space.now.vars k i self }
        ensures { (k : Kind) (i : ℕ) → IsPiece space.now.vars k i self → result ≡ length (numbers_given space.now.vars i self) }
    {
        match self {
            Piece::Single(_) => 1,
            Piece::Each(list) => space.count(list),
        }
    }

    // Adds the bytes of the numbers that it gives.
    fn push(self, space: &Space, kind: Kind, into: &mut Bytes) -> Result<(), NoMemory>
        requires { (i : ℕ) × IsPiece space.now.vars kind i self }
        ensures { (i : ℕ) (vs : List Value) → IsPiece space.now.vars kind i self → AreStored kind into.old vs → OnOk result (AreStored kind into.new (vs ++ numbers_given space.now.vars i self)) }
    {
        match self {
            Piece::Single(number) => push_number(into, kind, space.word(number)),
            Piece::Each(list) => into.append(space.bytes(list)),
        }
    }
}

/// The number that is added to a list, where the sources are that list and one number; `None` where they are any others.
pub fn appended(space: &Space, dest: u16, sources: &[u16]) -> Option<Spot>
    ensures found { IfSome result (λ number. (j : ℕ) × (sources.now ≡ dest ∷ j ∷ []) × IsSpot space.now.vars j number) }
    ensures none { result ≡ None → (j : ℕ) → sources.now ≡ dest ∷ j ∷ [] → is_number (shape_of space.now.vars j) ≡ false }
{
    match sources {
        [first, second] if *first == dest => space.spot(*second),
        _ => None,
    }
}

/// Adds a number to a list of numbers. It takes no memory.
pub fn append_number(
    space: &mut Space,
    dest: u16,
    to: ListSpot,
    number: Spot,
) -> Result<(), OpFault>
    requires sound { AreSound space.old.vars }
    requires dest { IsListSpot space.old.vars dest to }
    requires number { (j : ℕ) × IsSpot space.old.vars j number }
    ensures does { (j : ℕ) → IsSpot space.old.vars j number → Does Done (with_value space.old.vars dest (stored (shape_of space.old.vars dest) (list_of (elements (value_of space.old.vars dest) ++ value_of space.old.vars j ∷ [])))) space.old result space.new }
    ensures leaves { Leaves (dest ∷ []) space.old space.new }
{
    let word = space.word(number).to_le_bytes();
    space.extend_list(to, number_bytes(to.kind(), &word))?;
    Ok(())
}

/// How many numbers all sources give for a list of numbers; `None` where one gives anything else.
pub fn count_numbers(space: &Space, dest: u16, to: ListSpot, sources: &[u16]) -> Option<u64>
    requires dest { IsListSpot space.now.vars dest to }
    requires few { length sources.now < 2 ^ 16 }
    ensures numbers { IfSome result (λ n. All (GivesNumbers space.now.vars to.kind) sources.now) }
    ensures count { IfSome result (λ n. n ≡ length (pieces_of space.now.vars dest sources.now)) }
{
    let mut count = 0;
    for source in sources {
        let piece = Piece::at(space, to.kind(), *source)?;
        count += u64::from(piece.count(space));
    }
    Some(count)
}

// Asks the pool whether a variable may hold a list of `count` numbers, where they are more than the pool has bytes. Of fewer
// it is told when they are stored.
fn check_many(space: &Space, dest: u16, to: ListSpot, count: u64) -> Result<(), OpFault>
    requires sound { AreSound space.now.vars }
    requires dest { IsListSpot space.now.vars dest to }
    requires few { count ≤ 2 ^ 32 }
    ensures few { OnOk result (count * size_of_leaf to.kind < 2 ^ 31) }
    ensures refused { (vs : List Value) → count ≡ length vs → IfErr result (λ fault. Does Done (with_value space.now.vars dest (stored (shape_of space.now.vars dest) (list_of vs))) space.now (Err fault) space.now) }
{
    if count > POOL_BYTES {
        check_room(space, dest, count, NONE)?;
    }
    Ok(())
}

/// Stores the list of the numbers that all sources give, where the pool has room for them.
pub fn store_joined(
    alloc: Global,
    space: &mut Space,
    dest: u16,
    to: ListSpot,
    sources: &[u16],
    count: u64,
) -> Result<(), OpFault>
    requires sound { AreSound space.old.vars }
    requires dest { IsListSpot space.old.vars dest to }
    requires numbers { All (GivesNumbers space.old.vars to.kind) sources.now }
    requires count { count ≡ length (pieces_of space.old.vars dest sources.now) }
    requires few { count ≤ 2 ^ 32 }
    ensures does { Does Done (with_value space.old.vars dest (stored (shape_of space.old.vars dest) (list_of (pieces_of space.old.vars dest sources.now)))) space.old result space.new }
    ensures leaves { Leaves (dest ∷ []) space.old space.new }
{
    check_many(space, dest, to, count)?;
    match sources {
        [first, others @ ..] if *first == dest => extend_numbers(alloc, space, dest, to, others),
        _ => {
            let room = count as usize * leaf_size(to.kind()) as usize;
            let bytes = joined_numbers(alloc, space, dest, to, sources, room)?;
            store_numbers(space, to, &bytes)
        }
    }
}

// The bytes of the numbers that all sources give. Memory for all of them is taken at once.
fn joined_numbers(
    alloc: Global,
    space: &Space,
    dest: u16,
    to: ListSpot,
    sources: &[u16],
    room: usize,
) -> Result<Bytes, NoMemory>
    requires dest { IsListSpot space.now.vars dest to }
    requires numbers { All (GivesNumbers space.now.vars to.kind) sources.now }
    ensures { IfOk result (λ bytes. AreStored to.kind bytes (pieces_of space.now.vars dest sources.now)) }
{
    let mut bytes = Bytes::new(alloc);
    bytes.reserve(room)?;
    for source in sources {
        match Piece::at(space, to.kind(), *source) {
            Some(piece) => piece.push(space, to.kind(), &mut bytes)?,
            None => unreachable!(),
        }
    }
    Ok(bytes)
}

// Adds the numbers that sources give to those of a list.
fn extend_numbers(
    alloc: Global,
    space: &mut Space,
    dest: u16,
    to: ListSpot,
    sources: &[u16],
) -> Result<(), OpFault>
    requires sound { AreSound space.old.vars }
    requires dest { IsListSpot space.old.vars dest to }
    requires numbers { All (GivesNumbers space.old.vars to.kind) sources.now }
    requires few { length (pieces_of space.old.vars dest sources.now) * size_of_leaf to.kind < 2 ^ 31 }
    ensures does { Does Done (with_value space.old.vars dest (stored (shape_of space.old.vars dest) (list_of (elements (value_of space.old.vars dest) ++ pieces_of space.old.vars dest sources.now)))) space.old result space.new }
    ensures leaves { Leaves (dest ∷ []) space.old space.new }
{
    let more = joined_numbers(alloc, space, dest, to, sources, 0)?;
    space.extend_list(to, more.as_slice())?;
    Ok(())
}
