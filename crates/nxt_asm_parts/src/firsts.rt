// The first table entries of shapes, and the return variables of blocks.

ghost use Rattle.std.specs.Prelude.{◌≡◌, ◌+◌, ◌<◌, ◌^◌, List, [], ◌∷◌, ◌++◌, length, replicate, take, slice_index_or, IfOk, OnOk};
ghost use Rattle.nxt_types.specs.Names.{size};
ghost use Rattle.nxt_types.specs.Shapes.{Shape};
ghost use Rattle.nxt_model.specs.declared.nbc.NbcBlock.{NbcBlock};
ghost use Rattle.nxt_model.specs.TextProgram.{subroutines, variable_number};
ghost use Rattle.nxt_asm_parts.specs.Firsts.{firsts_of, places_of};
ghost use Rattle.nxt_asm_parts.specs.Measures.{held};

use nxt_model::nbc::NbcBlock;
use nxt_types::NoMemory;
use nxt_types::lists::ListOf;
use std::alloc::Global;

/// The first table entry of each of some shapes, which stand one after another, and the entry behind them. A number that
/// doesn't fit its field is held at the greatest.
#[derive(Drop)]
pub struct FirstEntries {
    pub of_each: ListOf<u64>,
    pub behind: u64,
}

/// The place of each block's return variable among the return variables, which is the number of subroutines before the
/// block, and how many there are.
#[derive(Drop)]
pub struct ReturnPlaces {
    pub before: ListOf<usize>,
    pub count: usize,
}

impl FirstEntries {
    /// Those of no shapes.
    pub(crate) fn new(alloc: Global) -> FirstEntries
        ensures { result ≡ firsts_of [] }
    {
        FirstEntries {
            of_each: ListOf::new(alloc),
            behind: 0,
        }
    }

    /// Adds a shape that takes this number of entries.
    pub(crate) fn add(&mut self, entries: u64) -> Result<(), NoMemory>
        ensures { (ss : List Shape) (s : Shape) → entries ≡ held (size s) → self.old ≡ firsts_of ss → OnOk result (self.new ≡ firsts_of (ss ++ s ∷ [])) }
    {
        self.of_each.push(self.behind)?;
        self.behind = self.behind.saturating_add(entries);
        Ok(())
    }

    /// Adds `count` shapes that each take this number of entries.
    pub(crate) fn add_all(&mut self, entries: u64, count: usize) -> Result<(), NoMemory>
        ensures { (ss : List Shape) (s : Shape) → entries ≡ held (size s) → self.old ≡ firsts_of ss → OnOk result (self.new ≡ firsts_of (ss ++ replicate count s)) }
    {
        for _ in 0..count {
            self.add(entries)?;
        }
        Ok(())
    }

    /// The first entry of the shape at a position, or the entry behind them all.
    pub(crate) fn first(&self, position: usize) -> u64
        ensures { (ss : List Shape) → self.now ≡ firsts_of ss → result ≡ held (variable_number ss position) }
    {
        item_or(self.of_each.as_slice(), position, self.behind)
    }

    /// The first entry of the shape at a place, counted from a position, or the entry behind them all.
    pub(crate) fn first_behind(&self, from: usize, place: usize) -> u64
        ensures { (ss : List Shape) → self.now ≡ firsts_of ss → result ≡ held (variable_number ss (from + place)) }
    {
        let position = from.saturating_add(place);
        self.first(position.min(self.len()))
    }

    /// How many shapes there are.
    pub(crate) fn len(&self) -> usize
        ensures { (ss : List Shape) → self.now ≡ firsts_of ss → result ≡ length ss }
    {
        self.of_each.len()
    }
}

impl ReturnPlaces {
    /// Those of a program's blocks.
    pub(crate) fn of(alloc: Global, blocks: &[NbcBlock]) -> Result<ReturnPlaces, NoMemory>
        ensures { IfOk result (λ p. p ≡ places_of blocks.now) }
    {
        let mut before = ListOf::new(alloc);
        let mut count = 0;
        for block in blocks {
            before.push(count)?;
            count = subroutines_with(count, block);
        }
        Ok(ReturnPlaces { before, count })
    }

    /// That of a block, or how many there are.
    pub(crate) fn place(&self, block: usize) -> usize
        ensures { (bs : List NbcBlock) → self.now ≡ places_of bs → result ≡ length (subroutines (take block bs)) }
    {
        item_or(self.before.as_slice(), block, self.count)
    }
}

// How many subroutines there are with a block more.
fn subroutines_with(count: usize, block: &NbcBlock) -> usize
    requires { count < 2 ^ 63 }
    ensures { result ≡ count + length (subroutines (block.now ∷ [])) }
{
    if block.subroutine { count + 1 } else { count }
}

// The item at a position, or another where there is none.
fn item_or<T: Copy>(items: &[T], position: usize, otherwise: T) -> T
    ensures { result ≡ slice_index_or items.now position otherwise }
{
    items.get(position).copied().unwrap_or(otherwise)
}
