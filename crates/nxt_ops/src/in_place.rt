// Operators on lists of numbers that stand one behind another, in passes over their words.

ghost use Rattle.std.specs.Prelude.{◌≡◌, ◌≤◌, ℕ, length, IfOk, IfSome, ◌∷◌, []};
ghost use Rattle.nxt_model.specs.Values.{number, stored};
ghost use Rattle.nxt_space.specs.Keeping.{Leaves};
ghost use Rattle.nxt_space.specs.Variables.{shape_of, value_of, with_value};
ghost use Rattle.nxt_space.specs.Outcomes.{Does};
ghost use Rattle.nxt_space.specs.Spots.{IsListSpot, IsSpot};
ghost use Rattle.nxt_types.specs.Arithmetic.{word};
ghost use Rattle.nxt_ops.specs.Sides.{IsSide};
ghost use Rattle.nxt_types.specs.Pool.{pool_size};
ghost use Rattle.nxt_ops.specs.Passes.{words_of, list_of_words, list_of_pairs, one_words, two_words, words_before, words_behind};
ghost use Rattle.nxt_operands.specs.Operands.{Done};
ghost use Rattle.nxt_ops.specs.Elements.{pairs_of, numbers_by};

use crate::operator::{One, Two};
use crate::passes::{change_words, combine_numbers, combine_words, store_words, words_in};
use nxt_operands::lists::count_in;
use nxt_space::{ListSpot, OpFault, Space, Spot};
use nxt_types::NoMemory;
use std::alloc::Global;

/// A value that an operator reads in place.
#[derive(Clone, Copy)]
pub enum Side {
    Number(Spot),
    List(ListSpot),
}

/// Stores a list of numbers in one of another kind, where both stand one behind another.
pub fn convert_list(
    alloc: Global,
    space: &mut Space,
    to: ListSpot,
    from: ListSpot,
) -> Result<(), OpFault>
    requires to { (i : ℕ) × IsListSpot space.old.vars i to }
    requires from { (j : ℕ) × IsListSpot space.old.vars j from }
    ensures does { (i j : ℕ) → IsListSpot space.old.vars i to → IsListSpot space.old.vars j from → Does Done (with_value space.old.vars i (stored (shape_of space.old.vars i) (value_of space.old.vars j))) space.old result space.new }
    ensures leaves { (i : ℕ) → IsListSpot space.old.vars i to → Leaves (i ∷ []) space.old space.new }
{
    let words = words_in(alloc, from.kind(), space.bytes(from))?;
    store_words(alloc, space, to, &words)
}

/// The spots of two lists of numbers that stand one behind another.
pub fn two_lists(space: &Space, x: u16, y: u16) -> Option<(ListSpot, ListSpot)>
    ensures { IfSome result (λ p. IsListSpot space.now.vars x p.0 × IsListSpot space.now.vars y p.1) }
{
    let x = space.list_spot(x)?;
    let y = space.list_spot(y)?;
    Some((x, y))
}

/// A number, or a list of numbers that stand one behind another.
pub fn side_at(space: &Space, i: u16) -> Option<Side>
    ensures { IfSome result (IsSide space.now.vars i) }
{
    if let Some(number) = space.spot(i) {
        return Some(Side::Number(number));
    }
    let list = space.list_spot(i)?;
    Some(Side::List(list))
}

/// The words that an operator gives for two values.
pub fn combined_words(
    alloc: Global,
    operator: Two,
    signed: bool,
    space: &Space,
    x: Side,
    y: Side,
) -> Result<Vec<u32>, NoMemory>
    requires x { (i : ℕ) × IsSide space.now.vars i x }
    requires y { (j : ℕ) × IsSide space.now.vars j y }
    ensures words { (i j : ℕ) → IsSide space.now.vars i x → IsSide space.now.vars j y → IfOk result (λ ws. list_of_words ws.items ≡ list_of_pairs operator signed (pairs_of (numbers_by (shape_of space.now.vars i) (value_of space.now.vars i)) (numbers_by (shape_of space.now.vars j) (value_of space.now.vars j)))) }
    ensures few { IfOk result (λ ws. length ws.items ≤ pool_size) }
{
    match (x, y) {
        (Side::List(x), Side::List(y)) => words_of_lists(alloc, operator, signed, space, x, y),
        (Side::List(x), Side::Number(y)) => words_with_last(alloc, operator, signed, space, x, y),
        (Side::Number(x), Side::List(y)) => words_with_first(alloc, operator, signed, space, x, y),
        (Side::Number(_), Side::Number(_)) => Ok(Vec::new(alloc)),
    }
}

// The words that an operator gives for the numbers of two lists: the shorter one ends them.
fn words_of_lists(
    alloc: Global,
    operator: Two,
    signed: bool,
    space: &Space,
    x: ListSpot,
    y: ListSpot,
) -> Result<Vec<u32>, NoMemory>
    requires x { (i : ℕ) × IsListSpot space.now.vars i x }
    requires y { (j : ℕ) × IsListSpot space.now.vars j y }
    ensures words { (i j : ℕ) → IsListSpot space.now.vars i x → IsListSpot space.now.vars j y → IfOk result (λ ws. ws.items ≡ two_words operator signed (words_of (value_of space.now.vars i)) (words_of (value_of space.now.vars j))) }
    ensures few { IfOk result (λ ws. length ws.items ≤ pool_size) }
{
    let mut words = words_in(alloc, x.kind(), space.bytes(x))?;
    let bytes = space.bytes(y);
    words.truncate(count_in(y.kind(), bytes));
    combine_numbers(alloc, operator, signed, &mut words, y.kind(), bytes)?;
    Ok(words)
}

// The words that an operator gives for each number of a list and one number.
fn words_with_last(
    alloc: Global,
    operator: Two,
    signed: bool,
    space: &Space,
    x: ListSpot,
    y: Spot,
) -> Result<Vec<u32>, NoMemory>
    requires x { (i : ℕ) × IsListSpot space.now.vars i x }
    requires y { (j : ℕ) × IsSpot space.now.vars j y }
    ensures words { (i j : ℕ) → IsListSpot space.now.vars i x → IsSpot space.now.vars j y → IfOk result (λ ws. ws.items ≡ words_before operator signed (words_of (value_of space.now.vars i)) (word (number (value_of space.now.vars j)))) }
    ensures few { IfOk result (λ ws. length ws.items ≤ pool_size) }
{
    let mut words = words_in(alloc, x.kind(), space.bytes(x))?;
    let others = vec![in alloc; space.word(y); words.len()]?;
    combine_words(operator, signed, &mut words, &others);
    Ok(words)
}

// The words that an operator gives for one number and each number of a list.
fn words_with_first(
    alloc: Global,
    operator: Two,
    signed: bool,
    space: &Space,
    x: Spot,
    y: ListSpot,
) -> Result<Vec<u32>, NoMemory>
    requires x { (i : ℕ) × IsSpot space.now.vars i x }
    requires y { (j : ℕ) × IsListSpot space.now.vars j y }
    ensures words { (i j : ℕ) → IsSpot space.now.vars i x → IsListSpot space.now.vars j y → IfOk result (λ ws. ws.items ≡ words_behind operator signed (word (number (value_of space.now.vars i))) (words_of (value_of space.now.vars j))) }
    ensures few { IfOk result (λ ws. length ws.items ≤ pool_size) }
{
    let others = words_in(alloc, y.kind(), space.bytes(y))?;
    let mut words = vec![in alloc; space.word(x); others.len()]?;
    combine_words(operator, signed, &mut words, &others);
    Ok(words)
}

/// The words that an operator gives for the numbers of a list.
pub fn changed_words(
    alloc: Global,
    operator: One,
    signed: bool,
    space: &Space,
    x: ListSpot,
) -> Result<Vec<u32>, NoMemory>
    requires { (i : ℕ) × IsListSpot space.now.vars i x }
    ensures words { (i : ℕ) → IsListSpot space.now.vars i x → IfOk result (λ ws. ws.items ≡ one_words operator signed (words_of (value_of space.now.vars i))) }
    ensures few { IfOk result (λ ws. length ws.items ≤ pool_size) }
{
    let mut words = words_in(alloc, x.kind(), space.bytes(x))?;
    change_words(operator, signed, &mut words);
    Ok(words)
}
