// Operators on lists of numbers, element by element.

ghost use Rattle.std.specs.Prelude.{◌≡◌, ◌<◌, ◌^◌, true, false, length, IfOk, IsSome, ◌∷◌, []};
ghost use Rattle.nxt_types.specs.OperandRules.{is_plain, are_alike};
ghost use Rattle.nxt_types.specs.Shapes.{is_number as is_number_shape};
ghost use Rattle.nxt_model.specs.Means.Effects.{element};
ghost use Rattle.nxt_model.specs.Means.Numbers.{either_signed};
ghost use Rattle.nxt_model.specs.Values.{stored};
ghost use Rattle.nxt_space.specs.Keeping.{Leaves};
ghost use Rattle.nxt_space.specs.Variables.{AreSound, name_of, shape_of, value_of, with_value};
ghost use Rattle.nxt_space.specs.Outcomes.{Does};
ghost use Rattle.nxt_operands.specs.Numbers.{AreNumbers, numbers_in};
ghost use Rattle.nxt_operands.specs.Operands.{AllTrue, Done, given};
ghost use Rattle.nxt_ops.specs.Ops.{value_of_two, value_of_one, asked_of_two};
ghost use Rattle.nxt_ops.specs.Elements.{place_number, pairs_of, words_of_pairs, words_of_each, numbers_by};

use crate::in_place::{changed_words, combined_words, side_at, two_lists};
use crate::operator::{One, Two};
use crate::passes::store_words;
use nxt_operands::operands::{has_signed_elements, is_number};
use nxt_operands::reading::numbers_of;
use nxt_operands::storing::store;
use nxt_space::{Flat, OpFault, Space};
use nxt_types::NoMemory;
use std::alloc::Global;

/// What stands for the places of a list: the elements of a list, or one number for all of them.
#[derive(Drop)]
pub enum Source {
    All(i64),
    Each(Flat),
}

/// Stores what an operator gives for two values in a list of numbers.
pub fn combine_lists(
    alloc: Global,
    operator: Two,
    space: &mut Space,
    dest: u16,
    x: u16,
    y: u16,
) -> Result<(), OpFault>
    requires sound { AreSound space.old.vars }
    requires dest { IsSome (name_of space.old.vars dest) }
    requires x { IsSome (name_of space.old.vars x) }
    requires y { IsSome (name_of space.old.vars y) }
    requires list { is_number_shape (shape_of space.old.vars dest) ≡ false }
    requires fit { AllTrue (asked_of_two operator (shape_of space.old.vars dest) (shape_of space.old.vars x) (shape_of space.old.vars y)) }
    ensures does { Does Done (with_value space.old.vars dest (stored (shape_of space.old.vars dest) (value_of_two operator (shape_of space.old.vars dest) (given space.old.vars x) (given space.old.vars y)))) space.old result space.new }
    ensures leaves { Leaves (dest ∷ []) space.old space.new }
{
    let signed = either_has_signed_elements(space, x, y);
    if let (Some(to), Some(x), Some(y)) = (
        space.list_spot(dest),
        side_at(space, x),
        side_at(space, y),
    ) {
        let words = combined_words(alloc, operator, signed, space, x, y)?;
        return store_words(alloc, space, to, &words);
    }
    let flat = words_of(alloc, operator, signed, space, x, y)?;
    store(space, dest, &flat)
}

/// Stores what an operator gives for each number of a list.
pub fn map_list(
    alloc: Global,
    operator: One,
    space: &mut Space,
    dest: u16,
    x: u16,
) -> Result<(), OpFault>
    requires sound { AreSound space.old.vars }
    requires dest { IsSome (name_of space.old.vars dest) }
    requires x { IsSome (name_of space.old.vars x) }
    requires list { is_number_shape (shape_of space.old.vars dest) ≡ false }
    requires plain { is_plain (shape_of space.old.vars dest) ≡ true }
    requires fit { are_alike (shape_of space.old.vars dest) (shape_of space.old.vars x) ≡ true }
    ensures does { Does Done (with_value space.old.vars dest (stored (shape_of space.old.vars dest) (value_of_one operator (shape_of space.old.vars dest) (given space.old.vars x)))) space.old result space.new }
    ensures leaves { Leaves (dest ∷ []) space.old space.new }
{
    let signed = has_signed_elements(space, x);
    if let Some((to, from)) = two_lists(space, dest, x) {
        let words = changed_words(alloc, operator, signed, space, from)?;
        return store_words(alloc, space, to, &words);
    }
    let flat = mapped(alloc, operator, signed, space, x)?;
    store(space, dest, &flat)
}

/// Whether the elements of one of two values, or it itself, are numbers of a signed kind.
pub fn either_has_signed_elements(space: &Space, x: u16, y: u16) -> bool
    ensures { result ≡ either_signed (element (shape_of space.now.vars x)) (element (shape_of space.now.vars y)) }
{
    has_signed_elements(space, x) || has_signed_elements(space, y)
}

// The flat form of the list of words that an operator gives for two values.
fn words_of(
    alloc: Global,
    operator: Two,
    signed: bool,
    space: &Space,
    x: u16,
    y: u16,
) -> Result<Flat, NoMemory>
    requires sound { AreSound space.now.vars }
    requires x { IsSome (name_of space.now.vars x) }
    requires y { IsSome (name_of space.now.vars y) }
    requires plain_x { is_plain (shape_of space.now.vars x) ≡ true }
    requires plain_y { is_plain (shape_of space.now.vars y) ≡ true }
    ensures { IfOk result (λ flat. flat ≡ words_of_pairs operator signed (pairs_of (numbers_by (shape_of space.now.vars x) (value_of space.now.vars x)) (numbers_by (shape_of space.now.vars y) (value_of space.now.vars y)))) }
{
    let xs = source_of(alloc, space, x)?;
    let ys = source_of(alloc, space, y)?;
    combined(alloc, operator, signed, &xs, &ys)
}

// The numbers of a number or of a list of numbers.
fn source_of(alloc: Global, space: &Space, i: u16) -> Result<Source, NoMemory>
    requires sound { AreSound space.now.vars }
    requires named { IsSome (name_of space.now.vars i) }
    requires plain { is_plain (shape_of space.now.vars i) ≡ true }
    ensures { IfOk result (λ s. s ≡ numbers_by (shape_of space.now.vars i) (value_of space.now.vars i)) }
{
    if is_number(space, i) {
        Ok(Source::All(space.get(i)))
    } else {
        Ok(Source::Each(numbers_of(alloc, space, i)?))
    }
}

// The flat form of the list of words that an operator gives for the numbers of two sources: the shorter list ends it.
fn combined(
    alloc: Global,
    operator: Two,
    signed: bool,
    xs: &Source,
    ys: &Source,
) -> Result<Flat, NoMemory>
    ensures { IfOk result (λ flat. flat ≡ words_of_pairs operator signed (pairs_of xs.now ys.now)) }
{
    let count = pair_count(xs, ys);
    let mut flat = Flat::new(alloc);
    flat.push(count as i64)?;
    for k in 0..count {
        let (x, y) = (number_at(xs, k), number_at(ys, k));
        flat.push(i64::from(operator.word(signed, x, y)))?;
    }
    Ok(flat)
}

// How many places two sources have numbers for; none where neither is a list.
fn pair_count(xs: &Source, ys: &Source) -> usize
    ensures count { result ≡ length (pairs_of xs.now ys.now) }
    ensures small { result < 2 ^ 63 }
{
    match (xs, ys) {
        (Source::Each(xs), Source::Each(ys)) => xs.as_slice().len().min(ys.as_slice().len()),
        (Source::Each(xs), Source::All(_)) => xs.as_slice().len(),
        (Source::All(_), Source::Each(ys)) => ys.as_slice().len(),
        (Source::All(_), Source::All(_)) => 0,
    }
}

// The number for a place.
fn number_at(source: &Source, k: usize) -> i64
    ensures { result ≡ place_number source.now k }
{
    match source {
        Source::All(number) => *number,
        Source::Each(numbers) => match numbers.as_slice().get(k) {
            Some(number) => *number,
            None => 0,
        },
    }
}

// The flat form of the list of words that an operator gives for each number of a list.
fn mapped(
    alloc: Global,
    operator: One,
    signed: bool,
    space: &Space,
    x: u16,
) -> Result<Flat, NoMemory>
    requires named { IsSome (name_of space.now.vars x) }
    requires list { AreNumbers (value_of space.now.vars x) }
    ensures { IfOk result (λ flat. flat ≡ words_of_each operator signed (numbers_in (value_of space.now.vars x))) }
{
    let numbers = numbers_of(alloc, space, x)?;
    let numbers = numbers.as_slice();
    let mut flat = Flat::new(alloc);
    flat.push(numbers.len() as i64)?;
    for number in numbers {
        flat.push(i64::from(operator.word(signed, *number)))?;
    }
    Ok(flat)
}
