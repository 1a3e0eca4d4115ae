// Statements that build a list.

ghost use Rattle.std.specs.Prelude.{◌≡◌, ◌∷◌, ◌<◌, ◌*◌, ◌^◌, [], true, pos, map, flat_map, replicate, length, All, IfOk, IsSome};
ghost use Rattle.nxt_types.specs.OperandRules.{is_list, element_of as element_shape, goes_into};
ghost use Rattle.nxt_types.specs.Shapes.{tree, convertible, is_number};
ghost use Rattle.nxt_model.specs.Devices.{Devices};
ghost use Rattle.nxt_model.specs.Means.Arrays.{build as build_means, initialize as initialize_means};
ghost use Rattle.nxt_model.specs.Values.{flat as flat_form, list_of, stored};
ghost use Rattle.nxt_values.specs.Sizes.{IsCountable};
ghost use Rattle.nxt_space.specs.Keeping.{Leaves};
ghost use Rattle.nxt_space.specs.Variables.{AreSound, name_of, shape_of};
ghost use Rattle.nxt_space.specs.Outcomes.{Does};
ghost use Rattle.nxt_operands.specs.Operands.{Done, given, place_of, values_stored};
ghost use Rattle.nxt_lists.specs.Pieces.{pieces_of, many_filled, size_of_each};

use crate::gathering::push_pieces;
use crate::joining::{append_number, appended, count_numbers, store_joined};
use crate::numbers::store_copies;
use nxt_operands::reading::flat_of;
use nxt_operands::storing::{check_room, store};
use nxt_space::{Flat, OpFault, Size, Space, spelled_size};
use nxt_types::NoMemory;
use nxt_types::numbers::wrap;
use nxt_types::shape::Shape;
use nxt_values::sizing::NONE;
use std::alloc::Global;

/// Stores the list of its sources, one after another: a value that is an element for it, or else a list's elements.
pub fn build(alloc: Global, space: &mut Space, dest: u16, sources: &[u16]) -> Result<(), OpFault>
    requires sound { AreSound space.old.vars }
    requires dest { IsSome (name_of space.old.vars dest) }
    requires of_list { is_list (shape_of space.old.vars dest) ≡ true }
    requires few { length sources.now < 2 ^ 16 }
    requires sources { All (λ i. IsSome (name_of space.old.vars i)) sources.now }
    requires fit { All (λ i. goes_into (shape_of space.old.vars dest) (shape_of space.old.vars i) ≡ true) sources.now }
    ensures does { (d : Devices) → Does Done (values_stored space.old.vars (place_of space.old.vars dest ∷ []) (build_means d (given space.old.vars dest ∷ map (given space.old.vars) sources.now))) space.old result space.new }
    ensures leaves { Leaves (dest ∷ []) space.old space.new }
{
    if let Some(to) = space.list_spot(dest) {
        if let Some(number) = appended(space, dest, sources) {
            return append_number(space, dest, to, number);
        }
        if let Some(count) = count_numbers(space, dest, to, sources) {
            return store_joined(alloc, space, dest, to, sources, count);
        }
    }
    let found = measured(alloc, space, dest, sources)?;
    check_room(space, dest, found.count, found.size)?;
    let flat = joined(alloc, space, dest, sources, found.count)?;
    store(space, dest, &flat)
}

/// Stores a list of copies of a value.
pub fn initialize(
    alloc: Global,
    space: &mut Space,
    dest: u16,
    value: u16,
    count: u16,
) -> Result<(), OpFault>
    requires sound { AreSound space.old.vars }
    requires dest { IsSome (name_of space.old.vars dest) }
    requires value { IsSome (name_of space.old.vars value) }
    requires count { IsSome (name_of space.old.vars count) }
    requires of_list { is_list (shape_of space.old.vars dest) ≡ true }
    requires number { is_number (shape_of space.old.vars count) ≡ true }
    requires fit { convertible (element_shape (shape_of space.old.vars dest)) (shape_of space.old.vars value) ≡ true }
    ensures does { (d : Devices) → Does Done (values_stored space.old.vars (place_of space.old.vars dest ∷ []) (initialize_means d (given space.old.vars dest) (given space.old.vars value) (given space.old.vars count))) space.old result space.new }
    ensures leaves { Leaves (dest ∷ []) space.old space.new }
{
    let count = wrap(space.get(count));
    if let (Some(to), Some(number)) = (space.list_spot(dest), space.spot(value)) {
        return store_copies(alloc, space, dest, to, number, count);
    }
    let one = flat_of(alloc, space, value)?;
    let (size, _) = spelled_size(element_of(space, dest), one.as_slice());
    check_room(space, dest, u64::from(count), times(size, count))?;
    let flat = copies(alloc, count, one.as_slice())?;
    store(space, dest, &flat)
}

// How many elements sources give for a list, and what they take of the pool.
#[derive(Clone, Copy)]
struct Found {
    count: u64,
    size: Size,
}

// How many elements all sources give for a list, and what they take of the pool there.
fn measured(alloc: Global, space: &Space, dest: u16, sources: &[u16]) -> Result<Found, NoMemory>
    requires sound { AreSound space.now.vars }
    requires dest { IsSome (name_of space.now.vars dest) }
    requires of_list { is_list (shape_of space.now.vars dest) ≡ true }
    requires few { length sources.now < 2 ^ 16 }
    requires sources { All (λ i. IsSome (name_of space.now.vars i)) sources.now }
    requires fit { All (λ i. goes_into (shape_of space.now.vars dest) (shape_of space.now.vars i) ≡ true) sources.now }
    ensures { IfOk result (λ found. let vs = pieces_of space.now.vars dest sources.now in let s = element_shape (shape_of space.now.vars dest) in found ≡ record { count = length vs; size = size_of_each s (map (stored s) vs) }) }
{
    let element = element_of(space, dest);
    let mut count = 0;
    let mut size = NONE;
    for source in sources {
        let mut flat = Flat::new(alloc);
        let more = push_pieces(alloc, space, dest, *source, u32::MAX, &mut flat)?;
        size = size.plus(size_of_many(element, more, flat.as_slice()));
        count += u64::from(more);
    }
    Ok(Found { count, size })
}

// The shape of a list's elements.
fn element_of(space: &Space, list: u16) -> &Shape
    requires { is_list (shape_of space.now.vars list) ≡ true }
    ensures { tree result.now ≡ element_shape (shape_of space.now.vars list) }
{
    match space.shape(list) {
        Some(Shape::List(_, element)) => element,
        _ => unreachable!(),
    }
}

// The size of `count` values of a shape that the numbers begin with.
fn size_of_many(shape: &Shape, count: u32, from: &[i64]) -> Size
    requires { IsCountable (size_of_each (tree shape.now) (many_filled (tree shape.now) count from.now)) }
    ensures { result ≡ size_of_each (tree shape.now) (many_filled (tree shape.now) count from.now) }
{
    let mut sum = NONE;
    let mut left = from;
    for _ in 0..count {
        let (one, rest) = spelled_size(shape, left);
        sum = sum.plus(one);
        left = rest;
    }
    sum
}

// The flat form of the list of what all sources give, which has `count` elements.
fn joined(
    alloc: Global,
    space: &Space,
    dest: u16,
    sources: &[u16],
    count: u64,
) -> Result<Flat, NoMemory>
    requires sound { AreSound space.now.vars }
    requires of_list { is_list (shape_of space.now.vars dest) ≡ true }
    requires few { count < 2 ^ 63 }
    requires sources { All (λ i. IsSome (name_of space.now.vars i)) sources.now }
    requires fit { All (λ i. goes_into (shape_of space.now.vars dest) (shape_of space.now.vars i) ≡ true) sources.now }
    requires count { count ≡ length (pieces_of space.now.vars dest sources.now) }
    ensures { IfOk result (λ flat. flat ≡ flat_form (list_of (pieces_of space.now.vars dest sources.now))) }
{
    let mut flat = Flat::new(alloc);
    flat.push(count as i64)?;
    for source in sources {
        push_pieces(alloc, space, dest, *source, u32::MAX, &mut flat)?;
    }
    Ok(flat)
}

// The size of `count` values of one size.
fn times(size: Size, count: u32) -> Size
    requires lists { size.lists < 2 ^ 31 }
    requires bytes { size.bytes < 2 ^ 32 }
    ensures { result ≡ record { lists = count * size.lists; bytes = count * size.bytes } }
{
    let count = u64::from(count);
    Size {
        lists: count * size.lists,
        bytes: count * size.bytes,
    }
}

// The flat form of the list of `count` copies of a value that has this flat form.
fn copies(alloc: Global, count: u32, one: &[i64]) -> Result<Flat, NoMemory>
    ensures { IfOk result (λ flat. flat ≡ pos count ∷ flat_map (λ zs. zs) (replicate count one.now)) }
{
    let mut flat = Flat::new(alloc);
    flat.push(i64::from(count))?;
    for _ in 0..count {
        flat.append(one)?;
    }
    Ok(flat)
}
