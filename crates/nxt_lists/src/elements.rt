// Statements on the elements of one list.

ghost use Rattle.std.specs.Prelude.{◌≡◌, ◌∷◌, ◌<◌, ◌≤◌, [], true, pos, length, slice_index_or, slice_range, Ok, IfOk, IsSome};
ghost use Rattle.nxt_types.specs.OperandRules.{is_list, element_of, goes_into};
ghost use Rattle.nxt_types.specs.Shapes.{convertible, is_number};
ghost use Rattle.nxt_model.specs.Devices.{Devices};
ghost use Rattle.nxt_model.specs.Means.Arrays.{index as index_means, replace as replace_means, array_size as size_means, subset as subset_means, overwritten as overwritten_elements, pieces};
ghost use Rattle.nxt_model.specs.Values.{Num, elements, flat as flat_form, list_of};
ghost use Rattle.nxt_space.specs.Keeping.{TableStays, Leaves};
ghost use Rattle.nxt_space.specs.Variables.{AreSound, name_of, shape_of, value_of};
ghost use Rattle.nxt_space.specs.Outcomes.{Does};
ghost use Rattle.nxt_operands.specs.Operands.{Done, given, given_or_left, place_of, values_stored};

use crate::gathering::{length_of, push_element, push_elements, push_pieces};
use crate::inner::{copy_element, list_and_lists, put_element};
use crate::joining::Piece;
use crate::numbers::{replace_number, replace_numbers, store_section};
use nxt_operands::lists::{lists_of_a_kind, pick};
use nxt_operands::operands::word_or;
use nxt_operands::storing::store;
use nxt_space::{Flat, OpFault, Space};
use nxt_types::NoMemory;
use std::alloc::Global;

/// Stores the element of a list at an index (0 where it is left out), or past the list's end the zero value.
pub fn index(alloc: Global, space: &mut Space, dest: u16, list: u16, at: u16) -> Result<(), OpFault>
    requires sound { AreSound space.old.vars }
    requires dest { IsSome (name_of space.old.vars dest) }
    requires list { IsSome (name_of space.old.vars list) }
    requires of_list { is_list (shape_of space.old.vars list) ≡ true }
    requires fit { convertible (shape_of space.old.vars dest) (element_of (shape_of space.old.vars list)) ≡ true }
    ensures does { (d : Devices) → Does Done (values_stored space.old.vars (place_of space.old.vars dest ∷ []) (index_means d (given space.old.vars dest) (given space.old.vars list) (given_or_left space.old.vars at))) space.old result space.new }
    ensures leaves { Leaves (dest ∷ []) space.old space.new }
{
    let k = word_or(space, at, 0);
    if let (Some(number), Some(numbers)) = (space.spot(dest), space.list_spot(list)) {
        pick(space, number, numbers, k);
        return Ok(());
    }
    if let Some((to, lists)) = list_and_lists(space, dest, list) {
        return copy_element(space, to, lists, k);
    }
    let flat = element_or_none(alloc, space, list, k)?;
    store(space, dest, &flat)
}

// The flat form of a list's element, or no numbers past the list's end.
fn element_or_none(alloc: Global, space: &Space, list: u16, k: u32) -> Result<Flat, NoMemory>
    requires named { IsSome (name_of space.now.vars list) }
    requires of_list { is_list (shape_of space.now.vars list) ≡ true }
    ensures within { k < length (elements (value_of space.now.vars list)) → IfOk result (λ flat. flat ≡ flat_form (slice_index_or (elements (value_of space.now.vars list)) k (Num (pos 0)))) }
    ensures past { length (elements (value_of space.now.vars list)) ≤ k → IfOk result (λ flat. flat ≡ []) }
{
    let mut flat = Flat::new(alloc);
    if k < length_of(alloc, space, list) {
        push_element(alloc, space, list, k, &mut flat)?;
    }
    Ok(flat)
}

/// Stores a list with an element, or with its elements from an index on (0 where it is left out), replaced by others.
pub fn replace(
    alloc: Global,
    space: &mut Space,
    dest: u16,
    list: u16,
    at: u16,
    new: u16,
) -> Result<(), OpFault>
    requires sound { AreSound space.old.vars }
    requires dest { IsSome (name_of space.old.vars dest) }
    requires list { IsSome (name_of space.old.vars list) }
    requires new { IsSome (name_of space.old.vars new) }
    requires of_list { is_list (shape_of space.old.vars list) ≡ true }
    requires fit { convertible (shape_of space.old.vars dest) (shape_of space.old.vars list) ≡ true }
    requires goes { goes_into (shape_of space.old.vars list) (shape_of space.old.vars new) ≡ true }
    ensures does { (d : Devices) → Does Done (values_stored space.old.vars (place_of space.old.vars dest ∷ []) (replace_means d (given space.old.vars dest) (given space.old.vars list) (given_or_left space.old.vars at) (given space.old.vars new))) space.old result space.new }
    ensures leaves { Leaves (dest ∷ []) space.old space.new }
{
    let k = word_or(space, at, 0);
    if let Some(spots) = lists_of_a_kind(space, dest, list) {
        match Piece::at(space, spots.0.kind(), new) {
            Some(Piece::Single(number)) => {
                return replace_number(space, dest, list, spots, k, number);
            }
            Some(Piece::Each(numbers)) => return replace_numbers(alloc, space, spots, k, numbers),
            None => {}
        }
    }
    if dest == list {
        if let Some((numbers, lists)) = list_and_lists(space, new, list) {
            return put_element(space, lists, k, numbers);
        }
    }
    let flat = overwritten(alloc, space, list, k, new)?;
    store(space, dest, &flat)
}

// The flat form of a list with others in place of its elements from an index on, as many as fit.
fn overwritten(alloc: Global, space: &Space, list: u16, at: u32, new: u16) -> Result<Flat, NoMemory>
    requires list { IsSome (name_of space.now.vars list) }
    requires new { IsSome (name_of space.now.vars new) }
    requires of_list { is_list (shape_of space.now.vars list) ≡ true }
    requires goes { goes_into (shape_of space.now.vars list) (shape_of space.now.vars new) ≡ true }
    ensures { IfOk result (λ flat. flat ≡ flat_form (list_of (overwritten_elements (elements (value_of space.now.vars list)) at (pieces (shape_of space.now.vars list) (given space.now.vars new))))) }
{
    let length = length_of(alloc, space, list);
    let from = at.min(length);
    let mut flat = Flat::new(alloc);
    flat.push(i64::from(length))?;
    push_elements(alloc, space, list, 0, from, &mut flat)?;
    let count = push_pieces(alloc, space, list, new, length - from, &mut flat)?;
    push_elements(alloc, space, list, from + count, length, &mut flat)?;
    Ok(flat)
}

/// Stores the length of a list in a number. It takes no memory.
pub fn array_size(alloc: Global, space: &mut Space, dest: u16, list: u16)
    requires sound { AreSound space.old.vars }
    requires dest { IsSome (name_of space.old.vars dest) }
    requires list { IsSome (name_of space.old.vars list) }
    requires number { is_number (shape_of space.old.vars dest) ≡ true }
    ensures does { (d : Devices) → Does Done (values_stored space.old.vars (place_of space.old.vars dest ∷ []) (size_means d (given space.old.vars dest) (given space.old.vars list))) space.old (Ok tt) space.new }
    ensures stays { TableStays space.old space.new }
{
    space.set(dest, i64::from(length_of(alloc, space, list)));
}

/// Stores the elements of a list from an index on (0 where it is left out), up to a number of them (all where it is left out).
pub fn subset(
    alloc: Global,
    space: &mut Space,
    dest: u16,
    list: u16,
    at: u16,
    count: u16,
) -> Result<(), OpFault>
    requires sound { AreSound space.old.vars }
    requires dest { IsSome (name_of space.old.vars dest) }
    requires list { IsSome (name_of space.old.vars list) }
    requires of_list { is_list (shape_of space.old.vars list) ≡ true }
    requires fit { convertible (shape_of space.old.vars dest) (shape_of space.old.vars list) ≡ true }
    ensures does { (d : Devices) → Does Done (values_stored space.old.vars (place_of space.old.vars dest ∷ []) (subset_means d (given space.old.vars dest) (given space.old.vars list) (given_or_left space.old.vars at) (given_or_left space.old.vars count))) space.old result space.new }
    ensures leaves { Leaves (dest ∷ []) space.old space.new }
{
    let length = length_of(alloc, space, list);
    let from = word_or(space, at, 0).min(length);
    let count = word_or(space, count, length).min(length - from);
    if let Some((to, numbers)) = lists_of_a_kind(space, dest, list) {
        return store_section(alloc, space, to, numbers, from, from + count);
    }
    let flat = list_between(alloc, space, list, from, from + count)?;
    store(space, dest, &flat)
}

// The flat form of the list of a list's elements from one index up to another.
fn list_between(
    alloc: Global,
    space: &Space,
    list: u16,
    from: u32,
    to: u32,
) -> Result<Flat, NoMemory>
    requires named { IsSome (name_of space.now.vars list) }
    requires of_list { is_list (shape_of space.now.vars list) ≡ true }
    requires ordered { from ≤ to }
    requires within { to ≤ length (elements (value_of space.now.vars list)) }
    ensures { IfOk result (λ flat. flat ≡ flat_form (list_of (slice_range (elements (value_of space.now.vars list)) from to))) }
{
    let mut flat = Flat::new(alloc);
    flat.push(i64::from(to - from))?;
    push_elements(alloc, space, list, from, to, &mut flat)?;
    Ok(flat)
}
