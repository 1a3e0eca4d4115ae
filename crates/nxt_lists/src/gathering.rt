// The flat forms of values, and of elements of lists.

ghost use Rattle.std.specs.Prelude.{◌≡◌, ◌++◌, ◌<◌, ◌≤◌, true, pos, length, take, flat_map, slice_index_or, slice_range, IfOk, OnOk, IsSome};
ghost use Rattle.nxt_types.specs.OperandRules.{is_list, element_of, goes_into};
ghost use Rattle.nxt_types.specs.Shapes.{tree, convertible as convertible_shapes};
ghost use Rattle.nxt_model.specs.Means.Arrays.{pieces};
ghost use Rattle.nxt_model.specs.Values.{Num, elements, flat as flat_form};
ghost use Rattle.nxt_space.specs.Variables.{name_of, shape_of, value_of};
ghost use Rattle.nxt_operands.specs.Operands.{given};

use nxt_space::{Flat, Path, Space};
use nxt_types::NoMemory;
use nxt_types::conversion::convertible;
use nxt_types::shape::Shape;
use std::alloc::Global;

/// How many elements a list has.
pub fn length_of(alloc: Global, space: &Space, list: u16) -> u32
    requires { IsSome (name_of space.now.vars list) }
    ensures { result ≡ length (elements (value_of space.now.vars list)) }
{
    match space.list_spot(list) {
        Some(spot) => space.count(spot),
        None => space.length(&Path::whole(alloc, list)),
    }
}

/// Adds the flat form of a value.
pub fn push_value(alloc: Global, space: &Space, i: u16, flat: &mut Flat) -> Result<(), NoMemory>
    requires { IsSome (name_of space.now.vars i) }
    ensures { OnOk result (flat.new ≡ flat.old ++ flat_form (value_of space.now.vars i)) }
{
    space.gather(&Path::whole(alloc, i), flat)
}

/// Adds the flat form of a list's element.
pub fn push_element(
    alloc: Global,
    space: &Space,
    list: u16,
    k: u32,
    flat: &mut Flat,
) -> Result<(), NoMemory>
    requires named { IsSome (name_of space.now.vars list) }
    requires of_list { is_list (shape_of space.now.vars list) ≡ true }
    requires within { k < length (elements (value_of space.now.vars list)) }
    ensures { OnOk result (flat.new ≡ flat.old ++ flat_form (slice_index_or (elements (value_of space.now.vars list)) k (Num (pos 0)))) }
{
    let mut steps = Flat::new(alloc);
    steps.push(i64::from(k))?;
    let element = Path { var: list, steps };
    space.gather(&element, flat)
}

/// Adds the flat forms of a list's elements from one index up to another.
pub fn push_elements(
    alloc: Global,
    space: &Space,
    list: u16,
    from: u32,
    to: u32,
    flat: &mut Flat,
) -> Result<(), NoMemory>
    requires named { IsSome (name_of space.now.vars list) }
    requires of_list { is_list (shape_of space.now.vars list) ≡ true }
    requires ordered { from ≤ to }
    requires within { to ≤ length (elements (value_of space.now.vars list)) }
    ensures { OnOk result (flat.new ≡ flat.old ++ flat_map flat_form (slice_range (elements (value_of space.now.vars list)) from to)) }
{
    for k in from..to {
        push_element(alloc, space, list, k, flat)?;
    }
    Ok(())
}

/// Whether a value is an element for a list.
pub fn is_element(space: &Space, list: u16, value: u16) -> bool
    ensures { result ≡ convertible_shapes (element_of (shape_of space.now.vars list)) (shape_of space.now.vars value) }
{
    match (space.shape(list), space.shape(value)) {
        (Some(list), Some(value)) => has_element(list, value),
        _ => false,
    }
}

// Whether a value of the one shape is an element for a list of the other.
fn has_element(list: &Shape, value: &Shape) -> bool
    ensures { result ≡ convertible_shapes (element_of (tree list.now)) (tree value.now) }
{
    match list {
        Shape::List(_, element) => convertible(element, value),
        Shape::Void | Shape::Num(_) | Shape::Group(_) | Shape::Mutex => false,
    }
}

/// Adds the flat forms of what a value gives for a list, but of `most` elements at most: the value itself as one element, or
/// else its elements. Gives their number.
pub fn push_pieces(
    alloc: Global,
    space: &Space,
    list: u16,
    value: u16,
    most: u32,
    flat: &mut Flat,
) -> Result<u32, NoMemory>
    requires named { IsSome (name_of space.now.vars value) }
    requires of_list { is_list (shape_of space.now.vars list) ≡ true }
    requires fit { goes_into (shape_of space.now.vars list) (shape_of space.now.vars value) ≡ true }
    ensures count { IfOk result (λ n. n ≡ length (take most (pieces (shape_of space.now.vars list) (given space.now.vars value)))) }
    ensures flat { OnOk result (flat.new ≡ flat.old ++ flat_map flat_form (take most (pieces (shape_of space.now.vars list) (given space.now.vars value)))) }
{
    if !is_element(space, list, value) {
        let count = length_of(alloc, space, value).min(most);
        push_elements(alloc, space, value, 0, count, flat)?;
        return Ok(count);
    }
    if most == 0 {
        return Ok(0);
    }
    push_value(alloc, space, value, flat)?;
    Ok(1)
}
