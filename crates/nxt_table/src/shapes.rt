// The shapes that a table spells.

ghost use Rattle.std.specs.Prelude.{◌≡◌, ◌++◌, map, reverse, take, drop, length, slice_index, option_map, IfOk, OnOk};
ghost use Rattle.nxt_types.specs.Shapes.{outline, tree};
ghost use Rattle.nxt_types.specs.Tables.{trees_of};
ghost use Rattle.nxt_table.specs.Inside.Items.{item};
ghost use Rattle.nxt_table.specs.Inside.Shaping.{stacked, first_shape as first_tree, outside_shapes as shapes_outside};

use crate::enclosing::NestedEntry;
use crate::item::{Item, item_of};
use nxt_types::NoMemory;
use nxt_types::shape::Shape;
use nxt_types::toc::copy_of;
use std::alloc::Global;
use std::collections::VecDeque;

/// The shape at each entry that stands in no array's element, by the entries' strides.
pub fn outside_shapes(
    alloc: Global,
    placed: &[NestedEntry],
    strides: &[u32],
) -> Result<Vec<Option<Shape>>, NoMemory>
    requires { length strides.now ≡ length placed.now }
    ensures { IfOk result (λ shapes. trees_of shapes.items ≡ shapes_outside (slice_index strides.now) 0 placed.now) }
{
    let mut stack: VecDeque<Shape> = VecDeque::new(alloc);
    let mut shapes: Vec<Option<Shape>> = Vec::new(alloc);
    let mut left = placed.len();
    while left > 0 {
        left -= 1;
        let place = placed[left];
        stack_item(alloc, &mut stack, strides[left], item_of(&place.entry))?;
        let shape = if place.array.is_none() {
            copy_of_first(alloc, &stack)?
        } else {
            None
        };
        shapes.push(shape)?;
    }
    shapes.reverse();
    Ok(shapes)
}

fn copy_of_first(alloc: Global, stack: &VecDeque<Shape>) -> Result<Option<Shape>, NoMemory>
    ensures { IfOk result (λ shape. option_map tree shape ≡ first_tree (map tree stack.now.items)) }
{
    match stack.front() {
        Some(shape) => Ok(Some(copy_of(alloc, shape)?)),
        None => Ok(None),
    }
}

// Puts the shape of an item in front, made of those behind it. An array gets this stride.
fn stack_item(
    alloc: Global,
    stack: &mut VecDeque<Shape>,
    stride: u32,
    item: Option<Item>,
) -> Result<(), NoMemory>
    ensures { OnOk result (map tree stack.new.items ≡ stacked stride item (map tree stack.old.items)) }
{
    let shape = match item {
        None => return Ok(()),
        Some(Item::Void) => Shape::Void,
        Some(Item::Number(kind)) => Shape::Num(kind),
        Some(Item::Array) => match stack.pop_front() {
            Some(element) => Shape::list(alloc, stride, element)?,
            None => return Ok(()),
        },
        Some(Item::Cluster(members)) => Shape::group(take_first(alloc, stack, members)?),
        Some(Item::Mutex) => Shape::Mutex,
    };
    stack.push_front(shape)?;
    Ok(())
}

// Takes `count` shapes off the front, or all of them.
fn take_first(
    alloc: Global,
    stack: &mut VecDeque<Shape>,
    count: u16,
) -> Result<Vec<Shape>, NoMemory>
    ensures taken { IfOk result (λ shapes. map tree shapes.items ≡ take count (map tree stack.old.items)) }
    ensures left { OnOk result (map tree stack.new.items ≡ drop count (map tree stack.old.items)) }
{
    let mut shapes: Vec<Shape> = Vec::new(alloc);
    for _done in 0..count {
        match stack.pop_front() {
            Some(shape) => shapes.push(shape)?,
            None => break,
        }
    }
    Ok(shapes)
}
