// What the operands of a statement name.

ghost use Rattle.std.specs.Prelude.{◌≡◌};
ghost use Rattle.nxt_types.specs.Shapes.{tree, is_number as is_number_shape};
ghost use Rattle.nxt_model.specs.Means.Effects.{element, word_or as word_or_else};
ghost use Rattle.nxt_model.specs.Means.Numbers.{signed_kind};
ghost use Rattle.nxt_space.specs.Variables.{shape_of};
ghost use Rattle.nxt_operands.specs.Operands.{given_or_left, stride_of};

use nxt_space::Space;
use nxt_types::numbers::{is_signed, wrap};
use nxt_types::shape::Shape;
use nxt_types::words::LEFT_OUT;

/// The word of the number that begins at an entry, or another one where the operand is left out.
pub fn word_or(space: &Space, i: u16, other: u32) -> u32
    ensures { result ≡ word_or_else other (given_or_left space.now.vars i) }
{
    if i == LEFT_OUT {
        other
    } else {
        wrap(space.get(i))
    }
}

/// How many bytes the elements of the list that begins at an entry stand apart.
pub fn stride_at(space: &Space, i: u16) -> u32
    ensures { result ≡ stride_of (shape_of space.now.vars i) }
{
    match space.shape(i) {
        Some(shape) => stride(shape),
        None => 0,
    }
}

fn stride(shape: &Shape) -> u32
    ensures { result ≡ stride_of (tree shape.now) }
{
    match shape {
        Shape::List(stride, _) => *stride,
        Shape::Void | Shape::Num(_) | Shape::Group(_) | Shape::Mutex => 0,
    }
}

/// Whether a number begins at an entry.
pub fn is_number(space: &Space, i: u16) -> bool
    ensures { result ≡ is_number_shape (shape_of space.now.vars i) }
{
    matches!(space.shape(i), Some(Shape::Num(_)))
}

/// Whether a number of a signed kind begins at an entry.
pub fn has_sign(space: &Space, i: u16) -> bool
    ensures { result ≡ signed_kind (shape_of space.now.vars i) }
{
    match space.shape(i) {
        Some(shape) => is_of_signed_kind(shape),
        None => false,
    }
}

/// Whether the elements of the list that begins at an entry are numbers of a signed kind.
pub fn has_signed_elements(space: &Space, i: u16) -> bool
    ensures { result ≡ signed_kind (element (shape_of space.now.vars i)) }
{
    match space.shape(i) {
        Some(shape) => is_of_signed_kind(element_of(shape)),
        None => false,
    }
}

// Whether it is a number of a signed kind.
fn is_of_signed_kind(shape: &Shape) -> bool
    ensures { result ≡ signed_kind (tree shape.now) }
{
    match shape {
        Shape::Num(kind) => is_signed(*kind),
        Shape::Void | Shape::List(..) | Shape::Group(_) | Shape::Mutex => false,
    }
}

// The shape of a list's elements; a number stands for each element.
fn element_of(shape: &Shape) -> &Shape
    ensures { tree result.now ≡ element (tree shape.now) }
{
    match shape {
        Shape::List(_, element) => element,
        Shape::Void | Shape::Num(_) | Shape::Group(_) | Shape::Mutex => shape,
    }
}
