// Tests of shapes.

ghost use Rattle.std.specs.Prelude.{◌≡◌, map};
ghost use Rattle.nxt_types.specs.Shapes.{tree, members, is_number as is_number_shape, has_list as has_list_shape, some_list as some_list_among};
ghost use Rattle.nxt_values.specs.Writes.{has_inner_list as has_inner_list_shape};

use nxt_types::shape::Shape;

/// Whether it is a number's.
pub fn is_number(shape: &Shape) -> bool
    ensures { result ≡ is_number_shape (tree shape.now) }
{
    matches!(shape, Shape::Num(_))
}

/// Whether some list stands in a value of the shape.
#[cycle(lists)]
pub fn has_list(shape: &Shape) -> bool
    ensures { result ≡ has_list_shape (tree shape.now) }
{
    match shape {
        Shape::List(..) => true,
        Shape::Group(shapes) => some_list(shapes.items.as_slice()),
        Shape::Void | Shape::Num(_) | Shape::Mutex => false,
    }
}

#[cycle(lists)]
fn some_list(shapes: &[Shape]) -> bool
    ensures { result ≡ some_list_among (members (map tree shapes.now)) }
{
    for shape in shapes {
        if has_list(shape) {
            return true;
        }
    }
    false
}

/// Whether some list stands in a part of a value of the shape.
pub fn has_inner_list(shape: &Shape) -> bool
    ensures { result ≡ has_inner_list_shape (tree shape.now) }
{
    match shape {
        Shape::List(_, element) => has_list(element),
        Shape::Group(shapes) => some_list(shapes.items.as_slice()),
        Shape::Void | Shape::Num(_) | Shape::Mutex => false,
    }
}
