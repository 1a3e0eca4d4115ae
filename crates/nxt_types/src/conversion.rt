// Which values can be stored in a variable.

ghost use Rattle.std.specs.Prelude.{◌≡◌, map};
ghost use Rattle.nxt_types.specs.Shapes.{tree, members, convertible as convertible_shapes, convertible_members};

use crate::shape::Shape;

/// Whether a value of the one shape can be stored in a variable of the other: both are numbers, or lists of such
/// elements, or groups of as many such members.
#[cycle(convertible)]
pub fn convertible(to: &Shape, from: &Shape) -> bool
    ensures { result ≡ convertible_shapes (tree to.now) (tree from.now) }
{
    match to {
        Shape::Num(_) => matches!(from, Shape::Num(_)),
        Shape::List(_, to) => match from {
            Shape::List(_, from) => convertible(to, from),
            _ => false,
        },
        Shape::Group(to) => match from {
            Shape::Group(from) => are_convertible(to.items.as_slice(), from.items.as_slice()),
            _ => false,
        },
        Shape::Void | Shape::Mutex => false,
    }
}

#[cycle(convertible)]
fn are_convertible(to: &[Shape], from: &[Shape]) -> bool
    ensures { result ≡ convertible_members (members (map tree to.now)) (members (map tree from.now)) }
{
    if to.len() != from.len() {
        return false;
    }
    for i in 0..to.len() {
        if !convertible(&to[i], &from[i]) {
            return false;
        }
    }
    true
}
