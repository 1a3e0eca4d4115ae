// Sizes that are tested as the sum goes on.

ghost use Rattle.std.specs.Prelude.{◌≡◌, ◌+◌, ◌*◌, drop, map, nat_abs, IfSome};
ghost use Rattle.nxt_types.specs.Shapes.{tree, members};
ghost use Rattle.nxt_types.specs.Pool.{round4 as rounded};
ghost use Rattle.nxt_values.specs.Fills.{filled, all_filled, first_of};
ghost use Rattle.nxt_values.specs.Sizes.{size_of_filled, size_of_all_filled};

use nxt_types::shape::Shape;
use nxt_values::sizing::{NONE, Size};

// The first of the numbers as a count; a missing one is 0.
fn first_count(from: &[i64]) -> u64
    ensures { result ≡ nat_abs (first_of from.now) }
{
    match from.first() {
        Some(x) => x.unsigned_abs(),
        None => 0,
    }
}

// The numbers behind the first.
fn behind(from: &[i64]) -> &[i64]
    ensures { result.now ≡ drop 1 from.now }
{
    if from.is_empty() { from } else { &from[1..] }
}

// Both together.
fn both(a: Size, b: Size) -> Option<Size>
    ensures { IfSome result (λ sum. sum ≡ record { lists = a.lists + b.lists; bytes = a.bytes + b.bytes }) }
{
    Some(Size {
        lists: a.lists.checked_add(b.lists)?,
        bytes: a.bytes.checked_add(b.bytes)?,
    })
}

// With a list around, of `count` elements.
fn around(inner: Size, count: u64, stride: u32) -> Option<Size>
    ensures { IfSome result (λ sum. sum ≡ record { lists = inner.lists + 1; bytes = rounded (count * stride) + inner.bytes }) }
{
    let bytes = count.checked_mul(u64::from(stride))?.checked_add(3)?;
    Some(Size {
        lists: inner.lists.checked_add(1)?,
        bytes: (bytes / 4 * 4).checked_add(inner.bytes)?,
    })
}

/// The size of the value that the numbers begin with, and the numbers behind it; nothing where it is too large to tell.
#[cycle(counted)]
pub fn counted<'a>(shape: &Shape, from: &'a [i64]) -> Option<(Size, &'a [i64])>
    ensures size { IfSome result (λ x. x.0 ≡ size_of_filled (tree shape.now) from.now) }
    ensures rest { IfSome result (λ x. x.1.now ≡ (filled (tree shape.now) from.now).1) }
{
    match shape {
        Shape::Void | Shape::Mutex | Shape::Num(_) => Some((NONE, behind(from))),
        Shape::List(stride, element) => {
            let count = first_count(from);
            let mut inner = NONE;
            let mut left = behind(from);
            for _ in 0..count {
                let (one, rest) = counted(element, left)?;
                inner = both(inner, one)?;
                left = rest;
            }
            Some((around(inner, count, *stride)?, left))
        }
        Shape::Group(members) => counted_all(members.items.as_slice(), from),
    }
}

#[cycle(counted)]
fn counted_all<'a>(shapes: &[Shape], from: &'a [i64]) -> Option<(Size, &'a [i64])>
    ensures size { IfSome result (λ x. x.0 ≡ size_of_all_filled (members (map tree shapes.now)) from.now) }
    ensures rest { IfSome result (λ x. x.1.now ≡ (all_filled (members (map tree shapes.now)) from.now).1) }
{
    let mut sum = NONE;
    let mut left = from;
    for shape in shapes {
        let (one, rest) = counted(shape, left)?;
        sum = both(sum, one)?;
        left = rest;
    }
    Some((sum, left))
}
