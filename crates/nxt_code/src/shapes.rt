// Tests of the shapes of operands. An operand that names nothing has no shape.

ghost use Rattle.std.specs.Prelude.{◌≡◌, false, map, MatchOption};
ghost use Rattle.nxt_types.specs.Shapes.{is_number as is_number_shape, has_list as has_list_shape, some_list, convertible as convertible_shapes, members as members_of, cluster_of, tree};
ghost use Rattle.nxt_types.specs.Calls.{is_text as is_text_shape, is_place as is_place_shape, is_cluster_of as is_cluster_of_call, are_fields as are_fields_of, is_field as is_field_of};
ghost use Rattle.nxt_types.specs.OperandRules.{element_of, is_group};
ghost use Rattle.nxt_operand_rules.specs.SeenOf.{seen_by, seen_by_element};
ghost use Rattle.nxt_code.specs.OperandsSeen.{shape_seen};

use nxt_operand_rules::Seen;
use nxt_types::calls::{Call, Field};
use nxt_types::conversion::convertible;
use nxt_types::kind::Kind;
use nxt_types::shape::Shape;

/// What is seen of an operand that names a part of the shape.
pub fn seen(shape: Option<&Shape>) -> Seen
    ensures { result ≡ seen_by (shape_seen shape.entry) }
{
    match shape {
        None => Seen::Nothing,
        Some(Shape::Void) => Seen::Nothing,
        Some(Shape::Num(_)) => Seen::Number,
        Some(Shape::List(_, element)) => seen_list(element),
        Some(Shape::Group(_)) => Seen::Cluster,
        Some(Shape::Mutex) => Seen::Mutex,
    }
}

// The same of a list, by its elements.
fn seen_list(element: &Shape) -> Seen
    ensures { result ≡ seen_by_element (tree element.now) }
{
    match element {
        Shape::Num(Kind::Ubyte) => Seen::Text,
        Shape::Num(_) => Seen::Numbers,
        _ => Seen::List,
    }
}

/// The shape of a list's elements.
pub fn element(shape: Option<&Shape>) -> Option<&Shape>
    ensures { shape_seen result ≡ element_of (shape_seen shape.entry) }
{
    match shape {
        Some(Shape::List(_, element)) => Some(element),
        _ => None,
    }
}

/// Whether a value of the one can be stored in the other.
pub fn converts(to: Option<&Shape>, from: Option<&Shape>) -> bool
    ensures { result ≡ convertible_shapes (shape_seen to.entry) (shape_seen from.entry) }
{
    match to {
        Some(to) => match from {
            Some(from) => convertible(to, from),
            None => false,
        },
        None => false,
    }
}

// The members of a group.
fn members(shape: &Shape) -> Option<&[Shape]>
    ensures { MatchOption result (is_group (tree shape.now) ≡ false) (λ shapes. tree shape.now ≡ cluster_of (map tree shapes.now)) }
{
    match shape {
        Shape::Group(shapes) => Some(shapes.items.as_slice()),
        _ => None,
    }
}

/// Whether some list stands in it.
pub fn has_list(shape: Option<&Shape>) -> bool
    ensures { result ≡ has_list_shape (shape_seen shape.entry) }
{
    match shape {
        Some(shape) => holds_list(shape),
        None => false,
    }
}

#[cycle(lists)]
fn holds_list(shape: &Shape) -> bool
    ensures { result ≡ has_list_shape (tree shape.now) }
{
    match shape {
        Shape::List(..) => true,
        Shape::Group(shapes) => some_holds_list(shapes.items.as_slice()),
        Shape::Void | Shape::Num(_) | Shape::Mutex => false,
    }
}

#[cycle(lists)]
fn some_holds_list(shapes: &[Shape]) -> bool
    ensures { result ≡ some_list (members_of (map tree shapes.now)) }
{
    for shape in shapes {
        if holds_list(shape) {
            return true;
        }
    }
    false
}

/// Whether it is the cluster of a system call.
pub fn is_cluster_of(call: Call, shape: Option<&Shape>) -> bool
    ensures { result ≡ is_cluster_of_call call (shape_seen shape.entry) }
{
    let Some(shape) = shape else {
        return false;
    };
    match members(shape) {
        Some(members) => are_fields(call.fields(), members),
        None => false,
    }
}

fn are_fields(fields: &[Field], shapes: &[Shape]) -> bool
    ensures { result ≡ are_fields_of fields.now (members_of (map tree shapes.now)) }
{
    if fields.len() != shapes.len() {
        return false;
    }
    for i in 0..fields.len() {
        if !is_field(fields[i], &shapes[i]) {
            return false;
        }
    }
    true
}

fn is_field(field: Field, shape: &Shape) -> bool
    ensures { result ≡ is_field_of field (tree shape.now) }
{
    match field {
        Field::Number => is_number(shape),
        Field::Text => is_text(shape),
        Field::Place => is_place(shape),
    }
}

fn is_number(shape: &Shape) -> bool
    ensures { result ≡ is_number_shape (tree shape.now) }
{
    seen(Some(shape)).is_number()
}

// Whether it is a list of ubyte.
fn is_text(shape: &Shape) -> bool
    ensures { result ≡ is_text_shape (tree shape.now) }
{
    seen(Some(shape)).is_text()
}

// Whether it is a group of two numbers.
fn is_place(shape: &Shape) -> bool
    ensures { result ≡ is_place_shape (tree shape.now) }
{
    match members(shape) {
        Some(members) => are_two_numbers(members),
        None => false,
    }
}

fn are_two_numbers(shapes: &[Shape]) -> bool
    ensures { result ≡ is_place_shape (cluster_of (map tree shapes.now)) }
{
    match shapes {
        [x, y] => is_number(x) && is_number(y),
        _ => false,
    }
}
