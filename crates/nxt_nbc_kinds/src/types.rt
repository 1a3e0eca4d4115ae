// Tests of the types of operands. An operand that is no part has no type.

ghost use Rattle.std.specs.Prelude.{◌≡◌, false, List, map, MatchOption};
ghost use Rattle.nxt_types.specs.Shapes.{cluster_of, convertible, has_list as has_list_shape, is_number as is_number_shape, members as members_of};
ghost use Rattle.nxt_types.specs.Calls.{are_fields as are_fields_of, is_cluster_of as is_cluster_of_call, is_field as is_field_of, is_place as is_place_shape, is_text as is_text_shape};
ghost use Rattle.nxt_types.specs.OperandRules.{element_of, goes_into as goes_into_list, is_group, is_list as is_list_shape};
ghost use Rattle.nxt_operand_rules.specs.SeenOf.{seen_by, seen_by_element};
ghost use Rattle.nxt_model.specs.TextProgram.{base_shape, shape_by};
ghost use Rattle.nxt_model.specs.Nbc.Types.{Struct as TextStruct, type_shapes};
ghost use Rattle.nxt_model.specs.Nbc.Structs.{Types};
ghost use Rattle.nxt_nbc_names.specs.StructsSeen.{structs_seen};
ghost use Rattle.nxt_nbc_kinds.specs.ConvertingStructs.{AreConversions};
ghost use Rattle.nxt_nbc_kinds.specs.OperandsSeen.{shape_among, shape_seen};
ghost use Rattle.nxt_nbc_kinds.specs.TypeParts.{single_base as single_base_of, struct_position as struct_position_of};

use crate::conversions::Conversions;
use nxt_model::nbc::{NbcBase, NbcType};
use nxt_nbc_names::{Member, Struct, StructTable};
use nxt_operand_rules::Seen;
use nxt_types::calls::{Call, Field};
use nxt_types::kind::Kind;

// ---- what is seen

/// What is seen of an operand that is a part of the type, among structs.
#[tactic(auto, using(crate::proofs::TypeTests::lists_seen))]
pub fn seen(structs: &[Struct<'_>], shape: NbcType) -> Seen
    ensures { result ≡ seen_by (shape_by (type_shapes (structs_seen structs.now)) shape) }
{
    match shape.arrays {
        0 => seen_base(structs, shape.base),
        1 => seen_list(shape.base),
        _ => Seen::List,
    }
}

fn seen_base(structs: &[Struct<'_>], base: NbcBase) -> Seen
    ensures { result ≡ seen_by (base_shape (type_shapes (structs_seen structs.now)) base) }
{
    match base {
        NbcBase::Number(_) => Seen::Number,
        NbcBase::Mutex => Seen::Mutex,
        NbcBase::Struct(position) => {
            if position < structs.len() {
                Seen::Cluster
            } else {
                Seen::Nothing
            }
        }
    }
}

// What is seen of a list, by the base of its elements.
#[tactic(auto, using(crate::proofs::TypeTests::list_by_base))]
fn seen_list(base: NbcBase) -> Seen
    ensures { (ds : List TextStruct) → result ≡ seen_by_element (base_shape (type_shapes ds) base) }
{
    match base {
        NbcBase::Number(Kind::Ubyte) => Seen::Text,
        NbcBase::Number(_) => Seen::Numbers,
        NbcBase::Mutex | NbcBase::Struct(_) => Seen::List,
    }
}

fn is_number(structs: &[Struct<'_>], shape: NbcType) -> bool
    ensures { result ≡ is_number_shape (shape_by (type_shapes (structs_seen structs.now)) shape) }
{
    seen(structs, shape).is_number()
}

// Whether it is a list of ubyte.
fn is_text(structs: &[Struct<'_>], shape: NbcType) -> bool
    ensures { result ≡ is_text_shape (shape_by (type_shapes (structs_seen structs.now)) shape) }
{
    seen(structs, shape).is_text()
}

// ---- parts

/// The base of a type that is no array.
pub fn single_base(shape: Option<NbcType>) -> Option<NbcBase>
    ensures { result ≡ single_base_of shape }
{
    match shape {
        Some(shape) if shape.arrays == 0 => Some(shape.base),
        _ => None,
    }
}

#[tactic(auto, using(crate::proofs::TypeTests::list_by_arrays))]
pub fn is_list(shape: Option<NbcType>) -> bool
    ensures { (t : Types) → result ≡ is_list_shape (shape_seen t shape) }
{
    match shape {
        Some(shape) => shape.arrays > 0,
        None => false,
    }
}

/// The type of a list's elements.
#[tactic(auto, using(crate::proofs::TypeTests::element_none))]
pub fn element(shape: Option<NbcType>) -> Option<NbcType>
    ensures { (t : Types) → shape_seen t result ≡ element_of (shape_seen t shape) }
{
    match shape {
        Some(shape) if shape.arrays > 0 => Some(NbcType {
            base: shape.base,
            arrays: shape.arrays - 1,
        }),
        _ => None,
    }
}

/// Whether some list stands in it.
pub fn has_list(structs: &StructTable<'_>, shape: Option<NbcType>) -> bool
    ensures { result ≡ has_list_shape (shape_seen structs.now shape) }
{
    match shape {
        Some(shape) => structs.extent(shape).has_list,
        None => false,
    }
}

/// Whether a value of the one can be stored in the other.
pub fn converts(conversions: &Conversions, to: Option<NbcType>, from: Option<NbcType>) -> bool
    ensures { (t : Types) → AreConversions t conversions.now → result ≡ convertible (shape_seen t to) (shape_seen t from) }
{
    match (to, from) {
        (Some(to), Some(from)) => conversions.converts(to, from),
        _ => false,
    }
}

/// Whether a value is an element for a list, or a list that converts to it.
pub fn goes_into(conversions: &Conversions, list: Option<NbcType>, from: Option<NbcType>) -> bool
    ensures { (t : Types) → AreConversions t conversions.now → result ≡ goes_into_list (shape_seen t list) (shape_seen t from) }
{
    converts(conversions, element(list), from) || converts(conversions, list, from)
}

// ---- clusters

/// A struct's members, behind the structs before it.
#[derive(Clone, Copy)]
struct StructParts<'s, 'a> {
    before: &'s [Struct<'a>],
    members: &'s [Member<'a>],
}

// The position of a struct.
fn struct_position(shape: Option<NbcType>) -> Option<usize>
    ensures { result ≡ struct_position_of shape }
{
    match single_base(shape) {
        Some(NbcBase::Struct(position)) => Some(position),
        Some(NbcBase::Number(_) | NbcBase::Mutex) | None => None,
    }
}

// A struct's members, behind the structs before it.
fn parts<'s, 'a>(structs: &'s [Struct<'a>], shape: Option<NbcType>) -> Option<StructParts<'s, 'a>>
    ensures { let whole = shape_among (structs_seen structs.now) shape in
        MatchOption result (is_group whole ≡ false) (λ r. whole ≡ cluster_of (map (λ m. shape_by (type_shapes (structs_seen r.before.now)) m.shape) r.members.now)) }
{
    let Some(position) = struct_position(shape) else {
        return None;
    };
    match structs.get(position) {
        Some(found) => Some(StructParts {
            before: &structs[..position],
            members: found.members.as_slice(),
        }),
        None => None,
    }
}

/// Whether it is the cluster of a system call.
pub fn is_cluster_of(structs: &StructTable<'_>, call: Call, shape: Option<NbcType>) -> bool
    ensures { result ≡ is_cluster_of_call call (shape_seen structs.now shape) }
{
    match parts(structs.as_slice(), shape) {
        Some(parts) => are_fields(call.fields(), parts.before, parts.members),
        None => false,
    }
}

// Whether members, behind structs, are those of a call's cluster.
fn are_fields(fields: &[Field], structs: &[Struct<'_>], members: &[Member<'_>]) -> bool
    ensures { result ≡ are_fields_of fields.now (members_of (map (λ m. shape_by (type_shapes (structs_seen structs.now)) m.shape) members.now)) }
{
    if fields.len() != members.len() {
        return false;
    }
    for i in 0..fields.len() {
        if !is_field(fields[i], structs, members[i].shape) {
            return false;
        }
    }
    true
}

fn is_field(field: Field, structs: &[Struct<'_>], shape: NbcType) -> bool
    ensures { result ≡ is_field_of field (shape_by (type_shapes (structs_seen structs.now)) shape) }
{
    match field {
        Field::Number => is_number(structs, shape),
        Field::Text => is_text(structs, shape),
        Field::Place => is_place(structs, shape),
    }
}

// Whether it is a struct of two numbers.
fn is_place(structs: &[Struct<'_>], shape: NbcType) -> bool
    ensures { result ≡ is_place_shape (shape_by (type_shapes (structs_seen structs.now)) shape) }
{
    match parts(structs, Some(shape)) {
        Some(parts) => are_two_numbers(parts.before, parts.members),
        None => false,
    }
}

fn are_two_numbers(structs: &[Struct<'_>], members: &[Member<'_>]) -> bool
    ensures { result ≡ is_place_shape (cluster_of (map (λ m. shape_by (type_shapes (structs_seen structs.now)) m.shape) members.now)) }
{
    match members {
        [x, y] => is_number(structs, x.shape) && is_number(structs, y.shape),
        _ => false,
    }
}
