// Values without lists as bytes.

ghost use Rattle.std.specs.Prelude.{◌≡◌, ℕ, ◌∷◌, ◌++◌, ◌==◌, ◌≤◌, [], true, false, drop, length, map, ◌<◌, IfOk, IsSome, MatchOption};
ghost use Rattle.nxt_types.specs.Calls.{is_text};
ghost use Rattle.nxt_types.specs.Shapes.{convertible, has_list, is_number, tree, members};
ghost use Rattle.nxt_model.specs.Devices.{Devices};
ghost use Rattle.nxt_model.specs.Means.Strings.{flatten as flatten_means, unflatten as unflatten_means};
ghost use Rattle.nxt_model.specs.Means.Text.{packed, packed_size, unpacked};
ghost use Rattle.nxt_model.specs.Values.{Num, flat as flat_form, stored};
ghost use Rattle.nxt_values.specs.Fills.{filled, first_of};
ghost use Rattle.nxt_values.specs.Sizes.{IsCountable, size_of_filled};
ghost use Rattle.nxt_space.specs.Keeping.{TableStays, Leaves};
ghost use Rattle.nxt_space.specs.Variables.{AreSound, name_of, shape_of, value_of, with_value};
ghost use Rattle.nxt_space.specs.Outcomes.{Does};
ghost use Rattle.nxt_space.specs.Spots.{IsSpot};
ghost use Rattle.nxt_operands.specs.Operands.{Done, given, given_or_left, place_of, place_or_none, values_stored};
ghost use Rattle.nxt_texts.specs.Numerals.{with_number};
ghost use Rattle.nxt_texts.specs.Packing.{packed_front, packed_fronts, Unpacks, UnpackAll, told_in, IsUnpacked, IsWordFound};
ghost use Rattle.nxt_texts.specs.Texts.{text_at};

use crate::operands::set_unless_left_out;
use crate::text::{store_text, text_of};
use nxt_operands::lists::first_word;
use nxt_operands::reading::flat_of;
use nxt_operands::storing::store;
use nxt_space::{Flat, OpFault, Space, Spot};
use nxt_types::kind::Kind;
use nxt_types::numbers::{extend, leaf_size, wrap};
use nxt_types::shape::Shape;
use nxt_types::{Bytes, NoMemory};
use std::alloc::Global;

// ---- packing

/// Stores the bytes of a value without lists, low bytes first and members in order, and a zero.
pub fn flatten(alloc: Global, space: &mut Space, dest: u16, value: u16) -> Result<(), OpFault>
    requires sound { AreSound space.old.vars }
    requires dest { IsSome (name_of space.old.vars dest) }
    requires value { IsSome (name_of space.old.vars value) }
    requires text { is_text (shape_of space.old.vars dest) ≡ true }
    requires no_list { has_list (shape_of space.old.vars value) ≡ false }
    ensures does { (d : Devices) → Does Done (values_stored space.old.vars (place_of space.old.vars dest ∷ []) (flatten_means d (given space.old.vars dest) (given space.old.vars value))) space.old result space.new }
    ensures leaves { Leaves (dest ∷ []) space.old space.new }
{
    if let Some(number) = space.spot(value) {
        let word = space.word(number).to_le_bytes();
        let size = leaf_size(number.kind()) as usize;
        return store_text(alloc, space, dest, &word[..size]);
    }
    let bytes = packed_of(alloc, space, value)?;
    store_text(alloc, space, dest, bytes.as_slice())
}

// The bytes of a value without lists.
fn packed_of(alloc: Global, space: &Space, i: u16) -> Result<Bytes, NoMemory>
    requires sound { AreSound space.now.vars }
    requires named { IsSome (name_of space.now.vars i) }
    requires no_list { has_list (shape_of space.now.vars i) ≡ false }
    ensures { IfOk result (λ bytes. bytes ≡ packed (shape_of space.now.vars i) (value_of space.now.vars i)) }
{
    let mut bytes = Bytes::new(alloc);
    let Some(shape) = space.shape(i) else {
        return Ok(bytes);
    };
    let flat = flat_of(alloc, space, i)?;
    pack(shape, flat.as_slice(), &mut bytes)?;
    Ok(bytes)
}

// Adds the bytes of the value that the numbers begin with, and gives the numbers behind it.
#[cycle(pack)]
fn pack<'a>(shape: &Shape, from: &'a [i64], into: &mut Bytes) -> Result<&'a [i64], NoMemory>
    ensures bytes { IfOk result (λ rest. into.new ≡ into.old ++ (packed_front (tree shape.now) from.now).0) }
    ensures rest { IfOk result (λ rest. rest.now ≡ (packed_front (tree shape.now) from.now).1) }
{
    match shape {
        Shape::Void | Shape::Mutex | Shape::List(..) => Ok(behind_first(from)),
        Shape::Num(kind) => {
            let word = wrap(first_number(from)).to_le_bytes();
            into.append(&word[..leaf_size(*kind) as usize])?;
            Ok(behind_first(from))
        }
        Shape::Group(members) => pack_members(members.items.as_slice(), from, into),
    }
}

#[cycle(pack)]
fn pack_members<'a>(
    shapes: &[Shape],
    from: &'a [i64],
    into: &mut Bytes,
) -> Result<&'a [i64], NoMemory>
    ensures bytes { IfOk result (λ rest. into.new ≡ into.old ++ (packed_fronts (members (map tree shapes.now)) from.now).0) }
    ensures rest { IfOk result (λ rest. rest.now ≡ (packed_fronts (members (map tree shapes.now)) from.now).1) }
{
    let mut left = from;
    for shape in shapes {
        left = pack(shape, left, into)?;
    }
    Ok(left)
}

// The first of the numbers, or 0.
fn first_number(from: &[i64]) -> i64
    ensures { result ≡ first_of from.now }
{
    match from.first() {
        Some(&x) => x,
        None => 0,
    }
}

// The numbers behind the first.
fn behind_first(from: &[i64]) -> &[i64]
    ensures { result.now ≡ drop 1 from.now }
{
    if from.is_empty() { from } else { &from[1..] }
}

// ---- unpacking

/// Stores the value of another one's shape that a text's front holds, and the error 0; or where the text is too short that
/// other value, and the error 1.
pub fn unflatten(
    alloc: Global,
    space: &mut Space,
    dest: u16,
    error: u16,
    source: u16,
    kind_of: u16,
) -> Result<(), OpFault>
    requires sound { AreSound space.old.vars }
    requires dest { IsSome (name_of space.old.vars dest) }
    requires source { IsSome (name_of space.old.vars source) }
    requires kind_of { IsSome (name_of space.old.vars kind_of) }
    requires error { (error == 0xFFFF) ≡ false → is_number (shape_of space.old.vars error) ≡ true }
    requires source_text { is_text (shape_of space.old.vars source) ≡ true }
    requires no_list { has_list (shape_of space.old.vars kind_of) ≡ false }
    requires fit { convertible (shape_of space.old.vars dest) (shape_of space.old.vars kind_of) ≡ true }
    ensures does { (d : Devices) → Does Done (values_stored space.old.vars (place_of space.old.vars dest ∷ place_or_none space.old.vars error ∷ []) (unflatten_means d (given space.old.vars dest) (given_or_left space.old.vars error) (given space.old.vars source) (given space.old.vars kind_of))) space.old result space.new }
    ensures leaves { Leaves (dest ∷ []) space.old space.new }
{
    if let Some(other) = space.spot(kind_of) {
        return unflatten_number(alloc, space, dest, error, source, other);
    }
    let found = value_in(alloc, space, source, kind_of)?;
    match found {
        Some(flat) => store_and_tell(space, dest, &flat, error, 0),
        None => {
            let flat = flat_of(alloc, space, kind_of)?;
            store_and_tell(space, dest, &flat, error, 1)
        }
    }
}

// The same where both values are numbers. It takes no memory where the text is lent.
fn unflatten_number(
    alloc: Global,
    space: &mut Space,
    dest: u16,
    error: u16,
    source: u16,
    other: Spot,
) -> Result<(), OpFault>
    requires sound { AreSound space.old.vars }
    requires source { IsSome (name_of space.old.vars source) }
    requires other { (i : ℕ) × IsSpot space.old.vars i other }
    requires dest { is_number (shape_of space.old.vars dest) ≡ true }
    requires error { (error == 0xFFFF) ≡ false → is_number (shape_of space.old.vars error) ≡ true }
    requires text { is_text (shape_of space.old.vars source) ≡ true }
    ensures does { (i : ℕ) → IsSpot space.old.vars i other → (d : Devices) → Does Done (values_stored space.old.vars (place_of space.old.vars dest ∷ place_or_none space.old.vars error ∷ []) (unflatten_means d (given space.old.vars dest) (given_or_left space.old.vars error) (given space.old.vars source) (given space.old.vars i))) space.old result space.new }
    ensures stays { TableStays space.old space.new }
{
    let found = word_in(alloc, space, source, other.kind())?;
    let Some(word) = found else {
        set_and_tell(space, dest, space.number(other), error, 1);
        return Ok(());
    };
    set_and_tell(space, dest, extend(other.kind(), word), error, 0);
    Ok(())
}

// Stores a number, and another one for an operand that may be left out.
fn set_and_tell(space: &mut Space, dest: u16, number: i64, error: u16, code: i64)
    requires dest { is_number (shape_of space.old.vars dest) ≡ true }
    requires error { (error == 0xFFFF) ≡ false → is_number (shape_of space.old.vars error) ≡ true }
    ensures value { space.new.vars ≡ with_number (record space.old.vars { values = with_value space.old.vars dest (stored (shape_of space.old.vars dest) (Num number)) }) error code }
    ensures stays { TableStays space.old space.new }
{
    space.set(dest, number);
    set_unless_left_out(space, error, code);
}

// The word of a number of a kind that a text begins with; none where it is too short.
fn word_in(alloc: Global, space: &Space, source: u16, kind: Kind) -> Result<Option<u32>, NoMemory>
    requires sound { AreSound space.now.vars }
    requires source { IsSome (name_of space.now.vars source) }
    requires text { is_text (shape_of space.now.vars source) ≡ true }
    ensures { IfOk result (λ found. IsWordFound kind (text_at space.now.vars source) found) }
{
    let text = text_of(alloc, space, source)?;
    Ok(word_at_front(kind, text.bytes()))
}

// The word of a number of a kind that the bytes begin with; none where there are too few.
fn word_at_front(kind: Kind, bytes: &[u8]) -> Option<u32>
    ensures { IsWordFound kind bytes.now result }
{
    if bytes.len() < leaf_size(kind) as usize {
        return None;
    }
    Some(first_word(kind, bytes))
}

// The flat form of the value of another one's shape that a text begins with; none where it is too short.
fn value_in(alloc: Global, space: &Space, source: u16, i: u16) -> Result<Option<Flat>, NoMemory>
    requires sound { AreSound space.now.vars }
    requires source { IsSome (name_of space.now.vars source) }
    requires text { is_text (shape_of space.now.vars source) ≡ true }
    requires named { IsSome (name_of space.now.vars i) }
    ensures { IfOk result (λ found. IsUnpacked (shape_of space.now.vars i) (text_at space.now.vars source) found) }
{
    let text = text_of(alloc, space, source)?;
    unpacked_of(alloc, space, i, text.bytes())
}

// The flat form of the value of another one's shape that the bytes begin with; none where there are too few.
fn unpacked_of(alloc: Global, space: &Space, i: u16, bytes: &[u8]) -> Result<Option<Flat>, NoMemory>
    requires { IsSome (name_of space.now.vars i) }
    ensures { IfOk result (λ found. IsUnpacked (shape_of space.now.vars i) bytes.now found) }
{
    let Some(shape) = space.shape(i) else {
        return Ok(None);
    };
    let mut flat = Flat::new(alloc);
    match unpack(shape, bytes, &mut flat)? {
        Some(_) => Ok(Some(flat)),
        None => Ok(None),
    }
}

// Adds the flat form of the value that the bytes begin with, and gives the bytes behind it; none where there are too few.
#[cycle(unpack)]
fn unpack<'a>(shape: &Shape, bytes: &'a [u8], into: &mut Flat) -> Result<Option<&'a [u8]>, NoMemory>
    ensures { IfOk result (Unpacks (tree shape.now) bytes.now into.old into.new) }
{
    match shape {
        Shape::Void | Shape::Mutex | Shape::List(..) => {
            into.push(0)?;
            Ok(Some(bytes))
        }
        Shape::Num(kind) => {
            let size = leaf_size(*kind) as usize;
            if bytes.len() < size {
                return Ok(None);
            }
            into.push(extend(*kind, first_word(*kind, bytes)))?;
            Ok(Some(&bytes[size..]))
        }
        Shape::Group(members) => unpack_members(members.items.as_slice(), bytes, into),
    }
}

#[cycle(unpack)]
fn unpack_members<'a>(
    shapes: &[Shape],
    bytes: &'a [u8],
    into: &mut Flat,
) -> Result<Option<&'a [u8]>, NoMemory>
    ensures { IfOk result (UnpackAll (members (map tree shapes.now)) bytes.now into.old into.new) }
{
    let mut left = bytes;
    for shape in shapes {
        match unpack(shape, left, into)? {
            Some(rest) => left = rest,
            None => return Ok(None),
        }
    }
    Ok(Some(left))
}

// Stores the value that the numbers begin with, and a number for an operand that may be left out.
fn store_and_tell(
    space: &mut Space,
    dest: u16,
    flat: &Flat,
    error: u16,
    told: i64,
) -> Result<(), OpFault>
    requires sound { AreSound space.old.vars }
    requires dest { IsSome (name_of space.old.vars dest) }
    requires error { (error == 0xFFFF) ≡ false → is_number (shape_of space.old.vars error) ≡ true }
    requires countable { IsCountable (size_of_filled (shape_of space.old.vars dest) flat.now) }
    ensures does { Does Done (told_in space.old.vars error told (with_value space.old.vars dest (filled (shape_of space.old.vars dest) flat.now).0)) space.old result space.new }
    ensures leaves { Leaves (dest ∷ []) space.old space.new }
{
    store(space, dest, flat)?;
    set_unless_left_out(space, error, told);
    Ok(())
}
