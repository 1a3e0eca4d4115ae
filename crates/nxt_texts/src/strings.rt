// Statements from texts to texts.

ghost use Rattle.std.specs.Prelude.{◌≡◌, ℕ, ◌∷◌, ◌++◌, ◌+◌, ◌*◌, ◌<◌, ◌≤◌, ◌^◌, [], true, map, length, All, IfOk, IfSome, IsSome};
ghost use Rattle.nxt_types.specs.Calls.{is_text};
ghost use Rattle.nxt_types.specs.Pool.{pool_size};
ghost use Rattle.nxt_types.specs.declared.kind.Kind.TheVariants.{Ubyte};
ghost use Rattle.nxt_model.specs.Devices.{Devices};
ghost use Rattle.nxt_model.specs.Means.Effects.{word_or as word_or_else};
ghost use Rattle.nxt_model.specs.Means.Strings.{concatenate as concatenate_means, substring as substring_means, string_to_array as to_array_means, array_to_string as to_string_means};
ghost use Rattle.nxt_model.specs.Means.Text.{ended, section as section_of};
ghost use Rattle.nxt_space.specs.Keeping.{Leaves};
ghost use Rattle.nxt_space.specs.Variables.{AreSound, name_of, shape_of};
ghost use Rattle.nxt_space.specs.Outcomes.{Does};
ghost use Rattle.nxt_space.specs.Spots.{IsListSpot};
ghost use Rattle.nxt_operands.specs.Operands.{Done, given, given_or_left, place_of, values_stored};
ghost use Rattle.nxt_texts.specs.Texts.{StoresBytes, bodies_at, body_at, text_at};

use crate::text::{body, copied, final_zero, lent, section, store_bytes, store_text, text_of};
use nxt_operands::operands::word_or;
use nxt_operands::storing::check_room;
use nxt_space::{ListSpot, OpFault, Space};
use nxt_types::pool::POOL_BYTES;
use nxt_types::{Bytes, NoMemory};
use nxt_values::sizing::NONE;
use std::alloc::Global;

/// Stores the bodies of texts, one after another, and a zero.
pub fn concatenate(
    alloc: Global,
    space: &mut Space,
    dest: u16,
    sources: &[u16],
) -> Result<(), OpFault>
    requires sound { AreSound space.old.vars }
    requires dest { IsSome (name_of space.old.vars dest) }
    requires text { is_text (shape_of space.old.vars dest) ≡ true }
    requires few { length sources.now < 2 ^ 16 }
    requires sources { All (λ i. IsSome (name_of space.old.vars i)) sources.now }
    requires texts { All (λ i. is_text (shape_of space.old.vars i) ≡ true) sources.now }
    ensures does { (d : Devices) → Does Done (values_stored space.old.vars (place_of space.old.vars dest ∷ []) (concatenate_means d (given space.old.vars dest ∷ map (given space.old.vars) sources.now))) space.old result space.new }
    ensures leaves { Leaves (dest ∷ []) space.old space.new }
{
    if let Some((list, others)) = grown(space, dest, sources) {
        if bodies_length(alloc, space, others)? <= POOL_BYTES {
            return add_bodies(alloc, space, list, others);
        }
    }
    // Before bodies are put together that may be far longer than the pool it is asked.
    let length = bodies_length(alloc, space, sources)?;
    if length > POOL_BYTES {
        check_room(space, dest, length + 1, NONE)?;
    }
    let bytes = bodies(alloc, space, sources, length as usize)?;
    store_text(alloc, space, dest, bytes.as_slice())
}

// The spot of the destination, and the sources behind the first, where that is the destination itself.
fn grown<'a>(space: &Space, dest: u16, sources: &'a [u16]) -> Option<(ListSpot, &'a [u16])>
    ensures { IfSome result (λ p. IsListSpot space.now.vars dest p.0 × (sources.now ≡ dest ∷ p.1.now)) }
{
    match sources.split_first() {
        Some((first, others)) if *first == dest => Some((space.list_spot(dest)?, others)),
        _ => None,
    }
}

// Adds the bodies of texts to that of the text in a spot, whose own bytes stay where they are, and a zero.
fn add_bodies(
    alloc: Global,
    space: &mut Space,
    list: ListSpot,
    others: &[u16],
) -> Result<(), OpFault>
    requires sound { AreSound space.old.vars }
    requires list { (i : ℕ) × IsListSpot space.old.vars i list }
    requires text { list.kind ≡ Ubyte }
    requires few { length (bodies_at space.old.vars others.now) + 1 < 2 ^ 31 }
    requires sources { All (λ i. IsSome (name_of space.old.vars i)) others.now }
    requires texts { All (λ i. is_text (shape_of space.old.vars i) ≡ true) others.now }
    ensures stores { (i : ℕ) → IsListSpot space.old.vars i list → StoresBytes space.old i (body_at space.old.vars i ++ ended (bodies_at space.old.vars others.now)) result space.new }
    ensures leaves { (i : ℕ) → IsListSpot space.old.vars i list → Leaves (i ∷ []) space.old space.new }
{
    let mut more = bodies(alloc, space, others, 0)?;
    more.push(0)?;
    add_to_body(space, list, more.as_slice())
}

// Puts bytes behind a text's body, whose own bytes stay where they are.
fn add_to_body(space: &mut Space, list: ListSpot, more: &[u8]) -> Result<(), OpFault>
    requires sound { AreSound space.old.vars }
    requires list { (i : ℕ) × IsListSpot space.old.vars i list }
    requires text { list.kind ≡ Ubyte }
    requires some { 0 < length more.now }
    requires few { length more.now < 2 ^ 31 }
    ensures stores { (i : ℕ) → IsListSpot space.old.vars i list → StoresBytes space.old i (body_at space.old.vars i ++ more.now) result space.new }
    ensures leaves { (i : ℕ) → IsListSpot space.old.vars i list → Leaves (i ∷ []) space.old space.new }
{
    let Some(last) = final_zero(lent(space.bytes(list))) else {
        space.extend_list(list, more)?;
        return Ok(());
    };
    // The first of the bytes takes the place of the zero, once there is room for the others.
    space.extend_list(list, &more[1..])?;
    space.set_element(list, last, u32::from(more[0]));
    Ok(())
}

/// Stores the part of a text's body from an index on (0 where it is left out), up to a number of bytes (all where it is left
/// out), and a zero.
pub fn substring(
    alloc: Global,
    space: &mut Space,
    dest: u16,
    source: u16,
    at: u16,
    count: u16,
) -> Result<(), OpFault>
    requires sound { AreSound space.old.vars }
    requires dest { IsSome (name_of space.old.vars dest) }
    requires source { IsSome (name_of space.old.vars source) }
    requires text { is_text (shape_of space.old.vars dest) ≡ true }
    requires source_text { is_text (shape_of space.old.vars source) ≡ true }
    ensures does { (d : Devices) → Does Done (values_stored space.old.vars (place_of space.old.vars dest ∷ []) (substring_means d (given space.old.vars dest) (given space.old.vars source) (given_or_left space.old.vars at) (given_or_left space.old.vars count))) space.old result space.new }
    ensures leaves { Leaves (dest ∷ []) space.old space.new }
{
    let part = part_of(alloc, space, source, at, count)?;
    store_text(alloc, space, dest, part.as_slice())
}

// The part of a text's body from an index on, up to a number of bytes.
fn part_of(
    alloc: Global,
    space: &Space,
    source: u16,
    at: u16,
    count: u16,
) -> Result<Bytes, NoMemory>
    requires sound { AreSound space.now.vars }
    requires source { IsSome (name_of space.now.vars source) }
    requires text { is_text (shape_of space.now.vars source) ≡ true }
    ensures part { IfOk result (λ bytes. bytes ≡ section_of (word_or_else 0 (given_or_left space.now.vars at)) (word_or_else (length (body_at space.now.vars source)) (given_or_left space.now.vars count)) (body_at space.now.vars source)) }
    ensures few { IfOk result (λ bytes. length bytes ≤ pool_size) }
{
    let text = text_of(alloc, space, source)?;
    let bytes = body(text.bytes());
    let at = word_or(space, at, 0);
    let count = word_or(space, count, bytes.len() as u32);
    copied(alloc, section(bytes, at, count))
}

/// Stores a text's body.
pub fn string_to_array(
    alloc: Global,
    space: &mut Space,
    dest: u16,
    source: u16,
) -> Result<(), OpFault>
    requires sound { AreSound space.old.vars }
    requires dest { IsSome (name_of space.old.vars dest) }
    requires source { IsSome (name_of space.old.vars source) }
    requires text { is_text (shape_of space.old.vars dest) ≡ true }
    requires source_text { is_text (shape_of space.old.vars source) ≡ true }
    ensures does { (d : Devices) → Does Done (values_stored space.old.vars (place_of space.old.vars dest ∷ []) (to_array_means d (given space.old.vars dest) (given space.old.vars source))) space.old result space.new }
    ensures leaves { Leaves (dest ∷ []) space.old space.new }
{
    let bytes = body_of(alloc, space, source)?;
    store_bytes(alloc, space, dest, bytes.as_slice())
}

// The bytes of a text's body.
fn body_of(alloc: Global, space: &Space, source: u16) -> Result<Bytes, NoMemory>
    requires sound { AreSound space.now.vars }
    requires source { IsSome (name_of space.now.vars source) }
    requires text { is_text (shape_of space.now.vars source) ≡ true }
    ensures body { IfOk result (λ bytes. bytes ≡ body_at space.now.vars source) }
    ensures few { IfOk result (λ bytes. length bytes ≤ pool_size) }
{
    let text = text_of(alloc, space, source)?;
    copied(alloc, body(text.bytes()))
}

/// Stores all bytes of a list, and a zero.
pub fn array_to_string(
    alloc: Global,
    space: &mut Space,
    dest: u16,
    source: u16,
) -> Result<(), OpFault>
    requires sound { AreSound space.old.vars }
    requires dest { IsSome (name_of space.old.vars dest) }
    requires source { IsSome (name_of space.old.vars source) }
    requires text { is_text (shape_of space.old.vars dest) ≡ true }
    requires source_text { is_text (shape_of space.old.vars source) ≡ true }
    ensures does { (d : Devices) → Does Done (values_stored space.old.vars (place_of space.old.vars dest ∷ []) (to_string_means d (given space.old.vars dest) (given space.old.vars source))) space.old result space.new }
    ensures leaves { Leaves (dest ∷ []) space.old space.new }
{
    let text = bytes_of(alloc, space, source)?;
    store_text(alloc, space, dest, text.as_slice())
}

// The bytes of a text.
fn bytes_of(alloc: Global, space: &Space, source: u16) -> Result<Bytes, NoMemory>
    requires sound { AreSound space.now.vars }
    requires source { IsSome (name_of space.now.vars source) }
    requires text { is_text (shape_of space.now.vars source) ≡ true }
    ensures bytes { IfOk result (λ bytes. bytes ≡ text_at space.now.vars source) }
    ensures few { IfOk result (λ bytes. length bytes ≤ pool_size) }
{
    let text = text_of(alloc, space, source)?;
    copied(alloc, text.bytes())
}

// How many bytes the bodies of texts have.
fn bodies_length(alloc: Global, space: &Space, sources: &[u16]) -> Result<u64, NoMemory>
    requires sound { AreSound space.now.vars }
    requires few { length sources.now < 2 ^ 16 }
    requires sources { All (λ i. IsSome (name_of space.now.vars i)) sources.now }
    requires texts { All (λ i. is_text (shape_of space.now.vars i) ≡ true) sources.now }
    ensures length { IfOk result (λ n. n ≡ length (bodies_at space.now.vars sources.now)) }
    ensures few { IfOk result (λ n. n + 1 < 2 ^ 31) }
{
    let mut length = 0;
    for source in sources {
        let text = text_of(alloc, space, *source)?;
        length += body(text.bytes()).len() as u64;
    }
    Ok(length)
}

// The bodies of texts, one after another. Memory for `room` bytes is taken at once.
fn bodies(alloc: Global, space: &Space, sources: &[u16], room: usize) -> Result<Bytes, NoMemory>
    requires sound { AreSound space.now.vars }
    requires sources { All (λ i. IsSome (name_of space.now.vars i)) sources.now }
    requires texts { All (λ i. is_text (shape_of space.now.vars i) ≡ true) sources.now }
    ensures { IfOk result (λ bytes. bytes ≡ bodies_at space.now.vars sources.now) }
{
    let mut bytes = Bytes::new(alloc);
    bytes.reserve(room)?;
    for source in sources {
        let text = text_of(alloc, space, *source)?;
        bytes.append(body(text.bytes()))?;
    }
    Ok(bytes)
}
