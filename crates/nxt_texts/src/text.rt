// Texts: reading them from variables, their parts, and storing them.

ghost use Rattle.std.specs.Prelude.{◌≡◌, ◌+◌, ◌<◌, ◌≤◌, ◌^◌, true, map, length, drop, All, IfOk, IsSome, MatchOption, ◌∷◌, []};
ghost use Rattle.nxt_types.specs.Arithmetic.{word};
ghost use Rattle.nxt_types.specs.Calls.{is_text};
ghost use Rattle.nxt_types.specs.Pool.{pool_size};
ghost use Rattle.nxt_model.specs.Means.Text.{body as body_of, ended, section as section_of};
ghost use Rattle.nxt_model.specs.Values.{bytes_of};
ghost use Rattle.nxt_space.specs.Keeping.{Leaves};
ghost use Rattle.nxt_space.specs.Variables.{AreSound, list_of_bytes, name_of, shape_of};
ghost use Rattle.nxt_texts.specs.Texts.{IsByte, StoresBytes, bytes_in, flat_bytes, text_at};

use nxt_operands::reading::numbers_of;
use nxt_operands::storing::store;
use nxt_space::{Flat, OpFault, Space};
use nxt_types::{Bytes, NoMemory};
use std::alloc::Global;

// ---- reading

/// The bytes of a text: lent by the pool, where they stand one behind another, or else gathered.
#[derive(Drop)]
pub enum Text<'s> {
    Lent(&'s [u8]),
    Gathered(Bytes),
}

impl Text<'_> {
    pub fn bytes(&self) -> &[u8]
        ensures { result.now ≡ bytes_in self.now }
    {
        match self {
            Text::Lent(bytes) => *bytes,
            Text::Gathered(bytes) => bytes.as_slice(),
        }
    }
}

/// The text that begins at an entry. It takes memory only where the text's bytes stand apart.
pub fn text_of<'s>(alloc: Global, space: &'s Space, i: u16) -> Result<Text<'s>, NoMemory>
    requires sound { AreSound space.now.vars }
    requires named { IsSome (name_of space.now.vars i) }
    requires text { is_text (shape_of space.now.vars i) ≡ true }
    ensures bytes { IfOk result (λ text. bytes_in text ≡ text_at space.now.vars i) }
    ensures few { IfOk result (λ text. length (bytes_in text) ≤ pool_size) }
{
    match space.list_spot(i) {
        Some(list) => Ok(Text::Lent(lent(space.bytes(list)))),
        None => Ok(Text::Gathered(gathered(alloc, space, i)?)),
    }
}

/// Bytes that the pool lends. They are those of their list.
pub fn lent(bytes: &[u8]) -> &[u8]
    ensures same { result.now ≡ bytes.now }
    ensures list { bytes_of (list_of_bytes bytes.now) ≡ bytes.now }
{
    bytes
}

// The bytes of the text that begins at an entry, wherever they stand.
fn gathered(alloc: Global, space: &Space, i: u16) -> Result<Bytes, NoMemory>
    requires sound { AreSound space.now.vars }
    requires named { IsSome (name_of space.now.vars i) }
    requires text { is_text (shape_of space.now.vars i) ≡ true }
    ensures bytes { IfOk result (λ bytes. bytes ≡ text_at space.now.vars i) }
    ensures few { IfOk result (λ bytes. length bytes ≤ pool_size) }
{
    let numbers = numbers_of(alloc, space, i)?;
    bytes_from(alloc, numbers.as_slice())
}

// Numbers that are bytes, as bytes.
fn bytes_from(alloc: Global, numbers: &[i64]) -> Result<Bytes, NoMemory>
    requires { All IsByte numbers.now }
    ensures { IfOk result (λ bytes. bytes ≡ map word numbers.now) }
{
    let mut bytes = Bytes::new(alloc);
    for number in numbers {
        bytes.push(*number as u8)?;
    }
    Ok(bytes)
}

// ---- parts

/// A text without its last byte where that is 0.
pub fn body(text: &[u8]) -> &[u8]
    ensures body { result.now ≡ body_of text.now }
    ensures within { length result.now ≤ length text.now }
{
    match text.split_last() {
        Some((last, front)) if *last == 0 => front,
        _ => text,
    }
}

/// The place of the zero that a text ends with.
pub fn final_zero(text: &[u8]) -> Option<u32>
    requires { length text.now ≤ pool_size }
    ensures { MatchOption result (text.now ≡ body_of text.now) (λ last. (last ≡ length (body_of text.now)) × (text.now ≡ ended (body_of text.now))) }
{
    match text.split_last() {
        Some((last, front)) if *last == 0 => Some(front.len() as u32),
        _ => None,
    }
}

/// The bytes from a place on.
pub fn behind(bytes: &[u8], at: u32) -> &[u8]
    ensures bytes { result.now ≡ drop at bytes.now }
    ensures within { length result.now ≤ length bytes.now }
{
    &bytes[(at as usize).min(bytes.len())..]
}

/// `count` bytes from a place on, or as many as there are.
pub fn section(bytes: &[u8], at: u32, count: u32) -> &[u8]
    ensures bytes { result.now ≡ section_of at count bytes.now }
    ensures within { length result.now ≤ length bytes.now }
{
    let rest = behind(bytes, at);
    &rest[..(count as usize).min(rest.len())]
}

/// The bytes, to be kept while the pool changes.
pub fn copied(alloc: Global, bytes: &[u8]) -> Result<Bytes, NoMemory>
    ensures { IfOk result (λ copy. copy ≡ bytes.now) }
{
    let mut copy = Bytes::new(alloc);
    copy.append(bytes)?;
    Ok(copy)
}

// ---- storing

/// Stores bytes and a zero. It takes memory only where the elements of the destination stand apart.
pub fn store_text(alloc: Global, space: &mut Space, dest: u16, bytes: &[u8]) -> Result<(), OpFault>
    requires sound { AreSound space.old.vars }
    requires named { IsSome (name_of space.old.vars dest) }
    requires text { is_text (shape_of space.old.vars dest) ≡ true }
    requires few { length bytes.now + 1 < 2 ^ 32 }
    ensures stores { StoresBytes space.old dest (ended bytes.now) result space.new }
    ensures leaves { Leaves (dest ∷ []) space.old space.new }
{
    if let Some(list) = space.list_spot(dest) {
        space.set_text(list, bytes)?;
        return Ok(());
    }
    let text = with_zero(alloc, bytes)?;
    store_apart(alloc, space, dest, text.as_slice())
}

fn with_zero(alloc: Global, bytes: &[u8]) -> Result<Bytes, NoMemory>
    ensures { IfOk result (λ text. text ≡ ended bytes.now) }
{
    let mut text = copied(alloc, bytes)?;
    text.push(0)?;
    Ok(text)
}

/// Stores a list of bytes. It takes memory only where the elements of the destination stand apart.
pub fn store_bytes(alloc: Global, space: &mut Space, dest: u16, bytes: &[u8]) -> Result<(), OpFault>
    requires sound { AreSound space.old.vars }
    requires named { IsSome (name_of space.old.vars dest) }
    requires text { is_text (shape_of space.old.vars dest) ≡ true }
    requires few { length bytes.now < 2 ^ 32 }
    ensures stores { StoresBytes space.old dest bytes.now result space.new }
    ensures leaves { Leaves (dest ∷ []) space.old space.new }
{
    if let Some(list) = space.list_spot(dest) {
        space.set_list(list, bytes)?;
        return Ok(());
    }
    store_apart(alloc, space, dest, bytes)
}

// Stores a list of bytes, however far its elements stand apart.
fn store_apart(alloc: Global, space: &mut Space, dest: u16, bytes: &[u8]) -> Result<(), OpFault>
    requires sound { AreSound space.old.vars }
    requires named { IsSome (name_of space.old.vars dest) }
    requires text { is_text (shape_of space.old.vars dest) ≡ true }
    requires few { length bytes.now < 2 ^ 32 }
    ensures stores { StoresBytes space.old dest bytes.now result space.new }
    ensures leaves { Leaves (dest ∷ []) space.old space.new }
{
    let flat = flat_of(alloc, bytes)?;
    store(space, dest, &flat)
}

// The flat form of a list of bytes.
fn flat_of(alloc: Global, bytes: &[u8]) -> Result<Flat, NoMemory>
    ensures { IfOk result (λ flat. flat ≡ flat_bytes bytes.now) }
{
    let mut flat = Flat::new(alloc);
    flat.push(bytes.len() as i64)?;
    for byte in bytes {
        flat.push(i64::from(*byte))?;
    }
    Ok(flat)
}
