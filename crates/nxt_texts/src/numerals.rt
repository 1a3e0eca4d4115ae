// Numbers in texts.

ghost use Rattle.std.specs.Prelude.{◌≡◌, ◌∷◌, ◌==◌, ◌%◌, ◌^◌, ◌≤◌, [], true, false, drop, length, string_bytes, IfOk, IfSome, IsSome};
ghost use Rattle.std.specs.Fmt.{signed_decimal};
ghost use Rattle.std.specs.List.{prefix_len, take_while};
ghost use Rattle.nxt_types.specs.Arithmetic.{word as word_of};
ghost use Rattle.nxt_types.specs.Calls.{is_text};
ghost use Rattle.nxt_types.specs.Pool.{pool_size};
ghost use Rattle.nxt_types.specs.Shapes.{is_number};
ghost use Rattle.nxt_model.specs.Devices.{Devices};
ghost use Rattle.nxt_model.specs.Means.Strings.{number_to_string as to_string_means, string_to_number as to_number_means};
ghost use Rattle.nxt_model.specs.Means.Text.{digits_value, is_digit, sign_at as sign_of, signed_number};
ghost use Rattle.nxt_space.specs.Keeping.{TableStays, Leaves};
ghost use Rattle.nxt_space.specs.Variables.{AreSound, name_of, shape_of};
ghost use Rattle.nxt_space.specs.Outcomes.{Does};
ghost use Rattle.nxt_operands.specs.Operands.{Done, given, given_or_left, place_of, place_or_none, values_stored};
ghost use Rattle.nxt_texts.specs.Numerals.{is_space, numeral_at as numeral_of};
ghost use Rattle.nxt_texts.specs.Texts.{body_at};

use crate::operands::set_unless_left_out;
use crate::text::{behind, body, store_text, text_of};
use nxt_operands::operands::word_or;
use nxt_space::{OpFault, Space};
use nxt_types::NoMemory;
use nxt_types::numbers::wrap;
use std::alloc::Global;

/// A number in a text: its word, and how many bytes it takes with the spaces and the sign in front of it.
#[derive(Clone, Copy)]
struct Numeral {
    word: u32,
    length: usize,
}

/// Stores a number's decimal text, with a minus sign in front of a negative one, and a zero.
pub fn number_to_string(
    alloc: Global,
    space: &mut Space,
    dest: u16,
    number: u16,
) -> Result<(), OpFault>
    requires sound { AreSound space.old.vars }
    requires dest { IsSome (name_of space.old.vars dest) }
    requires number { IsSome (name_of space.old.vars number) }
    requires text { is_text (shape_of space.old.vars dest) ≡ true }
    requires is_number { is_number (shape_of space.old.vars number) ≡ true }
    ensures does { (d : Devices) → Does Done (values_stored space.old.vars (place_of space.old.vars dest ∷ []) (to_string_means d (given space.old.vars dest) (given space.old.vars number))) space.old result space.new }
    ensures leaves { Leaves (dest ∷ []) space.old space.new }
{
    let digits = decimal(alloc, space.get(number))?;
    store_text(alloc, space, dest, digits.as_bytes())
}

// The decimal text of a number.
fn decimal(alloc: Global, number: i64) -> Result<String, NoMemory>
    ensures { IfOk result (λ text. string_bytes text ≡ signed_decimal number) }
{
    Ok(number.to_string(alloc)?)
}

/// Stores the number that a text's body has from an offset on (0 where it is left out), behind spaces and a sign, and the
/// place behind it; or where no digit stands there the default (0 where it is left out), and the offset.
pub fn string_to_number(
    alloc: Global,
    space: &mut Space,
    dest: u16,
    past: u16,
    source: u16,
    offset: u16,
    default: u16,
) -> Result<(), OpFault>
    requires sound { AreSound space.old.vars }
    requires dest { IsSome (name_of space.old.vars dest) }
    requires source { IsSome (name_of space.old.vars source) }
    requires number { is_number (shape_of space.old.vars dest) ≡ true }
    requires past { (past == 0xFFFF) ≡ false → is_number (shape_of space.old.vars past) ≡ true }
    requires source_text { is_text (shape_of space.old.vars source) ≡ true }
    ensures does { (d : Devices) → Does Done (values_stored space.old.vars (place_of space.old.vars dest ∷ place_or_none space.old.vars past ∷ []) (to_number_means d (given space.old.vars dest) (given_or_left space.old.vars past) (given space.old.vars source) (given_or_left space.old.vars offset) (given_or_left space.old.vars default))) space.old result space.new }
    ensures stays { TableStays space.old space.new }
{
    let at = word_or(space, offset, 0);
    let default = Numeral {
        word: word_or(space, default, 0),
        length: 0,
    };
    let found = numeral_in(alloc, space, source, at)?.unwrap_or(default);
    space.set(dest, i64::from(found.word));
    set_unless_left_out(space, past, i64::from(at) + found.length as i64);
    Ok(())
}

// The number that a text's body has from a place on, behind spaces and a sign.
fn numeral_in(
    alloc: Global,
    space: &Space,
    source: u16,
    at: u32,
) -> Result<Option<Numeral>, NoMemory>
    requires sound { AreSound space.now.vars }
    requires source { IsSome (name_of space.now.vars source) }
    requires text { is_text (shape_of space.now.vars source) ≡ true }
    ensures numeral { IfOk result (λ found. found ≡ numeral_of (drop at (body_at space.now.vars source))) }
    ensures within { IfOk result (λ found. IfSome found (λ n. n.length ≤ pool_size)) }
{
    let text = text_of(alloc, space, source)?;
    Ok(numeral_at(behind(body(text.bytes()), at)))
}

// The number that a text begins with, behind spaces and a sign.
fn numeral_at(text: &[u8]) -> Option<Numeral>
    ensures numeral { result ≡ numeral_of text.now }
    ensures within { IfSome result (λ n. n.length ≤ length text.now) }
{
    let spaces = spaces_at(text);
    let rest = &text[spaces..];
    let (sign, negative) = sign_at(rest);
    let (digits, word) = digits_at(&rest[sign..]);
    if digits == 0 {
        return None;
    }
    Some(Numeral {
        word: signed_word(negative, word),
        length: spaces + sign + digits,
    })
}

// How many spaces a text begins with.
fn spaces_at(text: &[u8]) -> usize
    ensures count { result ≡ prefix_len is_space text.now }
    ensures within { result ≤ length text.now }
{
    for (k, byte) in text.iter().enumerate() {
        if *byte != b' ' {
            return k;
        }
    }
    text.len()
}

// The length of a sign that a text begins with, and whether it is a minus.
fn sign_at(text: &[u8]) -> (usize, bool)
    ensures sign { result ≡ sign_of text.now }
    ensures within { result.0 ≤ length text.now }
{
    match text.first() {
        Some(b'-') => (1, true),
        Some(b'+') => (1, false),
        _ => (0, false),
    }
}

// How many digits a text begins with, and the word of the number that they spell.
fn digits_at(text: &[u8]) -> (usize, u32)
    ensures count { result.0 ≡ prefix_len is_digit text.now }
    ensures within { result.0 ≤ length text.now }
    ensures word { result.1 ≡ digits_value 0 (take_while is_digit text.now) % 2 ^ 32 }
{
    let mut word: u32 = 0;
    for (k, byte) in text.iter().enumerate() {
        if !byte.is_ascii_digit() {
            return (k, word);
        }
        word = word.wrapping_mul(10).wrapping_add(u32::from(*byte - b'0'));
    }
    (text.len(), word)
}

// The word of a number with a minus sign or without.
fn signed_word(negative: bool, word: u32) -> u32
    ensures { result ≡ word_of (signed_number negative word) }
{
    let number = i64::from(word);
    wrap(if negative { -number } else { number })
}
