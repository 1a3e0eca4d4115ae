// What tokens stand for.

ghost use Rattle.std.specs.Prelude.{◌≡◌, ◌≤◌, min, bytes_eq};
ghost use Rattle.std.specs.Str.Parse.{digits_value};
ghost use Rattle.std.specs.Char.{digit_value};
ghost use Rattle.nxt_model.specs.Nbc.Tokens.{numeral_value, word_of};
ghost use Rattle.nxt_nbc_lines.specs.Held.{held, held_word, most_held};
ghost use Rattle.nxt_nbc_lines.specs.Seen.{word_seen};

/// The greatest number that is held. A greater one is held as this one, and is out of each range all the same.
const MOST_HELD: u64 = 1 << 62;

/// What a token stands for. Its names and texts lie in the text that it was cut from.
#[derive(Clone, Copy)]
pub(crate) enum Word<'a> {
    Name(&'a [u8]),
    Number(i64),
    Quoted(&'a [u8]),
    Sign(u8),
}

// The value of a digit, or 36 of another byte.
fn digit_value(b: u8) -> u8
    ensures value { result ≡ digit_value b }
    ensures few { result ≤ 36 }
{
    match b {
        b'0'..=b'9' => b - b'0',
        b'A'..=b'Z' => b - b'A' + 10,
        b'a'..=b'z' => b - b'a' + 10,
        _ => 36,
    }
}

// The number that digits write, as far as it is held.
fn digits_value(radix: u64, digits: &[u8]) -> u64
    requires { 1 ≤ radix }
    ensures { result ≡ min (digits_value radix digits.now) most_held }
{
    let mut value: u64 = 0;
    for digit in digits {
        value = value
            .saturating_mul(radix)
            .saturating_add(u64::from(digit_value(*digit)))
            .min(MOST_HELD);
    }
    value
}

// The number of a numeral, as far as it is held.
fn numeral_value(bytes: &[u8]) -> i64
    ensures { result ≡ held (numeral_value bytes.now) }
{
    match bytes {
        [_, b'x', digits @ ..] => digits_value(16, digits) as i64,
        _ => digits_value(10, bytes) as i64,
    }
}

/// The word that a token's bytes spell.
pub(crate) fn word_of(bytes: &[u8]) -> Word<'_>
    ensures { word_seen result ≡ held_word (word_of bytes.now) }
{
    let [first, rest @ ..] = bytes else {
        return Word::Sign(0);
    };
    match *first {
        b'A'..=b'Z' | b'a'..=b'z' | b'_' => Word::Name(bytes),
        b'0'..=b'9' => Word::Number(numeral_value(bytes)),
        b'-' => Word::Number(-numeral_value(rest)),
        b'"' | b'\'' => Word::Quoted(match rest {
            [inside @ .., _] => inside,
            [] => rest,
        }),
        sign => Word::Sign(sign),
    }
}

/// Whether a name is this one.
pub(crate) fn is_name(name: &[u8], this: &[u8]) -> bool
    ensures { result ≡ bytes_eq name.now this.now }
{
    name == this
}
