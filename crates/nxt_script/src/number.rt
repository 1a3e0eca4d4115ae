// Numbers of fields.

ghost use Rattle.std.specs.Prelude.{◌≡◌, IfSome, ◌≤ℤ◌};
ghost use Rattle.nxt_script.specs.RowForms.{unsigned_number, signed_number, number_in};

// The number that one to ten digits spell.
fn unsigned(digits: &[u8]) -> Option<i64>
    ensures { result ≡ unsigned_number digits.now }
{
    if digits.is_empty() || digits.len() > 10 {
        return None;
    }
    let mut value: u64 = 0;
    for digit in digits {
        if !digit.is_ascii_digit() {
            return None;
        }
        value = value * 10 + u64::from(*digit - b'0');
    }
    Some(value as i64)
}

// The same, where a minus may stand in front.
fn signed(field: &[u8]) -> Option<i64>
    ensures { result ≡ signed_number field.now }
{
    match field {
        [b'-', digits @ ..] => match unsigned(digits) {
            Some(number) => Some(-number),
            None => None,
        },
        _ => unsigned(field),
    }
}

/// The numbers from a least to a greatest one.
#[derive(Clone, Copy)]
pub struct Range {
    pub least: i64,
    pub greatest: i64,
}

/// The number that a field spells, if it is in a range. A minus may stand where the range has negative numbers.
pub fn number_in(field: &[u8], range: &Range) -> Option<i64>
    ensures value { result ≡ number_in (record { least = range.now.least; greatest = range.now.greatest }) field.now }
    ensures within { IfSome result (λ z. (range.now.least ≤ℤ z) × (z ≤ℤ range.now.greatest)) }
{
    let number = if range.least < 0 {
        signed(field)?
    } else {
        unsigned(field)?
    };
    if range.least <= number && number <= range.greatest {
        Some(number)
    } else {
        None
    }
}
