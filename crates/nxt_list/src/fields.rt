// The fields of a line, each with a comma before it. A function adds to the end of a text.

ghost use Rattle.std.specs.Prelude.{◌≡◌, ◌++◌, ◌∷◌, map, decimal, OnOk};
ghost use Rattle.nxt_model.specs.LineText.{line_of, fields};
ghost use Rattle.nxt_model.specs.Means.Text.{number_text};

use itoa::Buffer;
use nxt_types::{Bytes, NoMemory};

/// Adds a text.
pub fn push_text(into: &mut Bytes, text: &str) -> Result<(), NoMemory>
    ensures { OnOk result (into.new ≡ into.old ++ 44 ∷ text.now) }
{
    into.push(b',')?;
    into.append(text.as_bytes())
}

/// Adds a number in decimal.
pub fn push_number(into: &mut Bytes, number: usize) -> Result<(), NoMemory>
    ensures { OnOk result (into.new ≡ into.old ++ 44 ∷ decimal number) }
{
    let mut buffer = Buffer::new();
    into.push(b',')?;
    into.append(buffer.format(number).as_bytes())
}

/// Adds a number in decimal, with its sign.
pub fn push_signed(into: &mut Bytes, number: i16) -> Result<(), NoMemory>
    ensures { OnOk result (into.new ≡ into.old ++ 44 ∷ number_text number) }
{
    let mut buffer = Buffer::new();
    into.push(b',')?;
    into.append(buffer.format(number).as_bytes())
}

/// Adds a line of numbers behind a name.
pub fn push_line(into: &mut Bytes, name: &str, numbers: &[u16]) -> Result<(), NoMemory>
    ensures { OnOk result (into.new ≡ into.old ++ line_of name.now (map decimal numbers.now)) }
{
    into.append(name.as_bytes())?;
    for number in numbers {
        push_number(into, usize::from(*number))?;
    }
    into.push(b'\n')
}

/// Adds the last numbers of a line.
pub fn push_last(into: &mut Bytes, numbers: &[u8]) -> Result<(), NoMemory>
    ensures { OnOk result (into.new ≡ into.old ++ fields (map decimal numbers.now)) }
{
    for number in numbers {
        push_number(into, usize::from(*number))?;
    }
    into.push(b'\n')
}
