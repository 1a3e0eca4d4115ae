// The row of a record.

ghost use Rattle.std.specs.Prelude.{◌≡◌, ℕ, ◌∷◌, codes, drop, map, find, bytes_eq, IfOk, IfSome, pos, slice_get, slice_index_or, Some, ◌≤ℤ◌};
ghost use Rattle.csv.specs.Records.{fields_of};
ghost use Rattle.hex.specs.Hex.{decode_of};
ghost use Rattle.nxt_script.specs.RowForms.{forms, numbers_in, row_by, row_of, short_telegram, telegram_by};
ghost use Rattle.nxt_script.specs.declared.number.Range.{Range};

use crate::number::{Range, number_in};
use csv::ByteRecord;
use hex::FromHexError;
use nxt_model::event::{Event, ScriptRow};
use nxt_types::{Bytes, NoMemory};
use std::alloc::Global;

// ---- the ranges of the rows' numbers

const MILLION: Range = Range {
    least: 0,
    greatest: 1_000_000,
};

const UP_TO_1: Range = Range {
    least: 0,
    greatest: 1,
};

const UP_TO_2: Range = Range {
    least: 0,
    greatest: 2,
};

const UP_TO_3: Range = Range {
    least: 0,
    greatest: 3,
};

const U8: Range = Range {
    least: 0,
    greatest: 255,
};

const U16: Range = Range {
    least: 0,
    greatest: 65_535,
};

const I8: Range = Range {
    least: -128,
    greatest: 127,
};

const I16: Range = Range {
    least: -32_768,
    greatest: 32_767,
};

const I32: Range = Range {
    least: -2_147_483_648,
    greatest: 2_147_483_647,
};

// ---- numbers

// The numbers of the fields behind a record's name, one for each range.
fn numbers<const N: usize>(fields: &ByteRecord, ranges: &[Range; N]) -> Option<[i64; N]>
    ensures value { result ≡ numbers_in (map (λ r. record { least = r.least; greatest = r.greatest }) ranges.now) (drop 1 (fields_of fields.now)) }
    ensures within { IfSome result (λ zs. (k : ℕ) (r : Range) → slice_get ranges.now k ≡ Some r → (r.least ≤ℤ slice_index_or zs k (pos 0)) × (slice_index_or zs k (pos 0) ≤ℤ r.greatest)) }
{
    let mut found = [0; N];
    for (i, range) in ranges.iter().enumerate() {
        let field = fields.get(i + 1)?;
        found[i] = number_in(field, range)?;
    }
    if fields.len() > N + 1 {
        return None;
    }
    Some(found)
}

// ---- the row of each name, from the fields behind the name

fn run(fields: &ByteRecord) -> Option<ScriptRow>
    ensures { result ≡ row_of (codes "run" ∷ drop 1 (fields_of fields.now)) }
{
    let [bytecodes] = numbers(fields, &[MILLION])?;
    Some(ScriptRow::Run(bytecodes as u32))
}

fn tick(fields: &ByteRecord) -> Option<ScriptRow>
    ensures { result ≡ row_of (codes "tick" ∷ drop 1 (fields_of fields.now)) }
{
    let [milliseconds] = numbers(fields, &[MILLION])?;
    Some(ScriptRow::One(Event::Tick(milliseconds as u32)))
}

fn reading(fields: &ByteRecord) -> Option<ScriptRow>
    ensures { result ≡ row_of (codes "reading" ∷ drop 1 (fields_of fields.now)) }
{
    let [port, raw, normalized, scaled] = numbers(fields, &[UP_TO_3, U16, U16, I16])?;
    Some(ScriptRow::One(Event::Reading(port as u8, raw as u16, normalized as u16, scaled as i16)))
}

fn tacho(fields: &ByteRecord) -> Option<ScriptRow>
    ensures { result ≡ row_of (codes "tacho" ∷ drop 1 (fields_of fields.now)) }
{
    let [port, speed, count, block, rotation] = numbers(fields, &[UP_TO_2, I8, I32, I32, I32])?;
    Some(ScriptRow::One(Event::Tacho(
        port as u8,
        speed as i8,
        count as i32,
        block as i32,
        rotation as i32,
    )))
}

fn button(fields: &ByteRecord) -> Option<ScriptRow>
    ensures { result ≡ row_of (codes "button" ∷ drop 1 (fields_of fields.now)) }
{
    let [index, pressed, presses] = numbers(fields, &[UP_TO_3, UP_TO_1, U8])?;
    Some(ScriptRow::One(Event::Button(index as u8, pressed as u8, presses as u8)))
}

fn battery(fields: &ByteRecord) -> Option<ScriptRow>
    ensures { result ≡ row_of (codes "battery" ∷ drop 1 (fields_of fields.now)) }
{
    let [millivolts] = numbers(fields, &[U16])?;
    Some(ScriptRow::One(Event::Battery(millivolts as u16)))
}

fn random(fields: &ByteRecord) -> Option<ScriptRow>
    ensures { result ≡ row_of (codes "random" ∷ drop 1 (fields_of fields.now)) }
{
    let [value] = numbers(fields, &[I16])?;
    Some(ScriptRow::One(Event::Random(value as i16)))
}

fn compact(fields: &ByteRecord) -> Option<ScriptRow>
    ensures { result ≡ row_of (codes "compact" ∷ drop 1 (fields_of fields.now)) }
{
    let [bytes] = numbers(fields, &[U16])?;
    Some(ScriptRow::One(Event::Compact(bytes as u16)))
}

// A dump has no fields.
fn dump(fields: &ByteRecord) -> Option<ScriptRow>
    ensures { result ≡ row_of (codes "dump" ∷ drop 1 (fields_of fields.now)) }
{
    if fields.len() > 1 {
        return None;
    }
    Some(ScriptRow::One(Event::Dump))
}

// ---- names

const RUN: &[u8] = b"run";

const TICK: &[u8] = b"tick";

const READING: &[u8] = b"reading";

const TACHO: &[u8] = b"tacho";

const BUTTON: &[u8] = b"button";

const BATTERY: &[u8] = b"battery";

const RANDOM: &[u8] = b"random";

const COMPACT: &[u8] = b"compact";

const DUMP: &[u8] = b"dump";

// The row of a name that numbers follow, or nothing.
fn row_of_numbers(name: &[u8], fields: &ByteRecord) -> Option<ScriptRow>
    ensures { result ≡ row_by (find (λ f. bytes_eq f.name name.now) forms) (drop 1 (fields_of fields.now)) }
{
    if name == RUN {
        run(fields)
    } else if name == TICK {
        tick(fields)
    } else if name == READING {
        reading(fields)
    } else if name == TACHO {
        tacho(fields)
    } else if name == BUTTON {
        button(fields)
    } else if name == BATTERY {
        battery(fields)
    } else if name == RANDOM {
        random(fields)
    } else if name == COMPACT {
        compact(fields)
    } else if name == DUMP {
        dump(fields)
    } else {
        None
    }
}

// ---- telegrams, and all rows

const TELEGRAM: &[u8] = b"telegram";

const TELEGRAM_BYTES: usize = 64;

// The row of a telegram's digits.
fn short_telegram(alloc: Global, digits: &[u8]) -> Result<Option<ScriptRow>, NoMemory>
    ensures { IfOk result (λ o. o ≡ short_telegram (decode_of digits.now)) }
{
    match hex::decode(alloc, digits) {
        Ok(bytes) if bytes.len() <= TELEGRAM_BYTES => {
            Ok(Some(ScriptRow::One(Event::Telegram(Bytes::from_vec(bytes)))))
        }
        Ok(_) => Ok(None),
        Err(FromHexError::OutOfMemory) => Err(NoMemory),
        Err(_) => Ok(None),
    }
}

// The row of a record whose name is `telegram`.
fn telegram(alloc: Global, fields: &ByteRecord) -> Result<Option<ScriptRow>, NoMemory>
    ensures { IfOk result (λ o. o ≡ telegram_by (drop 1 (fields_of fields.now))) }
{
    let Some(digits) = fields.get(1) else {
        return Ok(None);
    };
    if fields.len() > 2 {
        return Ok(None);
    }
    short_telegram(alloc, digits)
}

/// The row that a record's fields spell.
pub(crate) fn row(alloc: Global, fields: &ByteRecord) -> Result<Option<ScriptRow>, NoMemory>
    ensures { IfOk result (λ o. o ≡ row_of (fields_of fields.now)) }
{
    let Some(name) = fields.get(0) else {
        return Ok(None);
    };
    if name == TELEGRAM {
        return telegram(alloc, fields);
    }
    Ok(row_of_numbers(name, fields))
}
