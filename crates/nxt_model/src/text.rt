// The texts of lines. A private function adds to the end of a text. After an `Err` the text begins with what it held
// before, and a part of the line may stand behind that.

ghost use Rattle.std.specs.Prelude.{◌≡◌, ◌≤◌, ◌+◌, ◌++◌, drop, ◌∷◌, [], map, length, take, decimal, OnOk, OnErr, IfOk};
ghost use Rattle.nxt_model.specs.LineText.{line_text as text_of, line_of, fields_then, hex_text};
ghost use Rattle.nxt_model.specs.Means.Text.{number_text};

use crate::line::{Line, Stop};
use itoa::{Buffer, write_digits};
use nxt_types::{Bytes, NoMemory};
use std::alloc::Global;

// The most fields of a line that is put together at once.
const FIELDS: usize = 8;

// The bytes that a number takes at most: a sign and 20 digits.
const NUMBER: usize = 21;

// The bytes of the longest name of a line that is put together at once.
const NAME: usize = 16;

// Room for such a name, for as many fields, each with its comma, and for the byte behind them.
const ROOM: usize = NAME + FIELDS * (1 + NUMBER) + 1;

// Writes a number so that it ends at a place, and gives the place where it starts.
#[inline(always)]
fn write_number(number: i64, buffer: &mut [u8], end: usize) -> usize
    requires room { NUMBER ≤ end }
    requires within { end ≤ length buffer.old }
    ensures start { end ≤ result + NUMBER }
    ensures within { result ≤ end }
    ensures written { drop result buffer.new ≡ number_text number ++ drop end buffer.old }
{
    let start = write_digits(number.unsigned_abs(), buffer, end);
    if number < 0 {
        buffer[start - 1] = b'-';
        return start - 1;
    }
    start
}

// Writes a comma and a number so that they end at a place, and gives the place where they start.
#[inline(always)]
fn write_field(number: i64, buffer: &mut [u8], end: usize) -> usize
    requires room { 1 + NUMBER ≤ end }
    requires within { end ≤ length buffer.old }
    ensures start { end ≤ result + 1 + NUMBER }
    ensures within { result ≤ end }
    ensures written { drop result buffer.new ≡ 44 ∷ number_text number ++ drop end buffer.old }
{
    let start = write_number(number, buffer, end);
    buffer[start - 1] = b',';
    start - 1
}

// Adds a short name, a comma and a number for each of a few numbers, and the byte that stands behind these. They are put
// together from the last to the first.
fn push_short(name: &[u8], numbers: &[i64], last: u8, into: &mut Bytes) -> Result<(), NoMemory>
    requires name { length name.now ≤ NAME }
    requires numbers { length numbers.now ≤ FIELDS }
    ensures ok { OnOk result (into.new ≡ into.old ++ (name.now ++ fields_then (map number_text numbers.now) (last ∷ []))) }
    ensures err { OnErr result (into.new ≡ into.old) }
{
    let mut buffer = [0u8; ROOM];
    let mut start = ROOM - 1;
    buffer[start] = last;
    let mut left = numbers.len();
    while left > 0 {
        left -= 1;
        start = write_field(numbers[left], &mut buffer, start);
    }
    let front = start - name.len();
    buffer[front..start].copy_from_slice(name);
    into.append(&buffer[front..])
}

// Adds a number.
fn push_number(number: i64, into: &mut Bytes) -> Result<(), NoMemory>
    ensures ok { OnOk result (into.new ≡ into.old ++ number_text number) }
    ensures err { OnErr result (into.new ≡ into.old) }
{
    let mut buffer = [0u8; NUMBER];
    let start = write_number(number, &mut buffer, NUMBER);
    into.append(&buffer[start..])
}

// The same as `push_short`, whatever the lengths: one number is added after another.
fn push_long(name: &[u8], numbers: &[i64], last: u8, into: &mut Bytes) -> Result<(), NoMemory>
    ensures ok { OnOk result (into.new ≡ into.old ++ (name.now ++ fields_then (map number_text numbers.now) (last ∷ []))) }
    ensures err { OnErr result (take (length into.old) into.new ≡ into.old) }
{
    into.append(name)?;
    for number in numbers {
        into.push(b',')?;
        push_number(*number, into)?;
    }
    into.push(last)
}

// Adds a name, numbers behind it, and the byte that stands behind these.
fn numbers_then(name: &[u8], numbers: &[i64], last: u8, into: &mut Bytes) -> Result<(), NoMemory>
    ensures ok { OnOk result (into.new ≡ into.old ++ (name.now ++ fields_then (map number_text numbers.now) (last ∷ []))) }
    ensures err { OnErr result (take (length into.old) into.new ≡ into.old) }
{
    if name.len() <= NAME && numbers.len() <= FIELDS {
        push_short(name, numbers, last, into)
    } else {
        push_long(name, numbers, last, into)
    }
}

// Adds a line of numbers behind a name.
fn push_number_line(name: &[u8], numbers: &[i64], into: &mut Bytes) -> Result<(), NoMemory>
    ensures ok { OnOk result (into.new ≡ into.old ++ line_of name.now (map number_text numbers.now)) }
    ensures err { OnErr result (take (length into.old) into.new ≡ into.old) }
{
    numbers_then(name, numbers, b'\n', into)
}

/// A line of numbers behind a name.
pub fn number_line(alloc: Global, name: &[u8], numbers: &[i64]) -> Result<Bytes, NoMemory>
    ensures { IfOk result (λ text. text ≡ line_of name.now (map number_text numbers.now)) }
{
    let mut text = Bytes::new(alloc);
    push_number_line(name, numbers, &mut text)?;
    Ok(text)
}

// Adds a line of numbers and, last, bytes in hexadecimal behind a name.
#[tactic(auto, using(crate::proofs::Fields::last_field))]
fn push_bytes_line(
    name: &[u8],
    numbers: &[i64],
    bytes: &[u8],
    into: &mut Bytes,
) -> Result<(), NoMemory>
    ensures ok { OnOk result (into.new ≡ into.old ++ (name.now ++ fields_then (map number_text numbers.now) (44 ∷ hex_text bytes.now ++ 10 ∷ []))) }
    ensures err { OnErr result (take (length into.old) into.new ≡ into.old) }
{
    let alloc = *into.as_vec().allocator();
    let digits = hex::encode(alloc, bytes)?;
    numbers_then(name, numbers, b',', into)?;
    into.append(digits.as_bytes())?;
    into.push(b'\n')
}

// Adds a line of numbers and, last, a count behind a name.
#[tactic(auto, using(crate::proofs::Fields::last_field))]
fn push_count_line(
    name: &[u8],
    numbers: &[i64],
    count: u64,
    into: &mut Bytes,
) -> Result<(), NoMemory>
    ensures ok { OnOk result (into.new ≡ into.old ++ (name.now ++ fields_then (map number_text numbers.now) (44 ∷ decimal count ++ 10 ∷ []))) }
    ensures err { OnErr result (take (length into.old) into.new ≡ into.old) }
{
    let mut buffer = Buffer::new();
    numbers_then(name, numbers, b',', into)?;
    into.append(buffer.format(count).as_bytes())?;
    into.push(b'\n')
}

/// A line of numbers and, last, a count behind a name.
pub fn count_line(
    alloc: Global,
    name: &[u8],
    numbers: &[i64],
    count: u64,
) -> Result<Bytes, NoMemory>
    ensures { IfOk result (λ text. text ≡ name.now ++ fields_then (map number_text numbers.now) (44 ∷ decimal count ++ 10 ∷ [])) }
{
    let mut text = Bytes::new(alloc);
    push_count_line(name, numbers, count, &mut text)?;
    Ok(text)
}

fn push_stop(why: Stop, into: &mut Bytes) -> Result<(), NoMemory>
    ensures ok { OnOk result (into.new ≡ into.old ++ text_of (Line.Stop why)) }
    ensures err { OnErr result (take (length into.old) into.new ≡ into.old) }
{
    match why {
        Stop::Finished => into.append(b"stop,finished\n"),
        Stop::Stopped => into.append(b"stop,stopped\n"),
        Stop::Memory(footprint) => push_count_line(b"stop,memory", &[], footprint, into),
        Stop::Active(clump) => push_number_line(b"stop,active", &[i64::from(clump)], into),
        Stop::NotOwner(mutex) => push_number_line(b"stop,not_owner", &[i64::from(mutex)], into),
        Stop::NoCaller(number) => push_number_line(b"stop,no_caller", &[i64::from(number)], into),
        Stop::Stuck => into.append(b"stop,stuck\n"),
        Stop::Telegram => into.append(b"stop,telegram\n"),
    }
}

fn push_motor(
    port: u8,
    mode: u8,
    power: i8,
    state: u8,
    ratio: i8,
    regulation: u8,
    limit: u32,
    into: &mut Bytes,
) -> Result<(), NoMemory>
    ensures ok { OnOk result (into.new ≡ into.old ++ text_of (Line.Motor port mode power state ratio regulation limit)) }
    ensures err { OnErr result (take (length into.old) into.new ≡ into.old) }
{
    let port = i64::from(port);
    let mode = i64::from(mode);
    let power = i64::from(power);
    let state = i64::from(state);
    let ratio = i64::from(ratio);
    let regulation = i64::from(regulation);
    let limit = i64::from(limit);
    push_number_line(
        b"motor",
        &[port, mode, power, state, ratio, regulation, limit],
        into,
    )
}

fn push_tone(
    frequency: u32,
    duration: u32,
    repeat: u32,
    level: u32,
    into: &mut Bytes,
) -> Result<(), NoMemory>
    ensures ok { OnOk result (into.new ≡ into.old ++ text_of (Line.Tone frequency duration repeat level)) }
    ensures err { OnErr result (take (length into.old) into.new ≡ into.old) }
{
    let frequency = i64::from(frequency);
    let duration = i64::from(duration);
    let repeat = i64::from(repeat);
    let level = i64::from(level);
    push_number_line(b"tone", &[frequency, duration, repeat, level], into)
}

fn push_dump(
    table: u32,
    rows: u16,
    unsettled: u16,
    end: u32,
    into: &mut Bytes,
) -> Result<(), NoMemory>
    ensures ok { OnOk result (into.new ≡ into.old ++ text_of (Line.Dump table rows unsettled end)) }
    ensures err { OnErr result (take (length into.old) into.new ≡ into.old) }
{
    let table = i64::from(table);
    let rows = i64::from(rows);
    let unsettled = i64::from(unsettled);
    let end = i64::from(end);
    push_number_line(b"dump", &[table, rows, unsettled, end], into)
}

fn push_line(line: &Line, into: &mut Bytes) -> Result<(), NoMemory>
    ensures ok { OnOk result (into.new ≡ into.old ++ text_of line.now) }
    ensures err { OnErr result (take (length into.old) into.new ≡ into.old) }
{
    match line {
        Line::Motor(port, mode, power, state, ratio, regulation, limit) => push_motor(
            *port,
            *mode,
            *power,
            *state,
            *ratio,
            *regulation,
            *limit,
            into,
        ),
        Line::Tone(frequency, duration, repeat, level) => {
            push_tone(*frequency, *duration, *repeat, *level, into)
        }
        Line::Quiet => into.append(b"quiet\n"),
        Line::Text(x, y, options, bytes) => {
            push_bytes_line(b"text", &[*x, *y, *options], bytes.as_slice(), into)
        }
        Line::Point(x, y, options) => push_number_line(b"point", &[*x, *y, *options], into),
        Line::Line(x, y, to_x, to_y, options) => {
            push_number_line(b"line", &[*x, *y, *to_x, *to_y, *options], into)
        }
        Line::Circle(x, y, size, options) => {
            push_number_line(b"circle", &[*x, *y, *size, *options], into)
        }
        Line::Rect(x, y, width, height, options) => {
            push_number_line(b"rect", &[*x, *y, *width, *height, *options], into)
        }
        Line::Screen(mode) => push_number_line(b"screen", &[*mode], into),
        Line::Reply(bytes) => push_bytes_line(b"reply", &[], bytes.as_slice(), into),
        Line::Stop(why) => push_stop(*why, into),
        Line::Dump(table, rows, unsettled, end) => {
            push_dump(*table, *rows, *unsettled, *end, into)
        }
        Line::Bytes(place, bytes) => {
            push_bytes_line(b"bytes", &[i64::from(*place)], bytes.as_slice(), into)
        }
    }
}

/// Adds the text of a line, with its line feed. An `Err` changes nothing.
pub fn line_text(line: &Line, into: &mut Bytes) -> Result<(), NoMemory>
    ensures ok { OnOk result (into.new ≡ into.old ++ text_of line.now) }
    ensures err { OnErr result (into.new ≡ into.old) }
{
    let before = into.len();
    let added = push_line(line, into);
    if added.is_err() {
        into.truncate(before);
    }
    added
}
