// What is told of the lines of a run.

ghost use Rattle.std.specs.Prelude.{◌≡◌, ◌++◌, count_by, filter, OnOk, IfOk};
ghost use Rattle.nxt_model.specs.LineText.{lines_text};
ghost use Rattle.nxt_gen.specs.Generator.{is_motor as tells_motor, is_stop as tells_stop, power_of as power_told, sum_of_powers, told_of};

use nxt_model::line::Line;
use nxt_model::text::{count_line, line_text, number_line};
use nxt_types::{Bytes, NoMemory};
use std::alloc::Global;

/// What is told of the lines of a generated run: the number, how many lines of motors there are, the sum of their powers, and
/// the line of the stop.
pub fn told(alloc: Global, number: u32, lines: &[Line]) -> Result<Bytes, NoMemory>
    ensures { IfOk result (λ text. text ≡ told_of number lines.now) }
{
    let mut text = count_line(alloc, b"gen", &[], u64::from(number))?;
    let motors = count_line(alloc, b"motors", &[], motor_count(lines))?;
    text.append(motors.as_slice())?;
    let sum = number_line(alloc, b"sum", &[sum_of_powers(lines)?])?;
    text.append(sum.as_slice())?;
    push_stops(lines, &mut text)?;
    Ok(text)
}

// How many lines of motors there are.
fn motor_count(lines: &[Line]) -> u64
    ensures { result ≡ count_by tells_motor lines.now }
{
    lines.iter().filter(|line| is_motor(line)).count() as u64
}

fn is_motor(line: &Line) -> bool
    ensures { result ≡ tells_motor line.now }
{
    matches!(line, Line::Motor(..))
}

// The sum of the powers. Lines for which 64 bits don't hold it have no room in memory.
fn sum_of_powers(lines: &[Line]) -> Result<i64, NoMemory>
    ensures { IfOk result (λ sum. sum ≡ sum_of_powers lines.now) }
{
    let mut sum: i64 = 0;
    for line in lines {
        sum = sum.checked_add(i64::from(power_of(line))).ok_or(NoMemory)?;
    }
    Ok(sum)
}

// The power that a line tells, or 0.
fn power_of(line: &Line) -> i8
    ensures { result ≡ power_told line.now }
{
    match line {
        Line::Motor(_, _, power, ..) => *power,
        _ => 0,
    }
}

// Adds the lines of stops.
fn push_stops(lines: &[Line], into: &mut Bytes) -> Result<(), NoMemory>
    ensures { OnOk result (into.new ≡ into.old ++ lines_text (filter tells_stop lines.now)) }
{
    for line in lines {
        if is_stop(line) {
            line_text(line, into)?;
        }
    }
    Ok(())
}

fn is_stop(line: &Line) -> bool
    ensures { result ≡ tells_stop line.now }
{
    matches!(line, Line::Stop(_))
}
