// Clumps in contention: programs that show numbers, in the order in which their clumps run.

mod dependents;
mod mutexes;
mod sleep;
mod stops;
mod subroutines;
mod turns;

use crate::running::reports;
use nxt_images::{EMPTY, Image, MUTEX, NO_DEFAULT, SBYTE, Statement, UBYTE, ULONG, UWORD, op};
use nxt_types::words::LEFT_OUT;
use std::alloc::Global;
use std::process::Abort;
use std::test::Fail;

// The table's entries. Each of 0 to 9 holds its own number.

/// Holds 255.
const FULL_BYTE: u16 = 10;

/// Holds -1.
const MINUS_ONE: u16 = 11;

/// Holds 256.
const PAST_BYTE: u16 = 12;

/// Counts from 0.
const A: u16 = 13;

/// Counts from 100.
const B: u16 = 14;

/// Counts from 200.
const C: u16 = 15;

/// A moment.
const TIME: u16 = 16;

/// A subroutine's caller. It holds 9 at the start.
const CALLER: u16 = 17;

/// The caller of another subroutine. It holds 9 at the start.
const OTHER_CALLER: u16 = 18;

/// A mutex.
const M: u16 = 19;

/// Another one.
const N: u16 = 20;

/// What every program here has.
const TABLE: Image<'static> = Image {
    entries: &[
        (UBYTE, 0, 0),
        (UBYTE, 0, 1),
        (UBYTE, 0, 2),
        (UBYTE, 0, 3),
        (UBYTE, 0, 4),
        (UBYTE, 0, 5),
        (UBYTE, 0, 6),
        (UBYTE, 0, 7),
        (UBYTE, 0, 8),
        (UBYTE, 0, 9),
        (UBYTE, 0, 10),
        (SBYTE, 0, 11),
        (UWORD, 0, 12),
        (UWORD, 0, 14),
        (UWORD, 0, 16),
        (UWORD, 0, 18),
        (ULONG, NO_DEFAULT, 20),
        (UBYTE, 0, 24),
        (UBYTE, 0, 25),
        (MUTEX, NO_DEFAULT, 26),
        (MUTEX, NO_DEFAULT, 30),
    ],
    static_size: 34,
    defaults: &[
        0, 1, 2, 3, 4, 5, 6, 7, 8, 9, 255, 255, 0, 1, 0, 0, 100, 0, 200, 0, 9, 9,
    ],
    ..EMPTY
};

// Statements. A setout has 7 words; add and brcmp have 4; finclump and subcall have 3; the others have 2.

// A number is shown as the tacho limit of motor A, a word of 32 bits.
const SHOW_0: Statement<'static> = &[op::SETOUT, 0, 5, 0, 0, 1];

const SHOW_1: Statement<'static> = &[op::SETOUT, 0, 5, 1, 0, 1];

const SHOW_2: Statement<'static> = &[op::SETOUT, 0, 5, 2, 0, 1];

const SHOW_3: Statement<'static> = &[op::SETOUT, 0, 5, 3, 0, 1];

const SHOW_4: Statement<'static> = &[op::SETOUT, 0, 5, 4, 0, 1];

const SHOW_5: Statement<'static> = &[op::SETOUT, 0, 5, 5, 0, 1];

const SHOW_A: Statement<'static> = &[op::SETOUT, 0, 5, A, 0, 1];

const COUNT_A: Statement<'static> = &[op::ADD, A, A, 1];

// Ends a round of four counts and a show, and begins the next one.
const AGAIN: Statement<'static> = &[op::JMP, 0xFFE9];

const ACQUIRE_M: Statement<'static> = &[op::ACQUIRE, M];

const RELEASE_M: Statement<'static> = &[op::RELEASE, M];

const ACQUIRE_N: Statement<'static> = &[op::ACQUIRE, N];

const RELEASE_N: Statement<'static> = &[op::RELEASE, N];

// Gives up the turn.
const YIELD: Statement<'static> = &[op::WAIT, 0];

const WAIT_1: Statement<'static> = &[op::WAIT, 1];

const WAIT_5: Statement<'static> = &[op::WAIT, 5];

const WAIT_9: Statement<'static> = &[op::WAIT, 9];

// Ends the clump, and lowers no other one.
const END: Statement<'static> = &[op::FINCLUMP, 0, LEFT_OUT];

/// A name, a program, its script, the numbers that are shown, and the lines behind them.
type Case<'a> = (&'a str, &'a Image<'a>, &'a [u8], &'a [u32], &'a str);

fn report_of(alloc: Global, shown: &[u32], end: &str) -> Result<String, Fail> {
    let mut report = String::new(alloc);
    for number in shown {
        let line = format!(in alloc; "motor,0,0,0,0,0,0,{number}\n")?;
        report.push_str(line.as_str())?;
    }
    report.push_str(end)?;
    Ok(report)
}

fn run_cases(rt: &impl Abort, alloc: Global, cases: &[Case]) -> Result<(), Fail> {
    for (name, image, script, shown, end) in cases {
        let report = report_of(alloc, shown, end)?;
        reports(rt, alloc, name, image, script, report.as_str())?;
    }
    Ok(())
}

#[test]
fn clumps_in_contention(rt: HostRuntime) -> Result<(), Fail> {
    let alloc = rt.alloc();
    run_cases(&rt, alloc, &dependents::CASES)?;
    run_cases(&rt, alloc, &turns::CASES)?;
    run_cases(&rt, alloc, &sleep::CASES)?;
    run_cases(&rt, alloc, &mutexes::CASES)?;
    run_cases(&rt, alloc, &subroutines::CASES)?;
    run_cases(&rt, alloc, &stops::CASES)
}
