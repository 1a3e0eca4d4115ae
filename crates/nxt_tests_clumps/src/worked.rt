// Worked programs, with the table and the code that an assembler gives them.

use crate::running::reports;
use nxt_images::{EMPTY, Image, MUTEX, SLONG, op};
use nxt_types::words::LEFT_OUT;
use std::test::Fail;

// One clump jumps to itself, the other one gives motor A the power 5.
static JUMP_BESIDE_MOTOR: Image<'static> = Image {
    entries: &[(SLONG, 0, 0), (SLONG, 0, 4), (SLONG, 0, 8)],
    static_size: 12,
    defaults: &[0, 0, 0, 0, 5, 0, 0, 0, 2, 0, 0, 0],
    clumps: &[0, 5],
    code: &[
        &[op::JMP, 0],
        &[op::FINCLUMP, 0, LEFT_OUT],
        &[op::SETOUT, 0, 2, 1, 0, 2],
        &[op::FINCLUMP, 0, LEFT_OUT],
    ],
    ..EMPTY
};

// Acquires one mutex twice.
static ACQUIRE_TWICE: Image<'static> = Image {
    entries: &[(MUTEX, 0, 0)],
    static_size: 4,
    defaults: &[0, 0, 0, 0],
    clumps: &[0],
    code: &[
        &[op::ACQUIRE, 0],
        &[op::ACQUIRE, 0],
        &[op::FINCLUMP, 0, LEFT_OUT],
    ],
    ..EMPTY
};

#[test]
fn turn_of_twenty(rt: HostRuntime) -> Result<(), Fail> {
    let alloc = rt.alloc();
    reports(
        &rt,
        alloc,
        "the 21st bytecode is the other clump's",
        &JUMP_BESIDE_MOTOR,
        b"run,19\nrun,1\nrun,1\n",
        "motor,0,0,5,0,0,0,0\nend,3\n",
    )?;
    reports(
        &rt,
        alloc,
        "the 20th is not",
        &JUMP_BESIDE_MOTOR,
        b"run,20\n",
        "end,1\n",
    )
}

#[test]
fn mutex_taken_twice(rt: HostRuntime) -> Result<(), Fail> {
    reports(
        &rt,
        rt.alloc(),
        "an owner waits for itself",
        &ACQUIRE_TWICE,
        b"run,5\n",
        "stop,stuck\nend,1\n",
    )
}
