// A clock that passes 32 bits.

use crate::running::reports;
use nxt_images::{EMPTY, Image, NO_DEFAULT, SBYTE, UBYTE, ULONG, op};
use std::alloc::Global;
use std::test::Fail;

// Sleeps for 4,294,967,295 ms, as a wait of -1 does, and then shows the clock each millisecond. 0 is at 0, 1 at 1, -1 at 2
// and the clock at 3.
static LATE: Image<'static> = Image {
    entries: &[
        (UBYTE, 0, 0),
        (UBYTE, 0, 1),
        (SBYTE, 0, 2),
        (ULONG, NO_DEFAULT, 3),
    ],
    static_size: 7,
    defaults: &[0, 1, 255],
    clumps: &[0],
    code: &[
        &[op::WAIT, 2],
        &[op::GETTICK, 3],
        &[op::SETOUT, 0, 5, 3, 0, 1],
        &[op::WAIT, 1],
        &[op::JMP, 0xFFF5],
    ],
    ..EMPTY
};

// A script that brings the clock to 4,294,000,000, and goes on with other rows.
fn script_of(alloc: Global, rows: &[u8]) -> Result<Vec<u8>, Fail> {
    let mut script = b"run,9\n".to_vec(alloc)?;
    for _ in 0..4294 {
        script.extend_from_slice(b"tick,1000000\n")?;
    }
    script.extend_from_slice(rows)?;
    Ok(script)
}

#[test]
fn clock_past_a_word(rt: HostRuntime) -> Result<(), Fail> {
    let alloc = rt.alloc();
    let script = script_of(
        alloc,
        b"tick,967294\nrun,9\ntick,1\nrun,9\ntick,1\nrun,9\ntick,1\nrun,9\n",
    )?;
    reports(
        &rt,
        alloc,
        "the clock is shown modulo 2^32",
        &LATE,
        script.as_slice(),
        "motor,0,0,0,0,0,0,4294967295\nmotor,0,0,0,0,0,0,0\nmotor,0,0,0,0,0,0,1\nend,4303\n",
    )
}
