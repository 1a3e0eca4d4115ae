// Statements on motors and sensors. What they store and tell is worked out from their meaning.

use crate::running::{Case, Due, Outside, check_all};
use nxt_images::{ARRAY, EMPTY, Image, NO_DEFAULT, SLONG, Statement, UBYTE, UWORD, op};
use nxt_types::words::LEFT_OUT;
use std::test::Fail;

// The table's entries. Each of 0 to 4 holds its own number.

/// Holds -1.
const MINUS_ONE: u16 = 5;

/// Holds 300.
const BIG: u16 = 6;

/// Holds 70000.
const HUGE: u16 = 7;

/// Holds 104: the flags that reset the three counts.
const RESET: u16 = 8;

/// Where a property is read.
const A: u16 = 9;

/// Another one.
const B: u16 = 10;

/// The third.
const C: u16 = 11;

/// The ports 2, 0, 2 and 7, in words of 16 bits.
const PORTS: u16 = 12;

/// No ports.
const NOWHERE: u16 = 14;

/// What every program here has.
static TABLE: Image<'static> = Image {
    entries: &[
        (SLONG, 0, 0),
        (SLONG, 0, 4),
        (SLONG, 0, 8),
        (SLONG, 0, 12),
        (SLONG, 0, 16),
        (SLONG, 0, 20),
        (SLONG, 0, 24),
        (SLONG, 0, 28),
        (SLONG, 0, 32),
        (SLONG, 0, 36),
        (SLONG, 0, 40),
        (SLONG, 0, 44),
        (ARRAY, 0, 48),
        (UWORD, 0, 0),
        (ARRAY, NO_DEFAULT, 50),
        (UBYTE, 0, 0),
    ],
    static_size: 52,
    defaults: &[
        0, 0, 0, 0, 1, 0, 0, 0, 2, 0, 0, 0, 3, 0, 0, 0, 4, 0, 0, 0, 255, 255, 255, 255, 44, 1, 0,
        0, 112, 17, 1, 0, 104, 0, 0, 0, 9, 0, 0, 0, 9, 0, 0, 0, 9, 0, 0, 0, 1, 0,
    ],
    rows: &[(52, 10, 2), (72, 2, 4)],
    lists: &[2, 0, 0, 0, 2, 0, 7, 0],
    clumps: &[0],
    ..EMPTY
};

const FINISH: Statement<'static> = &[op::FINCLUMP, LEFT_OUT, LEFT_OUT];

static SENSORS: [Case<'static>; 7] = [
    (
        "type, mode, scaled value and invalid are stored, cut to their kinds",
        &[
            &[op::SETIN, BIG, 2, 0],
            &[op::SETIN, MINUS_ONE, 2, 1],
            &[op::SETIN, HUGE, 2, 4],
            &[op::GETIN, A, 2, 0],
            &[op::GETIN, B, 2, 1],
            &[op::GETIN, C, 2, 4],
            FINISH,
        ],
        &[],
        Due {
            lines: "stop,finished\n",
            after: &[(A, &[44]), (B, &[255]), (C, &[4464])],
        },
    ),
    (
        "raw and normalized value aren't",
        &[
            &[op::SETIN, BIG, 2, 2],
            &[op::SETIN, BIG, 2, 3],
            &[op::SETIN, BIG, 2, 5],
            &[op::GETIN, A, 2, 2],
            &[op::GETIN, B, 2, 3],
            &[op::GETIN, C, 2, 5],
            FINISH,
        ],
        &[],
        Due {
            lines: "stop,finished\n",
            after: &[(A, &[0]), (B, &[0]), (C, &[44])],
        },
    ),
    (
        "a reading",
        &[
            &[op::GETIN, A, 1, 2],
            &[op::GETIN, B, 1, 3],
            &[op::GETIN, C, 1, 4],
            FINISH,
        ],
        &[Outside::Reading(1, 700, 65535, -40)],
        Due {
            lines: "stop,finished\n",
            after: &[(A, &[700]), (B, &[65535]), (C, &[-40])],
        },
    ),
    (
        "sensors are apart",
        &[
            &[op::GETIN, A, 0, 2],
            &[op::GETIN, B, 3, 2],
            &[op::GETIN, C, 2, 4],
            FINISH,
        ],
        &[
            Outside::Reading(3, 700, 65535, -40),
            Outside::Reading(4, 1, 2, 3),
        ],
        Due {
            lines: "stop,finished\n",
            after: &[(A, &[0]), (B, &[700]), (C, &[0])],
        },
    ),
    (
        "there is no port 4",
        &[
            &[op::SETIN, BIG, 4, 0],
            &[op::GETIN, A, 4, 0],
            &[op::GETIN, B, 0, 0],
            FINISH,
        ],
        &[],
        Due {
            lines: "stop,finished\n",
            after: &[(A, &[0]), (B, &[0])],
        },
    ),
    (
        "nor a port -1",
        &[
            &[op::SETIN, BIG, MINUS_ONE, 0],
            &[op::GETIN, A, MINUS_ONE, 0],
            FINISH,
        ],
        &[],
        Due {
            lines: "stop,finished\n",
            after: &[(A, &[0])],
        },
    ),
    (
        "nor a port 300",
        &[
            &[op::SETIN, BIG, BIG, 0],
            &[op::GETIN, A, BIG, 0],
            &[op::GETOUT, B, BIG, 2],
            FINISH,
        ],
        &[],
        Due {
            lines: "stop,finished\n",
            after: &[(A, &[0]), (B, &[0])],
        },
    ),
];

static MOTORS: [Case<'static>; 6] = [
    (
        "what the tacho told is read",
        &[
            &[op::GETOUT, A, 1, 3],
            &[op::GETOUT, B, 1, 4],
            &[op::GETOUT, C, 1, 14],
            FINISH,
        ],
        &[Outside::Tacho(1, -50, 1000, 20, -7)],
        Due {
            lines: "stop,finished\n",
            after: &[(A, &[-50]), (B, &[1000]), (C, &[-7])],
        },
    ),
    (
        "flags reset the counts, and become 0",
        &[
            &[op::SETOUT, 1, 2, BIG, 0, RESET],
            &[op::GETOUT, A, 1, 4],
            &[op::GETOUT, B, 1, 13],
            &[op::GETOUT, C, 1, 0],
            FINISH,
        ],
        &[Outside::Tacho(1, -50, 1000, 20, -7)],
        Due {
            lines: "motor,1,0,44,0,0,0,0\nstop,finished\n",
            after: &[(A, &[0]), (B, &[0]), (C, &[0])],
        },
    ),
    (
        "without flags nothing is taken over",
        &[
            &[op::SETOUT, 1, 5, MINUS_ONE],
            &[op::GETOUT, A, 1, 4],
            &[op::GETOUT, B, 1, 5],
            &[op::GETOUT, C, 3, 5],
            FINISH,
        ],
        &[Outside::Tacho(1, -50, 1000, 20, -7)],
        Due {
            lines: "stop,finished\n",
            after: &[(A, &[1000]), (B, &[-1]), (C, &[0])],
        },
    ),
    (
        "speed and overload aren't written",
        &[
            &[op::SETOUT, 0, 3, BIG, 9, BIG, 8, BIG],
            &[op::GETOUT, A, 0, 3],
            &[op::GETOUT, B, 0, 9],
            &[op::GETOUT, C, 0, 8],
            FINISH,
        ],
        &[],
        Due {
            lines: "stop,finished\n",
            after: &[(A, &[0]), (B, &[0]), (C, &[44])],
        },
    ),
    (
        "the ports of a list come in their order, each once",
        &[
            &[op::SETOUT, PORTS, 2, 4, 0, 2],
            &[op::GETOUT, A, 0, 2],
            &[op::GETOUT, B, 1, 2],
            &[op::GETOUT, C, 2, 2],
            FINISH,
        ],
        &[],
        Due {
            lines: "motor,0,0,4,0,0,0,0\nmotor,2,0,4,0,0,0,0\nstop,finished\n",
            after: &[(A, &[4]), (B, &[0]), (C, &[4])],
        },
    ),
    (
        "no ports, and none that there is",
        &[
            &[op::SETOUT, NOWHERE, 2, 4, 0, 2],
            &[op::SETOUT, 3, 2, 4, 0, 2],
            &[op::SETOUT, MINUS_ONE, 2, 4, 0, 2],
            &[op::GETOUT, A, 0, 2],
            FINISH,
        ],
        &[],
        Due {
            lines: "stop,finished\n",
            after: &[(A, &[0])],
        },
    ),
];

#[test]
fn sensors(rt: HostRuntime) -> Result<(), Fail> {
    check_all(&rt, rt.alloc(), &TABLE, &SENSORS)
}

#[test]
fn motors(rt: HostRuntime) -> Result<(), Fail> {
    check_all(&rt, rt.alloc(), &TABLE, &MOTORS)
}
