// Programs that a statement of one clump stops for all.

use super::{ACQUIRE_M, Case, END, SHOW_1, SHOW_2, SHOW_3, SHOW_4, TABLE, WAIT_5, YIELD};
use nxt_images::{ARRAY, EMPTY, Image, NO_DEFAULT, SLONG, UBYTE, op};
use nxt_types::words::LEFT_OUT;

// Clump 0 owns a mutex and sleeps, clump 1 waits for it, and clump 2 stops where its number isn't 0.
const STOPPED_BY_ONE: Image<'static> = Image {
    clumps: &[0, 14, 19],
    code: &[
        ACQUIRE_M,
        WAIT_5,
        SHOW_1,
        END,
        ACQUIRE_M,
        END,
        SHOW_2,
        &[op::STOP, 0],
        SHOW_3,
        &[op::STOP, 1],
        SHOW_4,
        &[op::STOP, LEFT_OUT],
    ],
    ..TABLE
};

// Clump 1 makes a list of 40,000 bytes. The port is at 0, 1 at 1, 2 at 2, the list at 3 and 40,000 at 5.
const PAST_THE_POOL: Image<'static> = Image {
    entries: &[
        (UBYTE, 0, 0),
        (UBYTE, 0, 1),
        (UBYTE, 0, 2),
        (ARRAY, NO_DEFAULT, 4),
        (UBYTE, 0, 0),
        (SLONG, 0, 6),
    ],
    static_size: 10,
    defaults: &[0, 1, 2, 64, 156, 0, 0],
    rows: &[(10, 10, 1)],
    clumps: &[0, 19],
    code: &[
        SHOW_1,
        YIELD,
        SHOW_1,
        END,
        SHOW_2,
        &[op::ARRINIT, 3, 0, 5],
        SHOW_2,
        END,
    ],
    ..EMPTY
};

pub static CASES: [Case<'static>; 2] = [
    (
        "a stop is for all, those who sleep and wait among them",
        &STOPPED_BY_ONE,
        b"run,50\ntick,5\nrun,50\n",
        &[2, 3],
        "stop,stopped\nend,3\n",
    ),
    (
        "a list that passes the pool",
        &PAST_THE_POOL,
        b"run,50\n",
        &[1, 2],
        "stop,memory,40032\nend,1\n",
    ),
];
