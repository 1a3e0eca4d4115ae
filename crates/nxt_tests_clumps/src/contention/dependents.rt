// Dependents: which clumps are lowered, and when one that is lowered runs.

use super::{
    A, COUNT_A, Case, END, SHOW_0, SHOW_1, SHOW_2, SHOW_3, SHOW_4, SHOW_5, TABLE, WAIT_1, WAIT_5,
    WAIT_9, YIELD,
};
use nxt_images::{Image, Statement, cmp, op};

// Ends the clump, and lowers its first dependent.
const END_AND_LOWER: Statement<'static> = &[op::FINCLUMP, 0, 0];

// Two clumps lower the third, which lowers them again until it has run three times.
const ROUNDS: Image<'static> = Image {
    clumps: &[0, 10, 20],
    firing: &[(0, &[2]), (0, &[2]), (2, &[0, 1])],
    code: &[
        SHOW_1,
        END_AND_LOWER,
        SHOW_2,
        END_AND_LOWER,
        SHOW_3,
        COUNT_A,
        &[op::BRCMP, cmp::LT, 7, A, 3],
        END,
        &[op::FINCLUMP, 0, 1],
    ],
    ..TABLE
};

// Clumps 0 and 1 lower clump 2 at once, clump 3 does so at the moment 1, and clump 4 at 9. Clump 2 sleeps for 5 ms.
const LOWERED_ASLEEP: Image<'static> = Image {
    clumps: &[0, 0, 3, 22, 27],
    firing: &[(0, &[2]), (0, &[2]), (2, &[]), (0, &[2]), (0, &[2])],
    code: &[
        END_AND_LOWER,
        SHOW_3,
        WAIT_5,
        SHOW_4,
        END,
        WAIT_1,
        END_AND_LOWER,
        WAIT_9,
        END_AND_LOWER,
    ],
    ..TABLE
};

/// The dependents of each clump that lowers some, in `RANGES`. Clump 2 shows 3, and so on.
const FIVE: &[u8] = &[2, 0, 4, 1, 3];

// The clumps from 5 on run one after another, a millisecond apart, show 0, and lower dependents between two positions.
const RANGES: Image<'static> = Image {
    clumps: &[0, 10, 20, 30, 40, 50, 62, 74, 86, 98, 110, 122, 134],
    firing: &[
        (1, &[]),
        (1, &[]),
        (1, &[]),
        (1, &[]),
        (1, &[]),
        (0, FIVE),
        (0, FIVE),
        (0, FIVE),
        (0, FIVE),
        (0, FIVE),
        (0, FIVE),
        (0, FIVE),
        (0, FIVE),
    ],
    code: &[
        SHOW_1,
        END,
        SHOW_2,
        END,
        SHOW_3,
        END,
        SHOW_4,
        END,
        SHOW_5,
        END,
        YIELD,
        SHOW_0,
        &[op::FINCLUMP, 1, 3],
        // From -1 on.
        WAIT_1,
        SHOW_0,
        &[op::FINCLUMP, 0xFFFF, 1],
        &[op::WAIT, 2],
        SHOW_0,
        &[op::FINCLUMP, 3, 100],
        // From -32768 to 32767.
        &[op::WAIT, 3],
        SHOW_0,
        &[op::FINCLUMP, 0x8000, 0x7FFF],
        &[op::WAIT, 4],
        SHOW_0,
        &[op::FINCLUMP, 2, 1],
        // To -2.
        WAIT_5,
        SHOW_0,
        &[op::FINCLUMP, 0, 0xFFFE],
        &[op::WAIT, 6],
        SHOW_0,
        &[op::FINCLUMP, 5, 9],
        &[op::WAIT, 7],
        SHOW_0,
        &[op::FINCLUMP, 4, 5],
    ],
    ..TABLE
};

// The first clump names its dependent twice.
const NAMED_TWICE: Image<'static> = Image {
    clumps: &[0, 3],
    firing: &[(0, &[1, 1]), (2, &[])],
    code: &[&[op::FINCLUMP, 0, 1], SHOW_1, END],
    ..TABLE
};

// Each of two clumps lowers itself.
const THEMSELVES: Image<'static> = Image {
    clumps: &[0, 10],
    firing: &[(0, &[0])],
    code: &[SHOW_1, END_AND_LOWER, SHOW_2, &[op::FINCLUMPIMMED, 1]],
    ..TABLE
};

// Clumps 0 and 2 lower clump 1, which then lowers clump 3, which sleeps.
const ONE_AT_ONCE: Image<'static> = Image {
    clumps: &[0, 9, 18, 27],
    firing: &[(0, &[3]), (2, &[]), (0, &[3])],
    code: &[
        SHOW_1,
        &[op::FINCLUMPIMMED, 1],
        SHOW_3,
        &[op::FINCLUMPIMMED, 3],
        SHOW_2,
        &[op::FINCLUMPIMMED, 1],
        WAIT_5,
        END,
    ],
    ..TABLE
};

const LOWERED_TOO_SELDOM: Image<'static> = Image {
    clumps: &[0, 9],
    firing: &[(0, &[]), (2, &[])],
    code: &[SHOW_1, &[op::FINCLUMPIMMED, 1], SHOW_2, END],
    ..TABLE
};

// The second of three dependents is queued.
const QUEUED_DEPENDENT: Image<'static> = Image {
    clumps: &[0, 10, 20, 10],
    firing: &[(0, &[1, 2, 3]), (1, &[]), (0, &[]), (1, &[])],
    code: &[SHOW_1, &[op::FINCLUMP, 0, 2], SHOW_2, END, SHOW_3, END],
    ..TABLE
};

const NONE_QUEUED: Image<'static> = Image {
    clumps: &[0, 0],
    firing: &[(1, &[1]), (255, &[0])],
    code: &[SHOW_1, END],
    ..TABLE
};

pub static CASES: [Case<'static>; 12] = [
    (
        "a clump of fire count 2 runs once both are done, and as often as they are",
        &ROUNDS,
        b"run,24\n",
        &[1, 2, 3, 1, 2, 3, 1, 2, 3],
        "stop,finished\nend,1\n",
    ),
    (
        "a count falls while its clump sleeps",
        &LOWERED_ASLEEP,
        b"run,50\ntick,1\nrun,50\ntick,4\nrun,50\ntick,4\nrun,50\ntick,5\nrun,50\n",
        &[3, 4, 3, 4],
        "stop,finished\nend,9\n",
    ),
    (
        "a count falls while its clump is queued",
        &LOWERED_ASLEEP,
        b"run,50\ntick,9\nrun,50\n",
        &[3, 4, 3],
        "end,3\n",
    ),
    (
        "finclump lowers the dependents between two positions, in their order",
        &RANGES,
        b"run,99\ntick,1\nrun,99\ntick,1\nrun,99\ntick,1\nrun,99\ntick,1\nrun,99\ntick,1\nrun,99\ntick,1\nrun,99\ntick,1\nrun,99\n",
        &[
            0, 1, 5, 2, 0, 3, 1, 0, 2, 4, 0, 3, 1, 5, 2, 4, 0, 0, 0, 0, 4,
        ],
        "stop,finished\nend,15\n",
    ),
    (
        "a dependent that is named twice is lowered twice",
        &NAMED_TWICE,
        b"run,3\n",
        &[1],
        "stop,finished\nend,1\n",
    ),
    (
        "with fire count 1 it is queued the first time, and isn't idle the second time",
        &Image {
            firing: &[(0, &[1, 1]), (1, &[])],
            ..NAMED_TWICE
        },
        b"run,3\n",
        &[],
        "stop,active,1\nend,1\n",
    ),
    (
        "clumps that lower themselves run in turn",
        &THEMSELVES,
        b"run,10\n",
        &[1, 2, 1, 2, 1],
        "end,1\n",
    ),
    (
        "finclumpimmed lowers one clump and no dependents, and none that sleeps",
        &ONE_AT_ONCE,
        b"run,50\n",
        &[1, 2, 3],
        "stop,active,3\nend,1\n",
    ),
    (
        "a clump that is lowered too seldom doesn't run",
        &LOWERED_TOO_SELDOM,
        b"run,50\n",
        &[1],
        "stop,finished\nend,1\n",
    ),
    (
        "a dependent is queued already",
        &QUEUED_DEPENDENT,
        b"run,50\n",
        &[1],
        "stop,active,2\nend,1\n",
    ),
    (
        "no clump is queued at the start, and the first bytecode ends the program",
        &NONE_QUEUED,
        b"run,0\ntick,5\nrun,1\nrun,1\n",
        &[],
        "stop,finished\nend,4\n",
    ),
    (
        "before it the program runs",
        &NONE_QUEUED,
        b"run,0\ntick,5\n",
        &[],
        "end,2\n",
    ),
];
