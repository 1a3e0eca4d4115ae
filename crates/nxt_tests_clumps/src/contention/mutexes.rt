// Mutexes: who owns one, and who is next.

use super::{
    A, ACQUIRE_M, ACQUIRE_N, AGAIN, COUNT_A, Case, END, RELEASE_M, RELEASE_N, SHOW_1, SHOW_2,
    SHOW_3, SHOW_4, SHOW_5, SHOW_A, TABLE, WAIT_1, WAIT_5, WAIT_9, YIELD,
};
use nxt_images::{Image, cmp, op};

// Clump 0 owns the mutex until 9. Clump 3 wants it at 1, clump 1 at 2 and clump 2 at 3.
const WANTED_BY_THREE: Image<'static> = Image {
    clumps: &[0, 23, 39, 55],
    code: &[
        ACQUIRE_M,
        WAIT_9,
        SHOW_1,
        RELEASE_M,
        SHOW_5,
        END,
        &[op::WAIT, 2],
        ACQUIRE_M,
        SHOW_2,
        RELEASE_M,
        END,
        &[op::WAIT, 3],
        ACQUIRE_M,
        SHOW_3,
        RELEASE_M,
        END,
        WAIT_1,
        ACQUIRE_M,
        SHOW_4,
        RELEASE_M,
        END,
    ],
    ..TABLE
};

// The owner releases its mutex while two wait for it, and acquires it again.
const WANTED_AGAIN: Image<'static> = Image {
    clumps: &[0, 27, 41],
    code: &[
        ACQUIRE_M, SHOW_1, YIELD, RELEASE_M, ACQUIRE_M, SHOW_1, RELEASE_M, END, ACQUIRE_M, SHOW_2,
        RELEASE_M, END, ACQUIRE_M, SHOW_3, RELEASE_M, END,
    ],
    ..TABLE
};

// Clump 0 acquires its mutex twice, clump 1 wants it too, and clump 2 sleeps.
const TAKEN_TWICE: Image<'static> = Image {
    clumps: &[0, 21, 33],
    code: &[
        ACQUIRE_M, SHOW_1, ACQUIRE_M, SHOW_1, END, SHOW_2, ACQUIRE_M, END, WAIT_5, SHOW_3, END,
    ],
    ..TABLE
};

// The first clump waits for itself after four bytecodes, and the second one counts without an end.
const WAITS_BESIDE_COUNTS: Image<'static> = Image {
    clumps: &[0, 21, 46],
    code: &[
        ACQUIRE_M, SHOW_1, SHOW_1, ACQUIRE_M, END, COUNT_A, COUNT_A, COUNT_A, COUNT_A, SHOW_A,
        AGAIN, SHOW_2, END,
    ],
    ..TABLE
};

const ENDED_OWNER: Image<'static> = Image {
    clumps: &[0, 5],
    code: &[ACQUIRE_M, END, SHOW_2, ACQUIRE_M, END],
    ..TABLE
};

const WANT_EACH_OTHERS: Image<'static> = Image {
    clumps: &[0, 16],
    code: &[
        ACQUIRE_M, YIELD, ACQUIRE_N, SHOW_1, END, ACQUIRE_N, YIELD, ACQUIRE_M, SHOW_2, END,
    ],
    ..TABLE
};

// Clump 0 owns both mutexes, and releases M first. Clumps 1 and 3 want N, and clump 2 wants M.
const TWO_MUTEXES: Image<'static> = Image {
    clumps: &[0, 13, 27, 41],
    code: &[
        ACQUIRE_M, ACQUIRE_N, YIELD, RELEASE_M, RELEASE_N, END, ACQUIRE_N, SHOW_2, RELEASE_N, END,
        ACQUIRE_M, SHOW_3, RELEASE_M, END, ACQUIRE_N, SHOW_4, RELEASE_N, END,
    ],
    ..TABLE
};

// Clump 0 releases the mutex that clump 1 wants with the twentieth bytecode of a turn.
const RELEASED_LAST: Image<'static> = Image {
    clumps: &[0, 31],
    code: &[
        ACQUIRE_M,
        YIELD,
        COUNT_A,
        &[op::BRCMP, cmp::LT, 0xFFFC, A, 9],
        SHOW_A,
        RELEASE_M,
        SHOW_1,
        END,
        ACQUIRE_M,
        SHOW_2,
        RELEASE_M,
        END,
    ],
    ..TABLE
};

const RELEASED_TWICE: Image<'static> = Image {
    clumps: &[0],
    code: &[ACQUIRE_M, RELEASE_M, SHOW_1, RELEASE_M, END],
    ..TABLE
};

// Clump 0 owns N. Clump 1 owns M, and releases N.
const RELEASED_BY_ANOTHER: Image<'static> = Image {
    clumps: &[0, 14],
    code: &[
        ACQUIRE_N, YIELD, SHOW_1, END, ACQUIRE_M, SHOW_2, RELEASE_N, END,
    ],
    ..TABLE
};

pub static CASES: [Case<'static>; 11] = [
    (
        "a mutex goes to those who want it in the order in which they came",
        &WANTED_BY_THREE,
        b"run,20\ntick,1\nrun,20\ntick,1\nrun,20\ntick,1\nrun,20\ntick,6\nrun,20\n",
        &[1, 5, 4, 2, 3],
        "stop,finished\nend,9\n",
    ),
    (
        "who wakes first comes first",
        &WANTED_BY_THREE,
        b"run,20\ntick,9\nrun,20\n",
        &[1, 5, 4, 2, 3],
        "stop,finished\nend,3\n",
    ),
    (
        "who gives a mutex away and wants it again waits last",
        &WANTED_AGAIN,
        b"run,16\n",
        &[1, 2, 3, 1],
        "stop,finished\nend,1\n",
    ),
    (
        "an owner that acquires its mutex waits for itself, and the program is stuck when nobody sleeps",
        &TAKEN_TWICE,
        b"run,50\ntick,5\nrun,50\n",
        &[1, 2, 3],
        "stop,stuck\nend,3\n",
    ),
    (
        "who waits leaves the turn",
        &WAITS_BESIDE_COUNTS,
        b"run,46\n",
        &[1, 1, 4, 8, 12, 2, 16, 20, 24],
        "end,1\n",
    ),
    (
        "a clump that ends keeps its mutex",
        &ENDED_OWNER,
        b"run,50\n",
        &[2],
        "stop,stuck\nend,1\n",
    ),
    (
        "each of two owns what the other one wants",
        &WANT_EACH_OTHERS,
        b"run,50\n",
        &[],
        "stop,stuck\nend,1\n",
    ),
    (
        "each mutex has waiters of its own",
        &TWO_MUTEXES,
        b"run,50\n",
        &[3, 2, 4],
        "stop,finished\nend,1\n",
    ),
    (
        "the next owner is queued before the turn ends",
        &RELEASED_LAST,
        b"run,50\n",
        &[9, 2, 1],
        "stop,finished\nend,1\n",
    ),
    (
        "a free mutex is released",
        &RELEASED_TWICE,
        b"run,50\n",
        &[1],
        "stop,not_owner,19\nend,1\n",
    ),
    (
        "a mutex is released by a clump that owns another one",
        &RELEASED_BY_ANOTHER,
        b"run,50\n",
        &[2],
        "stop,not_owner,20\nend,1\n",
    ),
];
