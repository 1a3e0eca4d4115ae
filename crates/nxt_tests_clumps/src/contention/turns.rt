// Turns of twenty bytecodes, and what ends them.

use super::{
    A, AGAIN, B, C, COUNT_A, Case, END, SHOW_1, SHOW_2, SHOW_3, SHOW_A, TABLE, WAIT_5, YIELD,
};
use nxt_images::{Image, Statement, cmp, op};
use nxt_types::words::LEFT_OUT;

const COUNT_B: Statement<'static> = &[op::ADD, B, B, 1];

const COUNT_C: Statement<'static> = &[op::ADD, C, C, 1];

const SHOW_B: Statement<'static> = &[op::SETOUT, 0, 5, B, 0, 1];

const SHOW_C: Statement<'static> = &[op::SETOUT, 0, 5, C, 0, 1];

// Goes back to a count, until it is 9: eighteen bytecodes together.
const UNTIL_9: Statement<'static> = &[op::BRCMP, cmp::LT, 0xFFFC, A, 9];

// Three clumps count without an end, in rounds of six bytecodes, four of which are counts.
const THREE_COUNT: Image<'static> = Image {
    clumps: &[0, 25, 50],
    code: &[
        COUNT_A, COUNT_A, COUNT_A, COUNT_A, SHOW_A, AGAIN, COUNT_B, COUNT_B, COUNT_B, COUNT_B,
        SHOW_B, AGAIN, COUNT_C, COUNT_C, COUNT_C, COUNT_C, SHOW_C, AGAIN,
    ],
    ..TABLE
};

// Three rounds a turn and two counts of the next round; after three turns of each, ten rounds are done.
const THREE_COUNT_SHOWN: &[u32] = &[
    4, 8, 12, 104, 108, 112, 204, 208, 212, 16, 20, 24, 116, 120, 124, 216, 220, 224, 28, 32, 36,
    40, 128, 132, 136, 140, 228, 232, 236, 240,
];

const YIELDS: Image<'static> = Image {
    clumps: &[0, 28],
    code: &[
        SHOW_1,
        YIELD,
        SHOW_1,
        &[op::WAIT, LEFT_OUT],
        SHOW_1,
        END,
        SHOW_2,
        SHOW_2,
        YIELD,
        SHOW_2,
        END,
    ],
    ..TABLE
};

// The first clump gives up its turn after four bytecodes, beside one that counts without an end.
const YIELDS_TO_COUNTS: Image<'static> = Image {
    clumps: &[0, 33],
    code: &[
        SHOW_1, SHOW_1, SHOW_1, YIELD, SHOW_1, END, COUNT_A, COUNT_A, COUNT_A, COUNT_A, SHOW_A,
        AGAIN,
    ],
    ..TABLE
};

// The first clump sleeps after four bytecodes, the second one counts without an end, and the third one shows 2.
const SLEEPS_BESIDE_COUNTS: Image<'static> = Image {
    clumps: &[0, 33, 58],
    code: &[
        SHOW_1, SHOW_1, SHOW_1, WAIT_5, SHOW_1, END, COUNT_A, COUNT_A, COUNT_A, COUNT_A, SHOW_A,
        AGAIN, SHOW_2, END,
    ],
    ..TABLE
};

// The same, but the first clump ends.
const ENDS_BESIDE_COUNTS: Image<'static> = Image {
    clumps: &[0, 24, 49],
    code: &[
        SHOW_1, SHOW_1, SHOW_1, END, COUNT_A, COUNT_A, COUNT_A, COUNT_A, SHOW_A, AGAIN, SHOW_2, END,
    ],
    ..TABLE
};

// The first clump gives up its turn with the twentieth bytecode.
const YIELDS_LAST: Image<'static> = Image {
    clumps: &[0, 27, 37],
    code: &[
        COUNT_A, UNTIL_9, SHOW_A, YIELD, SHOW_1, END, SHOW_2, END, SHOW_3, END,
    ],
    ..TABLE
};

// The first clump ends with the twentieth bytecode.
const ENDS_LAST: Image<'static> = Image {
    clumps: &[0, 18, 28],
    code: &[COUNT_A, UNTIL_9, SHOW_A, END, SHOW_2, END, SHOW_3, END],
    ..TABLE
};

pub static CASES: [Case<'static>; 8] = [
    (
        "turns end in the midst of counts",
        &THREE_COUNT,
        b"run,180\n",
        THREE_COUNT_SHOWN,
        "end,1\n",
    ),
    (
        "other rows leave the place in the turn",
        &THREE_COUNT,
        b"run,19\nrun,2\ntick,5\nrun,25\nrun,0\nrun,34\nrun,100\n",
        THREE_COUNT_SHOWN,
        "end,7\n",
    ),
    (
        "a wait of 0 gives up the turn",
        &YIELDS,
        b"run,50\n",
        &[1, 2, 2, 1, 2, 1],
        "stop,finished\nend,1\n",
    ),
    (
        "the next clump has a turn of its own",
        &YIELDS_TO_COUNTS,
        b"run,46\n",
        &[1, 1, 1, 4, 8, 12, 1, 16, 20, 24],
        "end,1\n",
    ),
    (
        "who sleeps leaves the turn, and who wakes waits for the end of another one",
        &SLEEPS_BESIDE_COUNTS,
        b"run,26\nrun,5\ntick,5\nrun,17\nrun,1\n",
        &[1, 1, 1, 4, 8, 12, 2, 16, 20, 24, 1, 28],
        "end,5\n",
    ),
    (
        "who ends leaves the turn",
        &ENDS_BESIDE_COUNTS,
        b"run,46\n",
        &[1, 1, 1, 4, 8, 12, 2, 16, 20, 24],
        "end,1\n",
    ),
    (
        "who gives up the turn at its end goes to the queue's end once",
        &YIELDS_LAST,
        b"run,50\n",
        &[9, 2, 3, 1],
        "stop,finished\nend,1\n",
    ),
    (
        "who ends at the turn's end leaves the next clump at the front",
        &ENDS_LAST,
        b"run,50\n",
        &[9, 2, 3],
        "stop,finished\nend,1\n",
    ),
];
