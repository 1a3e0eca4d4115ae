// Clumps that sleep, and the ticks that wake them.

use super::{
    A, ACQUIRE_M, AGAIN, CALLER, COUNT_A, Case, END, FULL_BYTE, MINUS_ONE, RELEASE_M, SHOW_1,
    SHOW_2, SHOW_3, SHOW_4, SHOW_A, TABLE, TIME, WAIT_1, WAIT_5, WAIT_9, YIELD,
};
use nxt_images::{Image, Statement, cmp, op};

const WAIT_3: Statement<'static> = &[op::WAIT, 3];

// Clumps 0 and 2 sleep until 5, clump 1 until 3, and clump 3 until 1 and then for 3 ms. Clump 0 is the last to fall asleep.
const FOUR_SLEEP: Image<'static> = Image {
    clumps: &[0, 14, 26, 38],
    code: &[
        YIELD, WAIT_5, SHOW_1, END, WAIT_3, SHOW_2, END, WAIT_5, SHOW_3, END, WAIT_1, SHOW_4,
        WAIT_3, SHOW_4, END,
    ],
    ..TABLE
};

// Two clumps sleep for 1 ms. Then the first one counts without an end.
const COUNTS_AFTER_SLEEP: Image<'static> = Image {
    clumps: &[0, 27],
    code: &[
        WAIT_1, COUNT_A, COUNT_A, COUNT_A, COUNT_A, SHOW_A, AGAIN, WAIT_1, SHOW_2, END,
    ],
    ..TABLE
};

// Shows the clock each 9 ms, as a number of 32 bits and as one of 8.
const SHOWS_CLOCK: Image<'static> = Image {
    clumps: &[0],
    code: &[
        &[op::GETTICK, TIME],
        &[op::SETOUT, 0, 5, TIME, 0, 1],
        &[op::GETTICK, CALLER],
        &[op::SETOUT, 0, 5, CALLER, 0, 1],
        WAIT_9,
        &[op::JMP, 0xFFEC],
    ],
    ..TABLE
};

const SLEEPS_LONG: Image<'static> = Image {
    clumps: &[0],
    code: &[&[op::WAIT, MINUS_ONE], SHOW_1, END],
    ..TABLE
};

// As many clumps as a program may have sleep until 1. Then all want one mutex, and count. The last one shows the count.
const MANY_SLEEP: Image<'static> = Image {
    clumps: &[0; 255],
    code: &[
        WAIT_1,
        ACQUIRE_M,
        YIELD,
        COUNT_A,
        &[op::BRCMP, cmp::LT, 11, A, FULL_BYTE],
        SHOW_A,
        RELEASE_M,
        END,
    ],
    ..TABLE
};

pub static CASES: [Case<'static>; 7] = [
    (
        "sleepers wake by their moments, and those of one moment by their numbers",
        &FOUR_SLEEP,
        b"run,100\ntick,0\nrun,100\ntick,2\nrun,100\ntick,2\nrun,100\ntick,9\nrun,100\n",
        &[4, 2, 1, 3, 4],
        "stop,finished\nend,9\n",
    ),
    (
        "one tick wakes several, but none whose moment is to come",
        &FOUR_SLEEP,
        b"run,100\ntick,9\nrun,100\ntick,2\nrun,100\n",
        &[4, 2, 1, 3],
        "end,5\n",
    ),
    (
        "bytecodes while all sleep do nothing, and are not of the next turn",
        &COUNTS_AFTER_SLEEP,
        b"run,15\ntick,1\nrun,22\n",
        &[4, 8, 12, 2],
        "end,3\n",
    ),
    (
        "the clock counts milliseconds, and is cut where it is stored",
        &SHOWS_CLOCK,
        b"run,10\ntick,4\nrun,10\ntick,5\nrun,10\ntick,1000000\nrun,10\n",
        &[0, 0, 9, 9, 1_000_009, 73],
        "end,7\n",
    ),
    (
        "a wait of -1 is the longest",
        &SLEEPS_LONG,
        b"run,5\ntick,1000000\nrun,5\n",
        &[],
        "end,3\n",
    ),
    (
        "255 clumps sleep, and then want one mutex",
        &MANY_SLEEP,
        b"run,255\ntick,1\nrun,1531\n",
        &[255],
        "stop,finished\nend,3\n",
    ),
    (
        "before its last bytecode the program runs",
        &MANY_SLEEP,
        b"run,255\ntick,1\nrun,1530\n",
        &[255],
        "end,3\n",
    ),
];
