// Subroutines: calls and returns.

use super::{
    ACQUIRE_M, AGAIN, CALLER, COUNT_A, Case, END, MINUS_ONE, OTHER_CALLER, PAST_BYTE, RELEASE_M,
    SHOW_1, SHOW_2, SHOW_3, SHOW_4, SHOW_5, SHOW_A, TABLE, WAIT_5, YIELD,
};
use nxt_images::{Image, Statement, op};

const CALL_0: Statement<'static> = &[op::SUBCALL, 0, OTHER_CALLER];

const CALL_1: Statement<'static> = &[op::SUBCALL, 1, CALLER];

const CALL_2: Statement<'static> = &[op::SUBCALL, 2, CALLER];

const SHOW_CALLER: Statement<'static> = &[op::SETOUT, 0, 5, CALLER, 0, 1];

const SHOW_OTHER_CALLER: Statement<'static> = &[op::SETOUT, 0, 5, OTHER_CALLER, 0, 1];

const RETURN: Statement<'static> = &[op::SUBRET, CALLER];

const RETURN_TO_OTHER: Statement<'static> = &[op::SUBRET, OTHER_CALLER];

// Two clumps call the same subroutine, one after another, while they own a mutex.
const SHARED: Image<'static> = Image {
    clumps: &[0, 17, 34],
    firing: &[(0, &[]), (0, &[]), (1, &[])],
    code: &[
        ACQUIRE_M,
        CALL_2,
        SHOW_4,
        RELEASE_M,
        END,
        ACQUIRE_M,
        CALL_2,
        SHOW_5,
        RELEASE_M,
        END,
        SHOW_CALLER,
        RETURN,
    ],
    ..TABLE
};

// Clump 0 calls clump 1, which calls clump 2.
const NESTED: Image<'static> = Image {
    clumps: &[0, 13, 25],
    firing: &[(0, &[]), (1, &[]), (1, &[])],
    code: &[
        CALL_1,
        SHOW_4,
        END,
        &[op::SUBCALL, 2, OTHER_CALLER],
        SHOW_5,
        RETURN,
        SHOW_OTHER_CALLER,
        RETURN_TO_OTHER,
    ],
    ..TABLE
};

// Clump 0 calls clump 2, and clump 1 calls clump 3. Each returns to the other's caller.
const CROSSED: Image<'static> = Image {
    clumps: &[0, 13, 26, 35],
    firing: &[(0, &[]), (0, &[]), (1, &[]), (1, &[])],
    code: &[
        CALL_2,
        SHOW_4,
        END,
        &[op::SUBCALL, 3, OTHER_CALLER],
        SHOW_5,
        END,
        SHOW_CALLER,
        RETURN_TO_OTHER,
        SHOW_OTHER_CALLER,
        RETURN,
    ],
    ..TABLE
};

// Clump 2 has the fire count 2. Clump 0 calls it and then lowers it, and clump 1 lowers it at 5.
const CALLED_AND_LOWERED: Image<'static> = Image {
    clumps: &[0, 13, 25],
    firing: &[(0, &[2]), (0, &[2]), (2, &[])],
    code: &[
        CALL_2,
        SHOW_4,
        &[op::FINCLUMP, 0, 0],
        WAIT_5,
        SHOW_5,
        &[op::FINCLUMP, 0, 0],
        SHOW_3,
        RETURN,
    ],
    ..TABLE
};

// The first clump calls after four bytecodes, the second one counts without an end, and the third one shows 2.
const CALLS_BESIDE_COUNTS: Image<'static> = Image {
    clumps: &[0, 34, 59, 69],
    firing: &[(0, &[]), (0, &[]), (0, &[]), (1, &[])],
    code: &[
        SHOW_1,
        SHOW_1,
        SHOW_1,
        &[op::SUBCALL, 3, CALLER],
        SHOW_1,
        END,
        COUNT_A,
        COUNT_A,
        COUNT_A,
        COUNT_A,
        SHOW_A,
        AGAIN,
        SHOW_2,
        END,
        SHOW_3,
        RETURN,
    ],
    ..TABLE
};

const CALLED_BY_TWO: Image<'static> = Image {
    clumps: &[0, 13, 26],
    firing: &[(0, &[]), (0, &[]), (1, &[])],
    code: &[
        CALL_2,
        SHOW_4,
        END,
        CALL_2,
        SHOW_5,
        END,
        SHOW_CALLER,
        RETURN,
    ],
    ..TABLE
};

const CALLS_SLEEPER: Image<'static> = Image {
    clumps: &[0, 8],
    code: &[YIELD, CALL_1, END, WAIT_5, RETURN],
    ..TABLE
};

// The subroutine calls its caller.
const CALLED_BACK: Image<'static> = Image {
    clumps: &[0, 6],
    firing: &[(0, &[]), (1, &[])],
    code: &[CALL_1, END, SHOW_1, CALL_0, RETURN],
    ..TABLE
};

const CALLS_ITSELF: Image<'static> = Image {
    clumps: &[0],
    code: &[SHOW_1, CALL_0, END],
    ..TABLE
};

// A subroutine that ends and doesn't return.
const ENDS: Image<'static> = Image {
    clumps: &[0, 13],
    firing: &[(0, &[]), (1, &[])],
    code: &[CALL_1, SHOW_1, END, SHOW_2, END],
    ..TABLE
};

// A subroutine that returns to its own number.
const RETURNS_TO_ITSELF: Image<'static> = Image {
    clumps: &[0, 13],
    firing: &[(0, &[]), (1, &[])],
    code: &[CALL_1, SHOW_1, END, SHOW_CALLER, &[op::SUBRET, 1]],
    ..TABLE
};

pub static CASES: [Case<'static>; 13] = [
    (
        "a subroutine is told its caller, and returns to it",
        &SHARED,
        b"run,50\n",
        &[0, 4, 1, 5],
        "stop,finished\nend,1\n",
    ),
    (
        "a subroutine calls another one",
        &NESTED,
        b"run,50\n",
        &[1, 5, 4],
        "stop,finished\nend,1\n",
    ),
    (
        "a return is to any clump that calls",
        &CROSSED,
        b"run,50\n",
        &[0, 1, 5, 4],
        "stop,finished\nend,1\n",
    ),
    (
        "a call leaves the count, and a clump that was lowered has no caller",
        &CALLED_AND_LOWERED,
        b"run,50\ntick,5\nrun,50\n",
        &[3, 4, 5, 3],
        "stop,no_caller,0\nend,3\n",
    ),
    (
        "who calls leaves the turn",
        &CALLS_BESIDE_COUNTS,
        b"run,50\n",
        &[1, 1, 1, 4, 8, 12, 2, 3, 16, 20, 24, 1],
        "end,1\n",
    ),
    (
        "a subroutine is called that another clump called",
        &CALLED_BY_TWO,
        b"run,50\n",
        &[],
        "stop,active,2\nend,1\n",
    ),
    (
        "a clump is called that sleeps",
        &CALLS_SLEEPER,
        b"run,50\n",
        &[],
        "stop,active,1\nend,1\n",
    ),
    (
        "a clump is called that calls",
        &CALLED_BACK,
        b"run,50\n",
        &[1],
        "stop,active,0\nend,1\n",
    ),
    (
        "a clump calls itself",
        &CALLS_ITSELF,
        b"run,50\n",
        &[1],
        "stop,active,0\nend,1\n",
    ),
    (
        "a subroutine that ends leaves its caller stuck",
        &ENDS,
        b"run,50\n",
        &[2],
        "stop,stuck\nend,1\n",
    ),
    (
        "a return to the clump itself",
        &RETURNS_TO_ITSELF,
        b"run,50\n",
        &[0],
        "stop,no_caller,1\nend,1\n",
    ),
    (
        "a return to 256 while clump 0 calls",
        &Image {
            code: &[CALL_1, SHOW_1, END, SHOW_CALLER, &[op::SUBRET, PAST_BYTE]],
            ..RETURNS_TO_ITSELF
        },
        b"run,50\n",
        &[0],
        "stop,no_caller,256\nend,1\n",
    ),
    (
        "a return to -1",
        &Image {
            code: &[CALL_1, SHOW_1, END, SHOW_CALLER, &[op::SUBRET, MINUS_ONE]],
            ..RETURNS_TO_ITSELF
        },
        b"run,50\n",
        &[0],
        "stop,no_caller,4294967295\nend,1\n",
    ),
];
