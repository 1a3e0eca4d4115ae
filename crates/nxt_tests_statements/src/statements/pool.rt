// Growths at the end of the pool of 32768 bytes. The static bytes take 16, a table of 4 rows takes 40, and each row more
// another 10 before it is rounded up to a multiple of 4.

use super::lists::LEFT;
use super::{Case, DONE, Story, check_all, check_cases};
use nxt_images::{ARRAY, EMPTY, Image, NO_DEFAULT, SLONG, UBYTE, ULONG, op};
use nxt_space::OpFault;
use std::test::Fail;

/// A list of ubyte, [1, 2, 3].
const LIST: u16 = 0;

/// An empty list of lists of ubyte.
const NESTED: u16 = 2;

/// An empty list of ubyte.
const NOTHING: u16 = 5;

const UL: u16 = 7;

const SL: u16 = 8;

const UB: u16 = 9;

static POOL: Image<'static> = Image {
    entries: &[
        (ARRAY, 0, 0),
        (UBYTE, 0, 0),
        (ARRAY, 0, 2),
        (ARRAY, 0, 0),
        (UBYTE, 0, 0),
        (ARRAY, 0, 4),
        (UBYTE, 0, 0),
        (ULONG, NO_DEFAULT, 6),
        (SLONG, NO_DEFAULT, 10),
        (UBYTE, NO_DEFAULT, 14),
    ],
    static_size: 15,
    defaults: &[1, 0, 0, 0, 0, 0],
    rows: &[(15, 10, 2), (35, 1, 3)],
    lists: &[1, 2, 3],
    ..EMPTY
};

static STORIES: [Story<'static>; 6] = [
    // 16 + 40 + 32712 bytes are the whole pool. No list can grow then, but elements change.
    Story {
        before: &[(UL, 32712), (SL, 32711), (UB, 7)],
        steps: &[
            (&[op::ARRINIT, LIST, UB, UL], DONE),
            (
                &[op::ARRBUILD, LIST, LIST, UB],
                Err(OpFault::PoolPassed(32772)),
            ),
            (&[op::ARRTOSTR, LIST, LIST], Err(OpFault::PoolPassed(32772))),
            (
                &[op::STRCAT, LIST, LIST, LIST],
                Err(OpFault::PoolPassed(65484)),
            ),
            (
                &[op::ARRBUILD, NESTED, LIST, LIST],
                Err(OpFault::PoolPassed(98216)),
            ),
            (
                &[op::NUMTOSTR, NOTHING, UB],
                Err(OpFault::PoolPassed(32772)),
            ),
            (&[op::FLATTEN, NOTHING, UB], Err(OpFault::PoolPassed(32772))),
            (
                &[op::STRSUBSET, NOTHING, LIST, SL, LEFT],
                Err(OpFault::PoolPassed(32772)),
            ),
            (
                &[op::STRTOARR, NOTHING, LIST],
                Err(OpFault::PoolPassed(65480)),
            ),
            (
                &[op::REPLACE, NOTHING, LIST, SL, UB],
                Err(OpFault::PoolPassed(65480)),
            ),
            (
                &[op::ARRSUBSET, NOTHING, LIST, SL, LEFT],
                Err(OpFault::PoolPassed(32772)),
            ),
            (
                &[op::ARRINIT, NOTHING, UB, UB],
                Err(OpFault::PoolPassed(32776)),
            ),
            (&[op::ARRSUBSET, NOTHING, LIST, UL, LEFT], DONE),
            (&[op::REPLACE, LIST, LIST, LEFT, SL], DONE),
            (&[op::INDEX, UB, LIST, LEFT], DONE),
            (&[op::INDEX, SL, LIST, SL], DONE),
            (&[op::ARRSIZE, UL, LIST], DONE),
        ],
        after: &[
            (UL, &[32712]),
            (SL, &[7]),
            (UB, &[199]),
            (NOTHING, &[0]),
            (NESTED, &[0]),
        ],
    },
    Story {
        before: &[(UL, 32713), (UB, 7)],
        steps: &[(
            &[op::ARRINIT, LIST, UB, UL],
            Err(OpFault::PoolPassed(32772)),
        )],
        after: &[(LIST, &[3, 1, 2, 3]), (UL, &[32713])],
    },
    // -1 copies are 4294967295. With them there are 4294967298 lists, and a table of one row more.
    Story {
        before: &[(SL, -1), (UL, 4294967295)],
        steps: &[
            (
                &[op::ARRINIT, LIST, UB, SL],
                Err(OpFault::PoolPassed(4294967352)),
            ),
            (
                &[op::ARRINIT, NESTED, LIST, SL],
                Err(OpFault::PoolPassed(68719476784)),
            ),
            (
                &[op::ARRINIT, NESTED, NOTHING, UL],
                Err(OpFault::PoolPassed(51539607604)),
            ),
        ],
        after: &[
            (LIST, &[3, 1, 2, 3]),
            (NESTED, &[0]),
            (NOTHING, &[0]),
            (SL, &[-1]),
        ],
    },
    // The table of rows gets no shorter: with 5 lists it has 6 rows, in 60 bytes.
    Story {
        before: &[(UL, 2), (SL, 32692)],
        steps: &[
            (&[op::ARRINIT, NESTED, LIST, UL], DONE),
            (&[op::ARRINIT, NESTED, LIST, UB], DONE),
            (&[op::ARRINIT, LIST, UL, SL], DONE),
            (&[op::ARRTOSTR, LIST, LIST], Err(OpFault::PoolPassed(32772))),
            (&[op::ARRSIZE, UL, LIST], DONE),
            (&[op::ARRSIZE, UB, LIST], DONE),
        ],
        after: &[(NESTED, &[0]), (UL, &[32692]), (UB, &[180])],
    },
    // An empty list takes a row, of which the fifth makes the table 52 bytes and the sixth 60.
    Story {
        before: &[(SL, 32696)],
        steps: &[
            (&[op::ARRINIT, LIST, UB, SL], DONE),
            (&[op::ARRBUILD, NESTED, NOTHING], DONE),
            (
                &[op::ARRBUILD, NESTED, NESTED, NOTHING],
                Err(OpFault::PoolPassed(32776)),
            ),
        ],
        after: &[(NESTED, &[1, 0])],
    },
    // The old bytes of a list don't count beside the new ones.
    Story {
        before: &[(UL, 16355), (UB, 7)],
        steps: &[
            (&[op::ARRINIT, LIST, UB, UL], DONE),
            (&[op::STRCAT, LIST, LIST, LIST], DONE),
            (&[op::ARRSIZE, UL, LIST], DONE),
            (&[op::INDEX, UB, LIST, UL], DONE),
        ],
        after: &[(UL, &[32711]), (UB, &[0])],
    },
];

/// A list of ubyte, [1], whose elements are 5 bytes apart, and a number. 8 static bytes and a table of 20 come first.
const SPACED: Image<'static> = Image {
    entries: &[(ARRAY, 0, 0), (UBYTE, 0, 0), (ULONG, NO_DEFAULT, 2)],
    static_size: 6,
    defaults: &[1, 0],
    rows: &[(6, 10, 2), (26, 5, 1)],
    lists: &[1, 0, 0, 0, 0],
    ..EMPTY
};

static SPACED_STORIES: [Story<'static>; 2] = [
    Story {
        before: &[(2, 6548)],
        steps: &[
            (&[op::ARRINIT, 0, 2, 2], DONE),
            (&[op::ARRBUILD, 0, 0, 2], Err(OpFault::PoolPassed(32776))),
            (&[op::ARRSIZE, 2, 0], DONE),
        ],
        after: &[(2, &[6548])],
    },
    Story {
        before: &[(2, 6549)],
        steps: &[(&[op::ARRINIT, 0, 2, 2], Err(OpFault::PoolPassed(32776)))],
        after: &[(0, &[1, 1]), (2, &[6549])],
    },
];

#[test]
fn a_growth_that_passes_the_pool_is_refused(rt: HostRuntime) -> Result<(), Fail> {
    let alloc = rt.alloc();
    check_all(&rt, alloc, &POOL, &STORIES)?;
    check_all(&rt, alloc, &SPACED, &SPACED_STORIES)
}

/// A list of 20000 zeros of kind ubyte, and an empty one of slong.
static LONG: Image<'static> = Image {
    entries: &[(ARRAY, 0, 0), (UBYTE, 0, 0), (ARRAY, 0, 2), (SLONG, 0, 0)],
    static_size: 4,
    defaults: &[1, 0, 2, 0],
    rows: &[(4, 10, 3), (34, 1, 20000), (34, 4, 0)],
    zeros: 20000,
    ..EMPTY
};

// The list would take 80000 bytes, beside 4 static ones, a table of 32 and the other list.
static MOVES: [Case<'static>; 2] = [
    (
        &[op::MOV, 2, 0],
        &[],
        &[(2, &[0])],
        Err(OpFault::PoolPassed(100036)),
    ),
    (&[op::MOV, 0, 2], &[], &[(0, &[0]), (2, &[0])], DONE),
];

#[test]
fn a_move_that_passes_the_pool_is_refused(rt: HostRuntime) -> Result<(), Fail> {
    check_cases(&rt, rt.alloc(), &LONG, &MOVES)
}
