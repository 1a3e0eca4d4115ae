// Growths at the end of the pool.

ghost use Rattle.std.specs.Prelude.{◌≡◌};

use super::calls::room;
use super::{State, Step, check, started};
use nxt_images::{ARRAY, EMPTY, Image, NO_DEFAULT, UBYTE};
use nxt_space::{PoolPassed, Space};
use nxt_types::toc::Toc;
use std::process::Abort;
use std::test::Fail;

/// A list of bytes, and a list of lists of bytes.
static POOL: Image<'static> = Image {
    entries: &[
        (ARRAY, NO_DEFAULT, 0),
        (UBYTE, 0, 0),
        (ARRAY, NO_DEFAULT, 2),
        (ARRAY, 0, 0),
        (UBYTE, 0, 0),
    ],
    static_size: 4,
    rows: &[(4, 10, 1)],
    ..EMPTY
};

const BYTES: u16 = 0;

const NAMES: u16 = 2;

const NOTHING: State<'static> = State {
    parts: &[(BYTES, &[], &[0], 0), (NAMES, &[], &[0], 0)],
    rows: 3,
    footprint: 4 + 32,
};

const SHORT: State<'static> = State {
    parts: &[(BYTES, &[], &[2, 5, 6], 2), (NAMES, &[], &[0], 0)],
    rows: 3,
    footprint: 4 + 32 + 4,
};

const FULL: State<'static> = State {
    parts: &[
        (BYTES, &[0], &[7], 0),
        (BYTES, &[32731], &[0], 0),
        (NAMES, &[], &[0], 0),
    ],
    rows: 3,
    footprint: 4 + 32 + 32732,
};

static GROWTHS: [Step<'static>; 4] = [
    Step {
        at: BYTES,
        flat: &[2, 5, 6],
        answer: Ok(()),
        state: SHORT,
    },
    Step {
        at: BYTES,
        flat: &[32733, 8],
        answer: Err(PoolPassed(32772)),
        state: SHORT,
    },
    Step {
        at: BYTES,
        flat: &[32732, 7],
        answer: Ok(()),
        state: FULL,
    },
    Step {
        at: BYTES,
        flat: &[32733, 8],
        answer: Err(PoolPassed(32772)),
        state: FULL,
    },
];

#[test]
fn a_growth_is_refused_exactly_where_it_passes_the_pool(rt: HostRuntime) -> Result<(), Fail> {
    check(&rt, rt.alloc(), &POOL, &NOTHING, &GROWTHS)
}

// The rows of the table take 40 bytes where there are 4, and 52 where there are 5. The outer list takes 4 bytes with one
// element or two.
const ONE: State<'static> = State {
    parts: &[(NAMES, &[], &[1, 0], 1)],
    rows: 4,
    footprint: 4 + 40 + 4,
};

const ONE_AND_MORE: State<'static> = State {
    parts: &[(BYTES, &[0], &[3], 0), (NAMES, &[], &[1, 0], 1)],
    rows: 4,
    footprint: 4 + 40 + 4 + 32712,
};

static LONGER_TABLES: [Step<'static>; 8] = [
    Step {
        at: NAMES,
        flat: &[1, 0],
        answer: Ok(()),
        state: ONE,
    },
    Step {
        at: BYTES,
        flat: &[32709, 3],
        answer: Ok(()),
        state: ONE_AND_MORE,
    },
    Step {
        at: NAMES,
        flat: &[2, 0, 0],
        answer: Err(PoolPassed(32772)),
        state: ONE_AND_MORE,
    },
    Step {
        at: BYTES,
        flat: &[32708],
        answer: Ok(()),
        state: State {
            parts: &[],
            rows: 4,
            footprint: 4 + 40 + 4 + 32708,
        },
    },
    Step {
        at: NAMES,
        flat: &[2, 0, 0],
        answer: Ok(()),
        state: State {
            parts: &[(NAMES, &[], &[2, 0, 0], 2)],
            rows: 5,
            footprint: 4 + 52 + 4 + 32708,
        },
    },
    Step {
        at: NAMES,
        flat: &[0],
        answer: Ok(()),
        state: State {
            parts: &[(NAMES, &[], &[0], 0)],
            rows: 5,
            footprint: 4 + 52 + 32708,
        },
    },
    Step {
        at: BYTES,
        flat: &[32712],
        answer: Ok(()),
        state: State {
            parts: &[],
            rows: 5,
            footprint: 4 + 52 + 32712,
        },
    },
    // The list of one element takes 4 bytes, and the table stays.
    Step {
        at: NAMES,
        flat: &[1, 0],
        answer: Err(PoolPassed(32772)),
        state: State {
            parts: &[(NAMES, &[], &[0], 0)],
            rows: 5,
            footprint: 4 + 52 + 32712,
        },
    },
];

#[test]
fn a_growth_of_the_table_alone_is_refused(rt: HostRuntime) -> Result<(), Fail> {
    check(&rt, rt.alloc(), &POOL, &NOTHING, &LONGER_TABLES)
}

// By entry, bytes and lists. One list stands in each variable, so with one there are 3 rows, of 32 bytes.
static ROOMS: [(u16, u64, u64, Result<(), PoolPassed>); 8] = [
    (BYTES, 32732, 1, Ok(())),
    (BYTES, 32736, 1, Err(PoolPassed(32772))),
    (BYTES, 32732, 0, Ok(())),
    (NAMES, 32724, 2, Ok(())),
    (NAMES, 32724, 3, Err(PoolPassed(32780))),
    (NAMES, 32712, 3, Ok(())),
    (NAMES, 32716, 3, Err(PoolPassed(32772))),
    (NAMES, 1 << 60, 1, Err(PoolPassed((1 << 60) + 36))),
];

fn expect_rooms(rt: &impl Abort, toc: &Toc, space: &Space)
    requires { toc.now.shapes ≡ space.now.vars.shapes }
{
    for (i, bytes, lists, answer) in ROOMS {
        let found = room(rt, toc, space, i, bytes, lists);
        assert_eq!(rt; found, answer, "{lists} lists of {bytes} bytes at {i}");
    }
}

#[test]
fn room_is_told_before_a_growth(rt: HostRuntime) -> Result<(), Fail> {
    let program = started(rt.alloc(), &POOL)?;
    expect_rooms(&rt, program.layout.toc(), &program.space);
    Ok(())
}
