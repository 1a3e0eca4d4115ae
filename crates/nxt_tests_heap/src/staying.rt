// What moves no block, and blocks that settle. The table stands from 4 to 56, and the lists of 8 bytes behind it.

use crate::cases::{Case, NONE, check_all};
use crate::trial::Step::{Compact, Free, New, Resize};
use std::test::Fail;

static STILL: [Case<'static>; 5] = [
    (
        "shorter lists",
        &[8, 8, 8, 8],
        &[Resize(2, 5), Resize(2, 4), Resize(1, 1), Resize(4, 3)],
        &[4, 56, 64, 72, 80],
    ),
    (
        "lists that keep their bytes, or lose all",
        &[8, 8, 8, 8],
        &[
            Resize(2, 8),
            Resize(1, 0),
            Resize(1, 0),
            Resize(3, 7),
            Resize(4, 0),
        ],
        &[4, NONE, 64, 72, NONE],
    ),
    (
        "freed lists",
        &[8, 8, 8, 8],
        &[Free(1), Free(4), Free(3), Free(2)],
        &[4, NONE, NONE, NONE, NONE],
    ),
    (
        "shorter and freed lists below the table",
        &[8, 8, 8, 8],
        &[New(2), Free(1), Resize(3, 5), Resize(4, 0), New(3)],
        &[88, NONE, 64, 72, NONE, NONE],
    ),
    (
        "no block may settle",
        &[8, 8, 8, 8],
        &[Free(1), Compact(0)],
        &[4, NONE, 64, 72, 80],
    ),
];

#[test]
fn blocks_stay(rt: HostRuntime) -> Result<(), Fail> {
    check_all(&rt, rt.alloc(), &STILL)
}

static SETTLE: [Case<'static>; 5] = [
    (
        "the lowest block with a gap below",
        &[8, 8, 8, 8],
        &[Free(1), Compact(1)],
        &[4, NONE, 56, 72, 80],
    ),
    (
        "the two lowest",
        &[8, 8, 8, 8],
        &[Free(1), Compact(2)],
        &[4, NONE, 56, 64, 80],
    ),
    (
        "all of them, and none again",
        &[8, 8, 8, 8],
        &[Free(1), Free(3), Compact(9), Compact(9)],
        &[4, NONE, 56, NONE, 64],
    ),
    (
        "the table behind the lists",
        &[8, 8, 8, 8],
        &[New(1), Free(2), Compact(9)],
        &[28, 4, NONE, 12, 20, NONE],
    ),
    (
        "the table among the lists, one block after another",
        &[8, 8, 8, 8],
        &[
            New(1),
            Resize(5, 100),
            Compact(1),
            Compact(2),
            Compact(1),
            Compact(1),
            Compact(1),
        ],
        &[36, 4, 12, 20, 28, 96],
    ),
];

#[test]
fn blocks_settle(rt: HostRuntime) -> Result<(), Fail> {
    check_all(&rt, rt.alloc(), &SETTLE)
}
