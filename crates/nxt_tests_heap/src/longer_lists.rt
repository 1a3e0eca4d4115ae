// Lists that get longer, and stay or go into a hole. With four lists the table stands from 4 to 56, with five from 4 to 64,
// and the first list behind it.

use crate::cases::{Case, NONE, check_all};
use crate::trial::Step::{Compact, Free, Refused, Resize};
use std::test::Fail;

static STAY: [Case<'static>; 5] = [
    (
        "the lowest list, with a hole behind it that is just long enough",
        &[8, 8, 8, 8],
        &[Resize(2, 0), Resize(1, 16)],
        &[4, 56, NONE, 72, 80],
    ),
    (
        "a list between others",
        &[8, 8, 8, 8],
        &[Free(3), Resize(2, 13)],
        &[4, 56, 64, NONE, 80],
    ),
    (
        "the highest list",
        &[8, 8, 8, 8],
        &[Resize(4, 100), Resize(4, 101)],
        &[4, 56, 64, 72, 80],
    ),
    (
        "the highest list gets all that is left",
        &[8, 8, 8, 8],
        &[Resize(4, 32_688), Refused(4, 32_689)],
        &[4, 56, 64, 72, 80],
    ),
    (
        "the highest list reaches to the end of the pool above a gap",
        &[8, 8, 8, 8],
        &[Resize(1, 0), Resize(4, 32_688), Compact(1)],
        &[4, NONE, 56, 72, 80],
    ),
];

#[test]
fn lists_stay(rt: HostRuntime) -> Result<(), Fail> {
    check_all(&rt, rt.alloc(), &STAY)
}

static MOVE: [Case<'static>; 9] = [
    (
        "the lowest list, behind the last",
        &[8, 8, 8, 8],
        &[Resize(1, 9)],
        &[4, 88, 64, 72, 80],
    ),
    (
        "the lowest list, into a hole above it",
        &[8, 8, 12, 8],
        &[Resize(3, 0), Resize(1, 12)],
        &[4, 72, 64, NONE, 84],
    ),
    (
        "a list between others, into a hole above it",
        &[8, 8, 8, 12, 8],
        &[Free(4), Resize(2, 12)],
        &[4, 64, 88, 80, NONE, 100],
    ),
    (
        "a list between others, into the hole below it",
        &[12, 8, 8, 8],
        &[Free(1), Resize(2, 12)],
        &[4, NONE, 56, 76, 84],
    ),
    (
        "the lower of two holes",
        &[12, 8, 8, 12, 8],
        &[Free(4), Free(1), Resize(2, 10)],
        &[4, NONE, 64, 84, NONE, 104],
    ),
    (
        "the hole below is a byte too short",
        &[12, 8, 8, 16, 8],
        &[Free(1), Free(4), Resize(2, 13)],
        &[4, NONE, 92, 84, NONE, 108],
    ),
    (
        "the hole below would be long enough with the list's own bytes",
        &[8, 8, 8, 8],
        &[Free(1), Resize(2, 12)],
        &[4, NONE, 88, 72, 80],
    ),
    (
        "the holes below and behind would be long enough together",
        &[8, 8, 8, 8],
        &[Free(1), Free(3), Resize(2, 20)],
        &[4, NONE, 88, NONE, 80],
    ),
    (
        "the highest list, into a hole below it",
        &[16, 32_700, 8],
        &[Resize(1, 0), Resize(3, 16)],
        &[4, NONE, 60, 44],
    ),
];

#[test]
fn lists_move_into_holes(rt: HostRuntime) -> Result<(), Fail> {
    check_all(&rt, rt.alloc(), &MOVE)
}
