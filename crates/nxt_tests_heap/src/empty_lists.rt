// Lists without bytes that get some. With four lists the table stands from 4 to 56, with five from 4 to 64.

use crate::cases::{Case, NONE, check_all};
use crate::trial::Step::{New, Refused, Resize};
use std::test::Fail;

static FIRST_BYTES: [Case<'static>; 5] = [
    (
        "into a hole below all others, which is just long enough",
        &[8, 8, 8, 8],
        &[New(1), Resize(5, 52)],
        &[88, 56, 64, 72, 80, 4],
    ),
    (
        "the hole below all others is a byte too short",
        &[8, 8, 8, 8],
        &[New(1), Resize(5, 53)],
        &[88, 56, 64, 72, 80, 148],
    ),
    (
        "into the lower of two holes between others",
        &[8, 12, 8, 12, 8, 0],
        &[Resize(4, 0), Resize(2, 0), Resize(6, 9)],
        &[4, 76, NONE, 96, NONE, 116, 84],
    ),
    (
        "behind the last",
        &[8, 8, 8, 8, 0],
        &[Resize(5, 1)],
        &[4, 64, 72, 80, 88, 96],
    ),
    (
        "a list that had bytes before",
        &[8, 8, 8, 8],
        &[Resize(2, 0), Resize(3, 0), Resize(2, 16), Resize(3, 4)],
        &[4, 56, 64, 88, 80],
    ),
];

#[test]
fn empty_lists_go_into_holes(rt: HostRuntime) -> Result<(), Fail> {
    check_all(&rt, rt.alloc(), &FIRST_BYTES)
}

static GAPS_CLOSE: [Case<'static>; 4] = [
    (
        "one gap is just long enough",
        &[16, 16, 32_656, 16, 0],
        &[Resize(1, 8), Resize(2, 8), Resize(5, 8)],
        &[4, 64, 80, 96, 32_752, 72],
    ),
    (
        "each gap is a byte too short",
        &[16, 16, 32_656, 16, 0],
        &[Resize(1, 8), Resize(2, 8), Resize(5, 9)],
        &[4, 64, 72, 80, 32_736, 32_752],
    ),
    (
        "all gaps together are just long enough",
        &[16, 16, 32_656, 16, 0],
        &[Resize(1, 8), Resize(2, 8), Resize(5, 16)],
        &[4, 64, 72, 80, 32_736, 32_752],
    ),
    (
        "all gaps together are a byte too short",
        &[16, 16, 32_656, 16, 0],
        &[Resize(1, 8), Resize(2, 8), Refused(5, 17)],
        &[4, 64, 80, 96, 32_752, NONE],
    ),
];

#[test]
fn empty_lists_close_gaps(rt: HostRuntime) -> Result<(), Fail> {
    check_all(&rt, rt.alloc(), &GAPS_CLOSE)
}
