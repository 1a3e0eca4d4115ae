// Blocks that get longer where no hole is long enough. All gaps close, and what stood above makes room. The table stands
// from 4 to 56, and the lists reach from there to the end of the pool.

use crate::cases::{Case, check_all};
use crate::trial::Step::{Refused, Resize};
use std::test::Fail;

static SLIDE: [Case<'static>; 6] = [
    (
        "the lowest list",
        &[16, 16, 32_664, 16],
        &[Resize(1, 8), Resize(2, 8), Resize(1, 20)],
        &[4, 56, 76, 84, 32_748],
    ),
    (
        "a list between others gets all that is left",
        &[16, 16, 32_664, 16],
        &[
            Resize(1, 8),
            Resize(2, 8),
            Refused(2, 25),
            Resize(2, 24),
            Refused(2, 25),
        ],
        &[4, 56, 64, 88, 32_752],
    ),
    (
        "a list with most of the bytes gets all that is left",
        &[16, 16, 32_664, 16],
        &[Resize(1, 8), Resize(2, 8), Resize(3, 32_680)],
        &[4, 56, 64, 72, 32_752],
    ),
    (
        "the highest list gets all that is left",
        &[16, 16, 32_664, 16],
        &[Resize(1, 8), Resize(2, 8), Resize(4, 32)],
        &[4, 56, 64, 72, 32_736],
    ),
    (
        "one gap is left below a list that has none behind it",
        &[16, 16, 32_664, 16],
        &[Resize(2, 12), Resize(4, 20)],
        &[4, 56, 72, 84, 32_748],
    ),
    (
        "one gap is left above a list that is not next to it",
        &[16, 16, 32_664, 16],
        &[Resize(2, 12), Resize(1, 20)],
        &[4, 56, 76, 88, 32_752],
    ),
];

#[test]
fn lists_slide(rt: HostRuntime) -> Result<(), Fail> {
    check_all(&rt, rt.alloc(), &SLIDE)
}
