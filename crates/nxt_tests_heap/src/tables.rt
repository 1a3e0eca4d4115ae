// The table gets a row more. With four lists it stands from 4 to 56, and needs 60 bytes with a fifth and 72 with a sixth.

use crate::cases::{Case, NONE, check_all};
use crate::trial::Step::{Free, New, Resize};
use std::test::Fail;

static TABLES: [Case<'static>; 10] = [
    (
        "it stays below the lists",
        &[8, 8, 8, 8],
        &[Resize(1, 0), New(1)],
        &[4, NONE, 64, 72, 80, NONE],
    ),
    (
        "from below the lists behind the last",
        &[8, 8, 8, 8],
        &[New(1)],
        &[88, 56, 64, 72, 80, NONE],
    ),
    (
        "from below the lists into a hole between them",
        &[8, 60, 8, 8],
        &[Resize(2, 0), New(1)],
        &[64, 56, NONE, 124, 132, NONE],
    ),
    (
        "it stays above the lists",
        &[8, 8, 8, 8],
        &[New(1), New(1)],
        &[88, 56, 64, 72, 80, NONE, NONE],
    ),
    (
        "from between the lists behind the last",
        &[8, 8, 8, 8],
        &[New(1), Resize(5, 80), New(1)],
        &[228, 56, 64, 72, 80, 148, NONE],
    ),
    (
        "from between the lists into a hole below them",
        &[8, 8, 8, 8],
        &[
            New(1),
            Resize(5, 32_620),
            Resize(1, 0),
            Resize(2, 0),
            Resize(3, 0),
            New(1),
        ],
        &[4, NONE, NONE, NONE, 80, 148, NONE],
    ),
    (
        "from above the lists into a hole below them",
        &[40, 32_652],
        &[New(1), Resize(1, 0), New(1)],
        &[4, NONE, 76, NONE, NONE],
    ),
    (
        "it slides below the lists",
        &[16, 16, 32_664, 16],
        &[Resize(1, 8), Resize(2, 8), New(1)],
        &[4, 64, 72, 80, 32_744, NONE],
    ),
    (
        "it slides between the lists",
        &[8, 8, 8, 8],
        &[New(1), Resize(5, 32_620), New(1)],
        &[36, 4, 12, 20, 28, 108, NONE],
    ),
    (
        "it slides above the lists",
        &[32_712],
        &[New(1), New(1)],
        &[32_716, 4, NONE, NONE],
    ),
];

#[test]
fn tables_grow(rt: HostRuntime) -> Result<(), Fail> {
    check_all(&rt, rt.alloc(), &TABLES)
}

static FREE_ROWS: [Case<'static>; 2] = [
    (
        "a free row is taken, and the table stays as it is",
        &[8, 8, 8, 8],
        &[Free(2), New(2), Free(4), New(4)],
        &[4, 56, NONE, 72, NONE],
    ),
    (
        "both free rows are taken before the table grows",
        &[8, 8, 8, 8],
        &[New(1), Free(1), Free(3), New(1), New(3), New(1)],
        &[88, NONE, 64, NONE, 80, NONE, NONE],
    ),
];

#[test]
fn free_rows_are_taken_first(rt: HostRuntime) -> Result<(), Fail> {
    check_all(&rt, rt.alloc(), &FREE_ROWS)
}
