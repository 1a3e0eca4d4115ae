// Files with lists: each rule on rows with files that keep it and files that break it.

use nxt_images::{ARRAY, CLUSTER, EMPTY, Entry, Image, Row, UBYTE, UWORD, parts_of};
use nxt_layout::{LayoutFault, check_layout};
use std::alloc::Global;
use std::process::Abort;
use std::test::Fail;

/// A list of bytes.
static LIST: &[Entry] = &[(ARRAY, 0, 0), (UBYTE, 0, 0)];

/// Two lists of bytes.
static TWO: &[Entry] = &[(ARRAY, 0, 0), (UBYTE, 0, 0), (ARRAY, 0, 2), (UBYTE, 0, 0)];

/// A list of lists of bytes.
static NESTED: &[Entry] = &[(ARRAY, 0, 0), (ARRAY, 0, 0), (UBYTE, 0, 0)];

/// A list of clusters of a byte and a list of words.
static RECORDS: &[Entry] = &[
    (ARRAY, 0, 0),
    (CLUSTER, 0, 2),
    (UBYTE, 0, 0),
    (ARRAY, 0, 1),
    (UWORD, 0, 0),
];

/// What the static bytes hold, which are row numbers; the rows; the bytes behind them; and the bytes of the pool that the
/// start needs, or why the file is refused.
type Case<'a> = (&'a [u8], &'a [Row], &'a [u8], Result<u32, LayoutFault>);

// The bytes of the pool that the start of a file needs, with zeros behind its lists.
fn start_of<'a>(
    alloc: Global,
    entries: &'a [Entry],
    case: &Case<'a>,
    zeros: u16,
) -> Result<Result<u32, LayoutFault>, Fail> {
    let (numbers, rows, lists, _) = case;
    let image = Image {
        entries,
        static_size: u16::try_from(numbers.len())?,
        defaults: numbers,
        rows,
        lists,
        zeros,
        ..EMPTY
    };
    let parts = parts_of(alloc, &image)?;
    match check_layout(alloc, parts) {
        Ok((layout, _code)) => Ok(Ok(layout.footprint())),
        Err(fault) => Ok(Err(fault)),
    }
}

fn check<'a>(
    rt: &impl Abort,
    alloc: Global,
    entries: &'a [Entry],
    case: &Case<'a>,
    zeros: u16,
) -> Result<(), Fail> {
    let start = start_of(alloc, entries, case, zeros)?;
    assert_eq!(rt; start, case.3, "{:?} {:?}", case.0, case.1);
    Ok(())
}

fn check_all<'a>(
    rt: &impl Abort,
    alloc: Global,
    entries: &'a [Entry],
    cases: &[Case<'a>],
) -> Result<(), Fail> {
    for case in cases {
        check(rt, alloc, entries, case, 0)?;
    }
    Ok(())
}

static ONE_LIST: [Case<'static>; 11] = [
    (&[1, 0], &[(2, 10, 2), (22, 1, 3)], b"ab\0", Ok(28)),
    (&[0, 0], &[(2, 10, 2), (22, 1, 3)], b"ab\0", Ok(24)),
    (
        &[1, 0],
        &[(2, 10, 3), (22, 1, 3)],
        b"ab\0",
        Err(LayoutFault::RowZero),
    ),
    (
        &[1, 0],
        &[(2, 10, 0), (22, 1, 3)],
        b"ab\0",
        Err(LayoutFault::RowZero),
    ),
    (
        &[1, 0],
        &[(2, 9, 2), (22, 1, 3)],
        b"ab\0",
        Err(LayoutFault::RowZero),
    ),
    (
        &[2, 0],
        &[(2, 10, 2), (22, 1, 3)],
        b"ab\0",
        Err(LayoutFault::RowIndex(0)),
    ),
    (
        &[1, 0],
        &[(2, 10, 2), (22, 0, 3)],
        b"ab\0",
        Err(LayoutFault::Stride(1)),
    ),
    (
        &[1, 0],
        &[(2, 10, 2), (22, 1, 4)],
        b"ab\0",
        Err(LayoutFault::RowPlace(1)),
    ),
    (
        &[1, 0],
        &[(2, 10, 2), (1, 1, 1)],
        b"ab\0",
        Err(LayoutFault::RowPlace(1)),
    ),
    (
        &[1, 0],
        &[(2, 10, 2), (21, 1, 3)],
        b"ab\0",
        Err(LayoutFault::RowOverlap(0, 1)),
    ),
    (&[1, 0], &[(2, 10, 2), (65535, 1, 0)], b"ab\0", Ok(24)),
];

#[test]
fn a_list_and_its_row(rt: HostRuntime) -> Result<(), Fail> {
    check_all(&rt, rt.alloc(), LIST, &ONE_LIST)
}

static TWO_LISTS: [Case<'static>; 9] = [
    (
        &[1, 0, 2, 0],
        &[(4, 10, 3), (34, 1, 1), (35, 1, 1)],
        b"ab",
        Ok(44),
    ),
    (
        &[1, 0, 1, 0],
        &[(4, 10, 3), (34, 1, 1), (35, 1, 1)],
        b"ab",
        Err(LayoutFault::RowShared(1)),
    ),
    (
        &[2, 0, 2, 0],
        &[(4, 10, 3), (34, 1, 1), (35, 1, 1)],
        b"ab",
        Err(LayoutFault::RowShared(2)),
    ),
    (
        &[2, 0, 3, 0],
        &[(4, 10, 3), (34, 1, 1), (35, 1, 1)],
        b"ab",
        Err(LayoutFault::RowIndex(2)),
    ),
    (
        &[3, 0, 3, 0],
        &[(4, 10, 3), (34, 1, 1), (35, 1, 1)],
        b"ab",
        Err(LayoutFault::RowIndex(0)),
    ),
    (
        &[1, 0, 2, 0],
        &[(4, 10, 3), (34, 1, 2), (35, 1, 1)],
        b"ab",
        Err(LayoutFault::RowOverlap(1, 2)),
    ),
    (
        &[1, 0, 2, 0],
        &[(4, 10, 3), (35, 1, 1), (34, 1, 1)],
        b"ab",
        Ok(44),
    ),
    (
        &[1, 0, 2, 0],
        &[(4, 10, 3), (36, 1, 1), (36, 1, 1)],
        b"ab",
        Err(LayoutFault::RowPlace(1)),
    ),
    (
        &[1, 0, 2, 0],
        &[(4, 10, 3), (34, 0, 1), (35, 0, 1)],
        b"ab",
        Err(LayoutFault::Stride(1)),
    ),
];

#[test]
fn two_lists(rt: HostRuntime) -> Result<(), Fail> {
    check_all(&rt, rt.alloc(), TWO, &TWO_LISTS)
}

static LISTS_IN_LISTS: [Case<'static>; 10] = [
    (
        &[1, 0],
        &[(2, 10, 4), (42, 2, 2), (46, 1, 1), (47, 1, 1)],
        &[2, 0, 3, 0, 7, 8, 9],
        Ok(56),
    ),
    (
        &[1, 0],
        &[(2, 10, 4), (42, 2, 2), (46, 1, 1), (47, 1, 1)],
        &[2, 0, 0, 0, 7, 8, 9],
        Ok(52),
    ),
    (
        &[1, 0],
        &[(2, 10, 4), (42, 2, 2), (46, 1, 1), (47, 1, 1)],
        &[2, 0, 4, 0, 7, 8, 9],
        Err(LayoutFault::RowIndex(1)),
    ),
    (
        &[1, 0],
        &[(2, 10, 4), (42, 2, 2), (46, 1, 1), (47, 1, 1)],
        &[2, 0, 2, 0, 7, 8, 9],
        Err(LayoutFault::RowShared(2)),
    ),
    (
        &[1, 0],
        &[(2, 10, 4), (42, 2, 2), (46, 1, 1), (47, 1, 1)],
        &[1, 0, 3, 0, 7, 8, 9],
        Err(LayoutFault::RowShared(1)),
    ),
    (
        &[1, 0],
        &[(2, 10, 4), (42, 2, 2), (46, 1, 1), (47, 2, 1)],
        &[2, 0, 3, 0, 7, 8, 9],
        Err(LayoutFault::Stride(3)),
    ),
    (
        &[1, 0],
        &[(2, 10, 4), (42, 2, 2), (46, 1, 1), (47, 2, 0)],
        &[2, 0, 3, 0, 7, 8, 9],
        Ok(52),
    ),
    (
        &[1, 0],
        &[(2, 10, 4), (42, 1, 2), (46, 1, 1), (47, 1, 1)],
        &[2, 0, 3, 0, 7, 8, 9],
        Err(LayoutFault::Stride(1)),
    ),
    (
        &[1, 0],
        &[(2, 10, 4), (48, 2, 2), (46, 1, 1), (47, 1, 1)],
        &[9, 0, 9, 0, 7, 8, 9],
        Err(LayoutFault::RowPlace(1)),
    ),
    (
        &[1, 0],
        &[(2, 10, 4), (42, 2, 2), (46, 1, 1), (46, 1, 1)],
        &[2, 0, 3, 0, 7, 8, 9],
        Err(LayoutFault::RowOverlap(2, 3)),
    ),
];

#[test]
fn lists_in_lists(rt: HostRuntime) -> Result<(), Fail> {
    check_all(&rt, rt.alloc(), NESTED, &LISTS_IN_LISTS)
}

static LISTS_IN_CLUSTERS: [Case<'static>; 5] = [
    (
        &[1, 0],
        &[(2, 10, 3), (32, 3, 1), (35, 2, 2)],
        &[5, 2, 0, 1, 0, 2, 0],
        Ok(44),
    ),
    (
        &[1, 0],
        &[(2, 10, 3), (32, 2, 1), (35, 2, 2)],
        &[5, 2, 0, 1, 0, 2, 0],
        Err(LayoutFault::Stride(1)),
    ),
    (
        &[1, 0],
        &[(2, 10, 3), (32, 3, 1), (35, 1, 2)],
        &[5, 2, 0, 1, 0, 2, 0],
        Err(LayoutFault::Stride(2)),
    ),
    (
        &[1, 0],
        &[(2, 10, 3), (32, 3, 1), (34, 2, 2)],
        &[5, 2, 0, 1, 0, 2, 0],
        Err(LayoutFault::RowOverlap(1, 2)),
    ),
    (
        &[1, 0],
        &[(2, 10, 3), (33, 3, 1), (35, 2, 2)],
        &[5, 2, 0, 1, 0, 2, 0],
        Err(LayoutFault::RowIndex(3)),
    ),
];

#[test]
fn lists_in_clusters(rt: HostRuntime) -> Result<(), Fail> {
    check_all(&rt, rt.alloc(), RECORDS, &LISTS_IN_CLUSTERS)
}

static FULL: Case<'static> = (&[1, 0], &[(2, 10, 2), (22, 1, 32744)], &[], Ok(32768));

static TOO_FULL: Case<'static> = (
    &[1, 0],
    &[(2, 10, 2), (22, 1, 32745)],
    &[],
    Err(LayoutFault::PoolPassed(32772)),
);

// The list is zeros, as many as its row counts.
#[test]
fn lists_that_fill_the_pool(rt: HostRuntime) -> Result<(), Fail> {
    check(&rt, rt.alloc(), LIST, &FULL, 32744)?;
    check(&rt, rt.alloc(), LIST, &TOO_FULL, 32745)
}
