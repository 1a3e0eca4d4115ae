// Tables at the edges of the rules on entries and leaves.

use crate::found::same;
use nxt_images::{
    ARRAY, CLUSTER, EMPTY, Entry, Image, MUTEX, NO_DEFAULT, UBYTE, ULONG, UWORD, VOID, layout_of,
    parts_of,
};
use nxt_layout::{Layout, LayoutFault, check_layout};
use nxt_table::TableFault;
use nxt_types::toc::Toc;
use std::alloc::Global;
use std::process::Abort;
use std::test::Fail;

/// A table, the static bytes, how many bytes of defaults there are, and why the file is refused.
type Case<'a> = (&'a [Entry], u16, usize, Option<LayoutFault>);

const COUNTED: &[u8] = &[1, 2, 3, 4, 5, 6, 7, 8, 9];

static TYPES: [Case<'static>; 8] = [
    (
        &[(CLUSTER, 0, 2), (UBYTE, 0, 0)],
        1,
        1,
        Some(LayoutFault::Table(TableFault::TypeOpen(0))),
    ),
    (
        &[(UWORD, 0, 0), (UBYTE, 0, 1)],
        2,
        3,
        Some(LayoutFault::Table(TableFault::Overlap(0, 1))),
    ),
    (
        &[(MUTEX, 0, 0), (10, 0, 4)],
        8,
        8,
        Some(LayoutFault::Table(TableFault::TypeCode(1))),
    ),
    (
        &[(VOID, 0, 0), (CLUSTER, 0, 0)],
        1,
        1,
        Some(LayoutFault::Table(TableFault::TypeOpen(1))),
    ),
    (
        &[(CLUSTER, 0, 1), (VOID, 0, 0)],
        1,
        1,
        Some(LayoutFault::Table(TableFault::TypeOpen(0))),
    ),
    (&[(CLUSTER, 0, 1), (UBYTE, 0, 0)], 1, 1, None),
    (
        &[(CLUSTER, 0, 1), (MUTEX, 0, 0)],
        4,
        4,
        Some(LayoutFault::Table(TableFault::MutexInside(1))),
    ),
    (
        &[(ARRAY, 0, 0), (UBYTE, 0, 0)],
        2,
        2,
        Some(LayoutFault::RowZero),
    ),
];

/// Nine clusters around a number.
const NINE: &[Entry] = &[
    (CLUSTER, 0, 1),
    (CLUSTER, 0, 1),
    (CLUSTER, 0, 1),
    (CLUSTER, 0, 1),
    (CLUSTER, 0, 1),
    (CLUSTER, 0, 1),
    (CLUSTER, 0, 1),
    (CLUSTER, 0, 1),
    (CLUSTER, 0, 1),
    (UBYTE, 0, 0),
];

/// Eight of them.
const EIGHT: &[Entry] = &[
    (CLUSTER, 0, 1),
    (CLUSTER, 0, 1),
    (CLUSTER, 0, 1),
    (CLUSTER, 0, 1),
    (CLUSTER, 0, 1),
    (CLUSTER, 0, 1),
    (CLUSTER, 0, 1),
    (CLUSTER, 0, 1),
    (UBYTE, 0, 0),
];

static LEAVES: [Case<'static>; 7] = [
    (&[(ULONG, 0, 0), (UWORD, 0, 4)], 6, 6, None),
    (
        &[(ULONG, 0, 0), (UWORD, 0, 4)],
        5,
        6,
        Some(LayoutFault::Table(TableFault::Place(1))),
    ),
    (
        &[(ULONG, 0, 0), (UWORD, 0, 4)],
        6,
        5,
        Some(LayoutFault::Table(TableFault::DefaultsShort(1))),
    ),
    (&[(ULONG, NO_DEFAULT, 0), (UWORD, 0, 4)], 6, 2, None),
    (
        &[(UBYTE, 0, 4), (ULONG, 0, 0), (ULONG, 0, 3)],
        8,
        9,
        Some(LayoutFault::Table(TableFault::Overlap(0, 2))),
    ),
    (&[], 32756, 0, None),
    (&[], 32757, 0, Some(LayoutFault::PoolPassed(32772))),
];

// Why a file is refused.
fn fault_of(alloc: Global, case: &Case) -> Result<Option<LayoutFault>, Fail> {
    let (entries, static_size, defaults, _) = case;
    let image = Image {
        entries,
        static_size: *static_size,
        defaults: COUNTED.get(..*defaults).ok_or("too many defaults")?,
        ..EMPTY
    };
    let parts = parts_of(alloc, &image)?;
    Ok(check_layout(alloc, parts).err())
}

fn expect_fault(rt: &impl Abort, alloc: Global, case: &Case) -> Result<(), Fail> {
    let found = fault_of(alloc, case)?;
    assert_eq!(rt; found, case.3, "{:?}", case.0);
    Ok(())
}

#[test]
fn types_at_their_edges(rt: HostRuntime) -> Result<(), Fail> {
    for case in &TYPES {
        expect_fault(&rt, rt.alloc(), case)?;
    }
    Ok(())
}

static DEPTHS: [Case<'static>; 2] = [
    (EIGHT, 1, 1, None),
    (NINE, 1, 1, Some(LayoutFault::Table(TableFault::Depth(9)))),
];

#[test]
fn eight_clusters_around_a_number(rt: HostRuntime) -> Result<(), Fail> {
    for case in &DEPTHS {
        expect_fault(&rt, rt.alloc(), case)?;
    }
    Ok(())
}

#[test]
fn leaves_at_their_edges(rt: HostRuntime) -> Result<(), Fail> {
    for case in &LEAVES {
        expect_fault(&rt, rt.alloc(), case)?;
    }
    Ok(())
}

static MUTEX_AND_BYTE: Image<'static> = Image {
    entries: &[(MUTEX, 0, 0), (UBYTE, 0, 4)],
    static_size: 5,
    defaults: &[1, 2, 3, 4, 5],
    ..EMPTY
};

fn expect_places(rt: &impl Abort, toc: &Toc) {
    same(rt, toc.count(), 2, "the entries");
    same(rt, toc.place(1), Some(4), "the place of the byte");
}

fn expect_mutex(rt: &impl Abort, alloc: Global, layout: &Layout) -> Result<(), Fail> {
    assert_eq!(rt; layout.dataspace(), [0, 0, 0, 0, 5].as_slice());
    same(rt, layout.footprint(), 20, "the footprint");
    expect_places(rt, layout.toc());
    let copied = layout.toc().copied(alloc)?;
    expect_places(rt, &copied);
    Ok(())
}

#[test]
fn mutex_takes_four_bytes_of_defaults(rt: HostRuntime) -> Result<(), Fail> {
    let layout = layout_of(rt.alloc(), &MUTEX_AND_BYTE)?;
    expect_mutex(&rt, rt.alloc(), &layout)
}
