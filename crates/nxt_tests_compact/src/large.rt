// Compaction of large pools, and room that opens in them.

use crate::due::Held;
use crate::pools::{List, Pool, built};
use crate::{compaction, opening};
use std::alloc::Global;
use std::process::Abort;
use std::test::Fail;

// Lists one above the other from a place on, all of one length. Every `nth` one has been freed.
fn lists_from(
    alloc: Global,
    lists: u16,
    from: u16,
    bytes: u16,
    nth: u16,
) -> Result<Vec<List>, Fail> {
    let mut all = Vec::new(alloc);
    let mut place = from;
    for list in 1..=lists {
        if nth > 0 && list % nth == 0 {
            all.push((65_535, 0, 0))?;
        } else {
            all.push((place, 1, bytes))?;
        }
        place = place.saturating_add(bytes);
    }
    Ok(all)
}

// Compacts the pool, compares how many blocks move, and opens room at rows.
fn check_all(
    rt: &impl Abort,
    alloc: Global,
    pool: &Pool,
    ks: &[(u16, u16)],
    rooms: &[(u16, u32)],
) -> Result<(), Fail> {
    let bytes = built(rt, alloc, pool)?;
    let old = Held {
        pool: bytes.as_slice(),
        table: pool.table as u32,
    };
    for &(k, due) in ks {
        let moved = compaction::check(rt, alloc, old, pool.base, k)?;
        assert_eq!(rt; moved, due, "k is {k}");
    }
    for &(row, bytes) in rooms {
        opening::check(rt, alloc, old, pool.base, row, bytes)?;
    }
    Ok(())
}

// Sixty lists of which every second one was freed.
#[test]
fn many_holes(rt: HostRuntime) -> Result<(), Fail> {
    let lists = lists_from(rt.alloc(), 60, 620, 12, 2)?;
    let pool = Pool {
        size: 1400,
        base: 8,
        table: 8,
        lists: lists.as_slice(),
    };
    let ks = [(0, 0), (1, 1), (7, 7), (29, 29), (30, 29), (65_535, 29)];
    let rooms = [(31, 400), (59, 430), (0, 620), (30, 9), (2, 420)];
    check_all(&rt, rt.alloc(), &pool, &ks, &rooms)
}

// The table and 2,339 lists, each with the same gap below them all.
#[test]
fn as_many_blocks_as_the_pool_holds(rt: HostRuntime) -> Result<(), Fail> {
    let lists = lists_from(rt.alloc(), 2_339, 12, 4, 0)?;
    let pool = Pool {
        size: 32_768,
        base: 4,
        table: 9_368,
        lists: lists.as_slice(),
    };
    let ks = [(0, 0), (7, 7), (65_535, 2_340)];
    let rooms = [(1_170, 12), (2_339, 12), (0, 23_408)];
    check_all(&rt, rt.alloc(), &pool, &ks, &rooms)
}

// A list of 10,000 bytes below a gap gets all that the pool has left.
#[test]
fn a_list_gets_all_that_is_left(rt: HostRuntime) -> Result<(), Fail> {
    let pool = Pool {
        size: 32_768,
        base: 24,
        table: 24,
        lists: &[(64, 1, 10_000), (65_535, 1, 0), (20_064, 2, 5_000)],
    };
    let ks = [(0, 0), (1, 1), (2, 1)];
    let rooms = [
        (1, 22_000),
        (1, 22_704),
        (3, 22_704),
        (2, 12_704),
        (2, 12_701),
    ];
    check_all(&rt, rt.alloc(), &pool, &ks, &rooms)
}
