// Pools that are cut into many holes.

use crate::cases::filled;
use crate::trial::Step::{At, Compact, Fill, Free, New, NewestAt, RefusedNewest, Resize};
use crate::trial::{Step, Trial};
use std::alloc::Global;
use std::process::Abort;
use std::test::Fail;

// Every second one of sixty lists is freed.
fn free_half(rt: &impl Abort, alloc: Global, trial: &mut Trial) -> Result<(), Fail> {
    for pair in 1..=30 {
        trial.run(rt, alloc, &[Free(2 * pair)])?;
    }
    Ok(())
}

// Sixty lists, of which every second one is freed. The table stands from 8 to 620.
fn cut(rt: &impl Abort, alloc: Global, lists: &[u32]) -> Result<Trial, Fail> {
    assert_eq!(rt; lists.len(), 60);
    let mut trial = filled(rt, alloc, 6, lists)?;
    free_half(rt, alloc, &mut trial)?;
    Ok(trial)
}

/// Lists of 12 bytes, with holes of 12 bytes between them.
static ONE_SIZE: [Step; 25] = [
    Resize(1, 24),
    Resize(3, 25),
    Resize(5, 37),
    At(1, 620),
    At(3, 1_328),
    At(5, 1_356),
    At(7, 692),
    New(4),
    Fill(48),
    NewestAt(644),
    New(3),
    Fill(12),
    NewestAt(704),
    New(1),
    Fill(13),
    NewestAt(1_396),
    Free(9),
    Resize(11, 24),
    Resize(13, 25),
    Resize(59, 700),
    Compact(3),
    Resize(7, 36),
    Compact(20),
    Resize(15, 13),
    Compact(65_535),
];

#[test]
fn holes_of_one_size(rt: HostRuntime) -> Result<(), Fail> {
    let mut trial = cut(&rt, rt.alloc(), &[12; 60])?;
    trial.run(&rt, rt.alloc(), &ONE_SIZE)
}

// The bytes of sixty lists, with 4 more in each than in the one before.
fn ascending() -> [u32; 60] {
    let mut lists = [4; 60];
    for list in 1..60 {
        lists[list] = 4 * (list as u32 + 1);
    }
    lists
}

// A new list that needs just the bytes of a hole goes into it, and one that needs more into the next.
fn fill_holes(rt: &impl Abort, alloc: Global, trial: &mut Trial, more: u32) -> Result<(), Fail> {
    assert!(rt; more < 2);
    for pair in 1..=29u32 {
        let hole = u64::from(pair + more);
        let place = 620 + 4 * hole * (2 * hole - 1);
        let steps = [New(1), Fill(8 * pair + more), NewestAt(place)];
        trial.run(rt, alloc, &steps)?;
    }
    trial.run(rt, alloc, &[Compact(5), Resize(31, 400), Compact(65_535)])
}

fn check_holes(rt: &impl Abort, alloc: Global, more: u32) -> Result<(), Fail> {
    let mut trial = cut(rt, alloc, &ascending())?;
    fill_holes(rt, alloc, &mut trial, more)
}

// Holes of 8, 16, 24 bytes and so on, up to 232.
#[test]
fn holes_of_many_sizes(rt: HostRuntime) -> Result<(), Fail> {
    check_holes(&rt, rt.alloc(), 0)?;
    check_holes(&rt, rt.alloc(), 1)
}

/// A list from 7,700 to the end of the pool, so that what gets longer has only the holes. The last is that from 7,232 to
/// 7,464.
static LAST_HOLE: [Step; 16] = [
    New(1),
    Fill(25_068),
    NewestAt(7_700),
    Resize(1, 229),
    Resize(3, 224),
    At(1, 7_232),
    At(3, 6_780),
    RefusedNewest(32_000),
    Resize(5, 217),
    At(5, 620),
    At(7, 840),
    Resize(7, 2_000),
    At(7, 29_928),
    Compact(4),
    Resize(9, 64),
    Compact(65_535),
];

#[test]
fn the_last_hole(rt: HostRuntime) -> Result<(), Fail> {
    let mut trial = cut(&rt, rt.alloc(), &ascending())?;
    trial.run(&rt, rt.alloc(), &LAST_HOLE)
}
