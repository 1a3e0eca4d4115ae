// Pools that are full to the byte.

use crate::cases::filled;
use crate::trial::Step::{At, Compact, Free, Full, New, Refused, Resize};
use crate::trial::{Step, Trial};
use std::alloc::Global;
use std::process::Abort;
use std::test::Fail;

/// The table stands from 8 to 68, and the lists behind it end at 5,068, 14,072, 14,076, 20,076 and 32,768.
static LARGEST: [Step; 22] = [
    New(1),
    Resize(1, 5_000),
    New(1),
    Resize(2, 9_001),
    New(3),
    Resize(3, 3),
    New(6),
    Resize(4, 6_000),
    New(4),
    Resize(5, 12_692),
    Full,
    Refused(1, 5_001),
    Resize(2, 9_004),
    Refused(2, 9_005),
    Refused(3, 6),
    Refused(4, 6_006),
    Refused(5, 12_696),
    Resize(5, 12_688),
    Full,
    Refused(1, 5_005),
    Resize(1, 5_004),
    Refused(1, 5_005),
];

/// What a list has where a gap below it is closed, the most that it can get, and what is too much.
static GROWTHS: [(u16, u32, u32, u32); 5] = [
    (1, 4_604, 5_004, 5_005),
    (2, 9_004, 9_404, 9_405),
    (3, 3, 402, 405),
    (4, 6_000, 6_396, 6_402),
    (5, 12_688, 13_088, 13_092),
];

// Each list in turn gets all that is left.
fn grow_in_turn(rt: &impl Abort, alloc: Global, trial: &mut Trial) -> Result<(), Fail> {
    for &(row, had, largest, more) in &GROWTHS {
        let steps = [
            Refused(row, more),
            Resize(row, largest),
            Resize(row, had),
            Compact(1),
            Refused(row, more),
        ];
        trial.run(rt, alloc, &steps)?;
    }
    Ok(())
}

// Fills the pool, and takes 400 bytes of the first list, which leaves a gap behind it.
fn fill_lists(rt: &impl Abort, alloc: Global, trial: &mut Trial) -> Result<(), Fail> {
    trial.run(rt, alloc, &LARGEST)?;
    let places = [8, 68, 5_072, 14_076, 14_080, 20_080];
    trial.expect_places(rt, alloc, &places, "each list is 4 bytes higher")?;
    trial.run(rt, alloc, &[Resize(1, 4_604)])
}

#[test]
fn the_largest_growths(rt: HostRuntime) -> Result<(), Fail> {
    let mut trial = Trial::new(&rt, rt.alloc(), 6, 6)?;
    fill_lists(&rt, rt.alloc(), &mut trial)?;
    grow_in_turn(&rt, rt.alloc(), &mut trial)
}

/// The table stands from 4 to 56. It needs 60 bytes with a row more, and 72 with two.
static SLIDES: [Step; 6] = [Full, Resize(1, 15_996), Full, Resize(2, 4), New(3), Full];

static LAST_ROWS: [Step; 12] = [
    Refused(5, 3),
    Resize(4, 16_688),
    Full,
    Resize(5, 6),
    Full,
    Resize(5, 0),
    Resize(4, 16_684),
    New(1),
    Full,
    Free(6),
    New(2),
    Full,
];

fn take_last_rows(rt: &impl Abort, alloc: Global, trial: &mut Trial) -> Result<(), Fail> {
    trial.run(rt, alloc, &SLIDES)?;
    let places = [4, 64, 16_060, 16_064, 16_072, 65_535];
    trial.expect_places(rt, alloc, &places, "the table slides")?;
    trial.run(rt, alloc, &LAST_ROWS)
}

#[test]
fn the_last_bytes_for_the_table(rt: HostRuntime) -> Result<(), Fail> {
    let mut trial = filled(&rt, rt.alloc(), 4, &[16_000, 8, 8, 16_696])?;
    take_last_rows(&rt, rt.alloc(), &mut trial)
}

/// A row, the most bytes that its list can get where only small gaps are left, what is too much, and its place.
type Growth = (u16, u32, u32, u64);

static SMALL_GAPS: [Growth; 5] = [
    (1, 956, 957, 424),
    (20, 956, 957, 15_548),
    (39, 956, 957, 30_672),
    (40, 1_300, 1_301, 31_468),
    (41, 160, 161, 32_608),
];

// Each of forty lists loses 4 bytes.
fn lose_bytes(rt: &impl Abort, alloc: Global, trial: &mut Trial) -> Result<(), Fail> {
    for list in 1..=40 {
        let bytes = if list == 40 { 1_140 } else { 796 };
        trial.run(rt, alloc, &[Resize(list, bytes)])?;
    }
    Ok(())
}

fn grow_over_gaps(
    rt: &impl Abort,
    alloc: Global,
    trial: &mut Trial,
    growth: Growth,
) -> Result<(), Fail> {
    let (row, largest, more, place) = growth;
    lose_bytes(rt, alloc, trial)?;
    let steps = [
        Refused(row, more),
        Resize(row, largest),
        Refused(row, more),
        Full,
        At(row, place),
    ];
    trial.run(rt, alloc, &steps)
}

fn check_growth(rt: &impl Abort, alloc: Global, growth: Growth) -> Result<(), Fail> {
    let mut lists = [800; 41];
    lists[39] = 1_144;
    lists[40] = 0;
    let mut trial = filled(rt, alloc, 4, &lists)?;
    grow_over_gaps(rt, alloc, &mut trial, growth)
}

// Forty lists of 800 bytes, of which each loses 4. The table stands from 4 to 424.
#[test]
fn small_gaps_only(rt: HostRuntime) -> Result<(), Fail> {
    for &growth in &SMALL_GAPS {
        check_growth(&rt, rt.alloc(), growth)?;
    }
    Ok(())
}
