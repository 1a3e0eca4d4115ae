// Pools that are full of lists of 4 bytes.

use crate::trial::Step::{At, Compact, Fill, Free, Full, New, Refused, Resize};
use crate::trial::{Step, Trial};
use std::alloc::Global;
use std::process::Abort;
use std::test::Fail;

static NO_ROOM: [Step; 3] = [Full, Refused(1, 5), Resize(2_339, 3)];

/// What moves once every second list is freed.
static MOVES: [Step; 14] = [
    Resize(1, 8),
    Compact(100),
    Resize(3, 9),
    At(1, 23_412),
    At(203, 23_820),
    At(3, 23_824),
    At(205, 24_228),
    Resize(1_171, 3_000),
    Resize(1_171, 4),
    Compact(65_535),
    Resize(2_001, 1_000),
    New(2),
    Fill(30),
    Resize(1_001, 12),
];

fn fill_rows(rt: &impl Abort, alloc: Global, trial: &mut Trial) -> Result<(), Fail> {
    for row in 1..2_340 {
        trial.take(rt, alloc, New(1))?;
        trial.take(rt, alloc, Resize(row, 4))?;
    }
    trial.check(rt, alloc)?;
    trial.run(rt, alloc, &NO_ROOM)
}

fn free_half(rt: &impl Abort, alloc: Global, trial: &mut Trial) -> Result<(), Fail> {
    for pair in 1..1_170 {
        trial.take(rt, alloc, Free(2 * pair))?;
    }
    trial.check(rt, alloc)
}

// As many blocks as a pool holds. The table of 2,340 rows stands from 12 to 23,412, and 2,339 lists from there to the end
// of the pool.
#[test]
fn small_lists_fill_the_pool(rt: HostRuntime) -> Result<(), Fail> {
    let mut trial = Trial::new(&rt, rt.alloc(), 12, 2_340)?;
    fill_rows(&rt, rt.alloc(), &mut trial)?;
    free_half(&rt, rt.alloc(), &mut trial)?;
    trial.run(&rt, rt.alloc(), &MOVES)
}

// Lists of 4 bytes, one by one, of which every twentieth is followed by a comparison.
fn add_rows(rt: &impl Abort, alloc: Global, trial: &mut Trial) -> Result<(), Fail> {
    for row in 1..340 {
        trial.take(rt, alloc, New(1))?;
        trial.take(rt, alloc, Resize(row, 4))?;
        if row % 20 == 0 {
            trial.check(rt, alloc)?;
        }
    }
    trial.same(rt, trial.heap.footprint(), 32_768, "the footprint");
    Ok(())
}

// The table begins with row 0 at 28,012, and the lists are added to it one by one. With 340 rows the pool is full.
#[test]
fn the_table_grows_row_by_row(rt: HostRuntime) -> Result<(), Fail> {
    let mut trial = Trial::new(&rt, rt.alloc(), 28_010, 1)?;
    add_rows(&rt, rt.alloc(), &mut trial)?;
    trial.run(&rt, rt.alloc(), &[Full, Refused(1, 5), Compact(65_535)])
}
