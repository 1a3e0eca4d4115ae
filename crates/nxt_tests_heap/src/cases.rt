// Heaps with a few lists one above the other, and the steps that follow.

use crate::trial::Step::{New, Resize};
use crate::trial::{Step, Trial};
use std::alloc::Global;
use std::process::Abort;
use std::test::Fail;

/// The place of a row whose list has no bytes.
pub const NONE: u16 = 65_535;

/// What there is about a heap, the bytes of its lists, the steps, and the places of all rows behind them. There are 4
/// static bytes, and the table has just the rows that the lists need.
pub type Case<'a> = (&'a str, &'a [u32], &'a [Step], &'a [u16]);

/// A heap with lists of these lengths, of single bytes, one above the other.
pub(crate) fn filled(
    rt: &impl Abort,
    alloc: Global,
    static_size: u16,
    lists: &[u32],
) -> Result<Trial, Fail> {
    let rows = u16::try_from(lists.len())?;
    assert!(rt; rows < 3_000);
    let mut trial = Trial::new(rt, alloc, static_size, rows + 1)?;
    fill(rt, alloc, &mut trial, lists)?;
    Ok(trial)
}

// Adds lists of these lengths, of single bytes, which fill the rows from the first on.
fn fill(rt: &impl Abort, alloc: Global, trial: &mut Trial, lists: &[u32]) -> Result<(), Fail> {
    let mut row = 0;
    for &bytes in lists {
        assert!(rt; row < u16::MAX);
        row += 1;
        trial.take(rt, alloc, New(1))?;
        trial.take(rt, alloc, Resize(row, bytes))?;
    }
    trial.check(rt, alloc)
}

// Takes the steps of a case, and compares the places at the end.
fn run_case(rt: &impl Abort, alloc: Global, trial: &mut Trial, case: &Case) -> Result<(), Fail> {
    let &(what, _, steps, places) = case;
    trial.run(rt, alloc, steps)?;
    trial.expect_places(rt, alloc, places, what)
}

fn check(rt: &impl Abort, alloc: Global, case: &Case) -> Result<(), Fail> {
    let mut trial = filled(rt, alloc, 4, case.1)?;
    run_case(rt, alloc, &mut trial, case)
}

/// Takes the steps of each case, with what is due after each, and compares the places at the end.
pub(crate) fn check_all(rt: &impl Abort, alloc: Global, cases: &[Case]) -> Result<(), Fail> {
    for case in cases {
        check(rt, alloc, case)?;
    }
    Ok(())
}
