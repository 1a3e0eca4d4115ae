// Texts that are run with dumps between their bytecodes.

use super::commands::{Ended, assembled, ran, ran_with_effort};
use nxt_tool::Status;
use std::alloc::Global;
use std::test::Fail;

// A list that grows to what another has given back.
const GROWTH: &[u8] =
    b"dseg segment\na byte[]\nb byte[]\nc byte[]\ndseg ends\nthread main\narrinit a, 0, 10000\n\
    arrinit b, 0, 10000\narrinit c, 0, 10000\narrsubset b, b, 0, 0\narrinit a, 1, 22000\nendt\n";

// A hundred lists in a list, which are then given back.
const INNER_LISTS: &[u8] =
    b"dseg segment\nx byte[][]\ne byte[]\ndseg ends\nthread main\narrinit x, e, 100\narrinit x, e, 0\nendt\n";

// Lists that grow, shrink and grow again.
const NESTED_LISTS: &[u8] =
    b"dseg segment\na byte[] 'ab'\ny byte[] 'hi'\nx byte[][]\ndseg ends\nthread main\nstrcat a, a, a\n\
    arrbuild x, y, y\nreplace x, x, 0, a\nindex y, x, 1\nstrcat y, a, a\narrinit x, a, 0\nendt\n";

// Three lists, of which the second is given back, and then waits that end turns.
const WAITS: &[u8] =
    b"dseg segment\na byte[]\nb byte[]\nc byte[]\ndseg ends\nthread main\narrinit a, 0, 100\n\
    arrinit b, 0, 100\narrinit c, 0, 100\narrsubset b, b, 0, 0\nwait 1\nwait 1\nendt\n";

// How many lines a report has that begin like this.
fn lines_like(report: &[u8], name: &[u8]) -> usize {
    let mut count: usize = 0;
    for line in report.split(|b| *b == b'\n') {
        if line.starts_with(name) {
            count = count.saturating_add(1);
        }
    }
    count
}

fn run(alloc: Global, text: &[u8], script: &[u8]) -> Result<Ended, Fail> {
    ran(alloc, b"nbc", text.to_vec(alloc)?, script, &[])
}

#[test]
fn a_gap_closes(rt: HostRuntime) -> Result<(), Fail> {
    let alloc = rt.alloc();
    let ended = run(alloc, GROWTH, b"run,4\ndump\ncompact,1\ndump\n")?;
    assert_eq!(rt; ended.status, Status::Done);
    let report = ended.report.as_slice();
    assert!(rt; report.starts_with(b"dump,24,4,1,30064\n"));
    assert_eq!(rt; lines_like(report, b"dump,24,4,0,20064"), 1);
    assert_eq!(rt; lines_like(report, b"bytes,"), 470 + 314);
    assert!(rt; report.ends_with(b"\nend,4\n"));
    Ok(())
}

#[test]
fn rows_of_lists_stay(rt: HostRuntime) -> Result<(), Fail> {
    let alloc = rt.alloc();
    let ended = run(alloc, INNER_LISTS, b"run,2\ncompact,2\ndump\nrun,1\n")?;
    assert_eq!(rt; ended.status, Status::Done);
    let report = ended.report.as_slice();
    assert!(rt; report.starts_with(b"dump,12,103,0,1044\n"));
    assert_eq!(rt; lines_like(report, b"bytes,"), 17);
    assert!(rt; report.ends_with(b"\nstop,finished\nend,4\n"));
    Ok(())
}

#[test]
fn an_effort_shows_in_dumps_alone(rt: HostRuntime) -> Result<(), Fail> {
    let alloc = rt.alloc();
    for effort in [b"0".as_slice(), b"2", b"007", b"255"] {
        let ended = ran_with_effort(alloc, effort, b"nbc", GROWTH.to_vec(alloc)?, b"run,9\n")?;
        assert_eq!(rt; ended.status, Status::Done);
        assert_eq!(rt;
            ended.report.as_slice(),
            run(alloc, GROWTH, b"run,9\n")?.report.as_slice()
        );
    }
    for effort in [b"256".as_slice(), b"0000", b"", b"-1", b"x"] {
        let ended = ran_with_effort(alloc, effort, b"nbc", GROWTH.to_vec(alloc)?, b"run,9\n")?;
        assert_eq!(rt; ended.status, Status::Words);
        assert!(rt; ended.report.is_empty());
    }
    Ok(())
}

#[test]
fn a_block_settles_where_a_wait_ends_a_turn(rt: HostRuntime) -> Result<(), Fail> {
    let alloc = rt.alloc();
    let script = b"run,4\ndump\nrun,1\ndump\n";
    for (effort, moved) in [(b"0".as_slice(), 0), (b"1", 1)] {
        let ended = ran_with_effort(alloc, effort, b"nbc", WAITS.to_vec(alloc)?, script)?;
        assert_eq!(rt; ended.status, Status::Done);
        let report = ended.report.as_slice();
        assert!(rt; report.starts_with(b"dump,20,4,1,360\n"));
        assert_eq!(rt; lines_like(report, b"dump,20,4,1,360"), 2 - moved);
        assert_eq!(rt; lines_like(report, b"dump,20,4,0,260"), moved);
        assert!(rt; report.ends_with(b"\nend,4\n"));
    }
    Ok(())
}

#[test]
fn an_image_is_dumped_as_its_text(rt: HostRuntime) -> Result<(), Fail> {
    let alloc = rt.alloc();
    let script =
        b"run,1\ndump\nrun,1\ndump\nrun,1\ndump\nrun,1\ndump\nrun,1\ndump\nrun,1\ndump\nrun,1\ndump\n";
    for text in [GROWTH, INNER_LISTS, NESTED_LISTS] {
        let image = assembled(alloc, &[(text, 1)], &[], &[])?.image;
        let ended = ran(alloc, b"rxe", image, script, &[])?;
        assert_eq!(rt; ended.status, Status::Done);
        assert_eq!(rt;
            ended.report.as_slice(),
            run(alloc, text, script)?.report.as_slice()
        );
    }
    Ok(())
}
