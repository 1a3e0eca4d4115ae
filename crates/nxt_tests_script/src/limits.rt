// The limits of a script.

use crate::reading::{Case, WHOLE, read};
use std::alloc::Global;
use std::test::Fail;

/// The most rows that a script may have.
const MOST_ROWS: usize = 100_000;

static BYTECODES: [Case<'static>; 3] = [
    (
        b"run,1000000\nrun,1000000\nrun,1000000\nrun,1000000\nrun,0\ntick,9\n",
        "run 1000000\nrun 1000000\nrun 1000000\nrun 1000000\nrun 0\ntick 9\nend\nend\n",
    ),
    (
        b"run,1000000\nrun,1000000\nrun,1000000\nrun,1000000\nrun,1\nrun,0\n",
        "run 1000000\nrun 1000000\nrun 1000000\nrun 1000000\nrow 5 passes a limit\nrow 5 passes a limit\n",
    ),
    (
        b"run,1000000\nrun,999999\nrun,1000000\nrun,1000000\nrun,2\n",
        "run 1000000\nrun 999999\nrun 1000000\nrun 1000000\nrow 5 passes a limit\nrow 5 passes a limit\n",
    ),
];

#[test]
fn bytecodes(rt: HostRuntime) -> Result<(), Fail> {
    let alloc = rt.alloc();
    for (script, due) in &BYTECODES {
        let told = read(alloc, script, WHOLE, &[])?;
        assert_eq!(rt; told.as_str(), *due);
    }
    Ok(())
}

/// Rows, each with an empty line behind it.
fn ticks(alloc: Global, rows: usize) -> Result<Vec<u8>, Fail> {
    let mut script = Vec::new(alloc);
    for _ in 0..rows {
        script.extend_from_slice(b"tick,0\n\n")?;
    }
    Ok(script)
}

#[test]
fn many_rows(rt: HostRuntime) -> Result<(), Fail> {
    let alloc = rt.alloc();
    for (rows, end) in [
        (MOST_ROWS, "tick 0\nend\nend\n"),
        (
            MOST_ROWS + 1,
            "tick 0\nrow 100001 passes a limit\nrow 100001 passes a limit\n",
        ),
    ] {
        let script = ticks(alloc, rows)?;
        let told = read(alloc, script.as_slice(), 1 << 20, &[])?;
        assert!(rt; told.ends_with(end), "{rows} rows");
        assert_eq!(rt; told.len(), MOST_ROWS * 7 + end.len() - 7, "{rows} rows");
    }
    Ok(())
}

/// The most dumps that a script may have.
const MOST_DUMPS: usize = 256;

/// Dumps, and a row behind them.
fn dumps(alloc: Global, count: usize) -> Result<Vec<u8>, Fail> {
    let mut script = Vec::new(alloc);
    for _ in 0..count {
        script.extend_from_slice(b"dump\n")?;
    }
    script.extend_from_slice(b"run,1\n")?;
    Ok(script)
}

#[test]
fn many_dumps(rt: HostRuntime) -> Result<(), Fail> {
    let alloc = rt.alloc();
    for (count, end) in [
        (MOST_DUMPS, "dump\nrun 1\nend\nend\n"),
        (
            MOST_DUMPS + 1,
            "dump\nrow 257 passes a limit\nrow 257 passes a limit\n",
        ),
    ] {
        let script = dumps(alloc, count)?;
        let told = read(alloc, script.as_slice(), WHOLE, &[])?;
        assert!(rt; told.ends_with(end), "{count} dumps");
    }
    Ok(())
}

/// A row of a telegram of this length.
fn telegram(alloc: Global, bytes: usize) -> Result<Vec<u8>, Fail> {
    let mut row = b"telegram,".to_vec(alloc)?;
    for _ in 0..bytes {
        row.extend_from_slice(b"01")?;
    }
    Ok(row)
}

#[test]
fn telegrams(rt: HostRuntime) -> Result<(), Fail> {
    let alloc = rt.alloc();
    let longest = telegram(alloc, 64)?;
    let told = read(alloc, longest.as_slice(), WHOLE, &[])?;
    assert!(rt; told.starts_with("telegram [1, 1, "));
    assert!(rt; told.ends_with(", 1]\nend\nend\n"));
    for bytes in [65, 251, 252, 253] {
        let row = telegram(alloc, bytes)?;
        let told = read(alloc, row.as_slice(), WHOLE, &[])?;
        assert_eq!(rt;
            told.as_str(),
            "row 1 is bad\nrow 1 is bad\n",
            "{bytes} bytes"
        );
    }
    Ok(())
}
