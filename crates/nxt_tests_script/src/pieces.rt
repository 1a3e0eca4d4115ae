// Scripts that are longer than a piece of 4,096 bytes, which is what is asked of a source at once.

use crate::reading::read;
use std::alloc::Global;
use std::test::Fail;

/// The most bytes that are asked of a source at once.
const ASKED: usize = 4_096;

/// A row, empty lines up to a place, a row that begins there, the end of its line, and another row.
fn row_at(alloc: Global, place: usize, end: &[u8]) -> Result<Vec<u8>, Fail> {
    let mut script = b"run,1".to_vec(alloc)?;
    script.resize(place, b'\n')?;
    script.extend_from_slice(b"tick,22")?;
    script.extend_from_slice(end)?;
    script.extend_from_slice(b"tick,3")?;
    Ok(script)
}

// The end of a piece falls on each byte of the row, between a carriage return and a line feed, and beside them.
#[test]
fn rows_about_the_end_of_a_piece(rt: HostRuntime) -> Result<(), Fail> {
    let alloc = rt.alloc();
    let ends: [&[u8]; 4] = [b"\n", b"\r", b"\r\n", b"\n\r\r\n"];
    for pieces in 1..3 {
        for before in 0..20 {
            for end in ends {
                let script = row_at(alloc, pieces * ASKED - before, end)?;
                let told = read(alloc, script.as_slice(), ASKED, &[])?;
                assert_eq!(rt;
                    told.as_str(),
                    "run 1\ntick 22\ntick 3\nend\nend\n",
                    "{before} bytes before piece {pieces}"
                );
            }
        }
    }
    Ok(())
}

// Whatever a call gives, down to a byte.
#[test]
fn calls_that_give_little(rt: HostRuntime) -> Result<(), Fail> {
    let alloc = rt.alloc();
    let script = row_at(alloc, 700, b"\r\n")?;
    for chunk in [1, 2, 3, 511, 512, 513, 514] {
        let told = read(alloc, script.as_slice(), chunk, &[])?;
        assert_eq!(rt;
            told.as_str(),
            "run 1\ntick 22\ntick 3\nend\nend\n",
            "{chunk} bytes with a call"
        );
    }
    Ok(())
}

// A line that is too long is a record of no form, wherever it begins and however long it is.
#[test]
fn long_lines_are_bad_rows(rt: HostRuntime) -> Result<(), Fail> {
    let alloc = rt.alloc();
    for place in [6, 3_583, 3_584, 4_095, 4_096] {
        for bytes in [512, 513, 4_096, 4_609, 9_000, 20_000] {
            for chunk in [7, ASKED] {
                let mut script = b"run,1".to_vec(alloc)?;
                script.resize(place, b'\n')?;
                script.resize(place + bytes, b'7')?;
                script.extend_from_slice(b"\ntick,3\n")?;
                let told = read(alloc, script.as_slice(), chunk, &[])?;
                assert_eq!(rt;
                    told.as_str(),
                    "run 1\nrow 2 is bad\nrow 2 is bad\n",
                    "{bytes} bytes at {place}"
                );
            }
        }
    }
    Ok(())
}

// The bytes of a long line count: with one more the script is too large, and its line isn't judged.
#[test]
fn a_long_line_at_the_limit(rt: HostRuntime) -> Result<(), Fail> {
    let alloc = rt.alloc();
    for (bytes, due) in [
        (16_777_216, "run 1\nrow 2 is bad\nrow 2 is bad\n"),
        (16_777_217, "run 1\ntoo large\ntoo large\n"),
    ] {
        let mut script = b"run,1\n".to_vec(alloc)?;
        script.resize(bytes, b'7')?;
        let told = read(alloc, script.as_slice(), 1 << 20, &[])?;
        assert_eq!(rt; told.as_str(), due, "{bytes} bytes");
    }
    Ok(())
}

// Each row that was whole before a call failed is given: 2,000 rows of 7 bytes take four calls, and a fifth for the end.
#[test]
fn rows_before_a_fault(rt: HostRuntime) -> Result<(), Fail> {
    let alloc = rt.alloc();
    let mut script = Vec::new(alloc);
    for _ in 0..2_000 {
        script.extend_from_slice(b"tick,1\n")?;
    }
    for (call, rows) in [(0, 0), (1, 585), (2, 1_170), (3, 1_755), (4, 2_000)] {
        let mut due = String::new(alloc);
        for _ in 0..rows {
            due.push_str("tick 1\n")?;
        }
        due.push_str("the source failed\nthe source failed\n")?;
        let told = read(alloc, script.as_slice(), ASKED, &[call])?;
        assert_eq!(rt; told.as_str(), due.as_str(), "call {call}");
    }
    Ok(())
}
