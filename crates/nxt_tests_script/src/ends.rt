// Scripts whose source fails, and scripts of every length about the limit.

use crate::reading::read;
use std::alloc::Global;
use std::test::Fail;

/// The most bytes that a script may have.
const MOST_BYTES: usize = 16_777_216;

#[test]
fn failing_sources(rt: HostRuntime) -> Result<(), Fail> {
    let alloc = rt.alloc();
    // 12 bytes: three calls of 4 bytes, and the end. The first row is whole with the second call.
    let cases = [
        (0, "the source failed\nthe source failed\n"),
        (1, "the source failed\nthe source failed\n"),
        (2, "run 1\nthe source failed\nthe source failed\n"),
        (3, "run 1\nrun 2\nthe source failed\nthe source failed\n"),
        (4, "run 1\nrun 2\nend\nend\n"),
    ];
    for (call, due) in cases {
        let told = read(alloc, b"run,1\nrun,2\n", 4, &[call])?;
        assert_eq!(rt; told.as_str(), due, "call {call}");
    }
    Ok(())
}

/// A row, empty lines, and another text at the end, of this length in all.
fn long_script(alloc: Global, bytes: usize, last: &[u8]) -> Result<Vec<u8>, Fail> {
    let mut script = b"run,1\n".to_vec(alloc)?;
    script.resize(bytes.saturating_sub(last.len()), b'\n')?;
    script.extend_from_slice(last)?;
    Ok(script)
}

#[test]
fn long_scripts(rt: HostRuntime) -> Result<(), Fail> {
    let alloc = rt.alloc();
    let cases: [(usize, &[u8], &str); 6] = [
        (MOST_BYTES, b"\nrun,2", "run 1\nrun 2\nend\nend\n"),
        (MOST_BYTES, b"\nrun,2\n", "run 1\nrun 2\nend\nend\n"),
        (
            MOST_BYTES + 1,
            b"\nrun,2\n\n",
            "run 1\nrun 2\ntoo large\ntoo large\n",
        ),
        (
            MOST_BYTES + 1,
            b"\nrun,2\n",
            "run 1\ntoo large\ntoo large\n",
        ),
        (MOST_BYTES + 1, b"\nrun,2", "run 1\ntoo large\ntoo large\n"),
        (
            MOST_BYTES + 9,
            b"\nfoo\n\n\n\n\n\n\n\n\n\n",
            "run 1\nrow 2 is bad\nrow 2 is bad\n",
        ),
    ];
    for (bytes, last, due) in cases {
        let script = long_script(alloc, bytes, last)?;
        let told = read(alloc, script.as_slice(), 1 << 20, &[])?;
        assert_eq!(rt; told.as_str(), due, "{bytes} bytes");
    }
    Ok(())
}
