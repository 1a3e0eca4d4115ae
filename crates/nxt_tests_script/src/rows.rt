// The rows that a script spells.

use crate::reading::{Case, WHOLE, read};
use std::test::Fail;

static ROWS: [Case<'static>; 30] = [
    (b"", "end\nend\n"),
    (b"run,0\n", "run 0\nend\nend\n"),
    (b"run,1000000\n", "run 1000000\nend\nend\n"),
    (b"run,0000000007", "run 7\nend\nend\n"),
    (
        b"tick,5\r\ntick,6\r\r\n\ntick,7",
        "tick 5\ntick 6\ntick 7\nend\nend\n",
    ),
    (b"tick,1000000", "tick 1000000\nend\nend\n"),
    (
        b"reading,2,500,512,-60\n",
        "reading 2 500 512 -60\nend\nend\n",
    ),
    (
        b"reading,3,65535,65535,32767\n",
        "reading 3 65535 65535 32767\nend\nend\n",
    ),
    (
        b"reading,0,0,0,-32768\n",
        "reading 0 0 0 -32768\nend\nend\n",
    ),
    (
        b"tacho,2,-128,-2147483648,2147483647,-0\n",
        "tacho 2 -128 -2147483648 2147483647 0\nend\nend\n",
    ),
    (b"tacho,0,127,1,2,3\n", "tacho 0 127 1 2 3\nend\nend\n"),
    (b"button,3,1,255\n", "button 3 1 255\nend\nend\n"),
    (b"button,0,0,0\n", "button 0 0 0\nend\nend\n"),
    (b"battery,65535\n", "battery 65535\nend\nend\n"),
    (
        b"random,-32768\nrandom,32767\n",
        "random -32768\nrandom 32767\nend\nend\n",
    ),
    (b"telegram,\n", "telegram []\nend\nend\n"),
    (b"telegram,000bAF\n", "telegram [0, 11, 175]\nend\nend\n"),
    (b"compact,65535\n", "compact 65535\nend\nend\n"),
    (b"\"run\",\"7\"\n", "run 7\nend\nend\n"),
    (b"ru\"n,7\n", "row 1 is bad\nrow 1 is bad\n"),
    (b"\xEF\xBB\xBFrun,7\n", "run 7\nend\nend\n"),
    (b"\xEF\xBB\xBF\nrun,7\n", "run 7\nend\nend\n"),
    (
        b"run,1\nfoo,1\nrun,2\n",
        "run 1\nrow 2 is bad\nrow 2 is bad\n",
    ),
    (b"run,1\n\n\nfoo,1\n", "run 1\nrow 2 is bad\nrow 2 is bad\n"),
    (b"run,1\n \nrun,2\n", "run 1\nrow 2 is bad\nrow 2 is bad\n"),
    (b"dump\n", "dump\nend\nend\n"),
    (b"Run,1\n", "row 1 is bad\nrow 1 is bad\n"),
    (b"telegram\n", "row 1 is bad\nrow 1 is bad\n"),
    (b"run,1\"\n", "row 1 is bad\nrow 1 is bad\n"),
    (b"\"run,1\nrun,2\n", "row 1 is bad\nrow 1 is bad\n"),
];

// Each of these rows is bad.
static BAD: [&[u8]; 38] = [
    b"run",
    b"run,",
    b"run,1,",
    b"run,1000001",
    b"run,00000000007",
    b"run,+1",
    b"run,-0",
    b"run, 1",
    b"run,1 ",
    b"run,0x1",
    b"run,1.0",
    b"tick,1000001",
    b"tick",
    b"reading,4,0,0,0",
    b"reading,0,65536,0,0",
    b"reading,0,0,65536,0",
    b"reading,0,0,0,32768",
    b"reading,0,0,0,-32769",
    b"reading,0,-500,0,0",
    b"reading,0,0,0",
    b"tacho,3,0,0,0,0",
    b"tacho,0,128,0,0,0",
    b"tacho,0,-129,0,0,0",
    b"tacho,0,0,2147483648,0,0",
    b"tacho,0,0,0,-2147483649,0",
    b"tacho,0,0,0,0,--1",
    b"tacho,0,0,0,0,-",
    b"button,4,0,0",
    b"button,0,2,0",
    b"button,0,0,256",
    b"battery,65536",
    b"random,32768",
    b"random,-32769",
    b"telegram,0",
    b"telegram,0g",
    b"compact,65536",
    b"dump,",
    b"dump,1",
];

#[test]
fn rows(rt: HostRuntime) -> Result<(), Fail> {
    let alloc = rt.alloc();
    for (script, due) in &ROWS {
        for chunk in [1, WHOLE] {
            let told = read(alloc, script, chunk, &[])?;
            assert_eq!(rt; told.as_str(), *due, "{script:?}");
        }
    }
    Ok(())
}

#[test]
fn bad_rows(rt: HostRuntime) -> Result<(), Fail> {
    let alloc = rt.alloc();
    for script in &BAD {
        let told = read(alloc, script, WHOLE, &[])?;
        assert_eq!(rt; told.as_str(), "row 1 is bad\nrow 1 is bad\n", "{script:?}");
    }
    Ok(())
}
