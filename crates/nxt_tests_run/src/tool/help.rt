// Words that ask what the program is.

use super::words_of;
use nxt_tool::help_of;
use std::test::Fail;

/// Words, and how the text begins that they ask for; empty where they ask for none.
type Case<'a> = (&'a [&'a [u8]], &'a str);

static CASES: [Case<'static>; 7] = [
    (&[b"--help"], "nxt: the standard virtual machine"),
    (&[b"--version"], "nxt 1.0"),
    (&[b"--help", b"run"], ""),
    (&[b"check", b"--help"], ""),
    (&[b"--Help"], ""),
    (&[b""], ""),
    (&[], ""),
];

#[test]
fn help(rt: HostRuntime) -> Result<(), Fail> {
    let alloc = rt.alloc();
    for (texts, start) in &CASES {
        let words = words_of(alloc, texts)?;
        let told = help_of(words.as_slice());
        assert_eq!(rt; told.is_some(), !start.is_empty());
        assert!(rt; told.unwrap_or("").starts_with(*start));
    }
    Ok(())
}
