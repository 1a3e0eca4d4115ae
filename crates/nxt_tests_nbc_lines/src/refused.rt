// Texts at some place of which no token begins.

use crate::reading::read;
use std::test::Fail;

/// A text, and the line of its refusal.
type Case<'a> = (&'a [u8], &'a str);

static REFUSED: [Case<'static>; 24] = [
    (b"$", "refused at line 1"),
    (b"a\n\n b $ c\n$", "refused at line 3"),
    (b"\x00", "refused at line 1"),
    (b"\x0B", "refused at line 1"),
    (b"\x7F", "refused at line 1"),
    (b"\n\xC3\xA4", "refused at line 2"),
    (b"x=1", "refused at line 1"),
    (b"(a)", "refused at line 1"),
    (b"a\n+1", "refused at line 2"),
    (b"-", "refused at line 1"),
    (b"\n- 5", "refused at line 2"),
    (b"-a", "refused at line 1"),
    (b"--5", "refused at line 1"),
    (b"/", "refused at line 1"),
    (b"a\n/ /", "refused at line 2"),
    (b"'", "refused at line 1"),
    (b"'a\"", "refused at line 1"),
    (b"'a'\n\"b\n\"", "refused at line 2"),
    (b"'a\t'", "refused at line 1"),
    (b"'\x7F'", "refused at line 1"),
    (b"\"\xC3\xA4\"", "refused at line 1"),
    (b"/*", "refused at line 1"),
    (b"/*/", "refused at line 1"),
    (b"a\n /* b\n\n* /", "refused at line 2"),
];

#[test]
fn refused(rt: HostRuntime) -> Result<(), Fail> {
    let alloc = rt.alloc();
    for (text, due) in &REFUSED {
        let told = read(alloc, text)?;
        assert_eq!(rt; told.as_str(), *due, "{text:?}");
    }
    Ok(())
}
