// The tokens of texts.

use crate::reading::read;
use std::test::Fail;

/// A text, and its tokens with their lines.
type Case<'a> = (&'a [u8], &'a str);

static TOKENS: [Case<'static>; 28] = [
    (b"", ""),
    (b" \t\r\n", ""),
    (b"thread main", "1:thread 1:main "),
    (
        b"thread main\r\n\tset x,1\nendt",
        "1:thread 1:main 2:set 2:x 2:, 2:1 3:endt ",
    ),
    (b"\n\n a\n\nb", "3:a 5:b "),
    (b"a\rb", "1:a 1:b "),
    (b"_ _9 Az_0 aZ", "1:_ 1:_9 1:Az_0 1:aZ "),
    (b"1a 12_", "1:1 1:a 1:12 1:_ "),
    (b"0 007 4294967296", "1:0 1:007 1:4294967296 "),
    (b"0x1F 0xabcDEF09", "1:0x1F 1:0xabcDEF09 "),
    (b"0x1G 00x1", "1:0x1 1:G 1:00 1:x1 "),
    (b"0X1F 0x 0xg", "1:0 1:X1F 1:0 1:x 1:0 1:xg "),
    (b"-5 -0 -0xF -0x", "1:-5 1:-0 1:-0xF 1:-0 1:x "),
    (b"a-5 3-4 -0", "1:a 1:-5 1:3 1:-4 1:-0 "),
    (b"a,-1", "1:a 1:, 1:-1 "),
    (b"#include \"NXTDefs.h\"", "1:# 1:include 1:\"NXTDefs.h\" "),
    (b"s.x.y:[][]", "1:s 1:. 1:x 1:. 1:y 1:: 1:[ 1:] 1:[ 1:] "),
    (b"'' \"\" ' '", "1:'' 1:\"\" 1:' ' "),
    (b"'a\"b' \"a'b\"", "1:'a\"b' 1:\"a'b\" "),
    (b"'a''b'c", "1:'a' 1:'b' 1:c "),
    (b"'\\' n'~ '", "1:'\\' 1:n 1:'~ ' "),
    (b"'; // /*' a", "1:'; // /*' 1:a "),
    (b"a ; b ' \" /*\nc", "1:a 2:c "),
    (b"a // b ' /*\nc // d\r\ne", "1:a 2:c 3:e "),
    (b"a /* b\nc\n' \" */ d", "1:a 3:d "),
    (b"/**/a/***/b/*/*/c", "1:a 1:b 1:c "),
    (b"/* ; */ a /* // */ b ; /*\nc", "1:a 1:b 2:c "),
    (b";\xFF\x00\n//\xFF\n/*\xFF\n*/a", "4:a "),
];

#[test]
fn tokens(rt: HostRuntime) -> Result<(), Fail> {
    let alloc = rt.alloc();
    for (text, due) in &TOKENS {
        let told = read(alloc, text)?;
        assert_eq!(rt; told.as_str(), *due, "{text:?}");
    }
    Ok(())
}
