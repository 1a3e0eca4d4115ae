// Large texts.

use crate::reading::{refusal, tokens_of};
use nxt_nbc_lines::Tokens;
use std::alloc::Global;
use std::test::Fail;

const TEXT_BYTES: usize = 262_144;

/// A text's first bytes, the byte that fills it, its last bytes, and what is told of its tokens.
type Case<'a> = (&'a [u8], u8, &'a [u8], &'a str);

static LARGE: [Case<'static>; 17] = [
    (b"", b' ', b"", "no tokens"),
    (b"", b'\n', b"a", "1, the last 262144:262143+1"),
    (b"", b'a', b"", "1, the last 1:0+262144"),
    (b"", b'7', b"", "1, the last 1:0+262144"),
    (b"-0x", b'F', b"", "1, the last 1:0+262144"),
    (b"/*", b'*', b"*/", "no tokens"),
    (b"/*", b'\n', b"*/a", "1, the last 262140:262143+1"),
    (b"'", b'"', b"'", "1, the last 1:0+262144"),
    (b"", b'/', b"", "no tokens"),
    (b";", b'/', b"\na", "1, the last 2:262143+1"),
    (b"", b'[', b"", "262144, the last 1:262143+1"),
    (b"", b'\'', b"", "131072, the last 1:262142+2"),
    (b"", b'\n', b"$", "refused at line 262144"),
    (b"", b'-', b"5", "refused at line 1"),
    (b"\n'", b'a', b"\n'", "refused at line 2"),
    (b"/*", b'/', b"", "refused at line 1"),
    (b"a\n/*", b'*', b"\n/", "refused at line 2"),
];

/// A text of `bytes`, filled between its ends.
fn filled(alloc: Global, first: &[u8], byte: u8, last: &[u8]) -> Result<Vec<u8>, Fail> {
    let mut text = first.to_vec(alloc)?;
    for _ in first.len() + last.len()..TEXT_BYTES {
        text.push(byte)?;
    }
    text.extend_from_slice(last)?;
    Ok(text)
}

/// How many tokens there are, and the last with its line, place and length.
fn told(alloc: Global, tokens: &Tokens) -> Result<String, Fail> {
    Ok(match tokens.as_slice() {
        [] => format!(in alloc; "no tokens")?,
        [.., last] => {
            let count = tokens.len();
            format!(in alloc; "{count}, the last {}:{}+{}", last.line, last.at, last.len)?
        }
    })
}

#[test]
fn large(rt: HostRuntime) -> Result<(), Fail> {
    let alloc = rt.alloc();
    for (first, byte, last, due) in &LARGE {
        let text = filled(alloc, first, *byte, last)?;
        assert_eq!(rt; text.len(), TEXT_BYTES);
        let told = match tokens_of(alloc, text.as_slice()) {
            Ok(tokens) => told(alloc, &tokens)?,
            Err(fault) => refusal(alloc, fault)?,
        };
        assert_eq!(rt; told.as_str(), *due, "{first:?} {byte} {last:?}");
    }
    Ok(())
}
