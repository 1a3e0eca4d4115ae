// The forms of texts.

use crate::reading::tokens_of;
use crate::spelling::told;
use nxt_nbc_lines::forms_of;
use std::alloc::Global;
use std::test::Fail;

/// A text, and the forms of its lines.
type Case<'a> = (&'a [u8], &'a str);

static TOP: [Case<'static>; 9] = [
    (b"", ""),
    (
        b"#include \"NXTDefs.h\"\n\n# include 'NXTDefs.h'",
        "1 include; 3 include; ",
    ),
    (b"#include \"NXTDefs.H\"", "bad 1"),
    (
        b"thread main\nendt\nsubroutine f\nends",
        "1 thread main; 2 end of block; 3 subroutine f; 4 end of block; ",
    ),
    (b"thread main\nends", "1 thread main; bad 1"),
    (
        b"dseg segment\ndseg ends\nendt\ndseg ends",
        "1 data; 2 end of data; bad 3",
    ),
    (
        b"thread a\nadd\nsubroutine b\n dseg segment",
        "1 thread a; 4 data; bad 1",
    ),
    (b"thread a b\nadd 1", "bad 1"),
    (b"Thread main", "bad 1"),
];

static DATA: [Case<'static>; 12] = [
    (
        b"dseg segment\n a byte\n b sword -5\n c ubyte[]\n d slong[][] \ndseg ends",
        "1 data; 2 variable a: byte of 0, nothing; 3 variable b: sword of 0, one -5; 4 variable c: ubyte of 1, nothing; 5 variable d: slong of 2, nothing; 6 end of data; ",
    ),
    (
        b"dseg segment\n s byte[] 'it'\n t byte[] 1, -2,0x10\n u byte[] 7\ndseg ends",
        "1 data; 2 variable s: byte of 1, bytes 'it'; 3 variable t: byte of 1, many [1, -2, 16]; 4 variable u: byte of 1, many [7]; 5 end of data; ",
    ),
    (
        b"dseg segment\n a byte 'it'\n b byte[][] 1\n c byte 1, 2\n d struct\n e ends\n",
        "1 data; 5 struct d; bad 1",
    ),
    (
        b"dseg segment\np struct\n x sword\n y p[]\np ends\ndseg ends",
        "1 data; 2 struct p; 3 member x: sword of 0; 4 member y: p of 1; 5 end of struct; 6 end of data; ",
    ),
    (
        b"dseg segment\np struct\n\np ends\ndseg ends",
        "1 data; 2 struct p; 4 end of struct; 5 end of data; bad 4",
    ),
    (
        b"dseg segment\np struct\n x sword 1\n q ends\n y sword\np ends\ndseg ends",
        "1 data; 2 struct p; 5 member y: sword of 0; 6 end of struct; 7 end of data; bad 3",
    ),
    (
        b"dseg segment\na segment\nb byte [ ] [\ndseg ends",
        "1 data; 4 end of data; bad 2",
    ),
    (
        b"dseg segment\na byte[] 1 2\nb byte[] 1,\nc byte[] ,1\ndseg ends",
        "1 data; 5 end of data; bad 2",
    ),
    (
        b"dseg segment\n a slong 4611686018427387903\n b slong 4611686018427387905\n c slong -99999999999999999999\ndseg ends",
        "1 data; 2 variable a: slong of 0, one 4611686018427387903; 3 variable b: slong of 0, one 4611686018427387904; 4 variable c: slong of 0, one -4611686018427387904; 5 end of data; ",
    ),
    (
        b"dseg segment\n a slong 0xFFFFFFFFFFFFFFFFF\n b slong 0x3fffFFFFffffFFFF\n c slong -0x10\ndseg ends",
        "1 data; 2 variable a: slong of 0, one 4611686018427387904; 3 variable b: slong of 0, one 4611686018427387903; 4 variable c: slong of 0, one -16; 5 end of data; ",
    ),
    (
        b"dseg segment\na byte 1\ndseg segment",
        "1 data; 2 variable a: byte of 0, one 1; bad 1",
    ),
    (
        b"thread m\ndseg segment\ndseg ends\nendt",
        "1 thread m; 2 data; 3 end of data; 4 end of block; ",
    ),
];

static BODIES: [Case<'static>; 14] = [
    (
        b"thread m\nadd a, b.c.d, 5\nendt",
        "1 thread m; 2 add Lt a b.c.d 5; 3 end of block; ",
    ),
    (
        b"thread m\nlp:\nx: mov a,'it'\nstop: stop a\nendt",
        "1 thread m; 2 label lp; 3 x: mov Lt a 'it'; 4 stop: stop Lt a; 5 end of block; ",
    ),
    (
        b"thread m\nbrcmp GTEQ, to, a, b\nbrtst NEQ, to, a\nbrcmp gt, to, a, b\nbrcmp GTEQ to, a, b\nendt",
        "1 thread m; 2 brcmp Gteq to a b; 3 brtst Neq to a; 6 end of block; bad 4",
    ),
    (
        b"thread m\nwaitv a\nwait 5\nfinclump 1,2\nendt",
        "1 thread m; 2 wait Lt a; 3 wait Lt 5; 5 end of block; bad 4",
    ),
    (
        b"thread m\nadd a, b\nendt",
        "1 thread m; 3 end of block; bad 2",
    ),
    (
        b"thread m\nadd a b, c\nendt",
        "1 thread m; 3 end of block; bad 2",
    ),
    (
        b"thread m\nsetout a, 1, b, 2, c\nsetout a, 1\nstrcat s, 'a', 'b', t\nendt",
        "1 thread m; 2 setout Lt a 1 b 2 c; 4 strcat Lt s 'a' 'b' t; 5 end of block; bad 3",
    ),
    (
        b"thread m\nprecedes a, b\nfollows c\nexit\nexitto d\ncall f\nendt",
        "1 thread m; 2 precedes a b; 3 follows c; 4 exit; 5 exit to d; 6 call f; 7 end of block; ",
    ),
    (
        b"thread m\nprecedes: call: exitto: add a,b,c\nexit:\nendt",
        "1 thread m; 3 label exit; 4 end of block; bad 2",
    ),
    (
        b"thread m\nprecedes: add a,b,c\nendt",
        "1 thread m; 2 precedes: add Lt a b c; 3 end of block; ",
    ),
    (
        b"thread m\nreturn\nexit 1\nendt x\nendt",
        "1 thread m; 5 end of block; bad 2",
    ),
    (
        b"subroutine f\nreturn\ncall g\nexit\nends",
        "1 subroutine f; 2 return; 3 call g; 5 end of block; bad 4",
    ),
    (
        b"subroutine f\ndseg segment\n a byte\ndseg ends\nsubret a\nends",
        "1 subroutine f; 2 data; 3 variable a: byte of 0, nothing; 4 end of data; 5 subret Lt a; 6 end of block; ",
    ),
    (
        b"thread m\nadd a., b, c\nadd .a, b, c\nadd a.1, b, c\nadd a.b .c, d, e\nendt",
        "1 thread m; 5 add Lt a.b.c d e; 6 end of block; bad 2",
    ),
];

fn read(alloc: Global, text: &[u8]) -> Result<String, Fail> {
    let Ok(tokens) = tokens_of(alloc, text) else {
        return Ok(format!(in alloc; "no tokens")?);
    };
    match forms_of(alloc, text, tokens.as_slice()) {
        Ok(formed) => told(alloc, &formed),
        Err(_) => Ok(format!(in alloc; "no memory")?),
    }
}

#[test]
fn top(rt: HostRuntime) -> Result<(), Fail> {
    let alloc = rt.alloc();
    for (text, due) in &TOP {
        let told = read(alloc, text)?;
        assert_eq!(rt; told.as_str(), *due, "{text:?}");
    }
    Ok(())
}

#[test]
fn data(rt: HostRuntime) -> Result<(), Fail> {
    let alloc = rt.alloc();
    for (text, due) in &DATA {
        let told = read(alloc, text)?;
        assert_eq!(rt; told.as_str(), *due, "{text:?}");
    }
    Ok(())
}

#[test]
fn bodies(rt: HostRuntime) -> Result<(), Fail> {
    let alloc = rt.alloc();
    for (text, due) in &BODIES {
        let told = read(alloc, text)?;
        assert_eq!(rt; told.as_str(), *due, "{text:?}");
    }
    Ok(())
}
