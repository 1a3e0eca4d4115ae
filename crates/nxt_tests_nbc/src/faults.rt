// Texts that break a rule, and texts that just keep it.

use crate::reading::fault;
use std::alloc::Global;
use std::process::Abort;
use std::test::Fail;

/// A text, and its fault.
type Case<'a> = (&'a [u8], &'a str);

/// The first broken rule is told, each at its least place.
static ORDER: [Case<'static>; 14] = [
    (b"$", "Lex(1)"),
    (b"thread main\nset x, 1\nendt", "UnknownName(2)"),
    (
        b"dseg segment\na byte\na word\ndseg ends\nthread main\nendt",
        "TwiceNamed(3)",
    ),
    (b"thread main\nwait 'a'\nendt", "Kind(2, 1)"),
    (
        b"dseg segment\na byte 256\ndseg ends\nthread main\nendt",
        "Range(2)",
    ),
    (b"thread t\nendt", "NoMain"),
    (b"thread main\nadd\nendt\n\n$", "Lex(5)"),
    (b"thread main\nset x, 1\nset\nendt", "Syntax(3)"),
    (
        b"dseg segment\na byte\na word\ndseg ends\nthread main\nset x, 1\nendt",
        "UnknownName(6)",
    ),
    (
        b"thread main\nwait 'a'\nendt\nthread main\nendt",
        "TwiceNamed(4)",
    ),
    (
        b"dseg segment\na byte 256\ndseg ends\nthread main\nwait 'a'\nendt",
        "Kind(5, 1)",
    ),
    (
        b"dseg segment\na byte 256\ndseg ends\nthread t\nendt",
        "Range(2)",
    ),
    (b"", "NoMain"),
    (b"subroutine main\nends", "NoMain"),
];

static NAMES: [Case<'static>; 22] = [
    (b"thread main\njmp there\nendt", "UnknownName(2)"),
    (
        b"thread main\njmp there\nendt\nthread t\nthere:\nendt",
        "UnknownName(2)",
    ),
    (b"thread main\njmp there\nwait 1\nthere:\nendt", "none"),
    (b"thread main\nthere: jmp there\nendt", "none"),
    (b"thread main\njmp a.b\nendt", "UnknownName(2)"),
    (
        b"dseg segment\np struct\n x byte\np ends\nv p\ndseg ends\nthread main\nset v.y, 1\nendt",
        "UnknownName(8)",
    ),
    (
        b"dseg segment\np struct\n x byte\np ends\nv p\ndseg ends\nthread main\nset v.x, 1\nendt",
        "none",
    ),
    (
        b"dseg segment\nv byte\ndseg ends\nthread main\nset v.x, 1\nendt",
        "UnknownName(5)",
    ),
    (
        b"dseg segment\np struct\n x byte\np ends\nv p[]\ndseg ends\nthread main\nset v.x, 1\nendt",
        "UnknownName(8)",
    ),
    (
        b"dseg segment\nv p\np struct\n x byte\np ends\ndseg ends\nthread main\nendt",
        "UnknownName(2)",
    ),
    (
        b"dseg segment\np struct\n x p[]\np ends\ndseg ends\nthread main\nendt",
        "UnknownName(3)",
    ),
    (
        b"dseg segment\np struct\n x byte\nv p\np ends\ndseg ends\nthread main\nendt",
        "UnknownName(4)",
    ),
    (b"thread main\nwait TRUE\nendt", "UnknownName(2)"),
    (
        b"thread main\nwait TRUE\nendt\n#include \"NXTDefs.h\"",
        "UnknownName(2)",
    ),
    (
        b"#include \"NXTDefs.h\"\nthread main\nwait TRUE\nendt",
        "none",
    ),
    (
        b"#include \"NXTDefs.h\"\nthread main\nwait True\nendt",
        "UnknownName(3)",
    ),
    (
        b"dseg segment\na byte\ndseg ends\nthread main\nset A, 1\nendt",
        "UnknownName(5)",
    ),
    (b"thread main\nprecedes t\nendt", "UnknownName(2)"),
    (b"thread main\nfollows main, t\nendt", "UnknownName(2)"),
    (b"thread main\ncall f\nendt", "UnknownName(2)"),
    (b"thread main\nexitto t\nendt", "UnknownName(2)"),
    (
        b"thread main\nset a, 1\nendt\ndseg segment\na byte\ndseg ends",
        "none",
    ),
];

static TWICE: [Case<'static>; 12] = [
    (
        b"dseg segment\nt byte\ndseg ends\nthread t\nendt\nthread main\nendt",
        "TwiceNamed(4)",
    ),
    (b"thread main\nendt\nsubroutine main\nends", "TwiceNamed(3)"),
    (
        b"dseg segment\np struct\n x byte\n x word\np ends\ndseg ends\nthread main\nendt",
        "TwiceNamed(4)",
    ),
    (
        b"dseg segment\np struct\n x byte\np ends\nq struct\n x byte\nq ends\nx byte\ndseg ends\nthread main\nendt",
        "none",
    ),
    (
        b"dseg segment\np struct\n x byte\np ends\np byte\ndseg ends\nthread main\nendt",
        "TwiceNamed(5)",
    ),
    (b"thread main\na:\nb:\na: wait 1\nendt", "TwiceNamed(4)"),
    (b"thread main\na:\nendt\nthread t\na:\nendt", "none"),
    (
        b"dseg segment\nbyte word\ndseg ends\nthread main\nendt",
        "TwiceNamed(2)",
    ),
    (b"thread main\nword:\nendt", "TwiceNamed(2)"),
    (
        b"#include \"NXTDefs.h\"\ndseg segment\nOUT_A byte\ndseg ends\nthread main\nendt",
        "TwiceNamed(3)",
    ),
    (
        b"dseg segment\nOUT_A byte\ndseg ends\nthread main\nendt",
        "none",
    ),
    (
        b"dseg segment\nmain byte\ndseg ends\nthread main\nendt",
        "TwiceNamed(4)",
    ),
];

static KINDS: [Case<'static>; 34] = [
    (b"thread main\nset 5, 1\nendt", "Kind(2, 1)"),
    (b"thread main\njmp 5\nendt", "Kind(2, 1)"),
    (b"thread main\ncall main\nendt", "Kind(2, 1)"),
    (b"thread main\nwait main\nendt", "Kind(2, 1)"),
    (
        b"thread main\nwait f\nendt\nsubroutine f\nends",
        "Kind(2, 1)",
    ),
    (
        b"thread main\nexitto f\nendt\nsubroutine f\nends",
        "Kind(2, 1)",
    ),
    (
        b"thread main\nprecedes t, f\nendt\nthread t\nendt\nsubroutine f\nends",
        "Kind(2, 2)",
    ),
    (b"thread main\nfollows 5\nendt", "Kind(2, 1)"),
    (
        b"dseg segment\np struct\n m mutex\np ends\ndseg ends\nthread main\nendt",
        "Kind(3, 1)",
    ),
    (
        b"dseg segment\nm mutex[]\ndseg ends\nthread main\nendt",
        "Kind(2, 1)",
    ),
    (
        b"dseg segment\nm mutex\na byte\ndseg ends\nthread main\nacquire m\nrelease a\nendt",
        "Kind(7, 1)",
    ),
    (
        b"dseg segment\nm mutex\na byte\ndseg ends\nthread main\nmov m, m\nendt",
        "Kind(6, 1)",
    ),
    (
        b"dseg segment\na byte\nb byte[]\ndseg ends\nthread main\nadd a, b, 1\nendt",
        "Kind(6, 2)",
    ),
    (
        b"dseg segment\na byte\nb byte[]\ndseg ends\nthread main\nadd b, a, 1\nendt",
        "Kind(6, 3)",
    ),
    (
        b"dseg segment\na byte\nb byte[]\ndseg ends\nthread main\nadd b, a, b\nadd b, b, 5\nendt",
        "none",
    ),
    (
        b"dseg segment\na byte\nb byte[]\ndseg ends\nthread main\nmov b, a\nendt",
        "Kind(6, 2)",
    ),
    (
        b"dseg segment\na byte\nb slong[]\nc byte[]\ndseg ends\nthread main\nmov b, c\nmov b, 'text'\nmov a, 70000\nendt",
        "none",
    ),
    (
        b"dseg segment\na byte\nb byte\ndseg ends\nthread main\nset a, b\nendt",
        "Kind(6, 2)",
    ),
    (
        b"dseg segment\na byte\ndseg ends\nthread main\nset a, 70000\nset a, -1\nendt",
        "none",
    ),
    (
        b"dseg segment\np struct\n x byte\np ends\na byte\ndseg ends\nthread main\nmov a, p\nendt",
        "Kind(8, 2)",
    ),
    (
        b"dseg segment\np struct\n x byte\n y slong[]\np ends\nq struct\n x word\n y byte[]\nq ends\nv p\nw q\ndseg ends\nthread main\nmov v, w\nendt",
        "none",
    ),
    (
        b"dseg segment\np struct\n x byte\n y slong[]\np ends\nq struct\n x word\n y byte\nq ends\nv p\nw q\ndseg ends\nthread main\nmov v, w\nendt",
        "Kind(14, 2)",
    ),
    (
        b"dseg segment\nx byte[][]\ne byte[]\ndseg ends\nthread main\narrinit x, e, 2\narrinit e, x, 2\nendt",
        "Kind(7, 2)",
    ),
    (
        b"dseg segment\nx byte[][]\ne byte[]\na byte\ndseg ends\nthread main\nindex e, x, a\nindex a, e, 5\nindex a, x, 5\nendt",
        "Kind(9, 2)",
    ),
    (
        b"dseg segment\ne byte[]\nf byte[]\ndseg ends\nthread main\narrbuild e, f, 5, f\narrbuild e, f, 5, 'a'\nendt",
        "none",
    ),
    (
        b"dseg segment\ne word[]\ndseg ends\nthread main\nstrcat e, 'a', 'b'\nendt",
        "Kind(5, 1)",
    ),
    (
        b"dseg segment\ne byte[]\na byte\ndseg ends\nthread main\nstrcat e, 'a', a\nendt",
        "Kind(6, 3)",
    ),
    (
        b"dseg segment\nx byte[][]\ne byte[]\ndseg ends\nthread main\nflatten e, x\nendt",
        "Kind(6, 2)",
    ),
    (
        b"#include \"NXTDefs.h\"\ndseg segment\nt TSoundPlayTone\na byte\ndseg ends\nthread main\nsyscall SoundPlayTone, t\nsyscall SoundPlayTone, a\nendt",
        "Kind(8, 2)",
    ),
    (
        b"#include \"NXTDefs.h\"\ndseg segment\nt TDrawText\nl TLocation\ndseg ends\nthread main\nsyscall DrawText, t\nsyscall DrawText, l\nendt",
        "Kind(8, 2)",
    ),
    (
        b"#include \"NXTDefs.h\"\ndseg segment\na byte\nb byte[]\ndseg ends\nthread main\nstrtoarr b, 'a'\nstrtonum a, NA, '5', NA, NA\nstop NA\nindex a, b, NA\nendt",
        "none",
    ),
    (
        b"#include \"NXTDefs.h\"\ndseg segment\na byte\nb byte[]\ndseg ends\nthread main\nstrtonum a, 5, '5', NA, NA\nendt",
        "Kind(7, 2)",
    ),
    (
        b"dseg segment\na byte\ndseg ends\nthread main\nsubcall main, a\nendt",
        "Kind(5, 1)",
    ),
    (
        b"dseg segment\na byte\ndseg ends\nthread main\nsubcall f, a\nendt\nsubroutine f\nends",
        "none",
    ),
];

static RANGES: [Case<'static>; 20] = [
    (b"thread main\nwait 4294967295\nendt", "none"),
    (b"thread main\nwait 4294967296\nendt", "Range(2)"),
    (b"thread main\nwait -2147483648\nendt", "none"),
    (b"thread main\nwait -2147483649\nendt", "Range(2)"),
    (b"thread main\nwait 99999999999999999999\nendt", "Range(2)"),
    (
        b"dseg segment\na byte -1\ndseg ends\nthread main\nendt",
        "Range(2)",
    ),
    (
        b"dseg segment\na sbyte -128\nb sbyte 128\ndseg ends\nthread main\nendt",
        "Range(3)",
    ),
    (
        b"dseg segment\na uword 65535\nb sword 32768\ndseg ends\nthread main\nendt",
        "Range(3)",
    ),
    (
        b"dseg segment\na ulong 4294967295\nb slong 4294967295\ndseg ends\nthread main\nendt",
        "Range(3)",
    ),
    (
        b"dseg segment\na slong -2147483648\nb dword -1\ndseg ends\nthread main\nendt",
        "Range(3)",
    ),
    (
        b"dseg segment\na byte[] 1, 255\nb byte[] 1, 256\ndseg ends\nthread main\nendt",
        "Range(3)",
    ),
    (
        b"dseg segment\nm mutex 0\ndseg ends\nthread main\nendt",
        "Range(2)",
    ),
    (
        b"dseg segment\np struct\n x byte\np ends\nv p 5\ndseg ends\nthread main\nendt",
        "Range(5)",
    ),
    (
        b"dseg segment\na byte\ndseg ends\nthread main\ngetout a, 0, 14\ngetout a, 0, 15\nendt",
        "Range(6)",
    ),
    (
        b"dseg segment\na byte\ndseg ends\nthread main\ngetin a, 0, 5\ngetin a, 0, 6\nendt",
        "Range(6)",
    ),
    (b"thread main\nsetin 5, 0, 6\nendt", "Range(2)"),
    (
        b"thread main\nsetout 0, 14, 15\nsetout 0, 15, 14\nendt",
        "Range(3)",
    ),
    (
        b"dseg segment\np struct\n x byte\np ends\nv p\ndseg ends\nthread main\nsyscall 99, v\nendt",
        "Range(8)",
    ),
    (
        b"dseg segment\na byte\ndseg ends\nthread main\ngetin a, 0, 65536\nendt",
        "Range(5)",
    ),
    (
        b"dseg segment\na byte\ndseg ends\nthread main\nset a, 4294967296\nendt",
        "Range(5)",
    ),
];

fn check(rt: &impl Abort, alloc: Global, cases: &[Case<'_>]) -> Result<(), Fail> {
    for (text, due) in cases {
        let told = fault(alloc, *text)?;
        assert_eq!(rt; told.as_str(), *due, "{text:?}");
    }
    Ok(())
}

#[test]
fn faults(rt: HostRuntime) -> Result<(), Fail> {
    for cases in [
        ORDER.as_slice(),
        NAMES.as_slice(),
        TWICE.as_slice(),
        KINDS.as_slice(),
        RANGES.as_slice(),
    ] {
        check(&rt, rt.alloc(), cases)?;
    }
    Ok(())
}
