// Texts, and the programs that they spell.

use crate::reading::read;
use std::test::Fail;

/// A text, and its program.
type Case<'a> = (&'a [u8], &'a str);

static PROGRAMS: [Case<'static>; 6] = [
    (
        b"thread main\nendt",
        "thread after 0 lowers []: 2 finclump Lt i0 i65535; ",
    ),
    (
        b"thread u\nwait 1\nendt\nthread main\nprecedes u, t\nexit\nendt\nthread t\nfollows main\nexitto u\nendt",
        "thread after 0 lowers [1, 2]: 6 finclump Lt i0 i1; 7 finclump Lt i0 i1; thread after 2 lowers []: 2 wait Lt 1; 3 finclump Lt i0 i65535; thread after 1 lowers []: 10 finclumpimmed Lt b1; 11 finclump Lt i0 i65535; ",
    ),
    (
        b"subroutine f\nreturn\nends\nthread main\ncall f\nendt",
        "thread after 0 lowers []: 5 subcall Lt b1 r1; 6 finclump Lt i0 i65535; subroutine after 1 lowers []: 2 subret Lt r1; 3 subret Lt r1; ",
    ),
    (
        b"dseg segment\np struct\n x byte\n y slong[]\np ends\nv p\ns byte[] 'it'\nw word[] 1, 2\nn sword -5\nm mutex\nz p[][]\ndseg ends\nthread main\nset v.x, 7\nmov n, 70000\ntop: index n, w, n\nbrcmp LT, top, n, 5\njmp end\nend:\nendt",
        "struct Ubyte Slong[]; var #0; var Ubyte[] 'it'; var Uword[] [1, 2]; var Sword -5; var Mutex; var #0[][]; thread after 0 lowers []: 14 set Lt v0[0] i7; 15 mov Lt v3[] 70000; 16 index Lt v3[] v2[] v3[]; 17 brcmp Lt to 2 v3[] 5; 18 jmp Lt to 5; 20 finclump Lt i0 i65535; ",
    ),
    (
        b"#include \"NXTDefs.h\"\ndseg segment\nt TSoundPlayTone\ndseg ends\nthread main\nset t.Frequency, 440\nsyscall SoundPlayTone, t\nstrtonum t.Loop, NA, '5', NA, NA\nendt",
        "struct Sword Sword; struct Sword Sword; struct Sbyte Uword Uword Ubyte Ubyte; struct Ubyte Ubyte; struct Ubyte Ubyte Ubyte; struct Sbyte #0 Ubyte[] Ulong; struct Sbyte #0 Ulong; struct Sbyte #0 #0 Ulong; struct Sbyte #0 Ubyte Ulong; struct Sbyte #0 #1 Ulong; struct Sbyte Ulong; struct Sbyte Ubyte Ubyte Ubyte Ubyte; struct Sword; struct Ulong; struct Sbyte Ubyte Ubyte[]; struct Sbyte Ubyte Ubyte Ubyte[]; struct Ulong; var #2; thread after 0 lowers []: 6 set Lt v0[1] i440; 7 syscall Lt i10 v0[]; 8 strtonum Lt v0[3] - '5' - -; 9 finclump Lt i0 i65535; ",
    ),
    (
        b"dseg segment\np struct\n x byte\np ends\nv p\ndseg ends\n#include \"NXTDefs.h\"\ndseg segment\nq struct\n l TLocation\n w p\nq ends\nt TDrawText\nz q\ndseg ends\nthread main\nset t.Location.Y, 5\nset z.l.X, 7\nset z.w.x, 9\nendt",
        "struct Ubyte; struct Sword Sword; struct Sword Sword; struct Sbyte Uword Uword Ubyte Ubyte; struct Ubyte Ubyte; struct Ubyte Ubyte Ubyte; struct Sbyte #1 Ubyte[] Ulong; struct Sbyte #1 Ulong; struct Sbyte #1 #1 Ulong; struct Sbyte #1 Ubyte Ulong; struct Sbyte #1 #2 Ulong; struct Sbyte Ulong; struct Sbyte Ubyte Ubyte Ubyte Ubyte; struct Sword; struct Ulong; struct Sbyte Ubyte Ubyte[]; struct Sbyte Ubyte Ubyte Ubyte[]; struct Ulong; struct #1 #0; var #0; var #6; var #18; thread after 0 lowers []: 17 set Lt v1[1, 1] i5; 18 set Lt v2[0, 0] i7; 19 set Lt v2[1, 0] i9; 20 finclump Lt i0 i65535; ",
    ),
];

#[test]
fn programs(rt: HostRuntime) -> Result<(), Fail> {
    let alloc = rt.alloc();
    for (text, due) in &PROGRAMS {
        let told = read(alloc, text)?;
        assert_eq!(rt; told.as_str(), *due, "{text:?}");
    }
    Ok(())
}
