// Texts that declare a name more than once, or behind a line that uses it: which declaration counts.

use crate::reading::fault;
use std::test::Fail;

/// A text, and its fault.
type Case<'a> = (&'a [u8], &'a str);

static DECLARATIONS: [Case<'static>; 22] = [
    (
        b"thread main\nset d.a, 1\nendt\ndseg segment\nd P\nP struct\na byte\nP ends\ndseg ends",
        "UnknownName(2)",
    ),
    (
        b"thread main\nset d.p.a, 1\nendt\ndseg segment\nQ struct\np P\nQ ends\nd Q\nP struct\na byte\nP ends\ndseg ends",
        "UnknownName(2)",
    ),
    (
        b"thread main\nset d.Width, 1\nendt\ndseg segment\nd TSize\ndseg ends\n#include \"NXTDefs.h\"",
        "UnknownName(2)",
    ),
    (
        b"dseg segment\nTSize struct\nq byte\nTSize ends\nx TSize\ndseg ends\nthread main\nset x.q, 1\nendt\n#include \"NXTDefs.h\"",
        "TwiceNamed(2)",
    ),
    (
        b"dseg segment\nTSize struct\nq byte\nTSize ends\ndseg ends\n#include \"NXTDefs.h\"\ndseg segment\nx TSize\ndseg ends\nthread main\nset x.q, 1\nendt",
        "TwiceNamed(2)",
    ),
    (
        b"dseg segment\nTSize struct\nm byte[][][][][][][]\nTSize ends\ndseg ends\n#include \"NXTDefs.h\"\ndseg segment\nx TSize[]\ndseg ends\nthread main\nendt",
        "Syntax(8)",
    ),
    (
        b"dseg segment\nbyte struct\na word\nbyte ends\nx byte\ndseg ends\nthread main\nset x.a, 1\nendt",
        "UnknownName(8)",
    ),
    (
        b"thread x\nendt\ndseg segment\nP struct\na byte\nP ends\nx P\ndseg ends\nthread main\nset x.a, 1\nendt",
        "UnknownName(10)",
    ),
    (
        b"dseg segment\nP struct\na byte\nP ends\nx P\ndseg ends\nthread main\nset x.a, 1\nendt\nthread x\nendt",
        "TwiceNamed(10)",
    ),
    (
        b"dseg segment\nx struct\na byte\nx ends\nx x\ndseg ends\nthread main\nset x.a, 1\nendt",
        "UnknownName(8)",
    ),
    (
        b"dseg segment\nP struct\na byte\nP ends\nx P\nx struct\nb byte\nx ends\ndseg ends\nthread main\nset x.a, 1\nendt",
        "TwiceNamed(6)",
    ),
    (
        b"dseg segment\nTLocation struct\na byte\nTLocation ends\ndseg ends\n#include \"NXTDefs.h\"\ndseg segment\nd TDrawText\ndseg ends\nthread main\nset d.Location.X, 1\nendt",
        "TwiceNamed(2)",
    ),
    (
        b"dseg segment\nTLocation struct\na byte\nTLocation ends\ndseg ends\n#include \"NXTDefs.h\"\ndseg segment\nd TDrawText\ndseg ends\nthread main\nset d.Location.a, 1\nendt",
        "UnknownName(11)",
    ),
    (
        b"thread main\nwait P\nendt\ndseg segment\nP struct\na byte\nP ends\ndseg ends",
        "Kind(2, 1)",
    ),
    (
        b"dseg segment\nTSize struct\nq byte\nTSize ends\ndseg ends\n#include \"NXTDefs.h\"\nthread main\nwait TSize\nendt",
        "TwiceNamed(2)",
    ),
    (
        b"#include \"NXTDefs.h\"\ndseg segment\nTSize struct\nq byte\nTSize ends\nx TSize\ndseg ends\nthread main\nset x.q, 1\nendt",
        "UnknownName(9)",
    ),
    (
        b"#include \"NXTDefs.h\"\ndseg segment\nTSize struct\nq byte\nTSize ends\nx TSize\ndseg ends\nthread main\nset x.Width, 1\nendt",
        "TwiceNamed(3)",
    ),
    (
        b"dseg segment\nx byte\ndseg ends\nsubroutine x\nends\nthread main\nset x, 1\nendt",
        "TwiceNamed(4)",
    ),
    (
        b"subroutine x\nends\ndseg segment\nx byte\ndseg ends\nthread main\ncall x\nendt",
        "TwiceNamed(4)",
    ),
    (
        b"subroutine x\nends\ndseg segment\nP struct\na byte\nP ends\nx P\ndseg ends\nthread main\nset x.a, 1\nendt",
        "UnknownName(10)",
    ),
    (
        b"#include \"NXTDefs.h\"\ndseg segment\nPower struct\na byte\nPower ends\ndseg ends\nthread main\nset Power.a, 1\nendt",
        "UnknownName(8)",
    ),
    (
        b"dseg segment\nx byte\nP struct\na byte\nP ends\nd P\ndseg ends\nthread main\nset d.a, 1\nmov x, d.a\nendt",
        "none",
    ),
];

#[test]
fn the_first_declaration_counts(rt: HostRuntime) -> Result<(), Fail> {
    let alloc = rt.alloc();
    for (text, due) in &DECLARATIONS {
        let told = fault(alloc, text)?;
        assert_eq!(rt; told.as_str(), *due, "{text:?}");
    }
    Ok(())
}
