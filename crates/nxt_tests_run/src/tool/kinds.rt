// Each statement at its edges. A motor line shows a result as the tacho limit, a word of 32 bits.

use super::{FINISH, NONE, WHOLE, command, run_words};
use nxt_images::{
    EMPTY, Entry, Image, NO_DEFAULT, SBYTE, SLONG, SWORD, Statement, UBYTE, ULONG, UWORD, cmp,
    file_of, op,
};
use nxt_tool::Status;
use nxt_types::lists::Bytes;
use nxt_types::words::LEFT_OUT;
use std::alloc::Global;
use std::test::Fail;

// The table's entries: a port that holds 0, flags that hold 1, two sources and a destination.
const PORT: u16 = 0;

const FLAGS: u16 = 1;

const X: u16 = 2;

const Y: u16 = 3;

const D: u16 = 4;

/// A source's kind, and the bytes of its start.
type Source<'a> = (u8, &'a [u8]);

/// A name, two sources, the destination's kind, the code, and the limit that is shown.
type Case<'a> = (
    &'a str,
    Source<'a>,
    Source<'a>,
    u8,
    &'a [Statement<'a>],
    &'a str,
);

// Shows the destination. Each program ends with it, and with finclump.
const SHOW: Statement<'static> = &[op::SETOUT, PORT, 5, D, 0, FLAGS];

fn entries_of(x: Source, y: Source, d: u8) -> [Entry; 5] {
    [
        (UBYTE, 0, 0),
        (UBYTE, 0, 1),
        (x.0, 0, 4),
        (y.0, 0, 8),
        (d, NO_DEFAULT, 12),
    ]
}

fn defaults_of(alloc: Global, x: Source, y: Source) -> Result<Vec<u8>, Fail> {
    let mut defaults = [0, 1].to_vec(alloc)?;
    defaults.extend_from_slice(x.1)?;
    defaults.extend_from_slice(y.1)?;
    Ok(defaults)
}

fn program_of<'a>(
    alloc: Global,
    entries: &'a [Entry],
    defaults: &'a [u8],
    code: &'a [Statement<'a>],
) -> Result<Bytes, Fail> {
    let image = Image {
        entries,
        static_size: 20,
        defaults,
        clumps: &[0],
        code,
        ..EMPTY
    };
    file_of(alloc, &image)
}

const MOV: &[Statement] = &[&[op::MOV, D, X], SHOW, FINISH];

const ADD: &[Statement] = &[&[op::ADD, D, X, Y], SHOW, FINISH];

// set D, 1; brcmp over set D, 0.
const LT: &[Statement] = &[
    &[op::SET, D, 1],
    &[op::BRCMP, cmp::LT, 7, X, Y],
    &[op::SET, D, 0],
    SHOW,
    FINISH,
];

const GT: &[Statement] = &[
    &[op::SET, D, 1],
    &[op::BRCMP, cmp::GT, 7, X, Y],
    &[op::SET, D, 0],
    SHOW,
    FINISH,
];

const LTEQ: &[Statement] = &[
    &[op::SET, D, 1],
    &[op::BRCMP, cmp::LTEQ, 7, X, Y],
    &[op::SET, D, 0],
    SHOW,
    FINISH,
];

const GTEQ: &[Statement] = &[
    &[op::SET, D, 1],
    &[op::BRCMP, cmp::GTEQ, 7, X, Y],
    &[op::SET, D, 0],
    SHOW,
    FINISH,
];

const EQ: &[Statement] = &[
    &[op::SET, D, 1],
    &[op::BRCMP, cmp::EQ, 7, X, Y],
    &[op::SET, D, 0],
    SHOW,
    FINISH,
];

const NEQ: &[Statement] = &[
    &[op::SET, D, 1],
    &[op::BRCMP, cmp::NEQ, 7, X, Y],
    &[op::SET, D, 0],
    SHOW,
    FINISH,
];

static CASES: [Case<'static>; 21] = [
    (
        "an sbyte 0x80 moved to a ulong keeps its sign",
        (SBYTE, &[0x80]),
        (UBYTE, &[0x00]),
        ULONG,
        MOV,
        "4294967168",
    ),
    (
        "a ubyte 0x80 moved to an slong has none",
        (UBYTE, &[0x80]),
        (UBYTE, &[0x00]),
        SLONG,
        MOV,
        "128",
    ),
    (
        "65535 moved to an sword is -1",
        (UWORD, &[0xFF, 0xFF]),
        (UBYTE, &[0x00]),
        SWORD,
        MOV,
        "4294967295",
    ),
    (
        "an slong is cut to a ubyte",
        (SLONG, &[0xFF, 0xFF, 0xFF, 0xFF]),
        (UBYTE, &[0x00]),
        UBYTE,
        MOV,
        "255",
    ),
    (
        "a set of 65535 to an sword is -1",
        (UBYTE, &[0x00]),
        (UBYTE, &[0x00]),
        SWORD,
        &[&[op::SET, D, 65535], SHOW, FINISH],
        "4294967295",
    ),
    (
        "a set of 65535 to a ulong is 65535",
        (UBYTE, &[0x00]),
        (UBYTE, &[0x00]),
        ULONG,
        &[&[op::SET, D, 65535], SHOW, FINISH],
        "65535",
    ),
    (
        "a sum of unsigned numbers wraps",
        (ULONG, &[0xFF, 0xFF, 0xFF, 0xFF]),
        (UBYTE, &[0x02]),
        ULONG,
        ADD,
        "1",
    ),
    (
        "a sum of signed numbers wraps",
        (SLONG, &[0xFF, 0xFF, 0xFF, 0x7F]),
        (UBYTE, &[0x01]),
        SLONG,
        ADD,
        "2147483648",
    ),
    (
        "a sum is cut to its destination",
        (UWORD, &[0xFF, 0xFF]),
        (UBYTE, &[0x01]),
        UWORD,
        ADD,
        "0",
    ),
    (
        "a signed number is less than an unsigned one",
        (SBYTE, &[0xFF]),
        (UBYTE, &[0x00]),
        UBYTE,
        LT,
        "1",
    ),
    (
        "the greatest unsigned number is not less than 0",
        (ULONG, &[0xFF, 0xFF, 0xFF, 0xFF]),
        (UBYTE, &[0x00]),
        UBYTE,
        LT,
        "0",
    ),
    (
        "-1 equals the greatest unsigned number",
        (SBYTE, &[0xFF]),
        (ULONG, &[0xFF, 0xFF, 0xFF, 0xFF]),
        UBYTE,
        EQ,
        "1",
    ),
    (
        "the greatest unsigned number is less than a signed 0",
        (ULONG, &[0xFF, 0xFF, 0xFF, 0xFF]),
        (SLONG, &[0x00, 0x00, 0x00, 0x00]),
        UBYTE,
        LT,
        "1",
    ),
    (
        "equal numbers are not greater",
        (SLONG, &[0xFB, 0xFF, 0xFF, 0xFF]),
        (SBYTE, &[0xFB]),
        UBYTE,
        GT,
        "0",
    ),
    (
        "equal numbers are at most as great",
        (SLONG, &[0xFB, 0xFF, 0xFF, 0xFF]),
        (SBYTE, &[0xFB]),
        UBYTE,
        LTEQ,
        "1",
    ),
    (
        "equal numbers are at least as great",
        (SLONG, &[0xFB, 0xFF, 0xFF, 0xFF]),
        (SBYTE, &[0xFB]),
        UBYTE,
        GTEQ,
        "1",
    ),
    (
        "equal numbers do not differ",
        (SLONG, &[0xFB, 0xFF, 0xFF, 0xFF]),
        (SBYTE, &[0xFB]),
        UBYTE,
        NEQ,
        "0",
    ),
    (
        "a jump to the next statement",
        (UBYTE, &[0x00]),
        (UBYTE, &[0x00]),
        UBYTE,
        &[&[op::JMP, 2], &[op::SET, D, 7], SHOW, FINISH],
        "7",
    ),
    (
        "a jump over a statement",
        (UBYTE, &[0x00]),
        (UBYTE, &[0x00]),
        UBYTE,
        &[
            &[op::SET, D, 7],
            &[op::JMP, 5],
            &[op::SET, D, 9],
            SHOW,
            FINISH,
        ],
        "7",
    ),
    (
        "a branch backward until the sum is 10",
        (UBYTE, &[0x01]),
        (UBYTE, &[0x0A]),
        UWORD,
        &[
            &[op::ADD, D, D, X],
            &[op::BRCMP, cmp::LT, 0xFFFC, D, Y],
            SHOW,
            FINISH,
        ],
        "10",
    ),
    (
        "a stop of 0 goes on",
        (UBYTE, &[0x00]),
        (UBYTE, &[0x00]),
        UBYTE,
        &[&[op::SET, D, 7], &[op::STOP, X], SHOW, FINISH],
        "7",
    ),
];

#[test]
fn statements_at_their_edges(rt: HostRuntime) -> Result<(), Fail> {
    let alloc = rt.alloc();
    let words = run_words(alloc)?;
    for (name, x, y, d, code, limit) in &CASES {
        let entries = entries_of(*x, *y, *d);
        let defaults = defaults_of(alloc, *x, *y)?;
        let program = program_of(alloc, &entries, defaults.as_slice(), code)?;
        let ended = command(
            alloc,
            words.as_slice(),
            program.as_slice(),
            b"run,100",
            WHOLE,
            NONE,
        )?;
        let report = format!(in alloc; "motor,0,0,0,0,0,0,{limit}\nstop,finished\nend,1\n")?;
        assert_eq!(rt; ended.status, Status::Done, "{name}");
        assert_eq!(rt; ended.report.as_slice(), report.as_bytes(), "{name}");
    }
    Ok(())
}

// A stop ends the program before what stands behind it.
#[test]
fn stops(rt: HostRuntime) -> Result<(), Fail> {
    let alloc = rt.alloc();
    let words = run_words(alloc)?;
    let zero: Source = (UBYTE, &[0]);
    let minus_one: Source = (SBYTE, &[0xFF]);
    for (x, operand) in [(minus_one, X), (zero, LEFT_OUT)] {
        let stop = [op::STOP, operand];
        let code = [stop.as_slice(), SHOW, FINISH];
        let entries = entries_of(x, zero, UBYTE);
        let defaults = defaults_of(alloc, x, zero)?;
        let program = program_of(alloc, &entries, defaults.as_slice(), &code)?;
        let ended = command(
            alloc,
            words.as_slice(),
            program.as_slice(),
            b"run,2\nrun,1",
            WHOLE,
            NONE,
        )?;
        assert_eq!(rt; ended.status, Status::Done);
        assert_eq!(rt;
            ended.report.as_slice(),
            b"stop,stopped\nend,2\n".as_slice()
        );
    }
    Ok(())
}
