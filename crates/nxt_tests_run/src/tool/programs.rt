// Worked programs on arithmetic, lists and texts. A motor line shows a number, or one byte of a text, as the tacho limit.

use super::{FINISH, NONE, WHOLE, command, run_words};
use nxt_images::{
    ARRAY, CLUSTER, EMPTY, Image, NO_DEFAULT, SBYTE, SLONG, SWORD, UBYTE, ULONG, cmp, file_of, op,
};
use nxt_tool::Status;
use std::test::Fail;

// In the programs that show something entry 0 holds the port, and entry 1 the number 1. A setout of the limit and the flags
// of changes shows.
const PORT: u16 = 0;

const ONE: u16 = 1;

const LIMIT: u16 = 5;

const CHANGES: u16 = 0;

// Shows -2147483648 / -1, 7 / 0 without signs, the remainder of -7 by 0, -7 / 2 and a moved sbyte 0x80, then
// the bytes of the first quotient's text.
// The least slong at 2, -1 at 3, 7 at 4, 0 at 5, -7 at 6, 2 at 7, the sbyte at 8, quotients at 9 and 10, the text at 11, and
// the place, the length and the byte at 13 to 15.
const ARITHMETIC: Image<'static> = Image {
    entries: &[
        (UBYTE, NO_DEFAULT, 14),
        (UBYTE, 0, 15),
        (SLONG, 0, 0),
        (SBYTE, 0, 16),
        (UBYTE, 0, 17),
        (UBYTE, NO_DEFAULT, 18),
        (SBYTE, 0, 19),
        (UBYTE, 0, 20),
        (SBYTE, 0, 21),
        (SLONG, NO_DEFAULT, 4),
        (ULONG, 0, 8),
        (ARRAY, NO_DEFAULT, 12),
        (UBYTE, 0, 0),
        (UBYTE, NO_DEFAULT, 22),
        (UBYTE, NO_DEFAULT, 23),
        (UBYTE, NO_DEFAULT, 24),
    ],
    static_size: 25,
    defaults: &[1, 0, 0, 0, 128, 255, 7, 249, 2, 128, 1, 0, 0, 0],
    rows: &[(25, 10, 1)],
    clumps: &[0],
    code: &[
        &[op::DIV, 9, 2, 3],
        &[op::SETOUT, PORT, LIMIT, 9, CHANGES, ONE],
        &[op::DIV, 10, 4, 5],
        &[op::SETOUT, PORT, LIMIT, 10, CHANGES, ONE],
        &[op::MOD, 10, 6, 5],
        &[op::SETOUT, PORT, LIMIT, 10, CHANGES, ONE],
        &[op::DIV, 10, 6, 7],
        &[op::SETOUT, PORT, LIMIT, 10, CHANGES, ONE],
        &[op::MOV, 10, 8],
        &[op::SETOUT, PORT, LIMIT, 10, CHANGES, ONE],
        &[op::NUMTOSTR, 11, 9],
        &[op::ARRSIZE, 14, 11],
        &[op::INDEX, 15, 11, 13],
        &[op::SETOUT, PORT, LIMIT, 15, CHANGES, ONE],
        &[op::ADD, 13, 13, 1],
        &[op::BRCMP, cmp::LT, 0xFFF1, 13, 14],
        FINISH,
    ],
    ..EMPTY
};

// Shows the remainders of -7 and of 7 by 0.
// -7 at 2, 7 at 3, 0 at 4, the remainder at 5.
const REMAINDER_BY_ZERO: Image<'static> = Image {
    entries: &[
        (UBYTE, NO_DEFAULT, 8),
        (UBYTE, 0, 9),
        (SLONG, 0, 0),
        (UBYTE, 0, 10),
        (UBYTE, NO_DEFAULT, 11),
        (ULONG, NO_DEFAULT, 4),
    ],
    static_size: 12,
    defaults: &[1, 249, 255, 255, 255, 7],
    clumps: &[0],
    code: &[
        &[op::MOD, 5, 2, 4],
        &[op::SETOUT, PORT, LIMIT, 5, CHANGES, ONE],
        &[op::MOD, 5, 3, 4],
        &[op::SETOUT, PORT, LIMIT, 5, CHANGES, ONE],
        FINISH,
    ],
    ..EMPTY
};

// strcat a, a, a where a is 'ab', then shows the bytes of a.
// A at 2; the place, the length and the byte at 4 to 6.
const TRIPLED_LIST: Image<'static> = Image {
    entries: &[
        (UBYTE, NO_DEFAULT, 2),
        (UBYTE, 0, 3),
        (ARRAY, 0, 0),
        (UBYTE, 0, 0),
        (UBYTE, NO_DEFAULT, 4),
        (UBYTE, NO_DEFAULT, 5),
        (UBYTE, NO_DEFAULT, 6),
    ],
    static_size: 7,
    defaults: &[1, 1, 0],
    rows: &[(7, 10, 2), (27, 1, 3)],
    lists: &[97, 98, 0],
    clumps: &[0],
    code: &[
        &[op::STRCAT, 2, 2, 2],
        &[op::ARRSIZE, 5, 2],
        &[op::INDEX, 6, 2, 4],
        &[op::SETOUT, PORT, LIMIT, 6, CHANGES, ONE],
        &[op::ADD, 4, 4, 1],
        &[op::BRCMP, cmp::LT, 0xFFF1, 4, 5],
        FINISH,
    ],
    ..EMPTY
};

// a is 'ab' and y is 'hi': strcat a, a, a; arrbuild x, y, y; replace x, x, 0, a; index y, x, 1; index t, x, 0;
// strcat t, t, y, where t is a member of a cluster. Then shows the bytes of t.
// A at 2, y at 4, x at 6, t at 11; the place, the length and the byte at 13 to 15.
const NESTED_LISTS: Image<'static> = Image {
    entries: &[
        (UBYTE, NO_DEFAULT, 10),
        (UBYTE, 0, 11),
        (ARRAY, 0, 0),
        (UBYTE, 0, 0),
        (ARRAY, 0, 2),
        (UBYTE, 0, 0),
        (ARRAY, NO_DEFAULT, 4),
        (ARRAY, 0, 0),
        (UBYTE, 0, 0),
        (CLUSTER, 0, 2),
        (SWORD, NO_DEFAULT, 6),
        (ARRAY, NO_DEFAULT, 8),
        (UBYTE, 0, 0),
        (UBYTE, NO_DEFAULT, 12),
        (UBYTE, NO_DEFAULT, 13),
        (UBYTE, NO_DEFAULT, 14),
    ],
    static_size: 15,
    defaults: &[1, 1, 0, 2, 0],
    rows: &[(15, 10, 3), (45, 1, 3), (48, 1, 3)],
    lists: &[97, 98, 0, 104, 105, 0],
    clumps: &[0],
    code: &[
        &[op::STRCAT, 2, 2, 2],
        &[op::ARRBUILD, 6, 4, 4],
        &[op::REPLACE, 6, 6, 0, 2],
        &[op::INDEX, 4, 6, 1],
        &[op::INDEX, 11, 6, 0],
        &[op::STRCAT, 11, 11, 4],
        &[op::ARRSIZE, 14, 11],
        &[op::INDEX, 15, 11, 13],
        &[op::SETOUT, PORT, LIMIT, 15, CHANGES, ONE],
        &[op::ADD, 13, 13, 1],
        &[op::BRCMP, cmp::LT, 0xFFF1, 13, 14],
        FINISH,
    ],
    ..EMPTY
};

// arrinit a, 0, 32732; arrinit a, 0, 32733. The first fills the pool, the second wants four bytes more.
// A at 0, 0 at 2, 32732 at 3, 32733 at 4.
const POOL_FILLED_TO_THE_BYTE: Image<'static> = Image {
    entries: &[
        (ARRAY, NO_DEFAULT, 12),
        (UBYTE, 0, 0),
        (SLONG, NO_DEFAULT, 0),
        (SLONG, 0, 4),
        (SLONG, 0, 8),
    ],
    static_size: 14,
    defaults: &[220, 127, 0, 0, 221, 127, 0, 0],
    rows: &[(14, 10, 1)],
    clumps: &[0],
    code: &[&[op::ARRINIT, 0, 2, 3], &[op::ARRINIT, 0, 2, 4], FINISH],
    ..EMPTY
};

// a, b and c have 10000 bytes each, b becomes empty, and a grows to 22000. No hole holds as many.
// A, b and c at 0, 2 and 4; 0 at 6, 10000 at 7, 1 at 8, 22000 at 9.
const GROWTH_BY_SLIDING: Image<'static> = Image {
    entries: &[
        (ARRAY, NO_DEFAULT, 16),
        (UBYTE, 0, 0),
        (ARRAY, NO_DEFAULT, 18),
        (UBYTE, 0, 0),
        (ARRAY, NO_DEFAULT, 20),
        (UBYTE, 0, 0),
        (SLONG, NO_DEFAULT, 0),
        (SLONG, 0, 4),
        (SLONG, 0, 8),
        (SLONG, 0, 12),
    ],
    static_size: 22,
    defaults: &[16, 39, 0, 0, 1, 0, 0, 0, 240, 85, 0, 0],
    rows: &[(22, 10, 1)],
    clumps: &[0],
    code: &[
        &[op::ARRINIT, 0, 6, 7],
        &[op::ARRINIT, 2, 6, 7],
        &[op::ARRINIT, 4, 6, 7],
        &[op::ARRSUBSET, 2, 2, 6, 6],
        &[op::ARRINIT, 0, 8, 9],
        FINISH,
    ],
    ..EMPTY
};

// x gets 200 empty lists and then none, but the table keeps its 203 rows, so that e can't have 30721 bytes.
// X at 0, e at 3, 0 at 5, 200 at 6, 30721 at 7.
const GROWTH_WITH_INNER_ROWS: Image<'static> = Image {
    entries: &[
        (ARRAY, NO_DEFAULT, 12),
        (ARRAY, 0, 0),
        (UBYTE, 0, 0),
        (ARRAY, NO_DEFAULT, 14),
        (UBYTE, 0, 0),
        (SLONG, NO_DEFAULT, 0),
        (SLONG, 0, 4),
        (SLONG, 0, 8),
    ],
    static_size: 16,
    defaults: &[200, 0, 0, 0, 1, 120, 0, 0],
    rows: &[(16, 10, 1)],
    clumps: &[0],
    code: &[
        &[op::ARRINIT, 0, 3, 6],
        &[op::ARRINIT, 0, 3, 5],
        &[op::ARRINIT, 3, 5, 7],
        FINISH,
    ],
    ..EMPTY
};

/// A name, a program, its script, and the report.
type Case<'a> = (&'a str, &'a Image<'a>, &'a [u8], &'a [u8]);

static CASES: [Case<'static>; 7] = [
    (
        "arithmetic",
        &ARITHMETIC,
        b"run,100",
        b"motor,0,0,0,0,0,0,2147483648\nmotor,0,0,0,0,0,0,0\nmotor,0,0,0,0,0,0,4294967289\nmotor,0,0,0,0,0,0,4294967293\nmotor,0,0,0,0,0,0,4294967168\nmotor,0,0,0,0,0,0,45\nmotor,0,0,0,0,0,0,50\nmotor,0,0,0,0,0,0,49\nmotor,0,0,0,0,0,0,52\nmotor,0,0,0,0,0,0,55\nmotor,0,0,0,0,0,0,52\nmotor,0,0,0,0,0,0,56\nmotor,0,0,0,0,0,0,51\nmotor,0,0,0,0,0,0,54\nmotor,0,0,0,0,0,0,52\nmotor,0,0,0,0,0,0,56\nmotor,0,0,0,0,0,0,0\nstop,finished\nend,1\n",
    ),
    (
        "remainder by zero",
        &REMAINDER_BY_ZERO,
        b"run,100",
        b"motor,0,0,0,0,0,0,4294967289\nmotor,0,0,0,0,0,0,7\nstop,finished\nend,1\n",
    ),
    (
        "tripled list",
        &TRIPLED_LIST,
        b"run,100",
        b"motor,0,0,0,0,0,0,97\nmotor,0,0,0,0,0,0,98\nmotor,0,0,0,0,0,0,97\nmotor,0,0,0,0,0,0,98\nmotor,0,0,0,0,0,0,0\nstop,finished\nend,1\n",
    ),
    (
        "nested lists",
        &NESTED_LISTS,
        b"run,100",
        b"motor,0,0,0,0,0,0,97\nmotor,0,0,0,0,0,0,98\nmotor,0,0,0,0,0,0,97\nmotor,0,0,0,0,0,0,98\nmotor,0,0,0,0,0,0,104\nmotor,0,0,0,0,0,0,105\nmotor,0,0,0,0,0,0,0\nstop,finished\nend,1\n",
    ),
    (
        "pool filled to the byte",
        &POOL_FILLED_TO_THE_BYTE,
        b"run,10",
        b"stop,memory,32772\nend,1\n",
    ),
    (
        "growth by sliding",
        &GROWTH_BY_SLIDING,
        b"run,10",
        b"stop,finished\nend,1\n",
    ),
    (
        "growth with inner rows",
        &GROWTH_WITH_INNER_ROWS,
        b"run,10",
        b"stop,memory,32772\nend,1\n",
    ),
];

#[test]
fn worked_programs(rt: HostRuntime) -> Result<(), Fail> {
    let alloc = rt.alloc();
    let words = run_words(alloc)?;
    for (name, image, script, report) in &CASES {
        let program = file_of(alloc, image)?;
        let ended = command(
            alloc,
            words.as_slice(),
            program.as_slice(),
            script,
            WHOLE,
            NONE,
        )?;
        assert_eq!(rt; ended.status, Status::Done, "{name}");
        assert_eq!(rt; ended.report.as_slice(), *report, "{name}");
        assert!(rt; ended.image.is_empty(), "{name}");
    }
    Ok(())
}
