// Lists that a file starts with, and lists in lists that grow and shrink.

ghost use Rattle.std.specs.Prelude.{◌≡◌};

use super::calls::lent;
use super::found::same;
use super::{State, Step, check, started, take};
use nxt_images::{ARRAY, CLUSTER, EMPTY, Image, NO_DEFAULT, SLONG, UBYTE, UWORD};
use nxt_space::Space;
use nxt_types::toc::Toc;
use std::alloc::Global;
use std::process::Abort;
use std::test::Fail;

/// A list of the three bytes of a text.
static LETTERS: Image<'static> = Image {
    entries: &[(ARRAY, 0, 0), (UBYTE, 0, 0)],
    static_size: 2,
    defaults: &[1, 0],
    rows: &[(2, 10, 2), (22, 1, 3)],
    lists: b"ab\0",
    ..EMPTY
};

const TEXT: State<'static> = State {
    parts: &[(0, &[], &[3, 97, 98, 0], 3), (0, &[1], &[98], 0)],
    rows: 2,
    footprint: 4 + 20 + 4,
};

static TEXTS: [Step<'static>; 3] = [
    Step {
        at: 0,
        flat: &[5, 1, 2, 3, 4, 255],
        answer: Ok(()),
        state: State {
            parts: &[(0, &[], &[5, 1, 2, 3, 4, 255], 5)],
            rows: 2,
            footprint: 4 + 20 + 8,
        },
    },
    Step {
        at: 0,
        flat: &[1, 6],
        answer: Ok(()),
        state: State {
            parts: &[(0, &[], &[1, 6], 1)],
            rows: 2,
            footprint: 4 + 20 + 4,
        },
    },
    Step {
        at: 0,
        flat: &[0],
        answer: Ok(()),
        state: State {
            parts: &[(0, &[], &[0], 0)],
            rows: 2,
            footprint: 4 + 20,
        },
    },
];

#[test]
fn an_image_with_a_list_gives_its_variables(rt: HostRuntime) -> Result<(), Fail> {
    check(&rt, rt.alloc(), &LETTERS, &TEXT, &TEXTS)
}

fn expect_bytes(
    rt: &impl Abort,
    alloc: Global,
    toc: &Toc,
    space: &Space,
    bytes: &[u8],
) -> Result<(), Fail>
    requires { toc.now.shapes ≡ space.now.vars.shapes }
{
    let found = lent(rt, alloc, toc, space, 0)?;
    same(rt, found.as_slice(), bytes, "the bytes that are lent");
    Ok(())
}

// The bytes of the file, and those that are stored over them.
fn expect_lent(rt: &impl Abort, alloc: Global, toc: &Toc, space: &mut Space) -> Result<(), Fail>
    requires { toc.now.shapes ≡ space.old.vars.shapes }
{
    expect_bytes(rt, alloc, toc, space, b"ab\0")?;
    take(rt, alloc, toc, space, &TEXTS[0])?;
    expect_bytes(rt, alloc, toc, space, &[1, 2, 3, 4, 255])
}

#[test]
fn a_list_lends_its_bytes(rt: HostRuntime) -> Result<(), Fail> {
    let mut program = started(rt.alloc(), &LETTERS)?;
    let toc = program.layout.toc();
    expect_lent(&rt, rt.alloc(), toc, &mut program.space)
}

/// A list of lists of bytes, [[5], [7, 8, 9]]: row 1 has the numbers of rows 3 and 2, which are 3 bytes apart, and the bytes
/// in those are 2 apart. The table has two rows more than it needs.
static WIDE: Image<'static> = Image {
    entries: &[(ARRAY, 0, 0), (ARRAY, 0, 0), (UBYTE, 0, 0)],
    static_size: 2,
    defaults: &[1, 0],
    rows: &[
        (2, 10, 6),
        (62, 3, 2),
        (68, 2, 3),
        (74, 2, 1),
        (0, 0, 0),
        (0, 0, 0),
    ],
    lists: &[3, 0, 99, 2, 0, 99, 7, 99, 8, 99, 9, 99, 5, 99],
    ..EMPTY
};

const WIDE_START: State<'static> = State {
    parts: &[(0, &[], &[2, 1, 5, 3, 7, 8, 9], 2), (0, &[1, 2], &[9], 0)],
    rows: 6,
    footprint: 4 + 60 + 8 + 4 + 8,
};

static WIDE_STEPS: [Step<'static>; 1] = [Step {
    at: 0,
    flat: &[3, 0, 0, 2, 1, 1],
    answer: Ok(()),
    state: State {
        parts: &[(0, &[], &[3, 0, 0, 2, 1, 1], 3)],
        rows: 6,
        footprint: 4 + 60 + 12 + 4,
    },
}];

#[test]
fn lists_in_lists_start_with_the_strides_of_the_file(rt: HostRuntime) -> Result<(), Fail> {
    check(&rt, rt.alloc(), &WIDE, &WIDE_START, &WIDE_STEPS)
}

/// A list of lists of bytes; a cluster of a word and a list of clusters of a byte and a list of words; and a number. The
/// strides are 2 and 1, 3 and 2, and there are 10 static bytes.
static NESTED: Image<'static> = Image {
    entries: &[
        (ARRAY, NO_DEFAULT, 0),
        (ARRAY, 0, 0),
        (UBYTE, 0, 0),
        (CLUSTER, 0, 2),
        (UWORD, NO_DEFAULT, 2),
        (ARRAY, NO_DEFAULT, 4),
        (CLUSTER, 0, 2),
        (UBYTE, 0, 0),
        (ARRAY, 0, 1),
        (UWORD, 0, 0),
        (SLONG, 0, 6),
    ],
    static_size: 10,
    defaults: &[0xFE, 0xFF, 0xFF, 0xFF],
    rows: &[(10, 10, 1)],
    ..EMPTY
};

const LISTS: u16 = 0;

const GROUP: u16 = 3;

const WORD: u16 = 4;

const RECORDS: u16 = 5;

const NUMBER: u16 = 10;

// 1 + 1 lists.
const NESTED_START: State<'static> = State {
    parts: &[
        (LISTS, &[], &[0], 0),
        (GROUP, &[], &[0, 0], 2),
        (RECORDS, &[], &[0], 0),
        (NUMBER, &[], &[-2], 0),
    ],
    rows: 3,
    footprint: 12 + 32,
};

static NESTED_STEPS: [Step<'static>; 9] = [
    // 3 + 1 lists.
    Step {
        at: LISTS,
        flat: &[2, 3, 97, 98, 0, 1, 7],
        answer: Ok(()),
        state: State {
            parts: &[
                (LISTS, &[], &[2, 3, 97, 98, 0, 1, 7], 2),
                (LISTS, &[0], &[3, 97, 98, 0], 3),
                (LISTS, &[0, 1], &[98], 0),
                (LISTS, &[1], &[1, 7], 1),
                (LISTS, &[1, 0], &[7], 0),
                (GROUP, &[], &[0, 0], 2),
                (NUMBER, &[], &[-2], 0),
            ],
            rows: 5,
            footprint: 12 + 52 + 4 + 4 + 4,
        },
    },
    // 3 + 3 lists.
    Step {
        at: GROUP,
        flat: &[513, 2, 9, 3, 1, 2, 65535, 8, 0],
        answer: Ok(()),
        state: State {
            parts: &[
                (LISTS, &[], &[2, 3, 97, 98, 0, 1, 7], 2),
                (GROUP, &[], &[513, 2, 9, 3, 1, 2, 65535, 8, 0], 2),
                (RECORDS, &[], &[2, 9, 3, 1, 2, 65535, 8, 0], 2),
                (RECORDS, &[0], &[9, 3, 1, 2, 65535], 2),
                (RECORDS, &[1], &[8, 0], 2),
                (NUMBER, &[], &[-2], 0),
            ],
            rows: 7,
            footprint: 12 + 72 + 12 + 8 + 8,
        },
    },
    // 2 + 3 lists; the table gets no shorter.
    Step {
        at: LISTS,
        flat: &[1, 0],
        answer: Ok(()),
        state: State {
            parts: &[
                (LISTS, &[], &[1, 0], 1),
                (LISTS, &[0], &[0], 0),
                (GROUP, &[], &[513, 2, 9, 3, 1, 2, 65535, 8, 0], 2),
                (NUMBER, &[], &[-2], 0),
            ],
            rows: 7,
            footprint: 12 + 72 + 4 + 16,
        },
    },
    // 5 + 3 lists.
    Step {
        at: LISTS,
        flat: &[4, 1, 1, 2, 2, 2, 0, 5, 5, 4, 3, 2, 1],
        answer: Ok(()),
        state: State {
            parts: &[
                (LISTS, &[], &[4, 1, 1, 2, 2, 2, 0, 5, 5, 4, 3, 2, 1], 4),
                (LISTS, &[2], &[0], 0),
                (LISTS, &[3], &[5, 5, 4, 3, 2, 1], 5),
                (LISTS, &[3, 4], &[1], 0),
                (GROUP, &[], &[513, 2, 9, 3, 1, 2, 65535, 8, 0], 2),
                (NUMBER, &[], &[-2], 0),
            ],
            rows: 9,
            footprint: 12 + 92 + 8 + 4 + 4 + 8 + 16,
        },
    },
    // A list that is a member.
    Step {
        at: RECORDS,
        flat: &[1, 7, 1, 40000],
        answer: Ok(()),
        state: State {
            parts: &[
                (LISTS, &[], &[4, 1, 1, 2, 2, 2, 0, 5, 5, 4, 3, 2, 1], 4),
                (GROUP, &[], &[513, 1, 7, 1, 40000], 2),
                (RECORDS, &[], &[1, 7, 1, 40000], 1),
                (NUMBER, &[], &[-2], 0),
            ],
            rows: 9,
            footprint: 12 + 92 + 24 + 4 + 4,
        },
    },
    Step {
        at: WORD,
        flat: &[515],
        answer: Ok(()),
        state: State {
            parts: &[
                (LISTS, &[], &[4, 1, 1, 2, 2, 2, 0, 5, 5, 4, 3, 2, 1], 4),
                (GROUP, &[], &[515, 1, 7, 1, 40000], 2),
                (NUMBER, &[], &[-2], 0),
            ],
            rows: 9,
            footprint: 12 + 92 + 24 + 8,
        },
    },
    Step {
        at: LISTS,
        flat: &[0],
        answer: Ok(()),
        state: State {
            parts: &[
                (LISTS, &[], &[0], 0),
                (GROUP, &[], &[515, 1, 7, 1, 40000], 2),
                (NUMBER, &[], &[-2], 0),
            ],
            rows: 9,
            footprint: 12 + 92 + 8,
        },
    },
    // Numbers are cut, and those that are missing are 0.
    Step {
        at: GROUP,
        flat: &[65537, 3, 256, 1],
        answer: Ok(()),
        state: State {
            parts: &[
                (LISTS, &[], &[0], 0),
                (GROUP, &[], &[1, 3, 0, 1, 0, 0, 0, 0, 0], 2),
                (NUMBER, &[], &[-2], 0),
            ],
            rows: 9,
            footprint: 12 + 92 + 12 + 4,
        },
    },
    // A length and a position count without their sign, and numbers behind the value don't count.
    Step {
        at: LISTS,
        flat: &[-2, 1, 5, 0, 99],
        answer: Ok(()),
        state: State {
            parts: &[
                (LISTS, &[], &[2, 1, 5, 0], 2),
                (LISTS, &[-1], &[0], 0),
                (GROUP, &[], &[1, 3, 0, 1, 0, 0, 0, 0, 0], 2),
                (NUMBER, &[], &[-2], 0),
            ],
            rows: 9,
            footprint: 12 + 92 + 4 + 4 + 16,
        },
    },
];

#[test]
fn nested_values_grow_and_shrink(rt: HostRuntime) -> Result<(), Fail> {
    check(&rt, rt.alloc(), &NESTED, &NESTED_START, &NESTED_STEPS)
}
