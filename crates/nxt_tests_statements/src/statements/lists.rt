// Statements on lists, in a program whose variables are numbers, lists, texts and clusters. The values and the bytes are
// worked out by hand.

use super::{Case, DONE, check_cases};
use nxt_images::{
    ARRAY, CLUSTER, EMPTY, Image, NO_DEFAULT, SBYTE, SLONG, SWORD, UBYTE, ULONG, UWORD, op,
};
use std::test::Fail;

// The numbers, by their entries. All of them are 0 at first.
pub const UB: u16 = 0;

pub const SB: u16 = 1;

pub const UW: u16 = 2;

pub const SW: u16 = 3;

pub const UL: u16 = 4;

pub const SL: u16 = 5;

/// A list of ubyte, [250, 1, 2].
pub const BYTES: u16 = 6;

/// An empty list of ubyte.
pub const NONE: u16 = 8;

/// The text "ab" and its zero.
pub const TEXT: u16 = 10;

/// The bytes of "a12", without a zero.
pub const OPEN: u16 = 12;

/// A zero alone.
pub const ZERO: u16 = 14;

/// The text "a" and two zeros.
pub const ZEROS: u16 = 16;

/// The text "12 -7x+4294967297 -- 5", a tab, "6", and a zero: 25 bytes.
pub const NUMERALS: u16 = 18;

/// A minus, twenty nines, and a zero.
pub const NINES: u16 = 20;

/// A list of ubyte, [1, 128, 255, 255, 255, 0].
pub const PACKED: u16 = 22;

/// A list of ubyte, [1, 128, 255, 255, 255].
pub const SHORT: u16 = 24;

/// A list of sword, [-1, 300, -32768].
pub const WORDS: u16 = 26;

/// A list of slong, [-2, 2147483647].
pub const LONGS: u16 = 28;

/// A list of lists of ubyte, [[1, 2], []].
pub const PAIRS: u16 = 30;

/// A list of lists of sword, [[300, -1], [7]].
pub const WIDE: u16 = 33;

/// Lists of ubyte three deep, [[[1, 2], [3]], []].
pub const DEEP: u16 = 36;

/// Lists of sword three deep, [[[300], [-1]]].
pub const DEEPER: u16 = 40;

/// A cluster of a ubyte, a list of sword and a sword, (9, [5, -6], -7).
pub const GROUP: u16 = 44;

/// The cluster's list.
pub const MIDDLE: u16 = 46;

/// Its last member.
pub const LAST: u16 = 48;

/// A list of clusters of a sword, a list of ubyte and an slong, [(-3, [8], 70000), (4, [], -1)].
pub const GROUPS: u16 = 49;

/// A cluster of a sword and an slong, (-2, -70000).
pub const FLAT: u16 = 55;

/// Its first member.
pub const FIRST: u16 = 56;

/// A cluster of an sbyte and a cluster of a uword and a ubyte, (-1, (513, 7)).
pub const BOX: u16 = 58;

/// A cluster of a ubyte and a sword, (200, -300).
pub const DUO: u16 = 63;

/// A list of ubyte, [5, 6], whose elements are 3 bytes apart.
pub const SPACED: u16 = 66;

/// An operand that is left out.
pub const LEFT: u16 = 0xFFFF;

pub static VARIABLES: Image<'static> = Image {
    entries: &[
        (UBYTE, NO_DEFAULT, 0),
        (SBYTE, NO_DEFAULT, 1),
        (UWORD, NO_DEFAULT, 2),
        (SWORD, NO_DEFAULT, 4),
        (ULONG, NO_DEFAULT, 6),
        (SLONG, NO_DEFAULT, 10),
        (ARRAY, 0, 14),
        (UBYTE, 0, 0),
        (ARRAY, 0, 16),
        (UBYTE, 0, 0),
        (ARRAY, 0, 18),
        (UBYTE, 0, 0),
        (ARRAY, 0, 20),
        (UBYTE, 0, 0),
        (ARRAY, 0, 22),
        (UBYTE, 0, 0),
        (ARRAY, 0, 24),
        (UBYTE, 0, 0),
        (ARRAY, 0, 26),
        (UBYTE, 0, 0),
        (ARRAY, 0, 28),
        (UBYTE, 0, 0),
        (ARRAY, 0, 30),
        (UBYTE, 0, 0),
        (ARRAY, 0, 32),
        (UBYTE, 0, 0),
        (ARRAY, 0, 34),
        (SWORD, 0, 0),
        (ARRAY, 0, 36),
        (SLONG, 0, 0),
        (ARRAY, 0, 38),
        (ARRAY, 0, 0),
        (UBYTE, 0, 0),
        (ARRAY, 0, 40),
        (ARRAY, 0, 0),
        (SWORD, 0, 0),
        (ARRAY, 0, 42),
        (ARRAY, 0, 0),
        (ARRAY, 0, 0),
        (UBYTE, 0, 0),
        (ARRAY, 0, 44),
        (ARRAY, 0, 0),
        (ARRAY, 0, 0),
        (SWORD, 0, 0),
        (CLUSTER, 0, 3),
        (UBYTE, 0, 46),
        (ARRAY, 0, 47),
        (SWORD, 0, 0),
        (SWORD, 0, 49),
        (ARRAY, 0, 51),
        (CLUSTER, 0, 3),
        (SWORD, 0, 0),
        (ARRAY, 0, 2),
        (UBYTE, 0, 0),
        (SLONG, 0, 4),
        (CLUSTER, 0, 2),
        (SWORD, 0, 53),
        (SLONG, 0, 55),
        (CLUSTER, 0, 2),
        (SBYTE, 0, 59),
        (CLUSTER, 0, 2),
        (UWORD, 0, 60),
        (UBYTE, 0, 62),
        (CLUSTER, 0, 2),
        (UBYTE, 0, 63),
        (SWORD, 0, 64),
        (ARRAY, 0, 66),
        (UBYTE, 0, 0),
    ],
    static_size: 68,
    defaults: &[
        1, 0, 0, 0, 2, 0, 3, 0, 4, 0, 5, 0, 6, 0, 7, 0, 8, 0, 9, 0, 10, 0, 11, 0, 12, 0, 14, 0, 17,
        0, 21, 0, 9, 25, 0, 249, 255, 26, 0, 254, 255, 144, 238, 254, 255, 255, 1, 2, 7, 200, 212,
        254, 28, 0,
    ],
    rows: &[
        (68, 10, 29),
        (358, 1, 3),
        (361, 1, 3),
        (364, 1, 3),
        (367, 1, 1),
        (368, 1, 3),
        (371, 1, 25),
        (396, 1, 22),
        (418, 1, 6),
        (424, 1, 5),
        (429, 2, 3),
        (435, 4, 2),
        (443, 2, 2),
        (447, 1, 2),
        (449, 2, 2),
        (453, 2, 2),
        (457, 2, 1),
        (459, 2, 2),
        (463, 2, 2),
        (467, 1, 2),
        (469, 1, 1),
        (470, 2, 1),
        (472, 2, 2),
        (476, 2, 1),
        (478, 2, 1),
        (480, 2, 2),
        (484, 8, 2),
        (500, 1, 1),
        (501, 3, 2),
    ],
    lists: &[
        250, 1, 2, 97, 98, 0, 97, 49, 50, 0, 97, 0, 0, 49, 50, 32, 45, 55, 120, 43, 52, 50, 57, 52,
        57, 54, 55, 50, 57, 55, 32, 45, 45, 32, 53, 9, 54, 0, 45, 57, 57, 57, 57, 57, 57, 57, 57,
        57, 57, 57, 57, 57, 57, 57, 57, 57, 57, 57, 57, 0, 1, 128, 255, 255, 255, 0, 1, 128, 255,
        255, 255, 255, 255, 44, 1, 0, 128, 254, 255, 255, 255, 255, 255, 255, 127, 13, 0, 0, 0, 1,
        2, 15, 0, 16, 0, 44, 1, 255, 255, 7, 0, 18, 0, 0, 0, 19, 0, 20, 0, 1, 2, 3, 22, 0, 23, 0,
        24, 0, 44, 1, 255, 255, 5, 0, 250, 255, 253, 255, 27, 0, 112, 17, 1, 0, 4, 0, 0, 0, 255,
        255, 255, 255, 8, 5, 99, 99, 6, 99, 99,
    ],
    ..EMPTY
};

static INDEX: [Case<'static>; 20] = [
    // Index: the list's element, or the zero value past the end.
    (&[op::INDEX, UB, BYTES, LEFT], &[], &[(UB, &[250])], DONE),
    (&[op::INDEX, SB, BYTES, UB], &[], &[(SB, &[-6])], DONE),
    (&[op::INDEX, SL, BYTES, UB], &[(UB, 2)], &[(SL, &[2])], DONE),
    (
        &[op::INDEX, SL, BYTES, UB],
        &[(UB, 3), (SL, 9)],
        &[(SL, &[0])],
        DONE,
    ),
    (
        &[op::INDEX, SL, LONGS, UB],
        &[(UB, 1)],
        &[(SL, &[2147483647])],
        DONE,
    ),
    (
        &[op::INDEX, SL, LONGS, SB],
        &[(SB, -1), (SL, 9)],
        &[(SL, &[0]), (SB, &[-1])],
        DONE,
    ),
    (
        &[op::INDEX, UB, WORDS, UB],
        &[(UB, 1)],
        &[(UB, &[44])],
        DONE,
    ),
    (
        &[op::INDEX, SL, NONE, LEFT],
        &[(SL, 9)],
        &[(SL, &[0])],
        DONE,
    ),
    (
        &[op::INDEX, BYTES, PAIRS, LEFT],
        &[],
        &[(BYTES, &[2, 1, 2]), (PAIRS, &[2, 2, 1, 2, 0])],
        DONE,
    ),
    (
        &[op::INDEX, BYTES, PAIRS, UB],
        &[(UB, 2)],
        &[(BYTES, &[0])],
        DONE,
    ),
    (
        &[op::INDEX, BYTES, WIDE, UB],
        &[],
        &[(BYTES, &[2, 44, 255]), (WIDE, &[2, 2, 300, -1, 1, 7])],
        DONE,
    ),
    (
        &[op::INDEX, PAIRS, DEEP, UB],
        &[],
        &[
            (PAIRS, &[2, 2, 1, 2, 1, 3]),
            (DEEP, &[2, 2, 2, 1, 2, 1, 3, 0]),
        ],
        DONE,
    ),
    (
        &[op::INDEX, PAIRS, DEEP, UB],
        &[(UB, 1)],
        &[(PAIRS, &[0])],
        DONE,
    ),
    (
        &[op::INDEX, PAIRS, DEEPER, LEFT],
        &[],
        &[
            (PAIRS, &[2, 1, 44, 1, 255]),
            (DEEPER, &[1, 2, 1, 300, 1, -1]),
        ],
        DONE,
    ),
    (
        &[op::INDEX, WIDE, DEEPER, UB],
        &[(UB, 1)],
        &[(WIDE, &[0])],
        DONE,
    ),
    (
        &[op::INDEX, GROUP, GROUPS, LEFT],
        &[],
        &[
            (GROUP, &[253, 1, 8, 4464]),
            (GROUPS, &[2, -3, 1, 8, 70000, 4, 0, -1]),
        ],
        DONE,
    ),
    (
        &[op::INDEX, GROUP, GROUPS, UB],
        &[(UB, 2)],
        &[(GROUP, &[0, 0, 0])],
        DONE,
    ),
    (
        &[op::INDEX, LAST, LONGS, UB],
        &[(UB, 1)],
        &[(GROUP, &[9, 2, 5, -6, -1])],
        DONE,
    ),
    (
        &[op::INDEX, MIDDLE, PAIRS, LEFT],
        &[],
        &[(GROUP, &[9, 2, 1, 2, -7])],
        DONE,
    ),
    (
        &[op::INDEX, SL, SPACED, UB],
        &[(UB, 1)],
        &[(SL, &[6])],
        DONE,
    ),
];

#[test]
fn index_reads_an_element(rt: HostRuntime) -> Result<(), Fail> {
    check_cases(&rt, rt.alloc(), &VARIABLES, &INDEX)
}

static REPLACE: [Case<'static>; 25] = [
    // Replace: an element, or as many elements as fit; past the end nothing.
    (
        &[op::REPLACE, BYTES, BYTES, LEFT, SL],
        &[(SL, 300)],
        &[(BYTES, &[3, 44, 1, 2])],
        DONE,
    ),
    (
        &[op::REPLACE, BYTES, BYTES, UB, SB],
        &[(UB, 2), (SB, -1)],
        &[(BYTES, &[3, 250, 1, 255])],
        DONE,
    ),
    (
        &[op::REPLACE, BYTES, BYTES, UB, SL],
        &[(UB, 3), (SL, 9)],
        &[(BYTES, &[3, 250, 1, 2])],
        DONE,
    ),
    (
        &[op::REPLACE, BYTES, BYTES, SB, SL],
        &[(SB, -1), (SL, 9)],
        &[(BYTES, &[3, 250, 1, 2])],
        DONE,
    ),
    (
        &[op::REPLACE, BYTES, BYTES, UB, BYTES],
        &[],
        &[(BYTES, &[3, 250, 1, 2])],
        DONE,
    ),
    (
        &[op::REPLACE, BYTES, BYTES, UB, BYTES],
        &[(UB, 1)],
        &[(BYTES, &[3, 250, 250, 1])],
        DONE,
    ),
    (
        &[op::REPLACE, BYTES, BYTES, UB, TEXT],
        &[(UB, 2)],
        &[(BYTES, &[3, 250, 1, 97]), (TEXT, &[3, 97, 98, 0])],
        DONE,
    ),
    (
        &[op::REPLACE, BYTES, BYTES, UB, TEXT],
        &[(UB, 3)],
        &[(BYTES, &[3, 250, 1, 2])],
        DONE,
    ),
    (
        &[op::REPLACE, BYTES, BYTES, SB, TEXT],
        &[(SB, -1)],
        &[(BYTES, &[3, 250, 1, 2])],
        DONE,
    ),
    (
        &[op::REPLACE, BYTES, BYTES, LEFT, NONE],
        &[],
        &[(BYTES, &[3, 250, 1, 2])],
        DONE,
    ),
    (
        &[op::REPLACE, NONE, NONE, LEFT, SL],
        &[(SL, 1)],
        &[(NONE, &[0])],
        DONE,
    ),
    (
        &[op::REPLACE, NONE, NUMERALS, UB, NUMERALS],
        &[(UB, 25)],
        &[(
            NONE,
            &[
                25, 49, 50, 32, 45, 55, 120, 43, 52, 50, 57, 52, 57, 54, 55, 50, 57, 55, 32, 45,
                45, 32, 53, 9, 54, 0,
            ],
        )],
        DONE,
    ),
    (
        &[op::REPLACE, WORDS, WORDS, UB, LONGS],
        &[(UB, 1)],
        &[(WORDS, &[3, -1, -2, -1])],
        DONE,
    ),
    // The new numbers are not cut to the kind of the second operand.
    (
        &[op::REPLACE, LONGS, BYTES, UB, SL],
        &[(UB, 1), (SL, 70000)],
        &[(LONGS, &[3, 250, 70000, 2]), (BYTES, &[3, 250, 1, 2])],
        DONE,
    ),
    (
        &[op::REPLACE, LONGS, BYTES, UB, WORDS],
        &[(UB, 1)],
        &[(LONGS, &[3, 250, -1, 300]), (BYTES, &[3, 250, 1, 2])],
        DONE,
    ),
    (
        &[op::REPLACE, PAIRS, PAIRS, UB, BYTES],
        &[(UB, 1)],
        &[(PAIRS, &[2, 2, 1, 2, 3, 250, 1, 2])],
        DONE,
    ),
    (
        &[op::REPLACE, PAIRS, PAIRS, UB, WIDE],
        &[(UB, 1)],
        &[(PAIRS, &[2, 2, 1, 2, 2, 44, 255])],
        DONE,
    ),
    (
        &[op::REPLACE, DEEP, DEEP, UB, PAIRS],
        &[(UB, 1)],
        &[(DEEP, &[2, 2, 2, 1, 2, 1, 3, 2, 2, 1, 2, 0])],
        DONE,
    ),
    (
        &[op::REPLACE, DEEP, DEEP, LEFT, DEEPER],
        &[],
        &[(DEEP, &[2, 2, 1, 44, 1, 255, 0])],
        DONE,
    ),
    (
        &[op::REPLACE, DEEP, DEEP, UB, PAIRS],
        &[(UB, 2)],
        &[(DEEP, &[2, 2, 2, 1, 2, 1, 3, 0])],
        DONE,
    ),
    (
        &[op::REPLACE, DEEP, DEEP, UB, DEEP],
        &[],
        &[(DEEP, &[2, 2, 2, 1, 2, 1, 3, 0])],
        DONE,
    ),
    (
        &[op::REPLACE, GROUPS, GROUPS, UB, GROUP],
        &[(UB, 1)],
        &[(GROUPS, &[2, -3, 1, 8, 70000, 9, 2, 5, 250, -7])],
        DONE,
    ),
    (
        &[op::REPLACE, MIDDLE, MIDDLE, LEFT, SL],
        &[(SL, 70000)],
        &[(GROUP, &[9, 2, 4464, -6, -7])],
        DONE,
    ),
    (
        &[op::REPLACE, SPACED, SPACED, UB, SL],
        &[(UB, 1), (SL, 300)],
        &[(SPACED, &[2, 5, 44])],
        DONE,
    ),
    (
        &[op::REPLACE, MIDDLE, WORDS, LEFT, MIDDLE],
        &[],
        &[(GROUP, &[9, 3, 5, -6, -32768, -7])],
        DONE,
    ),
];

#[test]
fn replace_changes_an_element(rt: HostRuntime) -> Result<(), Fail> {
    check_cases(&rt, rt.alloc(), &VARIABLES, &REPLACE)
}

static ARRSIZE: [Case<'static>; 6] = [
    // Arrsize.
    (&[op::ARRSIZE, SL, NONE], &[(SL, 9)], &[(SL, &[0])], DONE),
    (&[op::ARRSIZE, UB, TEXT], &[], &[(UB, &[3])], DONE),
    (&[op::ARRSIZE, UB, DEEP], &[], &[(UB, &[2])], DONE),
    (&[op::ARRSIZE, SB, DEEPER], &[], &[(SB, &[1])], DONE),
    (
        &[op::ARRSIZE, LAST, GROUPS],
        &[],
        &[(GROUP, &[9, 2, 5, -6, 2])],
        DONE,
    ),
    (&[op::ARRSIZE, UL, MIDDLE], &[], &[(UL, &[2])], DONE),
];

#[test]
fn arrsize_counts_elements(rt: HostRuntime) -> Result<(), Fail> {
    check_cases(&rt, rt.alloc(), &VARIABLES, &ARRSIZE)
}

static ARRBUILD: [Case<'static>; 13] = [
    // Arrbuild: elements, and lists that give theirs.
    (
        &[op::ARRBUILD, BYTES, SL],
        &[(SL, 300)],
        &[(BYTES, &[1, 44])],
        DONE,
    ),
    (
        &[op::ARRBUILD, BYTES, BYTES, BYTES],
        &[],
        &[(BYTES, &[6, 250, 1, 2, 250, 1, 2])],
        DONE,
    ),
    (&[op::ARRBUILD, BYTES, NONE], &[], &[(BYTES, &[0])], DONE),
    (
        &[op::ARRBUILD, NONE, NONE, NONE],
        &[],
        &[(NONE, &[0])],
        DONE,
    ),
    (
        &[op::ARRBUILD, BYTES, UB, TEXT, NONE, SB],
        &[(UB, 7), (SB, -1)],
        &[(BYTES, &[5, 7, 97, 98, 0, 255])],
        DONE,
    ),
    (
        &[op::ARRBUILD, WORDS, LONGS, SL, BYTES],
        &[(SL, 70000)],
        &[(WORDS, &[6, -2, -1, 4464, 250, 1, 2])],
        DONE,
    ),
    (
        &[op::ARRBUILD, PAIRS, BYTES, PAIRS, NONE],
        &[],
        &[(PAIRS, &[4, 3, 250, 1, 2, 2, 1, 2, 0, 0])],
        DONE,
    ),
    (
        &[op::ARRBUILD, PAIRS, WIDE, TEXT],
        &[],
        &[(PAIRS, &[3, 2, 44, 255, 1, 7, 3, 97, 98, 0])],
        DONE,
    ),
    (
        &[op::ARRBUILD, DEEP, DEEP, DEEP],
        &[],
        &[(DEEP, &[4, 2, 2, 1, 2, 1, 3, 0, 2, 2, 1, 2, 1, 3, 0])],
        DONE,
    ),
    (
        &[op::ARRBUILD, DEEP, PAIRS, DEEP, DEEPER],
        &[],
        &[(
            DEEP,
            &[4, 2, 2, 1, 2, 0, 2, 2, 1, 2, 1, 3, 0, 2, 1, 44, 1, 255],
        )],
        DONE,
    ),
    (
        &[op::ARRBUILD, GROUPS, GROUP, GROUPS],
        &[],
        &[(GROUPS, &[3, 9, 2, 5, 250, -7, -3, 1, 8, 70000, 4, 0, -1])],
        DONE,
    ),
    (
        &[op::ARRBUILD, MIDDLE, UB, MIDDLE],
        &[(UB, 1)],
        &[(GROUP, &[9, 3, 1, 5, -6, -7])],
        DONE,
    ),
    (
        &[op::ARRBUILD, SPACED, SPACED, UB, BYTES],
        &[(UB, 7)],
        &[(SPACED, &[6, 5, 6, 7, 250, 1, 2])],
        DONE,
    ),
];

#[test]
fn arrbuild_joins_values(rt: HostRuntime) -> Result<(), Fail> {
    check_cases(&rt, rt.alloc(), &VARIABLES, &ARRBUILD)
}

static ARRSUBSET: [Case<'static>; 18] = [
    // Arrsubset: the rest from an index on, or a number of its elements.
    (
        &[op::ARRSUBSET, NONE, BYTES, LEFT, LEFT],
        &[],
        &[(NONE, &[3, 250, 1, 2]), (BYTES, &[3, 250, 1, 2])],
        DONE,
    ),
    (
        &[op::ARRSUBSET, NONE, BYTES, UB, LEFT],
        &[(UB, 1)],
        &[(NONE, &[2, 1, 2])],
        DONE,
    ),
    (
        &[op::ARRSUBSET, NONE, BYTES, LEFT, UB],
        &[(UB, 2)],
        &[(NONE, &[2, 250, 1])],
        DONE,
    ),
    (
        &[op::ARRSUBSET, BYTES, BYTES, UB, UB],
        &[(UB, 1)],
        &[(BYTES, &[1, 1])],
        DONE,
    ),
    (
        &[op::ARRSUBSET, BYTES, BYTES, UB, LEFT],
        &[(UB, 3)],
        &[(BYTES, &[0])],
        DONE,
    ),
    (
        &[op::ARRSUBSET, BYTES, BYTES, UB, UW],
        &[(UB, 2), (UW, 5)],
        &[(BYTES, &[1, 2])],
        DONE,
    ),
    (
        &[op::ARRSUBSET, BYTES, BYTES, SB, LEFT],
        &[(SB, -1)],
        &[(BYTES, &[0])],
        DONE,
    ),
    (
        &[op::ARRSUBSET, BYTES, BYTES, LEFT, UB],
        &[],
        &[(BYTES, &[0])],
        DONE,
    ),
    (
        &[op::ARRSUBSET, BYTES, BYTES, UB, SB],
        &[(UB, 1), (SB, -1)],
        &[(BYTES, &[2, 1, 2])],
        DONE,
    ),
    (
        &[op::ARRSUBSET, BYTES, BYTES, SL, SL],
        &[(SL, -1)],
        &[(BYTES, &[0])],
        DONE,
    ),
    (
        &[op::ARRSUBSET, NONE, WORDS, UB, UB],
        &[(UB, 1)],
        &[(NONE, &[1, 44])],
        DONE,
    ),
    (
        &[op::ARRSUBSET, NONE, NONE, LEFT, LEFT],
        &[],
        &[(NONE, &[0])],
        DONE,
    ),
    (
        &[op::ARRSUBSET, PAIRS, WIDE, UB, LEFT],
        &[(UB, 1)],
        &[(PAIRS, &[1, 1, 7])],
        DONE,
    ),
    (
        &[op::ARRSUBSET, DEEP, DEEP, LEFT, UB],
        &[(UB, 1)],
        &[(DEEP, &[1, 2, 2, 1, 2, 1, 3])],
        DONE,
    ),
    (
        &[op::ARRSUBSET, DEEP, DEEP, UB, SB],
        &[(UB, 1), (SB, -1)],
        &[(DEEP, &[1, 0])],
        DONE,
    ),
    (
        &[op::ARRSUBSET, DEEP, DEEPER, LEFT, LEFT],
        &[],
        &[(DEEP, &[1, 2, 1, 44, 1, 255])],
        DONE,
    ),
    (
        &[op::ARRSUBSET, GROUPS, GROUPS, UB, LEFT],
        &[(UB, 1)],
        &[(GROUPS, &[1, 4, 0, -1])],
        DONE,
    ),
    (
        &[op::ARRSUBSET, SPACED, SPACED, UB, LEFT],
        &[(UB, 1)],
        &[(SPACED, &[1, 6])],
        DONE,
    ),
];

#[test]
fn arrsubset_takes_a_part(rt: HostRuntime) -> Result<(), Fail> {
    check_cases(&rt, rt.alloc(), &VARIABLES, &ARRSUBSET)
}

static ARRINIT: [Case<'static>; 9] = [
    // Arrinit: copies.
    (
        &[op::ARRINIT, BYTES, SL, UB],
        &[(SL, 300), (UB, 3)],
        &[(BYTES, &[3, 44, 44, 44])],
        DONE,
    ),
    (
        &[op::ARRINIT, BYTES, SL, UB],
        &[(SL, 300)],
        &[(BYTES, &[0])],
        DONE,
    ),
    (
        &[op::ARRINIT, LONGS, UB, UB],
        &[(UB, 2)],
        &[(LONGS, &[2, 2, 2])],
        DONE,
    ),
    (
        &[op::ARRINIT, PAIRS, TEXT, UB],
        &[(UB, 2)],
        &[(PAIRS, &[2, 3, 97, 98, 0, 3, 97, 98, 0])],
        DONE,
    ),
    (
        &[op::ARRINIT, PAIRS, NONE, UB],
        &[(UB, 3)],
        &[(PAIRS, &[3, 0, 0, 0])],
        DONE,
    ),
    (
        &[op::ARRINIT, DEEP, WIDE, UB],
        &[(UB, 2)],
        &[(DEEP, &[2, 2, 2, 44, 255, 1, 7, 2, 2, 44, 255, 1, 7])],
        DONE,
    ),
    (&[op::ARRINIT, DEEP, PAIRS, UB], &[], &[(DEEP, &[0])], DONE),
    (
        &[op::ARRINIT, GROUPS, GROUP, UB],
        &[(UB, 2)],
        &[(GROUPS, &[2, 9, 2, 5, 250, -7, 9, 2, 5, 250, -7])],
        DONE,
    ),
    (
        &[op::ARRINIT, PAIRS, SPACED, UB],
        &[(UB, 2)],
        &[(PAIRS, &[2, 2, 5, 6, 2, 5, 6])],
        DONE,
    ),
];

#[test]
fn arrinit_repeats_a_value(rt: HostRuntime) -> Result<(), Fail> {
    check_cases(&rt, rt.alloc(), &VARIABLES, &ARRINIT)
}
