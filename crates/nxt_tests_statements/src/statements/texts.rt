// Statements on texts, and between texts, numbers and bytes. The values and the bytes are worked out by hand.

use super::lists::{
    BOX, BYTES, DUO, FIRST, FLAT, LEFT, NINES, NONE, NUMERALS, OPEN, PACKED, SB, SHORT, SL, SPACED,
    SW, TEXT, UB, UL, UW, VARIABLES, ZERO, ZEROS,
};
use super::{Case, DONE, check_cases};
use nxt_images::op;
use std::test::Fail;

static FLATTEN: [Case<'static>; 7] = [
    // Flatten: the bytes of a value, low bytes first, and a zero.
    (
        &[op::FLATTEN, NONE, FLAT],
        &[],
        &[
            (NONE, &[7, 254, 255, 144, 238, 254, 255, 0]),
            (FLAT, &[-2, -70000]),
        ],
        DONE,
    ),
    (
        &[op::FLATTEN, NONE, SL],
        &[(SL, -1)],
        &[(NONE, &[5, 255, 255, 255, 255, 0])],
        DONE,
    ),
    (&[op::FLATTEN, NONE, UB], &[], &[(NONE, &[2, 0, 0])], DONE),
    (
        &[op::FLATTEN, TEXT, BOX],
        &[],
        &[(TEXT, &[5, 255, 1, 2, 7, 0])],
        DONE,
    ),
    (
        &[op::FLATTEN, TEXT, SW],
        &[(SW, -2)],
        &[(TEXT, &[3, 254, 255, 0])],
        DONE,
    ),
    (
        &[op::FLATTEN, TEXT, UL],
        &[(UL, 4294967040)],
        &[(TEXT, &[5, 0, 255, 255, 255, 0])],
        DONE,
    ),
    (
        &[op::FLATTEN, SPACED, UW],
        &[(UW, 513)],
        &[(SPACED, &[3, 1, 2, 0])],
        DONE,
    ),
];

#[test]
fn flatten_spells_a_value(rt: HostRuntime) -> Result<(), Fail> {
    check_cases(&rt, rt.alloc(), &VARIABLES, &FLATTEN)
}

static UNFLATTEN: [Case<'static>; 17] = [
    // Unflatten: the whole source is read, its last zero too; where it is too short, a given value and the error 1.
    (
        &[op::UNFLATTEN, FLAT, UB, PACKED, FLAT],
        &[(UB, 7)],
        &[(FLAT, &[-32767, 16777215]), (UB, &[0])],
        DONE,
    ),
    (
        &[op::UNFLATTEN, FLAT, UB, SHORT, FLAT],
        &[(UB, 7)],
        &[(FLAT, &[-2, -70000]), (UB, &[1])],
        DONE,
    ),
    (
        &[op::UNFLATTEN, FLAT, LEFT, PACKED, FLAT],
        &[(UB, 7)],
        &[(FLAT, &[-32767, 16777215]), (UB, &[7])],
        DONE,
    ),
    (
        &[op::UNFLATTEN, FLAT, LEFT, SHORT, FLAT],
        &[(UB, 7)],
        &[(FLAT, &[-2, -70000]), (UB, &[7])],
        DONE,
    ),
    // It reads by the kinds of the given value.
    (
        &[op::UNFLATTEN, SL, UB, BYTES, SB],
        &[(SB, 5), (UB, 7)],
        &[(SL, &[-6]), (UB, &[0]), (SB, &[5])],
        DONE,
    ),
    (
        &[op::UNFLATTEN, SB, UB, BYTES, UW],
        &[(UW, 5), (UB, 7)],
        &[(SB, &[-6]), (UB, &[0]), (UW, &[5])],
        DONE,
    ),
    (
        &[op::UNFLATTEN, FLAT, UB, PACKED, DUO],
        &[(UB, 7)],
        &[(FLAT, &[1, -128]), (UB, &[0]), (DUO, &[200, -300])],
        DONE,
    ),
    (
        &[op::UNFLATTEN, DUO, UB, SHORT, FLAT],
        &[(UB, 7)],
        &[(DUO, &[254, -4464]), (UB, &[1])],
        DONE,
    ),
    (
        &[op::UNFLATTEN, BOX, UB, SHORT, BOX],
        &[(UB, 7)],
        &[(BOX, &[1, 65408, 255]), (UB, &[0])],
        DONE,
    ),
    (
        &[op::UNFLATTEN, SL, UB, TEXT, UL],
        &[(UL, 4294967295)],
        &[(SL, &[-1]), (UB, &[1])],
        DONE,
    ),
    (
        &[op::UNFLATTEN, SL, UB, NONE, SW],
        &[(SW, -5)],
        &[(SL, &[-5]), (UB, &[1])],
        DONE,
    ),
    (
        &[op::UNFLATTEN, SL, UB, ZERO, UB],
        &[(UB, 7), (SL, 9)],
        &[(SL, &[0]), (UB, &[0])],
        DONE,
    ),
    (
        &[op::UNFLATTEN, UW, UB, SPACED, UW],
        &[(UB, 7)],
        &[(UW, &[1541]), (UB, &[0])],
        DONE,
    ),
    // The first operand is stored before the second.
    (
        &[op::UNFLATTEN, SL, SL, BYTES, UB],
        &[(UB, 9)],
        &[(SL, &[0])],
        DONE,
    ),
    (
        &[op::UNFLATTEN, SL, SL, NONE, UB],
        &[(UB, 9)],
        &[(SL, &[1])],
        DONE,
    ),
    (
        &[op::UNFLATTEN, FLAT, FIRST, PACKED, FLAT],
        &[],
        &[(FLAT, &[0, 16777215])],
        DONE,
    ),
    (
        &[op::UNFLATTEN, FLAT, FIRST, SHORT, FLAT],
        &[],
        &[(FLAT, &[1, -70000])],
        DONE,
    ),
];

#[test]
fn unflatten_reads_a_value(rt: HostRuntime) -> Result<(), Fail> {
    check_cases(&rt, rt.alloc(), &VARIABLES, &UNFLATTEN)
}

static NUMTOSTR: [Case<'static>; 6] = [
    // Numtostr.
    (&[op::NUMTOSTR, NONE, UB], &[], &[(NONE, &[2, 48, 0])], DONE),
    (
        &[op::NUMTOSTR, NONE, SB],
        &[(SB, -1)],
        &[(NONE, &[3, 45, 49, 0])],
        DONE,
    ),
    (
        &[op::NUMTOSTR, NONE, SL],
        &[(SL, -2147483648)],
        &[(NONE, &[12, 45, 50, 49, 52, 55, 52, 56, 51, 54, 52, 56, 0])],
        DONE,
    ),
    (
        &[op::NUMTOSTR, TEXT, UL],
        &[(UL, 4294967295)],
        &[(TEXT, &[11, 52, 50, 57, 52, 57, 54, 55, 50, 57, 53, 0])],
        DONE,
    ),
    (
        &[op::NUMTOSTR, TEXT, SW],
        &[(SW, -32768)],
        &[(TEXT, &[7, 45, 51, 50, 55, 54, 56, 0])],
        DONE,
    ),
    (
        &[op::NUMTOSTR, TEXT, UW],
        &[(UW, 10)],
        &[(TEXT, &[3, 49, 48, 0])],
        DONE,
    ),
];

#[test]
fn numtostr_spells_a_number(rt: HostRuntime) -> Result<(), Fail> {
    check_cases(&rt, rt.alloc(), &VARIABLES, &NUMTOSTR)
}

static STRTONUM: [Case<'static>; 22] = [
    // Strtonum: spaces, a sign and digits from an offset on, or else a given number and the offset.
    (
        &[op::STRTONUM, SL, UB, NUMERALS, LEFT, LEFT],
        &[],
        &[(SL, &[12]), (UB, &[2])],
        DONE,
    ),
    (
        &[op::STRTONUM, SL, LEFT, NUMERALS, UB, LEFT],
        &[(UB, 1)],
        &[(SL, &[2]), (UB, &[1])],
        DONE,
    ),
    (
        &[op::STRTONUM, SL, UB, NUMERALS, UW, LEFT],
        &[(UW, 2)],
        &[(SL, &[-7]), (UB, &[5])],
        DONE,
    ),
    (
        &[op::STRTONUM, UB, UW, NUMERALS, UW, LEFT],
        &[(UW, 2)],
        &[(UB, &[249]), (UW, &[5])],
        DONE,
    ),
    (
        &[op::STRTONUM, SL, UB, NUMERALS, UW, SW],
        &[(UW, 5), (SW, -9)],
        &[(SL, &[-9]), (UB, &[5])],
        DONE,
    ),
    (
        &[op::STRTONUM, SL, UB, NUMERALS, UW, LEFT],
        &[(UW, 6)],
        &[(SL, &[1]), (UB, &[17])],
        DONE,
    ),
    (
        &[op::STRTONUM, SL, UB, NUMERALS, UW, SW],
        &[(UW, 17), (SW, -9)],
        &[(SL, &[-9]), (UB, &[17])],
        DONE,
    ),
    (
        &[op::STRTONUM, SL, UB, NUMERALS, UW, LEFT],
        &[(UW, 19), (SL, 9)],
        &[(SL, &[0]), (UB, &[19])],
        DONE,
    ),
    (
        &[op::STRTONUM, SL, UB, NUMERALS, UW, SW],
        &[(UW, 20), (SW, -9)],
        &[(SL, &[5]), (UB, &[22])],
        DONE,
    ),
    // A tab is no space.
    (
        &[op::STRTONUM, SL, UB, NUMERALS, UW, SW],
        &[(UW, 22), (SW, -9)],
        &[(SL, &[-9]), (UB, &[22])],
        DONE,
    ),
    (
        &[op::STRTONUM, SL, UB, NUMERALS, UW, SW],
        &[(UW, 23), (SW, -9)],
        &[(SL, &[6]), (UB, &[24])],
        DONE,
    ),
    (
        &[op::STRTONUM, SL, UB, NUMERALS, UW, SW],
        &[(UW, 24), (SW, -9)],
        &[(SL, &[-9]), (UB, &[24])],
        DONE,
    ),
    (
        &[op::STRTONUM, SL, UW, NUMERALS, UW, SW],
        &[(UW, 300), (SW, -9)],
        &[(SL, &[-9]), (UW, &[300])],
        DONE,
    ),
    (
        &[op::STRTONUM, SL, UL, NUMERALS, SB, SW],
        &[(SB, -1), (SW, -9)],
        &[(SL, &[-9]), (UL, &[4294967295])],
        DONE,
    ),
    (
        &[op::STRTONUM, SL, UB, NONE, LEFT, LEFT],
        &[(SL, 9), (UB, 7)],
        &[(SL, &[0]), (UB, &[0])],
        DONE,
    ),
    (
        &[op::STRTONUM, SL, UB, ZERO, LEFT, SW],
        &[(SW, -9), (UB, 7)],
        &[(SL, &[-9]), (UB, &[0])],
        DONE,
    ),
    (
        &[op::STRTONUM, SL, LEFT, NONE, LEFT, SL],
        &[(SL, 9)],
        &[(SL, &[9])],
        DONE,
    ),
    (
        &[op::STRTONUM, UB, UW, OPEN, UW, LEFT],
        &[(UW, 1)],
        &[(UB, &[12]), (UW, &[3])],
        DONE,
    ),
    // Any number of digits counts modulo 2^32: 10^20 - 1 is 1661992959, and its negative 2632974337.
    (
        &[op::STRTONUM, UL, UB, NINES, UB, LEFT],
        &[(UB, 1)],
        &[(UL, &[1661992959]), (UB, &[21])],
        DONE,
    ),
    (
        &[op::STRTONUM, UL, UB, NINES, LEFT, LEFT],
        &[],
        &[(UL, &[2632974337]), (UB, &[21])],
        DONE,
    ),
    (
        &[op::STRTONUM, SL, UB, NINES, LEFT, LEFT],
        &[],
        &[(SL, &[-1661992959]), (UB, &[21])],
        DONE,
    ),
    (
        &[op::STRTONUM, SL, SL, NUMERALS, LEFT, LEFT],
        &[],
        &[(SL, &[2])],
        DONE,
    ),
];

#[test]
fn strtonum_reads_a_number(rt: HostRuntime) -> Result<(), Fail> {
    check_cases(&rt, rt.alloc(), &VARIABLES, &STRTONUM)
}

static STRCAT: [Case<'static>; 8] = [
    // Strcat: bodies, and a zero.
    (
        &[op::STRCAT, TEXT, TEXT, TEXT],
        &[],
        &[(TEXT, &[5, 97, 98, 97, 98, 0])],
        DONE,
    ),
    (
        &[op::STRCAT, NONE, OPEN, TEXT],
        &[],
        &[
            (NONE, &[6, 97, 49, 50, 97, 98, 0]),
            (OPEN, &[3, 97, 49, 50]),
            (TEXT, &[3, 97, 98, 0]),
        ],
        DONE,
    ),
    (&[op::STRCAT, NONE, NONE], &[], &[(NONE, &[1, 0])], DONE),
    (
        &[op::STRCAT, BYTES, ZERO, NONE],
        &[],
        &[(BYTES, &[1, 0])],
        DONE,
    ),
    (
        &[op::STRCAT, NONE, ZEROS, TEXT],
        &[],
        &[(NONE, &[5, 97, 0, 97, 98, 0])],
        DONE,
    ),
    (
        &[op::STRCAT, OPEN, OPEN],
        &[],
        &[(OPEN, &[4, 97, 49, 50, 0])],
        DONE,
    ),
    (
        &[op::STRCAT, OPEN, TEXT, NONE, BYTES, ZERO],
        &[],
        &[(OPEN, &[6, 97, 98, 250, 1, 2, 0])],
        DONE,
    ),
    (
        &[op::STRCAT, SPACED, SPACED, TEXT],
        &[],
        &[(SPACED, &[5, 5, 6, 97, 98, 0])],
        DONE,
    ),
];

#[test]
fn strcat_joins_bodies(rt: HostRuntime) -> Result<(), Fail> {
    check_cases(&rt, rt.alloc(), &VARIABLES, &STRCAT)
}

static STRSUBSET: [Case<'static>; 11] = [
    // Strsubset: a part of the body, and a zero.
    (
        &[op::STRSUBSET, NONE, TEXT, LEFT, LEFT],
        &[],
        &[(NONE, &[3, 97, 98, 0]), (TEXT, &[3, 97, 98, 0])],
        DONE,
    ),
    (
        &[op::STRSUBSET, NONE, TEXT, UB, LEFT],
        &[(UB, 1)],
        &[(NONE, &[2, 98, 0])],
        DONE,
    ),
    (
        &[op::STRSUBSET, NONE, TEXT, UB, LEFT],
        &[(UB, 2)],
        &[(NONE, &[1, 0])],
        DONE,
    ),
    (
        &[op::STRSUBSET, TEXT, TEXT, SB, LEFT],
        &[(SB, -1)],
        &[(TEXT, &[1, 0])],
        DONE,
    ),
    (
        &[op::STRSUBSET, NONE, OPEN, UB, UB],
        &[(UB, 1)],
        &[(NONE, &[2, 49, 0])],
        DONE,
    ),
    (
        &[op::STRSUBSET, OPEN, OPEN, LEFT, SB],
        &[(SB, -1)],
        &[(OPEN, &[4, 97, 49, 50, 0])],
        DONE,
    ),
    (
        &[op::STRSUBSET, OPEN, OPEN, UB, SB],
        &[(UB, 2), (SB, -1)],
        &[(OPEN, &[2, 50, 0])],
        DONE,
    ),
    (
        &[op::STRSUBSET, NONE, TEXT, LEFT, UB],
        &[],
        &[(NONE, &[1, 0])],
        DONE,
    ),
    (
        &[op::STRSUBSET, NONE, NONE, LEFT, LEFT],
        &[],
        &[(NONE, &[1, 0])],
        DONE,
    ),
    (
        &[op::STRSUBSET, TEXT, ZEROS, LEFT, LEFT],
        &[],
        &[(TEXT, &[3, 97, 0, 0])],
        DONE,
    ),
    (
        &[op::STRSUBSET, SPACED, TEXT, UB, LEFT],
        &[(UB, 1)],
        &[(SPACED, &[2, 98, 0])],
        DONE,
    ),
];

#[test]
fn strsubset_takes_a_part_of_a_body(rt: HostRuntime) -> Result<(), Fail> {
    check_cases(&rt, rt.alloc(), &VARIABLES, &STRSUBSET)
}

static STRTOARR: [Case<'static>; 6] = [
    // Strtoarr: the body.
    (
        &[op::STRTOARR, NONE, TEXT],
        &[],
        &[(NONE, &[2, 97, 98]), (TEXT, &[3, 97, 98, 0])],
        DONE,
    ),
    (
        &[op::STRTOARR, OPEN, OPEN],
        &[],
        &[(OPEN, &[3, 97, 49, 50])],
        DONE,
    ),
    (&[op::STRTOARR, BYTES, ZERO], &[], &[(BYTES, &[0])], DONE),
    (&[op::STRTOARR, NONE, NONE], &[], &[(NONE, &[0])], DONE),
    (
        &[op::STRTOARR, ZEROS, ZEROS],
        &[],
        &[(ZEROS, &[2, 97, 0])],
        DONE,
    ),
    (
        &[op::STRTOARR, SPACED, TEXT],
        &[],
        &[(SPACED, &[2, 97, 98])],
        DONE,
    ),
];

#[test]
fn strtoarr_gives_the_body(rt: HostRuntime) -> Result<(), Fail> {
    check_cases(&rt, rt.alloc(), &VARIABLES, &STRTOARR)
}

static ARRTOSTR: [Case<'static>; 4] = [
    // Arrtostr: all bytes, and a zero.
    (
        &[op::ARRTOSTR, NONE, BYTES],
        &[],
        &[(NONE, &[4, 250, 1, 2, 0]), (BYTES, &[3, 250, 1, 2])],
        DONE,
    ),
    (
        &[op::ARRTOSTR, TEXT, TEXT],
        &[],
        &[(TEXT, &[4, 97, 98, 0, 0])],
        DONE,
    ),
    (&[op::ARRTOSTR, NONE, NONE], &[], &[(NONE, &[1, 0])], DONE),
    (
        &[op::ARRTOSTR, TEXT, SPACED],
        &[],
        &[(TEXT, &[3, 5, 6, 0])],
        DONE,
    ),
];

#[test]
fn arrtostr_adds_a_zero(rt: HostRuntime) -> Result<(), Fail> {
    check_cases(&rt, rt.alloc(), &VARIABLES, &ARRTOSTR)
}
