// Statements on numbers and lists of numbers at the ends of the kinds. The values are worked out by hand.

use super::{Case, DONE, check_cases};
use nxt_images::{
    ARRAY, EMPTY, Image, MUTEX, NO_DEFAULT, SBYTE, SLONG, SWORD, UBYTE, ULONG, UWORD, cmp, op,
};
use nxt_ops::Next;
use std::test::Fail;

// The numbers, by their entries.
const UB: u16 = 0;

const SB: u16 = 1;

const UW: u16 = 2;

const SW: u16 = 3;

const UL: u16 = 4;

const SL: u16 = 5;

/// A list of ubyte, [1, 2, 250].
const BYTES: u16 = 6;

/// A list of sword, [-1, 7, -32768, 5].
const WORDS: u16 = 8;

/// A list of slong, [-2, 2147483647].
const LONGS: u16 = 10;

/// A list of uword, [1, 2].
const HEAD: u16 = 12;

static ENDS: Image<'static> = Image {
    entries: &[
        (UBYTE, NO_DEFAULT, 0),
        (SBYTE, NO_DEFAULT, 1),
        (UWORD, NO_DEFAULT, 2),
        (SWORD, NO_DEFAULT, 4),
        (ULONG, NO_DEFAULT, 6),
        (SLONG, NO_DEFAULT, 10),
        (ARRAY, 0, 14),
        (UBYTE, 0, 0),
        (ARRAY, 0, 16),
        (SWORD, 0, 0),
        (ARRAY, 0, 18),
        (SLONG, 0, 0),
        (ARRAY, 0, 20),
        (UWORD, 0, 0),
        (MUTEX, NO_DEFAULT, 22),
    ],
    static_size: 26,
    defaults: &[1, 0, 2, 0, 3, 0, 4, 0],
    rows: &[(26, 10, 5), (76, 1, 3), (79, 2, 4), (87, 4, 2), (95, 2, 2)],
    lists: &[
        1, 2, 250, 255, 255, 7, 0, 0, 128, 5, 0, 254, 255, 255, 255, 255, 255, 255, 127, 1, 0, 2, 0,
    ],
    ..EMPTY
};

static ARITHMETIC: [Case<'static>; 21] = [
    (
        &[op::ADD, UL, UL, UW],
        &[(UL, 4294967295), (UW, 2)],
        &[(UL, &[1]), (UW, &[2])],
        DONE,
    ),
    (
        &[op::ADD, SB, SB, UB],
        &[(SB, 127), (UB, 1)],
        &[(SB, &[-128]), (UB, &[1])],
        DONE,
    ),
    (
        &[op::SUB, UW, UB, SB],
        &[(SB, 1)],
        &[(UW, &[65535]), (UB, &[0]), (SB, &[1])],
        DONE,
    ),
    (
        &[op::MUL, SL, SL, SW],
        &[(SL, -2147483648), (SW, -1)],
        &[(SL, &[-2147483648])],
        DONE,
    ),
    (
        &[op::MUL, UL, UW, UW],
        &[(UW, 65535)],
        &[(UL, &[4294836225])],
        DONE,
    ),
    // A quotient is cut toward zero.
    (
        &[op::DIV, SL, SL, SB],
        &[(SL, -7), (SB, 2)],
        &[(SL, &[-3])],
        DONE,
    ),
    (
        &[op::DIV, SL, SL, SB],
        &[(SL, -2147483648), (SB, -1)],
        &[(SL, &[-2147483648])],
        DONE,
    ),
    // One signed kind makes both signed.
    (
        &[op::DIV, UL, UL, UB],
        &[(UL, 4294967289), (UB, 2)],
        &[(UL, &[2147483644])],
        DONE,
    ),
    (
        &[op::DIV, UL, UL, SB],
        &[(UL, 4294967289), (SB, 2)],
        &[(UL, &[4294967293])],
        DONE,
    ),
    (&[op::DIV, SW, SW, UB], &[(SW, 5)], &[(SW, &[0])], DONE),
    (
        &[op::MOD, SL, SL, SB],
        &[(SL, -7), (SB, 3)],
        &[(SL, &[-1])],
        DONE,
    ),
    (
        &[op::MOD, SL, SL, SB],
        &[(SL, 7), (SB, -3)],
        &[(SL, &[1])],
        DONE,
    ),
    (
        &[op::MOD, UB, UL, UW],
        &[(UL, 4294967289), (UW, 10)],
        &[(UB, &[9])],
        DONE,
    ),
    (
        &[op::MOD, SL, UL, UB],
        &[(UL, 4294967289)],
        &[(SL, &[-7]), (UL, &[4294967289])],
        DONE,
    ),
    (
        &[op::AND, UW, SL, UB],
        &[(SL, -1), (UB, 90)],
        &[(UW, &[90])],
        DONE,
    ),
    (
        &[op::OR, SL, UL, UB],
        &[(UL, 2147483648), (UB, 1)],
        &[(SL, &[-2147483647])],
        DONE,
    ),
    (
        &[op::XOR, UB, SB, UB],
        &[(SB, -1), (UB, 15)],
        &[(UB, &[240])],
        DONE,
    ),
    (&[op::NEG, SB, SB], &[(SB, -128)], &[(SB, &[-128])], DONE),
    (&[op::NEG, UW, UB], &[(UB, 1)], &[(UW, &[65535])], DONE),
    (&[op::NOT, UB, SL], &[(UB, 9)], &[(UB, &[1])], DONE),
    (&[op::NOT, SL, SL], &[(SL, -5)], &[(SL, &[0])], DONE),
];

#[test]
fn arithmetic_at_the_ends_of_the_kinds(rt: HostRuntime) -> Result<(), Fail> {
    check_cases(&rt, rt.alloc(), &ENDS, &ARITHMETIC)
}

static OTHERS: [Case<'static>; 17] = [
    (
        &[op::CMP, cmp::LT, UB, SL, UL],
        &[(SL, -1), (UL, 1)],
        &[(UB, &[1])],
        DONE,
    ),
    (
        &[op::CMP, cmp::LT, UB, UL, UW],
        &[(UL, 4294967295), (UW, 1), (UB, 7)],
        &[(UB, &[0])],
        DONE,
    ),
    (
        &[op::CMP, cmp::EQ, UB, UL, SL],
        &[(UL, 4294967295), (SL, -1)],
        &[(UB, &[1])],
        DONE,
    ),
    (
        &[op::TST, cmp::GT, UB, SL],
        &[(SL, -1), (UB, 7)],
        &[(UB, &[0])],
        DONE,
    ),
    (
        &[op::TST, cmp::GT, UB, UL],
        &[(UL, 4294967295)],
        &[(UB, &[1])],
        DONE,
    ),
    (
        &[op::MOV, SB, UL],
        &[(UL, 384)],
        &[(SB, &[-128]), (UL, &[384])],
        DONE,
    ),
    (
        &[op::MOV, UL, SB],
        &[(SB, -1)],
        &[(UL, &[4294967295])],
        DONE,
    ),
    (&[op::SET, SW, 0xFFFF], &[], &[(SW, &[-1])], DONE),
    (&[op::SET, SL, 0xFFFF], &[], &[(SL, &[65535])], DONE),
    (&[op::SET, UB, 0x1FE], &[], &[(UB, &[254])], DONE),
    (&[op::JMP, 0xFFFD], &[], &[(UB, &[0])], Ok(Next::Jump(-3))),
    (&[op::JMP, 0x7FFF], &[], &[], Ok(Next::Jump(32767))),
    (
        &[op::BRCMP, cmp::LT, 0xFFFF, SB, UL],
        &[(SB, -1)],
        &[(SB, &[-1])],
        Ok(Next::Jump(-1)),
    ),
    (
        &[op::BRCMP, cmp::GTEQ, 0xFFFF, SB, UL],
        &[(SB, -1)],
        &[],
        DONE,
    ),
    (
        &[op::BRTST, cmp::NEQ, 0x8000, SL],
        &[(SL, -1)],
        &[(SL, &[-1])],
        Ok(Next::Jump(-32768)),
    ),
    (&[op::BRTST, cmp::LT, 5, UL], &[(UL, 4294967295)], &[], DONE),
    (
        &[op::BRTST, cmp::LT, 5, SL],
        &[(SL, -1)],
        &[],
        Ok(Next::Jump(5)),
    ),
];

#[test]
fn comparisons_moves_and_jumps_of_numbers(rt: HostRuntime) -> Result<(), Fail> {
    check_cases(&rt, rt.alloc(), &ENDS, &OTHERS)
}

static OF_LISTS: [Case<'static>; 8] = [
    // A list is combined place by place, up to the end of the shorter one.
    (
        &[op::ADD, WORDS, WORDS, SB],
        &[(SB, 1)],
        &[(WORDS, &[4, 0, 8, -32767, 6]), (BYTES, &[3, 1, 2, 250])],
        DONE,
    ),
    (
        &[op::SUB, BYTES, UB, BYTES],
        &[(UB, 1)],
        &[(BYTES, &[3, 0, 255, 7]), (UB, &[1])],
        DONE,
    ),
    (
        &[op::ADD, LONGS, BYTES, WORDS],
        &[],
        &[
            (LONGS, &[3, 0, 9, -32518]),
            (BYTES, &[3, 1, 2, 250]),
            (WORDS, &[4, -1, 7, -32768, 5]),
        ],
        DONE,
    ),
    (
        &[op::DIV, BYTES, LONGS, BYTES],
        &[],
        &[(BYTES, &[2, 254, 255]), (LONGS, &[2, -2, 2147483647])],
        DONE,
    ),
    (
        &[op::MUL, WORDS, HEAD, UL],
        &[(UL, 4294967295)],
        &[(WORDS, &[2, -1, -2])],
        DONE,
    ),
    (
        &[op::MOD, HEAD, WORDS, UB],
        &[],
        &[(HEAD, &[4, 65535, 7, 32768, 5])],
        DONE,
    ),
    (
        &[op::NEG, BYTES, BYTES],
        &[],
        &[(BYTES, &[3, 255, 254, 6])],
        DONE,
    ),
    (
        &[op::NOT, BYTES, WORDS],
        &[],
        &[(BYTES, &[4, 0, 0, 0, 0])],
        DONE,
    ),
];

#[test]
fn arithmetic_on_lists(rt: HostRuntime) -> Result<(), Fail> {
    check_cases(&rt, rt.alloc(), &ENDS, &OF_LISTS)
}

static OTHERS_OF_LISTS: [Case<'static>; 14] = [
    // Of two lists the first places that differ decide, or else the lengths.
    (
        &[op::BRCMP, cmp::LT, 7, WORDS, LONGS],
        &[],
        &[
            (WORDS, &[4, -1, 7, -32768, 5]),
            (LONGS, &[2, -2, 2147483647]),
        ],
        DONE,
    ),
    (
        &[op::BRCMP, cmp::GT, 7, WORDS, LONGS],
        &[],
        &[],
        Ok(Next::Jump(7)),
    ),
    (
        &[op::BRCMP, cmp::EQ, 0xFFF8, BYTES, BYTES],
        &[],
        &[(BYTES, &[3, 1, 2, 250])],
        Ok(Next::Jump(-8)),
    ),
    (&[op::BRCMP, cmp::LTEQ, 8, BYTES, HEAD], &[], &[], DONE),
    (
        &[op::CMP, cmp::LT, UB, HEAD, BYTES],
        &[],
        &[(UB, &[1])],
        DONE,
    ),
    (
        &[op::CMP, cmp::GT, UB, LONGS, WORDS],
        &[(UB, 7)],
        &[(UB, &[0])],
        DONE,
    ),
    (
        &[op::CMP, cmp::LT, UB, WORDS, BYTES],
        &[],
        &[(UB, &[1])],
        DONE,
    ),
    (
        &[op::CMP, cmp::EQ, SL, BYTES, HEAD],
        &[(SL, 7)],
        &[(SL, &[0])],
        DONE,
    ),
    (
        &[op::CMP, cmp::LT, BYTES, HEAD, BYTES],
        &[],
        &[(BYTES, &[2, 0, 0])],
        DONE,
    ),
    (
        &[op::CMP, cmp::GT, BYTES, WORDS, SL],
        &[],
        &[(BYTES, &[4, 0, 1, 0, 1])],
        DONE,
    ),
    (
        &[op::TST, cmp::LT, LONGS, WORDS],
        &[],
        &[(LONGS, &[4, 1, 0, 1, 0])],
        DONE,
    ),
    (
        &[op::MOV, BYTES, WORDS],
        &[],
        &[(BYTES, &[4, 255, 7, 0, 5]), (WORDS, &[4, -1, 7, -32768, 5])],
        DONE,
    ),
    (
        &[op::MOV, LONGS, BYTES],
        &[],
        &[(LONGS, &[3, 1, 2, 250]), (HEAD, &[2, 1, 2])],
        DONE,
    ),
    (
        &[op::MOV, LONGS, LONGS],
        &[],
        &[(LONGS, &[2, -2, 2147483647]), (BYTES, &[3, 1, 2, 250])],
        DONE,
    ),
];

#[test]
fn comparisons_and_moves_of_lists(rt: HostRuntime) -> Result<(), Fail> {
    check_cases(&rt, rt.alloc(), &ENDS, &OTHERS_OF_LISTS)
}
