// Statements worked out by hand from the rules of the file format.

ghost use Rattle.std.specs.Prelude.{◌≡◌, false};
ghost use Rattle.nxt_types.specs.Opcodes.{has_comparison};

use nxt_instr::{decode, encode};
use nxt_types::instr::{Instr, Op};
use nxt_types::kind::Cmp;
use nxt_types::lists::Words;
use nxt_types::opcodes::Arity;
use std::alloc::Global;
use std::process::Abort;
use std::test::Fail;

const NONE: u16 = 0xFFFF;

// The statement at a word of a few words.
fn statement(words: &[u16], at: u32) -> Option<(Instr, u32)> {
    if words.len() < 100 && (at as usize) < words.len() {
        decode(words, at).ok()
    } else {
        None
    }
}

fn has_operands(instr: &Instr, words: &[u16], operands: &[u16]) -> bool {
    let fixed = [instr.a, instr.b, instr.c, instr.d, instr.e];
    match instr.op.arity() {
        Arity::Exactly(count) => fixed.get(..usize::from(count)) == Some(operands),
        Arity::Several | Arity::Pairs => {
            let from = instr.rest_at as usize;
            operands.first().copied() == Some(instr.a)
                && words.get(from..from + usize::from(instr.rest)) == operands.get(1..)
        }
    }
}

/// Words, and the operation, the comparison, the operands and the length of the statement that they spell.
type Spelled<'a> = (&'a [u16], Op, Cmp, &'a [u16], u32);

// The words spell a statement of these operands at the front.
fn expect_spelled(rt: &impl Abort, spelled: &Spelled) {
    let (words, op, cmp, operands, length) = spelled;
    match statement(words, 0) {
        Some((instr, found)) => {
            let parts = (instr.op, instr.cmp, found);
            assert_eq!(rt; parts, (*op, *cmp, *length), "in {words:?}");
            assert!(rt; has_operands(&instr, words, operands), "in {words:?}");
        }
        None => assert!(rt; false, "in {words:?}"),
    }
}

// A statement stands at a word, and is this one, of this length in words.
fn expect_statement(rt: &impl Abort, words: &[u16], at: u32, due: Instr, length: u32) {
    match statement(words, at) {
        Some((instr, found)) => {
            assert_eq!(rt; instr, due, "in {words:?}");
            assert_eq!(rt; found, length, "in {words:?}");
        }
        None => assert!(rt; false, "in {words:?}"),
    }
}

#[test]
fn a_short_move_adds_its_argument_to_the_second_operand(rt: HostRuntime) {
    let expected = Instr {
        op: Op::Mov,
        cmp: Cmp::Lt,
        a: 3,
        b: 5,
        c: NONE,
        d: NONE,
        e: NONE,
        rest_at: 0,
        rest: 0,
    };
    expect_statement(&rt, &[0x48FE, 0x0005], 0, expected, 2);
}

static SHORT_FORMS: [Spelled<'static>; 6] = [
    (&[0x48FF, 0], Op::Mov, Cmp::Lt, &[65535, 0], 2),
    (&[0x487F, 1, 9], Op::Mov, Cmp::Lt, &[128, 1], 2),
    (&[0x4880, 0], Op::Mov, Cmp::Lt, &[65408, 0], 2),
    (&[0x2907], Op::Acquire, Cmp::Lt, &[7], 1),
    (&[0x2AFE], Op::Release, Cmp::Lt, &[65534], 1),
    (&[0x4B02, 4], Op::Subcall, Cmp::Lt, &[6, 4], 2),
];

#[test]
fn short_forms_are_read(rt: HostRuntime) {
    for spelled in &SHORT_FORMS {
        expect_spelled(&rt, spelled);
    }
}

static LONG_FORMS: [Spelled<'static>; 9] = [
    (&[0x8700, 1, 2, 3], Op::Add, Cmp::Lt, &[1, 2, 3], 4),
    (&[0x8511, 1, 2, 3], Op::Cmp, Cmp::Neq, &[1, 2, 3], 4),
    (&[0x6327, 0xFFF0, 2], Op::Brtst, Cmp::Gteq, &[0xFFF0, 2], 3),
    (
        &[0xC020, 1, NONE, 3, 4, 5],
        Op::Strtonum,
        Cmp::Lt,
        &[1, NONE, 3, 4, 5],
        6,
    ),
    (&[0x4034, 5], Op::Wait, Cmp::Lt, &[5], 2),
    (&[0x6034, 9, 5], Op::Wait, Cmp::Lt, &[5], 3),
    (&[0xE018, 8, 1, 2], Op::Arrbuild, Cmp::Lt, &[1, 2], 4),
    (&[0xE521, 10, 1, 2, 3], Op::Strcat, Cmp::Lt, &[1, 2, 3], 5),
    (&[0xE031, 10, 0, 2, 1], Op::Setout, Cmp::Lt, &[0, 2, 1], 5),
];

#[test]
fn long_forms_are_read(rt: HostRuntime) {
    for spelled in &LONG_FORMS {
        expect_spelled(&rt, spelled);
    }
}

static UNSPELLED: [&[u16]; 34] = [
    // short forms of a wrong size or number, or cut by the end
    &[0x28FE, 5],
    &[0x68FE, 5, 6],
    &[0x4907, 0],
    &[0x4C00, 0],
    &[0x2C00],
    &[0x48FE],
    // opcodes of no operation
    &[0x400F, 0],
    &[0x6010, 0, 0],
    &[0x4036, 0],
    // sizes beside those of the operation
    &[0x6000, 1, 2, 3],
    &[0xA000, 1, 2, 3, 4],
    &[0xE000, 8, 1, 2, 3, 4],
    &[0x6025, 0, 0],
    &[0x8034, 1, 2, 3],
    &[0x2029],
    &[0xA020, 1, 2, 3, 4],
    &[0xE020, 14, 1, 2, 3, 4, 5],
    &[0x0029, 1],
    &[0xF000, 1, 2, 3],
    &[0x8018, 1, 2, 3],
    // numbers of no comparison
    &[0x8611, 1, 2, 3],
    &[0x6727, 0, 1],
    // size words that are odd or too small, and one that says more than is there
    &[0xE018, 9, 1, 2, 3],
    &[0xE018, 0, 1, 2],
    &[0xE018, 4, 1, 2],
    &[0xE018, 6, 1],
    &[0xE021, 6, 1, 2],
    &[0xE031, 6, 0, 2, 1],
    &[0xE031, 8, 0, 2, 1],
    &[0xE031, 12, 0, 2, 1, 0],
    &[0xE031, 14, 0, 2, 1, 0],
    &[0xE018],
    // operands cut by the end
    &[0x601B, 5],
    &[0x6034, 9],
];

#[test]
fn other_words_spell_nothing(rt: HostRuntime) {
    for words in &UNSPELLED {
        assert_eq!(rt; statement(words, 0), None, "in {words:?}");
    }
}

#[test]
fn the_others_of_the_operands_are_words_of_the_code(rt: HostRuntime) {
    let expected = Instr {
        op: Op::Arrbuild,
        cmp: Cmp::Lt,
        a: 1,
        b: NONE,
        c: NONE,
        d: NONE,
        e: NONE,
        rest_at: 4,
        rest: 2,
    };
    let words = [0x2907, 0xE018, 10, 1, 2, 3, 0x2907];
    expect_statement(&rt, &words, 1, expected, 5);
}

// A comparison that an operation may have.
fn comparison(op: Op) -> Cmp
    ensures { has_comparison op ≡ false → result ≡ Cmp.Lt }
{
    if op.has_comparison() {
        Cmp::Neq
    } else {
        Cmp::Lt
    }
}

fn most_operands(op: Op) -> &'static [u16] {
    let operands: &[u16] = &[1, NONE, 3, 4, 5];
    match op.arity() {
        Arity::Exactly(count) => operands.get(..usize::from(count)).unwrap_or(operands),
        Arity::Several | Arity::Pairs => operands,
    }
}

// A word, and behind it the long form of an operation.
fn long_form_of(alloc: Global, op: Op, operands: &[u16]) -> Result<Words, Fail> {
    let mut words = Words::new(alloc);
    words.push(0x2907)?;
    if op.arity().takes(operands.len()) && operands.len() < 6 {
        encode(op, comparison(op), operands, &mut words)?;
    }
    Ok(words)
}

// The words end with a statement of these operands.
fn expect_behind(rt: &impl Abort, words: &[u16], op: Op, operands: &[u16]) {
    match statement(words, 1) {
        Some((instr, length)) => {
            assert_eq!(rt; (instr.op, instr.cmp), (op, comparison(op)), "in {words:?}");
            assert!(rt; has_operands(&instr, words, operands), "in {words:?}");
            assert!(rt; length as usize + 1 == words.len(), "in {words:?}");
        }
        None => assert!(rt; false, "in {words:?}"),
    }
}

fn expect_long_form(rt: &impl Abort, alloc: Global, op: Op) -> Result<(), Fail> {
    let operands = most_operands(op);
    let words = long_form_of(alloc, op, operands)?;
    expect_behind(rt, words.as_slice(), op, operands);
    Ok(())
}

#[test]
fn each_long_form_comes_back(rt: HostRuntime) -> Result<(), Fail> {
    for code in 0..=255 {
        if let Some(op) = Op::from_code(code) {
            expect_long_form(&rt, rt.alloc(), op)?;
        }
    }
    Ok(())
}
