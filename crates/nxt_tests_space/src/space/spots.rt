// Numbers and lists of numbers that are read and stored where they were found.

use super::found::same;
use super::{KINDS, started};
use nxt_images::{ARRAY, EMPTY, Image, SWORD, UBYTE};
use nxt_space::{PoolPassed, Space};
use nxt_types::kind::Kind;
use nxt_types::numbers::leaf_size;
use std::process::Abort;
use std::test::Fail;

/// Entries, words that are stored there, and the numbers and the words that are left of them.
static WORDS: [(u16, u32, i64, u32); 7] = [
    (0, 300, 44, 44),
    (1, 200, -56, 0xffff_ffc8),
    (2, 0x1_2345, 0x2345, 0x2345),
    (3, 0x8000, -32768, 0xffff_8000),
    (4, 0xffff_ffff, 4_294_967_295, 0xffff_ffff),
    (5, 0xffff_ffff, -1, 0xffff_ffff),
    (1, 0x17f, 127, 127),
];

fn set_word(rt: &impl Abort, space: &mut Space, i: u16, w: u32) {
    match space.spot(i) {
        Some(spot) => space.set_word(spot, w),
        None => assert!(rt; false),
    }
}

fn expect_word(rt: &impl Abort, space: &Space, i: u16, w: u32) {
    match space.spot(i) {
        Some(spot) => assert_eq!(rt; space.word(spot), w, "at {i}"),
        None => assert!(rt; false),
    }
}

fn set_words(rt: &impl Abort, space: &mut Space) {
    for (i, w, number, left) in &WORDS {
        set_word(rt, space, *i, *w);
        assert_eq!(rt; space.get(*i), *number, "at {i}");
        expect_word(rt, space, *i, *left);
    }
}

// The words that were not stored over, and no others.
fn expect_words(rt: &impl Abort, space: &Space) {
    for (i, _, number, _) in &WORDS[2..6] {
        assert_eq!(rt; space.get(*i), *number, "at {i}");
    }
    assert!(rt; space.spot(6).is_none());
    assert!(rt; space.list_spot(0).is_none());
}

#[test]
fn words_are_cut_to_their_kind(rt: HostRuntime) -> Result<(), Fail> {
    let mut program = started(rt.alloc(), &KINDS)?;
    set_words(&rt, &mut program.space);
    expect_words(&rt, &program.space);
    Ok(())
}

/// A text of three bytes, a list of three signed numbers of 16 bits, and one of one.
const LISTS: Image<'static> = Image {
    entries: &[
        (ARRAY, 0, 0),
        (UBYTE, 0, 0),
        (ARRAY, 0, 2),
        (SWORD, 0, 0),
        (ARRAY, 0, 4),
        (SWORD, 0, 0),
    ],
    static_size: 6,
    defaults: &[1, 0, 2, 0, 3, 0],
    rows: &[(6, 10, 4), (46, 1, 3), (50, 2, 3), (56, 2, 1)],
    lists: &[97, 98, 0, 0, 1, 0, 255, 255, 0, 128, 7, 0],
    ..EMPTY
};

fn expect_bytes(rt: &impl Abort, space: &Space, i: u16, bytes: &[u8]) {
    match space.list_spot(i) {
        Some(list) => {
            assert_eq!(rt; space.bytes(list), bytes, "at {i}");
            let count = bytes.len() / leaf_size(list.kind()) as usize;
            assert!(rt; space.count(list) as usize == count, "at {i}");
        }
        None => assert!(rt; false),
    }
}

fn expect_element(rt: &impl Abort, space: &Space, i: u16, k: u32, w: u32) {
    match space.list_spot(i) {
        Some(list) => assert_eq!(rt; space.element(list, k), w, "{k} at {i}"),
        None => assert!(rt; false),
    }
}

fn set_element(rt: &impl Abort, space: &mut Space, i: u16, k: u32, w: u32) {
    match space.list_spot(i) {
        Some(list) => space.set_element(list, k, w),
        None => assert!(rt; false),
    }
}

// Each element by its place, its word, and the word past the end.
fn read_elements(rt: &impl Abort, space: &Space) {
    expect_element(rt, space, 0, 1, 98);
    expect_element(rt, space, 2, 0, 1);
    expect_element(rt, space, 2, 1, 0xffff_ffff);
    expect_element(rt, space, 2, 2, 0xffff_8000);
    expect_element(rt, space, 2, 3, 0);
    expect_element(rt, space, 2, u32::MAX, 0);
}

fn set_elements(rt: &impl Abort, space: &mut Space) {
    set_element(rt, space, 2, 1, 0x1_0005);
    set_element(rt, space, 2, 3, 9);
    set_element(rt, space, 4, 0, 0x1234);
    set_element(rt, space, 4, 1, 9);
    set_element(rt, space, 0, 2, 0x163);
}

fn expect_elements(rt: &impl Abort, space: &Space) {
    expect_bytes(rt, space, 0, &[97, 98, 99]);
    expect_bytes(rt, space, 2, &[1, 0, 5, 0, 0, 128]);
    expect_bytes(rt, space, 4, &[0x34, 0x12]);
    same(rt, space.footprint(), 8 + 40 + 4 + 8 + 4, "the footprint");
}

#[test]
fn elements_stand_in_their_places(rt: HostRuntime) -> Result<(), Fail> {
    let mut program = started(rt.alloc(), &LISTS)?;
    read_elements(&rt, &program.space);
    set_elements(&rt, &mut program.space);
    expect_elements(&rt, &program.space);
    Ok(())
}

fn set_list(rt: &impl Abort, space: &mut Space, i: u16, bytes: &[u8]) -> Result<(), PoolPassed> {
    match space.list_spot(i) {
        Some(list) => {
            assert!(rt; bytes.len() < 65536);
            assert!(rt; bytes.len() % leaf_size(list.kind()) as usize == 0);
            space.set_list(list, bytes)
        }
        None => Err(PoolPassed(0)),
    }
}

fn set_text(rt: &impl Abort, space: &mut Space, i: u16, bytes: &[u8]) -> Result<(), PoolPassed> {
    match space.list_spot(i) {
        Some(list) => {
            assert!(rt; list.kind() == Kind::Ubyte);
            assert!(rt; bytes.len() < 65536);
            space.set_text(list, bytes)
        }
        None => Err(PoolPassed(0)),
    }
}

fn copy_list(rt: &impl Abort, space: &mut Space, i: u16, j: u16) -> Result<(), PoolPassed> {
    match (space.list_spot(i), space.list_spot(j)) {
        (Some(to), Some(from)) => {
            assert!(rt; from.kind() == to.kind());
            space.copy_list(to, from)
        }
        _ => Err(PoolPassed(0)),
    }
}

// A copy shares nothing with its source, and a text ends in a zero.
fn set_lists(rt: &impl Abort, space: &mut Space) {
    same(rt, set_list(rt, space, 4, &[1, 0, 2, 0]), Ok(()), "a list");
    same(rt, copy_list(rt, space, 2, 4), Ok(()), "its copy");
    set_element(rt, space, 4, 0, 9);
    expect_bytes(rt, space, 2, &[1, 0, 2, 0]);
    expect_bytes(rt, space, 4, &[9, 0, 2, 0]);
    same(rt, set_text(rt, space, 0, b"xyz"), Ok(()), "a text");
    expect_bytes(rt, space, 0, b"xyz\0");
    same(rt, set_list(rt, space, 2, &[]), Ok(()), "no elements");
    expect_bytes(rt, space, 2, &[]);
    same(rt, space.footprint(), 8 + 40 + 4 + 4, "the footprint");
}

// One list fills the pool, and the others stay as they are.
fn refuse_lists(rt: &impl Abort, space: &mut Space) {
    let passed = Err(PoolPassed(32772));
    same(
        rt,
        set_list(rt, space, 4, &[0; 32716]),
        Ok(()),
        "all that is left",
    );
    same(rt, set_text(rt, space, 0, b"wxyz"), passed, "a longer text");
    same(rt, set_list(rt, space, 2, &[5, 0]), passed, "an element");
    let copied = copy_list(rt, space, 2, 4);
    same(rt, copied, Err(PoolPassed(65484)), "a copy");
    expect_bytes(rt, space, 0, b"xyz\0");
    expect_bytes(rt, space, 2, &[]);
    same(rt, space.footprint(), 32768, "the footprint");
}

fn start_anew(rt: &impl Abort, space: &mut Space) {
    space.reset();
    expect_bytes(rt, space, 0, b"ab\0");
    expect_bytes(rt, space, 4, &[7, 0]);
}

#[test]
fn lists_are_set_in_place(rt: HostRuntime) -> Result<(), Fail> {
    let mut program = started(rt.alloc(), &LISTS)?;
    set_lists(&rt, &mut program.space);
    refuse_lists(&rt, &mut program.space);
    start_anew(&rt, &mut program.space);
    Ok(())
}
