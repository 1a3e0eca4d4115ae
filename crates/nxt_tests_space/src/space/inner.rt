// Lists of lists that are read and stored where they stand.

use super::found::same;
use super::started;
use nxt_images::{ARRAY, EMPTY, Image, SWORD, UBYTE};
use nxt_space::{PoolPassed, Space};
use nxt_types::numbers::leaf_size;
use std::process::Abort;
use std::test::Fail;

/// A list of two texts, a text, and a list of one signed number of 16 bits.
static TEXTS: Image<'static> = Image {
    entries: &[
        (ARRAY, 0, 0),
        (ARRAY, 0, 0),
        (UBYTE, 0, 0),
        (ARRAY, 0, 2),
        (UBYTE, 0, 0),
        (ARRAY, 0, 4),
        (SWORD, 0, 0),
    ],
    static_size: 6,
    defaults: &[1, 0, 4, 0, 5, 0],
    rows: &[
        (6, 10, 6),
        (66, 2, 2),
        (70, 1, 3),
        (73, 1, 1),
        (74, 1, 4),
        (78, 2, 1),
    ],
    lists: &[2, 0, 3, 0, 97, 98, 0, 122, 104, 101, 121, 0, 7, 0],
    ..EMPTY
};

// The text goes over the k-th text of the list.
fn put(rt: &impl Abort, space: &mut Space, k: u32) -> Result<(), PoolPassed> {
    match (space.inner_spot(0), space.list_spot(3)) {
        (Some(texts), Some(text)) => {
            assert!(rt; text.kind() == texts.kind());
            space.copy_to_inner(texts, k, text)
        }
        _ => Err(PoolPassed(0)),
    }
}

// The text becomes the k-th text of the list.
fn take(rt: &impl Abort, space: &mut Space, k: u32) -> Result<(), PoolPassed> {
    match (space.inner_spot(0), space.list_spot(3)) {
        (Some(texts), Some(text)) => {
            assert!(rt; texts.kind() == text.kind());
            space.copy_from_inner(text, texts, k)
        }
        _ => Err(PoolPassed(0)),
    }
}

fn set(rt: &impl Abort, space: &mut Space, bytes: &[u8]) -> Result<(), PoolPassed> {
    match space.list_spot(3) {
        Some(text) => {
            assert!(rt; bytes.len() < 65536);
            assert!(rt; bytes.len() % leaf_size(text.kind()) as usize == 0);
            space.set_list(text, bytes)
        }
        None => Err(PoolPassed(0)),
    }
}

fn expect(rt: &impl Abort, space: &Space, bytes: &[u8], footprint: u32) {
    match space.list_spot(3) {
        Some(text) => assert_eq!(rt; space.bytes(text), bytes),
        None => assert!(rt; false),
    }
    match space.inner_spot(0) {
        Some(texts) => same(rt, space.inner_count(texts), 2, "the texts of the list"),
        None => assert!(rt; false),
    }
    same(rt, space.footprint(), footprint, "the footprint");
}

fn copy_both_ways(rt: &impl Abort, space: &mut Space) {
    expect(rt, space, b"hey\0", 8 + 60 + 5 * 4);
    same(rt, put(rt, space, 1), Ok(()), "over the second");
    same(rt, take(rt, space, 0), Ok(()), "from the first");
    expect(rt, space, b"ab\0", 8 + 60 + 5 * 4);
    same(rt, put(rt, space, 2), Ok(()), "past the end");
    same(rt, take(rt, space, 1), Ok(()), "from the second");
    expect(rt, space, b"hey\0", 8 + 60 + 5 * 4);
}

fn copy_nothing(rt: &impl Abort, space: &mut Space) {
    same(rt, take(rt, space, 2), Ok(()), "from past the end");
    expect(rt, space, b"", 8 + 60 + 4 * 4);
    same(rt, put(rt, space, 0), Ok(()), "over the first");
    same(rt, take(rt, space, u32::MAX), Ok(()), "from nowhere");
    expect(rt, space, b"", 8 + 60 + 3 * 4);
    same(rt, take(rt, space, 1), Ok(()), "from the second");
    expect(rt, space, b"hey\0", 8 + 60 + 4 * 4);
}

// Past the end nothing is stored, and no elements are read.
#[test]
fn inner_lists_are_copied_both_ways(rt: HostRuntime) -> Result<(), Fail> {
    let mut program = started(rt.alloc(), &TEXTS)?;
    copy_both_ways(&rt, &mut program.space);
    copy_nothing(&rt, &mut program.space);
    Ok(())
}

fn refuse_a_text(rt: &impl Abort, space: &mut Space) {
    same(rt, set(rt, space, &[0; 32684]), Ok(()), "the text");
    same(rt, put(rt, space, 0), Err(PoolPassed(65448)), "one more");
    same(rt, take(rt, space, 0), Ok(()), "from the first");
    expect(rt, space, b"ab\0", 8 + 60 + 5 * 4);
}

// The pool is full, and the list of texts stays.
#[test]
fn a_refused_text_changes_nothing(rt: HostRuntime) -> Result<(), Fail> {
    let mut program = started(rt.alloc(), &TEXTS)?;
    refuse_a_text(&rt, &mut program.space);
    Ok(())
}

fn expect_no_inner(rt: &impl Abort, space: &Space) {
    assert!(rt; space.list_spot(0).is_none());
    for i in 1..8u16 {
        assert!(rt; space.inner_spot(i).is_none());
    }
}

#[test]
fn only_lists_of_lists_have_inner_ones(rt: HostRuntime) -> Result<(), Fail> {
    let program = started(rt.alloc(), &TEXTS)?;
    expect_no_inner(&rt, &program.space);
    Ok(())
}
