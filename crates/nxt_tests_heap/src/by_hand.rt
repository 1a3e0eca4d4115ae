// Heaps whose places are worked out by hand.

use crate::calls::{expect_list, free, resize, same, write_marks};
use nxt_heap::{Heap, PoolPassed};
use std::alloc::Global;
use std::process::Abort;
use std::test::Fail;

// A list of five bytes in a pool of 8 static bytes and one row.
fn add_a_list(rt: &impl Abort, heap: &mut Heap) {
    same(rt, heap.footprint(), 20, "the static bytes and the table");
    same(rt, heap.stride(0), None, "row 0");
    same(rt, heap.stride(1), None, "no row 1");
    same(rt, heap.new_array(1), Ok(1), "a list");
    same(rt, heap.stride(1), Some(1), "row 1");
    same(rt, heap.footprint(), 28, "two rows");
    same(rt, resize(rt, heap, 1, 5), Ok(()), "five bytes");
    same(rt, heap.footprint(), 36, "five bytes take eight");
}

fn fill_the_pool(rt: &impl Abort, heap: &mut Heap) {
    let passed = resize(rt, heap, 1, 32741);
    same(rt, passed, Err(PoolPassed(32772)), "a byte too many");
    same(rt, heap.footprint(), 36, "nothing has changed");
    same(rt, resize(rt, heap, 1, 32740), Ok(()), "all that is left");
    same(rt, heap.footprint(), 32768, "the pool is full");
    same(
        rt,
        heap.new_array(1),
        Err(PoolPassed(32780)),
        "no row is left",
    );
}

#[test]
fn heap_by_hand(rt: HostRuntime) -> Result<(), Fail> {
    let mut heap = Heap::new(rt.alloc(), 8, 1)?;
    add_a_list(&rt, &mut heap);
    fill_the_pool(&rt, &mut heap);
    let dump = heap.dump(rt.alloc())?;
    same(&rt, dump.len(), 32768, "the bytes of the pool");
    Ok(())
}

/// Rows, and how many bytes their lists get.
static LENGTHS: [(u16, u32); 10] = [
    (1, 8),
    (2, 6),
    (3, 14),
    (4, 2),
    (1, 20),
    (3, 4),
    (2, 0),
    (1, 2),
    (4, 30),
    (2, 10),
];

// The lists of rows 1 to 4 have these lengths, and all their bytes are marks.
fn expect_lists(rt: &impl Abort, heap: &Heap, lengths: &[u32; 5]) {
    for row in 1..5 {
        let bytes = lengths[row] as usize;
        expect_list(rt, heap, row as u16, bytes, bytes);
    }
}

// A list keeps its front, and gets marks all over.
fn set_length(
    rt: &impl Abort,
    alloc: Global,
    heap: &mut Heap,
    row: u16,
    had: u32,
    bytes: u32,
) -> Result<(), Fail> {
    same(rt, resize(rt, heap, row, bytes), Ok(()), "a list that fits");
    expect_list(rt, heap, row, had.min(bytes) as usize, bytes as usize);
    write_marks(rt, alloc, heap, row, bytes)
}

fn set_lengths(rt: &impl Abort, alloc: Global, heap: &mut Heap) -> Result<(), Fail> {
    let mut lengths = [0; 5];
    for &(row, bytes) in &LENGTHS {
        let at = usize::from(row);
        assert!(rt; at < 5);
        set_length(rt, alloc, heap, row, lengths[at], bytes)?;
        lengths[at] = bytes;
        expect_lists(rt, heap, &lengths);
    }
    Ok(())
}

// The row of a list that goes is the next one's, and the others stay.
fn replace_a_list(rt: &impl Abort, heap: &mut Heap) {
    free(rt, heap, 2);
    same(
        rt,
        heap.new_array(3),
        Ok(2),
        "the row of the list that went",
    );
    same(rt, heap.new_array(3), Ok(5), "a row more");
    expect_list(rt, heap, 1, 2, 2);
    expect_list(rt, heap, 2, 0, 0);
    expect_list(rt, heap, 3, 4, 4);
    expect_list(rt, heap, 4, 30, 30);
}

#[test]
fn every_block_moves_with_its_bytes(rt: HostRuntime) -> Result<(), Fail> {
    let mut heap = Heap::new(rt.alloc(), 6, 3)?;
    for row in 1..5 {
        same(&rt, heap.new_array(2), Ok(row), "a list");
    }
    set_lengths(&rt, rt.alloc(), &mut heap)?;
    replace_a_list(&rt, &mut heap);
    Ok(())
}

/// The table's place, the footprint, where the last block ends, and how many blocks have a gap below them.
type Figures = (u32, u32, usize, u16);

fn expect_pool(rt: &impl Abort, alloc: Global, heap: &Heap, due: Figures) -> Result<(), Fail> {
    let end = heap.dump(alloc)?.len();
    let found = (heap.table_place(), heap.footprint(), end, heap.unsettled());
    same(rt, found, due, "the pool");
    Ok(())
}

// A list of single bytes in the next row, all of them marks.
fn add_marked(
    rt: &impl Abort,
    alloc: Global,
    heap: &mut Heap,
    row: u16,
    bytes: u32,
) -> Result<(), Fail> {
    same(rt, heap.new_array(1), Ok(row), "a list");
    same(rt, resize(rt, heap, row, bytes), Ok(()), "its bytes");
    write_marks(rt, alloc, heap, row, bytes)
}

// A row, the bytes that its list gets, and the pool afterwards.
fn resize_to(
    rt: &impl Abort,
    alloc: Global,
    heap: &mut Heap,
    (row, bytes): (u16, u32),
    due: Figures,
) -> Result<(), Fail> {
    same(rt, resize(rt, heap, row, bytes), Ok(()), "a list that fits");
    expect_pool(rt, alloc, heap, due)
}

// How many blocks may settle, how many do, and the pool afterwards.
fn settle(
    rt: &impl Abort,
    alloc: Global,
    heap: &mut Heap,
    (k, moved): (u16, u16),
    due: Figures,
) -> Result<(), Fail> {
    same(rt, heap.compact(k), moved, "what moves");
    expect_pool(rt, alloc, heap, due)
}

fn leave_gaps(rt: &impl Abort, alloc: Global, heap: &mut Heap) -> Result<(), Fail> {
    expect_pool(rt, alloc, heap, (8, 72, 72, 0))?;
    resize_to(rt, alloc, heap, (1, 0), (8, 64, 72, 2))?;
    resize_to(rt, alloc, heap, (2, 12), (8, 68, 84, 2))?;
    settle(rt, alloc, heap, (1, 1), (8, 68, 84, 1))?;
    settle(rt, alloc, heap, (9, 1), (8, 68, 68, 0))?;
    settle(rt, alloc, heap, (9, 0), (8, 68, 68, 0))
}

fn move_the_table(rt: &impl Abort, alloc: Global, heap: &mut Heap) -> Result<(), Fail> {
    resize_to(rt, alloc, heap, (2, 16), (8, 72, 72, 0))?;
    same(rt, heap.new_array(1), Ok(4), "a row more");
    expect_pool(rt, alloc, heap, (72, 84, 124, 3))?;
    settle(rt, alloc, heap, (9, 3), (32, 84, 84, 0))?;
    expect_list(rt, heap, 2, 8, 16);
    expect_list(rt, heap, 3, 8, 8);
    Ok(())
}

fn add_all(
    rt: &impl Abort,
    alloc: Global,
    heap: &mut Heap,
    lists: &[(u16, u32)],
) -> Result<(), Fail> {
    for &(row, bytes) in lists {
        add_marked(rt, alloc, heap, row, bytes)?;
    }
    Ok(())
}

// The places by hand: static bytes to 8, the table from 8 to 48, and lists of 8 bytes at 48, 56 and 64. A list that has no
// bytes any more leaves a gap, a longer one moves into the lowest hole that holds it, and only a compaction closes gaps.
#[test]
fn blocks_stand_with_gaps_until_they_settle(rt: HostRuntime) -> Result<(), Fail> {
    let mut heap = Heap::new(rt.alloc(), 8, 4)?;
    add_all(&rt, rt.alloc(), &mut heap, &[(1, 8), (2, 8), (3, 8)])?;
    leave_gaps(&rt, rt.alloc(), &mut heap)?;
    move_the_table(&rt, rt.alloc(), &mut heap)
}

fn slide(rt: &impl Abort, alloc: Global, heap: &mut Heap) -> Result<(), Fail> {
    expect_pool(rt, alloc, heap, (8, 16056, 16056, 0))?;
    resize_to(rt, alloc, heap, (1, 17000), (8, 17056, 17056, 0))?;
    expect_list(rt, heap, 1, 16000, 17000);
    expect_list(rt, heap, 2, 16, 16);
    resize_to(rt, alloc, heap, (2, 15728), (8, 32768, 32768, 0))?;
    let passed = resize(rt, heap, 1, 17004);
    same(rt, passed, Err(PoolPassed(32772)), "a full pool");
    expect_list(rt, heap, 2, 16, 15728);
    Ok(())
}

// No hole holds the longer list, but the pool does: what stands behind it moves up.
#[test]
fn a_list_without_a_hole_slides_what_is_behind_it(rt: HostRuntime) -> Result<(), Fail> {
    let mut heap = Heap::new(rt.alloc(), 8, 3)?;
    add_all(&rt, rt.alloc(), &mut heap, &[(1, 16000), (2, 16)])?;
    slide(&rt, rt.alloc(), &mut heap)
}
