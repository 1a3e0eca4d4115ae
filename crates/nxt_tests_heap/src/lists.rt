// Lists that are set and copied, and a heap that is.

use crate::calls::{copy_list, expect_bytes, resize, same, set_list, set_text};
use nxt_heap::{Heap, PoolPassed};
use std::process::Abort;
use std::test::Fail;

fn write_static(rt: &impl Abort, heap: &mut Heap) {
    assert_eq!(rt; heap.static_bytes().len(), 6);
    heap.set_static(2, &[5, 6, 7]);
    assert_eq!(rt; heap.static_bytes(), [0, 0, 5, 6, 7, 0].as_slice());
    heap.set_static(6, &[]);
    same(rt, heap.new_array(1), Ok(1), "a list");
}

// Two rows, six static bytes, and nothing else.
fn expect_first(rt: &impl Abort, heap: &mut Heap) {
    assert_eq!(rt; heap.static_bytes(), [0; 6].as_slice());
    same(rt, heap.row_count(), 2, "the rows");
    same(rt, heap.table_place(), 8, "the table's place");
    same(rt, heap.footprint(), 28, "the footprint");
    same(rt, heap.compact(1), 0, "what moves");
    same(rt, heap.unsettled(), 0, "what could move");
    same(rt, heap.new_array(1), Ok(1), "the free row");
    same(rt, heap.new_array(1), Ok(2), "a row more");
}

fn copy_over(rt: &impl Abort, heap: &mut Heap, first: &Heap) {
    write_static(rt, heap);
    heap.copy_from(first);
    expect_first(rt, heap);
}

#[test]
fn a_copied_heap_keeps_nothing_of_its_own(rt: HostRuntime) -> Result<(), Fail> {
    let first = Heap::new(rt.alloc(), 6, 2)?;
    let mut heap = Heap::new(rt.alloc(), 6, 3)?;
    copy_over(&rt, &mut heap, &first);
    Ok(())
}

// Lists of bytes in rows 1 and 3, and one of pairs of bytes in row 2.
fn add_lists(rt: &impl Abort, heap: &mut Heap) {
    same(rt, heap.new_array(1), Ok(1), "row 1");
    same(rt, heap.new_array(2), Ok(2), "row 2");
    same(rt, heap.new_array(1), Ok(3), "row 3");
}

fn copy_lists(rt: &impl Abort, heap: &mut Heap) {
    same(rt, set_list(rt, heap, 1, &[1, 2, 3, 4, 5]), Ok(()), "row 1");
    same(rt, set_list(rt, heap, 2, &[6, 0, 7, 0]), Ok(()), "row 2");
    same(rt, copy_list(rt, heap, 3, 1), Ok(()), "row 3");
    same(rt, heap.footprint(), 48 + 8 + 4 + 8, "the footprint");
    same(rt, set_list(rt, heap, 1, &[9]), Ok(()), "row 1, shorter");
    expect_bytes(rt, heap, 1, &[9]);
    expect_bytes(rt, heap, 2, &[6, 0, 7, 0]);
    expect_bytes(rt, heap, 3, &[1, 2, 3, 4, 5]);
    same(rt, copy_list(rt, heap, 2, 2), Ok(()), "row 2 to itself");
    expect_bytes(rt, heap, 2, &[6, 0, 7, 0]);
}

fn set_texts(rt: &impl Abort, heap: &mut Heap) {
    same(rt, set_text(rt, heap, 3, &[65, 66]), Ok(()), "a text");
    expect_bytes(rt, heap, 3, &[65, 66, 0]);
    same(rt, set_text(rt, heap, 3, &[]), Ok(()), "an empty text");
    expect_bytes(rt, heap, 3, &[0]);
    same(rt, copy_list(rt, heap, 3, 1), Ok(()), "row 1 over it");
    expect_bytes(rt, heap, 3, &[9]);
    same(rt, heap.footprint(), 48 + 4 + 4 + 4, "the footprint");
}

#[test]
fn lists_are_set_and_copied(rt: HostRuntime) -> Result<(), Fail> {
    let mut heap = Heap::new(rt.alloc(), 6, 4)?;
    add_lists(&rt, &mut heap);
    copy_lists(&rt, &mut heap);
    set_texts(&rt, &mut heap);
    Ok(())
}

fn fill_the_pool(rt: &impl Abort, heap: &mut Heap) {
    same(rt, set_list(rt, heap, 2, &[6, 0, 7, 0]), Ok(()), "row 2");
    same(rt, set_list(rt, heap, 3, &[1, 2, 3]), Ok(()), "row 3");
    same(rt, resize(rt, heap, 1, 32712), Ok(()), "all that is left");
    same(rt, heap.footprint(), 32768, "the footprint");
    same(rt, resize(rt, heap, 1, 32712), Ok(()), "as much again");
}

fn refuse_lists(rt: &impl Abort, heap: &mut Heap) {
    let passed = Err(PoolPassed(32772));
    same(rt, set_list(rt, heap, 2, &[0; 6]), passed, "a list");
    same(rt, set_text(rt, heap, 3, &[1, 2, 3, 4]), passed, "a text");
    let copied = copy_list(rt, heap, 3, 1);
    same(rt, copied, Err(PoolPassed(65476)), "a copy");
    expect_bytes(rt, heap, 2, &[6, 0, 7, 0]);
    expect_bytes(rt, heap, 3, &[1, 2, 3]);
    same(
        rt,
        set_text(rt, heap, 3, &[1, 2, 3]),
        Ok(()),
        "a text that fits",
    );
    expect_bytes(rt, heap, 3, &[1, 2, 3, 0]);
    same(rt, heap.footprint(), 32768, "the footprint");
}

#[test]
fn a_refused_list_stays_as_it_was(rt: HostRuntime) -> Result<(), Fail> {
    let mut heap = Heap::new(rt.alloc(), 6, 4)?;
    add_lists(&rt, &mut heap);
    fill_the_pool(&rt, &mut heap);
    refuse_lists(&rt, &mut heap);
    Ok(())
}
