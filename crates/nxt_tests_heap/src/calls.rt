// Calls of a heap that look first whether they may be made, and what its lists hold.

use nxt_heap::{Heap, PoolPassed};
use std::alloc::Global;
use std::fmt::Debug;
use std::process::Abort;
use std::test::Fail;

/// What was found is what is due.
pub(crate) fn same<T: PartialEq + Debug + Drop>(rt: &impl Abort, found: T, due: T, what: &str) {
    assert_eq!(rt; found, due, "{what}");
}

/// Gives a list another number of bytes; a row without a list counts as one that the pool doesn't hold.
pub(crate) fn resize(
    rt: &impl Abort,
    heap: &mut Heap,
    row: u16,
    bytes: u32,
) -> Result<(), PoolPassed> {
    match heap.stride(row) {
        None => Err(PoolPassed(0)),
        Some(stride) => {
            assert!(rt; stride > 0);
            assert!(rt; bytes % u32::from(stride) == 0);
            heap.resize(row, bytes)
        }
    }
}

/// Gives a list these bytes; a row without a list counts as one that the pool doesn't hold.
pub(crate) fn set_list(
    rt: &impl Abort,
    heap: &mut Heap,
    row: u16,
    bytes: &[u8],
) -> Result<(), PoolPassed> {
    match heap.stride(row) {
        None => Err(PoolPassed(0)),
        Some(stride) => {
            assert!(rt; stride > 0);
            assert!(rt; bytes.len() < 65536);
            assert!(rt; bytes.len() % usize::from(stride) == 0);
            heap.set_list(row, bytes)
        }
    }
}

/// Gives a list of single bytes these and a zero behind them.
pub(crate) fn set_text(
    rt: &impl Abort,
    heap: &mut Heap,
    row: u16,
    bytes: &[u8],
) -> Result<(), PoolPassed> {
    match heap.stride(row) {
        None => Err(PoolPassed(0)),
        Some(stride) => {
            assert!(rt; stride == 1);
            assert!(rt; bytes.len() < 65536);
            heap.set_text(row, bytes)
        }
    }
}

/// Gives a list the bytes of another one.
pub(crate) fn copy_list(
    rt: &impl Abort,
    heap: &mut Heap,
    to: u16,
    from: u16,
) -> Result<(), PoolPassed> {
    match (heap.stride(to), heap.stride(from)) {
        (Some(stride), Some(_)) => {
            assert!(rt; stride > 0);
            assert!(rt; heap.bytes_of(from).len() % usize::from(stride) == 0);
            heap.copy_list(to, from)
        }
        _ => Err(PoolPassed(0)),
    }
}

/// Frees a list.
pub(crate) fn free(rt: &impl Abort, heap: &mut Heap, row: u16) {
    match heap.stride(row) {
        None => assert!(rt; false, "row {row} has no list"),
        Some(_) => heap.free_array(row),
    }
}

// A byte that differs from row to row and from place to place.
fn mark(row: u16, at: usize) -> u8 {
    ((row as usize * 89 + at % 251) % 251 + 1) as u8
}

/// Fills a list of `bytes` with its marks.
pub(crate) fn write_marks(
    rt: &impl Abort,
    alloc: Global,
    heap: &mut Heap,
    row: u16,
    bytes: u32,
) -> Result<(), Fail> {
    let marks = marks_of(alloc, row, bytes)?;
    write(rt, heap, row, marks.as_slice());
    Ok(())
}

// The marks of a list of `bytes`.
fn marks_of(alloc: Global, row: u16, bytes: u32) -> Result<Vec<u8>, Fail> {
    let mut marks = Vec::new(alloc);
    for at in 0..bytes as usize {
        marks.push(mark(row, at))?;
    }
    Ok(marks)
}

// Writes bytes to the front of a list.
fn write(rt: &impl Abort, heap: &mut Heap, row: u16, bytes: &[u8]) {
    match heap.stride(row) {
        None => assert!(rt; false, "row {row} has no list"),
        Some(_) => {
            let len = heap.bytes_of(row).len();
            assert!(rt; bytes.len() <= len);
            heap.write(row, 0, bytes);
        }
    }
}

/// The list has that many bytes: its marks first, and then zeros.
pub(crate) fn expect_list(rt: &impl Abort, heap: &Heap, row: u16, marks: usize, bytes: usize) {
    match heap.stride(row) {
        None => assert!(rt; false, "row {row} has no list"),
        Some(_) => {
            let found = heap.bytes_of(row);
            assert_eq!(rt; found.len(), bytes, "bytes of row {row}");
            expect_marks(rt, found, row, marks);
        }
    }
}

// The first bytes of a row's list are its marks, and the others are zeros.
fn expect_marks(rt: &impl Abort, found: &[u8], row: u16, marks: usize) {
    for (at, &byte) in found.iter().enumerate() {
        let due = if at < marks { mark(row, at) } else { 0 };
        assert_eq!(rt; byte, due, "row {row} at {at}");
    }
}

/// The list has these bytes.
pub(crate) fn expect_bytes(rt: &impl Abort, heap: &Heap, row: u16, bytes: &[u8]) {
    match heap.stride(row) {
        None => assert!(rt; false, "row {row} has no list"),
        Some(_) => assert_eq!(rt; heap.bytes_of(row), bytes, "row {row}"),
    }
}
