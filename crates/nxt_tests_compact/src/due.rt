// Where blocks have to stand, by a walk over them from the lowest to the highest.

use crate::pools::{row_of, rows_of};
use nxt_compact::block_bytes;
use nxt_rows::DopeRow;
use std::alloc::Global;
use std::process::Abort;
use std::test::Fail;

/// Where the block of each row stands, and how many bytes it has.
pub type Blocks = Vec<(u64, u64)>;

/// The place and the bytes of each row.
pub(crate) fn blocks_of(
    rt: &impl Abort,
    alloc: Global,
    pool: &[u8],
    table: u32,
) -> Result<Blocks, Fail> {
    let mut blocks = Vec::new(alloc);
    for row in 0..rows_of(rt, pool, table) {
        let found = row_of(rt, pool, table, row);
        blocks.push((found.place as u64, block_bytes(found)))?;
    }
    Ok(blocks)
}

// The rows that have blocks, from the lowest place to the highest.
fn in_order(alloc: Global, blocks: &[(u64, u64)]) -> Result<Vec<(u64, usize)>, Fail> {
    let mut order = Vec::new(alloc);
    for (row, &(place, bytes)) in blocks.iter().enumerate() {
        if bytes > 0 {
            order.push((place, row))?;
        }
    }
    order.sort()?;
    Ok(order)
}

/// The blocks once the lowest `k` of those with a gap below stand at the end of the one before, and how many moved.
pub(crate) fn settled(
    rt: &impl Abort,
    alloc: Global,
    blocks: &[(u64, u64)],
    base: u32,
    k: u16,
) -> Result<(Blocks, u16), Fail> {
    let mut after = blocks.to_vec(alloc)?;
    let mut moved = 0;
    let mut end = base as u64;
    for &(place, row) in in_order(alloc, blocks)?.as_slice() {
        assert!(rt; row < after.len());
        if place > end && moved < k {
            after[row].0 = end;
            moved += 1;
        }
        end = end.saturating_add(after[row].1);
    }
    Ok((after, moved))
}

/// The blocks without gaps, and those that began above a block `more` bytes higher.
pub(crate) fn slid(
    rt: &impl Abort,
    alloc: Global,
    blocks: &[(u64, u64)],
    base: u32,
    row: u16,
    more: u64,
) -> Result<Blocks, Fail> {
    let (mut after, _) = settled(rt, alloc, blocks, base, u16::MAX)?;
    let grown = row as usize;
    assert!(rt; grown < blocks.len());
    for (other, &(place, bytes)) in blocks.iter().enumerate() {
        assert!(rt; other < after.len());
        if bytes > 0 && place > blocks[grown].0 {
            after[other].0 = after[other].0.saturating_add(more);
        }
    }
    Ok(after)
}

/// The bytes of all blocks together.
pub(crate) fn total(blocks: &[(u64, u64)]) -> u64 {
    let mut sum: u64 = 0;
    for &(_, bytes) in blocks {
        sum = sum.saturating_add(bytes);
    }
    sum
}

/// A pool and the place of the table in it.
#[derive(Clone, Copy)]
pub struct Held<'a> {
    pub pool: &'a [u8],
    pub table: u32,
}

// The row has its place, and its other fields as they were.
fn expect_row(rt: &impl Abort, old: Held, new: Held, row: u16, place: u64) -> DopeRow {
    let had = row_of(rt, old.pool, old.table, row);
    let has = row_of(rt, new.pool, new.table, row);
    assert_eq!(rt; has.place as u64, place, "place of row {row}");
    let there = DopeRow {
        place: has.place,
        ..had
    };
    assert_eq!(rt; has, there, "row {row}");
    had
}

/// Each block stands at its place with its bytes, and nothing else of the rows and no static byte has changed.
pub(crate) fn expect_moved(rt: &impl Abort, old: Held, new: Held, base: u32, after: &[(u64, u64)]) {
    assert_eq!(rt; new.pool.len(), old.pool.len());
    assert_eq!(rt;
        new.pool.get(..base as usize),
        old.pool.get(..base as usize)
    );
    let mut row = 0;
    for &(place, bytes) in after {
        let had = expect_row(rt, old, new, row, place);
        if row == 0 {
            assert_eq!(rt; place, new.table as u64);
        } else if bytes > 0 {
            let from = had.place as usize;
            let to = place as usize;
            let size = bytes as usize;
            assert!(rt; from < 65_536 && to < 65_536 && size <= 65_536);
            assert_eq!(rt;
                new.pool.get(to..to + size),
                old.pool.get(from..from + size),
                "bytes of row {row}"
            );
        }
        assert!(rt; row < u16::MAX);
        row += 1;
    }
}
