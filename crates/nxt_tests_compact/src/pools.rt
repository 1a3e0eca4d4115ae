// Pools that are built by hand.

use nxt_rows::{DopeRow, get, set};
use std::alloc::Global;
use std::process::Abort;
use std::test::Fail;

/// A list: its place, the bytes from element to element, and how many elements there are.
pub type List = (u16, u16, u16);

/// A pool with a table of rows and lists, behind static bytes that end at `base`.
#[derive(Clone, Copy)]
pub struct Pool<'a> {
    pub size: usize,
    pub base: u32,
    pub table: u16,
    pub lists: &'a [List],
}

/// A row of the table.
pub(crate) fn row_of(rt: &impl Abort, pool: &[u8], table: u32, row: u16) -> DopeRow {
    assert!(rt; table as usize + 10 * (row as usize + 1) <= pool.len());
    get(pool, table, row)
}

/// How many rows the table has.
pub(crate) fn rows_of(rt: &impl Abort, pool: &[u8], table: u32) -> u16 {
    row_of(rt, pool, table, 0).count
}

// Writes a row, with a back pointer and a link that tell it from the others.
fn put_row(rt: &impl Abort, pool: &mut [u8], table: u16, row: u16, list: List) {
    let (place, stride, count) = list;
    assert!(rt; table as usize + 10 * (row as usize + 1) <= pool.len());
    set(
        pool,
        table as u32,
        row,
        DopeRow {
            place,
            stride,
            count,
            back: row,
            link: u16::MAX - row,
        },
    );
}

/// The bytes of the pool. Those that are in no row differ from place to place.
pub(crate) fn built(rt: &impl Abort, alloc: Global, pool: &Pool) -> Result<Vec<u8>, Fail> {
    let mut bytes = Vec::new(alloc);
    for at in 0..pool.size {
        bytes.push((at % 251) as u8)?;
    }
    let rows = u16::try_from(pool.lists.len())?;
    assert!(rt; rows < 6_553);
    put_row(
        rt,
        bytes.as_mut_slice(),
        pool.table,
        0,
        (pool.table, 10, rows + 1),
    );
    let mut row = 0;
    for list in pool.lists {
        assert!(rt; row < rows);
        row += 1;
        put_row(rt, bytes.as_mut_slice(), pool.table, row, *list);
    }
    Ok(bytes)
}
