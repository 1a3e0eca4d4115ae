// The rows of a heap as they have to be.

use nxt_rows::NO_PLACE;
use nxt_types::pool::round4;
use std::alloc::Global;
use std::process::Abort;
use std::test::Fail;

/// What a row has to tell: how many bytes its elements are apart, 0 where it is free, how many bytes they have together,
/// and where they stand.
#[derive(Clone, Copy, PartialEq, Eq, Debug)]
pub struct Row {
    pub stride: u16,
    pub bytes: u32,
    pub place: u64,
}

impl Row {
    /// A row whose list has no bytes, or a free one if the stride is 0.
    pub(crate) fn empty(stride: u16) -> Row {
        let place = NO_PLACE as u64;
        Row {
            stride,
            bytes: 0,
            place,
        }
    }

    /// The bytes of its block.
    pub(crate) fn block(self) -> u64 {
        round4(self.bytes as u64)
    }

    /// Where its block ends.
    pub(crate) fn end(self) -> u64 {
        self.place.saturating_add(self.block())
    }
}

/// The rows of a heap, and where its blocks may begin. The table's block is that of row 0.
#[derive(Drop)]
pub struct Due {
    pub base: u64,
    pub rows: Vec<Row>,
}

impl Due {
    /// A table of row 0 and free rows, behind static bytes.
    pub(crate) fn new(alloc: Global, static_size: u16, rows: u16) -> Result<Due, Fail> {
        let base = round4(static_size as u64);
        let mut all = Vec::new(alloc);
        all.push(Row {
            stride: 10,
            bytes: 10 * rows as u32,
            place: base,
        })?;
        for _ in 1..rows {
            all.push(Row::empty(0))?;
        }
        Ok(Due { base, rows: all })
    }

    /// The row of that number.
    pub(crate) fn row(&self, rt: &impl Abort, row: u16) -> Row {
        assert!(rt; (row as usize) < self.rows.len());
        self.rows[row as usize]
    }

    /// The row of that number is another one from now on.
    pub(crate) fn set_row(&mut self, rt: &impl Abort, row: u16, to: Row) {
        assert!(rt; (row as usize) < self.rows.len());
        self.rows[row as usize] = to;
    }

    /// Whether a row is free.
    pub(crate) fn has_free_row(&self) -> bool {
        for row in self.rows.as_slice() {
            if row.stride == 0 {
                return true;
            }
        }
        false
    }

    /// The footprint with `bytes` in a row's block.
    pub(crate) fn footprint_with(&self, rt: &impl Abort, row: u16, bytes: u32) -> u64 {
        let others = self.footprint().saturating_sub(self.row(rt, row).block());
        others.saturating_add(round4(bytes as u64))
    }

    /// Where the last block would end if there were no gaps.
    pub(crate) fn footprint(&self) -> u64 {
        let mut end = self.base;
        for row in self.rows.as_slice() {
            end = end.saturating_add(row.block());
        }
        end
    }

    /// Where the last block ends.
    pub(crate) fn end(&self) -> u64 {
        let mut end = self.base;
        for row in self.rows.as_slice() {
            if row.bytes > 0 {
                end = end.max(row.end());
            }
        }
        end
    }

    /// The rows that have blocks, from the lowest place to the highest.
    pub(crate) fn in_order(&self, alloc: Global) -> Result<Vec<(u64, usize)>, Fail> {
        let mut order = Vec::new(alloc);
        for (row, found) in self.rows.iter().enumerate() {
            if found.bytes > 0 {
                order.push((found.place, row))?;
            }
        }
        order.sort()?;
        Ok(order)
    }
}
