// Where blocks have to stand after a step, told by sorting them by their places and going over them once.

use crate::due::{Due, Row};
use nxt_rows::NO_PLACE;
use nxt_types::pool::{POOL_BYTES, round4};
use std::alloc::Global;
use std::process::Abort;
use std::test::Fail;

impl Due {
    /// How many blocks have a gap somewhere below them.
    pub(crate) fn unsettled(&self, rt: &impl Abort, alloc: Global) -> Result<u16, Fail> {
        let rows = self.rows.clone()?;
        let mut settled = Due {
            base: self.base,
            rows,
        };
        settled.compact(rt, alloc, u16::MAX)
    }

    /// Moves the lowest `k` blocks that have a gap below down to the end of the one before, and gives how many moved.
    pub(crate) fn compact(&mut self, rt: &impl Abort, alloc: Global, k: u16) -> Result<u16, Fail> {
        let mut moved = 0;
        let mut end = self.base;
        for &(place, row) in self.in_order(alloc)?.as_slice() {
            assert!(rt; row < self.rows.len());
            if place > end && moved < k {
                self.rows[row].place = end;
                moved += 1;
            }
            end = end.saturating_add(self.rows[row].block());
        }
        Ok(moved)
    }

    /// Gives a row's block `bytes`, which the pool holds.
    pub(crate) fn resize(
        &mut self,
        rt: &impl Abort,
        alloc: Global,
        row: u16,
        bytes: u32,
    ) -> Result<(), Fail> {
        let had = self.row(rt, row);
        let block = round4(bytes as u64);
        let place = if block == 0 {
            NO_PLACE as u64
        } else if had.bytes > 0 && block <= self.room_at(had.place) {
            had.place
        } else {
            self.place_for(rt, alloc, row, block)?
        };
        self.set_row(
            rt,
            row,
            Row {
                bytes,
                place,
                ..had
            },
        );
        Ok(())
    }

    // How many bytes there are from the front of a block up to the next one or the end of the pool.
    fn room_at(&self, place: u64) -> u64 {
        let mut next = POOL_BYTES;
        for row in self.rows.as_slice() {
            if row.bytes > 0 && row.place > place {
                next = next.min(row.place);
            }
        }
        next.saturating_sub(place)
    }

    // The front of the lowest hole of `bytes`.
    fn hole(&self, rt: &impl Abort, alloc: Global, bytes: u64) -> Result<Option<u64>, Fail> {
        let mut end = self.base;
        for &(place, row) in self.in_order(alloc)?.as_slice() {
            if place.saturating_sub(end) >= bytes {
                return Ok(Some(end));
            }
            assert!(rt; row < self.rows.len());
            end = self.rows[row].end();
        }
        if POOL_BYTES.saturating_sub(end) >= bytes {
            Ok(Some(end))
        } else {
            Ok(None)
        }
    }

    // Where a block of `bytes` goes that cannot stay: into the lowest hole. Where there is none no gap is left, and
    // what stood above the block makes room for it.
    fn place_for(
        &mut self,
        rt: &impl Abort,
        alloc: Global,
        row: u16,
        bytes: u64,
    ) -> Result<u64, Fail> {
        if let Some(place) = self.hole(rt, alloc, bytes)? {
            return Ok(place);
        }
        let had = self.row(rt, row);
        let order = self.in_order(alloc)?;
        self.compact(rt, alloc, u16::MAX)?;
        if had.bytes == 0 {
            return Ok(self.end());
        }
        let more = bytes.saturating_sub(had.block());
        for &(place, other) in order.as_slice() {
            assert!(rt; other < self.rows.len());
            if place > had.place {
                self.rows[other].place = self.rows[other].place.saturating_add(more);
            }
        }
        Ok(self.row(rt, row).place)
    }
}
