// What is compared after each step.

use crate::calls::expect_list;
use crate::due::Row;
use crate::trial::Trial;
use nxt_rows::get;
use std::alloc::Global;
use std::process::Abort;
use std::test::Fail;

impl Trial {
    /// Compares the heap with what is due: the table's place, the footprint, the blocks with gaps below them, the end of
    /// the last block, and each row with the bytes of its list.
    pub(crate) fn check(&self, rt: &impl Abort, alloc: Global) -> Result<(), Fail> {
        self.expect_sizes(rt);
        let unsettled = self.due.unsettled(rt, alloc)?;
        self.same(rt, self.heap.unsettled(), unsettled, "unsettled");
        let dump = self.heap.dump(alloc)?;
        self.expect_dump(rt, dump.as_slice());
        Ok(())
    }

    fn expect_sizes(&self, rt: &impl Abort) {
        let table = self.heap.table_place() as u64;
        self.same(rt, table, self.due.row(rt, 0).place, "table");
        let footprint = self.heap.footprint() as u64;
        self.same(rt, footprint, self.due.footprint(), "footprint");
        let rows = self.heap.row_count() as usize;
        self.same(rt, rows, self.due.rows.len(), "rows");
    }

    // The bytes end with the last block, and have the rows that are due.
    fn expect_dump(&self, rt: &impl Abort, dump: &[u8]) {
        self.same(rt, dump.len() as u64, self.due.end(), "end");
        let table = self.heap.table_place();
        for row in 0..self.heap.row_count() {
            let due = self.due.row(rt, row);
            let found = row_in(rt, dump, table, row);
            assert_eq!(rt; found, due, "row {row}, step {}", self.steps);
            self.expect_marked(rt, row, due);
        }
    }

    // The list of a row, if it has one, holds its marks.
    fn expect_marked(&self, rt: &impl Abort, row: u16, due: Row) {
        if row > 0 && due.stride > 0 {
            let bytes = due.bytes as usize;
            expect_list(rt, &self.heap, row, bytes, bytes);
        }
    }

    /// The block of a row is to stand at this place.
    pub(crate) fn expect_place(&self, rt: &impl Abort, row: u16, place: u64) {
        let found = self.due.row(rt, row).place;
        assert_eq!(rt; found, place, "row {row}, step {}", self.steps);
    }

    /// The blocks of the rows stand at these places.
    pub(crate) fn expect_places(
        &self,
        rt: &impl Abort,
        alloc: Global,
        places: &[u16],
        what: &str,
    ) -> Result<(), Fail> {
        let dump = self.heap.dump(alloc)?;
        assert_eq!(rt; self.due.rows.len(), places.len(), "{what}");
        places_in(rt, dump.as_slice(), self.heap.table_place(), places, what);
        Ok(())
    }
}

// The rows in the bytes of a heap tell these places.
fn places_in(rt: &impl Abort, bytes: &[u8], table: u32, places: &[u16], what: &str) {
    let mut row = 0;
    for &place in places {
        let found = row_in(rt, bytes, table, row);
        assert_eq!(rt; found.place, place as u64, "{what}: row {row}");
        assert!(rt; row < u16::MAX);
        row += 1;
    }
}

// What a row tells in the bytes of a heap.
fn row_in(rt: &impl Abort, bytes: &[u8], table: u32, row: u16) -> Row {
    assert!(rt; table as usize + 10 * (row as usize + 1) <= bytes.len());
    let found = get(bytes, table, row);
    Row {
        stride: found.stride,
        bytes: found.count as u32 * found.stride as u32,
        place: found.place as u64,
    }
}
