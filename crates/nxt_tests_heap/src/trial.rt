// A heap and what is due of it, step by step.

use crate::calls::{expect_list, free, resize, write_marks};
use crate::due::{Due, Row};
use nxt_heap::{Heap, PoolPassed};
use nxt_types::pool::{POOL_BYTES, round4};
use std::alloc::Global;
use std::fmt::Debug;
use std::process::Abort;
use std::test::Fail;

/// What is done to a heap.
#[derive(Clone, Copy, PartialEq, Eq, Debug)]
pub enum Step {
    /// A new list, by how many bytes its elements are apart.
    New(u16),
    /// A new list, which the pool does not hold.
    Full,
    /// The list of a row gets this length in bytes.
    Resize(u16, u32),
    /// The newest list gets this length.
    Fill(u32),
    /// The list of a row is to get a length that the pool does not hold.
    Refused(u16, u32),
    /// The newest list is to get a length that the pool does not hold.
    RefusedNewest(u32),
    /// The list of a row goes.
    Free(u16),
    /// Blocks settle, up to this number.
    Compact(u16),
    /// The block of a row is to stand at this place.
    At(u16, u64),
    /// The block of the newest list is to stand at this place.
    NewestAt(u64),
}

/// A heap, what it has to be, the row of the newest list, and how many steps were taken.
pub struct Trial {
    pub heap: Heap,
    pub due: Due,
    pub newest: u16,
    pub steps: u32,
}

// With a function of its own the drop is proved once, and not at each end of a test.
impl Drop for Trial {
    fn drop(self) {
        let Trial {
            heap: _,
            due: _,
            newest: _,
            steps: _,
        } = self;
    }
}

impl Trial {
    /// A heap with static bytes, and with a table of row 0 and free rows.
    pub(crate) fn new(
        rt: &impl Abort,
        alloc: Global,
        static_size: u16,
        rows: u16,
    ) -> Result<Trial, Fail> {
        assert!(rt; rows >= 1);
        assert!(rt; round4(static_size as u64) + round4(10 * rows as u64) <= POOL_BYTES);
        Ok(Trial {
            heap: Heap::new(alloc, static_size as u32, rows)?,
            due: Due::new(alloc, static_size, rows)?,
            newest: 0,
            steps: 0,
        })
    }

    /// Takes these steps, and compares the heap with what is due after each.
    pub(crate) fn run(
        &mut self,
        rt: &impl Abort,
        alloc: Global,
        steps: &[Step],
    ) -> Result<(), Fail> {
        for &step in steps {
            self.take(rt, alloc, step)?;
            self.check(rt, alloc)?;
        }
        Ok(())
    }

    /// Takes a step, and compares what it answers with what is due.
    pub(crate) fn take(&mut self, rt: &impl Abort, alloc: Global, step: Step) -> Result<(), Fail> {
        self.steps = self.steps.saturating_add(1);
        match step {
            Step::New(stride) => self.add(rt, alloc, stride)?,
            Step::Full => self.expect_full(rt)?,
            Step::Resize(row, bytes) => self.resize(rt, alloc, row, bytes)?,
            Step::Fill(bytes) => self.resize(rt, alloc, self.newest, bytes)?,
            Step::Refused(row, bytes) => self.expect_refused(rt, row, bytes),
            Step::RefusedNewest(bytes) => self.expect_refused(rt, self.newest, bytes),
            Step::Free(row) => self.free(rt, row),
            Step::Compact(k) => self.compact(rt, alloc, k)?,
            Step::At(row, place) => self.expect_place(rt, row, place),
            Step::NewestAt(place) => self.expect_place(rt, self.newest, place),
        }
        Ok(())
    }

    /// What was found after a step is what is due.
    pub(crate) fn same<T: PartialEq + Debug + Drop>(
        &self,
        rt: &impl Abort,
        found: T,
        due: T,
        what: &str,
    ) {
        assert_eq!(rt; found, due, "{what}, step {}", self.steps);
    }

    // A new list takes a free row, or one that is added to the table.
    fn add(&mut self, rt: &impl Abort, alloc: Global, stride: u16) -> Result<(), Fail> {
        let row = self.new_row(rt, stride);
        if !self.due.has_free_row() {
            self.add_row(rt, alloc, row)?;
        }
        self.same(rt, self.due.row(rt, row), Row::empty(0), "a free row");
        self.due.set_row(rt, row, Row::empty(stride));
        self.newest = row;
        Ok(())
    }

    // The row of a new list, which the pool holds.
    fn new_row(&mut self, rt: &impl Abort, stride: u16) -> u16 {
        assert!(rt; stride > 0);
        match self.heap.new_array(stride) {
            Ok(row) => row,
            Err(_) => {
                assert!(rt; false, "no row for step {}", self.steps);
                0
            }
        }
    }

    // The table gets a row more, of that number.
    fn add_row(&mut self, rt: &impl Abort, alloc: Global, row: u16) -> Result<(), Fail> {
        let rows = u16::try_from(self.due.rows.len())?;
        self.same(rt, row, rows, "the row of a new list");
        let table = 10 * (rows as u32 + 1);
        assert!(rt; self.due.footprint_with(rt, 0, table) <= POOL_BYTES);
        self.due.resize(rt, alloc, 0, table)?;
        self.due.rows.push(Row::empty(0))?;
        Ok(())
    }

    // The pool does not hold a row more.
    fn expect_full(&mut self, rt: &impl Abort) -> Result<(), Fail> {
        let rows = u16::try_from(self.due.rows.len())?;
        let footprint = self.due.footprint_with(rt, 0, 10 * (rows as u32 + 1));
        assert!(rt; !self.due.has_free_row() && footprint > POOL_BYTES);
        let passed = self.heap.new_array(1);
        self.same(rt, passed, Err(PoolPassed(footprint)), "a full pool");
        Ok(())
    }

    // The pool does not hold `bytes` in a row's list.
    fn expect_refused(&mut self, rt: &impl Abort, row: u16, bytes: u32) {
        let footprint = self.due.footprint_with(rt, row, bytes);
        assert!(rt; footprint > POOL_BYTES, "step {}", self.steps);
        let passed = resize(rt, &mut self.heap, row, bytes);
        self.same(rt, passed, Err(PoolPassed(footprint)), "a refused list");
    }

    // The list keeps its front, and then gets marks all over.
    fn resize(&mut self, rt: &impl Abort, alloc: Global, row: u16, bytes: u32) -> Result<(), Fail> {
        let had = self.due.row(rt, row);
        let footprint = self.due.footprint_with(rt, row, bytes);
        assert!(rt; footprint <= POOL_BYTES, "step {}", self.steps);
        let fits = resize(rt, &mut self.heap, row, bytes);
        self.same(rt, fits, Ok(()), "a list that fits");
        self.due.resize(rt, alloc, row, bytes)?;
        let kept = had.bytes.min(bytes) as usize;
        expect_list(rt, &self.heap, row, kept, bytes as usize);
        write_marks(rt, alloc, &mut self.heap, row, bytes)
    }

    fn free(&mut self, rt: &impl Abort, row: u16) {
        free(rt, &mut self.heap, row);
        self.due.set_row(rt, row, Row::empty(0));
    }

    // As many blocks settle as are due.
    fn compact(&mut self, rt: &impl Abort, alloc: Global, k: u16) -> Result<(), Fail> {
        let due = self.due.compact(rt, alloc, k)?;
        let moved = self.heap.compact(k);
        self.same(rt, moved, due, "what moves");
        Ok(())
    }
}
