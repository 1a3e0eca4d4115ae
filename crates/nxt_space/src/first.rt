// The heap at the start.

ghost use Rattle.std.specs.Prelude.{◌≡◌, ◌+◌, ◌*◌, ◌≤◌, IfOk};
ghost use Rattle.nxt_types.specs.Pool.{round4, pool_size};
ghost use Rattle.nxt_heap.specs.Lists.{base_of};
ghost use Rattle.nxt_heap.specs.Moves.{IsPacked};

use nxt_heap::Heap;
use nxt_types::NoMemory;
use std::alloc::Global;
use std::marker::Model;

/// The heap at the start, which a restart gives again. Its table stands right above the static bytes, and no block has a gap
/// below it.
#[derive(Drop)]
pub struct FirstHeap {
    heap: Heap,
}

impl Model for FirstHeap {
    ghost use Rattle.nxt_heap.specs.Lists.{HeapViews, base_of};
    ghost use Rattle.nxt_heap.specs.Moves.{IsPacked};

    ghost Value = { HeapViews };

    ghost view = { λ f. f.heap };

    ghost invariant = { λ f. IsPacked (base_of f.heap.lists) f.heap.pool };
}

impl FirstHeap {
    /// What a heap holds now.
    pub fn of(
        alloc: Global,
        heap: &Heap,
        static_size: u32,
        rows: u16,
    ) -> Result<FirstHeap, NoMemory>
        requires rows { 1 ≤ rows }
        requires fits { round4 static_size + round4 (10 * rows) ≤ pool_size }
        requires packed { IsPacked (base_of heap.now.lists) heap.now.pool }
        ensures { IfOk result (λ first. first ≡ heap.now) }
    {
        let mut first = Heap::new(alloc, static_size, rows)?;
        first.copy_from(heap);
        Ok(FirstHeap { heap: first })
    }

    /// Gives a heap all that this one holds. It takes no memory.
    pub fn restore(&self, heap: &mut Heap)
        ensures same { heap.new ≡ self.now }
        ensures packed { IsPacked (base_of heap.new.lists) heap.new.pool }
    {
        heap.copy_from(&self.heap);
    }
}
