// Why a statement is refused.

ghost use Rattle.std.specs.Prelude.{◌≡◌};
ghost use Rattle.nxt_space.specs.declared.fault.OpFault.TheVariants as faults;

use nxt_heap::PoolPassed;
use nxt_types::memory;

/// Why a statement was not run. Nothing has changed then.
#[derive(Clone, Copy, PartialEq, Eq, Debug)]
pub enum OpFault {
    /// The pool doesn't hold the variables that it gives: the bytes that they would take.
    PoolPassed(u64),
    /// The host's memory was not there.
    NoMemory,
}

impl From<memory::NoMemory> for OpFault {
    ghost from_gives = { λ _ f. f ≡ faults.NoMemory };

    fn from(_: memory::NoMemory) -> Self {
        OpFault::NoMemory
    }
}

impl From<PoolPassed> for OpFault {
    ghost from_gives = { λ e f. f ≡ faults.PoolPassed e.0 };

    fn from(passed: PoolPassed) -> Self {
        OpFault::PoolPassed(passed.0)
    }
}
