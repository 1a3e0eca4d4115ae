// Clumps that sleep, in the order in which they wake.

ghost use Rattle.std.specs.Prelude.{◌≡◌, ◌<◌, ◌≤◌};
ghost use Rattle.std.specs.List.{insert};
ghost use Rattle.std.specs.VecDeque.{deque_capacity, deque_len};
ghost use Rattle.nxt_clumps.specs.Inside.Sleepers.{pair_of, pairs_of, stands_before, put_in_order};

use std::collections::VecDeque;

/// A clump that sleeps until a moment, in ms.
#[derive(Clone, Copy)]
pub(crate) struct Sleeper {
    pub moment: u64,
    pub clump: u8,
}

impl Sleeper {
    /// Whether it stands before another one: its moment is earlier, or the same and its number no larger.
    pub fn stands_before(self, other: Sleeper) -> bool
        ensures { result ≡ stands_before (pair_of self) (pair_of other) }
    {
        self.moment < other.moment || self.moment == other.moment && self.clump <= other.clump
    }
}

/// Puts a sleeper among those who sleep, in the order in which they wake.
pub(crate) fn put_in_order(sleepers: &mut VecDeque<Sleeper>, sleeper: Sleeper)
    requires { deque_len sleepers.old < deque_capacity sleepers.old }
    ensures items { pairs_of sleepers.new.items ≡ put_in_order (pair_of sleeper) (pairs_of sleepers.old.items) }
    ensures room { deque_capacity sleepers.old ≤ deque_capacity sleepers.new }
{
    let at = position_in_order(sleepers, sleeper);
    // The list has room, so this takes no memory and cannot fail.
    let _ = sleepers.insert(at, sleeper);
}

/// Where a sleeper goes: in front of the first one before which it stands.
fn position_in_order(sleepers: &VecDeque<Sleeper>, sleeper: Sleeper) -> usize
    ensures order { pairs_of (insert sleepers.now.items result sleeper) ≡ put_in_order (pair_of sleeper) (pairs_of sleepers.now.items) }
    ensures inside { result ≤ deque_len sleepers.now }
{
    for i in 0..sleepers.len() {
        if sleeper.stands_before(sleepers[i]) {
            return i;
        }
    }
    sleepers.len()
}
