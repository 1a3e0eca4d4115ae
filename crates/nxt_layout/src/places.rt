// The places of the elements of rows.

ghost use Rattle.std.specs.Prelude.{◌≡◌, ℕ, Bool, true, ◌<◌, ◌≤◌, ◌*◌, ◌+◌, [], ◌∷◌, flat_map, length, IfOk};
ghost use Rattle.nxt_facts.specs.Sums.{sum_below};
ghost use Rattle.nxt_layout.specs.Rows.{elements_of, is_placed as row_is_placed};
ghost use Rattle.nxt_layout.specs.Inside.RowPasses.{ground_of, times as times_of, bit_of, few};
ghost use Rattle.nxt_layout.specs.Inside.Known.{IsWalked, ArePlaced, standing, ArePlacesOf};

use crate::dataspace::Dataspace;
use nxt_types::NoMemory;
use std::alloc::Global;

/// The places of elements: those where one stands, and those where several do.
#[derive(Drop)]
pub struct Places {
    pub once: Vec<u32>,
    pub often: Vec<u32>,
}

/// How many elements stand at each place of the dataspace, where a third one counts no more, and how many places from it on,
/// a stride apart, have two.
#[derive(Drop)]
struct Walk {
    stride: u16,
    times: Vec<u8>,
    steps: Vec<u16>,
}

/// The places of the elements of these rows.
pub fn places_of(alloc: Global, space: &Dataspace, rows: &[u16]) -> Result<Places, NoMemory>
    requires { ArePlaced (ground_of space.now) rows.now }
    ensures { IfOk result (ArePlacesOf (flat_map (elements_of (ground_of space.now)) rows.now)) }
{
    let mut walk = Walk::new(alloc, space, stride_among(space, rows))?;
    for row in rows {
        walk.take_row(space, *row);
    }
    walk.places(alloc)
}

// The stride of the rows that have elements. Those that are read through one array have the same.
fn stride_among(space: &Dataspace, rows: &[u16]) -> u16 {
    for row in rows {
        if space.has_elements(*row) {
            return space.stride(*row);
        }
    }
    0
}

impl Walk {
    fn new(alloc: Global, space: &Dataspace, stride: u16) -> Result<Walk, NoMemory>
        ensures count { IfOk result (λ w. length w.times.items ≡ length space.now.bytes.items + 1) }
        ensures walked { IfOk result (IsWalked (λ q. 0)) }
    {
        let count = space.bytes.len() + 1;
        Ok(Walk {
            stride,
            times: vec![in alloc; 0u8; count]?,
            steps: vec![in alloc; 0u16; count]?,
        })
    }

    // Takes the places of a row's elements. It steps over those that have two.
    fn take_row(&mut self, space: &Dataspace, row: u16)
        requires placed { row_is_placed (ground_of space.now) row ≡ true }
        requires count { length self.old.times.items ≡ length space.now.bytes.items + 1 }
        requires steps { length self.old.steps.items ≡ length self.old.times.items }
        ensures count { length self.new.times.items ≡ length self.old.times.items }
        ensures steps { length self.new.steps.items ≡ length self.old.steps.items }
        ensures walked { (c : ℕ → ℕ) → IsWalked c self.old → IsWalked (λ q. c q + times_of q (elements_of (ground_of space.now) row)) self.new }
    {
        let stride = space.stride(row);
        let mut at = u32::from(space.place(row));
        let mut left = space.count(row);
        while left > 0 {
            let full = self.full_from(at, stride).min(left);
            if full > 0 {
                at += u32::from(full) * u32::from(stride);
                left -= full;
            } else {
                self.take(at);
                at += u32::from(stride);
                left -= 1;
            }
        }
    }

    // A number of places from `at` on, `stride` bytes apart, that have two.
    fn full_from(&mut self, at: u32, stride: u16) -> u16
        requires place { at < length self.old.times.items }
        requires steps { length self.old.steps.items ≡ length self.old.times.items }
        ensures full { (c : ℕ → ℕ) → IsWalked c self.old → (k : ℕ) → k < result → 2 ≤ c (at + k * stride) }
        ensures count { length self.new.times.items ≡ length self.old.times.items }
        ensures steps { length self.new.steps.items ≡ length self.old.steps.items }
        ensures walked { (c : ℕ → ℕ) → IsWalked c self.old → IsWalked c self.new }
    {
        let full = self.steps[at as usize];
        if full == 0 || stride != self.stride {
            return 0;
        }
        let all = full.saturating_add(self.next_steps(at, full));
        self.steps[at as usize] = all;
        all
    }

    // How many follow behind the first `full` of them.
    fn next_steps(&self, at: u32, full: u16) -> u16
        ensures { (c : ℕ → ℕ) → IsWalked c self.now → (k : ℕ) → k < result → 2 ≤ c (at + full * self.now.stride + k * self.now.stride) }
    {
        let next = u64::from(at) + u64::from(full) * u64::from(self.stride);
        self.steps.get(next as usize).copied().unwrap_or(0)
    }

    // Takes an element at this place.
    fn take(&mut self, at: u32)
        requires place { at < length self.old.times.items }
        requires steps { length self.old.steps.items ≡ length self.old.times.items }
        ensures count { length self.new.times.items ≡ length self.old.times.items }
        ensures steps { length self.new.steps.items ≡ length self.old.steps.items }
        ensures walked { (c : ℕ → ℕ) → IsWalked c self.old → IsWalked (λ q. c q + times_of q (at ∷ [])) self.new }
    {
        let place = at as usize;
        let times = self.times[place];
        if times < 2 {
            self.times[place] = times + 1;
            self.steps[place] = u16::from(times);
        }
    }

    // The places that have elements, in order.
    fn places(&self, alloc: Global) -> Result<Places, NoMemory>
        ensures { (c : ℕ → ℕ) → IsWalked c self.now → IfOk result (λ p. (t : ℕ → Bool) → standing t p ≡ sum_below (λ q. few (c q) * bit_of (t q)) (length self.now.times.items)) }
    {
        let mut once: Vec<u32> = Vec::new(alloc);
        let mut often: Vec<u32> = Vec::new(alloc);
        for at in 0..self.times.len() {
            let Ok(place) = u32::try_from(at) else {
                return Err(NoMemory);
            };
            let times = self.times[at];
            if times == 1 {
                once.push(place)?;
            } else if times > 1 {
                often.push(place)?;
            }
        }
        Ok(Places { once, often })
    }
}
