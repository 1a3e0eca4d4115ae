// What a file says of its clumps.

ghost use Rattle.std.specs.Prelude.{◌≡◌, ℕ, ◌+◌, ◌<◌, ◌≤◌, ◌^◌, length, sum_by};
ghost use Rattle.std.specs.List.{All};
ghost use Rattle.nxt_model.specs.Clumps.{plan_of};
ghost use Rattle.nxt_clumps.specs.Plans.{plans_of, told};

use std::marker::Model;

/// What a file says of a clump (LEGO MINDSTORMS NXT Executable File Specification, "Clump Record"): how often it is lowered
/// before it is queued, the number of its first statement, and how many clumps it lowers.
#[derive(Clone, Copy, PartialEq, Eq, Debug)]
pub struct Plan {
    pub fire: u8,
    pub start: u32,
    pub dependents: u8,
}

/// The plans of a program's clumps. Each clump's dependents stand behind those of the clumps before it.
#[derive(Drop)]
pub(crate) struct Plans {
    records: Vec<Plan>,
    dependents: Vec<u8>,
}

impl Model for Plans {
    ghost use Rattle.std.specs.Prelude.{List, ℕ};
    ghost use Rattle.nxt_model.specs.Clumps.{Plan as Planned};
    ghost use Rattle.nxt_clumps.specs.Plans.{plans_of};
    ghost use Rattle.nxt_clumps.specs.Inside.Records.{ArePlans};

    ghost Value = { List Planned };

    ghost view = { λ p. plans_of p.records.items p.dependents.items };

    ghost invariant = { λ p. ArePlans p.records.items p.dependents.items };
}

impl Plans {
    pub fn new(records: Vec<Plan>, dependents: Vec<u8>) -> Plans
        requires few { length records.items ≤ 255 }
        requires told { told records.items ≡ length dependents.items }
        requires within { All (λ d. d < length records.items) dependents.items }
        ensures { result ≡ plans_of records.items dependents.items }
    {
        Plans {
            records,
            dependents,
        }
    }

    pub fn len(&self) -> u8
        ensures { result ≡ length self.now }
    {
        self.records.len() as u8
    }

    pub fn fire(&self, c: u8) -> u8
        requires { c < length self.now }
        ensures { result ≡ (plan_of self.now c).fire }
    {
        self.records[usize::from(c)].fire
    }

    pub fn start(&self, c: u8) -> u32
        requires { c < length self.now }
        ensures { result ≡ (plan_of self.now c).start }
    {
        self.records[usize::from(c)].start
    }

    pub fn dependents(&self, c: u8) -> &[u8]
        requires { c < length self.now }
        ensures these { result.now ≡ (plan_of self.now c).dependents }
        ensures within { All (λ d. d < length self.now) result.now }
        ensures few { length result.now ≤ 255 }
    {
        dependents_at(
            self.records.as_slice(),
            self.dependents.as_slice(),
            usize::from(c),
        )
    }
}

/// The dependents of a clump, which stand behind those of the clumps before it.
fn dependents_at<'a>(records: &[Plan], dependents: &'a [u8], c: usize) -> &'a [u8]
    requires inside { c < length records.now }
    requires whole { told records.now ≡ length dependents.now }
    ensures these { result.now ≡ (plan_of (plans_of records.now dependents.now) c).dependents }
    ensures within { (n : ℕ) → All (λ d. d < n) dependents.now → All (λ d. d < n) result.now }
    ensures few { length result.now ≤ 255 }
{
    let behind = &dependents[dependents_of(&records[..c])..];
    &behind[..usize::from(records[c].dependents)]
}

/// How many dependents some clumps have.
fn dependents_of(records: &[Plan]) -> usize
    requires { told records.now < 2 ^ 63 }
    ensures { result ≡ told records.now }
{
    records.iter().map(|p| usize::from(p.dependents)).sum()
}
