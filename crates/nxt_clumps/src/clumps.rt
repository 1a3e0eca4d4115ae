// The clumps of a program.

ghost use Rattle.std.specs.Prelude.{◌≡◌, ◌+◌, ◌<◌, ◌≤◌, ◌^◌, ◌==◌, ◌&&◌, int_le, pos, length, IfOk, IfSome, IsSome, slice_get};
ghost use Rattle.std.specs.List.{All};
ghost use Rattle.nxt_model.specs.Clumps.{Asleep, clump, clumps_at_start, rotate, leave, finish, lower_all, between, schedule, call, return_to, acquire, release, wake, some_activity, is_asleep, is_blocked};
ghost use Rattle.nxt_model.specs.Step.{turned};
ghost use Rattle.nxt_clumps.specs.Plans.{plans_of, told};
ghost use Rattle.nxt_clumps.specs.Clumps.{head, moved};
ghost use Rattle.nxt_clumps.specs.Answers.{Rules, stop_in};

use crate::fault::ClumpFault;
use crate::plan::{Plan, Plans};
use crate::state::State;
use nxt_types::NoMemory;
use std::alloc::Global;
use std::marker::Model;

/// The clumps of a program (LEGO MINDSTORMS NXT Executable File Specification, "Clump Scheduling"). The first clump of the
/// queue runs, for a turn of up to 20 bytecodes.
///
/// All the memory that later calls need is taken by `new`.
#[derive(Drop)]
pub struct Clumps {
    plans: Plans,
    state: State,
}

impl Model for Clumps {
    ghost use Rattle.std.specs.Prelude.{◌≡◌, length};
    ghost use Rattle.nxt_clumps.specs.Clumps.{Scheduled};

    ghost Value = { Scheduled };

    ghost view = { λ c. record { plans = c.plans; state = c.state } };

    ghost invariant = { λ c. length c.state.clumps ≡ length c.plans };
}

impl Clumps {
    /// The clumps of a program at their start, with a mutex for each entry of the table. The dependents are numbers of clumps.
    pub fn new(
        alloc: Global,
        plans: Vec<Plan>,
        dependents: Vec<u8>,
        entries: u32,
    ) -> Result<Clumps, NoMemory>
        requires some { 1 ≤ length plans.items }
        requires few { length plans.items ≤ 255 }
        requires told { told plans.items ≡ length dependents.items }
        requires within { All (λ d. d < length plans.items) dependents.items }
        requires entries { entries < 2 ^ 16 }
        ensures plans { IfOk result (λ c. c.plans ≡ plans_of plans.items dependents.items) }
        ensures state { IfOk result (λ c. c.state ≡ clumps_at_start c.plans entries) }
    {
        let plans = Plans::new(plans, dependents);
        let state = State::new(alloc, &plans, entries)?;
        Ok(Clumps { plans, state })
    }

    /// Puts every clump at its start again, and frees the mutexes.
    pub fn restart(&mut self)
        ensures { self.new ≡ record self.old { state = clumps_at_start self.old.plans (length self.old.state.mutexes) } }
    {
        self.state.restart(&self.plans);
    }

    /// The clump that runs.
    pub fn head(&self) -> Option<u8>
        ensures head { result ≡ slice_get self.now.state.queue 0 }
        ensures inside { IfSome result (λ h. h < length self.now.state.clumps) }
    {
        self.state.first()
    }

    /// Whether no other clump is queued beside the one that runs.
    pub fn is_alone(&self) -> bool
        ensures { result ≡ (length self.now.state.queue == 1) }
    {
        self.state.is_alone()
    }

    /// How many bytecodes of the turn are done.
    pub fn turn(&self) -> u32
        ensures turn { result ≡ self.now.state.turn }
        ensures short { result ≤ 20 }
    {
        u32::from(self.state.turn())
    }

    /// The number of the statement at which the clump stands that runs.
    pub fn place(&self) -> u32
        requires { IsSome (slice_get self.now.state.queue 0) }
        ensures { result ≡ (clump self.now.state (head self.now.state)).place }
    {
        match self.state.first() {
            Some(h) => self.state.place(h),
            None => 0,
        }
    }

    /// The clump that runs stands at a place, with more bytecodes of its turn done.
    pub fn advance(&mut self, place: u32, bytecodes: u32)
        requires head { IsSome (slice_get self.old.state.queue 0) }
        requires turn { self.old.state.turn + bytecodes ≤ 20 }
        ensures { self.new ≡ record self.old { state = moved (head self.old.state) place bytecodes self.old.state } }
    {
        if let Some(h) = self.state.first() {
            self.state.advance(h, place, bytecodes as u8);
        }
    }

    /// The clump that runs goes to the queue's end, which ends the turn.
    pub fn rotate(&mut self)
        requires { IsSome (slice_get self.old.state.queue 0) }
        ensures { self.new ≡ record self.old { state = rotate self.old.state } }
    {
        self.state.rotate();
    }

    /// Ends a bytecode: after the 20th of a turn the clump that runs goes to the queue's end.
    pub fn end_bytecode(&mut self)
        ensures state { self.new ≡ record self.old { state = turned self.old.state } }
        ensures short { self.new.state.turn < 20 }
    {
        self.state.end_bytecode();
    }

    /// The clump that runs ends, and lowers those of its dependents whose positions lie between two numbers ("finclump").
    pub fn finish(&mut self, start: i16, end: i16) -> Result<(), ClumpFault>
        requires { IsSome (slice_get self.old.state.queue 0) }
        ensures { Rules (finish self.old.plans start end (head self.old.state) self.old.state) self.old result self.new }
    {
        let Some(h) = self.state.first() else {
            return Ok(());
        };
        self.state.retire(h, &self.plans);
        lower_between(
            &mut self.state,
            &self.plans,
            self.plans.dependents(h),
            start,
            end,
        )
    }

    /// The clump that runs ends, and lowers another one ("finclumpimmed").
    pub fn schedule(&mut self, c: u8) -> Result<(), ClumpFault>
        requires head { IsSome (slice_get self.old.state.queue 0) }
        requires inside { c < length self.old.state.clumps }
        ensures { Rules (schedule self.old.plans c (head self.old.state) self.old.state) self.old result self.new }
    {
        let Some(h) = self.state.first() else {
            return Ok(());
        };
        self.state.retire(h, &self.plans);
        self.state.lower(c, &self.plans)
    }

    /// The clump that runs calls another one, and waits for its return ("subcall").
    pub fn call(&mut self, c: u8) -> Result<(), ClumpFault>
        requires head { IsSome (slice_get self.old.state.queue 0) }
        requires inside { c < length self.old.state.clumps }
        ensures { Rules (call self.old.plans c (head self.old.state) self.old.state) self.old result self.new }
    {
        let Some(h) = self.state.first() else {
            return Ok(());
        };
        self.state.call(h, c, &self.plans)
    }

    /// The clump that runs ends, and the clump with a number, which waits for a return, goes on ("subret").
    pub fn ret(&mut self, n: u32) -> Result<(), ClumpFault>
        requires { IsSome (slice_get self.old.state.queue 0) }
        ensures { Rules (return_to self.old.plans n (head self.old.state) self.old.state) self.old result self.new }
    {
        let Some(h) = self.state.first() else {
            return Ok(());
        };
        self.state.ret(h, n, &self.plans)
    }

    /// The clump that runs takes the mutex of an entry, or waits until it has it ("acquire").
    pub fn acquire(&mut self, m: u16)
        requires head { IsSome (slice_get self.old.state.queue 0) }
        requires entry { m < length self.old.state.mutexes }
        ensures { self.new ≡ record self.old { state = (acquire m (head self.old.state) self.old.state).0 } }
    {
        if let Some(h) = self.state.first() {
            self.state.acquire(h, m);
        }
    }

    /// The clump that runs gives its mutex to the first who waits for it, or frees it ("release").
    pub fn release(&mut self, m: u16) -> Result<(), ClumpFault>
        requires head { IsSome (slice_get self.old.state.queue 0) }
        requires entry { m < length self.old.state.mutexes }
        ensures { Rules (release m (head self.old.state) self.old.state) self.old result self.new }
    {
        let Some(h) = self.state.first() else {
            return Ok(());
        };
        self.state.release(h, m)
    }

    /// The clump that runs sleeps until a moment, in ms ("wait").
    pub fn sleep(&mut self, until: u64)
        requires { IsSome (slice_get self.old.state.queue 0) }
        ensures { self.new ≡ record self.old { state = leave (Asleep until) (head self.old.state) self.old.state } }
    {
        if let Some(h) = self.state.first() {
            self.state.sleep(h, until);
        }
    }

    /// Queues every sleeper whose moment is reached, the earliest first, and those of one moment by number.
    pub fn wake(&mut self, clock: u64)
        ensures { self.new ≡ record self.old { state = wake clock self.old.state } }
    {
        self.state.wake(clock);
    }

    /// Whether a clump sleeps.
    pub fn sleeping(&self) -> bool
        ensures { result ≡ some_activity is_asleep self.now.state }
    {
        self.state.sleeping()
    }

    /// Whether a clump waits for a mutex or for a subroutine.
    pub fn blocked(&self) -> bool
        ensures { result ≡ some_activity is_blocked self.now.state }
    {
        self.state.blocked()
    }

    /// What clumps hold is sound: each has a plan. The call does nothing.
    pub fn recall_sound(&self)
        ensures { length self.now.state.clumps ≡ length self.now.plans }
    {
        let _state = &self.state;
    }
}

/// Lowers those dependents whose positions lie between two numbers, until one is not due.
fn lower_between(
    state: &mut State,
    plans: &Plans,
    dependents: &[u8],
    start: i16,
    end: i16,
) -> Result<(), ClumpFault>
    requires within { All (λ d. d < length plans.now) dependents.now }
    requires few { length dependents.now ≤ 255 }
    requires planned { length state.old.clumps ≡ length plans.now }
    ensures state { state.new ≡ (lower_all plans.now (between start end 0 dependents.now) state.old).0 }
    ensures stop { stop_in result ≡ (lower_all plans.now (between start end 0 dependents.now) state.old).1 }
    ensures kept { length state.new.clumps ≡ length state.old.clumps }
{
    for (k, d) in dependents.iter().enumerate() {
        if !lies_between(start, end, k) {
            continue;
        }
        if let Err(fault) = state.lower(*d, plans) {
            return Err(fault);
        }
    }
    Ok(())
}

/// Whether the position of a dependent lies between two numbers.
fn lies_between(start: i16, end: i16, k: usize) -> bool
    requires { k ≤ 255 }
    ensures { result ≡ (int_le start (pos k) && int_le (pos k) end) }
{
    let k = k as i16;
    start <= k && k <= end
}
