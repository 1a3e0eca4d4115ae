// The clumps of a program that runs.

ghost use Rattle.std.specs.Prelude.{◌≡◌, ℕ, ◌+◌, ◌<◌, ◌≤◌, ◌^◌, ◌==◌, ◌++◌, ◌∷◌, [], if◌then◌else◌, length, map, slice_get, IfOk, IfSome, Some, None, true, position, IsSome, List};
ghost use Rattle.std.specs.Vec.{vec_capacity};
ghost use Rattle.std.specs.VecDeque.{deque_capacity, deque_len};
ghost use Rattle.nxt_model.specs.Clumps.{first_clump, first_queue, clumps_at_start, clump, change_clump, with_place, with_count, rotate, leave, enqueue, enqueue_at, retire, lower, call, return_to, wake, some_activity, is_blocked, acquire, release, hand_on, mutex, change_mutex, Free, Owned, Waiting, Asleep, is_idle, is_calling, is_asleep};
ghost use Rattle.nxt_model.specs.Step.{turned};
ghost use Rattle.nxt_clumps.specs.Clumps.{moved};
ghost use Rattle.nxt_clumps.specs.declared.waiter.Waiter.{Waiter};
ghost use Rattle.nxt_clumps.specs.Inside.Records.{activity_of};
ghost use Rattle.nxt_clumps.specs.Inside.States.{IsPlain, owner_in, waiters_in};
ghost use Rattle.nxt_clumps.specs.Inside.Sleepers.{in_order, due_part, first_number};
ghost use Rattle.nxt_clumps.specs.Answers.{stop_in};

use crate::clump::{Clump, Doing};
use crate::fault::ClumpFault;
use crate::plan::Plans;
use crate::sleeper::{Sleeper, put_in_order};
use crate::waiter::Waiter;
use nxt_types::NoMemory;
use std::alloc::Global;
use std::collections::VecDeque;
use std::marker::Model;

/// Room for every clump that a program can have.
const CLUMPS: usize = 255;

/// How many bytecodes a turn has.
const TURN_BYTECODES: u8 = 20;

/// The clumps of a program that runs, the queue of those that are ready, and the mutexes by table entry.
#[derive(Drop)]
pub(crate) struct State {
    clumps: Vec<Clump>,
    queue: VecDeque<u8>,
    turn: u8,
    owners: Vec<Option<u8>>,
    /// Those who wait for any mutex, in the order in which they came.
    waiting: Vec<Waiter>,
    /// Those who sleep, in the order in which they wake.
    sleepers: VecDeque<Sleeper>,
}

impl Model for State {
    ghost use Rattle.std.specs.Vec.{vec_capacity};
    ghost use Rattle.std.specs.VecDeque.{deque_capacity};
    ghost use Rattle.nxt_model.specs.Clumps.{Clumps as Running};
    ghost use Rattle.nxt_clumps.specs.Inside.States.{clumps_of, AreKept};

    ghost Value = { Running };

    ghost view = { λ s. clumps_of s.clumps.items s.queue.items s.turn s.owners.items s.waiting.items };

    ghost invariant = { λ s. AreKept s.clumps.items s.queue.items s.turn s.owners.items s.waiting.items s.sleepers.items (deque_capacity s.queue) (vec_capacity s.waiting) (deque_capacity s.sleepers) (vec_capacity s.clumps) };
}

impl State {
    /// The clumps of a program at its start, with a mutex for each entry of the table.
    pub fn new(alloc: Global, plans: &Plans, entries: u32) -> Result<State, NoMemory>
        ensures { IfOk result (λ s. s ≡ clumps_at_start plans.now entries) }
    {
        let mut state = State {
            clumps: Vec::with_capacity(alloc, CLUMPS)?,
            queue: VecDeque::with_capacity(alloc, CLUMPS)?,
            turn: 0,
            owners: vec![in alloc; None; entries as usize]?,
            waiting: Vec::with_capacity(alloc, CLUMPS)?,
            sleepers: VecDeque::with_capacity(alloc, CLUMPS)?,
        };
        state.restart(plans);
        Ok(state)
    }

    pub fn restart(&mut self, plans: &Plans)
        ensures { self.new ≡ clumps_at_start plans.now (length self.old.mutexes) }
    {
        self.clumps.clear();
        self.queue.clear();
        self.turn = 0;
        self.owners.fill(None);
        self.waiting.clear();
        self.sleepers.clear();
        start_clumps(plans, &mut self.clumps, &mut self.queue);
    }

    pub fn first(&self) -> Option<u8>
        ensures head { result ≡ slice_get self.now.queue 0 }
        ensures inside { IfSome result (λ h. h < length self.now.clumps) }
    {
        self.queue.front().copied()
    }

    /// Whether one clump alone is queued.
    pub fn is_alone(&self) -> bool
        ensures { result ≡ (length self.now.queue == 1) }
    {
        self.queue.len() == 1
    }

    pub fn turn(&self) -> u8
        ensures turn { result ≡ self.now.turn }
        ensures short { result ≤ 20 }
    {
        self.turn
    }

    pub fn place(&self, c: u8) -> u32
        requires { c < length self.now.clumps }
        ensures { result ≡ (clump self.now c).place }
    {
        self.clumps[usize::from(c)].place()
    }

    pub fn set_place(&mut self, c: u8, place: u32)
        requires { c < length self.old.clumps }
        ensures { self.new ≡ change_clump (with_place place) c self.old }
    {
        self.clumps[usize::from(c)].set_place(place);
    }

    fn count(&self, c: u8) -> u8
        requires { c < length self.now.clumps }
        ensures { result ≡ (clump self.now c).count }
    {
        self.clumps[usize::from(c)].count()
    }

    fn set_count(&mut self, c: u8, count: u8)
        requires { c < length self.old.clumps }
        ensures { self.new ≡ change_clump (with_count count) c self.old }
    {
        self.clumps[usize::from(c)].set_count(count);
    }

    fn is_idle(&self, c: u8) -> bool
        requires { c < length self.now.clumps }
        ensures { result ≡ is_idle (clump self.now c).activity }
    {
        self.clumps[usize::from(c)].is_idle()
    }

    /// The first of the queue goes to its end, which ends the turn.
    pub fn rotate(&mut self)
        ensures { self.new ≡ rotate self.old }
    {
        if let Some(h) = self.queue.pop_front() {
            self.queue.push_back_reserved(h);
        }
        self.turn = 0;
    }

    /// A clump stands at a place, with more bytecodes of its turn done.
    pub fn advance(&mut self, c: u8, place: u32, bytecodes: u8)
        requires inside { c < length self.old.clumps }
        requires turn { self.old.turn + bytecodes ≤ 20 }
        ensures { self.new ≡ moved c place bytecodes self.old }
    {
        self.clumps[usize::from(c)].set_place(place);
        self.turn += bytecodes;
    }

    /// Ends a bytecode: after the 20th of a turn the first of the queue goes to its end.
    pub fn end_bytecode(&mut self)
        ensures state { self.new ≡ turned self.old }
        ensures short { self.new.turn < 20 }
    {
        if self.turn == TURN_BYTECODES {
            self.rotate();
        }
    }

    /// The clump that runs leaves the queue, which ends the turn. It becomes idle, or waits for a subroutine.
    fn leave(&mut self, h: u8, doing: Doing)
        requires head { slice_get self.old.queue 0 ≡ Some h }
        requires plain { IsPlain (activity_of doing) }
        ensures state { self.new ≡ leave (activity_of doing) h self.old }
        ensures inside { h < length self.old.clumps }
        ensures kept { length self.new.clumps ≡ length self.old.clumps }
    {
        self.queue.pop_front();
        self.clumps[usize::from(h)].set_doing(doing);
        self.turn = 0;
    }

    /// A clump that is idle, or waits for a subroutine, goes to the queue's end.
    fn enqueue(&mut self, c: u8)
        requires inside { c < length self.old.clumps }
        requires plain { IsPlain (clump self.old c).activity }
        ensures state { self.new ≡ enqueue c self.old }
        ensures kept { length self.new.clumps ≡ length self.old.clumps }
    {
        self.queue.push_back_reserved(c);
        self.clumps[usize::from(c)].set_doing(Doing::Queued);
    }

    /// The same, at its start.
    fn enqueue_at(&mut self, c: u8, start: u32)
        requires inside { c < length self.old.clumps }
        requires plain { IsPlain (clump self.old c).activity }
        ensures state { self.new ≡ enqueue_at start c self.old }
        ensures kept { length self.new.clumps ≡ length self.old.clumps }
    {
        self.enqueue(c);
        self.set_place(c, start);
    }

    /// The clump that runs becomes idle, and stands at its start.
    pub fn retire(&mut self, h: u8, plans: &Plans)
        requires head { slice_get self.old.queue 0 ≡ Some h }
        requires planned { length self.old.clumps ≡ length plans.now }
        ensures state { self.new ≡ retire plans.now h self.old }
        ensures kept { length self.new.clumps ≡ length self.old.clumps }
    {
        self.leave(h, Doing::Idle);
        self.set_place(h, plans.start(h));
    }

    /// Lowers a clump's count, which queues it at its start if it was due.
    #[tactic(auto, using(crate::proofs::Queue::Kept::plain_of_idle))]
    pub fn lower(&mut self, c: u8, plans: &Plans) -> Result<(), ClumpFault>
        requires inside { c < length self.old.clumps }
        requires planned { length self.old.clumps ≡ length plans.now }
        ensures state { self.new ≡ (lower plans.now c self.old).0 }
        ensures stop { stop_in result ≡ (lower plans.now c self.old).1 }
        ensures kept { length self.new.clumps ≡ length self.old.clumps }
    {
        let count = self.count(c);
        if count > 1 {
            self.set_count(c, count - 1);
            return Ok(());
        }
        if !self.is_idle(c) {
            return Err(ClumpFault::Active(c));
        }
        self.enqueue_at(c, plans.start(c));
        self.set_count(c, plans.fire(c));
        Ok(())
    }

    /// The clump that runs calls another one, which is queued at its start.
    pub fn call(&mut self, h: u8, c: u8, plans: &Plans) -> Result<(), ClumpFault>
        requires head { slice_get self.old.queue 0 ≡ Some h }
        requires inside { c < length self.old.clumps }
        requires planned { length self.old.clumps ≡ length plans.now }
        ensures state { self.new ≡ (call plans.now c h self.old).0 }
        ensures stop { stop_in result ≡ (call plans.now c h self.old).1 }
        ensures kept { length self.new.clumps ≡ length self.old.clumps }
    {
        if self.is_idle(c) {
            self.leave(h, Doing::Calling);
            self.enqueue_at(c, plans.start(c));
            return Ok(());
        }
        Err(ClumpFault::Active(c))
    }

    /// The clump with a number, if it waits for a subroutine.
    fn caller(&self, n: u32) -> Option<u8>
        ensures caller { result ≡ (if is_calling (clump self.now n).activity then Some n else None) }
        ensures inside { IfSome result (λ c. c < length self.now.clumps) }
    {
        let clump = self.clumps.get(n as usize)?;
        if clump.is_calling() {
            Some(n as u8)
        } else {
            None
        }
    }

    /// The clump that runs ends, and a clump that waits for a subroutine goes on.
    #[tactic(auto, using(crate::proofs::Queue::Kept::plain_of_calling))]
    pub fn ret(&mut self, h: u8, n: u32, plans: &Plans) -> Result<(), ClumpFault>
        requires head { slice_get self.old.queue 0 ≡ Some h }
        requires planned { length self.old.clumps ≡ length plans.now }
        ensures state { self.new ≡ (return_to plans.now n h self.old).0 }
        ensures stop { stop_in result ≡ (return_to plans.now n h self.old).1 }
        ensures kept { length self.new.clumps ≡ length self.old.clumps }
    {
        let Some(c) = self.caller(n) else {
            return Err(ClumpFault::NoCaller(n));
        };
        self.retire(h, plans);
        self.enqueue(c);
        Ok(())
    }

    /// The clump that runs sleeps until a moment.
    pub fn sleep(&mut self, h: u8, until: u64)
        requires { slice_get self.old.queue 0 ≡ Some h }
        ensures state { self.new ≡ leave (Asleep until) h self.old }
        ensures kept { length self.new.clumps ≡ length self.old.clumps }
    {
        self.queue.pop_front();
        self.clumps[usize::from(h)].set_doing(Doing::Asleep(until));
        self.turn = 0;
        put_in_order(
            &mut self.sleepers,
            Sleeper {
                moment: until,
                clump: h,
            },
        );
    }

    /// The sleeper that wakes first goes to the queue's end.
    fn wake_one(&mut self, c: u8)
        requires { first_number (in_order self.old.clumps) ≡ Some c }
        ensures state { self.new ≡ enqueue c self.old }
        ensures kept { length self.new.clumps ≡ length self.old.clumps }
    {
        self.sleepers.pop_front();
        self.queue.push_back_reserved(c);
        self.clumps[usize::from(c)].set_doing(Doing::Queued);
    }

    /// The sleeper that wakes first, if its moment is reached.
    fn next_due(&self, clock: u64) -> Option<u8>
        ensures { result ≡ first_number (due_part clock (in_order self.now.clumps)) }
    {
        let first = self.sleepers.front()?;
        if first.moment <= clock {
            Some(first.clump)
        } else {
            None
        }
    }

    /// Queues every sleeper whose moment is reached, the earliest first. It looks at those and at the first of the others.
    pub fn wake(&mut self, clock: u64)
        ensures state { self.new ≡ wake clock self.old }
        ensures kept { length self.new.clumps ≡ length self.old.clumps }
    {
        while let Some(c) = self.next_due(clock) {
            self.wake_one(c);
        }
    }

    /// The owner of a mutex.
    fn owner(&self, m: u16) -> Option<u8>
        requires { m < length self.now.mutexes }
        ensures { result ≡ owner_in (mutex self.now m) }
    {
        self.owners[usize::from(m)]
    }

    /// A clump becomes the owner of a free mutex.
    fn take(&mut self, h: u8, m: u16)
        requires entry { m < length self.old.mutexes }
        requires free { mutex self.old m ≡ Free }
        ensures state { self.new ≡ change_mutex m (Owned h []) self.old }
        ensures kept { length self.new.clumps ≡ length self.old.clumps }
    {
        self.owners[usize::from(m)] = Some(h);
    }

    /// The clump that runs leaves the queue and waits for a mutex, behind those who wait for it.
    fn wait_for(&mut self, h: u8, m: u16)
        requires head { slice_get self.old.queue 0 ≡ Some h }
        requires entry { m < length self.old.mutexes }
        requires owned { IsSome (owner_in (mutex self.old m)) }
        ensures state { (owner : ℕ) (waiters : List ℕ) → mutex self.old m ≡ Owned owner waiters → self.new ≡ change_mutex m (Owned owner (waiters ++ h ∷ [])) (leave (Waiting m) h self.old) }
        ensures kept { length self.new.clumps ≡ length self.old.clumps }
    {
        self.queue.pop_front();
        self.clumps[usize::from(h)].set_doing(Doing::Waiting(m));
        self.turn = 0;
        self.waiting.push_reserved(Waiter { mutex: m, clump: h });
    }

    /// The clump that runs takes a mutex, or waits for it.
    pub fn acquire(&mut self, h: u8, m: u16)
        requires head { slice_get self.old.queue 0 ≡ Some h }
        requires entry { m < length self.old.mutexes }
        ensures state { self.new ≡ (acquire m h self.old).0 }
        ensures kept { length self.new.clumps ≡ length self.old.clumps }
    {
        match self.owner(m) {
            None => self.take(h, m),
            Some(_) => self.wait_for(h, m),
        }
    }

    /// A mutex goes to the first who waits for it, who is queued, or is free.
    fn hand_on(&mut self, m: u16)
        requires entry { m < length self.old.mutexes }
        requires owned { IsSome (owner_in (mutex self.old m)) }
        ensures state { self.new ≡ hand_on (waiters_in (mutex self.old m)) m self.old }
        ensures kept { length self.new.clumps ≡ length self.old.clumps }
    {
        let Some(at) = first_waiter(self.waiting.as_slice(), m) else {
            self.owners[usize::from(m)] = None;
            return;
        };
        let next = self.waiting.remove(at).clump;
        self.owners[usize::from(m)] = Some(next);
        self.queue.push_back_reserved(next);
        self.clumps[usize::from(next)].set_doing(Doing::Queued);
    }

    /// The clump that runs gives its mutex to the first who waits for it, or frees it.
    pub fn release(&mut self, h: u8, m: u16) -> Result<(), ClumpFault>
        requires { m < length self.old.mutexes }
        ensures state { self.new ≡ (release m h self.old).0 }
        ensures stop { stop_in result ≡ (release m h self.old).1 }
        ensures kept { length self.new.clumps ≡ length self.old.clumps }
    {
        if self.owner(m) != Some(h) {
            return Err(ClumpFault::NotOwner(m));
        }
        self.hand_on(m);
        Ok(())
    }

    pub fn sleeping(&self) -> bool
        ensures { result ≡ some_activity is_asleep self.now }
    {
        !self.sleepers.is_empty()
    }

    pub fn blocked(&self) -> bool
        ensures { result ≡ some_activity is_blocked self.now }
    {
        self.clumps.iter().any(|k| k.is_blocked())
    }
}

/// Puts each clump at its start, and queues those that nothing lowers.
fn start_clumps(plans: &Plans, clumps: &mut Vec<Clump>, queue: &mut VecDeque<u8>)
    requires none { clumps.old.items ≡ [] }
    requires none_queued { queue.old.items ≡ [] }
    requires clump_room { 255 ≤ vec_capacity clumps.old }
    requires queue_room { 255 ≤ deque_capacity queue.old }
    ensures clumps { clumps.new.items ≡ map first_clump plans.now }
    ensures queue { queue.new.items ≡ first_queue 0 plans.now }
    ensures few { length plans.now ≤ 255 }
    ensures same_clump_room { vec_capacity clumps.new ≡ vec_capacity clumps.old }
    ensures same_queue_room { deque_capacity queue.new ≡ deque_capacity queue.old }
{
    for c in 0..plans.len() {
        let fire = plans.fire(c);
        clumps.push_reserved(Clump::first(fire, plans.start(c)));
        queue_first(queue, fire, c);
    }
}

/// Queues a clump that nothing lowers.
fn queue_first(queue: &mut VecDeque<u8>, fire: u8, c: u8)
    requires { deque_len queue.old < deque_capacity queue.old }
    ensures items { queue.new.items ≡ queue.old.items ++ (if fire == 0 then c ∷ [] else []) }
    ensures len { deque_len queue.new ≤ deque_len queue.old + 1 }
    ensures same_room { deque_capacity queue.new ≡ deque_capacity queue.old }
{
    if fire == 0 {
        queue.push_back_reserved(c);
    }
}

/// The first who waits for a mutex.
fn first_waiter(waiting: &[Waiter], m: u16) -> Option<usize>
    ensures { result ≡ position (λ (w : Waiter). w.mutex == m) waiting.now }
{
    waiting.iter().position(|w| w.mutex == m)
}
