// One clump: its fire count, its place and what it does.

ghost use Rattle.std.specs.Prelude.{◌≡◌, ℕ, ◌==◌, if◌then◌else◌};
ghost use Rattle.nxt_model.specs.Clumps.{Idle, Queued, is_idle, is_asleep, is_calling, is_blocked, with_activity, with_place, with_count};
ghost use Rattle.nxt_clumps.specs.Inside.Records.{activity_of};

use std::marker::Model;

/// What a clump does.
#[derive(Clone, Copy, PartialEq, Eq, Debug)]
pub(crate) enum Doing {
    Idle,
    Queued,
    /// Until a moment, in ms.
    Asleep(u64),
    /// For the mutex of a table entry.
    Waiting(u16),
    /// A subroutine.
    Calling,
}

/// A clump of a program that runs. Its place is the number of a statement.
#[derive(Drop)]
pub(crate) struct Clump {
    count: u8,
    place: u32,
    doing: Doing,
}

impl Model for Clump {
    ghost use Rattle.nxt_model.specs.Clumps.{Clump as Standing};
    ghost use Rattle.nxt_clumps.specs.Inside.Records.{activity_of};

    ghost Value = { Standing };

    ghost view = { λ k. record { count = k.count; place = k.place; activity = activity_of k.doing } };
}

impl Clump {
    /// A clump at its start.
    pub fn first(fire: u8, start: u32) -> Clump
        ensures { result ≡ record { count = fire; place = start; activity = if fire == 0 then Queued else Idle } }
    {
        Clump {
            count: fire,
            place: start,
            doing: first_doing(fire),
        }
    }

    pub fn count(&self) -> u8
        ensures { result ≡ self.now.count }
    {
        self.count
    }

    pub fn place(&self) -> u32
        ensures { result ≡ self.now.place }
    {
        self.place
    }

    pub fn is_idle(&self) -> bool
        ensures { result ≡ is_idle self.now.activity }
    {
        matches!(self.doing, Doing::Idle)
    }

    pub fn is_calling(&self) -> bool
        ensures { result ≡ is_calling self.now.activity }
    {
        matches!(self.doing, Doing::Calling)
    }

    pub fn is_blocked(&self) -> bool
        ensures { result ≡ is_blocked self.now.activity }
    {
        matches!(self.doing, Doing::Waiting(_) | Doing::Calling)
    }

    pub fn set_count(&mut self, count: u8)
        ensures { self.new ≡ with_count count self.old }
    {
        self.count = count;
    }

    pub fn set_place(&mut self, place: u32)
        ensures { self.new ≡ with_place place self.old }
    {
        self.place = place;
    }

    pub fn set_doing(&mut self, doing: Doing)
        ensures { self.new ≡ with_activity (activity_of doing) self.old }
    {
        self.doing = doing;
    }
}

/// A clump that nothing lowers is queued at the start.
fn first_doing(fire: u8) -> Doing
    ensures { activity_of result ≡ (if fire == 0 then Queued else Idle) }
{
    if fire == 0 {
        Doing::Queued
    } else {
        Doing::Idle
    }
}
