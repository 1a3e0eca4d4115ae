// Why a program stops at its clumps.

ghost use Rattle.std.specs.Prelude.{◌≡◌};
ghost use Rattle.nxt_clumps.specs.Answers.{stop_of};

use nxt_model::line::Stop;

/// Why a statement stops the program.
#[derive(Clone, Copy, PartialEq, Eq, Debug)]
pub enum ClumpFault {
    /// A clump that is not idle was to be queued or called.
    Active(u8),
    /// A mutex was released by a clump that does not own it; the mutex's table entry.
    NotOwner(u16),
    /// A return to a clump that does not call.
    NoCaller(u32),
}

impl From<ClumpFault> for Stop {
    ghost from_gives = { λ fault stop. stop ≡ stop_of fault };

    fn from(fault: ClumpFault) -> Self {
        match fault {
            ClumpFault::Active(c) => Stop::Active(c),
            ClumpFault::NotOwner(m) => Stop::NotOwner(m),
            ClumpFault::NoCaller(n) => Stop::NoCaller(n),
        }
    }
}
