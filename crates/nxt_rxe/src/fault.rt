// Why a file is refused.

use nxt_types::memory;
use nxt_types::refusal::BrokenRule;

/// The first broken rule of a file's sections. The numbers are what a refusal shows beside the rule.
#[derive(Clone, Copy, PartialEq, Eq, Debug)]
pub enum RxeFault {
    /// The file ends before the end of its header: how many bytes there are.
    Short(u32),
    /// The place of the first byte that differs from the format string.
    Format(u32),
    /// A version other than 5.
    Version(u16),
    /// 0 the table, 1 the defaults, 3 the clump records, 4 the dependents or 5 the code passes the file's end, or
    /// 2 the dynamic defaults pass the defaults or the dataspace.
    Section(u8),
    /// The host's memory was not there.
    NoMemory,
}

impl From<memory::NoMemory> for RxeFault {
    ghost use Rattle.std.specs.Prelude.{◌≡◌};
    ghost use Rattle.nxt_rxe.specs.declared.fault.RxeFault.TheVariants as faults;

    ghost from_gives = { λ _ f. f ≡ faults.NoMemory };

    fn from(_: memory::NoMemory) -> Self {
        RxeFault::NoMemory
    }
}

impl RxeFault {
    ghost use Rattle.std.specs.Prelude.{◌≡◌, IfOk, OnErr};
    ghost use Rattle.nxt_types.specs.BrokenRules.{rule_and_place};
    ghost use Rattle.nxt_rxe.specs.FileRules.{rank};

    /// The broken rule with its place; an `Err` where there was no memory.
    pub fn broken_rule(self) -> Result<BrokenRule, memory::NoMemory>
        ensures rule { IfOk result (λ b. rule_and_place b ≡ rank self) }
        ensures memory { OnErr result (self ≡ RxeFault.NoMemory) }
    {
        match self {
            RxeFault::Short(bytes) => Ok(BrokenRule::at(1, bytes)),
            RxeFault::Format(byte) => Ok(BrokenRule::at(2, byte)),
            RxeFault::Version(version) => Ok(BrokenRule::at(3, u32::from(version))),
            RxeFault::Section(section) => Ok(BrokenRule::at(4, u32::from(section))),
            RxeFault::NoMemory => Err(memory::NoMemory),
        }
    }
}
