// Why a program isn't assembled.

ghost use Rattle.std.specs.Prelude.{◌≡◌, IfOk};
ghost use Rattle.nxt_types.specs.BrokenRules.{rule_and_place};

use nxt_types::NoMemory;
use nxt_types::refusal::BrokenRule;

/// Why a program isn't assembled.
#[derive(Clone, Copy, PartialEq, Eq, Debug)]
pub enum AsmFault {
    /// At this line a jump's offset isn't in -32,768 to 32,767.
    FarJump(u32),
    /// Too many table entries (0), too many words of code (1), or too large an element of an array (2), with the size.
    TooLarge(u8, u32),
    /// The footprint at the start is above the pool's 32,768 bytes.
    PoolPassed(u64),
    NoMemory,
}

impl AsmFault {
    ghost use Rattle.nxt_asm_rules.specs.AsmRules.{told};

    /// The broken rule with its place; an `Err` where there was no memory.
    pub fn broken_rule(self) -> Result<BrokenRule, NoMemory>
        ensures { IfOk result (λ b. rule_and_place b ≡ told self) }
    {
        match self {
            AsmFault::FarJump(line) => Ok(BrokenRule::at(48, line)),
            AsmFault::TooLarge(case, size) => Ok(BrokenRule::pair(49, u32::from(case), size)),
            AsmFault::PoolPassed(size) => Ok(BrokenRule::passed(50, size)),
            AsmFault::NoMemory => Err(NoMemory),
        }
    }
}

impl From<NoMemory> for AsmFault {
    ghost use Rattle.nxt_asm_rules.specs.declared.fault.AsmFault.TheVariants.{NoMemory};

    ghost from_gives = { λ _ fault. fault ≡ NoMemory };

    fn from(_: NoMemory) -> AsmFault {
        AsmFault::NoMemory
    }
}
