// Why a file's clumps and code are refused.

use nxt_types::memory;
use nxt_types::refusal::BrokenRule;

/// The first broken rule of a file's clumps and code, at its least place. The numbers are what a refusal shows beside the
/// rule (Executable File Specification, "Clump Records" and "Bytecode Instructions"). Words count from 0 in the code,
/// clumps and positions from 0, operands from 1.
#[derive(Clone, Copy, PartialEq, Eq, Debug)]
pub enum CodeFault {
    /// There is no clump, or more than 255: how many there are.
    ClumpCount(u32),
    /// A clump that starts past the code, or inside a statement.
    ClumpStart(u32),
    /// A clump, and the position of a dependent of it that names no clump.
    Dependent(u32, u32),
    /// A word at which no statement is spelled.
    Instr(u32),
    /// A statement's word, and an operand of it that isn't of its class.
    Operand(u32, u32),
    /// The word of a jump that leads to no statement.
    Jump(u32),
    /// The word of the last statement, behind which the program may go on.
    FallsOut(u32),
    /// The host's memory was not there.
    NoMemory,
}

impl From<memory::NoMemory> for CodeFault {
    ghost use Rattle.std.specs.Prelude.{◌≡◌};
    ghost use Rattle.nxt_code.specs.declared.fault.CodeFault.TheVariants as faults;

    ghost from_gives = { λ _ f. f ≡ faults.NoMemory };

    fn from(_: memory::NoMemory) -> Self {
        CodeFault::NoMemory
    }
}

impl CodeFault {
    ghost use Rattle.std.specs.Prelude.{◌≡◌, IfOk, OnErr};
    ghost use Rattle.nxt_types.specs.BrokenRules.{rule_and_place};
    ghost use Rattle.nxt_code.specs.CodeRules.{rank};

    /// The broken rule with its place; an `Err` where there was no memory.
    pub fn broken_rule(self) -> Result<BrokenRule, memory::NoMemory>
        ensures rule { IfOk result (λ b. rule_and_place b ≡ rank self) }
        ensures memory { OnErr result (self ≡ CodeFault.NoMemory) }
    {
        match self {
            CodeFault::ClumpCount(count) => Ok(BrokenRule::at(19, count)),
            CodeFault::ClumpStart(clump) => Ok(BrokenRule::at(20, clump)),
            CodeFault::Dependent(clump, position) => Ok(BrokenRule::pair(21, clump, position)),
            CodeFault::Instr(word) => Ok(BrokenRule::at(22, word)),
            CodeFault::Operand(word, operand) => Ok(BrokenRule::pair(23, word, operand)),
            CodeFault::Jump(word) => Ok(BrokenRule::at(24, word)),
            CodeFault::FallsOut(word) => Ok(BrokenRule::at(25, word)),
            CodeFault::NoMemory => Err(memory::NoMemory),
        }
    }
}
