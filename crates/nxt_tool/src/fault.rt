// Why a file gives no program.

ghost use Rattle.std.specs.Prelude.{◌≡◌, IfOk, OnErr};
ghost use Rattle.nxt_types.specs.BrokenRules.{rule_and_place};
ghost use Rattle.nxt_nbc.specs.Faults.{fault_seen};
ghost use Rattle.nxt_tool.specs.Refused.{told, text_told, of_sections, of_layout, of_code, of_text, of_assembler};
ghost use Rattle.nxt_tool.specs.declared.fault.AcceptFault.TheVariants.{NoMemory as no_memory};

use nxt_asm_rules::AsmFault;
use nxt_code::CodeFault;
use nxt_layout::LayoutFault;
use nxt_nbc_lines::NbcFault;
use nxt_rxe::RxeFault;
use nxt_types::memory;
use nxt_types::refusal::BrokenRule;

/// Why a file is refused.
#[derive(Clone, Copy, Debug, PartialEq, Eq)]
pub enum Refusal {
    /// A rule of its sections is broken.
    Sections(RxeFault),
    /// A rule of its table and data is broken.
    Layout(LayoutFault),
    /// A rule of its clumps and code is broken.
    Code(CodeFault),
    /// A rule of texts in NBC is broken.
    Text(NbcFault),
    /// A rule of the assembler is broken.
    Assembler(AsmFault),
}

impl Refusal {
    /// The broken rule with its place; an `Err` where there was no memory.
    pub fn broken_rule(self) -> Result<BrokenRule, memory::NoMemory>
        ensures { IfOk result (λ b. rule_and_place b ≡ told self) }
    {
        match self {
            Refusal::Sections(fault) => fault.broken_rule(),
            Refusal::Layout(fault) => fault.broken_rule(),
            Refusal::Code(fault) => fault.broken_rule(),
            Refusal::Text(fault) => text_rule(fault),
            Refusal::Assembler(fault) => fault.broken_rule(),
        }
    }
}

// The broken rule of a text with its place; an `Err` where there was no memory.
fn text_rule(fault: NbcFault) -> Result<BrokenRule, memory::NoMemory>
    ensures { IfOk result (λ b. rule_and_place b ≡ text_told (fault_seen fault)) }
{
    match fault {
        NbcFault::Lex(line) => Ok(BrokenRule::at(40, line)),
        NbcFault::Syntax(line) => Ok(BrokenRule::at(41, line)),
        NbcFault::UnknownName(line) => Ok(BrokenRule::at(42, line)),
        NbcFault::TwiceNamed(line) => Ok(BrokenRule::at(43, line)),
        NbcFault::Kind(line, operand) => Ok(BrokenRule::pair(44, line, operand)),
        NbcFault::Range(line) => Ok(BrokenRule::at(45, line)),
        NbcFault::NoMain => Ok(BrokenRule::whole(46)),
        NbcFault::TooMany(case) => Ok(BrokenRule::at(47, u32::from(case))),
        NbcFault::NoMemory => Err(memory::NoMemory),
    }
}

/// Why a file gave no program.
#[derive(Clone, Copy, Debug, PartialEq, Eq)]
pub enum AcceptFault {
    Refused(Refusal),
    NoMemory,
}

impl From<RxeFault> for AcceptFault {
    ghost from_gives = { λ f a. a ≡ of_sections f };

    fn from(fault: RxeFault) -> Self {
        match fault {
            RxeFault::NoMemory => AcceptFault::NoMemory,
            _ => AcceptFault::Refused(Refusal::Sections(fault)),
        }
    }
}

impl From<LayoutFault> for AcceptFault {
    ghost from_gives = { λ f a. a ≡ of_layout f };

    fn from(fault: LayoutFault) -> Self {
        match fault {
            LayoutFault::NoMemory => AcceptFault::NoMemory,
            _ => AcceptFault::Refused(Refusal::Layout(fault)),
        }
    }
}

impl From<CodeFault> for AcceptFault {
    ghost from_gives = { λ f a. a ≡ of_code f };

    fn from(fault: CodeFault) -> Self {
        match fault {
            CodeFault::NoMemory => AcceptFault::NoMemory,
            _ => AcceptFault::Refused(Refusal::Code(fault)),
        }
    }
}

impl From<NbcFault> for AcceptFault {
    ghost from_gives = { λ f a. a ≡ of_text f };

    fn from(fault: NbcFault) -> Self {
        match fault {
            NbcFault::NoMemory => AcceptFault::NoMemory,
            _ => AcceptFault::Refused(Refusal::Text(fault)),
        }
    }
}

impl From<AsmFault> for AcceptFault {
    ghost from_gives = { λ f a. a ≡ of_assembler f };

    fn from(fault: AsmFault) -> Self {
        match fault {
            AsmFault::NoMemory => AcceptFault::NoMemory,
            _ => AcceptFault::Refused(Refusal::Assembler(fault)),
        }
    }
}

impl From<memory::NoMemory> for AcceptFault {
    ghost from_gives = { λ _ a. a ≡ no_memory };

    fn from(_: memory::NoMemory) -> Self {
        AcceptFault::NoMemory
    }
}
