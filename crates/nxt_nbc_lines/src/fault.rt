// Why a text is refused.

use nxt_types::NoMemory;

/// Why a text is refused. Its lines count from 1, and so do a statement's operands.
#[derive(Clone, Copy, PartialEq, Eq, Debug)]
pub enum NbcFault {
    /// At this line stands a byte that begins no token, or begins a text in quotes or a comment that isn't closed.
    Lex(u32),
    /// This line has none of the forms of its place, or opens what isn't closed, or declares what is too large.
    Syntax(u32),
    /// This line uses a name that nothing declares, or a member or a label that isn't there.
    UnknownName(u32),
    /// This line declares a name that its space has already.
    TwiceNamed(u32),
    /// At this line the operand of this number has another kind than its place wants.
    Kind(u32, u32),
    /// At this line a number is out of the range of its place.
    Range(u32),
    /// No thread is named `main`.
    NoMain,
    /// Too many threads and subroutines (0), or too many declared names (1).
    TooMany(u8),
    NoMemory,
}

impl From<NoMemory> for NbcFault {
    ghost use Rattle.std.specs.Prelude.{◌≡◌};
    ghost use Rattle.nxt_nbc_lines.specs.declared.fault.NbcFault.TheVariants.{NoMemory};

    ghost from_gives = { λ _ fault. fault ≡ NoMemory };

    fn from(_: NoMemory) -> NbcFault {
        NbcFault::NoMemory
    }
}
