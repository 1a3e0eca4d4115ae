// What the operands of statements are.

ghost use Rattle.std.specs.Prelude.{◌≡◌};
ghost use Rattle.nxt_types.specs.OperandRules.{shape_of, sort_at, word_of};
ghost use Rattle.nxt_operand_rules.specs.SeenOf.{seen as seen_of};
ghost use Rattle.nxt_model.specs.Nbc.Structs.{Types};
ghost use Rattle.nxt_nbc_kinds.specs.OperandsSeen.{operand_seen, operands_seen, shape_seen};

use crate::types::seen;
use nxt_model::nbc::NbcType;
use nxt_nbc_names::StructTable;
use nxt_operand_rules::Seen;
use nxt_types::lists::ListOf;

/// What an operand of a statement is.
#[derive(Clone, Copy, PartialEq, Eq, Debug)]
pub enum Operand {
    /// A part of the variables, or a constant, by its type.
    Part(NbcType),
    /// A number that is no name.
    Word(u16),
    /// Left out.
    Absent,
    /// What no operand of its place may be.
    Unknown,
}

/// A list of operands.
pub type Operands = ListOf<Operand>;

impl Operand {
    /// The type of a part.
    pub fn shape(self) -> Option<NbcType>
        ensures { (t : Types) → shape_seen t result ≡ shape_of (operand_seen t self) }
    {
        match self {
            Operand::Part(shape) => Some(shape),
            _ => None,
        }
    }

    /// The number that is no name; 0 where it is none.
    pub fn word(self) -> u16
        ensures { (t : Types) → result ≡ word_of (operand_seen t self) }
    {
        match self {
            Operand::Word(number) => number,
            _ => 0,
        }
    }

    /// What is seen of it, among structs.
    pub fn seen(self, structs: &StructTable<'_>) -> Seen
        ensures { result ≡ seen_of (operand_seen structs.now self) }
    {
        match self {
            Operand::Part(shape) => seen(structs.as_slice(), shape),
            Operand::Word(number) => Seen::Word(number),
            Operand::Absent => Seen::Absent,
            Operand::Unknown => Seen::Nothing,
        }
    }
}

/// What is seen of operand k, counted from 0.
pub(crate) fn seen_at(structs: &StructTable<'_>, operands: &[Operand], k: usize) -> Seen
    ensures { result ≡ seen_of (sort_at (operands_seen structs.now operands.now) k) }
{
    match operands.get(k) {
        Some(operand) => operand.seen(structs),
        None => Seen::Nothing,
    }
}

/// The type of operand k, counted from 0, where it is a part.
pub(crate) fn shape_at(operands: &[Operand], k: usize) -> Option<NbcType>
    ensures { (t : Types) → shape_seen t result ≡ shape_of (sort_at (operands_seen t operands.now) k) }
{
    match operands.get(k) {
        Some(operand) => operand.shape(),
        None => None,
    }
}

/// Operand k, counted from 0, as a number that is no name; 0 where it is none.
pub(crate) fn number_at(operands: &[Operand], k: usize) -> u16
    ensures { (t : Types) → result ≡ word_of (sort_at (operands_seen t operands.now) k) }
{
    match operands.get(k) {
        Some(operand) => operand.word(),
        None => 0,
    }
}
