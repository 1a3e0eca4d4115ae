// Operators on numbers.

ghost use Rattle.std.specs.Prelude.{◌≡◌};
ghost use Rattle.nxt_ops.specs.Ops.{word_of_two, word_of_one};

use nxt_types::kind::{Arith, Cmp};
use nxt_types::numbers::{arith, compare, wrap};

/// An operator on two numbers.
#[derive(Clone, Copy, PartialEq, Eq, Debug)]
pub enum Two {
    Calculate(Arith),
    Compare(Cmp),
}

/// An operator on one number.
#[derive(Clone, Copy, PartialEq, Eq, Debug)]
pub enum One {
    Neg,
    Not,
    Test(Cmp),
}

impl Two {
    /// The word for two numbers, of which one is of a signed kind or none.
    #[inline(always)]
    pub fn word(self, signed: bool, x: i64, y: i64) -> u32
        ensures { result ≡ word_of_two self signed x y }
    {
        match self {
            Two::Calculate(operator) => arith(operator, signed, x, y),
            Two::Compare(cmp) => u32::from(compare(cmp, signed, x, y)),
        }
    }
}

impl One {
    /// The word for a number, which is of a signed kind or not.
    #[inline(always)]
    pub fn word(self, signed: bool, x: i64) -> u32
        ensures { result ≡ word_of_one self signed x }
    {
        match self {
            One::Neg => arith(Arith::Sub, signed, 0, x),
            One::Not => u32::from(wrap(x) == 0),
            One::Test(cmp) => u32::from(compare(cmp, signed, x, 0)),
        }
    }
}
