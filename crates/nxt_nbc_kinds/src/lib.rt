//! The kinds of operands in NBC texts (NBC Programmer's Guide).
#![tactic(auto)]

mod between;
mod conversions;
mod kinds;
mod operand;
mod ranges;
mod sorts;
mod types;

pub use between::{fits_others, has_kind, is_allowed, is_of_class};
pub use conversions::Conversions;
pub use kinds::wrong_kind;
pub use operand::{Operand, Operands};
pub use ranges::range_line;
pub use sorts::operands_of;
