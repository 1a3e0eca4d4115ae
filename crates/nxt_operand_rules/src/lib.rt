//! What the operands of a statement may be, by what is seen of them ("LEGO MINDSTORMS NXT Executable File Specification",
//! "Bytecode Instructions").
#![tactic(auto)]

mod beside;
mod class;
mod seen;

pub use beside::{Question, asked};
pub use class::{is_allowed, is_of_class};
pub use seen::Seen;
