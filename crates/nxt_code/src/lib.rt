//! Checks the clumps and the code of a program against the rules of an accepted file ("LEGO MINDSTORMS NXT Executable File
//! Specification", "Clump Records" and "Bytecode Instructions").
#![tactic(auto)]

mod between;
mod clumps;
mod code;
mod fault;
mod jumps;
mod known;
mod operands;
mod shapes;
mod statements;

pub use code::{Code, check_code};
pub use fault::CodeFault;
pub use statements::{Decoded, StatementAt};
