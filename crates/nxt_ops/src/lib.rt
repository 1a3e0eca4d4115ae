//! Statements on numbers, lists of numbers and whole values (LEGO MINDSTORMS NXT Executable File Specification, "Instruction
//! Set": math, logic, comparison, branching, and moves).
#![tactic(auto)]

mod clusters;
mod comparing;
mod in_place;
mod lists;
mod operator;
mod passes;
pub mod prepared;
pub mod run;

pub use operator::{One, Two};
pub use prepared::{Prepared, prepare, run_prepared};
pub use run::{Next, run_op, runs};
