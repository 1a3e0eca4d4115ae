//! Statements on lists and texts (LEGO MINDSTORMS NXT Executable File Specification, "Instruction Set": array and string
//! operations).
#![tactic(auto)]

pub mod prepared;
pub mod run;

pub use prepared::{Prepared, prepare, run_prepared};
pub use run::{run_array, runs};
