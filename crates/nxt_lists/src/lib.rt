//! Statements on lists of any values (LEGO MINDSTORMS NXT Executable File Specification, "Instruction Set": array operations).
#![tactic(auto)]

pub mod building;
pub mod elements;
mod gathering;
mod inner;
mod joining;
mod numbers;

pub use building::{build, initialize};
pub use elements::{array_size, index, replace, subset};
