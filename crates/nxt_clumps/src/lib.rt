//! The clumps of a program: the run queue and its turns, dependents, calls, sleep and mutexes (LEGO MINDSTORMS NXT
//! Executable File Specification, "Clumps" and "Scheduling").
#![tactic(auto)]

mod clump;
pub mod clumps;
pub mod fault;
pub mod plan;
mod sleeper;
mod state;
mod waiter;

pub use clumps::Clumps;
pub use fault::ClumpFault;
pub use plan::Plan;
