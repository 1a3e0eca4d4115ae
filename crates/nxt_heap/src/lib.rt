//! The heap of the machine: static bytes and byte lists by row, in one pool of 32,768 bytes with a dope table (LEGO
//! MINDSTORMS NXT Executable File Specification, "Dope Vectors").
#![tactic(auto)]

mod blocks;
mod fronts;
pub mod heap;
pub mod passed;

pub use heap::Heap;
pub use passed::PoolPassed;
