//! The rules of the assembler (sizes, jumps, and the pool at the start): what a broken one is told as, and what holds of
//! programs that keep them.
#![tactic(auto)]

mod fault;

pub use fault::AsmFault;
