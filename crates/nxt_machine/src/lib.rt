//! The machine that runs a program: bytecodes and time, over variables, code, clumps and devices (LEGO MINDSTORMS NXT
//! Executable File Specification, "Virtual Machine").
#![tactic(auto)]

mod dumping;
mod machine;
mod naming;
mod ports;
mod program;
mod room;
mod rules;
mod statement;
mod turn;

pub use machine::Machine;
