//! The system calls of a program (LEGO MINDSTORMS NXT Executable File Specification, "SYSCALL").
#![tactic(auto)]

mod answers;
mod buttons;
pub mod clock;
mod display;
mod fields;
mod messages;
mod sound;
pub mod table;

pub use clock::Clock;
pub use table::syscall;
