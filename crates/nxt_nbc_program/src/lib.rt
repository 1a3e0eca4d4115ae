//! The program that an NBC text spells, with numbers in the place of names (NBC Programmer's Guide, "Program Structure").
#![tactic(auto)]

mod args;
mod links;
mod program;
mod statements;
mod types;

pub use program::program_of;
