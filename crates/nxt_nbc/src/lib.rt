//! Programs in NBC (NBC Programmer's Guide): `parse` gives the program that a text spells, or the first rule that it breaks.
#![tactic(auto)]

mod lines;
mod rules;
mod spaces;
mod syntax;
mod text;
mod unknown;

pub use text::parse;
