//! The assembler (NBC Programmer's Guide): `assemble` gives the image of a text's program, or the first rule that it breaks.
#![tactic(auto)]

mod assembly;
mod draft;
mod footprint;
mod jumps;
mod rules;
mod sections;

pub use assembly::{Assembled, assemble};
