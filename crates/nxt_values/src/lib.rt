//! Values at a place in a heap: read, measured, freed, filled and stored (LEGO MINDSTORMS NXT Executable File
//! Specification, "Dataspace", "Dope Vectors").
#![tactic(auto)]

pub mod elements;
pub mod members;
pub mod parts;
pub mod reading;
pub mod shapes;
pub mod sizing;
pub mod writing;
