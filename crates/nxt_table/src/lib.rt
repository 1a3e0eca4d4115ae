//! Checks the dataspace table of a file, with its leaves and their default data, and gives the bytes of the dataspace
//! with which its program starts ("LEGO MINDSTORMS NXT Executable File Specification", "Dataspace Table of Contents",
//! "Default Values").
#![tactic(auto)]

pub mod check;
mod dataspace;
pub mod enclosing;
pub mod fault;
pub mod item;
pub mod leaves;
mod overlap;
pub mod shapes;
mod table;

pub use check::{Table, check_table};
pub use fault::TableFault;
