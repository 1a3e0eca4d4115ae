//! The variables of a program in the pool (LEGO MINDSTORMS NXT Executable File Specification, "Dataspace", "Dope Vectors").
#![tactic(auto)]

pub mod fault;
mod first;
pub mod path;
pub mod space;
pub mod spots;
mod starting;
mod variables;

pub use fault::OpFault;
pub use nxt_heap::PoolPassed;
pub use nxt_values::sizing::{Size, spelled_size};
pub use path::Path;
pub use space::Space;
pub use spots::{InnerSpot, ListSpot, Spot};
pub use variables::Flat;
