//! Checks the rows that a file's arrays name, and the pool that its start needs, against the rules of an accepted file; the
//! rules of the table are those of `nxt_table` ("LEGO MINDSTORMS NXT Executable File Specification", "Dope Vectors").
#![tactic(auto)]

mod dataspace;
pub mod fault;
mod known;
pub mod layout;
mod marks;
mod names;
mod places;
mod reach;
mod rows;
mod spans;
mod strides;

pub use fault::LayoutFault;
pub use layout::{Layout, check_layout};
