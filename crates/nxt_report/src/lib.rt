//! The report of a script on a machine: the script's rows run one by one, and what they tell is gathered and written.
#![tactic(auto)]

mod running;
mod status;
mod writing;

pub use running::run_script;
pub use status::Status;
pub use writing::{Fault, put};
