//! The rows of a script: a source is read once, its lines are cut, and each line's record spells a row.
#![tactic(auto)]

mod fault;
mod number;
mod record;
mod row;
mod script;
mod text;

pub use fault::ScriptFault;
pub use number::{Range, number_in};
pub use script::Script;
