//! The generator of programs: a text and a script from a number, and what is told of their run.
#![tactic(auto)]

mod rows;
mod tally;
mod text;

pub use rows::generated_rows;
pub use tally::told;
pub use text::generated_text;
