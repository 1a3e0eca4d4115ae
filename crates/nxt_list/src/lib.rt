//! An accepted file as text: a line for its header, and one for each entry of its table, row, clump and statement.
#![tactic(auto)]

mod clumps;
mod code;
mod fields;
mod header;
mod listing;
mod rows;
mod table;

pub use listing::list;
