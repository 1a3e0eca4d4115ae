//! What the text of a program declares, and what its names stand for (NBC Programmer's Guide, "Program Structure").
#![tactic(auto)]

mod blocks;
mod denoted;
mod extent;
mod header;
mod labels;
mod members;
mod name_table;
mod names;
mod paths;
mod reading;
mod source;
mod structs;
mod variables;

pub use blocks::{Block, Blocks};
pub use denoted::{Denoted, Part};
pub use extent::Extent;
pub use header::{constant, is_header_name};
pub use labels::{Label, Labels, is_statement};
pub use members::{Member, Members};
pub use name_table::NameTable;
pub use names::{DeclaredName, NameSort, Names};
pub use source::Source;
pub use structs::{Struct, StructTable};
pub use variables::{Variable, Variables};
