//! Statements on texts, which are lists of bytes (LEGO MINDSTORMS NXT Executable File Specification, "Instruction Set": string
//! operations).
#![tactic(auto)]

pub mod numerals;
mod operands;
pub mod packing;
pub mod strings;
mod text;

pub use numerals::{number_to_string, string_to_number};
pub use packing::{flatten, unflatten};
pub use strings::{array_to_string, concatenate, string_to_array, substring};
pub use text::{Text, body, store_bytes, text_of};
