//! What the image is put together of that a program in NBC is assembled to.
#![tactic(auto)]

mod clumps;
mod code;
mod constants;
mod defaults;
mod firsts;
mod lists;
mod measure;
mod numbers;
mod starts;
mod table;
mod types;

pub use clumps::{clump_dependents, clump_records};
pub use code::code_of;
pub use constants::Constants;
pub use defaults::static_defaults_of;
pub use lists::{dynamic_defaults_of, kind_of};
pub use measure::{Measure, Measures};
pub use numbers::Numbers;
pub use starts::{Starts, word_at};
pub use table::{measure_together, table_of};
pub use types::types_of;
