//! Compaction of the pool: blocks that have a gap below move down, and room opens for one that gets longer (LEGO
//! MINDSTORMS NXT Executable File Specification, "Dope Vectors").
//!
//! The blocks of a pool are its table of rows and each list that has bytes. They stand in any order, with gaps between
//! them. Nothing here takes memory.
#![tactic(auto)]

mod blocks;
mod relocate;
mod settling;
mod up;

pub use blocks::block_bytes;
pub use relocate::move_block;
pub use settling::{compact, unsettled};
pub use up::open_gap;
