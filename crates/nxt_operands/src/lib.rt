//! What statements on variables share: reading what their operands name, and storing what they give (LEGO MINDSTORMS NXT
//! Executable File Specification, "Instruction Set").
#![tactic(auto)]

pub mod lists;
pub mod operands;
pub mod reading;
pub mod storing;
