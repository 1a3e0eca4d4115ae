//! Decodes and encodes statements, over one definition of the words that spell each ("LEGO MINDSTORMS NXT Executable File
//! Specification", "Bytecode Instructions" and "Short Instruction Encodings").
#![tactic(auto)]

mod decoding;
mod encoding;

pub use decoding::{InstrFault, decode};
pub use encoding::encode;
