// The file of a program: its bytes, and its parts (LEGO MINDSTORMS NXT Executable File Specification).
//
// `read_rxe` takes a file apart, or tells the first rule that its sections break. `write_rxe` puts it together again.
// What a file is stands in specs/Files, and when it is refused in specs/FileRules.
#![tactic(auto)]

pub mod fault;
pub mod file;
mod head;
pub mod parts;
mod records;
mod sections;

pub use fault::RxeFault;
pub use file::{read_rxe, write_rxe};
pub use parts::{CodeSections, Header, Parts};
