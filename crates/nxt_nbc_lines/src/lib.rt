//! The texts of programs in NBC: a text is cut into its tokens by `lex` (NBC Programmer's Guide, "Lexical Rules"), and
//! `forms_of` gives the form of each line (NBC Programmer's Guide, "Program Structure").
#![tactic(auto)]

mod bytes;
mod declarations;
mod fault;
mod form;
mod forms;
mod lexer;
mod opened;
mod pieces;
mod places;
mod statements;
mod terms;
mod token;
mod words;

pub use fault::NbcFault;
pub use form::{Form, Given, TypeName};
pub use forms::{Formed, LineForm, forms_of};
pub use lexer::{LONGEST_TEXT, lex};
pub use terms::{Names, Term, Terms};
pub use token::{Token, Tokens};
