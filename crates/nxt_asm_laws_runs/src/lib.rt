//! An assembled text runs as the text. There is no code here.
#![tactic(auto)]
