//! The program of a text that keeps the rules of texts can be assembled. There is no code here.
#![tactic(auto)]
