//! The code of an assembled program keeps the rules of code. There is no code here.
#![tactic(auto)]
