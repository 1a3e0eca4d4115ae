//! The parts of an assembled text keep the rules of the table, of the rows and of the pool. There is no code here.
#![tactic(auto)]
