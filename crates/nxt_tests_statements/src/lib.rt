//! Tests that run statements on variables.
#![tactic(auto)]

#[cfg(test)]
mod statements;
