//! Tests that run the commands of the tool.
#![tactic(auto)]

#[cfg(test)]
mod tool;
