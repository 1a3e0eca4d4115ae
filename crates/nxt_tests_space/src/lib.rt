//! Tests of the variables in the pool.
#![tactic(auto)]

#[cfg(test)]
mod space;
