//! Tests of machines whose host refuses memory. Here the host has enough; `rt try --test --fail-alloc N` refuses one allocation.
#![tactic(auto)]

#[cfg(test)]
mod refused;
