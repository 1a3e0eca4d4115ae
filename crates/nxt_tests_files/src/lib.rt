//! Tests of files and their parts, and of what stands beside them. It holds nothing but tests, so that the crates below are
//! proved once.
#![tactic(auto)]

#[cfg(test)]
mod code;
#[cfg(test)]
mod dope;
#[cfg(test)]
mod edge;
#[cfg(test)]
mod files;
#[cfg(test)]
mod found;
#[cfg(test)]
mod instr;
#[cfg(test)]
mod layout;
#[cfg(test)]
mod lines;
#[cfg(test)]
mod rows;
