//! Tests of listings. What is due is worked out by hand from the form of the lines.
#![tactic(auto)]

#[cfg(test)]
mod files;
#[cfg(test)]
mod listed;
#[cfg(test)]
mod statements;
