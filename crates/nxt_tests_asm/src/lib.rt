//! Tests that assemble and run texts in NBC by the tool. What is due is worked out by hand from the rules of the language, of
//! images and of the machine.
#![tactic(auto)]

#[cfg(test)]
mod commands;
#[cfg(test)]
mod dumps;
#[cfg(test)]
mod generated;
#[cfg(test)]
mod images;
#[cfg(test)]
mod refusals;
#[cfg(test)]
mod runs;
