//! Tests of programs in NBC: what a text spells, and the rule that refuses it. What is due is worked out by hand from the
//! rules of the language.
#![tactic(auto)]

#[cfg(test)]
mod declarations;
#[cfg(test)]
mod faults;
#[cfg(test)]
mod large;
#[cfg(test)]
mod programs;
#[cfg(test)]
mod reading;
#[cfg(test)]
mod spelling;
