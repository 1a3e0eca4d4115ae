//! Tests of texts in NBC: the tokens that they are cut into, and the forms of their lines. What is due is worked out by hand
//! from the rules of the language.
#![tactic(auto)]

#[cfg(test)]
mod forms;
#[cfg(test)]
mod large;
#[cfg(test)]
mod reading;
#[cfg(test)]
mod refused;
#[cfg(test)]
mod spelling;
#[cfg(test)]
mod tokens;
#[cfg(test)]
mod wide;
