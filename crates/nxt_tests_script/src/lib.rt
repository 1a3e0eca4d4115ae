//! Tests of scripts: the rows that bytes spell, and how each script ends. What is due is worked out by hand from the forms of
//! the rows.
#![tactic(auto)]

#[cfg(test)]
mod ends;
#[cfg(test)]
mod limits;
#[cfg(test)]
mod pieces;
#[cfg(test)]
mod reading;
#[cfg(test)]
mod rows;
