//! Tests of direct commands: telegrams, what they do to the program, the lines that they tell, and their replies. The bytes
//! are worked out by hand from the tables of the commands.
#![tactic(auto)]

#[cfg(test)]
mod battery;
#[cfg(test)]
mod inputs;
#[cfg(test)]
mod messages;
#[cfg(test)]
mod outputs;
#[cfg(test)]
mod program;
#[cfg(test)]
mod sound;
#[cfg(test)]
mod telling;
#[cfg(test)]
mod worked;
