//! The direct commands of the brick: what a telegram tests, does and replies (LEGO MINDSTORMS NXT Bluetooth Developer Kit,
//! Appendix 2, "Direct Commands"). A telegram has its effect on the devices, tells its lines, and answers what becomes of
//! the program and which bytes the sender gets. One that breaks a test gets a status for a reply, and changes nothing.
#![tactic(auto)]

mod battery;
mod checks;
mod command;
mod fields;
mod inputs;
mod messages;
mod outputs;
mod program;
mod reply;
mod sound;
mod status;
pub mod telegrams;

pub use telegrams::{Answer, Effect, telegram};
