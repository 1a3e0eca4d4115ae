//! The devices of the brick: motors, sensors, buttons, the battery, sound, random words and mailboxes (LEGO MINDSTORMS NXT
//! Executable File Specification; LEGO MINDSTORMS NXT Bluetooth Developer Kit, "Direct Commands"). A contract sees them
//! as the `Devices` of nxt_model. Whoever makes an `Io` gives it all its memory: after that only the growth of a report
//! takes some.
#![tactic(auto)]

mod button;
mod fields;
pub mod io;
mod mailbox;
mod motor;
mod sensor;
mod sound;

pub use io::Io;
pub use mailbox::MAILBOXES;
