//! Tests that run programs which use devices: motors and sensors by port, system calls, mailboxes.
#![tactic(auto)]

#[cfg(test)]
mod calls;
#[cfg(test)]
mod messages;
#[cfg(test)]
mod ports;
#[cfg(test)]
mod running;
#[cfg(test)]
mod table;
