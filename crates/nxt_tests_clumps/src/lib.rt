//! Tests that run programs of several clumps: dependents, turns, sleep, mutexes and subroutines.
#![tactic(auto)]

#[cfg(test)]
mod clock;
#[cfg(test)]
mod contention;
#[cfg(test)]
mod running;
#[cfg(test)]
mod worked;
