//! Tests of the heap. Where each block has to stand after a step is told by a plain model, which sorts the blocks by their
//! places.
#![tactic(auto)]

#[cfg(test)]
mod by_hand;
#[cfg(test)]
mod calls;
#[cfg(test)]
mod cases;
#[cfg(test)]
mod compare;
#[cfg(test)]
mod due;
#[cfg(test)]
mod empty_lists;
#[cfg(test)]
mod full;
#[cfg(test)]
mod holes;
#[cfg(test)]
mod large;
#[cfg(test)]
mod lists;
#[cfg(test)]
mod longer_lists;
#[cfg(test)]
mod moves;
#[cfg(test)]
mod sliding;
#[cfg(test)]
mod staying;
#[cfg(test)]
mod tables;
#[cfg(test)]
mod trial;
