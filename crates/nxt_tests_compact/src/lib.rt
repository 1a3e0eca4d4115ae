//! Tests of compaction, and of room that opens for a block. Pools are built by hand, and where each block has to stand is
//! worked out by a walk over the blocks from the lowest to the highest.
#![tactic(auto)]

#[cfg(test)]
mod cases;
#[cfg(test)]
mod compaction;
#[cfg(test)]
mod due;
#[cfg(test)]
mod large;
#[cfg(test)]
mod opening;
#[cfg(test)]
mod pools;
#[cfg(test)]
mod sound;
