// Parts of variables.

ghost use Rattle.std.specs.Prelude.{◌≡◌, []};

use nxt_types::lists::Nums;
use std::alloc::Global;

/// A part of a variable: the entry at which the variable, or a member of it that stands outside of all elements, begins,
/// and the positions in lists that lead on from there, counted from 0.
#[derive(Drop)]
pub struct Path {
    pub var: u16,
    pub steps: Nums,
}

impl Path {
    /// The whole of what begins at an entry.
    pub fn whole(alloc: Global, var: u16) -> Path
        ensures { result ≡ record { var = var; steps = [] } }
    {
        Path {
            var,
            steps: Nums::new(alloc),
        }
    }
}
