// The members of clusters that stand in the heap.

ghost use Rattle.std.specs.Prelude.{◌≡◌, ◌+◌, ◌^◌, ◌<◌, map, MatchOption};
ghost use Rattle.nxt_types.specs.Shapes.{Cluster, no_members, tree, members};
ghost use Rattle.nxt_types.specs.Names.{size, sizes};

use crate::reading::{Place, size_of};
use nxt_types::shape::{Shape, Shapes};

/// The members of a cluster that are still ahead: their shapes, and where the first of them stands.
#[derive(Drop)]
pub struct Members<'s> {
    shapes: &'s [Shape],
    first: Place,
    ghost entries: { first.entry + sizes (members (map tree shapes.now)) < 2 ^ 16 },
}

impl<'s> Members<'s> {
    ghost use Rattle.nxt_values.specs.Ahead.{ahead, behind, IsNext};

    /// Those that stand one behind another, the first of them there.
    pub fn from_first(shapes: &'s [Shape], first: Place) -> Members<'s>
        requires { first.entry + sizes (members (map tree shapes.now)) < 2 ^ 16 }
        ensures shapes { ahead result ≡ members (map tree shapes.now) }
        ensures first { result.first ≡ first }
    {
        Members { shapes, first }
    }

    /// Those of the cluster that stands there.
    pub fn of(group: &'s Shapes, at: Place) -> Members<'s>
        requires { at.entry + size (tree (Shape.Group group.now)) < 2 ^ 16 }
        ensures shapes { tree (Shape.Group group.now) ≡ Cluster (ahead result) }
        ensures first { result.first ≡ behind at 1 }
    {
        let first = Place {
            entry: at.entry + 1,
            ..at
        };
        Members::from_first(group.items.as_slice(), first)
    }

    /// The next one, and where it stands.
    pub fn next(&mut self) -> Option<(&'s Shape, Place)>
        ensures { MatchOption result (ahead self.old ≡ no_members) (λ r. IsNext self.old (tree r.0.now) r.1 self.new) }
    {
        let (shape, rest) = self.shapes.split_first()?;
        let place = self.first;
        let first = Place {
            entry: place.entry + size_of(shape),
            ..place
        };
        *self = Members {
            shapes: rest,
            first,
        };
        Some((shape, place))
    }
}
