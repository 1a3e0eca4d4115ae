// Clusters of numbers, which are copied member by member.

ghost use Rattle.std.specs.Prelude.{◌≡◌, true, false, IfSome, IsSome, Ok};
ghost use Rattle.nxt_types.specs.Shapes.{convertible};
ghost use Rattle.nxt_model.specs.Values.{stored};
ghost use Rattle.nxt_operands.specs.Operands.{Done};
ghost use Rattle.nxt_space.specs.Keeping.{TableStays};
ghost use Rattle.nxt_space.specs.Outcomes.{Does};
ghost use Rattle.nxt_space.specs.Variables.{AreSound, name_of, shape_of, value_of, with_value};
ghost use Rattle.nxt_ops.specs.Clusters.{HasNumbers};

use nxt_space::Space;
use nxt_types::shape::Shape;

/// Copies the numbers of a cluster to those of another one, where it has numbers alone. It takes no memory. `false` where it is
/// another value, and then nothing has changed.
pub fn copy_numbers(space: &mut Space, dest: u16, source: u16) -> bool
    requires sound { AreSound space.old.vars }
    requires dest { IsSome (name_of space.old.vars dest) }
    requires source { IsSome (name_of space.old.vars source) }
    requires fit { convertible (shape_of space.old.vars dest) (shape_of space.old.vars source) ≡ true }
    ensures copied { result ≡ true → Does Done (with_value space.old.vars dest (stored (shape_of space.old.vars dest) (value_of space.old.vars source))) space.old (Ok tt) space.new }
    ensures same { result ≡ false → space.new ≡ space.old }
    ensures stays { TableStays space.old space.new }
{
    let Some(count) = number_count(space, dest) else {
        return false;
    };
    for k in 0..count {
        let number = space.get(source + 1 + k);
        space.set(dest + 1 + k, number);
    }
    space.recall_sound();
    true
}

// How many members a cluster has, where all of them are numbers.
fn number_count(space: &Space, i: u16) -> Option<u16>
    requires sound { AreSound space.now.vars }
    requires named { IsSome (name_of space.now.vars i) }
    ensures { IfSome result (HasNumbers (shape_of space.now.vars i)) }
{
    let Some(Shape::Group(members)) = space.shape(i) else {
        return None;
    };
    let members = members.items.as_slice();
    for shape in members {
        if !matches!(shape, Shape::Num(_)) {
            return None;
        }
    }
    u16::try_from(members.len()).ok()
}
