// What numbers spell is stored, where the pool has room for it.

ghost use Rattle.std.specs.Prelude.{◌∷◌, [], ◌≡◌, ◌≤◌, OnOk, IfErr, Err, IsSome};
ghost use Rattle.nxt_types.specs.Pool.{pool_size};
ghost use Rattle.nxt_model.specs.Values.{Value};
ghost use Rattle.nxt_values.specs.Fills.{filled};
ghost use Rattle.nxt_space.specs.Keeping.{Leaves};
ghost use Rattle.nxt_space.specs.Outcomes.{Does};
ghost use Rattle.nxt_values.specs.Sizes.{IsCountable, size_in, size_of_filled};
ghost use Rattle.nxt_space.specs.Variables.{AreSound, name_of, shape_of, with_value, with_values, footprint_of};
ghost use Rattle.nxt_operands.specs.Operands.{Done, with_list};

use crate::operands::stride_at;
use nxt_space::{Flat, OpFault, Size, Space};

/// Whether the pool has room for a list of `count` elements, whose lists and bytes are those of `elements`, in a variable.
pub fn check_room(space: &Space, dest: u16, count: u64, elements: Size) -> Result<(), OpFault>
    requires sound { AreSound space.now.vars }
    requires named { IsSome (name_of space.now.vars dest) }
    requires countable { IsCountable (with_list (shape_of space.now.vars dest) count elements) }
    ensures room { (v : Value) → with_list (shape_of space.now.vars dest) count elements ≡ size_in (shape_of space.now.vars dest) v → OnOk result (footprint_of (with_values (with_value space.now.vars dest v) space.now.vars) ≤ pool_size) }
    ensures refused { (v : Value) → with_list (shape_of space.now.vars dest) count elements ≡ size_in (shape_of space.now.vars dest) v → IfErr result (λ fault. Does Done (with_value space.now.vars dest v) space.now (Err fault) space.now) }
{
    let size = elements.in_list(count, stride_at(space, dest));
    space.room(dest, size.bytes, size.lists)?;
    Ok(())
}

/// Stores the value that the numbers begin with, each cut to its kind.
pub fn store(space: &mut Space, dest: u16, flat: &Flat) -> Result<(), OpFault>
    requires named { IsSome (name_of space.old.vars dest) }
    requires countable { IsCountable (size_of_filled (shape_of space.old.vars dest) flat.now) }
    ensures does { Does Done (with_value space.old.vars dest (filled (shape_of space.old.vars dest) flat.now).0) space.old result space.new }
    ensures leaves { Leaves (dest ∷ []) space.old space.new }
{
    space.store(dest, flat)?;
    Ok(())
}
