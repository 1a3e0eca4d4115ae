// The flat forms of values.

ghost use Rattle.std.specs.Prelude.{◌≡◌, IfOk, IsSome};
ghost use Rattle.nxt_model.specs.Values.{flat as flat_form};
ghost use Rattle.nxt_space.specs.Variables.{name_of, value_of};
ghost use Rattle.nxt_operands.specs.Numbers.{AreNumbers, numbers_in};

use nxt_space::{Flat, Path, Space};
use nxt_types::NoMemory;
use std::alloc::Global;

/// The flat form of the value that begins at an entry.
pub fn flat_of(alloc: Global, space: &Space, i: u16) -> Result<Flat, NoMemory>
    requires { IsSome (name_of space.now.vars i) }
    ensures { IfOk result (λ flat. flat ≡ flat_form (value_of space.now.vars i)) }
{
    let mut flat = Flat::new(alloc);
    space.gather(&Path::whole(alloc, i), &mut flat)?;
    Ok(flat)
}

/// The numbers of a list of numbers.
pub fn numbers_of(alloc: Global, space: &Space, i: u16) -> Result<Flat, NoMemory>
    requires named { IsSome (name_of space.now.vars i) }
    requires list { AreNumbers (value_of space.now.vars i) }
    ensures { IfOk result (λ zs. zs ≡ numbers_in (value_of space.now.vars i)) }
{
    let flat = flat_of(alloc, space, i)?;
    let mut numbers = Flat::new(alloc);
    numbers.append(&flat.as_slice()[1..])?;
    Ok(numbers)
}
