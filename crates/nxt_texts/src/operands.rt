// Destinations that may be left out.

ghost use Rattle.std.specs.Prelude.{◌≡◌, ◌==◌, true, false};
ghost use Rattle.nxt_types.specs.Shapes.{is_number};
ghost use Rattle.nxt_space.specs.Keeping.{TableStays};
ghost use Rattle.nxt_space.specs.Variables.{shape_of};
ghost use Rattle.nxt_texts.specs.Numerals.{with_number};

use nxt_space::Space;
use nxt_types::words::LEFT_OUT;

/// Stores a number, cut to its kind, where the operand isn't left out.
pub fn set_unless_left_out(space: &mut Space, i: u16, number: i64)
    requires { (i == 0xFFFF) ≡ false → is_number (shape_of space.old.vars i) ≡ true }
    ensures value { space.new.vars ≡ with_number space.old.vars i number }
    ensures stays { TableStays space.old space.new }
{
    if i != LEFT_OUT {
        space.set(i, number);
    }
}
