// Numbers, cut to the kind of the property that they are stored in.

ghost use Rattle.std.specs.Prelude.{◌≡◌, pos};
ghost use Rattle.nxt_types.specs.Arithmetic.{cut as cut_to};

use nxt_types::kind::Kind;
use nxt_types::numbers::{cut, wrap};

pub(crate) fn byte(x: i64) -> u8
    ensures { pos result ≡ cut_to Kind.Ubyte x }
{
    (wrap(x) % 0x100) as u8
}

pub(crate) fn signed_byte(x: i64) -> i8
    ensures { result ≡ cut_to Kind.Sbyte x }
{
    cut(Kind::Sbyte, x) as i8
}

pub(crate) fn signed_half(x: i64) -> i16
    ensures { result ≡ cut_to Kind.Sword x }
{
    cut(Kind::Sword, x) as i16
}

pub(crate) fn long(x: i64) -> u32
    ensures { pos result ≡ cut_to Kind.Ulong x }
{
    wrap(x)
}
