// The numbers in a telegram, low byte first.

ghost use Rattle.std.specs.Prelude.{◌≡◌, ◌+◌, ◌<◌, ◌≤◌, length};
ghost use Rattle.nxt_types.specs.Bytes.{u16_at};
ghost use Rattle.nxt_model.specs.DirectCommands.{u32_at, i8_at};

pub(crate) fn u16_at(bytes: &[u8], at: usize) -> u16
    requires { at + 2 ≤ length bytes.now }
    ensures { result ≡ u16_at bytes.now at }
{
    u16::from_le_bytes([bytes[at], bytes[at + 1]])
}

pub(crate) fn u32_at(bytes: &[u8], at: usize) -> u32
    requires { at + 4 ≤ length bytes.now }
    ensures { result ≡ u32_at at bytes.now }
{
    u32::from_le_bytes([bytes[at], bytes[at + 1], bytes[at + 2], bytes[at + 3]])
}

pub(crate) fn i8_at(bytes: &[u8], at: usize) -> i8
    requires { at < length bytes.now }
    ensures { result ≡ i8_at at bytes.now }
{
    bytes[at].cast_signed()
}
