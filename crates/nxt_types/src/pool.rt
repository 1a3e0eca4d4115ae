// The measures of the pool (Executable File Specification, "Dataspace", "Dope Vectors").

ghost use Rattle.std.specs.Prelude.{◌≡◌, ◌<◌, ◌+◌, ◌^◌};
ghost use Rattle.nxt_types.specs.Pool.{round4 as rounded};

/// The bytes of the pool.
pub const POOL_BYTES: u64 = 32_768;

/// The bytes of a row of the table of rows.
pub const ROW_BYTES: u64 = 10;

/// The least multiple of 4 that is at least `bytes`.
pub fn round4(bytes: u64) -> u64
    requires { bytes + 3 < 2 ^ 64 }
    ensures { result ≡ rounded bytes }
{
    (bytes + 3) / 4 * 4
}
