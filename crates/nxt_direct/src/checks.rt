// Tests that a command makes before it does anything.

ghost use Rattle.std.specs.Prelude.{◌≡◌, ◌≢◌, length, true, false, OnOk, OnErr, IfErr};

use crate::status::Status;

/// Refuses a telegram that has not n bytes.
pub(crate) fn of_length(bytes: &[u8], n: usize) -> Result<(), Status>
    ensures ok { OnOk result (length bytes.now ≡ n) }
    ensures wrong { OnErr result (length bytes.now ≢ n) }
    ensures status { IfErr result (λ s. s ≡ Status.InsanePacket) }
{
    refuse_unless(bytes.len() == n, Status::InsanePacket)
}

/// Refuses by a status where a test fails.
pub(crate) fn refuse_unless(test: bool, status: Status) -> Result<(), Status>
    ensures ok { OnOk result (test ≡ true) }
    ensures fails { OnErr result (test ≡ false) }
    ensures status { IfErr result (λ s. s ≡ status) }
{
    if test { Ok(()) } else { Err(status) }
}
