// The battery.

ghost use Rattle.std.specs.Prelude.{◌≡◌, ◌+◌, ◌≤◌, ◌++◌, length};
ghost use Rattle.nxt_model.specs.DirectCommands.{GetBattery};
ghost use Rattle.nxt_direct.specs.Outcomes.{verdict, verdict_of, more_of, outcome_anyway};

use crate::checks::of_length;
use crate::reply::Reply;
use crate::status::Status;
use crate::telegrams::Effect;
use nxt_io::Io;

/// GETBATTERYLEVEL: the reply has the battery's voltage, in mV.
pub(crate) fn get_battery(bytes: &[u8], io: &Io, reply: &mut Reply) -> Result<Effect, Status>
    requires { length reply.old ≤ 3 }
    ensures verdict { verdict result ≡ verdict_of (outcome_anyway GetBattery bytes.now io.now) }
    ensures reply { reply.new ≡ reply.old ++ more_of (outcome_anyway GetBattery bytes.now io.now) }
{
    of_length(bytes, 2)?;
    reply.number(2, i64::from(io.battery()));
    Ok(Effect::Stay)
}
