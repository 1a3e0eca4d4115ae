// Sensors.

ghost use Rattle.std.specs.Prelude.{◌≡◌, ◌+◌, ◌≤◌, ◌++◌, length};
ghost use Rattle.nxt_model.specs.DirectCommands.{SetInput, GetInput, ResetScaled};
ghost use Rattle.nxt_direct.specs.Outcomes.{verdict, verdict_of, devices_after, more_of, outcome_anyway};

use crate::checks::{of_length, refuse_unless};
use crate::reply::Reply;
use crate::status::Status;
use crate::telegrams::Effect;
use nxt_io::Io;
use nxt_types::numbers::wrap;

/// How many input ports there are.
const INPUTS: u8 = 4;

// Properties of a sensor (LEGO MINDSTORMS NXT Executable File Specification, "Input Port Configuration Properties").

const TYPE: u8 = 0;

const MODE: u8 = 1;

const RAW: u8 = 2;

const NORMALIZED: u8 = 3;

const SCALED: u8 = 4;

const INVALID: u8 = 5;

/// SETINPUTMODE: stores the type and the mode of a sensor.
pub(crate) fn set_input(bytes: &[u8], io: &mut Io) -> Result<Effect, Status>
    ensures verdict { verdict result ≡ verdict_of (outcome_anyway SetInput bytes.now io.old) }
    ensures devices { io.new ≡ devices_after (outcome_anyway SetInput bytes.now io.old) io.old }
{
    of_length(bytes, 5)?;
    let port = bytes[2];
    refuse_unless(port < INPUTS, Status::BadPort)?;
    io.set_in(port, TYPE, i64::from(bytes[3]));
    io.set_in(port, MODE, i64::from(bytes[4]));
    Ok(Effect::Stay)
}

/// GETINPUTVALUES: the reply has the port, whether its reading is valid, 0 for "not calibrated", type, mode, the raw, the
/// normalized and the scaled value, and 0 for the calibrated value.
pub(crate) fn get_input(bytes: &[u8], io: &Io, reply: &mut Reply) -> Result<Effect, Status>
    requires { length reply.old ≤ 3 }
    ensures verdict { verdict result ≡ verdict_of (outcome_anyway GetInput bytes.now io.now) }
    ensures reply { reply.new ≡ reply.old ++ more_of (outcome_anyway GetInput bytes.now io.now) }
{
    of_length(bytes, 3)?;
    let port = bytes[2];
    refuse_unless(port < INPUTS, Status::BadPort)?;
    let valid = wrap(io.get_in(port, INVALID)) == 0;
    reply.byte(port);
    reply.byte(u8::from(valid));
    reply.byte(0);
    reply.number(1, io.get_in(port, TYPE));
    reply.number(1, io.get_in(port, MODE));
    reply.number(2, io.get_in(port, RAW));
    reply.number(2, io.get_in(port, NORMALIZED));
    reply.number(2, io.get_in(port, SCALED));
    reply.append(&[0, 0]);
    Ok(Effect::Stay)
}

/// RESETINPUTSCALEDVALUE: the scaled value of a sensor becomes 0.
pub(crate) fn reset_scaled(bytes: &[u8], io: &mut Io) -> Result<Effect, Status>
    ensures verdict { verdict result ≡ verdict_of (outcome_anyway ResetScaled bytes.now io.old) }
    ensures devices { io.new ≡ devices_after (outcome_anyway ResetScaled bytes.now io.old) io.old }
{
    of_length(bytes, 3)?;
    let port = bytes[2];
    refuse_unless(port < INPUTS, Status::BadPort)?;
    io.set_in(port, SCALED, 0);
    Ok(Effect::Stay)
}
