// The program that the brick runs.

ghost use Rattle.std.specs.Prelude.{◌≡◌, ◌≤◌, ◌++◌, length, if◌then◌else◌, Some, None, position, take_while, ◌==◌, not};
ghost use Rattle.std.specs.Option.{option_copied};
ghost use Rattle.nxt_model.specs.Devices.{Devices};
ghost use Rattle.nxt_model.specs.DirectCommands.{StartProgram, StopProgram, KeepAlive, ProgramName, has_zero};
ghost use Rattle.nxt_direct.specs.Outcomes.{verdict, verdict_of, more_of, outcome_anyway, outcome_anytime};

use crate::checks::{of_length, refuse_unless};
use crate::reply::Reply;
use crate::status::Status;
use crate::telegrams::Effect;

/// The name of the program that the brick holds.
const PROGRAM_NAME: &[u8] = b"program.rxe";

/// The bytes of a name in a telegram or a reply: at most 19, and a zero.
const NAME_BYTES: usize = 20;

/// How long the brick stays on, in ms.
const SLEEP_LIMIT: i64 = 600_000;

/// STARTPROGRAM: starts the program of a name. The name ends at a zero.
pub(crate) fn start_program(bytes: &[u8]) -> Result<Effect, Status>
    ensures { (d : Devices) → verdict result ≡ verdict_of (outcome_anyway StartProgram bytes.now d) }
{
    refuse_unless(
        3 <= bytes.len() && bytes.len() <= 2 + NAME_BYTES,
        Status::InsanePacket,
    )?;
    let name = name_in(&bytes[2..]).ok_or(Status::InsanePacket)?;
    refuse_unless(name == PROGRAM_NAME, Status::RequestFailed)?;
    Ok(Effect::Restart)
}

/// The bytes before the first zero, if there is one.
#[tactic(auto, using(crate::proofs::Names::has_zero_found))]
fn name_in(bytes: &[u8]) -> Option<&[u8]>
    ensures { option_copied result ≡ (if has_zero bytes.now then Some (take_while (λ b. not (b == 0)) bytes.now) else None) }
{
    let end = first_zero(bytes)?;
    Some(&bytes[..end])
}

fn first_zero(bytes: &[u8]) -> Option<usize>
    ensures { result ≡ position (λ b. b == 0) bytes.now }
{
    bytes.iter().position(|b| *b == 0)
}

/// STOPPROGRAM: stops the active program.
pub(crate) fn stop_program(bytes: &[u8], active: bool) -> Result<Effect, Status>
    ensures { (d : Devices) → verdict result ≡ verdict_of (outcome_anytime StopProgram bytes.now active d) }
{
    of_length(bytes, 2)?;
    refuse_unless(active, Status::NoActiveProgram)?;
    Ok(Effect::Halt)
}

/// GETCURRENTPROGRAMNAME: the reply has the name of the active program, with zeros behind it to 20 bytes.
pub(crate) fn program_name(bytes: &[u8], active: bool, reply: &mut Reply) -> Result<Effect, Status>
    requires { length reply.old ≤ 3 }
    ensures verdict { (d : Devices) → verdict result ≡ verdict_of (outcome_anytime ProgramName bytes.now active d) }
    ensures reply { (d : Devices) → reply.new ≡ reply.old ++ more_of (outcome_anytime ProgramName bytes.now active d) }
{
    of_length(bytes, 2)?;
    refuse_unless(active, Status::NoActiveProgram)?;
    reply.append_filled(NAME_BYTES, PROGRAM_NAME);
    Ok(Effect::Stay)
}

/// KEEPALIVE: the reply has the time that the brick stays on, in ms.
pub(crate) fn keep_alive(bytes: &[u8], reply: &mut Reply) -> Result<Effect, Status>
    requires { length reply.old ≤ 3 }
    ensures verdict { (d : Devices) → verdict result ≡ verdict_of (outcome_anyway KeepAlive bytes.now d) }
    ensures reply { (d : Devices) → reply.new ≡ reply.old ++ more_of (outcome_anyway KeepAlive bytes.now d) }
{
    of_length(bytes, 2)?;
    reply.number(4, SLEEP_LIMIT);
    Ok(Effect::Stay)
}
