// Telegrams: the bytes of direct commands, as they come.

ghost use Rattle.std.specs.Prelude.{◌≡◌, ◌+◌, ◌≤◌, ◌++◌, length, IfOk, OnOk, OnErr};
ghost use Rattle.nxt_model.specs.DirectCommands.{direct};
ghost use Rattle.nxt_direct.specs.Answers.{IsAnswer};
ghost use Rattle.nxt_direct.specs.Outcomes.{verdict, verdict_of, devices_after, lines_of, more_of, outcome_asked};

use crate::battery::get_battery;
use crate::command::Command;
use crate::inputs::{get_input, reset_scaled, set_input};
use crate::messages::{read_message, write_message};
use crate::outputs::{get_output, reset_motor, set_output};
use crate::program::{keep_alive, program_name, start_program, stop_program};
use crate::reply::Reply;
use crate::sound::{play_tone, stop_sound};
use crate::status::Status;
use nxt_io::Io;
use nxt_model::line::Lines;
use nxt_types::NoMemory;
use nxt_types::lists::Bytes;
use std::alloc::Global;

/// The first byte of a telegram whose sender wants a reply.
const WITH_REPLY: u8 = 0x00;

/// The first byte of one whose sender wants none.
const WITHOUT_REPLY: u8 = 0x80;

/// The most lines that a telegram tells: one for each motor.
const MOST_LINES: usize = 3;

/// The lines that may follow them: that the program stopped, and the reply.
const LINES_BEHIND: usize = 2;

/// What a telegram does to the program.
#[derive(Clone, Copy, PartialEq, Eq, Debug)]
pub enum Effect {
    /// Nothing.
    Stay,
    /// It starts, from its beginning.
    Restart,
    /// It stops.
    Halt,
}

/// What a telegram gives beside its lines: its effect on the program, and the bytes of its reply, if it wants one.
#[derive(Drop)]
pub struct Answer {
    pub effect: Effect,
    pub reply: Option<Bytes>,
}

/// Does what a telegram asks for, at a moment in ms, where a program is active or not. Room is left for two more lines: that
/// the program stopped, and the reply. An `Err` changes nothing.
pub fn telegram(
    alloc: Global,
    bytes: &[u8],
    active: bool,
    clock: u64,
    io: &mut Io,
    out: &mut Lines,
) -> Result<Answer, NoMemory>
    ensures answer { IfOk result (λ a. IsAnswer a (direct bytes.now active clock io.old)) }
    ensures devices { OnOk result (io.new ≡ (direct bytes.now active clock io.old).devices) }
    ensures lines { OnOk result (out.new.lines ≡ out.old.lines ++ (direct bytes.now active clock io.old).lines) }
    ensures room { OnOk result (2 ≤ out.new.room) }
    ensures same { OnErr result (io.new ≡ io.old) }
    ensures told { OnErr result (out.new.lines ≡ out.old.lines) }
{
    out.reserve(MOST_LINES + LINES_BEHIND)?;
    if bytes.len() < 2 || (bytes[0] != WITH_REPLY && bytes[0] != WITHOUT_REPLY) {
        return Ok(Answer {
            effect: Effect::Stay,
            reply: None,
        });
    }
    let mut reply = Reply::new(alloc, bytes[1])?;
    let effect = match obey(bytes, active, clock, io, out, &mut reply) {
        Ok(effect) => effect,
        Err(status) => {
            reply.refuse(status);
            Effect::Stay
        }
    };
    if bytes[0] == WITH_REPLY {
        Ok(Answer {
            effect,
            reply: Some(reply.into_bytes()),
        })
    } else {
        Ok(Answer {
            effect,
            reply: None,
        })
    }
}

/// Does a telegram's command, and adds what it wants to know to the reply. A command that is refused changes nothing.
fn obey(
    bytes: &[u8],
    active: bool,
    clock: u64,
    io: &mut Io,
    out: &mut Lines,
    reply: &mut Reply,
) -> Result<Effect, Status>
    requires bytes { 2 ≤ length bytes.now }
    requires room { 3 ≤ out.old.room }
    requires reply { length reply.old ≤ 3 }
    ensures verdict { verdict result ≡ verdict_of (outcome_asked bytes.now active clock io.old) }
    ensures devices { io.new ≡ devices_after (outcome_asked bytes.now active clock io.old) io.old }
    ensures lines { out.new.lines ≡ out.old.lines ++ lines_of (outcome_asked bytes.now active clock io.old) }
    ensures room { out.old.room ≤ out.new.room + 3 }
    ensures reply { reply.new ≡ reply.old ++ more_of (outcome_asked bytes.now active clock io.old) }
{
    match Command::from_number(bytes[1]).ok_or(Status::UnknownCommand)? {
        Command::StartProgram => start_program(bytes),
        Command::StopProgram => stop_program(bytes, active),
        Command::PlayTone => play_tone(bytes, clock, io, out),
        Command::SetOutput => set_output(bytes, io, out),
        Command::SetInput => set_input(bytes, io),
        Command::GetOutput => get_output(bytes, io, reply),
        Command::GetInput => get_input(bytes, io, reply),
        Command::ResetScaled => reset_scaled(bytes, io),
        Command::WriteMessage => write_message(bytes, active, io),
        Command::ResetMotor => reset_motor(bytes, io),
        Command::GetBattery => get_battery(bytes, io, reply),
        Command::StopSound => stop_sound(bytes, io, out),
        Command::KeepAlive => keep_alive(bytes, reply),
        Command::ProgramName => program_name(bytes, active, reply),
        Command::ReadMessage => read_message(bytes, active, io, reply),
    }
}
