// Motors.

ghost use Rattle.std.specs.Prelude.{◌≡◌, ◌+◌, ◌<◌, ◌≤◌, ◌++◌, ◌==◌, ◌||◌, nat_lt, length};
ghost use Rattle.nxt_model.specs.Devices.{each_port, commit};
ghost use Rattle.nxt_model.specs.DirectCommands.{SetOutput, GetOutput, ResetMotor, output_set, ports_of, is_percent};
ghost use Rattle.nxt_direct.specs.Outcomes.{verdict, verdict_of, devices_after, lines_of, more_of, outcome_anyway};

use crate::checks::{of_length, refuse_unless};
use crate::fields::{i8_at, u32_at};
use crate::reply::Reply;
use crate::status::Status;
use crate::telegrams::Effect;
use nxt_io::Io;
use nxt_model::line::Lines;

/// How many output ports there are.
const OUTPUTS: u8 = 3;

/// The port byte that stands for all of them.
const ALL_PORTS: u8 = 0xFF;

// Properties of a motor (LEGO MINDSTORMS NXT Executable File Specification, "Output Port Configuration Properties").

const MODE: u8 = 1;

const POWER: u8 = 2;

const TACHO_COUNT: u8 = 4;

const TACHO_LIMIT: u8 = 5;

const RUN_STATE: u8 = 6;

const TURN_RATIO: u8 = 7;

const REGULATION_MODE: u8 = 8;

const BLOCK_TACHO_COUNT: u8 = 13;

const ROTATION_COUNT: u8 = 14;

/// SETOUTPUTSTATE: stores power, mode, regulation mode, turn ratio, run state and tacho limit of a motor, or of all three,
/// and lets them take effect. A thirteenth byte is not read.
pub(crate) fn set_output(bytes: &[u8], io: &mut Io, out: &mut Lines) -> Result<Effect, Status>
    requires { 3 ≤ out.old.room }
    ensures verdict { verdict result ≡ verdict_of (outcome_anyway SetOutput bytes.now io.old) }
    ensures devices { io.new ≡ devices_after (outcome_anyway SetOutput bytes.now io.old) io.old }
    ensures lines { out.new.lines ≡ out.old.lines ++ lines_of (outcome_anyway SetOutput bytes.now io.old) }
    ensures room { out.old.room ≤ out.new.room + 3 }
{
    refuse_unless(is_output_length(bytes.len()), Status::InsanePacket)?;
    let port = bytes[2];
    refuse_unless(names_outputs(port), Status::BadPort)?;
    refuse_unless(is_percent(i8_at(bytes, 3)), Status::OutOfRange)?;
    refuse_unless(is_percent(i8_at(bytes, 6)), Status::OutOfRange)?;
    set_named_ports(bytes, port, io, out);
    Ok(Effect::Stay)
}

/// A telegram that sets an output has 12 bytes, or one more.
fn is_output_length(n: usize) -> bool
    ensures { result ≡ (n == 12 || n == 13) }
{
    n == 12 || n == 13
}

/// A port byte names one port, or all.
fn names_outputs(port: u8) -> bool
    ensures { result ≡ (nat_lt port 3 || port == 255) }
{
    port < OUTPUTS || port == ALL_PORTS
}

fn is_percent(number: i8) -> bool
    ensures { result ≡ is_percent number }
{
    -100 <= number && number <= 100
}

/// Stores a telegram's fields at each port that a port byte names, and lets them take effect there.
fn set_named_ports(bytes: &[u8], port: u8, io: &mut Io, out: &mut Lines)
    requires bytes { 12 ≤ length bytes.now }
    requires room { 3 ≤ out.old.room }
    ensures devices { io.new ≡ (each_port (ports_of port) (λ p now. commit p (output_set bytes.now p now)) io.old).devices }
    ensures lines { out.new.lines ≡ out.old.lines ++ (each_port (ports_of port) (λ p now. commit p (output_set bytes.now p now)) io.old).lines }
    ensures room { out.old.room ≤ out.new.room + 3 }
{
    if port == ALL_PORTS {
        set_ports(bytes, &[0, 1, 2], io, out);
    } else {
        set_ports(bytes, &[port], io, out);
    }
}

/// Stores a telegram's fields at each of some ports, and lets them take effect there.
fn set_ports(bytes: &[u8], ports: &[u8], io: &mut Io, out: &mut Lines)
    requires bytes { 12 ≤ length bytes.now }
    requires room { length ports.now ≤ out.old.room }
    ensures devices { io.new ≡ (each_port ports.now (λ p now. commit p (output_set bytes.now p now)) io.old).devices }
    ensures lines { out.new.lines ≡ out.old.lines ++ (each_port ports.now (λ p now. commit p (output_set bytes.now p now)) io.old).lines }
    ensures room { out.old.room ≤ out.new.room + length ports.now }
{
    for port in ports {
        store_fields(bytes, *port, io);
        io.commit(*port, out).unwrap();
    }
}

/// Stores a telegram's fields at a port.
fn store_fields(bytes: &[u8], port: u8, io: &mut Io)
    requires { 12 ≤ length bytes.now }
    ensures { io.new ≡ output_set bytes.now port io.old }
{
    io.set_out(port, TACHO_LIMIT, i64::from(u32_at(bytes, 8)));
    io.set_out(port, RUN_STATE, i64::from(bytes[7]));
    io.set_out(port, TURN_RATIO, i64::from(i8_at(bytes, 6)));
    io.set_out(port, REGULATION_MODE, i64::from(bytes[5]));
    io.set_out(port, MODE, i64::from(bytes[4]));
    io.set_out(port, POWER, i64::from(i8_at(bytes, 3)));
}

/// GETOUTPUTSTATE: the reply has the port, power, mode, regulation mode, turn ratio, run state, tacho limit, tacho count,
/// block tacho count and rotation count of a motor.
pub(crate) fn get_output(bytes: &[u8], io: &Io, reply: &mut Reply) -> Result<Effect, Status>
    requires { length reply.old ≤ 3 }
    ensures verdict { verdict result ≡ verdict_of (outcome_anyway GetOutput bytes.now io.now) }
    ensures reply { reply.new ≡ reply.old ++ more_of (outcome_anyway GetOutput bytes.now io.now) }
{
    of_length(bytes, 3)?;
    let port = bytes[2];
    refuse_unless(port < OUTPUTS, Status::BadPort)?;
    reply.byte(port);
    reply.number(1, io.get_out(port, POWER));
    reply.number(1, io.get_out(port, MODE));
    reply.number(1, io.get_out(port, REGULATION_MODE));
    reply.number(1, io.get_out(port, TURN_RATIO));
    reply.number(1, io.get_out(port, RUN_STATE));
    reply.number(4, io.get_out(port, TACHO_LIMIT));
    reply.number(4, io.get_out(port, TACHO_COUNT));
    reply.number(4, io.get_out(port, BLOCK_TACHO_COUNT));
    reply.number(4, io.get_out(port, ROTATION_COUNT));
    Ok(Effect::Stay)
}

/// RESETMOTORPOSITION: the position of a motor becomes 0, that relative to the last movement or the absolute one.
pub(crate) fn reset_motor(bytes: &[u8], io: &mut Io) -> Result<Effect, Status>
    ensures verdict { verdict result ≡ verdict_of (outcome_anyway ResetMotor bytes.now io.old) }
    ensures devices { io.new ≡ devices_after (outcome_anyway ResetMotor bytes.now io.old) io.old }
{
    of_length(bytes, 4)?;
    let port = bytes[2];
    refuse_unless(port < OUTPUTS, Status::BadPort)?;
    io.reset_count(port, bytes[3] != 0);
    Ok(Effect::Stay)
}
