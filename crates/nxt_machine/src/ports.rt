// What a statement does to motors and sensors.

ghost use Rattle.std.specs.Prelude.{◌≡◌, ◌+◌, ◌<◌, ◌≤◌, ◌++◌, ◌==◌, ◌∷◌, [], ℕ, List, IsOk, IsSome, OnErr, OnOk, drop, length, map, min, true};
ghost use Rattle.nxt_types.specs.Arithmetic.{word};
ghost use Rattle.nxt_types.specs.OperandRules.{is_plain};
ghost use Rattle.nxt_types.specs.Shapes.{is_number};
ghost use Rattle.nxt_types.specs.Statements.{IsWhole, statement_of};
ghost use Rattle.nxt_model.specs.Devices.{set_in, get_in, get_out, motor_at, with_motor, update_flags};
ghost use Rattle.nxt_model.specs.Values.{Num, stored};
ghost use Rattle.nxt_space.specs.Keeping.{TableStays};
ghost use Rattle.nxt_space.specs.Variables.{AreSound, name_of, shape_of, with_value};
ghost use Rattle.nxt_machine.specs.Numbers.{number_at, with_pairs, flags_set, ports_at, is_among, set_motor_by, set_motors_by};

use crate::naming::number;
use crate::room::room_if;
use nxt_io::Io;
use nxt_model::line::Lines;
use nxt_operands::operands::is_number;
use nxt_operands::reading::numbers_of;
use nxt_space::{Flat, Space};
use nxt_types::NoMemory;
use nxt_types::instr::Instr;
use nxt_types::numbers::wrap;
use std::alloc::Global;

/// The ports of motors.
const PORTS: [u8; 3] = [0, 1, 2];

/// The property that holds a motor's update flags.
const UPDATE_FLAGS: u16 = 0;

/// A port that no device has.
const NO_PORT: u32 = 255;

/// Stores numbers in the properties of the motors that the first operand names, as the pairs of a statement tell, and has each
/// take over what was stored where its flags say so ("SETOUT"). An `Err` changes nothing. Where the operand is a number, whose
/// motor tells no line, it takes no memory.
pub(crate) fn set_output(
    alloc: Global,
    space: &Space,
    io: &mut Io,
    instr: &Instr,
    words: &[u16],
    out: &mut Lines,
) -> Result<(), NoMemory>
    requires whole { IsWhole words.now instr.now }
    requires sound { AreSound space.now.vars }
    requires named { IsSome (name_of space.now.vars instr.now.a) }
    requires plain { is_plain (shape_of space.now.vars instr.now.a) ≡ true }
    ensures devices { OnOk result (io.new ≡ (set_motors_by space.now.vars (ports_at space.now.vars instr.now.a) (drop 1 (statement_of instr.now words.now).args) io.old).devices) }
    ensures lines { OnOk result (out.new.lines ≡ out.old.lines ++ (set_motors_by space.now.vars (ports_at space.now.vars instr.now.a) (drop 1 (statement_of instr.now words.now).args) io.old).lines) }
    ensures same { OnErr result (io.new ≡ io.old) }
    ensures told { OnErr result (out.new.lines ≡ out.old.lines) }
    ensures silent { is_number (shape_of space.now.vars instr.now.a) ≡ true → (set_motors_by space.now.vars (ports_at space.now.vars instr.now.a) (drop 1 (statement_of instr.now words.now).args) io.old).lines ≡ [] → IsOk result }
{
    if is_number(space, instr.a) {
        return set_one(space, io, wrap(space.get(instr.a)), instr, words, out);
    }
    let ports = numbers_of(alloc, space, instr.a)?;
    set_several(space, io, &ports, instr, words, out)
}

// The same for the motor of a port, if there is one. Room for its line is made first; without it a motor is set that tells none.
fn set_one(
    space: &Space,
    io: &mut Io,
    port: u32,
    instr: &Instr,
    words: &[u16],
    out: &mut Lines,
) -> Result<(), NoMemory>
    requires whole { IsWhole words.now instr.now }
    ensures devices { OnOk result (io.new ≡ (set_motors_by space.now.vars (port ∷ []) (drop 1 (statement_of instr.now words.now).args) io.old).devices) }
    ensures lines { OnOk result (out.new.lines ≡ out.old.lines ++ (set_motors_by space.now.vars (port ∷ []) (drop 1 (statement_of instr.now words.now).args) io.old).lines) }
    ensures same { OnErr result (io.new ≡ io.old) }
    ensures told { OnErr result (out.new.lines ≡ out.old.lines) }
    ensures silent { (set_motors_by space.now.vars (port ∷ []) (drop 1 (statement_of instr.now words.now).args) io.old).lines ≡ [] → IsOk result }
{
    if port >= 3 {
        return Ok(());
    }
    let port = port as u8;
    if room_if(true, out).is_ok() {
        return set_motor(space, io, port, instr, words, out);
    }
    io.recall_sound();
    if flags_after(space, io, port, instr, words) != 0 {
        return Err(NoMemory);
    }
    set_motor(space, io, port, instr, words, out)
}

// The same for the motors of several ports. Room for all their lines is made first.
fn set_several(
    space: &Space,
    io: &mut Io,
    ports: &Flat,
    instr: &Instr,
    words: &[u16],
    out: &mut Lines,
) -> Result<(), NoMemory>
    requires whole { IsWhole words.now instr.now }
    ensures devices { OnOk result (io.new ≡ (set_motors_by space.now.vars (map word ports.now) (drop 1 (statement_of instr.now words.now).args) io.old).devices) }
    ensures lines { OnOk result (out.new.lines ≡ out.old.lines ++ (set_motors_by space.now.vars (map word ports.now) (drop 1 (statement_of instr.now words.now).args) io.old).lines) }
    ensures same { OnErr result (io.new ≡ io.old) }
    ensures told { OnErr result (out.new.lines ≡ out.old.lines) }
{
    out.reserve(PORTS.len())?;
    for port in PORTS {
        if !has(ports, port) {
            continue;
        }
        set_motor(space, io, port, instr, words, out)?;
    }
    Ok(())
}

// Whether a port is among several.
fn has(ports: &Flat, port: u8) -> bool
    ensures { result ≡ is_among (map word ports.now) port }
{
    ports.as_slice().iter().any(|n| wrap(*n) == u32::from(port))
}

// The same for one motor. It takes no memory where there is room for its line, or where its flags ask for none.
fn set_motor(
    space: &Space,
    io: &mut Io,
    port: u8,
    instr: &Instr,
    words: &[u16],
    out: &mut Lines,
) -> Result<(), NoMemory>
    requires whole { IsWhole words.now instr.now }
    requires port { port < 3 }
    ensures devices { OnOk result (io.new ≡ (set_motor_by space.now.vars (drop 1 (statement_of instr.now words.now).args) port io.old).devices) }
    ensures lines { OnOk result (out.new.lines ≡ out.old.lines ++ (set_motor_by space.now.vars (drop 1 (statement_of instr.now words.now).args) port io.old).lines) }
    ensures succeeds { 0 < out.old.room → IsOk result }
    ensures silent { update_flags (with_pairs space.now.vars (drop 1 (statement_of instr.now words.now).args) (motor_at port io.old)) ≡ 0 → IsOk result }
    ensures room { out.old.room ≤ out.new.room + 1 }
{
    io.recall_sound();
    store_pairs(space, io, port, instr, words);
    if io.flags(port) == 0 {
        return Ok(());
    }
    io.commit(port, out)
}

// Stores numbers in the properties of a motor.
fn store_pairs(space: &Space, io: &mut Io, port: u8, instr: &Instr, words: &[u16])
    requires whole { IsWhole words.now instr.now }
    requires port { port < 3 }
    ensures { io.new ≡ with_motor port (with_pairs space.now.vars (drop 1 (statement_of instr.now words.now).args) (motor_at port io.old)) io.old }
{
    io.recall_sound();
    let count = instr.operand_count(words);
    let mut k = 1;
    while k + 1 < count {
        let x = number(space, instr.operand(words, k + 1));
        io.set_out(port, property(instr.operand(words, k)), x);
        k += 2;
    }
}

// The update flags that a motor will have once numbers are stored in its properties.
fn flags_after(space: &Space, io: &Io, port: u8, instr: &Instr, words: &[u16]) -> u8
    requires whole { IsWhole words.now instr.now }
    requires port { port < 3 }
    ensures { result ≡ update_flags (with_pairs space.now.vars (drop 1 (statement_of instr.now words.now).args) (motor_at port io.now)) }
{
    io.recall_sound();
    let count = instr.operand_count(words);
    let mut flags = io.flags(port);
    let mut k = 1;
    while k + 1 < count {
        let x = number(space, instr.operand(words, k + 1));
        flags = flags_with(flags, instr.operand(words, k), x);
        k += 2;
    }
    flags
}

// The update flags once a number is stored in a property, which is cut to a byte where they are it.
fn flags_with(flags: u8, prop: u16, x: i64) -> u8
    ensures { result ≡ flags_set flags prop x }
{
    if prop == UPDATE_FLAGS {
        (wrap(x) % 0x100) as u8
    } else {
        flags
    }
}

/// Stores a number in a property of the sensor whose port the second operand holds ("SETIN").
pub(crate) fn set_input(space: &Space, io: &mut Io, instr: &Instr)
    ensures { io.new ≡ set_in (word (number_at space.now.vars instr.now.b)) instr.now.c (number_at space.now.vars instr.now.a) io.old }
{
    io.recall_sound();
    io.set_in(
        port_at(space, instr.b),
        property(instr.c),
        number(space, instr.a),
    );
}

/// Stores a property of the sensor whose port the second operand holds ("GETIN").
pub(crate) fn get_input(space: &mut Space, io: &Io, instr: &Instr)
    requires number { is_number (shape_of space.old.vars instr.now.a) ≡ true }
    requires property { instr.now.c < 256 }
    ensures value { space.new.vars ≡ record space.old.vars { values = with_value space.old.vars instr.now.a (stored (shape_of space.old.vars instr.now.a) (Num (get_in (word (number_at space.old.vars instr.now.b)) instr.now.c io.now))) } }
    ensures stays { TableStays space.old space.new }
{
    io.recall_sound();
    let x = io.get_in(port_at(space, instr.b), property(instr.c));
    space.set(instr.a, x);
}

/// Stores a property of the motor whose port the second operand holds ("GETOUT").
pub(crate) fn get_output(space: &mut Space, io: &Io, instr: &Instr)
    requires number { is_number (shape_of space.old.vars instr.now.a) ≡ true }
    requires property { instr.now.c < 256 }
    ensures value { space.new.vars ≡ record space.old.vars { values = with_value space.old.vars instr.now.a (stored (shape_of space.old.vars instr.now.a) (Num (get_out (word (number_at space.old.vars instr.now.b)) instr.now.c io.now))) } }
    ensures stays { TableStays space.old space.new }
{
    io.recall_sound();
    let x = io.get_out(port_at(space, instr.b), property(instr.c));
    space.set(instr.a, x);
}

// The port that a word names; one that no device has stands for all of these.
fn port_at(space: &Space, w: u16) -> u8
    ensures { result ≡ min (word (number_at space.now.vars w)) 255 }
{
    wrap(number(space, w)).min(NO_PORT) as u8
}

// The number of a property; one that no device has stands for all of these.
fn property(w: u16) -> u8
    ensures { result ≡ min w 255 }
{
    w.min(0xFF) as u8
}
