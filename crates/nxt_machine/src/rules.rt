// What a statement does to clumps.

ghost use Rattle.std.specs.Prelude.{◌≡◌, ◌<◌, ◌≤◌, ◌^◌, ℕ, slice_get, Some, IsSome};
ghost use Rattle.std.specs.Result.{result_err};
ghost use Rattle.nxt_types.specs.Statements.{statement_of};
ghost use Rattle.nxt_model.specs.Clumps.{wait};
ghost use Rattle.nxt_types.specs.declared.instr.Op.TheVariants as op;
ghost use Rattle.nxt_space.specs.Keeping.{TableStays};
ghost use Rattle.nxt_clumps.specs.Clumps.{head};
ghost use Rattle.nxt_machine.specs.Inside.Programs.{IsProgram, AreClumpsOf, image_in};
ghost use Rattle.nxt_machine.specs.Inside.Statements.{IsRuled, GoesOn, end_of as end_for};
ghost use Rattle.nxt_machine.specs.Inside.Stopping.{may_stop as may_stop_by};

use crate::naming::{number, stops};
use crate::program::Program;
use crate::statement::Outcome;
use nxt_clumps::Clumps;
use nxt_code::StatementAt;
use nxt_model::line::Stop;
use nxt_space::Space;
use nxt_types::instr::{Instr, Op};
use nxt_types::numbers::wrap;

// Does to clumps what a statement of the clump that runs says. An `Err` is the reason for which the program stops there.
fn rule(
    program: &mut Program,
    clumps: &mut Clumps,
    clock: u64,
    h: u8,
    i: &Instr,
) -> Result<(), Stop>
    requires program { IsProgram program.old }
    requires clumps { AreClumpsOf program.old clumps.old }
    requires head { slice_get clumps.old.state.queue 0 ≡ Some h }
    requires clock { clock ≤ 2 ^ 62 }
    requires at { (k word : ℕ) × slice_get program.old.code.decoded.placed.items k ≡ Some (record { word = word; instr = i.now }) }
    ensures ruled { IsRuled clock h (statement_of i.now program.old.code.words) program.old.space.vars program.new.space.vars clumps.old clumps.new (result_err result) }
    ensures program { IsProgram program.new }
    ensures stays { TableStays program.old.space program.new.space }
    ensures image { image_in program.new ≡ image_in program.old }
    ensures code { program.new.code ≡ program.old.code }
{
    clumps.recall_sound();
    program.space.recall_sound();
    match i.op {
        Op::Stop => {
            if stops(&program.space, i.a) {
                return Err(Stop::Stopped);
            }
        }
        Op::Finclump => clumps.finish(i.a.cast_signed(), i.b.cast_signed())?,
        Op::Finclumpimmed => clumps.schedule(i.a as u8)?,
        Op::Acquire => clumps.acquire(i.a),
        Op::Release => clumps.release(i.a)?,
        Op::Subcall => call(program, clumps, h, i)?,
        Op::Subret => clumps.ret(wrap(number(&program.space, i.a)))?,
        Op::Wait => wait(clumps, clock, wrap(number(&program.space, i.a))),
        _ => {}
    }
    Ok(())
}

// The clump that runs calls another one, which is told its number in a variable.
fn call(program: &mut Program, clumps: &mut Clumps, h: u8, i: &Instr) -> Result<(), Stop>
    requires program { IsProgram program.old }
    requires clumps { AreClumpsOf program.old clumps.old }
    requires head { slice_get clumps.old.state.queue 0 ≡ Some h }
    requires call { i.now.op ≡ op.Subcall }
    requires at { (k word : ℕ) × slice_get program.old.code.decoded.placed.items k ≡ Some (record { word = word; instr = i.now }) }
    ensures ruled { (clock : ℕ) → IsRuled clock h (statement_of i.now program.old.code.words) program.old.space.vars program.new.space.vars clumps.old clumps.new (result_err result) }
    ensures program { IsProgram program.new }
    ensures stays { TableStays program.old.space program.new.space }
    ensures image { image_in program.new ≡ image_in program.old }
    ensures code { program.new.code ≡ program.old.code }
{
    clumps.recall_sound();
    clumps.call(i.a as u8)?;
    program.space.set(i.b, i64::from(h));
    Ok(())
}

// The clump that runs sleeps for `ms`, or goes to the queue's end.
fn wait(clumps: &mut Clumps, clock: u64, ms: u32)
    requires head { IsSome (slice_get clumps.old.state.queue 0) }
    requires clock { clock ≤ 2 ^ 62 }
    ensures { clumps.new ≡ record clumps.old { state = (wait ms clock (head clumps.old.state) clumps.old.state).0 } }
{
    if ms == 0 {
        clumps.rotate();
    } else {
        clumps.sleep(clock + u64::from(ms));
    }
}

/// The clump that runs goes on behind its statement, which did this; its rule follows, and the bytecode ends. Gives the reason
/// for which the program stops there, if it does.
pub(crate) fn go_on(
    program: &mut Program,
    clumps: &mut Clumps,
    clock: u64,
    h: u8,
    place: u32,
    placed: &StatementAt,
    did: Outcome,
) -> Option<Stop>
    requires program { IsProgram program.old }
    requires clumps { AreClumpsOf program.old clumps.old }
    requires head { slice_get clumps.old.state.queue 0 ≡ Some h }
    requires turn { clumps.old.state.turn < 20 }
    requires clock { clock ≤ 2 ^ 62 }
    requires at { slice_get program.old.code.decoded.placed.items place ≡ Some placed.now }
    ensures goes { GoesOn clock h place (statement_of placed.now.instr program.old.code.words) did program.old.space.vars program.new.space.vars clumps.old clumps.new result }
    ensures program { IsProgram program.new }
    ensures stays { TableStays program.old.space program.new.space }
    ensures image { image_in program.new ≡ image_in program.old }
    ensures clumps { AreClumpsOf program.new clumps.new }
    ensures turn { clumps.new.state.turn < 20 }
{
    match did {
        Outcome::Next(next) => {
            clumps.advance(next, 1);
            let why = rule(program, clumps, clock, h, &placed.instr).err();
            clumps.end_bytecode();
            why
        }
        Outcome::Passed(bytes) => {
            clumps.advance(place + 1, 1);
            clumps.end_bytecode();
            Some(Stop::Memory(bytes))
        }
    }
}

/// Whether a statement may stop the program, by its rule or because it leaves nobody to run.
pub(crate) fn may_stop(space: &Space, i: &Instr) -> bool
    ensures { result ≡ may_stop_by space.now.vars i.now }
{
    match i.op {
        Op::Stop => stops(space, i.a),
        Op::Finclump | Op::Finclumpimmed | Op::Acquire | Op::Release | Op::Subcall | Op::Subret =>
            true,
        _ => false,
    }
}

/// The reason for which a program ends whose queue is empty and where nobody sleeps.
pub(crate) fn end_of(clumps: &Clumps) -> Option<Stop>
    ensures { result ≡ end_for clumps.now.state }
{
    if clumps.head().is_some() || clumps.sleeping() {
        None
    } else if clumps.blocked() {
        Some(Stop::Stuck)
    } else {
        Some(Stop::Finished)
    }
}
