// What a statement does to variables and devices.

ghost use Rattle.std.specs.Prelude.{◌≡◌, ◌≤◌, ◌^◌, slice_get, ℕ, List, [], IfOk, IsOk, OnOk, OnErr, Some, true, false};
ghost use Rattle.nxt_types.specs.Statements.{statement_of};
ghost use Rattle.nxt_ops.specs.Ops.{runs as does_compute};
ghost use Rattle.nxt_ops.specs.Preparing.{on_numbers};
ghost use Rattle.nxt_arrays.specs.Arrays.{runs as works_on_lists};
ghost use Rattle.nxt_types.specs.declared.instr.Op.TheVariants as op;
ghost use Rattle.nxt_model.specs.Devices.{Devices};
ghost use Rattle.nxt_model.specs.SystemCalls.{Clock as Moments};
ghost use Rattle.nxt_model.specs.declared.line.Line.{Line};
ghost use Rattle.nxt_space.specs.Keeping.{TableStays};
ghost use Rattle.nxt_machine.specs.Inside.Keeping.{StatementStays};
ghost use Rattle.nxt_machine.specs.Inside.Programs.{IsProgram, image_in};
ghost use Rattle.nxt_sys.specs.Calls.{clock_of};
ghost use Rattle.nxt_machine.specs.Memory.{works_on_numbers};
ghost use Rattle.nxt_machine.specs.Inside.Statements.{Performs, IsDone, IsUnmoved, effect_at, is_passed, operands_at};
ghost use Rattle.nxt_machine.specs.Inside.Stopping.{may_stop};

use crate::ports::{get_input, get_output, set_input, set_output};
use crate::program::Program;
use nxt_arrays::run_array;
use nxt_code::StatementAt;
use nxt_io::Io;
use nxt_model::line::Lines;
use nxt_ops::{Next, run_op};
use nxt_space::OpFault;
use nxt_sys::{Clock, syscall};
use nxt_types::NoMemory;
use nxt_types::instr::{Op, landing};
use std::alloc::Global;

/// What a statement did, its clump aside.
#[derive(Clone, Copy, PartialEq, Eq, Debug)]
pub(crate) enum Outcome {
    /// It ran, and the clump goes on at a place.
    Next(u32),
    /// The pool doesn't hold its values; the footprint in bytes that they would have.
    Passed(u64),
}

impl Outcome {
    /// Whether the pool doesn't hold its values.
    pub(crate) fn is_passed(self) -> bool
        ensures { result ≡ is_passed self }
    {
        matches!(self, Outcome::Passed(_))
    }
}

/// Runs a statement that stands at a place. Where it is refused nothing has changed.
pub(crate) fn perform(
    alloc: Global,
    program: &mut Program,
    io: &mut Io,
    clock: Clock,
    place: u32,
    placed: &StatementAt,
    out: &mut Lines,
) -> Result<Outcome, NoMemory>
    requires program { IsProgram program.old }
    requires clock { clock.now ≤ 2 ^ 62 }
    requires at { slice_get program.old.code.decoded.placed.items place ≡ Some placed.now }
    ensures did { IfOk result (Performs program.old.code.words place placed.now.word (clock_of clock) (statement_of placed.now.instr program.old.code.words)
        (record { vars = program.old.space.vars; devices = io.old; lines = out.old.lines })
        (record { vars = program.new.space.vars; devices = io.new; lines = out.new.lines })) }
    ensures program { IsProgram program.new }
    ensures stays { StatementStays (clock_of clock) (statement_of placed.now.instr program.old.code.words) io.old program.old.space program.new.space }
    ensures image { image_in program.new ≡ image_in program.old }
    ensures code { program.new.code ≡ program.old.code }
    ensures same { OnErr result (program.new ≡ program.old) }
    ensures devices { OnErr result (io.new ≡ io.old) }
    ensures told { OnErr result (out.new.lines ≡ out.old.lines) }
    ensures passed { IfOk result (IsUnmoved program.old program.new) }

    // A statement that may stop the program leaves the room of the lines.
    ensures room { may_stop program.old.space.vars placed.now.instr ≡ true → out.new ≡ out.old }

    // On numbers alone it takes no memory where it tells nothing.
    ensures numbers { works_on_numbers placed.now.instr.op (operands_at program.old.space.vars (statement_of placed.now.instr program.old.code.words)) ≡ true → (effect_at (record { vars = program.old.space.vars; devices = io.old; lines = out.old.lines }) (clock_of clock) (statement_of placed.now.instr program.old.code.words)).lines ≡ [] → IsOk result }
{
    match placed.instr.op {
        op if nxt_ops::runs(op) => compute(alloc, program, place, placed),
        op if nxt_arrays::runs(op) => arrange(alloc, program, place, placed),
        Op::Syscall => call(alloc, program, io, clock, place, placed, out),
        _ => {
            act(alloc, program, io, clock, placed, out)?;
            Ok(Outcome::Next(place + 1))
        }
    }
}

// Runs a statement on motors, sensors or the clock. One of clumps does nothing to them.
fn act(
    alloc: Global,
    program: &mut Program,
    io: &mut Io,
    clock: Clock,
    placed: &StatementAt,
    out: &mut Lines,
) -> Result<(), NoMemory>
    requires program { IsProgram program.old }
    requires clock { clock.now ≤ 2 ^ 62 }
    requires at { (k : ℕ) × slice_get program.old.code.decoded.placed.items k ≡ Some placed.now }
    requires computing { does_compute placed.now.instr.op ≡ false }
    requires on_lists { works_on_lists placed.now.instr.op ≡ false }
    requires syscall { placed.now.instr.op ≡ op.Syscall → ⊥ }
    ensures done { OnOk result (IsDone (clock_of clock) (statement_of placed.now.instr program.old.code.words)
        (record { vars = program.old.space.vars; devices = io.old; lines = out.old.lines })
        (record { vars = program.new.space.vars; devices = io.new; lines = out.new.lines })) }
    ensures program { IsProgram program.new }
    ensures stays { TableStays program.old.space program.new.space }
    ensures image { image_in program.new ≡ image_in program.old }
    ensures code { program.new.code ≡ program.old.code }
    ensures same { OnErr result (program.new ≡ program.old) }
    ensures devices { OnErr result (io.new ≡ io.old) }
    ensures told { OnErr result (out.new.lines ≡ out.old.lines) }
    ensures room { may_stop program.old.space.vars placed.now.instr ≡ true → out.new ≡ out.old }
    ensures numbers { works_on_numbers placed.now.instr.op (operands_at program.old.space.vars (statement_of placed.now.instr program.old.code.words)) ≡ true → (effect_at (record { vars = program.old.space.vars; devices = io.old; lines = out.old.lines }) (clock_of clock) (statement_of placed.now.instr program.old.code.words)).lines ≡ [] → IsOk result }
{
    program.space.recall_sound();
    let instr = &placed.instr;
    match instr.op {
        Op::Setout => {
            let words = program.code.words();
            set_output(alloc, &program.space, io, instr, words, out)
        }
        Op::Setin => {
            set_input(&program.space, io, instr);
            Ok(())
        }
        Op::Getin => {
            get_input(&mut program.space, io, instr);
            Ok(())
        }
        Op::Getout => {
            get_output(&mut program.space, io, instr);
            Ok(())
        }
        Op::Gettick => {
            program.space.set(instr.a, clock.now as i64);
            Ok(())
        }
        _ => Ok(()),
    }
}

// Runs a system call.
fn call(
    alloc: Global,
    program: &mut Program,
    io: &mut Io,
    clock: Clock,
    place: u32,
    placed: &StatementAt,
    out: &mut Lines,
) -> Result<Outcome, NoMemory>
    requires program { IsProgram program.old }
    requires call { placed.now.instr.op ≡ op.Syscall }
    requires at { slice_get program.old.code.decoded.placed.items place ≡ Some placed.now }
    ensures did { IfOk result (Performs program.old.code.words place placed.now.word (clock_of clock) (statement_of placed.now.instr program.old.code.words)
        (record { vars = program.old.space.vars; devices = io.old; lines = out.old.lines })
        (record { vars = program.new.space.vars; devices = io.new; lines = out.new.lines })) }
    ensures program { IsProgram program.new }
    ensures stays { StatementStays (clock_of clock) (statement_of placed.now.instr program.old.code.words) io.old program.old.space program.new.space }
    ensures image { image_in program.new ≡ image_in program.old }
    ensures code { program.new.code ≡ program.old.code }
    ensures same { OnErr result (program.new ≡ program.old) }
    ensures devices { OnErr result (io.new ≡ io.old) }
    ensures told { OnErr result (out.new.lines ≡ out.old.lines) }
    ensures passed { IfOk result (IsUnmoved program.old program.new) }
{
    program.space.recall_sound();
    let (number, cluster) = (placed.instr.a, placed.instr.b);
    match syscall(alloc, number, cluster, &mut program.space, io, clock, out) {
        Ok(_) => Ok(Outcome::Next(place + 1)),
        Err(OpFault::PoolPassed(bytes)) => Ok(Outcome::Passed(bytes)),
        Err(OpFault::NoMemory) => Err(NoMemory),
    }
}

/// Runs a statement that computes.
pub(crate) fn compute(
    alloc: Global,
    program: &mut Program,
    place: u32,
    placed: &StatementAt,
) -> Result<Outcome, NoMemory>
    requires program { IsProgram program.old }
    requires computes { does_compute placed.now.instr.op ≡ true }
    requires at { slice_get program.old.code.decoded.placed.items place ≡ Some placed.now }
    ensures did { IfOk result (λ did. (d : Devices) (lines : List Line) (t : Moments) → Performs program.old.code.words place placed.now.word t (statement_of placed.now.instr program.old.code.words)
        (record { vars = program.old.space.vars; devices = d; lines = lines }) (record { vars = program.new.space.vars; devices = d; lines = lines }) did) }
    ensures program { IsProgram program.new }
    ensures stays { (d : Devices) (t : Moments) → StatementStays t (statement_of placed.now.instr program.old.code.words) d program.old.space program.new.space }
    ensures image { image_in program.new ≡ image_in program.old }
    ensures code { program.new.code ≡ program.old.code }
    ensures same { OnErr result (program.new ≡ program.old) }
    ensures passed { IfOk result (IsUnmoved program.old program.new) }
    ensures numbers { on_numbers program.old.space.vars placed.now.instr ≡ true → IsOk result }
{
    program.space.recall_sound();
    match run_op(alloc, &placed.instr, &program.toc, &mut program.space) {
        Ok(Next::Fall) => Ok(Outcome::Next(place + 1)),
        Ok(Next::Jump(offset)) => {
            let word = landing(placed.word, offset);
            Ok(Outcome::Next(program.code.decoded.statement_number(word) as u32))
        }
        Err(OpFault::PoolPassed(bytes)) => Ok(Outcome::Passed(bytes)),
        Err(OpFault::NoMemory) => Err(NoMemory),
    }
}

/// Runs a statement on lists or texts.
pub(crate) fn arrange(
    alloc: Global,
    program: &mut Program,
    place: u32,
    placed: &StatementAt,
) -> Result<Outcome, NoMemory>
    requires program { IsProgram program.old }
    requires on_lists { works_on_lists placed.now.instr.op ≡ true }
    requires at { slice_get program.old.code.decoded.placed.items place ≡ Some placed.now }
    ensures did { IfOk result (λ did. (d : Devices) (lines : List Line) (t : Moments) → Performs program.old.code.words place placed.now.word t (statement_of placed.now.instr program.old.code.words)
        (record { vars = program.old.space.vars; devices = d; lines = lines }) (record { vars = program.new.space.vars; devices = d; lines = lines }) did) }
    ensures program { IsProgram program.new }
    ensures stays { (d : Devices) (t : Moments) → StatementStays t (statement_of placed.now.instr program.old.code.words) d program.old.space program.new.space }
    ensures image { image_in program.new ≡ image_in program.old }
    ensures code { program.new.code ≡ program.old.code }
    ensures same { OnErr result (program.new ≡ program.old) }
    ensures passed { IfOk result (IsUnmoved program.old program.new) }
{
    program.space.recall_sound();
    match run_array(
        alloc,
        &placed.instr,
        program.code.words(),
        &program.toc,
        &mut program.space,
    ) {
        Ok(()) => Ok(Outcome::Next(place + 1)),
        Err(OpFault::PoolPassed(bytes)) => Ok(Outcome::Passed(bytes)),
        Err(OpFault::NoMemory) => Err(NoMemory),
    }
}
