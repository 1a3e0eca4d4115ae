// Statements that compute with variables, or jump.

ghost use Rattle.std.specs.Prelude.{◌≡◌, true, false, IsSome, IsOk, pos, ◌∷◌, []};
ghost use Rattle.nxt_types.specs.OperandRules.{AreFit, is_plain, are_alike};
ghost use Rattle.nxt_types.specs.Shapes.{convertible, is_number as is_number_shape};
ghost use Rattle.nxt_model.specs.Devices.{Devices};
ghost use Rattle.nxt_model.specs.SystemCalls.{Clock};
ghost use Rattle.nxt_model.specs.Means.Numbers.{holds as holds_of, truth};
ghost use Rattle.nxt_model.specs.Values.{Num, stored};
ghost use Rattle.nxt_ops.specs.Preparing.{on_numbers};
ghost use Rattle.nxt_space.specs.Keeping.{TableStays, Leaves};
ghost use Rattle.nxt_space.specs.Variables.{AreSound, name_of, shape_of, value_of, with_value};
ghost use Rattle.nxt_space.specs.Outcomes.{Does};
ghost use Rattle.nxt_operands.specs.Operands.{Done, given};
ghost use Rattle.nxt_ops.specs.Ops.{dests, CanRun, statement_in, next_of, effect_in, values_after, stores, runs as does_run, two_of as operator_on_two, one_of as operator_on_one};

use crate::clusters::copy_numbers;
use crate::comparing::holds;
use crate::in_place::{convert_list, two_lists};
use crate::lists::{combine_lists, map_list};
use crate::operator::{One, Two};
use crate::prepared::{prepare, run_prepared};
use nxt_operands::lists::lists_of_a_kind;
use nxt_operands::operands::is_number;
use nxt_operands::reading::flat_of;
use nxt_operands::storing::store;
use nxt_space::{OpFault, Space};
use nxt_types::instr::{Instr, Op};
use nxt_types::kind::{Arith, Cmp};
use nxt_types::toc::Toc;
use std::alloc::Global;

/// Where a statement goes on: behind itself, or by a signed offset in words from its own first word.
#[derive(Clone, Copy, PartialEq, Eq, Debug)]
pub enum Next {
    Fall,
    Jump(i32),
}

/// Whether `run_op` runs the statements of an operation.
pub fn runs(op: Op) -> bool
    ensures { result ≡ does_run op }
{
    matches!(
        op,
        Op::Add
            | Op::Sub
            | Op::Neg
            | Op::Mul
            | Op::Div
            | Op::Mod
            | Op::And
            | Op::Or
            | Op::Xor
            | Op::Not
            | Op::Cmp
            | Op::Tst
            | Op::Mov
            | Op::Set
            | Op::Jmp
            | Op::Brcmp
            | Op::Brtst
    )
}

/// Runs arithmetic, a comparison, a move or a jump (Executable File Specification, "Math", "Logic", "Comparison", "Data
/// Manipulation" and "Control Flow"). Where it is refused nothing has changed. A statement on numbers alone always answers: it
/// takes no memory.
pub fn run_op(alloc: Global, i: &Instr, toc: &Toc, space: &mut Space) -> Result<Next, OpFault>
    requires { CanRun i.now toc.now space.old.vars }
    ensures does { (d : Devices) (t : Clock) → Does (λ next. next ≡ next_of i.now (effect_in space.old.vars i.now d t).jumps) (values_after space.old.vars i.now d t) space.old result space.new }
    ensures leaves { Leaves (dests i.now) space.old space.new }
    ensures numbers { on_numbers space.old.vars i.now ≡ true → IsOk result }
{
    // From place 0 it goes on at 0 where it jumps there, and else at 1.
    if let Some(place) = run_prepared(&prepare(i, space, 0), 0, space) {
        return Ok(going_on(i, place == 0));
    }
    if i.op == Op::Brcmp {
        return Ok(going_on(i, holds(alloc, space, i.cmp, i.b, i.c)?));
    }
    compute(alloc, i, space)?;
    Ok(Next::Fall)
}

// Where a statement goes on, which jumps or doesn't.
fn going_on(i: &Instr, jumps: bool) -> Next
    ensures { result ≡ next_of i.now jumps }
{
    if jumps {
        Next::Jump(i.offset())
    } else {
        Next::Fall
    }
}

// Runs a statement that stores a value, and is not on numbers alone.
fn compute(alloc: Global, i: &Instr, space: &mut Space) -> Result<(), OpFault>
    requires runs { does_run i.now.op ≡ true }
    requires stores { stores i.now.op ≡ true }
    requires lists { on_numbers space.old.vars i.now ≡ false }
    requires sound { AreSound space.old.vars }
    requires fit { AreFit space.old.vars.shapes (statement_in i.now) }
    ensures does { (d : Devices) (t : Clock) → Does Done (values_after space.old.vars i.now d t) space.old result space.new }
    ensures leaves { Leaves (i.now.a ∷ []) space.old space.new }
{
    if let Some(operator) = two_of(i.op, i.cmp) {
        if is_number(space, i.a) {
            return store_comparison(alloc, i.cmp, space, i.a, i.b, i.c);
        }
        return combine_lists(alloc, operator, space, i.a, i.b, i.c);
    }
    if let Some(operator) = one_of(i.op, i.cmp) {
        return map_list(alloc, operator, space, i.a, i.b);
    }
    copy(alloc, space, i.a, i.b)
}

// The operator of a statement on two values.
pub fn two_of(op: Op, cmp: Cmp) -> Option<Two>
    ensures { result ≡ operator_on_two op cmp }
{
    match op {
        Op::Add => Some(Two::Calculate(Arith::Add)),
        Op::Sub => Some(Two::Calculate(Arith::Sub)),
        Op::Mul => Some(Two::Calculate(Arith::Mul)),
        Op::Div => Some(Two::Calculate(Arith::Div)),
        Op::Mod => Some(Two::Calculate(Arith::Mod)),
        Op::And => Some(Two::Calculate(Arith::And)),
        Op::Or => Some(Two::Calculate(Arith::Or)),
        Op::Xor => Some(Two::Calculate(Arith::Xor)),
        Op::Cmp => Some(Two::Compare(cmp)),
        _ => None,
    }
}

// The operator of a statement on one value.
pub fn one_of(op: Op, cmp: Cmp) -> Option<One>
    ensures { result ≡ operator_on_one op cmp }
{
    match op {
        Op::Neg => Some(One::Neg),
        Op::Not => Some(One::Not),
        Op::Tst => Some(One::Test(cmp)),
        _ => None,
    }
}

// Stores in a number whether a comparison of two lists of numbers holds.
fn store_comparison(
    alloc: Global,
    cmp: Cmp,
    space: &mut Space,
    dest: u16,
    x: u16,
    y: u16,
) -> Result<(), OpFault>
    requires sound { AreSound space.old.vars }
    requires dest { is_number_shape (shape_of space.old.vars dest) ≡ true }
    requires x { IsSome (name_of space.old.vars x) }
    requires y { IsSome (name_of space.old.vars y) }
    requires plain { is_plain (shape_of space.old.vars x) ≡ true }
    requires list { is_number_shape (shape_of space.old.vars x) ≡ false }
    requires fit { are_alike (shape_of space.old.vars x) (shape_of space.old.vars y) ≡ true }
    ensures does { Does Done (with_value space.old.vars dest (stored (shape_of space.old.vars dest) (Num (pos (truth (holds_of cmp (given space.old.vars x) (given space.old.vars y))))))) space.old result space.new }
    ensures stays { TableStays space.old space.new }
{
    let held = holds(alloc, space, cmp, x, y)?;
    space.set(dest, i64::from(held));
    Ok(())
}

// Stores a value in a variable of its own.
fn copy(alloc: Global, space: &mut Space, dest: u16, source: u16) -> Result<(), OpFault>
    requires sound { AreSound space.old.vars }
    requires dest { IsSome (name_of space.old.vars dest) }
    requires source { IsSome (name_of space.old.vars source) }
    requires fit { convertible (shape_of space.old.vars dest) (shape_of space.old.vars source) ≡ true }
    ensures does { Does Done (with_value space.old.vars dest (stored (shape_of space.old.vars dest) (value_of space.old.vars source))) space.old result space.new }
    ensures leaves { Leaves (dest ∷ []) space.old space.new }
{
    if let Some((to, from)) = lists_of_a_kind(space, dest, source) {
        space.copy_list(to, from)?;
        return Ok(());
    }
    if let Some((to, from)) = two_lists(space, dest, source) {
        return convert_list(alloc, space, to, from);
    }
    if copy_numbers(space, dest, source) {
        return Ok(());
    }
    copy_flat(alloc, space, dest, source)
}

// The same by the value's flat form.
fn copy_flat(alloc: Global, space: &mut Space, dest: u16, source: u16) -> Result<(), OpFault>
    requires sound { AreSound space.old.vars }
    requires dest { IsSome (name_of space.old.vars dest) }
    requires source { IsSome (name_of space.old.vars source) }
    requires fit { convertible (shape_of space.old.vars dest) (shape_of space.old.vars source) ≡ true }
    ensures does { Does Done (with_value space.old.vars dest (stored (shape_of space.old.vars dest) (value_of space.old.vars source))) space.old result space.new }
    ensures leaves { Leaves (dest ∷ []) space.old space.new }
{
    let flat = flat_of(alloc, space, source)?;
    store(space, dest, &flat)
}
