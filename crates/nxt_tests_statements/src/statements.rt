// Statements that are accepted in a program, run on its variables.

ghost use Rattle.std.specs.Prelude.{◌≡◌, IfOk, IfSome, IsTrue};
ghost use Rattle.nxt_types.specs.Shapes.{Members, is_number};
ghost use Rattle.nxt_types.specs.Names.{name_among};
ghost use Rattle.nxt_types.specs.Statements.{IsWhole, statement_of};
ghost use Rattle.nxt_types.specs.OperandRules.{AreFit};
ghost use Rattle.nxt_rxe.specs.declared.parts.Parts.{Parts};
ghost use Rattle.nxt_layout.specs.Layouts.{IsLayout};
ghost use Rattle.nxt_space.specs.Variables.{AreSound, shape_by};

mod lists;
mod numbers;
mod pool;
mod texts;

use nxt_arrays::run_array;
use nxt_code::{Code, check_code};
use nxt_images::{Form, Image, Statement, append, form_of, layout_of, op};
use nxt_instr::decode;
use nxt_layout::Layout;
use nxt_ops::{Next, run_op};
use nxt_space::{Flat, OpFault, Path, Space};
use nxt_types::instr::{Instr, Op};
use nxt_types::lists::{Bytes, ClumpRec, ClumpRecs, Words};
use nxt_types::shape::Shape;
use nxt_types::toc::Toc;
use nxt_types::words::LEFT_OUT;
use std::alloc::Global;
use std::process::Abort;
use std::test::Fail;

/// Where the program goes on, or why the statement was refused.
pub type Answer = Result<Next, OpFault>;

/// The program goes on behind the statement.
pub const DONE: Answer = Ok(Next::Fall);

/// A statement, and the answer.
pub type Step<'a> = (Statement<'a>, Answer);

/// A statement, numbers that are stored before it, flat forms of variables afterwards, and the answer.
pub type Case<'a> = (
    Statement<'a>,
    &'a [(u16, i64)],
    &'a [(u16, &'a [i64])],
    Answer,
);

/// Numbers that are stored first, statements one after another, and flat forms of variables afterwards.
#[derive(Clone, Copy)]
pub struct Story<'a> {
    pub before: &'a [(u16, i64)],
    pub steps: &'a [Step<'a>],
    pub after: &'a [(u16, &'a [i64])],
}

// How many words a statement jumps back, and ahead.
fn reach(statement: Statement) -> Result<(usize, usize), Fail> {
    let Form { op, operands, .. } = form_of(statement)?;
    if !matches!(op, Op::Jmp | Op::Brcmp | Op::Brtst) {
        return Ok((0, 0));
    }
    Ok(match operands.first() {
        Some(offset) if *offset >= 0x8000 => (65536 - usize::from(*offset), 0),
        Some(offset) => (0, usize::from(*offset)),
        None => (0, 0),
    })
}

// Adds statements of one word each: `acquire`, in its short form, of the mutex at entry 14.
fn fill(words: &mut Words, count: usize) -> Result<(), Fail> {
    for _ in 0..count {
        words.push(0x290E)?;
    }
    Ok(())
}

// Adds a program in which the statement lands on a statement where it jumps, and gives the word at which it begins.
fn push_program(words: &mut Words, statement: Statement) -> Result<u16, Fail> {
    let (back, ahead) = reach(statement)?;
    fill(words, back)?;
    let at = u16::try_from(words.len())?;
    append(words, statement)?;
    let length = words.len().saturating_sub(back);
    fill(words, ahead.saturating_sub(length))?;
    append(words, &[op::FINCLUMP, LEFT_OUT, LEFT_OUT])?;
    Ok(at)
}

fn program_of(alloc: Global, statement: Statement) -> Result<(Words, u16), Fail> {
    let mut words = Words::new(alloc);
    let at = push_program(&mut words, statement)?;
    Ok((words, at))
}

// The statement at a word of a program of one clump that starts there, if the program is accepted.
fn fit_statement(
    alloc: Global,
    toc: &Toc,
    words: Words,
    at: u16,
) -> Result<Option<(Instr, Code)>, Fail>
    ensures whole { IfOk result (λ found. IfSome found (λ f. IsWhole f.1.words f.0)) }
    ensures fit { IfOk result (λ found. IfSome found (λ f. AreFit toc.now.shapes (statement_of f.0 f.1.words))) }
{
    let mut clumps = ClumpRecs::new(alloc);
    let start = ClumpRec {
        fire: 0,
        dependents: 0,
        start: at,
    };
    clumps.push(start)?;
    if words.len() > 65535 || usize::from(at) >= words.len() {
        return Ok(None);
    }
    let code = check_code(alloc, toc, clumps, Bytes::new(alloc), words)?;
    match decode(code.words(), u32::from(at)) {
        Ok((instr, _)) => Ok(Some((instr, code))),
        Err(_) => Ok(None),
    }
}

// The statement in a program of its own, if that is accepted.
fn fit_program(
    alloc: Global,
    toc: &Toc,
    statement: Statement,
) -> Result<Option<(Instr, Code)>, Fail>
    ensures whole { IfOk result (λ found. IfSome found (λ f. IsWhole f.1.words f.0)) }
    ensures fit { IfOk result (λ found. IfSome found (λ f. AreFit toc.now.shapes (statement_of f.0 f.1.words))) }
{
    let (words, at) = program_of(alloc, statement)?;
    fit_statement(alloc, toc, words, at)
}

fn has_number(toc: &Toc, i: u16) -> bool
    ensures { (s : Members) → toc.now.shapes ≡ s → IsTrue result → IsTrue (is_number (shape_by (name_among s 0 i))) }
{
    matches!(toc.shape(i), Some(Shape::Num(_)))
}

// Stores a number.
fn set(rt: &impl Abort, toc: &Toc, space: &mut Space, i: u16, x: i64)
    requires shapes { toc.now.shapes ≡ space.old.vars.shapes }
    ensures entries { space.new.vars.entries ≡ space.old.vars.entries }
    ensures shapes { space.new.vars.shapes ≡ space.old.vars.shapes }
{
    let number = has_number(toc, i);
    assert!(rt; number);
    space.set(i, x);
}

fn set_all(rt: &impl Abort, toc: &Toc, space: &mut Space, before: &[(u16, i64)])
    requires shapes { toc.now.shapes ≡ space.old.vars.shapes }
    ensures entries { space.new.vars.entries ≡ space.old.vars.entries }
    ensures shapes { space.new.vars.shapes ≡ space.old.vars.shapes }
{
    for (i, x) in before {
        set(rt, toc, space, *i, *x);
    }
}

// The flat form of the variable at an entry.
fn gathered(rt: &impl Abort, alloc: Global, toc: &Toc, space: &Space, i: u16) -> Result<Flat, Fail>
    requires { toc.now.shapes ≡ space.now.vars.shapes }
{
    let named = toc.shape(i).is_some();
    assert!(rt; named);
    let path = Path::whole(alloc, i);
    let mut found = Flat::new(alloc);
    space.gather(&path, &mut found)?;
    Ok(found)
}

fn expect(
    rt: &impl Abort,
    alloc: Global,
    toc: &Toc,
    space: &Space,
    i: u16,
    flat: &[i64],
    steps: &[Step],
) -> Result<(), Fail>
    requires { toc.now.shapes ≡ space.now.vars.shapes }
{
    let found = gathered(rt, alloc, toc, space, i)?;
    assert_eq!(rt; found.as_slice(), flat, "at {i} after {steps:?}");
    Ok(())
}

fn expect_all(
    rt: &impl Abort,
    alloc: Global,
    toc: &Toc,
    space: &Space,
    after: &[(u16, &[i64])],
    steps: &[Step],
) -> Result<(), Fail>
    requires { toc.now.shapes ≡ space.now.vars.shapes }
{
    for (i, flat) in after {
        expect(rt, alloc, toc, space, *i, flat, steps)?;
    }
    Ok(())
}

// Runs a statement. Others than those of `run_op` and `run_array` want memory.
fn run(alloc: Global, i: &Instr, words: &[u16], toc: &Toc, space: &mut Space) -> Answer
    requires whole { IsWhole words.now i.now }
    requires entries { toc.now.entries ≡ space.old.vars.entries }
    requires shapes { toc.now.shapes ≡ space.old.vars.shapes }
    requires sound { AreSound space.old.vars }
    requires fit { AreFit space.old.vars.shapes (statement_of i.now words.now) }
    ensures entries { space.new.vars.entries ≡ space.old.vars.entries }
    ensures shapes { space.new.vars.shapes ≡ space.old.vars.shapes }
{
    if nxt_ops::runs(i.op) {
        return run_op(alloc, i, toc, space);
    }
    if nxt_arrays::runs(i.op) {
        return match run_array(alloc, i, words, toc, space) {
            Ok(()) => Ok(Next::Fall),
            Err(fault) => Err(fault),
        };
    }
    Err(OpFault::NoMemory)
}

// A statement that is refused leaves the pool as it is.
fn expect_answer(rt: &impl Abort, answer: Answer, before: u32, after: u32, step: &Step) {
    let (statement, wanted) = step;
    assert_eq!(rt; answer, *wanted, "{statement:?}");
    if answer.is_err() {
        assert_eq!(rt; after, before, "{statement:?}");
    }
}

fn run_fit(
    rt: &impl Abort,
    alloc: Global,
    i: &Instr,
    code: &Code,
    toc: &Toc,
    space: &mut Space,
    step: &Step,
)
    requires whole { IsWhole code.now.words i.now }
    requires entries { toc.now.entries ≡ space.old.vars.entries }
    requires shapes { toc.now.shapes ≡ space.old.vars.shapes }
    requires fit { AreFit toc.now.shapes (statement_of i.now code.now.words) }
    ensures entries { space.new.vars.entries ≡ space.old.vars.entries }
    ensures shapes { space.new.vars.shapes ≡ space.old.vars.shapes }
{
    space.recall_sound();
    let before = space.footprint();
    let answer = run(alloc, i, code.words(), toc, space);
    expect_answer(rt, answer, before, space.footprint(), step);
}

fn take(
    rt: &impl Abort,
    alloc: Global,
    toc: &Toc,
    space: &mut Space,
    step: &Step,
) -> Result<(), Fail>
    requires entries { toc.now.entries ≡ space.old.vars.entries }
    requires shapes { toc.now.shapes ≡ space.old.vars.shapes }
    ensures entries { space.new.vars.entries ≡ space.old.vars.entries }
    ensures shapes { space.new.vars.shapes ≡ space.old.vars.shapes }
{
    let found = fit_program(alloc, toc, step.0)?;
    assert!(rt; found.is_some(), "{:?}", step.0);
    if let Some((i, code)) = found {
        run_fit(rt, alloc, &i, &code, toc, space, step);
    }
    Ok(())
}

fn take_all(
    rt: &impl Abort,
    alloc: Global,
    toc: &Toc,
    space: &mut Space,
    steps: &[Step],
) -> Result<(), Fail>
    requires entries { toc.now.entries ≡ space.old.vars.entries }
    requires shapes { toc.now.shapes ≡ space.old.vars.shapes }
    ensures shapes { space.new.vars.shapes ≡ space.old.vars.shapes }
{
    for step in steps {
        take(rt, alloc, toc, space, step)?;
    }
    Ok(())
}

fn play(
    rt: &impl Abort,
    alloc: Global,
    toc: &Toc,
    space: &mut Space,
    story: &Story,
) -> Result<(), Fail>
    requires entries { toc.now.entries ≡ space.old.vars.entries }
    requires shapes { toc.now.shapes ≡ space.old.vars.shapes }
{
    set_all(rt, toc, space, story.before);
    take_all(rt, alloc, toc, space, story.steps)?;
    expect_all(rt, alloc, toc, space, story.after, story.steps)
}

fn check(rt: &impl Abort, alloc: Global, layout: &Layout, story: &Story) -> Result<(), Fail>
    requires { (p : Parts) × IsLayout p layout.now }
{
    let toc = layout.toc();
    let mut space = Space::new(alloc, layout)?;
    play(rt, alloc, toc, &mut space, story)
}

/// Runs each story on the variables of a program at their start.
pub(crate) fn check_all(
    rt: &impl Abort,
    alloc: Global,
    image: &Image,
    stories: &[Story],
) -> Result<(), Fail> {
    let layout = layout_of(alloc, image)?;
    for story in stories {
        check(rt, alloc, &layout, story)?;
    }
    Ok(())
}

fn check_case(rt: &impl Abort, alloc: Global, layout: &Layout, case: &Case) -> Result<(), Fail>
    requires { (p : Parts) × IsLayout p layout.now }
{
    let (statement, before, after, answer) = case;
    let steps = [(*statement, *answer)];
    let story = Story {
        before,
        steps: &steps,
        after,
    };
    check(rt, alloc, layout, &story)
}

/// Runs the statement of each case on the variables of a program at their start.
pub(crate) fn check_cases(
    rt: &impl Abort,
    alloc: Global,
    image: &Image,
    cases: &[Case],
) -> Result<(), Fail> {
    let layout = layout_of(alloc, image)?;
    for case in cases {
        check_case(rt, alloc, &layout, case)?;
    }
    Ok(())
}
