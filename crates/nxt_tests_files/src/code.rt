// Code at the edges of the rules on clumps, statements and operands.

ghost use Rattle.std.specs.Prelude.{◌≡◌, ◌≤◌, [], ◌∷◌, IfOk};

use nxt_code::{Code, CodeFault, check_code};
use nxt_images::{
    ARRAY, CLUSTER, EMPTY, Form, Image, MUTEX, NO_DEFAULT, SBYTE, SLONG, SWORD, Statement, UBYTE,
    ULONG, VOID, append, append_form, layout_of, op, words_of,
};
use nxt_layout::Layout;
use nxt_types::NoMemory;
use nxt_types::instr::Op;
use nxt_types::kind::Cmp;
use nxt_types::lists::{Bytes, ClumpRec, ClumpRecs, Words};
use nxt_types::opcodes::Arity;
use nxt_types::toc::Toc;
use nxt_types::words::LEFT_OUT;
use std::alloc::Global;
use std::process::Abort;
use std::test::Fail;

/// The variables that the tests name: two numbers at 0 and 1, lists of ubyte at 2 and of slong at 4, a mutex at 6, a cluster
/// at 7 with a place at 9 and a text at 12, and a void at 15. At 3, 5 and 13 stand elements. The cluster draws a text: it
/// has a result, a place, a text and options.
static VARIABLES: Image<'static> = Image {
    entries: &[
        (UBYTE, NO_DEFAULT, 0),
        (SLONG, NO_DEFAULT, 1),
        (ARRAY, NO_DEFAULT, 5),
        (UBYTE, 0, 0),
        (ARRAY, NO_DEFAULT, 7),
        (SLONG, 0, 0),
        (MUTEX, NO_DEFAULT, 9),
        (CLUSTER, 0, 4),
        (SBYTE, NO_DEFAULT, 13),
        (CLUSTER, 0, 2),
        (SWORD, NO_DEFAULT, 14),
        (SWORD, NO_DEFAULT, 16),
        (ARRAY, NO_DEFAULT, 18),
        (UBYTE, 0, 0),
        (ULONG, NO_DEFAULT, 20),
        (VOID, 0, 0),
    ],
    static_size: 24,
    rows: &[(24, 10, 1)],
    ..EMPTY
};

/// A program that is accepted.
struct Program {
    layout: Layout,
}

// With a function of its own the drop is proved once, and not at each end of a test.
impl Drop for Program {
    fn drop(self) {
        let Program { layout: _ } = self;
    }
}

fn accepted(alloc: Global, image: &Image) -> Result<Program, Fail> {
    let layout = layout_of(alloc, image)?;
    Ok(Program { layout })
}

// A clump that starts at a word, by how many dependents it has.
fn clump_of(alloc: Global, start: u16, dependents: u8) -> Result<ClumpRecs, Fail>
    ensures { IfOk result (λ clumps. clumps ≡ record { fire = 0; dependents = dependents; start = start } ∷ []) }
{
    let mut clumps = ClumpRecs::new(alloc);
    clumps.push(ClumpRec {
        fire: 0,
        dependents,
        start,
    })?;
    Ok(clumps)
}

fn bytes_of(alloc: Global, bytes: &[u8]) -> Result<Bytes, Fail>
    ensures { IfOk result (λ all. all ≡ bytes.now) }
{
    let mut all = Bytes::new(alloc);
    all.append(bytes)?;
    Ok(all)
}

// Why code of one clump is refused, which starts at a word and has these dependents.
fn fault(
    alloc: Global,
    toc: &Toc,
    start: u16,
    listed: &[u8],
    words: Words,
) -> Result<Option<CodeFault>, Fail> {
    if words.len() > 65535 {
        return Err("too many words".into());
    }
    let clumps = clump_of(alloc, start, u8::try_from(listed.len())?)?;
    let dependents = bytes_of(alloc, listed)?;
    Ok(check_code(alloc, toc, clumps, dependents, words).err())
}

/// Statements, the words behind them, the word at which the clump starts, and why the code is refused.
type Case<'a> = (&'a [Statement<'a>], &'a [u16], u16, Option<CodeFault>);

// A setout of two pairs, in seven words, and a finclump.
const SETOUT: [Statement<'static>; 2] = [
    &[op::SETOUT, 0, 2, 1, 0, 0],
    &[op::FINCLUMP, 0, LEFT_OUT],
];

static CASES: [Case<'static>; 12] = [
    // A jump leads to a statement.
    (&[&[op::JMP, 0]], &[], 0, None),
    (&[&[op::JMP, 1]], &[], 0, Some(CodeFault::Jump(0))),
    (&[&[op::JMP, 0xFFFF]], &[], 0, Some(CodeFault::Jump(0))),
    // Words that spell nothing.
    (&[], &[0x400F, 0x0000], 0, Some(CodeFault::Instr(0))),
    (&[&[op::JMP, 0]], &[0x4025], 0, Some(CodeFault::Instr(2))),
    // A clump starts at a statement.
    (&SETOUT, &[], 0, None),
    (&SETOUT, &[], 7, None),
    (&SETOUT, &[], 1, Some(CodeFault::ClumpStart(0))),
    (&SETOUT, &[], 10, Some(CodeFault::ClumpStart(0))),
    // The last statement ends the clump.
    (&[&[op::STOP, LEFT_OUT]], &[], 0, None),
    (&[&[op::STOP, 0]], &[], 0, Some(CodeFault::FallsOut(0))),
    (&[&[op::MOV, 0, 1]], &[], 0, Some(CodeFault::FallsOut(0))),
];

fn expect_fault(rt: &impl Abort, alloc: Global, toc: &Toc, case: &Case) -> Result<(), Fail> {
    let (statements, behind, start, refused) = case;
    let mut words = words_of(alloc, statements)?;
    words.append(behind)?;
    let found = fault(alloc, toc, *start, &[], words)?;
    assert_eq!(rt; found, *refused, "{statements:?}, {behind:?} from {start}");
    Ok(())
}

fn expect_faults(rt: &impl Abort, alloc: Global, toc: &Toc) -> Result<(), Fail> {
    for case in &CASES {
        expect_fault(rt, alloc, toc, case)?;
    }
    Ok(())
}

#[test]
fn code_at_the_edges_of_the_rules(rt: HostRuntime) -> Result<(), Fail> {
    let program = accepted(rt.alloc(), &VARIABLES)?;
    expect_faults(&rt, rt.alloc(), program.layout.toc())
}

// Why code without clumps is refused.
fn fault_of_nothing(alloc: Global, toc: &Toc) -> Option<CodeFault> {
    let clumps = ClumpRecs::new(alloc);
    let dependents = Bytes::new(alloc);
    let words = Words::new(alloc);
    check_code(alloc, toc, clumps, dependents, words).err()
}

#[test]
fn no_clump_is_refused(rt: HostRuntime) -> Result<(), Fail> {
    let program = accepted(rt.alloc(), &EMPTY)?;
    let found = fault_of_nothing(rt.alloc(), program.layout.toc());
    assert_eq!(rt; found, Some(CodeFault::ClumpCount(0)));
    Ok(())
}

// A jump to itself, of a clump that is its own dependent.
static OWN_JUMP: &[u16] = &[0x4025, 0x0000];

fn own_dependent(alloc: Global, toc: &Toc) -> Result<Code, Fail> {
    let mut words = Words::new(alloc);
    words.append(OWN_JUMP)?;
    if words.len() > 65535 {
        return Err("too many words".into());
    }
    let clumps = clump_of(alloc, 0, 1)?;
    let dependents = bytes_of(alloc, &[0])?;
    Ok(check_code(alloc, toc, clumps, dependents, words)?)
}

fn expect_kept(rt: &impl Abort, code: &Code) {
    let clump = ClumpRec {
        fire: 0,
        dependents: 1,
        start: 0,
    };
    assert_eq!(rt; code.words(), OWN_JUMP);
    assert_eq!(rt; code.clumps().as_slice(), [clump].as_slice());
    assert_eq!(rt; code.dependents().as_slice(), [0].as_slice());
}

#[test]
fn accepted_code_is_kept(rt: HostRuntime) -> Result<(), Fail> {
    let program = accepted(rt.alloc(), &EMPTY)?;
    let code = own_dependent(rt.alloc(), program.layout.toc())?;
    expect_kept(&rt, &code);
    Ok(())
}

// Why a jump to itself is refused, whose clump has these dependents.
fn fault_of_dependents(alloc: Global, toc: &Toc, listed: &[u8]) -> Result<Option<CodeFault>, Fail> {
    let words = words_of(alloc, &[&[op::JMP, 0]])?;
    fault(alloc, toc, 0, listed, words)
}

#[test]
fn a_dependent_names_a_clump(rt: HostRuntime) -> Result<(), Fail> {
    let program = accepted(rt.alloc(), &EMPTY)?;
    let refused = fault_of_dependents(rt.alloc(), program.layout.toc(), &[0, 1])?;
    assert_eq!(rt; refused, Some(CodeFault::Dependent(0, 1)));
    Ok(())
}

/// An operation with operands that are right, and beside each a wrong one, or the same where every word is right. An
/// operation of as many operands as one likes has three.
type Row = (Op, [u16; 5], [u16; 5]);

static ROWS: [Row; 45] = [
    (Op::Add, [0, 1, 0, 0, 0], [6, 4, 4, 0, 0]),
    (Op::Sub, [4, 4, 0, 0, 0], [7, 7, 7, 0, 0]),
    (Op::Neg, [0, 1, 0, 0, 0], [7, 4, 0, 0, 0]),
    (Op::Mul, [2, 0, 4, 0, 0], [15, 3, 1, 0, 0]),
    (Op::Div, [0, 1, 1, 0, 0], [0xC000, 16, LEFT_OUT, 0, 0]),
    (Op::Mod, [4, 0, 2, 0, 0], [6, 13, 0, 0, 0]),
    (Op::And, [1, 0, 1, 0, 0], [5, 2, 9, 0, 0]),
    (Op::Or, [2, 4, 4, 0, 0], [9, 6, 15, 0, 0]),
    (Op::Xor, [14, 8, 10, 0, 0], [7, 12, 12, 0, 0]),
    (Op::Not, [4, 2, 0, 0, 0], [6, 0, 0, 0, 0]),
    (Op::Cmp, [0, 4, 2, 0, 0], [6, 7, 1, 0, 0]),
    (Op::Tst, [2, 4, 0, 0, 0], [9, 1, 0, 0, 0]),
    (Op::Index, [0, 2, 1, 0, 0], [6, 0, 4, 0, 0]),
    (Op::Replace, [2, 4, 1, 0, 0], [0, 1, 4, 7, 0]),
    (Op::Arrsize, [0, 4, 0, 0, 0], [4, 0, 0, 0, 0]),
    (Op::Arrbuild, [2, 0, 4, 0, 0], [0, 7, 6, 0, 0]),
    (Op::Arrsubset, [2, 4, LEFT_OUT, 1, 0], [0, 1, 4, 7, 0]),
    (Op::Arrinit, [2, 0, 1, 0, 0], [0, 7, LEFT_OUT, 0, 0]),
    (Op::Mov, [0, 1, 0, 0, 0], [6, 4, 0, 0, 0]),
    (Op::Set, [0, LEFT_OUT, 0, 0, 0], [4, LEFT_OUT, 0, 0, 0]),
    (Op::Flatten, [2, 9, 0, 0, 0], [4, 7, 0, 0, 0]),
    (Op::Unflatten, [9, LEFT_OUT, 2, 9, 0], [6, 4, 4, 7, 0]),
    (Op::Numtostr, [2, 0, 0, 0, 0], [4, 2, 0, 0, 0]),
    (
        Op::Strtonum,
        [0, LEFT_OUT, 2, LEFT_OUT, 1],
        [LEFT_OUT, 2, 0, 2, 7],
    ),
    (Op::Strcat, [2, 12, 2, 0, 0], [4, 4, 0, 0, 0]),
    (Op::Strsubset, [2, 12, 0, LEFT_OUT, 0], [0, 4, 2, 2, 0]),
    (Op::Strtoarr, [2, 12, 0, 0, 0], [4, 4, 0, 0, 0]),
    (Op::Arrtostr, [12, 2, 0, 0, 0], [0, 0, 0, 0, 0]),
    (Op::Jmp, [2, 0, 0, 0, 0], [2, 0, 0, 0, 0]),
    (Op::Brcmp, [4, 0, 1, 0, 0], [4, 7, 4, 0, 0]),
    (Op::Brtst, [3, 0, 0, 0, 0], [3, 4, 0, 0, 0]),
    (Op::Syscall, [13, 7, 0, 0, 0], [18, 9, 0, 0, 0]),
    (Op::Stop, [LEFT_OUT, 0, 0, 0, 0], [4, 0, 0, 0, 0]),
    (Op::Finclump, [0, LEFT_OUT, 0, 0, 0], [0, LEFT_OUT, 0, 0, 0]),
    (Op::Finclumpimmed, [0, 0, 0, 0, 0], [1, 0, 0, 0, 0]),
    (Op::Acquire, [6, 0, 0, 0, 0], [0, 0, 0, 0, 0]),
    (Op::Release, [6, 0, 0, 0, 0], [LEFT_OUT, 0, 0, 0, 0]),
    (Op::Subcall, [0, 1, 0, 0, 0], [1, 4, 0, 0, 0]),
    (Op::Subret, [0, 0, 0, 0, 0], [LEFT_OUT, 0, 0, 0, 0]),
    (Op::Setin, [0, 1, 5, 0, 0], [4, 4, 6, 0, 0]),
    (Op::Setout, [4, 14, 1, 0, 0], [7, 15, 4, 0, 0]),
    (Op::Getin, [0, 1, 0, 0, 0], [LEFT_OUT, 4, 6, 0, 0]),
    (Op::Getout, [0, 1, 14, 0, 0], [4, 4, 15, 0, 0]),
    (Op::Wait, [LEFT_OUT, 0, 0, 0, 0], [2, 0, 0, 0, 0]),
    (Op::Gettick, [0, 0, 0, 0, 0], [LEFT_OUT, 0, 0, 0, 0]),
];

fn count(op: Op) -> usize
    ensures { result ≤ 5 }
{
    match op.arity() {
        Arity::Exactly(count) => usize::from(count),
        Arity::Several | Arity::Pairs => 3,
    }
}

// Why a statement and a stop behind it are refused.
fn fault_of(alloc: Global, toc: &Toc, op: Op, operands: &[u16]) -> Result<Option<CodeFault>, Fail> {
    let mut words = Words::new(alloc);
    let statement = Form {
        op,
        cmp: Cmp::Lt,
        operands,
    };
    append_form(&mut words, statement)?;
    append(&mut words, &[op::STOP, LEFT_OUT])?;
    fault(alloc, toc, 0, &[], words)
}

fn expect_operands(
    rt: &impl Abort,
    alloc: Global,
    toc: &Toc,
    op: Op,
    operands: &[u16],
    due: Option<CodeFault>,
) -> Result<(), Fail> {
    let found = fault_of(alloc, toc, op, operands)?;
    assert_eq!(rt; found, due, "{op:?} {operands:?}");
    Ok(())
}

// The right operands are accepted, and with each wrong one in turn they are not.
fn expect_row(rt: &impl Abort, alloc: Global, toc: &Toc, row: &Row) -> Result<(), Fail> {
    let (op, right, wrong) = row;
    let count = count(*op);
    expect_operands(rt, alloc, toc, *op, &right[..count], None)?;
    for k in 0..count {
        if wrong[k] != right[k] {
            let mut operands = *right;
            operands[k] = wrong[k];
            let due = Some(CodeFault::Operand(0, k as u32 + 1));
            expect_operands(rt, alloc, toc, *op, &operands[..count], due)?;
        }
    }
    Ok(())
}

fn expect_rows(rt: &impl Abort, alloc: Global, toc: &Toc) -> Result<(), Fail> {
    for row in &ROWS {
        expect_row(rt, alloc, toc, row)?;
    }
    Ok(())
}

#[test]
fn each_operand_is_of_its_class(rt: HostRuntime) -> Result<(), Fail> {
    let program = accepted(rt.alloc(), &VARIABLES)?;
    expect_rows(&rt, rt.alloc(), program.layout.toc())
}
