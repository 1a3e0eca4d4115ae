// What the variables of small files read as, and the bytes of the pool that they take. The bytes are worked out by hand:
// round4(static size) + round4(10 * rows) + round4(length * stride) for each list, those in lists included.

ghost use Rattle.std.specs.Prelude.{◌≡◌, IfOk};

mod calls;
mod counting;
mod found;
mod inner;
mod lists;
mod moving;
mod pool;
mod spots;

use calls::{gather, length, set, store};
use found::same;
use nxt_images::{EMPTY, Image, NO_DEFAULT, SBYTE, SLONG, SWORD, UBYTE, ULONG, UWORD, layout_of};
use nxt_layout::Layout;
use nxt_space::{Flat, Path, PoolPassed, Space};
use nxt_types::toc::Toc;
use std::alloc::Global;
use std::process::Abort;
use std::test::Fail;

/// The variables of a program, and the layout that tells what they are.
struct Program {
    layout: Layout,
    space: Space,
}

// With a function of its own the drop is proved once, and not at each end of a test.
impl Drop for Program {
    fn drop(self) {
        let Program {
            layout: _,
            space: _,
        } = self;
    }
}

/// A program whose variables are at their start.
fn started(alloc: Global, image: &Image) -> Result<Program, Fail>
    ensures { IfOk result (λ program. program.layout.shapes ≡ program.space.vars.shapes) }
{
    let layout = layout_of(alloc, image)?;
    let space = Space::new(alloc, &layout)?;
    Ok(Program { layout, space })
}

fn flat_of(alloc: Global, numbers: &[i64]) -> Result<Flat, Fail> {
    let mut flat = Flat::new(alloc);
    flat.append(numbers)?;
    Ok(flat)
}

/// A part of a variable: the entry and the positions that lead to it, its flat form, and its length.
type Part<'a> = (u16, &'a [i64], &'a [i64], u32);

/// What parts of the variables are, how many rows the table of rows has, and how many bytes of the pool are taken.
#[derive(Clone, Copy)]
struct State<'a> {
    parts: &'a [Part<'a>],
    rows: u16,
    footprint: u32,
}

/// What is stored at an entry, the answer, and the variables afterwards.
#[derive(Clone, Copy)]
struct Step<'a> {
    at: u16,
    flat: &'a [i64],
    answer: Result<(), PoolPassed>,
    state: State<'a>,
}

// The part at a path has these numbers as its flat form.
fn expect_flat(
    rt: &impl Abort,
    alloc: Global,
    toc: &Toc,
    space: &Space,
    path: &Path,
    flat: &[i64],
) -> Result<(), Fail>
    requires { toc.now.shapes ≡ space.now.vars.shapes }
{
    let mut found = Flat::new(alloc);
    gather(rt, alloc, toc, space, path, &mut found)?;
    same_flat(rt, found.as_slice(), flat, path.var);
    Ok(())
}

fn same_flat(rt: &impl Abort, found: &[i64], due: &[i64], var: u16) {
    assert_eq!(rt; found, due, "at {var}");
}

// The part at a path is as long as that.
fn expect_length(
    rt: &impl Abort,
    alloc: Global,
    toc: &Toc,
    space: &Space,
    path: &Path,
    count: u32,
) -> Result<(), Fail>
    requires { toc.now.shapes ≡ space.now.vars.shapes }
{
    let found = length(rt, alloc, toc, space, path)?;
    assert_eq!(rt; found, count, "at {}", path.var);
    Ok(())
}

// The part at a path has this flat form and this length.
fn expect_at(
    rt: &impl Abort,
    alloc: Global,
    toc: &Toc,
    space: &Space,
    path: &Path,
    part: &Part,
) -> Result<(), Fail>
    requires { toc.now.shapes ≡ space.now.vars.shapes }
{
    expect_flat(rt, alloc, toc, space, path, part.2)?;
    expect_length(rt, alloc, toc, space, path, part.3)
}

fn expect_part(
    rt: &impl Abort,
    alloc: Global,
    toc: &Toc,
    space: &Space,
    part: &Part,
) -> Result<(), Fail>
    requires { toc.now.shapes ≡ space.now.vars.shapes }
{
    let steps = flat_of(alloc, part.1)?;
    let path = Path { var: part.0, steps };
    expect_at(rt, alloc, toc, space, &path, part)
}

fn expect(
    rt: &impl Abort,
    alloc: Global,
    toc: &Toc,
    space: &Space,
    state: &State,
) -> Result<(), Fail>
    requires { toc.now.shapes ≡ space.now.vars.shapes }
{
    for part in state.parts {
        expect_part(rt, alloc, toc, space, part)?;
    }
    assert_eq!(rt; space.row_count(), state.rows);
    assert_eq!(rt; space.footprint(), state.footprint);
    Ok(())
}

fn take(
    rt: &impl Abort,
    alloc: Global,
    toc: &Toc,
    space: &mut Space,
    step: &Step,
) -> Result<(), Fail>
    requires { toc.now.shapes ≡ space.old.vars.shapes }
    ensures { space.new.vars.shapes ≡ space.old.vars.shapes }
{
    let flat = flat_of(alloc, step.flat)?;
    let answer = store(rt, toc, space, step.at, &flat);
    expect_answer(rt, answer, step);
    expect(rt, alloc, toc, space, &step.state)
}

fn expect_answer(rt: &impl Abort, answer: Result<(), PoolPassed>, step: &Step) {
    assert_eq!(rt; answer, step.answer, "{:?} at {}", step.flat, step.at);
}

// The variables start so, and do so again after the steps.
fn take_all(
    rt: &impl Abort,
    alloc: Global,
    toc: &Toc,
    space: &mut Space,
    start: &State,
    steps: &[Step],
) -> Result<(), Fail>
    requires { toc.now.shapes ≡ space.old.vars.shapes }
{
    expect(rt, alloc, toc, space, start)?;
    for step in steps {
        take(rt, alloc, toc, space, step)?;
    }
    space.reset();
    expect(rt, alloc, toc, space, start)
}

/// Takes the steps on the variables of a program at their start.
fn check(
    rt: &impl Abort,
    alloc: Global,
    image: &Image,
    start: &State,
    steps: &[Step],
) -> Result<(), Fail> {
    let mut program = started(alloc, image)?;
    let toc = program.layout.toc();
    take_all(rt, alloc, toc, &mut program.space, start, steps)
}

static KINDS: Image<'static> = Image {
    entries: &[
        (UBYTE, NO_DEFAULT, 0),
        (SBYTE, NO_DEFAULT, 1),
        (UWORD, NO_DEFAULT, 2),
        (SWORD, NO_DEFAULT, 4),
        (ULONG, NO_DEFAULT, 6),
        (SLONG, NO_DEFAULT, 10),
    ],
    static_size: 14,
    ..EMPTY
};

/// Entries, numbers that are stored there, and what is left of them.
static CUT: [(u16, i64, i64); 24] = [
    (0, 255, 255),
    (0, 256, 0),
    (0, -1, 255),
    (0, i64::MAX, 255),
    (1, 127, 127),
    (1, 128, -128),
    (1, -129, 127),
    (1, i64::MAX, -1),
    (2, 65535, 65535),
    (2, 65536, 0),
    (2, -1, 65535),
    (2, i64::MIN, 0),
    (3, 32767, 32767),
    (3, 32768, -32768),
    (3, -32769, 32767),
    (3, i64::MIN, 0),
    (4, 4294967295, 4294967295),
    (4, 4294967296, 0),
    (4, -1, 4294967295),
    (4, i64::MIN, 0),
    (5, 2147483647, 2147483647),
    (5, 2147483648, -2147483648),
    (5, -2147483649, 2147483647),
    (5, i64::MAX, -1),
];

fn expect_numbers(rt: &impl Abort, space: &Space, numbers: &[i64; 6]) {
    for (k, number) in numbers.iter().enumerate() {
        assert!(rt; k < 6);
        assert_eq!(rt; space.get(k as u16), *number, "at {k}");
    }
}

// All other numbers stay.
fn check_cuts(rt: &impl Abort, toc: &Toc, space: &mut Space, cuts: &[(u16, i64, i64)])
    requires { toc.now.shapes ≡ space.old.vars.shapes }
{
    let mut left = [0; 6];
    for (i, x, cut) in cuts {
        set(rt, toc, space, *i, *x);
        if let Some(number) = left.get_mut(usize::from(*i)) {
            *number = *cut;
        }
        expect_numbers(rt, space, &left);
    }
}

// There is no seventh number, and no block that could move.
fn expect_no_more(rt: &impl Abort, space: &mut Space) {
    same(rt, space.get(6), 0, "the seventh number");
    same(rt, space.footprint(), 16 + 12, "the footprint");
    same(rt, space.table_place(), 16, "the table's place");
    same(rt, space.compact(9), 0, "what moves");
    same(rt, space.unsettled(), 0, "what could move");
}

#[test]
fn numbers_are_cut_to_their_kind(rt: HostRuntime) -> Result<(), Fail> {
    let mut program = started(rt.alloc(), &KINDS)?;
    check_cuts(&rt, program.layout.toc(), &mut program.space, &CUT);
    expect_no_more(&rt, &mut program.space);
    Ok(())
}
