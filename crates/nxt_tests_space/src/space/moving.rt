// Blocks that move under the variables: after each store and each compaction the dump reads as the values.

ghost use Rattle.std.specs.Prelude.{◌≡◌, ◌<◌, ◌^◌};

use super::calls::store;
use super::found::same;
use super::{expect_flat, flat_of, started};
use nxt_images::{ARRAY, EMPTY, Image, NO_DEFAULT, SLONG, UBYTE};
use nxt_space::{Flat, Path, Space};
use nxt_types::toc::Toc;
use std::alloc::Global;
use std::process::Abort;
use std::test::Fail;

/// A list of lists of bytes, a list of bytes, and two numbers.
const LISTS: Image<'static> = Image {
    entries: &[
        (ARRAY, NO_DEFAULT, 0),
        (ARRAY, 0, 0),
        (UBYTE, 0, 0),
        (ARRAY, NO_DEFAULT, 2),
        (UBYTE, 0, 0),
        (SLONG, NO_DEFAULT, 4),
        (SLONG, NO_DEFAULT, 8),
    ],
    static_size: 12,
    rows: &[(12, 10, 1)],
    ..EMPTY
};

const NAMES: u16 = 0;

const TEXT: u16 = 3;

// ---- what a dump reads as

/// A dump, and where the table of rows stands in it.
#[derive(Drop)]
struct Dump<'a> {
    bytes: &'a [u8],
    table: usize,
}

impl Dump<'_> {
    // A word of 16 bits, or 0 past the end.
    fn word(&self, at: usize) -> usize
        ensures { result < 2 ^ 16 }
    {
        match (self.bytes.get(at), self.bytes.get(at.wrapping_add(1))) {
            (Some(low), Some(high)) => usize::from(u16::from_le_bytes([*low, *high])),
            _ => 0,
        }
    }

    // A word of a row of the table.
    fn row(&self, row: usize, field: usize) -> usize
        ensures { result < 2 ^ 16 }
    {
        let at = row.wrapping_mul(10).wrapping_add(2 * (field % 5));
        self.word(self.table.wrapping_add(at))
    }

    // The flat form of a list of bytes in a row.
    fn push_bytes(&self, row: usize, into: &mut Flat) -> Result<(), Fail> {
        let place = self.row(row, 0);
        let count = self.row(row, 2);
        into.push(count as i64)?;
        for k in 0..count {
            let byte = self.bytes.get(place + k).copied().unwrap_or(0);
            into.push(i64::from(byte))?;
        }
        Ok(())
    }

    // The flat form of a list of such lists.
    fn push_lists(&self, row: usize, into: &mut Flat) -> Result<(), Fail> {
        let place = self.row(row, 0);
        let count = self.row(row, 2);
        into.push(count as i64)?;
        for k in 0..count {
            let inner = self.word(place + 2 * k);
            self.push_bytes(inner, into)?;
        }
        Ok(())
    }
}

fn expect_value(
    rt: &impl Abort,
    alloc: Global,
    toc: &Toc,
    space: &Space,
    var: u16,
    read: &Flat,
) -> Result<(), Fail>
    requires { toc.now.shapes ≡ space.now.vars.shapes }
{
    let path = Path::whole(alloc, var);
    expect_flat(rt, alloc, toc, space, &path, read.as_slice())
}

// The dump has the value of the list of lists.
fn expect_names(
    rt: &impl Abort,
    alloc: Global,
    toc: &Toc,
    space: &Space,
    dump: &Dump,
) -> Result<(), Fail>
    requires { toc.now.shapes ≡ space.now.vars.shapes }
{
    let mut names = Flat::new(alloc);
    dump.push_lists(dump.word(0), &mut names)?;
    expect_value(rt, alloc, toc, space, NAMES, &names)
}

// The dump has the value of the list of bytes.
fn expect_text(
    rt: &impl Abort,
    alloc: Global,
    toc: &Toc,
    space: &Space,
    dump: &Dump,
) -> Result<(), Fail>
    requires { toc.now.shapes ≡ space.now.vars.shapes }
{
    let mut text = Flat::new(alloc);
    dump.push_bytes(dump.word(2), &mut text)?;
    expect_value(rt, alloc, toc, space, TEXT, &text)
}

fn expect_table(rt: &impl Abort, space: &Space, dump: &Dump) {
    assert_eq!(rt; dump.row(0, 0), dump.table);
    assert_eq!(rt; dump.row(0, 2), usize::from(space.row_count()));
}

// The dump has both lists' values, and its first row is the table's.
fn expect_dump(rt: &impl Abort, alloc: Global, toc: &Toc, space: &Space) -> Result<(), Fail>
    requires { toc.now.shapes ≡ space.now.vars.shapes }
{
    let bytes = space.dump(alloc)?;
    expect_bytes(rt, alloc, toc, space, bytes.as_slice())
}

fn expect_bytes(
    rt: &impl Abort,
    alloc: Global,
    toc: &Toc,
    space: &Space,
    bytes: &[u8],
) -> Result<(), Fail>
    requires { toc.now.shapes ≡ space.now.vars.shapes }
{
    let dump = Dump {
        bytes,
        table: space.table_place() as usize,
    };
    expect_table(rt, space, &dump);
    expect_names(rt, alloc, toc, space, &dump)?;
    expect_text(rt, alloc, toc, space, &dump)
}

// ---- steps

/// What is stored, or how many blocks have leave to move.
#[derive(Drop)]
enum Step {
    Store(u16, Flat),
    Compact(u16),
}

// After a compaction that many blocks fewer are unsettled.
fn compact(rt: &impl Abort, space: &mut Space, k: u16)
    ensures { space.new.vars ≡ space.old.vars }
{
    let unsettled = space.unsettled();
    let moved = space.compact(k);
    let due = k.min(unsettled);
    same(rt, moved, due, "what moves");
    let left = unsettled.wrapping_sub(moved);
    same(rt, space.unsettled(), left, "what could move");
}

fn take(
    rt: &impl Abort,
    alloc: Global,
    toc: &Toc,
    space: &mut Space,
    step: &Step,
) -> Result<(), Fail>
    requires { toc.now.shapes ≡ space.old.vars.shapes }
    ensures { space.new.vars.shapes ≡ space.old.vars.shapes }
{
    match step {
        Step::Store(var, flat) => {
            same(rt, store(rt, toc, space, *var, flat), Ok(()), "the store");
            expect_dump(rt, alloc, toc, space)
        }
        Step::Compact(k) => {
            compact(rt, space, *k);
            expect_dump(rt, alloc, toc, space)
        }
    }
}

// ---- a hundred inner lists

// A list of lists without elements.
fn lists_without_bytes(alloc: Global, count: u8) -> Result<Flat, Fail> {
    let mut flat = flat_of(alloc, &[i64::from(count)])?;
    for _ in 0..count {
        flat.push(0)?;
    }
    Ok(flat)
}

fn store_lists(
    rt: &impl Abort,
    alloc: Global,
    toc: &Toc,
    space: &mut Space,
    count: u8,
) -> Result<(), Fail>
    requires { toc.now.shapes ≡ space.old.vars.shapes }
    ensures { space.new.vars.shapes ≡ space.old.vars.shapes }
{
    let flat = lists_without_bytes(alloc, count)?;
    let step = Step::Store(NAMES, flat);
    take(rt, alloc, toc, space, &step)
}

fn expect_settled(rt: &impl Abort, alloc: Global, space: &Space) -> Result<(), Fail> {
    same(rt, space.table_place(), 12, "the table's place");
    same(rt, space.row_count(), 103, "the rows");
    same(rt, space.unsettled(), 0, "what could move");
    let dump = space.dump(alloc)?;
    assert_eq!(rt; dump.as_slice().len(), 1_044);
    Ok(())
}

fn come_and_go(rt: &impl Abort, alloc: Global, toc: &Toc, space: &mut Space) -> Result<(), Fail>
    requires { toc.now.shapes ≡ space.old.vars.shapes }
{
    store_lists(rt, alloc, toc, space, 100)?;
    store_lists(rt, alloc, toc, space, 0)?;
    take(rt, alloc, toc, space, &Step::Compact(2))?;
    expect_settled(rt, alloc, space)
}

// The table has grown to 103 rows of 1,030 bytes, and once two blocks had leave to move it stands right above the static bytes.
#[test]
fn a_hundred_inner_lists_come_and_go(rt: HostRuntime) -> Result<(), Fail> {
    let mut program = started(rt.alloc(), &LISTS)?;
    let toc = program.layout.toc();
    come_and_go(&rt, rt.alloc(), toc, &mut program.space)
}

// ---- any order

/// Numbers that look drawn, by a linear congruence.
#[derive(Drop)]
struct Drawn(u32);

impl Drawn {
    // One below a limit.
    fn below(&mut self, limit: u32) -> u32
        requires { 0 < limit }
        ensures { result < limit }
    {
        self.0 = self.0.wrapping_mul(1_664_525).wrapping_add(1_013_904_223);
        (self.0 >> 16) % limit
    }

    // A list of bytes, in flat form.
    fn push_list(&mut self, most: u32, into: &mut Flat) -> Result<(), Fail>
        requires { most < 1000 }
    {
        let count = self.below(most + 1);
        into.push(i64::from(count))?;
        for _ in 0..count {
            into.push(i64::from(self.below(256)))?;
        }
        Ok(())
    }

    fn step(&mut self, alloc: Global) -> Result<Step, Fail> {
        let mut flat = Flat::new(alloc);
        match self.below(4) {
            0 => Ok(Step::Compact(self.below(6) as u16)),
            1 => {
                self.push_list(400, &mut flat)?;
                Ok(Step::Store(TEXT, flat))
            }
            _ => {
                let count = self.below(24);
                flat.push(i64::from(count))?;
                for _ in 0..count {
                    self.push_list(60, &mut flat)?;
                }
                Ok(Step::Store(NAMES, flat))
            }
        }
    }
}

fn take_drawn(
    rt: &impl Abort,
    alloc: Global,
    toc: &Toc,
    space: &mut Space,
    drawn: &mut Drawn,
) -> Result<(), Fail>
    requires { toc.now.shapes ≡ space.old.vars.shapes }
    ensures { space.new.vars.shapes ≡ space.old.vars.shapes }
{
    let step = drawn.step(alloc)?;
    take(rt, alloc, toc, space, &step)
}

// Takes many steps, and starts anew.
fn take_many(
    rt: &impl Abort,
    alloc: Global,
    toc: &Toc,
    space: &mut Space,
    seed: u32,
) -> Result<(), Fail>
    requires { toc.now.shapes ≡ space.old.vars.shapes }
{
    let mut drawn = Drawn(seed);
    for _ in 0..60 {
        take_drawn(rt, alloc, toc, space, &mut drawn)?;
    }
    space.reset();
    same(rt, space.footprint(), 12 + 32, "the footprint");
    expect_dump(rt, alloc, toc, space)
}

fn check_seed(rt: &impl Abort, alloc: Global, seed: u32) -> Result<(), Fail> {
    let mut program = started(alloc, &LISTS)?;
    let toc = program.layout.toc();
    take_many(rt, alloc, toc, &mut program.space, seed)
}

#[test]
fn values_outlive_moves_in_any_order(rt: HostRuntime) -> Result<(), Fail> {
    for seed in 0..8 {
        check_seed(&rt, rt.alloc(), seed)?;
    }
    Ok(())
}
