//! Programs told plainly, and the files that they are: what the tests build their files with.
#![tactic(auto)]

ghost use Rattle.std.specs.Prelude.{◌≡◌, ◌<◌, ◌^◌, ◌++◌, true, false, drop, length, slice_get, slice_index, Some, if◌then◌else◌, IfOk, IsTrue, OnOk};
ghost use Rattle.nxt_types.specs.Opcodes.{has_comparison, op_of};
ghost use Rattle.nxt_types.specs.Statements.{comparisons, long_form_of};
ghost use Rattle.nxt_rxe.specs.Files.{HasCounts, HasDynamic, IsFile, dependent_count};
ghost use Rattle.nxt_rxe.specs.declared.parts.Parts.{Parts as FileParts};
ghost use Rattle.nxt_layout.specs.Layouts.{IsLayout};

mod names;

pub use names::{cmp, op};
use nxt_instr::encode;
use nxt_layout::{Layout, check_layout};
use nxt_rxe::{Header, Parts, read_rxe, write_rxe};
use nxt_types::instr::Op;
use nxt_types::kind::Cmp;
use nxt_types::lists::{Bytes, ClumpRec, ClumpRecs, Entries, Words};
use nxt_types::shape::TocEntry;
use std::alloc::Global;
use std::test::Fail;

pub const VOID: u8 = 0;

pub const UBYTE: u8 = 1;

pub const SBYTE: u8 = 2;

pub const UWORD: u8 = 3;

pub const SWORD: u8 = 4;

pub const ULONG: u8 = 5;

pub const SLONG: u8 = 6;

pub const ARRAY: u8 = 7;

pub const CLUSTER: u8 = 8;

pub const MUTEX: u8 = 9;

/// The leaf takes no default.
pub const NO_DEFAULT: u8 = 1;

/// An entry of a table: the code of its type, its flags, and its description.
pub type Entry = (u8, u8, u16);

/// A row of a table of rows: its place, its stride, and its count.
pub type Row = (u16, u16, u16);

/// A statement: the number of its operation, that of its comparison where it has one, and its operands.
pub type Statement<'a> = &'a [u16];

/// How a clump is set going, and what it sets going: its fire count, and its dependents.
pub type Firing<'a> = (u8, &'a [u8]);

/// A program: its table, its static bytes and their defaults, the rows of its table of rows, the bytes behind them, how many
/// zeros the data ends with, the words at which its clumps start, the firing of the clumps from the first on, and its
/// statements. A clump whose firing isn't told has the fire count 0 and no dependents.
#[derive(Clone, Copy)]
pub struct Image<'a> {
    pub entries: &'a [Entry],
    pub static_size: u16,
    pub defaults: &'a [u8],
    pub rows: &'a [Row],
    pub lists: &'a [u8],
    pub zeros: u16,
    pub clumps: &'a [u16],
    pub firing: &'a [Firing<'a>],
    pub code: &'a [Statement<'a>],
}

pub const EMPTY: Image<'static> = Image {
    entries: &[],
    static_size: 0,
    defaults: &[],
    rows: &[],
    lists: &[],
    zeros: 0,
    clumps: &[],
    firing: &[],
    code: &[],
};

/// A statement by its parts.
#[derive(Clone, Copy)]
pub struct Form<'a> {
    pub op: Op,
    pub cmp: Cmp,
    pub operands: &'a [u16],
}

/// The parts of a statement.
pub fn form_of<'a>(statement: Statement<'a>) -> Result<Form<'a>, Fail>
    ensures op { IfOk result (λ f. op_of (slice_index statement.now 0) ≡ Some f.op) }
    ensures cmp { IfOk result (λ f. has_comparison f.op ≡ true → slice_get comparisons (slice_index statement.now 1) ≡ Some f.cmp) }
    ensures plain { IfOk result (λ f. has_comparison f.op ≡ false → f.cmp ≡ Cmp.Lt) }
    ensures operands { IfOk result (λ f. f.operands.now ≡ drop (if has_comparison f.op then 2 else 1) statement.now) }
{
    let [code, rest @ ..] = statement else {
        return Err("it has no operation".into());
    };
    let op = Op::from_code(u8::try_from(*code)?).ok_or("it is no operation")?;
    if !op.has_comparison() {
        return Ok(Form {
            op,
            cmp: Cmp::Lt,
            operands: rest,
        });
    }
    let [number, operands @ ..] = rest else {
        return Err("it has no comparison".into());
    };
    let cmp = Cmp::from_number(u8::try_from(*number)?).ok_or("it is no comparison")?;
    Ok(Form { op, cmp, operands })
}

/// Adds the words of a statement.
pub fn append(words: &mut Words, statement: Statement) -> Result<(), Fail> {
    append_form(words, form_of(statement)?)
}

/// The same of one that is told by its parts.
pub fn append_form(words: &mut Words, statement: Form) -> Result<(), Fail>
    ensures { OnOk result (words.new ≡ words.old ++ long_form_of statement.entry.op statement.entry.cmp statement.entry.operands.now) }
{
    let Form { op, cmp, operands } = statement;
    if !op.has_comparison() && cmp != Cmp::Lt {
        return Err("it compares nothing".into());
    }
    if operands.len() > 1000 || !op.arity().takes(operands.len()) {
        return Err("it takes another number of operands".into());
    }
    encode(op, cmp, operands, words)?;
    Ok(())
}

/// The words of statements, one behind another.
pub fn words_of(alloc: Global, statements: &[Statement]) -> Result<Words, Fail> {
    let mut words = Words::new(alloc);
    for statement in statements {
        append(&mut words, statement)?;
    }
    Ok(words)
}

fn push_word(bytes: &mut Bytes, word: u16) -> Result<(), Fail> {
    bytes.append(&word.to_le_bytes())?;
    Ok(())
}

// The table of rows, and the bytes behind it.
fn dynamic_of(alloc: Global, image: &Image) -> Result<Bytes, Fail> {
    let mut bytes = Bytes::new(alloc);
    for (place, stride, count) in image.rows {
        for number in [*place, *stride, *count, 0, 0] {
            push_word(&mut bytes, number)?;
        }
    }
    bytes.append(image.lists)?;
    Ok(bytes)
}

fn entries_of(alloc: Global, image: &Image) -> Result<Entries, Fail> {
    let mut entries = Entries::new(alloc);
    for (code, flags, desc) in image.entries {
        entries.push(TocEntry {
            code: *code,
            flags: *flags,
            desc: *desc,
        })?;
    }
    Ok(entries)
}

fn clumps_of(alloc: Global, image: &Image) -> Result<ClumpRecs, Fail> {
    let mut clumps = ClumpRecs::new(alloc);
    for (c, start) in image.clumps.iter().enumerate() {
        let (fire, dependents) = image.firing.get(c).copied().unwrap_or((0, &[]));
        clumps.push(ClumpRec {
            fire,
            dependents: u8::try_from(dependents.len())?,
            start: *start,
        })?;
    }
    Ok(clumps)
}

// The dependents of all clumps, one list behind another.
fn all_dependents(alloc: Global, image: &Image) -> Result<Bytes, Fail> {
    let mut all = Bytes::new(alloc);
    for (_fire, dependents) in image.firing {
        all.append(dependents)?;
    }
    Ok(all)
}

fn header_of(image: &Image, dynamic: usize, words: usize) -> Result<Header, Fail> {
    let fixed = image.static_size;
    let dyn_size = u16::try_from(dynamic)?;
    let dyn_at = u16::try_from(image.defaults.len())?;
    let behind = fixed.checked_add(dyn_size).ok_or("too many bytes")?;
    Ok(Header {
        toc_count: u16::try_from(image.entries.len())?,
        initial: behind.checked_add(image.zeros).ok_or("too many bytes")?,
        static_size: fixed,
        default_size: dyn_at.checked_add(dyn_size).ok_or("too many bytes")?,
        dyn_at: if dyn_size == 0 { 0 } else { dyn_at },
        dyn_size,
        head: 0,
        tail: 0,
        dope_at: if dyn_size == 0 { 0 } else { fixed },
        clump_count: u16::try_from(image.clumps.len())?,
        word_count: u16::try_from(words)?,
    })
}

// How many dependents the clumps have together.
fn dependents_of(clumps: &[ClumpRec]) -> usize
    requires { length clumps.now < 2 ^ 32 }
    ensures { result ≡ dependent_count clumps.now }
{
    let mut sum = 0;
    for clump in clumps {
        sum += usize::from(clump.dependents);
    }
    sum
}

fn has_counts(parts: &Parts) -> bool
    ensures { IsTrue result → HasCounts parts.now }
{
    parts.toc.len() == usize::from(parts.header.toc_count)
        && parts.defaults.len() == usize::from(parts.header.default_size)
        && parts.clumps.len() == usize::from(parts.header.clump_count)
        && parts.dependents.len() == dependents_of(parts.clumps.as_slice())
        && parts.code.len() == usize::from(parts.header.word_count)
}

fn has_dynamic(header: &Header) -> bool
    ensures { IsTrue result → HasDynamic header.now }
{
    let size = u32::from(header.dyn_size);
    u32::from(header.dyn_at) + size <= u32::from(header.default_size)
        && u32::from(header.static_size) + size <= u32::from(header.initial)
}

/// The parts of a program's file.
pub fn parts_of(alloc: Global, image: &Image) -> Result<Parts, Fail>
    ensures counts { IfOk result HasCounts }
    ensures dynamic { IfOk result (λ parts. HasDynamic parts.header) }
{
    let dynamic = dynamic_of(alloc, image)?;
    let code = words_of(alloc, image.code)?;
    let header = header_of(image, dynamic.len(), code.len())?;
    let mut defaults = Bytes::new(alloc);
    defaults.append(image.defaults)?;
    defaults.append(dynamic.as_slice())?;
    let parts = Parts {
        header,
        toc: entries_of(alloc, image)?,
        defaults,
        clumps: clumps_of(alloc, image)?,
        dependents: all_dependents(alloc, image)?,
        code,
    };
    if !has_counts(&parts) || !has_dynamic(&parts.header) {
        return Err("no file has these parts".into());
    }
    Ok(parts)
}

/// A program's file.
pub fn file_of(alloc: Global, image: &Image) -> Result<Bytes, Fail>
    ensures { IfOk result (λ file. (p : FileParts) × IsFile file p) }
{
    let parts = parts_of(alloc, image)?;
    Ok(write_rxe(alloc, &parts)?)
}

/// The layout of a program that is accepted.
pub fn layout_of(alloc: Global, image: &Image) -> Result<Layout, Fail>
    ensures { IfOk result (λ layout. (p : FileParts) × IsLayout p layout) }
{
    let file = file_of(alloc, image)?;
    let parts = read_rxe(alloc, file.as_slice())?;
    let (layout, _code) = check_layout(alloc, parts)?;
    Ok(layout)
}
