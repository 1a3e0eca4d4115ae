// The values with which the program of a file starts.

ghost use Rattle.std.specs.Prelude.{◌≡◌, ◌<◌, ◌≤◌, ◌+◌, ◌*◌, ◌-◌, ◌^◌, ◌++◌, List, OnOk, IfOk, length, drop, take, slice_index, map};
ghost use Rattle.std.specs.Int.{from_le_bytes};
ghost use Rattle.nxt_types.specs.Arithmetic.{leaf_size as size_of_leaf, width_of};
ghost use Rattle.nxt_types.specs.Bytes.{u16_at};
ghost use Rattle.nxt_types.specs.Shapes.{tree, members};
ghost use Rattle.nxt_types.specs.Names.{size, sizes};
ghost use Rattle.nxt_model.specs.Values.{Value, elements, values, flat, flats};
ghost use Rattle.nxt_model.specs.Means.Text.{number_in};
ghost use Rattle.nxt_model.specs.Reading.{HeldList, Reads, MembersRead, ReadsAs, leaf_place, dope_row};
ghost use Rattle.nxt_space.specs.Inside.Starts.{memory_of};

use nxt_layout::Layout;
use nxt_types::NoMemory;
use nxt_types::kind::Kind;
use nxt_types::lists::Nums;
use nxt_types::numbers::extend;
use nxt_types::pool::ROW_BYTES;
use nxt_types::shape::Shape;
use nxt_values::reading::{desc_at, size_of};
use std::alloc::Global;

// A byte of the dataspace; one past its end counts as 0.
fn byte_at(layout: &Layout, at: u32) -> u8
    ensures { result ≡ slice_index layout.now.dataspace at }
{
    match layout.dataspace().get(at as usize) {
        Some(byte) => *byte,
        None => 0,
    }
}

// The number of 16 bits at a place, the low byte first.
fn word_at(layout: &Layout, at: u32) -> u16
    requires { at < 2 ^ 32 - 1 }
    ensures { result ≡ u16_at layout.now.dataspace at }
{
    u16::from_le_bytes([byte_at(layout, at), byte_at(layout, at + 1)])
}

// The bytes of a number of a kind, read without a sign.
fn unsigned_at(layout: &Layout, at: u32, kind: Kind) -> u32
    requires { at < 2 ^ 32 - 3 }
    ensures { at + size_of_leaf kind ≤ length layout.now.dataspace → result ≡ from_le_bytes (width_of kind) (take (size_of_leaf kind) (drop at layout.now.dataspace)) }
{
    match kind {
        Kind::Ubyte | Kind::Sbyte => u32::from(byte_at(layout, at)),
        Kind::Uword | Kind::Sword => u32::from(word_at(layout, at)),
        Kind::Ulong | Kind::Slong => u32::from_le_bytes([
            byte_at(layout, at),
            byte_at(layout, at + 1),
            byte_at(layout, at + 2),
            byte_at(layout, at + 3),
        ]),
    }
}

// The number of a kind at a place.
fn number_at(layout: &Layout, at: u32, kind: Kind) -> i64
    requires { at < 2 ^ 32 - 3 }
    ensures { at + size_of_leaf kind ≤ length layout.now.dataspace → result ≡ number_in kind (drop at layout.now.dataspace) }
{
    extend(kind, unsigned_at(layout, at, kind))
}

// Where an entry's leaf stands in an element at `base`, or where `base` is 0 outside of all elements.
fn leaf_at(layout: &Layout, entry: u16, base: u32) -> u32
    requires { base ≤ 65535 * 65535 }
    ensures place { result ≡ leaf_place (memory_of layout.now) entry base }
    ensures within { result < 2 ^ 32 - 3 }
{
    base + u32::from(desc_at(layout.toc().entries(), entry))
}

// Where a row's elements begin, how many bytes they are apart, and how many there are.
#[derive(Clone, Copy)]
struct DopeRow {
    place: u16,
    stride: u16,
    count: u16,
}

// The row of that number; row 0 is an empty list.
fn row_of(layout: &Layout, number: u16) -> DopeRow
    ensures none { number ≡ 0 → result.count ≡ 0 }
    ensures place { 0 < number → result.place ≡ (dope_row (memory_of layout.now) number).place }
    ensures stride { 0 < number → result.stride ≡ (dope_row (memory_of layout.now) number).stride }
    ensures count { 0 < number → result.count ≡ (dope_row (memory_of layout.now) number).count }
{
    if number == 0 {
        return DopeRow {
            place: 0,
            stride: 0,
            count: 0,
        };
    }
    let at = u32::from(layout.dope_at()) + ROW_BYTES as u32 * u32::from(number);
    DopeRow {
        place: word_at(layout, at),
        stride: word_at(layout, at + 2),
        count: word_at(layout, at + 4),
    }
}

// Adds the flat form of the value whose first entry that is, in the element at `base`.
#[cycle(start)]
fn add_start(
    layout: &Layout,
    shape: &Shape,
    entry: u16,
    base: u32,
    into: &mut Nums,
) -> Result<(), NoMemory>
    requires entries { entry + size (tree shape.now) < 2 ^ 16 }
    requires base { base ≤ 65535 * 65535 }
    ensures { (v : Value) (lists : List HeldList) → Reads (memory_of layout.now) entry (tree shape.now) base v lists → OnOk result (into.new ≡ into.old ++ flat v) }
{
    match shape {
        Shape::Void | Shape::Mutex => into.push(0),
        Shape::Num(kind) => {
            let place = leaf_at(layout, entry, base);
            into.push(number_at(layout, place, *kind))
        }
        Shape::List(_, element) => {
            let place = leaf_at(layout, entry, base);
            let row = row_of(layout, word_at(layout, place));
            into.push(i64::from(row.count))?;
            for k in 0..row.count {
                let base = u32::from(row.place) + u32::from(k) * u32::from(row.stride);
                add_start(layout, element, entry + 1, base, into)?;
            }
            Ok(())
        }
        Shape::Group(members) => {
            add_starts(layout, members.items.as_slice(), entry + 1, base, into)
        }
    }
}

// Adds the flat forms of the values whose first begins there.
#[cycle(start)]
fn add_starts(
    layout: &Layout,
    shapes: &[Shape],
    entry: u16,
    base: u32,
    into: &mut Nums,
) -> Result<(), NoMemory>
    requires entries { entry + sizes (members (map tree shapes.now)) < 2 ^ 16 }
    requires base { base ≤ 65535 * 65535 }
    ensures { (vs : List Value) (lists : List HeldList) → MembersRead (memory_of layout.now) entry (members (map tree shapes.now)) base vs lists → OnOk result (into.new ≡ into.old ++ flats (values vs)) }
{
    let mut entry = entry;
    for shape in shapes {
        add_start(layout, shape, entry, base, into)?;
        entry += size_of(shape);
    }
    Ok(())
}

/// The flat forms of the values with which the variables of these shapes start.
pub fn start_of(alloc: Global, layout: &Layout, shapes: &[Shape]) -> Result<Nums, NoMemory>
    requires { sizes (members (map tree shapes.now)) < 2 ^ 16 }
    ensures { (vars : Value) (lists : List HeldList) → ReadsAs (memory_of layout.now) (members (map tree shapes.now)) vars lists → IfOk result (λ zs. zs ≡ flats (values (elements vars))) }
{
    let mut start = Nums::new(alloc);
    add_starts(layout, shapes, 0, 0, &mut start)?;
    Ok(start)
}
