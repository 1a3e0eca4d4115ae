// The table that types have in an image.

ghost use Rattle.std.specs.Prelude.{◌≡◌, ℕ, ◌+◌, ◌^◌, ◌<◌, ◌≤◌, List, [], ◌∷◌, ◌++◌, map, length, take, replicate, slice_index_or, All, MatchOption, IfOk, OnOk};
ghost use Rattle.nxt_types.specs.Arithmetic.{leaf_size};
ghost use Rattle.nxt_types.specs.Names.{sizes};
ghost use Rattle.nxt_types.specs.Shapes.{Void, Number, cluster_of, members as members_of};
ghost use Rattle.nxt_model.specs.Assembled.{all_entries, entry, leaves_sizes, places};
ghost use Rattle.nxt_model.specs.TextProgram.{base_shape, shape_by, struct_shape, struct_shapes};
ghost use Rattle.nxt_asm_parts.specs.Measures.{measure_of};
ghost use Rattle.nxt_asm_parts.specs.Places.{EntriesFit, after, array_entries, entries_among, entries_at, first_places, first_shapes, next_place, with_members, with_shape};

use crate::measure::{Measure, Measures};
use nxt_model::nbc::{NbcBase, NbcStruct, NbcType};
use nxt_types::NoMemory;
use nxt_types::kind::Kind;
use nxt_types::lists::Entries;
use nxt_types::shape::TocEntry;
use std::alloc::Global;

/// Where the next leaf of 4, of 2 and of 1 bytes stands.
#[derive(Clone, Copy)]
pub struct NextPlaces {
    pub fours: u64,
    pub twos: u64,
    pub ones: u64,
}

/// The entries of a table so far, and where the next leaves stand.
#[derive(Drop)]
pub struct TableSoFar {
    pub entries: Entries,
    pub next: NextPlaces,
}

// ---- places

impl NextPlaces {
    // Those of the first leaves, where all take so much.
    fn of(measure: Measure) -> NextPlaces
        ensures { result ≡ first_places measure }
    {
        NextPlaces {
            fours: 0,
            twos: measure.fours,
            ones: measure.fours.saturating_add(measure.twos),
        }
    }

    // Where the next leaf of this size in bytes stands.
    fn place(self, bytes: u64) -> u64
        ensures { result ≡ next_place self bytes }
    {
        if bytes == 4 {
            self.fours
        } else if bytes == 2 {
            self.twos
        } else {
            self.ones
        }
    }

    // Those behind such a leaf.
    fn behind(self, bytes: u64) -> NextPlaces
        ensures { result ≡ after self bytes }
    {
        let mut next = self;
        if bytes == 4 {
            next.fours = next.fours.saturating_add(4);
        } else if bytes == 2 {
            next.twos = next.twos.saturating_add(2);
        } else {
            next.ones = next.ones.saturating_add(1);
        }
        next
    }
}

// ---- entries

// Adds an entry.
fn write_entry(table: &mut TableSoFar, code: u8, desc: u64) -> Result<(), NoMemory>
    requires { desc < 2 ^ 16 }
    ensures { OnOk result (table.new ≡ record table.old { entries = table.old.entries ++ entry code desc ∷ [] }) }
{
    table.entries.push(TocEntry {
        code,
        flags: 0,
        desc: desc as u16,
    })
}

// Adds the entry of a leaf.
fn write_leaf(table: &mut TableSoFar, code: u8, bytes: u64) -> Result<(), NoMemory>
    requires { next_place table.old.next bytes < 2 ^ 16 }
    ensures { OnOk result (table.new ≡ record { entries = table.old.entries ++ entry code (next_place table.old.next bytes) ∷ []; next = after table.old.next bytes }) }
{
    let here = table.next;
    write_entry(table, code, here.place(bytes))?;
    table.next = here.behind(bytes);
    Ok(())
}

// Adds the entry of a number.
fn write_number(table: &mut TableSoFar, kind: Kind) -> Result<(), NoMemory>
    requires { next_place table.old.next (leaf_size kind) < 2 ^ 16 }
    ensures { OnOk result (table.new ≡ with_shape table.old (Number kind)) }
{
    match kind {
        Kind::Ubyte => write_leaf(table, 1, 1),
        Kind::Sbyte => write_leaf(table, 2, 1),
        Kind::Uword => write_leaf(table, 3, 2),
        Kind::Sword => write_leaf(table, 4, 2),
        Kind::Ulong => write_leaf(table, 5, 4),
        Kind::Slong => write_leaf(table, 6, 4),
    }
}

// Adds the entries of the arrays that are the elements of one another.
fn write_inner(table: &mut TableSoFar, arrays: usize) -> Result<(), NoMemory>
    ensures { OnOk result (table.new ≡ record table.old { entries = table.old.entries ++ replicate arrays (entry 7 0) }) }
{
    for _ in 0..arrays {
        write_entry(table, 7, 0)?;
    }
    Ok(())
}

// Adds the entries of an array and of those inside it, and says where the leaves behind it stand. Those of the innermost
// elements, which have a base, come next.
fn write_arrays(
    measures: &Measures,
    base: NbcBase,
    arrays: usize,
    table: &mut TableSoFar,
) -> Result<NextPlaces, NoMemory>
    requires some { 0 < arrays }
    requires fits { next_place table.old.next 2 < 2 ^ 16 }
    ensures outside { IfOk result (λ p. p ≡ after table.old.next 2) }
    ensures written { OnOk result (table.new ≡ record { entries = table.old.entries ++ array_entries arrays table.old.next; next = first_places (measure_of (base_shape (struct_shapes measures.now) base)) }) }
{
    write_leaf(table, 7, 2)?;
    write_inner(table, arrays - 1)?;
    let outside = table.next;
    table.next = NextPlaces::of(measures.measure(NbcType { base, arrays: 0 }));
    Ok(outside)
}

// ---- types

// The struct of that position, if it is one of the first.
pub(crate) fn struct_among(
    structs: &[NbcStruct],
    first: usize,
    position: usize,
) -> Option<&NbcStruct>
    ensures { MatchOption result (slice_index_or (first_shapes first structs.now) position Void ≡ Void) (λ s. (position < first) × (slice_index_or (first_shapes first structs.now) position Void ≡ struct_shape (first_shapes position structs.now) s.now)) }
{
    if position < first {
        structs.get(position)
    } else {
        None
    }
}

// Adds the entries of a type among the first structs.
#[cycle(table)]
fn write_type(
    structs: &[NbcStruct],
    measures: &Measures,
    first: usize,
    of: NbcType,
    table: &mut TableSoFar,
) -> Result<(), NoMemory>
    requires measures { measures.now ≡ structs.now }
    requires fits { EntriesFit (entries_at (shape_by (first_shapes first structs.now) of) table.old.next) }
    ensures { OnOk result (table.new ≡ with_shape table.old (shape_by (first_shapes first structs.now) of)) }
{
    if of.arrays == 0 {
        write_base(structs, measures, first, of.base, table)
    } else {
        let outside = write_arrays(measures, of.base, of.arrays, table)?;
        write_base(structs, measures, first, of.base, table)?;
        table.next = outside;
        Ok(())
    }
}

#[cycle(table)]
fn write_base(
    structs: &[NbcStruct],
    measures: &Measures,
    first: usize,
    base: NbcBase,
    table: &mut TableSoFar,
) -> Result<(), NoMemory>
    requires measures { measures.now ≡ structs.now }
    requires fits { EntriesFit (entries_at (base_shape (first_shapes first structs.now) base) table.old.next) }
    ensures { OnOk result (table.new ≡ with_shape table.old (base_shape (first_shapes first structs.now) base)) }
{
    match base {
        NbcBase::Number(kind) => write_number(table, kind),
        NbcBase::Mutex => write_leaf(table, 9, 4),
        NbcBase::Struct(position) => match struct_among(structs, first, position) {
            Some(found) => {
                write_entry(table, 8, found.members.len() as u64)?;
                write_members(structs, measures, position, found.members.as_slice(), table)
            }
            None => write_entry(table, 0, 0),
        },
    }
}

// Adds the entries of types among the first structs.
#[cycle(table)]
fn write_members(
    structs: &[NbcStruct],
    measures: &Measures,
    first: usize,
    types: &[NbcType],
    table: &mut TableSoFar,
) -> Result<(), NoMemory>
    requires measures { measures.now ≡ structs.now }
    requires fits { EntriesFit (entries_among (members_of (map (shape_by (first_shapes first structs.now)) types.now)) table.old.next) }
    ensures { OnOk result (table.new ≡ with_members table.old (members_of (map (shape_by (first_shapes first structs.now)) types.now))) }
{
    for of in types {
        write_type(structs, measures, first, *of, table)?;
    }
    Ok(())
}

// ---- the table

/// What variables of these types take together, and one entry.
pub fn measure_together(measures: &Measures, types: &[NbcType]) -> Measure
    ensures { result ≡ measure_of (cluster_of (map (shape_by (struct_shapes measures.now)) types.now)) }
{
    let mut whole = Measure::of_entry(0, 0, 0);
    for of in types {
        whole = whole.with(measures.measure(*of));
    }
    whole
}

/// The table of variables of these types.
pub fn table_of(
    alloc: Global,
    structs: &[NbcStruct],
    measures: &Measures,
    types: &[NbcType],
) -> Result<Entries, NoMemory>
    requires measures { measures.now ≡ structs.now }
    requires few { sizes (members_of (map (shape_by (struct_shapes structs.now)) types.now)) ≤ 49151 }
    requires fits { let ss = members_of (map (shape_by (struct_shapes structs.now)) types.now) in All (λ e. e.desc < 2 ^ 16) (all_entries ss (places (leaves_sizes ss))) }
    ensures { let ss = members_of (map (shape_by (struct_shapes structs.now)) types.now) in IfOk result (λ es. es ≡ all_entries ss (places (leaves_sizes ss))) }
{
    let mut table = TableSoFar {
        entries: Entries::new(alloc),
        next: NextPlaces::of(measure_together(measures, types)),
    };
    write_members(structs, measures, structs.len(), types, &mut table)?;
    Ok(table.entries)
}
