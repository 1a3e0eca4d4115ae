// What types take in an image.

ghost use Rattle.std.specs.Prelude.{◌≡◌, ℕ, ◌+◌, ◌^◌, ◌<◌, List, [], ◌∷◌, ◌++◌, map, length, take, nat_abs, IfOk};
ghost use Rattle.nxt_types.specs.Shapes.{Shape, Number, Void, cluster_of, leaf_bytes};
ghost use Rattle.nxt_model.specs.Assembled.{entries_before};
ghost use Rattle.nxt_model.specs.TextProgram.{arrays_of, base_shape, shape_by, struct_shape, struct_shapes};
ghost use Rattle.nxt_asm_parts.specs.Elements.{large_in};
ghost use Rattle.nxt_asm_parts.specs.Measures.{held, measure_of};
ghost use Rattle.nxt_asm_parts.specs.MeasuresSeen.{AreMeasured, IsStep, shapes_seen, struct_measure};

use nxt_model::nbc::{NbcBase, NbcStruct, NbcType};
use nxt_types::NoMemory;
use nxt_types::kind::Kind;
use nxt_types::lists::ListOf;
use std::alloc::Global;
use std::marker::Model;

/// The most bytes that an array's element may take.
const MOST_ELEMENT: u64 = 32_768;

/// What a type takes in an image: its table entries, the bytes of its leaves of 4, of 2 and of 1 bytes, and its arrays that
/// stand in no element. A count that doesn't fit its field is held at the greatest.
#[derive(Clone, Copy, PartialEq, Eq, Debug)]
pub struct Measure {
    pub entries: u64,
    pub fours: u64,
    pub twos: u64,
    pub ones: u64,
    pub arrays: u64,
}

/// A member of a struct: its type, and the entries between the struct's own and the member's.
#[derive(Clone, Copy, PartialEq, Eq, Debug)]
pub struct MemberMeasure {
    pub shape: NbcType,
    pub before: u64,
}

/// What a struct takes, its members, and the bytes of the first element of its arrays that is too large.
#[derive(Drop)]
pub struct StructMeasure {
    pub whole: Measure,
    pub members: ListOf<MemberMeasure>,
    pub large: Option<u64>,
}

/// The measures of a program's structs.
#[derive(Drop)]
pub struct Measures {
    structs: Vec<StructMeasure>,
}

impl Model for Measures {
    ghost use Rattle.std.specs.Prelude.{List, []};
    ghost use Rattle.nxt_model.specs.declared.nbc.NbcStruct.{NbcStruct};
    ghost use Rattle.nxt_asm_parts.specs.MeasuresSeen.{AreMeasured, structs_seen};

    ghost Value = { List NbcStruct };

    ghost view = { λ m. structs_seen m.structs.items };

    ghost invariant = { λ m. AreMeasured [] m.structs.items };
}

// ---- one type

impl Measure {
    /// The bytes of its leaves.
    pub fn bytes(self) -> u64
        ensures { (s : Shape) → self ≡ measure_of s → result ≡ held (leaf_bytes s) }
    {
        self.fours
            .saturating_add(self.twos)
            .saturating_add(self.ones)
    }

    /// That of one entry, by how many leaves of four bytes, of two and of one it has.
    pub(crate) fn of_entry(fours: u64, twos: u64, ones: u64) -> Measure
        ensures { result ≡ record { entries = 1; fours = fours; twos = twos; ones = ones; arrays = 0 } }
    {
        Measure {
            entries: 1,
            fours,
            twos,
            ones,
            arrays: 0,
        }
    }

    // That of a number.
    fn of_number(kind: Kind) -> Measure
        ensures { result ≡ measure_of (Number kind) }
    {
        match kind {
            Kind::Ubyte | Kind::Sbyte => Measure::of_entry(0, 0, 1),
            Kind::Uword | Kind::Sword => Measure::of_entry(0, 2, 0),
            Kind::Ulong | Kind::Slong => Measure::of_entry(4, 0, 0),
        }
    }

    /// That of a struct with one member more.
    pub(crate) fn with(self, member: Measure) -> Measure
        ensures { (ss : List Shape) (s : Shape) → self ≡ measure_of (cluster_of ss) → member ≡ measure_of s → result ≡ measure_of (cluster_of (ss ++ s ∷ [])) }
    {
        Measure {
            entries: self.entries.saturating_add(member.entries),
            fours: self.fours.saturating_add(member.fours),
            twos: self.twos.saturating_add(member.twos),
            ones: self.ones.saturating_add(member.ones),
            arrays: self.arrays.saturating_add(member.arrays),
        }
    }

    // That of a type with this number of arrays around it.
    fn of_arrays(self, arrays: usize) -> Measure
        ensures { (s : Shape) → self ≡ measure_of s → result ≡ measure_of (arrays_of arrays s) }
    {
        if arrays == 0 {
            self
        } else {
            Measure {
                entries: self.entries.saturating_add(arrays as u64),
                fours: 0,
                twos: 2,
                ones: 0,
                arrays: 1,
            }
        }
    }
}

// ---- types among structs

// What a type takes, among structs.
fn measure_among(structs: &[StructMeasure], of: NbcType) -> Measure
    requires { AreMeasured [] structs.now }
    ensures { result ≡ measure_of (shape_by (shapes_seen structs.now) of) }
{
    base_measure(structs, of.base).of_arrays(of.arrays)
}

fn base_measure(structs: &[StructMeasure], base: NbcBase) -> Measure
    requires { AreMeasured [] structs.now }
    ensures { result ≡ measure_of (base_shape (shapes_seen structs.now) base) }
{
    match base {
        NbcBase::Number(kind) => Measure::of_number(kind),
        NbcBase::Mutex => Measure::of_entry(4, 0, 0),
        NbcBase::Struct(position) => match structs.get(position) {
            Some(found) => found.whole,
            None => Measure::of_entry(0, 0, 0),
        },
    }
}

// The bytes of the first element that is too large, of the arrays in a type among structs.
fn large_among(structs: &[StructMeasure], of: NbcType) -> Option<u64>
    requires { AreMeasured [] structs.now }
    ensures { result ≡ large_in (shape_by (shapes_seen structs.now) of) }
{
    let bytes = base_measure(structs, of.base).bytes();
    if of.arrays > 0 && bytes > MOST_ELEMENT {
        Some(bytes)
    } else {
        base_large(structs, of.base)
    }
}

fn base_large(structs: &[StructMeasure], base: NbcBase) -> Option<u64>
    requires { AreMeasured [] structs.now }
    ensures { result ≡ large_in (base_shape (shapes_seen structs.now) base) }
{
    match base {
        NbcBase::Struct(position) => match structs.get(position) {
            Some(found) => found.large,
            None => None,
        },
        NbcBase::Number(_) | NbcBase::Mutex => None,
    }
}

// What a struct takes behind others.
fn measure_behind(
    alloc: Global,
    structs: &[StructMeasure],
    types: &[NbcType],
) -> Result<StructMeasure, NoMemory>
    requires { AreMeasured [] structs.now }
    ensures { IfOk result (λ m. m ≡ struct_measure (shapes_seen structs.now) (record { members = types.now })) }
{
    let mut whole = Measure::of_entry(0, 0, 0);
    let mut members = ListOf::new(alloc);
    let mut large = None;
    for of in types {
        members.push(MemberMeasure {
            shape: *of,
            before: whole.entries,
        })?;
        whole = whole.with(measure_among(structs, *of));
        large = large.or(large_among(structs, *of));
    }
    Ok(StructMeasure {
        whole,
        members,
        large,
    })
}

// ---- steps to members

/// A type that has no members.
pub(crate) fn without_members() -> NbcType
    ensures { (ss : List Shape) (ks : List ℕ) → entries_before ks (shape_by ss result) ≡ entries_before ks Void }
{
    NbcType {
        base: NbcBase::Mutex,
        arrays: 0,
    }
}

// A step where there are no members.
fn step_nowhere() -> MemberMeasure
    ensures before { result.before ≡ 1 }
    ensures rest { (ss : List Shape) (ks : List ℕ) → entries_before ks (shape_by ss result.shape) ≡ entries_before ks Void }
{
    MemberMeasure {
        shape: without_members(),
        before: 1,
    }
}

// A type by the first of the structs: one of the others counts as nothing.
fn among_first(of: NbcType, first: usize) -> NbcType
    ensures { (ss : List Shape) (ks : List ℕ) → entries_before ks (shape_by ss result) ≡ entries_before ks (shape_by (take first ss) of) }
{
    match of.base {
        NbcBase::Struct(position) => {
            if position < first {
                of
            } else {
                without_members()
            }
        }
        NbcBase::Number(_) | NbcBase::Mutex => of,
    }
}

// A step into a struct, which stands behind `behind` others.
fn step_in(found: &StructMeasure, behind: usize, position: usize) -> MemberMeasure
    ensures { (ss : List Shape) (types : List NbcType) → found.now ≡ struct_measure (take behind ss) (record { members = types }) → IsStep ss position (struct_shape (take behind ss) (record { members = types })) result }
{
    match found.members.as_slice().get(position) {
        Some(member) => MemberMeasure {
            shape: among_first(member.shape, behind),
            before: member.before,
        },
        None => MemberMeasure {
            shape: without_members(),
            before: found.whole.entries,
        },
    }
}

// A step to a member of a base.
fn base_step(structs: &[StructMeasure], base: NbcBase, position: usize) -> MemberMeasure
    requires { AreMeasured [] structs.now }
    ensures { IsStep (shapes_seen structs.now) position (base_shape (shapes_seen structs.now) base) result }
{
    match base {
        NbcBase::Struct(at) => match structs.get(at) {
            Some(found) => step_in(found, at, position),
            None => step_nowhere(),
        },
        NbcBase::Number(_) | NbcBase::Mutex => step_nowhere(),
    }
}

// A step to a member of a type.
fn step(structs: &[StructMeasure], of: NbcType, position: usize) -> MemberMeasure
    requires { AreMeasured [] structs.now }
    ensures { IsStep (shapes_seen structs.now) position (shape_by (shapes_seen structs.now) of) result }
{
    if of.arrays == 0 {
        base_step(structs, of.base, position)
    } else {
        step_nowhere()
    }
}

// The entries between a variable's own and that of the part that member positions lead to.
fn entries_along(structs: &[StructMeasure], of: NbcType, path: &[i64]) -> u64
    requires { AreMeasured [] structs.now }
    ensures { result ≡ held (entries_before (map nat_abs path.now) (shape_by (shapes_seen structs.now) of)) }
{
    let mut entries: u64 = 0;
    let mut reached = of;
    for position in path {
        let next = step(structs, reached, position.unsigned_abs() as usize);
        entries = entries.saturating_add(next.before);
        reached = next.shape;
    }
    entries
}

// ---- the structs of a program

impl Measures {
    /// Those of structs, of which each can have the ones before it as members.
    pub fn of(alloc: Global, structs: &[NbcStruct]) -> Result<Measures, NoMemory>
        ensures { IfOk result (λ m. m ≡ structs.now) }
    {
        let mut measured = Vec::new(alloc);
        for one in structs {
            let next = measure_behind(alloc, measured.as_slice(), one.members.as_slice())?;
            measured.push(next)?;
        }
        Ok(Measures { structs: measured })
    }

    /// What a type takes.
    pub fn measure(&self, of: NbcType) -> Measure
        ensures { result ≡ measure_of (shape_by (struct_shapes self.now) of) }
    {
        measure_among(self.structs.as_slice(), of)
    }

    /// The bytes of the first element that is too large, of the arrays in some types.
    pub fn large_element(&self, types: &[NbcType]) -> Option<u64>
        ensures { result ≡ large_in (cluster_of (map (shape_by (struct_shapes self.now)) types.now)) }
    {
        let mut large = None;
        for of in types {
            large = large.or(large_among(self.structs.as_slice(), *of));
        }
        large
    }

    /// The entries between a variable's own entry and that of the part that member positions lead to.
    pub fn entries_before(&self, of: NbcType, path: &[i64]) -> u64
        ensures { result ≡ held (entries_before (map nat_abs path.now) (shape_by (struct_shapes self.now) of)) }
    {
        entries_along(self.structs.as_slice(), of, path)
    }
}
