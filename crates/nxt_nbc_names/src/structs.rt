// The structs of a text, and its types.

ghost use Rattle.std.specs.Prelude.{◌≡◌, ◌<◌, ◌^◌, [], ◌∷◌, ◌++◌, bytes_eq, codes, find, is_some, length, map, position, IfOk, OnOk};
ghost use Rattle.nxt_types.specs.Shapes.{members as members_of};
ghost use Rattle.nxt_model.specs.declared.nbc.NbcBase.TheVariants as bases;
ghost use Rattle.nxt_model.specs.TextProgram.{base_shape, shape_by};
ghost use Rattle.nxt_model.specs.Nbc.Header.{header_at, member_behind, type_behind};
ghost use Rattle.nxt_model.specs.Nbc.Structs.{no_types, with_header, with_struct};
ghost use Rattle.nxt_model.specs.Nbc.Types.{base_at, is_before, is_type_at, plain_type as plain_type_of, plain_types, shape_in, type_at, type_shapes};
ghost use Rattle.nxt_model.specs.Nbc.Text.{included_before};
ghost use Rattle.nxt_nbc_lines.specs.Seen.{type_seen};
ghost use Rattle.nxt_nbc_names.specs.Extents.{extent_of, extent_of_all};
ghost use Rattle.nxt_nbc_names.specs.HeaderSeen.{IsNear, header_row};
ghost use Rattle.nxt_nbc_names.specs.Structs.{RisesTo};
ghost use Rattle.nxt_nbc_names.specs.StructsSeen.{AreMeasured, number_seen, struct_seen, structs_seen};

use crate::extent::Extent;
use crate::header::{HEADER_STRUCTS, header_struct};
use crate::members::{Member, Members};
use crate::name_table::NameTable;
use nxt_model::nbc::{NbcBase, NbcType};
use nxt_nbc_lines::TypeName;
use nxt_types::NoMemory;
use nxt_types::kind::Kind;
use std::alloc::Global;
use std::marker::Model;

/// A struct: its name, its members, and the line from which on it is a type.
#[derive(Drop)]
pub struct Struct<'a> {
    pub name: &'a [u8],
    pub members: Members<'a>,
    pub line: u32,
    pub extent: Extent,
}

/// The structs of a text in the order of the text: those of NXTDefs.h stand where it is included first.
#[derive(Drop)]
pub struct StructTable<'a> {
    included: Option<u32>,
    structs: Vec<Struct<'a>>,
    names: NameTable<'a>,
}

impl<'a> Model for StructTable<'a> {
    ghost use Rattle.nxt_model.specs.Nbc.Structs.{Types};
    ghost use Rattle.nxt_nbc_names.specs.Inside.Structs.{types_seen, IsStructTable};

    ghost Value = { Types };

    ghost view = { λ t. types_seen t.included t.structs.items };

    ghost invariant = { λ t. IsStructTable t.structs.items t.names };
}

// ---- extents

// How much a type holds, among structs.
fn extent_among(structs: &[Struct<'_>], shape: NbcType) -> Extent
    requires { AreMeasured structs.now }
    ensures { result ≡ extent_of (shape_by (type_shapes (structs_seen structs.now)) shape) }
{
    base_extent(structs, shape.base).of_arrays(shape.arrays)
}

fn base_extent(structs: &[Struct<'_>], base: NbcBase) -> Extent
    requires { AreMeasured structs.now }
    ensures { result ≡ extent_of (base_shape (type_shapes (structs_seen structs.now)) base) }
{
    match base {
        NbcBase::Number(_) | NbcBase::Mutex => Extent::of_leaf(),
        NbcBase::Struct(position) => match structs.get(position) {
            Some(found) => found.extent,
            None => Extent::of_leaf(),
        },
    }
}

// How much members hold, among structs.
fn extent_of_members(structs: &[Struct<'_>], members: &[Member<'_>]) -> Extent
    requires { AreMeasured structs.now }
    ensures { result ≡ extent_of_all (members_of (map (λ m. shape_by (type_shapes (structs_seen structs.now)) m.shape) members.now)) }
{
    let mut extent = Extent::of_none();
    for member in members {
        extent = extent.with(extent_among(structs, member.shape));
    }
    extent
}

// A struct behind others.
fn struct_behind<'a>(
    structs: &[Struct<'a>],
    name: &'a [u8],
    members: Members<'a>,
    line: u32,
) -> Struct<'a>
    requires { AreMeasured structs.now }
    ensures seen { struct_seen result ≡ record { name = name.now; members = members.entry; line = line } }
    ensures measured { AreMeasured (structs.now ++ result ∷ []) }
{
    let extent = extent_of_members(structs, members.as_slice()).of_struct();
    Struct {
        name,
        members,
        line,
        extent,
    }
}

// ---- the header's

// A type of NXTDefs.h, where so many structs stand before its own.
fn type_behind(first: usize, shape: NbcType) -> NbcType
    requires first { first < 2 ^ 63 }
    requires near { IsNear shape }
    ensures { result ≡ type_behind first shape }
{
    let base = match shape.base {
        NbcBase::Struct(position) => NbcBase::Struct(first + position),
        NbcBase::Number(_) | NbcBase::Mutex => shape.base,
    };
    NbcType {
        base,
        arrays: shape.arrays,
    }
}

// The members of a struct of NXTDefs.h, where so many structs stand before its own.
fn header_members<'a>(alloc: Global, first: usize, at: usize) -> Result<Members<'a>, NoMemory>
    requires { first < 2 ^ 63 }
    ensures { IfOk result (λ ms. ms ≡ map (member_behind first) (header_row at).members) }
{
    let mut members = Members::new(alloc);
    for (name, shape) in header_struct(at).members {
        members.push(Member {
            name: name.as_bytes(),
            shape: type_behind(first, *shape),
        })?;
    }
    Ok(members)
}

// ---- types

/// A type of numbers, by its name.
type NumberType = (&'static str, Kind);

/// The types of numbers.
const NUMBER_TYPES: [NumberType; 14] = [
    ("byte", Kind::Ubyte),
    ("ubyte", Kind::Ubyte),
    ("db", Kind::Ubyte),
    ("sbyte", Kind::Sbyte),
    ("word", Kind::Uword),
    ("uword", Kind::Uword),
    ("dw", Kind::Uword),
    ("sword", Kind::Sword),
    ("dword", Kind::Ulong),
    ("long", Kind::Ulong),
    ("ulong", Kind::Ulong),
    ("dd", Kind::Ulong),
    ("sdword", Kind::Slong),
    ("slong", Kind::Slong),
];

/// The number or mutex that a type's name stands for.
fn plain_type(name: &[u8]) -> Option<NbcBase>
    ensures { result ≡ plain_type_of name.now }
{
    match number_type_in(number_types(), name) {
        Some(found) => Some(NbcBase::Number(found.1)),
        None if name == "mutex".as_bytes() => Some(NbcBase::Mutex),
        None => None,
    }
}

// The types of numbers.
fn number_types() -> &'static [NumberType]
    ensures { map number_seen result.now ++ (codes "mutex", bases.Mutex) ∷ [] ≡ plain_types }
{
    &NUMBER_TYPES
}

// The first of some types of numbers with a name.
fn number_type_in(types: &[NumberType], name: &[u8]) -> Option<NumberType>
    ensures { result ≡ find (λ t. bytes_eq t.0.now name.now) types.now }
{
    types
        .iter()
        .copied()
        .find(|number| number.0.as_bytes() == name)
}

impl<'a> StructTable<'a> {
    /// No structs, before any line is read.
    pub fn new(alloc: Global) -> StructTable<'a>
        ensures { result ≡ no_types }
    {
        StructTable {
            included: None,
            structs: Vec::new(alloc),
            names: NameTable::new(alloc),
        }
    }

    /// Whether the text includes NXTDefs.h.
    pub fn includes_header(&self) -> bool
        ensures { result ≡ is_some self.now.included }
    {
        self.included.is_some()
    }

    /// Whether the text includes NXTDefs.h before a line.
    pub(crate) fn is_included_before(&self, line: u32) -> bool
        ensures { result ≡ included_before self.now.included line }
    {
        match self.included {
            Some(included) => included < line,
            None => false,
        }
    }

    /// The structs in the order of the text.
    pub fn as_slice(&self) -> &[Struct<'a>]
        ensures { structs_seen result.now ≡ self.now.structs }
    {
        self.structs.as_slice()
    }

    /// The position of the first struct of a name, where it is declared before a line. Where the first isn't, no later one is.
    pub fn position_before(&self, name: &'a [u8], line: u32) -> Option<usize>
        ensures { result ≡ position (is_before line name.now) self.now.structs }
    {
        let position = self.names.position(name)?;
        if self.structs[position].line < line {
            Some(position)
        } else {
            None
        }
    }

    // What a type's name stands for at a line.
    fn base_before(&self, name: &'a [u8], line: u32) -> Option<NbcBase>
        ensures { result ≡ base_at self.now.structs line name.now }
    {
        match plain_type(name) {
            Some(base) => Some(base),
            None => Some(NbcBase::Struct(self.position_before(name, line)?)),
        }
    }

    /// Whether a name is that of a type, at a line.
    pub fn is_type(&self, name: &'a [u8], line: u32) -> bool
        ensures { result ≡ is_type_at self.now.structs line name.now }
    {
        self.base_before(name, line).is_some()
    }

    /// A type at a line. A name that is no type's counts as that of a number.
    pub fn shape(&self, of: TypeName<'a>, line: u32) -> NbcType
        ensures { result ≡ type_at self.now.structs line (type_seen of.entry) }
    {
        NbcType {
            base: self
                .base_before(of.name, line)
                .unwrap_or(NbcBase::Number(Kind::Ubyte)),
            arrays: of.arrays,
        }
    }

    /// How much a type holds.
    pub fn extent(&self, shape: NbcType) -> Extent
        ensures { result ≡ extent_of (shape_in self.now.structs shape) }
    {
        extent_among(self.structs.as_slice(), shape)
    }

    /// Declares a struct.
    pub fn push(&mut self, name: &'a [u8], members: Members<'a>, line: u32) -> Result<(), NoMemory>
        requires { RisesTo 0 line self.old.structs }
        ensures types { OnOk result (self.new ≡ with_struct self.old name.now members.entry line) }
        ensures rises { OnOk result (RisesTo 0 line self.new.structs) }
    {
        let next = struct_behind(self.structs.as_slice(), name, members, line);
        self.structs.try_reserve(1)?;
        self.names.push(name)?;
        self.structs.push(next)?;
        Ok(())
    }

    /// Includes NXTDefs.h on a line: its structs stand where it is included first.
    pub fn include(&mut self, alloc: Global, line: u32) -> Result<(), NoMemory>
        requires { RisesTo 0 line self.old.structs }
        ensures types { OnOk result (self.new ≡ with_header self.old line) }
        ensures rises { OnOk result (RisesTo 0 line self.new.structs) }
    {
        match self.included {
            Some(_) => Ok(()),
            None => {
                self.push_header(alloc, line)?;
                self.included = Some(line);
                Ok(())
            }
        }
    }

    // Declares the structs of NXTDefs.h on a line.
    fn push_header(&mut self, alloc: Global, line: u32) -> Result<(), NoMemory>
        requires { RisesTo 0 line self.old.structs }
        ensures types { OnOk result (self.new ≡ record self.old { structs = self.old.structs ++ header_at (length self.old.structs) line }) }
        ensures rises { OnOk result (RisesTo 0 line self.new.structs) }
    {
        let first = self.as_slice().len();
        for at in 0..HEADER_STRUCTS {
            let members = header_members(alloc, first, at)?;
            self.push(header_struct(at).name.as_bytes(), members, line)?;
        }
        Ok(())
    }
}
