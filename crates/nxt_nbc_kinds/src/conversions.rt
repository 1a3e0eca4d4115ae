// Which types of a text convert to one another.

ghost use Rattle.std.specs.Prelude.{◌≡◌, [], IfOk, OnOk, Some, map, option_map};
ghost use Rattle.nxt_model.specs.Nbc.Types.{shape_in};
ghost use Rattle.nxt_model.specs.Nbc.Structs.{Types};
ghost use Rattle.nxt_types.specs.Shapes.{convertible};
ghost use Rattle.nxt_nbc_kinds.specs.ConvertingStructs.{AreConversions};
ghost use Rattle.nxt_nbc_kinds.specs.Kinds.{are_of_one_kind, base_kind, kinds_of, known_with, number_of, type_kind};

use indexmap::IndexSet;
use nxt_model::nbc::{NbcBase, NbcType};
use nxt_nbc_names::{Member, StructTable};
use nxt_types::NoMemory;
use nxt_types::lists::ListOf;
use std::alloc::Global;
use std::marker::Model;

/// What stands in the innermost arrays of a type that converts: a number, or a struct of a kind.
#[derive(Clone, Copy, PartialEq, Eq, Hash)]
enum BaseKind {
    Number,
    Struct(usize),
}

/// The kind of a type that converts. Types convert to one another where they are of one kind.
#[derive(Clone, Copy, PartialEq, Eq, Hash)]
struct TypeKind {
    base: BaseKind,
    arrays: usize,
}

// The kind of a base, where structs are of these kinds.
fn base_kind(structs: &[Option<usize>], base: NbcBase) -> Option<BaseKind>
    ensures { result ≡ base_kind structs.now base }
{
    match base {
        NbcBase::Number(_) => Some(BaseKind::Number),
        NbcBase::Mutex => None,
        NbcBase::Struct(position) => match structs.get(position) {
            Some(Some(kind)) => Some(BaseKind::Struct(*kind)),
            _ => None,
        },
    }
}

// The kind of a type, where structs are of these kinds.
fn type_kind(structs: &[Option<usize>], shape: NbcType) -> Option<TypeKind>
    ensures { result ≡ type_kind structs.now shape }
{
    Some(TypeKind {
        base: base_kind(structs, shape.base)?,
        arrays: shape.arrays,
    })
}

// Whether types of these kinds convert to one another.
fn are_of_one_kind(to: Option<TypeKind>, from: Option<TypeKind>) -> bool
    ensures { result ≡ are_of_one_kind to from }
{
    match (to, from) {
        (Some(to), Some(from)) => to == from,
        _ => false,
    }
}

// The kinds of members, if all of them have one.
fn member_kinds(
    alloc: Global,
    structs: &[Option<usize>],
    members: &[Member<'_>],
) -> Result<Option<Vec<TypeKind>>, NoMemory>
    ensures { IfOk result (λ r. option_map (λ ks. ks.items) r ≡ kinds_of structs.now (map (λ m. m.shape) members.now)) }
{
    let mut kinds = Vec::new(alloc);
    for member in members {
        match type_kind(structs, member.shape) {
            Some(kind) => kinds.push(kind)?,
            None => return Ok(None),
        }
    }
    Ok(Some(kinds))
}

/// The kinds of structs, each known by those of its members.
#[derive(Drop)]
struct StructKinds {
    known: IndexSet<Vec<TypeKind>>,
}

impl Model for StructKinds {
    ghost use Rattle.std.specs.Prelude.{List, map};
    ghost use Rattle.nxt_nbc_kinds.specs.declared.conversions.TypeKind.{TypeKind};

    ghost Value = { List (List TypeKind) };

    ghost view = { λ k. map (λ v. v.items) k.known.keys };
}

impl StructKinds {
    // None are known yet.
    fn new(alloc: Global) -> StructKinds
        ensures { result ≡ [] }
    {
        StructKinds {
            known: IndexSet::new(alloc),
        }
    }

    // The number of the kind that has members of these kinds.
    fn number(&mut self, members: Vec<TypeKind>) -> Result<usize, NoMemory>
        ensures number { IfOk result (λ n. Some n ≡ number_of self.old (Some members.items)) }
        ensures known { OnOk result (self.new ≡ known_with self.old (Some members.items)) }
    {
        let (number, _) = self.known.insert_full(members)?;
        Ok(number)
    }

    // The number of a struct's kind, if it converts, where those before it are of these kinds.
    fn kind(
        &mut self,
        alloc: Global,
        structs: &[Option<usize>],
        members: &[Member<'_>],
    ) -> Result<Option<usize>, NoMemory>
        ensures number { IfOk result (λ n. n ≡ number_of self.old (kinds_of structs.now (map (λ m. m.shape) members.now))) }
        ensures known { OnOk result (self.new ≡ known_with self.old (kinds_of structs.now (map (λ m. m.shape) members.now))) }
    {
        match member_kinds(alloc, structs, members)? {
            Some(kinds) => Ok(Some(self.number(kinds)?)),
            None => Ok(None),
        }
    }
}

/// Which structs of a text convert to one another: each is held with the number of its kind, if it converts.
#[derive(Drop)]
pub struct Conversions {
    kinds: ListOf<Option<usize>>,
}

impl Model for Conversions {
    ghost use Rattle.std.specs.Prelude.{ℕ, List, Option};

    ghost Value = { List (Option ℕ) };

    ghost view = { λ k. k.kinds };
}

impl Conversions {
    /// That of a text's structs.
    pub fn of(alloc: Global, structs: &StructTable<'_>) -> Result<Conversions, NoMemory>
        ensures { IfOk result (AreConversions structs.now) }
    {
        let declared = structs.as_slice();
        let mut known = StructKinds::new(alloc);
        let mut kinds: ListOf<Option<usize>> = ListOf::new(alloc);
        for item in declared {
            let kind = known.kind(alloc, kinds.as_slice(), item.members.as_slice())?;
            kinds.push(kind)?;
        }
        Ok(Conversions { kinds })
    }

    /// Whether a value of the one type can be stored in the other.
    pub fn converts(&self, to: NbcType, from: NbcType) -> bool
        ensures { (t : Types) → AreConversions t self.now → result ≡ convertible (shape_in t.structs to) (shape_in t.structs from) }
    {
        let kinds = self.kinds.as_slice();
        are_of_one_kind(type_kind(kinds, to), type_kind(kinds, from))
    }
}
