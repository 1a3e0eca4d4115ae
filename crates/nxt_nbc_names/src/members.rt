// The members of a struct.

ghost use Rattle.std.specs.Prelude.{◌≡◌, [], ◌∷◌, ◌++◌, bytes_eq, map, option_map, position, slice_get, OnOk};
ghost use Rattle.nxt_nbc_names.specs.MembersSeen.{member_seen};

use crate::name_table::NameTable;
use nxt_model::nbc::NbcType;
use nxt_types::NoMemory;
use std::alloc::Global;
use std::marker::Model;

/// A member of a struct: its name and its type.
#[derive(Clone, Copy)]
pub struct Member<'a> {
    pub name: &'a [u8],
    pub shape: NbcType,
}

/// The members of a struct, in the order of their declarations.
#[derive(Drop)]
pub struct Members<'a> {
    items: Vec<Member<'a>>,
    names: NameTable<'a>,
}

impl<'a> Model for Members<'a> {
    ghost use Rattle.std.specs.Prelude.{◌≡◌, List, map};
    ghost use Rattle.nxt_model.specs.Nbc.Types.{StructMember};
    ghost use Rattle.nxt_nbc_names.specs.MembersSeen.{member_seen};

    ghost Value = { List StructMember };

    ghost view = { λ m. map member_seen m.items.items };

    ghost invariant = { λ m. m.names ≡ map (λ x. x.name) (map member_seen m.items.items) };
}

impl<'a> Members<'a> {
    /// No members.
    pub fn new(alloc: Global) -> Members<'a>
        ensures { result ≡ [] }
    {
        Members {
            items: Vec::new(alloc),
            names: NameTable::new(alloc),
        }
    }

    /// The members in their order.
    pub fn as_slice(&self) -> &[Member<'a>]
        ensures { map member_seen result.now ≡ self.now }
    {
        self.items.as_slice()
    }

    /// The position of the first member of a name.
    pub fn position(&self, name: &'a [u8]) -> Option<usize>
        ensures { result ≡ position (λ m. bytes_eq m.name name.now) self.now }
    {
        self.names.position(name)
    }

    /// Adds a member.
    pub fn push(&mut self, member: Member<'a>) -> Result<(), NoMemory>
        ensures { OnOk result (self.new ≡ self.old ++ member_seen member.entry ∷ []) }
    {
        self.items.try_reserve(1)?;
        self.names.push(member.name)?;
        self.items.push(member)?;
        Ok(())
    }
}
