// Where names of members lead from a type.

ghost use Rattle.std.specs.Prelude.{◌≡◌, option_map, IfOk};
ghost use Rattle.nxt_model.specs.Nbc.Types.{member_in, member_of_type, member_path, struct_of};
ghost use Rattle.nxt_nbc_lines.specs.Seen.{names_seen};
ghost use Rattle.nxt_nbc_names.specs.StructsSeen.{struct_seen};

use crate::structs::{Struct, StructTable};
use nxt_model::nbc::{NbcBase, NbcType};
use nxt_types::NoMemory;
use nxt_types::lists::ListOf;
use std::alloc::Global;

impl<'a> Struct<'a> {
    // The position of the first member of a name, and its type.
    fn member(&self, name: &'a [u8]) -> Option<(usize, NbcType)>
        ensures { result ≡ member_in name.now (struct_seen self.now) }
    {
        let position = self.members.position(name)?;
        let member = self.members.as_slice().get(position)?;
        Some((position, member.shape))
    }
}

impl<'a> StructTable<'a> {
    // The struct that a type is, where it is one.
    fn struct_of(&self, shape: NbcType) -> Option<&Struct<'a>>
        ensures { option_map (λ s. struct_seen s.now) result ≡ struct_of self.now.structs shape }
    {
        if shape.arrays > 0 {
            return None;
        }
        match shape.base {
            NbcBase::Struct(position) => self.as_slice().get(position),
            NbcBase::Number(_) | NbcBase::Mutex => None,
        }
    }

    // The position of a type's member of a name, and the member's type.
    fn member(&self, shape: NbcType, name: &'a [u8]) -> Option<(usize, NbcType)>
        ensures { result ≡ member_of_type self.now.structs shape name.now }
    {
        self.struct_of(shape)?.member(name)
    }

    /// Where names of members lead from a type: the members' positions, and the type of the last.
    pub fn member_path(
        &self,
        alloc: Global,
        shape: NbcType,
        names: &[&'a [u8]],
    ) -> Result<Option<(ListOf<usize>, NbcType)>, NoMemory>
        ensures { IfOk result (λ o. o ≡ member_path self.now.structs shape (names_seen names.now)) }
    {
        let mut path = ListOf::new(alloc);
        let mut reached = shape;
        for name in names {
            let Some((position, member)) = self.member(reached, *name) else {
                return Ok(None);
            };
            path.push(position)?;
            reached = member;
        }
        Ok(Some((path, reached)))
    }
}
