// The structs that the lines of a text declare.

ghost use Rattle.std.specs.Prelude.{◌≡◌, ℕ, [], ◌∷◌, List, map, IfOk, OnOk};
ghost use Rattle.nxt_model.specs.Nbc.Forms.{Form as TextForm};
ghost use Rattle.nxt_model.specs.Nbc.Structs.{types_from, types_of};
ghost use Rattle.nxt_nbc_lines.specs.Firsts.{Ascends};
ghost use Rattle.nxt_nbc_lines.specs.Seen.{line_form_seen};
ghost use Rattle.nxt_nbc_names.specs.Structs.{RisesTo};

use crate::members::{Member, Members};
use crate::structs::StructTable;
use nxt_nbc_lines::{Form, LineForm};
use nxt_types::NoMemory;
use std::alloc::Global;
use std::mem;

/// A struct whose members are being read.
#[derive(Drop)]
struct OpenStruct<'a> {
    name: &'a [u8],
    members: Members<'a>,
}

impl<'a> OpenStruct<'a> {
    fn new(alloc: Global, name: &'a [u8]) -> OpenStruct<'a>
        ensures name { result.name.now ≡ name.now }
        ensures members { result.members ≡ [] }
    {
        OpenStruct {
            name,
            members: Members::new(alloc),
        }
    }
}

/// The structs that the lines of a text declare, with those of NXTDefs.h where the text includes it first.
pub fn structs_of<'a>(alloc: Global, lines: &[LineForm<'a>]) -> Result<StructTable<'a>, NoMemory>
    requires { Ascends 0 (map line_form_seen lines.now) }
    ensures { IfOk result (λ t. t ≡ types_of (map line_form_seen lines.now)) }
{
    let mut structs = StructTable::new(alloc);
    let mut opened = OpenStruct::new(alloc, b"");
    for line in lines {
        read_line(alloc, &mut structs, &mut opened, line)?;
    }
    Ok(structs)
}

// Reads a line, behind lines that stand before it.
fn read_line<'a>(
    alloc: Global,
    structs: &mut StructTable<'a>,
    opened: &mut OpenStruct<'a>,
    line: &LineForm<'a>,
) -> Result<(), NoMemory>
    requires { RisesTo 0 line.now.line structs.old.structs }
    ensures types { OnOk result ((fs : List (ℕ × TextForm)) → types_from structs.old opened.old.name.now opened.old.members (line_form_seen line.now ∷ fs) ≡ types_from structs.new opened.new.name.now opened.new.members fs) }
    ensures rises { OnOk result (RisesTo 0 line.now.line structs.new.structs) }
{
    match &line.form {
        Form::Include => structs.include(alloc, line.line)?,
        Form::OpenStruct(name) => *opened = OpenStruct::new(alloc, *name),
        Form::Member(name, of) => opened.members.push(Member {
            name: *name,
            shape: structs.shape(*of, line.line),
        })?,
        Form::CloseStruct => {
            let closed = mem::replace(opened, OpenStruct::new(alloc, b""));
            structs.push(closed.name, closed.members, line.line)?;
        }
        _ => {}
    }
    Ok(())
}
