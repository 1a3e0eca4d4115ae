// What a text declares.

ghost use Rattle.std.specs.Prelude.{◌≡◌, map, IfOk};
ghost use Rattle.nxt_model.specs.Nbc.Text.{source_of};
ghost use Rattle.nxt_nbc_lines.specs.Firsts.{Ascends};
ghost use Rattle.nxt_nbc_lines.specs.Seen.{line_form_seen};
ghost use Rattle.nxt_nbc_names.specs.SourceSeen.{source_seen};

use crate::blocks::Blocks;
use crate::names::Names;
use crate::reading::structs_of;
use crate::structs::StructTable;
use crate::variables::Variables;
use nxt_nbc_lines::LineForm;
use nxt_types::NoMemory;
use std::alloc::Global;

/// What a text declares (NBC Programmer's Guide, "Program Structure"): its types, its variables, its threads and
/// subroutines, and the names of all of them.
#[derive(Drop)]
pub struct Source<'f, 'a> {
    pub structs: StructTable<'a>,
    pub variables: Variables<'f, 'a>,
    pub blocks: Blocks<'f, 'a>,
    pub names: Names<'a>,
}

impl<'f, 'a> Source<'f, 'a> {
    /// What lines declare, each of which stands behind the one before it.
    pub fn of(alloc: Global, lines: &'f [LineForm<'a>]) -> Result<Source<'f, 'a>, NoMemory>
        requires { Ascends 0 (map line_form_seen lines.now) }
        ensures { IfOk result (λ s. source_seen s ≡ source_of (map line_form_seen lines.now)) }
    {
        let structs = structs_of(alloc, lines)?;
        let variables = Variables::of(alloc, lines, &structs)?;
        let blocks = Blocks::of(alloc, lines)?;
        let names = Names::of(alloc, lines)?;
        Ok(Source {
            structs,
            variables,
            blocks,
            names,
        })
    }
}
