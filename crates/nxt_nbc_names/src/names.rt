// The names that a text declares, and of what sort each is.

ghost use Rattle.std.specs.Prelude.{◌≡◌, [], ◌∷◌, ◌++◌, bytes_eq, filter_map, find, map, option_map, IfOk, OnOk};
ghost use Rattle.nxt_model.specs.Nbc.Text.{declared_name};
ghost use Rattle.nxt_nbc_lines.specs.Seen.{line_form_seen};
ghost use Rattle.nxt_nbc_names.specs.NamesSeen.{name_seen, sort_seen};

use crate::name_table::NameTable;
use nxt_nbc_lines::{Form, LineForm};
use nxt_types::NoMemory;
use std::alloc::Global;
use std::marker::Model;

/// Of what sort a declared name is. A block is a thread or a subroutine.
#[derive(Clone, Copy, PartialEq, Eq, Debug)]
pub enum NameSort {
    Variable,
    Struct,
    Block,
}

/// A declared name with its sort.
#[derive(Clone, Copy)]
pub struct DeclaredName<'a> {
    pub name: &'a [u8],
    pub sort: NameSort,
}

/// The names that a text declares, in the order of their lines, but for those of members and labels.
#[derive(Drop)]
pub struct Names<'a> {
    items: Vec<DeclaredName<'a>>,
    names: NameTable<'a>,
}

impl<'a> Model for Names<'a> {
    ghost use Rattle.std.specs.Prelude.{◌≡◌, ℕ, List, map};
    ghost use Rattle.nxt_model.specs.Nbc.Text.{NameSort as TextSort};
    ghost use Rattle.nxt_nbc_names.specs.NamesSeen.{name_seen};

    ghost Value = { List (List ℕ × TextSort) };

    ghost view = { λ n. map name_seen n.items.items };

    ghost invariant = { λ n. n.names ≡ map (λ x. x.0) (map name_seen n.items.items) };
}

impl<'a> Names<'a> {
    fn new(alloc: Global) -> Names<'a>
        ensures { result ≡ [] }
    {
        Names {
            items: Vec::new(alloc),
            names: NameTable::new(alloc),
        }
    }

    /// The names that lines declare.
    pub fn of(alloc: Global, lines: &[LineForm<'a>]) -> Result<Names<'a>, NoMemory>
        ensures { IfOk result (λ ns. ns ≡ filter_map declared_name (map line_form_seen lines.now)) }
    {
        let mut names = Names::new(alloc);
        for line in lines {
            if let Some(declared) = declared_name(line) {
                names.push(declared)?;
            }
        }
        Ok(names)
    }

    /// Of what sort a name is where it is declared first.
    pub fn sort(&self, name: &'a [u8]) -> Option<NameSort>
        ensures { option_map sort_seen result ≡ option_map (λ d. d.1) (find (λ d. bytes_eq d.0 name.now) self.now) }
    {
        let position = self.names.position(name)?;
        Some(self.items[position].sort)
    }

    fn push(&mut self, declared: DeclaredName<'a>) -> Result<(), NoMemory>
        ensures { OnOk result (self.new ≡ self.old ++ name_seen declared.entry ∷ []) }
    {
        self.items.try_reserve(1)?;
        self.names.push(declared.name)?;
        self.items.push(declared)?;
        Ok(())
    }
}

// The name that a line declares, if it declares one.
fn declared_name<'a>(line: &LineForm<'a>) -> Option<DeclaredName<'a>>
    ensures { option_map name_seen result ≡ declared_name (line_form_seen line.now) }
{
    let (name, sort) = match &line.form {
        Form::Declare(name, _, _) => (*name, NameSort::Variable),
        Form::OpenStruct(name) => (*name, NameSort::Struct),
        Form::OpenThread(name) => (*name, NameSort::Block),
        Form::OpenSubroutine(name) => (*name, NameSort::Block),
        _ => return None,
    };
    Some(DeclaredName { name, sort })
}
