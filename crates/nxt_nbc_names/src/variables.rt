// The variables of a text.

ghost use Rattle.std.specs.Prelude.{◌≡◌, [], ◌∷◌, ◌++◌, bytes_eq, filter_map, map, option_map, position, IfOk, OnOk};
ghost use Rattle.nxt_model.specs.Nbc.Text.{variable_of};
ghost use Rattle.nxt_nbc_lines.specs.Seen.{line_form_seen};
ghost use Rattle.nxt_nbc_names.specs.VariablesSeen.{variable_seen};

use crate::name_table::NameTable;
use crate::structs::StructTable;
use nxt_model::nbc::NbcType;
use nxt_nbc_lines::{Form, Given, LineForm};
use nxt_types::NoMemory;
use std::alloc::Global;
use std::marker::Model;

/// A declared variable: its name, its type, what it starts with, and the line that declares it.
#[derive(Clone, Copy)]
pub struct Variable<'f, 'a> {
    pub name: &'a [u8],
    pub shape: NbcType,
    pub given: &'f Given<'a>,
    pub line: u32,
}

/// The variables of a text, in the order of their declarations.
#[derive(Drop)]
pub struct Variables<'f, 'a> {
    items: Vec<Variable<'f, 'a>>,
    names: NameTable<'a>,
}

impl<'f, 'a> Model for Variables<'f, 'a> {
    ghost use Rattle.std.specs.Prelude.{◌≡◌, List, map};
    ghost use Rattle.nxt_model.specs.Nbc.Text.{Variable as TextVariable};
    ghost use Rattle.nxt_nbc_names.specs.VariablesSeen.{variable_seen};

    ghost Value = { List TextVariable };

    ghost view = { λ v. map variable_seen v.items.items };

    ghost invariant = { λ v. v.names ≡ map (λ x. x.name) (map variable_seen v.items.items) };
}

impl<'f, 'a> Variables<'f, 'a> {
    fn new(alloc: Global) -> Variables<'f, 'a>
        ensures { result ≡ [] }
    {
        Variables {
            items: Vec::new(alloc),
            names: NameTable::new(alloc),
        }
    }

    /// The variables that lines declare, with types among these structs.
    pub fn of(
        alloc: Global,
        lines: &'f [LineForm<'a>],
        structs: &StructTable<'a>,
    ) -> Result<Variables<'f, 'a>, NoMemory>
        ensures { IfOk result (λ vs. vs ≡ filter_map (variable_of structs.now.structs) (map line_form_seen lines.now)) }
    {
        let mut variables = Variables::new(alloc);
        for line in lines {
            if let Some(variable) = variable_of(line, structs) {
                variables.push(variable)?;
            }
        }
        Ok(variables)
    }

    /// The variables in their order.
    pub fn as_slice(&self) -> &[Variable<'f, 'a>]
        ensures { map variable_seen result.now ≡ self.now }
    {
        self.items.as_slice()
    }

    /// The position of the first variable of a name.
    pub fn position(&self, name: &'a [u8]) -> Option<usize>
        ensures { result ≡ position (λ v. bytes_eq v.name name.now) self.now }
    {
        self.names.position(name)
    }

    fn push(&mut self, variable: Variable<'f, 'a>) -> Result<(), NoMemory>
        ensures { OnOk result (self.new ≡ self.old ++ variable_seen variable.entry ∷ []) }
    {
        self.items.try_reserve(1)?;
        self.names.push(variable.name)?;
        self.items.push(variable)?;
        Ok(())
    }
}

// The variable that a line declares, if it declares one.
fn variable_of<'f, 'a>(
    line: &'f LineForm<'a>,
    structs: &StructTable<'a>,
) -> Option<Variable<'f, 'a>>
    ensures { option_map variable_seen result ≡ variable_of structs.now.structs (line_form_seen line.now) }
{
    match &line.form {
        Form::Declare(name, of, given) => Some(Variable {
            name: *name,
            shape: structs.shape(*of, line.line),
            given,
            line: line.line,
        }),
        _ => None,
    }
}
