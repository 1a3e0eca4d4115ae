// The labels of a thread or a subroutine.

ghost use Rattle.std.specs.Prelude.{◌≡◌, [], ◌∷◌, ◌++◌, map, option_map, IfOk, OnOk};
ghost use Rattle.nxt_model.specs.Nbc.Text.{is_statement, label_named, label_of, labels_from};
ghost use Rattle.nxt_nbc_lines.specs.Seen.{form_seen, line_form_seen};
ghost use Rattle.nxt_nbc_names.specs.LabelsSeen.{label_seen};

use crate::name_table::NameTable;
use nxt_nbc_lines::{Form, LineForm};
use nxt_types::NoMemory;
use std::alloc::Global;
use std::marker::Model;

/// A label: its name, its line, and the position of the statement that it names among those of its block.
#[derive(Clone, Copy)]
pub struct Label<'a> {
    pub name: &'a [u8],
    pub line: u32,
    pub position: usize,
}

/// The labels of a block, in the order of their lines.
#[derive(Drop)]
pub struct Labels<'a> {
    items: Vec<Label<'a>>,
    names: NameTable<'a>,
}

impl<'a> Model for Labels<'a> {
    ghost use Rattle.std.specs.Prelude.{◌≡◌, List, map};
    ghost use Rattle.nxt_model.specs.Nbc.Text.{LabelAt};
    ghost use Rattle.nxt_nbc_names.specs.LabelsSeen.{label_seen};

    ghost Value = { List LabelAt };

    ghost view = { λ l. map label_seen l.items.items };

    ghost invariant = { λ l. l.names ≡ map (λ x. x.name) (map label_seen l.items.items) };
}

impl<'a> Labels<'a> {
    fn new(alloc: Global) -> Labels<'a>
        ensures { result ≡ [] }
    {
        Labels {
            items: Vec::new(alloc),
            names: NameTable::new(alloc),
        }
    }

    /// The labels of the lines of a block.
    pub fn of(alloc: Global, lines: &[LineForm<'a>]) -> Result<Labels<'a>, NoMemory>
        ensures { IfOk result (λ ls. ls ≡ labels_from 0 (map line_form_seen lines.now)) }
    {
        let mut labels = Labels::new(alloc);
        let mut position = 0;
        for line in lines {
            if let Some(name) = label_of(&line.form) {
                labels.push(Label {
                    name,
                    line: line.line,
                    position,
                })?;
            }
            if is_statement(&line.form) {
                position += 1;
            }
        }
        Ok(labels)
    }

    /// The labels in the order of their lines.
    pub fn as_slice(&self) -> &[Label<'a>]
        ensures { map label_seen result.now ≡ self.now }
    {
        self.items.as_slice()
    }

    /// The position of the statement that the first label of a name stands before.
    pub fn position(&self, name: &'a [u8]) -> Option<usize>
        ensures { result ≡ label_named self.now name.now }
    {
        let at = self.names.position(name)?;
        Some(self.items[at].position)
    }

    fn push(&mut self, label: Label<'a>) -> Result<(), NoMemory>
        ensures { OnOk result (self.new ≡ self.old ++ label_seen label.entry ∷ []) }
    {
        self.items.try_reserve(1)?;
        self.names.push(label.name)?;
        self.items.push(label)?;
        Ok(())
    }
}

/// Whether a line is a statement of its block. The last one closes it.
pub fn is_statement(form: &Form<'_>) -> bool
    ensures { result ≡ is_statement (form_seen form.now) }
{
    matches!(
        form,
        Form::Exit
            | Form::ExitTo(_)
            | Form::Return
            | Form::Call(_)
            | Form::Do(..)
            | Form::CloseBlock
    )
}

// The label of a line, if it has one.
fn label_of<'a>(form: &Form<'a>) -> Option<&'a [u8]>
    ensures { option_map (λ n. n.now) result ≡ label_of (form_seen form.now) }
{
    match form {
        Form::Label(name) => Some(*name),
        Form::Do(label, ..) => *label,
        _ => None,
    }
}
