// What is open at a line: data, structs, threads and subroutines.

ghost use Rattle.std.specs.Prelude.{◌≡◌, [], ◌∷◌, drop, option_map, OnOk};
ghost use Rattle.nxt_model.specs.Nbc.Forms.{open_after, outermost, with_member};
ghost use Rattle.nxt_nbc_lines.specs.Places.{innermost};
ghost use Rattle.nxt_nbc_lines.specs.Seen.{form_seen, place_seen};

use crate::form::Form;
use crate::places::Place;
use nxt_types::NoMemory;
use std::alloc::Global;
use std::marker::Model;

/// A place that is open, with the line that opened it.
#[derive(Clone, Copy)]
pub(crate) struct Opened<'a> {
    pub line: u32,
    pub place: Place<'a>,
}

/// What is open, the innermost last.
#[derive(Drop)]
pub(crate) struct Open<'a> {
    places: Vec<Opened<'a>>,
}

impl<'a> Model for Open<'a> {
    ghost use Rattle.nxt_model.specs.Nbc.Forms as model;
    ghost use Rattle.nxt_nbc_lines.specs.Seen.{open_seen};

    ghost Value = { model.Open };

    ghost view = { λ o. open_seen o.places.items };
}

impl<'a> Open<'a> {
    /// Nothing is open.
    pub fn new(alloc: Global) -> Open<'a>
        ensures { result ≡ [] }
    {
        Open {
            places: Vec::new(alloc),
        }
    }

    /// The innermost place.
    pub fn innermost(&self) -> Option<Place<'a>>
        ensures { option_map place_seen result ≡ innermost self.now }
    {
        match self.places.last() {
            Some(opened) => Some(opened.place),
            None => None,
        }
    }

    /// The line that opened the outermost place.
    pub fn outermost(&self) -> Option<u32>
        ensures { result ≡ outermost self.now }
    {
        match self.places.first() {
            Some(opened) => Some(opened.line),
            None => None,
        }
    }

    fn push(&mut self, line: u32, place: Place<'a>) -> Result<(), NoMemory>
        ensures { OnOk result (self.new ≡ (line, place_seen place.entry) ∷ self.old) }
    {
        self.places.push(Opened { line, place })?;
        Ok(())
    }

    fn pop(&mut self)
        ensures { self.new ≡ drop 1 self.old }
    {
        self.places.pop();
    }

    fn add_member(&mut self) -> Result<(), NoMemory>
        ensures { OnOk result (self.new ≡ with_member self.old) }
    {
        let Some(opened) = self.places.pop() else {
            return Ok(());
        };
        let place = match opened.place {
            Place::InStruct(name, _) => Place::InStruct(name, true),
            other => other,
        };
        self.push(opened.line, place)
    }

    /// What is open after a line of this form.
    pub fn pass(&mut self, line: u32, form: &Form<'a>) -> Result<(), NoMemory>
        ensures { OnOk result (self.new ≡ open_after line (form_seen form.now) self.old) }
    {
        match form {
            Form::OpenData => self.push(line, Place::InData),
            Form::OpenStruct(name) => self.push(line, Place::InStruct(*name, false)),
            Form::OpenThread(_) => self.push(line, Place::InThread),
            Form::OpenSubroutine(_) => self.push(line, Place::InSubroutine),
            Form::Member(..) => self.add_member(),
            Form::CloseData | Form::CloseStruct | Form::CloseBlock => {
                self.pop();
                Ok(())
            }
            _ => Ok(()),
        }
    }
}
