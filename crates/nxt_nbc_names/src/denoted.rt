// What an operand stands for.

ghost use Rattle.std.specs.Prelude.{◌≡◌, [], ◌∷◌, slice_get, IfOk};
ghost use Rattle.nxt_model.specs.Nbc.Forms.{Named};
ghost use Rattle.nxt_model.specs.Nbc.Text.{a_block, a_variable, alone, block_by, denoted, is_left_out, of_header, path_in, predefined, variable_named};
ghost use Rattle.nxt_nbc_lines.specs.Seen.{names_seen, term_seen};
ghost use Rattle.nxt_model.specs.Nbc.Header.{constant_named, is_header_struct};
ghost use Rattle.nxt_model.specs.Nbc.Structs.{Types};
ghost use Rattle.nxt_nbc_names.specs.DenotedSeen.{denoted_seen};
ghost use Rattle.nxt_nbc_names.specs.SourceSeen.{source_seen};

use crate::header::{constant, is_header_struct};
use crate::names::NameSort;
use crate::source::Source;
use nxt_model::nbc::NbcType;
use nxt_nbc_lines::Term;
use nxt_types::NoMemory;
use nxt_types::lists::ListOf;
use std::alloc::Global;

/// A variable by its position, or a part of it by the positions of members, with its type.
#[derive(Drop)]
pub struct Part {
    pub variable: usize,
    pub path: ListOf<usize>,
    pub shape: NbcType,
}

/// What an operand stands for.
#[derive(Drop)]
pub enum Denoted<'a> {
    Part(Part),
    Number(i64),
    Text(&'a [u8]),
    /// A thread or a subroutine, by its number and whether it is a subroutine.
    Block(usize, bool),
    Type,
    /// Nothing declares the name, or the member isn't there.
    Missing,
}

impl<'f, 'a> Source<'f, 'a> {
    /// What an operand stands for, at a line.
    pub fn denoted(
        &self,
        alloc: Global,
        line: u32,
        term: &Term<'a>,
    ) -> Result<Denoted<'a>, NoMemory>
        ensures { IfOk result (λ d. denoted_seen self.now.structs d ≡ denoted (source_seen self.now) line (term_seen term.now)) }
    {
        match term {
            Term::Literal(z) => Ok(Denoted::Number(*z)),
            Term::Quote(text) => Ok(Denoted::Text(*text)),
            Term::Named(names) => match names.as_slice() {
                [] => Ok(Denoted::Missing),
                [name, members @ ..] => self.named(alloc, line, *name, members),
            },
        }
    }

    // What a name with members stands for.
    fn named(
        &self,
        alloc: Global,
        line: u32,
        name: &'a [u8],
        members: &[&'a [u8]],
    ) -> Result<Denoted<'a>, NoMemory>
        ensures { IfOk result (λ d. denoted_seen self.now.structs d ≡ denoted (source_seen self.now) line (Named (name.now ∷ names_seen members.now))) }
    {
        match self.names.sort(name) {
            Some(NameSort::Variable) => self.variable(alloc, name, members),
            Some(NameSort::Struct) => Ok(alone(members, Denoted::Type)),
            Some(NameSort::Block) => Ok(alone(members, self.named_block(name))),
            None => Ok(alone(members, self.predefined(line, name))),
        }
    }

    // The part of the variable of a name to which names of members lead.
    fn variable(
        &self,
        alloc: Global,
        name: &'a [u8],
        members: &[&'a [u8]],
    ) -> Result<Denoted<'a>, NoMemory>
        ensures { IfOk result (λ d. denoted_seen self.now.structs d ≡ a_variable (source_seen self.now) (variable_named (source_seen self.now) name.now) (names_seen members.now)) }
    {
        match self.variables.position(name) {
            Some(variable) => self.part(alloc, variable, members),
            None => Ok(Denoted::Missing),
        }
    }

    // The part of a variable to which names of members lead.
    fn part(
        &self,
        alloc: Global,
        variable: usize,
        members: &[&'a [u8]],
    ) -> Result<Denoted<'a>, NoMemory>
        ensures { IfOk result (λ d. denoted_seen self.now.structs d ≡ path_in (source_seen self.now) variable (names_seen members.now) (slice_get (source_seen self.now).vars variable)) }
    {
        let Some(declared) = self.variables.as_slice().get(variable) else {
            return Ok(Denoted::Missing);
        };
        match self.structs.member_path(alloc, declared.shape, members)? {
            Some((path, shape)) => Ok(Denoted::Part(Part {
                variable,
                path,
                shape,
            })),
            None => Ok(Denoted::Missing),
        }
    }

    // The block of a name.
    fn named_block(&self, name: &'a [u8]) -> Denoted<'a>
        ensures { denoted_seen self.now.structs result ≡ a_block (block_by (source_seen self.now) name.now) }
    {
        match self.block(name) {
            Some((number, subroutine)) => Denoted::Block(number, subroutine),
            None => Denoted::Missing,
        }
    }

    // The number of the block of a name, and whether it is a subroutine.
    fn block(&self, name: &'a [u8]) -> Option<(usize, bool)>
        ensures { result ≡ block_by (source_seen self.now) name.now }
    {
        let number = self.blocks.number(name)?;
        let block = self.blocks.numbered().get(number)?;
        Some((number, block.subroutine))
    }

    // What a name that the text doesn't declare stands for, at a line: the names of NXTDefs.h are known behind its line.
    fn predefined(&self, line: u32, name: &'a [u8]) -> Denoted<'a>
        ensures { denoted_seen self.now.structs result ≡ predefined (source_seen self.now) line name.now }
    {
        if self.structs.is_included_before(line) {
            of_header(name)
        } else {
            Denoted::Missing
        }
    }

    /// Whether an operand is the name of what is left out, at a line.
    pub fn is_left_out(&self, line: u32, term: &Term<'a>) -> bool
        ensures { result ≡ is_left_out (source_seen self.now) line (term_seen term.now) }
    {
        match term.single_name() {
            Some(name) => self.structs.is_included_before(line) && name == "NA".as_bytes(),
            None => false,
        }
    }
}

// What a name of NXTDefs.h stands for.
fn of_header<'a>(name: &[u8]) -> Denoted<'a>
    ensures { (t : Types) → denoted_seen t result ≡ of_header (constant_named name.now) (is_header_struct name.now) }
{
    match constant(name) {
        Some(number) => Denoted::Number(i64::from(number)),
        None if is_header_struct(name) => Denoted::Type,
        None => Denoted::Missing,
    }
}

// What a name stands for that has no members.
fn alone<'a>(members: &[&'a [u8]], denoted: Denoted<'a>) -> Denoted<'a>
    ensures { (t : Types) → denoted_seen t result ≡ alone (names_seen members.now) (denoted_seen t denoted.entry) }
{
    match members {
        [] => denoted,
        [_, ..] => Denoted::Missing,
    }
}
