// The constants of a program, and their places.

ghost use Rattle.std.specs.Prelude.{◌≡◌, [], ◌∷◌, bytes_eq, flat_map, length, slice_get, option_copied, IfOk, OnOk};
ghost use Rattle.std.specs.Ordering.{int_eq};
ghost use Rattle.nxt_model.specs.Assembled.{place_among};
ghost use Rattle.nxt_model.specs.TextProgram.{Text, constant, constants, texts};
ghost use Rattle.indexmap.specs.IndexSet.{insert_key};
ghost use Rattle.nxt_asm_parts.specs.Constants.{no_constants, with_args};

use indexmap::IndexSet;
use nxt_model::nbc::{NbcArg, NbcBlock, NbcStatement};
use nxt_types::NoMemory;
use nxt_types::kind::Kind;
use nxt_types::numbers::cut;
use std::alloc::Global;
use std::marker::Model;

/// The constants of a program: its distinct number operands, each cut to an slong, and its distinct text operands, in the
/// order in which they first come.
#[derive(Drop)]
pub struct Constants<'p> {
    numbers: IndexSet<i64>,
    texts: IndexSet<&'p [u8]>,
}

impl<'p> Model for Constants<'p> {
    ghost use Rattle.std.specs.Prelude.{map};
    ghost use Rattle.nxt_asm_parts.specs.Constants.{AllConstants};

    ghost Value = { AllConstants };

    ghost view = { λ c. record { numbers = c.numbers.keys; texts = map (λ t. t.now) c.texts.keys } };
}

impl<'p> Constants<'p> {
    // None are found yet.
    fn new(alloc: Global) -> Constants<'p>
        ensures { result ≡ no_constants }
    {
        Constants {
            numbers: IndexSet::new(alloc),
            texts: IndexSet::new(alloc),
        }
    }

    // Adds a number operand's constant, where it is new.
    fn add_number(&mut self, z: i64) -> Result<(), NoMemory>
        ensures numbers { OnOk result (self.new.numbers ≡ insert_key int_eq self.old.numbers (constant z)) }
        ensures texts { self.new.texts ≡ self.old.texts }
    {
        self.numbers.insert(cut(Kind::Slong, z))?;
        Ok(())
    }

    // Adds a text operand, where it is new.
    fn add_text(&mut self, text: &'p [u8]) -> Result<(), NoMemory>
        ensures numbers { self.new.numbers ≡ self.old.numbers }
        ensures texts { OnOk result (self.new.texts ≡ insert_key bytes_eq self.old.texts text.now) }
    {
        self.texts.insert(text)?;
        Ok(())
    }

    // Adds the constant of an operand, if it has one.
    fn add_arg(&mut self, arg: &'p NbcArg) -> Result<(), NoMemory>
        ensures { OnOk result (self.new ≡ with_args self.old (arg.now ∷ [])) }
    {
        match arg {
            NbcArg::Number(z) => self.add_number(*z),
            NbcArg::Text(bytes) => self.add_text(bytes.as_slice()),
            _ => Ok(()),
        }
    }

    // Adds those of a statement's operands.
    fn add_statement(&mut self, statement: &'p NbcStatement) -> Result<(), NoMemory>
        ensures { OnOk result (self.new ≡ with_args self.old statement.now.args) }
    {
        let args = statement.args.as_slice();
        for arg in args {
            self.add_arg(arg)?;
        }
        Ok(())
    }

    // Adds those of a block's statements.
    fn add_block(&mut self, block: &'p NbcBlock) -> Result<(), NoMemory>
        ensures { OnOk result (self.new ≡ with_args self.old (flat_map (λ s. s.args) block.now.body)) }
    {
        let body = block.body.as_slice();
        for statement in body {
            self.add_statement(statement)?;
        }
        Ok(())
    }

    /// Those of a program's blocks.
    pub fn of(alloc: Global, blocks: &'p [NbcBlock]) -> Result<Constants<'p>, NoMemory>
        ensures numbers { IfOk result (λ c. (p : Text) → p.blocks ≡ blocks.now → c.numbers ≡ constants p) }
        ensures texts { IfOk result (λ c. (p : Text) → p.blocks ≡ blocks.now → c.texts ≡ texts p) }
    {
        let mut found = Constants::new(alloc);
        for block in blocks {
            found.add_block(block)?;
        }
        Ok(found)
    }

    /// How many numbers there are.
    pub fn number_count(&self) -> usize
        ensures { result ≡ length self.now.numbers }
    {
        self.numbers.len()
    }

    /// How many texts there are.
    pub fn text_count(&self) -> usize
        ensures { result ≡ length self.now.texts }
    {
        self.texts.len()
    }

    /// The number at a place, counted from 0.
    pub fn number(&self, place: usize) -> Option<i64>
        ensures { result ≡ slice_get self.now.numbers place }
    {
        self.numbers.get_index(place).copied()
    }

    /// The text at a place, counted from 0.
    pub fn text(&self, place: usize) -> Option<&'p [u8]>
        ensures { option_copied result ≡ slice_get self.now.texts place }
    {
        self.texts.get_index(place).copied()
    }

    /// The place of a number among the numbers, counted from 0; where it is none of them, how many they are.
    pub fn number_place(&self, z: i64) -> usize
        ensures { result ≡ place_among int_eq (constant z) self.now.numbers }
    {
        let place = self.numbers.get_index_of(&cut(Kind::Slong, z));
        place.unwrap_or(self.number_count())
    }

    /// The same of a text among the texts.
    pub fn text_place(&self, text: &[u8]) -> usize
        ensures { result ≡ place_among bytes_eq text.now self.now.texts }
    {
        let place = self.texts.get_index_of(text);
        place.unwrap_or(self.text_count())
    }
}
