// The words by which operands name variables and constants.

ghost use Rattle.std.specs.Prelude.{◌≡◌, ◌<◌, [], map, nat_abs, slice_index_or, IfOk};
ghost use Rattle.nxt_types.specs.Shapes.{Void};
ghost use Rattle.nxt_model.specs.Assembled.{all_shapes, arg_word, entries_before, entry_of, sixteen_bits};
ghost use Rattle.nxt_model.specs.TextProgram.{constants, shape_by, struct_shapes, text_of, texts};
ghost use Rattle.nxt_asm_parts.specs.Firsts.{firsts_of};
ghost use Rattle.nxt_asm_parts.specs.Measures.{held};

use crate::constants::Constants;
use crate::firsts::{FirstEntries, ReturnPlaces};
use crate::measure::{Measures, without_members};
use crate::starts::word_at;
use nxt_model::nbc::{NbcArg, NbcProgram, NbcVar};
use nxt_types::NoMemory;
use std::alloc::Global;
use std::marker::Model;

/// The table entries by which a program's operands name variables and constants.
#[derive(Drop)]
pub struct Numbers<'p> {
    program: &'p NbcProgram,
    measures: &'p Measures,
    found: &'p Constants<'p>,
    firsts: FirstEntries,
    returned: ReturnPlaces,
    // the positions of the first number and of the first text among the variables and constants
    first_number: usize,
    first_text: usize,
}

impl<'p> Model for Numbers<'p> {
    ghost use Rattle.nxt_model.specs.declared.nbc.NbcProgram.{NbcProgram};
    ghost use Rattle.nxt_asm_parts.specs.NumbersSeen.{AreParts, AreEntries};

    ghost Value = { NbcProgram };

    ghost view = { λ n. n.program.now };

    ghost invariant = { λ n. AreParts n.program.now n.measures.now n.found.now × AreEntries n.program.now n.firsts n.returned n.first_number n.first_text };
}

impl<'p> Numbers<'p> {
    /// Those of a program with these measures and constants.
    pub fn of(
        alloc: Global,
        program: &'p NbcProgram,
        measures: &'p Measures,
        found: &'p Constants<'p>,
    ) -> Result<Numbers<'p>, NoMemory>
        requires measured { measures.now ≡ program.now.structs }
        requires numbers { found.now.numbers ≡ constants (text_of program.now) }
        requires texts { found.now.texts ≡ texts (text_of program.now) }
        ensures { IfOk result (λ n. n ≡ program.now) }
    {
        let returned = ReturnPlaces::of(alloc, program.blocks.as_slice())?;
        let mut firsts = variable_firsts(alloc, program.vars.as_slice(), measures)?;
        firsts.add_all(1, returned.count)?;
        let first_number = firsts.len();
        firsts.add_all(1, found.number_count())?;
        let first_text = firsts.len();
        firsts.add_all(2, found.text_count())?;
        Ok(Numbers {
            program,
            measures,
            found,
            firsts,
            returned,
            first_number,
            first_text,
        })
    }

    /// The word of an operand of a statement at the word `here`, in a block whose statements begin at the words `at`.
    pub fn arg_word(&self, at: &[u64], here: u64, arg: &NbcArg) -> u16
        requires fits { arg_word (text_of self.now) at.now here arg.now < 65536 }
        ensures { result ≡ arg_word (text_of self.now) at.now here arg.now }
    {
        self.whole_word(at, here, arg) as u16
    }

    // That word before it is cut to 16 bits.
    fn whole_word(&self, at: &[u64], here: u64, arg: &NbcArg) -> u64
        ensures { result ≡ held (arg_word (text_of self.now) at.now here arg.now) }
    {
        match arg {
            NbcArg::Left => 0xFFFF,
            NbcArg::Var(variable, path) => self.part_entry(*variable as usize, path.as_slice()),
            NbcArg::Number(z) => self.number_entry(*z),
            NbcArg::Text(bytes) => self.text_entry(bytes.as_slice()),
            NbcArg::Imm(n) => u64::from(*n),
            NbcArg::Block(block) => u64::from(*block),
            NbcArg::Back(block) => self.return_entry(usize::from(*block)),
            NbcArg::Jump(place) => sixteen_bits(word_at(at, *place as usize), here),
        }
    }

    // The entry of a part of a variable.
    fn part_entry(&self, variable: usize, path: &[i64]) -> u64
        ensures { result ≡ held (entry_of (all_shapes (text_of self.now)) variable (map nat_abs path.now)) }
    {
        let first = self.firsts.first(variable);
        first.saturating_add(self.entries_inside(variable, path))
    }

    // The entries between a variable's own entry and that of its part.
    fn entries_inside(&self, variable: usize, path: &[i64]) -> u64
        ensures { result ≡ held (entries_before (map nat_abs path.now) (slice_index_or (all_shapes (text_of self.now)) variable Void)) }
    {
        match self.program.vars.as_slice().get(variable) {
            Some(declared) => self.measures.entries_before(declared.shape, path),
            None => self.measures.entries_before(without_members(), path),
        }
    }

    // The entry of a number constant.
    fn number_entry(&self, z: i64) -> u64
        ensures { result ≡ held (arg_word (text_of self.now) [] 0 (NbcArg.Number z)) }
    {
        let place = self.found.number_place(z);
        self.firsts.first_behind(self.first_number, place)
    }

    // The entry of a text constant.
    fn text_entry(&self, text: &[u8]) -> u64
        ensures { result ≡ held (arg_word (text_of self.now) [] 0 (NbcArg.Text text.now)) }
    {
        let place = self.found.text_place(text);
        self.firsts.first_behind(self.first_text, place)
    }

    // The entry of a block's return variable.
    fn return_entry(&self, block: usize) -> u64
        ensures { result ≡ held (arg_word (text_of self.now) [] 0 (NbcArg.Back block)) }
    {
        let place = self.returned.place(block);
        self.firsts.first_behind(self.program.vars.len(), place)
    }
}

// The first entries of declared variables.
fn variable_firsts(
    alloc: Global,
    vars: &[NbcVar],
    measures: &Measures,
) -> Result<FirstEntries, NoMemory>
    ensures { IfOk result (λ f. f ≡ firsts_of (map (λ v. shape_by (struct_shapes measures.now) v.shape) vars.now)) }
{
    let mut firsts = FirstEntries::new(alloc);
    for var in vars {
        firsts.add(measures.measure(var.shape).entries)?;
    }
    Ok(firsts)
}

// The word by which a jump leads from one word to another, before it is cut to 16 bits.
fn sixteen_bits(to: u64, from: u64) -> u64
    ensures { result ≡ sixteen_bits to from }
{
    if to < from {
        65_536_u64.saturating_sub(from - to)
    } else {
        to - from
    }
}
