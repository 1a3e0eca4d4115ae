// The words at which statements begin.

ghost use Rattle.std.specs.Prelude.{◌≡◌, ℕ, ◌+◌, List, [], sum_by, slice_index, slice_index_or, IfOk};
ghost use Rattle.nxt_model.specs.declared.nbc.NbcBlock.{NbcBlock};
ghost use Rattle.nxt_model.specs.declared.nbc.NbcStatement.{NbcStatement};
ghost use Rattle.nxt_model.specs.Assembled.{starts_from, block_words, word_count};
ghost use Rattle.nxt_asm_parts.specs.Starts.{blocks_starts};

use nxt_model::nbc::{NbcBlock, NbcStatement};
use nxt_types::NoMemory;
use nxt_types::lists::ListOf;
use nxt_types::opcodes::Arity;
use std::alloc::Global;
use std::marker::Model;

/// The words at which the statements of a program's blocks begin, those of each block with the word behind it.
#[derive(Drop)]
pub struct Starts {
    blocks: ListOf<ListOf<u64>>,
}

impl Model for Starts {
    ghost use Rattle.std.specs.Prelude.{ℕ, List};

    ghost Value = { List (List ℕ) };

    ghost view = { λ s. s.blocks };
}

impl Starts {
    /// Those of the blocks of a program, whose code begins at word 0.
    pub fn of(alloc: Global, blocks: &[NbcBlock]) -> Result<Starts, NoMemory>
        ensures { IfOk result (λ s. s ≡ blocks_starts 0 blocks.now) }
    {
        let mut all = ListOf::new(alloc);
        let mut here = 0;
        for block in blocks {
            let starts = block_starts(alloc, here, block.body.as_slice())?;
            here = end_of(starts.as_slice());
            all.push(starts)?;
        }
        Ok(Starts { blocks: all })
    }

    /// Those of a block, none where there is no such block.
    pub fn block(&self, block: usize) -> &[u64]
        ensures { result.now ≡ slice_index_or self.now block [] }
    {
        match self.blocks.as_slice().get(block) {
            Some(starts) => starts.as_slice(),
            None => &[],
        }
    }

    /// The word at which the statement of a position in a block begins, 0 where there is none.
    pub fn start(&self, block: usize, position: usize) -> u64
        ensures { result ≡ slice_index (slice_index_or self.now block []) position }
    {
        word_at(self.block(block), position)
    }

    /// How many words the code takes.
    pub fn code_size(&self) -> u64
        ensures { (bs : List NbcBlock) → self.now ≡ blocks_starts 0 bs → result ≡ sum_by block_words bs }
    {
        match self.blocks.as_slice().last() {
            Some(starts) => end_of(starts.as_slice()),
            None => 0,
        }
    }
}

/// The word at a position, 0 where there is none.
pub fn word_at(starts: &[u64], position: usize) -> u64
    ensures { result ≡ slice_index starts.now position }
{
    starts.get(position).copied().unwrap_or(0)
}

// The words at which the statements of a block begin, from a word on, and the word behind them. Statements with more words
// than the type counts are in no memory.
fn block_starts(alloc: Global, here: u64, body: &[NbcStatement]) -> Result<ListOf<u64>, NoMemory>
    ensures { IfOk result (λ ws. ws ≡ starts_from here body.now) }
{
    let mut starts = ListOf::new(alloc);
    let mut word = here;
    for statement in body {
        starts.push(word)?;
        word = word
            .checked_add(word_count(statement) as u64)
            .ok_or(NoMemory)?;
    }
    starts.push(word)?;
    Ok(starts)
}

// The word behind a block's statements.
fn end_of(starts: &[u64]) -> u64
    ensures { (here : ℕ) (ss : List NbcStatement) → starts.now ≡ starts_from here ss → result ≡ here + sum_by word_count ss }
{
    starts.last().copied().unwrap_or(0)
}

// How many words a statement takes.
fn word_count(statement: &NbcStatement) -> usize
    ensures { result ≡ word_count statement.now }
{
    let operands = statement.args.as_slice().len();
    match statement.op.arity() {
        Arity::Exactly(_) => 1 + operands,
        Arity::Several | Arity::Pairs => 2 + operands,
    }
}
