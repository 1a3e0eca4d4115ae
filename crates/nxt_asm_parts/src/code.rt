// The code of a program.

ghost use Rattle.std.specs.Prelude.{◌≡◌, ◌<◌, ◌++◌, map, All, IfOk, OnOk};
ghost use Rattle.nxt_model.specs.Assembled.{arg_word, body_words, code_from, code_op, has_constant, is_constant, starts_from, statement_words};
ghost use Rattle.nxt_model.specs.TextProgram.{text_of};
ghost use Rattle.nxt_asm_parts.specs.Codable.{IsCodable, IsCodableBlock};
ghost use Rattle.nxt_asm_parts.specs.Starts.{blocks_starts};

use crate::numbers::Numbers;
use crate::starts::{Starts, word_at};
use nxt_instr::encode;
use nxt_model::nbc::{NbcArg, NbcBlock, NbcProgram, NbcStatement};
use nxt_types::NoMemory;
use nxt_types::instr::Op;
use nxt_types::lists::Words;
use std::alloc::Global;

/// The code of a program.
pub fn code_of(
    alloc: Global,
    program: &NbcProgram,
    numbers: &Numbers<'_>,
    starts: &Starts,
) -> Result<Words, NoMemory>
    requires numbers { numbers.now ≡ program.now }
    requires starts { starts.now ≡ blocks_starts 0 program.now.blocks }
    requires whole { All IsCodableBlock program.now.blocks }
    requires fits { All (λ w. w < 65536) (code_from (text_of program.now) 0 program.now.blocks) }
    ensures { IfOk result (λ ws. ws ≡ code_from (text_of program.now) 0 program.now.blocks) }
{
    blocks_code(alloc, numbers, starts, program.blocks.as_slice())
}

// The code of blocks, of which the first begins at word 0.
fn blocks_code(
    alloc: Global,
    numbers: &Numbers<'_>,
    starts: &Starts,
    blocks: &[NbcBlock],
) -> Result<Words, NoMemory>
    requires starts { starts.now ≡ blocks_starts 0 blocks.now }
    requires whole { All IsCodableBlock blocks.now }
    requires fits { All (λ w. w < 65536) (code_from (text_of numbers.now) 0 blocks.now) }
    ensures { IfOk result (λ ws. ws ≡ code_from (text_of numbers.now) 0 blocks.now) }
{
    let mut code = Words::new(alloc);
    for (i, block) in blocks.iter().enumerate() {
        let at = starts.block(i);
        add_body(
            numbers,
            at,
            word_at(at, 0),
            block.body.as_slice(),
            &mut code,
        )?;
    }
    Ok(code)
}

// Adds the code of a block's statements, which begin at the words `at`, the first of them at the word `here`.
fn add_body(
    numbers: &Numbers<'_>,
    at: &[u64],
    here: u64,
    body: &[NbcStatement],
    code: &mut Words,
) -> Result<(), NoMemory>
    requires starts { at.now ≡ starts_from here body.now }
    requires whole { All IsCodable body.now }
    requires fits { All (λ w. w < 65536) (body_words (text_of numbers.now) at.now here body.now) }
    ensures { OnOk result (code.new ≡ code.old ++ body_words (text_of numbers.now) at.now here body.now) }
{
    for (j, statement) in body.iter().enumerate() {
        add_statement(numbers, at, word_at(at, j), statement, code)?;
    }
    Ok(())
}

// Adds the code of a statement at the word `here`.
fn add_statement(
    numbers: &Numbers<'_>,
    at: &[u64],
    here: u64,
    statement: &NbcStatement,
    code: &mut Words,
) -> Result<(), NoMemory>
    requires whole { IsCodable statement.now }
    requires fits { All (λ w. w < 65536) (statement_words (text_of numbers.now) at.now here statement.now) }
    ensures { OnOk result (code.new ≡ code.old ++ statement_words (text_of numbers.now) at.now here statement.now) }
{
    let args = statement.args.as_slice();
    let words = arg_words(*code.as_vec().allocator(), numbers, at, here, args)?;
    let op = code_op(statement.op, args);
    encode(op, statement.cmp, words.as_slice(), code)
}

// The words of the operands of a statement at the word `here`.
fn arg_words(
    alloc: Global,
    numbers: &Numbers<'_>,
    at: &[u64],
    here: u64,
    args: &[NbcArg],
) -> Result<Words, NoMemory>
    requires { All (λ a. arg_word (text_of numbers.now) at.now here a < 65536) args.now }
    ensures { IfOk result (λ ws. ws ≡ map (arg_word (text_of numbers.now) at.now here) args.now) }
{
    let mut words = Words::new(alloc);
    for arg in args {
        words.push(numbers.arg_word(at, here, arg))?;
    }
    Ok(words)
}

// The operation of a statement's code: a set of a number constant is a mov.
fn code_op(op: Op, args: &[NbcArg]) -> Op
    ensures { result ≡ code_op op args.now }
{
    match op {
        Op::Set => { if has_constant(args) { Op::Mov } else { Op::Set } }
        _ => op,
    }
}

// Whether one of a statement's operands is a number constant.
fn has_constant(args: &[NbcArg]) -> bool
    ensures { result ≡ has_constant args.now }
{
    args.iter().any(|arg| is_constant(arg))
}

fn is_constant(arg: &NbcArg) -> bool
    ensures { result ≡ is_constant arg.now }
{
    match arg {
        NbcArg::Number(_) => true,
        _ => false,
    }
}
