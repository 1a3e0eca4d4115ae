// Statements into words.

ghost use Rattle.std.specs.Prelude.{◌≡◌, ◌+◌, ◌*◌, ◌≤◌, ◌<◌, ℕ, List, false, length, ◌++◌, [], ◌∷◌, IsTrue, OnOk, OnErr, IfOk};
ghost use Rattle.nxt_types.specs.Opcodes.{arity, takes, has_comparison};
ghost use Rattle.nxt_types.specs.Statements.{statement, IsStatement, long_form_of, first_word};

use nxt_types::NoMemory;
use nxt_types::instr::Op;
use nxt_types::kind::Cmp;
use nxt_types::lists::Words;
use nxt_types::opcodes::Arity;
use std::alloc::Global;

/// Appends the words of a statement's long form (Executable File Specification, "Bytecode Instructions"). An `Err`
/// changes nothing.
pub fn encode(op: Op, cmp: Cmp, args: &[u16], into: &mut Words) -> Result<(), NoMemory>
    requires takes { IsTrue (takes (arity op) (length args.now)) }
    requires few { length args.now ≤ 32765 }
    requires plain { has_comparison op ≡ false → cmp ≡ Cmp.Lt }
    ensures ok { OnOk result (into.new ≡ into.old ++ long_form_of op cmp args.now) }
    ensures err { OnErr result (into.new ≡ into.old) }

    // What is appended is decoded to the same statement, whatever follows.
    ensures back { OnOk result (IsStatement into.new (length into.old) (statement op cmp args.now)
        (length (long_form_of op cmp args.now))) }
    ensures followed { OnOk result ((more : List ℕ) →
        IsStatement (into.new ++ more) (length into.old) (statement op cmp args.now)
        (length (long_form_of op cmp args.now))) }
{
    let words = long_form(*into.as_vec().allocator(), op, cmp, args)?;
    into.append(words.as_slice())
}

// The words of a statement's long form.
fn long_form(alloc: Global, op: Op, cmp: Cmp, args: &[u16]) -> Result<Words, NoMemory>
    requires { length args.now ≤ 32765 }
    ensures { IfOk result (λ words. words ≡ long_form_of op cmp args.now) }
{
    let mut words = Words::new(alloc);
    match op.arity() {
        Arity::Exactly(count) => words.push(first_word(2 + 2 * u16::from(count), op, cmp))?,
        Arity::Several | Arity::Pairs => {
            words.push(first_word(SIZED, op, Cmp::Lt))?;
            words.push(4 + 2 * args.len() as u16)?;
        }
    }
    words.append(args)?;
    Ok(words)
}

// The size that says that a size word follows.
const SIZED: u16 = 14;

// The first word of a long form of a size in bytes.
fn first_word(bytes: u16, op: Op, cmp: Cmp) -> u16
    requires { bytes < 16 }
    ensures { result ≡ first_word bytes op cmp }
{
    bytes * 4096 + u16::from(cmp.number()) * 256 + u16::from(op.code())
}
