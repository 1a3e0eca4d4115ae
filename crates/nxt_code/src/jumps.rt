// The rules of words, jumps and the last statement.

ghost use Rattle.std.specs.Prelude.{◌≡◌, ◌≤◌, length};
ghost use Rattle.nxt_types.specs.Statements.{statement_of};
ghost use Rattle.nxt_code.specs.CodeRules.{lacks_statement, is_stray_jump, falls_out, leads_nowhere as leads_to_nothing, may_go_on as goes_on_behind};
ghost use Rattle.nxt_code.specs.Decoding.{IsDecoded};
ghost use Rattle.nxt_code.specs.Inside.Places.{Finds};

use crate::statements::{Decoded, StatementAt};
use nxt_types::instr::{Instr, Op, landing};
use nxt_types::words::LEFT_OUT;

/// The first word at which a statement is due and none is spelled.
pub fn missing_statement(code: &Decoded, words: &[u16]) -> Option<u32>
    requires decoded { IsDecoded words.now code.now }
    requires few { length words.now ≤ 65535 }
    ensures { Finds (lacks_statement words.now) result }
{
    let end = code.numbers.len();
    if end < words.len() {
        Some(end as u32)
    } else {
        None
    }
}

/// The word of the first jump that leads to no statement.
pub fn stray_jump(code: &Decoded, words: &[u16]) -> Option<u32>
    requires { IsDecoded words.now code.now }
    ensures { Finds (is_stray_jump words.now) result }
{
    for placed in &code.placed {
        if leads_nowhere(code, words, placed) {
            return Some(placed.word);
        }
    }
    None
}

fn leads_nowhere(code: &Decoded, words: &[u16], placed: &StatementAt) -> bool
    requires { IsDecoded words.now code.now }
    ensures { result ≡ leads_to_nothing words.now placed.now.word (statement_of placed.now.instr words.now) }
{
    match placed.instr.op {
        Op::Jmp | Op::Brcmp | Op::Brtst => {
            !code.begins_at(landing(placed.word, placed.instr.offset()))
        }
        _ => false,
    }
}

/// The word of the last statement, if the program may go on behind it.
pub fn open_end(code: &Decoded, words: &[u16]) -> Option<u32>
    requires { IsDecoded words.now code.now }
    ensures { Finds (falls_out words.now) result }
{
    let last = code.placed.last()?;
    if may_go_on(&last.instr, words) {
        Some(last.word)
    } else {
        None
    }
}

// Whether the statement behind this one may come next. A stop with an operand left out always stops.
fn may_go_on(instr: &Instr, words: &[u16]) -> bool
    ensures { result ≡ goes_on_behind (statement_of instr.now words.now) }
{
    match instr.op {
        Op::Jmp | Op::Finclump | Op::Finclumpimmed | Op::Subret => false,
        Op::Stop => instr.a != LEFT_OUT,
        _ => true,
    }
}
