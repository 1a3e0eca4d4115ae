// The rules between the operands of one statement.

ghost use Rattle.std.specs.Prelude.{◌≡◌, ◌<◌, length, slice_index_or, true, IfOk, OnOk};
ghost use Rattle.nxt_types.specs.Statements.{IsWhole, statement_of};
ghost use Rattle.nxt_types.specs.OperandRules.{sort_at, shape_of, word_of, asked as asked_of};
ghost use Rattle.nxt_operand_rules.specs.Questions.{answer as answer_of};
ghost use Rattle.nxt_code.specs.Inside.KnownShapes.{IsKnown};
ghost use Rattle.nxt_code.specs.OperandsSeen.{operands};

use crate::known::Known;
use crate::operands::{name_at, named, seen_at};
use crate::shapes::is_cluster_of;
use nxt_operand_rules::{Question, asked};
use nxt_types::NoMemory;
use nxt_types::instr::Instr;
use nxt_types::toc::Toc;

/// Whether operand k, counted from 0, fits the operands before it ("Bytecode Instructions").
pub fn fits_others(
    known: &mut Known,
    toc: &Toc,
    instr: &Instr,
    words: &[u16],
    k: usize,
) -> Result<bool, NoMemory>
    requires whole { IsWhole words.now instr.now }
    requires within { k < length (statement_of instr.now words.now).args }
    requires known { IsKnown toc.now.shapes known.old }
    ensures fits { let os = operands toc.now.shapes instr.now words.now in
        IfOk result (λ fits. fits ≡ slice_index_or (asked_of instr.now.op (λ i. shape_of (sort_at os i)) (λ i. word_of (sort_at os i)) os) k true) }
    ensures known { OnOk result (IsKnown toc.now.shapes known.new) }
{
    let first = seen_at(toc, instr, words, 0);
    let second = seen_at(toc, instr, words, 1);
    let third = seen_at(toc, instr, words, 2);
    let question = asked(instr.op, k, first, second, third);
    answer(known, toc, instr, words, k, question)
}

// What operand k, counted from 0, answers to a question.
fn answer(
    known: &mut Known,
    toc: &Toc,
    instr: &Instr,
    words: &[u16],
    k: usize,
    question: Question,
) -> Result<bool, NoMemory>
    requires whole { IsWhole words.now instr.now }
    requires known { IsKnown toc.now.shapes known.old }
    ensures answer { let os = operands toc.now.shapes instr.now words.now in
        IfOk result (λ b. b ≡ answer_of question (λ i. shape_of (sort_at os i)) k) }
    ensures known { OnOk result (IsKnown toc.now.shapes known.new) }
{
    let own = name_at(instr, words, k);
    match question {
        Question::Answered(answer) => Ok(answer),
        Question::ConvertsTo(i) => known.converts(toc, name_at(instr, words, i), own),
        Question::ElementConvertsTo(i) => known.takes_element(toc, name_at(instr, words, i), own),
        Question::IsElementOf(i) => known.is_element(toc, name_at(instr, words, i), own),
        Question::GoesInto(i) => known.goes_into(toc, name_at(instr, words, i), own),
        Question::HasNoList => Ok(!known.has_list(toc, own)?),
        Question::ConvertsWithNoList(i) => {
            let into = name_at(instr, words, i);
            Ok(!known.has_list(toc, own)? && known.converts(toc, into, own)?)
        }
        Question::IsClusterOf(call) => Ok(is_cluster_of(call, named(toc, own))),
    }
}
