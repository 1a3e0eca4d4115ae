// The rules of operands, and between the operands of one statement.

ghost use Rattle.std.specs.Prelude.{◌≡◌, ◌<◌, length, slice_index_or, true};
ghost use Rattle.nxt_types.specs.Opcodes.{arity, takes};
ghost use Rattle.nxt_types.specs.OperandRules.{asked as asked_of, has_kind as has_kind_of, is_allowed as is_allowed_in, is_of_class as is_of_class_of, shape_of, sort_at, word_of};
ghost use Rattle.nxt_operand_rules.specs.Questions.{answer as answer_of};
ghost use Rattle.nxt_model.specs.Nbc.Structs.{Types};
ghost use Rattle.nxt_nbc_kinds.specs.ConvertingStructs.{AreConversions};
ghost use Rattle.nxt_nbc_kinds.specs.OperandsSeen.{operand_seen, operands_seen};

use crate::conversions::Conversions;
use crate::operand::{Operand, number_at, seen_at, shape_at};
use crate::types::{converts, element, goes_into, has_list, is_cluster_of};
use nxt_nbc_names::StructTable;
use nxt_operand_rules::{Question, asked};
use nxt_types::instr::Op;
use nxt_types::opcodes::Class;

/// Whether operand k, counted from 0, is of its class, and fits the operands before it.
pub fn has_kind(
    structs: &StructTable<'_>,
    conversions: &Conversions,
    op: Op,
    operands: &[Operand],
    k: usize,
) -> bool
    requires conversions { AreConversions structs.now conversions.now }
    requires within { k < length operands.now }
    requires takes { takes (arity op) (length operands.now) ≡ true }
    ensures { result ≡ has_kind_of 1 op (operands_seen structs.now operands.now) k }
{
    is_of_class(structs, op.class(k), operands[k])
        && fits_others(structs, conversions, op, operands, k)
}

/// Whether an operand is of a class.
pub fn is_of_class(structs: &StructTable<'_>, class: Class, operand: Operand) -> bool
    ensures { result ≡ is_of_class_of 1 class (operand_seen structs.now operand) }
{
    nxt_operand_rules::is_of_class(1, class, operand.seen(structs))
}

/// Whether operand k, counted from 0, fits the operands before it.
pub fn fits_others(
    structs: &StructTable<'_>,
    conversions: &Conversions,
    op: Op,
    operands: &[Operand],
    k: usize,
) -> bool
    requires conversions { AreConversions structs.now conversions.now }
    requires within { k < length operands.now }
    ensures { let os = operands_seen structs.now operands.now in
        result ≡ slice_index_or (asked_of op (λ i. shape_of (sort_at os i)) (λ i. word_of (sort_at os i)) os) k true }
{
    let first = seen_at(structs, operands, 0);
    let second = seen_at(structs, operands, 1);
    let third = seen_at(structs, operands, 2);
    let question = asked(op, k, first, second, third);
    answer(structs, conversions, operands, k, question)
}

// What operand k, counted from 0, answers to a question.
fn answer(
    structs: &StructTable<'_>,
    conversions: &Conversions,
    operands: &[Operand],
    k: usize,
    question: Question,
) -> bool
    requires { AreConversions structs.now conversions.now }
    ensures { result ≡ answer_of question (λ i. shape_of (sort_at (operands_seen structs.now operands.now) i)) k }
{
    let own = shape_at(operands, k);
    match question {
        Question::Answered(answer) => answer,
        Question::ConvertsTo(i) => converts(conversions, shape_at(operands, i), own),
        Question::ElementConvertsTo(i) => {
            converts(conversions, shape_at(operands, i), element(own))
        }
        Question::IsElementOf(i) => converts(conversions, element(shape_at(operands, i)), own),
        Question::GoesInto(i) => goes_into(conversions, shape_at(operands, i), own),
        Question::HasNoList => !has_list(structs, own),
        Question::ConvertsWithNoList(i) => {
            !has_list(structs, own) && converts(conversions, shape_at(operands, i), own)
        }
        Question::IsClusterOf(call) => is_cluster_of(structs, call, own),
    }
}

/// Whether operand k, counted from 0, is no number of a call or property, or one that there is.
pub fn is_allowed(op: Op, operands: &[Operand], k: usize) -> bool
    ensures { (t : Types) → result ≡ is_allowed_in op (operands_seen t operands.now) k }
{
    nxt_operand_rules::is_allowed(op, k, number_at(operands, k))
}
