// The rules between the operands of one statement.

ghost use Rattle.std.specs.Prelude.{◌≡◌, ◌<◌, ℕ, if◌then◌else◌, List, length, slice_index_or, true, false};
ghost use Rattle.nxt_types.specs.Shapes.{Shape};
ghost use Rattle.nxt_types.specs.Calls.{call_of};
ghost use Rattle.nxt_types.specs.OperandRules.{Sort, arithmetic as arithmetic_tests, asked as asked_of, comparison as comparison_tests, is_cluster, shape_of, sort_at, word_of};
ghost use Rattle.nxt_operand_rules.specs.SeenOf.{seen};
ghost use Rattle.nxt_operand_rules.specs.Questions.{answer, asks_all};
ghost use Rattle.nxt_operand_rules.specs.declared.beside.Question.TheVariants.{Answered};

use crate::seen::Seen;
use nxt_types::calls::Call;
use nxt_types::instr::Op;

/// What is asked of an operand beside the operands before it, which are named by their places, counted from 0
/// (Executable File Specification, "Bytecode Instructions").
#[derive(Clone, Copy, PartialEq, Eq, Debug)]
pub enum Question {
    /// What is seen of the operands answers it.
    Answered(bool),
    /// Whether it can be stored in another.
    ConvertsTo(usize),
    /// Whether its elements can be stored in another.
    ElementConvertsTo(usize),
    /// Whether it can be stored in an element of another.
    IsElementOf(usize),
    /// Whether it is an element for a list, or a list that converts to it.
    GoesInto(usize),
    /// Whether no list stands in it.
    HasNoList,
    /// Whether no list stands in it, and it can be stored in another.
    ConvertsWithNoList(usize),
    /// Whether it is the cluster of a system call.
    IsClusterOf(Call),
}

/// What is asked of operand k, counted from 0, beside the operands before it, by what is seen of the first three
/// (Executable File Specification, "Bytecode Instructions").
pub fn asked(op: Op, k: usize, first: Seen, second: Seen, third: Seen) -> Question
    ensures { (os : List Sort) → k < length os → first ≡ seen (sort_at os 0) → second ≡ seen (sort_at os 1) → third ≡ seen (sort_at os 2) →
        answer result (λ i. shape_of (sort_at os i)) k ≡ slice_index_or (asked_of op (λ i. shape_of (sort_at os i)) (λ i. word_of (sort_at os i)) os) k true }
{
    match op {
        Op::Index => asked_if(k == 1, Question::ElementConvertsTo(0)),
        Op::Replace => match k {
            1 => Question::ConvertsTo(0),
            3 => Question::GoesInto(1),
            _ => Question::Answered(true),
        },
        Op::Arrbuild => asked_if(k != 0, Question::GoesInto(0)),
        Op::Arrsubset | Op::Mov => asked_if(k == 1, Question::ConvertsTo(0)),
        Op::Arrinit => asked_if(k == 1, Question::IsElementOf(0)),
        Op::Flatten => asked_if(k == 1, Question::HasNoList),
        Op::Unflatten => asked_if(k == 3, Question::ConvertsWithNoList(0)),
        Op::Syscall => match k {
            1 => cluster_of_call(first, second),
            _ => Question::Answered(true),
        },
        _ => Question::Answered(fits_at_sight(op, k, first, second, third)),
    }
}

// The question where it is asked.
fn asked_if(is_asked: bool, question: Question) -> Question
    ensures { result ≡ (if is_asked then question else Answered true) }
{
    if is_asked {
        question
    } else {
        Question::Answered(true)
    }
}

// The cluster of a system call, or any cluster where no call has the number.
fn cluster_of_call(number: Seen, operand: Seen) -> Question
    ensures { (os : List Sort) → number ≡ seen (sort_at os 0) → operand ≡ seen (sort_at os 1) →
        answer result (λ i. shape_of (sort_at os i)) 1 ≡ is_cluster (call_of (word_of (sort_at os 0))) (shape_of (sort_at os 1)) }
{
    match Call::from_number(number.word()) {
        Some(call) => Question::IsClusterOf(call),
        None => Question::Answered(operand.is_cluster()),
    }
}

// Whether operand k fits the others, for the statements whose questions are answered by what is seen.
fn fits_at_sight(op: Op, k: usize, first: Seen, second: Seen, third: Seen) -> bool
    ensures { (os : List Sort) → asks_all op ≡ false → first ≡ seen (sort_at os 0) → second ≡ seen (sort_at os 1) → third ≡ seen (sort_at os 2) →
        result ≡ slice_index_or (asked_of op (λ i. shape_of (sort_at os i)) (λ i. word_of (sort_at os i)) os) k true }
{
    match op {
        Op::Add | Op::Sub | Op::Mul | Op::Div | Op::Mod | Op::And | Op::Or | Op::Xor => {
            arithmetic(k, first, second, third)
        }
        Op::Cmp => comparison(k, first, second, third),
        Op::Neg | Op::Not | Op::Tst => match k {
            0 => first.is_plain(),
            1 => first.is_like(second),
            _ => true,
        },
        Op::Brcmp => match k {
            1 => second.is_plain(),
            2 => second.is_like(third),
            _ => true,
        },
        Op::Setout => k != 0 || first.is_plain(),
        _ => true,
    }
}

// A number for a number, and for a list of numbers two of which one is a list.
fn arithmetic(k: usize, dest: Seen, x: Seen, y: Seen) -> bool
    ensures { (d e f : Sort) → dest ≡ seen d → x ≡ seen e → y ≡ seen f → result ≡ slice_index_or (arithmetic_tests (shape_of d) (shape_of e) (shape_of f)) k true }
{
    match k {
        0 => dest.is_plain(),
        1 => {
            if dest.is_number() {
                x.is_number()
            } else {
                x.is_plain()
            }
        }
        2 => {
            if dest.is_number() {
                y.is_number()
            } else {
                y.is_plain() && (x.is_numbers() || y.is_numbers())
            }
        }
        _ => true,
    }
}

// The same, or a number for two lists of numbers.
fn comparison(k: usize, dest: Seen, x: Seen, y: Seen) -> bool
    ensures { (d e f : Sort) → dest ≡ seen d → x ≡ seen e → y ≡ seen f → result ≡ slice_index_or (comparison_tests (shape_of d) (shape_of e) (shape_of f)) k true }
{
    if !dest.is_number() {
        return arithmetic(k, dest, x, y);
    }
    match k {
        1 => x.is_plain(),
        2 => x.is_like(y),
        _ => true,
    }
}
