// The rules of one operand: its class, and the numbers of calls and properties.

ghost use Rattle.std.specs.Prelude.{◌≡◌, List};
ghost use Rattle.nxt_types.specs.OperandRules.{Sort, is_allowed as is_allowed_in, is_of_class as is_of_class_of, sort_at, word_of};
ghost use Rattle.nxt_operand_rules.specs.SeenOf.{seen};

use crate::seen::Seen;
use nxt_types::calls::Call;
use nxt_types::instr::Op;
use nxt_types::opcodes::Class;
use nxt_types::words::{LAST_INPUT, LAST_OUTPUT};

/// Whether an operand is of a class, in a program with this number of clumps (Executable File Specification, "Bytecode
/// Instructions").
pub fn is_of_class(clumps: usize, class: Class, operand: Seen) -> bool
    ensures { (o : Sort) → operand ≡ seen o → result ≡ is_of_class_of clumps class o }
{
    match class {
        Class::NumberOut | Class::NumberIn => operand.is_number(),
        Class::List => operand.is_list(),
        Class::Text => operand.is_text(),
        Class::Anything => operand.is_value(),
        Class::Mutex => operand.is_mutex(),
        Class::Immediate | Class::Offset => true,
        Class::Clump => usize::from(operand.word()) < clumps,
        Class::OptionalOut | Class::OptionalIn => operand.is_absent() || operand.is_number(),
    }
}

/// Whether operand k, counted from 0, is no number of a call or property, or one that there is; its number is 0 where it
/// is a name (Executable File Specification, "Bytecode Instructions").
pub fn is_allowed(op: Op, k: usize, number: u16) -> bool
    ensures { (os : List Sort) → number ≡ word_of (sort_at os k) → result ≡ is_allowed_in op os k }
{
    match op {
        Op::Syscall => k != 0 || Call::from_number(number).is_some(),
        Op::Setin | Op::Getin => k != 2 || number <= LAST_INPUT,
        Op::Getout => k != 2 || number <= LAST_OUTPUT,
        Op::Setout => k % 2 == 0 || number <= LAST_OUTPUT,
        _ => true,
    }
}
