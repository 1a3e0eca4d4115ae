// The table of the operations: codes, names and classes of operands.

ghost use Rattle.std.specs.Prelude.{◌≡◌, ◌<◌, ◌≤◌, ℕ, slice_get, Some};
ghost use Rattle.nxt_types.specs.Opcodes.{row as row_of, plain as plain_row, comparing as comparing_row, fixed as fixed_operands, opcode, op_of, op_name, op_named, has_comparison, arity as arity_of_op, class_in, exactly, takes, all_ops};
ghost use Rattle.nxt_types.specs.Arities.{as_arity, row_seen, operands_seen};
ghost use Rattle.nxt_types.specs.Statements.{comparison_number, comparisons};

use crate::instr::Op;
use crate::kind::Cmp;

/// What an operand may be (Executable File Specification, "Bytecode Instructions").
#[derive(Clone, Copy, PartialEq, Eq, Debug)]
pub enum Class {
    /// A number that is written.
    NumberOut,
    /// A number that is read.
    NumberIn,
    /// A list.
    List,
    /// A list of ubyte.
    Text,
    /// A number, a list or a group.
    Anything,
    /// A mutex.
    Mutex,
    /// A plain number: no index of an entry.
    Immediate,
    /// The number of a clump.
    Clump,
    /// A jump's offset.
    Offset,
    /// A number that is written, or left out.
    OptionalOut,
    /// A number that is read, or left out.
    OptionalIn,
}

/// The classes of the operands that an operation takes.
#[derive(Clone, Copy)]
pub enum Operands {
    Fixed(&'static [Class]),
    /// A first one, and one or more others.
    FirstAndMore(Class, Class),
    /// A first one, and one or more pairs.
    FirstAndPairs(Class, Class, Class),
}

/// How many operands an operation takes.
#[derive(Clone, Copy, PartialEq, Eq, Debug)]
pub enum Arity {
    Exactly(u8),
    /// A first one, and one or more others.
    Several,
    /// A first one, and one or more pairs.
    Pairs,
}

impl Arity {
    /// Whether this many operands are as many as it says.
    pub fn takes(self, operands: usize) -> bool
        ensures { result ≡ takes (as_arity self) operands }
    {
        match self {
            Arity::Exactly(count) => operands == usize::from(count),
            Arity::Several => operands >= 2,
            Arity::Pairs => operands >= 3 && operands % 2 == 1,
        }
    }
}

impl Operands {
    /// The class of operand k, counted from 0.
    pub fn class(self, k: usize) -> Class
        ensures { result ≡ class_in (operands_seen self) k }
    {
        match self {
            Operands::Fixed(classes) => match classes.get(k) {
                Some(class) => *class,
                None => Class::Immediate,
            },
            Operands::FirstAndMore(first, others) => { if k == 0 { first } else { others } }
            Operands::FirstAndPairs(first, left, right) => {
                if k == 0 {
                    first
                } else if k % 2 == 1 {
                    left
                } else {
                    right
                }
            }
        }
    }
}

/// A row of the table of operations (Executable File Specification, "Bytecode Instructions").
#[derive(Clone, Copy)]
pub struct OpcodeRow {
    pub code: u8,
    /// The name in NBC texts and listings.
    pub name: &'static str,
    /// Whether the first word of the long form names a comparison.
    pub compares: bool,
    pub operands: Operands,
}

fn plain(code: u8, name: &'static str, operands: Operands) -> OpcodeRow
    ensures { row_seen result ≡ plain_row code name.now (operands_seen operands) }
{
    OpcodeRow {
        code,
        name,
        compares: false,
        operands,
    }
}

fn comparing(code: u8, name: &'static str, operands: Operands) -> OpcodeRow
    ensures { row_seen result ≡ comparing_row code name.now (operands_seen operands) }
{
    OpcodeRow {
        code,
        name,
        compares: true,
        operands,
    }
}

fn fixed(classes: &'static [Class]) -> Operands
    ensures { operands_seen result ≡ fixed_operands classes.now }
{
    Operands::Fixed(classes)
}

/// Every operation, in order of code.
pub const ALL_OPS: [Op; 45] = [
    Op::Add,
    Op::Sub,
    Op::Neg,
    Op::Mul,
    Op::Div,
    Op::Mod,
    Op::And,
    Op::Or,
    Op::Xor,
    Op::Not,
    Op::Cmp,
    Op::Tst,
    Op::Index,
    Op::Replace,
    Op::Arrsize,
    Op::Arrbuild,
    Op::Arrsubset,
    Op::Arrinit,
    Op::Mov,
    Op::Set,
    Op::Flatten,
    Op::Unflatten,
    Op::Numtostr,
    Op::Strtonum,
    Op::Strcat,
    Op::Strsubset,
    Op::Strtoarr,
    Op::Arrtostr,
    Op::Jmp,
    Op::Brcmp,
    Op::Brtst,
    Op::Syscall,
    Op::Stop,
    Op::Finclump,
    Op::Finclumpimmed,
    Op::Acquire,
    Op::Release,
    Op::Subcall,
    Op::Subret,
    Op::Setin,
    Op::Setout,
    Op::Getin,
    Op::Getout,
    Op::Wait,
    Op::Gettick,
];

impl Op {
    /// Its row of the table of operations.
    pub fn row(self) -> OpcodeRow
        ensures { row_seen result ≡ row_of self }
    {
        use Class::{
            Anything, Clump, Immediate, List, Mutex, Offset, OptionalIn, OptionalOut, NumberIn,
            Text, NumberOut,
        };
        match self {
            Op::Add => plain(0x00, "add", fixed(&[Anything, Anything, Anything])),
            Op::Sub => plain(0x01, "sub", fixed(&[Anything, Anything, Anything])),
            Op::Neg => plain(0x02, "neg", fixed(&[Anything, Anything])),
            Op::Mul => plain(0x03, "mul", fixed(&[Anything, Anything, Anything])),
            Op::Div => plain(0x04, "div", fixed(&[Anything, Anything, Anything])),
            Op::Mod => plain(0x05, "mod", fixed(&[Anything, Anything, Anything])),
            Op::And => plain(0x06, "and", fixed(&[Anything, Anything, Anything])),
            Op::Or => plain(0x07, "or", fixed(&[Anything, Anything, Anything])),
            Op::Xor => plain(0x08, "xor", fixed(&[Anything, Anything, Anything])),
            Op::Not => plain(0x09, "not", fixed(&[Anything, Anything])),
            Op::Cmp => comparing(0x11, "cmp", fixed(&[Anything, Anything, Anything])),
            Op::Tst => comparing(0x12, "tst", fixed(&[Anything, Anything])),
            Op::Index => plain(0x15, "index", fixed(&[Anything, List, OptionalIn])),
            Op::Replace => plain(0x16, "replace", fixed(&[List, List, OptionalIn, Anything])),
            Op::Arrsize => plain(0x17, "arrsize", fixed(&[NumberOut, List])),
            Op::Arrbuild => plain(0x18, "arrbuild", Operands::FirstAndMore(List, Anything)),
            Op::Arrsubset => plain(
                0x19,
                "arrsubset",
                fixed(&[List, List, OptionalIn, OptionalIn]),
            ),
            Op::Arrinit => plain(0x1A, "arrinit", fixed(&[List, Anything, NumberIn])),
            Op::Mov => plain(0x1B, "mov", fixed(&[Anything, Anything])),
            Op::Set => plain(0x1C, "set", fixed(&[NumberOut, Immediate])),
            Op::Flatten => plain(0x1D, "flatten", fixed(&[Text, Anything])),
            Op::Unflatten => plain(
                0x1E,
                "unflatten",
                fixed(&[Anything, OptionalOut, Text, Anything]),
            ),
            Op::Numtostr => plain(0x1F, "numtostr", fixed(&[Text, NumberIn])),
            Op::Strtonum => plain(
                0x20,
                "strtonum",
                fixed(&[NumberOut, OptionalOut, Text, OptionalIn, OptionalIn]),
            ),
            Op::Strcat => plain(0x21, "strcat", Operands::FirstAndMore(Text, Text)),
            Op::Strsubset => plain(
                0x22,
                "strsubset",
                fixed(&[Text, Text, OptionalIn, OptionalIn]),
            ),
            Op::Strtoarr => plain(0x23, "strtoarr", fixed(&[Text, Text])),
            Op::Arrtostr => plain(0x24, "arrtostr", fixed(&[Text, Text])),
            Op::Jmp => plain(0x25, "jmp", fixed(&[Offset])),
            Op::Brcmp => comparing(0x26, "brcmp", fixed(&[Offset, Anything, Anything])),
            Op::Brtst => comparing(0x27, "brtst", fixed(&[Offset, NumberIn])),
            Op::Syscall => plain(0x28, "syscall", fixed(&[Immediate, Anything])),
            Op::Stop => plain(0x29, "stop", fixed(&[OptionalIn])),
            Op::Finclump => plain(0x2A, "finclump", fixed(&[Immediate, Immediate])),
            Op::Finclumpimmed => plain(0x2B, "finclumpimmed", fixed(&[Clump])),
            Op::Acquire => plain(0x2C, "acquire", fixed(&[Mutex])),
            Op::Release => plain(0x2D, "release", fixed(&[Mutex])),
            Op::Subcall => plain(0x2E, "subcall", fixed(&[Clump, NumberOut])),
            Op::Subret => plain(0x2F, "subret", fixed(&[NumberIn])),
            Op::Setin => plain(0x30, "setin", fixed(&[NumberIn, NumberIn, Immediate])),
            Op::Setout => plain(
                0x31,
                "setout",
                Operands::FirstAndPairs(Anything, Immediate, NumberIn),
            ),
            Op::Getin => plain(0x32, "getin", fixed(&[NumberOut, NumberIn, Immediate])),
            Op::Getout => plain(0x33, "getout", fixed(&[NumberOut, NumberIn, Immediate])),
            Op::Wait => plain(0x34, "wait", fixed(&[OptionalIn])),
            Op::Gettick => plain(0x35, "gettick", fixed(&[NumberOut])),
        }
    }

    /// The opcode.
    pub fn code(self) -> u8
        ensures value { result ≡ opcode self }
        ensures named { op_of result ≡ Some self }
    {
        self.row().code
    }

    /// The operation of an opcode.
    pub fn from_code(code: u8) -> Option<Op>
        ensures { result ≡ op_of code }
    {
        ALL_OPS.iter().copied().find(|op| op.code() == code)
    }

    /// The name in NBC texts and listings.
    pub fn name(self) -> &'static str
        ensures value { result.now ≡ op_name self }
        ensures named { op_named result.now ≡ Some self }
    {
        self.row().name
    }

    /// Whether the first word of the long form names a comparison.
    pub fn has_comparison(self) -> bool
        ensures { result ≡ has_comparison self }
    {
        self.row().compares
    }

    /// How many operands it takes, the size word not counted.
    pub fn arity(self) -> Arity
        ensures value { as_arity result ≡ arity_of_op self }
        ensures few { (n : ℕ) → arity_of_op self ≡ exactly n → n ≤ 5 }
    {
        match self.row().operands {
            Operands::Fixed(classes) => Arity::Exactly(classes.len() as u8),
            Operands::FirstAndMore(..) => Arity::Several,
            Operands::FirstAndPairs(..) => Arity::Pairs,
        }
    }

    /// The class of an operand, counted from 0.
    pub fn class(self, k: usize) -> Class
        ensures { result ≡ class_in (row_of self).operands k }
    {
        self.row().operands.class(k)
    }
}

impl Cmp {
    /// The number in bits 8 to 10 of a statement's first word.
    pub fn number(self) -> u8
        ensures value { result ≡ comparison_number self }
        ensures named { slice_get comparisons result ≡ Some self }
        ensures below { result < 6 }
    {
        match self {
            Cmp::Lt => 0,
            Cmp::Gt => 1,
            Cmp::Lteq => 2,
            Cmp::Gteq => 3,
            Cmp::Eq => 4,
            Cmp::Neq => 5,
        }
    }

    /// The comparison of a number.
    pub fn from_number(number: u8) -> Option<Cmp>
        ensures { result ≡ slice_get comparisons number }
    {
        match number {
            0 => Some(Cmp::Lt),
            1 => Some(Cmp::Gt),
            2 => Some(Cmp::Lteq),
            3 => Some(Cmp::Gteq),
            4 => Some(Cmp::Eq),
            5 => Some(Cmp::Neq),
            _ => None,
        }
    }
}
