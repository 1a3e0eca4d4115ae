// The parsed text of a program, with names as numbers.

use nxt_types::instr::Op;
use nxt_types::kind::{Cmp, Kind};
use nxt_types::lists::{Bytes, ListOf, Nums};

/// What stands in the innermost arrays of a type.
#[derive(Clone, Copy, PartialEq, Eq, Debug)]
pub enum NbcBase {
    Number(Kind),
    Mutex,
    /// A struct, by its position among the program's.
    Struct(usize),
}

/// A type: its base, and how often it is made an array.
#[derive(Clone, Copy, PartialEq, Eq, Debug)]
pub struct NbcType {
    pub base: NbcBase,
    pub arrays: usize,
}

/// A list of types.
pub type NbcTypes = ListOf<NbcType>;

/// A struct, by the types of its members. Those of them that are structs stand before it.
#[derive(Drop)]
pub struct NbcStruct {
    pub members: NbcTypes,
}

/// A list of structs.
pub type NbcStructs = ListOf<NbcStruct>;

/// A variable's starting value.
#[derive(Drop)]
pub enum NbcStart {
    Zero,
    Num(i64),
    List(Nums),
    Text(Bytes),
}

/// A declared variable.
#[derive(Drop)]
pub struct NbcVar {
    pub shape: NbcType,
    pub start: NbcStart,
}

/// An operand. A variable is named by its position, and a part of it by the positions of members.
#[derive(Drop)]
pub enum NbcArg {
    Left,
    Var(u32, Nums),
    Number(i64),
    Text(Bytes),
    Imm(u16),
    Block(u8),
    Back(u8),
    Jump(u32),
}

/// A list of operands.
pub type NbcArgs = ListOf<NbcArg>;

/// A statement, with its line.
#[derive(Drop)]
pub struct NbcStatement {
    pub op: Op,
    pub cmp: Cmp,
    pub args: NbcArgs,
    pub line: u32,
}

/// A list of statements.
pub type NbcStatements = ListOf<NbcStatement>;

/// A thread or subroutine.
#[derive(Drop)]
pub struct NbcBlock {
    pub subroutine: bool,
    pub fire: u8,
    pub dependents: Bytes,
    pub body: NbcStatements,
}

/// A list of threads and subroutines.
pub type NbcBlocks = ListOf<NbcBlock>;

/// A list of declared variables.
pub type NbcVars = ListOf<NbcVar>;

/// A parsed text. A struct stands once, however many variables have it.
#[derive(Drop)]
pub struct NbcProgram {
    pub structs: NbcStructs,
    pub vars: NbcVars,
    pub blocks: NbcBlocks,
}
