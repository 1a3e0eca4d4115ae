// The forms of lines.

use crate::terms::{Term, Terms};
use nxt_types::instr::Op;
use nxt_types::kind::Cmp;
use nxt_types::lists::Nums;

/// A type's name, and how often it is made an array.
#[derive(Clone, Copy)]
pub struct TypeName<'a> {
    pub name: &'a [u8],
    pub arrays: usize,
}

/// What a declaration says of the start.
#[derive(Drop)]
pub enum Given<'a> {
    Nothing,
    One(i64),
    Many(Nums),
    Bytes(&'a [u8]),
}

/// The form of a line (NBC Programmer's Guide, "Program Structure"). Its names and texts lie in the text that was read.
#[derive(Drop)]
pub enum Form<'a> {
    /// `#include "NXTDefs.h"`
    Include,
    /// `dseg segment`
    OpenData,
    /// `dseg ends`
    CloseData,
    OpenStruct(&'a [u8]),
    CloseStruct,
    /// A member of a struct, by its name and its type's.
    Member(&'a [u8], TypeName<'a>),
    /// A variable, by its name and its type's, and what it starts with.
    Declare(&'a [u8], TypeName<'a>, Given<'a>),
    OpenThread(&'a [u8]),
    OpenSubroutine(&'a [u8]),
    /// `endt` in a thread, `ends` in a subroutine
    CloseBlock,
    Precedes(Terms<'a>),
    Follows(Terms<'a>),
    Exit,
    ExitTo(Term<'a>),
    Return,
    Call(Term<'a>),
    /// A label that no statement follows on its line.
    Label(&'a [u8]),
    /// A statement, with a label if one stands before it. The comparison is `Lt` where the operation compares nothing.
    Do(Option<&'a [u8]>, Op, Cmp, Terms<'a>),
}
