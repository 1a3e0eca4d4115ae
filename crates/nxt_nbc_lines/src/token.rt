// Tokens and lists of them.

use nxt_types::lists::ListOf;
use std::marker::Model;

/// A token: its line, counted from 1, its place in the text and its length, in bytes.
#[derive(Clone, Copy, PartialEq, Eq, Debug)]
pub struct Token {
    pub line: u32,
    pub at: u32,
    pub len: u32,
}

impl Model for Token {
    ghost use Rattle.nxt_model.specs.Nbc.Tokens as tokens;

    ghost Value = { tokens.Token };

    ghost view = { λ t. record { line = t.line; at = t.at; len = t.len } };

    ghost inverse = { λ t. record { line = t.line; at = t.at; len = t.len } };
}

/// A list of tokens.
pub type Tokens = ListOf<Token>;
