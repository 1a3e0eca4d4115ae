// The pieces of a text: tokens, and what stands between them.

ghost use Rattle.std.specs.Prelude.{◌≡◌, IsTrue};
ghost use Rattle.nxt_model.specs.Nbc.Tokens.{a_token, comment_len, is_quote, minus_piece, no_token, numeral_len, piece_at, slash_piece, text_piece};

use crate::bytes::{digits_len, hex_digits_len, line_len, name_len, shown_len};
use std::marker::Model;

/// A piece of a text, by its length in bytes.
#[derive(Drop)]
pub(crate) struct Piece {
    pub is_token: bool,
    pub len: usize,
}

impl Model for Piece {
    ghost use Rattle.nxt_model.specs.Nbc.Tokens as tokens;

    ghost Value = { tokens.Piece };

    ghost view = { λ p. (p.is_token, p.len) };
}

// A token of `len` bytes.
fn token(len: usize) -> Option<Piece>
    ensures { result ≡ a_token len }
{
    Some(Piece {
        is_token: true,
        len,
    })
}

// The bytes between tokens, `len` of them.
fn gap(len: usize) -> Option<Piece>
    ensures { result ≡ no_token len }
{
    Some(Piece {
        is_token: false,
        len,
    })
}

// The length of a numeral: decimal digits, or `0x` and hexadecimal digits.
fn numeral_len(bytes: &[u8]) -> usize
    ensures { result ≡ numeral_len bytes.now }
{
    if let [b'0', b'x', digits @ ..] = bytes {
        let len = hex_digits_len(digits);
        if len > 0 {
            return 2 + len;
        }
    }
    digits_len(bytes)
}

// The rest of a number behind its minus.
fn minus_piece(rest: &[u8]) -> Option<Piece>
    ensures { result ≡ minus_piece rest.now }
{
    match rest {
        [first, ..] if first.is_ascii_digit() => token(1 + numeral_len(rest)),
        _ => None,
    }
}

// A text behind its first quote, up to the same quote on its line.
fn text_piece(quote: u8, rest: &[u8]) -> Option<Piece>
    requires { IsTrue (is_quote quote) }
    ensures { result ≡ text_piece quote rest.now }
{
    let len = shown_len(quote, rest);
    if rest.get(len) == Some(&quote) {
        token(len + 2)
    } else {
        None
    }
}

// How many bytes go up to the end of a block comment, `*/`, and with it.
fn comment_len(bytes: &[u8]) -> Option<usize>
    ensures { result ≡ comment_len bytes.now }
{
    for (at, b) in bytes.iter().enumerate() {
        if *b == b'*' && bytes.get(at + 1) == Some(&b'/') {
            return Some(at + 2);
        }
    }
    None
}

// A comment behind its first slash.
fn slash_piece(rest: &[u8]) -> Option<Piece>
    ensures { result ≡ slash_piece rest.now }
{
    match rest {
        [b'/', ..] => gap(1 + line_len(rest)),
        [b'*', inside @ ..] => gap(comment_len(inside)? + 2),
        _ => None,
    }
}

/// The piece at the front of a text.
pub(crate) fn piece_at(text: &[u8]) -> Option<Piece>
    ensures { result ≡ piece_at text.now }
{
    let [first, rest @ ..] = text else {
        return None;
    };
    match *first {
        b' ' | b'\t' | b'\n' | b'\r' => gap(1),
        b'A'..=b'Z' | b'a'..=b'z' | b'_' => token(name_len(text)),
        b'0'..=b'9' => token(numeral_len(text)),
        b'-' => minus_piece(rest),
        b'"' | b'\'' => text_piece(*first, rest),
        b'#' | b',' | b'.' | b':' | b'[' | b']' => token(1),
        b';' => gap(line_len(text)),
        b'/' => slash_piece(rest),
        _ => None,
    }
}
