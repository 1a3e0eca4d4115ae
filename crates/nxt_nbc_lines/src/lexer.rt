// The tokens of a text.

ghost use Rattle.std.specs.Prelude.{◌≡◌, ◌≤◌, List, length, Ok, IfOk, IfErr};
ghost use Rattle.nxt_model.specs.Nbc.Tokens as tokens;
ghost use Rattle.nxt_model.specs.Nbc.Tokens.{tokens_of};
ghost use Rattle.nxt_nbc_lines.specs.Lexed.{IsLexFault};

use crate::bytes::line_feeds;
use crate::fault::NbcFault;
use crate::pieces::piece_at;
use crate::token::{Token, Tokens};
use std::alloc::Global;

/// The most bytes of a text.
pub const LONGEST_TEXT: usize = 16_777_216;

/// The tokens of a text, or the line at which none begins (NBC Programmer's Guide, "Lexical Rules"). An `Err` for want of
/// memory says nothing of the text.
pub fn lex(alloc: Global, text: &[u8]) -> Result<Tokens, NbcFault>
    requires { length text.now ≤ 16777216 }
    ensures tokens { IfOk result (λ ts. tokens_of text.now ≡ Ok ts) }
    ensures fault { IfErr result (λ f. IsLexFault text.now f) }

    // A law over the definition, which is proved here: a text has at most one list of tokens.
    ensures only { IfOk result (λ ts. (others : List tokens.Token) → tokens_of text.now ≡ Ok others → others ≡ ts) }
{
    let mut tokens = Tokens::new(alloc);
    let mut line = 1;
    let mut at = 0;
    while at < text.len() {
        let rest = &text[at..];
        let Some(piece) = piece_at(rest) else {
            return Err(NbcFault::Lex(line));
        };
        if piece.is_token {
            tokens.push(Token {
                line,
                at: at as u32,
                len: piece.len as u32,
            })?;
        }
        line += line_feeds(&rest[..piece.len]) as u32;
        at += piece.len;
    }
    Ok(tokens)
}
