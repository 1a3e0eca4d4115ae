// Texts that are cut into tokens.

use nxt_nbc_lines::{LONGEST_TEXT, NbcFault, Token, Tokens, lex};
use std::alloc::Global;
use std::test::Fail;

/// The tokens of a text. Of a longer one only the front is looked at.
pub(crate) fn tokens_of(alloc: Global, text: &[u8]) -> Result<Tokens, NbcFault> {
    lex(alloc, &text[..text.len().min(LONGEST_TEXT)])
}

/// A token as its line and its bytes.
fn spelled(alloc: Global, text: &[u8], token: Token) -> Result<String, Fail> {
    let at = token.at as usize;
    let word = text
        .get(at..at + token.len as usize)
        .unwrap_or(b"(outside)");
    let word = str::from_utf8(word).unwrap_or("(no text)");
    Ok(format!(in alloc; "{}:{word} ", token.line)?)
}

pub(crate) fn refusal(alloc: Global, fault: NbcFault) -> Result<String, Fail> {
    Ok(match fault {
        NbcFault::Lex(line) => format!(in alloc; "refused at line {line}")?,
        other => format!(in alloc; "{other:?}")?,
    })
}

/// Each token of a text with its line, or the line at which it is refused.
pub(crate) fn read(alloc: Global, text: &[u8]) -> Result<String, Fail> {
    let tokens = match tokens_of(alloc, text) {
        Ok(tokens) => tokens,
        Err(fault) => return refusal(alloc, fault),
    };
    let mut told = String::new(alloc);
    for token in tokens.as_slice() {
        let word = spelled(alloc, text, *token)?;
        told.push_str(word.as_str())?;
    }
    Ok(told)
}
