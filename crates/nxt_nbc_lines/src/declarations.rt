// Declarations of variables, and members of structs.

ghost use Rattle.std.specs.Prelude.{◌≡◌, ◌≤◌, length, drop, option_map, IfOk, MatchBool};
ghost use Rattle.nxt_model.specs.Nbc.Forms.{brackets, declaration, given_by, is_keyword, member_form};
ghost use Rattle.nxt_nbc_lines.specs.Seen.{form_seen, given_seen, more_brackets, words_seen};

use crate::form::{Form, Given, TypeName};
use crate::terms::numbers_of;
use crate::words::{Word, is_name};
use nxt_types::NoMemory;
use std::alloc::Global;

// Whether a pair of brackets stands in front.
fn begin_with_brackets(words: &[Word<'_>]) -> bool
    ensures { MatchBool result ((2 ≤ length words.now) × (brackets (words_seen words.now) ≡ more_brackets 1 (brackets (words_seen (drop 2 words.now))))) (brackets (words_seen words.now) ≡ (0, words_seen words.now)) }
{
    matches!(words, [Word::Sign(b'['), Word::Sign(b']'), ..])
}

// How many pairs of brackets stand in front, and what follows them.
fn brackets<'w, 'a>(words: &'w [Word<'a>]) -> (usize, &'w [Word<'a>])
    ensures { brackets (words_seen words.now) ≡ (result.0, words_seen result.1.now) }
{
    let mut arrays = 0;
    let mut rest = words;
    while begin_with_brackets(rest) {
        arrays += 1;
        rest = &rest[2..];
    }
    (arrays, rest)
}

// Whether no type has this name.
fn is_keyword(name: &[u8]) -> bool
    ensures { result ≡ is_keyword name.now }
{
    is_name(name, b"struct") || is_name(name, b"segment") || is_name(name, b"ends")
}

// The start of a variable of a type, by the words behind the type.
fn given_by<'a>(
    alloc: Global,
    of: &TypeName<'_>,
    words: &[Word<'a>],
) -> Result<Option<Given<'a>>, NoMemory>
    ensures { IfOk result (λ o. option_map given_seen o ≡ given_by of.now.name.now of.now.arrays (words_seen words.now)) }
{
    match (of.arrays, words) {
        (_, []) => Ok(Some(Given::Nothing)),
        (0, [Word::Number(z)]) => Ok(Some(Given::One(*z))),
        (1, [Word::Quoted(text)]) => Ok(Some(Given::Bytes(*text))),
        (1, _) => Ok(match numbers_of(alloc, words)? {
            Some(numbers) => Some(Given::Many(numbers)),
            None => None,
        }),
        _ => Ok(None),
    }
}

/// The declaration of a variable, by its name, its type's name and the words behind them.
pub(crate) fn declaration<'a>(
    alloc: Global,
    name: &'a [u8],
    of: &'a [u8],
    words: &[Word<'a>],
) -> Result<Option<Form<'a>>, NoMemory>
    ensures { IfOk result (λ o. option_map form_seen o ≡ declaration name.now of.now (words_seen words.now)) }
{
    if is_keyword(of) {
        return Ok(None);
    }
    let (arrays, rest) = brackets(words);
    let of = TypeName { name: of, arrays };
    match given_by(alloc, &of, rest)? {
        Some(given) => Ok(Some(Form::Declare(name, of, given))),
        None => Ok(None),
    }
}

/// The member of a struct, by its name, its type's name and the words behind them.
pub(crate) fn member_form<'a>(name: &'a [u8], of: &'a [u8], words: &[Word<'a>]) -> Option<Form<'a>>
    ensures { option_map form_seen result ≡ member_form name.now of.now (brackets (words_seen words.now)) }
{
    match brackets(words) {
        (arrays, []) if !is_keyword(of) => {
            Some(Form::Member(name, TypeName { name: of, arrays }))
        }
        _ => None,
    }
}
