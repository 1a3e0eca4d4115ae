// Operands, and lists of them.

ghost use Rattle.std.specs.Prelude.{◌≡◌, ◌<◌, ◌∷◌, not, length, map, option_map, IfOk, IfSome};
ghost use Rattle.std.specs.List.{prefix_len};
ghost use Rattle.nxt_model.specs.Nbc.Forms.{all_of, by_commas, is_sign, number_of, numbers_of, path_of, term_of, terms_of};
ghost use Rattle.nxt_nbc_lines.specs.Seen.{names_seen, path_seen, pieces_in, term_seen, terms_seen, word_seen, words_seen};
ghost use Rattle.nxt_nbc_lines.specs.Statements.{single_name};

use crate::words::Word;
use nxt_types::NoMemory;
use nxt_types::lists::{ListOf, Nums};
use std::alloc::Global;

/// A list of names.
pub type Names<'a> = ListOf<&'a [u8]>;

/// An operand of a line: a name with members, a number, or a text.
#[derive(Drop)]
pub enum Term<'a> {
    Named(Names<'a>),
    Literal(i64),
    Quote(&'a [u8]),
}

impl<'a> Term<'a> {
    /// The name, where the operand is one without members.
    pub fn single_name(&self) -> Option<&'a [u8]>
        ensures { option_map (λ n. n.now) result ≡ single_name (term_seen self.now) }
    {
        match self {
            Term::Named(names) => match names.as_slice() {
                [name] => Some(*name),
                _ => None,
            },
            _ => None,
        }
    }
}

/// A list of operands.
pub type Terms<'a> = ListOf<Term<'a>>;

// ---- pieces between commas

/// Whether a word is this sign.
pub(crate) fn is_sign(b: u8, word: &Word<'_>) -> bool
    ensures { result ≡ is_sign b (word_seen word.now) }
{
    matches!(word, Word::Sign(c) if *c == b)
}

// How many words stand in front of the first comma.
fn piece_len(words: &[Word<'_>]) -> usize
    ensures { result ≡ prefix_len (λ w. not (is_sign 44 (word_seen w))) words.now }
{
    words.iter().take_while(|word| !is_sign(b',', word)).count()
}

/// The words up to the first comma, and those behind it, if there is one.
pub(crate) fn front_piece<'w, 'a>(words: &'w [Word<'a>]) -> (&'w [Word<'a>], Option<&'w [Word<'a>]>)
    ensures pieces { by_commas (words_seen words.now) ≡ words_seen result.0.now ∷ pieces_in result.1 }
    ensures shorter { IfSome result.1 (λ ws. length ws.now < length words.now) }
{
    let len = piece_len(words);
    if len < words.len() {
        (&words[..len], Some(&words[len + 1..]))
    } else {
        (words, None)
    }
}

// ---- operands

// The name at the front of a path, and what is behind its dot, if it has one.
fn front_name<'w, 'a>(words: &'w [Word<'a>]) -> Option<(&'a [u8], Option<&'w [Word<'a>]>)>
    ensures path { path_of (words_seen words.now) ≡ path_seen result }
    ensures shorter { IfSome result (λ r. IfSome r.1 (λ ws. length ws.now < length words.now)) }
{
    match words {
        [Word::Name(name)] => Some((*name, None)),
        [Word::Name(name), Word::Sign(b'.'), rest @ ..] => Some((*name, Some(rest))),
        _ => None,
    }
}

// Names with dots between them.
fn path_of<'a>(alloc: Global, words: &[Word<'a>]) -> Result<Option<Names<'a>>, NoMemory>
    ensures { IfOk result (λ o. option_map names_seen o ≡ path_of (words_seen words.now)) }
{
    let mut names = Names::new(alloc);
    let mut rest = Some(words);
    while let Some(words) = rest {
        let Some((name, more)) = front_name(words) else {
            return Ok(None);
        };
        names.push(name)?;
        rest = more;
    }
    Ok(Some(names))
}

/// The operand that words are.
pub(crate) fn term_of<'a>(alloc: Global, words: &[Word<'a>]) -> Result<Option<Term<'a>>, NoMemory>
    ensures { IfOk result (λ o. option_map term_seen o ≡ term_of (words_seen words.now)) }
{
    match words {
        [Word::Number(z)] => Ok(Some(Term::Literal(*z))),
        [Word::Quoted(text)] => Ok(Some(Term::Quote(*text))),
        _ => Ok(match path_of(alloc, words)? {
            Some(names) => Some(Term::Named(names)),
            None => None,
        }),
    }
}

/// The operands that pieces are.
pub(crate) fn terms_in<'a>(
    alloc: Global,
    pieces: Option<&[Word<'a>]>,
) -> Result<Option<Terms<'a>>, NoMemory>
    ensures { IfOk result (λ o. option_map terms_seen o ≡ all_of (map term_of (pieces_in pieces.entry))) }
{
    let mut terms = Terms::new(alloc);
    let mut rest = pieces;
    while let Some(words) = rest {
        let (piece, more) = front_piece(words);
        let Some(term) = term_of(alloc, piece)? else {
            return Ok(None);
        };
        terms.push(term)?;
        rest = more;
    }
    Ok(Some(terms))
}

/// The operands that words are, one or more.
pub(crate) fn terms_of<'a>(alloc: Global, words: &[Word<'a>]) -> Result<Option<Terms<'a>>, NoMemory>
    ensures { IfOk result (λ o. option_map terms_seen o ≡ terms_of (words_seen words.now)) }
{
    terms_in(alloc, Some(words))
}

// ---- numbers

// The number that words are.
fn number_of(words: &[Word<'_>]) -> Option<i64>
    ensures { result ≡ number_of (words_seen words.now) }
{
    match words {
        [Word::Number(z)] => Some(*z),
        _ => None,
    }
}

/// The numbers that words are, one or more.
pub(crate) fn numbers_of(alloc: Global, words: &[Word<'_>]) -> Result<Option<Nums>, NoMemory>
    ensures { IfOk result (λ o. o ≡ numbers_of (words_seen words.now)) }
{
    let mut numbers = Nums::new(alloc);
    let mut rest = Some(words);
    while let Some(words) = rest {
        let (piece, more) = front_piece(words);
        let Some(number) = number_of(piece) else {
            return Ok(None);
        };
        numbers.push(number)?;
        rest = more;
    }
    Ok(Some(numbers))
}
