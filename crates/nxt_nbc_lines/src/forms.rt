// The forms of all lines of a text.

ghost use Rattle.std.specs.Prelude.{◌≡◌, ◌==◌, map, option_map, if◌then◌else◌, OnOk, IfOk};
ghost use Rattle.std.specs.List.{prefix_len};
ghost use Rattle.nxt_model.specs.Nbc.Tokens.{lines_of};
ghost use Rattle.nxt_model.specs.Nbc.Forms.{form_in, formed, least_bad, outermost};
ghost use Rattle.nxt_nbc_lines.specs.Held.{held_formed};
ghost use Rattle.nxt_nbc_lines.specs.Lines.{bytes_of, word_at, with_line, left_open, either_bad};
ghost use Rattle.nxt_nbc_lines.specs.Places.{ends_empty_at};
ghost use Rattle.nxt_nbc_lines.specs.Seen.{form_seen, formed_seen, place_seen, words_seen};

use crate::form::Form;
use crate::opened::Open;
use crate::places::{Place, form_at};
use crate::token::Token;
use crate::words::{Word, word_of};
use nxt_types::NoMemory;
use nxt_types::lists::ListOf;
use std::alloc::Global;

/// The form of a line, with the line's number.
#[derive(Drop)]
pub struct LineForm<'a> {
    pub line: u32,
    pub form: Form<'a>,
}

/// The forms of a text's lines, and the first line that is bad: that has no form, that ends a struct without members, or
/// that opened what is still open at the end.
#[derive(Drop)]
pub struct Formed<'a> {
    pub forms: ListOf<LineForm<'a>>,
    pub bad: Option<u32>,
}

// ---- the words of a line

fn bytes_of<'a>(text: &'a [u8], token: &Token) -> &'a [u8]
    ensures { result.now ≡ bytes_of text.now token.now }
{
    let at = token.at as usize;
    let end = (at + token.len as usize).min(text.len());
    &text[at.min(end)..end]
}

fn words_of<'a>(
    alloc: Global,
    text: &'a [u8],
    tokens: &[Token],
) -> Result<ListOf<Word<'a>>, NoMemory>
    ensures { IfOk result (λ ws. words_seen ws ≡ map (word_at text.now) tokens.now) }
{
    let mut words = ListOf::new(alloc);
    for token in tokens {
        words.push(word_of(bytes_of(text, token)))?;
    }
    Ok(words)
}

// How many tokens at the front stand on a line.
fn line_len(line: u32, tokens: &[Token]) -> usize
    ensures { result ≡ prefix_len (λ t. t.line == line) tokens.now }
{
    tokens.iter().take_while(|token| token.line == line).count()
}

// ---- lines

// The first of the bad lines, with one more.
fn least_bad(line: u32, bad: Option<u32>) -> Option<u32>
    ensures { result ≡ least_bad line bad }
{
    match bad {
        None => Some(line),
        Some(other) => Some(line.min(other)),
    }
}

// The first of the bad lines behind a line.
fn bad_after(line: u32, is_bad: bool, bad: Option<u32>) -> Option<u32>
    ensures { result ≡ (if is_bad then least_bad line bad else bad) }
{
    if is_bad { least_bad(line, bad) } else { bad }
}

// The first of the bad lines at the end, where these places are still open.
fn bad_at_end(places: &Open<'_>, bad: Option<u32>) -> Option<u32>
    ensures { result ≡ either_bad bad (outermost places.now) }
{
    match places.outermost() {
        Some(line) => least_bad(line, bad),
        None => bad,
    }
}

// Whether a struct ends that has no member.
fn ends_empty(form: &Form<'_>, place: Option<Place<'_>>) -> bool
    ensures { result ≡ ends_empty_at (form_seen form.now) (option_map place_seen place.entry) }
{
    match (form, place) {
        (Form::CloseStruct, Some(Place::InStruct(_, has_member))) => !has_member,
        _ => false,
    }
}

// Reads a line.
fn read_line<'a>(
    alloc: Global,
    line: u32,
    words: &[Word<'a>],
    places: &mut Open<'a>,
    formed: &mut Formed<'a>,
) -> Result<(), NoMemory>
    ensures formed { OnOk result (formed_seen formed.new ≡ with_line line (form_in places.old (words_seen words.now)) places.old (formed_seen formed.old)) }
    ensures places { OnOk result (places.new ≡ left_open line (form_in places.old (words_seen words.now)) places.old) }
{
    let place = places.innermost();
    let Some(form) = form_at(alloc, place, words)? else {
        formed.bad = least_bad(line, formed.bad);
        return Ok(());
    };
    formed.bad = bad_after(line, ends_empty(&form, place), formed.bad);
    places.pass(line, &form)?;
    formed.forms.push(LineForm { line, form })
}

/// The forms of the lines of a text that was cut into these tokens, by the place where each line stands (NBC Programmer's
/// Guide, "Program Structure"). A number above 2^62 is held as 2^62, and one below -2^62 as -2^62.
pub fn forms_of<'a>(alloc: Global, text: &'a [u8], tokens: &[Token]) -> Result<Formed<'a>, NoMemory>
    ensures { IfOk result (λ f. formed_seen f ≡ held_formed (formed (lines_of text.now tokens.now))) }
{
    let mut places = Open::new(alloc);
    let mut formed = Formed {
        forms: ListOf::new(alloc),
        bad: None,
    };
    let mut rest = tokens;
    while let [first, ..] = rest {
        let len = line_len(first.line, rest);
        let (tokens, more) = rest.split_at(len);
        let words = words_of(alloc, text, tokens)?;
        read_line(
            alloc,
            first.line,
            words.as_slice(),
            &mut places,
            &mut formed,
        )?;
        rest = more;
    }
    formed.bad = bad_at_end(&places, formed.bad);
    Ok(formed)
}
