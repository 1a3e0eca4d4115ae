// The forms of a line, by the place where it stands.

ghost use Rattle.std.specs.Prelude.{◌≡◌, if◌then◌else◌, option_map, IfOk};
ghost use Rattle.nxt_model.specs.Nbc.Forms as model;
ghost use Rattle.nxt_model.specs.Nbc.Forms.{is_word, include_form, named_struct, declared, struct_member, top_form, data_form, struct_form, body_form, thread_form, subroutine_form};
ghost use Rattle.nxt_nbc_lines.specs.Places.{is_alone, are_names, name_behind, term_behind, list_behind, form_at};
ghost use Rattle.nxt_nbc_lines.specs.Seen.{form_seen, place_seen, term_seen, terms_seen, word_seen, words_seen};

use crate::declarations::{declaration, member_form};
use crate::form::Form;
use crate::statements::labelled_form;
use crate::terms::{Term, Terms, term_of, terms_of};
use crate::words::{Word, is_name};
use nxt_types::NoMemory;
use std::alloc::Global;

/// What a line may stand in. A struct has a name, and has a member or not.
#[derive(Clone, Copy)]
pub(crate) enum Place<'a> {
    InData,
    InStruct(&'a [u8], bool),
    InThread,
    InSubroutine,
}

// ---- words that tell forms apart

// Whether a word is this name.
fn is_word(word: &Word<'_>, this: &[u8]) -> bool
    ensures { result ≡ is_word (word_seen word.now) this.now }
{
    match word {
        Word::Name(name) => is_name(name, this),
        _ => false,
    }
}

// Whether words are this name alone.
fn is_alone(this: &[u8], words: &[Word<'_>]) -> bool
    ensures { result ≡ is_alone this.now (words_seen words.now) }
{
    match words {
        [word] => is_word(word, this),
        _ => false,
    }
}

// Whether words are these two names.
fn are_names(first: &[u8], second: &[u8], words: &[Word<'_>]) -> bool
    ensures { result ≡ are_names first.now second.now (words_seen words.now) }
{
    match words {
        [front, back] => is_word(front, first) && is_word(back, second),
        _ => false,
    }
}

// The name behind this one.
fn name_behind<'a>(this: &[u8], words: &[Word<'a>]) -> Option<&'a [u8]>
    ensures { option_map (λ n. n.now) result ≡ name_behind this.now (words_seen words.now) }
{
    match words {
        [front, Word::Name(name)] => {
            if is_word(front, this) {
                Some(*name)
            } else {
                None
            }
        }
        _ => None,
    }
}

// The operand behind this name.
fn term_behind<'a>(
    alloc: Global,
    this: &[u8],
    words: &[Word<'a>],
) -> Result<Option<Term<'a>>, NoMemory>
    ensures { IfOk result (λ o. option_map term_seen o ≡ term_behind this.now (words_seen words.now)) }
{
    match words {
        [front, rest @ ..] => {
            if is_word(front, this) {
                term_of(alloc, rest)
            } else {
                Ok(None)
            }
        }
        [] => Ok(None),
    }
}

// The operands behind this name, one or more.
fn list_behind<'a>(
    alloc: Global,
    this: &[u8],
    words: &[Word<'a>],
) -> Result<Option<Terms<'a>>, NoMemory>
    ensures { IfOk result (λ o. option_map terms_seen o ≡ list_behind this.now (words_seen words.now)) }
{
    match words {
        [front, rest @ ..] => {
            if is_word(front, this) {
                terms_of(alloc, rest)
            } else {
                Ok(None)
            }
        }
        [] => Ok(None),
    }
}

// ---- outside of everything

// Whether words include the names of NBC.
fn is_include(words: &[Word<'_>]) -> bool
    ensures { include_form (words_seen words.now) ≡ (if result then Some model.Include else None) }
{
    match words {
        [Word::Sign(sign), word, Word::Quoted(file)] => *sign == b'#'
            && is_word(word, b"include")
            && is_name(file, b"NXTDefs.h"),
        _ => false,
    }
}

fn top_form<'a>(words: &[Word<'a>]) -> Option<Form<'a>>
    ensures { option_map form_seen result ≡ top_form (words_seen words.now) }
{
    if is_include(words) {
        return Some(Form::Include);
    }
    if are_names(b"dseg", b"segment", words) {
        return Some(Form::OpenData);
    }
    if let Some(name) = name_behind(b"thread", words) {
        return Some(Form::OpenThread(name));
    }
    match name_behind(b"subroutine", words) {
        Some(name) => Some(Form::OpenSubroutine(name)),
        None => None,
    }
}

// ---- in data and in structs

// The name of the struct that words open.
fn named_struct<'a>(words: &[Word<'a>]) -> Option<&'a [u8]>
    ensures { option_map (λ n. model.OpenStruct n.now) result ≡ named_struct (words_seen words.now) }
{
    match words {
        [Word::Name(name), word] => {
            if is_word(word, b"struct") {
                Some(*name)
            } else {
                None
            }
        }
        _ => None,
    }
}

fn declared<'a>(alloc: Global, words: &[Word<'a>]) -> Result<Option<Form<'a>>, NoMemory>
    ensures { IfOk result (λ o. option_map form_seen o ≡ declared (words_seen words.now)) }
{
    match words {
        [Word::Name(name), Word::Name(of), rest @ ..] => declaration(alloc, name, of, rest),
        _ => Ok(None),
    }
}

fn data_form<'a>(alloc: Global, words: &[Word<'a>]) -> Result<Option<Form<'a>>, NoMemory>
    ensures { IfOk result (λ o. option_map form_seen o ≡ data_form (words_seen words.now)) }
{
    if are_names(b"dseg", b"ends", words) {
        return Ok(Some(Form::CloseData));
    }
    if let Some(name) = named_struct(words) {
        return Ok(Some(Form::OpenStruct(name)));
    }
    declared(alloc, words)
}

fn struct_member<'a>(words: &[Word<'a>]) -> Option<Form<'a>>
    ensures { option_map form_seen result ≡ struct_member (words_seen words.now) }
{
    match words {
        [Word::Name(name), Word::Name(of), rest @ ..] => member_form(name, of, rest),
        _ => None,
    }
}

fn struct_form<'a>(name: &[u8], words: &[Word<'a>]) -> Option<Form<'a>>
    ensures { option_map form_seen result ≡ struct_form name.now (words_seen words.now) }
{
    if are_names(name, b"ends", words) {
        return Some(Form::CloseStruct);
    }
    struct_member(words)
}

// ---- in threads and in subroutines

fn body_form<'a>(alloc: Global, words: &[Word<'a>]) -> Result<Option<Form<'a>>, NoMemory>
    ensures { IfOk result (λ o. option_map form_seen o ≡ body_form (words_seen words.now)) }
{
    if are_names(b"dseg", b"segment", words) {
        return Ok(Some(Form::OpenData));
    }
    if let Some(term) = term_behind(alloc, b"call", words)? {
        return Ok(Some(Form::Call(term)));
    }
    labelled_form(alloc, words)
}

fn thread_form<'a>(alloc: Global, words: &[Word<'a>]) -> Result<Option<Form<'a>>, NoMemory>
    ensures { IfOk result (λ o. option_map form_seen o ≡ thread_form (words_seen words.now)) }
{
    if is_alone(b"endt", words) {
        return Ok(Some(Form::CloseBlock));
    }
    if let Some(terms) = list_behind(alloc, b"precedes", words)? {
        return Ok(Some(Form::Precedes(terms)));
    }
    if let Some(terms) = list_behind(alloc, b"follows", words)? {
        return Ok(Some(Form::Follows(terms)));
    }
    if is_alone(b"exit", words) {
        return Ok(Some(Form::Exit));
    }
    if let Some(term) = term_behind(alloc, b"exitto", words)? {
        return Ok(Some(Form::ExitTo(term)));
    }
    body_form(alloc, words)
}

fn subroutine_form<'a>(alloc: Global, words: &[Word<'a>]) -> Result<Option<Form<'a>>, NoMemory>
    ensures { IfOk result (λ o. option_map form_seen o ≡ subroutine_form (words_seen words.now)) }
{
    if is_alone(b"ends", words) {
        return Ok(Some(Form::CloseBlock));
    }
    if is_alone(b"return", words) {
        return Ok(Some(Form::Return));
    }
    body_form(alloc, words)
}

/// The form of a line, by the innermost place that is open.
pub(crate) fn form_at<'a>(
    alloc: Global,
    place: Option<Place<'a>>,
    words: &[Word<'a>],
) -> Result<Option<Form<'a>>, NoMemory>
    ensures { IfOk result (λ o. option_map form_seen o ≡ form_at (option_map place_seen place.entry) (words_seen words.now)) }
{
    match place {
        None => Ok(top_form(words)),
        Some(Place::InData) => data_form(alloc, words),
        Some(Place::InStruct(name, _)) => Ok(struct_form(name, words)),
        Some(Place::InThread) => thread_form(alloc, words),
        Some(Place::InSubroutine) => subroutine_form(alloc, words),
    }
}
