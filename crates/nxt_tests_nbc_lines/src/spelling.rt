// Forms as they are told in the tables of cases.

use nxt_nbc_lines::{Form, Formed, Given, Names, Term, Terms, TypeName};
use nxt_types::instr::Op;
use nxt_types::kind::Cmp;
use std::alloc::Global;
use std::test::Fail;

fn text(bytes: &[u8]) -> &str {
    str::from_utf8(bytes).unwrap_or("(no text)")
}

// Names with dots between them.
fn path(alloc: Global, names: &Names<'_>) -> Result<String, Fail> {
    let mut told = String::new(alloc);
    for name in names.as_slice() {
        if !told.is_empty() {
            told.push_str(".")?;
        }
        told.push_str(text(name))?;
    }
    Ok(told)
}

fn term(alloc: Global, term: &Term<'_>) -> Result<String, Fail> {
    Ok(match term {
        Term::Named(names) => path(alloc, names)?,
        Term::Literal(z) => format!(in alloc; "{z}")?,
        Term::Quote(quote) => format!(in alloc; "'{}'", text(quote))?,
    })
}

fn terms(alloc: Global, terms: &Terms<'_>) -> Result<String, Fail> {
    let mut told = String::new(alloc);
    for one in terms.as_slice() {
        told.push_str(" ")?;
        told.push_str(term(alloc, one)?.as_str())?;
    }
    Ok(told)
}

fn type_name(alloc: Global, of: &TypeName<'_>) -> Result<String, Fail> {
    Ok(format!(in alloc; "{} of {}", text(of.name), of.arrays)?)
}

fn given(alloc: Global, given: &Given<'_>) -> Result<String, Fail> {
    Ok(match given {
        Given::Nothing => format!(in alloc; "nothing")?,
        Given::One(z) => format!(in alloc; "one {z}")?,
        Given::Many(zs) => format!(in alloc; "many {:?}", zs.as_slice())?,
        Given::Bytes(bytes) => format!(in alloc; "bytes '{}'", text(bytes))?,
    })
}

// A form that names nothing, by its word alone.
fn word(form: &Form<'_>) -> Option<&'static str> {
    match form {
        Form::Include => Some("include"),
        Form::OpenData => Some("data"),
        Form::CloseData => Some("end of data"),
        Form::CloseStruct => Some("end of struct"),
        Form::CloseBlock => Some("end of block"),
        Form::Exit => Some("exit"),
        Form::Return => Some("return"),
        _ => None,
    }
}

// A form that names one thing, by its word, and the name.
fn word_and_name<'a>(form: &Form<'a>) -> Option<(&'static str, &'a [u8])> {
    match form {
        Form::OpenStruct(name) => Some(("struct", *name)),
        Form::OpenThread(name) => Some(("thread", *name)),
        Form::OpenSubroutine(name) => Some(("subroutine", *name)),
        Form::Label(name) => Some(("label", *name)),
        _ => None,
    }
}

fn named(alloc: Global, word: &str, name: &str) -> Result<String, Fail> {
    Ok(format!(in alloc; "{word} {name}")?)
}

fn typed(alloc: Global, word: &str, name: &str, of: &str) -> Result<String, Fail> {
    Ok(format!(in alloc; "{word} {name}: {of}")?)
}

fn statement(
    alloc: Global,
    label: Option<&[u8]>,
    op: Op,
    cmp: Cmp,
    list: &Terms<'_>,
) -> Result<String, Fail> {
    let label = match label {
        Some(name) => format!(in alloc; "{}: ", text(name))?,
        None => String::new(alloc),
    };
    Ok(format!(in alloc; "{label}{} {cmp:?}{}", op.name(), terms(alloc, list)?)?)
}

// A form of several parts.
fn parts(alloc: Global, form: &Form<'_>) -> Result<String, Fail> {
    match form {
        Form::Member(name, of) => {
            typed(alloc, "member", text(name), type_name(alloc, of)?.as_str())
        }
        Form::Declare(name, of, start) => {
            let declared = typed(
                alloc,
                "variable",
                text(name),
                type_name(alloc, of)?.as_str(),
            )?;
            Ok(format!(in alloc; "{declared}, {}", given(alloc, start)?)?)
        }
        Form::Precedes(list) => Ok(format!(in alloc; "precedes{}", terms(alloc, list)?)?),
        Form::Follows(list) => Ok(format!(in alloc; "follows{}", terms(alloc, list)?)?),
        Form::ExitTo(to) => named(alloc, "exit to", term(alloc, to)?.as_str()),
        Form::Call(of) => named(alloc, "call", term(alloc, of)?.as_str()),
        Form::Do(label, op, cmp, list) => statement(alloc, *label, *op, *cmp, list),
        _ => Ok(String::new(alloc)),
    }
}

// A form in words.
fn form(alloc: Global, form: &Form<'_>) -> Result<String, Fail> {
    if let Some(word) = word(form) {
        return Ok(format!(in alloc; "{word}")?);
    }
    match word_and_name(form) {
        Some((word, name)) => named(alloc, word, text(name)),
        None => parts(alloc, form),
    }
}

/// Each form with its line, and the first bad line.
pub(crate) fn told(alloc: Global, formed: &Formed<'_>) -> Result<String, Fail> {
    let mut told = String::new(alloc);
    for line in formed.forms.as_slice() {
        told.push_str(format!(in alloc; "{} {}; ", line.line, form(alloc, &line.form)?)?.as_str())?;
    }
    if let Some(line) = formed.bad {
        told.push_str(format!(in alloc; "bad {line}")?.as_str())?;
    }
    Ok(told)
}
