// Long lines, and many lines.

use crate::reading::tokens_of;
use nxt_nbc_lines::{Form, Formed, Given, Term, Terms, forms_of};
use std::alloc::Global;
use std::test::Fail;

/// A text's first bytes, what is repeated behind them and how often, its last bytes, and what is told of its forms.
type Case<'a> = (&'a [u8], &'a [u8], usize, &'a [u8], &'a str);

static WIDE: [Case<'static>; 9] = [
    (
        b"thread m\nprecedes a",
        b",a",
        65_534,
        b"\nendt",
        "3 forms, at most 65535 wide",
    ),
    (
        b"thread m\nstrcat s",
        b",'x'",
        32_764,
        b"\nendt",
        "3 forms, at most 32765 wide",
    ),
    (
        b"thread m\nstrcat s",
        b",'x'",
        32_765,
        b"\nendt",
        "2 forms, at most 0 wide, bad 2",
    ),
    (
        b"thread m\nstop a",
        b".b",
        65_535,
        b"\nendt",
        "3 forms, at most 65536 wide",
    ),
    (
        b"dseg segment\na byte",
        b"[]",
        65_535,
        b"\ndseg ends",
        "3 forms, at most 65535 wide",
    ),
    (
        b"dseg segment\na byte[] 0",
        b",7",
        65_534,
        b"\ndseg ends",
        "3 forms, at most 65535 wide",
    ),
    (
        b"dseg segment\na byte[] 0",
        b",7",
        65_534,
        b"\n",
        "2 forms, at most 65535 wide, bad 1",
    ),
    (
        b"",
        b"dseg segment\ndseg ends\n",
        32_768,
        b"",
        "65536 forms, at most 0 wide",
    ),
    (b"\n", b"a\n", 65_536, b"", "0 forms, at most 0 wide, bad 2"),
];

fn repeated(
    alloc: Global,
    first: &[u8],
    piece: &[u8],
    times: usize,
    last: &[u8],
) -> Result<Vec<u8>, Fail> {
    let mut text = first.to_vec(alloc)?;
    for _ in 0..times {
        text.extend_from_slice(piece)?;
    }
    text.extend_from_slice(last)?;
    Ok(text)
}

// How many operands there are, or how many names the only one has.
fn width_of(terms: &Terms<'_>) -> usize {
    match terms.as_slice() {
        [one] => match one {
            Term::Named(names) => names.len(),
            _ => 1,
        },
        all => all.len(),
    }
}

fn width(form: &Form<'_>) -> usize {
    match form {
        Form::Precedes(terms) | Form::Do(_, _, _, terms) => width_of(terms),
        Form::Declare(_, _, Given::Many(numbers)) => numbers.len(),
        Form::Declare(_, of, _) => of.arrays,
        _ => 0,
    }
}

fn told(alloc: Global, formed: &Formed<'_>) -> Result<String, Fail> {
    let mut widest = 0;
    for line in formed.forms.as_slice() {
        widest = width(&line.form).max(widest);
    }
    let count = formed.forms.len();
    Ok(match formed.bad {
        Some(bad) => format!(in alloc; "{count} forms, at most {widest} wide, bad {bad}")?,
        None => format!(in alloc; "{count} forms, at most {widest} wide")?,
    })
}

#[test]
fn wide(rt: HostRuntime) -> Result<(), Fail> {
    let alloc = rt.alloc();
    for (first, piece, times, last, due) in &WIDE {
        let text = repeated(alloc, first, piece, *times, last)?;
        let Ok(tokens) = tokens_of(alloc, text.as_slice()) else {
            continue;
        };
        let told = match forms_of(alloc, text.as_slice(), tokens.as_slice()) {
            Ok(formed) => told(alloc, &formed)?,
            Err(_) => format!(in alloc; "no memory")?,
        };
        assert_eq!(rt; told.as_str(), *due, "{first:?} {piece:?} {times}");
    }
    Ok(())
}
