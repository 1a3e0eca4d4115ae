// Large texts in NBC, parsed and assembled.

use nxt_asm::assemble;
use nxt_nbc::parse;
use nxt_nbc_lines::LONGEST_TEXT;
use std::alloc::Global;
use std::test::Fail;

// A text, copies of another, and a third.
fn repeated(
    alloc: Global,
    first: &str,
    count: usize,
    again: &str,
    last: &str,
) -> Result<String, Fail> {
    let mut text = String::new(alloc);
    text.push_str(first)?;
    for _ in 0..count {
        text.push_str(again)?;
    }
    text.push_str(last)?;
    Ok(text)
}

// Lines, each by its number, between two others.
fn lines(
    alloc: Global,
    first: &str,
    count: usize,
    front: &str,
    back: &str,
    last: &str,
) -> Result<String, Fail> {
    let mut text = String::new(alloc);
    text.push_str(first)?;
    for number in 0..count {
        text.push_str(format!(in alloc; "{front}{number}{back}\n")?.as_str())?;
    }
    text.push_str(last)?;
    Ok(text)
}

// Structs of which each but the first has a member of the one before it.
fn nested(alloc: Global) -> Result<String, Fail> {
    let mut text = String::new(alloc);
    text.push_str("dseg segment\ns0 struct\na byte\ns0 ends\n")?;
    for before in 0..5_999 {
        let number = before + 1;
        let one = format!(in alloc; "s{number} struct\na s{before}\ns{number} ends\n")?;
        text.push_str(one.as_str())?;
    }
    text.push_str("dseg ends\nthread main\nendt\n")?;
    Ok(text)
}

// Statements of ten different numbers.
const TEN: &str =
    "add n, n, 11000\nadd n, n, 11001\nadd n, n, 11002\nadd n, n, 11003\nadd n, n, 11004\n\
    add n, n, 11005\nadd n, n, 11006\nadd n, n, 11007\nadd n, n, 11008\nadd n, n, 11009\n";

// And of ten different texts.
const TEN_TEXTS: &str =
    "strcat e, e, 'text 1000'\nstrcat e, e, 'text 1001'\nstrcat e, e, 'text 1002'\n\
    strcat e, e, 'text 1003'\nstrcat e, e, 'text 1004'\nstrcat e, e, 'text 1005'\n\
    strcat e, e, 'text 1006'\nstrcat e, e, 'text 1007'\nstrcat e, e, 'text 1008'\n\
    strcat e, e, 'text 1009'\n";

const DATA: &str = "dseg segment\nn long\ne byte[]\ndseg ends\nthread main\n";

/// The text of a letter.
pub(crate) fn text_of(alloc: Global, which: u8) -> Result<String, Fail> {
    match which {
        b'a' => repeated(alloc, DATA, 21_000, "add n, n, 1\n", "endt\n"),
        b'c' => repeated(alloc, "/*", 262_142, "a", ""),
        b'd' => lines(alloc, DATA, 8_000, "add n, n, 1", "", "endt\n"),
        b'e' => repeated(
            alloc,
            "thread main\n",
            29_000,
            "exitto t\n",
            "endt\nthread t\nendt",
        ),
        b'f' => repeated(
            alloc,
            "thread main\nfollows main",
            52_400,
            ",main",
            "\nendt",
        ),
        b'i' => repeated(alloc, DATA, 800, TEN, "endt\n"),
        b'j' => {
            let jumps = lines(alloc, "thread main\n", 9_999, "jmp l", "", "")?;
            lines(alloc, jumps.as_str(), 9_999, "l", ":", "endt")
        }
        b'k' => repeated(alloc, DATA, 135, TEN_TEXTS, "endt\n"),
        b'l' => repeated(alloc, "thread main\nwait a", 131_060, ".a", "\nendt"),
        b'n' => lines(
            alloc,
            "dseg segment\n",
            9_999,
            "a",
            " byte",
            "dseg ends\nthread main\nendt\n",
        ),
        b'o' => repeated(alloc, DATA, 1, "arrbuild e", "").and_then(|front| repeated(
            alloc,
            front.as_str(),
            32_764,
            ",1",
            "\nendt\n",
        )),
        b'q' => lines(alloc, DATA, 1_350, "strcat e, e, 'text ", "'", "endt\n"),
        b's' => nested(alloc),
        b't' => lines(alloc, "", 255, "thread t", "\nendt", ""),
        _ => Ok(String::new(alloc)),
    }
}

/// What is done with a text.
#[derive(Clone, Copy, PartialEq, Eq, Debug)]
pub(crate) enum Work {
    Nothing,
    Parse,
    Assemble,
}

// Whether a text has no fault.
fn is_sound(alloc: Global, text: &[u8], work: Work) -> bool {
    let front = &text[..text.len().min(LONGEST_TEXT)];
    match (work, parse(alloc, front)) {
        (Work::Assemble, Ok(program)) => assemble(alloc, &program).is_ok(),
        (_, parsed) => parsed.is_ok(),
    }
}

/// Whether a text has no fault, looked at ten times.
pub(crate) fn is_sound_each_time(alloc: Global, text: &String, work: Work) -> bool {
    let mut sound = false;
    let times = if work == Work::Nothing { 0 } else { 10 };
    for _ in 0..times {
        sound = is_sound(alloc, text.as_bytes(), work);
    }
    sound
}
