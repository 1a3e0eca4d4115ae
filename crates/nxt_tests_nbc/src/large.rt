// Large texts, and texts at the edge of a count.

use crate::reading::fault;
use std::alloc::Global;
use std::process::Abort;
use std::test::Fail;

// Lines, each by its number, between two others.
fn lines(
    alloc: Global,
    first: &str,
    count: usize,
    front: &str,
    back: &str,
    last: &str,
) -> Result<String, Fail> {
    let mut text = String::new(alloc);
    text.push_str(first)?;
    for number in 0..count {
        text.push_str(format!(in alloc; "{front}{number}{back}\n")?.as_str())?;
    }
    text.push_str(last)?;
    Ok(text)
}

// A text, copies of another, and a third.
fn repeated(
    alloc: Global,
    first: &str,
    count: usize,
    again: &str,
    last: &str,
) -> Result<String, Fail> {
    let mut text = String::new(alloc);
    text.push_str(first)?;
    for _ in 0..count {
        text.push_str(again)?;
    }
    text.push_str(last)?;
    Ok(text)
}

// Structs of which each but the first has two members of the one before it.
fn nested(alloc: Global, count: usize) -> Result<String, Fail> {
    let mut text = String::new(alloc);
    text.push_str("dseg segment\ns0 struct\na byte\nb byte\ns0 ends\n")?;
    for number in 1..count {
        let before = number - 1;
        let one = format!(in alloc;
            "s{number} struct\na s{before}\nb s{before}\ns{number} ends\n"
        )?;
        text.push_str(one.as_str())?;
    }
    text.push_str("dseg ends\nthread main\nendt\n")?;
    Ok(text)
}

/// A text's first bytes, how often another text follows, that text, the last bytes, and the fault.
type Repeated<'a> = (&'a str, usize, &'a str, &'a str, &'a str);

static REPEATED: [Repeated<'static>; 8] = [
    (LISTS, 32_764, ",1", "\nendt\n", "none"),
    (LISTS, 32_765, ",1", "\nendt\n", "Syntax(5)"),
    ("/*", 262_142, "a", "", "Lex(1)"),
    ("thread main\nwait ", 262_127, "a", "", "Syntax(1)"),
    (
        "thread main\nwait ",
        262_121,
        "a",
        "\nendt",
        "UnknownName(2)",
    ),
    (
        "thread main\nwait a",
        131_060,
        ".a",
        "\nendt",
        "UnknownName(2)",
    ),
    (
        "thread main\nfollows main",
        52_400,
        ",main",
        "\nendt",
        "none",
    ),
    (
        "thread main\n",
        29_000,
        "exitto t\n",
        "endt\nthread t\nendt",
        "none",
    ),
];

/// A text's first bytes, how many numbered lines follow, what stands before and behind the number, the last bytes, and the
/// fault.
type Numbered<'a> = (&'a str, usize, &'a str, &'a str, &'a str, &'a str);

static NUMBERED: [Numbered<'static>; 6] = [
    (DATA, 9_999, "a", " byte", CODE, "none"),
    (DATA, 10_000, "a", " byte", CODE, "TooMany(1)"),
    ("thread main\nendt\n", 254, "thread t", "\nendt", "", "none"),
    (
        "thread main\nendt\n",
        255,
        "thread t",
        "\nendt",
        "",
        "TooMany(0)",
    ),
    ("", 256, "thread t", "\nendt", "", "NoMain"),
    (
        "thread main\n",
        20_000,
        "jmp l",
        "",
        "endt",
        "UnknownName(2)",
    ),
];

fn check(rt: &impl Abort, alloc: Global, text: &String, due: &str) -> Result<(), Fail> {
    let told = fault(alloc, text.as_bytes())?;
    assert_eq!(rt; told.as_str(), due);
    Ok(())
}

const DATA: &str = "dseg segment\n";

const CODE: &str = "dseg ends\nthread main\nendt\n";

const LISTS: &str = "dseg segment\ne byte[]\ndseg ends\nthread main\narrbuild e";

#[test]
fn one_piece_again_and_again(rt: HostRuntime) -> Result<(), Fail> {
    let alloc = rt.alloc();
    for (first, count, again, last, due) in &REPEATED {
        check(
            &rt,
            alloc,
            &repeated(alloc, *first, *count, *again, *last)?,
            *due,
        )?;
    }
    Ok(())
}

#[test]
fn numbered_lines(rt: HostRuntime) -> Result<(), Fail> {
    let alloc = rt.alloc();
    for (first, count, front, back, last, due) in &NUMBERED {
        let text = lines(alloc, *first, *count, *front, *back, *last)?;
        check(&rt, alloc, &text, *due)?;
    }
    Ok(())
}

#[test]
fn labels_behind_their_jumps(rt: HostRuntime) -> Result<(), Fail> {
    let alloc = rt.alloc();
    let jumps = lines(alloc, "thread main\n", 9_999, "jmp l", "", "")?;
    let text = lines(alloc, jumps.as_str(), 9_999, "l", ":", "endt")?;
    check(&rt, alloc, &text, "none")
}

#[test]
fn structs_in_structs(rt: HostRuntime) -> Result<(), Fail> {
    let alloc = rt.alloc();
    for (count, due) in [
        (8, "none"),
        (9, "none"),
        (10, "Syntax(39)"),
        (7_000, "Syntax(39)"),
    ] {
        check(&rt, alloc, &nested(alloc, count)?, due)?;
    }
    Ok(())
}
