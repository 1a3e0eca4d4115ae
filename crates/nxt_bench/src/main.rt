//! Times of parts by themselves. After `space` a word tells, by its first letter, which call of `Space` is made a million times
//! over, or what is compacted; after `text` it tells which large text in NBC is made and parsed ten times. With `-` in front the
//! text is made alone, and with `+` it is assembled each time too.
#![tactic(auto)]

mod blocks;
mod space;
mod texts;

use std::alloc::Global;
use std::env;
use std::process::ExitCode;
use std::rt::Env;
use std::test::Fail;
use texts::Work;

/// What is timed.
#[derive(Clone, Copy, PartialEq, Eq, Debug)]
enum Part {
    Space,
    Text,
}

/// A part, the letter of what is done with it, and what is done with a text.
#[derive(Clone, Copy)]
struct Task {
    part: Part,
    letter: u8,
    work: Work,
}

// The task that the words tell.
fn task_of_words(rt: &HostRuntime) -> Task {
    let mut task = Task {
        part: Part::Space,
        letter: 0,
        work: Work::Parse,
    };
    if let Ok(args) = env::args(rt) {
        for arg in args.skip(1) {
            task = task_with(task, arg.into_bytes().as_slice());
        }
    }
    task
}

// The same with one word more.
fn task_with(task: Task, word: &[u8]) -> Task {
    match word {
        b"space" => Task {
            part: Part::Space,
            ..task
        },
        b"text" => Task {
            part: Part::Text,
            ..task
        },
        [b'-', letter, ..] => Task {
            letter: *letter,
            work: Work::Nothing,
            ..task
        },
        [b'+', letter, ..] => Task {
            letter: *letter,
            work: Work::Assemble,
            ..task
        },
        [letter, ..] => Task {
            letter: *letter,
            ..task
        },
        [] => task,
    }
}

// Whether a text is sound that isn't to be.
fn tell_texts(alloc: Global, letter: u8, work: Work) -> Result<bool, Fail> {
    let text = texts::text_of(alloc, letter)?;
    let sound = texts::is_sound_each_time(alloc, &text, work);
    Ok(sound && letter == b'c')
}

fn main(rt: HostRuntime) -> Result<ExitCode, Fail> {
    let task = task_of_words(&rt);
    let odd = match task.part {
        Part::Space => space::work(rt.alloc(), task.letter, 1_000_000)? == 1,
        Part::Text => tell_texts(rt.alloc(), task.letter, task.work)?,
    };
    Ok(ExitCode::from(u8::from(odd)))
}
