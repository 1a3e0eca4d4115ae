// Worked commands.

use super::{
    ENDLESS_JUMP, FINISH, Failing, MOTOR, MOTOR_REPORT, NONE, WHOLE, command, run_words, words_of,
};
use nxt_images::{CLUSTER, EMPTY, Image, SBYTE, UBYTE, UWORD, cmp, file_of, op};
use nxt_tool::Status;
use std::alloc::Global;
use std::process::Abort;
use std::test::Fail;

/// Raises the power of the motor at output A by 20 until it is 100. The power is at 2, 20 at 3 and 100 at 4.
const RISING: Image<'static> = Image {
    entries: &[
        (UBYTE, 0, 0),
        (UBYTE, 0, 1),
        (SBYTE, 0, 2),
        (SBYTE, 0, 3),
        (SBYTE, 0, 4),
    ],
    static_size: 5,
    defaults: &[0, 2, 0, 20, 100],
    clumps: &[0],
    code: &[
        &[op::ADD, 2, 2, 3],
        &[op::SETOUT, 0, 2, 2, 0, 1],
        &[op::BRCMP, cmp::LT, 0xFFF5, 2, 4],
        FINISH,
    ],
    ..EMPTY
};

const RISING_REPORT: &[u8] =
    b"motor,0,0,20,0,0,0,0\nmotor,0,0,40,0,0,0,0\nmotor,0,0,60,0,0,0,0\nmotor,0,0,80,0,0,0,0\nmotor,0,0,100,0,0,0,0\nstop,finished\nend,3\n";

#[derive(Clone, Copy)]
struct Row<'a> {
    name: &'a str,
    program: &'a Image<'a>,
    script: &'a [u8],
    chunk: usize,
    failing: Failing<'a>,
    status: Status,
    report: &'a [u8],
}

static ROWS: [Row<'static>; 10] = [
    Row {
        name: "motor_image",
        program: &MOTOR,
        script: b"run,100",
        chunk: WHOLE,
        failing: NONE,
        status: Status::Done,
        report: MOTOR_REPORT,
    },
    Row {
        name: "rising power",
        program: &RISING,
        script: b"run,9\ntick,50\nrun,9\n",
        chunk: WHOLE,
        failing: NONE,
        status: Status::Done,
        report: RISING_REPORT,
    },
    Row {
        name: "endless_jump",
        program: &ENDLESS_JUMP,
        script: b"run,3\r\n\n",
        chunk: WHOLE,
        failing: NONE,
        status: Status::Done,
        report: b"end,1\n",
    },
    Row {
        name: "bad_third_row",
        program: &MOTOR,
        script: b"run,100\ntick,5\nfoo,1\n",
        chunk: WHOLE,
        failing: NONE,
        status: Status::ScriptRefused,
        report: b"motor,0,0,75,0,0,0,0\nstop,finished\nscript,3\n",
    },
    Row {
        name: "sink_fails",
        program: &MOTOR,
        script: b"run,100",
        chunk: 8,
        failing: Failing {
            report: &[1],
            ..NONE
        },
        status: Status::WriteFault,
        report: b"motor,0,",
    },
    Row {
        name: "script_source_fails",
        program: &MOTOR,
        script: b"run,100",
        chunk: WHOLE,
        failing: Failing {
            script: &[0],
            ..NONE
        },
        status: Status::ReadFault,
        report: b"",
    },
    Row {
        name: "the last row in range",
        program: &ENDLESS_JUMP,
        script: b"run,1000000\ntick,0001000000\nrun,0\n",
        chunk: WHOLE,
        failing: NONE,
        status: Status::Done,
        report: b"end,3\n",
    },
    Row {
        name: "one bytecode more than a row may run",
        program: &ENDLESS_JUMP,
        script: b"run,1000001\n",
        chunk: WHOLE,
        failing: NONE,
        status: Status::ScriptRefused,
        report: b"script,1\n",
    },
    Row {
        name: "one bytecode more than a script may run",
        program: &ENDLESS_JUMP,
        script: b"run,1000000\nrun,1000000\nrun,1000000\nrun,1000000\nrun,1\n",
        chunk: WHOLE,
        failing: NONE,
        status: Status::ScriptRefused,
        report: b"script,5\n",
    },
    Row {
        name: "an empty script",
        program: &ENDLESS_JUMP,
        script: b"\n\r\n",
        chunk: 1,
        failing: NONE,
        status: Status::Done,
        report: b"end,0\n",
    },
];

// The status `Done` here, with ample memory, shows that the tool doesn't always answer want of memory.
#[test]
fn worked_rows(rt: HostRuntime) -> Result<(), Fail> {
    let alloc = rt.alloc();
    let words = run_words(alloc)?;
    for row in &ROWS {
        let name = row.name;
        let program = file_of(alloc, row.program)?;
        let ended = command(
            alloc,
            words.as_slice(),
            program.as_slice(),
            row.script,
            row.chunk,
            row.failing,
        )?;
        assert_eq!(rt; ended.status, row.status, "{name}");
        assert_eq!(rt; ended.report.as_slice(), row.report, "{name}");
        assert!(rt; ended.image.is_empty(), "{name}");
    }
    Ok(())
}

#[test]
fn program_too_large(rt: HostRuntime) -> Result<(), Fail> {
    let alloc = rt.alloc();
    let words = run_words(alloc)?;
    let nothing: &[u8] = b"";
    let refused: &[u8] = b"refused,2,0\n";
    for (size, status, report) in [
        (262_145, Status::TooLarge, nothing),
        (262_144, Status::Refused, refused),
    ] {
        let program = vec![in alloc; 0u8; size]?;
        let ended = command(
            alloc,
            words.as_slice(),
            program.as_slice(),
            b"run,1",
            WHOLE,
            NONE,
        )?;
        assert_eq!(rt; ended.status, status);
        assert_eq!(rt; ended.report.as_slice(), report);
    }
    Ok(())
}

fn refused(
    rt: &impl Abort,
    alloc: Global,
    words: &[Vec<u8>],
    program: &[u8],
    line: &[u8],
) -> Result<(), Fail> {
    let ended = command(alloc, words, program, b"run,1", WHOLE, NONE)?;
    assert_eq!(rt; ended.status, Status::Refused);
    assert_eq!(rt; ended.report.as_slice(), line);
    Ok(())
}

// The motor image cut to each length names the section that passes the end, where it is checked and where it is run.
#[test]
fn cut_images(rt: HostRuntime) -> Result<(), Fail> {
    let alloc = rt.alloc();
    let check = words_of(alloc, &[b"check", b"a"])?;
    let run = run_words(alloc)?;
    let file = file_of(alloc, &MOTOR)?;
    for bytes in 0..78 {
        let short = format!(in alloc; "refused,1,{bytes}\n")?;
        let line: &[u8] = match bytes {
            0..=37 => short.as_bytes(),
            38..=49 => b"refused,4,0\n",
            50..=52 => b"refused,4,1\n",
            53..=57 => b"refused,4,3\n",
            _ => b"refused,4,5\n",
        };
        let cut = file.as_slice().get(..bytes).ok_or("too short")?;
        refused(&rt, alloc, check.as_slice(), cut, line)?;
        refused(&rt, alloc, run.as_slice(), cut, line)?;
    }
    Ok(())
}

// A cluster of two members, of which the table has one.
const OPEN_CLUSTER: Image<'static> = Image {
    entries: &[(CLUSTER, 0, 2), (UBYTE, 0, 0)],
    ..ENDLESS_JUMP
};

const OVERLAPPING_ENTRIES: Image<'static> = Image {
    entries: &[(UWORD, 0, 0), (UBYTE, 0, 1)],
    static_size: 2,
    defaults: &[0, 0, 0],
    ..ENDLESS_JUMP
};

const INSIDE_A_STATEMENT: Image<'static> = Image {
    clumps: &[1],
    ..MOTOR
};

const JUMP_PAST_THE_END: Image<'static> = Image {
    code: &[&[op::JMP, 1]],
    ..ENDLESS_JUMP
};

// A program, and the line of its refusal.
static REFUSED: [(&Image<'static>, &[u8]); 5] = [
    (&EMPTY, b"refused,19,0\n"),
    (&OPEN_CLUSTER, b"refused,6,0\n"),
    (&OVERLAPPING_ENTRIES, b"refused,10,0,1\n"),
    (&INSIDE_A_STATEMENT, b"refused,20,0\n"),
    (&JUMP_PAST_THE_END, b"refused,24,0\n"),
];

// The byte of a program at which another stands, that byte, and the line of the refusal.
static BROKEN: [(&Image<'static>, usize, u8, &[u8]); 3] = [
    (&EMPTY, 15, 6, b"refused,3,6\n"),
    (&EMPTY, 12, b'C', b"refused,2,12\n"),
    (&ENDLESS_JUMP, 42, 0x0F, b"refused,22,0\n"),
];

#[test]
fn other_files(rt: HostRuntime) -> Result<(), Fail> {
    let alloc = rt.alloc();
    let run = run_words(alloc)?;
    for (image, line) in &REFUSED {
        let file = file_of(alloc, image)?;
        refused(&rt, alloc, run.as_slice(), file.as_slice(), line)?;
    }
    for (image, at, byte, line) in &BROKEN {
        let mut file = file_of(alloc, image)?.into_vec();
        if let Some(place) = file.get_mut(*at) {
            *place = *byte;
        }
        refused(&rt, alloc, run.as_slice(), file.as_slice(), line)?;
    }
    Ok(())
}

// Every call would fail, so a read or a write would show in the status.
#[test]
fn words_of_no_form(rt: HostRuntime) -> Result<(), Fail> {
    let alloc = rt.alloc();
    let failing = Failing {
        program: &[0],
        script: &[0],
        image: &[0],
        report: &[0],
    };
    let none: &[&[u8]] = &[];
    let run: &[u8] = b"run";
    let rxe: &[u8] = b"rxe";
    let a: &[u8] = b"a";
    for texts in [
        none,
        &[run, rxe, a],
        &[b"check"],
        &[b"check", a, a],
        &[run, rxe, a, a, a],
        &[b"RUN", rxe, a, a],
        &[run, b"nxc", a, a],
    ] {
        let words = words_of(alloc, texts)?;
        let ended = command(alloc, words.as_slice(), b"", b"run,1", WHOLE, failing)?;
        assert_eq!(rt; ended.status, Status::Words);
        assert!(rt; ended.report.is_empty());
    }
    Ok(())
}
