// A call of each object fails in turn.

use super::{
    FINISH, Failing, MOTOR, MOTOR_LISTING, MOTOR_REPORT, NONE, WHOLE, command, run_words, words_of,
};
use nxt_images::{EMPTY, Image, file_of};
use nxt_tool::Status;
use std::alloc::Global;
use std::process::Abort;
use std::test::Fail;

/// The bytes that a call moves at most.
const CHUNK: usize = 16;

/// A command with what it reads, what it writes where nothing fails, and how many calls of each object it makes then.
#[derive(Clone, Copy)]
struct Row<'a> {
    words: &'a [&'a [u8]],
    program: &'a [u8],
    script: &'a [u8],
    image: &'a [u8],
    report: &'a [u8],
    program_calls: u32,
    script_calls: u32,
    image_calls: u32,
    report_calls: u32,
}

// How a command ends where one call would fail; `made` says whether the command makes that call.
fn due(made: bool, fault: Status) -> Status {
    if made { fault } else { Status::Done }
}

// A command some of whose calls are to fail ends with a status.
fn ends(
    rt: &impl Abort,
    alloc: Global,
    row: &Row,
    failing: Failing,
    status: Status,
) -> Result<(), Fail> {
    let words = words_of(alloc, row.words)?;
    let ended = command(
        alloc,
        words.as_slice(),
        row.program,
        row.script,
        CHUNK,
        failing,
    )?;
    let image = ended.image.as_slice();
    let report = ended.report.as_slice();
    assert_eq!(rt; ended.status, status);
    if status == Status::Done {
        assert_eq!(rt; image, row.image);
        assert_eq!(rt; report, row.report);
    } else {
        assert!(rt; row.image.starts_with(image));
        assert!(rt; row.report.starts_with(report));
        assert!(rt; image.len() == row.image.len() || report.is_empty());
    }
    Ok(())
}

fn each_fails(rt: &impl Abort, alloc: Global, row: &Row) -> Result<(), Fail> {
    for k in 0..41 {
        let call = [k];
        let program = Failing {
            program: &call,
            ..NONE
        };
        let status = due(k < row.program_calls, Status::ReadFault);
        ends(rt, alloc, row, program, status)?;
        let script = Failing {
            script: &call,
            ..NONE
        };
        let status = due(k < row.script_calls, Status::ReadFault);
        ends(rt, alloc, row, script, status)?;
        let image = Failing {
            image: &call,
            ..NONE
        };
        let status = due(k < row.image_calls, Status::WriteFault);
        ends(rt, alloc, row, image, status)?;
        let report = Failing {
            report: &call,
            ..NONE
        };
        let status = due(k < row.report_calls, Status::WriteFault);
        ends(rt, alloc, row, report, status)?;
    }
    Ok(())
}

/// Ends.
static SMALLEST: Image<'static> = Image {
    clumps: &[0],
    code: &[FINISH],
    ..EMPTY
};

const SMALLEST_TEXT: &[u8] = b"thread main\nendt\n";

const NOTHING: Row<'static> = Row {
    words: &[],
    program: b"",
    script: b"",
    image: b"",
    report: b"",
    program_calls: 0,
    script_calls: 0,
    image_calls: 0,
    report_calls: 0,
};

// Of the motor image, which has 78 bytes.
const RUN_RXE: Row<'static> = Row {
    words: &[b"run", b"rxe", b"a", b"b"],
    script: b"run,100",
    report: MOTOR_REPORT,
    program_calls: 6,
    script_calls: 2,
    report_calls: 3,
    ..NOTHING
};

const RUN_NBC: Row<'static> = Row {
    words: &[b"run", b"nbc", b"a", b"b"],
    program: SMALLEST_TEXT,
    script: b"run,100",
    report: b"stop,finished\nend,1\n",
    program_calls: 3,
    script_calls: 2,
    report_calls: 2,
    ..NOTHING
};

// The image has 48 bytes.
const ASM: Row<'static> = Row {
    words: &[b"asm", b"a", b"b"],
    program: SMALLEST_TEXT,
    report: b"assembled,48,12\n",
    program_calls: 3,
    image_calls: 3,
    report_calls: 1,
    ..NOTHING
};

// Of the motor image.
const CHECK: Row<'static> = Row {
    words: &[b"check", b"a"],
    report: b"accepted,16\n",
    program_calls: 6,
    report_calls: 1,
    ..NOTHING
};

// Of the motor image, whose listing has 135 bytes.
const LIST: Row<'static> = Row {
    words: &[b"list", b"a"],
    report: MOTOR_LISTING,
    program_calls: 6,
    report_calls: 9,
    ..NOTHING
};

const GENERATED: Row<'static> = Row {
    words: &[b"gen", b"7"],
    report: b"gen,7\nmotors,400\nsum,4299\nstop,finished\n",
    report_calls: 3,
    ..NOTHING
};

// Each call of each command fails in turn. A file that is read takes a call for each 16 bytes and one for its end; what is written
// takes one for each 16 bytes.
#[test]
fn each_call_fails_in_turn(rt: HostRuntime) -> Result<(), Fail> {
    let alloc = rt.alloc();
    let motor = file_of(alloc, &MOTOR)?;
    let smallest = file_of(alloc, &SMALLEST)?;
    let run_rxe = Row {
        program: motor.as_slice(),
        ..RUN_RXE
    };
    let asm = Row {
        image: smallest.as_slice(),
        ..ASM
    };
    let check = Row {
        program: motor.as_slice(),
        ..CHECK
    };
    let list = Row {
        program: motor.as_slice(),
        ..LIST
    };
    each_fails(&rt, alloc, &run_rxe)?;
    each_fails(&rt, alloc, &RUN_NBC)?;
    each_fails(&rt, alloc, &asm)?;
    each_fails(&rt, alloc, &check)?;
    each_fails(&rt, alloc, &list)?;
    each_fails(&rt, alloc, &GENERATED)
}

// A script of 20,000 ticks and more, whose call `failing` fails: its first rows are told, and a bad row well before the fault too.
#[test]
fn first_rows_are_told(rt: HostRuntime) -> Result<(), Fail> {
    let alloc = rt.alloc();
    let words = run_words(alloc)?;
    let program = file_of(alloc, &MOTOR)?;
    let told: &[u8] = b"motor,0,0,75,0,0,0,0\nstop,finished\n";
    let bad: &[u8] = b"motor,0,0,75,0,0,0,0\nstop,finished\nscript,2\n";
    let cases: [(&[u8], u32, Status, &[u8]); 4] = [
        (b"run,100\n", 20, Status::ReadFault, told),
        (b"run,100\n", 1, Status::ReadFault, told),
        (b"run,100\n", 0, Status::ReadFault, b""),
        (b"run,100\ntock,1\n", 20, Status::ScriptRefused, bad),
    ];
    for (first, failing, status, report) in cases {
        let mut script = first.to_vec(alloc)?;
        for _ in 0..20_000 {
            script.extend_from_slice(b"tick,1\n")?;
        }
        let call = [failing];
        let failing = Failing {
            script: &call,
            ..NONE
        };
        let ended = command(
            alloc,
            words.as_slice(),
            program.as_slice(),
            script.as_slice(),
            WHOLE,
            failing,
        )?;
        assert_eq!(rt; ended.status, status);
        assert_eq!(rt; ended.report.as_slice(), report);
    }
    Ok(())
}
