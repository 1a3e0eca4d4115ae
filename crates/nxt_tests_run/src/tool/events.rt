// Scripts of every event.

use super::{ENDLESS_JUMP, FINISH, MOTOR, NONE, WHOLE, command, run_words};
use nxt_images::{EMPTY, Image, SBYTE, UBYTE, file_of, op};
use nxt_tool::Status;
use std::test::Fail;

/// Shows the scaled value of the sensor at port 2 as the power of the motor at output A, and ends. The port is at 0.
const SENSOR: Image<'static> = Image {
    entries: &[(UBYTE, 0, 0), (UBYTE, 0, 1), (SBYTE, 0, 2), (UBYTE, 0, 3)],
    static_size: 4,
    defaults: &[2, 0, 0, 2],
    clumps: &[0],
    code: &[&[op::GETIN, 2, 0, 4], &[op::SETOUT, 1, 2, 2, 0, 3], FINISH],
    ..EMPTY
};

/// Counts its starts in a variable, shows the count as the power of the motor at output A, and then jumps to itself.
const COUNTER: Image<'static> = Image {
    entries: &[(SBYTE, 0, 0), (SBYTE, 0, 1), (UBYTE, 0, 2), (UBYTE, 0, 3)],
    static_size: 4,
    defaults: &[5, 1, 0, 2],
    clumps: &[0],
    code: &[
        &[op::ADD, 0, 0, 1],
        &[op::SETOUT, 2, 2, 0, 0, 3],
        &[op::JMP, 0],
    ],
    ..EMPTY
};

/// A name, a program, a script, how the command ends, and its report.
type Case<'a> = (&'a str, &'a Image<'a>, &'a [u8], Status, &'a str);

static CASES: [Case<'static>; 10] = [
    (
        "full_mailbox",
        &ENDLESS_JUMP,
        b"telegram,800900023100\ntelegram,800900023200\ntelegram,800900023300\ntelegram,800900023400\ntelegram,800900023500\ntelegram,800900023600\ntelegram,0013000001\ntelegram,0013000001\ntelegram,0013000001\ntelegram,0013000001\ntelegram,0013000001\ntelegram,0013000001\n",
        Status::Done,
        "reply,02130000023200000000000000000000000000000000000000000000000000000000000000000000000000000000000000000000000000000000000000000000\nreply,02130000023300000000000000000000000000000000000000000000000000000000000000000000000000000000000000000000000000000000000000000000\nreply,02130000023400000000000000000000000000000000000000000000000000000000000000000000000000000000000000000000000000000000000000000000\nreply,02130000023500000000000000000000000000000000000000000000000000000000000000000000000000000000000000000000000000000000000000000000\nreply,02130000023600000000000000000000000000000000000000000000000000000000000000000000000000000000000000000000000000000000000000000000\nreply,021340\nend,12\n",
    ),
    (
        "direct_commands",
        &ENDLESS_JUMP,
        b"telegram,000400640700002000000000\ntelegram,00040064070000200000000000\ntelegram,0055\ntelegram,8055\ntelegram,000b\ntelegram,0001\ntelegram,0013000001\n",
        Status::Done,
        "motor,0,7,100,32,0,0,0\nreply,020400\nmotor,0,7,100,32,0,0,0\nreply,020400\nreply,0255be\nreply,020b00401f\nstop,telegram\nreply,020100\nreply,0213ec\nend,7\n",
    ),
    (
        "hostile_telegrams",
        &ENDLESS_JUMP,
        b"telegram,\ntelegram,00\ntelegram,02ff\ntelegram,0000\ntelegram,00006100\ntelegram,0003c7000100\ntelegram,0004\ntelegram,000403000000000000000000\ntelegram,0004009b0000000000000000\ntelegram,00090000\ntelegram,0009000131\ntelegram,000914020100\ntelegram,0013140001\n",
        Status::Done,
        "reply,0200bf\nreply,0200bd\nreply,0203c0\nreply,0204bf\nreply,0204f0\nreply,0204c0\nreply,0209ed\nreply,0209ff\nreply,0209ee\nreply,0213ee\nend,13\n",
    ),
    (
        "a tone and silence",
        &ENDLESS_JUMP,
        b"telegram,0003c8000100\ntelegram,000c\n",
        Status::Done,
        "tone,200,1,0,4\nreply,020300\nquiet\nreply,020c00\nend,2\n",
    ),
    (
        "a reading is shown",
        &SENSOR,
        b"\"reading\",2,500,512,-60\nrun,3\n",
        Status::Done,
        "motor,0,0,-60,0,0,0,0\nstop,finished\nend,2\n",
    ),
    (
        "a battery is told",
        &ENDLESS_JUMP,
        b"battery,7650\ntelegram,000B\n",
        Status::Done,
        "reply,020b00e21d\nend,2\n",
    ),
    (
        "a restart has the variables anew",
        &COUNTER,
        b"run,2\ntelegram,800070726f6772616d2e72786500\nrun,2\n",
        Status::Done,
        "motor,0,0,6,0,0,0,0\nmotor,0,0,6,0,0,0,0\nend,3\n",
    ),
    (
        "a stopped program starts again",
        &MOTOR,
        b"run,2\ntelegram,000070726f6772616d2e72786500\nrun,2\n",
        Status::Done,
        "motor,0,0,75,0,0,0,0\nstop,finished\nreply,020000\nmotor,0,0,75,0,0,0,0\nstop,finished\nend,3\n",
    ),
    (
        "rows of devices and of the pool give no line",
        &MOTOR,
        b"tacho,0,75,100,50,-360\nbutton,3,1,255\nrandom,-7\ncompact,65535\ntick,10\n",
        Status::Done,
        "end,5\n",
    ),
    (
        "a dump shows the pool",
        &MOTOR,
        b"run,2\ndump\nrun,2\n",
        Status::Done,
        "motor,0,0,75,0,0,0,0\nstop,finished\ndump,4,1,0,16\nbytes,0,004b020004000a000100000000000000\nend,3\n",
    ),
];

#[test]
fn events(rt: HostRuntime) -> Result<(), Fail> {
    let alloc = rt.alloc();
    let words = run_words(alloc)?;
    for (name, program, script, status, report) in &CASES {
        let program = file_of(alloc, program)?;
        let ended = command(
            alloc,
            words.as_slice(),
            program.as_slice(),
            script,
            WHOLE,
            NONE,
        )?;
        let text = str::from_utf8(ended.report.as_slice()).unwrap_or("(no text)");
        assert_eq!(rt; text, *report, "{name}");
        assert_eq!(rt; ended.status, *status, "{name}");
    }
    Ok(())
}

// A script that is too long: the rows within the limit are run, and no line ends the report.
#[test]
fn a_script_too_large(rt: HostRuntime) -> Result<(), Fail> {
    let alloc = rt.alloc();
    let words = run_words(alloc)?;
    let program = file_of(alloc, &MOTOR)?;
    let mut script = b"run,100\n".to_vec(alloc)?;
    script.resize(16_777_217, b'\n')?;
    let ended = command(
        alloc,
        words.as_slice(),
        program.as_slice(),
        script.as_slice(),
        1 << 20,
        NONE,
    )?;
    let text = str::from_utf8(ended.report.as_slice()).unwrap_or("(no text)");
    assert_eq!(rt; text, "motor,0,0,75,0,0,0,0\nstop,finished\n");
    assert_eq!(rt; ended.status, Status::TooLarge);
    Ok(())
}
