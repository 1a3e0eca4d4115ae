// Files that are checked.

use super::{ENDLESS_JUMP, MOTOR, MOTOR_LISTING, NONE, WHOLE, command, words_of};
use nxt_images::{ARRAY, EMPTY, Image, UBYTE, file_of};
use nxt_tool::Status;
use std::alloc::Global;
use std::process::Abort;
use std::test::Fail;

/// A file whose one variable is a list of the three bytes of a text.
const LIST: Image<'static> = Image {
    entries: &[(ARRAY, 0, 0), (UBYTE, 0, 0)],
    static_size: 2,
    defaults: &[1, 0],
    rows: &[(2, 10, 2), (22, 1, 3)],
    lists: b"ab\0",
    ..ENDLESS_JUMP
};

fn checked(
    rt: &impl Abort,
    alloc: Global,
    program: &[u8],
    status: Status,
    line: &[u8],
) -> Result<(), Fail> {
    let words = words_of(alloc, &[b"check", b"a"])?;
    let ended = command(alloc, words.as_slice(), program, b"foo", WHOLE, NONE)?;
    assert_eq!(rt; ended.status, status);
    assert_eq!(rt; ended.report.as_slice(), line);
    assert!(rt; ended.image.is_empty());
    Ok(())
}

/// A program, how its check ends, and the line.
type Case<'a> = (&'a Image<'a>, Status, &'a [u8]);

static CASES: [Case<'static>; 6] = [
    (&EMPTY, Status::Refused, b"refused,19,0\n"),
    (&MOTOR, Status::Done, b"accepted,16\n"),
    (&LIST, Status::Done, b"accepted,28\n"),
    // The table of rows counts one more than there are, the list names it, and the list passes the data's end.
    (
        &Image {
            rows: &[(2, 10, 3), (22, 1, 3)],
            ..LIST
        },
        Status::Refused,
        b"refused,12\n",
    ),
    (
        &Image {
            defaults: &[2, 0],
            ..LIST
        },
        Status::Refused,
        b"refused,13,0\n",
    ),
    (
        &Image {
            rows: &[(2, 10, 2), (22, 1, 4)],
            ..LIST
        },
        Status::Refused,
        b"refused,16,1\n",
    ),
];

#[test]
fn checked_programs(rt: HostRuntime) -> Result<(), Fail> {
    let alloc = rt.alloc();
    for (image, status, line) in &CASES {
        let program = file_of(alloc, image)?;
        checked(&rt, alloc, program.as_slice(), *status, line)?;
    }
    Ok(())
}

#[test]
fn checked_files(rt: HostRuntime) -> Result<(), Fail> {
    let alloc = rt.alloc();
    checked(&rt, alloc, b"", Status::Refused, b"refused,1,0\n")?;
    let too_large = vec![in alloc; 0u8; 262_145]?;
    checked(&rt, alloc, too_large.as_slice(), Status::TooLarge, b"")
}

static LISTINGS: [Case<'static>; 3] = [
    (&MOTOR, Status::Done, MOTOR_LISTING),
    (
        &LIST,
        Status::Done,
        b"header,2,25,2,25,2,23,0,0,2,1,2\ntoc,0,array,0,0\ntoc,1,ubyte,0,0\nrow,0,2,10,2,0,0\nrow,1,22,1,3,0,0\nclump,0,0,0\ncode,0,jmp,0\n",
    ),
    (&EMPTY, Status::Refused, b"refused,19,0\n"),
];

// Listings, and the refusal of a file that breaks a rule.
#[test]
fn listed_files(rt: HostRuntime) -> Result<(), Fail> {
    let alloc = rt.alloc();
    let words = words_of(alloc, &[b"list", b"a"])?;
    for (image, status, listing) in &LISTINGS {
        let program = file_of(alloc, image)?;
        let ended = command(
            alloc,
            words.as_slice(),
            program.as_slice(),
            b"foo",
            WHOLE,
            NONE,
        )?;
        assert_eq!(rt; ended.status, *status);
        assert_eq!(rt; ended.report.as_slice(), *listing);
        assert!(rt; ended.image.is_empty());
    }
    Ok(())
}
