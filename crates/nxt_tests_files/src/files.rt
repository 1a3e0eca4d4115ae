// Files and their parts.

use nxt_images::{EMPTY, Image, SBYTE, UBYTE, file_of, op};
use nxt_rxe::{Parts, RxeFault, read_rxe, write_rxe};
use nxt_types::lists::Bytes;
use std::alloc::Global;
use std::process::Abort;
use std::test::Fail;

/// The file of a program that sets the power of the motor at output A to 75, commits it and ends.
static MOTOR: [u8; 78] = [
    77, 105, 110, 100, 115, 116, 111, 114, 109, 115, 78, 88, 84, 0, 0, 5, 3, 0, 3, 0, 3, 0, 3, 0,
    0, 0, 0, 0, 0, 0, 0, 0, 0, 0, 1, 0, 10, 0, 1, 0, 0, 0, 2, 0, 1, 0, 1, 0, 2, 0, 0, 75, 2, 0, 0,
    0, 0, 0, 49, 224, 14, 0, 0, 0, 2, 0, 1, 0, 0, 0, 2, 0, 42, 96, 0, 0, 255, 255,
];

static PROGRAM: Image<'static> = Image {
    entries: &[(UBYTE, 0, 0), (SBYTE, 0, 1), (UBYTE, 0, 2)],
    static_size: 3,
    defaults: &[0, 75, 2],
    clumps: &[0],
    code: &[&[op::SETOUT, 0, 2, 1, 0, 2], &[op::FINCLUMP, 0, 0xFFFF]],
    ..EMPTY
};

fn header_alone(version: u8) -> [u8; 38] {
    let mut file = [0; 38];
    file[..14].copy_from_slice(b"MindstormsNXT\0");
    file[15] = version;
    file
}

// Why a file is refused.
fn fault_of(alloc: Global, file: &[u8]) -> Option<RxeFault> {
    read_rxe(alloc, file).err()
}

// Why the front of the program's file is refused.
fn cut_fault(length: usize) -> RxeFault {
    match length {
        0..=37 => RxeFault::Short(length as u32),
        38..=49 => RxeFault::Section(0),
        50..=52 => RxeFault::Section(1),
        53..=57 => RxeFault::Section(3),
        _ => RxeFault::Section(5),
    }
}

#[test]
fn a_cut_file_is_refused_by_what_passes_its_end(rt: HostRuntime) {
    for length in 0..MOTOR.len() {
        let found = fault_of(rt.alloc(), &MOTOR[..length]);
        assert_eq!(rt; found, Some(cut_fault(length)), "{length} bytes");
    }
}

fn expect_no_parts(rt: &impl Abort, parts: &Parts) {
    assert!(rt; parts.toc.is_empty() && parts.defaults.is_empty() && parts.clumps.is_empty());
    assert!(rt; parts.dependents.is_empty() && parts.code.is_empty());
}

#[test]
fn a_header_alone_has_empty_parts(rt: HostRuntime) -> Result<(), Fail> {
    let parts = read_rxe(rt.alloc(), &header_alone(5))?;
    expect_no_parts(&rt, &parts);
    Ok(())
}

#[test]
fn another_version_is_refused(rt: HostRuntime) {
    let found = fault_of(rt.alloc(), &header_alone(6));
    assert_eq!(rt; found, Some(RxeFault::Version(6)));
}

// The file that is written from what a file reads as.
fn rewritten(alloc: Global, file: &[u8]) -> Result<Bytes, Fail> {
    let parts = read_rxe(alloc, file)?;
    Ok(write_rxe(alloc, &parts)?)
}

// How many words of code a file has.
fn words_in(alloc: Global, file: &[u8]) -> Result<usize, Fail> {
    let parts = read_rxe(alloc, file)?;
    Ok(parts.code.len())
}

// The program's file with another pad, and with bytes behind its code.
fn padded(alloc: Global) -> Result<Vec<u8>, Fail> {
    let mut file = MOTOR.to_vec(alloc)?;
    file.extend_from_slice(b"more")?;
    if let Some(pad) = file.get_mut(53) {
        *pad = 0xFF;
    }
    Ok(file)
}

fn expect_motor(rt: &impl Abort, alloc: Global, file: &[u8]) -> Result<(), Fail> {
    assert_eq!(rt; words_in(alloc, file)?, 10);
    let written = rewritten(alloc, file)?;
    assert_eq!(rt; written.as_slice(), MOTOR.as_slice());
    Ok(())
}

#[test]
fn pads_and_what_follows_the_code_are_free(rt: HostRuntime) -> Result<(), Fail> {
    let file = padded(rt.alloc())?;
    expect_motor(&rt, rt.alloc(), file.as_slice())
}

#[test]
fn a_file_is_written_as_it_was_read(rt: HostRuntime) -> Result<(), Fail> {
    expect_motor(&rt, rt.alloc(), &MOTOR)
}

#[test]
fn a_program_is_written_as_its_file(rt: HostRuntime) -> Result<(), Fail> {
    let file = file_of(rt.alloc(), &PROGRAM)?;
    assert_eq!(rt; file.as_slice(), MOTOR.as_slice());
    Ok(())
}
