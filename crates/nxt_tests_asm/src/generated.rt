// Programs that are made from numbers.

use super::commands::generated;
use nxt_tool::Status;
use std::test::Fail;

/// A number as it is written, how the command ends, and what it writes.
type Case = (&'static [u8], Status, &'static [u8]);

/// The sums are worked out from the lengths of the eight lists alone.
static NUMBERS: [Case; 10] = [
    (
        b"7",
        Status::Done,
        b"gen,7\nmotors,400\nsum,4299\nstop,finished\n",
    ),
    (
        b"0",
        Status::Done,
        b"gen,0\nmotors,400\nsum,5562\nstop,finished\n",
    ),
    (
        b"4294967295",
        Status::Done,
        b"gen,4294967295\nmotors,400\nsum,-2415\nstop,finished\n",
    ),
    (
        b"0000000007",
        Status::Done,
        b"gen,7\nmotors,400\nsum,4299\nstop,finished\n",
    ),
    (b"4294967296", Status::Words, b""),
    (b"00000000007", Status::Words, b""),
    (b"-0", Status::Words, b""),
    (b"", Status::Words, b""),
    (b"7 ", Status::Words, b""),
    (b"0x7", Status::Words, b""),
];

#[test]
fn generated_programs(rt: HostRuntime) -> Result<(), Fail> {
    for (number, status, report) in &NUMBERS {
        let ended = generated(rt.alloc(), number)?;
        assert_eq!(rt; ended.status, *status);
        assert_eq!(rt; ended.report.as_slice(), *report);
        assert!(rt; ended.image.is_empty());
    }
    Ok(())
}
