// Texts that are refused, and those at a limit.

use super::commands::{Text, assembled};
use nxt_tool::Status;
use std::alloc::Global;
use std::process::Abort;
use std::test::Fail;

/// Structs, each of eight of those before it: s5 has 37,449 entries and 32,768 bytes.
const STRUCTS: &[u8] = b"dseg segment\n\
    s1 struct\na byte\nb byte\nc byte\nd byte\ne byte\nf byte\ng byte\nh byte\ns1 ends\n\
    s2 struct\na s1\nb s1\nc s1\nd s1\ne s1\nf s1\ng s1\nh s1\ns2 ends\n\
    s3 struct\na s2\nb s2\nc s2\nd s2\ne s2\nf s2\ng s2\nh s2\ns3 ends\n\
    s4 struct\na s3\nb s3\nc s3\nd s3\ne s3\nf s3\ng s3\nh s3\ns4 ends\n\
    s5 struct\na s4\nb s4\nc s4\nd s4\ne s4\nf s4\ng s4\nh s4\ns5 ends\n";

const END: &[u8] = b"dseg ends\nthread main\nendt\n";

/// A text, how the command ends, and its line.
type Case = (Text<'static>, Status, &'static [u8]);

static TEXTS: [Case; 8] = [
    (&[(b"$\n", 1)], Status::Refused, b"refused,40,1\n"),
    (&[(b"thread main\n", 1)], Status::Refused, b"refused,41,1\n"),
    (
        &[(b"thread main\njmp X\nendt\n", 1)],
        Status::Refused,
        b"refused,42,2\n",
    ),
    (
        &[(
            b"dseg segment\na byte\na word\ndseg ends\nthread main\nendt\n",
            1,
        )],
        Status::Refused,
        b"refused,43,3\n",
    ),
    (
        &[(b"thread main\nwait 'a'\nendt\n", 1)],
        Status::Refused,
        b"refused,44,2,1\n",
    ),
    (
        &[(
            b"dseg segment\na byte 256\ndseg ends\nthread main\nendt\n",
            1,
        )],
        Status::Refused,
        b"refused,45,2\n",
    ),
    (
        &[(b"thread t\nendt\n", 1)],
        Status::Refused,
        b"refused,46\n",
    ),
    (
        &[(b"thread main\nendt\n", 1), (b";", 262_128)],
        Status::TooLarge,
        b"",
    ),
];

static SIZES: [Case; 9] = [
    // The jump leads back over 36,000 words.
    (
        &[
            (b"dseg segment\nn long\ndseg ends\nthread main\nL:\n", 1),
            (b"add n, n, 1\n", 9_000),
            (b"jmp L\nendt\n", 1),
        ],
        Status::Refused,
        b"refused,48,9006\n",
    ),
    // The first jump leads 32,767 words forward: over itself, 8,190 statements of four words, one of three and one of two.
    (
        &[
            (b"dseg segment\nn long\ndseg ends\nthread main\njmp L\n", 1),
            (b"add n, n, 1\n", 8_190),
            (b"set n, 1\njmp L\nL:\nendt\n", 1),
        ],
        Status::Done,
        b"assembled,65598,20\n",
    ),
    (
        &[
            (b"dseg segment\nn long\ndseg ends\nthread main\njmp L\n", 1),
            (b"add n, n, 1\n", 8_192),
            (b"L:\nendt\n", 1),
        ],
        Status::Refused,
        b"refused,48,5\n",
    ),
    // Two variables of 37,449 entries each.
    (
        &[(STRUCTS, 1), (b"x s5\ny s5\n", 1), (END, 1)],
        Status::Refused,
        b"refused,49,0,74898\n",
    ),
    // 16,384 statements of four words, and the end of the thread of three.
    (
        &[
            (b"dseg segment\nn long\ndseg ends\nthread main\n", 1),
            (b"add n, n, 1\n", 16_384),
            (b"endt\n", 1),
        ],
        Status::Refused,
        b"refused,49,1,65539\n",
    ),
    // An element of a byte more than it may have, and one of as many.
    (
        &[
            (STRUCTS, 1),
            (b"s6 struct\na s5\nb byte\ns6 ends\nx s6[]\n", 1),
            (END, 1),
        ],
        Status::Refused,
        b"refused,49,2,32769\n",
    ),
    (
        &[(STRUCTS, 1), (b"x s5[]\n", 1), (END, 1)],
        Status::Done,
        b"assembled,149870,24\n",
    ),
    // A pool that is full to the byte at the start, and one that is passed.
    (
        &[
            (b"dseg segment\nx byte[] '", 1),
            (b"a", 32_743),
            (b"'\ndseg ends\nthread main\nendt\n", 1),
        ],
        Status::Done,
        b"assembled,32822,32768\n",
    ),
    (
        &[
            (b"dseg segment\nx byte[] '", 1),
            (b"a", 32_744),
            (b"'\ndseg ends\nthread main\nendt\n", 1),
        ],
        Status::Refused,
        b"refused,50,32772\n",
    ),
];

fn ends_so(rt: &impl Abort, alloc: Global, cases: &[Case]) -> Result<(), Fail> {
    for (text, status, report) in cases {
        let ended = assembled(alloc, text, &[], &[])?;
        assert_eq!(rt; ended.status, *status);
        assert_eq!(rt; ended.report.as_slice(), *report);
        assert_eq!(rt; ended.image.is_empty(), *status != Status::Done);
    }
    Ok(())
}

#[test]
fn texts_that_are_refused(rt: HostRuntime) -> Result<(), Fail> {
    ends_so(&rt, rt.alloc(), &TEXTS)
}

#[test]
fn sizes_at_their_limits(rt: HostRuntime) -> Result<(), Fail> {
    ends_so(&rt, rt.alloc(), &SIZES)
}
