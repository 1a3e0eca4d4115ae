// Telegrams that speak of the program.

use crate::telling::{Case, Program, tell_cases};
use nxt_direct::Effect::{Halt, Restart, Stay};
use std::test::Fail;

static PROGRAMS_START: [Case<'static>; 8] = [
    (
        "a program starts by its name",
        &[(
            &[
                0x00, 0x00, 0x70, 0x72, 0x6F, 0x67, 0x72, 0x61, 0x6D, 0x2E, 0x72, 0x78, 0x65, 0x00,
            ],
            Restart,
            "reply,020000\n",
        )],
    ),
    (
        "zeros may fill the name to 20 bytes",
        &[(
            &[
                0x00, 0x00, 0x70, 0x72, 0x6F, 0x67, 0x72, 0x61, 0x6D, 0x2E, 0x72, 0x78, 0x65, 0x00,
                0x00, 0x00, 0x00, 0x00, 0x00, 0x00, 0x00, 0x00,
            ],
            Restart,
            "reply,020000\n",
        )],
    ),
    (
        "bytes behind the zero are not read",
        &[(
            &[
                0x00, 0x00, 0x70, 0x72, 0x6F, 0x67, 0x72, 0x61, 0x6D, 0x2E, 0x72, 0x78, 0x65, 0x00,
                0x72, 0x78, 0x65,
            ],
            Restart,
            "reply,020000\n",
        )],
    ),
    (
        "a start may want no reply",
        &[(
            &[
                0x80, 0x00, 0x70, 0x72, 0x6F, 0x67, 0x72, 0x61, 0x6D, 0x2E, 0x72, 0x78, 0x65, 0x00,
            ],
            Restart,
            "",
        )],
    ),
    (
        "a start has a name of a byte at least",
        &[(&[0x00, 0x00], Stay, "reply,0200bf\n")],
    ),
    (
        "a name has 20 bytes at most",
        &[(
            &[
                0x00, 0x00, 0x70, 0x72, 0x6F, 0x67, 0x72, 0x61, 0x6D, 0x2E, 0x72, 0x78, 0x65, 0x00,
                0x00, 0x00, 0x00, 0x00, 0x00, 0x00, 0x00, 0x00, 0x00,
            ],
            Stay,
            "reply,0200bf\n",
        )],
    ),
    (
        "a name ends in a zero",
        &[
            (
                &[
                    0x00, 0x00, 0x70, 0x72, 0x6F, 0x67, 0x72, 0x61, 0x6D, 0x2E, 0x72, 0x78, 0x65,
                ],
                Stay,
                "reply,0200bf\n",
            ),
            (
                &[
                    0x80, 0x00, 0x70, 0x72, 0x6F, 0x67, 0x72, 0x61, 0x6D, 0x2E, 0x72, 0x78, 0x65,
                ],
                Stay,
                "",
            ),
        ],
    ),
    (
        "another name is not found",
        &[
            (&[0x00, 0x00, 0x61, 0x00], Stay, "reply,0200bd\n"),
            (&[0x00, 0x00, 0x00], Stay, "reply,0200bd\n"),
            (
                &[
                    0x00, 0x00, 0x70, 0x72, 0x6F, 0x67, 0x72, 0x61, 0x6D, 0x2E, 0x72, 0x78, 0x00,
                ],
                Stay,
                "reply,0200bd\n",
            ),
            (
                &[
                    0x00, 0x00, 0x70, 0x72, 0x6F, 0x67, 0x72, 0x61, 0x6D, 0x2E, 0x72, 0x78, 0x65,
                    0x73, 0x00,
                ],
                Stay,
                "reply,0200bd\n",
            ),
            (
                &[
                    0x00, 0x00, 0x50, 0x72, 0x6F, 0x67, 0x72, 0x61, 0x6D, 0x2E, 0x72, 0x78, 0x65,
                    0x00,
                ],
                Stay,
                "reply,0200bd\n",
            ),
            (&[0x80, 0x00, 0x61, 0x00], Stay, ""),
        ],
    ),
];

#[test]
fn programs_start(rt: HostRuntime) -> Result<(), Fail> {
    tell_cases(&rt, rt.alloc(), Program::Active, &PROGRAMS_START)
}

static ACTIVE_PROGRAMS: [Case<'static>; 6] = [
    (
        "an active program stops",
        &[
            (&[0x00, 0x01], Halt, "reply,020100\n"),
            (&[0x80, 0x01], Halt, ""),
        ],
    ),
    (
        "a stop has 2 bytes",
        &[(&[0x00, 0x01, 0x00], Stay, "reply,0201bf\n")],
    ),
    (
        "an active program has a name",
        &[(
            &[0x00, 0x11],
            Stay,
            "reply,02110070726f6772616d2e727865000000000000000000\n",
        )],
    ),
    (
        "a question for the name has 2 bytes",
        &[(&[0x00, 0x11, 0x00], Stay, "reply,0211bf\n")],
    ),
    (
        "the brick stays on for ten minutes",
        &[
            (&[0x00, 0x0D], Stay, "reply,020d00c0270900\n"),
            (&[0x80, 0x0D], Stay, ""),
        ],
    ),
    (
        "a telegram that keeps it on has 2 bytes",
        &[(&[0x00, 0x0D, 0x00], Stay, "reply,020dbf\n")],
    ),
];

#[test]
fn active_programs(rt: HostRuntime) -> Result<(), Fail> {
    tell_cases(&rt, rt.alloc(), Program::Active, &ACTIVE_PROGRAMS)
}

static IDLE_BRICKS: [Case<'static>; 5] = [
    (
        "there is no program to stop",
        &[
            (&[0x00, 0x01], Stay, "reply,0201ec\n"),
            (&[0x80, 0x01], Stay, ""),
        ],
    ),
    (
        "a length is tested before the program",
        &[
            (&[0x00, 0x01, 0x00], Stay, "reply,0201bf\n"),
            (&[0x00, 0x11, 0x00], Stay, "reply,0211bf\n"),
        ],
    ),
    (
        "there is no program with a name",
        &[(&[0x00, 0x11], Stay, "reply,0211ec\n")],
    ),
    (
        "a program may start",
        &[(
            &[
                0x00, 0x00, 0x70, 0x72, 0x6F, 0x67, 0x72, 0x61, 0x6D, 0x2E, 0x72, 0x78, 0x65, 0x00,
            ],
            Restart,
            "reply,020000\n",
        )],
    ),
    (
        "the brick may be kept on",
        &[(&[0x00, 0x0D], Stay, "reply,020d00c0270900\n")],
    ),
];

#[test]
fn idle_bricks(rt: HostRuntime) -> Result<(), Fail> {
    tell_cases(&rt, rt.alloc(), Program::Idle, &IDLE_BRICKS)
}
