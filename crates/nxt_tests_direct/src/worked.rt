// Rows that were worked out beforehand.

use crate::telling::{Case, Program, Told, tell, tell_cases};
use nxt_direct::Effect::{Halt, Stay};
use nxt_io::Io;
use std::test::Fail;

// A full mailbox loses its oldest message.
#[test]
fn a_full_mailbox(rt: HostRuntime) -> Result<(), Fail> {
    let cases: &[Case] = &[(
        "six messages to one mailbox",
        &[
            (&[0x80, 0x09, 0x00, 0x02, 0x31, 0x00], Stay, ""),
            (&[0x80, 0x09, 0x00, 0x02, 0x32, 0x00], Stay, ""),
            (&[0x80, 0x09, 0x00, 0x02, 0x33, 0x00], Stay, ""),
            (&[0x80, 0x09, 0x00, 0x02, 0x34, 0x00], Stay, ""),
            (&[0x80, 0x09, 0x00, 0x02, 0x35, 0x00], Stay, ""),
            (&[0x80, 0x09, 0x00, 0x02, 0x36, 0x00], Stay, ""),
            (
                &[0x00, 0x13, 0x00, 0x00, 0x01],
                Stay,
                "reply,02130000023200000000000000000000000000000000000000000000000000000000000000000000000000000000000000000000000000000000000000000000\n",
            ),
            (
                &[0x00, 0x13, 0x00, 0x00, 0x01],
                Stay,
                "reply,02130000023300000000000000000000000000000000000000000000000000000000000000000000000000000000000000000000000000000000000000000000\n",
            ),
            (
                &[0x00, 0x13, 0x00, 0x00, 0x01],
                Stay,
                "reply,02130000023400000000000000000000000000000000000000000000000000000000000000000000000000000000000000000000000000000000000000000000\n",
            ),
            (
                &[0x00, 0x13, 0x00, 0x00, 0x01],
                Stay,
                "reply,02130000023500000000000000000000000000000000000000000000000000000000000000000000000000000000000000000000000000000000000000000000\n",
            ),
            (
                &[0x00, 0x13, 0x00, 0x00, 0x01],
                Stay,
                "reply,02130000023600000000000000000000000000000000000000000000000000000000000000000000000000000000000000000000000000000000000000000000\n",
            ),
            (&[0x00, 0x13, 0x00, 0x00, 0x01], Stay, "reply,021340\n"),
        ],
    )];
    tell_cases(&rt, rt.alloc(), Program::Active, cases)
}

// Direct commands, until one of them stops the program.
#[test]
fn direct_commands(rt: HostRuntime) -> Result<(), Fail> {
    let alloc = rt.alloc();
    let mut io = Io::new(alloc)?;
    let name = "direct commands";
    let active: &[Told] = &[
        (
            &[
                0x00, 0x04, 0x00, 0x64, 0x07, 0x00, 0x00, 0x20, 0x00, 0x00, 0x00, 0x00,
            ],
            Stay,
            "motor,0,7,100,32,0,0,0\nreply,020400\n",
        ),
        (
            &[
                0x00, 0x04, 0x00, 0x64, 0x07, 0x00, 0x00, 0x20, 0x00, 0x00, 0x00, 0x00, 0x00,
            ],
            Stay,
            "motor,0,7,100,32,0,0,0\nreply,020400\n",
        ),
        (&[0x00, 0x55], Stay, "reply,0255be\n"),
        (&[0x80, 0x55], Stay, ""),
        (&[0x00, 0x0B], Stay, "reply,020b00401f\n"),
        (&[0x00, 0x01], Halt, "reply,020100\n"),
    ];
    tell(&rt, alloc, name, Program::Active, &mut io, active)?;
    let stopped: &[Told] = &[(&[0x00, 0x13, 0x00, 0x00, 0x01], Stay, "reply,0213ec\n")];
    tell(&rt, alloc, name, Program::Idle, &mut io, stopped)
}

#[test]
fn hostile_telegrams(rt: HostRuntime) -> Result<(), Fail> {
    let cases: &[Case] = &[(
        "hostile telegrams",
        &[
            (&[], Stay, ""),
            (&[0x00], Stay, ""),
            (&[0x02, 0xFF], Stay, ""),
            (&[0x00, 0x00], Stay, "reply,0200bf\n"),
            (&[0x00, 0x00, 0x61, 0x00], Stay, "reply,0200bd\n"),
            (
                &[0x00, 0x03, 0xC7, 0x00, 0x01, 0x00],
                Stay,
                "reply,0203c0\n",
            ),
            (&[0x00, 0x04], Stay, "reply,0204bf\n"),
            (
                &[
                    0x00, 0x04, 0x03, 0x00, 0x00, 0x00, 0x00, 0x00, 0x00, 0x00, 0x00, 0x00,
                ],
                Stay,
                "reply,0204f0\n",
            ),
            (
                &[
                    0x00, 0x04, 0x00, 0x9B, 0x00, 0x00, 0x00, 0x00, 0x00, 0x00, 0x00, 0x00,
                ],
                Stay,
                "reply,0204c0\n",
            ),
            (&[0x00, 0x09, 0x00, 0x00], Stay, "reply,0209ed\n"),
            (&[0x00, 0x09, 0x00, 0x01, 0x31], Stay, "reply,0209ff\n"),
            (
                &[0x00, 0x09, 0x14, 0x02, 0x01, 0x00],
                Stay,
                "reply,0209ee\n",
            ),
            (&[0x00, 0x13, 0x14, 0x00, 0x01], Stay, "reply,0213ee\n"),
        ],
    )];
    tell_cases(&rt, rt.alloc(), Program::Active, cases)
}

static OTHER_TELEGRAMS: [Case<'static>; 2] = [
    (
        "a telegram is dropped unless its first byte is 00 or 80",
        &[
            (&[0x01, 0x01], Stay, ""),
            (&[0x02, 0x01], Stay, ""),
            (&[0x81, 0x01], Stay, ""),
            (&[0xFF, 0x01], Stay, ""),
            (&[0x80], Stay, ""),
        ],
    ),
    (
        "other commands are unknown",
        &[
            (&[0x00, 0x02], Stay, "reply,0202be\n"),
            (&[0x00, 0x0E], Stay, "reply,020ebe\n"),
            (&[0x00, 0x0F], Stay, "reply,020fbe\n"),
            (&[0x00, 0x10], Stay, "reply,0210be\n"),
            (&[0x00, 0x12], Stay, "reply,0212be\n"),
            (&[0x00, 0x14], Stay, "reply,0214be\n"),
            (&[0x00, 0x80], Stay, "reply,0280be\n"),
            (&[0x00, 0xFF], Stay, "reply,02ffbe\n"),
            (&[0x80, 0x02], Stay, ""),
        ],
    ),
];

#[test]
fn other_telegrams(rt: HostRuntime) -> Result<(), Fail> {
    tell_cases(&rt, rt.alloc(), Program::Active, &OTHER_TELEGRAMS)
}
