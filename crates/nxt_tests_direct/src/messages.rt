// Telegrams with messages for mailboxes, and those that ask for one.

use crate::telling::{Case, Program, tell_cases};
use nxt_direct::Effect::Stay;
use std::test::Fail;

static MESSAGES: [Case<'static>; 16] = [
    (
        "a message is put and read",
        &[
            (
                &[0x00, 0x09, 0x03, 0x02, 0x31, 0x00],
                Stay,
                "reply,020900\n",
            ),
            (
                &[0x00, 0x13, 0x03, 0x07, 0x00],
                Stay,
                "reply,02130007023100000000000000000000000000000000000000000000000000000000000000000000000000000000000000000000000000000000000000000000\n",
            ),
        ],
    ),
    (
        "a message stays unless it is taken out",
        &[
            (&[0x80, 0x09, 0x00, 0x02, 0x31, 0x00], Stay, ""),
            (
                &[0x00, 0x13, 0x00, 0x00, 0x00],
                Stay,
                "reply,02130000023100000000000000000000000000000000000000000000000000000000000000000000000000000000000000000000000000000000000000000000\n",
            ),
            (
                &[0x00, 0x13, 0x00, 0x00, 0x02],
                Stay,
                "reply,02130000023100000000000000000000000000000000000000000000000000000000000000000000000000000000000000000000000000000000000000000000\n",
            ),
            (&[0x00, 0x13, 0x00, 0x00, 0x00], Stay, "reply,021340\n"),
        ],
    ),
    (
        "a message that is taken out without a reply is gone",
        &[
            (&[0x80, 0x09, 0x00, 0x02, 0x31, 0x00], Stay, ""),
            (&[0x80, 0x13, 0x00, 0x00, 0x01], Stay, ""),
            (&[0x00, 0x13, 0x00, 0x00, 0x01], Stay, "reply,021340\n"),
        ],
    ),
    (
        "the longest message has 59 bytes",
        &[
            (
                &[
                    0x00, 0x09, 0x13, 0x3B, 0x61, 0x61, 0x61, 0x61, 0x61, 0x61, 0x61, 0x61, 0x61,
                    0x61, 0x61, 0x61, 0x61, 0x61, 0x61, 0x61, 0x61, 0x61, 0x61, 0x61, 0x61, 0x61,
                    0x61, 0x61, 0x61, 0x61, 0x61, 0x61, 0x61, 0x61, 0x61, 0x61, 0x61, 0x61, 0x61,
                    0x61, 0x61, 0x61, 0x61, 0x61, 0x61, 0x61, 0x61, 0x61, 0x61, 0x61, 0x61, 0x61,
                    0x61, 0x61, 0x61, 0x61, 0x61, 0x61, 0x61, 0x61, 0x61, 0x61, 0x00,
                ],
                Stay,
                "reply,020900\n",
            ),
            (
                &[0x00, 0x13, 0x13, 0xFF, 0x01],
                Stay,
                "reply,021300ff3b6161616161616161616161616161616161616161616161616161616161616161616161616161616161616161616161616161616161616161616100\n",
            ),
        ],
    ),
    (
        "the shortest message is a zero",
        &[
            (&[0x00, 0x09, 0x0F, 0x01, 0x00], Stay, "reply,020900\n"),
            (
                &[0x00, 0x13, 0x0F, 0x00, 0x01],
                Stay,
                "reply,02130000010000000000000000000000000000000000000000000000000000000000000000000000000000000000000000000000000000000000000000000000\n",
            ),
        ],
    ),
    (
        "a message may hold zeros",
        &[
            (
                &[0x00, 0x09, 0x00, 0x04, 0x00, 0x31, 0x00, 0x00],
                Stay,
                "reply,020900\n",
            ),
            (
                &[0x00, 0x13, 0x00, 0x00, 0x01],
                Stay,
                "reply,02130000040031000000000000000000000000000000000000000000000000000000000000000000000000000000000000000000000000000000000000000000\n",
            ),
        ],
    ),
    (
        "a telegram with a message has 4 bytes at least",
        &[
            (&[0x00, 0x09], Stay, "reply,0209bf\n"),
            (&[0x00, 0x09, 0x00], Stay, "reply,0209bf\n"),
        ],
    ),
    (
        "a message has a byte at least",
        &[(&[0x00, 0x09, 0x00, 0x00], Stay, "reply,0209ed\n")],
    ),
    (
        "and 59 at most, which is tested before the length",
        &[
            (&[0x00, 0x09, 0x00, 0x3C], Stay, "reply,0209ed\n"),
            (&[0x00, 0x09, 0x00, 0xFF], Stay, "reply,0209ed\n"),
        ],
    ),
    (
        "a telegram has the bytes of its message, and no more",
        &[
            (&[0x00, 0x09, 0x00, 0x02, 0x31], Stay, "reply,0209bf\n"),
            (
                &[0x00, 0x09, 0x00, 0x02, 0x31, 0x00, 0x00],
                Stay,
                "reply,0209bf\n",
            ),
        ],
    ),
    (
        "a message ends in a zero",
        &[
            (&[0x00, 0x09, 0x00, 0x01, 0x31], Stay, "reply,0209ff\n"),
            (
                &[0x00, 0x09, 0x00, 0x02, 0x00, 0x31],
                Stay,
                "reply,0209ff\n",
            ),
        ],
    ),
    (
        "there is no 21st mailbox to write to",
        &[
            (
                &[0x00, 0x09, 0x14, 0x02, 0x01, 0x00],
                Stay,
                "reply,0209ee\n",
            ),
            (
                &[0x00, 0x09, 0xFF, 0x02, 0x31, 0x00],
                Stay,
                "reply,0209ee\n",
            ),
        ],
    ),
    (
        "the end of a message is tested before its mailbox",
        &[(&[0x00, 0x09, 0x14, 0x01, 0x31], Stay, "reply,0209ff\n")],
    ),
    (
        "a message is read by 5 bytes",
        &[
            (&[0x00, 0x13, 0x00, 0x00], Stay, "reply,0213bf\n"),
            (
                &[0x00, 0x13, 0x00, 0x00, 0x00, 0x00],
                Stay,
                "reply,0213bf\n",
            ),
        ],
    ),
    (
        "there is no 21st mailbox to read from",
        &[
            (&[0x00, 0x13, 0x14, 0x00, 0x01], Stay, "reply,0213ee\n"),
            (&[0x00, 0x13, 0xFF, 0x00, 0x01], Stay, "reply,0213ee\n"),
        ],
    ),
    (
        "an empty mailbox has no message",
        &[
            (&[0x00, 0x13, 0x00, 0x00, 0x01], Stay, "reply,021340\n"),
            (&[0x80, 0x13, 0x00, 0x00, 0x01], Stay, ""),
        ],
    ),
];

#[test]
fn messages(rt: HostRuntime) -> Result<(), Fail> {
    tell_cases(&rt, rt.alloc(), Program::Active, &MESSAGES)
}

static MESSAGES_TO_AN_IDLE_BRICK: [Case<'static>; 3] = [
    (
        "no program takes a message",
        &[
            (
                &[0x00, 0x09, 0x00, 0x02, 0x31, 0x00],
                Stay,
                "reply,0209ec\n",
            ),
            (&[0x80, 0x09, 0x00, 0x02, 0x31, 0x00], Stay, ""),
            (
                &[0x00, 0x09, 0x14, 0x02, 0x31, 0x00],
                Stay,
                "reply,0209ec\n",
            ),
        ],
    ),
    (
        "the bytes of a message are tested before the program",
        &[
            (&[0x00, 0x09, 0x00, 0x00], Stay, "reply,0209ed\n"),
            (&[0x00, 0x09, 0x00, 0x02, 0x31], Stay, "reply,0209bf\n"),
            (&[0x00, 0x09, 0x00, 0x01, 0x31], Stay, "reply,0209ff\n"),
        ],
    ),
    (
        "no program gives one",
        &[
            (&[0x00, 0x13, 0x00, 0x00, 0x01], Stay, "reply,0213ec\n"),
            (&[0x00, 0x13, 0x14, 0x00, 0x01], Stay, "reply,0213ec\n"),
        ],
    ),
];

#[test]
fn messages_to_an_idle_brick(rt: HostRuntime) -> Result<(), Fail> {
    tell_cases(&rt, rt.alloc(), Program::Idle, &MESSAGES_TO_AN_IDLE_BRICK)
}
