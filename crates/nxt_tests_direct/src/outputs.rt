// Telegrams that speak of motors.

use crate::telling::{Case, Program, Told, tell, tell_cases};
use nxt_direct::Effect::Stay;
use nxt_io::Io;
use nxt_model::event::Event;
use std::test::Fail;

static MOTORS: [Case<'static>; 14] = [
    (
        "fields are stored and take effect",
        &[
            (
                &[
                    0x00, 0x04, 0x00, 0x64, 0x07, 0x00, 0x00, 0x20, 0x00, 0x00, 0x00, 0x00,
                ],
                Stay,
                "motor,0,7,100,32,0,0,0\nreply,020400\n",
            ),
            (
                &[0x00, 0x06, 0x00],
                Stay,
                "reply,02060000640700002000000000000000000000000000000000\n",
            ),
        ],
    ),
    (
        "a thirteenth byte is not read",
        &[(
            &[
                0x00, 0x04, 0x00, 0x64, 0x07, 0x00, 0x00, 0x20, 0x00, 0x00, 0x00, 0x00, 0x07,
            ],
            Stay,
            "motor,0,7,100,32,0,0,0\nreply,020400\n",
        )],
    ),
    (
        "the port of a byte FF is each of the three",
        &[
            (
                &[
                    0x00, 0x04, 0xFF, 0x9C, 0x01, 0x01, 0x64, 0x40, 0x68, 0x01, 0x00, 0x00,
                ],
                Stay,
                "motor,0,1,-100,64,100,1,360\nmotor,1,1,-100,64,100,1,360\nmotor,2,1,-100,64,100,1,360\nreply,020400\n",
            ),
            (
                &[0x00, 0x06, 0x01],
                Stay,
                "reply,020600019c0101644068010000000000000000000000000000\n",
            ),
        ],
    ),
    (
        "no reply is wanted",
        &[(
            &[
                0x80, 0x04, 0x02, 0x00, 0x00, 0x00, 0x9C, 0x00, 0xFF, 0xFF, 0xFF, 0xFF,
            ],
            Stay,
            "motor,2,0,0,0,-100,0,4294967295\n",
        )],
    ),
    (
        "a telegram that sets a motor has 12 or 13 bytes",
        &[
            (&[0x00, 0x04], Stay, "reply,0204bf\n"),
            (
                &[
                    0x00, 0x04, 0x00, 0x64, 0x07, 0x00, 0x00, 0x20, 0x00, 0x00, 0x00,
                ],
                Stay,
                "reply,0204bf\n",
            ),
            (
                &[
                    0x00, 0x04, 0x00, 0x64, 0x07, 0x00, 0x00, 0x20, 0x00, 0x00, 0x00, 0x00, 0x00,
                    0x00,
                ],
                Stay,
                "reply,0204bf\n",
            ),
        ],
    ),
    (
        "there is no fourth motor",
        &[
            (
                &[
                    0x00, 0x04, 0x03, 0x00, 0x00, 0x00, 0x00, 0x00, 0x00, 0x00, 0x00, 0x00,
                ],
                Stay,
                "reply,0204f0\n",
            ),
            (
                &[
                    0x00, 0x04, 0xFE, 0x00, 0x00, 0x00, 0x00, 0x00, 0x00, 0x00, 0x00, 0x00,
                ],
                Stay,
                "reply,0204f0\n",
            ),
        ],
    ),
    (
        "a power is a percent",
        &[
            (
                &[
                    0x00, 0x04, 0x00, 0x65, 0x00, 0x00, 0x00, 0x00, 0x00, 0x00, 0x00, 0x00,
                ],
                Stay,
                "reply,0204c0\n",
            ),
            (
                &[
                    0x00, 0x04, 0x00, 0x9B, 0x00, 0x00, 0x00, 0x00, 0x00, 0x00, 0x00, 0x00,
                ],
                Stay,
                "reply,0204c0\n",
            ),
            (
                &[
                    0x00, 0x04, 0x00, 0x80, 0x00, 0x00, 0x00, 0x00, 0x00, 0x00, 0x00, 0x00,
                ],
                Stay,
                "reply,0204c0\n",
            ),
        ],
    ),
    (
        "a turn ratio is a percent",
        &[
            (
                &[
                    0x00, 0x04, 0x00, 0x00, 0x00, 0x00, 0x65, 0x00, 0x00, 0x00, 0x00, 0x00,
                ],
                Stay,
                "reply,0204c0\n",
            ),
            (
                &[
                    0x00, 0x04, 0xFF, 0x00, 0x00, 0x00, 0x9B, 0x00, 0x00, 0x00, 0x00, 0x00,
                ],
                Stay,
                "reply,0204c0\n",
            ),
        ],
    ),
    (
        "a port is tested before a power, and a length before a port",
        &[
            (
                &[
                    0x00, 0x04, 0x03, 0x65, 0x00, 0x00, 0x00, 0x00, 0x00, 0x00, 0x00, 0x00,
                ],
                Stay,
                "reply,0204f0\n",
            ),
            (
                &[
                    0x00, 0x04, 0x03, 0x65, 0x00, 0x00, 0x00, 0x00, 0x00, 0x00, 0x00,
                ],
                Stay,
                "reply,0204bf\n",
            ),
        ],
    ),
    (
        "what is refused stores nothing",
        &[
            (
                &[
                    0x00, 0x04, 0x00, 0x00, 0x07, 0x00, 0x64, 0x00, 0x00, 0x00, 0x00, 0x00,
                ],
                Stay,
                "motor,0,7,0,0,100,0,0\nreply,020400\n",
            ),
            (
                &[
                    0x00, 0x04, 0x00, 0x64, 0x01, 0x01, 0x65, 0x20, 0x00, 0x00, 0x00, 0x01,
                ],
                Stay,
                "reply,0204c0\n",
            ),
            (
                &[0x00, 0x06, 0x00],
                Stay,
                "reply,02060000000700640000000000000000000000000000000000\n",
            ),
        ],
    ),
    (
        "a motor is asked for by 3 bytes",
        &[
            (&[0x00, 0x06], Stay, "reply,0206bf\n"),
            (&[0x00, 0x06, 0x00, 0x00], Stay, "reply,0206bf\n"),
        ],
    ),
    (
        "only one motor is asked for",
        &[
            (&[0x00, 0x06, 0x03], Stay, "reply,0206f0\n"),
            (&[0x00, 0x06, 0xFF], Stay, "reply,0206f0\n"),
            (&[0x80, 0x06, 0xFF], Stay, ""),
        ],
    ),
    (
        "a position is reset by 4 bytes",
        &[
            (&[0x00, 0x0A, 0x00], Stay, "reply,020abf\n"),
            (&[0x00, 0x0A, 0x00, 0x00, 0x00], Stay, "reply,020abf\n"),
        ],
    ),
    (
        "there is no position of a fourth motor",
        &[
            (&[0x00, 0x0A, 0x03, 0x00], Stay, "reply,020af0\n"),
            (&[0x00, 0x0A, 0xFF, 0x00], Stay, "reply,020af0\n"),
        ],
    ),
];

#[test]
fn motors(rt: HostRuntime) -> Result<(), Fail> {
    tell_cases(&rt, rt.alloc(), Program::Idle, &MOTORS)
}

// The counts of a motor are 720, -1 and 16,909,060. A relative reset makes the second 0, and an absolute one the third.
#[test]
fn positions(rt: HostRuntime) -> Result<(), Fail> {
    let alloc = rt.alloc();
    let mut io = Io::new(alloc)?;
    io.take(&Event::Tacho(1, -3, 720, -1, 16_909_060));
    let told: &[Told] = &[
        (
            &[0x00, 0x06, 0x01],
            Stay,
            "reply,02060001000000000000000000d0020000ffffffff04030201\n",
        ),
        (&[0x00, 0x0A, 0x01, 0x01], Stay, "reply,020a00\n"),
        (
            &[0x00, 0x06, 0x01],
            Stay,
            "reply,02060001000000000000000000d00200000000000004030201\n",
        ),
        (&[0x80, 0x0A, 0x01, 0x00], Stay, ""),
        (
            &[0x00, 0x06, 0x01],
            Stay,
            "reply,02060001000000000000000000d00200000000000000000000\n",
        ),
    ];
    tell(&rt, alloc, "positions", Program::Idle, &mut io, told)
}
