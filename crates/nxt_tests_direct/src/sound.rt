// Telegrams that speak of sound.

use crate::telling::{Case, Program, tell, tell_cases};
use nxt_direct::Effect::Stay;
use nxt_io::Io;
use std::test::Fail;

static SOUNDS: [Case<'static>; 7] = [
    (
        "a tone plays",
        &[(
            &[0x00, 0x03, 0xC8, 0x00, 0x01, 0x00],
            Stay,
            "tone,200,1,0,4\nreply,020300\n",
        )],
    ),
    (
        "the highest and longest tone",
        &[(
            &[0x80, 0x03, 0xB0, 0x36, 0xFF, 0xFF],
            Stay,
            "tone,14000,65535,0,4\n",
        )],
    ),
    (
        "a tone has 200 Hz at least",
        &[(
            &[0x00, 0x03, 0xC7, 0x00, 0x01, 0x00],
            Stay,
            "reply,0203c0\n",
        )],
    ),
    (
        "and 14,000 Hz at most",
        &[
            (
                &[0x00, 0x03, 0xB1, 0x36, 0x01, 0x00],
                Stay,
                "reply,0203c0\n",
            ),
            (&[0x80, 0x03, 0xB1, 0x36, 0x01, 0x00], Stay, ""),
        ],
    ),
    (
        "a telegram for a tone has 6 bytes",
        &[
            (&[0x00, 0x03, 0xC8, 0x00, 0x01], Stay, "reply,0203bf\n"),
            (
                &[0x00, 0x03, 0xC8, 0x00, 0x01, 0x00, 0x00],
                Stay,
                "reply,0203bf\n",
            ),
            (&[0x00, 0x03], Stay, "reply,0203bf\n"),
        ],
    ),
    (
        "a sound stops",
        &[
            (&[0x00, 0x0C], Stay, "quiet\nreply,020c00\n"),
            (&[0x80, 0x0C], Stay, "quiet\n"),
        ],
    ),
    (
        "a telegram that stops it has 2 bytes",
        &[(&[0x00, 0x0C, 0x00], Stay, "reply,020cbf\n")],
    ),
];

#[test]
fn sounds(rt: HostRuntime) -> Result<(), Fail> {
    tell_cases(&rt, rt.alloc(), Program::Active, &SOUNDS)
}

// A tone of a telegram ends by itself, and a stop takes its end away.
#[test]
fn tones_end(rt: HostRuntime) -> Result<(), Fail> {
    let alloc = rt.alloc();
    let mut io = Io::new(alloc)?;
    let tone: &[u8] = &[0x80, 0x03, 0xC8, 0x00, 0x05, 0x00];
    let told = [(tone, Stay, "tone,200,5,0,4\n")];
    tell(&rt, alloc, "a tone of 5 ms", Program::Idle, &mut io, &told)?;
    assert_eq!(rt; io.sound(), (3, 1));
    io.pass(1004);
    assert_eq!(rt; io.sound(), (3, 1));
    io.pass(1005);
    assert_eq!(rt; io.sound(), (0, 0));
    Ok(())
}
