// Telegrams that speak of sensors.

use crate::telling::{Case, Program, Told, tell, tell_cases};
use nxt_direct::Effect::Stay;
use nxt_io::Io;
use nxt_model::event::Event;
use std::test::Fail;

static SENSORS: [Case<'static>; 7] = [
    (
        "a type and a mode are stored",
        &[
            (&[0x00, 0x05, 0x02, 0x05, 0x80], Stay, "reply,020500\n"),
            (
                &[0x00, 0x07, 0x02],
                Stay,
                "reply,02070002010005800000000000000000\n",
            ),
            (&[0x80, 0x05, 0x02, 0x00, 0x01], Stay, ""),
            (
                &[0x00, 0x07, 0x02],
                Stay,
                "reply,02070002010000010000000000000000\n",
            ),
        ],
    ),
    (
        "a type and a mode take 5 bytes",
        &[
            (&[0x00, 0x05, 0x02, 0x05], Stay, "reply,0205bf\n"),
            (
                &[0x00, 0x05, 0x02, 0x05, 0x80, 0x00],
                Stay,
                "reply,0205bf\n",
            ),
        ],
    ),
    (
        "there is no fifth sensor to set",
        &[
            (&[0x00, 0x05, 0x04, 0x05, 0x80], Stay, "reply,0205f0\n"),
            (&[0x00, 0x05, 0xFF, 0x05, 0x80], Stay, "reply,0205f0\n"),
        ],
    ),
    (
        "a sensor is asked for by 3 bytes",
        &[
            (&[0x00, 0x07], Stay, "reply,0207bf\n"),
            (&[0x00, 0x07, 0x00, 0x00], Stay, "reply,0207bf\n"),
        ],
    ),
    (
        "there is no fifth sensor to ask for",
        &[
            (&[0x00, 0x07, 0x04], Stay, "reply,0207f0\n"),
            (&[0x80, 0x07, 0xFF], Stay, ""),
        ],
    ),
    (
        "a scaled value is reset by 3 bytes",
        &[
            (&[0x00, 0x08], Stay, "reply,0208bf\n"),
            (&[0x00, 0x08, 0x00, 0x00], Stay, "reply,0208bf\n"),
        ],
    ),
    (
        "there is no fifth sensor to reset",
        &[
            (&[0x00, 0x08, 0x04], Stay, "reply,0208f0\n"),
            (&[0x00, 0x08, 0xFF], Stay, "reply,0208f0\n"),
        ],
    ),
];

#[test]
fn sensors(rt: HostRuntime) -> Result<(), Fail> {
    tell_cases(&rt, rt.alloc(), Program::Idle, &SENSORS)
}

// A reading of 513, 1023 and -2, whose last value is reset.
#[test]
fn readings(rt: HostRuntime) -> Result<(), Fail> {
    let alloc = rt.alloc();
    let mut io = Io::new(alloc)?;
    io.take(&Event::Reading(3, 513, 1023, -2));
    let told: &[Told] = &[
        (
            &[0x00, 0x07, 0x03],
            Stay,
            "reply,02070003010000000102ff03feff0000\n",
        ),
        (&[0x00, 0x08, 0x03], Stay, "reply,020800\n"),
        (
            &[0x00, 0x07, 0x03],
            Stay,
            "reply,02070003010000000102ff0300000000\n",
        ),
    ];
    tell(&rt, alloc, "readings", Program::Idle, &mut io, told)
}

// A program makes a sensor's value invalid, by property 5.
#[test]
fn an_invalid_value(rt: HostRuntime) -> Result<(), Fail> {
    let alloc = rt.alloc();
    let mut io = Io::new(alloc)?;
    io.set_in(0, 5, 1);
    let told: &[Told] = &[
        (
            &[0x00, 0x07, 0x00],
            Stay,
            "reply,02070000000000000000000000000000\n",
        ),
        (
            &[0x00, 0x07, 0x01],
            Stay,
            "reply,02070001010000000000000000000000\n",
        ),
    ];
    tell(
        &rt,
        alloc,
        "an invalid value",
        Program::Active,
        &mut io,
        told,
    )
}
