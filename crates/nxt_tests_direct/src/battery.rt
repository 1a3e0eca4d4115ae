// Telegrams that ask for the battery.

use crate::telling::{Case, Program, Told, tell, tell_cases};
use nxt_direct::Effect::Stay;
use nxt_io::Io;
use nxt_model::event::Event;
use std::test::Fail;

static BATTERIES: [Case<'static>; 2] = [
    (
        "the battery has 8,000 mV",
        &[
            (&[0x00, 0x0B], Stay, "reply,020b00401f\n"),
            (&[0x80, 0x0B], Stay, ""),
        ],
    ),
    (
        "the battery is asked for by 2 bytes",
        &[(&[0x00, 0x0B, 0x00], Stay, "reply,020bbf\n")],
    ),
];

#[test]
fn batteries(rt: HostRuntime) -> Result<(), Fail> {
    tell_cases(&rt, rt.alloc(), Program::Idle, &BATTERIES)
}

#[test]
fn a_weaker_battery(rt: HostRuntime) -> Result<(), Fail> {
    let alloc = rt.alloc();
    let mut io = Io::new(alloc)?;
    io.take(&Event::Battery(7650));
    let told: &[Told] = &[(&[0x00, 0x0B], Stay, "reply,020b00e21d\n")];
    tell(&rt, alloc, "7,650 mV", Program::Idle, &mut io, told)
}
