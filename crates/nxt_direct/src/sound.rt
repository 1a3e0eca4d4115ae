// Sound.

ghost use Rattle.std.specs.Prelude.{◌≡◌, ◌+◌, ◌<◌, ◌≤◌, ◌++◌};
ghost use Rattle.nxt_model.specs.DirectCommands.{PlayTone, StopSound};
ghost use Rattle.nxt_direct.specs.Outcomes.{verdict, verdict_of, devices_after, lines_of, outcome_anyway, outcome_at};

use crate::checks::{of_length, refuse_unless};
use crate::fields::u16_at;
use crate::status::Status;
use crate::telegrams::Effect;
use nxt_io::Io;
use nxt_model::line::Lines;

/// The lowest frequency that a telegram may ask for, in Hz.
const LOWEST: u16 = 200;

/// The highest one.
const HIGHEST: u16 = 14_000;

/// A tone that does not repeat.
const ONCE: u32 = 0;

/// The level at which a telegram's tone sounds.
const LEVEL: u32 = 4;

/// The state of sound that is silence, and the flags that go with it.
const STOP: u8 = 4;

const NO_FLAGS: u8 = 0;

/// PLAYTONE: plays a tone of a frequency in Hz for some ms.
pub(crate) fn play_tone(
    bytes: &[u8],
    clock: u64,
    io: &mut Io,
    out: &mut Lines,
) -> Result<Effect, Status>
    requires { 0 < out.old.room }
    ensures verdict { verdict result ≡ verdict_of (outcome_at PlayTone bytes.now clock io.old) }
    ensures devices { io.new ≡ devices_after (outcome_at PlayTone bytes.now clock io.old) io.old }
    ensures lines { out.new.lines ≡ out.old.lines ++ lines_of (outcome_at PlayTone bytes.now clock io.old) }
    ensures room { out.old.room ≤ out.new.room + 1 }
{
    of_length(bytes, 6)?;
    let frequency = u16_at(bytes, 2);
    let ms = u16_at(bytes, 4);
    refuse_unless(
        LOWEST <= frequency && frequency <= HIGHEST,
        Status::OutOfRange,
    )?;
    io.tone(frequency.into(), ms.into(), ONCE, LEVEL, clock, out)
        .unwrap();
    Ok(Effect::Stay)
}

/// STOPSOUNDPLAYBACK: silences all sound.
pub(crate) fn stop_sound(bytes: &[u8], io: &mut Io, out: &mut Lines) -> Result<Effect, Status>
    requires { 0 < out.old.room }
    ensures verdict { verdict result ≡ verdict_of (outcome_anyway StopSound bytes.now io.old) }
    ensures devices { io.new ≡ devices_after (outcome_anyway StopSound bytes.now io.old) io.old }
    ensures lines { out.new.lines ≡ out.old.lines ++ lines_of (outcome_anyway StopSound bytes.now io.old) }
    ensures room { out.old.room ≤ out.new.room + 1 }
{
    of_length(bytes, 2)?;
    io.set_sound(STOP, NO_FLAGS, out).unwrap();
    Ok(Effect::Stay)
}
