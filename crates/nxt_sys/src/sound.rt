// The calls of sound.

ghost use Rattle.nxt_space.specs.Keeping.{TableStays};
ghost use Rattle.std.specs.Prelude.{◌≡◌, Ok};
ghost use Rattle.nxt_types.specs.Calls.{call_number};
ghost use Rattle.nxt_types.specs.declared.calls.Call.TheVariants as calls;
ghost use Rattle.nxt_model.specs.LineList.{Roomy};
ghost use Rattle.nxt_model.specs.SystemCalls.{Clock as Moments};
ghost use Rattle.nxt_sys.specs.Calls.{Calls, clock_of};
ghost use Rattle.nxt_sys.specs.Fields.{HasCluster};

use crate::answers::answer;
use crate::clock::Clock;
use crate::fields::{set, word};
use nxt_io::Io;
use nxt_model::line::Lines;
use nxt_space::{OpFault, Space};
use nxt_types::calls::Call;

/// Plays a tone, with its frequency in Hz and its duration in ms (Executable File Specification, "NXTSoundPlayTone").
pub fn play_tone(
    cluster: u16,
    space: &mut Space,
    io: &mut Io,
    clock: Clock,
    out: &mut Lines,
) -> Result<(), OpFault>
    requires { HasCluster space.old.vars calls.PlayTone cluster }
    ensures calls { Calls (call_number calls.PlayTone) cluster (clock_of clock) space.old io.old out.old result space.new io.new out.new }
    ensures stays { TableStays space.old space.new }
{
    let frequency = word(space, Call::PlayTone, cluster, 1);
    let duration = word(space, Call::PlayTone, cluster, 2);
    let repeat = word(space, Call::PlayTone, cluster, 3);
    let level = word(space, Call::PlayTone, cluster, 4);
    io.tone(frequency, duration, repeat, level, clock.now, out)?;
    answer(space, Call::PlayTone, cluster, 0);
    Ok(())
}

/// Tells the state and the flags of sound (Executable File Specification, "NXTSoundGetState").
pub fn get_sound(cluster: u16, space: &mut Space, io: &Io)
    requires { HasCluster space.old.vars calls.GetSound cluster }
    ensures calls { (t : Moments) (out : Roomy) → Calls (call_number calls.GetSound) cluster t space.old io.now out (Ok tt) space.new io.now out }
    ensures stays { TableStays space.old space.new }
{
    let (state, flags) = io.sound();
    set(space, Call::GetSound, cluster, 0, i64::from(state));
    set(space, Call::GetSound, cluster, 1, i64::from(flags));
}

/// Sets the state and the flags of sound, each cut to a byte, and tells the state (Executable File Specification,
/// "NXTSoundSetState").
pub fn set_sound(
    cluster: u16,
    space: &mut Space,
    io: &mut Io,
    out: &mut Lines,
) -> Result<(), OpFault>
    requires { HasCluster space.old.vars calls.SetSound cluster }
    ensures calls { (t : Moments) → Calls (call_number calls.SetSound) cluster t space.old io.old out.old result space.new io.new out.new }
    ensures stays { TableStays space.old space.new }
{
    let state = word(space, Call::SetSound, cluster, 1) % 0x100;
    let flags = word(space, Call::SetSound, cluster, 2) % 0x100;
    io.set_sound(state as u8, flags as u8, out)?;
    let (now, _) = io.sound();
    answer(space, Call::SetSound, cluster, i64::from(now));
    Ok(())
}
