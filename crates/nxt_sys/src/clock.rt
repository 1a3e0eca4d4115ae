// The clock, and the calls that read it.

ghost use Rattle.nxt_space.specs.Keeping.{TableStays};
ghost use Rattle.std.specs.Prelude.{◌≡◌, Ok};
ghost use Rattle.nxt_types.specs.Calls.{call_number};
ghost use Rattle.nxt_types.specs.declared.calls.Call.TheVariants as calls;
ghost use Rattle.nxt_model.specs.Devices.{Devices};
ghost use Rattle.nxt_model.specs.LineList.{Roomy};
ghost use Rattle.nxt_model.specs.SystemCalls.{Clock as Moments};
ghost use Rattle.nxt_sys.specs.Calls.{Calls, clock_of};
ghost use Rattle.nxt_sys.specs.Fields.{HasCluster};

use crate::answers::answer;
use nxt_space::Space;
use nxt_types::calls::Call;

/// How long the brick stays on after a program kept it alive, in ms.
const SLEEP_AFTER: i64 = 600_000;

/// How many words there are: the moments are told modulo their number.
const WORDS: u64 = 0x1_0000_0000;

/// The moment, and the moment of the program's start, in ms.
#[derive(Clone, Copy)]
pub struct Clock {
    pub now: u64,
    pub start: u64,
}

/// Tells the moment of the program's start (Executable File Specification, "NXTGetStartTick").
pub fn start_tick(cluster: u16, space: &mut Space, clock: Clock)
    requires { HasCluster space.old.vars calls.StartTick cluster }
    ensures calls { (d : Devices) (out : Roomy) → Calls (call_number calls.StartTick) cluster (clock_of clock) space.old d out (Ok tt) space.new d out }
    ensures stays { TableStays space.old space.new }
{
    answer(
        space,
        Call::StartTick,
        cluster,
        i64::from((clock.start % WORDS) as u32),
    );
}

/// Keeps the brick on, and tells for how long (Executable File Specification, "NXTKeepAlive").
pub fn keep_alive(cluster: u16, space: &mut Space)
    requires { HasCluster space.old.vars calls.KeepAlive cluster }
    ensures calls { (d : Devices) (t : Moments) (out : Roomy) → Calls (call_number calls.KeepAlive) cluster t space.old d out (Ok tt) space.new d out }
    ensures stays { TableStays space.old space.new }
{
    answer(space, Call::KeepAlive, cluster, SLEEP_AFTER);
}
