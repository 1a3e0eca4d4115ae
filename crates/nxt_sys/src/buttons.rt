// The calls that read buttons and random words.

ghost use Rattle.nxt_space.specs.Keeping.{TableStays};
ghost use Rattle.std.specs.Prelude.{◌≡◌, Ok};
ghost use Rattle.nxt_types.specs.Calls.{call_number};
ghost use Rattle.nxt_types.specs.declared.calls.Call.TheVariants as calls;
ghost use Rattle.nxt_model.specs.LineList.{Roomy};
ghost use Rattle.nxt_model.specs.SystemCalls.{Clock as Moments};
ghost use Rattle.nxt_sys.specs.Calls.{Calls};
ghost use Rattle.nxt_sys.specs.Fields.{HasCluster};

use crate::answers::answer;
use crate::fields::{set, word};
use nxt_io::Io;
use nxt_space::Space;
use nxt_types::calls::Call;

/// The result where there is no such button.
const NO_BUTTON: i64 = -16;

/// Tells whether a button is pressed and how often it was, and resets that count where the program wants it (Executable File
/// Specification, "NXTReadButton").
pub fn read_button(cluster: u16, space: &mut Space, io: &mut Io)
    requires { HasCluster space.old.vars calls.ReadButton cluster }
    ensures calls { (t : Moments) (out : Roomy) → Calls (call_number calls.ReadButton) cluster t space.old io.old out (Ok tt) space.new io.new out }
    ensures stays { TableStays space.old space.new }
{
    let index = word(space, Call::ReadButton, cluster, 1);
    let reset = word(space, Call::ReadButton, cluster, 4) != 0;
    match io.button(index, reset) {
        None => answer(space, Call::ReadButton, cluster, NO_BUTTON),
        Some((pressed, presses)) => {
            set(space, Call::ReadButton, cluster, 0, 0);
            set(space, Call::ReadButton, cluster, 2, i64::from(pressed));
            set(space, Call::ReadButton, cluster, 3, i64::from(presses));
        }
    }
}

/// Tells the oldest random word, or 0 where there is none (Executable File Specification, "NXTRandomNumber").
pub fn random_number(cluster: u16, space: &mut Space, io: &mut Io)
    requires { HasCluster space.old.vars calls.RandomNumber cluster }
    ensures calls { (t : Moments) (out : Roomy) → Calls (call_number calls.RandomNumber) cluster t space.old io.old out (Ok tt) space.new io.new out }
    ensures stays { TableStays space.old space.new }
{
    let word = io.random();
    answer(space, Call::RandomNumber, cluster, i64::from(word));
}
