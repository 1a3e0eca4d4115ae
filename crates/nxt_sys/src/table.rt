// The table of the calls.

ghost use Rattle.nxt_types.specs.Calls.{call_of};
ghost use Rattle.nxt_sys.specs.Keeping.{LeavesAfter};
ghost use Rattle.nxt_sys.specs.Calls.{CanCall, Calls, clock_of};

use crate::buttons::{random_number, read_button};
use crate::clock::{Clock, keep_alive, start_tick};
use crate::display::{draw_circle, draw_line, draw_point, draw_rect, draw_text, set_screen};
use crate::messages::{read_message, write_message};
use crate::sound::{get_sound, play_tone, set_sound};
use nxt_io::Io;
use nxt_model::line::Lines;
use nxt_space::{OpFault, Space};
use nxt_types::calls::Call;
use std::alloc::Global;

/// Makes a system call (Executable File Specification, "SYSCALL"): the one of a number, on the cluster that begins at an
/// entry. Where it is refused nothing has changed.
pub fn syscall(
    alloc: Global,
    number: u16,
    cluster: u16,
    space: &mut Space,
    io: &mut Io,
    clock: Clock,
    out: &mut Lines,
) -> Result<(), OpFault>
    requires { CanCall space.old.vars number cluster }
    ensures calls { Calls number cluster (clock_of clock) space.old io.old out.old result space.new io.new out.new }
    ensures leaves { LeavesAfter (call_of number) cluster space.old space.new }
{
    let Some(call) = Call::from_number(number) else {
        return Ok(());
    };
    match call {
        Call::PlayTone => play_tone(cluster, space, io, clock, out),
        Call::GetSound => {
            get_sound(cluster, space, io);
            Ok(())
        }
        Call::SetSound => set_sound(cluster, space, io, out),
        Call::DrawText => draw_text(alloc, cluster, space, out),
        Call::DrawPoint => draw_point(cluster, space, out),
        Call::DrawLine => draw_line(cluster, space, out),
        Call::DrawCircle => draw_circle(cluster, space, out),
        Call::DrawRect => draw_rect(cluster, space, out),
        Call::SetScreen => set_screen(cluster, space, out),
        Call::ReadButton => {
            read_button(cluster, space, io);
            Ok(())
        }
        Call::RandomNumber => {
            random_number(cluster, space, io);
            Ok(())
        }
        Call::StartTick => {
            start_tick(cluster, space, clock);
            Ok(())
        }
        Call::WriteMessage => write_message(alloc, cluster, space, io),
        Call::ReadMessage => read_message(alloc, cluster, space, io),
        Call::KeepAlive => {
            keep_alive(cluster, space);
            Ok(())
        }
    }
}
