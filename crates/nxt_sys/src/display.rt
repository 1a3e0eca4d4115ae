// The calls that draw on the display. A coordinate is a count of pixels from the lower left corner.

ghost use Rattle.std.specs.Prelude.{◌≡◌, ◌==◌, ◌≤◌, length, IfOk};
ghost use Rattle.std.specs.List.{position_or_len};
ghost use Rattle.nxt_types.specs.Calls.{call_number};
ghost use Rattle.nxt_types.specs.declared.calls.Call.TheVariants as calls;
ghost use Rattle.nxt_model.specs.Devices.{Devices};
ghost use Rattle.nxt_model.specs.SystemCalls.{Clock, field_text, shown as shown_of};
ghost use Rattle.nxt_space.specs.Keeping.{TableStays};
ghost use Rattle.nxt_space.specs.Variables.{value_of};
ghost use Rattle.nxt_sys.specs.Calls.{Calls};
ghost use Rattle.nxt_sys.specs.Fields.{HasCluster};

use crate::answers::answer;
use crate::fields::{number, text, x_at, y_at};
use nxt_model::line::{Line, Lines};
use nxt_space::{OpFault, Space};
use nxt_types::calls::Call;
use nxt_types::{Bytes, NoMemory};
use std::alloc::Global;

/// How many bytes of a text are shown.
const SHOWN_BYTES: usize = 64;

/// Draws a text (Executable File Specification, "NXTDrawText").
pub fn draw_text(
    alloc: Global,
    cluster: u16,
    space: &mut Space,
    out: &mut Lines,
) -> Result<(), OpFault>
    requires { HasCluster space.old.vars calls.DrawText cluster }
    ensures calls { (d : Devices) (t : Clock) → Calls (call_number calls.DrawText) cluster t space.old d out.old result space.new d out.new }
    ensures stays { TableStays space.old space.new }
{
    let x = x_at(space, Call::DrawText, cluster, 1);
    let y = y_at(space, Call::DrawText, cluster, 1);
    let text = shown_text(alloc, space, cluster)?;
    let options = number(space, Call::DrawText, cluster, 3);
    out.push(Line::Text(x, y, options, text))?;
    answer(space, Call::DrawText, cluster, 0);
    Ok(())
}

// The bytes of the call's text that are shown.
fn shown_text(alloc: Global, space: &Space, cluster: u16) -> Result<Bytes, NoMemory>
    requires { HasCluster space.now.vars calls.DrawText cluster }
    ensures { IfOk result (λ bytes. bytes ≡ shown_of (field_text 2 (value_of space.now.vars cluster))) }
{
    let text = text(alloc, space, Call::DrawText, cluster, 2)?;
    let mut bytes = Bytes::new(alloc);
    bytes.append(shown(text.bytes()))?;
    Ok(bytes)
}

// The bytes of a text that are shown: those in front of its first zero, at most 64.
fn shown(text: &[u8]) -> &[u8]
    ensures { result.now ≡ shown_of text.now }
{
    let front = &text[..text.len().min(SHOWN_BYTES)];
    &front[..zero_at(front)]
}

// Where the first zero of a text stands, or else the text's length.
fn zero_at(text: &[u8]) -> usize
    ensures place { result ≡ position_or_len (λ b. b == 0) text.now }
    ensures within { result ≤ length text.now }
{
    for (k, byte) in text.iter().enumerate() {
        if *byte == 0 {
            return k;
        }
    }
    text.len()
}

/// Draws a point (Executable File Specification, "NXTDrawPoint").
pub fn draw_point(cluster: u16, space: &mut Space, out: &mut Lines) -> Result<(), OpFault>
    requires { HasCluster space.old.vars calls.DrawPoint cluster }
    ensures calls { (d : Devices) (t : Clock) → Calls (call_number calls.DrawPoint) cluster t space.old d out.old result space.new d out.new }
    ensures stays { TableStays space.old space.new }
{
    let x = x_at(space, Call::DrawPoint, cluster, 1);
    let y = y_at(space, Call::DrawPoint, cluster, 1);
    let options = number(space, Call::DrawPoint, cluster, 2);
    out.push(Line::Point(x, y, options))?;
    answer(space, Call::DrawPoint, cluster, 0);
    Ok(())
}

/// Draws a line between two places (Executable File Specification, "NXTDrawLine").
pub fn draw_line(cluster: u16, space: &mut Space, out: &mut Lines) -> Result<(), OpFault>
    requires { HasCluster space.old.vars calls.DrawLine cluster }
    ensures calls { (d : Devices) (t : Clock) → Calls (call_number calls.DrawLine) cluster t space.old d out.old result space.new d out.new }
    ensures stays { TableStays space.old space.new }
{
    let x = x_at(space, Call::DrawLine, cluster, 1);
    let y = y_at(space, Call::DrawLine, cluster, 1);
    let end_x = x_at(space, Call::DrawLine, cluster, 2);
    let end_y = y_at(space, Call::DrawLine, cluster, 2);
    let options = number(space, Call::DrawLine, cluster, 3);
    out.push(Line::Line(x, y, end_x, end_y, options))?;
    answer(space, Call::DrawLine, cluster, 0);
    Ok(())
}

/// Draws a circle around a place, with a radius in pixels (Executable File Specification, "NXTDrawCircle").
pub fn draw_circle(cluster: u16, space: &mut Space, out: &mut Lines) -> Result<(), OpFault>
    requires { HasCluster space.old.vars calls.DrawCircle cluster }
    ensures calls { (d : Devices) (t : Clock) → Calls (call_number calls.DrawCircle) cluster t space.old d out.old result space.new d out.new }
    ensures stays { TableStays space.old space.new }
{
    let x = x_at(space, Call::DrawCircle, cluster, 1);
    let y = y_at(space, Call::DrawCircle, cluster, 1);
    let radius = number(space, Call::DrawCircle, cluster, 2);
    let options = number(space, Call::DrawCircle, cluster, 3);
    out.push(Line::Circle(x, y, radius, options))?;
    answer(space, Call::DrawCircle, cluster, 0);
    Ok(())
}

/// Draws a rectangle from its lower left corner, with its width and height in pixels (Executable File Specification,
/// "NXTDrawRect").
pub fn draw_rect(cluster: u16, space: &mut Space, out: &mut Lines) -> Result<(), OpFault>
    requires { HasCluster space.old.vars calls.DrawRect cluster }
    ensures calls { (d : Devices) (t : Clock) → Calls (call_number calls.DrawRect) cluster t space.old d out.old result space.new d out.new }
    ensures stays { TableStays space.old space.new }
{
    let x = x_at(space, Call::DrawRect, cluster, 1);
    let y = y_at(space, Call::DrawRect, cluster, 1);
    let width = x_at(space, Call::DrawRect, cluster, 2);
    let height = y_at(space, Call::DrawRect, cluster, 2);
    let options = number(space, Call::DrawRect, cluster, 3);
    out.push(Line::Rect(x, y, width, height, options))?;
    answer(space, Call::DrawRect, cluster, 0);
    Ok(())
}

/// Sets the screen's mode (Executable File Specification, "NXTSetScreenMode").
pub fn set_screen(cluster: u16, space: &mut Space, out: &mut Lines) -> Result<(), OpFault>
    requires { HasCluster space.old.vars calls.SetScreen cluster }
    ensures calls { (d : Devices) (t : Clock) → Calls (call_number calls.SetScreen) cluster t space.old d out.old result space.new d out.new }
    ensures stays { TableStays space.old space.new }
{
    let mode = number(space, Call::SetScreen, cluster, 1);
    out.push(Line::Screen(mode))?;
    answer(space, Call::SetScreen, cluster, 0);
    Ok(())
}
