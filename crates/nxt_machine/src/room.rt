// Room for lines.

ghost use Rattle.std.specs.Prelude.{◌≡◌, ◌<◌, true, false, IsOk, OnOk};

use nxt_model::line::Lines;
use nxt_types::NoMemory;

/// Makes room for one line more where it is wanted. No line changes.
pub(crate) fn room_if(wanted: bool, out: &mut Lines) -> Result<(), NoMemory>
    ensures lines { out.new.lines ≡ out.old.lines }
    ensures room { OnOk result (wanted ≡ true → 0 < out.new.room) }
    ensures none { wanted ≡ false → IsOk result }
    ensures keeps { wanted ≡ false → out.new ≡ out.old }
{
    if wanted {
        out.reserve(1)?;
    }
    Ok(())
}
