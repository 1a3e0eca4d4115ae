// The calls of the mailboxes.

ghost use Rattle.std.specs.Prelude.{◌≡◌, ◌∷◌, [], length, nat_lt, if◌then◌else◌, Some, None, Ok, IfOk, OnErr};
ghost use Rattle.nxt_types.specs.Calls.{call_number};
ghost use Rattle.nxt_types.specs.Shapes.{Shape};
ghost use Rattle.nxt_types.specs.declared.calls.Call.TheVariants as calls;
ghost use Rattle.nxt_model.specs.Devices.{changed};
ghost use Rattle.nxt_model.specs.LineList.{Roomy};
ghost use Rattle.nxt_model.specs.Means.Text.{body as body_of, ended};
ghost use Rattle.nxt_model.specs.SystemCalls.{Clock as Moments, answers, field_text, field_word, write_message as written};
ghost use Rattle.nxt_model.specs.Values.{Num};
ghost use Rattle.nxt_space.specs.Keeping.{TableStays};
ghost use Rattle.nxt_space.specs.Variables.{value_of};
ghost use Rattle.nxt_sys.specs.Keeping.{LeavesAfter};
ghost use Rattle.nxt_sys.specs.Calls.{Calls};
ghost use Rattle.nxt_sys.specs.Fields.{HasCluster};

use crate::answers::{answer, answer_message};
use crate::fields::{text, word};
use nxt_io::Io;
use nxt_model::message::{LONGEST, Message};
use nxt_space::{OpFault, Space};
use nxt_texts::body;
use nxt_types::NoMemory;
use nxt_types::calls::Call;
use std::alloc::Global;

/// The last mailbox.
const LAST_MAILBOX: u32 = 19;

/// The result where there is no such mailbox.
const NO_MAILBOX: i64 = -18;

/// The result where a message is too long.
const TOO_LONG: i64 = -19;

/// The result where a mailbox is empty.
const EMPTY: i64 = 64;

/// Puts a message into a mailbox (Executable File Specification, "NXTMessageWrite").
pub fn write_message(
    alloc: Global,
    cluster: u16,
    space: &mut Space,
    io: &mut Io,
) -> Result<(), OpFault>
    requires { HasCluster space.old.vars calls.WriteMessage cluster }
    ensures calls { (t : Moments) (out : Roomy) → Calls (call_number calls.WriteMessage) cluster t space.old io.old out result space.new io.new out }
    ensures stays { TableStays space.old space.new }
{
    let outcome = post(alloc, cluster, space, io)?;
    answer(space, Call::WriteMessage, cluster, outcome);
    Ok(())
}

// Puts a message into a mailbox, and gives the result. An `Err` changes nothing.
fn post(alloc: Global, cluster: u16, space: &Space, io: &mut Io) -> Result<i64, NoMemory>
    requires { HasCluster space.now.vars calls.WriteMessage cluster }
    ensures posted { IfOk result (λ outcome. (s : Shape) → written s (field_word 1 (value_of space.now.vars cluster)) (ended (body_of (field_text 2 (value_of space.now.vars cluster)))) io.old ≡ answers s ((0, Num outcome) ∷ []) (changed io.new [])) }
    ensures same { OnErr result (io.new ≡ io.old) }
{
    let mailbox = word(space, Call::WriteMessage, cluster, 1);
    if mailbox > LAST_MAILBOX {
        return Ok(NO_MAILBOX);
    }
    let text = text(alloc, space, Call::WriteMessage, cluster, 2)?;
    let Some(message) = message_of(body(text.bytes())) else {
        return Ok(TOO_LONG);
    };
    io.put_message(mailbox as u8, &message);
    Ok(0)
}

// A body with a zero behind it as a message, where it isn't too long.
fn message_of(body: &[u8]) -> Option<Message>
    ensures { result ≡ (if nat_lt 59 (length (ended body.now)) then None else Some (ended body.now)) }
{
    let size = body.len();
    if size >= LONGEST {
        return None;
    }
    let mut bytes = [0; LONGEST];
    bytes[..size].copy_from_slice(body);
    Message::new(&bytes[..size + 1])
}

/// Gives the oldest message of a mailbox, and takes it out where the program wants it (Executable File Specification,
/// "NXTMessageRead"). A refused message stays in its mailbox.
pub fn read_message(
    alloc: Global,
    cluster: u16,
    space: &mut Space,
    io: &mut Io,
) -> Result<(), OpFault>
    requires { HasCluster space.old.vars calls.ReadMessage cluster }
    ensures calls { (t : Moments) (out : Roomy) → Calls (call_number calls.ReadMessage) cluster t space.old io.old out result space.new io.new out }
    ensures leaves { LeavesAfter (Some calls.ReadMessage) cluster space.old space.new }
{
    let mailbox = word(space, Call::ReadMessage, cluster, 1);
    if mailbox > LAST_MAILBOX {
        answer(space, Call::ReadMessage, cluster, NO_MAILBOX);
        return Ok(());
    }
    let remove = word(space, Call::ReadMessage, cluster, 2) != 0;
    match io.get_message(mailbox as u8, false) {
        None => answer_message(alloc, space, cluster, EMPTY, &[0])?,
        Some(message) => {
            answer_message(alloc, space, cluster, 0, message.as_slice())?;
            io.get_message(mailbox as u8, remove);
        }
    }
    Ok(())
}
