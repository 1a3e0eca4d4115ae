// Messages of the mailboxes.

ghost use Rattle.std.specs.Prelude.{◌≡◌, ◌+◌, ◌≤◌, ◌++◌, ◌==◌, ◌||◌, not, nat_lt, length};
ghost use Rattle.nxt_model.specs.DirectCommands.{WriteMessage, ReadMessage};
ghost use Rattle.nxt_direct.specs.Outcomes.{verdict, verdict_of, devices_after, more_of, outcome_anytime};

use crate::checks::{of_length, refuse_unless};
use crate::reply::Reply;
use crate::status::Status;
use crate::telegrams::Effect;
use nxt_io::{Io, MAILBOXES};
use nxt_model::message::{LONGEST, Message};

/// The bytes before a message.
const HEAD: usize = 4;

/// MESSAGEWRITE: puts a message, which ends in 0, into a mailbox.
pub(crate) fn write_message(bytes: &[u8], active: bool, io: &mut Io) -> Result<Effect, Status>
    ensures verdict { verdict result ≡ verdict_of (outcome_anytime WriteMessage bytes.now active io.old) }
    ensures devices { io.new ≡ devices_after (outcome_anytime WriteMessage bytes.now active io.old) io.old }
{
    refuse_unless(HEAD <= bytes.len(), Status::InsanePacket)?;
    let mailbox = bytes[2];
    let size = usize::from(bytes[3]);
    refuse_unless(is_message_size(size), Status::IllegalSize)?;
    of_length(bytes, HEAD + size)?;
    let message = Message::new(&bytes[HEAD..]).ok_or(Status::BadArguments)?;
    refuse_unless(active, Status::NoActiveProgram)?;
    refuse_unless(mailbox < MAILBOXES, Status::IllegalMailbox)?;
    io.put_message(mailbox, &message);
    Ok(Effect::Stay)
}

/// A message has a byte at least, which is 0.
fn is_message_size(size: usize) -> bool
    ensures { result ≡ not (size == 0 || nat_lt 59 size) }
{
    1 <= size && size <= LONGEST
}

/// MESSAGEREAD: the reply has the local mailbox, the size of the oldest message of the remote one, and the message with
/// zeros behind it to 59 bytes. The message may be taken out.
pub(crate) fn read_message(
    bytes: &[u8],
    active: bool,
    io: &mut Io,
    reply: &mut Reply,
) -> Result<Effect, Status>
    requires { length reply.old ≤ 3 }
    ensures verdict { verdict result ≡ verdict_of (outcome_anytime ReadMessage bytes.now active io.old) }
    ensures devices { io.new ≡ devices_after (outcome_anytime ReadMessage bytes.now active io.old) io.old }
    ensures reply { reply.new ≡ reply.old ++ more_of (outcome_anytime ReadMessage bytes.now active io.old) }
{
    of_length(bytes, 5)?;
    let (remote, local, remove) = (bytes[2], bytes[3], bytes[4] != 0);
    refuse_unless(active, Status::NoActiveProgram)?;
    refuse_unless(remote < MAILBOXES, Status::IllegalMailbox)?;
    let message = io.get_message(remote, remove).ok_or(Status::MailboxEmpty)?;
    reply.byte(local);
    reply.byte(message.as_slice().len() as u8);
    reply.append(message.filled());
    Ok(Effect::Stay)
}
