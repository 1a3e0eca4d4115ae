// Mailboxes.

ghost use Rattle.std.specs.Prelude.{◌≡◌, [], ◌∷◌, ◌++◌, drop, replicate, slice_get, IfOk};
ghost use Rattle.nxt_model.specs.Devices.{newest};

use circular_buffer::HeapCircularBuffer;
use nxt_model::message::Message;
use nxt_types::NoMemory;
use std::alloc::Global;
use std::marker::Model;

/// The messages that a mailbox holds (Executable File Specification, "NXTMessageWrite").
const MESSAGES: usize = 5;

/// How many mailboxes there are.
pub const MAILBOXES: u8 = 20;

/// A mailbox, with its oldest message first.
#[derive(Drop)]
pub(crate) struct Mailbox {
    messages: HeapCircularBuffer<Message>,
}

impl Model for Mailbox {
    ghost use Rattle.std.specs.Prelude.{◌≡◌, ℕ, List};

    ghost Value = { List (List ℕ) };

    ghost view = { λ b. b.messages.items };

    ghost invariant = { λ b. b.messages.capacity ≡ 5 };
}

impl Mailbox {
    fn new(alloc: Global) -> Result<Mailbox, NoMemory>
        ensures { IfOk result (λ b. b ≡ []) }
    {
        let messages = HeapCircularBuffer::with_capacity(alloc, MESSAGES)?;
        Ok(Mailbox { messages })
    }

    /// Adds a message. A full mailbox loses its oldest one.
    pub fn put(&mut self, message: Message)
        ensures { self.new ≡ newest 5 (self.old ++ message ∷ []) }
    {
        self.messages.push_back(message);
    }

    /// The oldest message.
    pub fn oldest(&self) -> Option<Message>
        ensures { result ≡ slice_get self.now 0 }
    {
        self.messages.front().copied()
    }

    /// Takes the oldest message out.
    pub fn remove_oldest(&mut self)
        ensures { self.new ≡ drop 1 self.old }
    {
        self.messages.pop_front();
    }
}

/// The mailboxes of a brick, which are empty.
pub(crate) fn empty_mailboxes(alloc: Global) -> Result<Vec<Mailbox>, NoMemory>
    ensures { IfOk result (λ boxes. boxes.items ≡ replicate 20 []) }
{
    let mut mailboxes = Vec::with_capacity(alloc, usize::from(MAILBOXES))?;
    for _ in 0..MAILBOXES {
        mailboxes.push_reserved(Mailbox::new(alloc)?);
    }
    Ok(mailboxes)
}
