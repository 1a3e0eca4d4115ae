// The bytes of a reply.

ghost use Rattle.std.specs.Prelude.{◌≡◌, ◌+◌, ◌<◌, ◌≤◌, [], ◌∷◌, ◌++◌, length, slice_set, IfOk};
ghost use Rattle.nxt_model.specs.DirectCommands.{low_bytes, filled};
ghost use Rattle.nxt_direct.specs.Statuses.{status_number};

use crate::status::Status;
use nxt_types::NoMemory;
use nxt_types::lists::Bytes;
use nxt_types::numbers::wrap;
use std::alloc::Global;
use std::marker::Model;

/// The bytes of the longest reply.
const LONGEST_REPLY: usize = 64;

/// The first byte of every reply.
const REPLY: u8 = 0x02;

/// The status of a command that is done.
const SUCCESS: u8 = 0x00;

/// The bytes of a reply, in memory that is there for the longest one.
#[derive(Drop)]
pub(crate) struct Reply {
    bytes: Vec<u8>,
}

impl Model for Reply {
    ghost use Rattle.std.specs.Prelude.{List, ℕ, ◌≤◌, vec_capacity};

    ghost Value = { List ℕ };

    ghost view = { λ r. r.bytes.items };

    ghost invariant = { λ r. 64 ≤ vec_capacity r.bytes };
}

impl Reply {
    /// The reply of a command that is done.
    pub fn new(alloc: Global, command: u8) -> Result<Reply, NoMemory>
        ensures { IfOk result (λ r. r ≡ 2 ∷ command ∷ 0 ∷ []) }
    {
        let mut bytes = Vec::with_capacity(alloc, LONGEST_REPLY)?;
        bytes.push_reserved(REPLY);
        bytes.push_reserved(command);
        bytes.push_reserved(SUCCESS);
        Ok(Reply { bytes })
    }

    /// The command is refused by a status.
    pub fn refuse(&mut self, status: Status)
        requires { 3 ≤ length self.old }
        ensures { self.new ≡ slice_set self.old 2 (status_number status) }
    {
        self.bytes[2] = status.number();
    }

    /// Adds a byte at the end.
    pub fn byte(&mut self, byte: u8)
        requires { length self.old < 64 }
        ensures { self.new ≡ self.old ++ byte ∷ [] }
    {
        self.bytes.push_reserved(byte);
    }

    /// Adds the low bytes of a number, the lowest first.
    pub fn number(&mut self, bytes: usize, number: i64)
        requires few { bytes ≤ 4 }
        requires room { length self.old + bytes ≤ 64 }
        ensures { self.new ≡ self.old ++ low_bytes bytes number }
    {
        self.append(&wrap(number).to_le_bytes()[..bytes]);
    }

    /// Adds bytes at the end.
    pub fn append(&mut self, more: &[u8])
        requires { length self.old + length more.now ≤ 64 }
        ensures { self.new ≡ self.old ++ more.now }
    {
        self.bytes.extend_from_slice(more).unwrap();
    }

    /// Adds bytes, with zeros behind them to n bytes.
    pub fn append_filled(&mut self, n: usize, more: &[u8])
        requires fits { length more.now ≤ n }
        requires room { length self.old + n ≤ 64 }
        ensures { self.new ≡ self.old ++ filled n more.now }
    {
        let end = self.bytes.len() + n;
        self.append(more);
        self.bytes.resize(end, 0).unwrap();
    }

    pub fn into_bytes(self) -> Bytes
        ensures { result ≡ self }
    {
        let Reply { bytes } = self;
        Bytes::from_vec(bytes)
    }
}
