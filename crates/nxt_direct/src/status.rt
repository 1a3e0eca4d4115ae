// Why a command is not done.

ghost use Rattle.std.specs.Prelude.{◌≡◌};
ghost use Rattle.nxt_direct.specs.Statuses.{status_number};

/// Why a command is not done, in the words of the LEGO MINDSTORMS NXT Bluetooth Developer Kit, Appendix 2 ("Error messages
/// back to the host").
#[derive(Clone, Copy)]
pub(crate) enum Status {
    /// "Specified mailbox queue is empty".
    MailboxEmpty = 0x40,
    /// "Request failed (i.e. specified file not found)".
    RequestFailed = 0xBD,
    /// "Unknown command opcode".
    UnknownCommand = 0xBE,
    /// "Insane packet": the telegram has another length than its command wants.
    InsanePacket = 0xBF,
    /// "Data contains out-of-range values".
    OutOfRange = 0xC0,
    /// "No active program".
    NoActiveProgram = 0xEC,
    /// "Illegal size specified".
    IllegalSize = 0xED,
    /// "Illegal mailbox queue ID specified".
    IllegalMailbox = 0xEE,
    /// "Bad input or output specified".
    BadPort = 0xF0,
    /// "Bad arguments".
    BadArguments = 0xFF,
}

impl Status {
    /// The byte of the reply.
    pub fn number(self) -> u8
        ensures { result ≡ status_number self }
    {
        self as u8
    }
}
