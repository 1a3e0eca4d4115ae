// How a command ends.

ghost use Rattle.std.specs.Prelude.{◌≡◌};
ghost use Rattle.nxt_report.specs.Statuses.{exit_number};

/// How a command ends, in the order of the exit statuses.
#[derive(Clone, Copy, PartialEq, Eq, Debug)]
pub enum Status {
    /// The report is whole.
    Done,
    /// The program breaks a rule, which the report tells.
    Refused,
    /// The words have no form.
    Words,
    /// The program's or the script's source failed.
    ReadFault,
    /// The sink of the report, or of an image, failed.
    WriteFault,
    NoMemory,
    /// A row of the script is bad, which the report tells at its end.
    ScriptRefused,
    /// The program or the script is longer than its limit.
    TooLarge,
}

impl Status {
    /// The number with which the program ends.
    pub fn exit_number(self) -> u8
        ensures { result ≡ exit_number self }
    {
        match self {
            Status::Done => 0,
            Status::Refused => 1,
            Status::Words => 2,
            Status::ReadFault => 3,
            Status::WriteFault => 4,
            Status::NoMemory => 5,
            Status::ScriptRefused => 6,
            Status::TooLarge => 7,
        }
    }
}
