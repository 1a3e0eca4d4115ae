// The table of the system calls: numbers, names and the members of their clusters.

ghost use Rattle.std.specs.Prelude.{◌≡◌};
ghost use Rattle.nxt_types.specs.Calls.{a_row, call_row as row_of, call_number, call_name, cluster_fields, call_of, all_calls};
ghost use Rattle.nxt_types.specs.CallsSeen.{call_row_seen};

/// A system call (Executable File Specification, "SYSCALL").
#[derive(Clone, Copy, PartialEq, Eq, Debug)]
pub enum Call {
    PlayTone,
    GetSound,
    SetSound,
    DrawText,
    DrawPoint,
    DrawLine,
    DrawCircle,
    DrawRect,
    SetScreen,
    ReadButton,
    RandomNumber,
    StartTick,
    WriteMessage,
    ReadMessage,
    KeepAlive,
}

/// A member of a system call's cluster.
#[derive(Clone, Copy, PartialEq, Eq, Debug)]
pub enum Field {
    /// Any number.
    Number,
    /// A list of ubyte.
    Text,
    /// A group of two numbers.
    Place,
}

/// A row of the table of system calls (Executable File Specification, "SYSCALL").
#[derive(Clone, Copy)]
pub struct CallRow {
    pub number: u16,
    /// The name in NBC texts and listings.
    pub name: &'static str,
    /// The members of its cluster.
    pub fields: &'static [Field],
}

fn row(number: u16, name: &'static str, fields: &'static [Field]) -> CallRow
    ensures { call_row_seen result ≡ a_row number name.now fields.now }
{
    CallRow {
        number,
        name,
        fields,
    }
}

/// Every system call, in order of number.
pub const ALL_CALLS: [Call; 15] = [
    Call::PlayTone,
    Call::GetSound,
    Call::SetSound,
    Call::DrawText,
    Call::DrawPoint,
    Call::DrawLine,
    Call::DrawCircle,
    Call::DrawRect,
    Call::SetScreen,
    Call::ReadButton,
    Call::RandomNumber,
    Call::StartTick,
    Call::WriteMessage,
    Call::ReadMessage,
    Call::KeepAlive,
];

impl Call {
    /// Its row of the table of system calls.
    pub fn row(self) -> CallRow
        ensures { call_row_seen result ≡ row_of self }
    {
        use Field::{Number, Place, Text};
        match self {
            Call::PlayTone => row(
                10,
                "SoundPlayTone",
                &[Number, Number, Number, Number, Number],
            ),
            Call::GetSound => row(11, "SoundGetState", &[Number, Number]),
            Call::SetSound => row(12, "SoundSetState", &[Number, Number, Number]),
            Call::DrawText => row(13, "DrawText", &[Number, Place, Text, Number]),
            Call::DrawPoint => row(14, "DrawPoint", &[Number, Place, Number]),
            Call::DrawLine => row(15, "DrawLine", &[Number, Place, Place, Number]),
            Call::DrawCircle => row(16, "DrawCircle", &[Number, Place, Number, Number]),
            Call::DrawRect => row(17, "DrawRect", &[Number, Place, Place, Number]),
            Call::SetScreen => row(19, "SetScreenMode", &[Number, Number]),
            Call::ReadButton => row(20, "ReadButton", &[Number, Number, Number, Number, Number]),
            Call::RandomNumber => row(24, "RandomNumber", &[Number]),
            Call::StartTick => row(25, "GetStartTick", &[Number]),
            Call::WriteMessage => row(26, "MessageWrite", &[Number, Number, Text]),
            Call::ReadMessage => row(27, "MessageRead", &[Number, Number, Number, Text]),
            Call::KeepAlive => row(31, "KeepAlive", &[Number]),
        }
    }

    /// The number that a statement names it by.
    pub fn number(self) -> u16
        ensures { result ≡ call_number self }
    {
        self.row().number
    }

    /// The call of a number.
    pub fn from_number(number: u16) -> Option<Call>
        ensures { result ≡ call_of number }
    {
        ALL_CALLS
            .iter()
            .copied()
            .find(|call| call.number() == number)
    }

    /// The name in NBC texts and listings.
    pub fn name(self) -> &'static str
        ensures { result.now ≡ call_name self }
    {
        self.row().name
    }

    /// The members of its cluster.
    pub fn fields(self) -> &'static [Field]
        ensures { result.now ≡ cluster_fields self }
    {
        self.row().fields
    }
}
