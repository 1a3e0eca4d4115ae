// The names of NXTDefs.h.

ghost use Rattle.std.specs.Prelude.{◌≡◌, ◌||◌, ◌++◌, bytes_eq, find, is_some, map};
ghost use Rattle.std.specs.List.{list_any};
ghost use Rattle.nxt_types.specs.Calls.{all_calls, call_name};
ghost use Rattle.nxt_model.specs.Nbc.Header.{call_names, constants, constant_named, is_header_struct};
ghost use Rattle.nxt_nbc_names.specs.HeaderSeen.{constant_seen, header_row, header_struct_seen};

use nxt_model::nbc::{NbcBase, NbcType};
use nxt_types::calls::{ALL_CALLS, Call};
use nxt_types::kind::Kind;

/// A number of NXTDefs.h, by its name.
type Constant = (&'static str, u16);

/// The numbers that aren't system calls.
const CONSTANTS: [Constant; 80] = [
    ("TRUE", 1),
    ("FALSE", 0),
    ("NA", 65535),
    ("OUT_A", 0),
    ("OUT_B", 1),
    ("OUT_C", 2),
    ("IN_1", 0),
    ("IN_2", 1),
    ("IN_3", 2),
    ("IN_4", 3),
    ("Type", 0),
    ("InputMode", 1),
    ("RawValue", 2),
    ("NormalizedValue", 3),
    ("ScaledValue", 4),
    ("InvalidData", 5),
    ("UpdateFlags", 0),
    ("OutputMode", 1),
    ("Power", 2),
    ("ActualSpeed", 3),
    ("TachoCount", 4),
    ("TachoLimit", 5),
    ("RunState", 6),
    ("TurnRatio", 7),
    ("RegMode", 8),
    ("Overload", 9),
    ("RegPValue", 10),
    ("RegIValue", 11),
    ("RegDValue", 12),
    ("BlockTachoCount", 13),
    ("RotationCount", 14),
    ("UF_UPDATE_MODE", 1),
    ("UF_UPDATE_SPEED", 2),
    ("UF_UPDATE_TACHO_LIMIT", 4),
    ("UF_UPDATE_RESET_COUNT", 8),
    ("UF_UPDATE_PID_VALUES", 16),
    ("UF_UPDATE_RESET_BLOCK_COUNT", 32),
    ("UF_UPDATE_RESET_ROTATION_COUNT", 64),
    ("OUT_MODE_COAST", 0),
    ("OUT_MODE_MOTORON", 1),
    ("OUT_MODE_BRAKE", 2),
    ("OUT_MODE_REGULATED", 4),
    ("OUT_RUNSTATE_IDLE", 0),
    ("OUT_RUNSTATE_RAMPUP", 16),
    ("OUT_RUNSTATE_RUNNING", 32),
    ("OUT_RUNSTATE_RAMPDOWN", 64),
    ("OUT_REGMODE_IDLE", 0),
    ("OUT_REGMODE_SPEED", 1),
    ("OUT_REGMODE_SYNC", 2),
    ("IN_TYPE_NO_SENSOR", 0),
    ("IN_TYPE_SWITCH", 1),
    ("IN_TYPE_LIGHT_ACTIVE", 5),
    ("IN_TYPE_LIGHT_INACTIVE", 6),
    ("IN_TYPE_SOUND_DB", 7),
    ("IN_TYPE_SOUND_DBA", 8),
    ("IN_MODE_RAW", 0),
    ("IN_MODE_BOOLEAN", 32),
    ("IN_MODE_PCTFULLSCALE", 128),
    ("LCD_LINE1", 56),
    ("LCD_LINE2", 48),
    ("LCD_LINE3", 40),
    ("LCD_LINE4", 32),
    ("LCD_LINE5", 24),
    ("LCD_LINE6", 16),
    ("LCD_LINE7", 8),
    ("LCD_LINE8", 0),
    ("BTNEXIT", 0),
    ("BTNRIGHT", 1),
    ("BTNLEFT", 2),
    ("BTNCENTER", 3),
    ("MAILBOX1", 0),
    ("MAILBOX2", 1),
    ("MAILBOX3", 2),
    ("MAILBOX4", 3),
    ("MAILBOX5", 4),
    ("MAILBOX6", 5),
    ("MAILBOX7", 6),
    ("MAILBOX8", 7),
    ("MAILBOX9", 8),
    ("MAILBOX10", 9),
];

/// The number that a name of NXTDefs.h stands for.
pub fn constant(name: &[u8]) -> Option<u16>
    ensures { result ≡ constant_named name.now }
{
    match constant_in(plain_constants(), name) {
        Some(constant) => Some(constant.1),
        None => match call_named(name) {
            Some(call) => Some(call.number()),
            None => None,
        },
    }
}

// The numbers that aren't system calls.
fn plain_constants() -> &'static [Constant]
    ensures { map constant_seen result.now ++ call_names ≡ constants }
{
    &CONSTANTS
}

// The first of some numbers with a name.
fn constant_in(rows: &[Constant], name: &[u8]) -> Option<Constant>
    ensures { result ≡ find (λ c. bytes_eq c.0.now name.now) rows.now }
{
    rows.iter()
        .copied()
        .find(|constant| constant.0.as_bytes() == name)
}

// The system call with a name.
fn call_named(name: &[u8]) -> Option<Call>
    ensures { result ≡ find (λ c. bytes_eq (call_name c) name.now) all_calls }
{
    ALL_CALLS
        .iter()
        .copied()
        .find(|call| call.name().as_bytes() == name)
}

// ---- structs

/// The types of the members of the structs of NXTDefs.h.
const BYTE: NbcType = NbcType {
    base: NbcBase::Number(Kind::Ubyte),
    arrays: 0,
};

const SBYTE: NbcType = NbcType {
    base: NbcBase::Number(Kind::Sbyte),
    arrays: 0,
};

const WORD: NbcType = NbcType {
    base: NbcBase::Number(Kind::Uword),
    arrays: 0,
};

const SWORD: NbcType = NbcType {
    base: NbcBase::Number(Kind::Sword),
    arrays: 0,
};

const DWORD: NbcType = NbcType {
    base: NbcBase::Number(Kind::Ulong),
    arrays: 0,
};

/// A list of bytes.
const TEXT: NbcType = NbcType {
    base: NbcBase::Number(Kind::Ubyte),
    arrays: 1,
};

/// `TLocation` and `TSize`, by their positions among the structs of NXTDefs.h.
const LOCATION: NbcType = NbcType {
    base: NbcBase::Struct(0),
    arrays: 0,
};

const SIZE: NbcType = NbcType {
    base: NbcBase::Struct(1),
    arrays: 0,
};

/// How many structs NXTDefs.h has.
pub const HEADER_STRUCTS: usize = 17;

/// A struct of NXTDefs.h: its name, and its members with their types, as it stands behind no structs but those of NXTDefs.h.
#[derive(Clone, Copy)]
pub struct HeaderStruct {
    pub name: &'static str,
    pub members: &'static [(&'static str, NbcType)],
}

/// The structs of NXTDefs.h.
const STRUCTS: [HeaderStruct; HEADER_STRUCTS] = [
    HeaderStruct {
        name: "TLocation",
        members: &[("X", SWORD), ("Y", SWORD)],
    },
    HeaderStruct {
        name: "TSize",
        members: &[("Width", SWORD), ("Height", SWORD)],
    },
    HeaderStruct {
        name: "TSoundPlayTone",
        members: &[
            ("Result", SBYTE),
            ("Frequency", WORD),
            ("Duration", WORD),
            ("Loop", BYTE),
            ("SoundLevel", BYTE),
        ],
    },
    HeaderStruct {
        name: "TSoundGetState",
        members: &[("State", BYTE), ("Flags", BYTE)],
    },
    HeaderStruct {
        name: "TSoundSetState",
        members: &[("Result", BYTE), ("State", BYTE), ("Flags", BYTE)],
    },
    HeaderStruct {
        name: "TDrawText",
        members: &[
            ("Result", SBYTE),
            ("Location", LOCATION),
            ("Text", TEXT),
            ("Options", DWORD),
        ],
    },
    HeaderStruct {
        name: "TDrawPoint",
        members: &[
            ("Result", SBYTE),
            ("Location", LOCATION),
            ("Options", DWORD),
        ],
    },
    HeaderStruct {
        name: "TDrawLine",
        members: &[
            ("Result", SBYTE),
            ("StartLoc", LOCATION),
            ("EndLoc", LOCATION),
            ("Options", DWORD),
        ],
    },
    HeaderStruct {
        name: "TDrawCircle",
        members: &[
            ("Result", SBYTE),
            ("Center", LOCATION),
            ("Size", BYTE),
            ("Options", DWORD),
        ],
    },
    HeaderStruct {
        name: "TDrawRect",
        members: &[
            ("Result", SBYTE),
            ("Location", LOCATION),
            ("Size", SIZE),
            ("Options", DWORD),
        ],
    },
    HeaderStruct {
        name: "TSetScreenMode",
        members: &[("Result", SBYTE), ("ScreenMode", DWORD)],
    },
    HeaderStruct {
        name: "TReadButton",
        members: &[
            ("Result", SBYTE),
            ("Index", BYTE),
            ("Pressed", BYTE),
            ("Count", BYTE),
            ("Reset", BYTE),
        ],
    },
    HeaderStruct {
        name: "TRandomNumber",
        members: &[("Result", SWORD)],
    },
    HeaderStruct {
        name: "TGetStartTick",
        members: &[("Result", DWORD)],
    },
    HeaderStruct {
        name: "TMessageWrite",
        members: &[("Result", SBYTE), ("QueueID", BYTE), ("Message", TEXT)],
    },
    HeaderStruct {
        name: "TMessageRead",
        members: &[
            ("Result", SBYTE),
            ("QueueID", BYTE),
            ("Remove", BYTE),
            ("Message", TEXT),
        ],
    },
    HeaderStruct {
        name: "TKeepAlive",
        members: &[("Result", DWORD)],
    },
];

/// The struct of NXTDefs.h at a position below 17; the last one at each other.
pub fn header_struct(position: usize) -> HeaderStruct
    ensures { header_struct_seen result ≡ header_row position }
{
    match STRUCTS.get(position) {
        Some(found) => *found,
        None => STRUCTS[HEADER_STRUCTS - 1],
    }
}

/// Whether a name is that of a struct of NXTDefs.h.
pub fn is_header_struct(name: &[u8]) -> bool
    ensures { result ≡ is_header_struct name.now }
{
    has_struct(&STRUCTS, name)
}

fn has_struct(structs: &[HeaderStruct], name: &[u8]) -> bool
    ensures { result ≡ list_any (λ s. bytes_eq s.name.now name.now) structs.now }
{
    structs.iter().any(|s| s.name.as_bytes() == name)
}

/// Whether NXTDefs.h has a name, for a number or for a struct.
pub fn is_header_name(name: &[u8]) -> bool
    ensures { result ≡ (is_some (constant_named name.now) || is_header_struct name.now) }
{
    constant(name).is_some() || is_header_struct(name)
}
