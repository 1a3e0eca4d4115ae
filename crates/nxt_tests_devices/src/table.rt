// What every program here has: a cluster for each kind of call, numbers and texts. Each result is 9 at the start, and what a
// button tells is 8.

use nxt_images::{ARRAY, CLUSTER, EMPTY, Image, NO_DEFAULT, SLONG, Statement, UBYTE, op};
use nxt_types::words::LEFT_OUT;

// The table's entries.

/// Holds -1.
pub(crate) const MINUS_ONE: u16 = 0;

/// Holds -2.
pub(crate) const MINUS_TWO: u16 = 1;

/// Holds 70000.
pub(crate) const HUGE: u16 = 2;

/// A number of any use.
pub(crate) const N: u16 = 3;

/// `hi` and a zero.
pub(crate) const HI: u16 = 4;

/// `abc`, without a zero.
pub(crate) const ABC: u16 = 6;

/// `a`, a zero, `b` and a zero.
pub(crate) const SPLIT: u16 = 8;

/// 64 letters `a`, a `b` and a zero.
pub(crate) const LONG: u16 = 10;

/// 58 letters `m` and a zero: the longest message.
pub(crate) const LONGEST: u16 = 12;

/// 59 letters `n` and a zero.
pub(crate) const TOO_LONG: u16 = 14;

/// A list that fills the pool.
pub(crate) const FILLING: u16 = 16;

/// For SoundPlayTone.
pub(crate) const TONE: u16 = 18;

pub(crate) const TONE_FREQUENCY: u16 = 20;

pub(crate) const TONE_DURATION: u16 = 21;

pub(crate) const TONE_LOOP: u16 = 22;

pub(crate) const TONE_LEVEL: u16 = 23;

/// For SoundGetState.
pub(crate) const HEARD: u16 = 24;

/// For SoundSetState.
pub(crate) const SOUND: u16 = 27;

pub(crate) const SOUND_STATE: u16 = 29;

pub(crate) const SOUND_FLAGS: u16 = 30;

/// For DrawText.
pub(crate) const NOTE: u16 = 31;

pub(crate) const NOTE_X: u16 = 34;

pub(crate) const NOTE_Y: u16 = 35;

pub(crate) const NOTE_TEXT: u16 = 36;

pub(crate) const NOTE_OPTIONS: u16 = 38;

/// For DrawPoint.
pub(crate) const POINT: u16 = 39;

pub(crate) const POINT_X: u16 = 42;

pub(crate) const POINT_Y: u16 = 43;

pub(crate) const POINT_OPTIONS: u16 = 44;

/// For DrawLine.
pub(crate) const LINE: u16 = 45;

pub(crate) const LINE_X: u16 = 48;

pub(crate) const LINE_Y: u16 = 49;

pub(crate) const LINE_END_X: u16 = 51;

pub(crate) const LINE_END_Y: u16 = 52;

pub(crate) const LINE_OPTIONS: u16 = 53;

/// For DrawCircle.
pub(crate) const CIRCLE: u16 = 54;

pub(crate) const CIRCLE_X: u16 = 57;

pub(crate) const CIRCLE_Y: u16 = 58;

pub(crate) const CIRCLE_SIZE: u16 = 59;

pub(crate) const CIRCLE_OPTIONS: u16 = 60;

/// For DrawRect.
pub(crate) const RECT: u16 = 61;

pub(crate) const RECT_X: u16 = 64;

pub(crate) const RECT_Y: u16 = 65;

pub(crate) const RECT_WIDTH: u16 = 67;

pub(crate) const RECT_HEIGHT: u16 = 68;

pub(crate) const RECT_OPTIONS: u16 = 69;

/// For SetScreenMode.
pub(crate) const SCREEN: u16 = 70;

pub(crate) const SCREEN_MODE: u16 = 72;

/// For ReadButton.
pub(crate) const BUTTON: u16 = 73;

pub(crate) const BUTTON_INDEX: u16 = 75;

pub(crate) const BUTTON_RESET: u16 = 78;

/// For RandomNumber, GetStartTick and KeepAlive.
pub(crate) const LUCK: u16 = 79;

/// Another one.
pub(crate) const MORE_LUCK: u16 = 81;

/// For MessageWrite.
pub(crate) const POST: u16 = 83;

pub(crate) const POST_BOX: u16 = 85;

pub(crate) const POST_MESSAGE: u16 = 86;

/// For MessageRead.
pub(crate) const MAIL: u16 = 88;

pub(crate) const MAIL_BOX: u16 = 90;

pub(crate) const MAIL_REMOVE: u16 = 91;

pub(crate) const MAIL_MESSAGE: u16 = 92;

/// Another one.
pub(crate) const MORE_MAIL: u16 = 94;

pub(crate) const MORE_MAIL_BOX: u16 = 96;

pub(crate) const MORE_MAIL_REMOVE: u16 = 97;

pub(crate) const MORE_MAIL_MESSAGE: u16 = 98;

/// The table and the data of every program here.
pub(crate) static TABLE: Image<'static> = Image {
    entries: &[
        (SLONG, 0, 0),
        (SLONG, 0, 4),
        (SLONG, 0, 8),
        (SLONG, NO_DEFAULT, 12),
        (ARRAY, 0, 16),
        (UBYTE, 0, 0),
        (ARRAY, 0, 18),
        (UBYTE, 0, 0),
        (ARRAY, 0, 20),
        (UBYTE, 0, 0),
        (ARRAY, 0, 22),
        (UBYTE, 0, 0),
        (ARRAY, 0, 24),
        (UBYTE, 0, 0),
        (ARRAY, 0, 26),
        (UBYTE, 0, 0),
        (ARRAY, NO_DEFAULT, 28),
        (UBYTE, 0, 0),
        (CLUSTER, 0, 5),
        (SLONG, 0, 30),
        (SLONG, NO_DEFAULT, 34),
        (SLONG, NO_DEFAULT, 38),
        (SLONG, NO_DEFAULT, 42),
        (SLONG, NO_DEFAULT, 46),
        (CLUSTER, 0, 2),
        (SLONG, 0, 50),
        (SLONG, 0, 54),
        (CLUSTER, 0, 3),
        (SLONG, 0, 58),
        (SLONG, NO_DEFAULT, 62),
        (SLONG, NO_DEFAULT, 66),
        (CLUSTER, 0, 4),
        (SLONG, 0, 70),
        (CLUSTER, 0, 2),
        (SLONG, NO_DEFAULT, 74),
        (SLONG, NO_DEFAULT, 78),
        (ARRAY, NO_DEFAULT, 82),
        (UBYTE, 0, 0),
        (SLONG, NO_DEFAULT, 84),
        (CLUSTER, 0, 3),
        (SLONG, 0, 88),
        (CLUSTER, 0, 2),
        (SLONG, NO_DEFAULT, 92),
        (SLONG, NO_DEFAULT, 96),
        (SLONG, NO_DEFAULT, 100),
        (CLUSTER, 0, 4),
        (SLONG, 0, 104),
        (CLUSTER, 0, 2),
        (SLONG, NO_DEFAULT, 108),
        (SLONG, NO_DEFAULT, 112),
        (CLUSTER, 0, 2),
        (SLONG, NO_DEFAULT, 116),
        (SLONG, NO_DEFAULT, 120),
        (SLONG, NO_DEFAULT, 124),
        (CLUSTER, 0, 4),
        (SLONG, 0, 128),
        (CLUSTER, 0, 2),
        (SLONG, NO_DEFAULT, 132),
        (SLONG, NO_DEFAULT, 136),
        (SLONG, NO_DEFAULT, 140),
        (SLONG, NO_DEFAULT, 144),
        (CLUSTER, 0, 4),
        (SLONG, 0, 148),
        (CLUSTER, 0, 2),
        (SLONG, NO_DEFAULT, 152),
        (SLONG, NO_DEFAULT, 156),
        (CLUSTER, 0, 2),
        (SLONG, NO_DEFAULT, 160),
        (SLONG, NO_DEFAULT, 164),
        (SLONG, NO_DEFAULT, 168),
        (CLUSTER, 0, 2),
        (SLONG, 0, 172),
        (SLONG, NO_DEFAULT, 176),
        (CLUSTER, 0, 5),
        (SLONG, 0, 180),
        (SLONG, NO_DEFAULT, 184),
        (SLONG, 0, 188),
        (SLONG, 0, 192),
        (SLONG, NO_DEFAULT, 196),
        (CLUSTER, 0, 1),
        (SLONG, 0, 200),
        (CLUSTER, 0, 1),
        (SLONG, 0, 204),
        (CLUSTER, 0, 3),
        (SLONG, 0, 208),
        (SLONG, NO_DEFAULT, 212),
        (ARRAY, NO_DEFAULT, 216),
        (UBYTE, 0, 0),
        (CLUSTER, 0, 4),
        (SLONG, 0, 218),
        (SLONG, NO_DEFAULT, 222),
        (SLONG, NO_DEFAULT, 226),
        (ARRAY, NO_DEFAULT, 230),
        (UBYTE, 0, 0),
        (CLUSTER, 0, 4),
        (SLONG, 0, 232),
        (SLONG, NO_DEFAULT, 236),
        (SLONG, NO_DEFAULT, 240),
        (ARRAY, NO_DEFAULT, 244),
        (UBYTE, 0, 0),
    ],
    static_size: 246,
    defaults: &[
        255, 255, 255, 255, 254, 255, 255, 255, 112, 17, 1, 0, 1, 0, 2, 0, 3, 0, 4, 0, 5, 0, 6, 0,
        9, 0, 0, 0, 9, 0, 0, 0, 9, 0, 0, 0, 9, 0, 0, 0, 9, 0, 0, 0, 9, 0, 0, 0, 9, 0, 0, 0, 9, 0,
        0, 0, 9, 0, 0, 0, 9, 0, 0, 0, 9, 0, 0, 0, 8, 0, 0, 0, 8, 0, 0, 0, 9, 0, 0, 0, 9, 0, 0, 0,
        9, 0, 0, 0, 9, 0, 0, 0, 9, 0, 0, 0,
    ],
    rows: &[
        (246, 10, 7),
        (316, 1, 3),
        (319, 1, 3),
        (322, 1, 4),
        (326, 1, 66),
        (392, 1, 59),
        (451, 1, 60),
    ],
    lists: b"hi\0abca\0b\0aaaaaaaaaaaaaaaaaaaaaaaaaaaaaaaaaaaaaaaaaaaaaaaaaaaaaaaaaaaaaaaab\0mmmmmmmmmmmmmmmmmmmmmmmmmmmmmmmmmmmmmmmmmmmmmmmmmmmmmmmmmm\0nnnnnnnnnnnnnnnnnnnnnnnnnnnnnnnnnnnnnnnnnnnnnnnnnnnnnnnnnnn\0",
    clumps: &[0],
    ..EMPTY
};

/// The end of a program.
pub(crate) const FINISH: Statement<'static> = &[op::FINCLUMP, LEFT_OUT, LEFT_OUT];
