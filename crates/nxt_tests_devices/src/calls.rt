// Each system call at its edges. What it stores and tells is worked out from its meaning.

use crate::running::{Case, Due, Outside, check_all};
use crate::table::{
    ABC, BUTTON, BUTTON_INDEX, BUTTON_RESET, CIRCLE, CIRCLE_OPTIONS, CIRCLE_SIZE, CIRCLE_X,
    CIRCLE_Y, FINISH, HEARD, HI, HUGE, LINE, LINE_END_X, LINE_END_Y, LINE_OPTIONS, LINE_X, LINE_Y,
    LONG, LUCK, MINUS_ONE, MINUS_TWO, MORE_LUCK, NOTE, NOTE_OPTIONS, NOTE_TEXT, NOTE_X, NOTE_Y,
    POINT, POINT_OPTIONS, POINT_X, POINT_Y, RECT, RECT_HEIGHT, RECT_OPTIONS, RECT_WIDTH, RECT_X,
    RECT_Y, SCREEN, SCREEN_MODE, SOUND, SOUND_FLAGS, SOUND_STATE, SPLIT, TABLE, TONE,
    TONE_DURATION, TONE_FREQUENCY, TONE_LEVEL, TONE_LOOP,
};
use nxt_images::op;
use std::test::Fail;

// The numbers of the calls.

const PLAY_TONE: u16 = 10;

const GET_SOUND: u16 = 11;

const SET_SOUND: u16 = 12;

const DRAW_TEXT: u16 = 13;

const DRAW_POINT: u16 = 14;

const DRAW_LINE: u16 = 15;

const DRAW_CIRCLE: u16 = 16;

const DRAW_RECT: u16 = 17;

const SET_SCREEN: u16 = 19;

const READ_BUTTON: u16 = 20;

const RANDOM_NUMBER: u16 = 24;

const START_TICK: u16 = 25;

const KEEP_ALIVE: u16 = 31;

static SOUND_CALLS: [Case<'static>; 7] = [
    (
        "a tone",
        &[
            &[op::SET, TONE_FREQUENCY, 440],
            &[op::SET, TONE_DURATION, 1000],
            &[op::SET, TONE_LEVEL, 3],
            &[op::SYSCALL, PLAY_TONE, TONE],
            &[op::SYSCALL, GET_SOUND, HEARD],
            FINISH,
        ],
        &[],
        Due {
            lines: "tone,440,1000,0,3\nstop,finished\n",
            after: &[(TONE, &[0, 440, 1000, 0, 3]), (HEARD, &[3, 1])],
        },
    ),
    (
        "its numbers are words",
        &[
            &[op::MOV, TONE_FREQUENCY, MINUS_ONE],
            &[op::MOV, TONE_DURATION, MINUS_TWO],
            &[op::SET, TONE_LOOP, 1],
            &[op::MOV, TONE_LEVEL, MINUS_TWO],
            &[op::SYSCALL, PLAY_TONE, TONE],
            FINISH,
        ],
        &[],
        Due {
            lines: "tone,4294967295,4294967294,1,4294967294\nstop,finished\n",
            after: &[(TONE, &[0, -1, -2, 1, -2])],
        },
    ),
    (
        "no sound at the start",
        &[&[op::SYSCALL, GET_SOUND, HEARD], FINISH],
        &[],
        Due {
            lines: "stop,finished\n",
            after: &[(HEARD, &[0, 0])],
        },
    ),
    (
        "a state and flags",
        &[
            &[op::SET, SOUND_STATE, 2],
            &[op::SET, SOUND_FLAGS, 1],
            &[op::SYSCALL, SET_SOUND, SOUND],
            &[op::SYSCALL, GET_SOUND, HEARD],
            FINISH,
        ],
        &[],
        Due {
            lines: "stop,finished\n",
            after: &[(SOUND, &[2, 2, 1]), (HEARD, &[2, 1])],
        },
    ),
    (
        "state 4 is silence",
        &[
            &[op::SET, TONE_FREQUENCY, 200],
            &[op::SYSCALL, PLAY_TONE, TONE],
            &[op::SET, SOUND_STATE, 4],
            &[op::SET, SOUND_FLAGS, 1],
            &[op::SYSCALL, SET_SOUND, SOUND],
            &[op::SYSCALL, GET_SOUND, HEARD],
            FINISH,
        ],
        &[],
        Due {
            lines: "tone,200,0,0,0\nquiet\nstop,finished\n",
            after: &[(SOUND, &[0, 4, 1]), (HEARD, &[0, 0])],
        },
    ),
    (
        "260 is state 4",
        &[
            &[op::SET, SOUND_STATE, 260],
            &[op::SYSCALL, SET_SOUND, SOUND],
            FINISH,
        ],
        &[],
        Due {
            lines: "quiet\nstop,finished\n",
            after: &[(SOUND, &[0, 260, 0])],
        },
    ),
    (
        "259 is state 3, and -1 are the flags 255",
        &[
            &[op::SET, SOUND_STATE, 259],
            &[op::MOV, SOUND_FLAGS, MINUS_ONE],
            &[op::SYSCALL, SET_SOUND, SOUND],
            &[op::SYSCALL, GET_SOUND, HEARD],
            FINISH,
        ],
        &[],
        Due {
            lines: "stop,finished\n",
            after: &[(SOUND, &[3, 259, -1]), (HEARD, &[3, 255])],
        },
    ),
];

#[test]
fn sound_calls(rt: HostRuntime) -> Result<(), Fail> {
    check_all(&rt, rt.alloc(), &TABLE, &SOUND_CALLS)
}

static DISPLAY_CALLS: [Case<'static>; 10] = [
    (
        "a text",
        &[
            &[op::SET, NOTE_X, 3],
            &[op::SET, NOTE_Y, 56],
            &[op::MOV, NOTE_TEXT, HI],
            &[op::SET, NOTE_OPTIONS, 1],
            &[op::SYSCALL, DRAW_TEXT, NOTE],
            FINISH,
        ],
        &[],
        Due {
            lines: "text,3,56,1,6869\nstop,finished\n",
            after: &[(NOTE, &[0, 3, 56, 3, 104, 105, 0, 1])],
        },
    ),
    (
        "an empty text",
        &[
            &[op::MOV, NOTE_X, MINUS_ONE],
            &[op::MOV, NOTE_Y, MINUS_TWO],
            &[op::MOV, NOTE_OPTIONS, MINUS_ONE],
            &[op::SYSCALL, DRAW_TEXT, NOTE],
            FINISH,
        ],
        &[],
        Due {
            lines: "text,-1,-2,-1,\nstop,finished\n",
            after: &[(NOTE, &[0, -1, -2, 0, -1])],
        },
    ),
    (
        "a text without a zero",
        &[
            &[op::MOV, NOTE_TEXT, ABC],
            &[op::SYSCALL, DRAW_TEXT, NOTE],
            FINISH,
        ],
        &[],
        Due {
            lines: "text,0,0,0,616263\nstop,finished\n",
            after: &[(NOTE, &[0, 0, 0, 3, 97, 98, 99, 0])],
        },
    ),
    (
        "a text is shown up to its first zero",
        &[
            &[op::MOV, NOTE_TEXT, SPLIT],
            &[op::SYSCALL, DRAW_TEXT, NOTE],
            FINISH,
        ],
        &[],
        Due {
            lines: "text,0,0,0,61\nstop,finished\n",
            after: &[(NOTE, &[0, 0, 0, 4, 97, 0, 98, 0, 0])],
        },
    ),
    (
        "64 letters of a text are shown",
        &[
            &[op::MOV, NOTE_TEXT, LONG],
            &[op::SYSCALL, DRAW_TEXT, NOTE],
            FINISH,
        ],
        &[],
        Due {
            lines: "text,0,0,0,61616161616161616161616161616161616161616161616161616161616161616161616161616161616161616161616161616161616161616161616161616161\nstop,finished\n",
            after: &[],
        },
    ),
    (
        "a point",
        &[
            &[op::MOV, POINT_X, MINUS_TWO],
            &[op::MOV, POINT_Y, HUGE],
            &[op::SET, POINT_OPTIONS, 2],
            &[op::SYSCALL, DRAW_POINT, POINT],
            FINISH,
        ],
        &[],
        Due {
            lines: "point,-2,70000,2\nstop,finished\n",
            after: &[(POINT, &[0, -2, 70000, 2])],
        },
    ),
    (
        "a line",
        &[
            &[op::SET, LINE_X, 1],
            &[op::SET, LINE_Y, 2],
            &[op::SET, LINE_END_X, 3],
            &[op::SET, LINE_END_Y, 4],
            &[op::SET, LINE_OPTIONS, 5],
            &[op::SYSCALL, DRAW_LINE, LINE],
            FINISH,
        ],
        &[],
        Due {
            lines: "line,1,2,3,4,5\nstop,finished\n",
            after: &[(LINE, &[0, 1, 2, 3, 4, 5])],
        },
    ),
    (
        "a circle",
        &[
            &[op::SET, CIRCLE_X, 50],
            &[op::SET, CIRCLE_Y, 32],
            &[op::SET, CIRCLE_SIZE, 10],
            &[op::SET, CIRCLE_OPTIONS, 1],
            &[op::SYSCALL, DRAW_CIRCLE, CIRCLE],
            FINISH,
        ],
        &[],
        Due {
            lines: "circle,50,32,10,1\nstop,finished\n",
            after: &[(CIRCLE, &[0, 50, 32, 10, 1])],
        },
    ),
    (
        "a rectangle",
        &[
            &[op::SET, RECT_X, 1],
            &[op::SET, RECT_Y, 2],
            &[op::SET, RECT_WIDTH, 30],
            &[op::SET, RECT_HEIGHT, 20],
            &[op::SET, RECT_OPTIONS, 3],
            &[op::SYSCALL, DRAW_RECT, RECT],
            FINISH,
        ],
        &[],
        Due {
            lines: "rect,1,2,30,20,3\nstop,finished\n",
            after: &[(RECT, &[0, 1, 2, 30, 20, 3])],
        },
    ),
    (
        "the screen's mode",
        &[
            &[op::MOV, SCREEN_MODE, MINUS_TWO],
            &[op::SYSCALL, SET_SCREEN, SCREEN],
            FINISH,
        ],
        &[],
        Due {
            lines: "screen,-2\nstop,finished\n",
            after: &[(SCREEN, &[0, -2])],
        },
    ),
];

#[test]
fn display_calls(rt: HostRuntime) -> Result<(), Fail> {
    check_all(&rt, rt.alloc(), &TABLE, &DISPLAY_CALLS)
}

static BUTTON_CALLS: [Case<'static>; 6] = [
    (
        "a button that is pressed",
        &[
            &[op::SET, BUTTON_INDEX, 1],
            &[op::SYSCALL, READ_BUTTON, BUTTON],
            &[op::SYSCALL, READ_BUTTON, BUTTON],
            FINISH,
        ],
        &[Outside::Button(1, 1, 5)],
        Due {
            lines: "stop,finished\n",
            after: &[(BUTTON, &[0, 1, 1, 5, 0])],
        },
    ),
    (
        "its count, made 0 when it was read",
        &[
            &[op::SET, BUTTON_INDEX, 1],
            &[op::SET, BUTTON_RESET, 1],
            &[op::SYSCALL, READ_BUTTON, BUTTON],
            FINISH,
        ],
        &[Outside::Button(1, 1, 5)],
        Due {
            lines: "stop,finished\n",
            after: &[(BUTTON, &[0, 1, 1, 5, 1])],
        },
    ),
    (
        "and read again",
        &[
            &[op::SET, BUTTON_INDEX, 1],
            &[op::SET, BUTTON_RESET, 256],
            &[op::SYSCALL, READ_BUTTON, BUTTON],
            &[op::SYSCALL, READ_BUTTON, BUTTON],
            FINISH,
        ],
        &[Outside::Button(1, 1, 5)],
        Due {
            lines: "stop,finished\n",
            after: &[(BUTTON, &[0, 1, 1, 0, 256])],
        },
    ),
    (
        "another button",
        &[
            &[op::SET, BUTTON_INDEX, 3],
            &[op::SYSCALL, READ_BUTTON, BUTTON],
            FINISH,
        ],
        &[Outside::Button(1, 1, 5), Outside::Button(4, 1, 6)],
        Due {
            lines: "stop,finished\n",
            after: &[(BUTTON, &[0, 3, 0, 0, 0])],
        },
    ),
    (
        "no such button",
        &[
            &[op::SET, BUTTON_INDEX, 4],
            &[op::SET, BUTTON_RESET, 1],
            &[op::SYSCALL, READ_BUTTON, BUTTON],
            FINISH,
        ],
        &[Outside::Button(0, 1, 5)],
        Due {
            lines: "stop,finished\n",
            after: &[(BUTTON, &[-16, 4, 8, 8, 1])],
        },
    ),
    (
        "an index is a word",
        &[
            &[op::MOV, BUTTON_INDEX, MINUS_ONE],
            &[op::SYSCALL, READ_BUTTON, BUTTON],
            FINISH,
        ],
        &[],
        Due {
            lines: "stop,finished\n",
            after: &[(BUTTON, &[-16, -1, 8, 8, 0])],
        },
    ),
];

#[test]
fn button_calls(rt: HostRuntime) -> Result<(), Fail> {
    check_all(&rt, rt.alloc(), &TABLE, &BUTTON_CALLS)
}

static NUMBER_CALLS: [Case<'static>; 6] = [
    (
        "no random word",
        &[&[op::SYSCALL, RANDOM_NUMBER, LUCK], FINISH],
        &[],
        Due {
            lines: "stop,finished\n",
            after: &[(LUCK, &[0])],
        },
    ),
    (
        "random words come in their order",
        &[
            &[op::SYSCALL, RANDOM_NUMBER, LUCK],
            &[op::SYSCALL, RANDOM_NUMBER, MORE_LUCK],
            FINISH,
        ],
        &[Outside::Random(5), Outside::Random(-3)],
        Due {
            lines: "stop,finished\n",
            after: &[(LUCK, &[5]), (MORE_LUCK, &[-3])],
        },
    ),
    (
        "each once",
        &[
            &[op::SYSCALL, RANDOM_NUMBER, LUCK],
            &[op::SYSCALL, RANDOM_NUMBER, LUCK],
            FINISH,
        ],
        &[Outside::Random(5)],
        Due {
            lines: "stop,finished\n",
            after: &[(LUCK, &[0])],
        },
    ),
    (
        "of 17 random words the oldest is lost",
        &[&[op::SYSCALL, RANDOM_NUMBER, LUCK], FINISH],
        &[
            Outside::Random(1),
            Outside::Random(2),
            Outside::Random(3),
            Outside::Random(4),
            Outside::Random(5),
            Outside::Random(6),
            Outside::Random(7),
            Outside::Random(8),
            Outside::Random(9),
            Outside::Random(10),
            Outside::Random(11),
            Outside::Random(12),
            Outside::Random(13),
            Outside::Random(14),
            Outside::Random(15),
            Outside::Random(16),
            Outside::Random(17),
        ],
        Due {
            lines: "stop,finished\n",
            after: &[(LUCK, &[2])],
        },
    ),
    (
        "the start",
        &[&[op::SYSCALL, START_TICK, LUCK], FINISH],
        &[],
        Due {
            lines: "stop,finished\n",
            after: &[(LUCK, &[0])],
        },
    ),
    (
        "ten minutes",
        &[&[op::SYSCALL, KEEP_ALIVE, LUCK], FINISH],
        &[],
        Due {
            lines: "stop,finished\n",
            after: &[(LUCK, &[600000])],
        },
    ),
];

#[test]
fn number_calls(rt: HostRuntime) -> Result<(), Fail> {
    check_all(&rt, rt.alloc(), &TABLE, &NUMBER_CALLS)
}
