// Messages, written and read by the program itself. What it stores is worked out from the meaning of each call.

use crate::running::{Case, Due, check_all};
use crate::table::{
    ABC, FILLING, FINISH, HI, LONGEST, MAIL, MAIL_BOX, MAIL_MESSAGE, MAIL_REMOVE, MINUS_ONE,
    MORE_MAIL, MORE_MAIL_BOX, MORE_MAIL_MESSAGE, N, POST, POST_BOX, POST_MESSAGE, SPLIT, TABLE,
    TOO_LONG,
};
use nxt_images::op;
use std::test::Fail;

const WRITE: u16 = 26;

const READ: u16 = 27;

static MESSAGES: [Case<'static>; 14] = [
    (
        "a message is written and taken out",
        &[
            &[op::SET, POST_BOX, 3],
            &[op::MOV, POST_MESSAGE, HI],
            &[op::SYSCALL, WRITE, POST],
            &[op::SET, MAIL_BOX, 3],
            &[op::SET, MAIL_REMOVE, 1],
            &[op::SYSCALL, READ, MAIL],
            &[op::MOV, MORE_MAIL, MAIL],
            &[op::MOV, MORE_MAIL_MESSAGE, ABC],
            &[op::SYSCALL, READ, MORE_MAIL],
            FINISH,
        ],
        &[],
        Due {
            lines: "stop,finished\n",
            after: &[
                (POST, &[0, 3, 3, 104, 105, 0]),
                (MAIL, &[0, 3, 1, 3, 104, 105, 0]),
                (MORE_MAIL, &[64, 3, 1, 1, 0]),
            ],
        },
    ),
    (
        "or read and kept",
        &[
            &[op::MOV, POST_MESSAGE, HI],
            &[op::SYSCALL, WRITE, POST],
            &[op::SYSCALL, READ, MAIL],
            &[op::SYSCALL, READ, MORE_MAIL],
            FINISH,
        ],
        &[],
        Due {
            lines: "stop,finished\n",
            after: &[
                (MAIL, &[0, 0, 0, 3, 104, 105, 0]),
                (MORE_MAIL, &[0, 0, 0, 3, 104, 105, 0]),
            ],
        },
    ),
    (
        "256 takes it out too",
        &[
            &[op::MOV, POST_MESSAGE, HI],
            &[op::SYSCALL, WRITE, POST],
            &[op::SET, MAIL_REMOVE, 256],
            &[op::SYSCALL, READ, MAIL],
            &[op::SYSCALL, READ, MORE_MAIL],
            FINISH,
        ],
        &[],
        Due {
            lines: "stop,finished\n",
            after: &[
                (MAIL, &[0, 0, 256, 3, 104, 105, 0]),
                (MORE_MAIL, &[64, 0, 0, 1, 0]),
            ],
        },
    ),
    (
        "a text without a zero gets one",
        &[
            &[op::SET, POST_BOX, 19],
            &[op::MOV, POST_MESSAGE, ABC],
            &[op::SYSCALL, WRITE, POST],
            &[op::SET, MAIL_BOX, 19],
            &[op::SYSCALL, READ, MAIL],
            FINISH,
        ],
        &[],
        Due {
            lines: "stop,finished\n",
            after: &[
                (POST, &[0, 19, 3, 97, 98, 99]),
                (MAIL, &[0, 19, 0, 4, 97, 98, 99, 0]),
            ],
        },
    ),
    (
        "zeros inside stay",
        &[
            &[op::MOV, POST_MESSAGE, SPLIT],
            &[op::SYSCALL, WRITE, POST],
            &[op::SYSCALL, READ, MAIL],
            FINISH,
        ],
        &[],
        Due {
            lines: "stop,finished\n",
            after: &[(MAIL, &[0, 0, 0, 4, 97, 0, 98, 0])],
        },
    ),
    (
        "an empty text is a zero",
        &[
            &[op::SYSCALL, WRITE, POST],
            &[op::MOV, MAIL_MESSAGE, ABC],
            &[op::SYSCALL, READ, MAIL],
            FINISH,
        ],
        &[],
        Due {
            lines: "stop,finished\n",
            after: &[(POST, &[0, 0, 0]), (MAIL, &[0, 0, 0, 1, 0])],
        },
    ),
    (
        "no such mailbox",
        &[
            &[op::SET, POST_BOX, 20],
            &[op::MOV, POST_MESSAGE, HI],
            &[op::SYSCALL, WRITE, POST],
            &[op::SET, MAIL_BOX, 20],
            &[op::MOV, MAIL_MESSAGE, ABC],
            &[op::SYSCALL, READ, MAIL],
            &[op::MOV, MORE_MAIL_BOX, MINUS_ONE],
            &[op::SYSCALL, READ, MORE_MAIL],
            FINISH,
        ],
        &[],
        Due {
            lines: "stop,finished\n",
            after: &[
                (POST, &[-18, 20, 3, 104, 105, 0]),
                (MAIL, &[-18, 20, 0, 3, 97, 98, 99]),
                (MORE_MAIL, &[-18, -1, 0, 0]),
            ],
        },
    ),
    (
        "the longest message",
        &[
            &[op::MOV, POST_MESSAGE, LONGEST],
            &[op::SYSCALL, WRITE, POST],
            &[op::SYSCALL, READ, MAIL],
            FINISH,
        ],
        &[],
        Due {
            lines: "stop,finished\n",
            after: &[
                (
                    POST,
                    &[
                        0, 0, 59, 109, 109, 109, 109, 109, 109, 109, 109, 109, 109, 109, 109, 109,
                        109, 109, 109, 109, 109, 109, 109, 109, 109, 109, 109, 109, 109, 109, 109,
                        109, 109, 109, 109, 109, 109, 109, 109, 109, 109, 109, 109, 109, 109, 109,
                        109, 109, 109, 109, 109, 109, 109, 109, 109, 109, 109, 109, 109, 109, 109,
                        0,
                    ],
                ),
                (
                    MAIL,
                    &[
                        0, 0, 0, 59, 109, 109, 109, 109, 109, 109, 109, 109, 109, 109, 109, 109,
                        109, 109, 109, 109, 109, 109, 109, 109, 109, 109, 109, 109, 109, 109, 109,
                        109, 109, 109, 109, 109, 109, 109, 109, 109, 109, 109, 109, 109, 109, 109,
                        109, 109, 109, 109, 109, 109, 109, 109, 109, 109, 109, 109, 109, 109, 109,
                        109, 0,
                    ],
                ),
            ],
        },
    ),
    (
        "one that is too long isn't written",
        &[
            &[op::MOV, POST_MESSAGE, TOO_LONG],
            &[op::SYSCALL, WRITE, POST],
            &[op::SYSCALL, READ, MAIL],
            FINISH,
        ],
        &[],
        Due {
            lines: "stop,finished\n",
            after: &[
                (
                    POST,
                    &[
                        -19, 0, 60, 110, 110, 110, 110, 110, 110, 110, 110, 110, 110, 110, 110,
                        110, 110, 110, 110, 110, 110, 110, 110, 110, 110, 110, 110, 110, 110, 110,
                        110, 110, 110, 110, 110, 110, 110, 110, 110, 110, 110, 110, 110, 110, 110,
                        110, 110, 110, 110, 110, 110, 110, 110, 110, 110, 110, 110, 110, 110, 110,
                        110, 110, 0,
                    ],
                ),
                (MAIL, &[64, 0, 0, 1, 0]),
            ],
        },
    ),
    (
        "where there is no such mailbox the length doesn't count",
        &[
            &[op::SET, POST_BOX, 20],
            &[op::MOV, POST_MESSAGE, TOO_LONG],
            &[op::SYSCALL, WRITE, POST],
            FINISH,
        ],
        &[],
        Due {
            lines: "stop,finished\n",
            after: &[(
                POST,
                &[
                    -18, 20, 60, 110, 110, 110, 110, 110, 110, 110, 110, 110, 110, 110, 110, 110,
                    110, 110, 110, 110, 110, 110, 110, 110, 110, 110, 110, 110, 110, 110, 110, 110,
                    110, 110, 110, 110, 110, 110, 110, 110, 110, 110, 110, 110, 110, 110, 110, 110,
                    110, 110, 110, 110, 110, 110, 110, 110, 110, 110, 110, 110, 110, 110, 0,
                ],
            )],
        },
    ),
    (
        "a full mailbox loses its oldest message",
        &[
            &[op::SET, N, 1],
            &[op::NUMTOSTR, POST_MESSAGE, N],
            &[op::SYSCALL, WRITE, POST],
            &[op::SET, N, 2],
            &[op::NUMTOSTR, POST_MESSAGE, N],
            &[op::SYSCALL, WRITE, POST],
            &[op::SET, N, 3],
            &[op::NUMTOSTR, POST_MESSAGE, N],
            &[op::SYSCALL, WRITE, POST],
            &[op::SET, N, 4],
            &[op::NUMTOSTR, POST_MESSAGE, N],
            &[op::SYSCALL, WRITE, POST],
            &[op::SET, N, 5],
            &[op::NUMTOSTR, POST_MESSAGE, N],
            &[op::SYSCALL, WRITE, POST],
            &[op::SET, N, 6],
            &[op::NUMTOSTR, POST_MESSAGE, N],
            &[op::SYSCALL, WRITE, POST],
            &[op::SET, MAIL_REMOVE, 1],
            &[op::SYSCALL, READ, MAIL],
            &[op::SYSCALL, READ, MORE_MAIL],
            FINISH,
        ],
        &[],
        Due {
            lines: "stop,finished\n",
            after: &[
                (MAIL, &[0, 0, 1, 2, 50, 0]),
                (MORE_MAIL, &[0, 0, 0, 2, 51, 0]),
            ],
        },
    ),
    (
        "mailboxes are apart",
        &[
            &[op::SET, POST_BOX, 7],
            &[op::MOV, POST_MESSAGE, HI],
            &[op::SYSCALL, WRITE, POST],
            &[op::SET, MAIL_BOX, 8],
            &[op::SYSCALL, READ, MAIL],
            FINISH,
        ],
        &[],
        Due {
            lines: "stop,finished\n",
            after: &[(MAIL, &[64, 8, 0, 1, 0])],
        },
    ),
    // The table takes 248 static bytes, 120 of rows and 200 of its texts; what is written and what is read take 60 each.
    (
        "a message fills the pool to the byte",
        &[
            &[op::MOV, POST_MESSAGE, LONGEST],
            &[op::SYSCALL, WRITE, POST],
            &[op::SET, N, 32080],
            &[op::ARRINIT, FILLING, N, N],
            &[op::SYSCALL, READ, MAIL],
            FINISH,
        ],
        &[],
        Due {
            lines: "stop,finished\n",
            after: &[(
                MAIL,
                &[
                    0, 0, 0, 59, 109, 109, 109, 109, 109, 109, 109, 109, 109, 109, 109, 109, 109,
                    109, 109, 109, 109, 109, 109, 109, 109, 109, 109, 109, 109, 109, 109, 109, 109,
                    109, 109, 109, 109, 109, 109, 109, 109, 109, 109, 109, 109, 109, 109, 109, 109,
                    109, 109, 109, 109, 109, 109, 109, 109, 109, 109, 109, 109, 109, 0,
                ],
            )],
        },
    ),
    (
        "a message for which the pool has no room",
        &[
            &[op::MOV, POST_MESSAGE, LONGEST],
            &[op::SYSCALL, WRITE, POST],
            &[op::SET, N, 32081],
            &[op::ARRINIT, FILLING, N, N],
            &[op::SET, MAIL_REMOVE, 1],
            &[op::SYSCALL, READ, MAIL],
            FINISH,
        ],
        &[],
        Due {
            lines: "stop,memory,32772\n",
            after: &[
                (
                    POST,
                    &[
                        0, 0, 59, 109, 109, 109, 109, 109, 109, 109, 109, 109, 109, 109, 109, 109,
                        109, 109, 109, 109, 109, 109, 109, 109, 109, 109, 109, 109, 109, 109, 109,
                        109, 109, 109, 109, 109, 109, 109, 109, 109, 109, 109, 109, 109, 109, 109,
                        109, 109, 109, 109, 109, 109, 109, 109, 109, 109, 109, 109, 109, 109, 109,
                        0,
                    ],
                ),
                (MAIL, &[9, 0, 1, 0]),
            ],
        },
    ),
];

#[test]
fn messages(rt: HostRuntime) -> Result<(), Fail> {
    check_all(&rt, rt.alloc(), &TABLE, &MESSAGES)
}
