// Texts that are run, and what they report.

use super::commands::{assembled, ran};
use nxt_tool::Status;
use std::test::Fail;

// A robot that follows a line.
const LINE_FOLLOWER: &[u8] =
    b"#include \"NXTDefs.h\"\ndseg segment\nlight sword\ndt TDrawText\ndseg ends\nthread main\n\
    setin IN_TYPE_LIGHT_ACTIVE, IN_3, Type\nsetin IN_MODE_PCTFULLSCALE, IN_3, InputMode\n\
    set dt.Location.X, 0\nset dt.Location.Y, LCD_LINE1\nmov dt.Text, 'go'\nsyscall DrawText, dt\nLoop:\n\
    getin light, IN_3, ScaledValue\nbrcmp LT, Dark, light, 45\n\
    setout OUT_A, OutputMode, 1, RunState, 32, Power, 75, UpdateFlags, 3\n\
    setout OUT_C, OutputMode, 1, RunState, 32, Power, 20, UpdateFlags, 3\njmp Next\nDark:\n\
    setout OUT_A, OutputMode, 1, RunState, 32, Power, 20, UpdateFlags, 3\n\
    setout OUT_C, OutputMode, 1, RunState, 32, Power, 75, UpdateFlags, 3\nNext:\nwait 100\njmp Loop\nendt\n";

// Lists in lists.
const NESTED_LISTS: &[u8] =
    b"#include \"NXTDefs.h\"\ndseg segment\na byte[] 'ab'\ny byte[] 'hi'\nx byte[][]\ndt TDrawText\n\
    dseg ends\nthread main\nstrcat a, a, a\narrbuild x, y, y\nreplace x, x, 0, a\nindex y, x, 1\n\
    index dt.Text, x, 0\nstrcat dt.Text, dt.Text, y\nsyscall DrawText, dt\nendt\n";

// A list that fills the pool to the byte, and one that passes it.
const POOL_FILLED: &[u8] =
    b"dseg segment\na byte[]\ndseg ends\nthread main\narrinit a, 0, 32732\narrinit a, 0, 32733\nendt\n";

// A list that grows to what another has given back.
const GROWTH: &[u8] =
    b"dseg segment\na byte[]\nb byte[]\nc byte[]\ndseg ends\nthread main\narrinit a, 0, 10000\n\
    arrinit b, 0, 10000\narrinit c, 0, 10000\narrsubset b, b, 0, 0\narrinit a, 1, 22000\nendt\n";

// Lists in a list take rows, which stay.
const INNER_ROWS: &[u8] =
    b"dseg segment\nx byte[][]\ne byte[]\ndseg ends\nthread main\narrinit x, e, 2000\narrinit x, e, 0\n\
    arrinit e, 0, 20000\nendt\n";

// A turn of twenty bytecodes, and who comes next.
const TURN: &[u8] =
    b"#include \"NXTDefs.h\"\nthread main\nL: jmp L\nendt\nthread t\nsetout OUT_A, Power, 5, UpdateFlags, 2\n\
    endt\n";

// A mutex that is taken twice by the same thread.
const MUTEX: &[u8] = b"dseg segment\nm mutex\ndseg ends\nthread main\nacquire m\nacquire m\nendt\n";

// A list put together with itself.
const TRIPLED: &[u8] =
    b"#include \"NXTDefs.h\"\ndseg segment\na byte[] 'ab'\nn long\nt TDrawText\ndseg ends\nthread main\n\
    strcat a, a, a\narrsize n, a\nmov t.Text, a\nmov t.Options, n\nsyscall DrawText, t\nendt\n";

// A remainder by zero.
const REMAINDER: &[u8] =
    b"#include \"NXTDefs.h\"\ndseg segment\nd slong\nn slong -7\nz slong\nt TDrawText\ndseg ends\n\
    thread main\nmod d, n, z\nmov t.Location.X, d\nsyscall DrawText, t\nendt\n";

// Quotients and remainders at the ends of the kinds.
const ARITHMETIC: &[u8] =
    b"#include \"NXTDefs.h\"\ndseg segment\na slong -2147483648\nb slong -1\nc slong\nu ulong 7\nv ulong 0\n\
    w ulong 1\np slong -7\nq slong 2\nr ulong\nzz slong 0\ns sbyte -128\nt TDrawText\ndseg ends\n\
    thread main\ndiv c, a, b\nnumtostr t.Text, c\nsyscall DrawText, t\ndiv w, u, v\nnumtostr t.Text, w\n\
    syscall DrawText, t\nmod r, p, zz\nnumtostr t.Text, r\nsyscall DrawText, t\ndiv r, p, q\n\
    numtostr t.Text, r\nsyscall DrawText, t\nmov r, s\nnumtostr t.Text, r\nsyscall DrawText, t\nendt\n";

// A text, a script, and the report.
type Case = (&'static [u8], &'static [u8], &'static [u8]);

static RUNS: [Case; 12] = [
    (
        LINE_FOLLOWER,
        b"reading,2,500,512,60\nrun,20\ntick,100\nreading,2,700,700,30\nrun,20\n",
        b"text,0,56,0,676f\nmotor,0,1,75,32,0,0,0\nmotor,2,1,20,32,0,0,0\nmotor,0,1,20,32,0,0,0\n\
            motor,2,1,75,32,0,0,0\nend,5\n",
    ),
    (
        NESTED_LISTS,
        b"run,20\n",
        b"text,0,0,0,616261626869\nstop,finished\nend,1\n",
    ),
    (POOL_FILLED, b"run,10\n", b"stop,memory,32772\nend,1\n"),
    (GROWTH, b"run,10\n", b"stop,finished\nend,1\n"),
    (
        GROWTH,
        b"run,4\ncompact,2\nrun,6\n",
        b"stop,finished\nend,3\n",
    ),
    (INNER_ROWS, b"run,10\n", b"stop,memory,40048\nend,1\n"),
    (TURN, b"run,20\n", b"end,1\n"),
    (
        TURN,
        b"run,19\nrun,1\nrun,1\n",
        b"motor,0,0,5,0,0,0,0\nend,3\n",
    ),
    (MUTEX, b"run,5\n", b"stop,stuck\nend,1\n"),
    (
        TRIPLED,
        b"run,20\n",
        b"text,0,0,5,61626162\nstop,finished\nend,1\n",
    ),
    (
        REMAINDER,
        b"run,20\n",
        b"text,-7,0,0,\nstop,finished\nend,1\n",
    ),
    (
        ARITHMETIC,
        b"run,40\n",
        b"text,0,0,0,2d32313437343833363438\ntext,0,0,0,30\ntext,0,0,0,34323934393637323839\n\
            text,0,0,0,34323934393637323933\ntext,0,0,0,34323934393637313638\nstop,finished\nend,1\n",
    ),
];

#[test]
fn texts_that_run(rt: HostRuntime) -> Result<(), Fail> {
    let alloc = rt.alloc();
    for (text, script, report) in &RUNS {
        let ended = ran(alloc, b"nbc", text.to_vec(alloc)?, script, &[])?;
        assert_eq!(rt; ended.status, Status::Done);
        assert_eq!(rt; ended.report.as_slice(), *report);
        assert!(rt; ended.image.is_empty());
    }
    Ok(())
}

#[test]
fn images_run_as_their_texts(rt: HostRuntime) -> Result<(), Fail> {
    let alloc = rt.alloc();
    for (text, script, report) in &RUNS {
        let image = assembled(alloc, &[(*text, 1)], &[], &[])?.image;
        let ended = ran(alloc, b"rxe", image, script, &[])?;
        assert_eq!(rt; ended.status, Status::Done);
        assert_eq!(rt; ended.report.as_slice(), *report);
    }
    Ok(())
}

#[test]
fn a_script_is_read_behind_an_accepted_text_alone(rt: HostRuntime) -> Result<(), Fail> {
    let alloc = rt.alloc();
    let refused = b"thread main\njmp X\nendt\n".to_vec(alloc)?;
    let ended = ran(alloc, b"nbc", refused, b"run,1\n", &[0])?;
    assert_eq!(rt; ended.status, Status::Refused);
    assert_eq!(rt; ended.report.as_slice(), b"refused,42,2\n".as_slice());
    let ended = ran(alloc, b"nbc", MUTEX.to_vec(alloc)?, b"run,1\n", &[0])?;
    assert_eq!(rt; ended.status, Status::ReadFault);
    Ok(())
}
