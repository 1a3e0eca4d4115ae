// The line of each operation.

use crate::listed::listing_of;
use nxt_images::{
    ARRAY, CLUSTER, EMPTY, Image, MUTEX, NO_DEFAULT, SBYTE, SLONG, SWORD, Statement, UBYTE, ULONG,
    VOID, cmp, file_of, op,
};
use nxt_types::Bytes;
use nxt_types::words::LEFT_OUT;
use std::alloc::Global;
use std::test::Fail;

/// The variables that the statements name: two numbers at 0 and 1, lists of ubyte at 2 and of slong at 4, a mutex at 6, a
/// cluster that draws a text at 7, and a void at 15.
static VARIABLES: Image<'static> = Image {
    entries: &[
        (UBYTE, NO_DEFAULT, 0),
        (SLONG, NO_DEFAULT, 1),
        (ARRAY, NO_DEFAULT, 5),
        (UBYTE, 0, 0),
        (ARRAY, NO_DEFAULT, 7),
        (SLONG, 0, 0),
        (MUTEX, NO_DEFAULT, 9),
        (CLUSTER, 0, 4),
        (SBYTE, NO_DEFAULT, 13),
        (CLUSTER, 0, 2),
        (SWORD, NO_DEFAULT, 14),
        (SWORD, NO_DEFAULT, 16),
        (ARRAY, NO_DEFAULT, 18),
        (UBYTE, 0, 0),
        (ULONG, NO_DEFAULT, 20),
        (VOID, 0, 0),
    ],
    static_size: 24,
    rows: &[(24, 10, 1)],
    clumps: &[0],
    ..EMPTY
};

/// The lines of the table, of row 0 and of the clump.
const VARIABLE_LINES: &str =
    "toc,0,ubyte,1,0\ntoc,1,slong,1,1\ntoc,2,array,1,5\ntoc,3,ubyte,0,0\ntoc,4,array,1,7\ntoc,5,slong,0,0\ntoc,6,mutex,1,9\ntoc,7,cluster,0,4\ntoc,8,sbyte,1,13\ntoc,9,cluster,0,2\ntoc,10,sword,1,14\ntoc,11,sword,1,16\ntoc,12,array,1,18\ntoc,13,ubyte,0,0\ntoc,14,ulong,1,20\ntoc,15,void,0,0\nrow,0,24,10,1,0,0\nclump,0,0,0\n";

/// Statements, the line of the header, and the lines of the statements.
type Case<'a> = (&'a [Statement<'a>], &'a str, &'a [&'a str]);

static CASES: [Case<'static>; 2] = [
    // Each operation once, and a jump back to the last.
    (
        &[
            &[op::ADD, 0, 1, 0],
            &[op::SUB, 4, 4, 0],
            &[op::NEG, 0, 1],
            &[op::MUL, 2, 0, 4],
            &[op::DIV, 0, 1, 1],
            &[op::MOD, 4, 0, 2],
            &[op::AND, 1, 0, 1],
            &[op::OR, 2, 4, 4],
            &[op::XOR, 14, 8, 10],
            &[op::NOT, 4, 2],
            &[op::CMP, cmp::GTEQ, 0, 4, 2],
            &[op::TST, cmp::LTEQ, 2, 4],
            &[op::INDEX, 0, 2, 1],
            &[op::REPLACE, 2, 4, 1, 0],
            &[op::ARRSIZE, 0, 4],
            &[op::ARRBUILD, 2, 0, 4],
            &[op::ARRSUBSET, 2, 4, LEFT_OUT, 1],
            &[op::ARRINIT, 2, 0, 1],
            &[op::MOV, 0, 1],
            &[op::SET, 0, LEFT_OUT],
            &[op::FLATTEN, 2, 9],
            &[op::UNFLATTEN, 9, LEFT_OUT, 2, 9],
            &[op::NUMTOSTR, 2, 0],
            &[op::STRTONUM, 0, LEFT_OUT, 2, LEFT_OUT, 1],
            &[op::STRCAT, 2, 12, 2, 12],
            &[op::STRSUBSET, 2, 12, 0, LEFT_OUT],
            &[op::STRTOARR, 2, 12],
            &[op::ARRTOSTR, 12, 2],
            &[op::JMP, 2],
            &[op::BRCMP, cmp::GT, 4, 0, 1],
            &[op::BRTST, cmp::NEQ, 65532, 0],
            &[op::SYSCALL, 13, 7],
            &[op::STOP, LEFT_OUT],
            &[op::FINCLUMP, 32768, 32767],
            &[op::FINCLUMPIMMED, 0],
            &[op::ACQUIRE, 6],
            &[op::RELEASE, 6],
            &[op::SUBCALL, 0, 1],
            &[op::SUBRET, 0],
            &[op::SETIN, 0, 1, 5],
            &[op::SETOUT, 4, 14, 1, 0, 0],
            &[op::GETIN, 0, 1, 5],
            &[op::GETOUT, 0, 1, 14],
            &[op::WAIT, LEFT_OUT],
            &[op::GETTICK, 0],
            &[op::JMP, 65534],
        ],
        "header,16,34,24,10,0,10,0,0,24,1,164\n",
        &[
            "code,0,add,0,1,0\n",
            "code,4,sub,4,4,0\n",
            "code,8,neg,0,1\n",
            "code,11,mul,2,0,4\n",
            "code,15,div,0,1,1\n",
            "code,19,mod,4,0,2\n",
            "code,23,and,1,0,1\n",
            "code,27,or,2,4,4\n",
            "code,31,xor,14,8,10\n",
            "code,35,not,4,2\n",
            "code,38,cmp,GTEQ,0,4,2\n",
            "code,42,tst,LTEQ,2,4\n",
            "code,45,index,0,2,1\n",
            "code,49,replace,2,4,1,0\n",
            "code,54,arrsize,0,4\n",
            "code,57,arrbuild,2,0,4\n",
            "code,62,arrsubset,2,4,65535,1\n",
            "code,67,arrinit,2,0,1\n",
            "code,71,mov,0,1\n",
            "code,74,set,0,65535\n",
            "code,77,flatten,2,9\n",
            "code,80,unflatten,9,65535,2,9\n",
            "code,85,numtostr,2,0\n",
            "code,88,strtonum,0,65535,2,65535,1\n",
            "code,94,strcat,2,12,2,12\n",
            "code,100,strsubset,2,12,0,65535\n",
            "code,105,strtoarr,2,12\n",
            "code,108,arrtostr,12,2\n",
            "code,111,jmp,2\n",
            "code,113,brcmp,GT,4,0,1\n",
            "code,117,brtst,NEQ,-4,0\n",
            "code,120,syscall,13,7\n",
            "code,123,stop,65535\n",
            "code,125,finclump,-32768,32767\n",
            "code,128,finclumpimmed,0\n",
            "code,130,acquire,6\n",
            "code,132,release,6\n",
            "code,134,subcall,0,1\n",
            "code,137,subret,0\n",
            "code,139,setin,0,1,5\n",
            "code,143,setout,4,14,1,0,0\n",
            "code,150,getin,0,1,5\n",
            "code,154,getout,0,1,14\n",
            "code,158,wait,65535\n",
            "code,160,gettick,0\n",
            "code,162,jmp,-2\n",
        ],
    ),
    // Each comparison once.
    (
        &[
            &[op::BRTST, cmp::LT, 3, 0],
            &[op::BRTST, cmp::GT, 3, 0],
            &[op::BRTST, cmp::LTEQ, 3, 0],
            &[op::BRTST, cmp::GTEQ, 3, 0],
            &[op::BRTST, cmp::EQ, 3, 0],
            &[op::BRTST, cmp::NEQ, 3, 0],
            &[op::JMP, 65518],
        ],
        "header,16,34,24,10,0,10,0,0,24,1,20\n",
        &[
            "code,0,brtst,LT,3,0\n",
            "code,3,brtst,GT,3,0\n",
            "code,6,brtst,LTEQ,3,0\n",
            "code,9,brtst,GTEQ,3,0\n",
            "code,12,brtst,EQ,3,0\n",
            "code,15,brtst,NEQ,3,0\n",
            "code,18,jmp,-18\n",
        ],
    ),
];

#[test]
fn statements_are_listed(rt: HostRuntime) -> Result<(), Fail> {
    let alloc = rt.alloc();
    for (code, header, lines) in &CASES {
        let image = Image {
            code: *code,
            ..VARIABLES
        };
        let file = file_of(alloc, &image)?;
        let text = listing_of(alloc, file.as_slice())?;
        let due = joined(alloc, header, lines)?;
        assert_eq!(rt; text.as_slice(), due.as_slice());
    }
    Ok(())
}

// The whole text that is due.
fn joined(alloc: Global, header: &str, lines: &[&str]) -> Result<Bytes, Fail> {
    let mut text = Bytes::new(alloc);
    text.append(header.as_bytes())?;
    text.append(VARIABLE_LINES.as_bytes())?;
    for line in lines {
        text.append(line.as_bytes())?;
    }
    Ok(text)
}
