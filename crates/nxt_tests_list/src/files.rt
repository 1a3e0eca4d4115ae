// Whole files: their headers, tables, rows and clumps.

use crate::listed::listing_of;
use std::alloc::Global;
use std::test::Fail;

// The bytes that digits spell.
fn bytes_of(alloc: Global, digits: &str) -> Result<Vec<u8>, Fail> {
    match hex::decode(alloc, digits) {
        Ok(bytes) => Ok(bytes),
        Err(_) => Err("no bytes".into()),
    }
}

/// The digits of a file's bytes, and its listing.
type Case<'a> = (&'a str, &'a [u8]);

static FILES: [Case<'static>; 6] = [
    // Three numbers, and a setout: its size word isn't listed.
    (
        "4d696e6473746f726d734e585400000503000300030003000300000000000000000001000a00010000000200010001000200004b02000000000031e00e00000002000100000002002a600000ffff",
        b"header,3,3,3,3,3,0,0,0,0,1,10\ntoc,0,ubyte,0,0\ntoc,1,sbyte,0,1\ntoc,2,ubyte,0,2\nclump,0,0,0\ncode,0,setout,0,2,1,0,2\ncode,7,finclump,0,-1\n",
    ),
    // A short mov whose argument is -2.
    (
        "4d696e6473746f726d734e58540000050600060006000600000000000000000000000100040001000000010001000100020001000300010004000100050000000000000000000000fe48050025400000",
        b"header,6,6,6,6,0,0,0,0,0,1,4\ntoc,0,ubyte,0,0\ntoc,1,ubyte,0,1\ntoc,2,ubyte,0,2\ntoc,3,ubyte,0,3\ntoc,4,ubyte,0,4\ntoc,5,ubyte,0,5\nclump,0,0,0\ncode,0,mov,3,5\ncode,2,jmp,0\n",
    ),
    // A list of three bytes: row 0 is listed too.
    (
        "4d696e6473746f726d734e5854000005020019000200190002001700000000000200010002000700000001000000010002000a0002000000000016000100030000000000616200000000000025400000",
        b"header,2,25,2,25,2,23,0,0,2,1,2\ntoc,0,array,0,0\ntoc,1,ubyte,0,0\nrow,0,2,10,2,0,0\nrow,1,22,1,3,0,0\nclump,0,0,0\ncode,0,jmp,0\n",
    ),
    // The same with a back pointer and a link, which no rule judges.
    (
        "4d696e6473746f726d734e5854000005020019000200190002001700000000000200010002000700000001000000010002000a0002000000000016000100030009000001616200000000000025400000",
        b"header,2,25,2,25,2,23,0,0,2,1,2\ntoc,0,array,0,0\ntoc,1,ubyte,0,0\nrow,0,2,10,2,0,0\nrow,1,22,1,3,9,256\nclump,0,0,0\ncode,0,jmp,0\n",
    ),
    // No variables, and a jump to itself.
    (
        "4d696e6473746f726d734e5854000005000000000000000000000000ffff01020000010002000000000025400000",
        b"header,0,0,0,0,0,0,65535,513,0,1,2\nclump,0,0,0\ncode,0,jmp,0\n",
    ),
    // Clumps with dependents, and short forms of mov, acquire, release and subcall. A wait of three words is listed by
    // its last one.
    (
        "4d696e6473746f726d734e58540000050300090009000200000000000000000000000300160001000000090304000100080000000002000001000b000201080002010200fe4802000129012afe4b02002b4002002765030000002940ffff34600700ffff2680f6ff020000002540fcff",
        b"header,3,9,9,2,0,0,0,0,0,3,22\ntoc,0,ubyte,0,0\ntoc,1,mutex,3,4\ntoc,2,ubyte,0,8\nclump,0,0,0,2,1\nclump,1,1,11\nclump,2,2,8,2\ncode,0,mov,0,2\ncode,2,acquire,1\ncode,3,release,1\ncode,4,subcall,0,2\ncode,6,finclumpimmed,2\ncode,8,brtst,NEQ,3,0\ncode,11,stop,65535\ncode,13,wait,65535\ncode,16,brcmp,LT,-10,2,0\ncode,20,jmp,-4\n",
    ),
];

#[test]
fn files_are_listed(rt: HostRuntime) -> Result<(), Fail> {
    let alloc = rt.alloc();
    for (digits, due) in &FILES {
        let file = bytes_of(alloc, digits)?;
        let text = listing_of(alloc, file.as_slice())?;
        assert_eq!(rt; text.as_slice(), *due, "{digits}");
    }
    Ok(())
}
