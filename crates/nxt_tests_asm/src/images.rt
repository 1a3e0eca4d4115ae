// The images of texts, byte for byte, and sinks that fail.

use super::commands::{Text, assembled};
use nxt_tool::Status;
use std::test::Fail;

/// A thread that ends.
const SMALLEST: Text<'static> = &[(b"thread main\nendt\n", 1)];

const SMALLEST_IMAGE: &[u8] = b"MindstormsNXT\0\0\x05\
    \0\0\0\0\0\0\0\0\0\0\0\0\0\0\0\0\0\0\x01\0\x03\0\
    \0\0\0\0\
    \x2a\x60\0\0\xff\xff";

/// A list without elements, a number, and a text as an operand.
const LISTS: Text<'static> = &[(
    b"dseg segment\na byte[]\nb word 7\ndseg ends\nthread main\nstrcat a, a, 'hi'\nendt\n",
    1,
)];

/// Leaves of two bytes stand one after another: the list's row, the number and the text's row. Behind these six bytes stand
/// three rows, the table's own, an empty one and the text's, and then the text with its zero. A pad follows, the clump,
/// and the code.
const LISTS_IMAGE: &[u8] = b"MindstormsNXT\0\0\x05\
    \x05\0\x27\0\x06\0\x27\0\x06\0\x21\0\0\0\0\0\x06\0\x01\0\x08\0\
    \x07\0\0\0\x01\0\0\0\x03\0\x02\0\x07\0\x04\0\x01\0\0\0\
    \x01\0\x07\0\x02\0\
    \x06\0\x0a\0\x03\0\0\0\0\0\
    \xff\xff\x01\0\0\0\0\0\0\0\
    \x24\0\x01\0\x03\0\0\0\0\0\
    hi\0\0\
    \0\0\0\0\
    \x21\xe0\x0a\0\0\0\0\0\x03\0\
    \x2a\x60\0\0\xff\xff";

static IMAGES: [(Text<'static>, &[u8], &[u8]); 2] = [
    (SMALLEST, SMALLEST_IMAGE, b"assembled,48,12\n"),
    (LISTS, LISTS_IMAGE, b"assembled,118,44\n"),
];

#[test]
fn images_of_texts(rt: HostRuntime) -> Result<(), Fail> {
    for (text, image, report) in &IMAGES {
        let ended = assembled(rt.alloc(), text, &[], &[])?;
        assert_eq!(rt; ended.status, Status::Done);
        assert_eq!(rt; ended.image.as_slice(), *image);
        assert_eq!(rt; ended.report.as_slice(), *report);
    }
    Ok(())
}

#[test]
fn sinks_that_fail(rt: HostRuntime) -> Result<(), Fail> {
    let ended = assembled(rt.alloc(), SMALLEST, &[1], &[])?;
    assert_eq!(rt; ended.status, Status::WriteFault);
    assert_eq!(rt; ended.image.as_slice(), b"MindstormsNXT\0\0\x05".as_slice());
    assert!(rt; ended.report.is_empty());
    let ended = assembled(rt.alloc(), SMALLEST, &[], &[0])?;
    assert_eq!(rt; ended.status, Status::WriteFault);
    assert_eq!(rt; ended.image.as_slice(), SMALLEST_IMAGE);
    assert!(rt; ended.report.is_empty());
    Ok(())
}
