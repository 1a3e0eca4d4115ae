// Rows of the table of rows in a pool of bytes.

use nxt_rows::{DopeRow, free_row, get, set, spare, take_row};
use std::test::Fail;

#[test]
fn a_row_is_five_words_low_byte_first(rt: HostRuntime) -> Result<(), Fail> {
    let mut pool = [0xEE; 40];
    let row = DopeRow {
        place: 0x1234,
        stride: 1,
        count: 0x0300,
        back: 0,
        link: 2,
    };
    set(&mut pool, 4, 2, row);
    assert_eq!(rt;
        &pool[22..36],
        [0xEE, 0xEE, 0x34, 0x12, 1, 0, 0, 3, 0, 0, 2, 0, 0xEE, 0xEE].as_slice()
    );
    assert_eq!(rt; get(&pool, 4, 2), row);
    Ok(())
}

#[test]
fn a_freed_row_is_taken_again(rt: HostRuntime) -> Result<(), Fail> {
    let mut pool = [0; 40];
    let first = DopeRow {
        place: 8,
        stride: 10,
        count: 2,
        back: 0,
        link: 0,
    };
    set(&mut pool, 8, 0, first);
    assert_eq!(rt; take_row(&mut pool, 8, 7), None);
    free_row(&mut pool, 8, 1);
    assert_eq!(rt; spare(&pool, 8), 1);
    assert_eq!(rt; take_row(&mut pool, 8, 7), Some(1));
    assert_eq!(rt; get(&pool, 8, 1), DopeRow::empty(7));
    assert_eq!(rt; spare(&pool, 8), 0);
    Ok(())
}
