// Room that opens in small pools.

use crate::cases::{CASES, Case};
use crate::due::{Held, blocks_of, expect_moved, settled, slid, total};
use crate::pools::built;
use crate::sound::{has_room, is_sound};
use nxt_compact::open_gap;
use nxt_types::pool::round4;
use std::alloc::Global;
use std::process::Abort;
use std::test::Fail;

/// Opens room for `bytes` at a row's place, and compares the pool with what is due.
pub(crate) fn check(
    rt: &impl Abort,
    alloc: Global,
    old: Held,
    base: u32,
    row: u16,
    bytes: u32,
) -> Result<(), Fail> {
    let blocks = blocks_of(rt, alloc, old.pool, old.table)?;
    assert!(rt; (row as usize) < blocks.len());
    let had = blocks[row as usize].1;
    let more = round4(bytes as u64).saturating_sub(had);
    let mut after = if had > 0 {
        slid(rt, alloc, blocks.as_slice(), base, row, more)?
    } else {
        settled(rt, alloc, blocks.as_slice(), base, u16::MAX)?.0
    };
    if had == 0 && bytes > 0 {
        assert!(rt; (row as usize) < after.len());
        after[row as usize].0 = (base as u64).saturating_add(total(blocks.as_slice()));
    }
    let mut pool = old.pool.to_vec(alloc)?;
    let mut table = old.table;
    assert!(rt; is_sound(pool.as_slice(), table, base));
    assert!(rt; has_room(pool.as_slice(), table, base, row, bytes));
    open_gap(pool.as_mut_slice(), &mut table, base, row, bytes);
    let new = Held {
        pool: pool.as_slice(),
        table,
    };
    expect_moved(rt, old, new, base, after.as_slice());
    Ok(())
}

// Each row in turn gets less, the same and more bytes, up to all that are left.
fn check_rows(rt: &impl Abort, alloc: Global, case: &Case) -> Result<(), Fail> {
    let (name, pool, _) = case;
    let bytes = built(rt, alloc, pool)?;
    let old = Held {
        pool: bytes.as_slice(),
        table: pool.table as u32,
    };
    let blocks = blocks_of(rt, alloc, old.pool, old.table)?;
    let taken = (pool.base as u64).saturating_add(total(blocks.as_slice()));
    let free = (pool.size as u64).saturating_sub(taken) / 4 * 4;
    let mut row = 0;
    for &(_, had) in blocks.as_slice() {
        assert!(rt; had <= 65_536 && free <= 65_536, "{name}");
        for bytes in [0, had / 2, had, had + 1, had + 5, had + free] {
            if bytes <= had + free {
                check(rt, alloc, old, pool.base, row, bytes as u32)?;
            }
        }
        assert!(rt; row < u16::MAX);
        row += 1;
    }
    Ok(())
}

#[test]
fn room_opens(rt: HostRuntime) -> Result<(), Fail> {
    for case in &CASES {
        check_rows(&rt, rt.alloc(), case)?;
    }
    Ok(())
}

/// The case, the row, the bytes that it is to have, and the places of all rows afterwards.
type Opened<'a> = (usize, u16, u32, &'a [u16]);

static OPENED: [Opened<'static>; 9] = [
    (4, 2, 20, &[12, 8, 52, 72]),
    (4, 3, 12, &[12, 8, 52, 64]),
    (4, 0, 50, &[12, 8, 64, 76]),
    (4, 1, 5, &[16, 8, 56, 68]),
    (4, 2, 1, &[12, 8, 52, 64]),
    (5, 0, 60, &[36, 4, 12, 20]),
    (6, 2, 16, &[12, 0, 52, 68]),
    (8, 1, 40, &[6, 70, 64, 58, 11]),
    (8, 4, 0, &[6, 65_535, 64, 58, 11]),
];

#[test]
fn room_opens_at_the_place(rt: HostRuntime) -> Result<(), Fail> {
    let alloc = rt.alloc();
    for &(at, row, bytes, places) in &OPENED {
        assert!(&rt; at < CASES.len());
        let (name, pool, _) = &CASES[at];
        let mut held = built(&rt, alloc, pool)?;
        let mut table = pool.table as u32;
        assert!(&rt; is_sound(held.as_slice(), table, pool.base));
        assert!(&rt; has_room(held.as_slice(), table, pool.base, row, bytes));
        open_gap(held.as_mut_slice(), &mut table, pool.base, row, bytes);
        let blocks = blocks_of(&rt, alloc, held.as_slice(), table)?;
        assert_eq!(&rt; blocks.len(), places.len(), "{name}");
        for (&(place, _), &due) in blocks.iter().zip(places.iter()) {
            assert_eq!(&rt; place, due as u64, "{name}, row {row}, {bytes} bytes");
        }
    }
    Ok(())
}
