// Compaction of small pools.

use crate::cases::{CASES, Case};
use crate::due::{Held, blocks_of, expect_moved, settled};
use crate::pools::built;
use crate::sound::is_sound;
use nxt_compact::{compact, unsettled};
use std::alloc::Global;
use std::process::Abort;
use std::test::Fail;

/// Compacts a pool by up to `k` blocks, compares it with what is due, and gives the number of blocks that moved.
pub(crate) fn check(
    rt: &impl Abort,
    alloc: Global,
    old: Held,
    base: u32,
    k: u16,
) -> Result<u16, Fail> {
    let blocks = blocks_of(rt, alloc, old.pool, old.table)?;
    let (_, gaps) = settled(rt, alloc, blocks.as_slice(), base, u16::MAX)?;
    let (after, moved) = settled(rt, alloc, blocks.as_slice(), base, k)?;
    let mut pool = old.pool.to_vec(alloc)?;
    let mut table = old.table;
    assert!(rt; is_sound(pool.as_slice(), table, base));
    assert_eq!(rt; unsettled(pool.as_slice(), table, base), gaps);
    assert_eq!(rt;
        compact(pool.as_mut_slice(), &mut table, base, k),
        moved,
        "k is {k}"
    );
    let new = Held {
        pool: pool.as_slice(),
        table,
    };
    expect_moved(rt, old, new, base, after.as_slice());
    assert!(rt; is_sound(new.pool, table, base));
    assert!(rt; moved <= gaps);
    assert_eq!(rt; unsettled(new.pool, table, base), gaps - moved);
    Ok(moved)
}

// The places of all rows once no gap is left.
fn check_places(rt: &impl Abort, alloc: Global, case: &Case) -> Result<(), Fail> {
    let (name, pool, places) = case;
    let bytes = built(rt, alloc, pool)?;
    let blocks = blocks_of(rt, alloc, bytes.as_slice(), pool.table as u32)?;
    let (after, _) = settled(rt, alloc, blocks.as_slice(), pool.base, u16::MAX)?;
    assert_eq!(rt; after.len(), places.len(), "{name}");
    for (&(place, _), &due) in after.iter().zip(places.iter()) {
        assert_eq!(rt; place, due, "{name}");
    }
    let old = Held {
        pool: bytes.as_slice(),
        table: pool.table as u32,
    };
    for k in [0, 1, 2, 3, 4, 65_535] {
        check(rt, alloc, old, pool.base, k)?;
    }
    Ok(())
}

#[test]
fn blocks_settle(rt: HostRuntime) -> Result<(), Fail> {
    for case in &CASES {
        check_places(&rt, rt.alloc(), case)?;
    }
    Ok(())
}
