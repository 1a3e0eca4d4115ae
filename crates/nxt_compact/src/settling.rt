// The compaction of a pool.

ghost use Rattle.std.specs.Prelude.{◌≡◌};
ghost use Rattle.nxt_blocks.specs.Blocks.{unsettled as count};
ghost use Rattle.nxt_compact.specs.Pools.{IsSound, Compacts, blocks_in};
ghost use Rattle.nxt_compact.specs.Orders.{IsOrder};

use crate::blocks::{block_bytes, row_in, sort_blocks};
use crate::relocate::move_block;
use nxt_rows::get;

// A pool of 65,536 bytes holds no longer table.
const MOST_ROWS: usize = 6_553;

/// Moves up to `k` of the lowest blocks that have a gap below down to the end of the block before, and gives the number of
/// blocks that moved. The static bytes end at `base`. It sorts the blocks by their places; a heap settles its own by an index of
/// their fronts, and calls this only to close all gaps, by `open_gap`.
pub fn compact(pool: &mut [u8], table: &mut u32, base: u32, k: u16) -> u16
    requires { IsSound pool.old table.old base }
    ensures { Compacts base k pool.old pool.new table.old table.new result }
{
    let mut keys = [0; MOST_ROWS];
    let order = sort_blocks(pool, *table, &mut keys);
    settle(pool, table, base, k, order)
}

/// The same, with the keys of all blocks in the order of their places.
fn settle(pool: &mut [u8], table: &mut u32, base: u32, k: u16, order: &[u32]) -> u16
    requires sound { IsSound pool.old table.old base }
    requires order { IsOrder pool.old table.old order.now }
    ensures { Compacts base k pool.old pool.new table.old table.new result }
{
    let mut settled = 0;
    let mut at = base;
    for key in order {
        if settled == k {
            return settled;
        }
        let row = row_in(*key);
        let found = get(pool, *table, row);
        if at < found.place as u32 {
            move_block(pool, table, row, at);
            settled += 1;
        }
        at += block_bytes(found) as u32;
    }
    settled
}

/// How many blocks have a gap somewhere below them.
pub fn unsettled(pool: &[u8], table: u32, base: u32) -> u16
    requires { IsSound pool.now table base }
    ensures { result ≡ count base (blocks_in pool.now table) }
{
    let mut keys = [0; MOST_ROWS];
    let order = sort_blocks(pool, table, &mut keys);
    count_unsettled(pool, table, base, order)
}

/// The same, with the keys of all blocks in the order of their places.
fn count_unsettled(pool: &[u8], table: u32, base: u32, order: &[u32]) -> u16
    requires sound { IsSound pool.now table base }
    requires order { IsOrder pool.now table order.now }
    ensures { result ≡ count base (blocks_in pool.now table) }
{
    let mut unsettled = 0;
    let mut at = base;
    for key in order {
        let found = get(pool, table, row_in(*key));
        if at < found.place as u32 {
            unsettled += 1;
        }
        at += block_bytes(found) as u32;
    }
    unsettled
}
