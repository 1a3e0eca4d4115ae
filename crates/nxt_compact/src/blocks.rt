// The blocks of a pool, and their order.

ghost use Rattle.std.specs.Prelude.{◌≡◌, ◌+◌, ◌*◌, ◌<◌, ◌≤◌, ◌/◌, ◌%◌, length};
ghost use Rattle.nxt_rows.specs.Rows.{dope_row, row_count, IsTable};
ghost use Rattle.nxt_compact.specs.Pools.{block_bytes as bytes_of_block};
ghost use Rattle.nxt_compact.specs.Orders.{key, Listed, IsOrder};

use nxt_rows::{DopeRow, get};
use nxt_types::pool::round4;

/// How many bytes a row's block takes, and for row 0 those of the table.
#[tactic(auto, unfolding(crate::specs::Pools::block_bytes))]
pub fn block_bytes(row: DopeRow) -> u64
    ensures { result ≡ bytes_of_block row }
{
    round4(row.count as u64 * row.stride as u64)
}

/// A place and a row in one number, so that numbers stand in the order of places.
fn key_of(place: u16, row: u16) -> u32
    ensures { result ≡ key place row }
{
    place as u32 * 65_536 + row as u32
}

/// The row in a key.
pub fn row_in(key: u32) -> u16
    ensures { result ≡ key % 65536 }
{
    (key % 65_536) as u16
}

/// Puts the keys of all blocks into `keys`, and gives them in the order of their places.
pub fn sort_blocks<'a>(pool: &[u8], table: u32, keys: &'a mut [u32]) -> &'a [u32]
    requires table { IsTable pool.now table }
    requires room { row_count pool.now table ≤ length keys.old }
    ensures { IsOrder pool.now table result.now }
{
    let blocks = list_blocks(pool, table, keys);
    let order = &mut keys[..blocks];
    order.sort_unstable();
    order
}

/// Puts the keys of all blocks into `keys`, row by row, and gives their number.
fn list_blocks(pool: &[u8], table: u32, keys: &mut [u32]) -> usize
    requires table { IsTable pool.now table }
    requires room { row_count pool.now table ≤ length keys.old }
    ensures most { result ≤ length keys.new }
    ensures listed { Listed pool.now table (row_count pool.now table) keys.new result }
{
    let rows = get(pool, table, 0).count;
    let mut blocks = 0;
    for row in 0..rows {
        let found = get(pool, table, row);
        if block_bytes(found) > 0 {
            keys[blocks] = key_of(found.place, row);
            blocks += 1;
        }
    }
    blocks
}
