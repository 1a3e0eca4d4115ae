// Room for a block that gets longer.

ghost use Rattle.std.specs.Prelude.{◌≡◌, ◌≢◌, ◌⊎◌, ◌+◌, ◌*◌, ◌<◌, ◌≤◌, ◌^◌, ℕ, length, slice_index};
ghost use Rattle.nxt_rows.specs.Rows.{dope_row, row_count, IsTable};
ghost use Rattle.nxt_blocks.specs.Blocks.{total};
ghost use Rattle.nxt_compact.specs.Pools.{block_bytes as bytes_of_block, blocks_in, IsFull, Moves, row_at, HasRoom, Opens};
ghost use Rattle.nxt_compact.specs.Steps.{IsLiftable, up_from};

use crate::blocks::block_bytes;
use crate::settling::compact;
use nxt_rows::{DopeRow, get, set};
use nxt_types::pool::round4;

/// Opens room for `bytes` at a row's place: all gaps close, what stands above the row's block moves up, and the block
/// keeps its front and its count. A row without a block gets the end of the last block as its place.
pub fn open_gap(pool: &mut [u8], table: &mut u32, base: u32, row: u16, bytes: u32)
    requires { HasRoom pool.old table.old base row bytes }
    ensures { Opens base row bytes pool.old pool.new table.old table.new }
{
    compact(pool, table, base, u16::MAX);
    let found = get(pool, *table, row);
    let had = block_bytes(found);
    let room = round4(bytes as u64);
    if had > 0 {
        let above = found.place as u32 + had as u32;
        lift(pool, table, above, room.saturating_sub(had) as u32);
    } else if room > 0 {
        let place = end_of_blocks(pool, *table, base) as u16;
        set(pool, *table, row, DopeRow { place, ..found });
    }
}

/// Where the last block ends, in a pool without gaps.
fn end_of_blocks(pool: &[u8], table: u32, base: u32) -> u32
    requires table { IsTable pool.now table }
    requires fits { base + total (blocks_in pool.now table) < 2 ^ 32 }
    ensures { result ≡ base + total (blocks_in pool.now table) }
{
    let rows = get(pool, table, 0).count;
    let mut end = base;
    for row in 0..rows {
        end += block_bytes(get(pool, table, row)) as u32;
    }
    end
}

/// Moves the blocks that begin at or above a place up by `more` bytes.
fn lift(pool: &mut [u8], table: &mut u32, above: u32, more: u32)
    requires { IsLiftable pool.old table.old above more }
    ensures { (base : ℕ) → base ≤ above → base ≤ table.old → Moves base (up_from above more) pool.old pool.new table.old table.new }
{
    let rows = get(pool, *table, 0).count;
    let end = pool.len() - more as usize;
    pool.copy_within(above as usize..end, (above + more) as usize);
    let to = raised(*table, above, more);
    *table = to;
    raise_rows(pool, to, rows, above, more);
}

/// The place of what moves up.
fn raised(place: u32, above: u32, more: u32) -> u32
    requires { place + more < 2 ^ 32 }
    ensures { result ≡ up_from above more place }
{
    if place < above { place } else { place + more }
}

/// Writes the places of the blocks that moved up.
fn raise_rows(pool: &mut [u8], table: u32, rows: u16, above: u32, more: u32)
    requires rows { rows ≡ row_count pool.old table }
    requires fits { table + 10 * rows ≤ length pool.old }
    requires room { (q : ℕ) → IsFull pool.old table q → (dope_row pool.old table q).place + more < 65536 }
    ensures rows { (r : ℕ) → r < rows → dope_row pool.new table r ≡ row_at (up_from above more) (dope_row pool.old table r) }
    ensures outside { (k : ℕ) → (k < table) ⊎ (table + 10 * rows ≤ k) → slice_index pool.new k ≡ slice_index pool.old k }
{
    for row in 0..rows {
        raise_row(pool, table, row, above, more);
    }
}

/// Writes the place of a block that moved up.
fn raise_row(pool: &mut [u8], table: u32, row: u16, above: u32, more: u32)
    requires fits { table + 10 * (row + 1) ≤ length pool.old }
    requires room { 0 < bytes_of_block (dope_row pool.old table row) → (dope_row pool.old table row).place + more < 65536 }
    ensures row { dope_row pool.new table row ≡ row_at (up_from above more) (dope_row pool.old table row) }
    ensures others { (r : ℕ) → r ≢ row → dope_row pool.new table r ≡ dope_row pool.old table r }
    ensures outside { (k : ℕ) → (k < table + 10 * row) ⊎ (table + 10 * row + 10 ≤ k) → slice_index pool.new k ≡ slice_index pool.old k }
{
    let found = get(pool, table, row);
    if block_bytes(found) > 0 && found.place as u32 >= above {
        let place = (found.place as u32 + more) as u16;
        set(pool, table, row, DopeRow { place, ..found });
    }
}
