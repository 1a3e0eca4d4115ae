// A block that moves.

ghost use Rattle.std.specs.Prelude.{◌≡◌, ◌≢◌, ◌⊎◌, ◌+◌, ◌*◌, ◌<◌, ◌≤◌, ℕ, length, slice_index};
ghost use Rattle.nxt_rows.specs.Rows.{dope_row, row_count};
ghost use Rattle.nxt_compact.specs.Pools.{block_bytes as bytes_of_block, Moves};
ghost use Rattle.nxt_compact.specs.Steps.{IsMovable, moved_to};

use crate::blocks::block_bytes;
use nxt_rows::{DopeRow, get, set};

/// Moves the block of a row to another place.
pub fn move_block(pool: &mut [u8], table: &mut u32, row: u16, at: u32)
    requires { IsMovable pool.old table.old row at }
    ensures { (base : ℕ) → base ≤ at → base ≤ table.old → Moves base (moved_to (dope_row pool.old table.old row).place at) pool.old pool.new table.old table.new }
{
    if row == 0 {
        move_table(pool, *table, at);
        *table = at;
    } else {
        move_list(pool, *table, row, at);
    }
}

/// Moves the block of a list to another place.
fn move_list(pool: &mut [u8], table: u32, row: u16, at: u32)
    requires above { 0 < row }
    requires within { row < row_count pool.old table }
    requires table { table + 10 * row_count pool.old table ≤ length pool.old }
    requires small { at < 65536 }
    requires inside { (dope_row pool.old table row).place + bytes_of_block (dope_row pool.old table row) ≤ length pool.old }
    requires room { at + bytes_of_block (dope_row pool.old table row) ≤ length pool.old }
    requires apart { (table + 10 * row_count pool.old table ≤ at) ⊎ (at + bytes_of_block (dope_row pool.old table row) ≤ table) }
    ensures row { dope_row pool.new table row ≡ record (dope_row pool.old table row) { place = at } }
    ensures others { (r : ℕ) → r ≢ row → r < row_count pool.old table → dope_row pool.new table r ≡ dope_row pool.old table r }
    ensures carried { (k : ℕ) → k < bytes_of_block (dope_row pool.old table row) → slice_index pool.new (at + k) ≡ slice_index pool.old ((dope_row pool.old table row).place + k) }
    ensures outside { (k : ℕ) → (k < at) ⊎ (at + bytes_of_block (dope_row pool.old table row) ≤ k) → (k < table) ⊎ (table + 10 * row_count pool.old table ≤ k) → slice_index pool.new k ≡ slice_index pool.old k }
{
    let found = get(pool, table, row);
    let start = found.place as usize;
    pool.copy_within(start..start + block_bytes(found) as usize, at as usize);
    set(
        pool,
        table,
        row,
        DopeRow {
            place: at as u16,
            ..found
        },
    );
}

/// Moves the table to another place.
fn move_table(pool: &mut [u8], table: u32, at: u32)
    requires some { 0 < row_count pool.old table }
    requires place { (dope_row pool.old table 0).place ≡ table }
    requires stride { (dope_row pool.old table 0).stride ≡ 10 }
    requires small { at < 65536 }
    requires inside { table + bytes_of_block (dope_row pool.old table 0) ≤ length pool.old }
    requires room { at + bytes_of_block (dope_row pool.old table 0) ≤ length pool.old }
    ensures first { dope_row pool.new at 0 ≡ record (dope_row pool.old table 0) { place = at } }
    ensures others { (r : ℕ) → 0 < r → r < row_count pool.old table → dope_row pool.new at r ≡ dope_row pool.old table r }
    ensures outside { (k : ℕ) → (k < at) ⊎ (at + bytes_of_block (dope_row pool.old table 0) ≤ k) → slice_index pool.new k ≡ slice_index pool.old k }
{
    let found = get(pool, table, 0);
    let start = table as usize;
    pool.copy_within(start..start + block_bytes(found) as usize, at as usize);
    set(
        pool,
        at,
        0,
        DopeRow {
            place: at as u16,
            ..found
        },
    );
}
