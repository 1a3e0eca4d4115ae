// Which pools the calls may be made on.

ghost use Rattle.std.specs.Prelude.{◌≡◌, ◌+◌, ◌*◌, ◌<◌, ◌≤◌, true, length};
ghost use Rattle.nxt_rows.specs.Rows.{row_count, IsTable};
ghost use Rattle.nxt_compact.specs.Pools.{IsSound, HasRoom};
ghost use Rattle.nxt_tests_compact.specs.Stands.{AreApart, IsApartBefore, IsInside};

use nxt_compact::block_bytes;
use nxt_rows::{DopeRow, get};
use nxt_types::pool::round4;

// The blocks of two rows share no byte.
fn are_apart(a: DopeRow, b: DopeRow) -> bool
    ensures { result ≡ true → AreApart a b }
{
    let first = block_bytes(a);
    let second = block_bytes(b);
    if first == 0 || second == 0 {
        return true;
    }
    if a.place <= b.place {
        first <= (b.place - a.place) as u64
    } else {
        second <= (a.place - b.place) as u64
    }
}

// The row's block lies between the static bytes and the pool's end.
fn is_inside(row: DopeRow, base: u32, size: u64) -> bool
    ensures { result ≡ true → IsInside row base size }
{
    let bytes = block_bytes(row);
    let place = row.place as u64;
    bytes == 0 || base as u64 <= place && place <= size && bytes <= size - place
}

// The row's block shares no byte with one of an earlier row.
fn is_apart_before(pool: &[u8], table: u32, row: u16) -> bool
    requires { table + 10 * (row + 1) ≤ length pool.now }
    ensures { result ≡ true → IsApartBefore pool.now table row }
{
    let found = get(pool, table, row);
    for other in 0..row {
        if !are_apart(get(pool, table, other), found) {
            return false;
        }
    }
    true
}

// The table lies in the pool, and row 0 tells of it.
fn is_table(pool: &[u8], table: u32) -> bool
    ensures { result ≡ true → IsTable pool.now table }
{
    if pool.len() < 10 || table as usize > pool.len() - 10 {
        return false;
    }
    let rows = get(pool, table, 0).count;
    0 < rows && table as usize + 10 * rows as usize <= pool.len()
}

/// Whether row 0 tells where the table stands, and the blocks share no byte and lie between the static bytes and the
/// pool's end.
pub(crate) fn is_sound(pool: &[u8], table: u32, base: u32) -> bool
    ensures { result ≡ true → IsSound pool.now table base }
{
    if pool.len() > 65_536 || !is_table(pool, table) {
        return false;
    }
    let first = get(pool, table, 0);
    if first.place as u32 != table || first.stride != 10 {
        return false;
    }
    for row in 0..first.count {
        if !is_inside(get(pool, table, row), base, pool.len() as u64) {
            return false;
        }
        if !is_apart_before(pool, table, row) {
            return false;
        }
    }
    true
}

/// Whether the pool holds the blocks with `bytes` in the row's one.
pub(crate) fn has_room(pool: &[u8], table: u32, base: u32, row: u16, bytes: u32) -> bool
    requires { IsSound pool.now table base }
    ensures { result ≡ true → HasRoom pool.now table base row bytes }
{
    let rows = get(pool, table, 0).count;
    if row >= rows {
        return false;
    }
    let had = block_bytes(get(pool, table, row));
    let mut end = base as u64;
    for row in 0..rows {
        end += block_bytes(get(pool, table, row));
    }
    let room = round4(bytes as u64);
    room <= had || end + (room - had) <= pool.len() as u64
}
