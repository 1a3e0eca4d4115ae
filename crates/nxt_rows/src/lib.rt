//! The dope table in a pool of bytes (LEGO MINDSTORMS NXT Executable File Specification, "Dope Vectors").
#![tactic(auto)]

ghost use Rattle.std.specs.Prelude.{◌≡◌, ◌≢◌, ◌↔◌, ℕ, [], ◌∷◌, ◌+◌, ◌*◌, ◌<◌, ◌≤◌, length, IsNone, IfNone, IfSome};
ghost use Rattle.std.specs.List.{SameBelow, SameFrom};
ghost use Rattle.nxt_types.specs.Bytes.{u16_at};
ghost use Rattle.nxt_rows.specs.Rows.{dope_row, row_count, IsTable, KeepsOutside, free_rows, IsFreeChain, IsAlive, KeepsOthers, empty_row_of, free_row_of};

use byteorder::{ByteOrder, LittleEndian};
use nxt_types::pool::ROW_BYTES;

/// A row of the dope table: where a list's bytes stand in the pool, how far its elements are apart in bytes, how many
/// they are, the back pointer, and the next row of the chain.
#[derive(Clone, Copy, PartialEq, Eq, Debug)]
pub struct DopeRow {
    pub place: u16,
    pub stride: u16,
    pub count: u16,
    pub back: u16,
    pub link: u16,
}

impl DopeRow {
    /// A living row with an empty list.
    pub fn empty(stride: u16) -> DopeRow
        ensures { result ≡ empty_row_of stride }
    {
        DopeRow {
            place: NO_PLACE,
            stride,
            count: 0,
            back: 0,
            link: 0,
        }
    }

    /// A free row before another one in the chain.
    fn free(next: u16) -> DopeRow
        ensures { result ≡ free_row_of next }
    {
        DopeRow {
            place: NO_PLACE,
            stride: 0,
            count: 0,
            back: 0,
            link: next,
        }
    }
}

/// The place of a row whose list is empty.
pub const NO_PLACE: u16 = 0xFFFF;

fn read_u16(pool: &[u8], at: usize) -> u16
    requires { at + 2 ≤ length pool.now }
    ensures { result ≡ u16_at pool.now at }
{
    LittleEndian::read_u16(&pool[at..at + 2])
}

fn write_u16(pool: &mut [u8], at: usize, n: u16)
    requires { at + 2 ≤ length pool.old }
    ensures written { u16_at pool.new at ≡ n }
    ensures below { SameBelow pool.old pool.new at }
    ensures above { SameFrom pool.old pool.new (at + 2) }
{
    LittleEndian::write_u16(&mut pool[at..at + 2], n);
}

fn row_at(table: u32, row: u16) -> usize
    ensures { result ≡ table + 10 * row }
{
    table as usize + ROW_BYTES as usize * row as usize
}

/// The row of that number in the table at byte `table` of the pool.
#[tactic(auto, unfolding(crate::specs::Rows::dope_row))]
pub fn get(pool: &[u8], table: u32, row: u16) -> DopeRow
    requires { table + 10 * (row + 1) ≤ length pool.now }
    ensures { result ≡ dope_row pool.now table row }
{
    let at = row_at(table, row);
    DopeRow {
        place: read_u16(pool, at),
        stride: read_u16(pool, at + 2),
        count: read_u16(pool, at + 4),
        back: read_u16(pool, at + 6),
        link: read_u16(pool, at + 8),
    }
}

/// Writes the row of that number in the table at byte `table` of the pool.
#[tactic(auto, unfolding(crate::specs::Rows::dope_row))]
pub fn set(pool: &mut [u8], table: u32, row: u16, to: DopeRow)
    requires { table + 10 * (row + 1) ≤ length pool.old }
    ensures row { dope_row pool.new table row ≡ to }
    ensures others { (r : ℕ) → r ≢ row → dope_row pool.new table r ≡ dope_row pool.old table r }
    ensures below { SameBelow pool.old pool.new (table + 10 * row) }
    ensures above { SameFrom pool.old pool.new (table + 10 * row + 10) }
{
    let at = row_at(table, row);
    write_u16(pool, at, to.place);
    write_u16(pool, at + 2, to.stride);
    write_u16(pool, at + 4, to.count);
    write_u16(pool, at + 6, to.back);
    write_u16(pool, at + 8, to.link);
}

/// Takes the first free row for an empty list with elements that are `stride` bytes apart. None where no row is free.
pub fn take_row(pool: &mut [u8], table: u32, stride: u16) -> Option<u16>
    requires table { IsTable pool.old table }
    requires chain { IsFreeChain pool.old table }
    ensures none { IsNone result ↔ (free_rows pool.old table ≡ []) }
    ensures front { IfSome result (λ row. free_rows pool.old table ≡ row ∷ free_rows pool.new table) }
    ensures row { IfSome result (λ row. dope_row pool.new table row ≡ empty_row_of stride) }
    ensures others { IfSome result (λ row. KeepsOthers pool.old pool.new table row) }
    ensures outside { KeepsOutside pool.old pool.new table }
    ensures chain { IsFreeChain pool.new table }
    ensures unchanged { IfNone result (pool.new ≡ pool.old) }
{
    let first = get(pool, table, 0);
    if first.link == 0 {
        return None;
    }
    let row = first.link;
    let next = get(pool, table, row).link;
    set(
        pool,
        table,
        0,
        DopeRow {
            link: next,
            ..first
        },
    );
    set(pool, table, row, DopeRow::empty(stride));
    Some(row)
}

/// Puts a living row at the front of the free rows.
pub fn free_row(pool: &mut [u8], table: u32, row: u16)
    requires table { IsTable pool.old table }
    requires chain { IsFreeChain pool.old table }
    requires alive { IsAlive pool.old table row }
    ensures front { free_rows pool.new table ≡ row ∷ free_rows pool.old table }
    ensures row { dope_row pool.new table row ≡ free_row_of (dope_row pool.old table 0).link }
    ensures others { KeepsOthers pool.old pool.new table row }
    ensures outside { KeepsOutside pool.old pool.new table }
    ensures chain { IsFreeChain pool.new table }
{
    let first = get(pool, table, 0);
    set(pool, table, row, DopeRow::free(first.link));
    set(pool, table, 0, DopeRow { link: row, ..first });
}

/// How many rows are free.
pub fn spare(pool: &[u8], table: u32) -> u16
    requires table { IsTable pool.now table }
    requires chain { IsFreeChain pool.now table }
    ensures { result ≡ length (free_rows pool.now table) }
{
    let mut free = 0;
    let mut row = get(pool, table, 0).link;
    while row != 0 {
        free += 1;
        row = get(pool, table, row).link;
    }
    free
}
