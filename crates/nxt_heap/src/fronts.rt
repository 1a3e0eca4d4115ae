// Where blocks begin: for each word of the pool the row of the block that begins there.

ghost use Rattle.std.specs.Prelude.{◌≡◌, ◌≢◌, ◌+◌, ◌*◌, ◌/◌, ◌%◌, ◌<◌, ◌≤◌, ℕ, length, slice_index, IfSome, IfNone};
ghost use Rattle.nxt_types.specs.Pool.{pool_size};
ghost use Rattle.nxt_rows.specs.Rows.{dope_row};
ghost use Rattle.nxt_compact.specs.Pools.{IsFull, block_bytes as bytes_of_block};
ghost use Rattle.nxt_heap.specs.Inside.Pool.{IsPool, IsEndBelow, AreFronts, words, no_row, IsFrontIn, IsHole, IsClean, IsFit};

use nxt_compact::block_bytes;
use nxt_rows::get;
use nxt_types::pool::POOL_BYTES;

/// The words of the pool, in which blocks begin.
pub const WORDS: usize = 8_192;

/// No block begins at a word with this number.
pub const NO_ROW: u16 = 0xFFFF;

/// The number of a word.
pub fn word(place: u32) -> usize
    ensures { result ≡ place / 4 }
{
    place as usize / 4
}

/// Notes for each block where it begins.
pub fn note_all(fronts: &mut [u16], pool: &[u8], table: u32)
    requires size { length fronts.old ≡ words }
    requires pool { (base : ℕ) × IsPool pool.now table base }
    ensures { AreFronts pool.now table fronts.new }
{
    fronts.fill(NO_ROW);
    let rows = get(pool, table, 0).count;
    for row in 0..rows {
        let found = get(pool, table, row);
        if block_bytes(found) > 0 {
            fronts[word(found.place as u32)] = row;
        }
    }
}

/// The row of the first block that begins at a word or above it, and below another.
pub fn first_front(fronts: &[u16], from: usize, to: usize) -> Option<u16>
    requires { to ≤ length fronts.now }
    ensures some { IfSome result (IsFrontIn fronts.now from to) }
    ensures none { IfNone result ((w : ℕ) → from ≤ w → w < to → slice_index fronts.now w ≡ no_row) }
{
    for at in from..to {
        let row = fronts[at];
        if row != NO_ROW {
            return Some(row);
        }
    }
    None
}

/// Where the block of a row ends.
pub fn block_end(pool: &[u8], table: u32, row: u16) -> u32
    requires row { table + 10 * (row + 1) ≤ length pool.now }
    requires fits { (dope_row pool.now table row).place + bytes_of_block (dope_row pool.now table row) ≤ pool_size }
    ensures { result ≡ (dope_row pool.now table row).place + bytes_of_block (dope_row pool.now table row) }
{
    let found = get(pool, table, row);
    found.place as u32 + block_bytes(found) as u32
}

/// The front of the lowest hole at a place or above it that holds `bytes`. No block reaches over the place.
pub fn first_fit(fronts: &[u16], pool: &[u8], table: u32, start: u32, bytes: u32) -> Option<u32>
    requires pool { (base : ℕ) × IsPool pool.now table base }
    requires fronts { AreFronts pool.now table fronts.now }
    requires word { start % 4 ≡ 0 }
    requires start { start ≤ pool_size }
    requires clean { IsClean pool.now table start }
    requires bytes { bytes % 4 ≡ 0 }
    requires some { 0 < bytes }
    ensures some { IfSome result (IsFit pool.now table start bytes) }
    ensures none { IfNone result ((p : ℕ) → start ≤ p → IsHole pool.now table p bytes → ⊥) }
{
    let mut at = start;
    while at as u64 + bytes as u64 <= POOL_BYTES {
        match first_front(fronts, word(at), word(at + bytes)) {
            None => return Some(at),
            Some(row) => at = block_end(pool, table, row),
        }
    }
    None
}

/// Where the last block ends that begins below a place.
pub fn last_end(fronts: &[u16], pool: &[u8], table: u32, below: u32) -> u32
    requires pool { (base : ℕ) × IsPool pool.now table base }
    requires fronts { AreFronts pool.now table fronts.now }
    requires below { below ≤ pool_size }
    requires some { (r : ℕ) × IsFull pool.now table r × ((dope_row pool.now table r).place < below) }
    ensures { IsEndBelow pool.now table below result }
{
    let mut at = below.div_ceil(4) as usize;
    while at > 0 {
        at -= 1;
        let row = fronts[at];
        if row != NO_ROW {
            return block_end(pool, table, row);
        }
    }
    0
}
