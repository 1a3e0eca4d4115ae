// The blocks of a pool: the table of rows and each list that has bytes, with gaps between them.

ghost use Rattle.std.specs.Prelude.{◌≡◌, ◌≢◌, ◌+◌, ◌*◌, ◌%◌, ◌<◌, ◌≤◌, ◌-◌, ◌/◌, ◌↔◌, ◌⊎◌, ℕ, List, [], None, length, take, drop, replicate, slice_index, IsTrue, IfSome, IfNone, IfOk, IfErr, OnOk, OnErr, false};
ghost use Rattle.nxt_types.specs.Pool.{round4 as rounded, pool_size};
ghost use Rattle.nxt_rows.specs.Rows.{dope_row, row_count, free_rows, no_place};
ghost use Rattle.nxt_blocks.specs.Blocks.{place_after, total};
ghost use Rattle.nxt_compact.specs.Pools.{IsFull, block_bytes as bytes_of_block, blocks_in, slid_in, Compacts};
ghost use Rattle.nxt_facts.specs.PutAt.{put_at};
ghost use Rattle.nxt_heap.specs.Lists.{any_free};
ghost use Rattle.nxt_heap.specs.Moves.{holds_behind, IsPacked, MovesAtNeed, GrowsTable, NoneMoves};
ghost use Rattle.nxt_heap.specs.declared.blocks.BlockState.{BlockState};
ghost use Rattle.nxt_compact.specs.Steps.{moved_to};
ghost use Rattle.nxt_heap.specs.Inside.Pool.{IsPool, IsEnd, AreFronts, IsHole, IsOpenTo, IsEndBelow, IsFit, IsRoom, AreBlocks, BlocksMove, MakesRoom, MayHave, HasMoved, IsListRow, Relists, HasLength, Frees, Takes, IsRefused, HasRow, AddsRow, Stores, lists_in, pool_at, row_bytes as bytes_in_row, words, no_row};

use crate::fronts::{NO_ROW, first_fit, first_front, last_end, note_all, word};
use crate::passed::PoolPassed;
use nxt_compact::{block_bytes, move_block, open_gap};
use nxt_rows::{DopeRow, NO_PLACE, free_row, get, set, take_row};
use nxt_types::pool::{POOL_BYTES, ROW_BYTES, round4};

/// What is known of a pool's blocks, in bytes.
#[derive(Clone, Copy)]
pub struct BlockState {
    /// Where blocks may begin: the end of the static bytes.
    pub base: u32,
    /// Where the table stands.
    pub table: u32,
    /// Where the last block ends.
    pub end: u32,
    /// Where it would end without gaps.
    pub footprint: u32,
    /// A place below which no hole begins that holds what was sought last.
    pub searched: u32,
    /// The length of the hole that was sought last.
    pub sought: u32,
}

/// The front of the lowest hole that holds these bytes.
fn hole(pool: &[u8], fronts: &[u16], at: BlockState, bytes: u32) -> Option<u32>
    requires blocks { AreBlocks pool.now fronts.now at }
    requires word { bytes % 4 ≡ 0 }
    requires some { 0 < bytes }
    ensures some { IfSome result (IsFit pool.now at.table at.base bytes) }
    ensures none { IfNone result ((p : ℕ) → at.base ≤ p → IsHole pool.now at.table p bytes → ⊥) }
{
    let start = if at.end == at.footprint {
        at.end
    } else if bytes >= at.sought {
        at.searched
    } else {
        at.base
    };
    first_fit(fronts, pool, at.table, start, bytes)
}

/// Moves a row's block to a place where no other one has a byte.
fn move_to(pool: &mut [u8], fronts: &mut [u16], at: &mut BlockState, row: u16, place: u32)
    requires blocks { AreBlocks pool.old fronts.old at.old }
    requires full { IsFull pool.old at.old.table row }
    requires above { at.old.base ≤ place }
    requires word { place % 4 ≡ 0 }
    requires hole { IsOpenTo pool.old at.old.table row place (bytes_of_block (dope_row pool.old at.old.table row)) }
    ensures { BlocksMove pool.old fronts.old pool.new fronts.new at.old at.new (moved_to (dope_row pool.old at.old.table row).place place) }
{
    let from = get(pool, at.table, row).place as u32;
    fronts[word(from)] = NO_ROW;
    move_block(pool, &mut at.table, row, place);
    fronts[word(place)] = row;
    at.end = end_after(pool, fronts, *at, row, from);
    at.searched = at.base;
}

/// Where the last block ends once the block of a row has moved from a place.
fn end_after(pool: &[u8], fronts: &[u16], at: BlockState, row: u16, from: u32) -> u32
    requires pool { IsPool pool.now at.table at.base }
    requires fronts { AreFronts pool.now at.table fronts.now }
    requires moved { HasMoved pool.now at row from }
    ensures { IsEnd pool.now at.table result }
{
    let found = get(pool, at.table, row);
    let bytes = block_bytes(found) as u32;
    let end = found.place as u32 + bytes;
    if end >= at.end {
        end
    } else if from + bytes == at.end {
        last_end(fronts, pool, at.table, from)
    } else {
        at.end
    }
}

/// Moves up to `k` of the lowest blocks that have a gap below down to the end of the block before, and gives the number of
/// blocks that moved.
pub fn settle(pool: &mut [u8], fronts: &mut [u16], at: &mut BlockState, k: u16) -> u16
    requires { AreBlocks pool.old fronts.old at.old }
    ensures moves { BlocksMove pool.old fronts.old pool.new fronts.new at.old at.new (place_after k at.old.base (blocks_in pool.old at.old.table)) }
    ensures compacts { Compacts at.old.base k pool.old pool.new at.old.table at.new.table result }
{
    if at.end == at.footprint {
        return 0;
    }
    let mut settled = 0;
    let mut low = at.base;
    while settled < k {
        let Some(row) = first_front(fronts, word(low), word(at.end)) else {
            return settled;
        };
        let found = get(pool, at.table, row);
        if low < found.place as u32 {
            move_to(pool, fronts, at, row, low);
            settled += 1;
        }
        low += block_bytes(found) as u32;
    }
    settled
}

/// Opens room for `bytes` in a row's block by moving other blocks, and gives the block's place.
fn slide(pool: &mut [u8], fronts: &mut [u16], at: &mut BlockState, row: u16, bytes: u32) -> u32
    requires blocks { AreBlocks pool.old fronts.old at.old }
    requires may { MayHave pool.old at.old.table at.old.base row bytes }
    requires full { IsFull pool.old at.old.table row }
    requires longer { bytes_of_block (dope_row pool.old at.old.table row) < bytes }
    ensures moves { BlocksMove pool.old fronts.old pool.new fronts.new at.old at.new (slid_in pool.old at.old.table at.old.base row (bytes - bytes_of_block (dope_row pool.old at.old.table row))) }
    ensures room { IsRoom pool.new at.new.table at.new.base row result bytes }
{
    open_gap(pool, &mut at.table, at.base, row, bytes);
    at.end = refresh(pool, fronts, at.table);
    at.searched = at.base;
    get(pool, at.table, row).place as u32
}

/// Notes anew where blocks begin, and gives the end of the last one.
fn refresh(pool: &[u8], fronts: &mut [u16], table: u32) -> u32
    requires pool { (base : ℕ) × IsPool pool.now table base }
    requires size { length fronts.old ≡ words }
    ensures fronts { AreFronts pool.now table fronts.new }
    ensures end { IsEnd pool.now table result }
{
    note_all(fronts, pool, table);
    last_end(fronts, pool, table, POOL_BYTES as u32)
}

/// Gives a row's block room for `bytes`, and gives the block's place, or where it is to stand if the row has none.
/// Blocks move only at need.
#[inline(always)]
pub fn make_room(
    pool: &mut [u8],
    fronts: &mut [u16],
    at: &mut BlockState,
    row: u16,
    bytes: u32,
) -> u32
    requires blocks { AreBlocks pool.old fronts.old at.old }
    requires may { MayHave pool.old at.old.table at.old.base row bytes }
    ensures moves { (to : ℕ → ℕ) × BlocksMove pool.old fronts.old pool.new fronts.new at.old at.new to }
    ensures room { IsRoom pool.new at.new.table at.new.base row result bytes }
    ensures need { MakesRoom pool.old pool.new at.old at.new row bytes result }
{
    let found = get(pool, at.table, row);
    let had = block_bytes(found) as u32;
    let place = found.place as u32;
    if had == 0 {
        place_new(pool, fronts, at, row, bytes)
    } else if is_open(fronts, place + had, place + bytes) {
        place
    } else {
        place_longer(pool, fronts, at, row, bytes)
    }
}

/// Whether no block begins from a place on and below another, which lies in the pool.
fn is_open(fronts: &[u16], from: u32, to: u32) -> bool
    requires { length fronts.now ≡ words }
    ensures { IsTrue result ↔ ((to ≤ pool_size) × ((w : ℕ) → from / 4 ≤ w → w < to / 4 → slice_index fronts.now w ≡ no_row)) }
{
    to as u64 <= POOL_BYTES && first_front(fronts, word(from), word(to)).is_none()
}

/// Moves a row's block into a hole for `bytes`, or opens room behind it, and gives the block's place.
fn place_longer(
    pool: &mut [u8],
    fronts: &mut [u16],
    at: &mut BlockState,
    row: u16,
    bytes: u32,
) -> u32
    requires blocks { AreBlocks pool.old fronts.old at.old }
    requires may { MayHave pool.old at.old.table at.old.base row bytes }
    requires full { IsFull pool.old at.old.table row }
    requires longer { bytes_of_block (dope_row pool.old at.old.table row) < bytes }
    requires behind { holds_behind at.old.base (pool_at pool.old at.old) row bytes ≡ false }
    ensures moves { (to : ℕ → ℕ) × BlocksMove pool.old fronts.old pool.new fronts.new at.old at.new to }
    ensures room { IsRoom pool.new at.new.table at.new.base row result bytes }
    ensures need { MakesRoom pool.old pool.new at.old at.new row bytes result }
{
    match hole(pool, fronts, *at, bytes) {
        Some(place) => {
            move_to(pool, fronts, at, row, place);
            place
        }
        None => slide(pool, fronts, at, row, bytes),
    }
}

/// Finds a hole for `bytes` of a row without a block, or closes all gaps, and gives the place.
fn place_new(pool: &mut [u8], fronts: &mut [u16], at: &mut BlockState, row: u16, bytes: u32) -> u32
    requires blocks { AreBlocks pool.old fronts.old at.old }
    requires may { MayHave pool.old at.old.table at.old.base row bytes }
    requires empty { bytes_of_block (dope_row pool.old at.old.table row) ≡ 0 }
    ensures moves { (to : ℕ → ℕ) × BlocksMove pool.old fronts.old pool.new fronts.new at.old at.new to }
    ensures room { IsRoom pool.new at.new.table at.new.base row result bytes }
    ensures need { MakesRoom pool.old pool.new at.old at.new row bytes result }
{
    match hole(pool, fronts, *at, bytes) {
        Some(place) => {
            at.searched = place;
            at.sought = bytes;
            place
        }
        None => {
            settle(pool, fronts, at, u16::MAX);
            at.footprint
        }
    }
}

/// Gives a list its `bytes` at a place that has room for them. Its front stays, and new bytes are 0.
fn set_length(
    pool: &mut [u8],
    fronts: &mut [u16],
    at: &mut BlockState,
    row: u16,
    place: u32,
    bytes: u32,
)
    requires blocks { AreBlocks pool.old fronts.old at.old }
    requires list { IsListRow pool.old at.old.table row bytes }
    requires some { 0 < bytes }
    requires room { IsRoom pool.old at.old.table at.old.base row place (rounded bytes) }
    ensures length { HasLength pool.old pool.new fronts.new at.old at.new row bytes }
    ensures row { Relists pool.old pool.new at.old.table row place (bytes / (dope_row pool.old at.old.table row).stride) (rounded bytes) }
    ensures table { at.new.table ≡ at.old.table }
{
    let block = block_bytes(get(pool, at.table, row)) as u32;
    let room = round4(bytes as u64) as u32;
    write_length(pool, at.table, row, place, bytes);
    fronts[word(place)] = row;
    at.end = if place + block == at.end {
        place + room
    } else {
        at.end.max(place + room)
    };
    at.footprint = at.footprint + room - block;
    at.searched = still_searched(*at, place);
}

/// Writes the row of a list that has its `bytes` at a place, and zeros behind its front.
fn write_length(pool: &mut [u8], table: u32, row: u16, place: u32, bytes: u32)
    requires list { IsListRow pool.old table row bytes }
    requires table { table + 10 * row_count pool.old table ≤ length pool.old }
    requires size { length pool.old ≤ pool_size }
    requires room { place + rounded bytes ≤ length pool.old }
    requires apart { (table + 10 * row_count pool.old table ≤ place) ⊎ (place + rounded bytes ≤ table) }
    requires some { 0 < bytes }
    ensures relists { Relists pool.old pool.new table row place (bytes / (dope_row pool.old table row).stride) (rounded bytes) }
    ensures keeps { (k : ℕ) → k < bytes_in_row (dope_row pool.old table row) → k < bytes → slice_index pool.new (place + k) ≡ slice_index pool.old (place + k) }
    ensures zeros { (k : ℕ) → bytes_in_row (dope_row pool.old table row) ≤ k → k < bytes → slice_index pool.new (place + k) ≡ 0 }
{
    let found = get(pool, table, row);
    let had = byte_count(found).min(bytes);
    clear(pool, (place + had) as usize, (place + bytes) as usize);
    let count = (bytes / found.stride as u32) as u16;
    let place = place as u16;
    set(
        pool,
        table,
        row,
        DopeRow {
            place,
            count,
            ..found
        },
    );
}

/// Makes the bytes between two places 0.
fn clear(pool: &mut [u8], from: usize, to: usize)
    requires order { from ≤ to }
    requires end { to ≤ length pool.old }
    ensures zeros { (k : ℕ) → from ≤ k → k < to → slice_index pool.new k ≡ 0 }
    ensures outside { (k : ℕ) → (k < from) ⊎ (to ≤ k) → slice_index pool.new k ≡ slice_index pool.old k }
{
    pool[from..to].fill(0);
}

/// How many bytes a row's list has.
pub fn byte_count(row: DopeRow) -> u32
    ensures { result ≡ bytes_in_row row }
{
    row.count as u32 * row.stride as u32
}

/// Gives a list no bytes.
fn drop_bytes(pool: &mut [u8], fronts: &mut [u16], at: &mut BlockState, row: u16)
    requires blocks { AreBlocks pool.old fronts.old at.old }
    requires list { IsListRow pool.old at.old.table row 0 }
    ensures length { HasLength pool.old pool.new fronts.new at.old at.new row 0 }
    ensures row { Relists pool.old pool.new at.old.table row no_place 0 0 }
    ensures table { at.new.table ≡ at.old.table }
{
    let found = get(pool, at.table, row);
    let block = block_bytes(found) as u32;
    write_none(pool, at.table, row);
    if block > 0 {
        let place = found.place as u32;
        fronts[word(place)] = NO_ROW;
        at.end = if place + block == at.end {
            end_below(pool, fronts, *at, place)
        } else {
            at.end
        };
        at.footprint -= block;
        at.searched = at.base;
    }
}

/// Where the last block ends that begins below the place at which the last of all blocks began.
fn end_below(pool: &[u8], fronts: &[u16], at: BlockState, place: u32) -> u32
    requires pool { IsPool pool.now at.table at.base }
    requires fronts { AreFronts pool.now at.table fronts.now }
    requires below { place ≤ pool_size }
    requires most { (r : ℕ) → IsFull pool.now at.table r → (dope_row pool.now at.table r).place + bytes_of_block (dope_row pool.now at.table r) ≤ place }
    requires packed { at.end ≡ at.footprint → place ≤ at.base + total (blocks_in pool.now at.table) }
    ensures { IsEndBelow pool.now at.table place result }
{
    if at.end == at.footprint {
        place
    } else {
        last_end(fronts, pool, at.table, place)
    }
}

/// Writes the row of a list without bytes.
fn write_none(pool: &mut [u8], table: u32, row: u16)
    requires { table + 10 * (row + 1) ≤ length pool.old }
    ensures { Relists pool.old pool.new table row no_place 0 0 }
{
    let found = get(pool, table, row);
    let (place, count) = (NO_PLACE, 0);
    set(
        pool,
        table,
        row,
        DopeRow {
            place,
            count,
            ..found
        },
    );
}

/// Gives a list the length of `bytes`, a multiple of its stride. Its front stays, and new bytes are 0.
pub fn resize_list(pool: &mut [u8], fronts: &mut [u16], at: &mut BlockState, row: u16, bytes: u32)
    requires blocks { AreBlocks pool.old fronts.old at.old }
    requires list { IsListRow pool.old at.old.table row bytes }
    requires fits { at.old.footprint + rounded bytes ≤ pool_size + bytes_of_block (dope_row pool.old at.old.table row) }
    ensures length { HasLength pool.old pool.new fronts.new at.old at.new row bytes }
    ensures need { MovesAtNeed at.old.base (pool_at pool.old at.old) (pool_at pool.new at.new) row (rounded bytes) }
    ensures shorter { rounded bytes ≤ bytes_of_block (dope_row pool.old at.old.table row) → NoneMoves (pool_at pool.old at.old) (pool_at pool.new at.new) }
{
    if bytes == 0 {
        drop_bytes(pool, fronts, at, row);
        return;
    }
    let room = round4(bytes as u64) as u32;
    let place = make_room(pool, fronts, at, row, room);
    set_length(pool, fronts, at, row, place, bytes);
}

/// Frees a list and its row.
pub fn free_list(pool: &mut [u8], fronts: &mut [u16], at: &mut BlockState, row: u16)
    requires blocks { AreBlocks pool.old fronts.old at.old }
    requires list { IsListRow pool.old at.old.table row 0 }
    ensures { Frees pool.old pool.new fronts.new at.old at.new row }
{
    drop_bytes(pool, fronts, at, row);
    free_row(pool, at.table, row);
}

/// Takes a free row for an empty list, or adds one to the table where the pool holds it.
pub fn new_list(
    pool: &mut [u8],
    fronts: &mut [u16],
    at: &mut BlockState,
    stride: u16,
) -> Result<u16, PoolPassed>
    requires blocks { AreBlocks pool.old fronts.old at.old }
    requires stride { 1 ≤ stride }
    ensures ok { IfOk result (Takes pool.old pool.new fronts.new at.old at.new stride) }
    ensures need { OnOk result (GrowsTable at.old.base (pool_at pool.old at.old) (pool_at pool.new at.new) (any_free (lists_in pool.old at.old.table)) (rounded (10 * (row_count pool.old at.old.table + 1)))) }
    ensures passed { IfErr result (λ e. IsRefused pool.old at.old e.0) }
    ensures err { OnErr result ((pool.new ≡ pool.old) × (fronts.new ≡ fronts.old) × (at.new ≡ at.old)) }
{
    match take_row(pool, at.table, stride) {
        Some(row) => Ok(row),
        None => add_list(pool, fronts, at, stride),
    }
}

/// Adds a row with an empty list to the table where the pool holds it.
fn add_list(
    pool: &mut [u8],
    fronts: &mut [u16],
    at: &mut BlockState,
    stride: u16,
) -> Result<u16, PoolPassed>
    requires blocks { AreBlocks pool.old fronts.old at.old }
    requires full { free_rows pool.old at.old.table ≡ [] }
    requires stride { 1 ≤ stride }
    ensures ok { IfOk result (Takes pool.old pool.new fronts.new at.old at.new stride) }
    ensures need { OnOk result (MovesAtNeed at.old.base (pool_at pool.old at.old) (pool_at pool.new at.new) 0 (rounded (10 * (row_count pool.old at.old.table + 1)))) }
    ensures passed { IfErr result (λ e. IsRefused pool.old at.old e.0) }
    ensures err { OnErr result ((pool.new ≡ pool.old) × (fronts.new ≡ fronts.old) × (at.new ≡ at.old)) }
{
    let row = get(pool, at.table, 0).count;
    let had = ROW_BYTES * row as u64;
    let room = round4(had + ROW_BYTES);
    let footprint = at.footprint as u64 - round4(had) + room;
    if footprint > POOL_BYTES {
        return Err(PoolPassed(footprint));
    }
    make_room(pool, fronts, at, 0, room as u32);
    add_row(pool, fronts, at, stride);
    Ok(row)
}

/// Adds a row with an empty list to a table that has room for it.
fn add_row(pool: &mut [u8], fronts: &[u16], at: &mut BlockState, stride: u16)
    requires blocks { AreBlocks pool.old fronts.now at.old }
    requires full { free_rows pool.old at.old.table ≡ [] }
    requires stride { 1 ≤ stride }
    requires room { IsRoom pool.old at.old.table at.old.base 0 at.old.table (rounded (10 * (row_count pool.old at.old.table + 1))) }
    ensures added { HasRow pool.old pool.new fronts.now at.old at.new stride }
    ensures rows { AddsRow pool.old pool.new at.old.table stride }
    ensures table { at.new.table ≡ at.old.table }
{
    let rows = get(pool, at.table, 0).count;
    let had = round4(ROW_BYTES * rows as u64) as u32;
    let room = round4(ROW_BYTES * (rows as u64 + 1)) as u32;
    write_row(pool, at.table, stride);
    at.end = if at.table + had == at.end {
        at.table + room
    } else {
        at.end.max(at.table + room)
    };
    at.footprint = at.footprint + room - had;
    at.searched = still_searched(*at, at.table);
}

/// Up to where it stays known that no hole begins once a block has another size that stands at a place.
fn still_searched(at: BlockState, place: u32) -> u32
    ensures { (result ≡ at.base) ⊎ ((result ≡ at.searched) × (at.searched ≤ place)) }
{
    if place < at.searched {
        at.base
    } else {
        at.searched
    }
}

/// Writes a row with an empty list behind the last one.
fn write_row(pool: &mut [u8], table: u32, stride: u16)
    requires fits { table + 10 * (row_count pool.old table + 1) ≤ length pool.old }
    requires some { 0 < row_count pool.old table }
    requires small { row_count pool.old table < 65535 }
    ensures { AddsRow pool.old pool.new table stride }
{
    let first = get(pool, table, 0);
    let rows = first.count;
    let count = rows + 1;
    set(pool, table, 0, DopeRow { count, ..first });
    set(pool, table, rows, DopeRow::empty(stride));
}

/// Lays out zeros, with a table of row 0 and free rows where blocks may begin.
pub fn lay_out(pool: &mut [u8], fronts: &mut [u16], base: u32, rows: u16) -> BlockState
    requires size { length pool.old ≡ pool_size }
    requires fronts { length fronts.old ≡ words }
    requires word { base % 4 ≡ 0 }
    requires rows { 1 ≤ rows }
    requires fits { base + rounded (10 * rows) ≤ pool_size }
    ensures blocks { AreBlocks pool.new fronts.new result }
    ensures base { result.base ≡ base }
    ensures packed { IsPacked base (pool_at pool.new result) }
    ensures lists { lists_in pool.new result.table ≡ replicate rows None }
    ensures zeros { (k : ℕ) → k < base → slice_index pool.new k ≡ 0 }
{
    free_all(pool, base, rows);
    note_all(fronts, pool, base);
    let end = base + round4(ROW_BYTES * rows as u64) as u32;
    BlockState {
        base,
        table: base,
        end,
        footprint: end,
        searched: base,
        sought: 0,
    }
}

/// Makes all bytes 0, and a table of `rows` rows at this place, row 0 and free rows.
fn free_all(pool: &mut [u8], table: u32, rows: u16)
    requires size { length pool.old ≡ pool_size }
    requires word { table % 4 ≡ 0 }
    requires rows { 1 ≤ rows }
    requires fits { table + rounded (10 * rows) ≤ pool_size }
    ensures pool { IsPool pool.new table table }
    ensures end { IsEnd pool.new table (table + rounded (10 * rows)) }
    ensures total { total (blocks_in pool.new table) ≡ rounded (10 * rows) }
    ensures lists { lists_in pool.new table ≡ replicate rows None }
    ensures zeros { (k : ℕ) → k < table → slice_index pool.new k ≡ 0 }
{
    pool.fill(0);
    let first = DopeRow {
        place: table as u16,
        stride: ROW_BYTES as u16,
        count: rows,
        back: 0,
        link: 0,
    };
    set(pool, table, 0, first);
    let mut row = rows;
    while row > 1 {
        row -= 1;
        free_row(pool, table, row);
    }
}

/// The bytes of a row's list.
pub fn row_bytes(pool: &[u8], table: u32, row: u16) -> &[u8]
    requires row { table + 10 * (row + 1) ≤ length pool.now }
    requires inside { 0 < bytes_in_row (dope_row pool.now table row) → (dope_row pool.now table row).place + bytes_in_row (dope_row pool.now table row) ≤ length pool.now }
    ensures { result.now ≡ take (bytes_in_row (dope_row pool.now table row)) (drop (dope_row pool.now table row).place pool.now) }
{
    let found = get(pool, table, row);
    let bytes = byte_count(found) as usize;
    if bytes == 0 {
        return &[];
    }
    let at = found.place as usize;
    &pool[at..at + bytes]
}

/// Stores bytes of a row's list from a place on.
pub fn write_bytes(pool: &mut [u8], table: u32, row: u16, at: u32, bytes: &[u8])
    requires blocks { (fronts : List ℕ) × (p : BlockState) × AreBlocks pool.old fronts p × (table ≡ p.table) }
    requires list { IsListRow pool.old table row 0 }
    requires at { at + length bytes.now ≤ bytes_in_row (dope_row pool.old table row) }
    ensures { Stores pool.old pool.new table row at bytes.now }
{
    if bytes.is_empty() {
        return;
    }
    let found = get(pool, table, row);
    put(pool, found.place as usize + at as usize, bytes);
}

/// Stores bytes from a place on.
pub fn put(pool: &mut [u8], at: usize, bytes: &[u8])
    requires { at + length bytes.now ≤ length pool.old }
    ensures { pool.new ≡ put_at at bytes.now pool.old }
{
    pool[at..at + bytes.len()].copy_from_slice(bytes);
}

/// Stores the bytes of a row's list in another one, from its first byte on.
pub fn copy_bytes(pool: &mut [u8], table: u32, to: u16, from: u16)
    requires blocks { (fronts : List ℕ) × (p : BlockState) × AreBlocks pool.old fronts p × (table ≡ p.table) }
    requires list { IsListRow pool.old table to 0 }
    requires source { IsListRow pool.old table from 0 }
    requires fits { bytes_in_row (dope_row pool.old table from) ≤ bytes_in_row (dope_row pool.old table to) }
    ensures { Stores pool.old pool.new table to 0 (take (bytes_in_row (dope_row pool.old table from)) (drop (dope_row pool.old table from).place pool.old)) }
{
    let source = get(pool, table, from);
    let bytes = byte_count(source) as usize;
    if bytes > 0 {
        let place = get(pool, table, to).place as usize;
        copy_part(pool, source.place as usize, bytes, place);
    }
}

/// Stores `bytes` from one place at another.
fn copy_part(pool: &mut [u8], from: usize, bytes: usize, to: usize)
    requires from { from + bytes ≤ length pool.old }
    requires to { to + bytes ≤ length pool.old }
    ensures { pool.new ≡ put_at to (take bytes (drop from pool.old)) pool.old }
{
    pool.copy_within(from..from + bytes, to);
}
