ghost use Rattle.std.specs.Prelude.{◌≡◌, ◌+◌, ◌*◌, ◌++◌, ◌∷◌, [], ◌<◌, ◌≤◌, ℕ, length, OnOk, OnErr, IfErr, IfOk, IfSome, ◌%◌, ◌^◌, None, take};
ghost use Rattle.nxt_facts.specs.PutAt.{put_at};
ghost use Rattle.nxt_types.specs.Pool.{round4 as rounded, pool_size};
ghost use Rattle.nxt_heap.specs.Dumps.{HoldHeap, IsDopeTable, row_of};
ghost use Rattle.nxt_heap.specs.Lists.{IsAlive, list_at, stride_at, bytes_at, footprint, Passes, IsFree, with_free, with_free_row, empty_list, zero_heap, base_of, with_list, with_length, with_bytes, with_these, any_free};
ghost use Rattle.nxt_heap.specs.Moves.{MovesAtNeed, GrowsTable, IsPacked, KeepsFront, NoneMoves, RowsStay, OthersStay};
ghost use Rattle.nxt_compact.specs.Pools.{blocks_in, Compacts, IsSound};
ghost use Rattle.nxt_blocks.specs.Blocks.{unsettled as unsettled_in};
ghost use Rattle.nxt_model.specs.Dump.{greatest_end};
ghost use Rattle.nxt_heap.specs.Inside.Pool.{Shows};

use crate::blocks::{
    BlockState, byte_count, copy_bytes, free_list, lay_out, new_list, put, resize_list, row_bytes,
    settle, write_bytes,
};
use crate::fronts::{NO_ROW, WORDS};
use crate::passed::PoolPassed;
use nxt_compact::{block_bytes, unsettled};
use nxt_rows::get;
use nxt_types::pool::{POOL_BYTES, round4};
use nxt_types::{Bytes, NoMemory};
use std::alloc::Global;
use std::marker::Model;

/// Static bytes and byte lists by row, in a pool of 32,768 bytes. Contracts see both: the lists, and the pool's bytes with
/// the place of the table.
///
/// The static bytes stand first. Above them stand the dope table and a block for each list, in any order and with gaps
/// between them. A block is a multiple of 4 bytes long, and begins at one. For each word of the pool, `fronts` has the row
/// whose block begins there.
#[derive(Drop)]
pub struct Heap {
    pool: Vec<u8>,
    fronts: Vec<u16>,
    static_size: u32,
    state: BlockState,
}

impl Model for Heap {
    ghost use Rattle.nxt_heap.specs.Lists.{HeapViews};
    ghost use Rattle.nxt_heap.specs.Inside.Pool.{views_of, IsHeap};

    ghost Value = { HeapViews };

    ghost view = { λ a. views_of a.static_size (record { bytes = a.pool.items; table = a.state.table }) };

    ghost invariant = { λ a. IsHeap a.static_size a.state a.pool.items a.fronts.items };
}

impl Heap {
    /// A heap of zeros, with a table of row 0 and free rows right above the static bytes. All the memory that later calls need
    /// is taken here.
    pub fn new(alloc: Global, static_size: u32, rows: u16) -> Result<Heap, NoMemory>
        requires rows { 1 ≤ rows }
        requires fits { rounded static_size + rounded (10 * rows) ≤ pool_size }
        ensures lists { IfOk result (λ heap. heap.lists ≡ zero_heap static_size rows) }
        ensures packed { IfOk result (λ heap. IsPacked (base_of heap.lists) heap.pool) }
    {
        let mut pool = vec![in alloc; 0; POOL_BYTES as usize]?;
        let mut fronts = vec![in alloc; NO_ROW; WORDS]?;
        let base = round4(static_size as u64) as u32;
        let state = lay_out(&mut pool, &mut fronts, base, rows);
        Ok(Heap {
            pool,
            fronts,
            static_size,
            state,
        })
    }

    /// Takes over all that another heap holds.
    pub fn copy_from(&mut self, other: &Heap)
        ensures { self.new ≡ other.now }
    {
        self.pool.copy_from_slice(&other.pool);
        self.fronts.copy_from_slice(&other.fronts);
        self.static_size = other.static_size;
        self.state = other.state;
    }

    /// The static bytes.
    pub fn static_bytes(&self) -> &[u8]
        ensures { result.now ≡ self.now.lists.static_bytes }
    {
        &self.pool[..self.static_size as usize]
    }

    /// Stores static bytes from a place on.
    pub fn set_static(&mut self, at: u32, bytes: &[u8])
        requires { at + length bytes.now ≤ length self.old.lists.static_bytes }
        ensures lists { self.new.lists ≡ record self.old.lists { static_bytes = put_at at bytes.now self.old.lists.static_bytes } }
        ensures stay { RowsStay self.old.pool self.new.pool }
    {
        put(&mut self.pool, at as usize, bytes);
    }

    /// Takes a free row for an empty list of elements that are `stride` bytes apart, or adds a row to the table, and gives
    /// the row's number.
    pub fn new_array(&mut self, stride: u16) -> Result<u16, PoolPassed>
        requires { 1 ≤ stride }
        ensures free { IfOk result (λ row. IsFree (with_free self.old.lists.by_row) row) }
        ensures ok { IfOk result (λ row. self.new.lists ≡ with_list (with_free_row self.old.lists) row (empty_list stride)) }
        ensures moves { OnOk result (GrowsTable (base_of self.old.lists) self.old.pool self.new.pool (any_free self.old.lists.by_row) (rounded (10 * (length self.old.lists.by_row + 1)))) }
        ensures front { OnOk result (KeepsFront self.old self.new) }
        ensures fits { OnOk result (footprint (with_free_row self.old.lists) ≤ pool_size) }
        ensures passed { IfErr result (λ e. Passes (with_free_row self.old.lists) e.0) }
        ensures err { OnErr result (self.new ≡ self.old) }
    {
        new_list(&mut self.pool, &mut self.fronts, &mut self.state, stride)
    }

    /// Gives a list another number of bytes, a multiple of its stride. The front of the list stays, and new bytes are 0.
    pub fn resize(&mut self, row: u16, bytes: u32) -> Result<(), PoolPassed>
        requires alive { IsAlive self.old.lists row }
        requires whole { bytes % stride_at self.old.lists row ≡ 0 }
        ensures ok { OnOk result (self.new.lists ≡ with_length self.old.lists row bytes) }
        ensures moves { OnOk result (MovesAtNeed (base_of self.old.lists) self.old.pool self.new.pool row (rounded bytes)) }
        ensures front { OnOk result (KeepsFront self.old self.new) }
        ensures shorter { OnOk result (bytes ≤ length (bytes_at self.old.lists row) → NoneMoves self.old.pool self.new.pool) }
        ensures fits { OnOk result (footprint (with_length self.old.lists row bytes) ≤ pool_size) }
        ensures passed { IfErr result (λ e. Passes (with_length self.old.lists row bytes) e.0) }
        ensures err { OnErr result (self.new ≡ self.old) }
    {
        let found = get(&self.pool, self.state.table, row);
        if byte_count(found) == bytes {
            return Ok(());
        }
        let footprint = self.state.footprint as u64 - block_bytes(found) + round4(bytes as u64);
        if footprint > POOL_BYTES {
            return Err(PoolPassed(footprint));
        }
        resize_list(
            &mut self.pool,
            &mut self.fronts,
            &mut self.state,
            row,
            bytes,
        );
        Ok(())
    }

    /// Gives a list these bytes, a multiple of its stride, in place of its own.
    pub fn set_list(&mut self, row: u16, bytes: &[u8]) -> Result<(), PoolPassed>
        requires alive { IsAlive self.old.lists row }
        requires whole { length bytes.now % stride_at self.old.lists row ≡ 0 }
        requires small { length bytes.now < 2 ^ 32 }
        ensures ok { OnOk result (self.new.lists ≡ with_these self.old.lists row bytes.now) }
        ensures moves { OnOk result (MovesAtNeed (base_of self.old.lists) self.old.pool self.new.pool row (rounded (length bytes.now))) }
        ensures shorter { OnOk result (length bytes.now ≤ length (bytes_at self.old.lists row) → NoneMoves self.old.pool self.new.pool) }
        ensures fits { OnOk result (footprint (with_these self.old.lists row bytes.now) ≤ pool_size) }
        ensures passed { IfErr result (λ e. Passes (with_these self.old.lists row bytes.now) e.0) }
        ensures err { OnErr result (self.new ≡ self.old) }
    {
        self.resize(row, bytes.len() as u32)?;
        self.write(row, 0, bytes);
        Ok(())
    }

    /// Gives a list of single bytes these bytes and a zero behind them, in place of its own.
    pub fn set_text(&mut self, row: u16, bytes: &[u8]) -> Result<(), PoolPassed>
        requires alive { IsAlive self.old.lists row }
        requires single { stride_at self.old.lists row ≡ 1 }
        requires small { length bytes.now + 1 < 2 ^ 32 }
        ensures ok { OnOk result (self.new.lists ≡ with_these self.old.lists row (bytes.now ++ 0 ∷ [])) }
        ensures moves { OnOk result (MovesAtNeed (base_of self.old.lists) self.old.pool self.new.pool row (rounded (length bytes.now + 1))) }
        ensures shorter { OnOk result (length bytes.now + 1 ≤ length (bytes_at self.old.lists row) → NoneMoves self.old.pool self.new.pool) }
        ensures fits { OnOk result (footprint (with_these self.old.lists row (bytes.now ++ 0 ∷ [])) ≤ pool_size) }
        ensures passed { IfErr result (λ e. Passes (with_these self.old.lists row (bytes.now ++ 0 ∷ [])) e.0) }
        ensures err { OnErr result (self.new ≡ self.old) }
    {
        let end = bytes.len() as u32;
        self.resize(row, end + 1)?;
        self.write(row, 0, bytes);
        self.write(row, end, &[0]);
        Ok(())
    }

    /// Gives a list the bytes of another one, which keeps them. They are a multiple of its stride.
    pub fn copy_list(&mut self, to: u16, from: u16) -> Result<(), PoolPassed>
        requires alive { IsAlive self.old.lists to }
        requires source { IsAlive self.old.lists from }
        requires whole { length (bytes_at self.old.lists from) % stride_at self.old.lists to ≡ 0 }
        ensures ok { OnOk result (self.new.lists ≡ with_these self.old.lists to (bytes_at self.old.lists from)) }
        ensures moves { OnOk result (MovesAtNeed (base_of self.old.lists) self.old.pool self.new.pool to (rounded (length (bytes_at self.old.lists from)))) }
        ensures shorter { OnOk result (length (bytes_at self.old.lists from) ≤ length (bytes_at self.old.lists to) → NoneMoves self.old.pool self.new.pool) }
        ensures fits { OnOk result (footprint (with_these self.old.lists to (bytes_at self.old.lists from)) ≤ pool_size) }
        ensures passed { IfErr result (λ e. Passes (with_these self.old.lists to (bytes_at self.old.lists from)) e.0) }
        ensures err { OnErr result (self.new ≡ self.old) }
    {
        let bytes = self.size_of(from);
        self.resize(to, bytes)?;
        self.copy(to, from);
        Ok(())
    }

    // How many bytes a list has.
    fn size_of(&self, row: u16) -> u32
        requires { IsAlive self.now.lists row }
        ensures { result ≡ length (bytes_at self.now.lists row) }
    {
        byte_count(get(&self.pool, self.state.table, row))
    }

    // Stores the bytes of a list in another one that is as long.
    fn copy(&mut self, to: u16, from: u16)
        requires alive { IsAlive self.old.lists to }
        requires source { IsAlive self.old.lists from }
        requires long { length (bytes_at self.old.lists from) ≤ length (bytes_at self.old.lists to) }
        ensures lists { self.new.lists ≡ with_bytes self.old.lists to 0 (bytes_at self.old.lists from) }
        ensures stay { RowsStay self.old.pool self.new.pool }
    {
        copy_bytes(&mut self.pool, self.state.table, to, from);
    }

    /// Frees a list and its row.
    pub fn free_array(&mut self, row: u16)
        requires { IsAlive self.old.lists row }
        ensures lists { self.new.lists ≡ with_list self.old.lists row None }
        ensures stay { OthersStay self.old.pool self.new.pool row }
    {
        free_list(&mut self.pool, &mut self.fronts, &mut self.state, row);
    }

    /// How many bytes the elements of a row's list are apart; `None` where the row has no list.
    pub fn stride(&self, row: u16) -> Option<u16>
        ensures alive { IfSome result (λ _. IsAlive self.now.lists row) }
        ensures stride { IfSome result (λ stride. stride ≡ stride_at self.now.lists row) }
        ensures none { result ≡ None → list_at self.now.lists row ≡ None }
    {
        let table = self.state.table;
        if row == 0 || row >= get(&self.pool, table, 0).count {
            return None;
        }
        let stride = get(&self.pool, table, row).stride;
        if stride == 0 { None } else { Some(stride) }
    }

    /// The bytes of a list.
    pub fn bytes_of(&self, row: u16) -> &[u8]
        requires { IsAlive self.now.lists row }
        ensures { result.now ≡ bytes_at self.now.lists row }
    {
        row_bytes(&self.pool, self.state.table, row)
    }

    /// Stores bytes of a list from a place on.
    pub fn write(&mut self, row: u16, at: u32, bytes: &[u8])
        requires alive { IsAlive self.old.lists row }
        requires at { at + length bytes.now ≤ length (bytes_at self.old.lists row) }
        ensures lists { self.new.lists ≡ with_bytes self.old.lists row at bytes.now }
        ensures stay { RowsStay self.old.pool self.new.pool }
    {
        write_bytes(&mut self.pool, self.state.table, row, at, bytes);
    }

    /// Moves up to `k` of the lowest blocks that have a gap below down to the end of the block before, and gives the number
    /// of blocks that moved.
    pub fn compact(&mut self, k: u16) -> u16
        ensures lists { self.new.lists ≡ self.old.lists }
        ensures settles { Compacts (base_of self.old.lists) k self.old.pool.bytes self.new.pool.bytes self.old.pool.table self.new.pool.table result }
    {
        settle(&mut self.pool, &mut self.fronts, &mut self.state, k)
    }

    /// How many blocks have a gap somewhere below them.
    pub fn unsettled(&self) -> u16
        ensures { result ≡ unsettled_in (base_of self.now.lists) (blocks_in self.now.pool.bytes self.now.pool.table) }
    {
        unsettled(&self.pool, self.state.table, self.state.base)
    }

    /// The pool from its first byte to the end of the last block. Its rows read as the lists.
    pub fn dump(&self, alloc: Global) -> Result<Bytes, NoMemory>
        ensures shows { IfOk result (λ bytes. Shows bytes self.now.pool.table self.now.lists) }
        ensures holds { IfOk result (λ bytes. HoldHeap bytes self.now.pool.table self.now.lists) }
        ensures table { IfOk result (λ bytes. IsDopeTable bytes self.now.pool.table self.now.lists) }
        ensures rows { IfOk result (λ bytes. (r : ℕ) → r < length self.now.lists.by_row → row_of bytes self.now.pool.table r ≡ row_of self.now.pool.bytes self.now.pool.table r) }
        ensures front { IfOk result (λ bytes. bytes ≡ take (length bytes) self.now.pool.bytes) }
        ensures length { IfOk result (λ bytes. length bytes ≡ greatest_end (blocks_in self.now.pool.bytes self.now.pool.table)) }
    {
        let mut bytes = Bytes::new(alloc);
        bytes.append(&self.pool[..self.state.end as usize])?;
        Ok(bytes)
    }

    /// How many bytes of the pool are taken, each list's rounded up to a multiple of 4.
    pub fn footprint(&self) -> u32
        ensures whole { result ≡ footprint self.now.lists }
        ensures fits { result ≤ pool_size }
    {
        self.state.footprint
    }

    /// How many rows the table has.
    pub fn row_count(&self) -> u16
        ensures rows { result ≡ length self.now.lists.by_row }
        ensures some { 1 ≤ result }
    {
        get(&self.pool, self.state.table, 0).count
    }

    /// What a heap holds is sound: the pool has 32,768 bytes, row 0 is the table's own, and no list, the pool's rows read as the
    /// lists and are a dope table, and the blocks share no byte. The call does nothing.
    pub fn recall_sound(&self)
        ensures first { list_at self.now.lists 0 ≡ None }
        ensures holds { HoldHeap self.now.pool.bytes self.now.pool.table self.now.lists }
        ensures apart { IsSound self.now.pool.bytes self.now.pool.table (base_of self.now.lists) }
        ensures table { IsDopeTable self.now.pool.bytes self.now.pool.table self.now.lists }
        ensures size { length self.now.pool.bytes ≡ pool_size }
    {
        let _end = self.state.end;
    }

    /// Where the table stands in the pool, in bytes.
    pub fn table_place(&self) -> u32
        ensures { result ≡ self.now.pool.table }
    {
        self.state.table
    }
}
