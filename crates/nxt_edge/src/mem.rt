ghost use Rattle.std.specs.Prelude.{◌≡◌, ◌↔◌, ◌==◌, ◌≤◌, ◌<◌, ◌-◌, ◌+◌, ◌^◌, ℕ, min, length, take, drop, [], Some, None, vec_len, IsTrue, IsErr, IfOk, OnErr, Ok};
ghost use Rattle.std.specs.List.{list_any};
ghost use Rattle.std.specs.Io.{ReadsAtMost, WritesAtMost};
ghost use Rattle.std.specs.Io.KnownBytes.{ReadConsumes, WriteAppends};
ghost use Rattle.nxt_edge.specs.Edge.{HasCause};

use crate::source::{Failed, Sink, Source};
use std::alloc::Global;

/// A source over bytes in memory, some of whose reads fail.
#[derive(Drop)]
pub struct MemSource {
    bytes: Vec<u8>,
    at: usize,
    chunk: usize,
    failing: Vec<u32>,
    calls: u64,
    faults: u64,
    ghost within: { at ≤ vec_len bytes },
    ghost moves: { 1 ≤ chunk },
}

impl MemSource {
    ghost use Rattle.nxt_edge.specs.Mem.{source_left, source_faults, source_calls, source_chunk, source_failing};

    /// At most `chunk` bytes come with each call, and the calls with these numbers, counted from 0, fail, and no others.
    /// A call with no room isn't counted.
    pub fn new(bytes: Vec<u8>, chunk: usize, failing: Vec<u32>) -> MemSource
        requires { 1 ≤ chunk }
        ensures left { source_left result ≡ bytes.items }
        ensures chunk { source_chunk result ≡ chunk }
        ensures failing { source_failing result ≡ failing.items }
        ensures calls { source_calls result ≡ 0 }
        ensures faults { source_faults result ≡ 0 }
    {
        MemSource {
            bytes,
            at: 0,
            chunk,
            failing,
            calls: 0,
            faults: 0,
        }
    }
}

// Whether the call with a number is to fail.
fn is_failing(failing: &[u32], call: u64) -> bool
    ensures { result ≡ list_any (λ k. k == call) failing.now }
{
    failing.iter().any(|number| u64::from(*number) == call)
}

// Copies what there is, `most` bytes at most, to the front of a slice.
fn copy_front(from: &[u8], into: &mut [u8], most: usize) -> usize
    requires { 1 ≤ most }
    ensures count { result ≡ min (min (length from.now) (length into.new)) most }
    ensures from { result ≤ length from.now }
    ensures into { result ≤ length into.new }
    ensures same { take result into.new ≡ take result from.now }
    ensures some { result ≡ 0 → 0 < length into.new → from.now ≡ [] }
{
    let count = from.len().min(into.len()).min(most);
    into[..count].copy_from_slice(&from[..count]);
    count
}

impl Source for MemSource {
    ghost use Rattle.nxt_edge.specs.Mem.{source_left, source_faults, source_calls, source_chunk, source_failing};

    ghost left = { λ s. Some (drop s.at s.bytes.items) };

    ghost faults = { λ s. s.faults };

    fn read(&mut self, into: &mut [u8]) -> Result<usize, Failed>
        ensures count { ReadsAtMost result into.new }
        ensures bytes { ReadConsumes (Some (source_left self.old)) (Some (source_left self.new)) result into.new }
        ensures cause { HasCause (source_faults self.old) (source_faults self.new) result }
        ensures no_room { into.old ≡ [] → (result ≡ Ok 0) × (self.new ≡ self.old) }

        // It fails where its number is one of those, and nowhere else.
        ensures fails { 0 < length into.old → (IsErr result ↔ IsTrue (list_any (λ k. k == source_calls self.old) (source_failing self.old))) }
        ensures chunk { IfOk result (λ n. n ≤ source_chunk self.old) }
        ensures calls { 0 < length into.old → source_calls self.new ≡ min (source_calls self.old + 1) (2 ^ 64 - 1) }
        ensures same { (source_chunk self.new ≡ source_chunk self.old) × (source_failing self.new ≡ source_failing self.old) }
    {
        if into.is_empty() {
            return Ok(0);
        }
        let call = self.calls;
        self.calls = call.saturating_add(1);
        if is_failing(&self.failing, call) {
            self.faults = self.faults.saturating_add(1);
            return Err(Failed);
        }
        let count = copy_front(&self.bytes[self.at..], into, self.chunk);
        self.at += count;
        Ok(count)
    }
}

/// A sink that keeps its bytes in memory, some of whose writes fail.
#[derive(Drop)]
pub struct MemSink {
    bytes: Vec<u8>,
    chunk: usize,
    failing: Vec<u32>,
    calls: u64,
    faults: u64,
    ghost moves: { 1 ≤ chunk },
}

impl MemSink {
    ghost use Rattle.nxt_edge.specs.Mem.{sink_bytes, sink_faults, sink_calls, sink_chunk, sink_failing};

    /// It takes at most `chunk` bytes with each call. The calls with these numbers, counted from 0, fail, and besides only
    /// those for which the host has no memory. A call with an empty piece isn't counted.
    pub fn new(alloc: Global, chunk: usize, failing: Vec<u32>) -> MemSink
        requires { 1 ≤ chunk }
        ensures bytes { sink_bytes result ≡ [] }
        ensures chunk { sink_chunk result ≡ chunk }
        ensures failing { sink_failing result ≡ failing.items }
        ensures calls { sink_calls result ≡ 0 }
        ensures faults { sink_faults result ≡ 0 }
    {
        MemSink {
            bytes: Vec::new(alloc),
            chunk,
            failing,
            calls: 0,
            faults: 0,
        }
    }

    /// What was written.
    pub fn bytes(&self) -> &[u8]
        ensures { result.now ≡ sink_bytes self.now }
    {
        self.bytes.as_slice()
    }
}

impl Sink for MemSink {
    ghost use Rattle.nxt_edge.specs.Mem.{sink_bytes, sink_faults, sink_calls, sink_chunk, sink_failing};

    ghost written = { λ s. Some s.bytes.items };

    ghost faults = { λ s. s.faults };

    fn write(&mut self, piece: &[u8]) -> Result<usize, Failed>
        ensures count { WritesAtMost result piece.now }
        ensures progress { 0 < length piece.now → IfOk result (λ n. 0 < n) }
        ensures bytes { WriteAppends (Some (sink_bytes self.old)) (Some (sink_bytes self.new)) result piece.now }
        ensures cause { HasCause (sink_faults self.old) (sink_faults self.new) result }
        ensures nothing { piece.now ≡ [] → (result ≡ Ok 0) × (self.new ≡ self.old) }

        // It fails where its number is one of those, or the host has no memory.
        ensures fails { 0 < length piece.now → IsTrue (list_any (λ k. k == sink_calls self.old) (sink_failing self.old)) → IsErr result }
        ensures chunk { IfOk result (λ n. n ≡ min (length piece.now) (sink_chunk self.old)) }
        ensures calls { 0 < length piece.now → sink_calls self.new ≡ min (sink_calls self.old + 1) (2 ^ 64 - 1) }
        ensures same { (sink_chunk self.new ≡ sink_chunk self.old) × (sink_failing self.new ≡ sink_failing self.old) }
    {
        if piece.is_empty() {
            return Ok(0);
        }
        let call = self.calls;
        self.calls = call.saturating_add(1);
        let count = piece.len().min(self.chunk);
        if is_failing(&self.failing, call)
            || self.bytes.extend_from_slice(&piece[..count]).is_err()
        {
            self.faults = self.faults.saturating_add(1);
            return Err(Failed);
        }
        Ok(count)
    }
}

/// A source over bytes in memory that never fails.
#[derive(Drop)]
pub struct SureSource {
    bytes: Vec<u8>,
    at: usize,
    ghost within: { at ≤ vec_len bytes },
}

impl SureSource {
    ghost use Rattle.nxt_edge.specs.Sure.{sure_left};

    pub fn new(bytes: Vec<u8>) -> SureSource
        ensures { sure_left result ≡ bytes.items }
    {
        SureSource { bytes, at: 0 }
    }
}

impl Source for SureSource {
    ghost left = { λ s. Some (drop s.at s.bytes.items) };

    ghost faults = { λ _. 0 };

    fn read(&mut self, into: &mut [u8]) -> Result<usize, Failed> {
        if into.is_empty() {
            return Ok(0);
        }
        let count = copy_front(&self.bytes[self.at..], into, usize::MAX);
        self.at += count;
        Ok(count)
    }
}

/// A sink that counts its bytes, tells none of them, and never fails.
#[derive(Drop)]
pub struct SureSink {
    count: u64,
}

impl SureSink {
    ghost use Rattle.nxt_edge.specs.Sure.{sure_count};

    pub fn new() -> SureSink
        ensures { sure_count result ≡ 0 }
    {
        SureSink { count: 0 }
    }

    /// How many bytes were written; it stands still at its type's end.
    pub fn count(&self) -> u64
        ensures { result ≡ sure_count self.now }
    {
        self.count
    }
}

impl Sink for SureSink {
    ghost use Rattle.nxt_edge.specs.Sure.{sure_count};

    ghost written = { λ _. None };

    ghost faults = { λ _. 0 };

    fn write(&mut self, piece: &[u8]) -> Result<usize, Failed>
        ensures count { WritesAtMost result piece.now }
        ensures progress { 0 < length piece.now → IfOk result (λ n. 0 < n) }
        ensures bytes { WriteAppends None None result piece.now }
        ensures cause { HasCause 0 0 result }
        ensures nothing { piece.now ≡ [] → (result ≡ Ok 0) × (self.new ≡ self.old) }
        ensures counted { IfOk result (λ n. sure_count self.new ≡ min (sure_count self.old + n) (2 ^ 64 - 1)) }
    {
        self.count = self.count.saturating_add(piece.len() as u64);
        Ok(piece.len())
    }
}
