ghost use Rattle.std.specs.Prelude.{◌≡◌, ◌+◌, ℕ, ◌≤◌, ◌<◌, ◌-◌, length, List, [], ◌++◌, IfOk, OnOk, OnErr, IfSome, IsErrOf, MatchResult, Ok, take};
ghost use Rattle.std.specs.Io.KnownBytes.{Consumes, IsAtEnd, Appends};
ghost use Rattle.nxt_edge.specs.Edge.{HasCause, Rose, AppendsFront};

use crate::source::{Failed, Sink, Source};
use nxt_types::{Bytes, NoMemory};
use std::alloc::Global;

/// Why a source wasn't read.
#[derive(Clone, Copy, Debug, PartialEq, Eq)]
pub enum ReadFault {
    Failed,
    NoMemory,
}

/// Why not all of a source was read.
#[derive(Clone, Copy, Debug, PartialEq, Eq)]
pub enum ReadAllFault {
    Failed,
    TooLarge,
    NoMemory,
}

const BUFFER: usize = 4096;

/// Reads once, `room` bytes at most and 4,096 at most, and adds what came. The count 0 is the end.
pub fn read_some<S: Source>(
    source: &mut S,
    bytes: &mut Bytes,
    room: usize,
) -> Result<usize, ReadFault>
    requires room { 0 < room }
    ensures count { IfOk result (λ n. (n ≤ room) × (length bytes.new ≡ length bytes.old + n)) }
    ensures taken { OnOk result ((more : List ℕ) × (bytes.new ≡ bytes.old ++ more) × Consumes (S.left source.old) (S.left source.new) more) }
    ensures end { result ≡ Ok 0 → IsAtEnd (S.left source.new) }
    ensures later { S.faults source.old ≤ S.faults source.new }
    ensures failed { IsErrOf result ReadFault.Failed → Rose (S.faults source.old) (S.faults source.new) }
    ensures kept { IsErrOf result ReadFault.Failed → Consumes (S.left source.old) (S.left source.new) [] }
    ensures gone { OnErr result ((more : List ℕ) × (length more ≤ room) × Consumes (S.left source.old) (S.left source.new) more) }
{
    let mut buffer = [0u8; BUFFER];
    let room = room.min(BUFFER);
    let Ok(count) = source.read(&mut buffer[..room]) else {
        return Err(ReadFault::Failed);
    };
    let Ok(()) = bytes.append(&buffer[..count]) else {
        return Err(ReadFault::NoMemory);
    };
    Ok(count)
}

/// What a source has left: all of it, or, where it has more than the limit, the limit's bytes and one more.
pub fn read_front<S: Source>(
    alloc: Global,
    source: &mut S,
    limit: usize,
) -> Result<Bytes, ReadFault>
    requires { limit ≤ 16777216 }
    ensures taken { IfOk result (λ bytes. Consumes (S.left source.old) (S.left source.new) bytes) }
    ensures within { IfOk result (λ bytes. length bytes ≤ limit + 1) }
    ensures end { IfOk result (λ bytes. length bytes ≤ limit → IsAtEnd (S.left source.new)) }
    // Where a read failed, no more than the limit was taken.
    ensures failed_within { IsErrOf result ReadFault.Failed → (taken : List ℕ) × (length taken ≤ limit) × Consumes (S.left source.old) (S.left source.new) taken }
    ensures gone { OnErr result ((taken : List ℕ) × (length taken ≤ limit + 1) × Consumes (S.left source.old) (S.left source.new) taken) }
    ensures later { S.faults source.old ≤ S.faults source.new }
    ensures failed { IsErrOf result ReadFault.Failed → Rose (S.faults source.old) (S.faults source.new) }
{
    let mut bytes = Bytes::new(alloc);
    while bytes.len() <= limit {
        let room = limit + 1 - bytes.len();
        match read_some(source, &mut bytes, room) {
            Ok(0) => return Ok(bytes),
            Ok(_) => {}
            Err(fault) => return Err(fault),
        }
    }
    Ok(bytes)
}

/// All that a source has, if that is not more than the limit.
pub fn read_all<S: Source>(
    alloc: Global,
    source: &mut S,
    limit: usize,
) -> Result<Bytes, ReadAllFault>
    requires { limit ≤ 16777216 }
    ensures all { IfOk result (λ bytes. IfSome (S.left source.old) (λ left. bytes ≡ left)) }
    ensures within { IfOk result (λ bytes. length bytes ≤ limit) }
    ensures end { OnOk result (IsAtEnd (S.left source.new)) }
    ensures too_large { IsErrOf result ReadAllFault.TooLarge → (taken : List ℕ) × (length taken ≡ limit + 1) × Consumes (S.left source.old) (S.left source.new) taken }
    // Where a read failed, no more than the limit was taken.
    ensures failed_within { IsErrOf result ReadAllFault.Failed → (taken : List ℕ) × (length taken ≤ limit) × Consumes (S.left source.old) (S.left source.new) taken }
    ensures gone { OnErr result ((taken : List ℕ) × Consumes (S.left source.old) (S.left source.new) taken) }
    ensures later { S.faults source.old ≤ S.faults source.new }
    ensures failed { IsErrOf result ReadAllFault.Failed → Rose (S.faults source.old) (S.faults source.new) }
{
    match read_front(alloc, source, limit) {
        Ok(bytes) if bytes.len() <= limit => Ok(bytes),
        Ok(_) => Err(ReadAllFault::TooLarge),
        Err(ReadFault::Failed) => Err(ReadAllFault::Failed),
        Err(ReadFault::NoMemory) => Err(ReadAllFault::NoMemory),
    }
}

/// Writes a whole piece. At an `Err` a front of it was written.
pub fn write_all<S: Sink>(sink: &mut S, piece: &[u8]) -> Result<(), Failed>
    ensures ok { OnOk result (Appends (S.written sink.old) (S.written sink.new) piece.now) }
    ensures err { OnErr result (AppendsFront (S.written sink.old) (S.written sink.new) piece.now) }
    ensures cause { HasCause (S.faults sink.old) (S.faults sink.new) result }
{
    let mut at = 0;
    while at < piece.len() {
        let Ok(count) = sink.write(&piece[at..]) else {
            return Err(Failed);
        };
        at += count;
    }
    Ok(())
}
