// The records of the sections: table entries, clump records and words, read and written.

ghost use Rattle.std.specs.Prelude.{◌≡◌, ◌+◌, ◌%◌, ◌^◌, ◌<◌, ◌≤◌, ◌++◌, length, flat_map, All, IfOk, OnOk};
ghost use Rattle.nxt_types.specs.Bytes.{u16_at};
ghost use Rattle.nxt_rxe.specs.Files.{two_bytes, entry_bytes, clump_bytes, EntryFits, ClumpFits, pad_of};

use byteorder::{ByteOrder, LittleEndian};
use nxt_types::lists::{Bytes, ClumpRec, ClumpRecs, Entries, Words};
use nxt_types::memory::NoMemory;
use nxt_types::shape::TocEntry;
use std::alloc::Global;

/// Bytes of a word.
pub const WORD_BYTES: usize = 2;

/// Bytes of an entry of the table.
pub const ENTRY_BYTES: usize = 4;

/// Bytes of a clump record.
pub const CLUMP_BYTES: usize = 4;

// ---- words

/// The number at a place, low byte first.
pub fn u16_at(bytes: &[u8], at: usize) -> u16
    requires { at + 2 ≤ length bytes.now }
    ensures { result ≡ u16_at bytes.now at }
{
    LittleEndian::read_u16(&bytes[at..])
}

fn append_u16(file: &mut Bytes, number: u16) -> Result<(), NoMemory>
    ensures { OnOk result (file.new ≡ file.old ++ two_bytes number) }
{
    let mut bytes = [0; WORD_BYTES];
    LittleEndian::write_u16(&mut bytes, number);
    file.append(&bytes)
}

fn word_of(bytes: &[u8]) -> u16
    requires { length bytes.now ≡ WORD_BYTES }
    ensures { two_bytes result ≡ bytes.now }
{
    LittleEndian::read_u16(bytes)
}

/// The words of a section.
pub fn read_words(alloc: Global, bytes: &[u8]) -> Result<Words, NoMemory>
    requires { length bytes.now % WORD_BYTES ≡ 0 }
    ensures spelled { IfOk result (λ words. flat_map two_bytes words ≡ bytes.now) }
    ensures fits { IfOk result (All (λ w. w < 2 ^ 16)) }
{
    let mut words = Words::new(alloc);
    for word in bytes.chunks_exact(WORD_BYTES) {
        words.push(word_of(word))?;
    }
    Ok(words)
}

/// Adds words at the end of a file.
pub fn append_words(file: &mut Bytes, words: &[u16]) -> Result<(), NoMemory>
    ensures spelled { OnOk result (file.new ≡ file.old ++ flat_map two_bytes words.now) }
    ensures fits { OnOk result (All (λ w. w < 2 ^ 16) words.now) }
{
    for word in words {
        append_u16(file, *word)?;
    }
    Ok(())
}

// ---- table entries

fn entry_of(bytes: &[u8]) -> TocEntry
    requires { length bytes.now ≡ ENTRY_BYTES }
    ensures spelled { entry_bytes result ≡ bytes.now }
    ensures fits { EntryFits result }
{
    TocEntry {
        code: bytes[0],
        flags: bytes[1],
        desc: u16_at(bytes, 2),
    }
}

fn append_entry(file: &mut Bytes, entry: TocEntry) -> Result<(), NoMemory>
    ensures spelled { OnOk result (file.new ≡ file.old ++ entry_bytes entry) }
    ensures fits { EntryFits entry }
{
    file.append(&[entry.code, entry.flags])?;
    append_u16(file, entry.desc)
}

/// The entries of a section ("Dataspace Table of Contents").
pub fn read_entries(alloc: Global, bytes: &[u8]) -> Result<Entries, NoMemory>
    requires { length bytes.now % ENTRY_BYTES ≡ 0 }
    ensures spelled { IfOk result (λ entries. flat_map entry_bytes entries ≡ bytes.now) }
    ensures fits { IfOk result (All EntryFits) }
{
    let mut entries = Entries::new(alloc);
    for entry in bytes.chunks_exact(ENTRY_BYTES) {
        entries.push(entry_of(entry))?;
    }
    Ok(entries)
}

/// Adds entries at the end of a file.
pub fn append_entries(file: &mut Bytes, entries: &[TocEntry]) -> Result<(), NoMemory>
    ensures spelled { OnOk result (file.new ≡ file.old ++ flat_map entry_bytes entries.now) }
    ensures fits { OnOk result (All EntryFits entries.now) }
{
    for entry in entries {
        append_entry(file, *entry)?;
    }
    Ok(())
}

// ---- clump records

/// The record that four bytes spell.
pub fn clump_of(bytes: &[u8]) -> ClumpRec
    requires { length bytes.now ≡ CLUMP_BYTES }
    ensures spelled { clump_bytes result ≡ bytes.now }
    ensures fits { ClumpFits result }
{
    ClumpRec {
        fire: bytes[0],
        dependents: bytes[1],
        start: u16_at(bytes, 2),
    }
}

fn append_clump(file: &mut Bytes, clump: ClumpRec) -> Result<(), NoMemory>
    ensures spelled { OnOk result (file.new ≡ file.old ++ clump_bytes clump) }
    ensures fits { ClumpFits clump }
{
    file.append(&[clump.fire, clump.dependents])?;
    append_u16(file, clump.start)
}

/// The records of a section ("Clump Records").
pub fn read_clumps(alloc: Global, bytes: &[u8]) -> Result<ClumpRecs, NoMemory>
    requires { length bytes.now % CLUMP_BYTES ≡ 0 }
    ensures spelled { IfOk result (λ clumps. flat_map clump_bytes clumps ≡ bytes.now) }
    ensures fits { IfOk result (All ClumpFits) }
{
    let mut clumps = ClumpRecs::new(alloc);
    for clump in bytes.chunks_exact(CLUMP_BYTES) {
        clumps.push(clump_of(clump))?;
    }
    Ok(clumps)
}

/// Adds clump records at the end of a file.
pub fn append_clumps(file: &mut Bytes, clumps: &[ClumpRec]) -> Result<(), NoMemory>
    ensures spelled { OnOk result (file.new ≡ file.old ++ flat_map clump_bytes clumps.now) }
    ensures fits { OnOk result (All ClumpFits clumps.now) }
{
    for clump in clumps {
        append_clump(file, *clump)?;
    }
    Ok(())
}

// ---- bytes

/// A list of these bytes.
pub fn read_bytes(alloc: Global, bytes: &[u8]) -> Result<Bytes, NoMemory>
    ensures { IfOk result (λ list. list ≡ bytes.now) }
{
    Ok(Bytes::from_vec(bytes.to_vec(alloc)?))
}

/// Adds a zero at the end of a file, if that is an odd place.
pub fn append_pad(file: &mut Bytes) -> Result<(), NoMemory>
    ensures { OnOk result (file.new ≡ file.old ++ pad_of file.old) }
{
    if file.len() % 2 == 1 {
        file.push(0)?;
    }
    Ok(())
}
