// Where the sections of a file lie.

ghost use Rattle.std.specs.Prelude.{◌≡◌, ◌+◌, ◌*◌, ◌^◌, ◌<◌, ◌≤◌, List, ℕ, length, slice_range, IfOk, IfErr, OnOk};
ghost use Rattle.nxt_rxe.specs.FileRules.{dynamic_passes as dynamic_in, dependents_told as told_in, next_even as even_from};
ghost use Rattle.nxt_rxe.specs.Inside.Reading.{IsHeader, AreSections, IsFirstSection, bytes_of};

use crate::fault::RxeFault;
use crate::head::HEAD_BYTES;
use crate::parts::Header;
use crate::records::{CLUMP_BYTES, ENTRY_BYTES, WORD_BYTES, clump_of};

// The number that a refusal shows of a section.
const TABLE: u8 = 0;

const DEFAULTS: u8 = 1;

const DYNAMIC: u8 = 2;

const CLUMPS: u8 = 3;

const DEPENDENTS: u8 = 4;

const CODE: u8 = 5;

/// The bytes of each section.
#[derive(Clone, Copy)]
pub struct Sections<'a> {
    pub table: &'a [u8],
    pub defaults: &'a [u8],
    pub clumps: &'a [u8],
    pub dependents: &'a [u8],
    pub code: &'a [u8],
}

// The bytes of a section, if the file has them.
fn section(bytes: &[u8], start: usize, size: usize, number: u8) -> Result<&[u8], RxeFault>
    requires start { start < 2 ^ 32 }
    requires size { size < 2 ^ 32 }
    ensures ok { IfOk result (λ s. s.now ≡ slice_range bytes.now start (start + size)) }
    ensures size { IfOk result (λ s. length s.now ≡ size) }
    ensures within { OnOk result (start + size ≤ length bytes.now) }
    ensures err { IfErr result (λ f. (f ≡ RxeFault.Section number) × (length bytes.now < start + size)) }
{
    let end = start + size;
    if bytes.len() < end {
        return Err(RxeFault::Section(number));
    }
    Ok(&bytes[start..end])
}

fn next_even(at: usize) -> usize
    requires { at < 2 ^ 63 }
    ensures { result ≡ even_from at }
{
    at + at % 2
}

// Whether the dynamic defaults pass the defaults or the dataspace.
fn dynamic_passes(header: &Header) -> bool
    ensures { (bytes : List ℕ) → IsHeader bytes header.now → result ≡ dynamic_in bytes }
{
    let size = u32::from(header.dyn_size);
    size > 0 && u32::from(header.dyn_at) + size > u32::from(header.default_size)
        || u32::from(header.static_size) + size > u32::from(header.initial)
}

// How many dependents clump records tell.
fn dependents_told(clumps: &[u8]) -> usize
    requires { length clumps.now < 2 ^ 18 }
    ensures value { result ≡ told_in clumps.now }
    ensures few { result ≤ 64 * length clumps.now }
{
    let mut told = 0;
    for clump in clumps.chunks_exact(CLUMP_BYTES) {
        told += usize::from(clump_of(clump).dependents);
    }
    told
}

/// The sections of a file, or the first that passes its end.
pub fn find_sections<'a>(header: &Header, bytes: &'a [u8]) -> Result<Sections<'a>, RxeFault>
    requires long { HEAD_BYTES ≤ length bytes.now }
    requires header { IsHeader bytes.now header.now }
    ensures ok { IfOk result (λ s. AreSections bytes.now (bytes_of s)) }
    ensures err { IfErr result (λ f. IsFirstSection bytes.now f) }
{
    let table_size = ENTRY_BYTES * usize::from(header.toc_count);
    let table = section(bytes, HEAD_BYTES, table_size, TABLE)?;
    let defaults_start = HEAD_BYTES + table.len();
    let defaults_size = usize::from(header.default_size);
    let defaults = section(bytes, defaults_start, defaults_size, DEFAULTS)?;
    if dynamic_passes(header) {
        return Err(RxeFault::Section(DYNAMIC));
    }
    let clumps_start = next_even(defaults_start + defaults.len());
    let clumps_size = CLUMP_BYTES * usize::from(header.clump_count);
    let clumps = section(bytes, clumps_start, clumps_size, CLUMPS)?;
    let dependents_start = clumps_start + clumps.len();
    let dependents = section(bytes, dependents_start, dependents_told(clumps), DEPENDENTS)?;
    let code_start = next_even(dependents_start + dependents.len());
    let code_size = WORD_BYTES * usize::from(header.word_count);
    let code = section(bytes, code_start, code_size, CODE)?;
    Ok(Sections {
        table,
        defaults,
        clumps,
        dependents,
        code,
    })
}
