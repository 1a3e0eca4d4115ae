// The head of a file: its format, its version and its header ("Header").

ghost use Rattle.std.specs.Prelude.{◌≡◌, ◌<◌, ◌≤◌, ◌++◌, length, All, OnOk, IfErr, IfSome, IfNone};
ghost use Rattle.std.specs.Prelude.{◌^◌, ℕ};
ghost use Rattle.nxt_types.specs.Refusals.{IsRefusal};
ghost use Rattle.nxt_rxe.specs.declared.fault.RxeFault.TheVariants as faults;
ghost use Rattle.nxt_rxe.specs.Files.{head_bytes, numbers};
ghost use Rattle.nxt_rxe.specs.FileRules.{Broken, rank};
ghost use Rattle.nxt_rxe.specs.Inside.Reading.{HasHead, IsHeader};

use crate::fault::RxeFault;
use crate::parts::Header;
use crate::records::{append_words, u16_at};
use byteorder::{BigEndian, ByteOrder};
use nxt_types::lists::Bytes;
use nxt_types::memory::NoMemory;

/// Bytes before the first section.
pub const HEAD_BYTES: usize = 38;

const FORMAT: &[u8; 14] = b"MindstormsNXT\0";

const VERSION: u16 = 5;

fn first_difference(bytes: &[u8]) -> Option<u32>
    requires { 14 ≤ length bytes.now }
    ensures none { IfNone result ((i : ℕ) → Broken bytes.now (faults.Format i) → ⊥) }
    ensures some { IfSome result (λ i. Broken bytes.now (faults.Format i)) }
    ensures before { IfSome result (λ i. (j : ℕ) → j < i → Broken bytes.now (faults.Format j) → ⊥) }
{
    for (i, byte) in FORMAT.iter().enumerate() {
        if bytes[i] != *byte {
            return Some(i as u32);
        }
    }
    None
}

/// Tests the head of a file.
pub fn check_head(bytes: &[u8]) -> Result<(), RxeFault>
    ensures ok { OnOk result (HasHead bytes.now) }
    ensures err { IfErr result (λ f. IsRefusal (Broken bytes.now) rank f) }
{
    if bytes.len() < HEAD_BYTES {
        return Err(RxeFault::Short(bytes.len() as u32));
    }
    if let Some(at) = first_difference(bytes) {
        return Err(RxeFault::Format(at));
    }
    let version = BigEndian::read_u16(&bytes[14..]);
    if version != VERSION {
        return Err(RxeFault::Version(version));
    }
    Ok(())
}

/// The header of a file.
pub fn read_header(bytes: &[u8]) -> Header
    requires { HEAD_BYTES ≤ length bytes.now }
    ensures { IsHeader bytes.now result }
{
    Header {
        toc_count: u16_at(bytes, 16),
        initial: u16_at(bytes, 18),
        static_size: u16_at(bytes, 20),
        default_size: u16_at(bytes, 22),
        dyn_at: u16_at(bytes, 24),
        dyn_size: u16_at(bytes, 26),
        head: u16_at(bytes, 28),
        tail: u16_at(bytes, 30),
        dope_at: u16_at(bytes, 32),
        clump_count: u16_at(bytes, 34),
        word_count: u16_at(bytes, 36),
    }
}

fn numbers_of(header: &Header) -> [u16; 11]
    ensures { result ≡ numbers header.now }
{
    [
        header.toc_count,
        header.initial,
        header.static_size,
        header.default_size,
        header.dyn_at,
        header.dyn_size,
        header.head,
        header.tail,
        header.dope_at,
        header.clump_count,
        header.word_count,
    ]
}

/// Adds the head of a file at its end.
pub fn append_head(file: &mut Bytes, header: &Header) -> Result<(), NoMemory>
    ensures spelled { OnOk result (file.new ≡ file.old ++ head_bytes header.now) }
    ensures fits { OnOk result (All (λ n. n < 2 ^ 16) (numbers header.now)) }
{
    let mut version = [0; 2];
    BigEndian::write_u16(&mut version, VERSION);
    file.append(FORMAT)?;
    file.append(&version)?;
    append_words(file, &numbers_of(header))
}
