// A file, read and written.

ghost use Rattle.std.specs.Prelude.{◌≡◌, ◌%◌, length, IfOk, IfErr, MatchResult, ◌⊎◌};
ghost use Rattle.nxt_types.specs.Refusals.{IsAccepted, IsRefusal};
ghost use Rattle.nxt_rxe.specs.Files.{IsFile, HasCounts, HasDynamic, file_of};
ghost use Rattle.nxt_rxe.specs.FileRules.{Broken, rank};
ghost use Rattle.nxt_rxe.specs.Inside.Reading.{ArePartsOf, bytes_of};

use crate::fault::RxeFault;
use crate::head::{append_head, check_head, read_header};
use crate::parts::{Header, Parts};
use crate::records::{
    CLUMP_BYTES, ENTRY_BYTES, WORD_BYTES, append_clumps, append_entries, append_pad, append_words,
    read_bytes, read_clumps, read_entries, read_words,
};
use crate::sections::{Sections, find_sections};
use nxt_types::lists::Bytes;
use nxt_types::memory::NoMemory;
use std::alloc::Global;

fn read_sections(alloc: Global, header: Header, sections: &Sections) -> Result<Parts, RxeFault>
    requires table { length sections.now.table.now % ENTRY_BYTES ≡ 0 }
    requires clumps { length sections.now.clumps.now % CLUMP_BYTES ≡ 0 }
    requires code { length sections.now.code.now % WORD_BYTES ≡ 0 }
    ensures ok { IfOk result (λ p. ArePartsOf header (bytes_of sections.now) p) }
    ensures err { IfErr result (λ f. f ≡ RxeFault.NoMemory) }
{
    Ok(Parts {
        header,
        toc: read_entries(alloc, sections.table)?,
        defaults: read_bytes(alloc, sections.defaults)?,
        clumps: read_clumps(alloc, sections.clumps)?,
        dependents: read_bytes(alloc, sections.dependents)?,
        code: read_words(alloc, sections.code)?,
    })
}

/// The parts of a file, or the first rule that its sections break. A pad byte may hold anything, and so may the bytes
/// after the code.
pub fn read_rxe(alloc: Global, bytes: &[u8]) -> Result<Parts, RxeFault>
    ensures found { IfOk result (λ p. IsFile bytes.now p) }

    // A file has at most one list of parts.
    ensures only { IfOk result (λ p. (q : Parts) → IsFile bytes.now q → q ≡ p) }

    // A refusal is the first rule in order of number, at its least place.
    ensures refused { IfErr result (λ f.
        (f ≡ RxeFault.NoMemory) ⊎ IsRefusal (Broken bytes.now) rank f) }

    // No file is refused.
    ensures accepted { (p : Parts) → IsFile bytes.now p
        → MatchResult result (λ q. q ≡ p) (λ f. f ≡ RxeFault.NoMemory) }

    // Want of memory hides no broken rule.
    ensures memory { result ≡ Err RxeFault.NoMemory → IsAccepted (Broken bytes.now) }
{
    check_head(bytes)?;
    let header = read_header(bytes);
    let sections = find_sections(&header, bytes)?;
    read_sections(alloc, header, &sections)
}

/// The file of these parts. Its pad bytes are 0, and nothing follows its code.
pub fn write_rxe(alloc: Global, parts: &Parts) -> Result<Bytes, NoMemory>
    requires counts { HasCounts parts.now }
    requires dynamic { HasDynamic parts.now.header }
    ensures written { IfOk result (λ bytes. bytes ≡ file_of parts.now) }

    // These parts, and no others, are read from what is written.
    ensures back { IfOk result (λ bytes. IsFile bytes parts.now) }
    ensures only { IfOk result (λ bytes. (q : Parts) → IsFile bytes q → q ≡ parts.now) }
{
    let mut file = Bytes::new(alloc);
    append_head(&mut file, &parts.header)?;
    append_entries(&mut file, parts.toc.as_slice())?;
    file.append(parts.defaults.as_slice())?;
    append_pad(&mut file)?;
    append_clumps(&mut file, parts.clumps.as_slice())?;
    file.append(parts.dependents.as_slice())?;
    append_pad(&mut file)?;
    append_words(&mut file, parts.code.as_slice())?;
    Ok(file)
}
