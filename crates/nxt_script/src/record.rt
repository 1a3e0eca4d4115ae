// The record of a line.

ghost use Rattle.std.specs.Prelude.{◌≡◌, [], IfOk, option_map};
ghost use Rattle.csv.specs.Machine.{next_record};
ghost use Rattle.csv.specs.Reading.{default_config, strip_bom};
ghost use Rattle.csv.specs.Records.{fields_of};
ghost use Rattle.csv.specs.declared.parser.State.TheVariants.{StartRecord};
ghost use Rattle.nxt_script.specs.Rows.{record_of};

use csv::{ByteRecord, ReaderBuilder};
use nxt_types::NoMemory;
use std::alloc::Global;

/// The most bytes of a line that is read.
pub(crate) const LINE_BYTES: usize = 512;

const BYTE_ORDER_MARK: &[u8] = b"\xEF\xBB\xBF";

// Reads a line's record. It stands apart, since a call pays at entry for the reader, which most empty lines don't need.
#[inline(never)]
fn read_record(alloc: Global, line: &[u8]) -> Result<Option<ByteRecord>, NoMemory>
    ensures { IfOk result (λ o. option_map fields_of o ≡ option_map (λ r. r.0) (next_record default_config StartRecord [] [] (strip_bom line.now))) }
{
    let mut reader = ReaderBuilder::new()
        .has_headers(false)
        .flexible(true)
        .from_reader(alloc, line);
    let mut fields = ByteRecord::new(alloc);
    match reader.read_byte_record(&mut fields) {
        Ok(true) => Ok(Some(fields)),
        Ok(false) => Ok(None),
        Err(_) => Err(NoMemory),
    }
}

/// The record that a line holds, if it holds one. A line of more than 512 bytes counts as a record with no fields.
pub(crate) fn record(alloc: Global, line: &[u8]) -> Result<Option<ByteRecord>, NoMemory>
    ensures { IfOk result (λ o. option_map fields_of o ≡ record_of line.now) }
{
    if line.is_empty() || line == BYTE_ORDER_MARK {
        return Ok(None);
    }
    if line.len() > LINE_BYTES {
        return Ok(Some(ByteRecord::new(alloc)));
    }
    read_record(alloc, line)
}
