// The front of a script, line by line.

ghost use Rattle.std.specs.Prelude.{◌≡◌, ◌≢◌, ◌↔◌, ◌≤◌, ◌<◌, ◌+◌, ◌⊎◌, ◌++◌, ℕ, List, [], length, true, false, IsTrue, IfSome, IfOk, IfErr, OnOk, OnErr, Ok, Err, Some, option_map};
ghost use Rattle.std.specs.List.{position_or_len};
ghost use Rattle.std.specs.Io.KnownBytes.{Consumes};
ghost use Rattle.csv.specs.Records.{fields_of};
ghost use Rattle.nxt_edge.specs.Edge.{Rose};
ghost use Rattle.nxt_script.specs.RowForms.{row_of};
ghost use Rattle.nxt_script.specs.Rows.{Counts, Listing, bytecodes_in, counted, dumps_in, ends_line, listed, most_bytes, no_counts, passes_limit, rows_from};
ghost use Rattle.nxt_script.specs.Scripts.{Front, IsFault};
ghost use Rattle.nxt_script.specs.Ahead.{IsNear};
ghost use Rattle.nxt_script.specs.Inside.{Finds, FindsFault, FindsRecord, HasLine, IsLine, Passes, PassesLine, Reads, MayFollow};

use crate::fault::ScriptFault;
use crate::record::{LINE_BYTES, record};
use crate::row::row;
use csv::ByteRecord;
use nxt_edge::{Source, read_some};
use nxt_model::event::{Event, ScriptRow};
use nxt_types::Bytes;
use std::alloc::Global;
use std::marker::Model;

/// The most bytes of a script that count.
const SCRIPT_BYTES: usize = 16_777_216;

/// The most bytes that are asked of a source at once.
const PIECE: usize = 4_096;

const ROWS: u32 = 100_000;

const BYTECODES: u32 = 4_000_000;

const DUMPS: u32 = 256;

// The length of the first line of some bytes.
fn line_end(bytes: &[u8]) -> usize
    ensures { result ≡ position_or_len ends_line bytes.now }
{
    bytes
        .iter()
        .position(|b| *b == b'\n' || *b == b'\r')
        .unwrap_or(bytes.len())
}

// How many bytecodes a row runs.
fn bytecodes_of(row: &ScriptRow) -> u32
    ensures { result ≡ bytecodes_in row.now }
{
    match row {
        ScriptRow::Run(bytecodes) => *bytecodes,
        ScriptRow::One(_) => 0,
    }
}

// How many dumps a row asks for.
fn dumps_of(row: &ScriptRow) -> u32
    ensures { result ≡ dumps_in row.now }
{
    match row {
        ScriptRow::One(Event::Dump) => 1,
        _ => 0,
    }
}

/// The front of a script: the lines that were passed, with their rows counted, and the bytes that were taken behind them.
#[derive(Drop)]
pub(crate) struct Text {
    // Of the bytes that were taken, those before this place were passed.
    taken: Bytes,
    at: usize,
    ended: bool,
    // The bytes of the script before the place.
    passed: usize,
    rows: u32,
    bytecodes: u32,
    dumps: u32,
}

impl Model for Text {
    ghost use Rattle.std.specs.Prelude.{◌≤◌, length, drop};
    ghost use Rattle.nxt_script.specs.Rows.{most_bytes, most_rows, most_bytecodes, most_dumps};
    ghost use Rattle.nxt_script.specs.Scripts.{Front};
    ghost use Rattle.nxt_script.specs.Ahead.{most_ahead};

    ghost Value = { Front };

    ghost view = { λ t. record { counts = record { bytes = t.passed; records = t.rows; bytecodes = t.bytecodes; dumps = t.dumps }; pending = drop t.at t.taken; ended = t.ended } };

    ghost invariant = { λ t. (t.at ≤ length t.taken) × (length t.taken ≤ most_ahead) × (t.passed ≤ most_bytes) × (t.rows ≤ most_rows) × (t.bytecodes ≤ most_bytecodes) × (t.dumps ≤ most_dumps) };
}

impl Text {
    /// The front of a script of which nothing was taken. It takes no memory.
    pub fn new(alloc: Global) -> Text
        ensures { result ≡ record { counts = no_counts; pending = []; ended = false } }
    {
        Text {
            taken: Bytes::new(alloc),
            at: 0,
            ended: false,
            passed: 0,
            rows: 0,
            bytecodes: 0,
            dumps: 0,
        }
    }

    // The bytes that were taken and not passed.
    fn pending(&self) -> &[u8]
        ensures bytes { result.now ≡ self.now.pending }
        ensures few { length self.now.pending ≤ 8192 }
        ensures within { self.now.counts.bytes ≤ most_bytes }
    {
        &self.taken.as_slice()[self.at..]
    }

    // How many bytes the first line has, if it is whole.
    fn first_line(&self) -> Option<usize>
        ensures some { IfSome result (HasLine self.now) }
        ensures none { result ≡ None → IsLine self.now.pending × (self.now.ended ≡ false) }
    {
        let pending = self.pending();
        let end = line_end(pending);
        if end < pending.len() || self.ended {
            Some(end)
        } else {
            None
        }
    }

    // Reads once. A line that isn't whole stays; of a long one its end stays.
    fn refill<Q: Source>(&mut self, alloc: Global, source: &mut Q) -> Result<(), ScriptFault>
        requires line { IsLine self.old.pending }
        requires going { self.old.ended ≡ false }
        requires within { self.old.counts.bytes + length self.old.pending ≤ most_bytes }
        ensures ok { OnOk result ((taken : List ℕ) × Reads self.old self.new (Q.left source.old) (Q.left source.new) taken × Passes self.old self.new taken) }
        ensures on { OnOk result ((self.new.ended ≡ true) ⊎ (self.old.counts.bytes + length self.old.pending < self.new.counts.bytes + length self.new.pending)) }
        ensures few { OnOk result (self.old.counts.bytes + length self.old.pending ≤ self.new.counts.bytes + length self.new.pending) }
        ensures err { OnErr result ((taken : List ℕ) × Reads self.old self.new (Q.left source.old) (Q.left source.new) taken × IsNear (self.old.pending ++ taken)) }
        ensures fault { IfErr result (λ f. (f ≡ ScriptFault.Failed) ⊎ (f ≡ ScriptFault.NoMemory)) }
        ensures failed { result ≡ Err ScriptFault.Failed → Rose (Q.faults source.old) (Q.faults source.new) }
        ensures later { Q.faults source.old ≤ Q.faults source.new }
    {
        let pending = self.pending();
        let passed = pending.len().saturating_sub(LINE_BYTES + 1);
        let mut taken = Bytes::new(alloc);
        taken.append(&pending[passed..])?;
        let count = read_some(source, &mut taken, PIECE)?;
        self.taken = taken;
        self.at = 0;
        self.ended = count == 0;
        self.passed += passed;
        Ok(())
    }

    // Has the first line whole, and gives how many bytes it has. At the script's end it has none.
    fn whole_line<Q: Source>(&mut self, alloc: Global, source: &mut Q) -> Result<usize, ScriptFault>
        ensures line { IfOk result (HasLine self.new) }
        ensures ok { OnOk result ((taken : List ℕ) × Reads self.old self.new (Q.left source.old) (Q.left source.new) taken × Passes self.old self.new taken) }
        ensures err { IfErr result (λ f. (taken : List ℕ) × Reads self.old self.new (Q.left source.old) (Q.left source.new) taken × IsNear (self.old.pending ++ taken) × FindsFault self.old self.new taken f) }
        ensures over { self.old.ended ≡ true → (source.new ≡ source.old) × (result ≢ Err ScriptFault.Failed) }
        ensures failed { result ≡ Err ScriptFault.Failed → Rose (Q.faults source.old) (Q.faults source.new) }
        ensures later { Q.faults source.old ≤ Q.faults source.new }
    {
        loop {
            if let Some(end) = self.first_line() {
                return Ok(end);
            }
            if self.passed + self.pending().len() > SCRIPT_BYTES {
                return Err(ScriptFault::TooLarge);
            }
            self.refill(alloc, source)?;
        }
    }

    // Passes the first line, and gives its record, if it holds one.
    fn pass_line(&mut self, alloc: Global, end: usize) -> Result<Option<ByteRecord>, ScriptFault>
        requires { HasLine self.old end }
        ensures ok { IfOk result (λ o. PassesLine self.old self.new end (option_map fields_of o)) }
        ensures within { OnOk result (self.new.counts.bytes ≤ most_bytes) }
        ensures err { IfErr result (λ f. (self.new ≡ self.old) × ((more : List ℕ) → MayFollow self.old more → IsFault (Some (rows_from self.old.counts (self.old.pending ++ more))) f) × (f ≢ ScriptFault.Failed)) }
    {
        let pending = self.pending();
        let taken = (end + 1).min(pending.len());
        if self.passed + taken > SCRIPT_BYTES {
            return Err(ScriptFault::TooLarge);
        }
        let found = record(alloc, &pending[..end])?;
        self.at += taken;
        self.passed += taken;
        Ok(found)
    }

    // Passes lines up to the first that holds a record, and gives it; `None` at the end.
    fn next_record<Q: Source>(
        &mut self,
        alloc: Global,
        source: &mut Q,
    ) -> Result<Option<ByteRecord>, ScriptFault>
        ensures finds { (taken : List ℕ) × Reads self.old self.new (Q.left source.old) (Q.left source.new) taken × IsNear (self.old.pending ++ taken) × FindsRecord self.old self.new taken result }
        ensures over { self.old.ended ≡ true → (source.new ≡ source.old) × (result ≢ Err ScriptFault.Failed) }
        ensures failed { result ≡ Err ScriptFault.Failed → Rose (Q.faults source.old) (Q.faults source.new) }
        ensures later { Q.faults source.old ≤ Q.faults source.new }
    {
        loop {
            let end = self.whole_line(alloc, source)?;
            if self.pending().is_empty() {
                return Ok(None);
            }
            if let Some(fields) = self.pass_line(alloc, end)? {
                return Ok(Some(fields));
            }
        }
    }

    // The row of a record, which is counted.
    fn count(&mut self, alloc: Global, fields: &ByteRecord) -> Result<ScriptRow, ScriptFault>
        ensures ok { IfOk result (λ r. (row_of (fields_of fields.now) ≡ Some r) × (passes_limit (counted r self.old.counts) ≡ false) × (self.new ≡ record self.old { counts = counted r self.old.counts })) }
        ensures few { OnOk result (self.new.counts.records ≤ 100000) }
        ensures err { IfErr result (λ f. (self.new ≡ self.old) × ((more : Counts → Listing) → IsFault (Some (listed self.old.counts (row_of (fields_of fields.now)) more)) f) × (f ≢ ScriptFault.Failed)) }
    {
        let Some(found) = row(alloc, fields)? else {
            return Err(ScriptFault::Row(self.rows + 1));
        };
        let bytecodes = bytecodes_of(&found);
        let dumps = dumps_of(&found);
        if self.rows >= ROWS
            || bytecodes > BYTECODES - self.bytecodes
            || dumps > DUMPS - self.dumps
        {
            return Err(ScriptFault::TooMany(self.rows + 1));
        }
        self.rows += 1;
        self.bytecodes += bytecodes;
        self.dumps += dumps;
        Ok(found)
    }

    /// The next row; `None` at the end.
    pub fn next_row<Q: Source>(
        &mut self,
        alloc: Global,
        source: &mut Q,
    ) -> Result<Option<ScriptRow>, ScriptFault>
        ensures finds { (taken : List ℕ) × Reads self.old self.new (Q.left source.old) (Q.left source.new) taken × IsNear (self.old.pending ++ taken) × Finds self.old self.new taken result }
        ensures over { self.old.ended ≡ true → (source.new ≡ source.old) × (result ≢ Err ScriptFault.Failed) }
        ensures failed { result ≡ Err ScriptFault.Failed → Rose (Q.faults source.old) (Q.faults source.new) }
        ensures later { Q.faults source.old ≤ Q.faults source.new }
    {
        let Some(fields) = self.next_record(alloc, source)? else {
            return Ok(None);
        };
        Ok(Some(self.count(alloc, &fields)?))
    }
}
