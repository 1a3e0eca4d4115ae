// A file's dataspace, and the rows of its table in it.

ghost use Rattle.std.specs.Prelude.{◌≡◌, ◌<◌, ◌≤◌, ◌^◌, ◌+◌, ◌*◌, slice_index};
ghost use Rattle.nxt_types.specs.Bytes.{u16_at};
ghost use Rattle.nxt_model.specs.Reading.{row_count};
ghost use Rattle.nxt_layout.specs.Rows.{row as dope_row, row_end, has_elements as row_has_elements, is_placed as row_is_placed};
ghost use Rattle.nxt_layout.specs.Inside.RowPasses.{ground_of, row_bytes as rounded_bytes};

use nxt_types::pool::{ROW_BYTES, round4};

/// The bytes of a file's variables at the start, where its table of rows stands in them, and where the static bytes end
/// (Executable File Specification, "Dope Vectors").
#[derive(Drop)]
pub struct Dataspace {
    pub bytes: Vec<u8>,
    pub table: u16,
    pub static_size: u16,
}

impl Dataspace {
    /// The number of 16 bits at a place, the low byte first. A byte past the end counts as 0.
    pub fn number_at(&self, at: usize) -> u16
        requires { at < 2 ^ 63 }
        ensures { result ≡ u16_at self.now.bytes.items at }
    {
        if at + 1 < self.bytes.len() {
            return u16::from_le_bytes([self.bytes[at], self.bytes[at + 1]]);
        }
        u16::from_le_bytes([self.byte_at(at), self.byte_at(at + 1)])
    }

    fn byte_at(&self, at: usize) -> u8
        ensures { result ≡ slice_index self.now.bytes.items at }
    {
        match self.bytes.get(at) {
            Some(byte) => *byte,
            None => 0,
        }
    }

    fn row_at(&self, row: u16) -> usize
        ensures place { result ≡ (ground_of self.now).memory.table + 10 * row }
        ensures bound { result < 2 ^ 20 }
    {
        usize::from(self.table) + ROW_BYTES as usize * usize::from(row)
    }

    /// Where the row's elements begin.
    pub fn place(&self, row: u16) -> u16
        ensures { result ≡ (dope_row (ground_of self.now) row).place }
    {
        self.number_at(self.row_at(row))
    }

    /// How many bytes the row's elements are apart.
    pub fn stride(&self, row: u16) -> u16
        ensures { result ≡ (dope_row (ground_of self.now) row).stride }
    {
        self.number_at(self.row_at(row) + 2)
    }

    /// How many elements the row has.
    pub fn count(&self, row: u16) -> u16
        ensures { result ≡ (dope_row (ground_of self.now) row).count }
    {
        self.number_at(self.row_at(row) + 4)
    }

    /// How many rows the table has, by its row 0.
    pub fn rows(&self) -> u16
        ensures { result ≡ row_count (ground_of self.now).memory }
    {
        self.count(0)
    }

    /// Whether the row has elements.
    pub fn has_elements(&self, row: u16) -> bool
        ensures { result ≡ row_has_elements (ground_of self.now) row }
    {
        self.count(row) > 0
    }

    // The bytes of the row's elements.
    fn bytes_of(&self, row: u16) -> u32
        ensures value { result ≡ (dope_row (ground_of self.now) row).count * (dope_row (ground_of self.now) row).stride }
        ensures bound { result ≤ 65535 * 65535 }
    {
        u32::from(self.count(row)) * u32::from(self.stride(row))
    }

    /// Where the row's elements end.
    pub fn end(&self, row: u16) -> u32
        ensures { result ≡ row_end (ground_of self.now) row }
    {
        u32::from(self.place(row)) + self.bytes_of(row)
    }

    /// Whether the row's elements lie behind the static bytes in the dataspace. The place of an empty row is ignored.
    pub fn is_placed(&self, row: u16) -> bool
        ensures { result ≡ row_is_placed (ground_of self.now) row }
    {
        !self.has_elements(row)
            || (self.static_size <= self.place(row) && self.end(row) as usize <= self.bytes.len())
    }

    /// The bytes of the row's elements, rounded up to a multiple of 4.
    pub fn rounded_bytes(&self, row: u16) -> u64
        ensures value { result ≡ rounded_bytes (ground_of self.now) row }
        ensures bound { result < 2 ^ 33 }
    {
        round4(u64::from(self.bytes_of(row)))
    }
}
