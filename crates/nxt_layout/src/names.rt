// The rows that the numbers of an array's lists name.

ghost use Rattle.std.specs.Prelude.{◌≡◌, ℕ, Bool, ◌<◌, ◌≤◌, ◌*◌, ◌+◌, ◌^◌, count_by, length, IfOk};
ghost use Rattle.nxt_model.specs.Reading.{row_count};
ghost use Rattle.nxt_layout.specs.Rows.{Ground};
ghost use Rattle.nxt_layout.specs.Inside.RowPasses.{ground_of, numbers_in, bit_of, listed, names_by};
ghost use Rattle.nxt_layout.specs.Inside.Known.{IsNamed};

use crate::dataspace::Dataspace;
use crate::marks::mark;
use nxt_types::NoMemory;
use std::alloc::Global;

/// How often numbers name each row of a table: not at all, once, or more; and whether one is past the table's rows.
#[derive(Drop)]
pub struct Names {
    marks: Vec<u8>,
    pub beyond: bool,
}

impl Names {
    /// No names, of a table of these rows.
    pub fn new(alloc: Global, space: &Dataspace) -> Result<Names, NoMemory>
        ensures { IfOk result (IsNamed (ground_of space.now) (λ p. 0)) }
    {
        Ok(Names {
            marks: vec![in alloc; 0u8; usize::from(space.rows())]?,
            beyond: false,
        })
    }

    /// Takes the numbers at `place` in the elements that stand at `places`, each `times` times.
    pub fn take_at(&mut self, space: &Dataspace, places: &[u32], place: u32, times: u8)
        requires { 0 < times × times ≤ 2 }
        ensures { (c : (ℕ → Bool) → ℕ) → IsNamed (ground_of space.now) c self.old → IsNamed (ground_of space.now) (λ p. c p + times * count_by p (numbers_in (ground_of space.now) place places.now)) self.new }
    {
        for at in places {
            self.take(space.number_at(*at as usize + place as usize), times);
        }
    }

    /// Takes a number `times` times.
    pub fn take(&mut self, number: u16, times: u8)
        requires { 0 < times × times ≤ 2 }
        ensures { (g : Ground) (c : (ℕ → Bool) → ℕ) → IsNamed g c self.old → IsNamed g (λ p. c p + times * bit_of (p number)) self.new }
    {
        let row = usize::from(number);
        if row < self.marks.len() {
            mark(self.marks.as_mut_slice(), row, times);
        } else {
            self.beyond = true;
        }
    }

    /// The rows that are named, in order; one that is named more than once comes twice. Row 0 is none.
    pub fn rows(&self, alloc: Global, space: &Dataspace) -> Result<Vec<u16>, NoMemory>
        requires { length self.now.marks.items ≡ row_count (ground_of space.now).memory }
        ensures few { row_count (ground_of space.now).memory < 2 ^ 16 }
        ensures rows { (c : (ℕ → Bool) → ℕ) → IsNamed (ground_of space.now) c self.now → IfOk result (λ rows. rows.items ≡ listed (names_by c) (row_count (ground_of space.now).memory)) }
    {
        let mut rows: Vec<u16> = Vec::new(alloc);
        let table_rows = space.rows();
        for row in 0..table_rows {
            if row > 0 {
                let end = rows.len() + usize::from(self.marks[usize::from(row)]);
                rows.resize(end, row)?;
            }
        }
        Ok(rows)
    }
}
