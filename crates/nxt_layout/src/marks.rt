// Marks by number: not at all, once, or more.

ghost use Rattle.std.specs.Prelude.{◌≡◌, ℕ, ◌==◌, ◌+◌, ◌≤◌, ◌<◌, min, length, slice_index, if◌then◌else◌};
ghost use Rattle.nxt_layout.specs.Inside.RowPasses.{times as times_of};

/// Marks a number `times` more; what is marked twice stays so.
pub fn mark(marks: &mut [u8], at: usize, times: u8)
    requires place { at < length marks.old }
    requires times { times ≤ 2 }
    ensures count { length marks.new ≡ length marks.old }
    ensures marks { (r : ℕ) → slice_index marks.old r ≤ 2 → slice_index marks.new r ≡ min 2 (slice_index marks.old r + (if r == at then times else 0)) }
{
    if marks[at] < 2 {
        marks[at] = (marks[at] + times).min(2);
    }
}

/// Marks each of these numbers once more.
pub fn mark_all(marks: &mut [u8], numbers: &[u16])
    ensures count { length marks.new ≡ length marks.old }
    ensures marks { (r : ℕ) → r < length marks.old → slice_index marks.old r ≤ 2 → slice_index marks.new r ≡ min 2 (slice_index marks.old r + times_of r numbers.now) }
{
    for number in numbers {
        let at = usize::from(*number);
        if at < marks.len() {
            mark(marks, at, 1);
        }
    }
}
