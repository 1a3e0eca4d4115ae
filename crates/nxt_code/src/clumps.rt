// The rules of clumps.

ghost use Rattle.std.specs.Prelude.{◌≡◌, ◌≤◌, ◌<◌, ◌||◌, nat_le, length, slice_get};
ghost use Rattle.nxt_types.specs.Refusals.{passes};
ghost use Rattle.nxt_rxe.specs.Files.{dependent_count};
ghost use Rattle.nxt_code.specs.CodeRules.{is_inside, is_bad_start, names_no_clump};
ghost use Rattle.nxt_code.specs.Decoding.{IsDecoded};
ghost use Rattle.nxt_code.specs.Inside.Places.{Finds, FindsPair};

use crate::statements::Decoded;
use nxt_types::lists::ClumpRec;

/// The first clump that starts past the code, or inside a statement.
pub fn bad_start(code: &Decoded, words: &[u16], clumps: &[ClumpRec]) -> Option<u32>
    requires decoded { IsDecoded words.now code.now }
    requires few { length clumps.now ≤ 65535 }
    ensures { Finds (is_bad_start words.now clumps.now) result }
{
    for (i, clump) in clumps.iter().enumerate() {
        if starts_badly(code, words, clump.start) {
            return Some(i as u32);
        }
    }
    None
}

fn starts_badly(code: &Decoded, words: &[u16], start: u16) -> bool
    requires { IsDecoded words.now code.now }
    ensures { result ≡ (nat_le (length words.now) start || is_inside words.now start) }
{
    usize::from(start) >= words.len() || is_inside(code, words, start)
}

// Whether a word lies in a statement, past its first word.
fn is_inside(code: &Decoded, words: &[u16], word: u16) -> bool
    requires { IsDecoded words.now code.now }
    ensures { result ≡ is_inside words.now word }
{
    usize::from(word) < code.numbers.len() && !code.begins_at(i64::from(word))
}

/// The first clump that has a dependent which names no clump, and the first such position among its dependents.
pub fn bad_dependent(clumps: &[ClumpRec], dependents: &[u8]) -> Option<(u32, u32)>
    requires count { length dependents.now ≡ dependent_count clumps.now }
    requires few { length clumps.now ≤ 65535 }
    ensures { FindsPair (names_no_clump clumps.now dependents.now) result }
{
    let mut rest = dependents;
    for (i, clump) in clumps.iter().enumerate() {
        let (own, others) = rest.split_at(usize::from(clump.dependents));
        if let Some(position) = first_from(own, clumps.len()) {
            return Some((i as u32, position));
        }
        rest = others;
    }
    None
}

// The position of the first number that is at least so large.
fn first_from(numbers: &[u8], least: usize) -> Option<u32>
    requires { length numbers.now < 256 }
    ensures { Finds (λ k. passes (nat_le least) (slice_get numbers.now k)) result }
{
    for (k, number) in numbers.iter().enumerate() {
        if usize::from(*number) >= least {
            return Some(k as u32);
        }
    }
    None
}
