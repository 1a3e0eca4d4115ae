// How much a type holds.

ghost use Rattle.std.specs.Prelude.{◌≡◌, ◌<◌, ℕ, ◌+◌, Bool, false, ◌||◌, max, min, nat_lt};
ghost use Rattle.nxt_nbc_names.specs.Extents.{extent, too_many_entries, too_many_nested};

use nxt_types::words::MOST_ENTRIES;

/// The most arrays and structs around one part of a declared type.
const MOST_NESTED: u32 = 8;

/// How much a type holds. A count above its limit is held as one above it.
#[derive(Clone, Copy, PartialEq, Eq, Debug)]
pub struct Extent {
    /// The table entries of a variable.
    pub entries: u32,
    /// How many arrays and structs stand around its innermost part.
    pub nested: u32,
    pub has_list: bool,
}

impl Extent {
    /// That of a number or a mutex.
    pub fn of_leaf() -> Extent
        ensures { result ≡ extent 1 0 false }
    {
        Extent {
            entries: 1,
            nested: 0,
            has_list: false,
        }
    }

    /// That of no members.
    pub fn of_none() -> Extent
        ensures { result ≡ extent 0 0 false }
    {
        Extent {
            entries: 0,
            nested: 0,
            has_list: false,
        }
    }

    /// That of members with one more.
    pub fn with(self, member: Extent) -> Extent
        ensures { (n m d e : ℕ) (a b : Bool) → self ≡ extent n d a → member ≡ extent m e b → result ≡ extent (n + m) (max d e) (a || b) }
    {
        Extent {
            entries: held(self.entries.saturating_add(member.entries), MOST_ENTRIES),
            nested: self.nested.max(member.nested),
            has_list: self.has_list || member.has_list,
        }
    }

    /// That of a struct with these members.
    pub fn of_struct(self) -> Extent
        ensures { (n d : ℕ) (a : Bool) → self ≡ extent n d a → result ≡ extent (n + 1) (d + 1) a }
    {
        Extent {
            entries: held(self.entries.saturating_add(1), MOST_ENTRIES),
            nested: held(self.nested.saturating_add(1), MOST_NESTED),
            has_list: self.has_list,
        }
    }

    /// That of a type with this number of arrays around it.
    pub fn of_arrays(self, arrays: usize) -> Extent
        ensures { (n d : ℕ) (a : Bool) → self ≡ extent n d a → result ≡ extent (n + arrays) (d + arrays) (nat_lt 0 arrays || a) }
    {
        let more = arrays.min(MOST_ENTRIES as usize + 1) as u32;
        Extent {
            entries: held(self.entries.saturating_add(more), MOST_ENTRIES),
            nested: held(self.nested.saturating_add(more), MOST_NESTED),
            has_list: arrays > 0 || self.has_list,
        }
    }

    /// Whether no variable may have a type of this extent.
    pub fn is_too_large(self) -> bool
        ensures { (n d : ℕ) (a : Bool) → self ≡ extent n d a → result ≡ (nat_lt 49151 n || nat_lt 8 d) }
    {
        self.entries > MOST_ENTRIES || self.nested > MOST_NESTED
    }
}

// A count, or one above the limit where it is above it.
fn held(count: u32, limit: u32) -> u32
    requires { limit < 49152 }
    ensures { result ≡ min count (limit + 1) }
{
    count.min(limit + 1)
}
