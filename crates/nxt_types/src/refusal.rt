// What a refusal tells: a rule and a place.

ghost use Rattle.std.specs.Prelude.{◌≡◌, ◌∷◌, []};
ghost use Rattle.nxt_types.specs.BrokenRules.{rule_and_place};

/// A broken rule, by its number.
#[derive(Clone, Copy, PartialEq, Eq, Debug)]
pub struct BrokenRule {
    pub rule: u8,
    pub place: Place,
}

/// The numbers that tell where a rule is broken.
#[derive(Clone, Copy, PartialEq, Eq, Debug)]
pub enum Place {
    /// There is but one place.
    Only,
    At(u64),
    /// The second counts within the first, or is its companion.
    Pair(u32, u32),
}

impl BrokenRule {
    /// A rule that is broken at a place told by one number.
    pub fn at(rule: u8, place: u32) -> BrokenRule
        ensures { rule_and_place result ≡ rule ∷ place ∷ [] }
    {
        BrokenRule {
            rule,
            place: Place::At(u64::from(place)),
        }
    }

    /// A rule that can be broken at one place alone.
    pub fn whole(rule: u8) -> BrokenRule
        ensures { rule_and_place result ≡ rule ∷ [] }
    {
        BrokenRule {
            rule,
            place: Place::Only,
        }
    }

    /// A rule on a size, with the size that breaks it.
    pub fn passed(rule: u8, size: u64) -> BrokenRule
        ensures { rule_and_place result ≡ rule ∷ size ∷ [] }
    {
        BrokenRule {
            rule,
            place: Place::At(size),
        }
    }

    /// A rule that is broken at a place told by two numbers.
    pub fn pair(rule: u8, first: u32, second: u32) -> BrokenRule
        ensures { rule_and_place result ≡ rule ∷ first ∷ second ∷ [] }
    {
        BrokenRule {
            rule,
            place: Place::Pair(first, second),
        }
    }
}
