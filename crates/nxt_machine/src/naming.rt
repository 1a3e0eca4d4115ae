// What the words of a statement name.

ghost use Rattle.std.specs.Prelude.{◌≡◌};
ghost use Rattle.nxt_machine.specs.Numbers.{number_at, halts};

use nxt_space::Space;
use nxt_types::numbers::wrap;
use nxt_types::words::NAMELESS;

/// The number that a word names, or 0.
pub(crate) fn number(space: &Space, word: u16) -> i64
    ensures { result ≡ number_at space.now.vars word }
{
    if word < NAMELESS { space.get(word) } else { 0 }
}

/// Whether a stop stops, by its operand: one that is left out does.
pub(crate) fn stops(space: &Space, word: u16) -> bool
    ensures { result ≡ halts space.now.vars word }
{
    if word >= NAMELESS || space.shape(word).is_none() {
        return true;
    }
    wrap(space.get(word)) != 0
}
