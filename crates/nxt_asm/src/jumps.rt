// Jumps that are too far.

ghost use Rattle.std.specs.Prelude.{◌≡◌, ◌==◌, ◌&&◌, ℕ};
ghost use Rattle.std.specs.List.{list_any};
ghost use Rattle.nxt_model.specs.Assembled.{starts_from};
ghost use Rattle.nxt_asm_rules.specs.AsmRules.{is_far, jumps_far, far_in_body, far_in_blocks};
ghost use Rattle.nxt_nbc_lines.specs.Firsts.{IsLeast, lesser};
ghost use Rattle.nxt_asm_parts.specs.Starts.{blocks_starts};

use nxt_asm_parts::{Starts, word_at};
use nxt_model::nbc::{NbcArg, NbcBlock, NbcStatement};

/// The least line with a jump that is too far.
pub fn far_jump(blocks: &[NbcBlock], starts: &Starts) -> Option<u32>
    ensures { starts.now ≡ blocks_starts 0 blocks.now → IsLeast (λ line. far_in_blocks line 0 blocks.now) result }
{
    let mut found = None;
    for (i, block) in blocks.iter().enumerate() {
        found = lesser(found, far_in_body(starts.block(i), block.body.as_slice()));
    }
    found
}

// The least line of a block with a jump that is too far.
fn far_in_body(at: &[u64], body: &[NbcStatement]) -> Option<u32>
    ensures { (here : ℕ) → at.now ≡ starts_from here body.now → IsLeast (λ line. far_in_body line at.now here body.now) result }
{
    let mut found = None;
    for (j, statement) in body.iter().enumerate() {
        found = lesser(found, far_line(at, word_at(at, j), statement));
    }
    found
}

// The line of a statement at a word, if it jumps too far.
fn far_line(at: &[u64], here: u64, statement: &NbcStatement) -> Option<u32>
    ensures { IsLeast (λ line. (statement.now.line == line) && list_any (jumps_far at.now here) statement.now.args) result }
{
    if has_far_jump(at, here, statement.args.as_slice()) {
        Some(statement.line)
    } else {
        None
    }
}

// Whether one of the operands of a statement at a word is a jump that is too far.
fn has_far_jump(at: &[u64], here: u64, args: &[NbcArg]) -> bool
    ensures { result ≡ list_any (jumps_far at.now here) args.now }
{
    args.iter().any(|arg| jumps_far(at, here, arg))
}

// Whether an operand of such a statement is one.
fn jumps_far(at: &[u64], here: u64, arg: &NbcArg) -> bool
    ensures { result ≡ jumps_far at.now here arg.now }
{
    match arg {
        NbcArg::Jump(place) => is_far(here, word_at(at, *place as usize)),
        _ => false,
    }
}

// Whether an offset from one word to another doesn't fit 16 bits.
fn is_far(from: u64, to: u64) -> bool
    ensures { result ≡ is_far from to }
{
    from.saturating_sub(to) > 32_768 || to.saturating_sub(from) > 32_767
}

// The lesser of two lines, where there are any.
fn lesser(a: Option<u32>, b: Option<u32>) -> Option<u32>
    ensures { result ≡ lesser a b }
{
    match (a, b) {
        (Some(m), Some(n)) => Some(m.min(n)),
        (Some(m), None) => Some(m),
        (None, n) => n,
    }
}
