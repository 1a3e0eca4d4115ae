// The lesser of two lines.

ghost use Rattle.std.specs.Prelude.{◌≡◌};
ghost use Rattle.nxt_nbc_lines.specs.Firsts.{lesser as lesser_of};

/// The lesser of two lines, where there are any.
pub fn lesser(a: Option<u32>, b: Option<u32>) -> Option<u32>
    ensures { result ≡ lesser_of a b }
{
    match (a, b) {
        (Some(a), Some(b)) => Some(a.min(b)),
        (Some(a), None) => Some(a),
        (None, b) => b,
    }
}
