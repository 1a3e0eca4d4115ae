// The kinds of bytes, and how many of a kind stand at the front.

ghost use Rattle.std.specs.Prelude.{◌≡◌, not, ◌==◌, ◌&&◌};
ghost use Rattle.std.specs.List.{prefix_len};
ghost use Rattle.nxt_model.specs.Nbc.Tokens.{is_digit, is_hex_digit, is_name_byte, is_shown, line_feeds};

/// A letter, an underscore or a digit.
fn is_name_byte(b: u8) -> bool
    ensures { result ≡ is_name_byte b }
{
    b.is_ascii_alphanumeric() || b == b'_'
}

/// May stand in a text in quotes.
fn is_shown(b: u8) -> bool
    ensures { result ≡ is_shown b }
{
    matches!(b, b' '..=b'~')
}

/// How many bytes at the front may stand in a name.
pub(crate) fn name_len(bytes: &[u8]) -> usize
    ensures { result ≡ prefix_len is_name_byte bytes.now }
{
    bytes.iter().take_while(|b| is_name_byte(**b)).count()
}

/// How many digits stand at the front.
pub(crate) fn digits_len(bytes: &[u8]) -> usize
    ensures { result ≡ prefix_len is_digit bytes.now }
{
    bytes.iter().take_while(|b| b.is_ascii_digit()).count()
}

/// How many hexadecimal digits stand at the front.
pub(crate) fn hex_digits_len(bytes: &[u8]) -> usize
    ensures { result ≡ prefix_len is_hex_digit bytes.now }
{
    bytes.iter().take_while(|b| b.is_ascii_hexdigit()).count()
}

/// How many bytes at the front may stand in a text that this quote closes.
pub(crate) fn shown_len(quote: u8, bytes: &[u8]) -> usize
    ensures { result ≡ prefix_len (λ b. is_shown b && not (b == quote)) bytes.now }
{
    bytes
        .iter()
        .take_while(|b| is_shown(**b) && **b != quote)
        .count()
}

/// How many bytes go up to the line's end.
pub(crate) fn line_len(bytes: &[u8]) -> usize
    ensures { result ≡ prefix_len (λ b. not (b == 10)) bytes.now }
{
    bytes.iter().take_while(|b| **b != b'\n').count()
}

/// How many line feeds there are.
pub(crate) fn line_feeds(bytes: &[u8]) -> usize
    ensures { result ≡ line_feeds bytes.now }
{
    bytes.iter().filter(|b| **b == b'\n').count()
}
