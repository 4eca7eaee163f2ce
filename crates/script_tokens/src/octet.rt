//! Classes of octets.

ghost use Rattle.std.specs.Prelude.{◌≡◌};
ghost use Rattle.script_tokens.specs.Lines.{is_plain, ends_code};
ghost use Rattle.script_tokens.specs.Tokens.{is_blank};

/// Whether an octet separates tokens.
pub fn is_blank(b: u8) -> bool
    ensures { result ≡ is_blank b }
{
    b == b' ' || b == b'\t' || b == b'\r'
}

/// Whether an octet may stand outside a comment.
fn is_plain(b: u8) -> bool
    ensures { result ≡ is_plain b }
{
    (b >= 0x20 && b <= 0x7E) || b == b'\t' || b == b'\r'
}

/// Whether a line's code ends before this octet.
pub fn ends_code(b: u8) -> bool
    ensures { result ≡ ends_code b }
{
    // most octets of a text are above the sign of a comment
    if b > b'#' {
        b > 0x7E
    } else {
        b == b'#' || !is_plain(b)
    }
}
