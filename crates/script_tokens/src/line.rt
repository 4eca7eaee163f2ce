//! From a text to its lines, without their comments.

ghost use Rattle.std.specs.Prelude.{◌≡◌, ◌<◌, ◌≤◌, ◌+◌, ◌-◌, ◌^◌, length, IfOk};
ghost use Rattle.std.specs.List.{position_or_len, before_first, after_first};
ghost use Rattle.script_tokens.specs.Flaws.{Gives};
ghost use Rattle.script_tokens.specs.Lines.{is_line_end, ends_code, code_of};

use crate::fault::{FaultKind, Flaw};
use crate::octet::ends_code;

/// The number of octets before the first one that isn't a line's code.
#[tactic(auto, using(std::proofs::lemmas::List::Sums::position_or_len_is))]
fn code_len(text: &[u8]) -> usize
    ensures value { result ≡ position_or_len ends_code text.now }
    ensures bound { result ≤ length text.now }
{
    for (len, b) in text.iter().enumerate() {
        if ends_code(*b) {
            return len;
        }
    }
    text.len()
}

/// The number of octets before the first line's end.
#[tactic(auto, using(std::proofs::lemmas::List::Sums::position_or_len_is))]
fn line_len(text: &[u8]) -> usize
    ensures value { result ≡ position_or_len is_line_end text.now }
    ensures bound { result ≤ length text.now }
{
    for (len, b) in text.iter().enumerate() {
        if *b == b'\n' {
            return len;
        }
    }
    text.len()
}

/// The octets of the first line before its comment.
pub fn code_of(text: &[u8]) -> Result<&[u8], Flaw>
    requires { length text.now < 2 ^ 32 - 1 }
    ensures code { Gives (λ code. code.now) result (code_of (before_first is_line_end text.now)) }
    ensures bound { IfOk result (λ code. length code.now ≤ length text.now) }
{
    let len = code_len(text);
    if len < text.len() && text[len] != b'\n' && text[len] != b'#' {
        return Err(Flaw {
            column: len as u32 + 1,
            kind: FaultKind::BadByte,
        });
    }
    Ok(&text[..len])
}

/// What follows the first line's end.
pub fn after_line(text: &[u8]) -> &[u8]
    ensures { result.now ≡ after_first is_line_end text.now }
{
    let len = line_len(text);
    if len == text.len() {
        return &[];
    }
    &text[len + 1..]
}
