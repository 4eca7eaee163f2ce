//! Lines of text, and how they are written.

ghost use Rattle.std.specs.Prelude.{◌≡◌, ◌+◌, ◌*◌, ◌≤◌, ◌↔◌, [], ◌∷◌, ◌++◌, length, map, take, IsTrue};
ghost use Rattle.std.specs.Fmt.{decimal, signed_decimal};
ghost use Rattle.report_text.specs.Fields.{with_fields};

use itoa::write_digits;
use std::marker::Model;

/// How many octets a line has at most, with its line feed.
pub const MAX_LINE_LEN: usize = 128;

/// A line of text with its line feed, or nothing, seen as the list of its octets.
#[derive(Debug, Drop)]
pub struct Line {
    octets: [u8; MAX_LINE_LEN],
    end: usize,
}

impl Model for Line {
    ghost use Rattle.std.specs.Prelude.{List, ℕ, ◌≤◌, take};
    ghost use Rattle.report_text.specs.declared.builder.TheConstants.{MAX_LINE_LEN};

    ghost Value = { List ℕ };

    ghost view = { λ line. take line.end line.octets };

    ghost invariant = { λ line. line.end ≤ MAX_LINE_LEN };
}

/// Copies the text to the octets from `at` on.
#[inline(always)]
fn copy_to(octets: &mut [u8], at: usize, text: &[u8])
    requires { at + length text.now ≤ length octets.old }
    ensures { take (at + length text.now) octets.new ≡ take at octets.old ++ text.now }
{
    let end = at + text.len();
    octets[at..end].copy_from_slice(text);
}

/// How many digits a number has.
#[inline]
fn digit_count(n: u64) -> usize
    ensures { result ≡ length (decimal n) }
{
    let mut count = 1;
    let mut left = n;
    while left >= 10 {
        left /= 10;
        count += 1;
    }
    count
}

/// Writes the digits of a number to the octets from `at` on, and returns where they end.
#[inline]
fn copy_digits(octets: &mut [u8], at: usize, n: u64) -> usize
    requires { at + length (decimal n) ≤ length octets.old }
    ensures end { result ≡ at + length (decimal n) }
    ensures written { take result octets.new ≡ take at octets.old ++ decimal n }
{
    let end = at + digit_count(n);
    write_digits(n, octets, end);
    end
}

impl Line {
    /// The empty line.
    #[inline]
    pub fn new() -> Line
        ensures { result ≡ [] }
    {
        Line {
            octets: [0; MAX_LINE_LEN],
            end: 0,
        }
    }

    /// The octets of the line, with its line feed.
    #[inline]
    pub fn as_bytes(&self) -> &[u8]
        ensures value { result.now ≡ self.now }
        ensures within { length result.now ≤ MAX_LINE_LEN }
    {
        &self.octets[..self.end]
    }

    /// Says whether there is no line.
    #[inline]
    pub fn is_empty(&self) -> bool
        ensures { IsTrue result ↔ (self.now ≡ []) }
    {
        self.end == 0
    }

    /// Takes everything away.
    #[inline]
    pub(crate) fn clear(&mut self)
        ensures { self.new ≡ [] }
    {
        self.end = 0;
    }

    /// Adds a text at the end.
    #[inline(always)]
    pub(crate) fn push_text(&mut self, text: &[u8])
        requires { length self.old + length text.now ≤ MAX_LINE_LEN }
        ensures text { self.new ≡ self.old ++ text.now }
        ensures length { length self.new ≡ length self.old + length text.now }
    {
        copy_to(&mut self.octets, self.end, text);
        self.end += text.len();
    }

    /// Adds the digits of a number.
    #[inline]
    fn push_digits(&mut self, n: u64)
        requires { length self.old + length (decimal n) ≤ MAX_LINE_LEN }
        ensures text { self.new ≡ self.old ++ decimal n }
        ensures length { length self.new ≡ length self.old + length (decimal n) }
    {
        self.end = copy_digits(&mut self.octets, self.end, n);
    }

    /// Adds a space and a number of at most 64 bits.
    #[tactic(auto, using(crate::proofs::Digits::most_digits_64))]
    #[inline]
    pub(crate) fn push_long(&mut self, n: u64)
        requires { length self.old + 21 ≤ MAX_LINE_LEN }
        ensures text { self.new ≡ self.old ++ 32 ∷ decimal n }
        ensures length { length self.new ≤ length self.old + 21 }
    {
        self.push_text(b" ");
        self.push_digits(n);
    }

    /// Adds a space and a number of at most 32 bits.
    #[tactic(auto, using(crate::proofs::Digits::digits_32))]
    #[inline]
    pub(crate) fn push_number(&mut self, n: u32)
        requires { length self.old + 11 ≤ MAX_LINE_LEN }
        ensures text { self.new ≡ self.old ++ 32 ∷ decimal n }
        ensures length { length self.new ≤ length self.old + 11 }
    {
        if n < 10 {
            self.push_text(&[b' ', b'0' + n as u8]);
        } else {
            self.push_text(b" ");
            self.push_digits(u64::from(n));
        }
    }

    /// Adds a space and a signed number, with its sign where it is below 0.
    #[tactic(auto, using(crate::proofs::Digits::most_digits_32))]
    #[inline]
    pub(crate) fn push_signed(&mut self, n: i32)
        requires { length self.old + 12 ≤ MAX_LINE_LEN }
        ensures text { self.new ≡ self.old ++ 32 ∷ signed_decimal n }
        ensures length { length self.new ≤ length self.old + 12 }
    {
        self.push_text(if n < 0 { b" -" } else { b" " });
        self.push_digits(u64::from(n.unsigned_abs()));
    }

    /// Adds each of the numbers after a space.
    #[inline]
    pub(crate) fn push_numbers(&mut self, numbers: &[u32])
        requires { length self.old + 11 * length numbers.now ≤ MAX_LINE_LEN }
        ensures text { self.new ≡ with_fields self.old (map decimal numbers.now) }
        ensures length { length self.new ≤ length self.old + 11 * length numbers.now }
    {
        for n in numbers {
            self.push_number(*n);
        }
    }

    /// Adds a text, and each of the numbers after a space.
    #[inline(always)]
    pub(crate) fn push(&mut self, text: &[u8], numbers: &[u32])
        requires { length self.old + length text.now + 11 * length numbers.now ≤ MAX_LINE_LEN }
        ensures text { self.new ≡ with_fields (self.old ++ text.now) (map decimal numbers.now) }
        ensures length { length self.new
            ≤ length self.old + length text.now + 11 * length numbers.now }
    {
        self.push_text(text);
        self.push_numbers(numbers);
    }

    /// Begins the line anew with a word, and each of the numbers after a space.
    #[inline(always)]
    pub(crate) fn start(&mut self, word: &[u8], numbers: &[u32])
        requires { length word.now + 11 * length numbers.now ≤ MAX_LINE_LEN }
        ensures text { self.new ≡ with_fields word.now (map decimal numbers.now) }
        ensures length { length self.new ≤ length word.now + 11 * length numbers.now }
    {
        self.clear();
        self.push(word, numbers);
    }
}
