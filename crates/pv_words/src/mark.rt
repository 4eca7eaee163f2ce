//! Marks: a number of 32 bits by which a report tells a list of numbers.

ghost use Rattle.std.specs.Prelude.{◌≡◌, fold};
ghost use Rattle.pv_words.specs.Mark.{mark_after};

/// The mark of a list to which a number is appended, from that of the list. An empty list has mark 0.
pub fn next_mark(mark: u32, value: u32) -> u32
    ensures { result ≡ mark_after mark value }
{
    mark.wrapping_mul(31).wrapping_add(value)
}

/// The mark of a list to which octets are appended, from that of the list.
pub fn extend_mark(mark: u32, octets: &[u8]) -> u32
    ensures { result ≡ fold mark_after mark octets.now }
{
    octets
        .iter()
        .fold(mark, |mark, octet| next_mark(mark, u32::from(*octet)))
}
