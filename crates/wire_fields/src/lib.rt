//! The fields of messages of Xen's paravirtual devices that don't fill one word alone, read from the octets of their
//! words and written to them. A word has 32 bits, and its low octet comes first.
#![tactic(auto)]

ghost use Rattle.std.specs.Prelude.{◌≡◌, ◌+◌, ◌*◌, ◌/◌, ◌%◌, ◌^◌};
ghost use Rattle.std.specs.Int.{w32, cast_signed, cast_unsigned};
ghost use Rattle.wire_fields.specs.Fields.{head_of, octet_of, two_octets, u64_words};

use byteorder::{ByteOrder, LittleEndian};

/// The id and the operation (of an event: its type) in the first word of a message.
pub fn head_fields(word: u32) -> (u16, u8)
    ensures id { result.0 ≡ word % 2 ^ 16 }
    ensures operation { result.1 ≡ octet_of word 2 }
{
    let mut octets = [0; 4];
    LittleEndian::write_u32(&mut octets, word);
    (LittleEndian::read_u16(&octets), octets[2])
}

/// The first word of a message with this id and operation. Its last octet is 0.
pub fn head_word(id: u16, op: u8) -> u32
    ensures { result ≡ head_of id op }
{
    let mut octets = [0; 4];
    LittleEndian::write_u16(&mut octets, id);
    octets[2] = op;
    LittleEndian::read_u32(&octets)
}

/// The first two octets of a word.
pub fn octets_of(word: u32) -> (u8, u8)
    ensures first { result.0 ≡ octet_of word 0 }
    ensures second { result.1 ≡ octet_of word 1 }
{
    let mut octets = [0; 4];
    LittleEndian::write_u32(&mut octets, word);
    (octets[0], octets[1])
}

/// The word of two octets, of which the others are 0.
pub fn word_of_octets(first: u8, second: u8) -> u32
    ensures { result ≡ two_octets first second }
{
    LittleEndian::read_u32(&[first, second, 0, 0])
}

/// The number of 64 bits in two words, its low half first.
pub fn u64_of(low: u32, high: u32) -> u64
    ensures { result ≡ low + 2 ^ 32 * high }
{
    let mut octets = [0; 8];
    LittleEndian::write_u32(&mut octets, low);
    LittleEndian::write_u32(&mut octets[4..], high);
    LittleEndian::read_u64(&octets)
}

/// The two words of a number of 64 bits, its low half first.
pub fn words_of_u64(n: u64) -> [u32; 2]
    ensures { result ≡ u64_words n }
{
    let mut octets = [0; 8];
    LittleEndian::write_u64(&mut octets, n);
    [
        LittleEndian::read_u32(&octets),
        LittleEndian::read_u32(&octets[4..]),
    ]
}

/// The signed number in a word, as two's complement.
pub fn i32_of(word: u32) -> i32
    ensures { result ≡ cast_signed w32 word }
{
    let mut octets = [0; 4];
    LittleEndian::write_u32(&mut octets, word);
    LittleEndian::read_i32(&octets)
}

/// The word of a signed number, as two's complement.
pub fn word_of_i32(n: i32) -> u32
    ensures { result ≡ cast_unsigned w32 n }
{
    let mut octets = [0; 4];
    LittleEndian::write_i32(&mut octets, n);
    LittleEndian::read_u32(&octets)
}
