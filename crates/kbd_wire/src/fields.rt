// The fields that do not fill one word alone, and signed ones, read from the octets of their words and written to them.

ghost use Rattle.std.specs.Prelude.{◌≡◌, ◌/◌, ◌%◌, ◌^◌};
ghost use Rattle.std.specs.Int.{w32, cast_signed, cast_unsigned};
ghost use Rattle.kbd_wire.specs.Wire.{head_of};

use byteorder::{ByteOrder, LittleEndian};

// The first three octets of a word.
pub(crate) fn head_octets(word: u32) -> (u8, u8, u8)
    ensures first { result.0 ≡ word % 2 ^ 8 }
    ensures second { result.1 ≡ word / 2 ^ 8 % 2 ^ 8 }
    ensures third { result.2 ≡ word / 2 ^ 16 % 2 ^ 8 }
{
    let mut octets = [0; 4];
    LittleEndian::write_u32(&mut octets, word);
    (octets[0], octets[1], octets[2])
}

// The word of these three octets.
pub(crate) fn head_word(first: u8, second: u8, third: u8) -> u32
    ensures { result ≡ head_of first second third }
{
    LittleEndian::read_u32(&[first, second, third, 0])
}

// The signed number in a word.
pub(crate) fn i32_of(word: u32) -> i32
    ensures { result ≡ cast_signed w32 word }
{
    let mut octets = [0; 4];
    LittleEndian::write_u32(&mut octets, word);
    LittleEndian::read_i32(&octets)
}

// The word of a signed number.
pub(crate) fn word_of_i32(n: i32) -> u32
    ensures { result ≡ cast_unsigned w32 n }
{
    let mut octets = [0; 4];
    LittleEndian::write_i32(&mut octets, n);
    LittleEndian::read_u32(&octets)
}
