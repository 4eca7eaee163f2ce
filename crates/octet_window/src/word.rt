//! The octets of a piece, out of a word and into it.

ghost use Rattle.std.specs.Prelude.{◌≡◌, ◌+◌, ◌<◌, ◌≤◌, Some, slice_get};
ghost use Rattle.octet_window.specs.Octets.{octets_of};
ghost use Rattle.octet_window.specs.Parts.{blended, part_of};

use crate::piece::Piece;

/// Octet `i`, from 0, of those that the piece has of its word, where that is this word.
pub fn join(word: u32, p: &Piece, i: u8) -> u8
    requires whole { p.now.first + p.now.len ≤ 4 }
    requires below { i < p.now.len }
    ensures octet { slice_get (octets_of word) (p.now.first + i) ≡ Some result }
    ensures part { slice_get (part_of p.now word) i ≡ Some result }
{
    word.to_le_bytes()[(p.first + i) as usize]
}

/// The word in which the octets that the piece has of it are replaced by the first of these octets, as many as the piece has.
/// All others stay.
pub fn blend(word: u32, p: &Piece, octets: [u8; 4]) -> u32
    requires { p.now.first + p.now.len ≤ 4 }
    ensures { octets_of result ≡ blended p.now word octets }
{
    let first = p.first as usize;
    let len = p.len as usize;
    let mut all = word.to_le_bytes();
    all[first..first + len].copy_from_slice(&octets[..len]);
    u32::from_le_bytes(all)
}
