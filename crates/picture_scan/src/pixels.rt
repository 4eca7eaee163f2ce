// Octets are put together to pixels, and pixels to their mark.

ghost use Rattle.std.specs.Prelude.{◌≡◌, ◌+◌, ◌≤◌, fold, take, drop};
ghost use Rattle.octet_window.specs.Octets.{octets_of};
ghost use Rattle.picture_scan.specs.Pixels.{begun, fed};

use pv_words::next_mark;

// How far a list of pixels came, octet by octet.
#[derive(Clone, Copy, Debug, PartialEq, Eq)]
pub(crate) struct Pixels {
    // How many octets a pixel has: 2, 3 or 4.
    size: u32,
    // The mark of the whole pixels.
    mark: u32,
    // The octets of the next pixel that came, the last of them in the top octet; and how many are wanting.
    part: u32,
    wanted: u32,
}

impl Pixels {
    // Whole pixels of so many octets that have this mark, and no octet of the next.
    pub(crate) fn new(size: u32, mark: u32) -> Pixels
        ensures { result ≡ begun size mark }
    {
        Pixels {
            size,
            mark,
            part: 0,
            wanted: size,
        }
    }

    // The mark of the whole pixels.
    pub(crate) fn mark(&self) -> u32
        ensures { result ≡ self.now.mark }
    {
        self.mark
    }

    // After one more octet.
    fn feed(self, octet: u8) -> Pixels
        ensures { result ≡ fed self octet }
    {
        let part = self.part / 256 + u32::from(octet) * 16_777_216;
        if self.wanted > 1 {
            return Pixels {
                size: self.size,
                mark: self.mark,
                part,
                wanted: self.wanted - 1,
            };
        }
        let pixel = match self.size {
            2 => part / 65536,
            3 => part / 256,
            _ => part,
        };
        Pixels::new(self.size, next_mark(self.mark, pixel))
    }

    // After so many octets of a word, from this one of it on. A whole word of a buffer of 32 bits a pixel is a pixel.
    pub(crate) fn absorb(self, word: u32, skip: u32, count: u32) -> Pixels
        requires { skip + count ≤ 4 }
        ensures { result ≡ fold fed self (take count (drop skip (octets_of word))) }
    {
        if self.size == 4 && self.wanted == 4 && count == 4 {
            return Pixels::new(4, next_mark(self.mark, word));
        }
        let octets = word.to_le_bytes();
        octets[skip as usize..(skip + count) as usize]
            .iter()
            .fold(self, |pixels, octet| pixels.feed(*octet))
    }
}
