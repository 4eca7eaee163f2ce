//! A rectangle of a buffer.

ghost use Rattle.std.specs.Prelude.{◌≡◌, ◌+◌, ◌<◌, ◌≤◌, ◌*◌, ◌^◌, ◌↔◌, IsTrue};
ghost use Rattle.picture_scan.specs.Rectangle.{IsWithin, row_first, row_octets};

/// A rectangle of the pixels of a buffer. Rows follow one another, and so do the pixels of a row: pixel (x, y) of a buffer starts
/// at octet `(y * width + x) * bpp / 8`.
#[derive(Clone, Copy, Debug, PartialEq, Eq)]
pub struct Shape {
    /// How many pixels a row of the buffer has.
    pub width: u32,
    /// Bits a pixel: 16, 24 or 32.
    pub bpp: u32,
    /// The first of the rectangle's columns, from 0.
    pub x: u32,
    /// The first of its rows, from 0.
    pub y: u32,
    /// How many columns it has.
    pub columns: u32,
    /// How many rows it has.
    pub rows: u32,
}

impl Shape {
    // How many rows the buffer has down to the rectangle's last.
    fn bottom(&self) -> u64
        ensures { result ≡ self.now.y + self.now.rows }
    {
        u64::from(self.y) + u64::from(self.rows)
    }

    // Whether so many rows of the buffer lie in so many pixels.
    fn has_room(&self, rows: u64, pixels: u64) -> bool
        requires some { 0 < self.now.width }
        requires small { pixels < 2 ^ 32 }
        ensures { IsTrue result ↔ (rows * self.now.width ≤ pixels) }
    {
        rows <= pixels && rows * u64::from(self.width) <= pixels
    }

    /// Whether the rectangle may be read in a buffer of so many octets: a pixel has 16, 24 or 32 bits, the rectangle has a pixel, its
    /// columns lie in the buffer's width, and the buffer's rows down to its last lie in these octets.
    pub fn is_within(&self, octets: u32) -> bool
        ensures { IsTrue result ↔ IsWithin octets self.now }
    {
        let known = self.bpp == 16 || self.bpp == 24 || self.bpp == 32;
        if !known || self.columns == 0 || self.rows == 0 {
            return false;
        }
        if u64::from(self.x) + u64::from(self.columns) > u64::from(self.width) {
            return false;
        }
        self.has_room(self.bottom(), u64::from(octets / (self.bpp / 8)))
    }

    // The octet at which the rectangle's pixels of a row of the buffer start.
    pub(crate) fn row_first(&self, row: u32) -> u32
        requires within { IsWithin 33554432 self.now }
        requires row { row < self.now.y + self.now.rows }
        ensures { result ≡ row_first self.now row }
    {
        (row * self.width + self.x) * (self.bpp / 8)
    }

    // How many octets they have.
    pub(crate) fn row_octets(&self) -> u32
        requires { IsWithin 33554432 self.now }
        ensures { result ≡ row_octets self.now }
    {
        self.columns * (self.bpp / 8)
    }

    // How many pixels the rectangle has.
    pub(crate) fn count(&self) -> u32
        requires { IsWithin 33554432 self.now }
        ensures { result ≡ self.now.columns * self.now.rows }
    {
        self.columns * self.rows
    }
}
