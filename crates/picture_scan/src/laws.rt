//! What scans come to.

ghost use Rattle.picture_scan.specs.Laws.{ShowsExactly};

/// Whatever words a scan finds, each of its accesses is a load of a word of the buffer's pages, and a device holds after it what it
/// held. The words that it takes are, row by row, those that have an octet of the row's pixels, in order; what it shows are as many
/// pixels as the rectangle has, and the mark of the pixels of just these words, row by row.
pub fn shows_exactly()
    ensures { ShowsExactly }
{}
