//! What making and taking away a buffer come to, and what becomes of the pages.

ghost use Rattle.display_buffers.specs.Laws.{CreatesOne, DestroysOne, PixelsInside, StaysSound};
ghost use Rattle.display_buffers.specs.Laws.{FreesInOrder, GivesUpInOrder, KeepsPages};

/// After a CREATE that passed its checks, its cookie names the buffer that was asked for, and no other cookie changes.
pub fn creates_one<P>()
    ensures { CreatesOne P }
{}

/// After a DESTROY its cookie is free, and no other cookie changes.
pub fn destroys_one<P>()
    ensures { DestroysOne P }
{}

/// At most 64 buffers are live, under different cookies, each with its fields in range: a CREATE that passed its checks
/// and a DESTROY keep it so.
pub fn stays_sound<P>()
    ensures { StaysSound P }
{}

/// The octets of each pixel lie in a buffer whose fields are in range.
pub fn pixels_inside()
    ensures { PixelsInside }
{}

/// All pages are given up in order, the first of all first; the buffers stay.
pub fn gives_up_in_order()
    ensures { GivesUpInOrder }
{}

/// The pages of one buffer are given up in order, those of the others stay.
pub fn frees_in_order()
    ensures { FreesInOrder }
{}

/// A CREATE keeps all pages, and so does a DESTROY of a buffer that has none.
pub fn keeps_pages()
    ensures { KeepsPages }
{}
