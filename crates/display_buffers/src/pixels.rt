// Where the octets of a buffer stand.

ghost use Rattle.std.specs.Prelude.{◌≡◌, ◌/◌, ◌<◌, length, Some};
ghost use Rattle.display_buffers.specs.Pixels.{octet_place};

use pv_words::{PageList, Place};

const PAGE_OCTETS: u32 = 4096;

const WORD_OCTETS: u32 = 4;

// The word that has this octet of a buffer with these pages.
pub(crate) fn place_of<P: PageList>(pages: &P, octet: u32) -> Place
    requires { octet / 4096 < length (P.holds pages.now) }
    ensures { octet_place (P.holds pages.now) octet ≡ Some result }
{
    let hold = pages.get(octet / PAGE_OCTETS);
    let word = octet % PAGE_OCTETS / WORD_OCTETS;
    Place::Cell(hold.dom, hold.frame, word as u16)
}
