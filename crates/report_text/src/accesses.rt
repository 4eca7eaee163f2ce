//! Accesses to single words.

ghost use Rattle.std.specs.Prelude.{◌≡◌, ◌+◌, ◌*◌, ◌≤◌, ◌++◌, length, map};
ghost use Rattle.std.specs.Fmt.{decimal};
ghost use Rattle.report_text.specs.Accesses.{access_fields, place_fields};
ghost use Rattle.report_text.specs.Fields.{with_fields};

use crate::builder::{Line, MAX_LINE_LEN};
use pv_words::{Access, Half, Place};

/// Adds where a word stands.
fn push_place(out: &mut Line, place: Place)
    requires { length out.old + 38 ≤ MAX_LINE_LEN }
    ensures text { out.new ≡ with_fields out.old (place_fields place) }
    ensures length { length out.new ≤ length out.old + 38 }
{
    match place {
        Place::Cell(dom, frame, word) => {
            out.push(b" cell", &[u32::from(dom.0), frame.0, u32::from(word)]);
        }
        Place::Grant(dom, gref, half) => {
            out.push(b" grant", &[u32::from(dom.0), gref.0]);
            out.push_text(match half {
                Half::Flags => b" flags",
                Half::FrameNo => b" frame",
            });
        }
    }
}

/// Adds what was done to a word, where, and the numbers of it.
#[inline(always)]
fn push_parts(out: &mut Line, done: &[u8], place: Place, numbers: &[u32])
    requires { length out.old + length done.now + 38 + 11 * length numbers.now ≤ MAX_LINE_LEN }
    ensures text { out.new
        ≡ with_fields (with_fields (out.old ++ done.now) (place_fields place)) (map decimal numbers.now) }
    ensures length { length out.new
        ≤ length out.old + length done.now + 38 + 11 * length numbers.now }
{
    out.push_text(done);
    push_place(out, place);
    out.push_numbers(numbers);
}

/// Adds what was done to a word, and where.
pub(crate) fn push_access(out: &mut Line, access: Access)
    requires { length out.old + 76 ≤ MAX_LINE_LEN }
    ensures text { out.new ≡ with_fields out.old (access_fields access) }
    ensures length { length out.new ≤ length out.old + 76 }
{
    match access {
        Access::Load(place, value) => push_parts(out, b" load", place, &[value]),
        Access::Store(place, value) => push_parts(out, b" store", place, &[value]),
        Access::Cas(place, old, new, seen) => push_parts(out, b" swap", place, &[old, new, seen]),
        Access::Clear(place, mask, seen) => push_parts(out, b" clear", place, &[mask, seen]),
    }
}
