//! Refused mappings, and what a domain is told of its grants.

ghost use Rattle.std.specs.Prelude.{◌≡◌, ◌+◌, ◌<◌, ◌≤◌, [], ◌∷◌, codes, length};
ghost use Rattle.std.specs.Fmt.{decimal};
ghost use Rattle.report_text.specs.Fields.{with_fields, joined};
ghost use Rattle.report_text.specs.Grants.{refusal_fields, told_fields};

use crate::builder::{Line, MAX_LINE_LEN};
use pv_words::{DomId, GrantRef, GrantRefusal, Told};

/// Adds why a mapping was refused.
pub(crate) fn push_refusal(out: &mut Line, refusal: GrantRefusal)
    requires { length out.old + 28 ≤ MAX_LINE_LEN }
    ensures text { out.new ≡ with_fields out.old (refusal_fields refusal) }
    ensures length { length out.new ≤ length out.old + 28 }
{
    match refusal {
        GrantRefusal::NoEntry(reference) => out.push(b" noentry", &[reference]),
        GrantRefusal::NotPermitted(word) => out.push(b" notpermitted", &[word]),
        GrantRefusal::OtherDomain(word) => out.push(b" otherdomain", &[word]),
        GrantRefusal::ReadOnly(word) => out.push(b" readonly", &[word]),
        GrantRefusal::InUse(word) => out.push(b" inuse", &[word]),
        GrantRefusal::Moved(loaded, seen) => out.push(b" moved", &[loaded, seen]),
        GrantRefusal::BadFrame(frame) => out.push(b" badframe", &[frame]),
        GrantRefusal::NoNext => out.push_text(b" nonext"),
    }
}

/// Begins the line of a grant of a domain.
#[inline]
fn start_grant(out: &mut Line, dom: DomId, gref: GrantRef)
    ensures text { out.new ≡ joined (codes "grant" ∷ decimal dom.0 ∷ decimal gref.0 ∷ []) }
    ensures length { length out.new ≤ 27 }
{
    out.start(b"grant", &[u32::from(dom.0), gref.0]);
}

/// Writes what a domain is told.
pub(crate) fn write_told(out: &mut Line, dom: DomId, told: Told)
    ensures text { out.new ≡ joined (told_fields dom.0 told) }
    ensures length { length out.new < MAX_LINE_LEN }
{
    match told {
        Told::OpenRefused(gref, word) => {
            start_grant(out, dom, gref);
            out.push(b" refused", &[word]);
        }
        Told::Ended(gref) => {
            start_grant(out, dom, gref);
            out.push_text(b" ended");
        }
        Told::Busy(gref, word) => {
            start_grant(out, dom, gref);
            out.push(b" busy", &[word]);
        }
        Told::Moved(gref, loaded, seen) => {
            start_grant(out, dom, gref);
            out.push(b" moved", &[loaded, seen]);
        }
        Told::NotReady(dev) => out.start(b"notready", &[u32::from(dev.0)]),
    }
}
