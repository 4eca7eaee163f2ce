//! The line of an entry.

ghost use Rattle.std.specs.Prelude.{◌≡◌, ◌<◌, ◌≤◌, [], false, length};
ghost use Rattle.report_text.specs.Fields.{joined};
ghost use Rattle.report_text.specs.Report.{entry_fields, has_line, is_with_words_only, line};

use crate::accesses::push_access;
use crate::builder::{Line, MAX_LINE_LEN};
use crate::devices::{write_bus, write_node, write_said};
use crate::grants::write_told;
use crate::hosts::{push_event, push_host_refusal};
use pv_words::Entry;

/// Says whether an entry has a line only in a report with the words.
#[inline]
fn is_with_words_only(e: &Entry) -> bool
    ensures { result ≡ is_with_words_only e.now }
{
    match e {
        Entry::Front(_, _)
        | Entry::Wake(_)
        | Entry::Back(_, _)
        | Entry::Host(_, _)
        | Entry::Node(_, _, _, _) => true,
        Entry::Refused(_, _) | Entry::Bus(_, _, _) | Entry::Said(_, _) | Entry::Told(_, _) => false,
    }
}

/// Writes the fields of an entry's line.
fn write_entry(out: &mut Line, e: &Entry)
    ensures text { out.new ≡ joined (entry_fields e.now) }
    ensures length { length out.new < MAX_LINE_LEN }
{
    match *e {
        Entry::Front(dom, access) => {
            out.start(b"front", &[u32::from(dom.0)]);
            push_access(out, access);
        }
        Entry::Wake(dev) => out.start(b"wake", &[u32::from(dev.0)]),
        Entry::Back(dev, access) => {
            out.start(b"back", &[u32::from(dev.0)]);
            push_access(out, access);
        }
        Entry::Host(dev, event) => {
            out.start(b"host", &[u32::from(dev.0)]);
            push_event(out, event);
        }
        Entry::Refused(dev, refusal) => {
            out.start(b"refused", &[u32::from(dev.0)]);
            push_host_refusal(out, refusal);
        }
        Entry::Bus(dev, end, state) => write_bus(out, dev, end, state),
        Entry::Node(dev, part, key, value) => write_node(out, dev, part, key, value),
        Entry::Said(dev, said) => write_said(out, dev, said),
        Entry::Told(dom, told) => write_told(out, dom, told),
    }
}

/// Says whether an entry has a line: an access, a wake-up, a host's event and a set node have one only where
/// `with_words` is true.
#[inline]
#[tactic(auto, unfolding(crate::specs::Report::line))]
pub fn has_line(e: &Entry, with_words: bool) -> bool
    ensures exact { result ≡ has_line e.now with_words }
    ensures none { result ≡ false → line e.now with_words ≡ [] }
{
    with_words || !is_with_words_only(e)
}

/// Makes `out` the line of an entry, with its line feed. It is empty where the entry has none: an access, a wake-up, a
/// host's event and a set node have a line only where `with_words` is true.
#[tactic(auto, unfolding(crate::specs::Report::line))]
pub fn write_line(out: &mut Line, e: &Entry, with_words: bool)
    ensures text { out.new ≡ line e.now with_words }
    ensures length { length out.new ≤ MAX_LINE_LEN }
{
    if has_line(e, with_words) {
        write_entry(out, e);
        out.push_text(b"\n");
    } else {
        out.clear();
    }
}

/// The line of an entry, as `write_line` writes it.
pub fn line_of(e: &Entry, with_words: bool) -> Line
    ensures text { result ≡ line e.now with_words }
    ensures length { length result ≤ MAX_LINE_LEN }
{
    let mut out = Line::new();
    write_line(&mut out, e, with_words);
    out
}
