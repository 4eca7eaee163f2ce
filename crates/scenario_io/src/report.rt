//! The report that a program writes.

ghost use Rattle.std.specs.Prelude.{OnOk, OnErr};
ghost use Rattle.pv_ports.specs.Port.{HasCause, Appended, AppendedPrefix};
ghost use Rattle.report_text.specs.Report.{line, text};

use pv_ports::{Failed, Sink, write_all};
use pv_words::{Entry, Journal};
use report_text::{Line, has_line, write_line};

// Writes the line of an entry, as a piece of its own. It stands apart from the pass over all entries, most of which have no
// line.
#[inline(never)]
fn write_one<K: Sink>(
    sink: &mut K,
    out: &mut Line,
    entry: &Entry,
    with_words: bool,
) -> Result<(), Failed>
    ensures ok { OnOk result (Appended (K.bytes sink.old) (K.bytes sink.new) (line entry.now with_words)) }
    ensures err { OnErr result (AppendedPrefix (K.bytes sink.old) (K.bytes sink.new) (line entry.now with_words)) }
    ensures cause { HasCause (K.faults sink.old) (K.faults sink.new) result }
{
    write_line(out, entry, with_words);
    write_all(sink, out.as_bytes())
}

/// Writes the lines of a journal's entries, one after another, each as a piece of its own; an entry without a line
/// writes nothing. At an `Err` the sink has got a front of the text.
pub fn write_report<K: Sink>(
    sink: &mut K,
    journal: &Journal,
    with_words: bool,
) -> Result<(), Failed>
    ensures ok { OnOk result
        (Appended (K.bytes sink.old) (K.bytes sink.new) (text journal.now.entries with_words)) }
    ensures err { OnErr result
        (AppendedPrefix (K.bytes sink.old) (K.bytes sink.new) (text journal.now.entries with_words)) }
    ensures cause { HasCause (K.faults sink.old) (K.faults sink.new) result }
{
    let mut line = Line::new();
    for i in 0..journal.len() {
        if has_line(&journal.at(i), with_words) {
            write_one(sink, &mut line, &journal.at(i), with_words)?;
        }
    }
    Ok(())
}
