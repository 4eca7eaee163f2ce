//! The command that plays a scenario.

ghost use Rattle.std.specs.Prelude.{◌≡◌, [], ◌<◌, ◌↔◌, ◌^◌, ◌-◌, None, length};
ghost use Rattle.scenario_cli.specs.Command.{command_of};
ghost use Rattle.scenario_cli.specs.Ending.{SourceTold, SinkTold, Ends, EndsFor, HasPlayed, RunEnds};
ghost use Rattle.scenario_cli.specs.declared.status.Status.TheVariants as status;

use crate::Status;
use crate::command::{Command, command_of};
use pv_ports::{Sink, Source};
use pv_words::{Journal, Stop};
use scenario_io::{ReadError, read_script, write_report};
use scenario_run::play;
use scenario_text::{ParseFault, Script};
use std::alloc::Global;

// Reads a text as a script, plays it and writes its report.
fn play_text<K: Sink>(
    alloc: Global,
    text: &[u8],
    sink: &mut K,
    journal: &mut Journal,
    with_words: bool,
) -> Status
    requires short { length text.now < 2 ^ 32 - 1 }
    requires empty { journal.old.entries ≡ [] }
    ensures { EndsFor with_words text.now
        (record { bytes = K.bytes sink.old; faults = K.faults sink.old })
        (record { bytes = K.bytes sink.new; faults = K.faults sink.new })
        journal.new.entries result }
{
    let script = match Script::parse(alloc, text) {
        Ok(script) => script,
        Err(ParseFault::Fault(fault)) => return Status::Script(fault),
        Err(ParseFault::OutOfMemory) => return Status::OutOfMemory,
    };
    let status = match play(alloc, &script, journal) {
        Ok(()) => Status::Ok,
        Err(Stop::JournalFull) => Status::JournalFull,
        Err(Stop::OutOfMemory) => return Status::OutOfMemory,
    };
    match write_report(sink, journal, with_words) {
        Ok(()) => status,
        Err(_) => Status::WriteFault,
    }
}

// Reads a script to its end, plays it and writes its report.
#[tactic(auto, using(crate::proofs::Playing::has_played))]
fn run_script<S: Source, K: Sink>(
    alloc: Global,
    source: &mut S,
    sink: &mut K,
    journal: &mut Journal,
    with_words: bool,
) -> Status
    requires empty { journal.old.entries ≡ [] }
    ensures ends { RunEnds with_words
        (record { rest = S.rest source.old; faults = S.faults source.old })
        (record { rest = S.rest source.new; faults = S.faults source.new })
        (record { bytes = K.bytes sink.old; faults = K.faults sink.old })
        (record { bytes = K.bytes sink.new; faults = K.faults sink.new })
        journal.new.entries result }
    ensures every_path { HasPlayed (S.rest source.old) (S.rest source.new) journal.new.entries }
{
    match read_script(alloc, source) {
        Ok(text) => play_text(alloc, &text, sink, journal, with_words),
        Err(ReadError::Failed) => Status::ReadFault,
        Err(ReadError::TooLong) => Status::TooLong,
        Err(ReadError::OutOfMemory) => Status::OutOfMemory,
    }
}

/// Does what the words ask for: with `run` or `run --words`, it reads a script to its end, plays it into the journal, and
/// then writes the report, one line at a time; with `--words` every entry of the journal has a line. With `Usage`, `Script`,
/// `ReadFault` and `TooLong` nothing is played or written, and with `Usage` nothing is read. Want of memory hides no fault of
/// the source or the sink and no script that is too long. It is told where reading needs room for a further block of octets,
/// for what a line of the script before its first fault holds, or in the play.
pub fn run<S: Source, K: Sink>(
    alloc: Global,
    words: &Vec<String>,
    source: &mut S,
    sink: &mut K,
    journal: &mut Journal,
) -> Status
    requires empty { journal.old.entries ≡ [] }

    // What each status says of the octets that were read and written, of the faults, and of the journal; by the words, which
    // say also what report is written.
    ensures ends { Ends (command_of words.now.items)
        (record { rest = S.rest source.old; faults = S.faults source.old })
        (record { rest = S.rest source.new; faults = S.faults source.new })
        (record { bytes = K.bytes sink.old; faults = K.faults sink.old })
        (record { bytes = K.bytes sink.new; faults = K.faults sink.new })
        journal.new.entries result }

    ensures usage { (result ≡ status.Usage) ↔ (command_of words.now.items ≡ None) }

    // Whatever the status: the journal is lawful and explained; what a device says on an access directly follows it; what each
    // device says and hears is a run of its kind's machine, in which a connection closes only for a cause; and each access of
    // a device to a cell lies in a page that it mapped and hasn't unmapped, each other goes to its domain's grant entries.
    ensures every_path { HasPlayed (S.rest source.old) (S.rest source.new) journal.new.entries }
{
    match command_of(words) {
        Some(Command::Run { with_words }) => run_script(alloc, source, sink, journal, with_words),
        None => Status::Usage,
    }
}
