// Ports over std's readers and writers.
ghost use Rattle.std.specs.Prelude.{◌≡◌, ◌<◌, ◌≤◌, length, None, IfOk};
ghost use Rattle.std.specs.Io.KnownBytes.{ReadConsumes, WriteAppends};
ghost use Rattle.pv_ports.specs.Port.{CountsFault, HasCause};
ghost use Rattle.pv_ports.specs.StdPorts.{inner_reader, reader_faults, inner_writer, writer_faults};

use crate::{Failed, Sink, Source};
use std::io::{Read, Write};

/// A source over one of std's readers. It tells nothing of what is still to be read.
#[derive(Drop)]
pub struct StdSource<R> {
    reader: R,
    faults: u64,
}

impl<R> StdSource<R> {
    /// A source that reads from `reader`.
    pub fn new(reader: R) -> StdSource<R>
        ensures reader { inner_reader result ≡ reader }
        ensures faults { reader_faults result ≡ 0 }
    {
        StdSource { reader, faults: 0 }
    }
}

impl<R: Read> Source for StdSource<R> {
    ghost rest = { λ _. None };

    ghost faults = { reader_faults };

    /// One read of the reader. Each of its errors is a fault, also `ErrorKind::Interrupted`.
    fn read(&mut self, into: &mut [u8]) -> Result<usize, Failed>
        ensures fits { IfOk result (λ count. count ≤ length into.new) }
        ensures cause { HasCause (reader_faults self.old) (reader_faults self.new) result }
        ensures faults { CountsFault (reader_faults self.old) (reader_faults self.new) result }

        // Over a reader that tells what it has left, the octets are those.
        ensures reader { ReadConsumes (R.remaining (inner_reader self.old))
            (R.remaining (inner_reader self.new)) result into.new }
    {
        match self.reader.read(into) {
            Ok(count) => Ok(count),
            Err(_) => {
                self.faults = self.faults.saturating_add(1);
                Err(Failed)
            }
        }
    }
}

/// A sink over one of std's writers. It tells nothing of what it has got.
#[derive(Drop)]
pub struct StdSink<W> {
    writer: W,
    faults: u64,
}

impl<W> StdSink<W> {
    /// A sink that writes to `writer`, and does not flush it.
    pub fn new(writer: W) -> StdSink<W>
        ensures writer { inner_writer result ≡ writer }
        ensures faults { writer_faults result ≡ 0 }
    {
        StdSink { writer, faults: 0 }
    }
}

impl<W: Write> Sink for StdSink<W> {
    ghost bytes = { λ _. None };

    ghost faults = { writer_faults };

    /// One write to the writer. Each of its errors is a fault, also `ErrorKind::Interrupted`, and so is an answer
    /// that it took nothing of a piece with octets.
    fn write(&mut self, piece: &[u8]) -> Result<usize, Failed>
        ensures fits { IfOk result (λ count. count ≤ length piece.now) }
        ensures moves { IfOk result (λ count. 0 < length piece.now → 0 < count) }
        ensures cause { HasCause (writer_faults self.old) (writer_faults self.new) result }
        ensures faults { CountsFault (writer_faults self.old) (writer_faults self.new) result }

        // A writer that tells what it holds has got the octets.
        ensures writer { WriteAppends (W.contents (inner_writer self.old))
            (W.contents (inner_writer self.new)) result piece.now }
    {
        match self.writer.write(piece) {
            Ok(count) if count > 0 || piece.is_empty() => Ok(count),
            _ => {
                self.faults = self.faults.saturating_add(1);
                Err(Failed)
            }
        }
    }
}
