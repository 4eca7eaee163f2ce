//! How a command ended.

ghost use Rattle.std.specs.Prelude.{◌≡◌};
ghost use Rattle.scenario_cli.specs.Numbers.{ended_with, is_written, number_of};

use scenario_text::ScriptFault;
use std::fmt::{self, Display, Formatter};

/// How a command ended. Its name is what the program prints on the standard error, and its number is what the
/// program ends with.
#[derive(Clone, Copy, Debug, PartialEq, Eq)]
pub enum Status {
    /// The script was read and played to its end, and all was written.
    Ok,
    /// The words are no command.
    Usage,
    /// The script has a fault, and this is its first.
    Script(ScriptFault),
    /// The source failed.
    ReadFault,
    /// The sink failed, and has got a front of the output.
    WriteFault,
    /// Memory ran out.
    OutOfMemory,
    /// The journal has as many entries as it may have, and a further one was due.
    JournalFull,
    /// The script has more than `scenario_io::SCRIPT_LIMIT` octets.
    TooLong,
    /// The report isn't legal from this line on.
    NotLegal(u32),
}

impl Status {
    /// The number that the program ends with.
    pub fn number(self) -> u8
        ensures { result ≡ number_of self }
    {
        match self {
            Status::Ok => 0,
            Status::Usage => 2,
            Status::Script(_) => 3,
            Status::ReadFault => 4,
            Status::WriteFault => 5,
            Status::OutOfMemory => 6,
            Status::JournalFull => 7,
            Status::TooLong => 8,
            Status::NotLegal(_) => 9,
        }
    }

    /// Whether the whole output was written.
    pub fn has_output(self) -> bool
        ensures { result ≡ is_written self }
    {
        matches!(self, Status::Ok | Status::JournalFull)
    }

    /// How the program ends that then flushed its output, or failed to.
    pub fn flushed(self, is_flushed: bool) -> Status
        ensures { result ≡ ended_with self is_flushed }
    {
        if self.has_output() && !is_flushed {
            return Status::WriteFault;
        }
        self
    }
}

impl Display for Status {
    ghost use Rattle.std.specs.Prelude.{Some};
    ghost use Rattle.scenario_cli.specs.Numbers.{status_text};

    ghost output = { λ s. Some (status_text s) };

    fn fmt<W: fmt::Write>(&self, f: &mut Formatter<W>) -> fmt::Result {
        match self {
            Status::Ok => write!(f, "Ok"),
            Status::Usage => write!(f, "Usage"),
            Status::Script(fault) => {
                let line = fault.line;
                let column = fault.column;
                let kind = fault.kind;
                write!(f, "Script {line} {column} {kind}")
            }
            Status::ReadFault => write!(f, "ReadFault"),
            Status::WriteFault => write!(f, "WriteFault"),
            Status::OutOfMemory => write!(f, "OutOfMemory"),
            Status::JournalFull => write!(f, "JournalFull"),
            Status::TooLong => write!(f, "TooLong"),
            Status::NotLegal(line) => write!(f, "NotLegal {line}"),
        }
    }
}
