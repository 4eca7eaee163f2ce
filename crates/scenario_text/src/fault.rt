//! What is wrong with a text.

ghost use Rattle.std.specs.Prelude.{◌≡◌, Some};
ghost use Rattle.scenario_text.specs.declared.fault.ParseFault.TheVariants.{OutOfMemory};

use script_tokens::FaultKind;
use std::alloc::AllocFailed;
use std::error::Error;
use std::fmt::{self, Display, Formatter};

/// The first fault of a text. Lines and columns count from 1, columns in octets.
#[derive(Clone, Copy, Debug, PartialEq, Eq)]
pub struct ScriptFault {
    pub line: u32,
    /// Where the token stands that fails.
    pub column: u32,
    pub kind: FaultKind,
}

impl Display for ScriptFault {
    ghost use Rattle.scenario_text.specs.Texts.{fault_text};

    ghost output = { λ fault. Some (fault_text fault) };

    fn fmt<W: fmt::Write>(&self, f: &mut Formatter<W>) -> fmt::Result {
        let line = self.line;
        let column = self.column;
        let kind = self.kind;
        write!(f, "line {line}, column {column}: {kind}")
    }
}

impl Error for ScriptFault {}

/// Why a text wasn't read.
#[derive(Debug, Drop)]
pub enum ParseFault {
    /// The text's first fault.
    Fault(ScriptFault),
    /// There was no memory for what the text says.
    OutOfMemory,
}

impl Display for ParseFault {
    ghost use Rattle.scenario_text.specs.Texts.{parse_fault_text};

    ghost output = { λ fault. Some (parse_fault_text fault) };

    fn fmt<W: fmt::Write>(&self, f: &mut Formatter<W>) -> fmt::Result {
        match self {
            ParseFault::Fault(fault) => write!(f, "{fault}"),
            ParseFault::OutOfMemory => write!(f, "out of memory"),
        }
    }
}

impl Error for ParseFault {}

impl<T: Drop> From<AllocFailed<T>> for ParseFault {
    ghost from_gives = { λ _ e. e ≡ OutOfMemory };

    fn from(_e: AllocFailed<T>) -> ParseFault {
        ParseFault::OutOfMemory
    }
}
