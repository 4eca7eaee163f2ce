//! What is wrong with a line.

ghost use Rattle.std.specs.Prelude.{◌≡◌, Some};

use std::fmt::{self, Display, Formatter};

/// A kind of fault in a script.
#[derive(Clone, Copy, Debug, PartialEq, Eq)]
pub enum FaultKind {
    /// A control octet, or one above 0x7E, outside a comment.
    BadByte,
    /// The first token of a line is none that begins a declaration or a statement.
    UnknownStatement,
    /// The line ends too early. The column is one past its last token.
    MissingWord,
    /// A token too many.
    ExtraWord,
    /// No number, or one of 2^64 and above.
    BadNumber,
    /// A number outside its bounds.
    OutOfRange,
    /// A word that isn't in the place's list.
    BadWord,
    /// A second declaration of a domain or a device.
    Twice,
    /// A declaration after a statement.
    Late,
    /// A domain or a device that isn't declared.
    Undeclared,
    /// A statement that this kind of domain doesn't have.
    NotAllowed,
    /// A statement for another kind of device.
    WrongDevice,
}

impl Display for FaultKind {
    ghost use Rattle.script_tokens.specs.Kinds.{kind_text};

    ghost output = { λ kind. Some (kind_text kind) };

    fn fmt<W: fmt::Write>(&self, f: &mut Formatter<W>) -> fmt::Result {
        f.write_str(match self {
            FaultKind::BadByte => "BadByte",
            FaultKind::UnknownStatement => "UnknownStatement",
            FaultKind::MissingWord => "MissingWord",
            FaultKind::ExtraWord => "ExtraWord",
            FaultKind::BadNumber => "BadNumber",
            FaultKind::OutOfRange => "OutOfRange",
            FaultKind::BadWord => "BadWord",
            FaultKind::Twice => "Twice",
            FaultKind::Late => "Late",
            FaultKind::Undeclared => "Undeclared",
            FaultKind::NotAllowed => "NotAllowed",
            FaultKind::WrongDevice => "WrongDevice",
        })
    }
}

/// A fault in a line.
#[derive(Clone, Copy, Debug, PartialEq, Eq)]
pub struct Flaw {
    /// Where in the line, from 1: the first octet of the token that fails, or what its kind says.
    pub column: u32,
    pub kind: FaultKind,
}
