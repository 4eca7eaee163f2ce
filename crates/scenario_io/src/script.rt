//! The script that a program reads.

ghost use Rattle.std.specs.Prelude.{◌≡◌, ℕ, ◌+◌, ◌-◌, ◌<◌, ◌≤◌, ◌%◌, List, length, take, Some, IfOk, OnOk, OnErr, IsErrOf, vec_len};
ghost use Rattle.pv_ports.specs.Port.{HasCause, Gave, IsAtEnd};
ghost use Rattle.scenario_io.specs.Script.{GaveAtMost, GaveBlocks, GaveMany, TellsFaults};
ghost use Rattle.scenario_io.specs.declared.script.ReadError.TheVariants as read_error;

use pv_ports::{Failed, Source};
use std::alloc::{AllocError, Global};
use thiserror::Error;

/// How many octets a script has at most.
pub const SCRIPT_LIMIT: usize = 4194304;

// How many octets are asked for at first.
const FIRST_ROOM: usize = 65536;

/// Why a script wasn't read.
#[derive(Clone, Copy, Debug, PartialEq, Eq, Error)]
pub enum ReadError {
    /// The source failed.
    #[error("the script can't be read")]
    Failed,
    /// It has more than `SCRIPT_LIMIT` octets.
    #[error("the script has more than {SCRIPT_LIMIT} octets")]
    TooLong,
    /// Memory ran out.
    #[error("out of memory")]
    OutOfMemory,
}

impl From<Failed> for ReadError {
    ghost from_gives = { λ _ error. error ≡ read_error.Failed };

    fn from(_failed: Failed) -> ReadError {
        ReadError::Failed
    }
}

impl From<AllocError> for ReadError {
    ghost from_gives = { λ _ error. error ≡ read_error.OutOfMemory };

    fn from(_error: AllocError) -> ReadError {
        ReadError::OutOfMemory
    }
}

// Makes the buffer longer, at most one octet beyond a script's limit, and keeps what it has.
fn grow(buffer: &mut Vec<u8>) -> Result<(), AllocError>
    requires { vec_len buffer.old ≤ SCRIPT_LIMIT }
    ensures kept { OnOk result (take (vec_len buffer.old) buffer.new.items ≡ buffer.old.items) }
    ensures longer { OnOk result (vec_len buffer.old < vec_len buffer.new) }
    ensures within { OnOk result (vec_len buffer.new ≤ SCRIPT_LIMIT + 1) }
    ensures blocks { OnOk result (vec_len buffer.old % FIRST_ROOM ≡ 0
        → vec_len buffer.new ≤ SCRIPT_LIMIT
        → vec_len buffer.new % FIRST_ROOM ≡ 0) }
{
    let room = (buffer.len() * 2).clamp(FIRST_ROOM, SCRIPT_LIMIT + 1);
    buffer.resize(room, 0)
}

// Reads until `into` is full or the source is at its end, and returns how many octets it gave.
#[tactic(auto, using(pv_ports::proofs::Octets::adding_up))]
fn fill<S: Source>(source: &mut S, into: &mut [u8]) -> Result<usize, Failed>
    ensures fits { IfOk result (λ count. count ≤ length into.new) }
    ensures gave { IfOk result (λ count.
        Gave (S.rest source.old) (S.rest source.new) (take count into.new)) }
    ensures end { IfOk result (λ count. count < length into.new → IsAtEnd (S.rest source.new)) }
    ensures err { OnErr result (GaveAtMost (S.rest source.old) (S.rest source.new) (length into.old - 1)) }
    ensures cause { HasCause (S.faults source.old) (S.faults source.new) result }
{
    let mut done = 0;
    while done < into.len() {
        let count = source.read(&mut into[done..])?;
        if count == 0 {
            return Ok(done);
        }
        done += count;
    }
    Ok(done)
}

/// Reads a source to its end, at most `SCRIPT_LIMIT` octets of it.
///
/// `ReadError::TooLong` comes once one octet more was read, and `ReadError::Failed` at the first fault of the
/// source; what was read until then is lost. `ReadError::OutOfMemory` comes where memory runs out, of which no
/// clause says when; but it comes in place of neither of the two others.
pub fn read_script<S: Source>(alloc: Global, source: &mut S) -> Result<Vec<u8>, ReadError>
    ensures within { IfOk result (λ script. length script.items ≤ SCRIPT_LIMIT) }
    ensures gave { IfOk result (λ script.
        Gave (S.rest source.old) (S.rest source.new) script.items) }
    ensures end { OnOk result (IsAtEnd (S.rest source.new)) }

    // Where the source told what it has, that is the script.
    ensures whole { IfOk result (λ script.
        (told : List ℕ) → S.rest source.old ≡ Some told → script.items ≡ told) }

    ensures too_long { IsErrOf result ReadError.TooLong
        → GaveMany (S.rest source.old) (S.rest source.new) (SCRIPT_LIMIT + 1) }
    ensures too_long_told { IsErrOf result ReadError.TooLong
        → (told : List ℕ) → S.rest source.old ≡ Some told → SCRIPT_LIMIT < length told }

    // The source failed exactly where that is the answer.
    ensures faults { TellsFaults (S.faults source.old) (S.faults source.new) result }

    // A fault hides no script that is too long.
    ensures failed { IsErrOf result ReadError.Failed
        → GaveAtMost (S.rest source.old) (S.rest source.new) SCRIPT_LIMIT }

    // Memory is asked for before the first octet and behind whole blocks, and hides no script that is too long.
    ensures wanting { IsErrOf result ReadError.OutOfMemory
        → GaveBlocks (S.rest source.old) (S.rest source.new) }

    // Whatever the result, no more is taken than shows that a script is too long.
    ensures takes { GaveAtMost (S.rest source.old) (S.rest source.new) (SCRIPT_LIMIT + 1) }
{
    let mut buffer = Vec::new(alloc);
    let mut len = 0;
    while len == buffer.len() && len <= SCRIPT_LIMIT {
        grow(&mut buffer)?;
        len += fill(source, &mut buffer[len..])?;
    }
    if len > SCRIPT_LIMIT {
        return Err(ReadError::TooLong);
    }
    buffer.truncate(len);
    Ok(buffer)
}
