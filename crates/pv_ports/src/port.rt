// What a source and a sink promise.
ghost use Rattle.std.specs.Prelude.{◌≡◌, ℕ, ◌+◌, ◌<◌, ◌≤◌, List, length, take, Option, IfOk, OnOk, OnErr};
ghost use Rattle.pv_ports.specs.Port.{HasCause, Gave, IsAtEnd, Appended, AppendedPrefix};

use thiserror::Error;

/// A port failed: nothing more is known, and its count of faults rose.
#[derive(Clone, Copy, Debug, PartialEq, Eq, Error)]
#[error("the port failed")]
pub struct Failed;

/// Where octets come from.
pub trait Source {
    /// The octets that are still to be read, where the source tells them.
    ghost rest: { Self → Option (List ℕ) };

    /// How often reading has failed, in a count that stands still at `u64::MAX`. Only a call that fails changes it.
    ghost faults: { Self → ℕ };

    /// Reads octets into the front of `into`, and returns how many. None, where there is room, is the end.
    /// What `into` has behind them is left open. An `Err` took nothing from the source.
    fn read(&mut self, into: &mut [u8]) -> Result<usize, Failed>
        ensures fits { IfOk result (λ count. count ≤ length into.new) }
        ensures gave { IfOk result (λ count.
            Gave (rest self.old) (rest self.new) (take count into.new)) }
        ensures end { IfOk result (λ count. count ≡ 0 → 0 < length into.old → IsAtEnd (rest self.new)) }
        ensures err { OnErr result (rest self.new ≡ rest self.old) }
        ensures cause { HasCause (faults self.old) (faults self.new) result };
}

/// Where octets go to.
pub trait Sink {
    /// The octets that the sink has got, where it tells them.
    ghost bytes: { Self → Option (List ℕ) };

    /// How often writing has failed, in a count that stands still at `u64::MAX`. Only a call that fails changes it.
    ghost faults: { Self → ℕ };

    /// Takes octets from the front of `piece`, at least one if there is one, and returns how many.
    /// An `Err` took none.
    fn write(&mut self, piece: &[u8]) -> Result<usize, Failed>
        ensures fits { IfOk result (λ count. count ≤ length piece.now) }
        ensures moves { IfOk result (λ count. 0 < length piece.now → 0 < count) }
        ensures appended { IfOk result (λ count.
            Appended (bytes self.old) (bytes self.new) (take count piece.now)) }
        ensures err { OnErr result (bytes self.new ≡ bytes self.old) }
        ensures cause { HasCause (faults self.old) (faults self.new) result };
}

/// Writes the whole piece, in as many calls as the sink wants. At an `Err` the sink has got a front of it.
pub fn write_all<K: Sink>(sink: &mut K, piece: &[u8]) -> Result<(), Failed>
    ensures ok { OnOk result (Appended (K.bytes sink.old) (K.bytes sink.new) piece.now) }
    ensures err { OnErr result (AppendedPrefix (K.bytes sink.old) (K.bytes sink.new) piece.now) }
    ensures cause { HasCause (K.faults sink.old) (K.faults sink.new) result }
{
    let mut done = 0;
    while done < piece.len() {
        done += sink.write(&piece[done..])?;
    }
    Ok(())
}
