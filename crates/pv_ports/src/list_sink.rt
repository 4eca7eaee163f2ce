// A sink that keeps what it gets in memory.
ghost use Rattle.std.specs.Prelude.{◌≡◌, ◌⊎◌, ◌+◌, ◌-◌, ◌<◌, ◌≤◌, ◌↔◌, [], ◌++◌, length, min, max, take, Some};
ghost use Rattle.std.specs.Prelude.{vec_len, vec_capacity, Contains, IfOk, IsOk, IsErr, OnOk, OnErr};
ghost use Rattle.pv_ports.specs.Port.{counted, CountsFault, HasCause};

use crate::plan::Plan;
use crate::{Failed, Sink};
use std::alloc::{AllocError, Global};

/// A sink that keeps the octets that it gets, for which room is made beforehand, and fails at the calls that it
/// was told to fail at.
#[derive(Drop)]
pub struct ListSink {
    bytes: Vec<u8>,
    room: usize,
    plan: Plan,
    ghost has_room: { vec_len bytes + room ≤ vec_capacity bytes },
}

impl ListSink {
    ghost use Rattle.pv_ports.specs.ListSink.{sink_bytes, sink_room, sink_fails, sink_calls, sink_faults};

    /// A sink with no octets and no room, whose calls of `write` with the numbers in `fails` fail. The first call
    /// has the number 0.
    pub fn new(alloc: Global, fails: Vec<u64>) -> ListSink
        ensures octets { sink_bytes result ≡ [] }
        ensures room { sink_room result ≡ 0 }
        ensures fails { sink_fails result ≡ fails.items }
        ensures calls { sink_calls result ≡ 0 }
        ensures faults { sink_faults result ≡ 0 }
    {
        ListSink {
            bytes: Vec::new(alloc),
            room: 0,
            plan: Plan::new(fails),
        }
    }

    /// Makes room for `count` octets beyond those that it has. It fails only where memory runs out, and then
    /// changes nothing.
    pub fn reserve(&mut self, count: usize) -> Result<(), AllocError>
        ensures ok { OnOk result (sink_room self.new ≡ max (sink_room self.old) count) }
        ensures err { OnErr result (sink_room self.new ≡ sink_room self.old) }
        ensures enough { count ≤ sink_room self.old → IsOk result }
        ensures octets { sink_bytes self.new ≡ sink_bytes self.old }
        ensures fails { sink_fails self.new ≡ sink_fails self.old }
        ensures calls { sink_calls self.new ≡ sink_calls self.old }
        ensures faults { sink_faults self.new ≡ sink_faults self.old }
    {
        if count > self.room {
            self.bytes.reserve(count)?;
            self.room = count;
        }
        Ok(())
    }

    /// The octets that it has got.
    pub fn as_slice(&self) -> &[u8]
        ensures { result.now ≡ sink_bytes self.now }
    {
        &self.bytes
    }
}

impl Sink for ListSink {
    ghost use Rattle.pv_ports.specs.ListSink.{sink_bytes, sink_room, sink_fails, sink_calls, sink_faults};

    ghost bytes = { λ sink. Some (sink_bytes sink) };

    ghost faults = { sink_faults };

    /// Takes as many octets as there is room for. A call fails exactly where its number is listed, and where there
    /// is an octet and no room.
    fn write(&mut self, piece: &[u8]) -> Result<usize, Failed>
        ensures fits { IfOk result (λ count. count ≤ length piece.now) }
        ensures moves { IfOk result (λ count. 0 < length piece.now → 0 < count) }
        ensures appended { IfOk result (λ count.
            sink_bytes self.new ≡ sink_bytes self.old ++ take count piece.now) }
        ensures err { OnErr result (sink_bytes self.new ≡ sink_bytes self.old) }
        ensures cause { HasCause (sink_faults self.old) (sink_faults self.new) result }
        ensures fails { IsErr result ↔ (Contains (sink_fails self.old) (sink_calls self.old)
            ⊎ (sink_room self.old ≡ 0) × (0 < length piece.now)) }
        ensures count { IfOk result (λ count. count ≡ min (length piece.now) (sink_room self.old)) }
        ensures room { IfOk result (λ count. sink_room self.new + count ≡ sink_room self.old) }
        ensures same_room { OnErr result (sink_room self.new ≡ sink_room self.old) }
        ensures calls { sink_calls self.new ≡ counted (sink_calls self.old) }
        ensures faults { CountsFault (sink_faults self.old) (sink_faults self.new) result }
        ensures same_fails { sink_fails self.new ≡ sink_fails self.old }
    {
        let is_planned = self.plan.next_fails();
        let count = piece.len().min(self.room);
        if is_planned || (count == 0 && !piece.is_empty()) {
            return Err(self.plan.fault());
        }
        self.bytes.extend_from_slice(&piece[..count]).unwrap();
        self.room -= count;
        Ok(count)
    }
}
