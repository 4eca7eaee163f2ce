// A source that gives the octets of a list, in memory.
ghost use Rattle.std.specs.Prelude.{◌≡◌, ◌+◌, ◌<◌, ◌≤◌, ◌↔◌, [], ◌++◌, length, min, take, Some};
ghost use Rattle.std.specs.Prelude.{vec_len, Contains, IfOk, IsOk, IsErr, OnOk, OnErr};
ghost use Rattle.pv_ports.specs.Port.{counted, CountsFault, HasCause};

use crate::plan::Plan;
use crate::{Failed, Source};

/// A source that gives the octets of a list, in order, and fails at the calls that it was told to fail at.
#[derive(Drop)]
pub struct ListSource {
    bytes: Vec<u8>,
    at: usize,
    plan: Plan,
    ghost within: { at ≤ vec_len bytes },
}

impl ListSource {
    ghost use Rattle.pv_ports.specs.ListSource.{source_rest, source_fails, source_calls, source_faults};

    /// A source of these octets, whose calls with the numbers in `fails` fail. The first call has the number 0.
    pub fn new(bytes: Vec<u8>, fails: Vec<u64>) -> ListSource
        ensures rest { source_rest result ≡ bytes.items }
        ensures fails { source_fails result ≡ fails.items }
        ensures calls { source_calls result ≡ 0 }
        ensures faults { source_faults result ≡ 0 }
    {
        ListSource {
            bytes,
            at: 0,
            plan: Plan::new(fails),
        }
    }
}

impl Source for ListSource {
    ghost use Rattle.pv_ports.specs.ListSource.{source_rest, source_fails, source_calls, source_faults};

    ghost rest = { λ source. Some (source_rest source) };

    ghost faults = { source_faults };

    /// Gives as many octets as there are and fit. A call fails exactly where its number is listed.
    fn read(&mut self, into: &mut [u8]) -> Result<usize, Failed>
        ensures fits { IfOk result (λ count. count ≤ length into.new) }
        ensures gave { IfOk result (λ count.
            source_rest self.old ≡ take count into.new ++ source_rest self.new) }
        ensures end { IfOk result (λ count.
            count ≡ 0 → 0 < length into.old → source_rest self.new ≡ []) }
        ensures err { OnErr result (source_rest self.new ≡ source_rest self.old) }
        ensures cause { HasCause (source_faults self.old) (source_faults self.new) result }
        ensures fails { IsErr result ↔ Contains (source_fails self.old) (source_calls self.old) }
        ensures count { IfOk result (λ count.
            count ≡ min (length (source_rest self.old)) (length into.old)) }
        ensures calls { source_calls self.new ≡ counted (source_calls self.old) }
        ensures faults { CountsFault (source_faults self.old) (source_faults self.new) result }
        ensures same_fails { source_fails self.new ≡ source_fails self.old }
    {
        if self.plan.next_fails() {
            return Err(self.plan.fault());
        }
        let count = copy_front(&self.bytes[self.at..], into);
        self.at += count;
        Ok(count)
    }
}

// Copies as many octets as there are and fit, and returns how many.
fn copy_front(from: &[u8], into: &mut [u8]) -> usize
    ensures count { result ≡ min (length from.now) (length into.old) }
    ensures front { take result into.new ≡ take result from.now }
{
    let count = from.len().min(into.len());
    into[..count].copy_from_slice(&from[..count]);
    count
}
