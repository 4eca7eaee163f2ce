//! The queue of a device.

ghost use Rattle.std.specs.Prelude.{◌≡◌, [], IfOk, OnErr, Some, slice_get};
ghost use Rattle.host_events.specs.Queue.{behind, full_at, refusal_in, unless};

use circular_buffer::HeapCircularBuffer;
use pv_words::HostRefusal;
use std::alloc::{AllocError, Global};
use std::marker::Model;

// How many events of a host may wait.
const LIMIT: usize = 64;

/// The events that wait, oldest first. A queue has room for 64 from the beginning.
#[derive(Drop)]
pub struct Queue<T: Copy> {
    events: HeapCircularBuffer<T>,
}

impl<T: Copy> Model for Queue<T> {
    ghost use Rattle.std.specs.Prelude.{◌≡◌, List};
    ghost use Rattle.std.specs.Coded.{coded_list};

    ghost Value = { List T };

    ghost coded = { coded_list T.code };

    ghost view = { λ q. q.events.items };

    ghost invariant = { λ q. q.events.capacity ≡ 64 };
}

impl<T: Copy> Queue<T> {
    /// A queue in which no event waits.
    pub fn new(alloc: Global) -> Result<Queue<T>, AllocError>
        ensures { IfOk result (λ q. q ≡ []) }
    {
        let events = HeapCircularBuffer::with_capacity(alloc, LIMIT)?;
        Ok(Queue { events })
    }

    /// The oldest event that waits.
    pub fn oldest(&self) -> Option<T>
        ensures { result ≡ slice_get self.now 0 }
    {
        self.events.front().copied()
    }

    /// The event waits last, unless 64 wait (`Full`), where nothing changes.
    pub fn push(&mut self, event: T) -> Result<(), HostRefusal>
        ensures refusal { refusal_in result ≡ full_at self.old }
        ensures waits { self.new ≡ unless (refusal_in result) self.old (Some event) }
    {
        match self.events.try_push_back(event) {
            Ok(()) => Ok(()),
            Err(_) => Err(HostRefusal::Full),
        }
    }

    /// The oldest event waits no longer.
    pub fn drop_oldest(&mut self)
        ensures { self.new ≡ behind self.old }
    {
        self.events.pop_front();
    }

    /// No event waits any longer.
    pub fn clear(&mut self)
        ensures { self.new ≡ [] }
    {
        self.events.clear();
    }
}
