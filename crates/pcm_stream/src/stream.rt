//! A stream of a sound device.

ghost use Rattle.std.specs.Prelude.{◌≡◌, ◌+◌, ◌*◌, ◌<◌, ◌≤◌, min, nat_lt, [], length, slice_get, Some, Ok, IsSome, IfOk, true, false};
ghost use Rattle.pv_words.specs.Mark.{mark_of};
ghost use Rattle.pcm_params.specs.Params.{is_accepted};
ghost use Rattle.pcm_stream.specs.Queue.{queue_for};
ghost use Rattle.pcm_stream.specs.State.{is_closed};
ghost use Rattle.pcm_stream.specs.Stream.{close_check, closed, open_check, opened, popped, pushed};
ghost use Rattle.pcm_stream.specs.Stream.{read_check, room, told, triggered, trigger_check, write_check};
ghost use Rattle.pcm_stream.specs.Tick.{after_tick, carried, counted, limit_of, octets_of, ticked_of};

use crate::line;
use crate::state::{StreamRefusal, StreamState, Ticked, Trigger};
use circular_buffer::HeapCircularBuffer;
use pcm_params::{Params, accepts, frame_octets};
use pv_words::StreamKind;
use std::alloc::{AllocError, Global};
use std::marker::Model;

/// A ring of octets.
pub type Queue = HeapCircularBuffer<u8>;

// The parameters of a closed stream.
const NO_PARAMS: Params = Params {
    pcm_rate: 0,
    pcm_format: 0,
    pcm_channels: 0,
    buffer_sz: 0,
    gref_directory: 0,
    period_sz: 0,
};

/// An empty queue for a stream with these parameters, with room for twice its buffer. No other call takes memory.
pub fn queue(alloc: Global, p: &Params) -> Result<Queue, AllocError>
    requires { is_accepted p.now ≡ true }
    ensures { IfOk result (λ q. q ≡ queue_for p.now) }
{
    HeapCircularBuffer::with_capacity(alloc, 2 * p.buffer_sz as usize)
}

/// A stream.
#[derive(Drop)]
pub struct Stream {
    kind: StreamKind,
    state: StreamState,
    params: Params,
    queue: Option<Queue>,
    position: u64,
    phase: u32,
    captured: u8,
    owed: Option<u64>,
}

impl Model for Stream {
    ghost use Rattle.std.specs.Prelude.{◌<◌};
    ghost use Rattle.pcm_stream.specs.Queue.{queued, HasRoom};
    ghost use Rattle.pcm_stream.specs.Stream.{Pcm};

    ghost Value = { Pcm };

    ghost view = { λ s. record {
      kind = s.kind;
      state = s.state;
      params = s.params;
      queue = queued s.queue;
      position = s.position;
      phase = s.phase;
      captured = s.captured;
      owed = s.owed;
    } };

    ghost invariant = { λ s. HasRoom s.state s.params s.queue × (s.captured < 251) };
}

impl Stream {
    /// A closed stream.
    pub fn new(kind: StreamKind) -> Stream
        ensures { result ≡ closed kind }
    {
        Stream {
            kind,
            state: StreamState::Closed,
            params: NO_PARAMS,
            queue: None,
            position: 0,
            phase: 0,
            captured: 0,
            owed: None,
        }
    }

    /// Which way its octets go: the same from the first on.
    pub fn kind(&self) -> StreamKind
        ensures { result ≡ self.now.kind }
    {
        self.kind
    }

    /// The state of the stream.
    pub fn state(&self) -> StreamState
        ensures { result ≡ self.now.state }
    {
        self.state
    }

    /// Whether the stream may be opened with these parameters: not where it is open (WrongState), nor where they aren't
    /// acceptable (Invalid).
    pub fn can_begin(&self, p: &Params) -> Result<(), StreamRefusal>
        ensures { result ≡ open_check self.now p.now }
    {
        if self.state != StreamState::Closed {
            return Err(StreamRefusal::WrongState(self.state));
        }
        if !accepts(p) {
            return Err(StreamRefusal::Invalid);
        }
        Ok(())
    }

    /// Opens the stream with these parameters and this queue.
    pub fn begin(&mut self, p: &Params, q: Queue)
        requires checked { open_check self.old p.now ≡ Ok tt }
        requires empty { q ≡ queue_for p.now }
        ensures { self.new ≡ opened self.old.kind p.now }
    {
        self.state = StreamState::Opened;
        self.params = *p;
        self.queue = Some(q);
        self.position = 0;
        self.phase = 0;
        self.captured = 0;
        self.owed = None;
    }

    /// Whether the stream may be closed: not where it is closed (WrongState).
    pub fn can_finish(&self) -> Result<(), StreamRefusal>
        ensures { result ≡ close_check self.now }
    {
        if self.state == StreamState::Closed {
            return Err(StreamRefusal::WrongState(self.state));
        }
        Ok(())
    }

    /// Closes the stream: its queue is gone, and so is an event that was owed.
    pub fn finish(&mut self)
        requires { close_check self.old ≡ Ok tt }
        ensures { self.new ≡ closed self.old.kind }
    {
        self.state = StreamState::Closed;
        self.params = NO_PARAMS;
        self.queue = None;
        self.position = 0;
        self.phase = 0;
        self.captured = 0;
        self.owed = None;
    }

    /// Starts (0), pauses (1), stops (2) or resumes (3) the stream: START takes Opened to Running, PAUSE takes Running to
    /// Paused, RESUME takes Paused to Running, and STOP takes each open state to Opened and empties the queue. Refused
    /// where the stream is closed (WrongState), for another number (Invalid), and in any other state (WrongState).
    pub fn trigger(&mut self, t: u8) -> Result<(), StreamRefusal>
        ensures refusal { result ≡ trigger_check self.old t }
        ensures led { self.new ≡ triggered self.old t }
    {
        if self.state == StreamState::Closed {
            return Err(StreamRefusal::WrongState(self.state));
        }
        let Some(trigger) = Trigger::from_number(t) else {
            return Err(StreamRefusal::Invalid);
        };
        match (trigger, self.state) {
            (Trigger::Start, StreamState::Opened) | (Trigger::Resume, StreamState::Paused) => {
                self.state = StreamState::Running;
            }
            (Trigger::Pause, StreamState::Running) => self.state = StreamState::Paused,
            (Trigger::Stop, _) => self.stop(),
            _ => return Err(StreamRefusal::WrongState(self.state)),
        }
        Ok(())
    }

    /// Whether octets of the queue may go to the buffer, from octet `offset` on: not where the stream is closed
    /// (WrongState), nor in a playback stream or beyond the buffer (Invalid), nor where fewer are queued (TooLittle).
    pub fn can_read(&self, offset: u32, length: u32) -> Result<(), StreamRefusal>
        ensures { result ≡ read_check self.now offset length }
    {
        if self.state == StreamState::Closed {
            return Err(StreamRefusal::WrongState(self.state));
        }
        if self.kind == StreamKind::Playback || is_beyond(&self.params, offset, length) {
            return Err(StreamRefusal::Invalid);
        }
        let queued = self.queued();
        if queued < length {
            return Err(StreamRefusal::TooLittle(queued));
        }
        Ok(())
    }

    /// Whether octets of the buffer, from octet `offset` on, may be appended to the queue: not where the stream is closed
    /// (WrongState), nor in a capture stream or beyond the buffer (Invalid), nor where there is no room for them (NoRoom).
    pub fn can_write(&self, offset: u32, length: u32) -> Result<(), StreamRefusal>
        ensures { result ≡ write_check self.now offset length }
    {
        if self.state == StreamState::Closed {
            return Err(StreamRefusal::WrongState(self.state));
        }
        if self.kind == StreamKind::Capture || is_beyond(&self.params, offset, length) {
            return Err(StreamRefusal::Invalid);
        }
        let room = self.room();
        if room < length {
            return Err(StreamRefusal::NoRoom(room));
        }
        Ok(())
    }

    /// How many octets are queued.
    pub fn queued(&self) -> u32
        ensures { result ≡ length self.now.queue }
    {
        match &self.queue {
            Some(queue) => queue.len() as u32,
            None => 0,
        }
    }

    /// For how many octets there is room in the queue, which holds at most twice the buffer.
    pub fn room(&self) -> u32
        ensures count { result ≡ room self.now }
        ensures within { length self.now.queue ≤ 2 * self.now.params.buffer_sz }
    {
        match &self.queue {
            Some(queue) => (queue.capacity() - queue.len()) as u32,
            None => 0,
        }
    }

    /// The octet of the queue behind `k` others.
    pub fn octet_at(&self, k: u32) -> u8
        requires { k < length self.now.queue }
        ensures { slice_get self.now.queue k ≡ Some result }
    {
        let Some(queue) = &self.queue else {
            unreachable!();
        };
        let Some(octet) = queue.get(k as usize) else {
            unreachable!();
        };
        *octet
    }

    /// Appends an octet to the queue.
    pub fn push(&mut self, octet: u8)
        requires { 0 < room self.old }
        ensures { self.new ≡ pushed self.old octet }
    {
        let Some(queue) = &mut self.queue else {
            unreachable!();
        };
        queue.push_back(octet);
    }

    /// Removes the oldest octet of the queue.
    pub fn pop(&mut self) -> u8
        requires { 0 < length self.old.queue }
        ensures octet { slice_get self.old.queue 0 ≡ Some result }
        ensures rest { self.new ≡ popped self.old 1 }
    {
        let Some(queue) = &mut self.queue else {
            unreachable!();
        };
        let Some(octet) = queue.pop_front() else {
            unreachable!();
        };
        octet
    }

    /// Removes so many octets of the queue, the oldest first.
    pub fn skip(&mut self, count: u32)
        requires { count ≤ length self.old.queue }
        ensures { self.new ≡ popped self.old count }
    {
        if let Some(queue) = &mut self.queue {
            queue.truncate_front(queue.len() - count as usize);
        }
    }

    /// A tick of `n` frames: in a running stream octets move, as many as the frames take, but no more than are queued, or
    /// than there is room for. Its time is that of the octets that move.
    pub fn tick(&mut self, n: u32) -> Ticked
        ensures ticked { result ≡ ticked_of self.old n }
        ensures after { self.new ≡ after_tick self.old n }
    {
        if self.state != StreamState::Running {
            return Ticked { moved: 0, mark: 0 };
        }
        let most = u64::from(n) * u64::from(frame_octets(&self.params));
        let ticked = match self.kind {
            StreamKind::Playback => self.play(most),
            StreamKind::Capture => self.capture(most),
        };
        self.count(ticked.moved);
        ticked
    }

    // Octets of the queue go to the line, `most` of them where so many are queued.
    fn play(&mut self, most: u64) -> Ticked
        ensures moved { result.moved ≡ min most (limit_of StreamKind.Playback self.old) }
        ensures mark { result.mark ≡ mark_of (octets_of StreamKind.Playback self.old result.moved) }
        ensures after { self.new ≡ carried StreamKind.Playback self.old result.moved }
    {
        let moved = most.min(u64::from(self.queued())) as u32;
        let mark = match &mut self.queue {
            Some(queue) => line::play(queue, moved as usize),
            None => 0,
        };
        Ticked { moved, mark }
    }

    // Octets of the line are appended to the queue, `most` of them where there is room for so many.
    fn capture(&mut self, most: u64) -> Ticked
        ensures moved { result.moved ≡ min most (limit_of StreamKind.Capture self.old) }
        ensures mark { result.mark ≡ mark_of (octets_of StreamKind.Capture self.old result.moved) }
        ensures after { self.new ≡ carried StreamKind.Capture self.old result.moved }
    {
        let moved = most.min(u64::from(self.room())) as u32;
        let first = self.captured;
        let mark = match &mut self.queue {
            Some(queue) => line::capture(queue, first, moved as usize),
            None => 0,
        };
        self.captured = ((u32::from(first) + moved) % 251) as u8;
        Ticked { moved, mark }
    }

    // Position and phase count so many octets more, and an event is owed where a period ends.
    fn count(&mut self, moved: u32)
        ensures { self.new ≡ counted self.old moved }
    {
        self.position = self.position.wrapping_add(u64::from(moved));
        let period = u64::from(self.params.period_sz);
        if period == 0 {
            return;
        }
        let phase = u64::from(self.phase) + u64::from(moved);
        if phase < period {
            self.phase = phase as u32;
            return;
        }
        self.phase = (phase % period) as u32;
        self.owed = Some(self.position);
    }

    // An open stream is stopped.
    fn stop(&mut self)
        requires { is_closed self.old.state ≡ false }
        ensures { self.new ≡ record self.old { state = StreamState.Opened; queue = [] } }
    {
        self.state = StreamState::Opened;
        if let Some(queue) = &mut self.queue {
            queue.clear();
        }
    }

    /// The position that an event is still to tell, if one is owed.
    pub fn owed(&self) -> Option<u64>
        ensures { result ≡ self.now.owed }
    {
        self.owed
    }

    /// The event that was owed is raised.
    pub fn raised(&mut self)
        requires { IsSome self.old.owed }
        ensures { self.new ≡ told self.old }
    {
        self.owed = None;
    }

    /// The octets moved since the stream was opened, modulo 2^64.
    pub fn position(&self) -> u64
        ensures { result ≡ self.now.position }
    {
        self.position
    }
}

// Whether octets from `offset` on, so many, reach beyond the buffer.
fn is_beyond(p: &Params, offset: u32, size: u32) -> bool
    ensures { result ≡ nat_lt p.now.buffer_sz (offset + size) }
{
    u64::from(p.buffer_sz) < u64::from(offset) + u64::from(size)
}
