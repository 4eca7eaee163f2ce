//! The streams of a sound device, and the pages that are held for them.

ghost use Rattle.std.specs.Prelude.{◌≡◌, ◌<◌, ◌≤◌, ◌==◌, [], length, pos, slice_get, true, false, Some, IfOk};
ghost use Rattle.pcm_params.specs.Params.{is_accepted as are_accepted};
ghost use Rattle.pcm_stream.specs.Queue.{queue_for};
ghost use Rattle.sound_backend.specs.Verdict.{answer_by, answer_to, mode_for};

use crate::held::{LeftPages, PageLists};
use crate::verdict::{EOPNOTSUPP, checked, refused};
use page_directory::{Pages, Walk};
use pcm_params::{Answer, Params, answer_query};
use pcm_stream::{Queue, Stream, Ticked, queue};
use pv_words::{Access, DomId, GrantRef, Hold, Mode, StreamKind, Words};
use snd_wire::Asked;
use std::alloc::{AllocError, Global};

/// The streams of a sound device by part, and the pages that are held for them.
#[derive(Drop)]
pub struct Store {
    // The pages that were mapped for an OPEN that isn't answered, and the queue of its stream.
    mapped: LeftPages,
    queue: Option<Queue>,
    // The pages of each stream, and the streams.
    held: PageLists,
    streams: Vec<Stream>,
    ghost same: { length held ≡ length streams.items },
}

// The answer to a request of this stream.
fn answer_by(stream: &Stream, asked: &Asked) -> Answer
    ensures { result ≡ answer_by stream.now asked.now }
{
    match asked {
        Asked::Open(params) => checked(stream.can_begin(params)),
        Asked::Close => checked(stream.can_finish()),
        Asked::Query(ranges) => answer_query(ranges),
        _ => refused(EOPNOTSUPP),
    }
}

impl Store {
    ghost use Rattle.pv_words.specs.Release.{Drops, MayDrop};
    ghost use Rattle.sound_backend.specs.Held.{list_at};
    ghost use Rattle.sound_backend.specs.Stock.{all_closed, kinds_in, less_one, pages_of, stock_after, without_first};
    ghost use Rattle.sound_backend.specs.Store.{BeginsFor, NeedsQueue, queue_of, stock_of};
    ghost use Rattle.sound_backend.specs.Waiting.{stock_ticked, ticked_in};
    ghost use Rattle.snd_wire.specs.declared.types.Asked.TheVariants as asked;
    ghost use Rattle.sound_backend.specs.declared.waiting.Waiting.TheVariants as waiting;

    /// Streams of these kinds, all of them closed, and no page.
    pub fn new(alloc: Global, kinds: &[StreamKind]) -> Result<Store, AllocError>
        requires few { length kinds.now ≤ 4 }
        ensures closed { IfOk result (λ s. stock_of s ≡ all_closed kinds.now) }
    {
        let held = PageLists::new(alloc, kinds.len() as u8)?;
        let mut streams = Vec::new(alloc);
        for kind in kinds {
            streams.push(Stream::new(*kind))?;
        }
        Ok(Store {
            mapped: LeftPages::none(alloc),
            queue: None,
            held,
            streams,
        })
    }

    /// The answer to a request by this part, without the checks that need memory or a page.
    pub fn answer_to(&self, part: u8, asked: &Asked) -> Answer
        ensures { result ≡ answer_to (slice_get (stock_of self.now).streams part) asked.now }
    {
        match self.streams.get(usize::from(part)) {
            Some(stream) => answer_by(stream, asked),
            None => refused(EOPNOTSUPP),
        }
    }

    /// In which mode the pages of the stream of this part are mapped: for reading where it plays, for writing where it captures.
    pub fn mode(&self, part: u8) -> Mode
        ensures { result ≡ mode_for (slice_get (stock_of self.now).streams part) }
    {
        match self.streams.get(usize::from(part)) {
            Some(stream) => match stream.kind() {
                StreamKind::Playback => Mode::Read,
                StreamKind::Capture => Mode::Write,
            },
            None => Mode::Read,
        }
    }

    /// The walk of an OPEN by this part before its first access: it maps the pages of a buffer with these parameters. Memory is taken
    /// for the queue of the stream, and for the list of the pages.
    pub fn prepare(
        &mut self,
        alloc: Global,
        dom: DomId,
        part: u8,
        params: &Params,
    ) -> Result<Walk, AllocError>
        requires { are_accepted params.now ≡ true }
        ensures queue { IfOk result (λ _. queue_of self.new ≡ Some (queue_for params.now)) }
        ensures walk { IfOk result (BeginsFor dom.0 (stock_of self.old).streams part params.now) }
        ensures stock { stock_of self.new ≡ stock_of self.old }
    {
        self.queue = Some(queue(alloc, params)?);
        let directory = GrantRef(params.gref_directory);
        Walk::new(alloc, dom, params.buffer_sz, directory, self.mode(part))
    }

    /// Keeps the pages that were mapped for an OPEN.
    pub fn keep(&mut self, pages: Pages)
        ensures stock { stock_of self.new ≡ record (stock_of self.old) { mapped = pages } }
        ensures queue { queue_of self.new ≡ queue_of self.old }
    {
        self.mapped = LeftPages::new(pages);
    }

    // Opens the stream of this part with these parameters, of the pages that were mapped for it.
    fn open(&mut self, part: u8, params: &Params)
        requires accepted { (answer_to (slice_get (stock_of self.old).streams part) (asked.Open params.now)).status ≡ pos 0 }
        requires queue { queue_of self.old ≡ Some (queue_for params.now) }
        ensures { stock_of self.new ≡ stock_after (stock_of self.old) part (asked.Open params.now) true }
    {
        let Some(queue) = self.queue.take() else {
            unreachable!();
        };
        let pages = self.mapped.take();
        self.held.put(u32::from(part), pages);
        self.streams[usize::from(part)].begin(params, queue);
    }

    // Closes the stream of this part, whose pages are given up.
    fn close(&mut self, part: u8)
        requires { (answer_to (slice_get (stock_of self.old).streams part) asked.Close).status ≡ pos 0 }
        ensures { stock_of self.new ≡ stock_after (stock_of self.old) part asked.Close true }
    {
        self.streams[usize::from(part)].finish();
    }

    /// A request by this part is answered with status 0, which makes this of its stream.
    pub fn answered(&mut self, part: u8, asked: &Asked)
        requires accepted { (answer_to (slice_get (stock_of self.old).streams part) asked.now).status ≡ pos 0 }
        requires queue { NeedsQueue asked.now (queue_of self.old) }
        ensures { stock_of self.new ≡ stock_after (stock_of self.old) part asked.now true }
    {
        match asked {
            Asked::Open(params) => self.open(part, params),
            Asked::Close => self.close(part),
            _ => {}
        }
    }

    /// The queue of an OPEN that was refused goes.
    pub fn forget(&mut self)
        ensures { stock_of self.new ≡ stock_of self.old }
    {
        self.queue = None;
    }

    /// The clock of the stream of this part goes on by so many frames.
    pub fn tick(&mut self, part: u8, frames: u32) -> Ticked
        ensures ticked { result ≡ ticked_in (slice_get (stock_of self.old).streams part) frames }
        ensures stock { stock_of self.new ≡ stock_ticked (stock_of self.old) (waiting.Tick part frames) }
        ensures queue { queue_of self.new ≡ queue_of self.old }
    {
        let k = usize::from(part);
        if k >= self.streams.len() {
            return Ticked { moved: 0, mark: 0 };
        }
        self.streams[k].tick(frames)
    }

    /// All streams are closed, once all pages are given up.
    pub fn clear(&mut self)
        requires { pages_of (stock_of self.old) ≡ [] }
        ensures { stock_of self.new ≡ all_closed (kinds_in (stock_of self.old).streams) }
    {
        let _ = self.mapped.take();
        self.queue = None;
        self.held.clear();
        for stream in self.streams.iter_mut() {
            *stream = Stream::new(stream.kind());
        }
    }

    /// How many pages are held, at most 40960 (five times 8192).
    pub fn held(&self) -> u32
        ensures count { result ≡ length (pages_of (stock_of self.now)) }
        ensures few { result ≤ 40960 }
    {
        self.mapped.count() + self.held.held()
    }

    /// The page of this number of those that are held, in the order in which they are given up.
    pub fn hold_at(&self, i: u32) -> Hold
        requires { i < length (pages_of (stock_of self.now)) }
        ensures { slice_get (pages_of (stock_of self.now)) i ≡ Some result }
    {
        let mapped = self.mapped.count();
        if i >= mapped {
            return self.held.get(i - mapped);
        }
        self.mapped.get(i)
    }

    /// How many pages are held of the stream of this part.
    pub fn held_of(&self, part: u8) -> u32
        ensures { result ≡ length (list_at (stock_of self.now).held part) }
    {
        self.held.held_at(u32::from(part))
    }

    /// Unmaps the first of all pages.
    pub fn unmap_first<W: Words>(&mut self, words: &mut W) -> Access
        requires some { 0 < length (pages_of (stock_of self.old)) }
        requires may { MayDrop (W.may words.old) (pages_of (stock_of self.old)) }
        ensures drops { Drops (pages_of (stock_of self.old)) result (pages_of (stock_of self.new)) }
        ensures stock { stock_of self.new ≡ without_first (stock_of self.old) }
        ensures queue { queue_of self.new ≡ queue_of self.old }
        ensures made { W.makes words.old result words.new }
    {
        if self.mapped.count() > 0 {
            return self.mapped.unmap_first(words);
        }
        self.held.unmap_first(words)
    }

    /// Unmaps the first page of the stream of this part.
    pub fn unmap_of<W: Words>(&mut self, part: u8, words: &mut W) -> Access
        requires some { 0 < length (list_at (stock_of self.old).held part) }
        requires may { MayDrop (W.may words.old) (list_at (stock_of self.old).held part) }
        ensures drops { Drops (list_at (stock_of self.old).held part) result (list_at (stock_of self.new).held part) }
        ensures stock { stock_of self.new ≡ less_one part (stock_of self.old) }
        ensures queue { queue_of self.new ≡ queue_of self.old }
        ensures made { W.makes words.old result words.new }
    {
        self.held.unmap_at(u32::from(part), words)
    }
}
