//! Words kept as a list.

ghost use Rattle.std.specs.Prelude.{◌≡◌, ℕ, ◌+◌, ◌*◌, ◌/◌, ◌^◌, ◌<◌, ◌≤◌, IfOk, sum, vec_len, length, slice_index};
ghost use Rattle.pv_words.specs.Layout.{start_of, frames_in, grants_in};
ghost use Rattle.pv_words.specs.Sizes.{AreSizes, frames_by, grants_by, blocks_by};

use crate::place::{DevId, DomId, Half, Place, Who};
use crate::setup::{DomainSize, Sizes};
use crate::words::{Machine, Words};
use std::alloc::{AllocError, Global};

/// Blocks of words: those of a domain's frames and of its grant entries, for domains 0 to 4.
const BLOCKS: usize = 10;

/// The words of the domains' pages and grant entries, as one list. Any place in range may be accessed. It knows every
/// domain, and every device as one of any domain.
#[derive(Drop)]
pub struct ListWords {
    words: Vec<u32>,
    // How many words each block has, and where it begins.
    blocks: [usize; 10],
    starts: [usize; 10],
    // The device whose turn it is, or none where it is a domain's.
    device: Option<DevId>,
    ghost small: { (b : ℕ) → b < 10 → slice_index blocks b ≤ 2 ^ 24 },
    ghost whole: { vec_len words ≡ sum blocks },
    ghost laid_out: { (b : ℕ) → b < 10 → slice_index starts b ≡ start_of blocks b },
}

// How many frames and grant entries a domain has.
fn size_of(sizes: &[DomainSize], dom: u8) -> (u32, u32)
    ensures frames { result.0 ≡ frames_by sizes.now dom }
    ensures grants { result.1 ≡ grants_by sizes.now dom }
{
    for size in sizes {
        if size.dom.0 == dom {
            return (size.frames, size.grants);
        }
    }
    (0, 0)
}

// How many words each block has.
fn blocks_of(sizes: &[DomainSize]) -> [usize; 10]
    ensures { result ≡ blocks_by sizes.now }
{
    let (frames0, grants0) = size_of(sizes, 0);
    let (frames1, grants1) = size_of(sizes, 1);
    let (frames2, grants2) = size_of(sizes, 2);
    let (frames3, grants3) = size_of(sizes, 3);
    let (frames4, grants4) = size_of(sizes, 4);
    [
        1024 * frames0 as usize,
        2 * grants0 as usize,
        1024 * frames1 as usize,
        2 * grants1 as usize,
        1024 * frames2 as usize,
        2 * grants2 as usize,
        1024 * frames3 as usize,
        2 * grants3 as usize,
        1024 * frames4 as usize,
        2 * grants4 as usize,
    ]
}

// Where each block begins.
fn starts_of(blocks: &[usize; 10]) -> [usize; 10]
    requires { (b : ℕ) → b < 10 → slice_index blocks.now b ≤ 2 ^ 24 }
    ensures { (b : ℕ) → b < 10 → slice_index result b ≡ start_of blocks.now b }
{
    let mut starts = [0; 10];
    let mut start = 0;
    for b in 0..BLOCKS {
        starts[b] = start;
        start += blocks[b];
    }
    starts
}

impl ListWords {
    ghost use Rattle.pv_words.specs.ListWords.{word_at, index_of};
    ghost use Rattle.pv_words.specs.declared.place.Place.{Place};
    ghost use Rattle.pv_words.specs.Place.{InRange};

    /// The words of these domains, all 0.
    pub fn new(alloc: Global, sizes: &Sizes) -> Result<ListWords, AllocError>
        requires { AreSizes sizes.now }
        ensures frames { IfOk result (λ w. (d : ℕ) → frames_in w.blocks d ≡ frames_by sizes.now d) }
        ensures grants { IfOk result (λ w. (d : ℕ) → grants_in w.blocks d ≡ grants_by sizes.now d) }
        ensures zero { IfOk result (λ w. (at : Place) → word_at w at ≡ 0) }
    {
        let blocks = blocks_of(sizes.as_slice());
        let starts = starts_of(&blocks);
        let words = vec![in alloc; 0; starts[9] + blocks[9]]?;
        Ok(ListWords {
            words,
            blocks,
            starts,
            device: None,
        })
    }

    // Where in the list a word stands.
    fn index(&self, at: Place) -> usize
        requires { InRange (frames_in self.now.blocks) (grants_in self.now.blocks) at }
        ensures exact { result ≡ index_of self.now.blocks at }
        ensures within { result < vec_len self.now.words }
    {
        match at {
            Place::Cell(dom, frame, word) => {
                self.starts[2 * dom.0 as usize] + (1024 * frame.0 as usize + word as usize)
            }
            Place::Grant(dom, gref, half) => {
                let start = self.starts[2 * dom.0 as usize + 1];
                match half {
                    Half::Flags => start + 2 * gref.0 as usize,
                    Half::FrameNo => start + (2 * gref.0 as usize + 1),
                }
            }
        }
    }
}

impl Words for ListWords {
    ghost use Rattle.std.proofs.Common.{ap};
    ghost use Rattle.pv_words.specs.ListWords.{Makes, port_of};
    ghost use Rattle.pv_words.specs.Layout.{frames_in, grants_in};
    ghost use Rattle.pv_words.specs.Place.{InRange};
    ghost use Rattle.pv_words.specs.Plan.{aim_of};
    ghost use Rattle.pv_words.specs.ListPort.{list_leaves, list_tells};

    ghost frames_of = { λ w. frames_in w.blocks };

    ghost grants_of = { λ w. grants_in w.blocks };

    ghost port = { port_of };

    ghost may = { λ w want. InRange (frames_in w.blocks) (grants_in w.blocks) (aim_of want) };

    ghost makes = { Makes };

    ghost keeps_frames = { λ old a new made d. ap (λ blocks. frames_in blocks d) made.blocks };

    ghost keeps_grants = { λ old a new made d. ap (λ blocks. grants_in blocks d) made.blocks };

    ghost allows = { λ w want h. h.0 };

    ghost leaves = { list_leaves };

    ghost tells = { list_tells };

    fn load(&mut self, at: Place) -> u32 {
        let i = self.index(at);
        self.words[i]
    }

    fn store(&mut self, at: Place, v: u32) {
        let i = self.index(at);
        self.words[i] = v;
    }

    fn swap_if(&mut self, at: Place, old: u32, new: u32) -> u32 {
        let i = self.index(at);
        let seen = self.words[i];
        if seen == old {
            self.words[i] = new;
        }
        seen
    }

    fn clear(&mut self, at: Place, mask: u32) -> u32 {
        let i = self.index(at);
        let seen = self.words[i];
        self.words[i] = seen & (mask ^ 0xFFFF_FFFF);
        seen
    }

    fn frames(&self, dom: DomId) -> u32 {
        let block = 2 * dom.0 as usize;
        if block < BLOCKS {
            (self.blocks[block] / 1024) as u32
        } else {
            0
        }
    }

    fn grants(&self, dom: DomId) -> u32 {
        let block = 2 * dom.0 as usize + 1;
        if block < BLOCKS {
            (self.blocks[block] / 2) as u32
        } else {
            0
        }
    }
}

impl Machine for ListWords {
    ghost use Rattle.pv_words.specs.ListWords.{word_at};

    ghost word = { word_at };

    ghost whole = { λ w. Unit {0} };

    ghost knows_device = { λ w d dom. Unit {0} };

    ghost knows_domain = { λ w d. Unit {0} };

    ghost remembers = { λ old a new made. made.answers };

    ghost keeps_whole = { λ old a new made h. h };

    ghost keeps_devices = { λ old a new made d dom h. h };

    ghost keeps_domains = { λ old a new made d h. h };

    fn turn(&mut self, who: Who) {
        self.device = match who {
            Who::Dev(dev) => Some(dev),
            Who::Dom(_) => None,
        };
    }
}
