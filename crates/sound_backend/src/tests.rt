ghost use Rattle.std.specs.Prelude.{◌≡◌, true};
ghost use Rattle.device_service.specs.Stand.{parts_of};
ghost use Rattle.sound_backend.specs.Waiting.{is_for};

use super::*;
use device_core::Step;
use pv_words::{
    DevId, DomId, Frame, Half, HostEvent, NodeValue, Place, Said, State, StreamKind, Words,
};
use std::alloc::{AllocError, Global};
use std::test::Fail;
use xenbus_states::Nodes;

// Domain 1 with eight frames, each of which its grant entry of the same number permits, that of frame 7 for reading alone. Their
// words are kept.
#[derive(Drop)]
struct Domain {
    words: Vec<u32>,
}

impl Words for Domain {
    ghost use Rattle.std.proofs.Common.{refl};
    ghost use Rattle.pv_words.specs.FreePort.{free_port};
    ghost use Rattle.pv_words.proofs.FreePort.{stays_free, finds_any};

    ghost frames_of = { λ w d. 8 };

    ghost grants_of = { λ w d. 8 };

    ghost port = { λ w. free_port };

    ghost may = { λ w want. Unit {0} };

    ghost makes = { λ old a new. Unit {0} };

    ghost keeps_frames = { λ old a new made d. refl };

    ghost keeps_grants = { λ old a new made d. refl };

    ghost allows = { λ w want h. tt };

    ghost leaves = { λ old a new made. stays_free _ _ a };

    ghost tells = { λ old a new made. finds_any a };

    fn load(&mut self, at: Place) -> u32 {
        match at {
            Place::Grant(_, gref, Half::Flags) => { if gref.0 == 7 { 5 } else { 1 } }
            Place::Grant(_, gref, Half::FrameNo) => gref.0,
            Place::Cell(_, frame, word) => word_at(&self.words, frame, word),
        }
    }

    fn store(&mut self, at: Place, v: u32) {
        if let Place::Cell(_, frame, word) = at
            && let Some(kept) = self.words.get_mut(index(frame, word))
        {
            *kept = v;
        }
    }

    fn swap_if(&mut self, _at: Place, old: u32, _new: u32) -> u32 {
        old
    }

    fn clear(&mut self, _at: Place, mask: u32) -> u32 {
        mask
    }

    fn frames(&self, _dom: DomId) -> u32 {
        8
    }

    fn grants(&self, _dom: DomId) -> u32 {
        8
    }
}

fn index(frame: Frame, word: u16) -> usize {
    (frame.0 as usize)
        .wrapping_mul(1024)
        .wrapping_add(word as usize)
}

fn word_at(words: &[u32], frame: Frame, word: u16) -> u32 {
    words.get(index(frame, word)).copied().unwrap_or(0)
}

fn put(domain: &mut Domain, frame: u32, word: u16, v: u32) {
    domain.store(Place::Cell(DomId(1), Frame(frame), word), v);
}

// Its frame 2 is a page directory that lists frames 3 and 4, and frame 5 one that lists frame 7.
fn two_buffers(alloc: Global) -> Result<Domain, AllocError> {
    let mut domain = Domain {
        words: vec![in alloc; 0; 8192]?,
    };
    put(&mut domain, 2, 1, 3);
    put(&mut domain, 2, 2, 4);
    put(&mut domain, 5, 1, 7);
    Ok(domain)
}

#[tactic(auto, using(crate::proofs::Ports::may_any))]
fn steps(sound: &mut Sound, domain: &mut Domain) -> Step {
    sound.step(domain)
}

// The last that a sound device says until it is idle.
fn says(sound: &mut Sound, domain: &mut Domain) -> Option<Said> {
    let mut said = None;
    for _ in 0..200 {
        let step = steps(sound, domain);
        if step == Step::idle() {
            return said;
        }
        if step.said.is_some() {
            said = step.said;
        }
    }
    None
}

fn fits(sound: &Sound, e: HostEvent) -> bool
    ensures { result ≡ is_for (parts_of sound.now) e }
{
    match e {
        HostEvent::Tick(part, _) => part < sound.parts(),
        _ => false,
    }
}

// What a sound device says of an event of its host.
#[tactic(auto, using(crate::proofs::Hosts::waits_for))]
fn tells(sound: &mut Sound, domain: &mut Domain, e: HostEvent) -> Option<Said> {
    if !fits(sound, e) || sound.host(e).is_err() {
        return None;
    }
    says(sound, domain)
}

// The first word of the slot of this index.
fn slot_of(index: u16) -> u16 {
    (index % 32).wrapping_mul(16).wrapping_add(16)
}

// What a sound device says of a request: the one of this index, which is its id too, with these fields from word 2 of its slot on.
fn asks(
    sound: &mut Sound,
    domain: &mut Domain,
    index: u16,
    op: u32,
    fields: [u32; 10],
) -> Option<Said> {
    let slot = slot_of(index);
    put(
        domain,
        0,
        slot,
        op.wrapping_mul(65536).wrapping_add(u32::from(index)),
    );
    let mut word = slot.wrapping_add(2);
    for field in fields {
        put(domain, 0, word, field);
        word = word.wrapping_add(1);
    }
    put(domain, 0, 0, u32::from(index).wrapping_add(1));
    says(sound, domain)
}

// Whether the reply of this index has just this body.
fn has_body(domain: &Domain, index: u16, body: [u32; 10]) -> bool {
    let mut word = slot_of(index).wrapping_add(2);
    for wanted in body {
        if word_at(&domain.words, Frame(0), word) != wanted {
            return false;
        }
        word = word.wrapping_add(1);
    }
    true
}

fn connects(sound: &mut Sound, domain: &mut Domain) -> Option<Said> {
    let mut nodes = Nodes::new();
    for (key, number) in [(0, 0), (1, 1), (2, 1), (3, 2)] {
        nodes.set(0, key, NodeValue::Number(number));
    }
    sound.bus(State::Initialised, &nodes);
    says(sound, domain)
}

// A sound device of one stream.
fn one_stream(alloc: Global, kind: StreamKind) -> Result<Box<Sound>, AllocError> {
    Ok(Box::new(alloc, new_sound(alloc, DevId(2), DomId(1), &[kind])?)?)
}

const NOTHING: [u32; 10] = [0; 10];

// 48000 frames in a second, of two samples of 16 bits; a buffer of 4096 octets by the directory in frame 2, and a period of 4 octets.
const OPEN: [u32; 10] = [48_000, 514, 4096, 2, 4, 0, 0, 0, 0, 0];

// All that is offered: formats 0 to 13, rates, channels, frames of a buffer and of a period.
const OFFERED: [u32; 10] = [0x3FFF, 0, 8000, 192_000, 1, 8, 1, 1_048_576, 1, 1_048_576];

// A request: its operation and the fields of its body, and of its reply the status and the body.
type Row = (u32, [u32; 10], i32, [u32; 10]);

// Requests of a stream of playback that are taken one after another.
const PLAYED: [Row; 32] = [
    (1, NOTHING, -16, NOTHING),
    (0, [7999, 514, 4096, 2, 4, 0, 0, 0, 0, 0], -22, NOTHING),
    (0, [192_001, 514, 4096, 2, 4, 0, 0, 0, 0, 0], -22, NOTHING),
    (0, [48_000, 526, 4096, 2, 4, 0, 0, 0, 0, 0], -22, NOTHING),
    (0, [48_000, 2, 4096, 2, 4, 0, 0, 0, 0, 0], -22, NOTHING),
    (0, [48_000, 2306, 4608, 2, 4, 0, 0, 0, 0, 0], -22, NOTHING),
    (0, [48_000, 514, 0, 2, 4, 0, 0, 0, 0, 0], -22, NOTHING),
    (0, [48_000, 514, 4094, 2, 4, 0, 0, 0, 0, 0], -22, NOTHING),
    (
        0,
        [48_000, 514, 1_048_580, 2, 4, 0, 0, 0, 0, 0],
        -22,
        NOTHING,
    ),
    (0, [48_000, 514, 4096, 9, 4, 0, 0, 0, 0, 0], -13, NOTHING),
    (0, OPEN, 0, NOTHING),
    (0, OPEN, -16, NOTHING),
    (0, [7999, 514, 4096, 2, 4, 0, 0, 0, 0, 0], -16, NOTHING),
    (2, NOTHING, -95, NOTHING),
    (3, NOTHING, -95, NOTHING),
    (4, NOTHING, -95, NOTHING),
    (5, NOTHING, -95, NOTHING),
    (6, NOTHING, -95, NOTHING),
    (7, NOTHING, -95, NOTHING),
    (8, NOTHING, -95, NOTHING),
    (10, NOTHING, -95, NOTHING),
    (9, [u32::MAX; 10], -22, NOTHING),
    (
        9,
        [
            u32::MAX,
            1,
            0,
            u32::MAX,
            0,
            u32::MAX,
            0,
            u32::MAX,
            0,
            u32::MAX,
        ],
        0,
        OFFERED,
    ),
    (
        9,
        [4, 0, 192_000, 400_000, 2, 2, 1024, 1024, 256, 2_000_000],
        0,
        [4, 0, 192_000, 192_000, 2, 2, 1024, 1024, 256, 1_048_576],
    ),
    (
        9,
        [0x4000, 0, 8000, 192_000, 1, 8, 1, 1, 1, 1],
        -22,
        NOTHING,
    ),
    (9, [4, 0, 192_001, 400_000, 1, 8, 1, 1, 1, 1], -22, NOTHING),
    (9, [4, 0, 8000, 192_000, 5, 4, 1, 1, 1, 1], -22, NOTHING),
    (9, [4, 0, 8000, 192_000, 1, 8, 0, 0, 1, 1], -22, NOTHING),
    (1, NOTHING, 0, NOTHING),
    (1, NOTHING, -16, NOTHING),
    (0, [8000, 256, 8192, 2, 0, 0, 0, 0, 0, 0], 0, NOTHING),
    (1, NOTHING, 0, NOTHING),
];

// The pages of a stream of capture are to be written; that of frame 7 may only be read.
const CAPTURED: [Row; 4] = [
    (0, [48_000, 514, 4096, 5, 4, 0, 0, 0, 0, 0], -13, NOTHING),
    (0, OPEN, 0, NOTHING),
    (1, NOTHING, 0, NOTHING),
    (9, OFFERED, 0, OFFERED),
];

// The first of these requests of a stream that has another reply.
fn first_wrong(alloc: Global, kind: StreamKind, rows: &[Row]) -> Result<Option<u16>, AllocError> {
    let mut domain = two_buffers(alloc)?;
    let mut sound = one_stream(alloc, kind)?;
    connects(&mut sound, &mut domain);
    let mut index = 0u16;
    for (op, fields, status, body) in rows {
        let said = asks(&mut sound, &mut domain, index, *op, *fields);
        if said != Some(Said::Replied(0, index, *status, false))
            || !has_body(&domain, index, *body)
        {
            return Ok(Some(index));
        }
        index = index.wrapping_add(1);
    }
    Ok(None)
}

#[test]
fn requests_have_their_replies(rt: HostRuntime) -> Result<(), Fail> {
    let alloc = rt.alloc();
    assert_eq!(rt; first_wrong(alloc, StreamKind::Playback, &PLAYED)?, None);
    assert_eq!(rt; first_wrong(alloc, StreamKind::Capture, &CAPTURED)?, None);
    Ok(())
}

// Before a TRIGGER a stream moves nothing, be it open or not.
#[test]
fn a_tick_is_told(rt: HostRuntime) -> Result<(), Fail> {
    let mut domain = two_buffers(rt.alloc())?;
    let mut sound = one_stream(rt.alloc(), StreamKind::Playback)?;
    assert_eq!(rt; tells(&mut sound, &mut domain, HostEvent::Tick(0, 1)), None);
    assert_eq!(rt;
        connects(&mut sound, &mut domain),
        Some(Said::State(State::Connected))
    );
    let moved = Some(Said::Moved(0, 0, 0));
    assert_eq!(rt;
        tells(&mut sound, &mut domain, HostEvent::Tick(0, 1)),
        moved
    );
    let opened = asks(&mut sound, &mut domain, 0, 0, OPEN);
    assert_eq!(rt; opened, Some(Said::Replied(0, 0, 0, false)));
    assert_eq!(rt;
        tells(&mut sound, &mut domain, HostEvent::Tick(0, 64)),
        moved
    );
    Ok(())
}
