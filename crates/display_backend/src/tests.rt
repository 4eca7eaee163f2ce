ghost use Rattle.std.specs.Prelude.{◌≡◌, true};
ghost use Rattle.device_service.specs.Stand.{parts_of};
ghost use Rattle.display_backend.specs.Waiting.{is_for};

use super::*;
use device_core::Step;
use pv_words::{DevId, DomId, Frame, Half, HostEvent, NodeValue, Place, Said, State, Words};
use std::alloc::{AllocError, Global};
use std::test::Fail;
use xenbus_states::Nodes;

// Domain 1 with eight frames, each of which its grant entry of the same number permits. Their words are kept.
#[derive(Drop)]
struct Domain {
    words: Vec<u32>,
}

impl Words for Domain {
    ghost use Rattle.std.proofs.Common.{refl};
    ghost use Rattle.pv_words.specs.FreePort.{free_port};
    ghost use Rattle.pv_words.proofs.FreePort.{stays_free, finds_any};

    ghost frames_of = { λ w d. 8 };

    ghost grants_of = { λ w d. 8 };

    ghost port = { λ w. free_port };

    ghost may = { λ w want. Unit {0} };

    ghost makes = { λ old a new. Unit {0} };

    ghost keeps_frames = { λ old a new made d. refl };

    ghost keeps_grants = { λ old a new made d. refl };

    ghost allows = { λ w want h. tt };

    ghost leaves = { λ old a new made. stays_free _ _ a };

    ghost tells = { λ old a new made. finds_any a };

    fn load(&mut self, at: Place) -> u32 {
        match at {
            Place::Grant(_, _, Half::Flags) => 1,
            Place::Grant(_, gref, Half::FrameNo) => gref.0,
            Place::Cell(_, frame, word) => self.words.get(index(frame, word)).copied().unwrap_or(0),
        }
    }

    fn store(&mut self, at: Place, v: u32) {
        if let Place::Cell(_, frame, word) = at
            && let Some(kept) = self.words.get_mut(index(frame, word))
        {
            *kept = v;
        }
    }

    fn swap_if(&mut self, _at: Place, old: u32, _new: u32) -> u32 {
        old
    }

    fn clear(&mut self, _at: Place, mask: u32) -> u32 {
        mask
    }

    fn frames(&self, _dom: DomId) -> u32 {
        8
    }

    fn grants(&self, _dom: DomId) -> u32 {
        8
    }
}

fn index(frame: Frame, word: u16) -> usize {
    (frame.0 as usize)
        .wrapping_mul(1024)
        .wrapping_add(word as usize)
}

fn put(domain: &mut Domain, frame: u32, word: u16, v: u32) {
    domain.store(Place::Cell(DomId(1), Frame(frame), word), v);
}

// Its frame 2 is a page directory that lists frame 3, and frame 4 one that lists frame 5; the last word of frame 3 is 5, and
// that of frame 5 is 7.
fn two_buffers(alloc: Global) -> Result<Domain, AllocError> {
    let mut domain = Domain {
        words: vec![in alloc; 0; 8192]?,
    };
    put(&mut domain, 2, 1, 3);
    put(&mut domain, 4, 1, 5);
    put(&mut domain, 3, 1023, 5);
    put(&mut domain, 5, 1023, 7);
    Ok(domain)
}

#[tactic(auto, using(crate::proofs::Ports::may_any))]
fn steps(display: &mut Display, domain: &mut Domain) -> Step {
    display.step(domain)
}

// The last that a display says until it is idle.
fn says(display: &mut Display, domain: &mut Domain) -> Option<Said> {
    let mut said = None;
    for _ in 0..5000 {
        let step = steps(display, domain);
        if step == Step::idle() {
            return said;
        }
        if step.said.is_some() {
            said = step.said;
        }
    }
    None
}

fn fits(display: &Display, e: HostEvent) -> bool
    ensures { result ≡ is_for (parts_of display.now) e }
{
    match e {
        HostEvent::Blank(part) | HostEvent::Show(part) => part < display.parts(),
        _ => false,
    }
}

// What a display says of an event of its host.
#[tactic(auto, using(crate::proofs::Hosts::waits_for))]
fn tells(display: &mut Display, domain: &mut Domain, e: HostEvent) -> Option<Said> {
    if !fits(display, e) || display.host(e).is_err() {
        return None;
    }
    says(display, domain)
}

// What a display says of a request: the one of this index, which is its id too, with these fields from word 2 of its slot on.
fn asks(
    display: &mut Display,
    domain: &mut Domain,
    index: u16,
    op: u32,
    fields: [u32; 8],
) -> Option<Said> {
    let slot = (index % 32).wrapping_mul(16).wrapping_add(16);
    put(
        domain,
        0,
        slot,
        op.wrapping_mul(65536).wrapping_add(u32::from(index)),
    );
    let mut word = slot.wrapping_add(2);
    for field in fields {
        put(domain, 0, word, field);
        word = word.wrapping_add(1);
    }
    put(domain, 0, 0, u32::from(index).wrapping_add(1));
    says(display, domain)
}

fn connects(display: &mut Display, domain: &mut Domain) -> Option<Said> {
    let mut nodes = Nodes::new();
    for (key, number) in [(0, 0), (1, 1), (2, 1), (3, 2)] {
        nodes.set(0, key, NodeValue::Number(number));
    }
    display.bus(State::Initialised, &nodes);
    says(display, domain)
}

// A display of one connector.
fn one_connector(alloc: Global) -> Result<Box<Display>, AllocError> {
    Ok(Box::new(alloc, new_display(alloc, DevId(1), DomId(1), 1)?)?)
}

const XR24: u32 = 0x3432_5258;

const RG16: u32 = 0x3631_4752;

// SET_CONFIG of all fields 0.
const NOTHING: [u32; 8] = [0; 8];

// CREATE of buffer 1 and ATTACH of framebuffer 11 to it.
const BUFFER: [u32; 8] = [1, 0, 32, 32, 32, 4096, 0, 2];

const FRAMEBUFFER: [u32; 8] = [1, 0, 11, 0, 32, 32, XR24, 0];

// Requests that are taken one after another: the operation, the fields of its body, and the status of its reply.
const REQUESTS: [(u32, [u32; 8], i32); 30] = [
    (0, [1, 0, 32, 32, 32, 4096, 1, 2], -95),
    (0, [1, 0, 32, 32, 32, 4096, 0, 9], -13),
    (0, [1, 0, 32, 32, 32, 4095, 0, 2], -22),
    (0, BUFFER, 0),
    (0, [1, 0, 0, 0, 0, 0, 0, 0], -17),
    (1, [2, 0, 0, 0, 0, 0, 0, 0], -2),
    (2, [2, 0, 11, 0, 32, 32, XR24, 0], -2),
    (2, [1, 0, 11, 0, 33, 32, XR24, 0], -22),
    (2, [1, 0, 11, 0, 32, 32, RG16, 0], -22),
    (5, [11, 0, 0, 0, 0, 0, 0, 0], -2),
    (2, FRAMEBUFFER, 0),
    (2, [2, 0, 11, 0, 0, 0, 0, 0], -17),
    (5, [11, 0, 0, 0, 0, 0, 0, 0], -22),
    (4, NOTHING, 0),
    (4, [12, 0, 0, 0, 32, 32, 32, 0], -2),
    (4, [11, 0, 1, 0, 32, 32, 32, 0], -22),
    (4, [11, 0, 0, 0, 32, 32, 24, 0], -22),
    (4, [11, 0, 1, 2, 31, 30, 32, 0], 0),
    (2, [1, 0, 12, 1, 16, 16, XR24, 0], 0),
    (5, [12, 1, 0, 0, 0, 0, 0, 0], -22),
    (5, [11, 0, 0, 0, 0, 0, 0, 0], 0),
    (5, [11, 0, 0, 0, 0, 0, 0, 0], -16),
    (1, [1, 0, 0, 0, 0, 0, 0, 0], -16),
    (3, [12, 0, 0, 0, 0, 0, 0, 0], -2),
    (3, [12, 1, 0, 0, 0, 0, 0, 0], 0),
    (1, [1, 0, 0, 0, 0, 0, 0, 0], -16),
    (3, [11, 0, 0, 0, 0, 0, 0, 0], 0),
    (1, [1, 0, 0, 0, 0, 0, 0, 0], 0),
    (1, [1, 0, 0, 0, 0, 0, 0, 0], -2),
    (6, NOTHING, -95),
];

#[test]
fn requests_have_their_statuses(rt: HostRuntime) -> Result<(), Fail> {
    let mut domain = two_buffers(rt.alloc())?;
    let mut display = one_connector(rt.alloc())?;
    assert_eq!(rt;
        connects(&mut display, &mut domain),
        Some(Said::State(State::Connected))
    );
    let mut index = 0u16;
    for (op, fields, status) in REQUESTS {
        let said = asks(&mut display, &mut domain, index, op, fields);
        assert_eq!(rt; said, Some(Said::Replied(0, index, status, false)));
        index = index.wrapping_add(1);
    }
    Ok(())
}

// What the frontend and the host do.
#[derive(Clone, Copy)]
enum Deed {
    // A request that is accepted.
    Asks(u32, [u32; 8]),
    // The frontend consumed events up to this index.
    Consumes(u32),
    // An event of the host, and what is said of it.
    Tells(HostEvent, Said),
}

const SHOW: HostEvent = HostEvent::Show(0);

const BLANK: HostEvent = HostEvent::Blank(0);

// Buffer 1 ends with the pixel 5, and buffer 2 with the pixel 7. A flip is done at a blank, where the event page has room for
// one of 63; a configuration takes its mark.
const DEEDS: [Deed; 27] = [
    Deed::Asks(0, BUFFER),
    Deed::Asks(0, [2, 0, 32, 32, 32, 4096, 0, 4]),
    Deed::Asks(2, FRAMEBUFFER),
    Deed::Asks(2, [2, 0, 12, 0, 32, 32, XR24, 0]),
    Deed::Tells(SHOW, Said::Shown(0, 0, 0)),
    Deed::Asks(4, [11, 0, 0, 0, 32, 32, 32, 0]),
    Deed::Tells(SHOW, Said::Shown(0, 1024, 5)),
    Deed::Tells(BLANK, Said::Blank(0)),
    Deed::Asks(5, [12, 0, 0, 0, 0, 0, 0, 0]),
    Deed::Tells(SHOW, Said::Shown(0, 1024, 5)),
    Deed::Tells(BLANK, Said::Raised(0, 12)),
    Deed::Tells(SHOW, Said::Shown(0, 1024, 7)),
    Deed::Tells(BLANK, Said::Blank(0)),
    Deed::Asks(5, [11, 0, 0, 0, 0, 0, 0, 0]),
    Deed::Consumes(4_294_967_234),
    Deed::Tells(BLANK, Said::Full(0)),
    Deed::Tells(SHOW, Said::Shown(0, 1024, 7)),
    Deed::Consumes(4_294_967_235),
    Deed::Tells(BLANK, Said::Raised(0, 11)),
    Deed::Tells(SHOW, Said::Shown(0, 1024, 5)),
    Deed::Asks(5, [12, 0, 0, 0, 0, 0, 0, 0]),
    Deed::Asks(4, [11, 0, 0, 31, 32, 1, 32, 0]),
    Deed::Consumes(2),
    Deed::Tells(BLANK, Said::Raised(0, 12)),
    Deed::Tells(SHOW, Said::Shown(0, 32, 5)),
    Deed::Asks(3, [11, 0, 0, 0, 0, 0, 0, 0]),
    Deed::Tells(SHOW, Said::Shown(0, 0, 0)),
];

#[test]
fn flips_wait_for_their_blanks(rt: HostRuntime) -> Result<(), Fail> {
    let mut domain = two_buffers(rt.alloc())?;
    let mut display = one_connector(rt.alloc())?;
    assert_eq!(rt;
        connects(&mut display, &mut domain),
        Some(Said::State(State::Connected))
    );
    let mut index = 0u16;
    for deed in DEEDS {
        match deed {
            Deed::Asks(op, fields) => {
                let said = asks(&mut display, &mut domain, index, op, fields);
                assert_eq!(rt; said, Some(Said::Replied(0, index, 0, false)));
                index = index.wrapping_add(1);
            }
            Deed::Consumes(cons) => put(&mut domain, 1, 0, cons),
            Deed::Tells(e, said) => assert_eq!(rt; tells(&mut display, &mut domain, e), Some(said)),
        }
    }
    Ok(())
}
