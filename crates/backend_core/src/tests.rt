ghost use Rattle.std.specs.Prelude.{◌≡◌, ◌≤◌};

use super::*;
use device_core::Step;
use display_backend::new_display;
use pv_words::{
    DevId, DeviceKind, DeviceSetup, DomId, Frame, Half, HostEvent, HostRefusal, NodeValue, Place,
    Reason, Said, State, StreamKind, Streams, Words,
};
use std::alloc::{AllocError, Global};
use std::test::Fail;
use xenbus_states::Nodes;

// Domain 1 with eight frames, each of which its grant entry of the same number permits. In frame 0 the request index is `asked`,
// and each slot has these words; all other words of frames are 0.
#[derive(Clone, Copy)]
struct Domain {
    asked: u16,
    slot: [u32; 16],
}

const QUIET: Domain = Domain {
    asked: 0,
    slot: [0; 16],
};

impl Words for Domain {
    ghost use Rattle.std.proofs.Common.{refl};
    ghost use Rattle.pv_words.specs.FreePort.{free_port};
    ghost use Rattle.pv_words.proofs.FreePort.{stays_free, finds_any};

    ghost frames_of = { λ w d. 8 };

    ghost grants_of = { λ w d. 8 };

    ghost port = { λ w. free_port };

    ghost may = { λ w want. Unit {0} };

    ghost makes = { λ old a new. Unit {0} };

    ghost keeps_frames = { λ old a new made d. refl };

    ghost keeps_grants = { λ old a new made d. refl };

    ghost allows = { λ w want h. tt };

    ghost leaves = { λ old a new made. stays_free _ _ a };

    ghost tells = { λ old a new made. finds_any a };

    fn load(&mut self, at: Place) -> u32 {
        match at {
            Place::Grant(_, _, Half::Flags) => 1,
            Place::Grant(_, gref, Half::FrameNo) => gref.0,
            Place::Cell(_, Frame(0), 0) => u32::from(self.asked),
            Place::Cell(_, Frame(0), word) if word >= 16 => {
                self.slot.get(usize::from(word) % 16).copied().unwrap_or(0)
            }
            Place::Cell(_, _, _) => 0,
        }
    }

    fn store(&mut self, _at: Place, _v: u32) {}

    fn swap_if(&mut self, _at: Place, old: u32, _new: u32) -> u32 {
        old
    }

    fn clear(&mut self, _at: Place, mask: u32) -> u32 {
        mask
    }

    fn frames(&self, _dom: DomId) -> u32 {
        8
    }

    fn grants(&self, _dom: DomId) -> u32 {
        8
    }
}

#[tactic(auto, using(crate::proofs::EachKind::may_any))]
fn steps(device: &mut Device, words: &mut Domain) -> Step {
    device.step(words)
}

// Steps a device until it says this.
fn steps_to(device: &mut Device, words: &mut Domain, said: Said) -> bool {
    for _ in 0..100 {
        if steps(device, words).said == Some(said) {
            return true;
        }
    }
    false
}

// What the device answers to an event of its host; None where it doesn't fit.
fn answer(device: &mut Device, e: HostEvent) -> Option<Result<(), HostRefusal>> {
    if !device.fits(&e) {
        return None;
    }
    Some(device.host(e))
}

// A display of so many connectors.
fn declared(alloc: Global, connectors: u8) -> Result<Box<Device>, AllocError>
    requires some { 1 ≤ connectors }
    requires few { connectors ≤ 4 }
{
    let display = new_display(alloc, DevId(1), DomId(1), connectors)?;
    Ok(Box::new(alloc, Device::Display(display))?)
}

fn says(said: Said) -> Step {
    Step {
        access: None,
        said: Some(said),
    }
}

// A sound device of a stream of playback and one of capture.
fn declared_sound(alloc: Global) -> Result<Box<Device>, AllocError> {
    let setup = DeviceSetup {
        dev: DevId(2),
        dom: DomId(1),
        kind: DeviceKind::Sound(Streams::Two(StreamKind::Playback, StreamKind::Capture)),
    };
    Ok(Box::new(alloc, Device::new(alloc, &setup)?)?)
}

// The nodes of two parts: four frames for each, of which the first and the third are its pages.
fn nodes_of_two() -> Nodes {
    let mut nodes = Nodes::new();
    for part in 0..2 {
        for key in 0..4 {
            nodes.set(part, key, NodeValue::Number(4 * part as u32 + key as u32));
        }
    }
    nodes
}

#[test]
fn a_display_does_the_events_of_its_host(rt: HostRuntime) -> Result<(), Fail> {
    let mut words = QUIET;
    let mut device = declared(rt.alloc(), 2)?;
    let not_connected = Some(Err(HostRefusal::NotConnected));
    assert_eq!(rt; answer(&mut device, HostEvent::Blank(2)), None);
    assert_eq!(rt; answer(&mut device, HostEvent::Tick(0, 1)), None);
    assert_eq!(rt; answer(&mut device, HostEvent::Blank(0)), not_connected);
    device.bus(State::Initialised, &nodes_of_two());
    assert_eq!(rt; answer(&mut device, HostEvent::Show(1)), not_connected);
    assert!(rt; device.due() && steps_to(&mut device, &mut words, Said::State(State::Connected)));
    for _ in 0..32 {
        assert_eq!(rt; answer(&mut device, HostEvent::Blank(1)), Some(Ok(())));
        assert_eq!(rt; answer(&mut device, HostEvent::Show(1)), Some(Ok(())));
    }
    assert_eq!(rt;
        answer(&mut device, HostEvent::Blank(0)),
        Some(Err(HostRefusal::Full))
    );
    assert_eq!(rt; steps(&mut device, &mut words), says(Said::Blank(1)));
    assert_eq!(rt; answer(&mut device, HostEvent::Show(0)), Some(Ok(())));
    assert_eq!(rt;
        answer(&mut device, HostEvent::Show(0)),
        Some(Err(HostRefusal::Full))
    );
    for _ in 1..32 {
        assert_eq!(rt; steps(&mut device, &mut words), says(Said::Shown(1, 0, 0)));
        assert_eq!(rt; steps(&mut device, &mut words), says(Said::Blank(1)));
    }
    assert_eq!(rt; steps(&mut device, &mut words), says(Said::Shown(1, 0, 0)));
    assert_eq!(rt; steps(&mut device, &mut words), says(Said::Shown(0, 0, 0)));
    assert!(rt; device.due() && steps(&mut device, &mut words).access.is_some());
    Ok(())
}

#[test]
fn a_closed_connection_takes_its_events_away(rt: HostRuntime) -> Result<(), Fail> {
    let mut words = QUIET;
    let mut device = declared(rt.alloc(), 1)?;
    let nodes = nodes_of_two();
    device.bus(State::Connected, &nodes);
    assert!(rt; steps_to(&mut device, &mut words, Said::State(State::Connected)));
    assert_eq!(rt; answer(&mut device, HostEvent::Blank(0)), Some(Ok(())));
    device.bus(State::Initialising, &nodes);
    let closed = Said::Closed(Reason::Asked(State::Initialising));
    assert!(rt; steps_to(&mut device, &mut words, closed));
    // the backend is still Connected
    assert_eq!(rt; answer(&mut device, HostEvent::Show(0)), Some(Ok(())));
    assert_eq!(rt;
        steps(&mut device, &mut words),
        says(Said::State(State::Closed))
    );
    assert_eq!(rt;
        answer(&mut device, HostEvent::Show(0)),
        Some(Err(HostRefusal::NotConnected))
    );
    assert_eq!(rt;
        steps(&mut device, &mut words),
        says(Said::State(State::InitWait))
    );
    device.bus(State::Initialised, &nodes);
    assert!(rt; steps_to(&mut device, &mut words, Said::State(State::Connected)));
    assert!(rt; steps(&mut device, &mut words).access.is_some());
    Ok(())
}

// Whether the device answers a request of its part 0 by status 0: one of this operation, with these words behind word 1.
fn accepts(device: &mut Device, words: &mut Domain, op: u32, body: [u32; 5]) -> bool {
    let [first, second, third, fourth, fifth] = body;
    let head = op.wrapping_mul(65536).wrapping_add(u32::from(words.asked));
    words.slot = [
        head, 0, first, second, third, fourth, fifth, 0, 0, 0, 0, 0, 0, 0, 0, 0,
    ];
    let id = words.asked;
    words.asked = words.asked.wrapping_add(1);
    steps_to(device, words, Said::Replied(0, id, 0, false))
}

// One page of a stream that is open is held, beside the two of each part; a stream that doesn't run moves nothing.
#[test]
fn a_sound_device_opens_and_closes(rt: HostRuntime) -> Result<(), Fail> {
    let mut words = QUIET;
    let mut device = declared_sound(rt.alloc())?;
    for e in [
        HostEvent::Blank(0),
        HostEvent::Tick(2, 1),
        HostEvent::Tick(1, 0),
        HostEvent::Tick(1, 1_048_577),
    ] {
        assert_eq!(rt; answer(&mut device, e), None);
    }
    let not_connected = Some(Err(HostRefusal::NotConnected));
    assert_eq!(rt;
        answer(&mut device, HostEvent::Tick(1, 1_048_576)),
        not_connected
    );
    device.bus(State::Initialised, &nodes_of_two());
    assert!(rt; steps_to(&mut device, &mut words, Said::State(State::Connected)));
    assert_eq!(rt; device.held(), 4);
    assert!(rt; accepts(&mut device, &mut words, 0, [48_000, 514, 4096, 2, 4]));
    assert_eq!(rt; device.held(), 5);
    assert_eq!(rt; answer(&mut device, HostEvent::Tick(0, 64)), Some(Ok(())));
    assert!(rt; steps_to(&mut device, &mut words, Said::Moved(0, 0, 0)));
    assert!(rt; !accepts(&mut device, &mut words, 9, [4, 0, 8000, 8000, 0]));
    assert!(rt; accepts(&mut device, &mut words, 1, [0; 5]));
    assert_eq!(rt; device.held(), 4);
    device.bus(State::Closed, &nodes_of_two());
    let closed = Said::Closed(Reason::Asked(State::Closed));
    assert!(rt; steps_to(&mut device, &mut words, closed));
    assert_eq!(rt; device.held(), 0);
    Ok(())
}
