ghost use Rattle.std.proofs.Common.{refl};

use super::*;
use crate::laws::holds_exactly;
use pv_words::{DomId, Frame, GrantRef, GrantRefusal, Half, Hold, Mode, Place, Words};
use ring_words::Looked;

// Two granted frames: frame 0 is a ring, frame 1 an event page. One request stands in the ring.
#[derive(Drop)]
struct Guest {
    ring_flags: u32,
    event_flags: u32,
    rsp: u32,
}

impl Words for Guest {
    ghost use Rattle.pv_words.specs.FreePort.{free_port};
    ghost use Rattle.pv_words.proofs.FreePort.{stays_free, finds_any};

    ghost frames_of = { λ w d. 2 };

    ghost grants_of = { λ w d. 2 };

    ghost port = { λ w. free_port };

    ghost may = { λ w want. Unit {0} };

    ghost makes = { λ old a new. Unit {0} };

    ghost keeps_frames = { λ old a new made d. refl };

    ghost keeps_grants = { λ old a new made d. refl };

    ghost allows = { λ w want h. tt };

    ghost leaves = { λ old a new made. stays_free _ _ a };

    ghost tells = { λ old a new made. finds_any a };

    fn load(&mut self, at: Place) -> u32 {
        match at {
            Place::Grant(_, GrantRef(0), Half::Flags) => self.ring_flags,
            Place::Grant(_, _, Half::Flags) => self.event_flags,
            Place::Grant(_, gref, Half::FrameNo) => gref.0,
            Place::Cell(_, Frame(0), 0) => 8,
            Place::Cell(_, Frame(0), 2) => self.rsp,
            Place::Cell(_, Frame(0), _) => 9,
            Place::Cell(..) => 5,
        }
    }

    fn store(&mut self, at: Place, v: u32) {
        if at == Place::Cell(DomId(1), Frame(0), 2) {
            self.rsp = v;
        }
    }

    fn swap_if(&mut self, at: Place, old: u32, new: u32) -> u32 {
        let seen = self.load(at);
        if seen == old {
            match at {
                Place::Grant(_, GrantRef(0), _) => self.ring_flags = new,
                _ => self.event_flags = new,
            }
        }
        seen
    }

    fn clear(&mut self, at: Place, mask: u32) -> u32 {
        let seen = self.load(at);
        let left = seen & (mask ^ 0xFFFF_FFFF);
        match at {
            Place::Grant(_, GrantRef(0), _) => self.ring_flags = left,
            _ => self.event_flags = left,
        }
        seen
    }

    fn frames(&self, _dom: DomId) -> u32 {
        2
    }

    fn grants(&self, _dom: DomId) -> u32 {
        2
    }
}

// How many accesses a Connect makes, and how it ends.
#[tactic(auto, using(crate::proofs::Ports::may_any))]
fn connects(
    link: &mut Link,
    guest: &mut Guest,
    ring: Option<GrantRef>,
) -> Option<(u32, Result<(), GrantRefusal>)> {
    let mut count = 0;
    for _ in 0..9 {
        let turn = link.connect_step(guest, ring, GrantRef(1));
        if turn.access.is_some() && count < 9 {
            count += 1;
        }
        if let Some(end) = turn.done {
            return Some((count, end));
        }
    }
    None
}

// Connects, and drops what is held: the words of the flags after the first unmap and after the last, and how it ends.
#[tactic(auto, using(crate::proofs::Ports::may_any, crate::proofs::Links::idle_ended))]
fn drops(guest: &mut Guest) -> Option<[(u32, u32, Option<()>); 2]> {
    let mut link = Link::new(DomId(1), 0);
    for _ in 0..9 {
        let turn = link.connect_step(guest, Some(GrantRef(0)), GrantRef(1));
        if let Some(_) = turn.done {
            let first = link.drop_step(guest);
            let between = (guest.ring_flags, guest.event_flags, first.done);
            let last = link.drop_step(guest);
            return Some([between, (guest.ring_flags, guest.event_flags, last.done)]);
        }
    }
    None
}

fn pages(link: &Link) -> [Option<Hold>; 2] {
    let held = link.held();
    [
        if held > 0 {
            Some(link.hold_at(0))
        } else {
            None
        },
        if held > 1 {
            Some(link.hold_at(1))
        } else {
            None
        },
    ]
}

fn page(of: u32) -> Hold {
    Hold {
        dom: DomId(1),
        gref: GrantRef(of),
        frame: Frame(of),
        mode: Mode::Write,
    }
}

fn granted() -> Guest {
    Guest {
        ring_flags: 1,
        event_flags: 1,
        rsp: 7,
    }
}

#[test]
#[tactic(auto, using(crate::proofs::Ports::may_any))]
fn connects_and_serves(rt: HostRuntime) {
    let mut guest = granted();
    let mut link = Link::new(DomId(1), 0);
    assert_eq!(rt; pages(&link), [None, None]);
    assert_eq!(rt;
        connects(&mut link, &mut guest, Some(GrantRef(0))),
        Some((8, Ok(())))
    );
    assert_eq!(rt; pages(&link), [Some(page(0)), Some(page(1))]);
    assert_eq!(rt; link.in_prod(), 5);
    assert_eq!(rt; (guest.ring_flags, guest.event_flags), (25, 25));
    assert_eq!(rt; link.look_step(&mut guest).done, Some(Looked::Ready(1)));
    let mut taken = None;
    for _ in 0..16 {
        taken = link.take_step(&mut guest).done;
    }
    assert_eq!(rt; taken, Some([9; 16]));
    let mut notified = None;
    for _ in 0..18 {
        notified = link.answer_step(&mut guest, &[0; 16]).done;
    }
    assert_eq!(rt; (notified, guest.rsp), (Some(false), 8));
    assert_eq!(rt; link.sleep_step(&mut guest).done, None);
    assert_eq!(rt; link.sleep_step(&mut guest).done, Some(true));
    holds_exactly();
}

#[test]
fn connects_without_a_ring(rt: HostRuntime) {
    let mut guest = granted();
    let mut link = Link::new(DomId(1), 0);
    assert_eq!(rt; connects(&mut link, &mut guest, None), Some((4, Ok(()))));
    assert_eq!(rt; pages(&link), [Some(page(1)), None]);
}

#[test]
fn keeps_what_was_mapped_where_it_is_refused(rt: HostRuntime) {
    let mut guest = granted();
    guest.event_flags = 5;
    let mut link = Link::new(DomId(1), 0);
    assert_eq!(rt;
        connects(&mut link, &mut guest, Some(GrantRef(0))),
        Some((5, Err(GrantRefusal::ReadOnly(5))))
    );
    assert_eq!(rt; pages(&link), [Some(page(0)), None]);
    let mut other = Link::new(DomId(1), 0);
    assert_eq!(rt;
        connects(&mut other, &mut guest, Some(GrantRef(2))),
        Some((0, Err(GrantRefusal::NoEntry(2))))
    );
}

#[test]
#[tactic(auto, using(crate::proofs::Ports::may_any))]
fn drops_what_is_held(rt: HostRuntime) {
    let mut guest = granted();
    let mut link = Link::new(DomId(1), 0);
    let turn = link.drop_step(&mut guest);
    assert_eq!(rt; (turn.access, turn.done), (None, Some(())));
    assert_eq!(rt; drops(&mut guest), Some([(1, 25, None), (1, 1, Some(()))]));
}
