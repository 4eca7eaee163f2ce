ghost use Rattle.std.proofs.Common.{refl};

use super::*;
use pv_words::{
    DomId, Frame, GrantRef, GrantRefusal, Half, Hold, Mode, Place, Words, holds_exactly,
    maps_exactly,
};

// One entry of a domain with 8 grant entries and 4 frames. Another word comes to stand there before the next exchange.
#[derive(Drop)]
struct Entry {
    flags: u32,
    frame: u32,
    other: Option<u32>,
}

impl Words for Entry {
    ghost use Rattle.pv_words.specs.FreePort.{free_port};
    ghost use Rattle.pv_words.proofs.FreePort.{stays_free, finds_any};

    ghost frames_of = { λ w d. 4 };

    ghost grants_of = { λ w d. 8 };

    ghost port = { λ w. free_port };

    ghost may = { λ w want. Unit {0} };

    ghost makes = { λ old a new. Unit {0} };

    ghost keeps_frames = { λ old a new made d. refl };

    ghost keeps_grants = { λ old a new made d. refl };

    ghost allows = { λ w want h. tt };

    ghost leaves = { λ old a new made. stays_free _ _ a };

    ghost tells = { λ old a new made. finds_any a };

    fn load(&mut self, at: Place) -> u32 {
        match at {
            Place::Grant(_, _, Half::Flags) => self.flags,
            Place::Grant(_, _, Half::FrameNo) => self.frame,
            Place::Cell(..) => 0,
        }
    }

    fn store(&mut self, at: Place, v: u32) {
        if at == Place::Grant(DomId(1), GrantRef(3), Half::FrameNo) {
            self.frame = v;
        }
    }

    fn swap_if(&mut self, _at: Place, old: u32, new: u32) -> u32 {
        if let Some(word) = self.other.take() {
            self.flags = word;
        }
        let seen = self.flags;
        if seen == old {
            self.flags = new;
        }
        seen
    }

    fn clear(&mut self, _at: Place, mask: u32) -> u32 {
        let seen = self.flags;
        self.flags = seen & (mask ^ 0xFFFF_FFFF);
        seen
    }

    fn frames(&self, _dom: DomId) -> u32 {
        4
    }

    fn grants(&self, _dom: DomId) -> u32 {
        8
    }
}

// What a map comes to.
#[tactic(auto, using(pv_words::proofs::Plans::may_any))]
fn mapped(entry: &mut Entry, gref: u32, mode: Mode) -> Option<Result<Hold, GrantRefusal>> {
    let mut step = MapStep::new(DomId(1), GrantRef(gref), mode);
    for _ in 0..4 {
        let turn = step.step(entry);
        if turn.done.is_some() {
            return turn.done;
        }
    }
    None
}

// What a permit of frame 2 comes to.
#[tactic(auto, using(pv_words::proofs::Plans::may_any))]
fn permitted(entry: &mut Entry, mode: Mode) -> Option<Owned> {
    let mut step = OwnerStep::permit(DomId(1), GrantRef(3), Frame(2), mode);
    for _ in 0..3 {
        let turn = step.permit_step(entry);
        if turn.done.is_some() {
            return turn.done;
        }
    }
    None
}

// What an end comes to.
#[tactic(auto, using(pv_words::proofs::Plans::may_any))]
fn ended(entry: &mut Entry) -> Option<Owned> {
    let mut step = OwnerStep::end(DomId(1), GrantRef(3));
    for _ in 0..2 {
        let turn = step.end_step(entry);
        if turn.done.is_some() {
            return turn.done;
        }
    }
    None
}

fn hold(mode: Mode) -> Hold {
    Hold {
        dom: DomId(1),
        gref: GrantRef(3),
        frame: Frame(2),
        mode,
    }
}

#[test]
fn maps_what_is_granted(rt: HostRuntime) {
    for (flags, mode, after) in [
        (1, Mode::Read, 9),
        (1, Mode::Write, 25),
        (5, Mode::Read, 13),
        (97, Mode::Write, 121),
    ] {
        let mut entry = Entry {
            flags,
            frame: 2,
            other: None,
        };
        assert_eq!(rt;
            mapped(&mut entry, 3, mode),
            Some(Ok(hold(mode))),
            "of {flags}"
        );
        assert_eq!(rt; entry.flags, after, "of {flags}");
    }
}

#[test]
fn refuses_what_is_not(rt: HostRuntime) {
    for (flags, mode, want) in [
        (0, Mode::Read, GrantRefusal::NotPermitted(0)),
        (2, Mode::Read, GrantRefusal::NotPermitted(2)),
        (3, Mode::Read, GrantRefusal::NotPermitted(3)),
        (257, Mode::Read, GrantRefusal::NotPermitted(257)),
        (65_537, Mode::Read, GrantRefusal::OtherDomain(65_537)),
        (13, Mode::Write, GrantRefusal::ReadOnly(13)),
        (9, Mode::Read, GrantRefusal::InUse(9)),
        (17, Mode::Write, GrantRefusal::InUse(17)),
    ] {
        let mut entry = Entry {
            flags,
            frame: 2,
            other: None,
        };
        assert_eq!(rt; mapped(&mut entry, 3, mode), Some(Err(want)), "of {flags}");
        assert_eq!(rt; entry.flags, flags, "of {flags}");
    }
}

#[test]
fn refuses_without_the_flags(rt: HostRuntime) {
    let mut entry = Entry {
        flags: 1,
        frame: 4,
        other: None,
    };
    assert_eq!(rt;
        mapped(&mut entry, 8, Mode::Read),
        Some(Err(GrantRefusal::NoEntry(8)))
    );
    assert_eq!(rt;
        mapped(&mut entry, 7, Mode::Write),
        Some(Err(GrantRefusal::BadFrame(4)))
    );
    assert_eq!(rt; entry.flags, 1);
    entry.other = Some(5);
    assert_eq!(rt;
        mapped(&mut entry, 3, Mode::Read),
        Some(Err(GrantRefusal::Moved(1, 5)))
    );
    assert_eq!(rt; entry.flags, 5);
    maps_exactly();
    holds_exactly();
}

#[test]
fn grants_and_ends(rt: HostRuntime) {
    let mut entry = Entry {
        flags: 0,
        frame: 0,
        other: None,
    };
    assert_eq!(rt; permitted(&mut entry, Mode::Read), Some(Owned::Opened));
    assert_eq!(rt; (entry.flags, entry.frame), (5, 2));
    assert_eq!(rt;
        permitted(&mut entry, Mode::Write),
        Some(Owned::AlreadyOpen(5))
    );
    assert_eq!(rt;
        mapped(&mut entry, 3, Mode::Read),
        Some(Ok(hold(Mode::Read)))
    );
    assert_eq!(rt; ended(&mut entry), Some(Owned::Busy(13)));
    unmap(&hold(Mode::Read), &mut entry);
    assert_eq!(rt; ended(&mut entry), Some(Owned::Ended));
    assert_eq!(rt; entry.flags, 0);
    entry.other = Some(1);
    assert_eq!(rt;
        permitted(&mut entry, Mode::Read),
        Some(Owned::AlreadyOpen(1))
    );
    entry.other = Some(5);
    assert_eq!(rt; ended(&mut entry), Some(Owned::Moved(1, 5)));
    assert_eq!(rt; entry.flags, 5);
    ends_exactly();
    grants_exactly();
}
