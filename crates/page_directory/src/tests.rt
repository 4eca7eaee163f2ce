ghost use Rattle.std.specs.Prelude.{◌<◌, ◌≤◌};
ghost use Rattle.std.proofs.Common.{refl};

use super::*;
use pv_words::{
    Access, DomId, Frame, GrantRef, GrantRefusal, Half, Hold, Mode, PageList, Place, Turn, Words,
};
use std::alloc::{AllocError, Global};
use std::test::Fail;

// Domain 1: each grant entry names the frame of its own number. Frames 2 and 1028 are directory pages, which list the
// references from 3 on and from 1026 on. Where `other` is a word, it comes to stand in entry 5 before its exchange.
#[derive(Drop)]
struct Domain {
    flags: Vec<u32>,
    next: u32,
    frames: u32,
    grants: u32,
    other: Option<u32>,
}

fn granted(alloc: Global) -> Result<Domain, AllocError> {
    Ok(Domain {
        flags: vec![in alloc; 1; 1030]?,
        next: 0,
        frames: 1030,
        grants: 1030,
        other: None,
    })
}

impl Words for Domain {
    ghost use Rattle.std.specs.Prelude.{◌≡◌};
    ghost use Rattle.pv_words.specs.FreePort.{free_port};
    ghost use Rattle.pv_words.proofs.FreePort.{stays_free, finds_any};

    ghost frames_of = { λ w d. w.frames };

    ghost grants_of = { λ w d. w.grants };

    ghost port = { λ w. free_port };

    ghost may = { λ w want. Unit {0} };

    ghost makes = { λ old a new. (new.frames ≡ old.frames) × (new.grants ≡ old.grants) };

    ghost keeps_frames = { λ old a new made d. made.0 };

    ghost keeps_grants = { λ old a new made d. made.1 };

    ghost allows = { λ w want h. tt };

    ghost leaves = { λ old a new made. stays_free _ _ a };

    ghost tells = { λ old a new made. finds_any a };

    fn load(&mut self, at: Place) -> u32 {
        match at {
            Place::Grant(_, gref, Half::Flags) => self
                .flags
                .get(gref.0 as usize)
                .copied()
                .unwrap_or(0),
            Place::Grant(_, gref, Half::FrameNo) => gref.0,
            Place::Cell(_, frame, word) => {
                if word == 0 {
                    return self.next;
                }
                if frame.0 == 2 {
                    word as u32 + 2
                } else {
                    word as u32 + 1025
                }
            }
        }
    }

    fn store(&mut self, _at: Place, _v: u32) {}

    fn swap_if(&mut self, at: Place, old: u32, new: u32) -> u32 {
        let Place::Grant(_, gref, _) = at else {
            return 0;
        };
        if gref.0 == 5 {
            if let Some(word) = self.other.take() {
                return word;
            }
        }
        match self.flags.get_mut(gref.0 as usize) {
            Some(flags) => {
                let seen = *flags;
                if seen == old {
                    *flags = new;
                }
                seen
            }
            None => 0,
        }
    }

    fn clear(&mut self, at: Place, mask: u32) -> u32 {
        let Place::Grant(_, gref, _) = at else {
            return 0;
        };
        match self.flags.get_mut(gref.0 as usize) {
            Some(flags) => {
                let seen = *flags;
                *flags = seen & (mask ^ 0xFFFF_FFFF);
                seen
            }
            None => 0,
        }
    }

    fn frames(&self, _dom: DomId) -> u32 {
        self.frames
    }

    fn grants(&self, _dom: DomId) -> u32 {
        self.grants
    }
}

// What a walk comes to, and by how many accesses.
#[tactic(auto, using(crate::proofs::Plans::may_any))]
fn walked(words: &mut Domain, walk: &mut Walk) -> (u32, Option<Walked>) {
    for made in 0..10000 {
        let Turn { access, done } = walk.step(words);
        if done.is_some() {
            let accesses = if access.is_some() { made + 1 } else { made };
            return (accesses, done);
        }
    }
    (10000, None)
}

// How many pages there are, and the last one.
fn counted<P: PageList>(pages: &P) -> (u32, Option<Hold>) {
    let n = pages.len();
    if n == 0 {
        return (0, None);
    }
    (n, Some(pages.get(n - 1)))
}

fn page(number: u32, mode: Mode) -> Hold {
    Hold {
        dom: DomId(1),
        gref: GrantRef(number),
        frame: Frame(number),
        mode,
    }
}

#[test]
fn maps_what_is_listed(rt: HostRuntime) -> Result<(), Fail> {
    for (octets, next, pages, accesses, last) in [
        (1, 0, 1, 8, 3),
        (4096, 0, 1, 8, 3),
        (4097, 0, 2, 12, 4),
        (4096 * 1023, 0, 1023, 4096, 1025),
        (4096 * 1024, 1028, 1024, 4105, 1026),
    ] {
        let mut words = granted(rt.alloc())?;
        words.next = next;
        let mut walk = Walk::new(rt.alloc(), DomId(1), octets, GrantRef(2), Mode::Write)?;
        let (made, end) = walked(&mut words, &mut walk);
        assert_eq!(rt; made, accesses, "{octets} octets");
        let Some(Walked::Pages(list)) = end else {
            return Err("no pages".into());
        };
        assert_eq!(rt;
            counted(&list),
            (pages, Some(page(last, Mode::Write))),
            "{octets} octets"
        );
        assert!(rt; list.len() > 0 && !list.is_empty());
        assert_eq!(rt; list.get(0), page(3, Mode::Write));
        assert_eq!(rt; walk.held(), 0);
        let flags = words.flags.as_slice();
        for (gref, want) in [(2, 1), (3, 25), (1028, 1)] {
            assert_eq!(rt;
                flags.get(gref).copied(),
                Some(want),
                "of {gref}, {octets} octets"
            );
        }
    }
    walks_exactly();
    reads_exactly();
    Ok(())
}

// By how many accesses a walk over so many pages is refused, and why; whether the flags are as they were.
fn refused(
    alloc: Global,
    words: &mut Domain,
    pages: u32,
    mode: Mode,
) -> Result<(u32, Option<GrantRefusal>, bool), AllocError>
    requires some { 0 < pages }
    requires limit { pages ≤ 8192 }
{
    let before = words.flags.as_slice().to_vec(alloc)?;
    let mut walk = Walk::new(alloc, DomId(1), 4096 * pages, GrantRef(2), mode)?;
    let (made, end) = walked(words, &mut walk);
    let undone = words.flags.as_slice() == before.as_slice() && walk.held() == 0;
    match end {
        Some(Walked::Refused(refusal)) => Ok((made, Some(refusal), undone)),
        _ => Ok((made, None, undone)),
    }
}

#[test]
fn undoes_a_walk_with_no_next_page(rt: HostRuntime) -> Result<(), Fail> {
    let mut words = granted(rt.alloc())?;
    assert_eq!(rt;
        refused(rt.alloc(), &mut words, 1024, Mode::Write)?,
        (5120, Some(GrantRefusal::NoNext), true)
    );
    Ok(())
}

#[test]
fn undoes_a_walk_whose_map_is_refused(rt: HostRuntime) -> Result<(), Fail> {
    for (flags, want) in [
        (0, GrantRefusal::NotPermitted(0)),
        (65_537, GrantRefusal::OtherDomain(65_537)),
        (5, GrantRefusal::ReadOnly(5)),
        (9, GrantRefusal::InUse(9)),
    ] {
        let mut words = granted(rt.alloc())?;
        if let Some(word) = words.flags.get_mut(5) {
            *word = flags;
        }
        // The directory and two pages, a reference and the load of its flags, and three unmaps.
        assert_eq!(rt;
            refused(rt.alloc(), &mut words, 4, Mode::Write)?,
            (16, Some(want), true),
            "of {flags}"
        );
    }
    let mut words = granted(rt.alloc())?;
    words.other = Some(3);
    assert_eq!(rt;
        refused(rt.alloc(), &mut words, 4, Mode::Read)?,
        (17, Some(GrantRefusal::Moved(1, 3)), true)
    );
    words.frames = 5;
    assert_eq!(rt;
        refused(rt.alloc(), &mut words, 4, Mode::Read)?,
        (19, Some(GrantRefusal::BadFrame(5)), true)
    );
    words.grants = 5;
    assert_eq!(rt;
        refused(rt.alloc(), &mut words, 4, Mode::Read)?,
        (15, Some(GrantRefusal::NoEntry(5)), true)
    );
    words.grants = 2;
    assert_eq!(rt;
        refused(rt.alloc(), &mut words, 4, Mode::Read)?,
        (0, Some(GrantRefusal::NoEntry(2)), true)
    );
    Ok(())
}

// The pages that the walk holds.
fn held(alloc: Global, walk: &Walk) -> Result<Vec<Hold>, AllocError> {
    let mut list = Vec::new(alloc);
    for i in 0..walk.held() {
        list.push(walk.hold_at(i))?;
    }
    Ok(list)
}

#[test]
#[tactic(auto, using(crate::proofs::Plans::may_any))]
fn tells_what_it_holds(rt: HostRuntime) -> Result<(), Fail> {
    let mut words = granted(rt.alloc())?;
    words.frames = 4;
    let mut walk = Walk::new(rt.alloc(), DomId(1), 4096 * 3, GrantRef(2), Mode::Write)?;
    let directory = page(2, Mode::Read);
    let first = page(3, Mode::Write);
    for (accesses, want) in [
        (2, [].as_slice()),
        (1, [directory].as_slice()),
        (3, [directory].as_slice()),
        (1, [directory, first].as_slice()),
        // The second page's frame isn't there.
        (5, [directory, first].as_slice()),
        (1, [first].as_slice()),
    ] {
        for _ in 0..accesses {
            let Turn { access: _, done } = walk.step(&mut words);
            assert!(rt; done.is_none());
        }
        assert_eq!(rt; held(rt.alloc(), &walk)?.as_slice(), want);
    }
    Ok(())
}

#[test]
#[tactic(auto, using(crate::proofs::Releases::may_any))]
fn gives_up_each_page_once(rt: HostRuntime) -> Result<(), Fail> {
    let mut words = granted(rt.alloc())?;
    let mut walk = Walk::new(rt.alloc(), DomId(1), 4096 * 3, GrantRef(2), Mode::Write)?;
    let (_, end) = walked(&mut words, &mut walk);
    let Some(Walked::Pages(list)) = end else {
        return Err("no pages".into());
    };
    let mut release = Release::new();
    for gref in 3..6 {
        if release.left(&list) == 0 {
            return Err("no page is left".into());
        }
        assert_eq!(rt; release.get(&list, 0), page(gref, Mode::Write));
        let entry = Place::Grant(DomId(1), GrantRef(gref), Half::Flags);
        assert_eq!(rt;
            release.step(&list, &mut words),
            Access::Clear(entry, 24, 25)
        );
    }
    assert_eq!(rt; release.left(&list), 0);
    Ok(())
}
