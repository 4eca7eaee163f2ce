ghost use Rattle.std.specs.Prelude.{◌≡◌, ◌*◌, ◌<◌, ◌≤◌, []};
ghost use Rattle.std.proofs.Common.{inl, refl};
ghost use Rattle.std.proofs.lemmas.Bool.{false≢true};
ghost use Rattle.display_buffers.specs.Store.{stock_of};

use super::*;
use displ_wire::{Create, Refused};
use page_directory::{Pages, Walk, Walked};
use pv_words::{Access, DomId, GrantRef, Half, Mode, Place, Words};
use std::alloc::{AllocError, Global};
use std::test::Fail;

// Domain 1: each grant entry permits access to the frame of its own number, and word w of frame f holds f + w.
#[derive(Drop)]
struct Domain {
    frames: u32,
}

impl Words for Domain {
    ghost use Rattle.std.specs.Prelude.{◌≡◌};
    ghost use Rattle.pv_words.specs.FreePort.{free_port};
    ghost use Rattle.pv_words.proofs.FreePort.{stays_free, finds_any};

    ghost frames_of = { λ w d. w.frames };

    ghost grants_of = { λ w d. w.frames };

    ghost port = { λ w. free_port };

    ghost may = { λ w want. Unit {0} };

    ghost makes = { λ old a new. new.frames ≡ old.frames };

    ghost keeps_frames = { λ old a new made d. made };

    ghost keeps_grants = { λ old a new made d. made };

    ghost allows = { λ w want h. tt };

    ghost leaves = { λ old a new made. stays_free _ _ a };

    ghost tells = { λ old a new made. finds_any a };

    fn load(&mut self, at: Place) -> u32 {
        match at {
            Place::Grant(_, _, Half::Flags) => 1,
            Place::Grant(_, gref, Half::FrameNo) => gref.0,
            Place::Cell(_, frame, word) => frame.0.wrapping_add(word as u32),
        }
    }

    fn store(&mut self, _at: Place, _v: u32) {}

    fn swap_if(&mut self, _at: Place, old: u32, _new: u32) -> u32 {
        old
    }

    fn clear(&mut self, _at: Place, _mask: u32) -> u32 {
        25
    }

    fn frames(&self, _dom: DomId) -> u32 {
        self.frames
    }

    fn grants(&self, _dom: DomId) -> u32 {
        self.frames
    }
}

// So many pages, by the page directory in this frame.
#[tactic(auto, using(page_directory::proofs::Plans::may_any))]
fn mapped(
    alloc: Global,
    words: &mut Domain,
    directory: u32,
    count: u32,
) -> Result<Option<Pages>, AllocError>
    requires some { 0 < count }
    requires few { count ≤ 8192 }
{
    let mut walk = Walk::new(
        alloc,
        DomId(1),
        4096 * count,
        GrantRef(directory),
        Mode::Write,
    )?;
    for _ in 0..100 {
        if let Some(end) = walk.step(words).done {
            return match end {
                Walked::Pages(pages) => Ok(Some(pages)),
                Walked::Refused(_) => Ok(None),
            };
        }
    }
    Ok(None)
}

fn asks(cookie: u64, pages: u32) -> Create
    requires { pages ≤ 8192 }
    ensures { result.buffer_sz ≡ 4096 * pages }
{
    Create {
        dbuf_cookie: cookie,
        width: 1,
        height: 1,
        bpp: 16,
        buffer_sz: 4096 * pages,
        flags: 0,
        gref_directory: 2,
    }
}

// Makes a buffer of so many pages under this cookie.
fn make(
    alloc: Global,
    store: &mut Store,
    words: &mut Domain,
    cookie: u64,
    directory: u32,
    count: u32,
) -> Result<(), Fail>
    requires some { 0 < count }
    requires few { count ≤ 8192 }
    requires none { (stock_of store.old).mapped ≡ [] }
    ensures { (stock_of store.new).mapped ≡ [] }
{
    let Some(pages) = mapped(alloc, words, directory, count)? else {
        return Err("no pages".into());
    };
    let c = asks(cookie, pages.len());
    if store.check(&c).is_err() {
        return Err("refused".into());
    }
    store.keep(pages);
    store.create(&c);
    Ok(())
}

// The frames of the pages that are held, in the order in which they are given up.
fn frames(alloc: Global, store: &Store) -> Result<Vec<u32>, AllocError> {
    let mut list = Vec::new(alloc);
    for i in 0..store.held() {
        list.push(store.hold_at(i).frame.0)?;
    }
    Ok(list)
}

// The clear of the in-use bits of a page that is mapped for writing.
fn cleared(gref: u32) -> Access {
    Access::Clear(Place::Grant(DomId(1), GrantRef(gref), Half::Flags), 24, 25)
}

#[tactic(auto, using(page_directory::proofs::Releases::may_any))]
fn unmaps(store: &mut Store, words: &mut Domain) -> Option<Access> {
    if store.is_bare() {
        return None;
    }
    Some(store.unmap_first(words))
}

#[tactic(auto, using(page_directory::proofs::Releases::may_any))]
fn unmaps_of(store: &mut Store, cookie: u64, words: &mut Domain) -> Option<Access>
    ensures { (stock_of store.new).mapped ≡ (stock_of store.old).mapped }
{
    if store.held_of(cookie) == 0 {
        return None;
    }
    Some(store.unmap_of(cookie, words))
}

// Takes a buffer away that has no page.
fn destroys(store: &mut Store, cookie: u64) -> bool
    ensures { (stock_of store.new).mapped ≡ (stock_of store.old).mapped }
{
    if store.held_of(cookie) != 0 {
        return false;
    }
    store.destroy(cookie);
    true
}

// Takes all buffers away that have no page.
fn clears(store: &mut Store) -> bool {
    if !store.is_bare() {
        return false;
    }
    store.clear();
    true
}

#[test]
fn gives_up_pages_in_order(rt: HostRuntime) -> Result<(), Fail> {
    let mut words = Domain { frames: 100 };
    let mut store = Store::new(rt.alloc())?;
    assert!(rt; store.is_bare());
    make(rt.alloc(), &mut store, &mut words, 7, 10, 2)?;
    make(rt.alloc(), &mut store, &mut words, 8, 20, 1)?;
    make(rt.alloc(), &mut store, &mut words, 9, 30, 2)?;
    assert_eq!(rt; store.check(&asks(8, 1)), Err(Refused::Exists));
    let Some(pages) = mapped(rt.alloc(), &mut words, 40, 2)? else {
        return Err("no pages".into());
    };
    store.keep(pages);
    assert_eq!(rt;
        frames(rt.alloc(), &store)?.as_slice(),
        [41, 42, 11, 12, 21, 31, 32].as_slice()
    );
    assert!(rt; !store.is_bare());
    for gref in [41, 42] {
        assert_eq!(rt; unmaps(&mut store, &mut words), Some(cleared(gref)));
    }
    for (cookie, held, gref) in [(8, 1, 21), (9, 2, 31), (9, 1, 32)] {
        assert_eq!(rt; store.held_of(cookie), held);
        assert_eq!(rt;
            unmaps_of(&mut store, cookie, &mut words),
            Some(cleared(gref))
        );
    }
    assert_eq!(rt; unmaps_of(&mut store, 9, &mut words), None);
    assert_eq!(rt; frames(rt.alloc(), &store)?.as_slice(), [11, 12].as_slice());
    gives_up_in_order();
    frees_in_order();
    keeps_pages();
    Ok(())
}

#[test]
fn takes_away_buffers(rt: HostRuntime) -> Result<(), Fail> {
    let mut words = Domain { frames: 100 };
    let mut store = Store::new(rt.alloc())?;
    make(rt.alloc(), &mut store, &mut words, 5, 10, 1)?;
    make(rt.alloc(), &mut store, &mut words, 6, 20, 2)?;
    assert!(rt; !destroys(&mut store, 5));
    assert_eq!(rt; unmaps_of(&mut store, 5, &mut words), Some(cleared(11)));
    assert!(rt; store.is_live(5) && destroys(&mut store, 5) && !store.is_live(5));
    assert_eq!(rt; frames(rt.alloc(), &store)?.as_slice(), [21, 22].as_slice());
    make(rt.alloc(), &mut store, &mut words, 5, 30, 1)?;
    assert_eq!(rt;
        frames(rt.alloc(), &store)?.as_slice(),
        [21, 22, 31].as_slice()
    );
    for gref in [21, 22, 31] {
        assert!(rt; !clears(&mut store));
        assert_eq!(rt; unmaps(&mut store, &mut words), Some(cleared(gref)));
    }
    assert!(rt; store.is_live(5) && store.is_live(6));
    assert!(rt; clears(&mut store) && !store.is_live(5) && !store.is_live(6));
    Ok(())
}
