// What no clause says: calls that succeed, and each public call once.
ghost use Rattle.std.specs.Prelude.{◌≡◌, ◌∷◌, [], IfOk};
ghost use Rattle.pv_words.specs.Layout.{frames_in, grants_in};
ghost use Rattle.pv_words.specs.Sizes.{AreSizes, frames_by, grants_by};

use super::*;
use std::alloc::{AllocError, Global};
use std::test::Fail;

fn one_size() -> DomainSize
    ensures dom { result.dom.0 ≡ 1 }
    ensures frames { result.frames ≡ 1 }
    ensures grants { result.grants ≡ 2 }
{
    DomainSize {
        dom: DomId(1),
        kind: Kind::Wild,
        frames: 1,
        grants: 2,
        first: Frame(0),
    }
}

fn one_device() -> DeviceSetup {
    DeviceSetup {
        dev: DevId(1),
        dom: DomId(1),
        kind: DeviceKind::Display(1),
    }
}

// What each call finds, of a page and of a grant entry of domain 1.
fn seen_by_each(words: &mut ListWords) -> [u32; 8]
    requires frames { frames_in words.old.blocks 1 ≡ 1 }
    requires grants { grants_in words.old.blocks 1 ≡ 2 }
{
    let cell = Place::Cell(DomId(1), Frame(0), 1023);
    let flags = Place::Grant(DomId(1), GrantRef(1), Half::Flags);
    words.turn(Who::Dom(DomId(1)));
    words.store(cell, 7);
    words.store(flags, 1);
    words.turn(Who::Dev(DevId(1)));
    let stored = words.load(cell);
    let kept = words.swap_if(flags, 2, 3);
    let swapped = words.swap_if(flags, 1, 25);
    let cleared = words.clear(flags, 24);
    [
        words.frames(DomId(1)),
        words.grants(DomId(1)),
        words.frames(DomId(200)),
        stored,
        kept,
        swapped,
        cleared,
        words.load(flags),
    ]
}

// Domain 1, with a frame and 2 grant entries.
fn one_domain(alloc: Global) -> Result<Sizes, AllocError>
    ensures sizes { IfOk result (λ s. AreSizes s) }
    ensures frames { IfOk result (λ s. frames_by s 1 ≡ 1) }
    ensures grants { IfOk result (λ s. grants_by s 1 ≡ 2) }
{
    let mut list = Vec::new(alloc);
    list.push(one_size())?;
    Ok(Sizes::new(list))
}

#[test]
fn each_access_finds_what_was_written(rt: HostRuntime) -> Result<(), Fail> {
    let sizes = one_domain(rt.alloc())?;
    let mut words = ListWords::new(rt.alloc(), &sizes)?;
    assert_eq!(rt; seen_by_each(&mut words), [1, 2, 0, 7, 1, 1, 25, 1]);
    Ok(())
}

#[test]
fn a_journal_has_its_entries_in_order(rt: HostRuntime) -> Result<(), Fail> {
    let mut journal = Journal::new(rt.alloc());
    assert!(rt; journal.is_empty());
    journal.reserve(2)?;
    assert!(rt; journal.spare() >= 2);
    journal.push(Entry::Wake(DevId(1)));
    journal.push(Entry::Wake(DevId(2)));
    assert_eq!(rt; journal.len(), 2);
    assert_eq!(rt; journal.at(1), Entry::Wake(DevId(2)));
    let mut entries = journal.entries();
    assert_eq!(rt; entries.next(), Some(Entry::Wake(DevId(1))));
    assert_eq!(rt; entries.next(), Some(Entry::Wake(DevId(2))));
    assert_eq!(rt; entries.next(), None);
    Ok(())
}

#[test]
fn lists_of_declarations(rt: HostRuntime) -> Result<(), Fail> {
    let mut sizes = Vec::new(rt.alloc());
    sizes.push(one_size())?;
    assert_eq!(rt; Sizes::new(sizes).as_slice(), [one_size()].as_slice());
    let streams = Streams::Two(StreamKind::Playback, StreamKind::Capture);
    assert_eq!(rt; streams.count(), 2);
    let mut devices = Vec::new(rt.alloc());
    devices.push(one_device())?;
    assert_eq!(rt; Devices::new(devices).as_slice(), [one_device()].as_slice());
    Ok(())
}
