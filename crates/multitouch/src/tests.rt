use super::*;
use kbd_wire::Event;
use pv_words::{HostRefusal, Touch};
use std::process::Abort;
use std::test::Fail;

// Publishes what is due, and compares its events with these.
fn publish(rt: &impl Abort, contacts: &mut Contacts, events: &[Event]) {
    assert!(rt; contacts.is_due());
    assert!(rt; contacts.under_way().is_none());
    contacts.begin();
    if let Some(group) = contacts.under_way() {
        assert_eq!(rt; group.events(), events);
    }
    assert!(rt; contacts.under_way().is_some());
    contacts.published();
}

#[test]
fn refuses_a_contact_by_the_first_cause(rt: HostRuntime) -> Result<(), Fail> {
    let mut contacts = Contacts::new(rt.alloc())?;
    for id in 0..16 {
        assert_eq!(rt; contacts.take(Touch::Up(id)), Err(HostRefusal::NotDown(id)));
        assert_eq!(rt;
            contacts.take(Touch::Move(id, 1, 2)),
            Err(HostRefusal::NotDown(id))
        );
        assert_eq!(rt; contacts.take(Touch::Down(id, 1, 2)), Ok(()));
        assert_eq!(rt;
            contacts.take(Touch::Down(id, 3, 4)),
            Err(HostRefusal::AlreadyDown(id))
        );
        assert_eq!(rt; contacts.take(Touch::Move(id, 1, 2)), Ok(()));
    }
    for id in [16, 255] {
        assert_eq!(rt; contacts.take(Touch::Up(id)), Err(HostRefusal::TooMany(id)));
        assert_eq!(rt;
            contacts.take(Touch::Move(id, 1, 2)),
            Err(HostRefusal::TooMany(id))
        );
        assert_eq!(rt;
            contacts.take(Touch::Down(id, 1, 2)),
            Err(HostRefusal::TooMany(id))
        );
    }
    for id in 0..16 {
        assert_eq!(rt; contacts.take(Touch::Up(id)), Ok(()));
        assert_eq!(rt; contacts.take(Touch::Up(id)), Err(HostRefusal::NotDown(id)));
    }
    Ok(())
}

#[test]
fn refuses_a_key_by_the_first_cause(rt: HostRuntime) -> Result<(), Fail> {
    let mut contacts = Contacts::new(rt.alloc())?;
    for code in (0..16).rev() {
        assert_eq!(rt; contacts.key(code, false), Err(HostRefusal::KeyIsUp(code)));
        assert_eq!(rt; contacts.key(code, true), Ok(()));
        assert_eq!(rt; contacts.key(code, true), Err(HostRefusal::KeyIsDown(code)));
    }
    assert_eq!(rt; contacts.key(16, true), Err(HostRefusal::TooManyKeys(16)));
    assert_eq!(rt; contacts.key(16, false), Err(HostRefusal::KeyIsUp(16)));
    for code in 0..16 {
        assert_eq!(rt; contacts.key(code, false), Ok(()));
        assert_eq!(rt; contacts.key(code, false), Err(HostRefusal::KeyIsUp(code)));
    }
    assert_eq!(rt; contacts.key(4_294_967_295, true), Ok(()));
    Ok(())
}

// Sixteen events that leave nothing to repair wait.
fn fill(contacts: &mut Contacts) {
    for _ in 0..16 {
        contacts.motion(-1, 2, 0);
    }
}

fn publish_all(rt: &impl Abort, contacts: &mut Contacts) {
    for _ in 0..16 {
        publish(rt, contacts, &[Event::Motion(-1, 2, 0)]);
    }
}

// All contacts come down and sixteen keys are pressed while no group fits in, and one repair tells them.
fn press_all(
    rt: &impl Abort,
    contacts: &mut Contacts,
    events: &mut Vec<Event>,
) -> Result<(), Fail> {
    fill(contacts);
    for n in (0..16).rev() {
        contacts.key(100 + u32::from(n), true)?;
        contacts.take(Touch::Down(n, 1, i32::from(n)))?;
    }
    publish_all(rt, contacts);
    for code in 100..116 {
        events.push(Event::Key(true, code))?;
    }
    for id in 0..16 {
        events.push(Event::Down(id, 1, i32::from(id)))?;
    }
    events.push(Event::Syn)?;
    publish(rt, contacts, events);
    Ok(())
}

#[test]
fn repairs_each_contact_and_each_key(rt: HostRuntime) -> Result<(), Fail> {
    let mut contacts = Contacts::new(rt.alloc())?;
    assert!(rt; !contacts.is_due());
    let mut events = Vec::new(rt.alloc());
    press_all(&rt, &mut contacts, &mut events)?;
    assert!(rt; !contacts.is_due());
    assert!(rt; contacts.repair().is_none());
    Ok(())
}

#[test]
fn repairs_in_both_directions(rt: HostRuntime) -> Result<(), Fail> {
    let mut contacts = Contacts::new(rt.alloc())?;
    let mut events = Vec::new(rt.alloc());
    press_all(&rt, &mut contacts, &mut events)?;
    fill(&mut contacts);
    for n in (0..16).rev() {
        contacts.key(100 + u32::from(n), false)?;
        contacts.key(2 * u32::from(n), true)?;
        contacts.take(Touch::Up(n))?;
    }
    for n in 0..8 {
        contacts.take(Touch::Down(2 * n, 1, 3))?;
    }
    publish_all(&rt, &mut contacts);
    events.clear();
    for code in 100..116 {
        events.push(Event::Key(false, code))?;
    }
    for code in 0..16 {
        events.push(Event::Key(true, 2 * code))?;
    }
    for id in 0..16 {
        if id % 2 == 1 {
            events.push(Event::Up(id))?;
        } else {
            events.push(Event::Move(id, 1, 3))?;
        }
    }
    events.push(Event::Syn)?;
    assert_eq!(rt; events.len(), 49);
    publish(&rt, &mut contacts, &events);
    assert!(rt; !contacts.is_due());
    Ok(())
}

#[test]
fn tells_a_lift_that_found_no_room(rt: HostRuntime) -> Result<(), Fail> {
    let mut contacts = Contacts::new(rt.alloc())?;
    contacts.take(Touch::Down(0, 10, 10))?;
    for k in 11..26 {
        contacts.take(Touch::Move(0, k, k))?;
    }
    contacts.take(Touch::Up(0))?;
    contacts.take(Touch::Down(1, 5, 5))?;
    assert_eq!(rt;
        contacts.take(Touch::Down(1, 5, 5)),
        Err(HostRefusal::AlreadyDown(1))
    );
    contacts.give_up();
    publish(&rt, &mut contacts, &[Event::Down(0, 10, 10), Event::Syn]);
    for k in 11..26 {
        publish(&rt, &mut contacts, &[Event::Move(0, k, k), Event::Syn]);
    }
    // What the host tells while a repair is published is told by the next one; a contact that came back is where it was.
    assert!(rt; contacts.is_due());
    assert!(rt; contacts.under_way().is_none());
    contacts.begin();
    contacts.key(30, true)?;
    contacts.take(Touch::Up(1))?;
    contacts.take(Touch::Down(1, 5, 5))?;
    if let Some(group) = contacts.under_way() {
        let told = [Event::Up(0), Event::Down(1, 5, 5), Event::Syn];
        assert_eq!(rt; group.events(), told.as_slice());
    }
    assert!(rt; contacts.under_way().is_some());
    contacts.published();
    publish(&rt, &mut contacts, &[Event::Key(true, 30), Event::Syn]);
    contacts.position(5, 6, 0);
    publish(&rt, &mut contacts, &[Event::Position(5, 6, 0)]);
    assert!(rt; !contacts.is_due());
    contacts.clear();
    assert_eq!(rt; contacts.take(Touch::Up(1)), Err(HostRefusal::NotDown(1)));
    groups_keep_up();
    contacts_take_turns();
    Ok(())
}
