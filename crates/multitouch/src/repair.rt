// The group that takes what was told to what is real.

ghost use Rattle.std.specs.Prelude.{◌≡◌, ◌+◌, ◌≤◌, ◌++◌, length, map};
ghost use Rattle.kbd_wire.specs.declared.Event.TheVariants.{Key};
ghost use Rattle.multitouch.specs.Panel.{code_unless};
ghost use Rattle.multitouch.specs.Repair.{codes_without, item, items_below, repair_of};

use crate::contact::Contact;
use crate::group::Group;
use crate::panel::{CONTACT_LIMIT, Panel};
use kbd_wire::Event;

// What there is to say, and a SYN.
pub(crate) fn repair_group(told: &Panel, real: &Panel) -> Group
    ensures { result ≡ repair_of told.now real.now }
{
    let mut group = Group::new();
    push_keys(&mut group, told, real, false);
    push_keys(&mut group, real, told, true);
    push_contacts(&mut group, told, real);
    group.push(Event::Syn);
    group
}

// The keys that are down on one panel and not on the other.
fn push_keys(group: &mut Group, these: &Panel, those: &Panel, is_pressed: bool)
    requires { length group.old ≤ 16 }
    ensures keys { group.new ≡ group.old ++ map (Key is_pressed) (codes_without these.now.keys those.now.keys) }
    ensures few { length group.new ≤ length group.old + 16 }
{
    for code in these.codes() {
        push_key(group, those, *code, is_pressed);
    }
}

// A key, unless it is down on the other panel.
fn push_key(group: &mut Group, those: &Panel, code: u32, is_pressed: bool)
    requires { length group.old ≤ 32 }
    ensures key { group.new ≡ group.old ++ map (Key is_pressed) (code_unless those.now code) }
    ensures few { length group.new ≤ length group.old + 1 }
{
    if !those.is_key_down(code) {
        group.push(Event::Key(is_pressed, code));
    }
}

// What there is to say of each contact.
fn push_contacts(group: &mut Group, told: &Panel, real: &Panel)
    requires { length group.old ≤ 32 }
    ensures contacts { group.new ≡ group.old ++ items_below told.now.contacts real.now.contacts 16 }
    ensures few { length group.new ≤ 48 }
{
    for id in 0..CONTACT_LIMIT {
        push_item(group, id, told.contact(id), real.contact(id));
    }
}

// What there is to say of a contact, as it was told and as it is.
fn push_item(group: &mut Group, id: u8, told: Option<Contact>, real: Option<Contact>)
    requires { length group.old ≤ 47 }
    ensures item { group.new ≡ group.old ++ item id told real }
    ensures few { length group.new ≤ length group.old + 1 }
{
    match (told, real) {
        (None, None) => {}
        (Some(_), None) => group.push(Event::Up(id)),
        (None, Some(contact)) => group.push(Event::Down(id, contact.x, contact.y)),
        (Some(before), Some(contact)) => {
            if before != contact {
                group.push(Event::Move(id, contact.x, contact.y));
            }
        }
    }
}
