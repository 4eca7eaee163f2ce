//! What hosts tell devices, and why it is refused.

ghost use Rattle.std.specs.Prelude.{◌≡◌, ◌+◌, ◌≤◌, length};
ghost use Rattle.report_text.specs.Fields.{with_fields};
ghost use Rattle.report_text.specs.Hosts.{event_fields, host_refusal_fields, touch_fields};

use crate::builder::{Line, MAX_LINE_LEN};
use pv_words::{HostEvent, HostRefusal, Touch};

/// Adds why a host event was refused.
pub(crate) fn push_host_refusal(out: &mut Line, refusal: HostRefusal)
    requires { length out.old + 23 ≤ MAX_LINE_LEN }
    ensures text { out.new ≡ with_fields out.old (host_refusal_fields refusal) }
    ensures length { length out.new ≤ length out.old + 23 }
{
    match refusal {
        HostRefusal::NotConnected => out.push_text(b" notconnected"),
        HostRefusal::Full => out.push_text(b" full"),
        HostRefusal::AlreadyDown(contact) => out.push(b" alreadydown", &[u32::from(contact)]),
        HostRefusal::NotDown(contact) => out.push(b" notdown", &[u32::from(contact)]),
        HostRefusal::TooMany(contact) => out.push(b" toomany", &[u32::from(contact)]),
        HostRefusal::KeyIsDown(code) => out.push(b" keyisdown", &[code]),
        HostRefusal::KeyIsUp(code) => out.push(b" keyisup", &[code]),
        HostRefusal::TooManyKeys(code) => out.push(b" toomanykeys", &[code]),
    }
}

/// Adds what a host does to a contact.
fn push_touch(out: &mut Line, touch: Touch)
    requires { length out.old + 46 ≤ MAX_LINE_LEN }
    ensures text { out.new ≡ with_fields out.old (touch_fields touch) }
    ensures length { length out.new ≤ length out.old + 46 }
{
    match touch {
        Touch::Down(contact, x, y) => {
            out.push(b" touch down", &[u32::from(contact)]);
            out.push_signed(x);
            out.push_signed(y);
        }
        Touch::Up(contact) => out.push(b" touch up", &[u32::from(contact)]),
        Touch::Move(contact, x, y) => {
            out.push(b" touch move", &[u32::from(contact)]);
            out.push_signed(x);
            out.push_signed(y);
        }
    }
}

/// Adds what a host tells a device.
pub(crate) fn push_event(out: &mut Line, event: HostEvent)
    requires { length out.old + 46 ≤ MAX_LINE_LEN }
    ensures text { out.new ≡ with_fields out.old (event_fields event) }
    ensures length { length out.new ≤ length out.old + 46 }
{
    match event {
        HostEvent::Blank(connector) => out.push(b" blank", &[u32::from(connector)]),
        HostEvent::Show(connector) => out.push(b" show", &[u32::from(connector)]),
        HostEvent::Tick(stream, frames) => out.push(b" tick", &[u32::from(stream), frames]),
        HostEvent::Touch(touch) => push_touch(out, touch),
        HostEvent::Key(code, pressed) => out.push(b" key", &[code, u32::from(pressed)]),
        HostEvent::Motion(x, y, z) => {
            out.push_text(b" motion");
            out.push_signed(x);
            out.push_signed(y);
            out.push_signed(z);
        }
        HostEvent::Position(x, y, z) => {
            out.push_text(b" position");
            out.push_signed(x);
            out.push_signed(y);
            out.push_signed(z);
        }
    }
}
