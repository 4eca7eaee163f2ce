//! What devices say, their states and their nodes.

ghost use Rattle.std.specs.Prelude.{◌≡◌, ◌+◌, ◌<◌, ◌≤◌, length};
ghost use Rattle.report_text.specs.Devices.{bus_fields, node_fields, notify_fields, reason_fields, said_fields};
ghost use Rattle.report_text.specs.Fields.{with_fields, joined};

use crate::builder::{Line, MAX_LINE_LEN};
use crate::grants::push_refusal;
use pv_words::{DevId, End, NodeFault, NodeValue, Reason, Said, State};
use xenbus_states::number_of;

/// Writes that an end of a device took a state.
pub(crate) fn write_bus(out: &mut Line, dev: DevId, end: End, state: State)
    ensures text { out.new ≡ joined (bus_fields dev.0 end state) }
    ensures length { length out.new < MAX_LINE_LEN }
{
    out.start(b"bus", &[u32::from(dev.0)]);
    match end {
        End::Front => out.push(b" front", &[number_of(state)]),
        End::Back => out.push(b" back", &[number_of(state)]),
    }
}

/// Writes that a node was set.
pub(crate) fn write_node(out: &mut Line, dev: DevId, part: u8, key: u8, value: NodeValue)
    ensures text { out.new ≡ joined (node_fields dev.0 part key value) }
    ensures length { length out.new < MAX_LINE_LEN }
{
    out.start(
        b"node",
        &[u32::from(dev.0), u32::from(part), u32::from(key)],
    );
    match value {
        NodeValue::Absent => out.push_text(b" absent"),
        NodeValue::Bad => out.push_text(b" bad"),
        NodeValue::Number(number) => out.push_number(number),
    }
}

/// Adds why a device closed its connection.
fn push_reason(out: &mut Line, reason: Reason)
    requires { length out.old + 36 ≤ MAX_LINE_LEN }
    ensures text { out.new ≡ with_fields out.old (reason_fields reason) }
    ensures length { length out.new ≤ length out.old + 36 }
{
    match reason {
        Reason::Asked(state) => out.push(b" asked", &[number_of(state)]),
        Reason::Overrun(producer, replied) => out.push(b" overrun", &[producer, replied]),
        Reason::BadCons(producer, consumer) => out.push(b" badcons", &[producer, consumer]),
        Reason::Spent(producer) => out.push(b" spent", &[producer]),
        Reason::Refused(refusal) => {
            out.push_text(b" refused");
            push_refusal(out, refusal);
        }
        Reason::Node(part, key, fault) => {
            out.push(b" node", &[u32::from(part), u32::from(key)]);
            match fault {
                NodeFault::Missing => out.push_text(b" missing"),
                NodeFault::Bad => out.push_text(b" bad"),
            }
        }
    }
}

/// Adds that the frontend was notified, where it was.
fn push_notify(out: &mut Line, notified: bool)
    requires { length out.old + 7 ≤ MAX_LINE_LEN }
    ensures text { out.new ≡ with_fields out.old (notify_fields notified) }
    ensures length { length out.new ≤ length out.old + 7 }
{
    if notified {
        out.push_text(b" notify");
    }
}

/// Writes what a device says.
pub(crate) fn write_said(out: &mut Line, dev: DevId, said: Said)
    ensures text { out.new ≡ joined (said_fields dev.0 said) }
    ensures length { length out.new < MAX_LINE_LEN }
{
    let n = u32::from(dev.0);
    match said {
        Said::State(state) => write_bus(out, dev, End::Back, state),
        Said::Request(part, id, operation) => out.start(
            b"request",
            &[n, u32::from(part), u32::from(id), u32::from(operation)],
        ),
        Said::Denied(refusal) => {
            out.start(b"denied", &[n]);
            push_refusal(out, refusal);
        }
        Said::Replied(part, id, status, notified) => {
            out.start(b"reply", &[n, u32::from(part), u32::from(id)]);
            out.push_signed(status);
            push_notify(out, notified);
        }
        Said::Raised(part, cookie) => {
            out.start(b"flip", &[n, u32::from(part)]);
            out.push_long(cookie);
        }
        Said::Pos(part, position) => {
            out.start(b"pos", &[n, u32::from(part)]);
            out.push_long(position);
        }
        Said::Full(part) => out.start(b"full", &[n, u32::from(part)]),
        Said::Blank(part) => out.start(b"blank", &[n, u32::from(part)]),
        Said::Shown(part, pixels, mark) => out.start(b"shown", &[n, u32::from(part), pixels, mark]),
        Said::Moved(part, octets, mark) => out.start(b"moved", &[n, u32::from(part), octets, mark]),
        Said::Published(events) => out.start(b"published", &[n, events]),
        Said::Closed(reason) => {
            out.start(b"closed", &[n]);
            push_reason(out, reason);
        }
    }
}
