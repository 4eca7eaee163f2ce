//! The nodes that a frontend sets for its device.

ghost use Rattle.std.specs.Prelude.{◌≡◌, ◌<◌};
ghost use Rattle.xenbus_states.specs.Nodes.{no_nodes, node_at, with_node, needed};

use pv_words::{NodeFault, NodeValue};
use std::marker::Model;

/// How many parts, connectors or streams, a device may have.
pub const PARTS: u8 = 4;

/// How many keys a part may have.
pub const KEYS: u8 = 4;

/// What each key of each part of a device holds, seen as the list of these values, part by part.
#[derive(Clone, Copy, Debug, PartialEq, Eq)]
pub struct Nodes {
    values: [NodeValue; 16],
}

impl Model for Nodes {
    ghost use Rattle.std.specs.Prelude.{List};
    ghost use Rattle.pv_words.specs.declared.device.NodeValue.{NodeValue};

    ghost Value = { List NodeValue };

    ghost view = { λ nodes. nodes.values };

    ghost inverse = { λ values. record { values = values } };
}

impl Nodes {
    /// No node is there.
    pub fn new() -> Nodes
        ensures { result ≡ no_nodes }
    {
        Nodes {
            values: [NodeValue::Absent; 16],
        }
    }

    /// Sets the node of a part, from 0, and a key, from 0.
    pub fn set(&mut self, part: u8, key: u8, v: NodeValue)
        requires part { part < PARTS }
        requires key { key < KEYS }
        ensures { self.new ≡ with_node self.old part key v }
    {
        self.values[4 * part as usize + key as usize] = v;
    }

    /// The number that a node holds: Missing where the node isn't there, Bad where it holds something else.
    pub fn need(&self, part: u8, key: u8) -> Result<u32, NodeFault>
        requires part { part < PARTS }
        requires key { key < KEYS }
        ensures { result ≡ needed (node_at self.now part key) }
    {
        match self.values[4 * part as usize + key as usize] {
            NodeValue::Absent => Err(NodeFault::Missing),
            NodeValue::Bad => Err(NodeFault::Bad),
            NodeValue::Number(n) => Ok(n),
        }
    }
}
