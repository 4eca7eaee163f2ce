//! The xenbus of a device as its backend sees it: the nodes that a frontend sets, the states of both ends
//! (`xen/include/public/io/xenbus.h`), and what the backend is to do.
#![tactic(auto)]

pub mod back;
pub mod laws;
pub mod nodes;
pub mod state;

pub use back::{Action, Back};
pub use laws::{
    finds_the_first_fault, nodes_stand_apart, remembers_what_it_heard, rows_follow_the_actions,
    states_read_back,
};
pub use nodes::{KEYS, Nodes, PARTS};
pub use state::{number_of, state_from_number};

#[cfg(test)]
mod tests;
