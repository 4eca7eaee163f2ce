//! What nodes, states and connections come to.

ghost use Rattle.xenbus_states.specs.Bus.{CausesStay, RowsFollowActions};
ghost use Rattle.xenbus_states.specs.Connection.{RemembersWhatItHeard};
ghost use Rattle.xenbus_states.specs.Needs.{FindsFirstFault, FindsNoFault};
ghost use Rattle.xenbus_states.specs.Nodes.{NodesStandApart};
ghost use Rattle.xenbus_states.specs.States.{StatesReadBack, NumbersReadBack};

/// Each state comes back from its number, and each number from its state.
pub fn states_read_back()
    ensures states { StatesReadBack }
    ensures numbers { NumbersReadBack }
{}

/// A node has the value that was set last, and setting it leaves all others as they were.
pub fn nodes_stand_apart()
    ensures { NodesStandApart }
{}

/// Of the nodes that a device needs, the fault that is found is that of the first that is missing or holds no number, and none is
/// found exactly where all hold numbers.
pub fn finds_the_first_fault()
    ensures first { FindsFirstFault }
    ensures none { FindsNoFault }
{}

/// A connection remembers the first ending state that the frontend set since Connect began, and whether it set
/// Initialising since then.
pub fn remembers_what_it_heard()
    ensures { RemembersWhatItHeard }
{}

/// The rows of a connection are those of what its backend is to do, and a cause to close it stays one, whatever the frontend sets.
pub fn rows_follow_the_actions()
    ensures follow { RowsFollowActions }
    ensures stay { CausesStay }
{}
