use super::*;
use pv_words::{NodeFault, NodeValue, State};

#[test]
fn states_by_number(rt: HostRuntime) {
    for (n, want) in [
        (0, Some(State::Unknown)),
        (1, Some(State::Initialising)),
        (2, Some(State::InitWait)),
        (3, Some(State::Initialised)),
        (4, Some(State::Connected)),
        (5, Some(State::Closing)),
        (6, Some(State::Closed)),
        (7, Some(State::Reconfiguring)),
        (8, Some(State::Reconfigured)),
        (9, None),
        (4_294_967_295, None),
    ] {
        assert_eq!(rt; state_from_number(n), want, "of {n}");
        if let Some(state) = want {
            assert_eq!(rt; number_of(state), n);
        }
    }
    states_read_back();
}

#[test]
fn nodes_that_a_device_needs(rt: HostRuntime) {
    let mut nodes = Nodes::new();
    nodes.set(0, 0, NodeValue::Number(0));
    nodes.set(3, 3, NodeValue::Number(4_294_967_295));
    nodes.set(1, 2, NodeValue::Bad);
    for (part, key, want) in [
        (0, 0, Ok(0)),
        (0, 1, Err(NodeFault::Missing)),
        (1, 2, Err(NodeFault::Bad)),
        (2, 1, Err(NodeFault::Missing)),
        (3, 3, Ok(4_294_967_295)),
    ] {
        assert_eq!(rt; nodes.need(part, key), want, "key {key} of part {part}");
    }
    nodes_stand_apart();
    finds_the_first_fault();
}

#[test]
fn a_connection_and_the_next(rt: HostRuntime) {
    let mut back = Back::new();
    assert_eq!(rt; back.back(), State::InitWait);
    assert_eq!(rt; back.front(), State::Initialising);
    assert_eq!(rt; back.action(), Action::Stay);
    back.front_set(State::Closing);
    back.front_set(State::Initialised);
    assert_eq!(rt; back.front(), State::Initialised);
    assert_eq!(rt; back.action(), Action::Connect);
    if back.action() == Action::Connect {
        back.began();
    }
    back.moved(State::Connected);
    assert_eq!(rt; back.action(), Action::Stay);
    back.front_set(State::Closing);
    back.front_set(State::Initialising);
    assert_eq!(rt; back.action(), Action::Close(State::Closing));
    back.moved(State::Closed);
    assert_eq!(rt; back.action(), Action::Renew);
    back.moved(State::InitWait);
    assert_eq!(rt; back.action(), Action::Stay);
    assert_eq!(rt; back.back(), State::InitWait);
    remembers_what_it_heard();
    rows_follow_the_actions();
}
