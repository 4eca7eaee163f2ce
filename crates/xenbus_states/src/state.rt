//! The numbers of states.

ghost use Rattle.std.specs.Prelude.{◌≡◌};
ghost use Rattle.xenbus_states.specs.States.{number_of, state_of};

use pv_words::State;

/// The number of a state (`enum xenbus_state` of `xenbus.h`).
pub fn number_of(state: State) -> u32
    ensures { result ≡ number_of state }
{
    match state {
        State::Unknown => 0,
        State::Initialising => 1,
        State::InitWait => 2,
        State::Initialised => 3,
        State::Connected => 4,
        State::Closing => 5,
        State::Closed => 6,
        State::Reconfiguring => 7,
        State::Reconfigured => 8,
    }
}

/// The state of this number (`enum xenbus_state` of `xenbus.h`). Above 8 there is none.
pub fn state_from_number(n: u32) -> Option<State>
    ensures { result ≡ state_of n }
{
    match n {
        0 => Some(State::Unknown),
        1 => Some(State::Initialising),
        2 => Some(State::InitWait),
        3 => Some(State::Initialised),
        4 => Some(State::Connected),
        5 => Some(State::Closing),
        6 => Some(State::Closed),
        7 => Some(State::Reconfiguring),
        8 => Some(State::Reconfigured),
        _ => None,
    }
}
