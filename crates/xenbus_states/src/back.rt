//! What a backend is to do, by the states of both ends.

ghost use Rattle.std.specs.Prelude.{◌≡◌};
ghost use Rattle.xenbus_states.specs.declared.back.Action.TheVariants.{Connect};
ghost use Rattle.xenbus_states.specs.Connection.{first_connection, heard, action_of, begun, moved_to, is_ending, may_connect};

use pv_words::State;
use std::marker::Model;

/// What a backend is to do.
#[derive(Clone, Copy, Debug, PartialEq, Eq)]
pub enum Action {
    /// Nothing, as far as the states of both ends say.
    Stay,
    /// Connect to the frontend.
    Connect,
    /// Close the connection, since the frontend set this ending state.
    Close(State),
    /// Wait for a frontend again.
    Renew,
}

/// The backend's state, and what it remembers of those that the frontend set.
#[derive(Clone, Copy, Debug, PartialEq, Eq)]
pub struct Back {
    back: State,
    front: State,
    // The first ending state that the frontend set since Connect began.
    ending: Option<State>,
    // Whether the frontend set Initialising since Connect began.
    again: bool,
}

impl Model for Back {
    ghost use Rattle.xenbus_states.specs.Connection.{Connection};

    ghost Value = { Connection };

    ghost view = { λ b. record { back = b.back; front = b.front; ending = b.ending; again = b.again } };

    ghost inverse = { λ c. record { back = c.back; front = c.front; ending = c.ending; again = c.again } };
}

/// Whether a frontend ends its connection by this state.
fn is_ending(state: State) -> bool
    ensures { result ≡ is_ending state }
{
    match state {
        State::Unknown
        | State::Initialising
        | State::Closing
        | State::Closed
        | State::Reconfiguring => true,
        State::InitWait | State::Initialised | State::Connected | State::Reconfigured => false,
    }
}

/// Whether a frontend in this state is ready for a backend that waits for it.
fn may_connect(state: State) -> bool
    ensures { result ≡ may_connect state }
{
    match state {
        State::Initialised | State::Connected => true,
        State::Unknown
        | State::Initialising
        | State::InitWait
        | State::Closing
        | State::Closed
        | State::Reconfiguring
        | State::Reconfigured => false,
    }
}

impl Back {
    /// The backend of a device that was declared. It waits, and its frontend is initialising.
    pub fn new() -> Back
        ensures { result ≡ first_connection }
    {
        Back {
            back: State::InitWait,
            front: State::Initialising,
            ending: None,
            again: false,
        }
    }

    /// The backend's state.
    pub fn back(&self) -> State
        ensures { result ≡ self.now.back }
    {
        self.back
    }

    /// The frontend's state.
    pub fn front(&self) -> State
        ensures { result ≡ self.now.front }
    {
        self.front
    }

    /// Hears that the frontend set its state.
    pub fn front_set(&mut self, s: State)
        ensures { self.new ≡ heard self.old s }
    {
        if self.ending.is_none() && is_ending(s) {
            self.ending = Some(s);
        }
        if s == State::Initialising {
            self.again = true;
        }
        self.front = s;
    }

    /// What the backend is to do.
    pub fn action(&self) -> Action
        ensures { result ≡ action_of self.now }
    {
        match self.back {
            State::InitWait => {
                if may_connect(self.front) {
                    Action::Connect
                } else {
                    Action::Stay
                }
            }
            State::Connected => match self.ending {
                Some(s) => Action::Close(s),
                None => Action::Stay,
            },
            State::Closed => {
                if self.again {
                    Action::Renew
                } else {
                    Action::Stay
                }
            }
            State::Unknown
            | State::Initialising
            | State::Initialised
            | State::Closing
            | State::Reconfiguring
            | State::Reconfigured => Action::Stay,
        }
    }

    /// Hears that Connect begins, and forgets what the frontend set before.
    pub fn began(&mut self)
        requires { action_of self.old ≡ Connect }
        ensures { self.new ≡ begun self.old }
    {
        self.ending = None;
        self.again = false;
    }

    /// Hears that the backend took this state.
    pub fn moved(&mut self, s: State)
        ensures { self.new ≡ moved_to self.old s }
    {
        self.back = s;
    }
}
