//! One step of a device.

ghost use Rattle.std.specs.Prelude.{◌≡◌, None, Some};

use pv_words::{Access, Said};

/// What one step of a device did. A step with neither is idle.
#[derive(Clone, Copy, Debug, PartialEq, Eq)]
pub struct Step {
    pub access: Option<Access>,
    /// What the device said; it rides on the access, if there is one.
    pub said: Option<Said>,
}

impl Step {
    /// A step in which the device was idle.
    pub fn idle() -> Step
        ensures access { result.access ≡ None }
        ensures said { result.said ≡ None }
    {
        Step {
            access: None,
            said: None,
        }
    }

    /// An access on which nothing is said.
    pub fn quiet(access: Access) -> Step
        ensures access { result.access ≡ Some access }
        ensures said { result.said ≡ None }
    {
        Step {
            access: Some(access),
            said: None,
        }
    }

    /// Something that is said in a step of its own.
    pub fn saying(said: Said) -> Step
        ensures access { result.access ≡ None }
        ensures said { result.said ≡ Some said }
    {
        Step {
            access: None,
            said: Some(said),
        }
    }
}
