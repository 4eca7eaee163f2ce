//! Lists of pages that a device holds.

ghost use Rattle.std.specs.Prelude.{◌≡◌, ◌<◌, List, length, slice_get, Some};
ghost use Rattle.pv_words.specs.declared.grant.Hold.{Hold};

use crate::grant::Hold;

/// The pages of a buffer, in order, each held from its mapping to its unmapping.
pub trait PageList {
    /// The list of the holds.
    ghost holds: { Self → List Hold };

    /// How many pages there are.
    fn len(&self) -> u32
        ensures { result ≡ length (holds self.now) };

    /// The page of this number, from 0.
    fn get(&self, i: u32) -> Hold
        requires { i < length (holds self.now) }
        ensures { slice_get (holds self.now) i ≡ Some result };
}
