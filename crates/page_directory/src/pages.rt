//! The pages of a buffer.

ghost use Rattle.std.specs.Prelude.{◌≡◌, ◌<◌, ◌==◌, [], length, slice_get, Some};

use pv_words::{Hold, PageList};
use std::alloc::Global;
use std::marker::Model;
use std::mem;

/// The pages of a buffer, in order, as the holds of the device that mapped them. A contract sees the list of the holds.
#[derive(Drop)]
pub struct Pages {
    holds: Vec<Hold>,
}

impl Model for Pages {
    ghost use Rattle.std.specs.Prelude.{◌≤◌, List, vec_capacity};
    ghost use Rattle.pv_words.specs.declared.grant.Hold.{Hold};

    ghost Value = { List Hold };

    ghost view = { λ p. p.holds.items };

    ghost invariant = { λ p. vec_capacity p.holds ≤ 8192 };
}

impl Pages {
    ghost use Rattle.std.specs.Prelude.{◌≤◌, vec_capacity};

    /// The pages of these holds, of which there are at most 8192.
    pub(crate) fn new(holds: Vec<Hold>) -> Pages
        requires { vec_capacity holds ≤ 8192 }
        ensures { result ≡ holds.items }
    {
        Pages { holds }
    }

    /// No page.
    pub fn none(alloc: Global) -> Pages
        ensures { result ≡ [] }
    {
        Pages::new(Vec::new(alloc))
    }

    /// Takes the pages out, so that none is left.
    pub fn take(&mut self) -> Pages
        ensures pages { result ≡ self.old }
        ensures none { self.new ≡ [] }
    {
        let alloc = *self.holds.allocator();
        Pages::new(mem::replace(&mut self.holds, Vec::new(alloc)))
    }

    /// How many pages there are, at most 8192.
    pub fn len(&self) -> u32
        ensures count { result ≡ length self.now }
        ensures few { result ≤ 8192 }
    {
        self.holds.len() as u32
    }

    pub fn is_empty(&self) -> bool
        ensures { result ≡ (length self.now == 0) }
    {
        self.holds.is_empty()
    }

    /// The page of this number, from 0.
    pub fn get(&self, i: u32) -> Hold
        requires { i < length self.now }
        ensures { slice_get self.now i ≡ Some result }
    {
        self.holds[i as usize]
    }
}

impl PageList for Pages {
    ghost holds = { λ p. p };

    fn len(&self) -> u32 {
        self.len()
    }

    fn get(&self, i: u32) -> Hold {
        self.get(i)
    }
}
