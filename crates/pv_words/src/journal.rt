//! The journal of a run.

ghost use Rattle.std.specs.Prelude.{◌≡◌, ◌+◌, ◌-◌, ◌^◌, ◌<◌, ◌≤◌, ◌↔◌, ℕ, min, [], ◌∷◌, ◌++◌, length, slice_get, Some, IsTrue, OnOk, OnErr};

use crate::entry::Entry;
use std::alloc::{AllocError, Global};
use std::marker::Model;

/// How many entries a journal may have.
pub const JOURNAL_LIMIT: u32 = 8388608;

/// The entries of a run, in order, seen as the list of them and the number of further ones that have room.
#[derive(Drop)]
pub struct Journal {
    entries: Vec<Entry>,
}

impl Model for Journal {
    ghost use Rattle.std.specs.Prelude.{◌-◌, ◌≤◌, vec_len, vec_capacity};
    ghost use Rattle.pv_words.specs.Room.{Book};

    ghost Value = { Book };

    ghost view = { λ j. record { entries = j.entries.items; spare = vec_capacity j.entries - vec_len j.entries } };

    ghost invariant = { λ j. vec_len j.entries ≤ 8388608 };
}

impl Journal {
    /// A journal with no entry.
    pub fn new(alloc: Global) -> Journal
        ensures { result.entries ≡ [] }
    {
        Journal {
            entries: Vec::new(alloc),
        }
    }

    /// Makes room for `n` further entries. Where memory is refused, nothing changes.
    pub fn reserve(&mut self, n: u32) -> Result<(), AllocError>
        ensures entries { self.new.entries ≡ self.old.entries }
        ensures ok { OnOk result (n ≤ self.new.spare) }
        ensures err { OnErr result (self.new ≡ self.old) }
    {
        self.entries.reserve(n as usize)
    }

    /// For how many further entries there is room.
    pub fn spare(&self) -> u32
        ensures { result ≡ min self.now.spare (2 ^ 32 - 1) }
    {
        let room = self.entries.capacity() - self.entries.len();
        room.min(u32::MAX as usize) as u32
    }

    /// Appends an entry. It takes no memory.
    pub fn push(&mut self, entry: Entry)
        requires room { 0 < self.old.spare }
        requires below { length self.old.entries < JOURNAL_LIMIT }
        ensures pushed { self.new.entries ≡ self.old.entries ++ entry ∷ [] }
        ensures room { self.old.spare ≤ self.new.spare + 1 }
    {
        self.entries.push_reserved(entry);
    }

    /// How many entries it has.
    pub fn len(&self) -> u32
        ensures length { result ≡ length self.now.entries }
        ensures limit { result ≤ JOURNAL_LIMIT }
    {
        self.entries.len() as u32
    }

    pub fn is_empty(&self) -> bool
        ensures { IsTrue result ↔ (self.now.entries ≡ []) }
    {
        self.entries.is_empty()
    }

    /// The entry of this number, from 0.
    pub fn at(&self, i: u32) -> Entry
        requires { i < length self.now.entries }
        ensures { slice_get self.now.entries i ≡ Some result }
    {
        self.entries[i as usize]
    }

    /// The entries, in order. To walk them all, this is quicker than a call of `at` for each.
    pub fn entries(&self) -> Entries<'_>
        ensures { result ≡ self.now.entries }
    {
        Entries {
            rest: &self.entries,
        }
    }
}

/// The entries of a journal, in order, seen as the list of those that are still to come.
#[derive(Drop)]
pub struct Entries<'a> {
    rest: &'a [Entry],
}

impl<'a> Model for Entries<'a> {
    ghost use Rattle.std.specs.Prelude.{List};
    ghost use Rattle.pv_words.specs.declared.entry.Entry.{Entry};

    ghost Value = { List Entry };

    ghost view = { λ entries. entries.rest.now };
}

impl<'a> Iterator for Entries<'a> {
    type Item = Entry;

    ghost use Rattle.std.specs.Iterator.{YieldsFirst, item_count};

    ghost next_gives = { YieldsFirst (λ rest. rest) };

    ghost remaining = { item_count (λ rest. rest) };

    fn next(&mut self) -> Option<Entry> {
        let (first, others) = self.rest.split_first()?;
        self.rest = others;
        Some(*first)
    }
}

/// Why a play stopped before its end.
#[derive(Clone, Copy, Debug, PartialEq, Eq)]
pub enum Stop {
    /// A further entry was due, and the journal has as many as it may have.
    JournalFull,
    OutOfMemory,
}
