//! The table, and what goes into one.

ghost use Rattle.std.specs.Prelude.{◌≡◌, ℕ, ◌+◌, ◌<◌, ◌≤◌, ◌↔◌, [], ◌∷◌, ◌++◌, length, slice_get, Some, None, IfOk, IsTrue, option_copied};
ghost use Rattle.cookie_table.specs.Cookies.{AreFew, value_of, without};

use crate::entries::{Entries, LIMIT, find, position, put, ranked, take, take_all, unused_entries};
use std::alloc::{AllocError, Global};
use std::marker::Model;

/// How many values there may be in a table at one time.
pub const TABLE_LIMIT: u32 = 64;

/// A value that a frontend knows by a cookie.
pub trait HasCookie {
    ghost cookie_of: { Self → ℕ };

    /// The frontend's name for the value.
    fn cookie(&self) -> u64
        ensures { result ≡ cookie_of self.now };
}

/// Up to 64 values under different cookies, in the order in which they came.
#[derive(Drop)]
pub struct Table<T: HasCookie + Drop> {
    entries: Entries<T>,
    // The keys of the values, in the order in which they came, and the keys whose entries are empty.
    order: Vec<usize>,
    others: Vec<usize>,
}

impl<T: HasCookie + Drop> Model for Table<T> {
    ghost use Rattle.std.specs.Prelude.{List};
    ghost use Rattle.cookie_table.specs.Entries.{IsRoomyTable, rows};

    ghost Value = { List T };

    ghost view = { λ t. rows t.entries t.order.items };

    ghost invariant = { λ t. IsRoomyTable T.cookie_of t.entries t.order t.others };
}

impl<T: HasCookie + Drop> Table<T> {
    /// A table with no value, and with the room for 64.
    pub fn new(alloc: Global) -> Result<Table<T>, AllocError>
        ensures { IfOk result (λ t. t ≡ []) }
    {
        let (entries, others) = unused_entries(alloc)?;
        let order = Vec::with_capacity(alloc, LIMIT)?;
        Ok(Table {
            entries,
            order,
            others,
        })
    }

    /// How many values there are, at most [`TABLE_LIMIT`].
    pub fn len(&self) -> u32
        ensures count { result ≡ length self.now }
        ensures few { AreFew T.cookie_of self.now }
    {
        self.order.len() as u32
    }

    /// Whether there is no value.
    pub fn is_empty(&self) -> bool
        ensures { IsTrue result ↔ (self.now ≡ []) }
    {
        self.len() == 0
    }

    /// The value of a cookie.
    pub fn get(&self, cookie: u64) -> Option<&T>
        ensures { option_copied result ≡ value_of T.cookie_of cookie self.now }
    {
        find(&self.entries, &self.order, cookie)
    }

    /// The `k`-th value from 0, in the order in which they came.
    pub fn nth(&self, k: u32) -> &T
        requires { k < length self.now }
        ensures { slice_get self.now k ≡ Some result.now }
    {
        ranked(&self.entries, &self.order, k as usize)
    }

    /// Puts a value last, under a cookie that no other has.
    pub fn push(&mut self, value: T)
        requires room { length self.old < 64 }
        requires fresh { value_of T.cookie_of (T.cookie_of value) self.old ≡ None }
        ensures { self.new ≡ self.old ++ value ∷ [] }
    {
        let Some(key) = self.others.pop() else {
            unreachable!();
        };
        put(&mut self.entries, key, value);
        self.order.push_reserved(key);
    }

    /// Takes the value of a cookie away; None where there is none, and nothing changes.
    pub fn remove(&mut self, cookie: u64) -> Option<T>
        ensures taken { result ≡ value_of T.cookie_of cookie self.old }
        ensures rest { self.new ≡ without T.cookie_of cookie self.old }
    {
        let at = position(&self.entries, &self.order, cookie)?;
        let key = self.order.remove(at);
        self.others.push_reserved(key);
        Some(take(&mut self.entries, key))
    }

    /// Takes all values away.
    pub fn clear(&mut self)
        ensures { self.new ≡ [] }
    {
        take_all(&mut self.entries, &mut self.order, &mut self.others);
    }
}
