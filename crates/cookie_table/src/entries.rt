// The entries of a table: what stands under a key, and where a cookie is found.

ghost use Rattle.std.specs.Prelude.{◌≡◌, ℕ, ◌+◌, ◌<◌, ◌≤◌, List, [], length, Some, None, IfOk};
ghost use Rattle.std.specs.Prelude.{option_copied, slice_get, vec_len, vec_capacity};
ghost use Rattle.std.specs.List.{AllByRecursion};
ghost use Rattle.slab.specs.Slab.{Updates, get};
ghost use Rattle.cookie_table.specs.Cookies.{value_of, AreDistinct};
ghost use Rattle.cookie_table.specs.Entries.{Finds, IsTable, IsUnused, IsUsed, entry_at, rows};

use crate::table::HasCookie;
use slab::Slab;
use std::alloc::{AllocError, Global};

// How many values there may be at one time.
pub(crate) const LIMIT: usize = 64;

// The entries of a table, under keys of the slab's own.
pub(crate) type Entries<T> = Slab<Option<T>>;

// An empty entry for each value that there may be, with the keys of all of them.
pub(crate) fn unused_entries<T: Drop>(alloc: Global) -> Result<(Entries<T>, Vec<usize>), AllocError>
    ensures unused { IfOk result (λ made. AllByRecursion (IsUnused made.0) made.1.items) }
    ensures distinct { IfOk result (λ made. AreDistinct made.1.items) }
    ensures number { IfOk result (λ made. vec_len made.1 ≡ 64) }
    ensures room { IfOk result (λ made. 64 ≤ vec_capacity made.1) }
{
    let mut entries = Slab::with_capacity(alloc, LIMIT)?;
    let mut keys = Vec::with_capacity(alloc, LIMIT)?;
    for _ in 0..LIMIT {
        let key = entries.insert_reserved(None);
        keys.push_reserved(key);
    }
    Ok((entries, keys))
}

// The value under a key.
pub(crate) fn entry<T>(entries: &Entries<T>, key: usize) -> Option<&T>
    ensures { option_copied result ≡ entry_at entries.now key }
{
    entries.get(key)?.as_ref()
}

// Where in the order the value of this cookie stands.
pub(crate) fn position<T: HasCookie>(
    entries: &Entries<T>,
    order: &[usize],
    cookie: u64,
) -> Option<usize>
    ensures { Finds T.cookie_of entries.now order.now cookie result }
{
    for (at, key) in order.iter().enumerate() {
        if let Some(value) = entry(entries, *key) {
            if value.cookie() == cookie {
                return Some(at);
            }
        }
    }
    None
}

// Puts a value into an empty entry.
pub(crate) fn put<T: Drop>(entries: &mut Entries<T>, key: usize, value: T)
    requires { get entries.old key ≡ Some None }
    ensures { Updates entries.old entries.new key (Some (Some value)) }
{
    entries[key] = Some(value);
}

// Takes the value out of an entry, which is empty then.
pub(crate) fn take<T>(entries: &mut Entries<T>, key: usize) -> T
    requires { IsUsed entries.old key }
    ensures taken { entry_at entries.old key ≡ Some result }
    ensures updates { Updates entries.old entries.new key (Some None) }
{
    let Some(value) = entries[key].take() else {
        unreachable!();
    };
    value
}

// Takes the values out of all entries.
pub(crate) fn take_all<T: HasCookie + Drop>(
    entries: &mut Entries<T>,
    order: &mut Vec<usize>,
    others: &mut Vec<usize>,
)
    requires table { IsTable T.cookie_of entries.old order.old.items others.old.items }
    requires order_room { 64 ≤ vec_capacity order.old }
    requires others_room { 64 ≤ vec_capacity others.old }
    ensures table { IsTable T.cookie_of entries.new order.new.items others.new.items }
    ensures empty { order.new.items ≡ [] }
    ensures order_room { 64 ≤ vec_capacity order.new }
    ensures others_room { 64 ≤ vec_capacity others.new }
{
    while let Some(key) = order.pop() {
        let _ = take(entries, key);
        others.push_reserved(key);
    }
}

// The value of a cookie.
pub(crate) fn find<'a, T: HasCookie>(
    entries: &'a Entries<T>,
    order: &[usize],
    cookie: u64,
) -> Option<&'a T>
    ensures { option_copied result ≡ value_of T.cookie_of cookie (rows entries.now order.now) }
{
    let at = position(entries, order, cookie)?;
    entry(entries, order[at])
}

// The value at a place of the order.
pub(crate) fn ranked<'a, T>(entries: &'a Entries<T>, order: &[usize], rank: usize) -> &'a T
    requires within { rank < length order.now }
    requires used { AllByRecursion (IsUsed entries.now) order.now }
    ensures { slice_get (rows entries.now order.now) rank ≡ Some result.now }
{
    let Some(value) = entry(entries, order[rank]) else {
        unreachable!();
    };
    value
}
