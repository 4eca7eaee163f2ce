use super::*;
use std::test::Fail;

#[derive(Clone, Copy, Debug, PartialEq, Eq)]
struct Thing {
    cookie: u64,
    size: u32,
}

impl HasCookie for Thing {
    ghost cookie_of = { λ t. t.cookie };

    fn cookie(&self) -> u64 {
        self.cookie
    }
}

// Puts a value under this cookie, where it is new and there is room.
fn put(table: &mut Table<Thing>, cookie: u64, size: u32) -> bool {
    if table.get(cookie).is_some() || table.len() >= TABLE_LIMIT {
        return false;
    }
    table.push(Thing { cookie, size });
    true
}

// The cookie at this place, where there is one.
fn cookie_at(table: &Table<Thing>, k: u32) -> Option<u64> {
    if k < table.len() {
        Some(table.nth(k).cookie)
    } else {
        None
    }
}

#[test]
fn keeps_64_values_in_order(rt: HostRuntime) -> Result<(), Fail> {
    let mut table = Table::new(rt.alloc())?;
    assert!(rt; table.is_empty());
    for cookie in 0..64 {
        assert!(rt; put(&mut table, cookie, 7));
    }
    assert!(rt; !put(&mut table, 64, 7));
    assert!(rt; !put(&mut table, 63, 7));
    assert_eq!(rt;
        table.remove(40),
        Some(Thing {
            cookie: 40,
            size: 7
        })
    );
    assert_eq!(rt; table.remove(40), None);
    assert!(rt; put(&mut table, 4_294_967_296, 8));
    let places = [
        (0, Some(0)),
        (39, Some(39)),
        (40, Some(41)),
        (62, Some(63)),
        (63, Some(4_294_967_296)),
        (64, None),
    ];
    for (k, cookie) in places {
        assert_eq!(rt; cookie_at(&table, k), cookie);
    }
    table.clear();
    assert_eq!(rt; table.len(), 0);
    for cookie in 0..64 {
        assert!(rt; put(&mut table, cookie, 9));
    }
    adds_one::<Thing>();
    takes_one::<Thing>();
    stays_few::<Thing>();
    Ok(())
}
