ghost use Rattle.std.specs.Prelude.{◌≡◌, ◌≤◌, length, take};

use super::*;
use displ_wire::{Buffer, Create, Refused};
use pv_words::{DomId, Frame, GrantRef, Hold, Mode, PageList, Place};
use std::test::Fail;

// Up to three pages, in frames that follow one another.
#[derive(Drop)]
struct Pages {
    all: [Hold; 3],
    count: u32,
    ghost few: { count ≤ length all },
}

impl PageList for Pages {
    ghost holds = { λ p. take p.count p.all };

    fn len(&self) -> u32 {
        self.count
    }

    fn get(&self, i: u32) -> Hold {
        self.all[i as usize]
    }
}

fn hold(frame: u32) -> Hold {
    Hold {
        dom: DomId(1),
        gref: GrantRef(frame),
        frame: Frame(frame),
        mode: Mode::Read,
    }
}

fn pages_from(first: u32, count: u32) -> Pages
    requires { count ≤ 3 }
    ensures { result.count ≡ count }
{
    let second = first.wrapping_add(1);
    let third = first.wrapping_add(2);
    Pages {
        all: [hold(first), hold(second), hold(third)],
        count,
    }
}

fn asks(width: u32, height: u32, bpp: u32, buffer_sz: u32) -> Create {
    Create {
        dbuf_cookie: 11,
        width,
        height,
        bpp,
        buffer_sz,
        flags: 0,
        gref_directory: 2,
    }
}

// Makes a buffer of so many octets under this cookie, of pages from this frame on.
fn make(buffers: &mut Buffers<Pages>, cookie: u64, octets: u32, first: u32) -> Result<(), Refused>
    requires { octets ≤ 12288 }
{
    let c = Create {
        dbuf_cookie: cookie,
        width: 1,
        height: 1,
        bpp: 16,
        buffer_sz: octets,
        flags: 0,
        gref_directory: 2,
    };
    buffers.check(&c)?;
    buffers.create(&c, pages_from(first, (octets + 4095) / 4096));
    Ok(())
}

// Cookie and first frame of the buffer at this place in the order.
fn nth(buffers: &Buffers<Pages>, k: u32) -> Option<(u64, u32)> {
    if k < buffers.live() {
        Some((buffers.cookie_at(k), buffers.pages_at(k).all[0].frame.0))
    } else {
        None
    }
}

// The word of an octet, where the buffer has that octet.
fn word_of(buffers: &Buffers<Pages>, cookie: u64, octet: u32) -> Option<Place> {
    let buffer = buffers.get(cookie)?;
    if octet < buffer.buffer_sz {
        Some(buffers.pixel_place(cookie, octet))
    } else {
        None
    }
}

#[test]
fn looks_at_each_field_of_a_create(rt: HostRuntime) -> Result<(), Fail> {
    let buffers: Buffers<Pages> = Buffers::new(rt.alloc())?;
    let fits = [(4096, 2048, 32, 33_554_432), (3, 1, 24, 9), (1, 1, 16, 2)];
    for (width, height, bpp, size) in fits {
        assert_eq!(rt; buffers.check(&asks(width, height, bpp, size)), Ok(()));
    }
    let invalid = [
        (4096, 2048, 32, 33_554_433),
        (4096, 2049, 32, 33_554_432),
        (3, 1, 24, 8),
        (1, 1, 16, 1),
        (65536, 65536, 16, 33_554_432),
        (65536, 65536, 32, 33_554_432),
        (4_294_967_295, 4_294_967_295, 32, 33_554_432),
        (0, 1, 32, 4096),
        (1, 0, 32, 4096),
        (1, 1, 32, 0),
        (1, 1, 0, 4096),
        (1, 1, 8, 4096),
        (1, 1, 17, 4096),
        (1, 1, 33, 4096),
    ];
    for (width, height, bpp, size) in invalid {
        assert_eq!(rt;
            buffers.check(&asks(width, height, bpp, size)),
            Err(Refused::Invalid)
        );
    }
    let mut flagged = asks(0, 0, 0, 0);
    flagged.flags = 1;
    assert_eq!(rt; buffers.check(&flagged), Err(Refused::NotSupported));
    Ok(())
}

#[test]
fn has_room_for_64_buffers(rt: HostRuntime) -> Result<(), Fail> {
    let mut buffers = Buffers::new(rt.alloc())?;
    for cookie in 0..64 {
        assert_eq!(rt; make(&mut buffers, cookie, 4096, 7), Ok(()));
    }
    assert_eq!(rt; buffers.live(), 64);
    assert_eq!(rt; make(&mut buffers, 64, 4096, 7), Err(Refused::Full));
    assert_eq!(rt; make(&mut buffers, 64, 0, 7), Err(Refused::Full));
    assert_eq!(rt; make(&mut buffers, 63, 0, 7), Err(Refused::Exists));
    let mut flagged = asks(1, 1, 16, 4096);
    flagged.flags = 2;
    assert_eq!(rt; buffers.check(&flagged), Err(Refused::NotSupported));
    assert!(rt; buffers.destroy(40).is_some());
    assert_eq!(rt; make(&mut buffers, 64, 4096, 7), Ok(()));
    assert_eq!(rt; make(&mut buffers, 40, 4096, 7), Err(Refused::Full));
    Ok(())
}

#[test]
fn keeps_the_order_of_creation(rt: HostRuntime) -> Result<(), Fail> {
    let mut buffers = Buffers::new(rt.alloc())?;
    for cookie in 1..5 {
        assert_eq!(rt; make(&mut buffers, cookie, 4096, 100), Ok(()));
    }
    let first = buffers.destroy(2).map(|pages| pages.all[0].frame);
    assert_eq!(rt; first, Some(Frame(100)));
    assert!(rt; buffers.destroy(2).is_none());
    assert_eq!(rt; buffers.get(2), None);
    assert_eq!(rt; make(&mut buffers, 2, 4097, 200), Ok(()));
    assert!(rt; buffers.destroy(1).is_some());
    assert_eq!(rt; nth(&buffers, 0), Some((3, 100)));
    assert_eq!(rt; nth(&buffers, 1), Some((4, 100)));
    assert_eq!(rt; nth(&buffers, 2), Some((2, 200)));
    assert_eq!(rt; nth(&buffers, 3), None);
    let want = Buffer {
        cookie: 2,
        width: 1,
        height: 1,
        bpp: 16,
        buffer_sz: 4097,
    };
    assert_eq!(rt; buffers.get(2), Some(want));
    Ok(())
}

#[test]
fn finds_the_octets_at_the_borders_of_pages(rt: HostRuntime) -> Result<(), Fail> {
    let mut buffers = Buffers::new(rt.alloc())?;
    assert_eq!(rt; make(&mut buffers, 1, 4096, 5), Ok(()));
    assert_eq!(rt; make(&mut buffers, 2, 8194, 7), Ok(()));
    let rows = [
        (0, 7, 0),
        (3, 7, 0),
        (4, 7, 1),
        (4095, 7, 1023),
        (4096, 8, 0),
        (8191, 8, 1023),
        (8192, 9, 0),
        (8193, 9, 0),
    ];
    for (octet, frame, word) in rows {
        let place = Place::Cell(DomId(1), Frame(frame), word);
        assert_eq!(rt; word_of(&buffers, 2, octet), Some(place));
    }
    assert_eq!(rt; word_of(&buffers, 2, 8194), None);
    creates_one::<Pages>();
    destroys_one::<Pages>();
    stays_sound::<Pages>();
    pixels_inside();
    Ok(())
}
