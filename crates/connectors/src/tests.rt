use super::*;
use displ_wire::{Config, Framebuffer, Refused};

const NONE: Config = Config {
    fb_cookie: 0,
    x: 0,
    y: 0,
    width: 0,
    height: 0,
    bpp: 0,
};

fn frame(cookie: u64, width: u32, height: u32, bpp: u32) -> Framebuffer {
    Framebuffer {
        cookie,
        dbuf: 1,
        width,
        height,
        bpp,
    }
}

// A framebuffer of 32 by 32 pixels.
fn small(cookie: u64) -> Option<Framebuffer> {
    Some(frame(cookie, 32, 32, 32))
}

// A configuration that shows all of such a framebuffer.
fn whole(fb_cookie: u64) -> Config {
    Config {
        fb_cookie,
        x: 0,
        y: 0,
        width: 32,
        height: 32,
        bpp: 32,
    }
}

// The cookie of the flip that is done at a blank, if one is to come.
fn blanked(c: &mut Connector) -> Option<u64> {
    if c.pending().is_some() {
        Some(c.blank())
    } else {
        None
    }
}

fn shown(c: &Connector) -> Option<u64> {
    c.picture().map(|p| p.fb)
}

#[test]
fn looks_at_each_field_of_a_configuration(rt: HostRuntime) {
    let last = 4_294_967_295;
    let rows = [
        (0, 0, 640, 480, 32, Ok(())),
        (639, 479, 1, 1, 32, Ok(())),
        (1, 0, 640, 480, 32, Err(Refused::Invalid)),
        (0, 1, 640, 480, 32, Err(Refused::Invalid)),
        (640, 0, 1, 1, 32, Err(Refused::Invalid)),
        (0, 480, 1, 1, 32, Err(Refused::Invalid)),
        (0, 0, 0, 480, 32, Err(Refused::Invalid)),
        (0, 0, 640, 0, 32, Err(Refused::Invalid)),
        (0, 0, 0, 0, 0, Err(Refused::Invalid)),
        (last, 0, 1, 1, 32, Err(Refused::Invalid)),
        (last, 0, 2, 1, 32, Err(Refused::Invalid)),
        (1, 0, last, 1, 32, Err(Refused::Invalid)),
        (0, last, 1, 1, 32, Err(Refused::Invalid)),
        (0, last, 1, 2, 32, Err(Refused::Invalid)),
        (last, last, last, last, 32, Err(Refused::Invalid)),
        (0, 0, 640, 480, 24, Err(Refused::Invalid)),
        (0, 0, 640, 480, 0, Err(Refused::Invalid)),
    ];
    for (x, y, width, height, bpp, want) in rows {
        let asked = Config {
            fb_cookie: 11,
            x,
            y,
            width,
            height,
            bpp,
        };
        let mut c = Connector::new();
        assert_eq!(rt; c.config(&asked, Some(frame(11, 640, 480, 32))), want);
        assert_eq!(rt; shown(&c).is_some(), want.is_ok());
        assert_eq!(rt; c.config(&asked, None), Err(Refused::Unknown));
        assert_eq!(rt; shown(&c).is_some(), want.is_ok());
    }
}

#[test]
fn shows_the_last_corner_of_the_largest_framebuffer(rt: HostRuntime) {
    let last = 4_294_967_295;
    let mut c = Connector::new();
    let corner = Config {
        fb_cookie: 11,
        x: last - 1,
        y: last - 2,
        width: 1,
        height: 2,
        bpp: 16,
    };
    assert_eq!(rt; c.config(&corner, Some(frame(11, last, last, 16))), Ok(()));
    let want = Picture {
        fb: 11,
        x: last - 1,
        y: last - 2,
        width: 1,
        height: 2,
    };
    assert_eq!(rt; c.picture(), Some(want));
}

#[test]
fn takes_a_configuration_away_before_any_check(rt: HostRuntime) {
    for f in [None, small(0)] {
        let mut c = Connector::new();
        assert_eq!(rt; c.config(&NONE, f), Ok(()));
        assert_eq!(rt; c.config(&whole(11), small(11)), Ok(()));
        assert_eq!(rt; c.config(&NONE, f), Ok(()));
        assert_eq!(rt; c.picture(), None);
        assert_eq!(rt; c.flip(11, small(11)), Err(Refused::Invalid));
    }
}

#[test]
fn refuses_a_flip_by_the_first_check_that_fails(rt: HostRuntime) {
    let mut c = Connector::new();
    assert_eq!(rt; c.flip(11, None), Err(Refused::Unknown));
    assert_eq!(rt; c.flip(11, small(11)), Err(Refused::Invalid));
    assert_eq!(rt; c.config(&whole(11), small(11)), Ok(()));
    assert_eq!(rt;
        c.flip(12, Some(frame(12, 31, 32, 32))),
        Err(Refused::Invalid)
    );
    assert_eq!(rt;
        c.flip(12, Some(frame(12, 32, 31, 32))),
        Err(Refused::Invalid)
    );
    assert_eq!(rt;
        c.flip(12, Some(frame(12, 32, 32, 24))),
        Err(Refused::Invalid)
    );
    assert_eq!(rt; c.pending(), None);
    assert_eq!(rt; c.flip(12, Some(frame(12, 33, 32, 32))), Ok(()));
    assert_eq!(rt; c.flip(11, None), Err(Refused::Unknown));
    assert_eq!(rt;
        c.flip(11, Some(frame(11, 31, 32, 32))),
        Err(Refused::Invalid)
    );
    assert_eq!(rt; c.flip(11, small(11)), Err(Refused::Pending(12)));
    assert_eq!(rt; c.pending(), Some(12));
    assert_eq!(rt; shown(&c), Some(11));
}

#[test]
fn shows_what_was_flipped_to_while_the_mark_stands(rt: HostRuntime) {
    let mut c = Connector::new();
    assert_eq!(rt; blanked(&mut c), None);
    assert_eq!(rt; c.config(&whole(11), small(11)), Ok(()));
    assert_eq!(rt; c.flip(12, small(12)), Ok(()));
    assert_eq!(rt; blanked(&mut c), Some(12));
    assert_eq!(rt; (shown(&c), c.pending()), (Some(12), None));
    assert_eq!(rt; c.flip(11, small(11)), Ok(()));
    c.detached(12);
    assert_eq!(rt; (shown(&c), c.pending()), (None, Some(11)));
    assert_eq!(rt; blanked(&mut c), Some(11));
    assert_eq!(rt; shown(&c), Some(11));
    assert_eq!(rt; c.flip(12, small(12)), Ok(()));
    c.detached(12);
    assert_eq!(rt; blanked(&mut c), Some(12));
    assert_eq!(rt; shown(&c), Some(11));
    assert_eq!(rt; c.flip(12, small(12)), Ok(()));
    assert_eq!(rt; c.config(&whole(11), small(11)), Ok(()));
    assert_eq!(rt; blanked(&mut c), Some(12));
    assert_eq!(rt; shown(&c), Some(11));
    assert_eq!(rt; c.flip(11, small(11)), Ok(()));
    assert_eq!(rt; c.config(&NONE, None), Ok(()));
    assert_eq!(rt; blanked(&mut c), Some(11));
    assert_eq!(rt; shown(&c), None);
    stays_sound();
    pictures_inside();
    flips_wait();
}
