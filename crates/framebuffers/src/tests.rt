use super::*;
use displ_wire::{Attach, Buffer, Refused};
use std::test::Fail;

const XR24: u32 = 0x3432_5258;

fn buffer(bpp: u32) -> Buffer {
    Buffer {
        cookie: 1,
        width: 640,
        height: 480,
        bpp,
        buffer_sz: 1_228_800,
    }
}

fn asks(fb_cookie: u64, width: u32, height: u32, pixel_format: u32) -> Attach {
    Attach {
        dbuf_cookie: 1,
        fb_cookie,
        width,
        height,
        pixel_format,
    }
}

#[test]
fn looks_at_each_field_of_an_attach(rt: HostRuntime) -> Result<(), Fail> {
    let rows = [
        (1, 1, XR24, 32, Ok(())),
        (640, 480, XR24, 32, Ok(())),
        (640, 480, 0x3432_5241, 32, Ok(())),
        (640, 480, 0x3432_4752, 24, Ok(())),
        (640, 480, 0x3631_4752, 16, Ok(())),
        (0, 480, XR24, 32, Err(Refused::Invalid)),
        (640, 0, XR24, 32, Err(Refused::Invalid)),
        (641, 480, XR24, 32, Err(Refused::Invalid)),
        (640, 481, XR24, 32, Err(Refused::Invalid)),
        (
            4_294_967_295,
            4_294_967_295,
            XR24,
            32,
            Err(Refused::Invalid),
        ),
        (640, 480, XR24, 24, Err(Refused::Invalid)),
        (640, 480, 0x3432_5241, 16, Err(Refused::Invalid)),
        (640, 480, 0x3432_4752, 32, Err(Refused::Invalid)),
        (640, 480, 0x3631_4752, 24, Err(Refused::Invalid)),
        (640, 480, 0x3432_4742, 24, Err(Refused::Invalid)),
        (640, 480, 0x3432_5259, 32, Err(Refused::Invalid)),
        (640, 480, 0, 32, Err(Refused::Invalid)),
    ];
    for (width, height, format, bpp, want) in rows {
        let mut frames = Frames::new(rt.alloc())?;
        let got = frames.attach(&asks(11, width, height, format), Some(buffer(bpp)));
        assert_eq!(rt; got, want);
        assert_eq!(rt; frames.find(11).is_some(), want.is_ok());
        assert_eq!(rt; frames.uses(1), want.is_ok());
    }
    Ok(())
}

#[test]
fn refuses_by_the_first_check_that_fails(rt: HostRuntime) -> Result<(), Fail> {
    let mut frames = Frames::new(rt.alloc())?;
    for cookie in 0..63 {
        assert_eq!(rt;
            frames.attach(&asks(cookie, 8, 4, XR24), Some(buffer(32))),
            Ok(())
        );
    }
    assert_eq!(rt;
        frames.attach(&asks(63, 0, 4, 0), None),
        Err(Refused::Unknown)
    );
    assert_eq!(rt;
        frames.attach(&asks(62, 0, 4, 0), None),
        Err(Refused::Exists)
    );
    assert_eq!(rt;
        frames.attach(&asks(63, 8, 4, XR24), Some(buffer(32))),
        Ok(())
    );
    assert_eq!(rt;
        frames.attach(&asks(63, 0, 4, 0), None),
        Err(Refused::Exists)
    );
    assert_eq!(rt; frames.attach(&asks(64, 0, 4, 0), None), Err(Refused::Full));
    assert_eq!(rt;
        frames.attach(&asks(64, 8, 4, XR24), Some(buffer(32))),
        Err(Refused::Full)
    );
    Ok(())
}

#[test]
fn takes_one_more_in_place_of_a_detached_one(rt: HostRuntime) -> Result<(), Fail> {
    let mut frames = Frames::new(rt.alloc())?;
    for cookie in 0..64 {
        assert_eq!(rt;
            frames.attach(&asks(cookie, 8, 4, XR24), Some(buffer(32))),
            Ok(())
        );
    }
    assert_eq!(rt; frames.detach(64), Err(Refused::Unknown));
    assert_eq!(rt; frames.detach(40), Ok(()));
    assert_eq!(rt; frames.detach(40), Err(Refused::Unknown));
    assert_eq!(rt;
        frames.attach(&asks(64, 8, 4, XR24), Some(buffer(32))),
        Ok(())
    );
    assert_eq!(rt;
        frames.attach(&asks(40, 8, 4, XR24), Some(buffer(32))),
        Err(Refused::Full)
    );
    let want = Framebuffer {
        cookie: 64,
        dbuf: 1,
        width: 8,
        height: 4,
        bpp: 32,
    };
    assert_eq!(rt; frames.find(64), Some(want));
    frames.clear();
    assert_eq!(rt; frames.find(64), None);
    assert!(rt; !frames.uses(1));
    attaches_one();
    detaches_one();
    stays_sound();
    unused_has_none();
    Ok(())
}

#[test]
fn knows_which_buffers_are_used(rt: HostRuntime) -> Result<(), Fail> {
    let mut frames = Frames::new(rt.alloc())?;
    let mut second = asks(12, 8, 4, XR24);
    second.dbuf_cookie = 4_294_967_297;
    assert_eq!(rt;
        frames.attach(&asks(11, 8, 4, XR24), Some(buffer(32))),
        Ok(())
    );
    assert_eq!(rt; frames.attach(&second, Some(buffer(32))), Ok(()));
    assert!(rt; frames.uses(1) && frames.uses(4_294_967_297) && !frames.uses(11));
    assert_eq!(rt; frames.detach(12), Ok(()));
    assert!(rt; frames.uses(1) && !frames.uses(4_294_967_297));
    Ok(())
}
