use super::*;

// A request with the words that `displif.h` gives it.
fn create() -> (Request, [u32; 16]) {
    let asked = Asked::Create(Create {
        dbuf_cookie: 4_294_967_307,
        width: 1023,
        height: 1024,
        bpp: 32,
        buffer_sz: 4_190_208,
        flags: 1,
        gref_directory: 2,
    });
    let words = [
        7, 0, 11, 1, 1023, 1024, 32, 4_190_208, 1, 2, 0, 0, 0, 0, 0, 0,
    ];
    (
        Request {
            id: 7,
            op: CREATE,
            asked,
        },
        words,
    )
}

fn attach() -> (Request, [u32; 16]) {
    let asked = Asked::Attach(Attach {
        dbuf_cookie: 4_294_967_297,
        fb_cookie: 8_589_934_603,
        width: 32,
        height: 31,
        pixel_format: 0x3432_5258,
    });
    let words = [
        0x0002_0002,
        0,
        1,
        1,
        11,
        2,
        32,
        31,
        0x3432_5258,
        0,
        0,
        0,
        0,
        0,
        0,
        0,
    ];
    (
        Request {
            id: 2,
            op: ATTACH,
            asked,
        },
        words,
    )
}

fn config() -> (Request, [u32; 16]) {
    let asked = Asked::Config(Config {
        fb_cookie: 11,
        x: 1,
        y: 2,
        width: 32,
        height: 31,
        bpp: 24,
    });
    let words = [0x0004_0001, 0, 11, 0, 1, 2, 32, 31, 24, 0, 0, 0, 0, 0, 0, 0];
    (
        Request {
            id: 1,
            op: SET_CONFIG,
            asked,
        },
        words,
    )
}

// A request that has the cookie 4294967307 alone.
fn by_cookie(op: u8, asked: Asked, head: u32) -> (Request, [u32; 16]) {
    let words = [head, 0, 11, 1, 0, 0, 0, 0, 0, 0, 0, 0, 0, 0, 0, 0];
    (Request { id: 2, op, asked }, words)
}

#[test]
fn reads_and_writes_requests(rt: HostRuntime) {
    let rows = [
        create(),
        attach(),
        config(),
        by_cookie(DESTROY, Asked::Destroy(4_294_967_307), 0x0001_0002),
        by_cookie(DETACH, Asked::Detach(4_294_967_307), 0x0003_0002),
        by_cookie(FLIP, Asked::Flip(4_294_967_307), 0x0005_0002),
    ];
    for (request, words) in rows {
        assert_eq!(rt; encode_request(&request), words);
        let mut ignored = words;
        ignored[0] |= 0x8100_0000;
        ignored[1] = 5;
        ignored[10] = 64;
        ignored[15] = 64;
        assert_eq!(rt; decode(&ignored), request);
    }
    requests_read_back();
}

#[test]
fn leaves_an_unknown_operation_open(rt: HostRuntime) {
    for op in 6..9 {
        let want = Request {
            id: 2,
            op,
            asked: Asked::Other,
        };
        let (_, words) = by_cookie(op, Asked::Other, 2 + 65536 * u32::from(op));
        assert_eq!(rt; decode(&words), want);
    }
}

#[test]
fn gives_the_error_of_each_refusal(rt: HostRuntime) {
    let rows = [
        (Refused::NotSupported, -95),
        (Refused::Exists, -17),
        (Refused::Full, -28),
        (Refused::Invalid, -22),
        (Refused::Unknown, -2),
        (Refused::InUse(11), -16),
        (Refused::Pending(11), -16),
    ];
    for (why, status) in rows {
        assert_eq!(rt; why.status(), status);
    }
    assert!(rt;
        !is_zero(&Config {
            fb_cookie: 0,
            x: 0,
            y: 0,
            width: 0,
            height: 0,
            bpp: 1
        })
    );
}

#[test]
fn writes_and_reads_a_refusal(rt: HostRuntime) {
    let words = encode_reply(1, SET_CONFIG, -95);
    let mut want = [0; 16];
    want[0] = 0x0004_0001;
    want[1] = 4_294_967_201;
    assert_eq!(rt; words, want);
    let reply = Reply {
        id: 1,
        op: SET_CONFIG,
        status: -95,
    };
    assert_eq!(rt; decode_reply(&want), reply);
    replies_read_back();
}

#[test]
fn writes_and_reads_the_event_of_a_flip(rt: HostRuntime) {
    let words = [65535, 0, 11, 1, 0, 0, 0, 0, 0, 0, 0, 0, 0, 0, 0, 0];
    assert_eq!(rt; encode_event(65535, 4_294_967_307), words);
    let mut other = words;
    other[0] = 0xFF07_0003;
    let event = Event {
        id: 3,
        kind: 7,
        value: 4_294_967_307,
    };
    assert_eq!(rt; decode_event(&other), event);
    events_read_back();
}
