use super::*;

const OPENED: [u32; 16] = [1, 0, 48_000, 514, 4096, 2, 4, 0, 0, 0, 0, 0, 0, 0, 0, 0];

const PARAMS: Params = Params {
    pcm_rate: 48_000,
    pcm_format: 2,
    pcm_channels: 2,
    buffer_sz: 4096,
    gref_directory: 2,
    period_sz: 4,
};

const ASKED: Ranges = Ranges {
    formats: 4_294_967_300,
    rate_min: 192_000,
    rate_max: 400_000,
    channels_min: 2,
    channels_max: 3,
    buffer_min: 1024,
    buffer_max: 1025,
    period_min: 256,
    period_max: 2_000_000,
};

// The words of a message about these ranges.
const QUERIED: [u32; 16] = [
    0x0009_0002,
    0,
    4,
    1,
    192_000,
    400_000,
    2,
    3,
    1024,
    1025,
    256,
    2_000_000,
    0,
    0,
    0,
    0,
];

// The words of a request with two fields at most.
fn short(head: u32, first: u32, second: u32) -> [u32; 16] {
    [head, 0, first, second, 0, 0, 0, 0, 0, 0, 0, 0, 0, 0, 0, 0]
}

// A request for each operation, and its words from word 0 on.
#[test]
fn reads_and_writes_each_request(rt: HostRuntime) {
    let rows = [
        (1, OPEN, Asked::Open(PARAMS), OPENED),
        (2, CLOSE, Asked::Close, short(0x0001_0002, 0, 0)),
        (3, READ, Asked::Read(0, 3), short(0x0002_0003, 0, 3)),
        (2, WRITE, Asked::Write(1, 6), short(0x0003_0002, 1, 6)),
        (3, TRIGGER, Asked::Trigger(2), short(0x0008_0003, 2, 0)),
        (2, HW_PARAM_QUERY, Asked::Query(ASKED), QUERIED),
        (65_535, 7, Asked::Other, short(0x0007_FFFF, 0, 0)),
    ];
    for (id, op, asked, words) in rows {
        let request = Request { id, op, asked };
        assert_eq!(rt; encode_request(&request), words);
        assert_eq!(rt; decode(&words), request);
    }
    requests_read_back();
}

#[test]
fn ignores_what_is_reserved(rt: HostRuntime) {
    let mut words = OPENED;
    words[0] = 0xFF00_0001;
    words[1] = 7;
    words[3] = 0xFFFF_0202;
    words[7] = 7;
    assert_eq!(rt; decode(&words).asked, Asked::Open(PARAMS));
    words = [0; 16];
    words[0] = 0x0008_0001;
    words[2] = 0xFFFF_FF03;
    assert_eq!(rt; decode(&words).asked, Asked::Trigger(3));
}

#[test]
fn writes_and_reads_replies(rt: HostRuntime) {
    let words = encode_reply(2, HW_PARAM_QUERY, -22, &NO_RANGES);
    let mut want = [0; 16];
    want[0] = 0x0009_0002;
    want[1] = 4_294_967_274;
    assert_eq!(rt; words, want);
    let answered = encode_reply(2, HW_PARAM_QUERY, 0, &ASKED);
    let reply = Reply {
        id: 2,
        op: HW_PARAM_QUERY,
        status: 0,
        body: ASKED,
    };
    assert_eq!(rt; answered, QUERIED);
    assert_eq!(rt; decode_reply(&answered), reply);
    replies_read_back();
}

#[test]
fn writes_and_reads_events(rt: HostRuntime) {
    let told = encode_event(63, 4_294_967_300);
    let event = Event {
        id: 63,
        kind: CUR_POS,
        value: 4_294_967_300,
    };
    assert_eq!(rt; told, [63, 0, 4, 1, 0, 0, 0, 0, 0, 0, 0, 0, 0, 0, 0, 0]);
    assert_eq!(rt; decode_event(&told), event);
    events_read_back();
}
