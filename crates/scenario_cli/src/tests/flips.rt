// Flips, their events, and what a connection's end takes away.
use super::running::*;
use pv_words::{DevId, DomId, Frame, Place};
use std::alloc::{AllocError, Global};
use std::test::Fail;

// Behind the CREATE, requests that attach framebuffer 11 to the buffer and show all of it.
const ATTACHED: &str =
    "put 1 0 32 0x00020002\nput 1 0 34 1\nput 1 0 36 11\nput 1 0 38 32\nput 1 0 39 32\nput 1 0 40 0x34325258\n\
                        put 1 0 48 0x00040003\nput 1 0 50 11\nput 1 0 54 32\nput 1 0 55 32\nput 1 0 56 32\n";

const SERVED: &str = "put 1 0 0 3\nserve 1\n";

const THREE_REPLIES: &str =
    "request 1 0 1 0\nreply 1 0 1 0 notify\nrequest 1 0 2 2\nreply 1 0 2 0\nrequest 1 0 3 4\nreply 1 0 3 0\n";

// The fourth request, a flip to framebuffer 11.
const FLIPS: &str = "put 1 0 64 0x00050004\nput 1 0 66 11\nput 1 0 0 4\nserve 1\n";

const FLIPPED: &str = "request 1 0 4 5\nreply 1 0 4 0\n";

// Runs a script that goes on where framebuffer 11 is shown, with these statements before the device connects.
fn run_shown(alloc: Global, before: &str, more: &str) -> Result<Outcome, AllocError> {
    let script = joined(alloc, &[ATTACHED, SERVED, more])?;
    run_buffer(alloc, before, script.as_str())
}

fn after_three_replies(alloc: Global, lines: &str) -> Result<String, AllocError> {
    joined(alloc, &[CONNECTED, THREE_REPLIES, lines])
}

#[test]
fn a_framebuffer_without_a_buffer_is_refused(rt: HostRuntime) -> Result<(), Fail> {
    let alloc = rt.alloc();
    let more = joined(
        alloc,
        &[
            ATTACHED,
            "put 1 0 23 8192\n",
            SERVED,
            "put 1 0 64 4\nput 1 0 66 1\nput 1 0 68 32\nput 1 0 69 32\nput 1 0 70 32\nput 1 0 71 4096\nput 1 0 73 2\n",
            "put 1 0 0 4\nserve 1\n",
        ],
    )?;
    let outcome = run_buffer(alloc, "put 1 2 2 3\n", more.as_str())?;
    let wanted = joined(
        alloc,
        &[
            CONNECTED,
            "request 1 0 1 0\ndenied 1 inuse 9\nreply 1 0 1 -13 notify\nrequest 1 0 2 2\nreply 1 0 2 -2\n",
            "request 1 0 3 4\nreply 1 0 3 -2\nrequest 1 0 4 0\nreply 1 0 4 0\n",
        ],
    )?;
    expect_played(&rt, &outcome, wanted.as_bytes());
    Ok(())
}

// Statements before the device connects and behind the configuration, and what comes of these. A flip waits for room in the event
// page; a buffer stays while a framebuffer of it is attached, and one that is detached is shown no longer, but its flip is still told; a
// request's words are loaded once; a picture is read at each Show, though its grant entry is cleared. In the second Show, pixel 5
// was read already when it is written, and pixel 1000 is still to be read: 31 to the power 23, times 9.
const COURSES: [(&str, &str, &str); 7] = [
    (
        "put 1 1 1 63\n",
        "put 1 0 64 0x00050004\nput 1 0 66 11\nput 1 0 0 4\nserve 1\nblank 1 0\nserve 1\nblank 1 0\nserve 1\n\
         put 1 0 80 0x00050005\nput 1 0 82 11\nput 1 0 0 5\nserve 1\nput 1 1 0 1\nblank 1 0\nserve 1\n",
        "request 1 0 4 5\nreply 1 0 4 0\nfull 1 0\nfull 1 0\nrequest 1 0 5 5\nreply 1 0 5 -16\nflip 1 0 11\n",
    ),
    (
        "",
        "put 1 0 64 0x00050004\nput 1 0 66 11\nput 1 0 0 4\nserve 1\nput 1 0 80 0x00010005\nput 1 0 82 1\nput 1 0 0 5\nserve 1\n\
         put 1 0 96 0x00030006\nput 1 0 98 11\nput 1 0 0 6\nserve 1\nshow 1 0\nserve 1\nblank 1 0\nserve 1\n\
         put 1 0 112 0x00010007\nput 1 0 114 1\nput 1 0 0 7\nserve 1\n",
        "request 1 0 4 5\nreply 1 0 4 0\nrequest 1 0 5 1\nreply 1 0 5 -16\nrequest 1 0 6 3\nreply 1 0 6 0\n\
         shown 1 0 0 0\nflip 1 0 11\nrequest 1 0 7 1\nreply 1 0 7 0\n",
    ),
    (
        "",
        "put 1 0 64 0x00050004\nput 1 0 66 11\nput 1 0 0 4\nback 1 4\nput 1 0 66 12\nput 1 0 67 1\nserve 1\n",
        "request 1 0 4 5\nreply 1 0 4 -2\n",
    ),
    (
        "",
        "put 1 0 64 0x00050004\nput 1 0 66 11\nput 1 0 0 4\nback 1 4\nput 1 0 66 12\nserve 1\n",
        "request 1 0 4 5\nreply 1 0 4 0\n",
    ),
    (
        "",
        "end 1 3 1\nputg 1 3 flags 0\nput 1 3 1023 5\nshow 1 0\nserve 1\n",
        "grant 1 3 busy 9\nshown 1 0 1024 5\n",
    ),
    (
        "",
        "show 1 0\nback 1 100\nput 1 3 5 7\nput 1 3 1000 9\nserve 1\n",
        "shown 1 0 1024 3691906519\n",
    ),
    (
        "",
        "put 1 0 64 0x00030004\nput 1 0 66 11\nput 1 0 0 4\nserve 1\n\
         put 1 0 80 0x00010005\nput 1 0 82 1\nput 1 0 0 5\nserve 1\nend 1 3 1\n",
        "request 1 0 4 3\nreply 1 0 4 0\nrequest 1 0 5 1\nreply 1 0 5 0\ngrant 1 3 ended\n",
    ),
];

#[test]
fn flips_and_pictures(rt: HostRuntime) -> Result<(), Fail> {
    let alloc = rt.alloc();
    for (before, more, lines) in COURSES {
        let outcome = run_shown(alloc, before, more)?;
        let wanted = after_three_replies(alloc, lines)?;
        expect_played(&rt, &outcome, wanted.as_bytes());
    }
    Ok(())
}

// The walk of the first request comes to its end, and then its page and those of the connector are unmapped.
#[test]
fn requests_are_taken_anew_after_a_close(rt: HostRuntime) -> Result<(), Fail> {
    let alloc = rt.alloc();
    let script = joined(
        alloc,
        &[
            ATTACHED,
            "put 1 0 0 3\nback 1 20\nbus 1 5\nserve 1\nbus 1 1\nserve 1\nbus 1 3\nserve 1\n",
        ],
    )?;
    let outcome = run_buffer(alloc, "", script.as_str())?;
    let wanted = joined(
        alloc,
        &[
            CONNECTED,
            "request 1 0 1 0\nbus 1 front 5\nclosed 1 asked 5\nbus 1 back 6\nbus 1 front 1\nbus 1 back 2\n",
            CONNECTED,
            THREE_REPLIES,
        ],
    )?;
    expect_played(&rt, &outcome, wanted.as_bytes());
    Ok(())
}

// The index of the next event, up to which index the frontend consumed, and what comes of a flip at a blank then: an event page holds
// 63 events, and takes none from the index 4294967232 on.
const ROOM: [(u32, u32, &str); 16] = [
    (0, 0, "flip 1 0 11\n"),
    (62, 0, "flip 1 0 11\n"),
    (63, 0, "full 1 0\n"),
    (64, 0, "closed 1 badcons 64 0\nbus 1 back 6\n"),
    (64, 1, "full 1 0\n"),
    (64, 2, "flip 1 0 11\n"),
    (5, 6, "closed 1 badcons 5 6\nbus 1 back 6\n"),
    (0, 4_294_967_295, "flip 1 0 11\n"),
    (56, 4_294_967_290, "flip 1 0 11\n"),
    (57, 4_294_967_290, "full 1 0\n"),
    (
        58,
        4_294_967_290,
        "closed 1 badcons 58 4294967290\nbus 1 back 6\n",
    ),
    (4_294_967_231, 4_294_967_231, "flip 1 0 11\n"),
    (4_294_967_231, 4_294_967_168, "full 1 0\n"),
    (
        4_294_967_231,
        4_294_967_167,
        "closed 1 badcons 4294967231 4294967167\nbus 1 back 6\n",
    ),
    (
        4_294_967_232,
        4_294_967_232,
        "closed 1 spent 4294967232\nbus 1 back 6\n",
    ),
    (
        4_294_967_295,
        0,
        "closed 1 spent 4294967295\nbus 1 back 6\n",
    ),
];

#[test]
fn room_in_an_event_page(rt: HostRuntime) -> Result<(), Fail> {
    let alloc = rt.alloc();
    for (prod, cons, lines) in ROOM {
        let before = format!(in alloc; "put 1 1 1 {prod}\n")?;
        let more = format!(in alloc; "{FLIPS}put 1 1 0 {cons}\nblank 1 0\nserve 1\n")?;
        let outcome = run_shown(alloc, before.as_str(), more.as_str())?;
        let told = joined(alloc, &[FLIPPED, lines])?;
        let wanted = after_three_replies(alloc, told.as_str())?;
        expect_played(&rt, &outcome, wanted.as_bytes());
    }
    Ok(())
}

// An event's first word is its index modulo 65536, and its body, from word 2 on, is the cookie.
#[test]
fn an_event_stands_in_its_slot(rt: HostRuntime) -> Result<(), Fail> {
    let alloc = rt.alloc();
    for (prod, slot_word, first_word) in [
        (0u32, 16u16, 0u32),
        (62, 1008, 62),
        (63, 16, 63),
        (65_537, 16 + 16 * 17, 1),
        (4_294_967_231, 16 + 16 * 2, 65_471),
    ] {
        let before = format!(in alloc; "put 1 1 1 {prod}\nput 1 1 0 {prod}\n")?;
        let more = joined(alloc, &[FLIPS, "blank 1 0\nserve 1\n"])?;
        let outcome = run_shown(alloc, before.as_str(), more.as_str())?;
        let told = joined(alloc, &[FLIPPED, "flip 1 0 11\n"])?;
        let wanted = after_three_replies(alloc, told.as_str())?;
        expect_played(&rt, &outcome, wanted.as_bytes());
        for (word, v) in [
            (slot_word, first_word),
            (slot_word + 1, 0),
            (slot_word + 2, 11),
            (slot_word + 3, 0),
            (slot_word + 15, 0),
            (1, prod + 1),
        ] {
            let place = Place::Cell(DomId(1), Frame(1), word);
            assert_eq!(rt; stored(&outcome.journal, place), Some(v));
        }
    }
    Ok(())
}

// Waiting events, the pending flip, the configuration, framebuffers and buffers are gone, and may come anew.
#[test]
fn a_close_forgets_what_was_shown(rt: HostRuntime) -> Result<(), Fail> {
    let alloc = rt.alloc();
    let more = joined(
        alloc,
        &[
            FLIPS,
            "show 1 0\nblank 1 0\nbus 1 5\nserve 1\nbus 1 1\nserve 1\nbus 1 3\nserve 1\nblank 1 0\nshow 1 0\nserve 1\n",
            // FLIP and DETACH of 11, DESTROY of 1, which aren't there
            "put 1 0 80 0x00050005\nput 1 0 82 11\nput 1 0 96 0x00030006\nput 1 0 98 11\nput 1 0 112 0x00010007\nput 1 0 114 1\n",
            // CREATE of 1, ATTACH of 11 and FLIP to it
            "put 1 0 128 8\nput 1 0 130 1\nput 1 0 132 32\nput 1 0 133 32\nput 1 0 134 32\nput 1 0 135 4096\nput 1 0 137 2\n",
            "put 1 0 144 0x00020009\nput 1 0 146 1\nput 1 0 148 11\nput 1 0 150 32\nput 1 0 151 32\nput 1 0 152 0x34325258\n",
            "put 1 0 160 0x0005000a\nput 1 0 162 11\nput 1 0 0 10\nserve 1\n",
        ],
    )?;
    let outcome = run_shown(alloc, "", more.as_str())?;
    let lines = joined(
        alloc,
        &[
            FLIPPED,
            "bus 1 front 5\nclosed 1 asked 5\nbus 1 back 6\nbus 1 front 1\nbus 1 back 2\n",
            CONNECTED,
            "blank 1 0\nshown 1 0 0 0\n",
            "request 1 0 5 5\nreply 1 0 5 -2\nrequest 1 0 6 3\nreply 1 0 6 -2\nrequest 1 0 7 1\nreply 1 0 7 -2\n",
            "request 1 0 8 0\nreply 1 0 8 0\nrequest 1 0 9 2\nreply 1 0 9 0\nrequest 1 0 10 5\nreply 1 0 10 -22\n",
        ],
    )?;
    let wanted = after_three_replies(alloc, lines.as_str())?;
    expect_played(&rt, &outcome, wanted.as_bytes());
    Ok(())
}

// An event waits until what came of it is said: a Show under way is one of the 64.
#[test]
fn an_event_under_way_still_waits(rt: HostRuntime) -> Result<(), Fail> {
    let alloc = rt.alloc();
    let blanks = "blank 1 0\n".repeat(alloc, 63)?;
    let more = joined(
        alloc,
        &[
            "show 1 0\n",
            blanks.as_str(),
            "back 1 1000\nblank 1 0\nback 1 24\nblank 1 0\nserve 1\n",
        ],
    )?;
    let outcome = run_shown(alloc, "", more.as_str())?;
    let lines = joined(
        alloc,
        &[
            "refused 1 full\nshown 1 0 1024 0\n",
            blanks.as_str(),
            "blank 1 0\n",
        ],
    )?;
    let wanted = after_three_replies(alloc, lines.as_str())?;
    expect_played(&rt, &outcome, wanted.as_bytes());
    Ok(())
}
