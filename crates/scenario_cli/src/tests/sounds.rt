// Whole scenarios of a sound device.
use super::running::*;
use std::test::Fail;

// The ring page of device 2 is frame 0, of which it is to notify the frontend of reply 1, its event page frame 1, and frame 2 a page
// directory that lists frame 3. It connects.
const PAGES: &str =
    "put 1 0 1 1\nput 1 0 3 1\nput 1 2 1 3\nopen 1 0 0 rw 7\nnode 2 0 ring-ref 0\nnode 2 0 event-channel 1\nnode 2 0 evt-ring-ref 1\n\
     node 2 0 evt-event-channel 2\nbus 2 3\nserve 2\n";

// The first request is an OPEN: 48000 frames in a second, of two samples of 16 bits; a buffer of one page, and a period of 4 octets.
const OPENS: &str =
    "put 1 0 16 1\nput 1 0 18 48000\nput 1 0 19 514\nput 1 0 20 4096\nput 1 0 21 2\nput 1 0 22 4\nput 1 0 0 1\n";

// The page of its stream is made one that may only be read.
const SHUT: &str = "putg 1 3 flags 5\nserve 2\nend 1 3 1\nbus 2 5\nserve 2\nend 1 3 1\n";

// Devices of domain 1, what follows the OPEN, and what comes of it: a query is answered by what is offered; a stream is closed once; the
// page of a stream of playback is read and that of a stream of capture written, and a Close gives it up; a stream that doesn't run
// moves nothing, and a Close drops the ticks that wait; a display is another device.
const COURSES: [(&str, &str, &str); 7] = [
    (
        "sound 2 1 p\n",
        "serve 2\nput 1 0 32 0x00090002\nput 1 0 34 4\nput 1 0 36 192000\nput 1 0 37 400000\nput 1 0 38 2\nput 1 0 39 2\n\
         put 1 0 40 1024\nput 1 0 41 1024\nput 1 0 42 256\nput 1 0 43 2000000\nput 1 0 0 2\nserve 2\n",
        "request 2 0 1 0\nreply 2 0 1 0 notify\nrequest 2 0 2 9\nreply 2 0 2 0\n",
    ),
    (
        "sound 2 1 p\n",
        "serve 2\nput 1 0 32 0x00010002\nput 1 0 48 0x00010003\nput 1 0 0 3\nserve 2\nend 1 3 1\n",
        "request 2 0 1 0\nreply 2 0 1 0 notify\nrequest 2 0 2 1\nreply 2 0 2 0\nrequest 2 0 3 1\nreply 2 0 3 -16\ngrant 1 3 ended\n",
    ),
    (
        "sound 2 1 p\n",
        SHUT,
        "request 2 0 1 0\nreply 2 0 1 0 notify\ngrant 1 3 busy 13\nbus 2 front 5\nclosed 2 asked 5\nbus 2 back 6\ngrant 1 3 ended\n",
    ),
    (
        "sound 2 1 c\n",
        SHUT,
        "request 2 0 1 0\ndenied 2 readonly 5\nreply 2 0 1 -13 notify\ngrant 1 3 ended\nbus 2 front 5\nclosed 2 asked 5\nbus 2 back 6\n\
         grant 1 3 ended\n",
    ),
    (
        "sound 2 1 p\n",
        "tick 2 0 1048576\nserve 2\ntick 2 0 1\nserve 2\n",
        "moved 2 0 0 0\nrequest 2 0 1 0\nreply 2 0 1 0 notify\nmoved 2 0 0 0\n",
    ),
    (
        "sound 2 1 p\n",
        "tick 2 0 1\nbus 2 5\nserve 2\ntick 2 0 1\n",
        "bus 2 front 5\nclosed 2 asked 5\nbus 2 back 6\nrefused 2 notconnected\n",
    ),
    (
        "sound 2 1 p\ndisplay 1 1 1\n",
        "node 1 0 req-ring-ref 5\nnode 1 0 req-event-channel 1\nnode 1 0 evt-ring-ref 6\nnode 1 0 evt-event-channel 2\nbus 1 3\nserve 1\n\
         put 1 5 16 0x00040001\nput 1 5 0 1\ntick 2 0 1\nblank 1 0\nserve 1\nserve 2\n",
        "bus 1 front 3\nbus 1 back 4\nblank 1 0\nrequest 1 0 1 4\nreply 1 0 1 0\nmoved 2 0 0 0\nrequest 2 0 1 0\nreply 2 0 1 0 notify\n",
    ),
];

#[test]
fn streams_are_opened_and_closed(rt: HostRuntime) -> Result<(), Fail> {
    let alloc = rt.alloc();
    for (devices, more, lines) in COURSES {
        let outcome = run_parts(alloc, &["domain 1 wild 7 7\n", devices, PAGES, OPENS, more])?;
        let wanted = joined(alloc, &["bus 2 front 3\nbus 2 back 4\n", lines])?;
        expect_played(&rt, &outcome, wanted.as_bytes());
    }
    Ok(())
}
