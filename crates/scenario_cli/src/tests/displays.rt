// Whole scenarios of one display and of several.
use super::running::*;
use pv_words::DevId;
use std::alloc::{AllocError, Global};
use std::test::Fail;

#[test]
fn one_request(rt: HostRuntime) -> Result<(), Fail> {
    let alloc = rt.alloc();
    let outcome = run_connected(alloc, "")?;
    expect_played(&rt, &outcome, CONNECTED.as_bytes());
    assert_eq!(rt; accesses(&outcome.journal, DevId(1)), 11);
    let script = one_request_script(alloc)?;
    let outcome = run_script(alloc, script.as_str())?;
    expect_played(
        &rt,
        &outcome,
        b"bus 1 front 3\nbus 1 back 4\nrequest 1 0 1 4\nreply 1 0 1 0 notify\n",
    );
    assert_eq!(rt; accesses(&outcome.journal, DevId(1)), 11 + 38);
    Ok(())
}

#[test]
fn what_a_connected_device_answers(rt: HostRuntime) -> Result<(), Fail> {
    let alloc = rt.alloc();
    for (more, lines) in [
        (
            "put 1 0 16 0x00090001\nput 1 0 0 1\nserve 1\n",
            "request 1 0 1 9\nreply 1 0 1 -95 notify\n",
        ),
        (
            "put 1 0 0 33\nserve 1\n",
            "closed 1 overrun 33 0\nbus 1 back 6\n",
        ),
        (
            "bus 1 5\nwake 1\nserve 1\nbus 1 1\nserve 1\nbus 1 3\nserve 1\n",
            "bus 1 front 5\nclosed 1 asked 5\nbus 1 back 6\nbus 1 front 1\nbus 1 back 2\nbus 1 front 3\nbus 1 back 4\n",
        ),
    ] {
        let outcome = run_connected(alloc, more)?;
        let wanted = joined(alloc, &[CONNECTED, lines])?;
        expect_played(&rt, &outcome, wanted.as_bytes());
    }
    Ok(())
}

#[test]
fn as_many_requests_as_slots(rt: HostRuntime) -> Result<(), Fail> {
    let alloc = rt.alloc();
    let outcome = run_connected(alloc, "put 1 0 0 32\nserve 1\n")?;
    let mut wanted = joined(
        alloc,
        &[CONNECTED, "request 1 0 0 0\nreply 1 0 0 -22 notify\n"],
    )?;
    for _ in 1..32 {
        wanted.push_str("request 1 0 0 0\nreply 1 0 0 -22\n")?;
    }
    expect_played(&rt, &outcome, wanted.as_bytes());
    Ok(())
}

#[test]
fn indices_go_on_at_zero(rt: HostRuntime) -> Result<(), Fail> {
    let alloc = rt.alloc();
    let outcome = run_parts(
        alloc,
        &[
            DECLARED,
            OPENED,
            NODES,
            "put 1 0 0 4294967294\nput 1 0 2 4294967294\n",
            CONNECTS,
            "put 1 0 0 2\nserve 1\n",
        ],
    )?;
    let pair = "request 1 0 0 0\nreply 1 0 0 -22\n";
    let notified = "request 1 0 0 0\nreply 1 0 0 -22 notify\n";
    let wanted = joined(alloc, &[CONNECTED, pair, pair, notified, pair])?;
    expect_played(&rt, &outcome, wanted.as_bytes());
    Ok(())
}

// The page of a buffer is in use until the buffer is destroyed.
#[test]
fn a_buffer_is_made_and_destroyed(rt: HostRuntime) -> Result<(), Fail> {
    let alloc = rt.alloc();
    let outcome = run_buffer(
        alloc,
        "",
        "put 1 0 0 1\nserve 1\nend 1 3 1\nput 1 0 32 0x00010002\nput 1 0 34 1\nput 1 0 0 2\nserve 1\nend 1 3 1\n",
    )?;
    let wanted = joined(
        alloc,
        &[
            CONNECTED,
            "request 1 0 1 0\nreply 1 0 1 0 notify\ngrant 1 3 busy 9\n",
            "request 1 0 2 1\nreply 1 0 2 0\ngrant 1 3 ended\n",
        ],
    )?;
    expect_played(&rt, &outcome, wanted.as_bytes());
    Ok(())
}

// The second request stands beside a live buffer of cookie 1, and no framebuffer is attached.
#[test]
fn requests_that_are_refused(rt: HostRuntime) -> Result<(), Fail> {
    let alloc = rt.alloc();
    for (asks, op, status) in [
        ("put 1 0 32 2\nput 1 0 40 1\n", "0", "-95"),
        ("put 1 0 32 2\nput 1 0 34 1\n", "0", "-17"),
        ("put 1 0 32 2\nput 1 0 34 2\n", "0", "-22"),
        ("put 1 0 32 0x00010002\nput 1 0 34 2\n", "1", "-2"),
        ("put 1 0 32 0x00020002\nput 1 0 34 2\n", "2", "-2"),
        ("put 1 0 32 0x00030002\nput 1 0 34 1\n", "3", "-2"),
        ("put 1 0 32 0x00040002\nput 1 0 34 1\n", "4", "-2"),
        ("put 1 0 32 0x00050002\nput 1 0 34 1\n", "5", "-2"),
        ("put 1 0 32 0x00060002\nput 1 0 34 1\n", "6", "-95"),
    ] {
        let more = joined(
            alloc,
            &["put 1 0 0 1\nserve 1\n", asks, "put 1 0 0 2\nserve 1\n"],
        )?;
        let outcome = run_buffer(alloc, "", more.as_str())?;
        let wanted = joined(
            alloc,
            &[
                CONNECTED,
                "request 1 0 1 0\nreply 1 0 1 0 notify\nrequest 1 0 2 ",
                op,
                "\nreply 1 0 2 ",
                status,
                "\n",
            ],
        )?;
        expect_played(&rt, &outcome, wanted.as_bytes());
    }
    Ok(())
}

// A page that is in use already is denied; the walk of one page makes eight accesses, of which a refused map of its page
// makes one, and the directory page is unmapped.
#[test]
fn a_page_that_is_denied(rt: HostRuntime) -> Result<(), Fail> {
    let alloc = rt.alloc();
    for (change, cause, made) in [
        ("putg 1 3 flags 9\n", "inuse 9", 11 + 17 + 6 + 18 + 3),
        ("putg 1 2 flags 0\n", "notpermitted 0", 11 + 17 + 1 + 18 + 3),
        ("put 1 0 25 4\n", "noentry 4", 11 + 17 + 18 + 3),
        ("put 1 2 1 4\n", "noentry 4", 11 + 17 + 5 + 18 + 3),
        ("putg 1 3 frame 4\n", "badframe 4", 11 + 17 + 9 + 18 + 3),
    ] {
        let more = joined(alloc, &[change, "put 1 0 0 1\nserve 1\n"])?;
        let outcome = run_buffer(alloc, "", more.as_str())?;
        let wanted = joined(
            alloc,
            &[
                CONNECTED,
                "request 1 0 1 0\ndenied 1 ",
                cause,
                "\nreply 1 0 1 -13 notify\n",
            ],
        )?;
        expect_played(&rt, &outcome, wanted.as_bytes());
        assert_eq!(rt; accesses(&outcome.journal, DevId(1)), made);
    }
    Ok(())
}

// 1024 pages need a second directory page, and there is none: the 4096 accesses of the walk so far are undone by as many
// clears as pages are held, 1024 with the directory's.
#[test]
fn a_directory_without_a_further_page(rt: HostRuntime) -> Result<(), Fail> {
    let alloc = rt.alloc();
    let outcome = run_parts(
        alloc,
        &[
            "domain 1 wild 1030 1030\ndisplay 1 1 1\nput 1 0 1 1\nput 1 0 3 1\nopen 1 0 0 rw 1030\n",
            NODES,
            "fill 1 2 1 1023 3 1\n",
            CONNECTS,
            "put 1 0 16 1\nput 1 0 18 1\nput 1 0 20 32\nput 1 0 21 32768\nput 1 0 22 32\nput 1 0 23 4194304\nput 1 0 25 2\n",
            "put 1 0 0 1\nserve 1\nend 1 0 4\nend 1 1029 1\n",
        ],
    )?;
    let wanted = joined(
        alloc,
        &[
            CONNECTED,
            "request 1 0 1 0\ndenied 1 nonext\nreply 1 0 1 -13 notify\n",
            "grant 1 0 busy 25\ngrant 1 1 busy 25\ngrant 1 2 ended\ngrant 1 3 ended\ngrant 1 1029 ended\n",
        ],
    )?;
    expect_played(&rt, &outcome, wanted.as_bytes());
    assert_eq!(rt;
        accesses(&outcome.journal, DevId(1)),
        11 + 17 + 5120 + 18 + 3
    );
    Ok(())
}

// The frontend ends the connection while a buffer's pages are mapped: the walk comes to its end, and the Close unmaps its
// page with the two of the connector. Afterwards the same request is taken anew.
#[test]
fn a_walk_comes_to_its_end_before_a_close(rt: HostRuntime) -> Result<(), Fail> {
    let alloc = rt.alloc();
    for (more, lines, made) in [
        ("", "", 11 + 20 + 5 + 3),
        (
            "bus 1 1\nserve 1\nbus 1 3\nserve 1\n",
            "bus 1 front 1\nbus 1 back 2\nbus 1 front 3\nbus 1 back 4\nrequest 1 0 1 0\nreply 1 0 1 0 notify\n",
            11 + 20 + 5 + 3 + 8 + 17 + 8 + 18 + 3,
        ),
        (
            "bus 1 1\nserve 1\nbus 1 3\nserve 1\nbus 1 6\nserve 1\nend 1 0 4\n",
            "bus 1 front 1\nbus 1 back 2\nbus 1 front 3\nbus 1 back 4\nrequest 1 0 1 0\nreply 1 0 1 0 notify\n\
             bus 1 front 6\nclosed 1 asked 6\nbus 1 back 6\ngrant 1 0 ended\ngrant 1 1 ended\ngrant 1 2 ended\ngrant 1 3 ended\n",
            11 + 20 + 5 + 3 + 8 + 17 + 8 + 18 + 3 + 3,
        ),
    ] {
        let script = joined(alloc, &["put 1 0 0 1\nback 1 20\nbus 1 5\nserve 1\n", more])?;
        let outcome = run_buffer(alloc, "", script.as_str())?;
        let wanted = joined(
            alloc,
            &[
                CONNECTED,
                "request 1 0 1 0\nbus 1 front 5\nclosed 1 asked 5\nbus 1 back 6\n",
                lines,
            ],
        )?;
        expect_played(&rt, &outcome, wanted.as_bytes());
        assert_eq!(rt; accesses(&outcome.journal, DevId(1)), made);
    }
    Ok(())
}

#[test]
fn nodes_that_are_faulty(rt: HostRuntime) -> Result<(), Fail> {
    let alloc = rt.alloc();
    for (nodes, lines) in [
        (
            "node 1 0 req-event-channel 1\nnode 1 0 evt-ring-ref 1\nnode 1 0 evt-event-channel 2\n",
            "closed 1 node 0 0 missing\n",
        ),
        (
            "node 1 0 req-ring-ref 0\nnode 1 0 req-event-channel x\n",
            "closed 1 node 0 1 bad\n",
        ),
        (
            "node 1 0 req-ring-ref 0\nnode 1 0 req-event-channel 1\nnode 1 0 evt-ring-ref 0x1\n",
            "closed 1 node 0 2 bad\n",
        ),
        (
            "node 1 0 req-ring-ref 4294967296\n",
            "closed 1 node 0 0 bad\n",
        ),
    ] {
        let outcome = run_parts(alloc, &[DECLARED, OPENED, nodes, CONNECTS])?;
        let wanted = joined(alloc, &["bus 1 front 3\n", lines, "bus 1 back 6\n"])?;
        expect_played(&rt, &outcome, wanted.as_bytes());
        assert_eq!(rt; accesses(&outcome.journal, DevId(1)), 0);
    }
    Ok(())
}

#[test]
fn nodes_are_seen_with_the_next_state(rt: HostRuntime) -> Result<(), Fail> {
    let alloc = rt.alloc();
    let outcome = run_parts(
        alloc,
        &[
            DECLARED,
            OPENED,
            "bus 1 3\n",
            NODES,
            "serve 1\nbus 1 1\nserve 1\nbus 1 3\nserve 1\n",
        ],
    )?;
    expect_played(
        &rt,
        &outcome,
        b"bus 1 front 3\nclosed 1 node 0 0 missing\nbus 1 back 6\nbus 1 front 1\nbus 1 back 2\nbus 1 front 3\nbus 1 back 4\n",
    );
    Ok(())
}

#[test]
fn maps_that_are_refused(rt: HostRuntime) -> Result<(), Fail> {
    let alloc = rt.alloc();
    for (opened, changed, lines, made) in [
        (OPENED, "node 1 0 req-ring-ref 2\n", "noentry 2\n", 0),
        (OPENED, "node 1 0 evt-ring-ref 2\n", "noentry 2\n", 5),
        ("", "", "notpermitted 0\n", 1),
        (OPENED, "putg 1 0 flags 65537\n", "otherdomain 65537\n", 1),
        ("open 1 0 0 ro 2\n", "", "readonly 5\n", 1),
        (OPENED, "putg 1 0 flags 9\n", "inuse 9\n", 1),
        (OPENED, "node 1 0 evt-ring-ref 0\n", "inuse 25\n", 6),
        (OPENED, "putg 1 1 frame 2\n", "badframe 2\n", 9),
    ] {
        let outcome = run_parts(alloc, &[DECLARED, opened, NODES, changed, CONNECTS])?;
        let wanted = joined(
            alloc,
            &["bus 1 front 3\nclosed 1 refused ", lines, "bus 1 back 6\n"],
        )?;
        expect_played(&rt, &outcome, wanted.as_bytes());
        assert_eq!(rt; accesses(&outcome.journal, DevId(1)), made);
    }
    Ok(())
}

#[test]
fn a_refused_connect_leaves_no_page_mapped(rt: HostRuntime) -> Result<(), Fail> {
    let alloc = rt.alloc();
    let changed = "node 1 0 evt-ring-ref 0\n";
    let outcome = run_parts(
        alloc,
        &[DECLARED, OPENED, NODES, changed, CONNECTS, "end 1 0 1\n"],
    )?;
    expect_played(
        &rt,
        &outcome,
        b"bus 1 front 3\nclosed 1 refused inuse 25\nbus 1 back 6\ngrant 1 0 ended\n",
    );
    Ok(())
}

#[test]
fn a_connect_is_cut_and_goes_on(rt: HostRuntime) -> Result<(), Fail> {
    let alloc = rt.alloc();
    for (more, lines, made) in [
        ("back 1 7\n", "", 7),
        ("back 1 8\n", "bus 1 back 4\n", 8),
        ("back 1 7\nback 1 100\n", "bus 1 back 4\n", 11),
        (
            "back 1 7\nbus 1 5\nserve 1\n",
            "bus 1 front 5\nbus 1 back 4\nclosed 1 asked 5\nbus 1 back 6\n",
            10,
        ),
    ] {
        let outcome = run_parts(alloc, &[DECLARED, OPENED, NODES, "bus 1 3\n", more])?;
        let wanted = joined(alloc, &["bus 1 front 3\n", lines])?;
        expect_played(&rt, &outcome, wanted.as_bytes());
        assert_eq!(rt; accesses(&outcome.journal, DevId(1)), made);
    }
    Ok(())
}

// Four accesses look at the ring and load the slot's words 0 to 2.
#[test]
fn each_word_of_a_slot_is_loaded_once(rt: HostRuntime) -> Result<(), Fail> {
    let alloc = rt.alloc();
    for (change, reply) in [
        ("put 1 0 18 5\n", "reply 1 0 1 0 notify\n"),
        ("put 1 0 19 5\n", "reply 1 0 1 -2 notify\n"),
    ] {
        let more = joined(alloc, &[ASKS, "back 1 4\n", change, "serve 1\n"])?;
        let outcome = run_connected(alloc, more.as_str())?;
        let wanted = joined(alloc, &[CONNECTED, "request 1 0 1 4\n", reply])?;
        expect_played(&rt, &outcome, wanted.as_bytes());
        assert_eq!(rt; accesses(&outcome.journal, DevId(1)), 11 + 38);
    }
    Ok(())
}

// The nodes of a part, whose pages are those of these two grants.
fn nodes_of(alloc: Global, dev: u8, part: u8, ring: u8, event: u8) -> Result<String, AllocError> {
    format!(in alloc;
        "node {dev} {part} req-ring-ref {ring}\nnode {dev} {part} req-event-channel 1\n\
         node {dev} {part} evt-ring-ref {event}\nnode {dev} {part} evt-event-channel 2\n"
    )
}

// Domain 1 has devices 3 and 5, of which 5 has two connectors, and domain 2 has device 1. All of them connect.
fn three_devices(alloc: Global) -> Result<String, AllocError> {
    let of_3 = nodes_of(alloc, 3, 0, 0, 1)?;
    let of_5 = nodes_of(alloc, 5, 0, 2, 3)?;
    let second_of_5 = nodes_of(alloc, 5, 1, 4, 5)?;
    let of_1 = nodes_of(alloc, 1, 0, 0, 1)?;
    joined(
        alloc,
        &[
            "domain 1 wild 6 6\ndomain 2 wild 2 2\ndisplay 3 1 1\ndisplay 5 1 2\ndisplay 1 2 1\n",
            "open 1 0 0 rw 6\nopen 2 0 0 rw 2\n",
            of_3.as_str(),
            of_5.as_str(),
            second_of_5.as_str(),
            of_1.as_str(),
            "bus 3 3\nbus 5 3\nbus 1 3\nserve 5\nserve 1\nserve 3\n",
        ],
    )
}

const ALL_CONNECTED: &str =
    "bus 3 front 3\nbus 5 front 3\nbus 1 front 3\nbus 5 back 4\nbus 1 back 4\nbus 3 back 4\n";

#[test]
fn several_devices_connect(rt: HostRuntime) -> Result<(), Fail> {
    let alloc = rt.alloc();
    let script = three_devices(alloc)?;
    let outcome = run_script(alloc, script.as_str())?;
    expect_played(&rt, &outcome, ALL_CONNECTED.as_bytes());
    assert_eq!(rt; accesses(&outcome.journal, DevId(1)), 11);
    assert_eq!(rt; accesses(&outcome.journal, DevId(3)), 11);
    assert_eq!(rt; accesses(&outcome.journal, DevId(5)), 22);
    Ok(())
}

// Two requests by connector 0 of device 5, and one by connector 1.
const ASKS_OF_BOTH: &str =
    "put 1 2 3 2\nput 1 2 16 0x00040001\nput 1 2 32 0x00040002\nput 1 2 0 2\nput 1 4 3 1\nput 1 4 16 0x00040007\nput 1 4 0 1\n";

#[test]
fn a_round_goes_by_connectors(rt: HostRuntime) -> Result<(), Fail> {
    let alloc = rt.alloc();
    let declared = three_devices(alloc)?;
    let outcome = run_parts(alloc, &[declared.as_str(), ASKS_OF_BOTH, "serve 5\n"])?;
    let wanted = joined(
        alloc,
        &[
            ALL_CONNECTED,
            "request 5 0 1 4\nreply 5 0 1 0\nrequest 5 0 2 4\nreply 5 0 2 0 notify\n",
            "request 5 1 7 4\nreply 5 1 7 0 notify\n",
        ],
    )?;
    expect_played(&rt, &outcome, wanted.as_bytes());
    assert_eq!(rt; accesses(&outcome.journal, DevId(5)), 22 + 110);
    Ok(())
}

#[test]
fn a_device_closes_and_others_go_on(rt: HostRuntime) -> Result<(), Fail> {
    let alloc = rt.alloc();
    let declared = three_devices(alloc)?;
    let outcome = run_parts(
        alloc,
        &[
            declared.as_str(),
            "bus 3 5\nserve 3\nend 1 0 1\nend 1 2 1\nput 2 0 0 1\nserve 1\n",
        ],
    )?;
    let wanted = joined(
        alloc,
        &[
            ALL_CONNECTED,
            "bus 3 front 5\nclosed 3 asked 5\nbus 3 back 6\ngrant 1 0 ended\ngrant 1 2 busy 25\n",
            "request 1 0 0 0\nreply 1 0 0 -22\n",
        ],
    )?;
    expect_played(&rt, &outcome, wanted.as_bytes());
    assert_eq!(rt; accesses(&outcome.journal, DevId(3)), 11 + 2);
    Ok(())
}
