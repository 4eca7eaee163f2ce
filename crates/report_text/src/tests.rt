// Whether the definitions say what a report's lines are: each line once, with its fields at their bounds.
use super::*;
use pv_words::{
    Access, DevId, DomId, End, Entry, Frame, GrantRef, GrantRefusal, Half, HostEvent, HostRefusal,
    NodeFault, NodeValue, Place, Reason, Said, State, Told, Touch,
};

const DEV: DevId = DevId(255);

const DOM: DomId = DomId(255);

const GREF: GrantRef = GrantRef(4294967295);

const FIRST: i32 = -2147483648;

const LAST: i32 = 2147483647;

// What devices say, take as their states and refuse, and what domains are told.
const PLAIN: [(Entry, &str); 48] = [
    (
        Entry::Bus(DevId(0), End::Front, State::Unknown),
        "bus 0 front 0\n",
    ),
    (
        Entry::Bus(DEV, End::Back, State::Reconfigured),
        "bus 255 back 8\n",
    ),
    (
        Entry::Refused(DEV, HostRefusal::NotConnected),
        "refused 255 notconnected\n",
    ),
    (Entry::Refused(DEV, HostRefusal::Full), "refused 255 full\n"),
    (
        Entry::Refused(DEV, HostRefusal::AlreadyDown(255)),
        "refused 255 alreadydown 255\n",
    ),
    (
        Entry::Refused(DEV, HostRefusal::NotDown(0)),
        "refused 255 notdown 0\n",
    ),
    (
        Entry::Refused(DEV, HostRefusal::TooMany(16)),
        "refused 255 toomany 16\n",
    ),
    (
        Entry::Refused(DEV, HostRefusal::KeyIsDown(4294967295)),
        "refused 255 keyisdown 4294967295\n",
    ),
    (
        Entry::Refused(DEV, HostRefusal::KeyIsUp(0)),
        "refused 255 keyisup 0\n",
    ),
    (
        Entry::Refused(DEV, HostRefusal::TooManyKeys(4294967295)),
        "refused 255 toomanykeys 4294967295\n",
    ),
    (
        Entry::Told(DOM, Told::OpenRefused(GREF, 4294967295)),
        "grant 255 4294967295 refused 4294967295\n",
    ),
    (
        Entry::Told(DomId(0), Told::Ended(GrantRef(0))),
        "grant 0 0 ended\n",
    ),
    (
        Entry::Told(DOM, Told::Busy(GREF, 24)),
        "grant 255 4294967295 busy 24\n",
    ),
    (
        Entry::Told(DOM, Told::Moved(GREF, 0, 4294967295)),
        "grant 255 4294967295 moved 0 4294967295\n",
    ),
    (Entry::Told(DOM, Told::NotReady(DEV)), "notready 255\n"),
    (
        Entry::Said(DEV, Said::Request(255, 65535, 254)),
        "request 255 255 65535 254\n",
    ),
    (
        Entry::Said(DEV, Said::Denied(GrantRefusal::NoEntry(4294967295))),
        "denied 255 noentry 4294967295\n",
    ),
    (
        Entry::Said(DEV, Said::Denied(GrantRefusal::NotPermitted(0))),
        "denied 255 notpermitted 0\n",
    ),
    (
        Entry::Said(DEV, Said::Denied(GrantRefusal::OtherDomain(65537))),
        "denied 255 otherdomain 65537\n",
    ),
    (
        Entry::Said(DEV, Said::Denied(GrantRefusal::ReadOnly(5))),
        "denied 255 readonly 5\n",
    ),
    (
        Entry::Said(DEV, Said::Denied(GrantRefusal::InUse(9))),
        "denied 255 inuse 9\n",
    ),
    (
        Entry::Said(DEV, Said::Denied(GrantRefusal::Moved(1, 4294967295))),
        "denied 255 moved 1 4294967295\n",
    ),
    (
        Entry::Said(DEV, Said::Denied(GrantRefusal::BadFrame(4294967295))),
        "denied 255 badframe 4294967295\n",
    ),
    (
        Entry::Said(DEV, Said::Denied(GrantRefusal::NoNext)),
        "denied 255 nonext\n",
    ),
    (
        Entry::Said(DEV, Said::Replied(255, 65535, FIRST, true)),
        "reply 255 255 65535 -2147483648 notify\n",
    ),
    (
        Entry::Said(DEV, Said::Replied(3, 0, LAST, false)),
        "reply 255 3 0 2147483647\n",
    ),
    (
        Entry::Said(DEV, Said::Raised(255, 18446744073709551615)),
        "flip 255 255 18446744073709551615\n",
    ),
    (Entry::Said(DEV, Said::Raised(0, 0)), "flip 255 0 0\n"),
    (
        Entry::Said(DEV, Said::Pos(255, 18446744073709551615)),
        "pos 255 255 18446744073709551615\n",
    ),
    (Entry::Said(DEV, Said::Full(255)), "full 255 255\n"),
    (Entry::Said(DEV, Said::Blank(255)), "blank 255 255\n"),
    (
        Entry::Said(DEV, Said::Shown(255, 8388608, 4294967295)),
        "shown 255 255 8388608 4294967295\n",
    ),
    (
        Entry::Said(DEV, Said::Moved(255, 4294967295, 0)),
        "moved 255 255 4294967295 0\n",
    ),
    (
        Entry::Said(DEV, Said::Published(4294967295)),
        "published 255 4294967295\n",
    ),
    (
        Entry::Said(DEV, Said::Closed(Reason::Asked(State::Unknown))),
        "closed 255 asked 0\n",
    ),
    (
        Entry::Said(DEV, Said::Closed(Reason::Overrun(4294967295, 0))),
        "closed 255 overrun 4294967295 0\n",
    ),
    (
        Entry::Said(DEV, Said::Closed(Reason::BadCons(0, 4294967295))),
        "closed 255 badcons 0 4294967295\n",
    ),
    (
        Entry::Said(DEV, Said::Closed(Reason::Spent(4294967232))),
        "closed 255 spent 4294967232\n",
    ),
    (
        Entry::Said(DEV, Said::Closed(Reason::Node(255, 0, NodeFault::Missing))),
        "closed 255 node 255 0 missing\n",
    ),
    (
        Entry::Said(DEV, Said::Closed(Reason::Node(0, 255, NodeFault::Bad))),
        "closed 255 node 0 255 bad\n",
    ),
    (
        Entry::Said(DEV, Said::Closed(Reason::Refused(GrantRefusal::NoEntry(2)))),
        "closed 255 refused noentry 2\n",
    ),
    (
        Entry::Said(
            DEV,
            Said::Closed(Reason::Refused(GrantRefusal::NotPermitted(257))),
        ),
        "closed 255 refused notpermitted 257\n",
    ),
    (
        Entry::Said(
            DEV,
            Said::Closed(Reason::Refused(GrantRefusal::OtherDomain(65537))),
        ),
        "closed 255 refused otherdomain 65537\n",
    ),
    (
        Entry::Said(
            DEV,
            Said::Closed(Reason::Refused(GrantRefusal::ReadOnly(5))),
        ),
        "closed 255 refused readonly 5\n",
    ),
    (
        Entry::Said(DEV, Said::Closed(Reason::Refused(GrantRefusal::InUse(25)))),
        "closed 255 refused inuse 25\n",
    ),
    (
        Entry::Said(
            DEV,
            Said::Closed(Reason::Refused(GrantRefusal::Moved(4294967295, 1))),
        ),
        "closed 255 refused moved 4294967295 1\n",
    ),
    (
        Entry::Said(
            DEV,
            Said::Closed(Reason::Refused(GrantRefusal::BadFrame(2))),
        ),
        "closed 255 refused badframe 2\n",
    ),
    (
        Entry::Said(DEV, Said::Closed(Reason::Refused(GrantRefusal::NoNext))),
        "closed 255 refused nonext\n",
    ),
];

const CELL: Place = Place::Cell(DOM, Frame(4294967295), 65535);

const FLAGS: Place = Place::Grant(DOM, GREF, Half::Flags);

const FRAME_NUMBER: Place = Place::Grant(DomId(0), GrantRef(0), Half::FrameNo);

// Accesses, set nodes, raised devices and events of hosts.
const WITH_WORDS: [(Entry, &str); 21] = [
    (
        Entry::Front(
            DomId(0),
            Access::Load(Place::Cell(DomId(0), Frame(0), 0), 0),
        ),
        "front 0 load cell 0 0 0 0\n",
    ),
    (
        Entry::Front(DOM, Access::Store(FRAME_NUMBER, 16383)),
        "front 255 store grant 0 0 frame 16383\n",
    ),
    (
        Entry::Front(DOM, Access::Cas(FLAGS, 0, 5, 4294967295)),
        "front 255 swap grant 255 4294967295 flags 0 5 4294967295\n",
    ),
    (
        Entry::Back(DEV, Access::Load(FLAGS, 1)),
        "back 255 load grant 255 4294967295 flags 1\n",
    ),
    (
        Entry::Back(DEV, Access::Store(CELL, 10)),
        "back 255 store cell 255 4294967295 65535 10\n",
    ),
    (
        Entry::Back(DEV, Access::Cas(CELL, 4294967293, 4294967294, 4294967295)),
        "back 255 swap cell 255 4294967295 65535 4294967293 4294967294 4294967295\n",
    ),
    (
        Entry::Back(DEV, Access::Clear(FLAGS, 24, 25)),
        "back 255 clear grant 255 4294967295 flags 24 25\n",
    ),
    (Entry::Wake(DEV), "wake 255\n"),
    (
        Entry::Node(DEV, 255, 0, NodeValue::Absent),
        "node 255 255 0 absent\n",
    ),
    (
        Entry::Node(DEV, 0, 255, NodeValue::Bad),
        "node 255 0 255 bad\n",
    ),
    (
        Entry::Node(DEV, 3, 3, NodeValue::Number(4294967295)),
        "node 255 3 3 4294967295\n",
    ),
    (
        Entry::Host(DevId(1), HostEvent::Blank(0)),
        "host 1 blank 0\n",
    ),
    (
        Entry::Host(DEV, HostEvent::Show(255)),
        "host 255 show 255\n",
    ),
    (
        Entry::Host(DEV, HostEvent::Tick(255, 1048576)),
        "host 255 tick 255 1048576\n",
    ),
    (
        Entry::Host(DEV, HostEvent::Touch(Touch::Down(255, FIRST, LAST))),
        "host 255 touch down 255 -2147483648 2147483647\n",
    ),
    (
        Entry::Host(DEV, HostEvent::Touch(Touch::Move(0, 0, -1))),
        "host 255 touch move 0 0 -1\n",
    ),
    (
        Entry::Host(DEV, HostEvent::Touch(Touch::Up(255))),
        "host 255 touch up 255\n",
    ),
    (
        Entry::Host(DEV, HostEvent::Key(4294967295, true)),
        "host 255 key 4294967295 1\n",
    ),
    (
        Entry::Host(DEV, HostEvent::Key(0, false)),
        "host 255 key 0 0\n",
    ),
    (
        Entry::Host(DEV, HostEvent::Motion(FIRST, LAST, 0)),
        "host 255 motion -2147483648 2147483647 0\n",
    ),
    (
        Entry::Host(DEV, HostEvent::Position(LAST, 0, FIRST)),
        "host 255 position 2147483647 0 -2147483648\n",
    ),
];

#[test]
fn lines_of_all_forms(rt: HostRuntime) {
    for (entry, wanted) in &PLAIN {
        assert_eq!(rt; line_of(entry, false).as_bytes(), wanted.as_bytes());
        assert_eq!(rt; line_of(entry, true).as_bytes(), wanted.as_bytes());
    }
    for (entry, wanted) in &WITH_WORDS {
        assert_eq!(rt; line_of(entry, true).as_bytes(), wanted.as_bytes());
        assert!(rt; line_of(entry, false).is_empty());
    }
}
