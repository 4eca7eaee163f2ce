use super::*;

#[test]
fn looks_at_the_indices(rt: HostRuntime) {
    let ring = BackRing::new(4_294_967_290);
    for (prod, want) in [
        (4_294_967_290, Looked::Nothing),
        (4_294_967_291, Looked::Ready(1)),
        (26, Looked::Ready(32)),
        (27, Looked::Overrun(27, 4_294_967_290)),
        (4_294_967_289, Looked::Overrun(4_294_967_289, 4_294_967_290)),
    ] {
        assert_eq!(rt; ring.look(prod), want, "at {prod}");
    }
}

#[test]
fn answers_in_turn(rt: HostRuntime) {
    let mut ring = BackRing::new(4_294_967_295);
    assert_eq!(rt; ring.slot_word(0), 512);
    assert_eq!(rt; ring.slot_word(15), 527);
    assert_eq!(rt; ring.slot_word(255), 767);
    assert_eq!(rt; ring.answered(), 0);
    assert_eq!(rt; ring.rsp(), 0);
    assert_eq!(rt; ring.slot_word(0), FIRST_SLOT_WORD);
    slots_are_apart();
}

#[test]
fn notifies_where_the_event_was_passed(rt: HostRuntime) {
    for (old, new, event, want) in [
        (0, 1, 1, true),
        (0, 1, 2, false),
        (0, 1, 0, false),
        (0, 3, 2, true),
        (5, 5, 5, false),
        (4_294_967_295, 1, 0, true),
        (4_294_967_295, 0, 1, false),
    ] {
        assert_eq!(rt;
            must_notify(old, new, event),
            want,
            "from {old} to {new} at {event}"
        );
    }
}
