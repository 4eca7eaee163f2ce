use super::*;

#[test]
fn tells_room_and_slots(rt: HostRuntime) {
    for (prod, cons, want, slots) in [
        (5, 5, Room::Free(63), (5, 6)),
        (67, 5, Room::Free(1), (4, 5)),
        (68, 5, Room::Full, (5, 6)),
        (69, 5, Room::Bad(5), (6, 7)),
        (20, 4_294_967_290, Room::Free(37), (20, 21)),
        (57, 4_294_967_290, Room::Full, (57, 58)),
        (62, 63, Room::Bad(63), (62, 0)),
        (4_294_967_231, 4_294_967_231, Room::Free(63), (2, 3)),
        (4_294_967_232, 4_294_967_232, Room::Spent, (3, 4)),
        (4_294_967_295, 0, Room::Spent, (3, 0)),
    ] {
        let ring = EventRing::new(63, 4_294_967_232, prod);
        assert_eq!(rt; ring.room(cons), want, "63 slots, at {prod} and {cons}");
        assert_eq!(rt; (ring.slot(0), ring.slot(1)), slots, "63 slots, at {prod}");
    }
    for (prod, cons, want, slots) in [
        (50, 0, Room::Free(1), (50, 0)),
        (51, 0, Room::Full, (0, 1)),
        (52, 0, Room::Bad(0), (1, 2)),
        (4_294_967_295, 0, Room::Spent, (0, 0)),
    ] {
        let ring = EventRing::new(51, 4_294_967_232, prod);
        assert_eq!(rt; ring.room(cons), want, "51 slots, at {prod} and {cons}");
        assert_eq!(rt; (ring.slot(0), ring.slot(1)), slots, "51 slots, at {prod}");
    }
}
