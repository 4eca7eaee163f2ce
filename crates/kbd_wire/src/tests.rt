use super::*;

#[test]
fn writes_and_reads_each_event(rt: HostRuntime) {
    let table = [
        (Event::Key(true, 30), [259, 30, 0, 0, 0, 0, 0, 0, 0, 0]),
        (Event::Key(false, 30), [3, 30, 0, 0, 0, 0, 0, 0, 0, 0]),
        (
            Event::Motion(-1, 2, 0),
            [1, 4_294_967_295, 2, 0, 0, 0, 0, 0, 0, 0],
        ),
        (Event::Position(5, 6, 0), [4, 5, 6, 0, 0, 0, 0, 0, 0, 0]),
        (
            Event::Position(0, 0, -2_147_483_648),
            [4, 0, 0, 2_147_483_648, 0, 0, 0, 0, 0, 0],
        ),
        (
            Event::Down(15, 10, -1),
            [983_045, 0, 10, 4_294_967_295, 0, 0, 0, 0, 0, 0],
        ),
        (Event::Up(255), [16_711_941, 0, 0, 0, 0, 0, 0, 0, 0, 0]),
        (
            Event::Move(1, 2_147_483_647, 0),
            [66_053, 0, 2_147_483_647, 0, 0, 0, 0, 0, 0, 0],
        ),
        (Event::Syn, [773, 0, 0, 0, 0, 0, 0, 0, 0, 0]),
    ];
    for (event, words) in table {
        assert_eq!(rt; encode(&event), words);
        assert_eq!(rt; decode(&words), Some(event));
    }
    events_read_back();
    words_read_back();
}

#[test]
fn looks_at_the_octets_of_its_type_alone(rt: HostRuntime) {
    let table = [
        (0x0000_0000, None),
        (0x0000_0002, None),
        (0x0000_0006, None),
        (0x0000_00FF, None),
        (0x0000_0405, None),
        (0x0000_FF05, None),
        (0x0705_FF03, Some(Event::Key(true, 7))),
        (0x0705_0003, Some(Event::Key(false, 7))),
        (0x0705_0901, Some(Event::Motion(7, 8, 9))),
        (0x0705_0904, Some(Event::Position(7, 8, 9))),
        (0x0705_0005, Some(Event::Down(5, 8, 9))),
        (0x0705_0105, Some(Event::Up(5))),
        (0x0705_0205, Some(Event::Move(5, 8, 9))),
        (0x0705_0305, Some(Event::Syn)),
    ];
    for (head, event) in table {
        assert_eq!(rt; decode(&[head, 7, 8, 9, 1, 2, 3, 4, 5, 6]), event);
    }
}
