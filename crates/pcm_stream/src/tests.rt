use super::*;
use pcm_params::Params;
use pv_words::StreamKind;
use std::alloc::Global;
use std::process::Abort;
use std::test::Fail;

// Frames of four octets, and a period of one frame.
const FRAMES: Params = Params {
    pcm_rate: 48_000,
    pcm_format: 2,
    pcm_channels: 2,
    buffer_sz: 4096,
    gref_directory: 2,
    period_sz: 4,
};

// Frames of one octet, and no period.
const OCTETS: Params = Params {
    pcm_rate: 8000,
    pcm_format: 0,
    pcm_channels: 1,
    buffer_sz: 256,
    gref_directory: 2,
    period_sz: 0,
};

const CLOSED: StreamState = StreamState::Closed;

const OPENED: StreamState = StreamState::Opened;

const RUNNING: StreamState = StreamState::Running;

const PAUSED: StreamState = StreamState::Paused;

fn stream_of(alloc: Global, kind: StreamKind, p: &Params) -> Result<Stream, Fail> {
    let mut stream = Stream::new(kind);
    stream.can_begin(p)?;
    let q = queue(alloc, p)?;
    stream.begin(p, q);
    Ok(stream)
}

// A stream in each state.
fn in_state(alloc: Global, state: StreamState) -> Result<Stream, Fail> {
    if state == CLOSED {
        return Ok(Stream::new(StreamKind::Playback));
    }
    let mut stream = stream_of(alloc, StreamKind::Playback, &FRAMES)?;
    if state != OPENED {
        stream.trigger(0)?;
    }
    if state == PAUSED {
        stream.trigger(1)?;
    }
    Ok(stream)
}

// Each trigger in each state, with the state that it leads to where it may be given.
#[test]
fn triggers_lead_to_states(rt: HostRuntime) -> Result<(), Fail> {
    let rows = [
        (CLOSED, [None; 4]),
        (OPENED, [Some(RUNNING), None, Some(OPENED), None]),
        (RUNNING, [None, Some(PAUSED), Some(OPENED), None]),
        (PAUSED, [None, None, Some(OPENED), Some(RUNNING)]),
    ];
    for (state, after) in rows {
        for t in 0..4 {
            let mut stream = in_state(rt.alloc(), state)?;
            assert_eq!(rt; stream.state(), state);
            let want = match after[t] {
                Some(_) => Ok(()),
                None => Err(StreamRefusal::WrongState(state)),
            };
            assert_eq!(rt; stream.trigger(t as u8), want);
            assert_eq!(rt; stream.state(), after[t].unwrap_or(state));
        }
    }
    Ok(())
}

// A trigger that there isn't, in each state.
#[test]
fn unknown_triggers_change_nothing(rt: HostRuntime) -> Result<(), Fail> {
    let rows = [
        (CLOSED, StreamRefusal::WrongState(CLOSED)),
        (OPENED, StreamRefusal::Invalid),
        (RUNNING, StreamRefusal::Invalid),
        (PAUSED, StreamRefusal::Invalid),
    ];
    for (state, refusal) in rows {
        let mut stream = in_state(rt.alloc(), state)?;
        assert_eq!(rt; stream.trigger(4), Err(refusal));
        assert_eq!(rt; stream.state(), state);
    }
    Ok(())
}

fn fill(rt: &impl Abort, stream: &mut Stream, octets: &[u8]) {
    for octet in octets {
        assert!(rt; stream.room() > 0);
        stream.push(*octet);
    }
}

// Ticks of so many frames, with what they move and its mark, the position after them and the one that is owed then.
fn ticks(rt: &impl Abort, stream: &mut Stream, rows: &[(u32, u32, u32, u64, Option<u64>)]) {
    for (frames, moved, mark, position, owed) in rows {
        let want = Ticked {
            moved: *moved,
            mark: *mark,
        };
        assert_eq!(rt; stream.tick(*frames), want);
        assert_eq!(rt; stream.position(), *position);
        assert_eq!(rt; stream.owed(), *owed);
        if stream.owed().is_some() {
            stream.raised();
        }
    }
}

#[test]
fn plays_while_running(rt: HostRuntime) -> Result<(), Fail> {
    let mut stream = stream_of(rt.alloc(), StreamKind::Playback, &FRAMES)?;
    fill(&rt, &mut stream, &[2, 3, 4, 5, 6, 7]);
    ticks(&rt, &mut stream, &[(1, 0, 0, 0, None)]);
    stream.trigger(0)?;
    let rows = [
        (1, 4, 62_594, 4, Some(4)),
        (5, 2, 193, 6, None),
        (1, 0, 0, 6, None),
    ];
    ticks(&rt, &mut stream, &rows);
    fill(&rt, &mut stream, &[1, 2]);
    ticks(&rt, &mut stream, &[(1, 2, 33, 8, Some(8))]);
    fill(&rt, &mut stream, &[0; 12]);
    assert_eq!(rt; stream.tick(1).moved, 4);
    stream.trigger(1)?;
    assert_eq!(rt; stream.tick(1).moved, 0);
    assert_eq!(rt; stream.owed(), Some(12));
    stream.trigger(3)?;
    assert_eq!(rt; stream.tick(1).moved, 4);
    assert_eq!(rt; stream.owed(), Some(16));
    stream.trigger(2)?;
    assert_eq!(rt; stream.queued(), 0);
    assert_eq!(rt; stream.position(), 16);
    assert_eq!(rt; stream.owed(), Some(16));
    assert_eq!(rt; stream.can_finish(), Ok(()));
    stream.finish();
    assert_eq!(rt; stream.owed(), None);
    assert_eq!(rt; stream.state(), CLOSED);
    Ok(())
}

#[test]
fn captures_the_line(rt: HostRuntime) -> Result<(), Fail> {
    let mut stream = stream_of(rt.alloc(), StreamKind::Capture, &OCTETS)?;
    stream.trigger(0)?;
    ticks(&rt, &mut stream, &[(3, 3, 33, 3, None)]);
    assert_eq!(rt; stream.can_read(0, 3), Ok(()));
    for octet in 0..3 {
        assert!(rt; stream.queued() > 0);
        assert_eq!(rt; stream.octet_at(0), octet);
        assert_eq!(rt; stream.pop(), octet);
    }
    assert_eq!(rt; stream.can_read(0, 1), Err(StreamRefusal::TooLittle(0)));
    assert_eq!(rt; stream.can_read(0, 0), Ok(()));
    let rows = [
        (1_048_576, 512, 2_066_042_565, 515, None),
        (1, 0, 0, 515, None),
    ];
    ticks(&rt, &mut stream, &rows);
    assert!(rt; stream.queued() > 511);
    assert_eq!(rt; stream.octet_at(511), 12);
    stream.skip(1);
    ticks(&rt, &mut stream, &[(2, 1, 13, 516, None)]);
    Ok(())
}

#[test]
fn checks_at_bounds(rt: HostRuntime) -> Result<(), Fail> {
    let invalid = Err(StreamRefusal::Invalid);
    let mut stream = stream_of(rt.alloc(), StreamKind::Playback, &FRAMES)?;
    let rows = [
        (0, 4096, Ok(())),
        (1, 4096, invalid),
        (4096, 0, Ok(())),
        (4097, 0, invalid),
        (u32::MAX, u32::MAX, invalid),
    ];
    for (offset, length, want) in rows {
        assert_eq!(rt; stream.can_write(offset, length), want);
        assert_eq!(rt; stream.can_read(offset, length), invalid);
    }
    fill(&rt, &mut stream, &[0; 8191]);
    assert_eq!(rt; stream.can_write(0, 2), Err(StreamRefusal::NoRoom(1)));
    fill(&rt, &mut stream, &[0]);
    assert_eq!(rt; stream.can_write(0, 0), Ok(()));
    stream.trigger(0)?;
    ticks(&rt, &mut stream, &[(1500, 6000, 0, 6000, Some(6000))]);
    let open = Err(StreamRefusal::WrongState(RUNNING));
    assert_eq!(rt; stream.can_begin(&FRAMES), open);
    let closed = Stream::new(StreamKind::Capture);
    let shut = Err(StreamRefusal::WrongState(CLOSED));
    assert_eq!(rt; closed.can_finish(), shut);
    assert_eq!(rt; closed.can_read(0, 0), shut);
    assert_eq!(rt; closed.can_write(0, 0), shut);
    let odd = Params {
        buffer_sz: 4095,
        ..FRAMES
    };
    assert_eq!(rt; closed.can_begin(&odd), invalid);
    counts_all();
    goes_in_order();
    Ok(())
}

#[test]
fn gives_the_error_of_each_refusal(rt: HostRuntime) {
    assert_eq!(rt; StreamRefusal::WrongState(OPENED).status(), -16);
    assert_eq!(rt; StreamRefusal::Invalid.status(), -22);
    assert_eq!(rt; StreamRefusal::NoRoom(3).status(), -11);
    assert_eq!(rt; StreamRefusal::TooLittle(3).status(), -11);
}
