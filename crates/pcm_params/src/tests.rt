use super::*;
use std::test::Fail;

const PARAMS: Params = Params {
    pcm_rate: 48_000,
    pcm_format: 2,
    pcm_channels: 2,
    buffer_sz: 8192,
    gref_directory: 2,
    period_sz: 4096,
};

#[test]
fn sizes_of_samples(rt: HostRuntime) -> Result<(), Fail> {
    let sizes = [1, 1, 2, 2, 2, 2, 4, 4, 4, 4, 4, 4, 4, 4];
    for number in 0..14 {
        let format = Format::from_number(number as u8).ok_or("a known format")?;
        assert_eq!(rt; format.sample_octets(), sizes[number]);
        assert_eq!(rt; format as u8, number as u8);
    }
    assert_eq!(rt; Format::from_number(14), None);
    assert_eq!(rt; Format::from_number(255), None);
    assert_eq!(rt; frame_octets(&PARAMS), 4);
    Ok(())
}

// Parameters at the bounds of what is offered, and just beyond: rate, format, channels, size of the buffer.
#[test]
fn accepts_within_bounds(rt: HostRuntime) {
    let rows = [
        (48_000, 2, 2, 8192, true),
        (8000, 0, 1, 1, true),
        (7999, 0, 1, 1, false),
        (192_000, 13, 8, 1_048_576, true),
        (192_001, 13, 8, 1_048_576, false),
        (48_000, 14, 2, 8192, false),
        (48_000, 2, 0, 8192, false),
        (48_000, 0, 9, 8190, false),
        (48_000, 2, 2, 0, false),
        (48_000, 2, 2, 8190, false),
        (48_000, 6, 3, 1_048_572, true),
        (48_000, 6, 3, 1_048_576, false),
        (48_000, 2, 2, 1_048_580, false),
    ];
    for (pcm_rate, pcm_format, pcm_channels, buffer_sz, want) in rows {
        let params = Params {
            pcm_rate,
            pcm_format,
            pcm_channels,
            buffer_sz,
            gref_directory: 2,
            period_sz: u32::MAX,
        };
        assert_eq!(rt; accepts(&params), want);
    }
}

// Ranges that reach past those that are offered, on the upper side.
const ASKED: Ranges = Ranges {
    formats: 4,
    rate_min: 192_000,
    rate_max: 400_000,
    channels_min: 2,
    channels_max: 2,
    buffer_min: 1024,
    buffer_max: 1024,
    period_min: 256,
    period_max: 2_000_000,
};

#[test]
fn answers_queries(rt: HostRuntime) {
    let met = Ranges {
        rate_max: 192_000,
        period_max: 1_048_576,
        ..ASKED
    };
    let told = Answer {
        status: 0,
        body: met,
    };
    assert_eq!(rt; answer_query(&ASKED), told);
    let refused = Answer {
        status: -22,
        body: NO_RANGES,
    };
    let slow = Ranges {
        rate_min: 1,
        rate_max: 7999,
        ..ASKED
    };
    assert_eq!(rt; answer_query(&slow), refused);
    let exchanged = Ranges {
        channels_min: 3,
        ..ASKED
    };
    assert_eq!(rt; meet(&exchanged, &OFFERED), None);
    let unknown = Ranges {
        formats: 0x4000,
        ..ASKED
    };
    assert_eq!(rt; meet(&unknown, &OFFERED), None);
    meets_are_common();
}
