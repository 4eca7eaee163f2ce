ghost use Rattle.std.specs.Prelude.{◌<◌, ◌^◌, vec_len};

use super::*;
use pv_words::{DomId, Frame, GrantRef, Hold, Mode, PageList, Place};
use std::alloc::{AllocError, Global};
use std::test::Fail;

// A buffer's pages.
#[derive(Drop)]
struct Pages {
    holds: Vec<Hold>,
    ghost few: { vec_len holds < 2 ^ 32 },
}

impl PageList for Pages {
    ghost holds = { λ p. p.holds.items };

    fn len(&self) -> u32 {
        self.holds.len() as u32
    }

    fn get(&self, i: u32) -> Hold {
        self.holds[i as usize]
    }
}

// The number of a word among those of the frames.
fn slot_of(at: Place) -> usize {
    let Place::Cell(_, frame, word) = at else {
        return usize::MAX;
    };
    (frame.0 as usize)
        .wrapping_mul(1024)
        .wrapping_add(word as usize)
}

// The pieces of a range that lies in the pages.
fn pieces_of(pages: &Pages, offset: u32, count: u32) -> Option<Pieces<'_, Pages>> {
    if u64::from(offset) + u64::from(count) > 4096 * u64::from(pages.len()) {
        return None;
    }
    Some(Window::over(pages).pieces(offset, count))
}

// Appends the octets that the piece has of its word.
fn join_all(word: u32, piece: &Piece, octets: &mut Vec<u8>) -> Result<(), Fail> {
    if piece.first > 4 || piece.len > 4 - piece.first {
        return Err(Fail::new("a piece goes beyond its word"));
    }
    for i in 0..piece.len {
        octets.push(join(word, piece, i))?;
    }
    Ok(())
}

// The octets of the range, as the words of the frames are.
fn read(
    alloc: Global,
    pages: &Pages,
    words: &[u32],
    offset: u32,
    count: u32,
) -> Result<Vec<u8>, Fail> {
    let mut octets = Vec::new(alloc);
    let pieces = pieces_of(pages, offset, count).ok_or("beyond the pages")?;
    for piece in pieces {
        let word = words.get(slot_of(piece.place)).ok_or("no word")?;
        join_all(*word, &piece, &mut octets)?;
    }
    Ok(octets)
}

// Blends octets into the range, each one more than that before it, the first of them this.
fn write(
    pages: &Pages,
    words: &mut Vec<u32>,
    offset: u32,
    count: u32,
    first: u8,
) -> Result<(), Fail> {
    let mut next = first;
    let pieces = pieces_of(pages, offset, count).ok_or("beyond the pages")?;
    for piece in pieces {
        if piece.first > 4 || piece.len > 4 - piece.first {
            return Err(Fail::new("a piece goes beyond its word"));
        }
        let octets = [
            next,
            next.wrapping_add(1),
            next.wrapping_add(2),
            next.wrapping_add(3),
        ];
        let word = words.get_mut(slot_of(piece.place)).ok_or("no word")?;
        *word = blend(*word, &piece, octets);
        next = next.wrapping_add(piece.len);
    }
    Ok(())
}

// The same in a plain copy of the buffer.
fn write_plain(octets: &mut Vec<u8>, offset: u32, count: u32, first: u8) -> Result<(), Fail> {
    let mut next = first;
    for o in 0..count {
        let at = (offset as usize).wrapping_add(o as usize);
        *octets.get_mut(at).ok_or("no octet")? = next;
        next = next.wrapping_add(1);
    }
    Ok(())
}

// Whether these octets of the plain copy are those.
fn is_same(octets: &[u8], offset: u32, read: &[u8]) -> bool {
    let start = offset as usize;
    let Some(end) = start.checked_add(read.len()) else {
        return false;
    };
    octets.get(start..end) == Some(read)
}

// The octets of a buffer whose pages are the frames from the last of three down, word by word.
fn plain_copy(alloc: Global, words: &[u32]) -> Result<Vec<u8>, AllocError> {
    let mut octets = Vec::new(alloc);
    for i in 0..3072usize {
        let slot = (2 - i / 1024) * 1024 + i % 1024;
        let word = words.get(slot).copied().unwrap_or(0);
        octets.extend_from_slice(&word.to_le_bytes())?;
    }
    Ok(octets)
}

// The pages of such a buffer.
fn three_pages(alloc: Global) -> Result<Pages, Fail> {
    let mut holds = Vec::new(alloc);
    for frame in [2, 1, 0] {
        holds.push(Hold {
            dom: DomId(1),
            gref: GrantRef(frame),
            frame: Frame(frame),
            mode: Mode::Write,
        })?;
    }
    if holds.len() > 3 {
        return Err(Fail::new("more pages"));
    }
    Ok(Pages { holds })
}

// Ranges of octets: the first octet, and how many.
const RANGES: [(u32, u32); 22] = [
    (0, 12288),
    (0, 0),
    (12288, 0),
    (5, 0),
    (6, 1),
    (7, 2),
    (12287, 1),
    (4094, 4),
    (4096, 4096),
    (8189, 7),
    (1, 12286),
    (3, 4097),
    (2710, 931),
    (9118, 2223),
    (4033, 5001),
    (11011, 1201),
    (777, 3),
    (8190, 1),
    (8191, 2),
    (4095, 4098),
    (2050, 64),
    (2051, 65),
];

#[test]
fn reads_and_writes_as_a_plain_copy(rt: HostRuntime) -> Result<(), Fail> {
    let pages = three_pages(rt.alloc())?;
    let mut words = Vec::new(rt.alloc());
    for i in 0..3072u32 {
        words.push(i.wrapping_mul(2_654_435_761).wrapping_add(12345))?;
    }
    let mut octets = plain_copy(rt.alloc(), &words)?;
    let mut first = 3u8;
    for (offset, count) in RANGES {
        write(&pages, &mut words, offset, count, first)?;
        write_plain(&mut octets, offset, count, first)?;
        let part = read(rt.alloc(), &pages, &words, offset, count)?;
        assert_eq!(rt; part.len(), count as usize);
        assert!(rt; is_same(&octets, offset, &part), "at {offset}");
        let all = plain_copy(rt.alloc(), &words)?;
        assert!(rt; all.as_slice() == octets.as_slice(), "behind {offset}");
        first = first.wrapping_add(71);
    }
    Ok(())
}
