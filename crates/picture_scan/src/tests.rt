ghost use Rattle.std.specs.Prelude.{◌<◌, ◌^◌, vec_len};
ghost use Rattle.picture_scan.specs.Rectangle.{IsWithin};
ghost use Rattle.picture_scan.specs.Scan.{LiesIn};

use super::*;
use pv_words::{DomId, Frame, GrantRef, Hold, Mode, PageList, Place, Words, next_mark};
use std::alloc::{AllocError, Global};
use std::test::Fail;

// Domain 1: its frames hold these words, and a buffer's pages are the frames from the last down.
#[derive(Drop)]
struct Memory {
    words: Vec<u32>,
}

impl Words for Memory {
    ghost use Rattle.std.specs.Prelude.{◌≡◌};
    ghost use Rattle.pv_words.specs.FreePort.{free_port};
    ghost use Rattle.pv_words.proofs.FreePort.{stays_free, finds_any};
    ghost use Rattle.std.proofs.Common.{refl};

    ghost frames_of = { λ w d. 0 };

    ghost grants_of = { λ w d. 0 };

    ghost port = { λ w. free_port };

    ghost may = { λ w want. Unit {0} };

    ghost makes = { λ old a new. Unit {0} };

    ghost keeps_frames = { λ old a new made d. refl };

    ghost keeps_grants = { λ old a new made d. refl };

    ghost allows = { λ w want h. tt };

    ghost leaves = { λ old a new made. stays_free _ _ a };

    ghost tells = { λ old a new made. finds_any a };

    fn load(&mut self, at: Place) -> u32 {
        let Place::Cell(_, frame, word) = at else {
            return 0;
        };
        let index = (frame.0 as usize)
            .wrapping_mul(1024)
            .wrapping_add(word as usize);
        self.words.get(index).copied().unwrap_or(0)
    }

    fn store(&mut self, _at: Place, _v: u32) {}

    fn swap_if(&mut self, _at: Place, _old: u32, _new: u32) -> u32 {
        0
    }

    fn clear(&mut self, _at: Place, _mask: u32) -> u32 {
        0
    }

    fn frames(&self, _dom: DomId) -> u32 {
        0
    }

    fn grants(&self, _dom: DomId) -> u32 {
        0
    }
}

#[derive(Drop)]
struct Pages {
    holds: Vec<Hold>,
    ghost few: { vec_len holds < 2 ^ 32 },
}

impl PageList for Pages {
    ghost holds = { λ p. p.holds.items };

    fn len(&self) -> u32 {
        self.holds.len() as u32
    }

    fn get(&self, i: u32) -> Hold {
        self.holds[i as usize]
    }
}

// What a scan of the rectangle shows.
fn scanned(pages: &Pages, memory: &mut Memory, shape: Shape) -> Option<Shown>
    requires small { IsWithin 33554432 shape }
    requires lies { LiesIn pages.now.holds.items shape }
{
    let mut scan = Scan::new(shape, 7);
    'words: for _ in 0..1_000_000u32 {
        let turn = scan.step(pages, memory);
        if turn.done.is_some() {
            return turn.done;
        }
    }
    None
}

// The mark of its pixels, octet by octet, of a buffer with these octets.
fn plain(octets: &[u8], shape: &Shape) -> u32 {
    let size = (shape.bpp / 8) as usize;
    let mut mark = 0;
    for row in 0..shape.rows {
        for column in 0..shape.columns {
            let y = shape.y.wrapping_add(row) as usize;
            let x = shape.x.wrapping_add(column) as usize;
            let first = y
                .wrapping_mul(shape.width as usize)
                .wrapping_add(x)
                .wrapping_mul(size);
            let mut pixel = 0u32;
            let mut worth = 1u32;
            for k in 0..size {
                let octet = octets.get(first.wrapping_add(k)).copied().unwrap_or(0);
                pixel = pixel.wrapping_add(u32::from(octet).wrapping_mul(worth));
                worth = worth.wrapping_mul(256);
            }
            mark = next_mark(mark, pixel);
        }
    }
    mark
}

fn rectangle(width: u32, bpp: u32, at: (u32, u32), sides: (u32, u32)) -> Shape {
    Shape {
        width,
        bpp,
        x: at.0,
        y: at.1,
        columns: sides.0,
        rows: sides.1,
    }
}

#[test]
fn shows_what_a_plain_reading_shows(rt: HostRuntime) -> Result<(), Fail> {
    let mut words = Vec::new(rt.alloc());
    let mut octets = Vec::new(rt.alloc());
    let mut word = 1u32;
    for _ in 0..2048 {
        word = word.wrapping_mul(1_103_515_245).wrapping_add(12345);
        words.push(word)?;
        octets.extend_from_slice(&word.to_le_bytes())?;
    }
    let mut holds = Vec::new(rt.alloc());
    for frame in 0..2u32 {
        holds.push(Hold {
            dom: DomId(1),
            gref: GrantRef(frame),
            frame: Frame(frame),
            mode: Mode::Read,
        })?;
    }
    assert_eq!(rt; holds.len(), 2);
    let pages = Pages { holds };
    let mut memory = Memory { words };
    let shapes = [
        rectangle(64, 32, (0, 0), (64, 32)),
        rectangle(63, 24, (1, 2), (5, 40)),
        rectangle(63, 24, (62, 42), (1, 1)),
        rectangle(7, 24, (0, 0), (7, 390)),
        rectangle(33, 16, (32, 123), (1, 1)),
        rectangle(33, 16, (1, 3), (4, 100)),
        rectangle(64, 32, (63, 31), (1, 1)),
        rectangle(64, 32, (3, 7), (9, 11)),
    ];
    for shape in shapes {
        let known = shape.is_within(8192);
        assert!(rt; known);
        let Some(shown) = scanned(&pages, &mut memory, shape) else {
            return Err(Fail::new("no end"));
        };
        assert_eq!(rt; shown.pixels, shape.columns.wrapping_mul(shape.rows));
        assert_eq!(rt; shown.mark, plain(&octets, &shape));
    }
    Ok(())
}
