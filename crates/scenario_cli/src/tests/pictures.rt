// Pictures that are read word by word, and their marks.
use super::running::*;
use std::alloc::{AllocError, Global};
use std::test::Fail;

// A buffer's pixels and the rectangle of them that is shown.
#[derive(Clone, Copy)]
struct Shape {
    format: u32,
    bpp: u32,
    width: u32,
    height: u32,
    at: (u32, u32),
    sides: (u32, u32),
}

// Octet `at` of a buffer whose word k is 1 + 2654435761 k modulo 2^32.
fn octet(at: u32) -> u32 {
    let word = (at / 4).wrapping_mul(2_654_435_761).wrapping_add(1);
    let [first, second, third, fourth] = word.to_le_bytes();
    match at % 4 {
        0 => u32::from(first),
        1 => u32::from(second),
        2 => u32::from(third),
        _ => u32::from(fourth),
    }
}

// The number of the pixel that begins at this octet.
fn pixel(at: u32, octets: u32) -> u32 {
    let mut number = 0u32;
    let mut worth = 1u32;
    for k in 0..octets {
        number = number.wrapping_add(octet(at.wrapping_add(k)).wrapping_mul(worth));
        worth = worth.wrapping_mul(256);
    }
    number
}

// The mark of the rectangle's pixels: from 0 on, 31 times the mark so far and the next pixel, modulo 2^32.
fn mark(shape: Shape) -> u32 {
    let octets = shape.bpp / 8;
    let (columns, rows) = shape.sides;
    let mut mark = 0u32;
    for k in 0..columns.wrapping_mul(rows) {
        let x = shape.at.0.wrapping_add(k.checked_rem(columns).unwrap_or(0));
        let y = shape.at.1.wrapping_add(k.checked_div(columns).unwrap_or(0));
        let first = y
            .wrapping_mul(shape.width)
            .wrapping_add(x)
            .wrapping_mul(octets);
        mark = mark.wrapping_mul(31).wrapping_add(pixel(first, octets));
    }
    mark
}

// A domain of five frames, whose frame 2 is a directory: a buffer's two pages are frames 4 and 3, in this order.
const TWO_PAGES: &str =
    "domain 1 wild 5 5\ndisplay 1 1 1\nopen 1 0 0 rw 5\nput 1 2 1 4\nput 1 2 2 3\n\
                         fill 1 4 0 1024 1 2654435761\nfill 1 3 0 1024 3722888193 2654435761\n";

// CREATE of a buffer, ATTACH of all of it, SET_CONFIG of the rectangle, and a Show.
fn shows(alloc: Global, shape: Shape) -> Result<String, AllocError> {
    let Shape {
        format,
        bpp,
        width,
        height,
        at: (x, y),
        sides: (columns, rows),
    } = shape;
    format!(in alloc;
        "put 1 0 16 1\nput 1 0 18 1\nput 1 0 20 {width}\nput 1 0 21 {height}\nput 1 0 22 {bpp}\nput 1 0 23 8192\nput 1 0 25 2\n\
         put 1 0 32 0x00020002\nput 1 0 34 1\nput 1 0 36 11\nput 1 0 38 {width}\nput 1 0 39 {height}\nput 1 0 40 {format}\n\
         put 1 0 48 0x00040003\nput 1 0 50 11\nput 1 0 52 {x}\nput 1 0 53 {y}\nput 1 0 54 {columns}\nput 1 0 55 {rows}\n\
         put 1 0 56 {bpp}\nput 1 0 0 3\nserve 1\nshow 1 0\nserve 1\n"
    )
}

const XR24: u32 = 0x3432_5258;

const AR24: u32 = 0x3432_5241;

const RG24: u32 = 0x3432_4752;

const RG16: u32 = 0x3631_4752;

#[test]
fn pictures_have_the_marks_of_their_pixels(rt: HostRuntime) -> Result<(), Fail> {
    let alloc = rt.alloc();
    for (format, bpp, width, height, at, sides) in [
        (XR24, 32, 64, 32, (0, 0), (64, 32)),
        (AR24, 32, 64, 32, (63, 31), (1, 1)),
        (XR24, 32, 64, 32, (3, 7), (9, 11)),
        (RG24, 24, 63, 43, (0, 0), (63, 43)),
        (RG24, 24, 63, 43, (1, 2), (5, 40)),
        (RG24, 24, 63, 43, (62, 42), (1, 1)),
        (RG24, 24, 7, 390, (2, 100), (3, 290)),
        (RG16, 16, 33, 124, (32, 123), (1, 1)),
        (RG16, 16, 33, 124, (1, 3), (4, 100)),
        (RG16, 16, 1, 4096, (0, 1000), (1, 3000)),
    ] {
        let shape = Shape {
            format,
            bpp,
            width,
            height,
            at,
            sides,
        };
        let asked = shows(alloc, shape)?;
        let outcome = run_parts(alloc, &[TWO_PAGES, NODES, CONNECTS, asked.as_str()])?;
        let pixels = shape.sides.0.wrapping_mul(shape.sides.1);
        let mark = mark(shape);
        let wanted = format!(in alloc;
            "{CONNECTED}request 1 0 1 0\nreply 1 0 1 0\nrequest 1 0 2 2\nreply 1 0 2 0\nrequest 1 0 3 4\nreply 1 0 3 0\n\
             shown 1 0 {pixels} {mark}\n"
        )?;
        expect_played(&rt, &outcome, wanted.as_bytes());
    }
    Ok(())
}
