//! Octets between a stream's queue and its line.

ghost use Rattle.std.specs.Prelude.{◌≡◌, ◌+◌, ◌-◌, ◌<◌, ◌≤◌, ◌^◌, ◌++◌, length, take, drop};
ghost use Rattle.circular_buffer.specs.Buffer.{buffer};
ghost use Rattle.pv_words.specs.Mark.{mark_of};
ghost use Rattle.pcm_stream.specs.Line.{line_from};

use circular_buffer::HeapCircularBuffer;
use pv_words::extend_mark;

// How many octets of the line of a capture stream differ; each is that of 251 octets before.
const LINE_LEN: usize = 251;

// These octets.
static LINE: [u8; LINE_LEN] = [
    0, 1, 2, 3, 4, 5, 6, 7, 8, 9, 10, 11, 12, 13, 14, 15, 16, 17, 18, 19, 20, 21, 22, 23, 24, 25,
    26, 27, 28, 29, 30, 31, 32, 33, 34, 35, 36, 37, 38, 39, 40, 41, 42, 43, 44, 45, 46, 47, 48, 49,
    50, 51, 52, 53, 54, 55, 56, 57, 58, 59, 60, 61, 62, 63, 64, 65, 66, 67, 68, 69, 70, 71, 72, 73,
    74, 75, 76, 77, 78, 79, 80, 81, 82, 83, 84, 85, 86, 87, 88, 89, 90, 91, 92, 93, 94, 95, 96, 97,
    98, 99, 100, 101, 102, 103, 104, 105, 106, 107, 108, 109, 110, 111, 112, 113, 114, 115, 116,
    117, 118, 119, 120, 121, 122, 123, 124, 125, 126, 127, 128, 129, 130, 131, 132, 133, 134, 135,
    136, 137, 138, 139, 140, 141, 142, 143, 144, 145, 146, 147, 148, 149, 150, 151, 152, 153, 154,
    155, 156, 157, 158, 159, 160, 161, 162, 163, 164, 165, 166, 167, 168, 169, 170, 171, 172, 173,
    174, 175, 176, 177, 178, 179, 180, 181, 182, 183, 184, 185, 186, 187, 188, 189, 190, 191, 192,
    193, 194, 195, 196, 197, 198, 199, 200, 201, 202, 203, 204, 205, 206, 207, 208, 209, 210, 211,
    212, 213, 214, 215, 216, 217, 218, 219, 220, 221, 222, 223, 224, 225, 226, 227, 228, 229, 230,
    231, 232, 233, 234, 235, 236, 237, 238, 239, 240, 241, 242, 243, 244, 245, 246, 247, 248, 249,
    250,
];

// The octets of the line from octet 0 on.
fn line() -> &'static [u8]
    ensures { result.now ≡ line_from 0 251 }
{
    &LINE
}

// The octets of the line from `from` on, `count` of them.
fn line_piece(from: usize, count: usize) -> &'static [u8]
    requires { from + count ≤ 251 }
    ensures { result.now ≡ line_from from count }
{
    let line = line();
    &line[from..from + count]
}

// The first `count` octets go to the line. Their mark.
pub(crate) fn play(queue: &mut HeapCircularBuffer<u8>, count: usize) -> u32
    requires { count ≤ length queue.old.items }
    ensures mark { result ≡ mark_of (take count queue.old.items) }
    ensures rest { queue.new ≡ buffer (drop count queue.old.items) queue.old.capacity }
{
    let (front, back) = queue.as_slices();
    let from_front = front.len().min(count);
    let mark = extend_mark(0, &front[..from_front]);
    let mark = extend_mark(mark, &back[..count - from_front]);
    queue.truncate_front(queue.len() - count);
    mark
}

// The next `count` octets of the line are appended, of which the first is `first`. Their mark.
pub(crate) fn capture(queue: &mut HeapCircularBuffer<u8>, first: u8, count: usize) -> u32
    requires line { first < 251 }
    requires room { length queue.old.items + count ≤ queue.old.capacity }
    ensures mark { result ≡ mark_of (line_from first count) }
    ensures appended { queue.new ≡ buffer (queue.old.items ++ line_from first count) queue.old.capacity }
{
    let mut mark = 0;
    let mut next = usize::from(first);
    let mut left = count;
    while left > 0 {
        let size = left.min(LINE_LEN - next);
        let piece = line_piece(next, size);
        mark = extend_mark(mark, piece);
        queue.fill_from_slice(piece);
        left -= size;
        next = (next + size) % LINE_LEN;
    }
    mark
}
