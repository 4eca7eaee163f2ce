//! A live display buffer.

use cookie_table::HasCookie;
use displ_wire::Buffer;

/// A display buffer with the pages that it consists of.
#[derive(Drop)]
pub struct Live<P> {
    /// Its cookie, sides, depth and size.
    pub buffer: Buffer,
    /// Its pages, in order.
    pub pages: P,
}

impl<P> HasCookie for Live<P> {
    ghost cookie_of = { λ b. b.buffer.cookie };

    fn cookie(&self) -> u64 {
        self.buffer.cookie
    }
}
