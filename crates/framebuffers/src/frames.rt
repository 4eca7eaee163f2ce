//! The table of a display's framebuffers.

ghost use Rattle.std.specs.Prelude.{◌≡◌, [], IfOk, OnOk, OnErr};
ghost use Rattle.framebuffers.specs.Frames.{attach_check, detach_check, frame_of, is_used, with_frame, without_frame};

use crate::format::is_valid;
use cookie_table::{TABLE_LIMIT, Table};
use displ_wire::{Attach, Buffer, Framebuffer, Refused};
use std::alloc::{AllocError, Global};
use std::marker::Model;

/// The live framebuffers of a display, in the order in which they were attached. The room for 64 of them is taken when
/// the table is made.
#[derive(Drop)]
pub struct Frames {
    table: Table<Framebuffer>,
}

impl Model for Frames {
    ghost use Rattle.std.specs.Prelude.{List};
    ghost use Rattle.displ_wire.specs.declared.framebuffer.Framebuffer.{Framebuffer};

    ghost Value = { List Framebuffer };

    ghost view = { λ f. f.table };
}

impl Frames {
    /// A table with no framebuffer, and with the room for 64.
    pub fn new(alloc: Global) -> Result<Frames, AllocError>
        ensures { IfOk result (λ fs. fs ≡ []) }
    {
        let table = Table::new(alloc)?;
        Ok(Frames { table })
    }

    /// The first check of an ATTACH that fails, where `buffer` is the live display buffer of its cookie, if there is one: its
    /// cookie is live (Exists), 64 framebuffers are live (Full), the display buffer isn't live (Unknown), or its format isn't
    /// known or isn't of the buffer's depth, or a side is 0 or larger than the buffer's (Invalid).
    pub fn check(&self, a: &Attach, buffer: Option<Buffer>) -> Result<(), Refused>
        ensures { result ≡ attach_check self.now a.now buffer }
    {
        if self.table.get(a.fb_cookie).is_some() {
            return Err(Refused::Exists);
        }
        if self.table.len() >= TABLE_LIMIT {
            return Err(Refused::Full);
        }
        let Some(buffer) = buffer else {
            return Err(Refused::Unknown);
        };
        if !is_valid(a, &buffer) {
            return Err(Refused::Invalid);
        }
        Ok(())
    }

    /// Makes the framebuffer that an ATTACH asks for; `buffer` is the live display buffer of its cookie, if there is one.
    /// It is refused as `check` tells. A refusal changes nothing.
    pub fn attach(&mut self, a: &Attach, buffer: Option<Buffer>) -> Result<(), Refused>
        ensures checked { result ≡ attach_check self.old a.now buffer }
        ensures made { OnOk result (self.new ≡ with_frame self.old a.now buffer) }
        ensures refused { OnErr result (self.new ≡ self.old) }
    {
        self.check(a, buffer)?;
        let Some(buffer) = buffer else {
            return Err(Refused::Unknown);
        };
        self.table.push(Framebuffer {
            cookie: a.fb_cookie,
            dbuf: a.dbuf_cookie,
            width: a.width,
            height: a.height,
            bpp: buffer.bpp,
        });
        Ok(())
    }

    /// Takes the framebuffer of a cookie away; where it isn't live (Unknown), nothing changes.
    pub fn detach(&mut self, fb: u64) -> Result<(), Refused>
        ensures checked { result ≡ detach_check fb self.old }
        ensures rest { self.new ≡ without_frame fb self.old }
    {
        match self.table.remove(fb) {
            Some(_) => Ok(()),
            None => Err(Refused::Unknown),
        }
    }

    /// The framebuffer of a cookie; None where the cookie isn't live.
    pub fn find(&self, fb: u64) -> Option<Framebuffer>
        ensures { result ≡ frame_of fb self.now }
    {
        self.table.get(fb).copied()
    }

    /// Whether a framebuffer of the display buffer of this cookie is live.
    pub fn uses(&self, cookie: u64) -> bool
        ensures { result ≡ is_used cookie self.now }
    {
        for k in 0..self.table.len() {
            if self.table.nth(k).dbuf == cookie {
                return true;
            }
        }
        false
    }

    /// Takes all framebuffers away.
    pub fn clear(&mut self)
        ensures { self.new ≡ [] }
    {
        self.table.clear();
    }
}
