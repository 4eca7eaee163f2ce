//! A connector.

ghost use Rattle.std.specs.Prelude.{◌≡◌, IsSome, OnOk, OnErr, Some};
ghost use Rattle.connectors.specs.Connectors.{after_blank, config_check, after_config, after_detach, first_connector};
ghost use Rattle.connectors.specs.Connectors.{flip_check, after_flip, is_shown_by, pending_of, picture_of, without_mark};

use crate::rectangle::Rectangle;
use displ_wire::{Config, Framebuffer, Refused, is_zero};

/// A flip that is to come, at the next blank with room for its event.
#[derive(Clone, Copy, Debug, PartialEq, Eq)]
pub struct Flip {
    /// The cookie of the framebuffer.
    pub fb: u64,
    /// Whether the framebuffer is shown then: the mark is lost where the connector was configured anew or the framebuffer
    /// taken away meanwhile.
    pub marked: bool,
}

/// What a connector shows.
#[derive(Clone, Copy, Debug, PartialEq, Eq)]
pub struct Picture {
    /// The cookie of the framebuffer.
    pub fb: u64,
    /// The left edge, in pixels of the framebuffer.
    pub x: u32,
    /// The top edge, in pixels of the framebuffer.
    pub y: u32,
    /// The width in pixels.
    pub width: u32,
    /// The height in pixels.
    pub height: u32,
}

/// A connector: its configuration, the framebuffer that it shows, and the flip that is to come.
#[derive(Clone, Copy, Debug, PartialEq, Eq)]
pub struct Connector {
    rectangle: Option<Rectangle>,
    shown: Option<u64>,
    flip: Option<Flip>,
}

impl Connector {
    /// A connector that isn't configured.
    pub fn new() -> Connector
        ensures { result ≡ first_connector }
    {
        Connector {
            rectangle: None,
            shown: None,
            flip: None,
        }
    }

    /// Sets the configuration; `f` is the live framebuffer of its cookie, if there is one. A configuration whose fields are all
    /// 0 takes the connector's away, and nothing is shown. Any other is refused where the framebuffer isn't live (Unknown), or
    /// where a side is 0, the rectangle doesn't lie in the framebuffer, or its depth isn't the framebuffer's (Invalid); else
    /// the framebuffer is shown. Either way a flip that is to come won't be shown. A refusal changes nothing.
    pub fn config(&mut self, c: &Config, f: Option<Framebuffer>) -> Result<(), Refused>
        ensures checked { result ≡ config_check c.now f }
        ensures set { OnOk result (self.new ≡ after_config self.old c.now) }
        ensures refused { OnErr result (self.new ≡ self.old) }
    {
        if is_zero(c) {
            self.rectangle = None;
            self.shown = None;
        } else {
            let f = f.ok_or(Refused::Unknown)?;
            let r = Rectangle::of(c);
            if !r.has_area() || !r.lies_in(&f) {
                return Err(Refused::Invalid);
            }
            self.rectangle = Some(r);
            self.shown = Some(c.fb_cookie);
        }
        self.flip = self.flip.map(unmark);
        Ok(())
    }

    /// Asks for a flip to the framebuffer of this cookie; `f` is the live one, if there is one. It is refused where the
    /// framebuffer isn't live (Unknown), where there is no configuration, or its rectangle doesn't lie in the framebuffer or is
    /// of another depth (Invalid), or where a flip is still to come (Pending). A refusal changes nothing.
    pub fn flip(&mut self, fb: u64, f: Option<Framebuffer>) -> Result<(), Refused>
        ensures checked { result ≡ flip_check self.old f }
        ensures pending { OnOk result (self.new ≡ after_flip self.old fb) }
        ensures refused { OnErr result (self.new ≡ self.old) }
    {
        let f = f.ok_or(Refused::Unknown)?;
        if !self.can_show(&f) {
            return Err(Refused::Invalid);
        }
        if let Some(flip) = self.flip {
            return Err(Refused::Pending(flip.fb));
        }
        self.flip = Some(Flip { fb, marked: true });
        Ok(())
    }

    // Whether the configuration's rectangle lies in this framebuffer.
    fn can_show(&self, f: &Framebuffer) -> bool
        ensures { result ≡ is_shown_by self.now.rectangle f.now }
    {
        match &self.rectangle {
            Some(r) => r.lies_in(f),
            None => false,
        }
    }

    /// The framebuffer of this cookie was taken away: it is shown no longer, and a flip to it won't be shown.
    pub fn detached(&mut self, fb: u64)
        ensures { self.new ≡ after_detach fb self.old }
    {
        if self.shown == Some(fb) {
            self.shown = None;
        }
        if let Some(flip) = self.flip {
            if flip.fb == fb {
                self.flip = Some(unmark(flip));
            }
        }
    }

    /// The cookie of the framebuffer of the flip that is to come.
    pub fn pending(&self) -> Option<u64>
        ensures { result ≡ pending_of self.now }
    {
        self.flip.map(|flip| flip.fb)
    }

    /// The flip that is to come is done, at a blank with room for its event: the cookie of its framebuffer, which is shown from
    /// now on where the flip's mark stands.
    pub fn blank(&mut self) -> u64
        requires { IsSome (pending_of self.old) }
        ensures event { pending_of self.old ≡ Some result }
        ensures done { self.new ≡ after_blank self.old }
    {
        let Some(flip) = self.flip else {
            unreachable!();
        };
        if flip.marked {
            self.shown = Some(flip.fb);
        }
        self.flip = None;
        flip.fb
    }

    /// What is shown; None where there is no configuration, or no framebuffer is shown.
    pub fn picture(&self) -> Option<Picture>
        ensures { result ≡ picture_of self.now }
    {
        let r = self.rectangle?;
        let fb = self.shown?;
        Some(Picture {
            fb,
            x: r.x,
            y: r.y,
            width: r.width,
            height: r.height,
        })
    }
}

// A flip without its mark.
fn unmark(flip: Flip) -> Flip
    ensures { result ≡ without_mark flip }
{
    Flip {
        fb: flip.fb,
        marked: false,
    }
}
