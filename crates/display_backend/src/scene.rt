//! What a display shows: its framebuffers and its connectors.

ghost use Rattle.std.specs.Prelude.{◌≡◌, length};

use crate::picture::Source;
use connectors::Connector;
use displ_wire::{Asked, Attach, Config, Refused, encode_event};
use display_buffers::Store;
use framebuffers::Frames;
use picture_scan::Shape;
use pv_words::Said;
use std::alloc::{AllocError, Global};

// How many connectors a display has at most.
const CONNECTORS: usize = 4;

/// The live framebuffers of a display, its connectors by part, and the part by which the last request came. The room for 64
/// framebuffers is taken when it is made.
#[derive(Drop)]
pub struct Scene {
    frames: Frames,
    connectors: [Connector; CONNECTORS],
    part: u8,
    ghost four: { length connectors ≡ 4 },
}

impl Scene {
    ghost use Rattle.std.specs.Prelude.{IfOk, IsSome, Ok, option_map, pos, true};
    ghost use Rattle.framebuffers.specs.Frames.{attach_check, detach_check, frame_of, is_used};
    ghost use Rattle.connectors.specs.Connectors.{config_check, flip_check};
    ghost use Rattle.display_backend.specs.Scene.{after_blank_at, asking, configured, connector_at, detached, flipped};
    ghost use Rattle.display_buffers.specs.Buffers.{buffer_at};
    ghost use Rattle.display_backend.specs.Scene.{no_scene, pending_at, scene_after, with_connector};
    ghost use Rattle.display_backend.specs.Service.{flip_words, flipped_at, raised_at};
    ghost use Rattle.display_backend.specs.Showing.{scene_of};
    ghost use Rattle.display_backend.specs.Picture.{source_at};
    ghost use Rattle.display_buffers.specs.Store.{stock_of};
    ghost use Rattle.display_backend.specs.Verdict.{verdict};

    /// No framebuffer, and no connector is configured.
    pub fn new(alloc: Global) -> Result<Scene, AllocError>
        ensures { IfOk result (λ s. scene_of s ≡ no_scene) }
    {
        let frames = Frames::new(alloc)?;
        Ok(Scene {
            frames,
            connectors: [Connector::new(); CONNECTORS],
            part: 0,
        })
    }

    /// Takes away all framebuffers, configurations and pending flips.
    pub fn clear(&mut self)
        ensures { scene_of self.new ≡ no_scene }
    {
        self.frames.clear();
        self.connectors = [Connector::new(); CONNECTORS];
        self.part = 0;
    }

    /// A request came by this part.
    pub fn asked_by(&mut self, part: u8)
        ensures { scene_of self.new ≡ record (scene_of self.old) { part = part } }
    {
        self.part = part;
    }

    /// The cookie of the framebuffer of the flip that is pending on the connector of this part.
    pub fn pending(&self, part: u8) -> Option<u64>
        ensures { result ≡ pending_at (scene_of self.now) part }
    {
        self.connector(part).pending()
    }

    /// Whether a framebuffer of the display buffer of this cookie is live.
    pub fn uses(&self, dbuf: u64) -> bool
        ensures { result ≡ is_used dbuf (scene_of self.now).frames }
    {
        self.frames.uses(dbuf)
    }

    // The connector of a part.
    fn connector(&self, part: u8) -> Connector
        ensures { result ≡ connector_at (scene_of self.now) part }
    {
        let k = usize::from(part);
        if k < CONNECTORS {
            self.connectors[k]
        } else {
            Connector::new()
        }
    }

    // The connector of a part becomes this.
    fn set(&mut self, part: u8, connector: Connector)
        ensures { scene_of self.new ≡ with_connector (scene_of self.old) part connector }
    {
        let k = usize::from(part);
        if k < CONNECTORS {
            self.connectors[k] = connector;
        }
    }

    /// What the connector of a part shows; None where it has no rectangle, or shows no framebuffer.
    pub fn source(&self, store: &Store, part: u8) -> Option<Source>
        ensures { result ≡ source_at (stock_of store.now).buffers (scene_of self.now) part }
    {
        let picture = self.connector(part).picture()?;
        let frame = self.frames.find(picture.fb)?;
        let buffer = store.buffer(frame.dbuf)?;
        Some(Source {
            dbuf: frame.dbuf,
            shape: Shape {
                width: buffer.width,
                bpp: buffer.bpp,
                x: picture.x,
                y: picture.y,
                columns: picture.width,
                rows: picture.height,
            },
        })
    }

    /// The first check of an ATTACH that fails.
    pub fn check_attach(&self, store: &Store, a: &Attach) -> Result<(), Refused>
        ensures { result ≡ attach_check (scene_of self.now).frames a.now (buffer_at a.now.dbuf_cookie (stock_of store.now).buffers) }
    {
        self.frames.check(a, store.buffer(a.dbuf_cookie))
    }

    /// The check of a DETACH.
    pub fn check_detach(&self, fb: u64) -> Result<(), Refused>
        ensures { result ≡ detach_check fb (scene_of self.now).frames }
    {
        if self.frames.find(fb).is_some() {
            Ok(())
        } else {
            Err(Refused::Unknown)
        }
    }

    /// The first check of a SET_CONFIG that fails.
    pub fn check_config(&self, config: &Config) -> Result<(), Refused>
        ensures { result ≡ config_check config.now (frame_of config.now.fb_cookie (scene_of self.now).frames) }
    {
        let mut connector = self.connector(self.part);
        connector.config(config, self.frames.find(config.fb_cookie))
    }

    /// The first check of a FLIP that fails.
    pub fn check_flip(&self, fb: u64) -> Result<(), Refused>
        ensures { result ≡ flip_check (asking (scene_of self.now)) (frame_of fb (scene_of self.now).frames) }
    {
        let mut connector = self.connector(self.part);
        connector.flip(fb, self.frames.find(fb))
    }

    /// What an accepted request makes of it.
    pub fn answered(&mut self, store: &Store, asked: &Asked)
        requires { verdict (stock_of store.now).buffers (scene_of self.old) asked.now ≡ pos 0 }
        ensures { scene_of self.new ≡ scene_after (stock_of store.now).buffers (scene_of self.old) asked.now true }
    {
        match asked {
            Asked::Attach(a) => {
                let _ = self.frames.attach(a, store.buffer(a.dbuf_cookie));
            }
            Asked::Detach(fb) => self.detach(*fb),
            Asked::Config(config) => self.configure(config),
            Asked::Flip(fb) => self.flip(*fb),
            Asked::Create(_) | Asked::Destroy(_) | Asked::Other => {}
        }
    }

    // A framebuffer goes, from each connector too.
    fn detach(&mut self, fb: u64)
        ensures { scene_of self.new ≡ detached fb (scene_of self.old) }
    {
        let _ = self.frames.detach(fb);
        for connector in self.connectors.iter_mut() {
            connector.detached(fb);
        }
    }

    // The connector that asks is configured.
    fn configure(&mut self, config: &Config)
        requires { config_check config.now (frame_of config.now.fb_cookie (scene_of self.old).frames) ≡ Ok tt }
        ensures { scene_of self.new ≡ configured config.now (scene_of self.old) }
    {
        let mut connector = self.connector(self.part);
        let _ = connector.config(config, self.frames.find(config.fb_cookie));
        self.set(self.part, connector);
    }

    // A flip is pending on the connector that asks.
    fn flip(&mut self, fb: u64)
        requires { flip_check (asking (scene_of self.old)) (frame_of fb (scene_of self.old).frames) ≡ Ok tt }
        ensures { scene_of self.new ≡ flipped fb (scene_of self.old) }
    {
        let mut connector = self.connector(self.part);
        let _ = connector.flip(fb, self.frames.find(fb));
        self.set(self.part, connector);
    }

    /// The flip that is pending on the connector of this part is done.
    pub fn blank(&mut self, part: u8)
        requires { IsSome (pending_at (scene_of self.old) part) }
        ensures { scene_of self.new ≡ after_blank_at (scene_of self.old) part }
    {
        let mut connector = self.connector(part);
        let _ = connector.blank();
        self.set(part, connector);
    }

    /// The words of the event that the pending flip of this part is done, by in_prod.
    pub fn flip_words(&self, part: u8, prod: u32) -> Option<[u32; 16]>
        ensures { result ≡ option_map (λ fb. flip_words fb prod) (pending_at (scene_of self.now) part) }
    {
        let fb = self.pending(part)?;
        Some(encode_event((prod % 65536) as u16, fb))
    }

    /// The event of the pending flip of this part was put, so the flip is done; what is said of it.
    pub fn raised(&mut self, part: u8) -> Said
        ensures said { result ≡ raised_at part (pending_at (scene_of self.old) part) }
        ensures done { scene_of self.new ≡ flipped_at (scene_of self.old) part (pending_at (scene_of self.old) part) }
    {
        let Some(fb) = self.pending(part) else {
            return Said::Full(part);
        };
        self.blank(part);
        Said::Raised(part, fb)
    }
}
