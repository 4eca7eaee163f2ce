//! The sound device.

ghost use Rattle.std.specs.Prelude.{◌≡◌, ◌≤◌, [], IfOk, length};
ghost use Rattle.device_core.specs.Order.{Between};
ghost use Rattle.device_core.specs.Site.{Site};
ghost use Rattle.device_service.specs.Stand.{dev_of, dom_of, held_of, parts_of, stand_of};
ghost use Rattle.device_service.specs.Work.{first_work};
ghost use Rattle.sound_backend.specs.Service.{first_known};

use crate::service::Service;
use device_service::Backend;
use pv_words::{DevId, DomId, StreamKind};
use std::alloc::{AllocError, Global};

/// A sound device, its connection to a frontend, and how far its work has come: a backend whose service is a sound device's. Its
/// parts are streams, each of playback or of capture as it was declared.
pub type Sound = Backend<Service>;

/// The sound device of this number and of this domain with a stream of each of these kinds, which waits for its frontend.
pub fn new_sound(
    alloc: Global,
    dev: DevId,
    dom: DomId,
    kinds: &[StreamKind],
) -> Result<Sound, AllocError>
    requires some { 1 ≤ length kinds.now }
    requires few { length kinds.now ≤ 4 }
    ensures between { IfOk result (λ d. (site : Site) → stand_of site d ≡ Between (first_work (first_known kinds.now))) }
    ensures dev { IfOk result (λ d. dev_of d ≡ dev.0) }
    ensures dom { IfOk result (λ d. dom_of d ≡ dom.0) }
    ensures parts { IfOk result (λ d. parts_of d ≡ length kinds.now) }
    ensures bare { IfOk result (λ d. held_of d ≡ []) }
{
    let service = Service::new(alloc, kinds)?;
    let sound = Backend::new(alloc, dev, dom, kinds.len() as u8, service)?;
    Ok(sound)
}
