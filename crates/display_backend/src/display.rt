//! The display device.

ghost use Rattle.std.specs.Prelude.{◌≡◌, ◌≤◌, [], IfOk};
ghost use Rattle.device_core.specs.Order.{Between};
ghost use Rattle.device_core.specs.Site.{Site};
ghost use Rattle.device_service.specs.Stand.{dev_of, dom_of, held_of, parts_of, stand_of};
ghost use Rattle.device_service.specs.Work.{first_work};
ghost use Rattle.display_backend.specs.Service.{nothing_known};

use crate::service::Service;
use device_service::Backend;
use pv_words::{DevId, DomId};
use std::alloc::{AllocError, Global};

/// A display, its connection to a frontend, and how far its work has come: a backend whose service is a display's.
pub type Display = Backend<Service>;

/// The display of this number, of so many parts and of this domain, which waits for its frontend.
pub fn new_display(
    alloc: Global,
    dev: DevId,
    dom: DomId,
    connectors: u8,
) -> Result<Display, AllocError>
    requires some { 1 ≤ connectors }
    requires few { connectors ≤ 4 }
    ensures between { IfOk result (λ d. (site : Site) → stand_of site d ≡ Between (first_work nothing_known)) }
    ensures dev { IfOk result (λ d. dev_of d ≡ dev.0) }
    ensures dom { IfOk result (λ d. dom_of d ≡ dom.0) }
    ensures parts { IfOk result (λ d. parts_of d ≡ connectors) }
    ensures bare { IfOk result (λ d. held_of d ≡ []) }
{
    let service = Service::new(alloc)?;
    let display = Backend::new(alloc, dev, dom, connectors, service)?;
    Ok(display)
}
