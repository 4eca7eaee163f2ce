//! What a display tells that it holds, what it shows, and that it keeps the laws of a service.

ghost use Rattle.device_service.specs.Claims.{Keeps, RestsAsleep, Runs, Tells};
ghost use Rattle.display_backend.specs.Laws.{ShowsStaySound, TellsWhatIsHeld};
ghost use Rattle.display_backend.specs.Service.{display, shows, table};

use crate::service::Service;
use device_service::services_run;

/// All that a device with the display's service does and hears by the order of work is a run of its machine; each of its accesses is
/// in range and lies in a page that it holds then, or in a grant entry of its domain; and what happens to the machine as said and
/// heard is just what the device said and heard, in order. It rests only where its last Sleep, which goes over all its parts, found
/// no request.
pub fn displays_run()
    ensures runs { Runs display table shows }
    ensures keeps { Keeps display table shows }
    ensures tells { Tells display table shows }
    ensures rests { RestsAsleep display }
{
    services_run::<Service>();
}

/// Whatever a display has done and heard, the pages that it tells by `held` and `hold_at` are just those that its accesses hold,
/// each as often: those that they mapped and didn't unmap, also while an activity is under way.
pub fn tells_what_is_held()
    ensures { TellsWhatIsHeld }
{
    device_service::tells_what_is_held::<Service>();
}

/// Whatever a display has done and heard by its order of work: the cookie that a connector shows, and that of a pending flip whose
/// mark stands, names a live framebuffer in which the configured rectangle lies, and which lies in a live display buffer.
pub fn shows_stay_sound()
    ensures { ShowsStaySound }
{}
