//! The least service.

ghost use Rattle.device_service.specs.Claims.{Keeps, RestsAsleep, Runs, Tells};
ghost use Rattle.device_service.specs.Refusing.{refused, refusing, shows_none};

/// What a device does whose service knows no operation, and answers each request that it is not supported, is a run of the machine
/// whose requests are answered so.
pub fn refusing_runs()
    ensures runs { Runs refusing refused shows_none }
    ensures keeps { Keeps refusing refused shows_none }
    ensures tells { Tells refusing refused shows_none }
    ensures rests { RestsAsleep refusing }
{}
