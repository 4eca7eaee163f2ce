//! The verdict on a request, its status, and what its answer makes of the buffers.

ghost use Rattle.std.specs.Prelude.{◌≡◌, pos};
ghost use Rattle.display_backend.specs.Course.{MayAnswer};
ghost use Rattle.display_backend.specs.Scene.{scene_after};
ghost use Rattle.display_backend.specs.Showing.{scene_of};
ghost use Rattle.display_backend.specs.Verdict.{checked, destroy_verdict, verdict};
ghost use Rattle.page_directory.specs.Progress.{is_accepted, status_in};
ghost use Rattle.display_buffers.specs.Store.{stock_of, count_of};
ghost use Rattle.display_backend.specs.Reply.{stock_after};

use crate::scene::Scene;
use displ_wire::{Asked, Refused};
use display_buffers::Store;
use page_directory::Progress;

// The status where a framebuffer is attached to a buffer.
pub(crate) const EBUSY: i32 = -16;

// The status of a request whose checks come out so.
fn status_by(check: Result<(), Refused>) -> i32
    ensures { result ≡ checked check }
{
    match check {
        Ok(()) => 0,
        Err(why) => why.status(),
    }
}

// The verdict on a DESTROY, where its buffer is live or not, and a framebuffer of it or none.
fn destroy_verdict(is_live: bool, is_used: bool) -> i32
    ensures { result ≡ destroy_verdict is_live is_used }
{
    match (is_live, is_used) {
        (false, _) => Refused::Unknown.status(),
        (true, true) => EBUSY,
        (true, false) => 0,
    }
}

// The verdict on a request.
pub(crate) fn verdict_on(store: &Store, scene: &Scene, asked: &Asked) -> i32
    ensures { result ≡ verdict (stock_of store.now).buffers (scene_of scene.now) asked.now }
{
    match asked {
        Asked::Create(create) => status_by(store.check(create)),
        Asked::Destroy(cookie) => destroy_verdict(store.is_live(*cookie), scene.uses(*cookie)),
        Asked::Attach(a) => status_by(scene.check_attach(store, a)),
        Asked::Detach(fb) => status_by(scene.check_detach(*fb)),
        Asked::Config(config) => status_by(scene.check_config(config)),
        Asked::Flip(fb) => status_by(scene.check_flip(*fb)),
        Asked::Other => Refused::NotSupported.status(),
    }
}

// What the reply to a request makes of the buffers, the framebuffers and the connectors.
pub(crate) fn answered(store: &mut Store, scene: &mut Scene, asked: &Asked, status: i32)
    requires done { status ≡ pos 0 → MayAnswer asked.now (stock_of store.old).buffers (count_of store.old) }
    requires accepted { status ≡ pos 0 → verdict (stock_of store.old).buffers (scene_of scene.old) asked.now ≡ pos 0 }
    ensures stock { stock_of store.new ≡ stock_after (stock_of store.old) asked.now (is_accepted status) }
    ensures scene { scene_of scene.new ≡ scene_after (stock_of store.old).buffers (scene_of scene.old) asked.now (is_accepted status) }
{
    if status != 0 {
        return;
    }
    scene.answered(store, asked);
    match asked {
        Asked::Create(create) => store.create(create),
        Asked::Destroy(cookie) => store.destroy(*cookie),
        _ => {}
    }
}

// The status of a request that has come so far.
pub(crate) fn status_at(store: &Store, scene: &Scene, progress: Progress, asked: &Asked) -> i32
    ensures { result ≡ status_in progress (verdict (stock_of store.now).buffers (scene_of scene.now) asked.now) }
{
    progress.status(verdict_on(store, scene, asked))
}
