//! Plays the statements of a scenario, one after another.

ghost use Rattle.std.specs.Prelude.{◌≡◌, [], OnOk, OnErr, Err};
ghost use Rattle.pv_words.specs.declared.journal.Stop.TheVariants as stop;
ghost use Rattle.pv_words.specs.Port.{KeepsNone, KeepsSame};
ghost use Rattle.scenario_text.specs.Playable.{IsPlayable};
ghost use Rattle.scenario_text.specs.declared.statement.Statement.TheVariants as statement;
ghost use Rattle.pv_world.specs.World.{StandingAt, devices_of, memory_of, setups, sight_of};
ghost use Rattle.scenario_run.specs.Legal.{IsFullFor, IsLegal, IsLegalTo, IsWantingFor};
ghost use Rattle.scenario_run.specs.Played.{CanPlayIn, PlaysFrom, StartsIn};

use pv_words::{Frame, GrantRef, Journal, ListWords, Machine, Place, Stop};
use pv_world::World;
use scenario_text::{Closing, Filling, Opening, Script, Statement};
use std::alloc::Global;

/// The number of words of a page.
const PAGE_WORDS: u32 = 1024;

// Stores to words of a domain, one after another.
fn fill<W: Machine>(
    world: &mut World<W>,
    filling: &Filling,
    journal: &mut Journal,
) -> Result<(), Stop>
    requires standing { StandingAt (sight_of W.Machine) world.old journal.old.entries }
    requires playable { CanPlayIn (sight_of W.Machine) world.old (statement.Fill filling.now) }
    ensures played { PlaysFrom (sight_of W.Machine) world.old journal.old (statement.Fill filling.now) world.new journal.new result }
    ensures devices { setups (devices_of world.new) ≡ setups (devices_of world.old) }
    ensures keeps { KeepsSame (W.port (memory_of world.old)) (W.port (memory_of world.new)) }
{
    let first = PAGE_WORDS * filling.frame.0 + u32::from(filling.word);
    for k in 0..filling.count {
        let n = first + k;
        let place = Place::Cell(filling.dom, Frame(n / PAGE_WORDS), (n % PAGE_WORDS) as u16);
        let v = filling.value.wrapping_add(k.wrapping_mul(filling.step));
        world.put(place, v, journal)?;
    }
    Ok(())
}

// Opens grants of a domain, one after another.
fn open<W: Machine>(
    world: &mut World<W>,
    opening: &Opening,
    journal: &mut Journal,
) -> Result<(), Stop>
    requires standing { StandingAt (sight_of W.Machine) world.old journal.old.entries }
    requires playable { CanPlayIn (sight_of W.Machine) world.old (statement.Open opening.now) }
    ensures played { PlaysFrom (sight_of W.Machine) world.old journal.old (statement.Open opening.now) world.new journal.new result }
    ensures devices { setups (devices_of world.new) ≡ setups (devices_of world.old) }
    ensures keeps { KeepsSame (W.port (memory_of world.old)) (W.port (memory_of world.new)) }
{
    for k in 0..opening.count {
        let gref = GrantRef(opening.gref.0 + k);
        let frame = Frame(opening.frame.0 + k);
        world.permit(opening.dom, gref, frame, opening.mode, journal)?;
    }
    Ok(())
}

// Ends grants of a domain, one after another.
fn end<W: Machine>(
    world: &mut World<W>,
    closing: &Closing,
    journal: &mut Journal,
) -> Result<(), Stop>
    requires standing { StandingAt (sight_of W.Machine) world.old journal.old.entries }
    requires playable { CanPlayIn (sight_of W.Machine) world.old (statement.End closing.now) }
    ensures played { PlaysFrom (sight_of W.Machine) world.old journal.old (statement.End closing.now) world.new journal.new result }
    ensures devices { setups (devices_of world.new) ≡ setups (devices_of world.old) }
    ensures keeps { KeepsSame (W.port (memory_of world.old)) (W.port (memory_of world.new)) }
{
    for k in 0..closing.count {
        world.end_grant(closing.dom, GrantRef(closing.gref.0 + k), journal)?;
    }
    Ok(())
}

// Plays one statement.
fn play_statement<W: Machine>(
    world: &mut World<W>,
    statement: &Statement,
    journal: &mut Journal,
) -> Result<(), Stop>
    requires standing { StandingAt (sight_of W.Machine) world.old journal.old.entries }
    requires playable { CanPlayIn (sight_of W.Machine) world.old statement.now }
    ensures played { PlaysFrom (sight_of W.Machine) world.old journal.old statement.now world.new journal.new result }
    ensures devices { setups (devices_of world.new) ≡ setups (devices_of world.old) }
    ensures keeps { KeepsSame (W.port (memory_of world.old)) (W.port (memory_of world.new)) }
{
    match statement {
        Statement::Put(place, v) => world.put(*place, *v, journal),
        Statement::Fill(filling) => fill(world, filling, journal),
        Statement::Swap(place, old, new) => world.swap(*place, *old, *new, journal),
        Statement::Open(opening) => open(world, opening, journal),
        Statement::End(closing) => end(world, closing, journal),
        Statement::Node(dev, part, key, v) => world.node(*dev, *part, *key, *v, journal),
        Statement::Bus(dev, state) => world.bus(*dev, *state, journal),
        Statement::Wake(dev) => world.wake(*dev, journal),
        Statement::Host(dev, e) => world.host(*dev, *e, journal),
        Statement::Back(dev, count) => world.back(*dev, Some(*count), journal),
        Statement::Serve(dev) => world.back(*dev, None, journal),
    }
}

// Plays all statements of a script over its world, whose memory keeps no grant entries.
fn play_all<W: Machine>(
    script: &Script,
    world: &mut World<W>,
    journal: &mut Journal,
) -> Result<(), Stop>
    requires playable { IsPlayable script.now }
    requires new { StartsIn (sight_of W.Machine) script.now world.old }
    requires devices { setups (devices_of world.old) ≡ script.now.devices }
    requires unkept { KeepsNone (W.port (memory_of world.old)) }
    requires empty { journal.old.entries ≡ [] }
    ensures ok { OnOk result (IsLegal script.now journal.new.entries) }
    ensures stopped { OnErr result (IsLegalTo script.now journal.new.entries) }
    ensures full { result ≡ Err stop.JournalFull → IsFullFor script.now journal.new.entries }
    ensures wanting { result ≡ Err stop.OutOfMemory → IsWantingFor script.now journal.new.entries }
{
    let statements = script.statements();
    for statement in statements {
        play_statement(world, statement, journal)?;
    }
    Ok(())
}

/// Plays a script over a list of words, all 0 at the beginning; a script can always be played. After a Stop the entries
/// so far stand; where memory was wanting, no step of a device among them is cut in two.
pub fn play(alloc: Global, script: &Script, journal: &mut Journal) -> Result<(), Stop>
    requires { journal.old.entries ≡ [] }
    ensures ok { OnOk result (IsLegal script.now journal.new.entries) }
    ensures stopped { OnErr result (IsLegalTo script.now journal.new.entries) }
    ensures full { result ≡ Err stop.JournalFull → IsFullFor script.now journal.new.entries }
    ensures wanting { result ≡ Err stop.OutOfMemory → IsWantingFor script.now journal.new.entries }
{
    let setup = script.setup();
    let Ok(memory) = ListWords::new(alloc, &setup.sizes) else {
        return Err(Stop::OutOfMemory);
    };
    match World::new(alloc, memory, setup) {
        Ok(mut world) => play_all(script, &mut world, journal),
        Err(_) => Err(Stop::OutOfMemory),
    }
}
