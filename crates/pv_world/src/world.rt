//! The world of a scenario.

ghost use Rattle.std.specs.Prelude.{◌≡◌, ◌++◌, ◌∷◌, [], ◌<◌, ◌≤◌, IfErr, IfOk, IsSome, Ok, OnErr, OnOk, Some, length, true};
ghost use Rattle.std.specs.List.{AllByRecursion};
ghost use Rattle.backend_core.specs.Marked.{entry_of};
ghost use Rattle.pv_words.specs.declared.entry.Entry.TheVariants as entry;
ghost use Rattle.pv_words.specs.declared.entry.End.TheVariants as end;
ghost use Rattle.pv_words.specs.Place.{domain_of};
ghost use Rattle.backend_core.specs.Kinds.{parts_of};
ghost use Rattle.pv_words.specs.declared.journal.Stop.TheVariants as stop;
ghost use Rattle.pv_world.specs.Record.{EntersHost, RecordsStep, Grows, HasRoom, Shows, IsLonger};
ghost use Rattle.pv_world.specs.World.{AreDeclaredAs, HasParts, IsDeclaredAs};
ghost use Rattle.pv_world.specs.Owner.{EntersTurn};

use crate::owner::{Owning, news, place};
use backend_core::Device;
use device_core::Step;
use grant_table::{Owned, OwnerStep};
use pv_words::{
    Access, DevId, DeviceSetup, DomId, End, Entry, Frame, GrantRef, HostEvent, HostRefusal,
    JOURNAL_LIMIT, Journal, Machine, Mode, NodeValue, Place, Said, Setup, State, Stop, Turn, Who,
};
use std::alloc::{AllocError, Global};
use xenbus_states::Nodes;

/// A device, what was declared of it, and its nodes as they are set.
#[derive(Drop)]
pub struct Placed {
    setup: DeviceSetup,
    device: Device,
    nodes: Nodes,
}

/// The memory of all domains, and the devices that serve them.
#[derive(Drop)]
pub struct World<W> {
    memory: W,
    devices: Vec<Placed>,
}

// Makes room for so many further entries, as far as the journal may have them. It fails below the journal's limit alone.
#[inline(always)]
fn make_room(journal: &mut Journal, n: u32) -> Result<(), Stop>
    ensures same { journal.new.entries ≡ journal.old.entries }
    ensures ok { OnOk result (HasRoom n journal.new) }
    ensures err { IfErr result (λ why. (why ≡ stop.OutOfMemory) × (length journal.new.entries < JOURNAL_LIMIT)) }
{
    if journal.spare() >= n {
        return Ok(());
    }
    let wanted = n.min(JOURNAL_LIMIT - journal.len());
    if journal.spare() < wanted && journal.reserve(wanted).is_err() {
        return Err(Stop::OutOfMemory);
    }
    Ok(())
}

// Makes room for so many further entries, or for as many as the journal may have, which is one at least.
fn admit(journal: &mut Journal, n: u32) -> Result<(), Stop>
    requires { 1 ≤ n }
    ensures same { journal.new.entries ≡ journal.old.entries }
    ensures room { OnOk result (HasRoom n journal.new) }
    ensures below { OnOk result (length journal.new.entries < JOURNAL_LIMIT) }
    ensures cause { IfErr result (λ stop. Shows stop journal.new.entries) }
{
    if journal.len() >= JOURNAL_LIMIT {
        return Err(Stop::JournalFull);
    }
    make_room(journal, n)
}

// Appends an entry, for which there is room unless the journal is full.
fn enter(journal: &mut Journal, entry: Entry) -> Result<(), Stop>
    requires { HasRoom 1 journal.old }
    ensures ok { OnOk result (journal.new.entries ≡ journal.old.entries ++ entry ∷ []) }
    ensures err { OnErr result (journal.new.entries ≡ journal.old.entries) }
    ensures full { IfErr result (λ why. (why ≡ stop.JournalFull) × (length journal.new.entries ≡ JOURNAL_LIMIT)) }
    ensures below { OnOk result (length journal.old.entries < JOURNAL_LIMIT) }
    ensures room { HasRoom 2 journal.old → OnOk result (HasRoom 1 journal.new) }
{
    if journal.len() >= JOURNAL_LIMIT {
        return Err(Stop::JournalFull);
    }
    journal.push(entry);
    Ok(())
}

// How what a device says is entered: its state as one of the bus.
fn said_entry(dev: DevId, said: Said) -> Entry
    ensures { result ≡ entry_of dev said }
{
    match said {
        Said::State(state) => Entry::Bus(dev, End::Back, state),
        said => Entry::Said(dev, said),
    }
}

// Enters what a step did, for which there is room unless the journal becomes full, and tells whether it made an access, or was
// idle.
fn record(journal: &mut Journal, dev: DevId, step: &Step) -> Result<Option<bool>, Stop>
    requires { HasRoom 2 journal.old }
    ensures records { RecordsStep dev step.now journal.old.entries journal.new.entries result }
    ensures grows { Grows result journal.old.entries journal.new.entries }
{
    if let Some(access) = step.access {
        enter(journal, Entry::Back(dev, access))?;
        if let Some(said) = step.said {
            enter(journal, said_entry(dev, said))?;
        }
        return Ok(Some(true));
    }
    if let Some(said) = step.said {
        enter(journal, said_entry(dev, said))?;
        return Ok(Some(false));
    }
    Ok(None)
}

// Whose word it is.
fn domain(place: Place) -> DomId
    ensures { result ≡ record { 0 = domain_of place } }
{
    match place {
        Place::Cell(dom, _, _) => dom,
        Place::Grant(dom, _, _) => dom,
    }
}

// Enters the access of one step of a permit or an end, and what the domain is told of the result. Tells whether it
// goes on.
fn enter_turn(
    journal: &mut Journal,
    dom: DomId,
    gref: GrantRef,
    turn: &Turn<Owned>,
) -> Result<bool, Stop>
    requires access { IsSome turn.now.access }
    requires room { HasRoom 2 journal.old }
    requires below { length journal.old.entries < JOURNAL_LIMIT }
    ensures enters { EntersTurn dom gref turn.now.access turn.now.done journal.old.entries journal.new.entries result }
    ensures grows { result ≡ Ok true → IsLonger journal.old.entries journal.new.entries }
{
    if let Some(access) = turn.access {
        journal.push(Entry::Front(domain(place(access)), access));
    }
    if let Some(told) = news(gref, turn.done) {
        enter(journal, Entry::Told(dom, told))?;
    }
    Ok(turn.done.is_none())
}

// Enters an event of a host, for which there is room, and its refusal, where it is refused.
fn enter_host(
    journal: &mut Journal,
    dev: DevId,
    e: HostEvent,
    answer: Result<(), HostRefusal>,
) -> Result<(), Stop>
    requires room { HasRoom 2 journal.old }
    requires below { length journal.old.entries < JOURNAL_LIMIT }
    ensures { EntersHost dev e answer journal.old.entries journal.new.entries result }
{
    journal.push(Entry::Host(dev, e));
    match answer {
        Ok(()) => Ok(()),
        Err(why) => enter(journal, Entry::Refused(dev, why)),
    }
}

// A device as it is declared.
fn declare(alloc: Global, setup: &DeviceSetup) -> Result<Placed, AllocError>
    requires least { 1 ≤ parts_of setup.now.kind }
    requires most { parts_of setup.now.kind ≤ 4 }
    ensures { IfOk result (λ p. IsDeclaredAs setup.now p) }
{
    let device = Device::new(alloc, setup)?;
    Ok(Placed {
        setup: setup.clone()?,
        device,
        nodes: Nodes::new(),
    })
}

// All devices as they are declared.
fn declare_all(alloc: Global, setups: &[DeviceSetup]) -> Result<Vec<Placed>, AllocError>
    requires parts { AllByRecursion HasParts setups.now }
    ensures { IfOk result (λ ps. AreDeclaredAs setups.now ps.items) }
{
    let mut devices = Vec::new(alloc);
    for setup in setups {
        let device = declare(alloc, setup)?;
        devices.push(device)?;
    }
    Ok(devices)
}

impl<W: Machine + Drop> World<W> {
    ghost use Rattle.std.specs.Prelude.{ℕ};
    ghost use Rattle.pv_world.specs.World.{StandsForNothing, devices_of, setups, sight_of};

    /// The world of these domains and devices, each of 1 to 4 parts, over a memory of zeros. Where memory is refused, it
    /// is dropped.
    pub fn new(alloc: Global, memory: W, setup: &Setup) -> Result<World<W>, AllocError>
        requires parts { AllByRecursion HasParts setup.now.devices }
        ensures stands { IfOk result (λ w. StandsForNothing (sight_of W.Machine) memory setup.now.devices w) }
        ensures devices { IfOk result (λ w. setups (devices_of w) ≡ setup.now.devices) }
    {
        let devices = declare_all(alloc, setup.devices.as_slice())?;
        Ok(World { memory, devices })
    }
}

impl<W: Machine> World<W> {
    ghost use Rattle.std.specs.Prelude.{ℕ};
    ghost use Rattle.pv_words.specs.Plan.{IsUnfinished};
    ghost use Rattle.pv_words.specs.Place.{InRange};
    ghost use Rattle.backend_core.specs.History.{is_declared, parts_by, takes_by};
    ghost use Rattle.pv_words.specs.Keeping.{MayGoOn};
    ghost use Rattle.pv_words.specs.Port.{IsUnkept, KeepsSame};
    ghost use Rattle.pv_world.specs.Owner.{EndsFrom, MayOwnOn, OwnsFrom, OwnsOnFrom, PermitsFrom, left_of};
    ghost use Rattle.pv_world.specs.World.{AdvancesFrom, EntersFrom, ExchangesFrom, HostsFrom, IsAt, StandingAt, StepsFrom};
    ghost use Rattle.pv_world.specs.World.{devices_of, memory_of, setups, sight_of, store_entry};

    // Where a device stands among the devices.
    fn position(&self, dev: DevId) -> usize
        requires { is_declared (setups (devices_of self.now)) dev.0 ≡ true }
        ensures { IsAt (devices_of self.now) result dev }
    {
        let mut i = 0;
        'finding: while self.devices[i].setup.dev.0 != dev.0 {
            i += 1;
        }
        i
    }

    /// A domain stores a word, but none of a grant entry that the memory keeps. Where the entry finds no room, nothing
    /// changes.
    #[inline(always)]
    pub fn put(&mut self, place: Place, v: u32, journal: &mut Journal) -> Result<(), Stop>
        requires standing { StandingAt (sight_of W.Machine) self.old journal.old.entries }
        requires range { InRange (W.frames_of (memory_of self.old)) (W.grants_of (memory_of self.old)) place }
        requires unkept { IsUnkept (W.port (memory_of self.old)) place }
        ensures stored { EntersFrom (sight_of W.Machine) self.old journal.old (store_entry place v) self.new journal.new result }
        ensures err { OnErr result (self.new ≡ self.old) }
        ensures devices { setups (devices_of self.new) ≡ setups (devices_of self.old) }
        ensures keeps { KeepsSame (W.port (memory_of self.old)) (W.port (memory_of self.new)) }
    {
        // Room for the entry of the store, before the word is stored.
        admit(journal, 1)?;
        let dom = domain(place);
        self.memory.turn(Who::Dom(dom));
        self.memory.store(place, v);
        journal.push(Entry::Front(dom, Access::Store(place, v)));
        Ok(())
    }

    /// A domain exchanges a word, but none of a grant entry that the memory keeps, for `new` where it is `old`. Where the
    /// entry finds no room, nothing changes.
    pub fn swap(
        &mut self,
        place: Place,
        old: u32,
        new: u32,
        journal: &mut Journal,
    ) -> Result<(), Stop>
        requires standing { StandingAt (sight_of W.Machine) self.old journal.old.entries }
        requires range { InRange (W.frames_of (memory_of self.old)) (W.grants_of (memory_of self.old)) place }
        requires unkept { IsUnkept (W.port (memory_of self.old)) place }
        ensures exchanged { ExchangesFrom (sight_of W.Machine) self.old journal.old place old new self.new journal.new result }
        ensures err { OnErr result (self.new ≡ self.old) }
        ensures devices { setups (devices_of self.new) ≡ setups (devices_of self.old) }
        ensures keeps { KeepsSame (W.port (memory_of self.old)) (W.port (memory_of self.new)) }
    {
        admit(journal, 1)?;
        let dom = domain(place);
        self.memory.turn(Who::Dom(dom));
        let seen = self.memory.swap_if(place, old, new);
        journal.push(Entry::Front(dom, Access::Cas(place, old, new, seen)));
        Ok(())
    }

    // Makes the next access of a permit or an end, and enters it. Tells whether it goes on.
    fn own_turn(
        &mut self,
        owning: &mut Owning,
        dom: DomId,
        gref: GrantRef,
        journal: &mut Journal,
    ) -> Result<bool, Stop>
        requires standing { StandingAt (sight_of W.Machine) self.old journal.old.entries }
        requires live { IsUnfinished (left_of owning.old) }
        requires goes { MayGoOn (W.port (memory_of self.old)) dom.0 gref.0 (left_of owning.old) }
        requires range { gref.0 < W.grants_of (memory_of self.old) dom.0 }
        ensures owns { OwnsOnFrom (sight_of W.Machine) self.old journal.old dom gref owning.old owning.new self.new journal.new result }
        ensures live { result ≡ Ok true → MayOwnOn (W.port (memory_of self.new)) dom gref owning.new }
        ensures range { W.grants_of (memory_of self.new) dom.0 ≡ W.grants_of (memory_of self.old) dom.0 }
        ensures same { devices_of self.new ≡ devices_of self.old }
        ensures keeps { KeepsSame (W.port (memory_of self.old)) (W.port (memory_of self.new)) }
        ensures grows { result ≡ Ok true → IsLonger journal.old.entries journal.new.entries }
    {
        admit(journal, 2)?;
        self.memory.turn(Who::Dom(dom));
        let turn = owning.step(&mut self.memory);
        enter_turn(journal, dom, gref, &turn)
    }

    // Makes a permit or an end.
    fn own(
        &mut self,
        owning: Owning,
        dom: DomId,
        gref: GrantRef,
        journal: &mut Journal,
    ) -> Result<(), Stop>
        requires standing { StandingAt (sight_of W.Machine) self.old journal.old.entries }
        requires live { IsUnfinished (left_of owning) }
        requires goes { MayGoOn (W.port (memory_of self.old)) dom.0 gref.0 (left_of owning) }
        requires range { gref.0 < W.grants_of (memory_of self.old) dom.0 }
        ensures owns { OwnsFrom (sight_of W.Machine) self.old journal.old dom gref (left_of owning) self.new journal.new result }
        ensures grants { W.grants_of (memory_of self.new) dom.0 ≡ W.grants_of (memory_of self.old) dom.0 }
        ensures same { devices_of self.new ≡ devices_of self.old }
        ensures keeps { KeepsSame (W.port (memory_of self.old)) (W.port (memory_of self.new)) }
    {
        let mut owning = owning;
        'owning: while self.own_turn(&mut owning, dom, gref, journal)? {}
        Ok(())
    }

    /// A domain grants a frame to domain 0 by a free entry of its own, and is told of one that isn't free. After a Stop
    /// the entries so far stand.
    pub fn permit(
        &mut self,
        dom: DomId,
        gref: GrantRef,
        frame: Frame,
        mode: Mode,
        journal: &mut Journal,
    ) -> Result<(), Stop>
        requires standing { StandingAt (sight_of W.Machine) self.old journal.old.entries }
        requires range { gref.0 < W.grants_of (memory_of self.old) dom.0 }
        ensures owns { PermitsFrom (sight_of W.Machine) self.old journal.old dom gref frame mode self.new journal.new result }
        ensures grants { W.grants_of (memory_of self.new) dom.0 ≡ W.grants_of (memory_of self.old) dom.0 }
        ensures devices { setups (devices_of self.new) ≡ setups (devices_of self.old) }
        ensures keeps { KeepsSame (W.port (memory_of self.old)) (W.port (memory_of self.new)) }
    {
        let step = OwnerStep::permit(dom, gref, frame, mode);
        self.own(Owning::Permits(step), dom, gref, journal)
    }

    /// A domain ends a grant of its own, and is told what became of it. After a Stop the entries so far stand.
    pub fn end_grant(
        &mut self,
        dom: DomId,
        gref: GrantRef,
        journal: &mut Journal,
    ) -> Result<(), Stop>
        requires standing { StandingAt (sight_of W.Machine) self.old journal.old.entries }
        requires range { gref.0 < W.grants_of (memory_of self.old) dom.0 }
        ensures owns { EndsFrom (sight_of W.Machine) self.old journal.old dom gref self.new journal.new result }
        ensures grants { W.grants_of (memory_of self.new) dom.0 ≡ W.grants_of (memory_of self.old) dom.0 }
        ensures devices { setups (devices_of self.new) ≡ setups (devices_of self.old) }
        ensures keeps { KeepsSame (W.port (memory_of self.old)) (W.port (memory_of self.new)) }
    {
        let step = OwnerStep::end(dom, gref);
        self.own(Owning::Ends(step), dom, gref, journal)
    }

    /// A frontend sets a node of its device. The device sees it once the frontend sets its state.
    pub fn node(
        &mut self,
        dev: DevId,
        part: u8,
        key: u8,
        v: NodeValue,
        journal: &mut Journal,
    ) -> Result<(), Stop>
        requires declared { is_declared (setups (devices_of self.old)) dev.0 ≡ true }
        requires part { part < parts_by (setups (devices_of self.old)) dev.0 }
        requires parts { part < 4 }
        requires key { key < 4 }
        ensures set { EntersFrom (sight_of W.Machine) self.old journal.old (entry.Node dev part key v) self.new journal.new result }
        ensures devices { setups (devices_of self.new) ≡ setups (devices_of self.old) }
        ensures err { OnErr result (self.new ≡ self.old) }
        ensures memory { memory_of self.new ≡ memory_of self.old }
    {
        admit(journal, 1)?;
        let i = self.position(dev);
        self.devices[i].nodes.set(part, key, v);
        journal.push(Entry::Node(dev, part, key, v));
        Ok(())
    }

    /// A frontend sets its state, and its device hears it, with the nodes as they are set by then.
    pub fn bus(&mut self, dev: DevId, s: State, journal: &mut Journal) -> Result<(), Stop>
        requires declared { is_declared (setups (devices_of self.old)) dev.0 ≡ true }
        ensures heard { EntersFrom (sight_of W.Machine) self.old journal.old (entry.Bus dev end.Front s) self.new journal.new result }
        ensures devices { setups (devices_of self.new) ≡ setups (devices_of self.old) }
        ensures err { OnErr result (self.new ≡ self.old) }
        ensures memory { memory_of self.new ≡ memory_of self.old }
    {
        admit(journal, 1)?;
        let i = self.position(dev);
        let placed = &mut self.devices[i];
        placed.device.bus(s, &placed.nodes);
        journal.push(Entry::Bus(dev, End::Front, s));
        Ok(())
    }

    /// A host tells a device an event of its kind and of a part that it has, and the device takes it or refuses it. After a
    /// Stop the entries so far stand; where the event's own entry found no room, the device wasn't told.
    pub fn host(&mut self, dev: DevId, e: HostEvent, journal: &mut Journal) -> Result<(), Stop>
        requires standing { StandingAt (sight_of W.Machine) self.old journal.old.entries }
        requires declared { is_declared (setups (devices_of self.old)) dev.0 ≡ true }
        requires fits { takes_by (setups (devices_of self.old)) dev.0 e ≡ true }
        ensures hosted { HostsFrom (sight_of W.Machine) self.old journal.old dev e self.new journal.new result }
        ensures devices { setups (devices_of self.new) ≡ setups (devices_of self.old) }
        ensures memory { memory_of self.new ≡ memory_of self.old }
    {
        admit(journal, 2)?;
        let i = self.position(dev);
        let answer = self.devices[i].device.host(e);
        enter_host(journal, dev, e, answer)
    }

    /// A frontend raises its device's pending word.
    pub fn wake(&mut self, dev: DevId, journal: &mut Journal) -> Result<(), Stop>
        requires declared { is_declared (setups (devices_of self.old)) dev.0 ≡ true }
        ensures woken { EntersFrom (sight_of W.Machine) self.old journal.old (entry.Wake dev) self.new journal.new result }
        ensures same { self.new ≡ self.old }
    {
        admit(journal, 1)?;
        journal.push(Entry::Wake(dev));
        Ok(())
    }

    // Makes one step of a device and enters it. Tells whether it made an access, or was idle.
    fn advance(&mut self, i: usize, dev: DevId, journal: &mut Journal) -> Result<Option<bool>, Stop>
        requires standing { StandingAt (sight_of W.Machine) self.old journal.old.entries }
        requires at { IsAt (devices_of self.old) i dev }
        ensures advanced { AdvancesFrom (sight_of W.Machine) self.old journal.old dev self.new journal.new result }
        ensures at { IsAt (devices_of self.new) i dev }
        ensures devices { setups (devices_of self.new) ≡ setups (devices_of self.old) }
        ensures keeps { KeepsSame (W.port (memory_of self.old)) (W.port (memory_of self.new)) }
        ensures grows { Grows result journal.old.entries journal.new.entries }
    {
        make_room(journal, 2)?;
        self.memory.turn(Who::Dev(dev));
        let step = self.devices[i].device.step(&mut self.memory);
        record(journal, dev, &step)
    }

    /// Steps a device until it is idle, or, where a number is given, until it has made so many accesses. After a Stop the
    /// entries so far stand; at a full journal the device has gone no further than the one step that found no room.
    pub fn back(&mut self, dev: DevId, most: Option<u32>, journal: &mut Journal) -> Result<(), Stop>
        requires standing { StandingAt (sight_of W.Machine) self.old journal.old.entries }
        requires declared { is_declared (setups (devices_of self.old)) dev.0 ≡ true }
        requires least { (n : ℕ) → most ≡ Some n → 1 ≤ n }
        ensures stepped { StepsFrom (sight_of W.Machine) self.old journal.old dev most self.new journal.new result }
        ensures devices { setups (devices_of self.new) ≡ setups (devices_of self.old) }
        ensures keeps { KeepsSame (W.port (memory_of self.old)) (W.port (memory_of self.new)) }
    {
        let i = self.position(dev);
        let mut made = 0;
        'stepping: while let Some(accessed) = self.advance(i, dev, journal)? {
            if accessed {
                made += 1;
                if most == Some(made) {
                    return Ok(());
                }
            }
        }
        Ok(())
    }
}
