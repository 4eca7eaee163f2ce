//! Statements, behind their first token.

ghost use Rattle.std.specs.Prelude.{◌≡◌};
ghost use Rattle.script_tokens.specs.Flaws.{Gives};
ghost use Rattle.script_tokens.specs.Cursors.{cursor, seen};
ghost use Rattle.scenario_text.specs.Scenario.{drafted};
ghost use Rattle.scenario_text.specs.Statements.{put_at, fill_at, put_grant_at, swap_at, open_at};
ghost use Rattle.scenario_text.specs.Statements.{end_at, node_at, bus_at, wake_at, blank_at, show_at, tick_at};
ghost use Rattle.scenario_text.specs.Statements.{back_at, serve_at};

use crate::argument::{half, key, mode, node_value, state};
use crate::draft::{Draft, Item};
use crate::limit::{PAGE_WORDS, TICK_LIMIT};
use crate::lookup::{Family, declared_device, declared_domain, part, parts_of};
use pv_words::{DevId, DomId, Frame, GrantRef, Half, HostEvent, Mode, NodeValue, Place, State};
use script_tokens::{Flaw, Tokens};

/// Stores to consecutive words of a domain, through following frames. The domain has all these words.
#[derive(Clone, Copy, Debug, PartialEq, Eq)]
pub struct Filling {
    /// The domain whose words they are.
    pub dom: DomId,
    /// The frame of the first word.
    pub frame: Frame,
    /// The first word in its frame, below 1024.
    pub word: u16,
    /// How many words, at least 1.
    pub count: u32,
    /// The value of the first word.
    pub value: u32,
    /// By how much each further word's value is above the one before it, modulo 2^32.
    pub step: u32,
}

/// Grants that a domain opens to the backend: consecutive grant entries, for consecutive frames. The domain
/// has all these entries and frames.
#[derive(Clone, Copy, Debug, PartialEq, Eq)]
pub struct Opening {
    /// The domain that opens them.
    pub dom: DomId,
    /// The first grant.
    pub gref: GrantRef,
    /// The frame of the first grant.
    pub frame: Frame,
    /// What they permit.
    pub mode: Mode,
    /// How many grants, at least 1.
    pub count: u32,
}

/// Grants that a domain ends: consecutive grant entries, which the domain has.
#[derive(Clone, Copy, Debug, PartialEq, Eq)]
pub struct Closing {
    /// The domain that ends them.
    pub dom: DomId,
    /// The first grant.
    pub gref: GrantRef,
    /// How many grants, at least 1.
    pub count: u32,
}

/// A statement of a scenario.
#[derive(Clone, Copy, Debug, PartialEq, Eq)]
pub enum Statement {
    /// Store this value at this place, a word of a page or a half of a grant entry.
    Put(Place, u32),
    /// Store these values, one word after the other.
    Fill(Filling),
    /// Store the second value at this place, the flags of a grant entry, where it holds the first one. It is
    /// one atomic compare and exchange.
    Swap(Place, u32, u32),
    /// Open these grants.
    Open(Opening),
    /// End these grants.
    End(Closing),
    /// Set the node of this device, part and key to this value.
    Node(DevId, u8, u8, NodeValue),
    /// Set the state of the frontend of this device.
    Bus(DevId, State),
    /// Raise the pending word of this device.
    Wake(DevId),
    /// Tell this device an event of its host: one of its kind, and of a part that it has.
    Host(DevId, HostEvent),
    /// Let this device work until it made this many accesses, at least 1, or is idle.
    Back(DevId, u32),
    /// Let this device work until it is idle.
    Serve(DevId),
}

/// `put D F W V`: store V at word W of frame F of domain D.
#[inline(never)]
#[tactic(auto, unfolding(crate::specs::Statements::put_at))]
pub fn put<'a>(so_far: &Draft, tokens: Tokens<'a>) -> Result<(Item, Tokens<'a>), Flaw>
    ensures { Gives seen result (put_at (drafted so_far.now) (cursor tokens.entry)) }
{
    let (size, tokens) = declared_domain(&so_far.sizes, tokens)?;
    let (frame, tokens) = tokens.below(u64::from(size.frames))?;
    let (word, tokens) = tokens.below(PAGE_WORDS)?;
    let (value, tokens) = tokens.below(1 << 32)?;
    let place = Place::Cell(size.dom, Frame(frame.value as u32), word.value as u16);
    Ok((
        Item::Step(Statement::Put(place, value.value as u32)),
        tokens,
    ))
}

/// `fill D F W N V T`: store V, V + T, V + 2T and so on, modulo 2^32, at the N words from word W of frame F
/// of domain D on, through following frames. The domain has all these words.
#[inline(never)]
#[tactic(auto, unfolding(crate::specs::Statements::fill_at))]
pub fn fill<'a>(so_far: &Draft, tokens: Tokens<'a>) -> Result<(Item, Tokens<'a>), Flaw>
    ensures { Gives seen result (fill_at (drafted so_far.now) (cursor tokens.entry)) }
{
    let (size, tokens) = declared_domain(&so_far.sizes, tokens)?;
    let (frame, tokens) = tokens.below(u64::from(size.frames))?;
    let (word, tokens) = tokens.below(PAGE_WORDS)?;
    let frame = Frame(frame.value as u32);
    let room = PAGE_WORDS * u64::from(size.frames - frame.0) - word.value;
    let (count, tokens) = tokens.between(1, room.min(u64::from(u32::MAX)) as u32)?;
    let (value, tokens) = tokens.below(1 << 32)?;
    let (step, tokens) = tokens.below(1 << 32)?;
    let filling = Filling {
        dom: size.dom,
        frame,
        word: word.value as u16,
        count: count.value as u32,
        value: value.value as u32,
        step: step.value as u32,
    };
    Ok((Item::Step(Statement::Fill(filling)), tokens))
}

/// `putg D G H V`: store V at half H, `flags` or `frame`, of grant entry G of domain D.
#[inline(never)]
#[tactic(auto, unfolding(crate::specs::Statements::put_grant_at))]
pub fn put_grant<'a>(so_far: &Draft, tokens: Tokens<'a>) -> Result<(Item, Tokens<'a>), Flaw>
    ensures { Gives seen result (put_grant_at (drafted so_far.now) (cursor tokens.entry)) }
{
    let (size, tokens) = declared_domain(&so_far.sizes, tokens)?;
    let (gref, tokens) = tokens.below(u64::from(size.grants))?;
    let (half, tokens) = half(tokens)?;
    let (value, tokens) = tokens.below(1 << 32)?;
    let place = Place::Grant(size.dom, GrantRef(gref.value as u32), half);
    Ok((
        Item::Step(Statement::Put(place, value.value as u32)),
        tokens,
    ))
}

/// `swap D G OLD NEW`: exchange the flags of grant entry G of domain D, where they are OLD, for NEW.
#[inline(never)]
#[tactic(auto, unfolding(crate::specs::Statements::swap_at))]
pub fn swap<'a>(so_far: &Draft, tokens: Tokens<'a>) -> Result<(Item, Tokens<'a>), Flaw>
    ensures { Gives seen result (swap_at (drafted so_far.now) (cursor tokens.entry)) }
{
    let (size, tokens) = declared_domain(&so_far.sizes, tokens)?;
    let (gref, tokens) = tokens.below(u64::from(size.grants))?;
    let (old, tokens) = tokens.below(1 << 32)?;
    let (new, tokens) = tokens.below(1 << 32)?;
    let place = Place::Grant(size.dom, GrantRef(gref.value as u32), Half::Flags);
    let statement = Statement::Swap(place, old.value as u32, new.value as u32);
    Ok((Item::Step(statement), tokens))
}

/// `open D G F M N`: open the N grants from G on of domain D, for its frames from F on, in mode M, which is
/// `rw` or `ro`. The domain has all these grants and frames.
#[inline(never)]
#[tactic(auto, unfolding(crate::specs::Statements::open_at))]
pub fn open<'a>(so_far: &Draft, tokens: Tokens<'a>) -> Result<(Item, Tokens<'a>), Flaw>
    ensures { Gives seen result (open_at (drafted so_far.now) (cursor tokens.entry)) }
{
    let (size, tokens) = declared_domain(&so_far.sizes, tokens)?;
    let (gref, tokens) = tokens.below(u64::from(size.grants))?;
    let (frame, tokens) = tokens.below(u64::from(size.frames))?;
    let (mode, tokens) = mode(tokens)?;
    let gref = GrantRef(gref.value as u32);
    let frame = Frame(frame.value as u32);
    let room = (size.grants - gref.0).min(size.frames - frame.0);
    let (count, tokens) = tokens.between(1, room)?;
    let opening = Opening {
        dom: size.dom,
        gref,
        frame,
        mode,
        count: count.value as u32,
    };
    Ok((Item::Step(Statement::Open(opening)), tokens))
}

/// `end D G N`: end the N grants from G on of domain D, which has them all.
#[inline(never)]
#[tactic(auto, unfolding(crate::specs::Statements::end_at))]
pub fn end<'a>(so_far: &Draft, tokens: Tokens<'a>) -> Result<(Item, Tokens<'a>), Flaw>
    ensures { Gives seen result (end_at (drafted so_far.now) (cursor tokens.entry)) }
{
    let (size, tokens) = declared_domain(&so_far.sizes, tokens)?;
    let (gref, tokens) = tokens.below(u64::from(size.grants))?;
    let gref = GrantRef(gref.value as u32);
    let (count, tokens) = tokens.between(1, size.grants - gref.0)?;
    let closing = Closing {
        dom: size.dom,
        gref,
        count: count.value as u32,
    };
    Ok((Item::Step(Statement::End(closing)), tokens))
}

/// `node N P NAME VALUE`: set the node NAME of part P of device N to VALUE.
#[inline(never)]
#[tactic(auto, unfolding(crate::specs::Statements::node_at))]
pub fn node<'a>(so_far: &Draft, tokens: Tokens<'a>) -> Result<(Item, Tokens<'a>), Flaw>
    ensures { Gives seen result (node_at (drafted so_far.now) (cursor tokens.entry)) }
{
    let (device, tokens) = declared_device(&so_far.devices, tokens)?;
    let (part, tokens) = tokens.below(u64::from(parts_of(&device.kind)))?;
    let (key, tokens) = key(&device.kind, tokens)?;
    let (value, tokens) = node_value(tokens)?;
    let statement = Statement::Node(device.dev, part.value as u8, key, value);
    Ok((Item::Step(statement), tokens))
}

/// `bus N S`: set the state of the frontend of device N to S, by its number.
#[inline(never)]
#[tactic(auto, unfolding(crate::specs::Statements::bus_at))]
pub fn bus<'a>(so_far: &Draft, tokens: Tokens<'a>) -> Result<(Item, Tokens<'a>), Flaw>
    ensures { Gives seen result (bus_at (drafted so_far.now) (cursor tokens.entry)) }
{
    let (device, tokens) = declared_device(&so_far.devices, tokens)?;
    let (state, tokens) = state(tokens)?;
    Ok((Item::Step(Statement::Bus(device.dev, state)), tokens))
}

/// `wake N`: raise the pending word of device N.
#[inline(never)]
#[tactic(auto, unfolding(crate::specs::Statements::wake_at))]
pub fn wake<'a>(so_far: &Draft, tokens: Tokens<'a>) -> Result<(Item, Tokens<'a>), Flaw>
    ensures { Gives seen result (wake_at (drafted so_far.now) (cursor tokens.entry)) }
{
    let (device, tokens) = declared_device(&so_far.devices, tokens)?;
    Ok((Item::Step(Statement::Wake(device.dev)), tokens))
}

/// `blank N C`: tell device N, a display, of a vertical blank of its connector C.
#[inline(never)]
#[tactic(auto, unfolding(crate::specs::Statements::blank_at))]
pub fn blank<'a>(so_far: &Draft, tokens: Tokens<'a>) -> Result<(Item, Tokens<'a>), Flaw>
    ensures { Gives seen result (blank_at (drafted so_far.now) (cursor tokens.entry)) }
{
    let ((dev, connector), tokens) = part(Family::Displays, &so_far.devices, tokens)?;
    let event = HostEvent::Blank(connector);
    Ok((Item::Step(Statement::Host(dev, event)), tokens))
}

/// `show N C`: tell device N, a display, to show the picture of its connector C.
#[inline(never)]
#[tactic(auto, unfolding(crate::specs::Statements::show_at))]
pub fn show<'a>(so_far: &Draft, tokens: Tokens<'a>) -> Result<(Item, Tokens<'a>), Flaw>
    ensures { Gives seen result (show_at (drafted so_far.now) (cursor tokens.entry)) }
{
    let ((dev, connector), tokens) = part(Family::Displays, &so_far.devices, tokens)?;
    let event = HostEvent::Show(connector);
    Ok((Item::Step(Statement::Host(dev, event)), tokens))
}

/// `tick N P K`: tell device N, a sound device, that K frames went by on its stream P, 1 to 1048576.
#[inline(never)]
#[tactic(auto, unfolding(crate::specs::Statements::tick_at))]
pub fn tick<'a>(so_far: &Draft, tokens: Tokens<'a>) -> Result<(Item, Tokens<'a>), Flaw>
    ensures { Gives seen result (tick_at (drafted so_far.now) (cursor tokens.entry)) }
{
    let ((dev, stream), tokens) = part(Family::Sounds, &so_far.devices, tokens)?;
    let (frames, tokens) = tokens.between(1, TICK_LIMIT)?;
    let event = HostEvent::Tick(stream, frames.value as u32);
    Ok((Item::Step(Statement::Host(dev, event)), tokens))
}

/// `back N K`: let device N work until it made K accesses, at least 1, or is idle.
#[inline(never)]
#[tactic(auto, unfolding(crate::specs::Statements::back_at))]
pub fn back<'a>(so_far: &Draft, tokens: Tokens<'a>) -> Result<(Item, Tokens<'a>), Flaw>
    ensures { Gives seen result (back_at (drafted so_far.now) (cursor tokens.entry)) }
{
    let (device, tokens) = declared_device(&so_far.devices, tokens)?;
    let (count, tokens) = tokens.between(1, u32::MAX)?;
    let statement = Statement::Back(device.dev, count.value as u32);
    Ok((Item::Step(statement), tokens))
}

/// `serve N`: let device N work until it is idle.
#[inline(never)]
#[tactic(auto, unfolding(crate::specs::Statements::serve_at))]
pub fn serve<'a>(so_far: &Draft, tokens: Tokens<'a>) -> Result<(Item, Tokens<'a>), Flaw>
    ensures { Gives seen result (serve_at (drafted so_far.now) (cursor tokens.entry)) }
{
    let (device, tokens) = declared_device(&so_far.devices, tokens)?;
    Ok((Item::Step(Statement::Serve(device.dev)), tokens))
}
