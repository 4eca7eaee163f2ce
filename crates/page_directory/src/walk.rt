//! A device maps the pages that a page directory lists.

ghost use Rattle.std.specs.Prelude.{◌≡◌, ℕ, ◌+◌, ◌-◌, ◌<◌, ◌≤◌, true, false, Some, None, IfOk, is_some, vec_len, vec_capacity};
ghost use Rattle.pv_words.specs.MapLeft.{dom_of, is_over};
ghost use Rattle.page_directory.specs.Stages.{is_mapping, is_going, is_leaving, is_reading, is_turning, is_undoing, undone, directory_in};

use crate::pages::Pages;
use pv_words::{
    Access, DomId, GrantRef, GrantRefusal, Hold, MapStep, Mode, Place, Turn, Words, unmap,
};
use std::alloc::{AllocError, Global};
use std::mem;

/// How many octets a page has.
const PAGE_OCTETS: u32 = 4096;

/// How many references a directory page has room for.
const PER_PAGE: usize = 1023;

/// What a walk comes to.
#[derive(Drop)]
pub enum Walked {
    /// The pages, all of them held.
    Pages(Pages),
    /// Why the walk was refused, after which it holds no page.
    Refused(GrantRefusal),
}

// What a walk does next.
#[derive(Clone, Copy)]
enum Stage {
    // It maps a directory page.
    Directory,
    // It loads a reference of this directory page,
    Reference(Hold),
    // and maps its page.
    Page(Hold),
    // It loads the reference of the next directory page.
    Next(Hold),
    // It unmaps this directory page, and goes on with the one of this reference.
    Further(Hold, GrantRef),
    // It unmaps the last directory page.
    Leave(Hold),
    // It unmaps what it holds, from this number on, since it was refused.
    Undo(usize, GrantRefusal),
    Over,
}

/// A walk over a page directory: how far it has come. Each step makes the next access.
#[derive(Drop)]
pub struct Walk {
    dom: DomId,
    mode: Mode,
    // The map that is under way.
    map: MapStep,
    // The pages that were mapped; of these, from which number on this directory page lists them; how many more are
    // needed behind the next one; and how many there are to be in all.
    pages: Vec<Hold>,
    begins: usize,
    more: u32,
    count: u32,
    stage: Stage,
    ghost same_dom: { dom_of map ≡ dom.0 },
    ghost maps: { is_mapping stage ≡ true → is_over map ≡ false },
    ghost room: { is_going stage ≡ true → vec_len pages + more < vec_capacity pages },
    ghost counted: { is_going stage ≡ true → vec_len pages + more + 1 ≡ count },
    ghost complete: { is_leaving stage ≡ true → vec_len pages ≡ count },
    ghost limit: { vec_capacity pages ≤ 8192 },
    ghost begin: { begins ≤ vec_len pages },
    ghost reads: { is_reading stage ≡ true → vec_len pages < begins + 1023 },
    ghost turned: { is_turning stage ≡ true → 0 < vec_len pages },
    ghost undoes: { is_undoing stage ≡ true → undone stage < vec_len pages },
}

impl Walk {
    ghost use Rattle.std.specs.Prelude.{[], ◌∷◌, ◌++◌, length, slice_get, drop, List, IfSome, OnSome};
    ghost use Rattle.std.specs.List.{insert};
    ghost use Rattle.pv_words.specs.declared.grant.Hold.{Hold};
    ghost use Rattle.pv_words.specs.Plan.{IsUnfinished, MayGo, Makes};
    ghost use Rattle.page_directory.specs.declared.walk.Walked.{Walked};
    ghost use Rattle.page_directory.specs.declared.walk.Stage.TheVariants as stage;
    ghost use Rattle.page_directory.specs.Walking.{pages_of, undo_plan};
    ghost use Rattle.page_directory.specs.WalkLeft.{walk_left, count_of, is_begun, held_by, Counts, PagesByAccess, LiesIn};
    ghost use Rattle.page_directory.specs.WalkSteps.{walk_left_by, BeginsWalk, StepsBy, StepsWherever, UndoesFrom, UndoesAfter};
    ghost use Rattle.page_directory.specs.WalkSteps.{GoesOnWith, TurnsBy, ChangesHeldBy};
    ghost use Rattle.page_directory.specs.WalkLeft.{dom_of as walked_dom, is_over as is_walked};

    /// A walk for a buffer of so many octets, before its first access: over the page directory of the domain whose first
    /// page this reference grants. It takes the room for all pages at once.
    pub fn new(
        alloc: Global,
        dom: DomId,
        buffer_sz: u32,
        gref: GrantRef,
        mode: Mode,
    ) -> Result<Walk, AllocError>
        requires some { 0 < buffer_sz }
        requires limit { buffer_sz ≤ 33554432 }
        ensures whole { IfOk result (BeginsWalk dom.0 gref.0 mode (pages_of buffer_sz)) }
        ensures dom { IfOk result (λ w. walked_dom w ≡ dom.0) }
        ensures begins { IfOk result (λ w. is_walked w ≡ false) }
        ensures holds { IfOk result (λ w. held_by w ≡ []) }
        ensures count { IfOk result (λ w. count_of w ≡ pages_of buffer_sz) }
    {
        let count = (buffer_sz + (PAGE_OCTETS - 1)) / PAGE_OCTETS;
        let pages = Vec::with_capacity(alloc, count as usize)?;
        Ok(Walk {
            dom,
            mode,
            map: MapStep::new(dom, gref, Mode::Read),
            pages,
            begins: 0,
            more: count - 1,
            count,
            stage: Stage::Directory,
        })
    }

    // The directory page that is held.
    fn directory(&self) -> Option<Hold>
        ensures { result ≡ directory_in self.now.stage }
    {
        match self.stage {
            Stage::Reference(directory)
            | Stage::Page(directory)
            | Stage::Next(directory)
            | Stage::Further(directory, _)
            | Stage::Leave(directory) => Some(directory),
            Stage::Directory | Stage::Undo(..) | Stage::Over => None,
        }
    }

    // How many pages were unmapped again.
    fn undone(&self) -> usize
        ensures { result ≡ undone self.now.stage }
    {
        match self.stage {
            Stage::Undo(i, _) => i,
            _ => 0,
        }
    }

    /// How many pages the walk holds, the directory page among them, at most 8193.
    pub fn held(&self) -> u32
        ensures count { result ≡ length (held_by self.now) }
        ensures few { result ≤ 8193 }
    {
        let pages = self.pages.len() - self.undone();
        match self.directory() {
            Some(_) => (pages + 1) as u32,
            None => pages as u32,
        }
    }

    /// A page that it holds, by its number in the order of mapping, from 0.
    pub fn hold_at(&self, i: u32) -> Hold
        requires { i < length (held_by self.now) }
        ensures { slice_get (held_by self.now) i ≡ Some result }
    {
        let i = i as usize;
        match self.directory() {
            None => self.pages[self.undone() + i],
            Some(directory) => {
                if i < self.begins {
                    self.pages[i]
                } else if i == self.begins {
                    directory
                } else {
                    self.pages[i - 1]
                }
            }
        }
    }

    // The next access of an undone walk: the page of this number is unmapped.
    fn undo<W: Words>(&mut self, words: &mut W, i: usize, refusal: GrantRefusal) -> Turn<Walked>
        requires within { i < vec_len self.old.pages }
        requires may { MayGo (W.may words.old) (undo_plan (drop i self.old.pages.items) refusal) }
        ensures steps { UndoesFrom i refusal self.old result self.new }
        ensures count { self.new.count ≡ self.old.count }
        ensures begun { result.done ≡ None → is_begun self.new.map self.new.pages.items self.new.stage ≡ true }
        ensures number { (n : ℕ) → Counts n result.done result.access }
        ensures made { Makes W.makes words.old result.access words.new }
    {
        let hold = self.pages[i];
        let access = unmap(&hold, words);
        if i + 1 < self.pages.len() {
            self.stage = Stage::Undo(i + 1, refusal);
            return Turn {
                access: Some(access),
                done: None,
            };
        }
        self.pages.clear();
        self.begins = 0;
        self.stage = Stage::Over;
        Turn {
            access: Some(access),
            done: Some(Walked::Refused(refusal)),
        }
    }

    // The walk is refused after this access, if there was one: all pages are to be unmapped.
    fn refuse<W: Words>(
        &mut self,
        words: &mut W,
        access: Option<Access>,
        refusal: GrantRefusal,
    ) -> Turn<Walked>
        requires may { access ≡ None → MayGo (W.may words.old) (undo_plan self.old.pages.items refusal) }
        ensures steps { UndoesAfter access refusal self.old result self.new }
        ensures count { self.new.count ≡ self.old.count }
        ensures begun { result.done ≡ None → is_begun self.new.map self.new.pages.items self.new.stage ≡ true }
        ensures number { (n : ℕ) → Counts n result.done result.access }
        ensures first { is_some access ≡ true → result.access ≡ access }
        ensures made { is_some access ≡ true → words.new ≡ words.old }
        ensures makes { access ≡ None → Makes W.makes words.old result.access words.new }
    {
        if self.pages.is_empty() {
            self.stage = Stage::Over;
            return Turn {
                access,
                done: Some(Walked::Refused(refusal)),
            };
        }
        if access.is_none() {
            return self.undo(words, 0, refusal);
        }
        self.stage = Stage::Undo(0, refusal);
        Turn { access, done: None }
    }

    // The directory page is to be unmapped with the others.
    fn keep(&mut self, directory: Hold)
        requires { vec_len self.old.pages < vec_capacity self.old.pages }
        ensures pages { self.new.pages.items ≡ insert self.old.pages.items self.old.begins directory }
        ensures count { self.new.count ≡ self.old.count }
        ensures dom { walked_dom self.new ≡ walked_dom self.old }
    {
        self.stage = Stage::Over;
        let at = self.begins;
        match self.pages.insert(at, directory) {
            Ok(()) => {}
            Err(_) => unreachable!(),
        }
    }

    // The next access of the map of a directory page.
    fn directory_step<W: Words>(&mut self, words: &mut W) -> Turn<Walked>
        requires mapping { self.old.stage ≡ stage.Directory }
        requires may { MayGo (W.may words.old) (walk_left_by (W.frames_of words.old) (W.grants_of words.old) self.old) }
        ensures steps { StepsBy (W.frames_of words.old) (W.grants_of words.old) self.old result self.new }
        ensures count { self.new.count ≡ self.old.count }
        ensures begun { result.done ≡ None → is_begun self.new.map self.new.pages.items self.new.stage ≡ true }
        ensures number { Counts self.old.count result.done result.access }
        ensures made { Makes W.makes words.old result.access words.new }
    {
        let turn = self.map.step(words);
        let access = turn.access;
        let Some(end) = turn.done else {
            return Turn { access, done: None };
        };
        self.stage = Stage::Over;
        match end {
            Ok(directory) => {
                self.begins = self.pages.len();
                self.stage = Stage::Reference(directory);
                Turn { access, done: None }
            }
            Err(refusal) => self.refuse(words, access, refusal),
        }
    }

    // The load of a reference that this directory page lists.
    fn reference_step<W: Words>(&mut self, words: &mut W, directory: Hold) -> Turn<Walked>
        requires reading { self.old.stage ≡ stage.Reference directory }
        requires may { MayGo (W.may words.old) (walk_left_by (W.frames_of words.old) (W.grants_of words.old) self.old) }
        ensures steps { StepsWherever self.old result self.new }
        ensures count { self.new.count ≡ self.old.count }
        ensures begun { result.done ≡ None → is_begun self.new.map self.new.pages.items self.new.stage ≡ true }
        ensures number { Counts self.old.count result.done result.access }
        ensures made { Makes W.makes words.old result.access words.new }
    {
        let word = (self.pages.len() - self.begins + 1) as u16;
        let at = Place::Cell(directory.dom, directory.frame, word);
        let gref = words.load(at);
        self.map = MapStep::new(self.dom, GrantRef(gref), self.mode);
        self.stage = Stage::Page(directory);
        Turn {
            access: Some(Access::Load(at, gref)),
            done: None,
        }
    }

    // The page is one of those that this directory page lists. The walk goes on.
    fn push(&mut self, directory: Hold, page: Hold)
        requires room { vec_len self.old.pages + self.old.more < vec_capacity self.old.pages }
        requires counted { vec_len self.old.pages + self.old.more + 1 ≡ self.old.count }
        ensures count { self.new.count ≡ self.old.count }
        ensures begun { is_begun self.new.map self.new.pages.items self.new.stage ≡ true }
        ensures left { GoesOnWith directory page self.old self.new }
        ensures dom { walked_dom self.new ≡ walked_dom self.old }
        ensures over { is_walked self.new ≡ false }
        ensures held { held_by self.new ≡ insert (self.old.pages.items ++ page ∷ []) self.old.begins directory }
    {
        self.pages.push_reserved(page);
        if self.more == 0 {
            self.stage = Stage::Leave(directory);
            return;
        }
        self.more -= 1;
        if self.pages.len() - self.begins < PER_PAGE {
            self.stage = Stage::Reference(directory);
            return;
        }
        self.stage = Stage::Next(directory);
    }

    // The next access of the map of a page that this directory page lists.
    fn page_step<W: Words>(&mut self, words: &mut W, directory: Hold) -> Turn<Walked>
        requires mapping { self.old.stage ≡ stage.Page directory }
        requires may { MayGo (W.may words.old) (walk_left_by (W.frames_of words.old) (W.grants_of words.old) self.old) }
        ensures steps { StepsBy (W.frames_of words.old) (W.grants_of words.old) self.old result self.new }
        ensures count { self.new.count ≡ self.old.count }
        ensures begun { result.done ≡ None → is_begun self.new.map self.new.pages.items self.new.stage ≡ true }
        ensures number { Counts self.old.count result.done result.access }
        ensures made { Makes W.makes words.old result.access words.new }
    {
        let turn = self.map.step(words);
        let access = turn.access;
        let Some(end) = turn.done else {
            return Turn { access, done: None };
        };
        self.stage = Stage::Over;
        match end {
            Ok(page) => {
                self.push(directory, page);
                Turn { access, done: None }
            }
            Err(refusal) => {
                self.keep(directory);
                self.refuse(words, access, refusal)
            }
        }
    }

    // The load of the reference of the next directory page.
    fn next_step<W: Words>(&mut self, words: &mut W, directory: Hold) -> Turn<Walked>
        requires turning { self.old.stage ≡ stage.Next directory }
        requires may { MayGo (W.may words.old) (walk_left_by (W.frames_of words.old) (W.grants_of words.old) self.old) }
        ensures steps { StepsWherever self.old result self.new }
        ensures count { self.new.count ≡ self.old.count }
        ensures begun { result.done ≡ None → is_begun self.new.map self.new.pages.items self.new.stage ≡ true }
        ensures number { Counts self.old.count result.done result.access }
        ensures made { Makes W.makes words.old result.access words.new }
    {
        let at = Place::Cell(directory.dom, directory.frame, 0);
        let gref = words.load(at);
        let access = Some(Access::Load(at, gref));
        if gref == 0 {
            self.keep(directory);
            return self.refuse(words, access, GrantRefusal::NoNext);
        }
        self.stage = Stage::Further(directory, GrantRef(gref));
        Turn { access, done: None }
    }

    // The walk leaves this directory page for the next.
    fn further_step<W: Words>(
        &mut self,
        words: &mut W,
        directory: Hold,
        gref: GrantRef,
    ) -> Turn<Walked>
        requires turning { self.old.stage ≡ stage.Further directory gref }
        requires may { MayGo (W.may words.old) (walk_left_by (W.frames_of words.old) (W.grants_of words.old) self.old) }
        ensures steps { StepsWherever self.old result self.new }
        ensures count { self.new.count ≡ self.old.count }
        ensures begun { result.done ≡ None → is_begun self.new.map self.new.pages.items self.new.stage ≡ true }
        ensures number { Counts self.old.count result.done result.access }
        ensures made { Makes W.makes words.old result.access words.new }
    {
        let access = unmap(&directory, words);
        self.map = MapStep::new(self.dom, gref, Mode::Read);
        self.stage = Stage::Directory;
        Turn {
            access: Some(access),
            done: None,
        }
    }

    // The walk is done: its pages are all there.
    fn finish(&mut self) -> Pages
        ensures pages { result ≡ self.old.pages.items }
        ensures count { self.new.count ≡ self.old.count }
        ensures dom { walked_dom self.new ≡ walked_dom self.old }
        ensures over { is_walked self.new ≡ true }
        ensures empty { held_by self.new ≡ [] }
    {
        self.stage = Stage::Over;
        self.begins = 0;
        let alloc = *self.pages.allocator();
        Pages::new(mem::replace(&mut self.pages, Vec::new(alloc)))
    }

    // The walk leaves the last directory page.
    fn leave_step<W: Words>(&mut self, words: &mut W, directory: Hold) -> Turn<Walked>
        requires leaving { self.old.stage ≡ stage.Leave directory }
        requires may { MayGo (W.may words.old) (walk_left_by (W.frames_of words.old) (W.grants_of words.old) self.old) }
        ensures steps { StepsWherever self.old result self.new }
        ensures count { self.new.count ≡ self.old.count }
        ensures begun { result.done ≡ None → is_begun self.new.map self.new.pages.items self.new.stage ≡ true }
        ensures number { Counts self.old.count result.done result.access }
        ensures made { Makes W.makes words.old result.access words.new }
    {
        let access = unmap(&directory, words);
        Turn {
            access: Some(access),
            done: Some(Walked::Pages(self.finish())),
        }
    }

    // The step at the stage at which the walk is.
    fn advance<W: Words>(&mut self, words: &mut W) -> Turn<Walked>
        requires { MayGo (W.may words.old) (walk_left_by (W.frames_of words.old) (W.grants_of words.old) self.old) }
        ensures steps { StepsBy (W.frames_of words.old) (W.grants_of words.old) self.old result self.new }
        ensures count { self.new.count ≡ self.old.count }
        ensures begun { result.done ≡ None → is_begun self.new.map self.new.pages.items self.new.stage ≡ true }
        ensures number { Counts self.old.count result.done result.access }
        ensures made { Makes W.makes words.old result.access words.new }
    {
        match self.stage {
            Stage::Directory => self.directory_step(words),
            Stage::Reference(directory) => self.reference_step(words, directory),
            Stage::Page(directory) => self.page_step(words, directory),
            Stage::Next(directory) => self.next_step(words, directory),
            Stage::Further(directory, gref) => self.further_step(words, directory, gref),
            Stage::Leave(directory) => self.leave_step(words, directory),
            Stage::Undo(i, refusal) => self.undo(words, i, refusal),
            Stage::Over => Turn {
                access: None,
                done: Some(Walked::Pages(self.finish())),
            },
        }
    }

    /// Makes the next access of the walk. Each directory page is mapped for reading; its references are loaded in order,
    /// each page mapped before the next reference is loaded; where a further directory page is needed, its reference is
    /// loaded from word 0, which has to be another than 0; then the directory page is unmapped. Done is the list of the
    /// pages, as many as the walk was made for, or why it was refused: the first map that was refused, or NoNext where the
    /// reference of a needed directory page is 0. Before a refusal is told each page that the walk holds is unmapped, in
    /// the order of mapping. A walk that is done holds no page itself, and answers none, without an access. One that isn't
    /// done after a step makes a further access, whatever the domain has then.
    pub fn step<W: Words>(&mut self, words: &mut W) -> Turn<Walked>
        requires { MayGo (W.may words.old) (walk_left_by (W.frames_of words.old) (W.grants_of words.old) self.old) }
        ensures turns { TurnsBy (W.frames_of words.old) (W.grants_of words.old) self.old result self.new }
        ensures made { Makes W.makes words.old result.access words.new }
        ensures dom { walked_dom self.new ≡ walked_dom self.old }
        ensures count { count_of self.new ≡ count_of self.old }
        ensures number { Counts (count_of self.old) result.done result.access }
        ensures over { is_walked self.new ≡ is_some result.done }
        ensures goes_on { result.done ≡ None → (frames grants : ℕ) → IsUnfinished (walk_left frames grants self.new) }
        ensures holds { ChangesHeldBy (W.frames_of words.old) (W.grants_of words.old) self.old result self.new }
        ensures rests { OnSome result.done (held_by self.new ≡ []) }
        ensures pages { is_walked self.old ≡ false → PagesByAccess result.access result.done }
        ensures lies { IfSome result.access (λ a. LiesIn (held_by self.old) a) }
    {
        self.advance(words)
    }
}
