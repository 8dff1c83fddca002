// A client and its request at work.
ghost use Rattle.std.specs.Prelude.{Any, ◌≡◌, ◌<◌, ◌≤◌, ◌+◌, ◌++◌, ◌∷◌, [], ℕ, List, length, replicate, true, false, IsTrue, Option, Some, None, IfOk, IfSome, IfNone, IsSome, OnOk, OnErr};
ghost use Rattle.pfc_client.specs.Session.{place_at};
ghost use Rattle.pfc_log.specs.Charges.{GrowsCalmly};
ghost use Rattle.pfc_core.specs.Marks.{Mark};
ghost use Rattle.pfc_core.specs.View.{CoreView};
ghost use Rattle.pfc_report.specs.Restart.{OpensPath};
ghost use Rattle.pfc_actor.specs.declared.client.Place.TheVariants as place;
ghost use Rattle.pfc_actor.specs.Seen.{seen};
ghost use Rattle.pfc_actor.specs.Stages.{AtWork, Here};
ghost use Rattle.pfc_actor.specs.Steps.{IsCaused, Knows, Own, Step};
ghost use Rattle.pfc_actor.specs.Clients.{ClientView, IsFresh, IsPlace, IsDone, OpensAt, OpensAtMoment, Moves, Wants};

mod disk;

use crate::book::Book;
use crate::opening::{close, open, shut, without};
use crate::reading::{act, drop_full, plan};
use crate::stage::{Stage, Wanted};
use crate::taking::take;
use pfc_base::{Memory, Path};
use pfc_client::Reply;
use pfc_core::{FileCore, Line, OnDisk};
use pfc_read::ReadOp;
use pfc_world::{Clock, Origin, World};
use std::alloc::Global;
use std::marker::Model;
use std::mem;

/// One client: what it asks and is told, its line to the origin, how far it has come with its request, and the moment at which
/// its open opened the store, in seconds. It must be ended by `end`.
pub struct Client<W: World, O: Origin<W>> {
    book: Book<W>,
    line: Line<W, O>,
    stage: Stage<W>,
    moment: Option<u64>,
}

impl<W: World, O: Origin<W>> Model for Client<W, O> {
    ghost use Rattle.pfc_actor.specs.Clients.{ClientView, IsClient};
    ghost use Rattle.pfc_actor.specs.Seen.{seen};

    ghost Value = { ClientView };

    ghost view = { λ c. record { book = c.book; line = c.line; stage = seen c.stage; moment = c.moment } };

    ghost invariant = { λ c. IsClient c.book c.line (seen c.stage) };
}

/// Where a client steps next.
#[derive(Clone, Copy, Debug, PartialEq, Eq)]
pub enum Place {
    /// On no core.
    Alone,
    /// It wants a file opened.
    Wants,
    /// It enters a core of its file.
    Enters,
    /// It puts a landed block to the queue.
    Puts,
    /// On the core of this number.
    Core(u64),
    /// It wants the store of the file of this core lent.
    Lends(u64),
    /// It reads by the loan of the store.
    Reads(u64),
    /// It gives the store back.
    Returns(u64),
    /// It leaves a part that couldn't be read from disk.
    Leaves(u64),
}

/// The core of the file that is open at a descriptor.
fn place_of<W: World>(book: &Book<W>, number: u64) -> Place
    requires { IsSome (place_at book.now.stays number) }
    ensures { (m : Mark) → place_at book.now.stays number ≡ Some m → result ≡ place.Core m.instance }
{
    match book.instance_at(number) {
        None => Place::Alone,
        Some(instance) => Place::Core(instance),
    }
}

/// Spends a read that is at a part on disk.
fn spend_disk<W: World>(op: ReadOp<W>, disk: OnDisk<W>) {
    disk.discard();
    op.discard();
}

/// Spends a stage that no core takes.
fn spend<W: World>(stage: Stage<W>) {
    match stage {
        Stage::Rest => (),
        Stage::Wanted(_) => (),
        Stage::Making(_, _) => (),
        Stage::Joining(_) => (),
        Stage::Planning(_, _) => (),
        Stage::Closing(_) => (),
        Stage::Closed => (),
        Stage::Reading(op) => op.discard(),
        Stage::Landed(op, _) => op.discard(),
        Stage::Full(op, _, _) => op.discard(),
        Stage::Loading(op, disk, _) => spend_disk(op, disk),
        Stage::Borrowing(op, disk, _) => spend_disk(op, disk),
        Stage::Loaded(op, disk) => spend_disk(op, disk),
        Stage::Refused(op, disk, _) => spend_disk(op, disk),
        Stage::Broken(op, disk, _) => spend_disk(op, disk),
    }
}

/// The next stage, by a step on no core.
fn next_alone<W: World, O: Origin<W>>(
    alloc: Global,
    book: &mut Book<W>,
    line: &mut Line<W, O>,
    stage: Stage<W>,
) -> Stage<W>
    requires work { AtWork book.old (seen stage) }
    requires caused { IsCaused book.old line.old (seen stage) }
    ensures work { AtWork book.new (seen result) }
    ensures caused { IsCaused book.new line.new (seen result) }
    ensures step { Own book.old line.old (seen stage) book.new line.new (seen result) }
{
    match stage {
        Stage::Rest => take(alloc, book, line),
        Stage::Closed => Stage::Rest,
        other => other,
    }
}

/// The next stage, by a step on a core.
fn next_at<W: World, O: Origin<W>, K: Clock>(
    alloc: Global,
    clock: &mut K,
    book: &mut Book<W>,
    line: &mut Line<W, O>,
    core: &mut FileCore<W>,
    stage: Stage<W>,
    moment: Option<u64>,
) -> Stage<W>
    requires work { AtWork book.old (seen stage) }
    requires knows { Knows book.old (seen stage) core.old }
    requires here { Here book.old (seen stage) core.old }
    requires least { 4096 ≤ core.old.block_size }
    requires caused { IsCaused book.old line.old (seen stage) }
    ensures work { AtWork book.new (seen result) }
    ensures caused { IsCaused book.new line.new (seen result) }
    ensures step { Step book.old line.old (seen stage) core.old book.new line.new (seen result) core.new }
    ensures calm { GrowsCalmly core.old.entries core.new.entries }
    ensures moment { IfSome moment (λ now. OpensAtMoment now (seen stage) core.old core.new) }
{
    match stage {
        Stage::Making(wanted, _) => open(alloc, clock, book, line, core, wanted, moment),
        Stage::Joining(wanted) => open(alloc, clock, book, line, core, wanted, moment),
        Stage::Planning(number, pieces) => plan(alloc, book, line, core, number, pieces),
        Stage::Closing(number) => close(alloc, clock, book, line, core, number),
        Stage::Reading(op) => act(alloc, book, line, core, op),
        Stage::Full(op, job, capacity) => drop_full(book, line, core, op, job, capacity),
        other => other,
    }
}

/// The stage of a client that enters a core of the file that it wants: one that was made for it, or one that was there.
fn entered<W: World, O: Origin<W>>(
    book: &Book<W>,
    line: &Line<W, O>,
    stage: Stage<W>,
    made: Option<u64>,
) -> Stage<W>
    requires work { AtWork book.now (seen stage) }
    requires caused { IsCaused book.now line.now (seen stage) }
    ensures work { AtWork book.now (seen result) }
    ensures caused { IsCaused book.now line.now (seen result) }
    ensures step { Own book.now line.now (seen stage) book.now line.now (seen result) }
{
    match stage {
        Stage::Wanted(wanted) => match made {
            Some(core) => Stage::Making(wanted, core),
            None => Stage::Joining(wanted),
        },
        other => other,
    }
}

/// Answers an open for whose core there is no memory.
fn without_core<W: World, O: Origin<W>>(
    book: &mut Book<W>,
    line: &Line<W, O>,
    stage: Stage<W>,
) -> Stage<W>
    requires work { AtWork book.old (seen stage) }
    requires caused { IsCaused book.old line.now (seen stage) }
    ensures work { AtWork book.new (seen result) }
    ensures caused { IsCaused book.new line.now (seen result) }
    ensures step { Own book.old line.now (seen stage) book.new line.now (seen result) }
{
    match stage {
        Stage::Wanted(wanted) => without(book, line, wanted),
        Stage::Making(wanted, _) => without(book, line, wanted),
        Stage::Joining(wanted) => without(book, line, wanted),
        other => other,
    }
}

impl<W: World, O: Origin<W>> Client<W, O> {
    /// A client that was asked nothing yet, with its link.
    pub fn new(book: Book<W>, link: O) -> Client<W, O>
        requires fresh { book ≡ record { number = book.number; asked = []; replies = []; stays = replicate 16 None; shut = false } }
        requires number { O.number link ≡ book.number }
        requires unused { (O.calls link ≡ 0) × (O.faults link ≡ 0) }
        ensures { IsFresh book.number result }
    {
        Client {
            book,
            line: Line::new(link),
            stage: Stage::Rest,
            moment: None,
        }
    }

    /// The client's number.
    pub fn number(&self) -> u32
        ensures { result ≡ self.now.book.number }
    {
        self.book.number()
    }

    /// The client is asked one more line. One whose files were closed without its asking takes none, and answers `Memory`.
    pub fn ask(&mut self, alloc: Global, line: &[u8]) -> Result<(), Memory>
        ensures ok { OnOk result (self.new.book ≡ record self.old.book { asked = self.old.book.asked ++ line.now ∷ [] }) }
        ensures rest { self.new ≡ record self.old { book = self.new.book } }
        ensures moves { Moves self.old self.new }
        ensures memory { OnErr result (self.new ≡ self.old) }
    {
        self.book.keeps();
        if self.book.is_shut() {
            return Err(Memory);
        }
        self.book.ask(alloc, line)?;
        Ok(())
    }

    /// Where it steps next.
    pub fn place(&self) -> Place
        ensures { IsPlace self.now.book self.now.stage result }
    {
        match &self.stage {
            Stage::Rest => Place::Alone,
            Stage::Wanted(_) => Place::Wants,
            Stage::Making(_, _) => Place::Enters,
            Stage::Joining(_) => Place::Enters,
            Stage::Planning(number, _) => place_of(&self.book, *number),
            Stage::Closing(number) => place_of(&self.book, *number),
            Stage::Closed => Place::Alone,
            Stage::Reading(op) => Place::Core(op.instance()),
            Stage::Landed(_, _) => Place::Puts,
            Stage::Full(op, _, _) => Place::Core(op.instance()),
            Stage::Loading(op, _, _) => Place::Lends(op.instance()),
            Stage::Borrowing(op, _, _) => Place::Reads(op.instance()),
            Stage::Loaded(op, _) => Place::Returns(op.instance()),
            Stage::Refused(op, _, _) => Place::Returns(op.instance()),
            Stage::Broken(op, _, _) => Place::Leaves(op.instance()),
        }
    }

    /// Whether it took up a request whose first step is on a core, or a part whose first step is on a store.
    pub fn is_taken(&self) -> bool {
        matches!(
            &self.stage,
            Stage::Planning(_, _) | Stage::Closing(_) | Stage::Loading(_, _, _)
        )
    }

    /// Whether a core of this path was made for it, which it hasn't entered yet.
    pub fn is_making(&self, path: &Path) -> bool {
        match &self.stage {
            Stage::Making(wanted, _) => wanted.path() == path,
            _ => false,
        }
    }

    /// Whether it has a core that was made for it to enter, or a flight to run.
    pub fn is_busy(&self) -> bool {
        match &self.stage {
            Stage::Making(_, _) => true,
            Stage::Reading(op) => op.has_ticket(),
            Stage::Landed(op, _) => op.has_ticket(),
            Stage::Full(op, _, _) => op.has_ticket(),
            _ => false,
        }
    }

    /// The file that it wants opened.
    pub fn wanted(&self) -> Option<&Wanted<W>>
        ensures wants { IfSome result (λ w. Wants w.now.path self.now.stage) }
        ensures asked { IfSome result (λ w. Any (OpensPath w.now.path) self.now.book.asked) }
    {
        match &self.stage {
            Stage::Wanted(wanted) => Some(wanted),
            _ => None,
        }
    }

    /// The file whose core it enters.
    pub fn entering(&self) -> Option<&Wanted<W>>
        ensures { IfSome result (λ w. (c : CoreView) → c.path ≡ w.now.path → Here self.now.book self.now.stage c) }
    {
        match &self.stage {
            Stage::Making(wanted, _) => Some(wanted),
            Stage::Joining(wanted) => Some(wanted),
            _ => None,
        }
    }

    /// The number of the core that was made for its open.
    pub fn made(&self) -> Option<u64> {
        match &self.stage {
            Stage::Making(_, core) => Some(*core),
            _ => None,
        }
    }

    /// It enters a core of the file that it wants: the one of this number, which was made for it, or one that was there.
    pub fn enter(&mut self, made: Option<u64>)
        ensures { Own self.old.book self.old.line self.old.stage self.new.book self.new.line self.new.stage }
    {
        let stage = mem::replace(&mut self.stage, Stage::Rest);
        let next = entered(&self.book, &self.line, stage, made);
        self.moment = None;
        spend(mem::replace(&mut self.stage, next));
    }

    /// It finds no memory for a core of the file that it wants, and answers so.
    pub fn give_up(&mut self)
        ensures { Own self.old.book self.old.line self.old.stage self.new.book self.new.line self.new.stage }
    {
        let stage = mem::replace(&mut self.stage, Stage::Rest);
        let next = without_core(&mut self.book, &self.line, stage);
        spend(mem::replace(&mut self.stage, next));
    }

    /// A step on no core.
    pub fn step_alone(&mut self, alloc: Global)
        ensures { Own self.old.book self.old.line self.old.stage self.new.book self.new.line self.new.stage }
    {
        let stage = mem::replace(&mut self.stage, Stage::Rest);
        let next = next_alone(alloc, &mut self.book, &mut self.line, stage);
        spend(mem::replace(&mut self.stage, next));
    }

    /// Its open opened the store at this moment, in seconds, so it opens the file at the same.
    pub fn note(&mut self, moment: u64)
        ensures noted { self.new ≡ record self.old { moment = Some moment } }
        ensures own { Own self.old.book self.old.line self.old.stage self.new.book self.new.line self.new.stage }
    {
        self.moment = Some(moment);
    }

    /// A step on a core. The clock is read where the file is closed, and where it is opened by an open that didn't open the store.
    pub fn step_at<K: Clock>(&mut self, alloc: Global, clock: &mut K, core: &mut FileCore<W>)
        requires knows { Knows self.old.book self.old.stage core.old }
        requires here { Here self.old.book self.old.stage core.old }
        requires least { 4096 ≤ core.old.block_size }
        ensures step { Step self.old.book self.old.line self.old.stage core.old self.new.book self.new.line self.new.stage core.new }
        ensures calm { GrowsCalmly core.old.entries core.new.entries }
        ensures moment { IfSome self.old.moment (λ now. OpensAtMoment now self.old.stage core.old core.new) }
    {
        let stage = mem::replace(&mut self.stage, Stage::Rest);
        let moment = mem::replace(&mut self.moment, None);
        let (book, line) = (&mut self.book, &mut self.line);
        let next = next_at(alloc, clock, book, line, core, stage, moment);
        spend(mem::replace(&mut self.stage, next));
    }

    /// Whether each request has its reply, and nothing is at work.
    pub fn is_done(&self) -> bool
        ensures { IsTrue result → IsDone W.told W.files self.now.book self.now.line self.now.stage }
    {
        match &self.stage {
            Stage::Rest => self.book.is_answered(),
            _ => false,
        }
    }

    /// Where the client is done, the number of the core of the lowest descriptor that is open.
    pub fn open_at(&self) -> Option<u64>
        ensures { IfSome result (λ i. OpensAt i self.now.book self.now.stage) }
    {
        if !self.is_done() {
            return None;
        }
        let Some(number) = self.book.first_open() else {
            return None;
        };
        self.book.instance_at(number)
    }

    /// Closes the lowest descriptor that is open, without a reply, where its file is of this core and the client is done.
    pub fn shut_at<K: Clock>(&mut self, alloc: Global, clock: &mut K, core: &mut FileCore<W>)
        requires knows { Knows self.old.book self.old.stage core.old }
        ensures step { Step self.old.book self.old.line self.old.stage core.old self.new.book self.new.line self.new.stage core.new }
        ensures calm { GrowsCalmly core.old.entries core.new.entries }
    {
        if self.is_done() {
            shut(alloc, clock, &mut self.book, &self.line, core);
        }
    }

    /// Hands over its number, its link and its replies.
    pub fn end(self) -> (u32, O, Vec<Reply>)
        ensures number { result.0 ≡ self.book.number }
        ensures replies { result.2.items ≡ self.book.replies }
        ensures mine { O.number result.1 ≡ self.book.number }
        ensures link { O.number result.1 ≡ self.line.number }
        ensures calls { O.calls result.1 ≡ self.line.calls }
        ensures faults { O.faults result.1 ≡ self.line.faults }
    {
        let Client {
            book,
            line,
            stage,
            moment: _,
        } = self;
        spend(stage);
        let number = book.number();
        (number, line.end(), book.end())
    }
}
