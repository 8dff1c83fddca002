// The steps of a client by the store of its file, and by the queue of those who write to it.
ghost use Rattle.std.specs.Prelude.{◌≡◌, ◌++◌, ◌∷◌, [], IsTrue, IfSome, IfNone, MatchOption};
ghost use Rattle.pfc_log.specs.Charges.{GrowsCalmly};
ghost use Rattle.pfc_log.specs.declared.entry.Entry.TheVariants.{Direct};
ghost use Rattle.pfc_log.specs.declared.entry.Way.TheVariants.{Device};
ghost use Rattle.pfc_core.specs.Loans.{IsRead};
ghost use Rattle.pfc_actor.specs.Seen.{seen};
ghost use Rattle.pfc_actor.specs.Stages.{AtWork, Here};
ghost use Rattle.pfc_actor.specs.Steps.{IsCaused, Knows, Own, Puts, Step};
ghost use Rattle.pfc_actor.specs.Clients.{leaving_of};

use super::{Client, spend};
use crate::book::Book;
use crate::loading::{end_part, leave, read};
use crate::reading::put;
use crate::stage::Stage;
use pfc_core::{FileCore, Line, Loan};
use pfc_store::ReadRefusal;
use pfc_world::{DataDev, InfoDev, Origin, World};
use pfc_writer::WriteQueue;
use std::mem;

/// The stage of a client to which the store that it wants was lent.
fn borrowed<W: World, O: Origin<W>>(book: &Book<W>, line: &Line<W, O>, stage: Stage<W>) -> Stage<W>
    requires work { AtWork book.now (seen stage) }
    requires caused { IsCaused book.now line.now (seen stage) }
    ensures work { AtWork book.now (seen result) }
    ensures caused { IsCaused book.now line.now (seen result) }
    ensures own { Own book.now line.now (seen stage) book.now line.now (seen result) }
{
    match stage {
        Stage::Loading(op, disk, part) => Stage::Borrowing(op, disk, part),
        other => other,
    }
}

/// The stage of a client for which there is no store.
fn unlent<W: World, O: Origin<W>>(book: &Book<W>, line: &Line<W, O>, stage: Stage<W>) -> Stage<W>
    requires work { AtWork book.now (seen stage) }
    requires caused { IsCaused book.now line.now (seen stage) }
    ensures work { AtWork book.now (seen result) }
    ensures caused { IsCaused book.now line.now (seen result) }
    ensures own { Own book.now line.now (seen stage) book.now line.now (seen result) }
{
    match stage {
        Stage::Loading(op, disk, part) => Stage::Broken(op, disk, part),
        other => other,
    }
}

/// The stage of a client that read by the loan, and what came of that.
fn read_by<W: World, O: Origin<W>, D: DataDev<W>, I: InfoDev<W>>(
    book: &Book<W>,
    line: &Line<W, O>,
    stage: Stage<W>,
    loan: &mut Loan<W, D, I>,
) -> (Stage<W>, Option<Result<(), ReadRefusal>>)
    requires told { IsTrue W.told → IsTrue D.told }
    requires work { AtWork book.now (seen stage) }
    requires caused { IsCaused book.now line.now (seen stage) }
    ensures work { AtWork book.now (seen result.0) }
    ensures caused { IsCaused book.now line.now (seen result.0) }
    ensures own { Own book.now line.now (seen stage) book.now line.now (seen result.0) }
    ensures loan { MatchOption result.1 (loan.new ≡ loan.old) (λ answer. IsRead W.told W.files D.told I.told D.faults D.seen I.seen loan.old answer loan.new) }
{
    match stage {
        Stage::Borrowing(op, disk, part) => read(book, line, op, disk, part, loan),
        other => (other, None),
    }
}

/// The stage of a client that gave the store back.
fn returned<W: World, O: Origin<W>>(
    book: &Book<W>,
    line: &Line<W, O>,
    core: &mut FileCore<W>,
    stage: Stage<W>,
) -> Stage<W>
    requires work { AtWork book.now (seen stage) }
    requires knows { Knows book.now (seen stage) core.old }
    requires here { Here book.now (seen stage) core.old }
    requires caused { IsCaused book.now line.now (seen stage) }
    ensures work { AtWork book.now (seen result) }
    ensures caused { IsCaused book.now line.now (seen result) }
    ensures step { Step book.now line.now (seen stage) core.old book.now line.now (seen result) core.new }
    ensures calm { GrowsCalmly core.old.entries core.new.entries }
{
    match stage {
        Stage::Loaded(op, disk) => end_part(book, line, core, op, disk),
        Stage::Refused(op, disk, part) => Stage::Broken(op, disk, part),
        other => other,
    }
}

/// The stage of a client that left a part for the origin.
fn left<W: World, O: Origin<W>>(
    book: &Book<W>,
    line: &Line<W, O>,
    core: &mut FileCore<W>,
    stage: Stage<W>,
) -> Stage<W>
    requires work { AtWork book.now (seen stage) }
    requires knows { Knows book.now (seen stage) core.old }
    requires here { Here book.now (seen stage) core.old }
    requires caused { IsCaused book.now line.now (seen stage) }
    ensures work { AtWork book.now (seen result) }
    ensures caused { IsCaused book.now line.now (seen result) }
    ensures step { Step book.now line.now (seen stage) core.old book.now line.now (seen result) core.new }
    ensures enters { IfSome (leaving_of (seen stage)) (λ i. core.new.entries ≡ core.old.entries ++ Direct i book.now.number Device ∷ []) }
    ensures none { IfNone (leaving_of (seen stage)) (core.new ≡ core.old) }
{
    match stage {
        Stage::Broken(op, disk, part) => leave(book, line, core, op, disk, part),
        other => other,
    }
}

/// The stage of a client that puts a landed block to the queue.
fn put_by<W: World, O: Origin<W>>(
    book: &Book<W>,
    line: &Line<W, O>,
    stage: Stage<W>,
    queue: &mut WriteQueue<W>,
) -> Stage<W>
    requires work { AtWork book.now (seen stage) }
    requires caused { IsCaused book.now line.now (seen stage) }
    ensures work { AtWork book.now (seen result) }
    ensures caused { IsCaused book.now line.now (seen result) }
    ensures puts { Puts book.now line.now (seen stage) queue.old book.now line.now (seen result) queue.new }
{
    match stage {
        Stage::Landed(op, job) => put(book, line, op, job, queue),
        other => other,
    }
}

impl<W: World, O: Origin<W>> Client<W, O> {
    /// The store that it wants was lent.
    pub fn borrow(&mut self)
        ensures { Own self.old.book self.old.line self.old.stage self.new.book self.new.line self.new.stage }
    {
        let stage = mem::replace(&mut self.stage, Stage::Rest);
        let next = borrowed(&self.book, &self.line, stage);
        spend(mem::replace(&mut self.stage, next));
    }

    /// There is no store for what it wants: the part is to be left for the origin.
    pub fn refuse(&mut self)
        ensures { Own self.old.book self.old.line self.old.stage self.new.book self.new.line self.new.stage }
    {
        let stage = mem::replace(&mut self.stage, Stage::Rest);
        let next = unlent(&self.book, &self.line, stage);
        spend(mem::replace(&mut self.stage, next));
    }

    /// Reads its part by the loan of the store. Nothing comes of it where nothing was lent to it, or the store of another file.
    pub fn read<D: DataDev<W>, I: InfoDev<W>>(
        &mut self,
        loan: &mut Loan<W, D, I>,
    ) -> Option<Result<(), ReadRefusal>>
        requires { IsTrue W.told → IsTrue D.told }
        ensures own { Own self.old.book self.old.line self.old.stage self.new.book self.new.line self.new.stage }
        ensures loan { MatchOption result (loan.new ≡ loan.old) (λ answer. IsRead W.told W.files D.told I.told D.faults D.seen I.seen loan.old answer loan.new) }
    {
        let stage = mem::replace(&mut self.stage, Stage::Rest);
        let (next, answer) = read_by(&self.book, &self.line, stage, loan);
        spend(mem::replace(&mut self.stage, next));
        answer
    }

    /// The store was given back: its part is in the reply, or is to be left for the origin.
    pub fn returned(&mut self, core: &mut FileCore<W>)
        requires knows { Knows self.old.book self.old.stage core.old }
        requires here { Here self.old.book self.old.stage core.old }
        ensures step { Step self.old.book self.old.line self.old.stage core.old self.new.book self.new.line self.new.stage core.new }
        ensures calm { GrowsCalmly core.old.entries core.new.entries }
    {
        let stage = mem::replace(&mut self.stage, Stage::Rest);
        let next = returned(&self.book, &self.line, core, stage);
        spend(mem::replace(&mut self.stage, next));
    }

    /// The block of the part that it is to leave for the origin.
    pub fn leaving(&self) -> Option<u32>
        ensures { result ≡ leaving_of self.now.stage }
    {
        match &self.stage {
            Stage::Broken(_, disk, _) => Some(disk.block()),
            _ => None,
        }
    }

    /// Leaves its part for the origin.
    pub fn leave_at(&mut self, core: &mut FileCore<W>)
        requires knows { Knows self.old.book self.old.stage core.old }
        requires here { Here self.old.book self.old.stage core.old }
        ensures step { Step self.old.book self.old.line self.old.stage core.old self.new.book self.new.line self.new.stage core.new }
        ensures enters { IfSome (leaving_of self.old.stage) (λ i. core.new.entries ≡ core.old.entries ++ Direct i self.old.book.number Device ∷ []) }
        ensures none { IfNone (leaving_of self.old.stage) (core.new ≡ core.old) }
    {
        let stage = mem::replace(&mut self.stage, Stage::Rest);
        let next = left(&self.book, &self.line, core, stage);
        spend(mem::replace(&mut self.stage, next));
    }

    /// Puts its landed block to the queue, or finds no room there.
    pub fn put(&mut self, queue: &mut WriteQueue<W>)
        ensures { Puts self.old.book self.old.line self.old.stage queue.old self.new.book self.new.line self.new.stage queue.new }
    {
        let stage = mem::replace(&mut self.stage, Stage::Rest);
        let next = put_by(&self.book, &self.line, stage, queue);
        spend(mem::replace(&mut self.stage, next));
    }

    /// Whether the store of its file is lent to it.
    pub fn is_lent(&self) -> bool {
        matches!(
            &self.stage,
            Stage::Borrowing(_, _, _) | Stage::Loaded(_, _) | Stage::Refused(_, _, _)
        )
    }
}
