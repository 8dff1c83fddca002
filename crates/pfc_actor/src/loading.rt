// How a client reads a part that is on disk.
ghost use Rattle.std.specs.Prelude.{◌≡◌, ◌++◌, ◌∷◌, [], IsTrue, MatchOption};
ghost use Rattle.pfc_log.specs.Charges.{GrowsCalmly};
ghost use Rattle.pfc_log.specs.declared.entry.Entry.TheVariants.{Direct};
ghost use Rattle.pfc_log.specs.declared.entry.Way.TheVariants.{Device};
ghost use Rattle.pfc_core.specs.Loans.{IsRead};
ghost use Rattle.pfc_actor.specs.StageView as st;
ghost use Rattle.pfc_actor.specs.Seen.{seen};
ghost use Rattle.pfc_actor.specs.Stages.{AtWork};
ghost use Rattle.pfc_actor.specs.Steps.{IsCaused, Knows, Own, Step};

use crate::book::Book;
use crate::stage::Stage;
use pfc_base::Part;
use pfc_core::{FileCore, Line, Loan, OnDisk, Strayed};
use pfc_read::ReadOp;
use pfc_store::ReadRefusal;
use pfc_world::{DataDev, InfoDev, Origin, World};

/// Reads the part by a loan of the store. Nothing comes of a loan of another file.
pub(crate) fn read<W: World, O: Origin<W>, D: DataDev<W>, I: InfoDev<W>>(
    book: &Book<W>,
    line: &Line<W, O>,
    mut op: ReadOp<W>,
    disk: OnDisk<W>,
    part: Part,
    loan: &mut Loan<W, D, I>,
) -> (Stage<W>, Option<Result<(), ReadRefusal>>)
    requires told { IsTrue W.told → IsTrue D.told }
    requires work { AtWork book.now (st.Borrowing op disk part) }
    requires caused { IsCaused book.now line.now (st.Borrowing op disk part) }
    ensures work { AtWork book.now (seen result.0) }
    ensures caused { IsCaused book.now line.now (seen result.0) }
    ensures own { Own book.now line.now (st.Borrowing op disk part) book.now line.now (seen result.0) }
    ensures loan { MatchOption result.1 (loan.new ≡ loan.old) (λ answer. IsRead W.told W.files D.told I.told D.faults D.seen I.seen loan.old answer loan.new) }
{
    if !disk.known().same(loan.known()) {
        return (Stage::Borrowing(op, disk, part), None);
    }
    if disk.block_size() != loan.block_size() {
        return (Stage::Borrowing(op, disk, part), None);
    }
    match op.read(loan, part) {
        Ok(()) => (Stage::Loaded(op, disk), Some(Ok(()))),
        Err(refusal) => (Stage::Refused(op, disk, part), Some(Err(refusal))),
    }
}

/// Ends the right to read the block, whose part was read.
pub(crate) fn end_part<W: World, O: Origin<W>>(
    book: &Book<W>,
    line: &Line<W, O>,
    core: &mut FileCore<W>,
    op: ReadOp<W>,
    disk: OnDisk<W>,
) -> Stage<W>
    requires work { AtWork book.now (st.Loaded op disk) }
    requires knows { Knows book.now (st.Loaded op disk) core.old }
    requires here { op.reading.instance ≡ core.old.instance }
    requires caused { IsCaused book.now line.now (st.Loaded op disk) }
    ensures work { AtWork book.now (seen result) }
    ensures caused { IsCaused book.now line.now (seen result) }
    ensures step { Step book.now line.now (st.Loaded op disk) core.old book.now line.now (seen result) core.new }
    ensures calm { GrowsCalmly core.old.entries core.new.entries }
{
    match core.end_disk(disk) {
        Ok(()) => Stage::Reading(op),
        Err(Strayed { token, why: _ }) => {
            token.discard();
            Stage::Reading(op)
        }
    }
}

/// Leaves the part, which couldn't be read from disk, for the origin.
pub(crate) fn leave<W: World, O: Origin<W>>(
    book: &Book<W>,
    line: &Line<W, O>,
    core: &mut FileCore<W>,
    mut op: ReadOp<W>,
    disk: OnDisk<W>,
    part: Part,
) -> Stage<W>
    requires work { AtWork book.now (st.Broken op disk part) }
    requires knows { Knows book.now (st.Broken op disk part) core.old }
    requires here { op.reading.instance ≡ core.old.instance }
    requires caused { IsCaused book.now line.now (st.Broken op disk part) }
    ensures work { AtWork book.now (seen result) }
    ensures caused { IsCaused book.now line.now (seen result) }
    ensures step { Step book.now line.now (st.Broken op disk part) core.old book.now line.now (seen result) core.new }
    ensures enters { core.new.entries ≡ core.old.entries ++ Direct disk.block book.now.number Device ∷ [] }
{
    op.owe(core.leave_broken(disk, part));
    Stage::Reading(op)
}
