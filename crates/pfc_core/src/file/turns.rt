// The turns of a sync: what is to be synced and claimed, and the store that is lent for it.
ghost use Rattle.std.specs.Prelude.{◌≡◌, ◌+◌, ◌*◌, ◌≤◌, length, None, Some, true, IsTrue, IfOk, IfErr, OnOk, OnErr, MatchBool};
ghost use Rattle.pfc_log.specs.Lawful.{IsCached};
ghost use Rattle.pfc_core.specs.Lending.{IsOfFile, LendsFor, LendsTurn, NoTurn, aim_at, loans_out};
ghost use Rattle.pfc_core.specs.Loans.{aim_of};
ghost use Rattle.pfc_core.specs.Turns.{IsSettled, NeedsSync};

use super::loans::held_loan;
use super::{FileCore, owed, sum_of};
use crate::loan::{Did, Lent, Loan, Purpose, Turn, TurnRefusal};
use crate::shelf::Shelf;
use crate::token::tag_of;
use pfc_base::Memory;
use pfc_cinfo::Head;
use pfc_log::FileLog;
use pfc_store::FileStore;
use pfc_world::{DataDev, InfoDev, World};
use std::alloc::Global;

/// Takes the room for the entry of a turn, beside those that are owed.
fn make_turn_room<W: World>(
    log: &mut FileLog,
    tokens: usize,
    others: usize,
    shelf: &Shelf<W>,
) -> Result<(), Memory>
    ensures first { log.new.first ≡ log.old.first }
    ensures entries { log.new.entries ≡ log.old.entries }
    ensures kept { log.old.room ≤ log.new.room }
    ensures room { OnOk result (tokens + others + 4 * length shelf.now.slots + 2 ≤ log.new.room) }
{
    let Some(owed) = owed(tokens, others, shelf.len()) else {
        return Err(Memory);
    };
    log.reserve(owed + 1)
}

/// What a turn's loan is for, where the cinfo gets this head.
fn purpose_of(alloc: Global, turn: Turn, head: &Head) -> Result<Purpose, Memory>
    ensures { IfOk result (λ purpose. aim_of purpose ≡ aim_at turn head.now) }
{
    match turn {
        Turn::Data => Ok(Purpose::Sync),
        Turn::Info => Ok(Purpose::Put(head.copy(alloc)?)),
    }
}

impl<W: World> FileCore<W> {
    /// Lends the store that is at home for a turn of a sync: for one sync of the data, or for one put of a cinfo with a copy of
    /// the head that stands here. The room for the turn's entry is taken here. One loan is out at a time.
    pub fn lend_turn<D: DataDev<W>, I: InfoDev<W>>(
        &mut self,
        alloc: Global,
        home: &mut Option<FileStore<W, D, I>>,
        turn: Turn,
    ) -> Result<Loan<W, D, I>, TurnRefusal>
        ensures ok { IfOk result (λ loan. LendsTurn turn self.old home.old loan self.new) }
        ensures taken { OnOk result (home.new ≡ None) }
        ensures no { IfErr result (NoTurn self.old home.old) }
        ensures same { OnErr result ((self.new ≡ self.old) × (home.new ≡ home.old)) }
    {
        if self.uncached().is_some() {
            return Err(TurnRefusal::NoStore);
        }
        if self.sets.is_frozen() {
            return Err(TurnRefusal::Frozen);
        }
        if let Some(lent) = self.loan {
            return Err(TurnRefusal::Out {
                number: lent.number,
            });
        }
        if !self.is_home(home) {
            return Err(TurnRefusal::NoStore);
        }
        let Some(store) = home.take() else {
            return Err(TurnRefusal::NoStore);
        };
        match self.lend_for_turn(alloc, turn, store) {
            Ok(loan) => Ok(loan),
            Err(store) => {
                *home = Some(store);
                Err(TurnRefusal::Memory)
            }
        }
    }

    /// Lends this store for a turn, where no loan is out; it comes back where there is no memory.
    fn lend_for_turn<D: DataDev<W>, I: InfoDev<W>>(
        &mut self,
        alloc: Global,
        turn: Turn,
        store: FileStore<W, D, I>,
    ) -> Result<Loan<W, D, I>, FileStore<W, D, I>>
        requires cached { IsCached self.old.first }
        requires none { loans_out self.old.out ≡ 0 }
        requires file { IsOfFile self.old store }
        ensures ok { IfOk result (λ loan. LendsFor (aim_at turn self.old.access.head) true self.old (Some store) loan self.new) }
        ensures err { IfErr result (λ back. (back ≡ store) × (self.new ≡ self.old)) }
    {
        let Ok(purpose) = purpose_of(alloc, turn, self.access.head()) else {
            return Err(store);
        };
        let Ok(others) = sum_of(self.readings.len(), self.pins.len(), self.disks.len()) else {
            return Err(store);
        };
        let stays = self.stays.len();
        let Ok(()) = make_turn_room(&mut self.log, stays, others, &self.shelf) else {
            return Err(store);
        };
        let lent = Lent {
            number: self.lent,
            at: self.log.len(),
            turn: true,
        };
        self.lent = self.lent.saturating_add(1);
        self.loan = Some(lent);
        let tag = tag_of(self.instance, &self.shelf, held_loan(lent));
        Ok(Loan {
            tag,
            store,
            purpose,
            did: Did::Nothing,
        })
    }

    /// Whether the store works, and a block that can be read or a record of an access isn't claimed by the cinfo.
    pub fn needs_sync(&self) -> bool
        ensures { MatchBool result (NeedsSync self.now) (NeedsSync self.now → ⊥) }
    {
        if self.uncached().is_some() {
            return false;
        }
        if self.sets.is_frozen() {
            return false;
        }
        if !self.sets.are_claimed() {
            return true;
        }
        match self.claim {
            None => self.visited > 0,
            Some(at) => self.visited > at,
        }
    }

    /// Whether nothing is left to be claimed: the file isn't cached, its store is frozen, or the cinfo claims each block that
    /// can be read.
    pub fn settled(&self) -> bool
        ensures { MatchBool result (IsSettled self.now) (IsSettled self.now → ⊥) }
    {
        if self.uncached().is_some() {
            return true;
        }
        if self.sets.is_frozen() {
            return true;
        }
        self.sets.are_claimed()
    }
}
