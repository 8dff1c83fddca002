// Loans of the file's store, which is kept beside the core while none is out.
ghost use Rattle.std.specs.Prelude.{◌≡◌, ◌↔◌, ◌<◌, length, false, None, Some, IsTrue, IfOk, IfErr, OnOk, OnErr, MatchBool};
ghost use Rattle.pfc_base.specs.BlockSet.{is_member};
ghost use Rattle.pfc_log.specs.Lawful.{IsUnfrozen};
ghost use Rattle.pfc_log.specs.Views.{is_here, place};
ghost use Rattle.pfc_core.specs.Marks.{listed};
ghost use Rattle.pfc_core.specs.Out.{loan_of};
ghost use Rattle.pfc_core.specs.Lending.{Lends, NotLent, Gives, StraysLoan, IsHome, IsEnterable, EntersWrite};

use super::FileCore;
use crate::held::{Held, is_same};
use crate::loan::{Did, Lent, Loan, NoLoan, Purpose};
use crate::token::{Strayed, is_of, stranger, tag_of};
use pfc_log::Entry;
use pfc_store::FileStore;
use pfc_world::{DataDev, InfoDev, World};

/// What is kept of this loan.
pub(super) fn held_loan(lent: Lent) -> Held
    ensures { result ≡ loan_of lent }
{
    Held {
        number: lent.number,
        client: 0,
        block: 0,
        flight: lent.at,
        owner: if lent.turn { 1 } else { 0 },
    }
}

impl<W: World> FileCore<W> {
    /// Lends the store that is at home, for reads and one write. One loan is out at a time. It takes no memory.
    pub fn lend<D: DataDev<W>, I: InfoDev<W>>(
        &mut self,
        home: &mut Option<FileStore<W, D, I>>,
    ) -> Result<Loan<W, D, I>, NoLoan>
        ensures ok { IfOk result (λ loan. Lends self.old home.old loan self.new) }
        ensures taken { OnOk result (home.new ≡ None) }
        ensures no { IfErr result (NotLent self.old home.old) }
        ensures same { OnErr result ((self.new ≡ self.old) × (home.new ≡ home.old)) }
    {
        if self.uncached().is_some() {
            return Err(NoLoan::NoStore);
        }
        if let Some(lent) = self.loan {
            return Err(NoLoan::Out {
                number: lent.number,
            });
        }
        if !self.is_home(home) {
            return Err(NoLoan::NoStore);
        }
        let Some(store) = home.take() else {
            return Err(NoLoan::NoStore);
        };
        let lent = Lent {
            number: self.lent,
            at: self.log.len(),
            turn: false,
        };
        self.lent = self.lent.saturating_add(1);
        self.loan = Some(lent);
        let tag = tag_of(self.instance, &self.shelf, held_loan(lent));
        Ok(Loan {
            tag,
            store,
            purpose: Purpose::Blocks,
            did: Did::Nothing,
        })
    }

    /// Whether the store of this file is at home.
    pub(super) fn is_home<D: DataDev<W>, I: InfoDev<W>>(
        &self,
        home: &Option<FileStore<W, D, I>>,
    ) -> bool
        ensures { IsTrue result ↔ IsHome self.now home.now }
    {
        match home {
            None => false,
            Some(store) => {
                self.shelf.known().same(store.known())
                    && self.shelf.block_size() == store.block_size()
            }
        }
    }

    /// Takes a loan back and enters what it did. A loan comes back strayed where the core doesn't know it, where the sets with
    /// which it was lent aren't the core's, where it wrote a block that isn't in memory, and where a store is at home already.
    pub fn give<D: DataDev<W>, I: InfoDev<W>>(
        &mut self,
        home: &mut Option<FileStore<W, D, I>>,
        loan: Loan<W, D, I>,
    ) -> Result<(), Strayed<Loan<W, D, I>>>
        ensures ok { OnOk result (Gives self.old loan self.new) }
        ensures home { OnOk result ((home.old ≡ None) × (home.new ≡ Some loan.store)) }
        ensures strayed { IfErr result (λ s. StraysLoan self.old home.old loan loan s self.new) }
        ensures kept { OnErr result (home.new ≡ home.old) }
    {
        let why = stranger(&loan.tag, self.instance);
        if home.is_some() {
            return Err(Strayed { token: loan, why });
        }
        if !self.knows_loan(&loan) {
            return Err(Strayed { token: loan, why });
        }
        if !self.fits(&loan) {
            return Err(Strayed { token: loan, why });
        }
        let Loan {
            tag,
            store,
            purpose,
            did,
        } = loan;
        let at = tag.held.flight;
        drop(tag);
        drop(purpose);
        *home = Some(store);
        self.loan = None;
        match did {
            Did::Nothing => (),
            Did::Wrote(block) => self.enter_write(block),
            Did::Synced => {
                self.sets.sync();
                self.log.push(Entry::Synced);
            }
            Did::Claimed => {
                let count = self.sets.durable_count();
                self.sets.claim();
                self.claim = Some(at);
                self.log.push(Entry::Claimed { at, count });
            }
            Did::Broke => {
                self.sets.freeze();
                self.log.push(Entry::Frozen);
            }
        }
        Ok(())
    }

    /// Whether this loan is out.
    fn knows_loan<D: DataDev<W>, I: InfoDev<W>>(&self, loan: &Loan<W, D, I>) -> bool
        ensures { MatchBool result (0 < listed loan.now.mark self.now.out) (listed loan.now.mark self.now.out ≡ 0) }
    {
        if !is_of(&loan.tag, self.instance, &self.shelf) {
            return false;
        }
        let Some(lent) = self.loan else {
            return false;
        };
        is_same(held_loan(lent), loan.tag.held)
    }

    /// Whether what a loan did may be entered.
    fn fits<D: DataDev<W>, I: InfoDev<W>>(&mut self, loan: &Loan<W, D, I>) -> bool
        ensures same { self.new ≡ self.old }
        ensures exact { MatchBool result (IsEnterable self.old loan.now) (IsEnterable self.old loan.now → ⊥) }
    {
        if !self.sets.fits(&loan.store, loan.did) {
            return false;
        }
        let Did::Wrote(block) = loan.did else {
            return true;
        };
        match self.shelf.find(block) {
            None => false,
            Some(slot) => slot.landed,
        }
    }

    /// Enters that a block in memory was written.
    fn enter_write(&mut self, block: u32)
        requires here { IsTrue (is_here (place block self.old.entries)) }
        requires absent { is_member self.old.stored block ≡ false }
        requires low { block < length self.old.stored }
        requires thawed { IsUnfrozen self.old.entries }
        ensures { EntersWrite self.old block self.new }
    {
        let Some(slot) = self.shelf.find(block) else {
            unreachable!()
        };
        self.shelf.change(slot, slot.written());
        self.sets.write(block);
        self.log.push(Entry::Wrote { block });
    }
}
