// What a run has of a file's volume, beside the file's core.
ghost use Rattle.std.specs.Prelude.{◌≡◌, [], Contains, false, IsTrue, IfOk, IfErr, OnOk, OnErr};
ghost use Rattle.pfc_base.specs.Cinfo.{IsBlockSize};
ghost use Rattle.pfc_world.specs.Counts.{RefusalCause};
ghost use Rattle.pfc_actor.specs.Backings.{bare, AreFromHome, FewerMains, OpensTaken, PutsMains, depot_of, shut_stand, path_in, IsSoundAtHome, TakesVolume, StaysOut, IsOutAs, PutsBack, Opens, StartsWith, Later, OpensBy, standing_of, IsTaken, IsOpen, IsLent, written_in, KeepsBacking, WroteFor, LoanStep, AllowsLeave};
ghost use Rattle.pfc_actor.specs.Steps.{Own};

use crate::client::Client;
use crate::volume::{
    Volume, copied, counted, given_to, is_bare, lent_by, lent_for_turn, opened, parted, put_home,
    shut, spend, turn_of, write_by,
};
use pfc_base::{BlockSet, Memory};
use pfc_cinfo::Head;
use pfc_core::{FileCore, Loan, Turn};
use pfc_store::FileStore;
use pfc_world::{DataDev, Depot, InfoDev, Known, Origin, Refusal, Taken, World};
use pfc_writer::Writer;
use std::alloc::Global;
use std::marker::Model;
use std::mem;

/// What stands beside a core.
#[derive(Clone, Copy, Debug, PartialEq, Eq)]
pub enum Standing {
    /// Nothing.
    Bare,
    /// The file's volume, as it was taken.
    Taken,
    /// The file's store.
    Open,
    /// A loan of the store.
    Lent,
}

pub(crate) enum Held<W: World, D: DataDev<W>, I: InfoDev<W>> {
    Bare,
    Taken(Volume<W, D, I>),
    Open(FileStore<W, D, I>),
    Lent(Loan<W, D, I>),
}

/// The volume of a core's file, its store, or the loan of it, with the counts of its devices as they were taken and the failed
/// reads for which no direct read is entered yet. It must be put back.
pub struct Backing<W: World, P: Depot<W>> {
    held: Held<W, P::Data, P::Info>,
    before: (u64, u64),
    unspent: u64,
}

impl<W: World, P: Depot<W>> Model for Backing<W, P> {
    ghost use Rattle.pfc_actor.specs.Backings.{BackingView};
    ghost use Rattle.pfc_actor.specs.Standings.{backing_of};

    ghost Value = { BackingView };

    ghost view = { λ b. backing_of P.Data.faults P.Info.faults P.Info.told P.Info.seen b.held b.before b.unspent };
}

impl<W: World, P: Depot<W>> Backing<W, P> {
    /// Nothing.
    pub fn bare() -> Backing<W, P>
        ensures { result ≡ bare }
    {
        Backing {
            held: Held::Bare,
            before: (0, 0),
            unspent: 0,
        }
    }

    /// What stands there.
    pub fn standing(&self) -> Standing
        ensures { result ≡ standing_of self.now.stand }
    {
        match &self.held {
            Held::Bare => Standing::Bare,
            Held::Taken(_) => Standing::Taken,
            Held::Open(_) => Standing::Open,
            Held::Lent(_) => Standing::Lent,
        }
    }

    /// Takes the volume of a file from the depot, where it is home.
    pub fn take(alloc: Global, depot: &mut P, known: Known<W>) -> Result<Backing<W, P>, Refusal>
        requires sound { IsSoundAtHome W.told P.Data.told W.files (P.home_data depot.old) (P.home_main depot.old) }
        requires home { Contains (P.out depot.old) known.path → ⊥ }
        ensures sound { IsSoundAtHome W.told P.Data.told W.files (P.home_data depot.new) (P.home_main depot.new) }
        ensures taken { IfOk result (λ backing. TakesVolume known.path known.size backing (depot_of P.out P.lent P.faults depot.old) (depot_of P.out P.lent P.faults depot.new)) }
        ensures stays { OnErr result (StaysOut (depot_of P.out P.lent P.faults depot.old) (depot_of P.out P.lent P.faults depot.new)) }
        ensures cause { RefusalCause (P.faults depot.old) (P.faults depot.new) result }
        ensures unlisted { P.unlisted depot.new ≡ P.unlisted depot.old }
        ensures mains { IsTrue P.Data.told → FewerMains (P.home_main depot.old) (P.home_main depot.new) }
        ensures found { IfOk result (λ backing. IsTrue P.Data.told → AreFromHome (P.home_main depot.old known.path) backing.info) }
    {
        match depot.take(alloc, known.path()) {
            Taken::Volume(first, second) => {
                let before = (first.faults(), second.faults());
                Ok(Backing {
                    held: Held::Taken(Volume::new(known, first, second)),
                    before,
                    unspent: 0,
                })
            }
            Taken::Out => unreachable!(),
            Taken::Fault => Err(Refusal::Fault),
            Taken::Memory => Err(Refusal::Memory),
        }
    }

    /// Opens the store of the volume that was taken, in blocks of so many bytes, at a moment in seconds. After a refusal the volume
    /// stands there as before.
    pub fn open(&mut self, alloc: Global, block_size: u64, created: u64) -> Result<(), Refusal>
        requires taken { IsTaken block_size self.old.stand }
        requires block_size { IsBlockSize block_size }
        ensures opens { OnOk result (Opens block_size self.old.stand self.new.stand) }
        ensures stays { OnErr result (self.new.stand ≡ self.old.stand) }
        ensures before { self.new.before ≡ self.old.before }
        ensures unspent { self.new.unspent ≡ self.old.unspent }
        ensures later { Later self.old.now self.new.now }
        ensures found { OpensTaken self.old.stand block_size self.old.info self.new }
        ensures cause { IfErr result (OpensBy self.old.now self.new.now) }
    {
        let held = mem::replace(&mut self.held, Held::Bare);
        let (next, answer) = opened(alloc, held, block_size, created);
        spend(mem::replace(&mut self.held, next));
        answer
    }

    /// Closes the store that is open. Its volume stands there as it was taken.
    pub fn shut(&mut self)
        requires { IsOpen self.old.stand }
        ensures stand { self.new.stand ≡ shut_stand self.old.stand }
        ensures rest { self.new ≡ record self.old { stand = self.new.stand; claimed = []; durable = [] } }
    {
        let held = mem::replace(&mut self.held, Held::Bare);
        spend(mem::replace(&mut self.held, shut(held)));
    }

    /// A copy of the set of the blocks with which the store starts.
    pub fn start(&self, alloc: Global) -> Result<BlockSet, Memory>
        requires { IsOpen self.now.stand }
        ensures length { IfOk result (λ set. StartsWith set self.now.stand) }
        ensures durable { IfOk result (λ set. set ≡ self.now.durable) }
    {
        match &self.held {
            Held::Open(store) => copied(alloc, store),
            _ => Err(Memory),
        }
    }

    /// A copy of the head of the store's cinfo.
    pub fn head(&self, alloc: Global) -> Result<Head, Memory>
        requires { IsOpen self.now.stand }
    {
        match &self.held {
            Held::Open(store) => store.head().copy(alloc),
            _ => Err(Memory),
        }
    }

    /// Lends the store, where it is at home. It tells whether it did.
    pub fn lend(&mut self, core: &mut FileCore<W>) -> bool
        ensures step { LoanStep core.old self.old core.new self.new }
        ensures yes { IsTrue result → IsLent self.new.stand }
        ensures no { result ≡ false → (core.new ≡ core.old) × (self.new ≡ self.old) }
    {
        let held = mem::replace(&mut self.held, Held::Bare);
        let (next, lent) = lent_by(core, held);
        spend(mem::replace(&mut self.held, next));
        lent
    }

    /// Lends the store for a turn of a sync, where it is at home. It tells whether it did: a store that is frozen isn't lent, and one
    /// for which there is no memory.
    pub fn lend_turn(&mut self, alloc: Global, core: &mut FileCore<W>, turn: Turn) -> bool
        ensures step { LoanStep core.old self.old core.new self.new }
        ensures yes { IsTrue result → IsLent self.new.stand }
        ensures no { result ≡ false → (core.new ≡ core.old) × (self.new ≡ self.old) }
    {
        let held = mem::replace(&mut self.held, Held::Bare);
        let (next, lent) = lent_for_turn(alloc, core, held, turn);
        spend(mem::replace(&mut self.held, next));
        lent
    }

    /// Makes the turn for which the store was lent. It tells whether that went well.
    pub fn turn(&mut self, alloc: Global) -> bool
        ensures keeps { KeepsBacking self.old self.new }
        ensures written { written_in self.new.stand ≡ written_in self.old.stand }
    {
        let Held::Lent(loan) = &mut self.held else {
            return false;
        };
        turn_of(alloc, loan)
    }

    /// Gives the loan back to the core, and enters what it did. It tells whether the core took it.
    pub fn give(&mut self, core: &mut FileCore<W>) -> bool
        ensures step { LoanStep core.old self.old core.new self.new }
        ensures yes { IsTrue result → IsOpen self.new.stand }
        ensures no { result ≡ false → (core.new ≡ core.old) × (self.new ≡ self.old) }
    {
        let held = mem::replace(&mut self.held, Held::Bare);
        let (next, given) = given_to(core, held);
        spend(mem::replace(&mut self.held, next));
        given
    }

    /// A client reads its part by the loan.
    pub fn read<O: Origin<W>>(&mut self, client: &mut Client<W, O>)
        requires { IsTrue W.told → IsTrue P.Data.told }
        ensures keeps { KeepsBacking self.old self.new }
        ensures written { written_in self.new.stand ≡ written_in self.old.stand }
        ensures own { Own client.old.book client.old.line client.old.stage client.new.book client.new.line client.new.stage }
    {
        let Held::Lent(loan) = &mut self.held else {
            return;
        };
        let answer = client.read(loan);
        self.unspent = counted(self.unspent, answer);
    }

    /// A writer writes the block of its job by the loan, where that is of the job's file and did nothing yet. It tells whether the writer had its turn.
    pub fn write(&mut self, writer: &mut Writer<W>) -> bool
        ensures keeps { KeepsBacking self.old self.new }
        ensures yes { IsTrue result → WroteFor writer.old self.new writer.new }
        ensures no { result ≡ false → (writer.new ≡ writer.old) × (self.new ≡ self.old) }
    {
        let Held::Lent(loan) = &mut self.held else {
            return false;
        };
        write_by(loan, writer)
    }

    /// Whether a direct read of this block may be entered, since its failed call is covered, or it shows none. The call is spent.
    pub fn allows(&mut self, core: &FileCore<W>, block: u32) -> bool
        ensures yes { IsTrue result → AllowsLeave block core.now self.old self.new }
        ensures no { result ≡ false → self.new ≡ self.old }
    {
        if !core.is_charged(block) {
            return true;
        }
        if is_bare(&self.held) {
            return false;
        }
        if self.unspent == 0 {
            return false;
        }
        self.unspent -= 1;
        true
    }

    /// Puts the volume back to the depot, if there is one. Nothing stands there any more.
    pub fn put_back(&mut self, depot: &mut P)
        requires sound { IsSoundAtHome W.told P.Data.told W.files (P.home_data depot.old) (P.home_main depot.old) }
        requires out { IsOutAs (path_in self.old.stand) self.old (depot_of P.out P.lent P.faults depot.old) }
        ensures sound { IsSoundAtHome W.told P.Data.told W.files (P.home_data depot.new) (P.home_main depot.new) }
        ensures back { PutsBack (path_in self.old.stand) self.old (depot_of P.out P.lent P.faults depot.old) (depot_of P.out P.lent P.faults depot.new) }
        ensures bare { self.new ≡ bare }
        ensures mains { IsTrue P.Data.told → PutsMains (path_in self.old.stand) self.old (P.home_main depot.old) (P.home_main depot.new) }
        ensures unlisted { P.unlisted depot.new ≡ P.unlisted depot.old }
    {
        let held = mem::replace(&mut self.held, Held::Bare);
        self.before = (0, 0);
        self.unspent = 0;
        match parted(held) {
            None => (),
            Some(volume) => put_home::<W, P>(depot, volume),
        }
    }

    /// Ends it, with what stands there.
    pub fn discard(self) {
        let Backing {
            held,
            before: _,
            unspent: _,
        } = self;
        spend(held);
    }
}
