// Which blocks of a file are on disk.
ghost use Rattle.std.specs.Prelude.{◌≡◌, ◌<◌, true, false, length, count_by, IfOk, IsTrue, ◌↔◌, slice_set};
ghost use Rattle.pfc_base.specs.BlockSet.{is_member};
ghost use Rattle.pfc_core.specs.Sets.{Fits, FitsDurable};

use crate::loan::Did;
use pfc_base::{BlockSet, Memory};
use pfc_store::FileStore;
use pfc_world::{DataDev, InfoDev, World};
use std::alloc::Global;
use std::marker::Model;

/// The blocks of a file that can be read from disk, those of them that no crash can take, those that its cinfo claims, and
/// whether its store is frozen. `spare` has room for one more such set.
#[derive(Drop)]
pub(crate) struct Sets {
    stored: BlockSet,
    durable: BlockSet,
    claimed: BlockSet,
    spare: BlockSet,
    frozen: bool,
}

impl Model for Sets {
    ghost use Rattle.pfc_core.specs.Sets.{SetsView, AreSets};

    ghost Value = { SetsView };

    ghost view = { λ s. record { stored = s.stored; durable = s.durable; claimed = s.claimed; frozen = s.frozen } };

    ghost invariant = { λ s. AreSets s.stored s.durable s.claimed s.spare };
}

impl Sets {
    /// All blocks of this set are on disk for good, and the cinfo claims them.
    pub fn new(alloc: Global, start: &BlockSet) -> Result<Sets, Memory>
        ensures { IfOk result (λ sets. sets ≡ record { stored = start.now; durable = start.now; claimed = start.now; frozen = false }) }
    {
        let stored = start.copy(alloc)?;
        let durable = start.copy(alloc)?;
        let claimed = start.copy(alloc)?;
        let spare = start.copy(alloc)?;
        Ok(Sets {
            stored,
            durable,
            claimed,
            spare,
            frozen: false,
        })
    }

    pub fn stored(&self) -> &BlockSet
        ensures { result.now ≡ self.now.stored }
    {
        &self.stored
    }

    /// Whether no crash can take a block.
    pub fn is_durable(&self, block: u32) -> bool
        ensures { result ≡ is_member self.now.durable block }
    {
        block < self.durable.bound() && self.durable.test(block)
    }

    /// Whether a block can be read from disk.
    pub fn has(&self, block: u32) -> bool
        ensures { result ≡ is_member self.now.stored block }
    {
        block < self.stored.bound() && self.stored.test(block)
    }

    pub fn is_frozen(&self) -> bool
        ensures { result ≡ self.now.frozen }
    {
        self.frozen
    }

    /// How many blocks no crash can take.
    pub fn durable_count(&self) -> u32
        ensures { result ≡ count_by (λ member. member) self.now.durable }
    {
        self.durable.count()
    }

    /// Whether the cinfo claims each block that can be read.
    pub fn are_claimed(&self) -> bool
        ensures { IsTrue result ↔ (self.now.stored ≡ self.now.claimed) }
    {
        self.stored.equals(&self.claimed)
    }

    /// What was written can't be taken by a crash any more.
    pub fn sync(&mut self)
        ensures { self.new ≡ record self.old { durable = self.old.stored } }
    {
        self.durable.copy_from(&self.stored);
    }

    /// The cinfo claims what no crash can take.
    pub fn claim(&mut self)
        ensures { self.new ≡ record self.old { claimed = self.old.durable } }
    {
        self.claimed.copy_from(&self.durable);
    }

    /// A block was written.
    pub fn write(&mut self, block: u32)
        requires { block < length self.old.stored }
        ensures { self.new ≡ record self.old { stored = slice_set self.old.stored block true } }
    {
        self.stored.set(block);
    }

    /// The store was frozen: what isn't durable can't be read any more.
    pub fn freeze(&mut self)
        ensures { self.new ≡ record self.old { stored = self.old.durable; frozen = true } }
    {
        self.stored.copy_from(&self.durable);
        self.frozen = true;
    }

    /// Whether a store that did this was lent as these sets say.
    pub fn fits<W: World, D: DataDev<W>, I: InfoDev<W>>(
        &mut self,
        store: &FileStore<W, D, I>,
        did: Did,
    ) -> bool
        ensures same { self.new ≡ self.old }
        ensures exact { IsTrue result ↔ Fits self.old store.now did }
    {
        store.keeps();
        if store.written().bound() != self.stored.bound() {
            return false;
        }
        if !self.fits_durable(store, did) {
            return false;
        }
        match did {
            Did::Nothing => {
                if self.frozen {
                    return store.frozen().is_some();
                }
                store.frozen().is_none() && store.written().equals(&self.stored)
            }
            Did::Wrote(block) => {
                if self.frozen || store.frozen().is_some() {
                    return false;
                }
                if block >= self.stored.bound() || self.stored.test(block) {
                    return false;
                }
                self.spare.copy_from(&self.stored);
                self.spare.set(block);
                store.written().equals(&self.spare)
            }
            Did::Synced | Did::Claimed => {
                !self.frozen && store.frozen().is_none() && store.written().equals(&self.stored)
            }
            Did::Broke => {
                !self.frozen && store.frozen().is_some() && store.written().equals(&self.stored)
            }
        }
    }

    /// Whether what no crash can take, and what the cinfo claims, is as these sets say of a store that did this.
    fn fits_durable<W: World, D: DataDev<W>, I: InfoDev<W>>(
        &self,
        store: &FileStore<W, D, I>,
        did: Did,
    ) -> bool
        requires { length store.now.written ≡ length self.now.stored }
        ensures { IsTrue result ↔ FitsDurable self.now store.now did }
    {
        store.keeps();
        let durable = match did {
            Did::Synced => &self.stored,
            _ => &self.durable,
        };
        let claimed = match did {
            Did::Claimed => &self.durable,
            _ => &self.claimed,
        };
        store.durable().equals(durable) && store.claimed().equals(claimed)
    }
}
