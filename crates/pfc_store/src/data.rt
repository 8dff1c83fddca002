// The half of a store that has the data.
ghost use Rattle.std.specs.Prelude.{ℕ, List, ◌≡◌, ◌+◌, ◌*◌, ◌<◌, ◌≤◌, ◌^◌, length, IsTrue, OnOk};
ghost use Rattle.pfc_base.specs.Block.{IsPartOf, count_of};
ghost use Rattle.pfc_base.specs.BlockSet.{IsWithin};
ghost use Rattle.pfc_cinfo.specs.Cinfo.{IsTiled};
ghost use Rattle.pfc_world.specs.Disk.{IsImage};
ghost use Rattle.pfc_world.specs.Files.{Holds};
ghost use Rattle.pfc_world.specs.Run.{moment};
ghost use Rattle.pfc_store.specs.Blocks.{OfFile, HasBlocks, SolidSince};
ghost use Rattle.pfc_store.specs.Data.{Reads, Writes, Syncs};

use crate::{Broken, Put, ReadRefusal, SyncRefusal, WriteRefusal};
use pfc_base::{BlockSet, Part};
use pfc_world::{Block, DataDev, Fault, Known, World};
use std::marker::Model;

/// The data of a file on its device: which blocks are written, and which of them a crash can't take. It never writes a
/// block again. Once a write or a sync has failed it is frozen for good: it reads durable blocks alone and writes none.
#[derive(Drop)]
pub struct DataHalf<W: World, D: DataDev<W>> {
    device: D,
    known: Known<W>,
    block_size: u64,
    durable: BlockSet,
    written: BlockSet,
    frozen: Option<Broken>,
}

impl<W: World, D: DataDev<W>> Model for DataHalf<W, D> {
    ghost use Rattle.pfc_store.specs.Views.{DataView};
    ghost use Rattle.pfc_store.specs.Blocks.{IsDataHalf};

    ghost Value = { DataView D };

    ghost view = { λ h. record { device = h.device; path = h.known.path; size = h.known.size; block_size = h.block_size; durable = h.durable; written = h.written; frozen = h.frozen } };

    ghost invariant = { λ h. IsDataHalf W.told W.files D.told h.known.path h.known.size h.block_size h.durable h.written h.frozen (D.DataDev.seen h.device).now };
}

/// The place of a byte in a block.
fn place_of(block: u32, block_size: u64, from: u32) -> u64
    requires block { block < 16777216 }
    requires block_size { block_size ≤ 16777216 }
    ensures { result ≡ block * block_size + from }
{
    u64::from(block) * block_size + u64::from(from)
}

impl<W: World, D: DataDev<W>> DataHalf<W, D> {
    /// The half of a device on which these blocks stand, whatever a crash leaves. `written` is an equal set.
    pub(crate) fn new(
        device: D,
        known: Known<W>,
        block_size: u64,
        durable: BlockSet,
        written: BlockSet,
    ) -> DataHalf<W, D>
        requires tiled { IsTiled block_size known.size (length durable) }
        requires same { written ≡ durable }
        requires stand { OfFile W.told W.files known.path (λ file. IsTrue D.told → (image : List ℕ) → IsImage (D.seen device).now image → HasBlocks file block_size durable image) }
        ensures { result ≡ record { device = device; path = known.path; size = known.size; block_size = block_size; durable = durable; written = durable; frozen = None } }
    {
        DataHalf {
            device,
            known,
            block_size,
            durable,
            written,
            frozen: None,
        }
    }

    /// Reads a part of a block into a slice of the part's length, by one call on the device.
    pub fn read_part(&mut self, part: Part, into: &mut [u8]) -> Result<(), ReadRefusal>
        requires part { IsPartOf self.old.size self.old.block_size part }
        requires into { length into.old ≡ part.len }
        ensures exact { Reads D.faults self.old part.block result self.new }
        ensures bytes { OnOk result (IsTrue D.told → Holds W.told W.files self.old.path (part.block * self.old.block_size + part.from) into.new) }
        ensures same { IsTrue D.told → D.seen self.new.device ≡ D.seen self.old.device }
        ensures faults { D.faults self.old.device ≤ D.faults self.new.device }
    {
        if !self.written.test(part.block) {
            return Err(ReadRefusal::Absent);
        }
        if let Some(broken) = self.frozen {
            if !self.durable.test(part.block) {
                return Err(ReadRefusal::Frozen(broken));
            }
        }
        let at = place_of(part.block, self.block_size, part.from);
        let before = self.device.faults();
        if let Err(Fault) = self.device.read_at(at, into) {
            let after = self.device.faults();
            return Err(ReadRefusal::Device(Broken { before, after }));
        }
        Ok(())
    }

    /// Writes a block of this file and block size that isn't written yet, by one call on the device.
    pub fn write_block(&mut self, block: &Block<W>) -> Result<Put, WriteRefusal>
        requires path { block.now.known.path ≡ self.old.path }
        requires size { block.now.known.size ≡ self.old.size }
        requires block_size { block.now.block_size ≡ self.old.block_size }
        ensures exact { Writes D.faults self.old block.now.number result self.new }
        ensures solid { OfFile W.told W.files self.old.path (λ file. IsTrue D.told → SolidSince file self.old.block_size self.old.durable (D.seen self.new.device) (moment (D.seen self.old.device))) }
        ensures faults { D.faults self.old.device ≤ D.faults self.new.device }
    {
        match self.frozen {
            Some(broken) => return Err(WriteRefusal::Frozen(broken)),
            None => {}
        }
        let number = block.number();
        if self.written.test(number) {
            return Ok(Put::AlreadyThere);
        }
        let at = place_of(number, self.block_size, 0);
        let before = self.device.faults();
        match self.device.write_at(at, block.bytes()) {
            Ok(()) => {
                self.written.set(number);
                Ok(Put::Wrote)
            }
            Err(Fault) => {
                let broken = Broken {
                    before,
                    after: self.device.faults(),
                };
                self.frozen = Some(broken);
                Err(WriteRefusal::Device(broken))
            }
        }
    }

    /// Makes each written block durable.
    pub fn sync_data(&mut self) -> Result<(), SyncRefusal>
        ensures exact { Syncs D.faults self.old result self.new }
        ensures solid { OfFile W.told W.files self.old.path (λ file. IsTrue D.told → SolidSince file self.old.block_size self.old.durable (D.seen self.new.device) (moment (D.seen self.old.device))) }
        ensures faults { D.faults self.old.device ≤ D.faults self.new.device }
    {
        match self.frozen {
            Some(broken) => return Err(SyncRefusal::Frozen(broken)),
            None => {}
        }
        let before = self.device.faults();
        match self.device.sync() {
            Ok(()) => {
                self.durable.copy_from(&self.written);
                Ok(())
            }
            Err(Fault) => {
                let broken = Broken {
                    before,
                    after: self.device.faults(),
                };
                self.frozen = Some(broken);
                Err(SyncRefusal::Device(broken))
            }
        }
    }

    /// What the type keeps: the sets are as long as the file has blocks, and whatever a crash leaves has each durable
    /// block.
    pub fn keeps(&self)
        ensures written { length self.now.written ≡ count_of self.now.size self.now.block_size }
        ensures durable { length self.now.durable ≡ count_of self.now.size self.now.block_size }
        ensures nested { IsWithin self.now.durable self.now.written }
        ensures solid { OfFile W.told W.files self.now.path (λ file. IsTrue D.told → SolidSince file self.now.block_size self.now.durable (D.seen self.now.device) (moment (D.seen self.now.device))) }
    {
        let _ = &self.device;
    }

    /// The file.
    pub fn known(&self) -> &Known<W>
        ensures path { result.now.path ≡ self.now.path }
        ensures size { result.now.size ≡ self.now.size }
    {
        &self.known
    }

    /// The block size in bytes.
    pub fn block_size(&self) -> u64
        ensures { result ≡ self.now.block_size }
    {
        self.block_size
    }

    /// The blocks that no crash can take.
    pub fn durable(&self) -> &BlockSet
        ensures { result.now ≡ self.now.durable }
    {
        &self.durable
    }

    /// The blocks that are written.
    pub fn written(&self) -> &BlockSet
        ensures { result.now ≡ self.now.written }
    {
        &self.written
    }

    /// The failure that froze it.
    pub fn frozen(&self) -> Option<Broken>
        ensures { result ≡ self.now.frozen }
    {
        self.frozen
    }

    /// Freezes it like the other half. It never thaws.
    pub(crate) fn freeze(&mut self, frozen: Option<Broken>)
        requires { frozen ≡ None → self.old.frozen ≡ None }
        ensures { self.new ≡ record self.old { frozen = frozen } }
    {
        self.frozen = frozen;
    }

    /// The device alone.
    pub(crate) fn into_device(self) -> D
        ensures { result ≡ self.device }
    {
        self.device
    }
}
