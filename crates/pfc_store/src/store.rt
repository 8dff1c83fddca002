// The store: both halves of one file.
ghost use Rattle.std.specs.Prelude.{Bool, ◌≡◌, ◌+◌, ◌*◌, ◌≤◌, ℕ, List, Option, length, IsTrue, IfOk, IfErr, OnOk, ◌↔◌};
ghost use Rattle.std.specs.Option.{option_or};
ghost use Rattle.pfc_base.specs.Block.{IsPartOf, count_of};
ghost use Rattle.pfc_base.specs.BlockSet.{IsWithin};
ghost use Rattle.pfc_base.specs.Cinfo.{IsSound};
ghost use Rattle.pfc_world.specs.Files.{Holds};
ghost use Rattle.pfc_world.specs.Depot.{AllSound};
ghost use Rattle.pfc_world.specs.Disk.{Disk, IsImage, ImageSince};
ghost use Rattle.pfc_world.specs.Info.{Info, IsMain, MainSince};
ghost use Rattle.pfc_world.specs.Run.{Run};
ghost use Rattle.pfc_store.specs.Blocks.{SolidSince};
ghost use Rattle.pfc_store.specs.Claims.{Says, WithinSince};
ghost use Rattle.pfc_store.specs.Data.{Reads, Writes, Syncs};
ghost use Rattle.pfc_store.specs.Info.{Puts};
ghost use Rattle.pfc_store.specs.Moments.{StaysSound};
ghost use Rattle.pfc_store.specs.Store.{data_side, info_side, with_data, with_info, store_of, FitTogether, IsStore};

use crate::{
    Broken, DataHalf, InfoHalf, InfoPutRefusal, Put, ReadRefusal, SyncRefusal, WriteRefusal,
};
use pfc_base::{BlockSet, Part};
use pfc_cinfo::Head;
use pfc_world::{Block, DataDev, InfoDev, Known, World};
use std::alloc::Global;
use std::marker::Model;

/// What one file has on disk. Whatever a crash leaves, at any moment, each block that the main file claims stands in the
/// data. A failure of a device freezes it for good, but not one of a read: then it reads durable blocks alone and writes
/// nothing.
#[derive(Drop)]
pub struct FileStore<W: World, D: DataDev<W>, I: InfoDev<W>> {
    data: DataHalf<W, D>,
    info: InfoHalf<W, I>,
}

impl<W: World, D: DataDev<W>, I: InfoDev<W>> Model for FileStore<W, D, I> {
    ghost use Rattle.pfc_store.specs.Views.{StoreView};
    ghost use Rattle.pfc_store.specs.Store.{IsStore};

    ghost Value = { StoreView D I };

    ghost view = { λ s. record { first = s.data.device; second = s.info.device; path = s.data.path; size = s.data.size; block_size = s.data.block_size; head = s.info.head; claimed = s.info.claimed; durable = s.data.durable; written = s.data.written; frozen = s.data.frozen } };

    ghost invariant = { λ s. IsStore s.data s.info };
}

impl<W: World, D: DataDev<W>, I: InfoDev<W>> FileStore<W, D, I> {
    /// Puts halves together that are known to fit.
    pub(crate) fn new(first: DataHalf<W, D>, second: InfoHalf<W, I>) -> FileStore<W, D, I>
        requires { IsStore first second }
        ensures { result ≡ store_of first second }
    {
        FileStore {
            data: first,
            info: second,
        }
    }

    /// Reads a part of a block into a slice of the part's length, by one call on the data device. A failure of it
    /// freezes nothing.
    pub fn read_part(&mut self, part: Part, into: &mut [u8]) -> Result<(), ReadRefusal>
        requires part { IsPartOf self.old.size self.old.block_size part }
        requires into { length into.old ≡ part.len }
        ensures exact { Reads D.faults (data_side self.old) part.block result (data_side self.new) }
        ensures rest { self.new ≡ with_data self.old (data_side self.new) }
        ensures bytes { OnOk result (IsTrue D.told → Holds W.told W.files self.old.path (part.block * self.old.block_size + part.from) into.new) }
        ensures same { IsTrue D.told → D.seen self.new.first ≡ D.seen self.old.first }
        ensures moments { StaysSound W.told W.files D.told I.told D.seen I.seen self.old self.new }
        ensures faults { D.faults self.old.first ≤ D.faults self.new.first }
    {
        self.data.keeps();
        self.info.keeps();
        self.data.read_part(part, into)
    }

    /// Writes a block of this file and block size that isn't written yet, by one call on the data device.
    pub fn write_block(&mut self, block: &Block<W>) -> Result<Put, WriteRefusal>
        requires path { block.now.known.path ≡ self.old.path }
        requires size { block.now.known.size ≡ self.old.size }
        requires block_size { block.now.block_size ≡ self.old.block_size }
        ensures exact { Writes D.faults (data_side self.old) block.now.number result (data_side self.new) }
        ensures rest { self.new ≡ with_data self.old (data_side self.new) }
        ensures moments { StaysSound W.told W.files D.told I.told D.seen I.seen self.old self.new }
        ensures faults { D.faults self.old.first ≤ D.faults self.new.first }
    {
        self.info.keeps();
        let answer = self.data.write_block(block);
        self.info.freeze(self.data.frozen());
        answer
    }

    /// Makes each written block durable.
    pub fn sync_data(&mut self) -> Result<(), SyncRefusal>
        ensures exact { Syncs D.faults (data_side self.old) result (data_side self.new) }
        ensures rest { self.new ≡ with_data self.old (data_side self.new) }
        ensures moments { StaysSound W.told W.files D.told I.told D.seen I.seen self.old self.new }
        ensures faults { D.faults self.old.first ≤ D.faults self.new.first }
    {
        self.data.keeps();
        self.info.keeps();
        let answer = self.data.sync_data();
        self.info.freeze(self.data.frozen());
        answer
    }

    /// Puts a cinfo with this head that claims what is durable. It takes memory for its bytes.
    pub fn put_info(&mut self, alloc: Global, head: &Head) -> Result<(), InfoPutRefusal>
        ensures exact { Puts I.faults (info_side self.old) result (info_side self.new) }
        ensures rest { self.new ≡ with_info self.old (info_side self.new) }
        ensures claims { OnOk result (IsTrue I.told → (main : Option (List ℕ)) → IsMain (I.seen self.new.second).now main → Says main (record { block = self.old.block_size; size = self.old.size; head = head.now; claims = self.old.durable })) }
        ensures moments { StaysSound W.told W.files D.told I.told D.seen I.seen self.old self.new }
        ensures faults { I.faults self.old.second ≤ I.faults self.new.second }
    {
        self.data.keeps();
        self.info.raise(self.data.durable());
        let answer = self.info.put_info(alloc, head);
        self.data.freeze(self.info.frozen());
        answer
    }

    /// What the type keeps: each set lies in the next one, and whatever a crash leaves now is as after a call that did
    /// nothing.
    pub fn keeps(&self)
        ensures claimed { IsWithin self.now.claimed self.now.durable }
        ensures durable { IsWithin self.now.durable self.now.written }
        ensures bounds { (length self.now.claimed ≡ length self.now.written) × (length self.now.durable ≡ length self.now.written) × (length self.now.written ≡ count_of self.now.size self.now.block_size) }
        ensures moments { StaysSound W.told W.files D.told I.told D.seen I.seen self.now self.now }
    {
        self.data.keeps();
        self.info.keeps();
    }

    /// The file.
    pub fn known(&self) -> &Known<W>
        ensures path { result.now.path ≡ self.now.path }
        ensures size { result.now.size ≡ self.now.size }
    {
        self.data.known()
    }

    /// The block size in bytes.
    pub fn block_size(&self) -> u64
        ensures { result ≡ self.now.block_size }
    {
        self.data.block_size()
    }

    /// The head that the opening found in the main file, or made. A later one is handed to `put_info`.
    pub fn head(&self) -> &Head
        ensures { result.now ≡ self.now.head }
    {
        self.info.head()
    }

    /// The blocks that every main file claims.
    pub fn claimed(&self) -> &BlockSet
        ensures { result.now ≡ self.now.claimed }
    {
        self.info.claimed()
    }

    /// The blocks that no crash can take.
    pub fn durable(&self) -> &BlockSet
        ensures { result.now ≡ self.now.durable }
    {
        self.data.durable()
    }

    /// The blocks that are written.
    pub fn written(&self) -> &BlockSet
        ensures { result.now ≡ self.now.written }
    {
        self.data.written()
    }

    /// The failure that froze it.
    pub fn frozen(&self) -> Option<Broken>
        ensures { result ≡ self.now.frozen }
    {
        self.data.frozen()
    }

    /// Its devices, of which each pair that a crash may leave is sound.
    pub fn parts(self) -> (D, I)
        ensures first { result.0 ≡ self.first }
        ensures second { result.1 ≡ self.second }
        ensures sound { IsTrue W.told → IsTrue D.told → IsTrue I.told → AllSound W.files self.path (IsImage (D.seen result.0).now) (IsMain (I.seen result.1).now) }
    {
        self.keeps();
        let FileStore { data, info } = self;
        (data.into_device(), info.into_device())
    }

    /// Its halves, each of which keeps its part while the other works. What is durable now is due. It takes no memory.
    pub fn split(self) -> (DataHalf<W, D>, InfoHalf<W, I>)
        ensures data { result.0 ≡ data_side self }
        ensures info { result.1 ≡ info_side self }
    {
        let FileStore { data, info } = self;
        let mut info = info;
        data.keeps();
        info.keeps();
        info.raise(data.durable());
        (data, info)
    }
}

/// Two halves that don't fit together.
#[derive(Drop)]
pub struct Unjoined<W: World, D: DataDev<W>, I: InfoDev<W>> {
    pub first: DataHalf<W, D>,
    pub second: InfoHalf<W, I>,
}

fn fit_together<W: World, D: DataDev<W>, I: InfoDev<W>>(
    first: &DataHalf<W, D>,
    second: &InfoHalf<W, I>,
) -> bool
    ensures { IsTrue result ↔ FitTogether first.now second.now }
{
    first.keeps();
    second.keeps();
    if !first.known().same(second.known()) || first.block_size() != second.block_size() {
        return false;
    }
    second.due().is_within(first.durable())
}

/// The one, or else the other.
fn either(one: Option<Broken>, other: Option<Broken>) -> Option<Broken>
    ensures { result ≡ option_or one other }
{
    match one {
        Some(broken) => Some(broken),
        None => other,
    }
}

/// Puts two halves together. They fit where they are of one file and block size and all that is due is durable; all that
/// is claimed is due.
pub fn join<W: World, D: DataDev<W>, I: InfoDev<W>>(
    first: DataHalf<W, D>,
    second: InfoHalf<W, I>,
) -> Result<FileStore<W, D, I>, Unjoined<W, D, I>>
    ensures fit { IfOk result (λ store. FitTogether first second × (store ≡ store_of first second)) }
    ensures unfit { IfErr result (λ halves. (¬ FitTogether first second) × (halves.first ≡ first) × (halves.second ≡ second)) }
{
    if !fit_together(&first, &second) {
        return Err(Unjoined { first, second });
    }
    let mut data = first;
    let mut info = second;
    let frozen = either(data.frozen(), info.frozen());
    data.keeps();
    info.keeps();
    data.freeze(frozen);
    info.freeze(frozen);
    Ok(FileStore { data, info })
}

/// While the halves are apart, whatever each of them does: what one keeps and what the other may claim make sound pairs,
/// as long as all that is due in the one was durable in the other. This does nothing: its contract is that law.
pub fn halves_stay_sound()
    ensures { (file : List ℕ) (size k : ℕ) (durable claimed due : List Bool) (disk : Run Disk) (info : Run Info) (s t : ℕ) → IsWithin due durable → SolidSince file k durable disk s → WithinSince size k claimed due info t → (image : List ℕ) (main : Option (List ℕ)) → ImageSince disk s image → MainSince info t main → IsSound image main file }
{}
