// Loans of a file's store.
ghost use Rattle.std.specs.Prelude.{◌≡◌, ◌*◌, ◌+◌, ◌≤◌, length, IsTrue, OnOk};
ghost use Rattle.pfc_base.specs.Block.{IsPartOf};
ghost use Rattle.pfc_world.specs.Depot.{AllSound};
ghost use Rattle.pfc_world.specs.Disk.{IsImage};
ghost use Rattle.pfc_world.specs.Files.{Holds};
ghost use Rattle.pfc_world.specs.Info.{IsMain};
ghost use Rattle.pfc_core.specs.declared.loan.Did.TheVariants as did;
ghost use Rattle.pfc_core.specs.Loans.{IsLoan, IsPut, IsSync, PutsLent, ReadsLent, SyncsLent, WritesLent, turn_of};

use crate::tag::Tag;
use pfc_base::Part;
use pfc_cinfo::Head;
use pfc_store::{FileStore, InfoPutRefusal, Put, ReadRefusal, SyncRefusal, WriteRefusal};
use pfc_world::{Block, DataDev, InfoDev, Known, World};
use std::alloc::Global;
use std::marker::Model;

/// What a loan did that its core is to enter.
#[derive(Clone, Copy, Debug, PartialEq, Eq)]
pub enum Did {
    Nothing,
    /// It wrote this block.
    Wrote(u32),
    /// It made each written block durable.
    Synced,
    /// It put a cinfo that claims what is durable.
    Claimed,
    /// A write, a sync or a put failed, which froze the store.
    Broke,
}

/// What the turn of a sync is for.
#[derive(Clone, Copy, Debug, PartialEq, Eq)]
pub enum Turn {
    /// To make each written block durable.
    Data,
    /// To put a cinfo that claims what is durable.
    Info,
}

/// What a loan is for.
#[derive(Drop)]
pub(crate) enum Purpose {
    /// Reads, and one write.
    Blocks,
    /// One sync of the data.
    Sync,
    /// One put of a cinfo with this head.
    Put(Head),
}

/// What a core keeps of the loan that is out.
#[derive(Clone, Copy, Debug, PartialEq, Eq)]
pub(crate) struct Lent {
    pub number: u64,
    /// How many entries the log had.
    pub at: u64,
    /// Whether it was lent for a turn, whose entry has its room.
    pub turn: bool,
}

/// Why no store is lent.
#[derive(Clone, Copy, Debug, PartialEq, Eq, Drop)]
pub enum NoLoan {
    /// The loan of this number is out.
    Out { number: u64 },
    /// The file isn't cached, or no store of it is at home.
    NoStore,
}

/// Why no store is lent for a turn.
#[derive(Clone, Copy, Debug, PartialEq, Eq, Drop)]
pub enum TurnRefusal {
    /// The file isn't cached, or no store of it is at home.
    NoStore,
    /// A device failed other than in a read, so nothing is written any more.
    Frozen,
    /// The loan of this number is out.
    Out { number: u64 },
    /// There is no memory for the head of the cinfo, or for the turn's entry.
    Memory,
}

/// The store of a core's file, lent for reads and one write, for one sync, or for one put. It must be given back.
pub struct Loan<W: World, D: DataDev<W>, I: InfoDev<W>> {
    pub(crate) tag: Tag<W>,
    pub(crate) store: FileStore<W, D, I>,
    pub(crate) purpose: Purpose,
    pub(crate) did: Did,
}

impl<W: World, D: DataDev<W>, I: InfoDev<W>> Model for Loan<W, D, I> {
    ghost use Rattle.pfc_core.specs.Loans.{LoanView, aim_of, IsWhole};
    ghost use Rattle.pfc_core.specs.Marks.{LoanKind};
    ghost use Rattle.pfc_core.specs.Tags.{mark_of};

    ghost Value = { LoanView D I };

    ghost view = { λ l. record { mark = mark_of LoanKind l.tag; store = l.store; aim = aim_of l.purpose; did = l.did } };

    ghost invariant = { λ l. IsWhole (mark_of LoanKind l.tag) l.store (aim_of l.purpose) l.did };
}

impl<W: World, D: DataDev<W>, I: InfoDev<W>> Loan<W, D, I> {
    /// The file whose store was lent.
    pub fn known(&self) -> &Known<W>
        ensures path { result.now.path ≡ self.now.store.path }
        ensures size { result.now.size ≡ self.now.store.size }
    {
        self.store.known()
    }

    /// The block size in bytes.
    pub fn block_size(&self) -> u64
        ensures { result ≡ self.now.store.block_size }
    {
        self.store.block_size()
    }

    /// Hands out what the type keeps: the store is of the file of its mark.
    pub fn keeps(&self)
        ensures { IsLoan self.now.mark self.now.store }
    {
        let _did = self.did;
    }

    /// What it was lent for: a turn, or reads and one write.
    pub fn turn(&self) -> Option<Turn>
        ensures { result ≡ turn_of self.now.aim }
    {
        match &self.purpose {
            Purpose::Blocks => None,
            Purpose::Sync => Some(Turn::Data),
            Purpose::Put(_) => Some(Turn::Info),
        }
    }

    /// What it did that its core is to enter.
    pub fn did(&self) -> Did
        ensures { result ≡ self.now.did }
    {
        self.did
    }

    /// Ends a loan that its core doesn't take back: the devices of the store, of which each pair that a crash may leave is
    /// sound.
    pub fn end(self) -> (D, I)
        ensures first { result.0 ≡ self.store.first }
        ensures second { result.1 ≡ self.store.second }
        ensures sound { IsTrue W.told → IsTrue D.told → IsTrue I.told → AllSound W.files self.store.path (IsImage (D.seen result.0).now) (IsMain (I.seen result.1).now) }
    {
        let Loan {
            tag,
            store,
            purpose,
            did: _,
        } = self;
        drop(tag);
        drop(purpose);
        store.parts()
    }

    /// Reads a part of a block into a slice of the part's length, by one positioned read. A failure freezes nothing.
    pub fn read_part(&mut self, part: Part, into: &mut [u8]) -> Result<(), ReadRefusal>
        requires part { IsPartOf self.old.store.size self.old.store.block_size part }
        requires into { length into.old ≡ part.len }
        ensures reads { ReadsLent W.told W.files D.told I.told D.faults D.seen I.seen self.old part.block result self.new }
        ensures bytes { OnOk result (IsTrue D.told → Holds W.told W.files self.old.store.path (part.block * self.old.store.block_size + part.from) into.new) }
        ensures length { length into.new ≡ length into.old }
    {
        self.store.read_part(part, into)
    }

    /// Writes a block of this file and block size, by one positioned write. One block at most is written by a loan.
    pub fn write_block(&mut self, block: &Block<W>) -> Result<Put, WriteRefusal>
        requires path { block.now.known.path ≡ self.old.store.path }
        requires size { block.now.known.size ≡ self.old.store.size }
        requires block_size { block.now.block_size ≡ self.old.store.block_size }
        requires once { self.old.did ≡ did.Nothing }
        ensures { WritesLent W.told W.files D.told I.told D.faults D.seen I.seen self.old block.now.number result self.new }
    {
        let answer = self.store.write_block(block);
        match answer {
            Ok(Put::Wrote) => self.did = Did::Wrote(block.number()),
            Err(WriteRefusal::Device(_)) => self.did = Did::Broke,
            Ok(Put::AlreadyThere) | Err(WriteRefusal::Frozen(_)) => (),
        }
        answer
    }

    /// Makes each written block durable, by one sync of the data.
    pub fn sync_data(&mut self) -> Result<(), SyncRefusal>
        requires turn { IsSync self.old.aim }
        requires once { self.old.did ≡ did.Nothing }
        ensures { SyncsLent W.told W.files D.told I.told D.faults D.seen I.seen self.old result self.new }
    {
        let answer = self.store.sync_data();
        match answer {
            Ok(()) => self.did = Did::Synced,
            Err(SyncRefusal::Device(_)) => self.did = Did::Broke,
            Err(SyncRefusal::Frozen(_)) => (),
        }
        answer
    }

    /// Puts a cinfo with the head that the loan carries, which claims what is durable. It takes memory for the cinfo's bytes,
    /// before any call on the device.
    pub fn put_info(&mut self, alloc: Global) -> Result<(), InfoPutRefusal>
        requires turn { IsPut self.old.aim }
        requires once { self.old.did ≡ did.Nothing }
        ensures { PutsLent W.told W.files D.told I.told I.faults D.seen I.seen self.old result self.new }
    {
        let Purpose::Put(head) = &self.purpose else {
            unreachable!()
        };
        let answer = self.store.put_info(alloc, head);
        match answer {
            Ok(()) => self.did = Did::Claimed,
            Err(InfoPutRefusal::Device(_)) => self.did = Did::Broke,
            Err(InfoPutRefusal::Memory) | Err(InfoPutRefusal::Frozen(_)) => (),
        }
        answer
    }
}
