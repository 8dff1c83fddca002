// The opening of a store over the volume of its file.
ghost use Rattle.std.specs.Prelude.{◌≡◌, ◌≤◌, ◌⊎◌, ℕ, List, [], Option, true, false, is_ok, length, replicate, IsTrue, IfOk, IfSome, IfNone, ◌<◌, ◌^◌};
ghost use Rattle.pfc_base.specs.Block.{count_of};
ghost use Rattle.pfc_base.specs.Cinfo as said;
ghost use Rattle.pfc_base.specs.Cinfo.{IsBlockSize};
ghost use Rattle.pfc_cinfo.specs.Cinfo.{IsTiled};
ghost use Rattle.pfc_world.specs.Depot.{AllSound};
ghost use Rattle.pfc_world.specs.Disk.{IsImage};
ghost use Rattle.pfc_world.specs.Info.{IsMain};
ghost use Rattle.pfc_store.specs.Blocks.{OfFile, HasBlocks};
ghost use Rattle.pfc_store.specs.Claims.{WithinNow};
ghost use Rattle.pfc_store.specs.Moments.{SoundSince};
ghost use Rattle.pfc_store.specs.Opens.{IsOurs, Restarts, devices_of, OpenCause};
ghost use Rattle.pfc_store.specs.Volume.{KeepsImages, KeepsMains, TakesMain, Judges, RefusedAt, SurveyCause};

use crate::volume::{judge, remove, sync};
use crate::{Broken, DataHalf, FileStore, InfoHalf, SurveyRefusal};
use pfc_base::{BlockSet, Memory, block_count};
use pfc_cinfo::{Cinfo, Head, Records};
use pfc_world::{DataDev, InfoDev, Known, World};
use std::alloc::Global;

/// Why a store was not opened, with its devices.
#[derive(Drop)]
pub enum OpenRefusal<D, I> {
    /// One of the devices failed in this opening.
    Device { first: D, second: I, broken: Broken },
    /// Memory was refused.
    Memory { first: D, second: I },
}

/// What a store starts with: a head, and one set, as which all of its sets begin.
#[derive(Drop)]
struct Start {
    head: Head,
    claimed: BlockSet,
    due: BlockSet,
    durable: BlockSet,
    written: BlockSet,
    ghost due_is: { due ≡ claimed },
    ghost durable_is: { durable ≡ claimed },
    ghost written_is: { written ≡ claimed },
}

fn start_of(alloc: Global, head: Head, claimed: BlockSet) -> Result<Start, Memory>
    ensures head { IfOk result (λ start. start.head ≡ head) }
    ensures claimed { IfOk result (λ start. start.claimed ≡ claimed) }
{
    Ok(Start {
        head,
        due: claimed.copy(alloc)?,
        durable: claimed.copy(alloc)?,
        written: claimed.copy(alloc)?,
        claimed,
    })
}

/// A start with what a cinfo says, where it is of this size and block size.
fn kept_start(
    alloc: Global,
    found: Option<Cinfo>,
    size: u64,
    block_size: u64,
) -> Result<Option<Start>, Memory>
    ensures fit { IfOk result (λ kept. IfSome kept (λ start. found ≡ Some (record { block = block_size; size = size; head = start.head; claims = start.claimed }))) }
    ensures unfit { IfOk result (λ kept. IfNone kept ((c : said.Cinfo) → found ≡ Some c → c.size ≡ size → c.block ≡ block_size → ⊥)) }
    ensures bound { IfOk result (λ kept. IfSome kept (λ start. length start.claimed ≡ count_of size block_size)) }
{
    let Some(cinfo) = found else {
        return Ok(None);
    };
    if cinfo.size != size || cinfo.block != block_size {
        return Ok(None);
    }
    let start = start_of(alloc, cinfo.head, cinfo.claims)?;
    Ok(Some(start))
}

fn fresh_start(alloc: Global, count: u32, created: u64) -> Result<Start, Memory>
    ensures head { IfOk result (λ start. start.head ≡ record { created = created; accesses = 0; records = [] }) }
    ensures claimed { IfOk result (λ start. start.claimed ≡ replicate count false) }
{
    let head = Head {
        created,
        accesses: 0,
        records: Records::new(alloc),
    };
    start_of(alloc, head, BlockSet::new(alloc, count)?)
}

/// Keeps what was found of a settled device, or takes the main file away.
fn choose_start<W: World, I: InfoDev<W>>(
    alloc: Global,
    second: &mut I,
    found: Option<Cinfo>,
    size: u64,
    block_size: u64,
    created: u64,
) -> Result<Start, SurveyRefusal>
    requires short { size < 2 ^ 44 }
    requires tiled { IsTiled block_size size (count_of size block_size) }
    requires settled { IsTrue I.told → IsTrue (I.seen second.old).now.settled }
    requires judged { IsTrue I.told → Judges (I.seen second.old).now.shown (I.seen second.old).now found }
    ensures mains { IsTrue I.told → TakesMain (I.seen second.old) (I.seen second.new) }
    ensures kept { IsTrue I.told → IsOurs size block_size (I.seen second.old).now.shown → I.seen second.new ≡ I.seen second.old }
    ensures settled { is_ok result ≡ true → IsTrue I.told → IsTrue (I.seen second.new).now.settled }
    ensures restart { IfOk result (λ start. IsTrue I.told → Restarts size block_size created (I.seen second.old).now.shown start.head start.claimed (I.seen second.new).now) }
    ensures bound { IfOk result (λ start. length start.claimed ≡ count_of size block_size) }
    ensures cause { RefusedAt (I.faults second.old) (I.faults second.new) result }
{
    let kept = kept_start(alloc, found, size, block_size)?;
    if let Some(start) = kept {
        return Ok(start);
    }
    let count = block_count(size, block_size) as u32;
    let start = fresh_start(alloc, count, created)?;
    match remove(second) {
        Ok(()) => Ok(start),
        Err(broken) => Err(SurveyRefusal::Device(broken)),
    }
}

/// Syncs the data, settles the main file, and keeps it or takes it away.
fn ready<W: World, D: DataDev<W>, I: InfoDev<W>>(
    alloc: Global,
    first: &mut D,
    second: &mut I,
    size: u64,
    block_size: u64,
    created: u64,
) -> Result<Start, SurveyRefusal>
    requires short { size < 2 ^ 44 }
    requires tiled { IsTiled block_size size (count_of size block_size) }
    ensures images { IsTrue D.told → KeepsImages (D.seen first.old) (D.seen first.new) }
    ensures mains { IsTrue I.told → TakesMain (I.seen second.old) (I.seen second.new) }
    ensures kept { IsTrue I.told → IsOurs size block_size (I.seen second.old).now.shown → KeepsMains (I.seen second.old) (I.seen second.new) }
    ensures settled { is_ok result ≡ true → IsTrue I.told → IsTrue (I.seen second.new).now.settled }
    ensures restart { IfOk result (λ start. IsTrue I.told → Restarts size block_size created (I.seen second.old).now.shown start.head start.claimed (I.seen second.new).now) }
    ensures bound { IfOk result (λ start. length start.claimed ≡ count_of size block_size) }
    ensures cause { SurveyCause (D.faults first.old) (D.faults first.new) (I.faults second.old) (I.faults second.new) result }
{
    match sync(first) {
        Ok(()) => {}
        Err(broken) => return Err(SurveyRefusal::Device(broken)),
    }
    let found = match judge(alloc, second) {
        Ok(found) => found,
        Err(refusal) => return Err(refusal),
    };
    choose_start(alloc, second, found, size, block_size, created)
}

/// A store of these devices, whose main files claim what stands in the data.
fn assemble<W: World, D: DataDev<W>, I: InfoDev<W>>(
    first: D,
    second: I,
    known: Known<W>,
    block_size: u64,
    start: Start,
) -> FileStore<W, D, I>
    requires tiled { IsTiled block_size known.size (length start.claimed) }
    requires settled { IsTrue I.told → IsTrue (I.seen second).now.settled }
    requires stand { OfFile W.told W.files known.path (λ file. IsTrue D.told → (image : List ℕ) → IsImage (D.seen first).now image → HasBlocks file block_size start.claimed image) }
    requires mains { IsTrue I.told → WithinNow known.size block_size start.claimed start.claimed (I.seen second).now }
    ensures { result ≡ record { first = first; second = second; path = known.path; size = known.size; block_size = block_size; head = start.head; claimed = start.claimed; durable = start.claimed; written = start.claimed; frozen = None } }
{
    let other = known.copy();
    let data = DataHalf::new(first, known, block_size, start.durable, start.written);
    let info = InfoHalf::new(
        second,
        other,
        block_size,
        start.head,
        start.claimed,
        start.due,
    );
    FileStore::new(data, info)
}

impl<W: World, D: DataDev<W>, I: InfoDev<W>> FileStore<W, D, I> {
    /// Opens the volume of a file. It syncs the data, settles the main file and reads it. A cinfo of this size and block
    /// size is kept, and the store starts with its head and its claims. Any other main file is taken away, and the store
    /// starts empty, with a head made at the moment `created` in seconds.
    pub fn open_store(
        alloc: Global,
        first: D,
        second: I,
        known: Known<W>,
        block_size: u64,
        created: u64,
    ) -> Result<FileStore<W, D, I>, OpenRefusal<D, I>>
        requires block_size { IsBlockSize block_size }
        requires blocks { count_of known.size block_size ≤ 16777216 }
        requires alike { IsTrue D.told → IsTrue I.told }
        requires sound { IsTrue W.told → IsTrue D.told → AllSound W.files known.path (IsImage (D.seen first).now) (IsMain (I.seen second).now) }
        ensures opens { IfOk result (λ store. store ≡ record { first = store.first; second = store.second; path = known.path; size = known.size; block_size = block_size; head = store.head; claimed = store.claimed; durable = store.claimed; written = store.claimed; frozen = None }) }
        ensures restart { IfOk result (λ store. IsTrue I.told → Restarts known.size block_size created (I.seen second).now.shown store.head store.claimed (I.seen store.second).now) }
        ensures images { IsTrue D.told → KeepsImages (D.seen first) (D.seen (devices_of result).0) }
        ensures mains { IsTrue I.told → TakesMain (I.seen second) (I.seen (devices_of result).1) }
        // Where what it reads is to be kept no other main file has come.
        ensures kept { IsTrue I.told → IsOurs known.size block_size (I.seen second).now.shown → KeepsMains (I.seen second) (I.seen (devices_of result).1) }
        ensures sound { IsTrue W.told → IsTrue D.told → SoundSince W.files known.path (D.seen first) (D.seen (devices_of result).0) (I.seen second) (I.seen (devices_of result).1) }
        ensures cause { OpenCause D.faults I.faults first second result }
    {
        let mut first = first;
        let mut second = second;
        match ready(
            alloc,
            &mut first,
            &mut second,
            known.size(),
            block_size,
            created,
        ) {
            Ok(start) => Ok(assemble(first, second, known, block_size, start)),
            Err(SurveyRefusal::Device(broken)) => Err(OpenRefusal::Device {
                first,
                second,
                broken,
            }),
            Err(SurveyRefusal::Memory) => Err(OpenRefusal::Memory { first, second }),
        }
    }
}
