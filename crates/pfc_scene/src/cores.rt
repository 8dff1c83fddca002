// Cores, and how they are made.
ghost use Rattle.std.specs.Prelude.{◌≡◌, ◌<◌, ◌≤◌, ℕ, [], replicate, length, slice_index_or, slice_set, IfSome, IfNone, IfOk, IfErr, IsTrue, OnErr, ◌↔◌, false, Some};
ghost use Rattle.pfc_base.specs.Block.{count_of};
ghost use Rattle.pfc_base.specs.Cinfo.{IsBlockSize};
ghost use Rattle.pfc_log.specs.Charges.{start_charge};
ghost use Rattle.pfc_log.specs.Lawful.{IsCached};
ghost use Rattle.pfc_log.specs.declared.entry.Uncached.TheVariants as uncached;
ghost use Rattle.pfc_log.specs.declared.start.Start.TheVariants as start;
ghost use Rattle.pfc_core.specs.New.{IsNew};
ghost use Rattle.pfc_core.specs.View.{CoreView};
ghost use Rattle.pfc_actor.specs.declared.backing.Standing.TheVariants as standing;
ghost use Rattle.pfc_actor.specs.Backings.{IsOpen, Later, OpensBy, StandsFor, standing_of};
ghost use Rattle.pfc_scene.specs.Scenes.{IsAlone, IsCore, IsUnused, Makes, Renews, Restarts, StartsCore, StartsNot};

use pfc_actor::{Backing, Wanted};
use pfc_base::{BlockSet, Memory, Path, block_count};
use pfc_cinfo::{Head, Records};
use pfc_core::FileCore;
use pfc_log::{Uncached, uncached_cause};
use pfc_world::{Depot, Known, Refusal, World};
use std::alloc::Global;

/// The core of a path that later opens join: the file is cached, or its volume couldn't be had.
pub(crate) fn find_core<W: World>(cores: &[FileCore<W>], path: &Path) -> Option<usize>
    ensures some { IfSome result (λ i. (i < length cores.now) × ((d : CoreView) → (slice_index_or cores.now i d).path ≡ path.now)) }
    ensures none { IfNone result ((i : ℕ) (d : CoreView) → i < length cores.now → IsCached (slice_index_or cores.now i d).first → (slice_index_or cores.now i d).path ≡ path.now → ⊥) }
{
    for i in 0..cores.len() {
        if is_joined(&cores[i], path) {
            return Some(i);
        }
    }
    None
}

/// Whether a core is of this path, and later opens join it.
fn is_joined<W: World>(core: &FileCore<W>, path: &Path) -> bool
    ensures yes { IsTrue result → core.now.path ≡ path.now }
    ensures no { result ≡ false → IsCached core.now.first → core.now.path ≡ path.now → ⊥ }
{
    match core.uncached() {
        None | Some(Uncached::Volume) => core.known().path() == path,
        Some(_) => false,
    }
}

/// The place of the core of this number, if it is of this path.
pub(crate) fn core_at<W: World>(cores: &[FileCore<W>], core: u64, path: &Path) -> Option<usize>
    ensures { IfSome result (λ i. (i < length cores.now) × ((d : CoreView) → (slice_index_or cores.now i d).path ≡ path.now)) }
{
    if core >= cores.len() as u64 {
        return None;
    }
    let i = core as usize;
    if cores[i].known().path() != path {
        return None;
    }
    Some(i)
}

/// A core of a file of which no block is on disk, and no access on record.
fn empty_core<W: World>(
    alloc: Global,
    i: u64,
    known: Known<W>,
    block_size: u64,
) -> Result<FileCore<W>, Memory>
    requires block_size { IsBlockSize block_size }
    requires few { count_of known.size block_size ≤ 16777216 }
    ensures { IfOk result (λ core. IsNew i known.path known.size block_size (replicate (count_of known.size block_size) false) (record { created = 0; accesses = 0; records = [] }) core) }
{
    let count = block_count(known.size(), block_size) as u32;
    let start = BlockSet::new(alloc, count)?;
    let head = Head {
        created: 0,
        accesses: 0,
        records: Records::new(alloc),
    };
    FileCore::new(alloc, i, known, block_size, start, head)
}

/// A core of a file, which is cached unless its path or its size says otherwise.
fn new_core<W: World>(
    alloc: Global,
    i: u64,
    known: Known<W>,
    block_size: u64,
) -> Result<FileCore<W>, Memory>
    requires block_size { IsBlockSize block_size }
    ensures core { IfOk result (λ core. IsCore block_size i core) }
    ensures path { IfOk result (λ core. core.path ≡ known.path) }
    ensures size { IfOk result (λ core. core.size ≡ known.size) }
    ensures fresh { IfOk result (λ core. (core.entries ≡ []) × (core.out ≡ [])) }
    ensures unpaid { IfOk result (λ core. start_charge core.first ≡ 0) }
{
    let blocks = block_count(known.size(), block_size);
    match uncached_cause(known.path(), blocks) {
        Some(why) => FileCore::direct_only(alloc, i, known, block_size, why),
        None => empty_core(alloc, i, known, block_size),
    }
}

/// Whether a core of a file may be made: the file isn't cached, or no cached core of it is there.
fn is_alone<W: World>(cores: &[FileCore<W>], path: &Path, blocks: u64) -> bool
    ensures { IsTrue result → IsAlone cores.now path.now blocks }
{
    if uncached_cause(path, blocks).is_some() {
        return true;
    }
    find_core(cores, path).is_none()
}

/// Makes a core of the file that a client opens, behind the others, and gives its number. It fails for want of memory, and where
/// there is a core already.
pub(crate) fn make_core<W: World>(
    alloc: Global,
    cores: &mut Vec<FileCore<W>>,
    wanted: &Wanted<W>,
    block_size: u64,
) -> Option<u64>
    requires block_size { IsBlockSize block_size }
    ensures some { IfSome result (λ i. Makes block_size cores.old.items wanted.now.path cores.new.items) }
    ensures none { IfNone result (cores.new.items ≡ cores.old.items) }
{
    let known = wanted.known();
    if !is_alone(cores, known.path(), block_count(known.size(), block_size)) {
        return None;
    }
    if cores.reserve(1).is_err() {
        return None;
    }
    let i = cores.len() as u64;
    match new_core(alloc, i, known, block_size) {
        Ok(core) => {
            cores.push_reserved(core);
            Some(i)
        }
        Err(_) => None,
    }
}

/// A core takes the place of another, which is spent.
pub(crate) fn put_core<W: World>(cores: &mut Vec<FileCore<W>>, i: usize, core: FileCore<W>)
    requires { i < length cores.old.items }
    ensures { cores.new.items ≡ slice_set cores.old.items i core }
{
    cores[i] = core;
}

/// Whether nothing has happened on a core, whose file is cached.
pub(crate) fn is_unused<W: World>(core: &FileCore<W>) -> bool
    ensures { IsTrue result → IsUnused core.now }
{
    core.uncached().is_none() && core.log().len() == 0 && core.quiet()
}

/// A core in the place of one that wasn't used, of a file whose volume couldn't be had.
pub(crate) fn without_volume<W: World>(
    alloc: Global,
    core: &FileCore<W>,
) -> Result<FileCore<W>, Memory>
    requires unused { IsUnused core.now }
    requires block_size { IsBlockSize core.now.block_size }
    ensures renews { IfOk result (λ new. Renews core.now new) }
    ensures first { IfOk result (λ new. new.first ≡ start.Uncached uncached.Volume) }
{
    FileCore::direct_only(
        alloc,
        core.instance(),
        core.known().copy(),
        core.block_size(),
        Uncached::Volume,
    )
}

/// A core in the place of one that wasn't used, whose store is open. It starts with the blocks that the store has for good.
fn with_store<W: World, P: Depot<W>>(
    alloc: Global,
    core: &FileCore<W>,
    backing: &Backing<W, P>,
) -> Result<FileCore<W>, Memory>
    requires unused { IsUnused core.now }
    requires block_size { IsBlockSize core.now.block_size }
    requires few { count_of core.now.size core.now.block_size ≤ 16777216 }
    requires open { IsOpen backing.now.stand }
    requires stands { StandsFor backing.now.stand core.now }
    ensures { IfOk result (λ new. Restarts core.now.block_size backing.now.durable core.now new) }
{
    let start = backing.start(alloc)?;
    let head = backing.head(alloc)?;
    FileCore::new(
        alloc,
        core.instance(),
        core.known().copy(),
        core.block_size(),
        start,
        head,
    )
}

/// Opens the store beside a core that wasn't used, at a moment in seconds, and gives the core that starts with its blocks. Where
/// that fails the volume stands there as before.
pub(crate) fn open_beside<W: World, P: Depot<W>>(
    alloc: Global,
    core: &FileCore<W>,
    backing: &mut Backing<W, P>,
    created: u64,
) -> Result<FileCore<W>, Refusal>
    requires unused { IsUnused core.now }
    requires block_size { IsBlockSize core.now.block_size }
    requires few { count_of core.now.size core.now.block_size ≤ 16777216 }
    requires taken { standing_of backing.old.stand ≡ standing.Taken }
    requires stands { StandsFor backing.old.stand core.now }
    ensures ok { IfOk result (λ new. StartsCore core.now.block_size core.now backing.old new backing.new) }
    ensures err { OnErr result (StartsNot core.now.block_size core.now backing.old backing.new) }
    ensures before { backing.new.before ≡ backing.old.before }
    ensures unspent { backing.new.unspent ≡ backing.old.unspent }
    ensures later { Later backing.old.now backing.new.now }
    ensures cause { IfErr result (OpensBy backing.old.now backing.new.now) }
{
    backing.open(alloc, core.block_size(), created)?;
    match with_store(alloc, core, backing) {
        Ok(core) => Ok(core),
        Err(_) => {
            backing.shut();
            Err(Refusal::Memory)
        }
    }
}
