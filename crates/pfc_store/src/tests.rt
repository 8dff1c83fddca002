ghost use Rattle.std.specs.Prelude.{◌≡◌, ◌<◌, ℕ, List, Option, None, IfOk, codes};
ghost use Rattle.pfc_world.specs.Info.{IsMain};
ghost use Rattle.pfc_memory.specs.Mains.{info_run};

use crate::{FileStore, OpenRefusal};
use pfc_base::Path;
use pfc_cinfo::decode;
use pfc_memory::{MemoryData, MemoryDepot, MemoryHost, MemoryInfo, Pick, RowWorld};
use pfc_world::{Block, DataDev, Depot, Host, InfoDev, Known, Origin, Taken};
use std::alloc::Global;
use std::test::Fail;

/// The block size in bytes. The file `/a` has 8193 bytes, and so three blocks.
const BLOCK_SIZE: u64 = 4096;

type Store = FileStore<RowWorld, MemoryData, MemoryInfo>;

fn fetch<O: Origin<RowWorld>>(
    alloc: Global,
    link: &mut O,
    known: &Known<RowWorld>,
    number: u32,
) -> Result<Block<RowWorld>, Fail>
    requires size { known.now.size ≡ 8193 }
    requires number { number < 3 }
    ensures file { IfOk result (λ block. (block.known.path ≡ known.now.path) × (block.known.size ≡ known.now.size)) }
    ensures place { IfOk result (λ block. (block.block_size ≡ 4096) × (block.number ≡ number)) }
{
    match Block::fetch(alloc, link, known, BLOCK_SIZE, number) {
        Ok(block) => Ok(block),
        Err(_) => Err("a block was not fetched".into()),
    }
}

/// Writes a block, makes it durable and claims it. Where a device fails the store is frozen, and nothing more is done.
fn add(alloc: Global, store: &mut Store, block: &Block<RowWorld>) -> Result<(), Fail>
    requires path { block.now.known.path ≡ store.old.path }
    requires size { block.now.known.size ≡ store.old.size }
    requires block_size { block.now.block_size ≡ store.old.block_size }
    ensures path { store.new.path ≡ store.old.path }
    ensures size { store.new.size ≡ store.old.size }
    ensures block_size { store.new.block_size ≡ store.old.block_size }
{
    let head = store.head().copy(alloc)?;
    let _ = store.write_block(block);
    let _ = store.sync_data();
    let _ = store.put_info(alloc, &head);
    Ok(())
}

/// Opens a store over devices that hold nothing, and adds two blocks. The devices come back in any case.
fn add_both(
    alloc: Global,
    first: MemoryData,
    second: MemoryInfo,
    one: &Block<RowWorld>,
    two: &Block<RowWorld>,
) -> Result<(MemoryData, MemoryInfo), Fail>
    requires bare { (main : Option (List ℕ)) → IsMain (info_run second).now main → main ≡ None }
    requires size { one.now.known.size ≡ 8193 }
    requires path { two.now.known.path ≡ one.now.known.path }
    requires same { two.now.known.size ≡ one.now.known.size }
    requires block_size { (one.now.block_size ≡ 4096) × (two.now.block_size ≡ 4096) }
{
    let known = one.known().copy();
    let mut store = match Store::open_store(alloc, first, second, known, BLOCK_SIZE, 0) {
        Ok(store) => store,
        Err(OpenRefusal::Device { first, second, .. } | OpenRefusal::Memory { first, second }) => {
            return Ok((first, second));
        }
    };
    add(alloc, &mut store, one)?;
    add(alloc, &mut store, two)?;
    Ok(store.parts())
}

fn take(
    depot: &mut MemoryDepot,
    alloc: Global,
    path: &Path,
) -> Result<(MemoryData, MemoryInfo), Fail> {
    match Depot::<RowWorld>::take(depot, alloc, path) {
        Taken::Volume(first, second) => Ok((first, second)),
        Taken::Out | Taken::Fault | Taken::Memory => Err("no volume".into()),
    }
}

/// A depot, and a volume of it that holds nothing.
fn fresh(
    alloc: Global,
    path: &Path,
    fails: &[u64],
    fuse: Option<u64>,
) -> Result<(MemoryDepot, MemoryData, MemoryInfo), Fail>
    ensures { IfOk result (λ all. (main : Option (List ℕ)) → IsMain (info_run all.2).now main → main ≡ None) }
{
    let mut depot = MemoryDepot::new(alloc, Vec::from_slice(alloc, fails)?, fuse)?;
    match Depot::<RowWorld>::take(&mut depot, alloc, path) {
        Taken::Volume(first, second) => Ok((depot, first, second)),
        Taken::Out | Taken::Fault | Taken::Memory => Err("no volume".into()),
    }
}

/// The first two blocks of the file `/a`.
fn blocks(alloc: Global, path: &Path) -> Result<(Block<RowWorld>, Block<RowWorld>), Fail>
    ensures size { IfOk result (λ both. both.0.known.size ≡ 8193) }
    ensures path { IfOk result (λ both. both.1.known.path ≡ both.0.known.path) }
    ensures same { IfOk result (λ both. both.1.known.size ≡ both.0.known.size) }
    ensures block_size { IfOk result (λ both. (both.0.block_size ≡ 4096) × (both.1.block_size ≡ 4096)) }
{
    let host: MemoryHost<RowWorld> = MemoryHost::new(
        alloc,
        Vec::new(alloc),
        Vec::new(alloc),
        Vec::new(alloc),
    )?;
    let mut host = host;
    let mut link = host.link(alloc, 1)?;
    let known = Known::ask(&mut link, path)?.ok_or("no file")?;
    if known.size() != 8193 {
        return Err("another file".into());
    }
    let one = fetch(alloc, &mut link, &known, 0)?;
    let two = fetch(alloc, &mut link, &known, 1)?;
    Ok((one, two))
}

/// Whether a block stands at its place.
fn stands(first: &mut MemoryData, at: u64, block: &Block<RowWorld>) -> bool {
    let mut place = [0; 4096];
    let read = DataDev::<RowWorld>::read_at(first, at, &mut place).is_ok();
    read && place.as_slice() == block.bytes()
}

/// Which of the first two blocks the main file claims.
fn claims(alloc: Global, second: &mut MemoryInfo) -> Result<[bool; 2], Fail> {
    let Ok(main) = InfoDev::<RowWorld>::read_main(second, alloc) else {
        return Err("no main file was read".into());
    };
    let Some(bytes) = main else {
        return Ok([false, false]);
    };
    let Ok(cinfo) = decode(alloc, &bytes) else {
        return Err("the main file is no cinfo".into());
    };
    if cinfo.claims.bound() < 2 {
        return Err("a cinfo of another file".into());
    }
    Ok([cinfo.claims.test(0), cinfo.claims.test(1)])
}

/// Which of two blocks that were added a crash leaves claimed. Each of those has the origin's bytes.
fn left(alloc: Global, fails: &[u64], fuse: Option<u64>, pick: Pick) -> Result<[bool; 2], Fail> {
    let path = Path::read(b"/a")?;
    let (one, two) = blocks(alloc, &path)?;
    let (mut depot, first, second) = fresh(alloc, &path, fails, fuse)?;
    let (first, second) = add_both(alloc, first, second, &one, &two)?;
    let _ = Depot::<RowWorld>::put_back(&mut depot, &path, first, second);
    let mut depot = depot.crash(alloc, pick)?;
    let (mut first, mut second) = take(&mut depot, alloc, &path)?;
    let claimed = claims(alloc, &mut second)?;
    if claimed[0] && !stands(&mut first, 0, &one)
        || claimed[1] && !stands(&mut first, BLOCK_SIZE, &two)
    {
        return Err("a claimed block hasn't the origin's bytes".into());
    }
    Ok(claimed)
}

/// The same for each image that a crash may leave: the old one, the new one, and a torn one.
fn lefts(alloc: Global, fails: &[u64], fuse: Option<u64>) -> Result<[[bool; 2]; 3], Fail> {
    Ok([
        left(alloc, fails, fuse, Pick::Old)?,
        left(alloc, fails, fuse, Pick::New)?,
        left(alloc, fails, fuse, Pick::Torn)?,
    ])
}

const NONE: [bool; 2] = [false, false];

const ONE: [bool; 2] = [true, false];

const BOTH: [bool; 2] = [true, true];

/// What is claimed after a crash at a device call. The opening makes calls 0 to 3: a sync of the data, a settling of the
/// main file, a read of it and its removal. Each block takes five more: a write, a sync of the data, a write of the
/// temporary, its sync and the rename.
fn wanted(call: u64) -> [[bool; 2]; 3] {
    match call {
        0..=7 => [NONE, NONE, NONE],
        8 => [NONE, ONE, NONE],
        9..=12 => [ONE, ONE, ONE],
        13 => [ONE, BOTH, ONE],
        _ => [BOTH, BOTH, BOTH],
    }
}

#[test]
fn a_crash_at_any_device_call_leaves_claims_of_what_is_stored(rt: HostRuntime) -> Result<(), Fail> {
    let alloc = rt.alloc();
    for call in 0..15u64 {
        let found = lefts(alloc, &[], Some(call))?;
        assert_eq!(rt; found, wanted(call), "a crash at call {call}");
    }
    Ok(())
}

#[test]
fn a_device_call_that_fails_alone_leaves_claims_of_what_is_stored(
    rt: HostRuntime,
) -> Result<(), Fail> {
    let alloc = rt.alloc();
    for call in 0..15u64 {
        let found = lefts(alloc, &[call], None)?;
        assert_eq!(rt; found, wanted(call), "a failure of call {call}");
    }
    Ok(())
}
