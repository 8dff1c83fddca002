// Reads and writes of a store over a cache folder.
ghost use Rattle.std.specs.Prelude.{◌≡◌, IfSome};
ghost use Rattle.pfc_base.specs.Block.{IsPartOf};

use crate::sample::{Plan, Sample, nanoseconds_since};
use crate::stored::{BLOCK_SIZE, BLOCKS, FILE_SIZE, Store, Stored};
use anyhow::{Result, bail};
use pfc_base::{Part, block_count, block_len};
use pfc_folder::FolderWorld;
use pfc_store::Put;
use pfc_world::Block;
use std::time::Instant;

/// How many bytes the small reads and the large ones have.
const SMALL: usize = 4096;

const LARGE: usize = 131072;

/// The samples of one store.
#[derive(Clone, Copy)]
pub struct Samples {
    pub small: Sample,
    pub large: Sample,
    pub write: Sample,
    pub turn: Sample,
}

/// How many reads there are of a length.
fn reads(plan: Plan, len: usize) -> u64 {
    match plan {
        Plan::Try => 10,
        Plan::Measure if len == SMALL => 400_000,
        Plan::Measure => 40_000,
    }
}

/// How many times each block is written.
fn turns(plan: Plan) -> u64 {
    match plan {
        Plan::Try => 2,
        Plan::Measure => 16,
    }
}

/// The part at a place of a block, where it is one.
fn part_at(size: u64, block_size: u64, block: u32, from: u32, len: u32) -> Option<Part>
    ensures { IfSome result (λ part. IsPartOf size block_size part × (part.len ≡ len)) }
{
    if size >= 1 << 44 || block_size == 0 || block_size > 16777216 || len == 0 {
        return None;
    }
    if u64::from(block) >= block_count(size, block_size) {
        return None;
    }
    if u64::from(from) + u64::from(len) > block_len(size, block_size, block) {
        return None;
    }
    Some(Part { block, from, len })
}

/// Reads the part that is number `turn` of its length, round after round of the file. Its first byte comes back.
fn read_one(store: &mut Store, turn: u64, into: &mut [u8]) -> u64 {
    let len = into.len();
    if len == 0 || len > 1 << 20 {
        return 0;
    }
    let at = turn.wrapping_mul(len as u64) % FILE_SIZE;
    let block = (at / BLOCK_SIZE) as u32;
    let from = (at % BLOCK_SIZE) as u32;
    let size = store.known().size();
    let Some(part) = part_at(size, store.block_size(), block, from, len as u32) else {
        return 0;
    };
    if store.read_part(part, into).is_err() {
        return 0;
    }
    u64::from(into[0])
}

/// The sum of the first bytes of all parts that were read.
fn read_all(store: &mut Store, rounds: u64, into: &mut [u8]) -> u64 {
    let mut sum = 0u64;
    for turn in 0..rounds {
        sum = sum.wrapping_add(read_one(store, turn, into));
    }
    sum
}

fn sample_reads(rt: &HostRuntime, plan: Plan, store: &mut Store, len: usize) -> Result<Sample> {
    let rounds = reads(plan, len);
    let mut place = vec![in rt.alloc(); 0u8; len]?;
    let start = Instant::now(rt)?;
    let sum = read_all(store, rounds, &mut place);
    Ok(Sample::until_now(rt, start, rounds, sum)?)
}

/// Writes a block that isn't written yet.
fn write_one(store: &mut Store, block: &Block<FolderWorld>) -> Result<()> {
    if !block.known().same(store.known()) || block.block_size() != store.block_size() {
        bail!("another file");
    }
    match store.write_block(block) {
        Ok(Put::Wrote) => Ok(()),
        _ => bail!("no write"),
    }
}

/// Makes durable what is written, and claims it.
fn turn_one(rt: &HostRuntime, store: &mut Store) -> Result<()> {
    let head = match store.head().copy(rt.alloc()) {
        Ok(head) => head,
        Err(_) => bail!("out of memory"),
    };
    if store.sync_data().is_err() || store.put_info(rt.alloc(), &head).is_err() {
        bail!("no turn");
    }
    Ok(())
}

/// How long the writes took, and the turns, in nanoseconds.
#[derive(Clone, Copy)]
struct Spent {
    write: u64,
    turn: u64,
}

/// Writes each block, with a turn after each.
fn write_all(rt: &HostRuntime, store: &mut Store, blocks: &[Block<FolderWorld>]) -> Result<Spent> {
    let mut spent = Spent { write: 0, turn: 0 };
    for block in blocks {
        let start = Instant::now(rt)?;
        write_one(store, block)?;
        spent.write = spent.write.saturating_add(nanoseconds_since(rt, start)?);
        let start = Instant::now(rt)?;
        turn_one(rt, store)?;
        spent.turn = spent.turn.saturating_add(nanoseconds_since(rt, start)?);
    }
    Ok(spent)
}

/// Writes the file's blocks into one store after the other.
fn sample_writes(rt: &HostRuntime, plan: Plan, stored: &mut Stored) -> Result<(Sample, Sample)> {
    let blocks = stored.blocks(rt.alloc())?;
    let mut spent = Spent { write: 0, turn: 0 };
    for _ in 0..turns(plan) {
        let mut store = stored.open(rt.alloc())?;
        let more = write_all(rt, &mut store, &blocks)?;
        spent.write = spent.write.saturating_add(more.write);
        spent.turn = spent.turn.saturating_add(more.turn);
        stored.discard(store)?;
    }
    let rounds = turns(plan).saturating_mul(u64::from(BLOCKS));
    let write = Sample::of_total(spent.write, rounds, rounds);
    let turn = Sample::of_total(spent.turn, rounds, rounds);
    Ok((write, turn))
}

/// Writes stores, and reads from a last one.
pub fn all(rt: &HostRuntime, plan: Plan) -> Result<Samples> {
    let mut stored = Stored::make(rt)?;
    let (write, turn) = sample_writes(rt, plan, &mut stored)?;
    let blocks = stored.blocks(rt.alloc())?;
    let mut store = stored.open(rt.alloc())?;
    write_all(rt, &mut store, &blocks)?;
    let small = sample_reads(rt, plan, &mut store, SMALL)?;
    let large = sample_reads(rt, plan, &mut store, LARGE)?;
    stored.discard(store)?;
    stored.end(rt)?;
    Ok(Samples {
        small,
        large,
        write,
        turn,
    })
}
