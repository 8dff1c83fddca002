ghost use Rattle.std.specs.Prelude.{◌≡◌, ◌+◌, ◌*◌, ◌<◌, ◌≤◌, ◌^◌, ℕ, Bool, List, length, IsTrue, IfOk, IfSome, MatchResult, OnOk, option_map, ◌↔◌};
ghost use Rattle.std.proofs.Props.{props};
ghost use Rattle.pfc_base.specs.Block.{count_of, block_len_of};
ghost use Rattle.pfc_world.specs.Files.{HasSize, size_at, Holds, IsBlockOf};
ghost use Rattle.pfc_world.specs.Calls.{FetchCalls};
ghost use Rattle.pfc_world.specs.Counts.{HasCause, RefusalCause, add_count};

use crate::{Fault, Origin, Refusal, World};
use pfc_base::{Path, block_len};
use std::alloc::Global;
use std::marker::PhantomData;

/// A path with the size of its file in bytes, as the origin told it. There is no other way to make one than to ask.
#[derive(Drop)]
pub struct Known<W: World> {
    path: Path,
    size: u64,
    world: PhantomData<W>,
    pub ghost right: { HasSize W.told W.files path size } by { Prim.hlevel props },
    pub ghost short: { size < 2 ^ 44 },
}

impl<W: World> Known<W> {
    /// Asks the link for the size of the path's file, by one call; `None` where the origin has no such file.
    pub fn ask<O: Origin<W>>(link: &mut O, path: &Path) -> Result<Option<Known<W>>, Fault>
        ensures number { O.number link.new ≡ O.number link.old }
        ensures calls { O.calls link.new ≡ add_count (O.calls link.old) 1 }
        ensures cause { HasCause (O.faults link.old) (O.faults link.new) result }
        ensures path { IfOk result (λ found. IfSome found (λ known. known.path ≡ path.now)) }
        ensures told { IsTrue W.told → IfOk result (λ found. option_map (λ known. known.size) found ≡ size_at W.files path.now) }
    {
        match link.stat(path)? {
            None => Ok(None),
            Some(size) => Ok(Some(Known {
                path: path.copy(),
                size,
                world: PhantomData,
            })),
        }
    }

    /// The path of the file.
    pub fn path(&self) -> &Path
        ensures { result.now ≡ self.now.path }
    {
        &self.path
    }

    /// The size of the file in bytes.
    pub fn size(&self) -> u64
        ensures { result ≡ self.now.size }
    {
        self.size
    }

    /// The same once more.
    pub fn copy(&self) -> Known<W>
        ensures path { result.path ≡ self.now.path }
        ensures size { result.size ≡ self.now.size }
    {
        Known {
            path: self.path.copy(),
            size: self.size,
            world: PhantomData,
        }
    }

    /// Whether both are of one path and one size.
    pub fn same(&self, other: &Known<W>) -> bool
        ensures { IsTrue result ↔ ((self.now.path ≡ other.now.path) × (self.now.size ≡ other.now.size)) }
    {
        self.path == other.path && self.size == other.size
    }
}

/// A block of a known file, with the origin's bytes.
#[derive(Drop)]
pub struct Block<W: World> {
    known: Known<W>,
    block_size: u64,
    number: u32,
    bytes: Vec<u8>,
    world: PhantomData<W>,
    pub ghost whole: { IsBlockOf known.size block_size number (length bytes.items) } by { Prim.hlevel props },
    pub ghost right: { Holds W.told W.files known.path (number * block_size) bytes.items } by { Prim.hlevel props },
}

impl<W: World> Block<W> {
    /// Fetches a block of the file, by one call on the link. There is no other way to make one. `Memory` comes before
    /// the call.
    pub fn fetch<O: Origin<W>>(
        alloc: Global,
        link: &mut O,
        known: &Known<W>,
        block_size: u64,
        number: u32,
    ) -> Result<Block<W>, Refusal>
        requires some { 0 < block_size }
        requires most { block_size ≤ 16777216 }
        requires number { number < count_of known.now.size block_size }
        ensures link { O.number link.new ≡ O.number link.old }
        ensures calls { FetchCalls (O.calls link.old) (O.calls link.new) result }
        ensures cause { RefusalCause (O.faults link.old) (O.faults link.new) result }
        ensures known { IfOk result (λ block. (block.known.path ≡ known.now.path) × (block.known.size ≡ known.now.size)) }
        ensures bytes { IfOk result (λ block. Holds W.told W.files known.now.path (number * block_size) block.bytes.items) }
        ensures length { IfOk result (λ block. length block.bytes.items ≡ block_len_of known.now.size block_size number) }
        ensures place { IfOk result (λ block. (block.block_size ≡ block_size) × (block.number ≡ number)) }
    {
        let at = u64::from(number) * block_size;
        let len = block_len(known.size, block_size, number);
        let mut bytes = vec![in alloc; 0u8; len as usize]?;
        link.fetch(&known.path, at, &mut bytes)?;
        Ok(Block {
            known: known.copy(),
            block_size,
            number,
            bytes,
            world: PhantomData,
        })
    }

    /// The bytes of the block.
    pub fn bytes(&self) -> &[u8]
        ensures bytes { result.now ≡ self.now.bytes.items }
        ensures origin { Holds W.told W.files self.now.known.path (self.now.number * self.now.block_size) result.now }
    {
        &self.bytes
    }

    /// The file that it is a block of.
    pub fn known(&self) -> &Known<W>
        ensures { result.now ≡ self.now.known }
    {
        &self.known
    }

    /// The block size of the file in bytes; the block itself may be shorter.
    pub fn block_size(&self) -> u64
        ensures { result ≡ self.now.block_size }
    {
        self.block_size
    }

    /// Which block of the file it is, from 0.
    pub fn number(&self) -> u32
        ensures { result ≡ self.now.number }
    {
        self.number
    }
}
