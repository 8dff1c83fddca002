// A host in memory.
ghost use Rattle.std.specs.Prelude.{◌≡◌, ◌+◌, ◌<◌, ◌≤◌, ◌==◌, ℕ, List, ◌↔◌, drop, Option, Some, None, Err, option_map, true, vec_len, IfOk, IfErr, slice_index_or};
ghost use Rattle.pfc_world.specs.Files.{file_at};
ghost use Rattle.pfc_world.specs.Counts.{RefusalCause, add_count};
ghost use Rattle.pfc_memory.specs.Calls.{calls_of};
ghost use Rattle.pfc_memory.specs.Texts.{texts_of};

use crate::calls::Calls;
use crate::{MemoryLink, MemoryWorld, VecSource};
use pfc_base::Memory;
use pfc_world::{Host, Refusal, Sources};
use std::alloc::{AllocError, Global};
use std::marker::PhantomData;

/// How many numbers links have: 0 for the prefetcher, 1 to 64 for the clients.
const NUMBERS: usize = 65;

/// Gives texts and links from memory. A name that isn't listed has no text. Of the calls on a link, and of the reads
/// of each source, both counted from 0, those that a list names fail, and no other.
#[derive(Drop)]
pub struct MemoryHost<W: MemoryWorld> {
    files: Vec<(String, Vec<u8>)>,
    fails: Vec<(u32, u64)>,
    reads: Vec<u64>,
    faults: u64,
    spent: Vec<(u64, u64)>,
    world: PhantomData<W>,
    ghost numbers: { vec_len spent ≡ 65 },
}

/// The bytes of the first text of this name.
fn find_text<'a>(files: &'a [(String, Vec<u8>)], name: &str) -> Option<&'a [u8]>
    ensures { option_map (λ x. x.now) result ≡ file_at (texts_of files.now) name.now }
{
    for (text, bytes) in files {
        if name == text.as_str() {
            return Some(bytes);
        }
    }
    None
}

/// The calls of one link that fail.
fn fails_of(alloc: Global, fails: &[(u32, u64)], number: u32) -> Result<Vec<u64>, AllocError>
    ensures { IfOk result (λ found. found.items ≡ calls_of fails.now number) }
{
    fails
        .iter()
        .filter(|fail| fail.0 == number)
        .map(|fail| fail.1)
        .collect(alloc)
}

impl<W: MemoryWorld> MemoryHost<W> {
    /// A host with these texts by name; of two texts of one name the first counts. `fails` names the link and the
    /// number of each call that fails, `reads` the numbers of the reads that fail in each source.
    pub fn new(
        alloc: Global,
        files: Vec<(String, Vec<u8>)>,
        fails: Vec<(u32, u64)>,
        reads: Vec<u64>,
    ) -> Result<MemoryHost<W>, Memory>
        ensures texts { IfOk result (λ host. host.files ≡ files) }
        ensures fails { IfOk result (λ host. (host.fails ≡ fails) × (host.reads ≡ reads)) }
        ensures spent { IfOk result (λ host. (n : ℕ) → slice_index_or host.spent.items n (0, 0) ≡ (0, 0)) }
        ensures faults { IfOk result (λ host. host.faults ≡ 0) }
    {
        let spent = vec![in alloc; (0u64, 0u64); NUMBERS]?;
        Ok(MemoryHost {
            files,
            fails,
            reads,
            faults: 0,
            spent,
            world: PhantomData,
        })
    }

    /// The calls and the faults of the links of this number that came back; a number above 64 has none.
    pub fn spent(&self, number: u32) -> (u64, u64)
        ensures { result ≡ slice_index_or self.now.spent.items number (0, 0) }
    {
        match self.spent.get(number as usize) {
            None => (0, 0),
            Some(spent) => *spent,
        }
    }

    /// How many calls failed, those on sources that came back included.
    pub fn faults(&self) -> u64
        ensures { result ≡ self.now.faults }
    {
        self.faults
    }
}

impl<W: MemoryWorld> Sources for MemoryHost<W> {
    type Input = VecSource;

    ghost told = { true };

    ghost texts = { λ h. texts_of h.files.items };

    ghost faults = { λ h. h.faults };

    ghost spent = { λ h n. slice_index_or h.spent.items n (0, 0) };

    fn source(&mut self, alloc: Global, name: &str) -> Result<VecSource, Refusal>
        ensures texts { self.new.files ≡ self.old.files }
        ensures spent { self.new.spent ≡ self.old.spent }
        ensures lists { (self.new.fails ≡ self.old.fails) × (self.new.reads ≡ self.old.reads) }
        ensures cause { RefusalCause self.old.faults self.new.faults result }
        ensures listed { (result ≡ Err Refusal.Fault) ↔ (file_at (texts_of self.old.files.items) name.now ≡ None) }
        ensures text { IfOk result (λ input. file_at (texts_of self.old.files.items) name.now ≡ Some (drop input.at input.bytes.items)) }
        ensures fresh { IfOk result (λ input. (input.calls.made ≡ 0) × (input.calls.faults ≡ 0)) }
        ensures fails { IfOk result (λ input. input.calls.fails.items ≡ self.old.reads.items) }
    {
        match find_text(&self.files, name) {
            None => {
                self.faults = self.faults.saturating_add(1);
                Err(Refusal::Fault)
            }
            Some(bytes) => {
                let bytes = bytes.to_vec(alloc)?;
                let fails = self.reads.to_vec(alloc)?;
                Ok(VecSource::new(bytes, fails))
            }
        }
    }

    fn done(&mut self, input: VecSource) {
        self.faults = self.faults.saturating_add(input.faults());
    }
}

impl<W: MemoryWorld> Host<W> for MemoryHost<W> {
    type Link = MemoryLink<W>;

    fn link(&mut self, alloc: Global, number: u32) -> Result<MemoryLink<W>, Refusal>
        ensures host { self.new ≡ self.old }
        ensures link { IfOk result (λ link. (link.number ≡ number) × (link.calls.made ≡ 0) × (link.calls.faults ≡ 0)) }
        ensures fails { IfOk result (λ link. link.calls.fails.items ≡ calls_of self.old.fails.items number) }
        ensures memory { IfErr result (λ refusal. refusal ≡ Refusal.Memory) }
    {
        let fails = fails_of(alloc, &self.fails, number)?;
        Ok(MemoryLink {
            number,
            calls: Calls::new(fails),
            world: PhantomData,
        })
    }

    fn back(&mut self, link: MemoryLink<W>) {
        let at = link.number as usize;
        let (calls, faults) = self.spent[at];
        self.spent[at] = (
            calls.saturating_add(link.calls.made()),
            faults.saturating_add(link.calls.faults()),
        );
    }
}
