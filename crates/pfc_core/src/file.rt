// The state of one opening of one file.
ghost use Rattle.std.specs.Prelude.{◌≡◌, ◌+◌, ◌*◌, ◌<◌, ◌≤◌, ◌↔◌, ◌^◌, ℕ, [], length, false, IsTrue, IfOk, OnOk, OnErr, IfErr, IfSome, sum_by, ◌==◌, ◌&&◌};
ghost use Rattle.pfc_base.specs.BlockSet.{is_member};
ghost use Rattle.pfc_log.specs.Views.{stored, durable, claimed, bound};
ghost use Rattle.pfc_log.specs.Lawful.{Lawful, IsComplete};
ghost use Rattle.pfc_core.specs.View.{CoreView, why_of};
ghost use Rattle.pfc_core.specs.Lending.{loans_out};
ghost use Rattle.pfc_core.specs.Calls.{foreign, Attaches, Detaches, Begins, Strays};
ghost use Rattle.pfc_core.specs.OpenJobs.{AreJobs};

mod disk;
mod flights;
mod jobs;
mod loans;
mod make;
mod pins;
mod reads;
mod turns;

use crate::access::Access;
use crate::held::Tokens;
use crate::loan::Lent;
use crate::sets::Sets;
use crate::shelf::Shelf;
use crate::token::{Reading, Stay, Strayed, is_of, stranger, tag_of};
use pfc_base::{BlockSet, Memory};
use pfc_log::{Entry, FileLog, Start, Uncached};
use pfc_world::{Known, World};
use std::alloc::Global;
use std::marker::Model;

/// The core of one opening of one file: its number, its file with the block size, its log, what it gave out, which blocks
/// are on disk, which place the last claim names, the place behind the last visit, and the accesses. The file's store is kept
/// beside it.
#[derive(Drop)]
pub struct FileCore<W: World> {
    instance: u64,
    log: FileLog,
    sets: Sets,
    shelf: Shelf<W>,
    stays: Tokens,
    readings: Tokens,
    pins: Tokens,
    disks: Tokens,
    loan: Option<Lent>,
    lent: u64,
    begun: u64,
    claim: Option<u64>,
    visited: u64,
    access: Access,
}

impl<W: World> Model for FileCore<W> {
    ghost use Rattle.pfc_core.specs.View.{CoreView, why_of};
    ghost use Rattle.pfc_core.specs.Lending.{loans_out};

    ghost Value = { CoreView };

    ghost use Rattle.pfc_core.specs.Kept.{view_of, IsKept};

    ghost view = { view_of };

    ghost invariant = { IsKept };
}

/// The most tokens of one kind that are out. It is past all memory.
const MOST_TOKENS: usize = 1 << 58;

/// What is left of a core that has ended.
#[derive(Drop)]
pub struct Retired {
    pub log: FileLog,
}

/// How many entries the log must have room for, at most: those of all tokens that are out and of all slots, and `frozen`.
fn owed(tokens: usize, others: usize, slots: usize) -> Option<u64>
    ensures sum { IfSome result (λ n. n ≡ tokens + others + 4 * slots + 1) }
    ensures small { IfSome result (λ n. n < 2 ^ 62) }
{
    if tokens > MOST_TOKENS || others > MOST_TOKENS || slots > MOST_TOKENS {
        return None;
    }
    Some((tokens + others + 4 * slots + 1) as u64)
}

/// The sum of three numbers of tokens. One that is past all memory is refused.
fn sum_of(a: usize, b: usize, c: usize) -> Result<usize, Memory>
    ensures sum { IfOk result (λ n. n ≡ a + b + c) }
    ensures small { IfOk result (λ n. n < 2 ^ 61) }
{
    if a > MOST_TOKENS || b > MOST_TOKENS || c > MOST_TOKENS {
        return Err(Memory);
    }
    Ok(a + b + c)
}

fn all_zero(a: usize, b: usize, c: usize, d: usize) -> bool
    ensures { result ≡ (a == 0 && b == 0 && c == 0 && d == 0) }
{
    a == 0 && b == 0 && c == 0 && d == 0
}

/// Takes the room for one more token, and for the entries that a flight may cause beside those that are owed.
fn make_room<W: World>(
    log: &mut FileLog,
    tokens: &mut Tokens,
    others: usize,
    shelf: &Shelf<W>,
) -> Result<(), Memory>
    ensures first { log.new.first ≡ log.old.first }
    ensures entries { log.new.entries ≡ log.old.entries }
    ensures list { tokens.new.list ≡ tokens.old.list }
    ensures kept { log.old.room ≤ log.new.room }
    ensures token { OnOk result (0 < tokens.new.room) }
    ensures few { OnOk result (length tokens.old.list < 2 ^ 63) }
    ensures room { OnOk result (length tokens.old.list + others + 4 * length shelf.now.slots + 8 ≤ log.new.room) }
{
    let Some(owed) = owed(tokens.len(), others, shelf.len()) else {
        return Err(Memory);
    };
    log.reserve(owed + 7)?;
    tokens.reserve()
}

impl<W: World> FileCore<W> {
    /// The log so far.
    pub fn log(&self) -> &FileLog
        ensures first { result.now.first ≡ self.now.first }
        ensures entries { result.now.entries ≡ self.now.entries }
        ensures lawful { Lawful self.now.first self.now.entries }
    {
        &self.log
    }

    /// The blocks that can be read from disk; none where the file isn't cached.
    pub fn stored(&self) -> &BlockSet
        ensures set { result.now ≡ self.now.stored }
        ensures members { (i : ℕ) → is_member result.now i ≡ stored self.now.first i self.now.entries }
        ensures bound { length result.now ≡ bound self.now.first }
    {
        self.sets.stored()
    }

    /// Why the file isn't cached, if it isn't.
    pub fn uncached(&self) -> Option<Uncached>
        ensures { result ≡ why_of self.now.first }
    {
        match self.log.start() {
            Start::Stored(_) => None,
            Start::Uncached(why) => Some(*why),
        }
    }

    pub fn known(&self) -> &Known<W>
        ensures path { result.now.path ≡ self.now.path }
        ensures size { result.now.size ≡ self.now.size }
    {
        self.shelf.known()
    }

    /// The block size in bytes.
    pub fn block_size(&self) -> u64
        ensures is { result ≡ self.now.block_size }
        ensures most { result ≤ 16777216 }
    {
        self.shelf.block_size()
    }

    pub fn instance(&self) -> u64
        ensures { result ≡ self.now.instance }
    {
        self.instance
    }

    /// A client opens the file at this moment, in seconds. The first who does begins an access.
    pub fn attach(&mut self, alloc: Global, n: u32, now: u64) -> Result<Stay<W>, Memory>
        ensures memory { OnErr result (self.new ≡ self.old) }
        ensures ok { IfOk result (λ stay. Attaches self.old n now stay self.new) }
    {
        let others = sum_of(self.readings.len(), self.pins.len(), self.disks.len())?;
        make_room(&mut self.log, &mut self.stays, others, &self.shelf)?;
        self.access.come_in(alloc, now, self.stays.len())?;
        let held = self.stays.add(n, 0, 0, 0);
        self.log.push(Entry::Opened { client: n });
        self.visited = self.log.len();
        Ok(Stay {
            tag: tag_of(self.instance, &self.shelf, held),
        })
    }

    /// A client closes the file at this moment, in seconds. The last who does ends the access.
    pub fn detach(&mut self, alloc: Global, stay: Stay<W>, now: u64) -> Result<(), Strayed<Stay<W>>>
        ensures ok { OnOk result (Detaches self.old now stay self.new) }
        ensures strayed { IfErr result (λ s. Strays self.old stay stay s self.new) }
    {
        let why = stranger(&stay.tag, self.instance);
        if !is_of(&stay.tag, self.instance, &self.shelf) {
            return Err(Strayed { token: stay, why });
        }
        let held = stay.tag.held;
        if !self.stays.take(held) {
            return Err(Strayed { token: stay, why });
        }
        self.log.push(Entry::Closed {
            client: held.client,
        });
        self.visited = self.log.len();
        self.access.go_out(alloc, now, self.stays.len());
        Ok(())
    }

    /// A client begins a read, whose end may be entered in the log.
    pub fn begin_read(&mut self, n: u32) -> Result<Reading<W>, Memory>
        ensures memory { OnErr result (self.new ≡ self.old) }
        ensures ok { IfOk result (λ reading. Begins self.old n reading self.new) }
    {
        let others = sum_of(self.stays.len(), self.pins.len(), self.disks.len())?;
        make_room(&mut self.log, &mut self.readings, others, &self.shelf)?;
        let held = self.readings.add(n, 0, 0, 0);
        Ok(Reading {
            tag: tag_of(self.instance, &self.shelf, held),
        })
    }

    /// Whether no token is out.
    pub fn quiet(&self) -> bool
        ensures exact { IsTrue result ↔ (self.now.out ≡ []) }
        ensures complete { IsTrue result → IsComplete self.now.first self.now.entries }
    {
        if self.loan.is_some() {
            return false;
        }
        if self.shelf.len() != 0 {
            return false;
        }
        all_zero(
            self.stays.len(),
            self.readings.len(),
            self.pins.len(),
            self.disks.len(),
        )
    }

    /// Ends a core of which no token is out.
    pub fn retire(self) -> Result<Retired, FileCore<W>>
        ensures ok { IfOk result (λ retired. (retired.log.first ≡ self.first) × (retired.log.entries ≡ self.entries) × (self.out ≡ []) × IsComplete self.first self.entries) }
        ensures err { IfErr result (λ core. (core ≡ self) × (self.out ≡ [] → ⊥)) }
    {
        if !self.quiet() {
            return Err(self);
        }
        let FileCore { log, .. } = self;
        Ok(Retired { log })
    }

    /// Hands out what the type keeps: each token that is out is this core's, and the block of each job that is out is in memory.
    pub fn own(&self)
        ensures own { sum_by (foreign self.now) self.now.out ≡ 0 }
        ensures jobs { AreJobs self.now }
    {
        let _all = self.shelf.len();
    }

    /// Hands out what the type keeps: the log is complete once no token is out.
    pub fn ends(&self)
        ensures { self.now.out ≡ [] → IsComplete self.now.first self.now.entries }
    {
        let _all = self.stays.len();
    }

    /// Hands out what the type keeps: one loan at most is out, and the sets are what the log says.
    pub fn keeps(&self)
        ensures loan { loans_out self.now.out ≤ 1 }
        ensures stored { (i : ℕ) → is_member self.now.stored i ≡ stored self.now.first i self.now.entries }
        ensures durable { (i : ℕ) → is_member self.now.durable i ≡ durable self.now.first i self.now.entries }
        ensures claimed { (i : ℕ) → is_member self.now.claimed i ≡ claimed self.now.first i self.now.entries }
        ensures bounds { (length self.now.stored ≡ bound self.now.first) × (length self.now.durable ≡ bound self.now.first) × (length self.now.claimed ≡ bound self.now.first) }
    {
        let _all = self.stays.len();
    }
}
