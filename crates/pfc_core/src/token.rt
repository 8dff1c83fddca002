// Tokens: what a core gives out, and takes back once. Contracts see each as its mark. Those that must be spent can't be
// dropped; `discard` ends one that no core takes.
ghost use Rattle.std.specs.Prelude.{◌≡◌, ◌<◌, ◌≤◌, ℕ, MatchBool, IfOk};
ghost use Rattle.pfc_world.specs.Files.{HasSize};
ghost use Rattle.pfc_core.specs.Out.{Home, mark_in};
ghost use Rattle.pfc_core.specs.Tags.{mark_of, IsAt};
ghost use Rattle.pfc_core.specs.Homes.{home_of};
ghost use Rattle.pfc_core.specs.Blocks.{block_view, block_at};

use crate::held::Held;
use crate::leave::Leave;
use crate::shelf::Shelf;
use crate::tag::Tag;
use pfc_base::Memory;
use pfc_log::{Mark, Stranger};
use pfc_world::{Block, Known, World};
use std::alloc::Global;
use std::marker::Model;
use std::sync::Arc;

/// The tag of what a core keeps.
pub(crate) fn tag_of<W: World>(instance: u64, shelf: &Shelf<W>, held: Held) -> Tag<W>
    requires some { 0 < shelf.now.block_size }
    requires most { shelf.now.block_size ≤ 16777216 }
    ensures at { IsAt (home_of instance shelf.now) result }
    ensures held { result.held ≡ held }
{
    Tag {
        instance,
        known: shelf.known().copy(),
        block_size: shelf.block_size(),
        held,
    }
}

/// Whether the core of this number and file gave the tag out.
pub(crate) fn is_of<W: World>(tag: &Tag<W>, instance: u64, shelf: &Shelf<W>) -> bool
    ensures { MatchBool result (IsAt (home_of instance shelf.now) tag.now) (IsAt (home_of instance shelf.now) tag.now → ⊥) }
{
    if tag.instance != instance {
        return false;
    }
    if tag.block_size != shelf.block_size() {
        return false;
    }
    if shelf.known().same(&tag.known) {
        return true;
    }
    false
}

/// The report that a core of this number doesn't know the token.
pub(crate) fn stranger<W: World>(tag: &Tag<W>, instance: u64) -> Stranger
    ensures { result ≡ record { token = record { instance = tag.now.instance; number = tag.now.held.number }; instance = instance } }
{
    Stranger {
        token: Mark {
            instance: tag.instance,
            number: tag.held.number,
        },
        instance,
    }
}

/// A client's stay in a file, from its open to its close.
#[derive(Drop)]
pub struct Stay<W: World> {
    pub(crate) tag: Tag<W>,
}

impl<W: World> Model for Stay<W> {
    ghost use Rattle.pfc_core.specs.Marks.{Mark, StayKind};
    ghost use Rattle.pfc_core.specs.Tags.{mark_of};

    ghost Value = { Mark };

    ghost view = { λ t. mark_of StayKind t.tag };
}

impl<W: World> Stay<W> {
    /// The number of the core that gave it out.
    pub fn instance(&self) -> u64
        ensures { result ≡ self.now.instance }
    {
        self.tag.instance
    }

    /// The size of the file in bytes.
    pub fn size(&self) -> u64
        ensures size { result ≡ self.now.size }
        ensures right { HasSize W.told W.files self.now.path self.now.size }
    {
        self.tag.known.size()
    }
}

/// The right to one `served` entry. It must be spent.
pub struct Reading<W: World> {
    pub(crate) tag: Tag<W>,
}

impl<W: World> Model for Reading<W> {
    ghost use Rattle.pfc_core.specs.Marks.{Mark, ReadingKind};
    ghost use Rattle.pfc_core.specs.Tags.{mark_of};

    ghost Value = { Mark };

    ghost view = { λ t. mark_of ReadingKind t.tag };
}

impl<W: World> Reading<W> {
    /// The number of the core that gave it out.
    pub fn instance(&self) -> u64
        ensures { result ≡ self.now.instance }
    {
        self.tag.instance
    }

    pub fn discard(self) {
        let Reading { tag } = self;
        drop(tag);
    }
}

/// The right to land a flight, or to fail it. It must be spent.
pub struct Ticket<W: World> {
    pub(crate) tag: Tag<W>,
}

impl<W: World> Model for Ticket<W> {
    ghost use Rattle.std.specs.Prelude.{◌<◌};
    ghost use Rattle.pfc_base.specs.Block.{count_of};
    ghost use Rattle.pfc_core.specs.Marks.{Mark, TicketKind};
    ghost use Rattle.pfc_core.specs.Tags.{mark_of};

    ghost Value = { Mark };

    ghost view = { λ t. mark_of TicketKind t.tag };

    ghost invariant = { λ t. t.tag.held.block < count_of t.tag.known.size t.tag.block_size };
}

impl<W: World> Ticket<W> {
    pub fn discard(self) {
        let Ticket { tag } = self;
        drop(tag);
    }
}

/// A client's hold on a block, or on the flight that is to bring it.
#[derive(Drop)]
pub struct Pin<W: World> {
    pub(crate) tag: Tag<W>,
}

impl<W: World> Model for Pin<W> {
    ghost use Rattle.pfc_core.specs.Marks.{Mark, PinKind};
    ghost use Rattle.pfc_core.specs.Tags.{mark_of};

    ghost Value = { Mark };

    ghost view = { λ t. mark_of PinKind t.tag };
}

/// Two owners of one block.
#[derive(Drop)]
pub struct Twin<W: World> {
    pub(crate) one: Arc<Block<W>>,
    pub(crate) other: Arc<Block<W>>,
}

impl<W: World> Model for Twin<W> {
    ghost use Rattle.std.specs.Arc.{arc_value};
    ghost use Rattle.pfc_core.specs.Blocks.{BlockView, block_view};

    ghost Value = { BlockView };

    ghost use Rattle.std.specs.Prelude.{◌≡◌};

    ghost view = { λ t. block_view (arc_value t.one) };

    ghost invariant = { λ t. block_view (arc_value t.other) ≡ block_view (arc_value t.one) };
}

impl<W: World> Twin<W> {
    pub(crate) fn of(alloc: Global, block: Block<W>) -> Result<Twin<W>, Memory>
        ensures { IfOk result (λ twin. twin ≡ block_view block) }
    {
        let Ok(one) = Arc::new(alloc, block) else {
            return Err(Memory);
        };
        let other = Arc::try_clone(&one)?;
        Ok(Twin { one, other })
    }
}

/// A landed block that is to be written.
#[derive(Drop)]
pub struct Job<W: World> {
    pub(crate) tag: Tag<W>,
    pub(crate) block: Arc<Block<W>>,
}

impl<W: World> Model for Job<W> {
    ghost use Rattle.std.specs.Prelude.{◌≡◌};
    ghost use Rattle.std.specs.Arc.{arc_value};
    ghost use Rattle.pfc_core.specs.Blocks.{block_view, block_at};
    ghost use Rattle.pfc_core.specs.Marks.{Mark, JobKind};
    ghost use Rattle.pfc_core.specs.Tags.{mark_of};

    ghost Value = { Mark };

    ghost view = { λ t. mark_of JobKind t.tag };

    ghost invariant = { λ t. block_view (arc_value t.block) ≡ block_at (mark_of JobKind t.tag) };
}

impl<W: World> Job<W> {
    /// The number of the core that gave it out.
    pub fn instance(&self) -> u64
        ensures { result ≡ self.now.instance }
    {
        self.tag.instance
    }

    /// The block, which is the job's.
    pub fn block(&self) -> &Block<W>
        ensures { block_view result.now ≡ block_at self.now }
    {
        &self.block
    }
}

/// The right to read parts of one block from disk. It must be spent: the core takes it back by `end_disk`, or by
/// `leave_broken` where the disk failed.
pub struct OnDisk<W: World> {
    pub(crate) tag: Tag<W>,
}

impl<W: World> Model for OnDisk<W> {
    ghost use Rattle.pfc_core.specs.Marks.{Mark, DiskKind};
    ghost use Rattle.pfc_core.specs.Tags.{mark_of};

    ghost Value = { Mark };

    ghost view = { λ t. mark_of DiskKind t.tag };
}

impl<W: World> OnDisk<W> {
    /// The file.
    pub fn known(&self) -> &Known<W>
        ensures path { result.now.path ≡ self.now.path }
        ensures size { result.now.size ≡ self.now.size }
    {
        &self.tag.known
    }

    /// The block size in bytes.
    pub fn block_size(&self) -> u64
        ensures { result ≡ self.now.block_size }
    {
        self.tag.block_size
    }

    /// The number of the block.
    pub fn block(&self) -> u32
        ensures { result ≡ self.now.block }
    {
        self.tag.held.block
    }

    pub fn discard(self) {
        let OnDisk { tag } = self;
        drop(tag);
    }
}

/// How a part of a block is read: straight from the origin, since the file isn't cached; from memory; once a flight landed
/// that is out already; from disk; or once a new flight landed.
pub enum Decision<W: World> {
    Direct(Leave<W>),
    Resident(Pin<W>),
    Joined(Pin<W>),
    Stored(OnDisk<W>),
    Fetch(Ticket<W>, Pin<W>),
}

/// The core doesn't know the token, which comes back.
pub struct Strayed<T> {
    pub token: T,
    pub why: Stranger,
}
