// A client's line to the origin: the only calls that its flights and its direct reads make.
ghost use Rattle.std.specs.Prelude.{◌≡◌, ◌+◌, ◌*◌, ◌<◌, ◌≤◌, ◌⊎◌, length, IsTrue, IfOk, IfSome, OnOk, option_map};
ghost use Rattle.pfc_world.specs.Files.{Holds, size_at};
ghost use Rattle.pfc_world.specs.Counts.{HasCause, add_count};
ghost use Rattle.pfc_core.specs.Blocks.{block_view};
ghost use Rattle.pfc_core.specs.Line.{Runs, LandsOr};

use crate::leave::Leave;
use crate::token::{Ticket, Twin};
use pfc_base::Path;
use pfc_world::{Block, Fault, Known, Origin, Refusal, World};
use std::alloc::Global;
use std::marker::{Model, PhantomData};

/// How a flight went. The ticket comes back, for the core.
pub enum Flight<W: World> {
    /// The origin gave the block.
    Landed(Ticket<W>, Twin<W>),
    /// The call failed.
    Fault(Ticket<W>),
    /// Memory was refused, before the call or after it.
    Memory(Ticket<W>),
}

/// A link to the origin that only fetches what a ticket or a leave is for.
#[derive(Drop)]
pub struct Line<W: World, O: Origin<W>> {
    link: O,
    world: PhantomData<W>,
}

impl<W: World, O: Origin<W>> Model for Line<W, O> {
    ghost use Rattle.pfc_core.specs.LineView.{LineView};

    ghost Value = { LineView };

    ghost view = { λ l. record { number = O.number l.link; calls = O.calls l.link; faults = O.faults l.link } };
}

impl<W: World, O: Origin<W>> Line<W, O> {
    pub fn new(link: O) -> Line<W, O>
        ensures { result ≡ record { number = O.number link; calls = O.calls link; faults = O.faults link } }
    {
        Line {
            link,
            world: PhantomData,
        }
    }

    /// Asks for the size of the path's file, by one call; `None` where the origin has no such file.
    pub fn stat(&mut self, path: &Path) -> Result<Option<Known<W>>, Fault>
        ensures number { self.new.number ≡ self.old.number }
        ensures calls { self.new.calls ≡ add_count self.old.calls 1 }
        ensures cause { HasCause self.old.faults self.new.faults result }
        ensures path { IfOk result (λ found. IfSome found (λ known. known.path ≡ path.now)) }
        ensures told { IsTrue W.told → IfOk result (λ found. option_map (λ known. known.size) found ≡ size_at W.files path.now) }
    {
        Known::ask(&mut self.link, path)
    }

    /// Fetches the block that a ticket is for, by one call.
    pub fn run(&mut self, alloc: Global, ticket: Ticket<W>) -> Flight<W>
        ensures { Runs self.old ticket result self.new }
    {
        let tag = &ticket.tag;
        let fetched = Block::fetch(
            alloc,
            &mut self.link,
            &tag.known,
            tag.block_size,
            tag.held.block,
        );
        match fetched {
            Ok(block) => landed(alloc, ticket, block),
            Err(Refusal::Fault) => Flight::Fault(ticket),
            Err(Refusal::Memory) => Flight::Memory(ticket),
        }
    }

    /// Reads the part that a leave is for straight from the origin, by one call.
    pub fn direct(&mut self, leave: Leave<W>, into: &mut [u8]) -> Result<(), Fault>
        requires { length into.old ≡ leave.part.len }
        ensures number { self.new.number ≡ self.old.number }
        ensures calls { self.new.calls ≡ add_count self.old.calls 1 }
        ensures cause { HasCause self.old.faults self.new.faults result }
        ensures ok { OnOk result (Holds W.told W.files leave.path (leave.part.block * leave.block_size + leave.part.from) into.new) }
        ensures length { length into.new ≡ length into.old }
    {
        let at = u64::from(leave.part.block) * leave.block_size + u64::from(leave.part.from);
        let answer = self.link.fetch(leave.known.path(), at, into);
        leave.discard();
        answer
    }

    /// Hands the link back.
    pub fn end(self) -> O
        ensures number { O.number result ≡ self.number }
        ensures calls { O.calls result ≡ self.calls }
        ensures faults { O.faults result ≡ self.faults }
    {
        let Line { link, .. } = self;
        link
    }
}

/// The flight of a block that the origin gave.
fn landed<W: World>(alloc: Global, ticket: Ticket<W>, block: Block<W>) -> Flight<W>
    ensures { LandsOr ticket (block_view block) result }
{
    match Twin::of(alloc, block) {
        Ok(twin) => Flight::Landed(ticket, twin),
        Err(_) => Flight::Memory(ticket),
    }
}
