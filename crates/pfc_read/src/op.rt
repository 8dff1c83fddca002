// One read, from its plan to its end.
ghost use Rattle.std.specs.Prelude.{◌≡◌, ◌<◌, ◌≤◌, ◌^◌, [], map, length, vec_len, OnErr, IfOk};
ghost use Rattle.pfc_span.specs.Pieces.{pieces_in, asked_of, total_of};
ghost use Rattle.pfc_span.specs.Tiling.{TileInTurn};
ghost use Rattle.pfc_read.specs.OpView.{Nothing, ToRun, first_met};
ghost use Rattle.pfc_read.specs.Plans.{Plans};
ghost use Rattle.pfc_read.specs.Steps.{Gives, Supplies};

mod disk;
mod end;
mod fill;

use crate::action::{Action, Done};
use crate::draft::Draft;
use crate::segment::{Counts, Found, Hand, Owed, Pending};
use pfc_base::{Memory, Part, Piece};
use pfc_core::{FileCore, OnDisk, Pin, Reading, Ticket};
use pfc_log::{Fell, Served};
use pfc_span::{Pieces, parts, total};
use pfc_world::World;
use std::alloc::{AllocError, Global};
use std::marker::Model;

/// One client's read of pieces of a file, whose reply is their bytes, one behind the other. It tells what is to be done next, one action at a time, and is told what came
/// of it, until it ends. It must be ended by `finish`.
pub struct ReadOp<W: World> {
    pieces: Pieces,
    /// The file's, for the answer.
    size: u64,
    reading: Reading<W>,
    bytes: Vec<u8>,
    tickets: Vec<Ticket<W>>,
    pendings: Vec<Pending<W>>,
    pins: Vec<Pin<W>>,
    disks: Vec<Found<W>>,
    /// Empty until the end: the room for the rights to read from disk that go back to the core.
    unread: Vec<OnDisk<W>>,
    owed: Vec<Owed<W>>,
    hand: Hand,
    counts: Counts,
    served: Served,
    met: Option<Fell>,
}

impl<W: World> Model for ReadOp<W> {
    ghost use Rattle.pfc_read.specs.OpView.{OpView};

    ghost Value = { OpView };

    ghost use Rattle.pfc_read.specs.Kept.{view_of, IsKept};

    ghost view = { view_of };

    ghost invariant = { λ s. IsKept W.told W.files s };
}

/// So many bytes. The count is a parameter, so that no proof unfolds it.
fn zeros(alloc: Global, len: usize) -> Result<Vec<u8>, AllocError>
    ensures { IfOk result (λ bytes. vec_len bytes ≡ len) }
{
    vec![in alloc; 0u8; len]
}

/// The parts of these pieces, and their reply, to be filled.
fn lay_out(
    alloc: Global,
    pieces: &[Piece],
    size: u64,
    k: u64,
) -> Result<(Vec<(u32, Part)>, Vec<u8>), Memory>
    requires pieces { asked_of pieces.now ≤ 16777216 }
    requires few { length pieces.now ≤ 1024 }
    requires size { size < 2 ^ 44 }
    requires least { 4096 ≤ k }
    requires most { k ≤ 16777216 }
    ensures parts { IfOk result (λ r. TileInTurn size k pieces.now (map (λ x. x.1) r.0.items)) }
    ensures bytes { IfOk result (λ r. vec_len r.1 ≡ total_of size pieces.now) }
    ensures within { IfOk result (λ r. vec_len r.1 ≤ 16777216) }
{
    let parts = parts(alloc, pieces, size, k)?;
    let len = total(pieces, size);
    let bytes = zeros(alloc, len as usize)?;
    Ok((parts, bytes))
}

/// The first that came.
fn first(met: Option<Fell>, why: Fell) -> Option<Fell>
    ensures { result ≡ first_met met why }
{
    match met {
        None => Some(why),
        Some(first) => Some(first),
    }
}

impl<W: World> ReadOp<W> {
    /// A read of pieces for a client. Their parts are asked for piece by piece and in the order of the file; where memory is
    /// refused after the first was asked for, the read goes on to its end and answers so. All that it needs later is taken
    /// here.
    pub fn plan(
        alloc: Global,
        core: &mut FileCore<W>,
        n: u32,
        pieces: Pieces,
    ) -> Result<ReadOp<W>, Memory>
        requires pieces { asked_of (pieces_in pieces) ≤ 16777216 }
        requires least { 4096 ≤ core.old.block_size }
        ensures memory { OnErr result (core.new ≡ core.old) }
        ensures ok { IfOk result (λ op. Plans core.old n pieces op core.new) }
    {
        let size = core.known().size();
        let (parts, bytes) = lay_out(alloc, pieces.as_slice(), size, core.block_size())?;
        let pins = Vec::with_capacity(alloc, parts.len())?;
        let mut draft = Draft::new(alloc, parts.len())?;
        let Ok(unread) = Vec::with_capacity(alloc, parts.len()) else {
            draft.discard();
            return Err(Memory);
        };
        let Ok(reading) = core.begin_read(n) else {
            unread.destroy_empty();
            draft.discard();
            return Err(Memory);
        };
        let met = draft.ask_all(core, n, &parts);
        let Draft {
            tickets,
            pendings,
            disks,
            owed,
            counts,
        } = draft;
        Ok(ReadOp {
            pieces,
            size,
            reading,
            bytes,
            tickets,
            pendings,
            pins,
            disks,
            unread,
            owed,
            hand: Hand::Nothing,
            counts,
            served: Served {
                hit: 0,
                missed: 0,
                bypassed: 0,
            },
            met,
        })
    }

    /// The number of the core that the read is of.
    pub fn instance(&self) -> u64
        ensures { result ≡ self.now.reading.instance }
    {
        self.reading.instance()
    }

    /// The next action.
    pub fn next(&mut self) -> Action<W>
        requires { self.old.given ≡ Nothing }
        ensures { Gives self.old result self.new }
    {
        if let Some(ticket) = self.tickets.pop() {
            self.hand = Hand::Ticket;
            return Action::Run(ticket);
        }
        if let Some(owed) = self.owed.pop() {
            let Owed { leave, segment } = owed;
            self.hand = Hand::Leave(segment);
            return Action::Direct(leave);
        }
        self.next_part()
    }

    /// The next action where no ticket and no leave is to be given any more.
    fn next_part(&mut self) -> Action<W>
        requires idle { self.old.given ≡ Nothing }
        requires flown { self.old.tickets ≡ [] }
        requires filled { self.old.leaves ≡ 0 }
        ensures { Gives self.old result self.new }
    {
        if self.counts.failed > 0 {
            self.hand = Hand::End;
            return Action::Finish;
        }
        if let Some(pending) = self.pendings.pop() {
            let Pending { pin, segment } = pending;
            self.hand = Hand::Pin(segment);
            return Action::Look(pin, segment.part);
        }
        if let Some(found) = self.disks.pop() {
            let Found { disk, segment } = found;
            self.hand = Hand::Disk(segment);
            return Action::Disk(disk, segment.part);
        }
        self.hand = Hand::End;
        Action::Finish
    }

    /// Tells how a flight of the read ended.
    pub fn supply(&mut self, done: Done)
        requires { self.old.given ≡ ToRun }
        ensures { Supplies self.old done self.new }
    {
        self.hand = Hand::Nothing;
        if let Done::Failed(why) = done {
            self.counts.failed += 1;
            self.met = first(self.met, why);
        }
    }
}
