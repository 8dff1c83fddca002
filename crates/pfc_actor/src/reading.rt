// How a client reads.
ghost use Rattle.std.specs.Prelude.{◌≡◌, ◌<◌, ◌≤◌, ℕ, Some};
ghost use Rattle.pfc_core.specs.Marks.{Mark};
ghost use Rattle.pfc_client.specs.Session.{place_at};
ghost use Rattle.pfc_actor.specs.StageView as st;
ghost use Rattle.pfc_actor.specs.Seen.{seen};
ghost use Rattle.pfc_actor.specs.Stages.{AtWork};
ghost use Rattle.pfc_log.specs.Charges.{GrowsCalmly};
ghost use Rattle.pfc_actor.specs.Steps.{IsCaused, Knows, Own, Puts, Step};

use crate::book::Book;
use crate::stage::Stage;
use pfc_base::Part;
use pfc_client::Reply;
use pfc_core::{FileCore, Flight, Job, Leave, Line, Pin, Strayed, Ticket};
use pfc_log::{DropCause, Fell};
use pfc_read::{Action, Answer, Done, ReadOp, Saw};
use pfc_span::Pieces;
use pfc_world::{Origin, World};
use pfc_writer::WriteQueue;
use std::alloc::Global;

/// Plans the read.
pub(crate) fn plan<W: World, O: Origin<W>>(
    alloc: Global,
    book: &mut Book<W>,
    line: &Line<W, O>,
    core: &mut FileCore<W>,
    number: u64,
    pieces: Pieces,
) -> Stage<W>
    requires work { AtWork book.old (st.Planning number pieces) }
    requires knows { Knows book.old (st.Planning number pieces) core.old }
    requires here { (stay : Mark) → place_at book.old.stays number ≡ Some stay → stay.instance ≡ core.old.instance }
    requires least { 4096 ≤ core.old.block_size }
    requires caused { IsCaused book.old line.now (st.Planning number pieces) }
    ensures work { AtWork book.new (seen result) }
    ensures caused { IsCaused book.new line.now (seen result) }
    ensures step { Step book.old line.now (st.Planning number pieces) core.old book.new line.now (seen result) core.new }
    ensures calm { GrowsCalmly core.old.entries core.new.entries }
{
    match ReadOp::plan(alloc, core, book.number(), pieces) {
        Ok(op) => Stage::Reading(op),
        Err(_) => {
            book.reply(Reply::Memory);
            Stage::Rest
        }
    }
}

/// Runs a flight of the read.
fn run<W: World, O: Origin<W>>(
    alloc: Global,
    book: &Book<W>,
    line: &mut Line<W, O>,
    core: &mut FileCore<W>,
    mut op: ReadOp<W>,
    ticket: Ticket<W>,
) -> Stage<W>
    requires work { AtWork book.now (st.Running op ticket) }
    requires knows { Knows book.now (st.Running op ticket) core.old }
    requires here { op.reading.instance ≡ core.old.instance }
    requires caused { IsCaused book.now line.old (st.Running op ticket) }
    ensures work { AtWork book.now (seen result) }
    ensures caused { IsCaused book.now line.new (seen result) }
    ensures step { Step book.now line.old (st.Running op ticket) core.old book.now line.new (seen result) core.new }
    ensures calm { GrowsCalmly core.old.entries core.new.entries }
{
    match line.run(alloc, ticket) {
        Flight::Landed(ticket, twin) => match core.land(ticket, twin) {
            Ok(job) => {
                let _log = core.log();
                op.supply(Done::Landed);
                Stage::Landed(op, job)
            }
            Err(Strayed { token, why: _ }) => {
                let (ticket, _twin) = token;
                ticket.discard();
                op.supply(Done::Landed);
                Stage::Reading(op)
            }
        },
        Flight::Fault(ticket) => match core.fail(ticket, Fell::Fault) {
            Ok(()) => {
                op.supply(Done::Failed(Fell::Fault));
                Stage::Reading(op)
            }
            Err(Strayed { token, why: _ }) => {
                token.discard();
                op.supply(Done::Failed(Fell::Fault));
                Stage::Reading(op)
            }
        },
        Flight::Memory(ticket) => match core.fail(ticket, Fell::Memory) {
            Ok(()) => {
                op.supply(Done::Failed(Fell::Memory));
                Stage::Reading(op)
            }
            Err(Strayed { token, why: _ }) => {
                token.discard();
                op.supply(Done::Failed(Fell::Memory));
                Stage::Reading(op)
            }
        },
    }
}

/// Makes a direct read.
fn direct<W: World, O: Origin<W>>(
    book: &Book<W>,
    line: &mut Line<W, O>,
    mut op: ReadOp<W>,
    leave: Leave<W>,
) -> Stage<W>
    requires work { AtWork book.now (st.Directing op leave) }
    requires caused { IsCaused book.now line.old (st.Directing op leave) }
    ensures work { AtWork book.now (seen result) }
    ensures caused { IsCaused book.now line.new (seen result) }
    ensures step { Own book.now line.old (st.Directing op leave) book.now line.new (seen result) }
{
    match op.direct(line, leave) {
        Ok(()) => Stage::Reading(op),
        Err(_) => Stage::Reading(op),
    }
}

/// Looks for a block.
fn look<W: World, O: Origin<W>>(
    book: &Book<W>,
    line: &Line<W, O>,
    core: &mut FileCore<W>,
    mut op: ReadOp<W>,
    pin: Pin<W>,
    part: Part,
) -> Stage<W>
    requires work { AtWork book.now (st.Looking op pin part) }
    requires knows { Knows book.now (st.Looking op pin part) core.old }
    requires here { op.reading.instance ≡ core.old.instance }
    requires caused { IsCaused book.now line.now (st.Looking op pin part) }
    ensures work { AtWork book.now (seen result) }
    ensures caused { IsCaused book.now line.now (seen result) }
    ensures step { Step book.now line.now (st.Looking op pin part) core.old book.now line.now (seen result) core.new }
    ensures calm { GrowsCalmly core.old.entries core.new.entries }
{
    match op.look(core, pin, part) {
        Saw::Flying => Stage::Reading(op),
        Saw::Ready => Stage::Reading(op),
        Saw::Lost => Stage::Reading(op),
        Saw::Own => Stage::Reading(op),
        Saw::Stray => Stage::Reading(op),
    }
}

/// Ends the read with its reply.
fn finish<W: World, O: Origin<W>>(
    book: &mut Book<W>,
    line: &Line<W, O>,
    core: &mut FileCore<W>,
    op: ReadOp<W>,
) -> Stage<W>
    requires work { AtWork book.old (st.Ending op) }
    requires knows { Knows book.old (st.Ending op) core.old }
    requires here { op.reading.instance ≡ core.old.instance }
    requires caused { IsCaused book.old line.now (st.Ending op) }
    ensures work { AtWork book.new (seen result) }
    ensures caused { IsCaused book.new line.now (seen result) }
    ensures step { Step book.old line.now (st.Ending op) core.old book.new line.now (seen result) core.new }
    ensures calm { GrowsCalmly core.old.entries core.new.entries }
{
    op.keeps();
    match op.finish(core) {
        Answer::Bytes {
            bytes,
            pieces,
            size,
            served: _,
        } => {
            book.reply(Reply::of_bytes(pieces, size, bytes));
            Stage::Rest
        }
        Answer::Fetch => {
            book.reply(Reply::Fetch);
            Stage::Rest
        }
        Answer::Memory => {
            book.reply(Reply::Memory);
            Stage::Rest
        }
    }
}

/// Makes the next action of the read.
pub(crate) fn act<W: World, O: Origin<W>>(
    alloc: Global,
    book: &mut Book<W>,
    line: &mut Line<W, O>,
    core: &mut FileCore<W>,
    mut op: ReadOp<W>,
) -> Stage<W>
    requires work { AtWork book.old (st.Reading op) }
    requires knows { Knows book.old (st.Reading op) core.old }
    requires here { op.reading.instance ≡ core.old.instance }
    requires caused { IsCaused book.old line.old (st.Reading op) }
    ensures work { AtWork book.new (seen result) }
    ensures caused { IsCaused book.new line.new (seen result) }
    ensures step { Step book.old line.old (st.Reading op) core.old book.new line.new (seen result) core.new }
    ensures calm { GrowsCalmly core.old.entries core.new.entries }
{
    match op.next() {
        Action::Run(ticket) => run(alloc, book, line, core, op, ticket),
        Action::Direct(leave) => direct(book, line, op, leave),
        Action::Look(pin, part) => look(book, line, core, op, pin, part),
        Action::Disk(disk, part) => Stage::Loading(op, disk, part),
        Action::Finish => finish(book, line, core, op),
    }
}

/// Puts a landed block to the queue, where it has room.
pub(crate) fn put<W: World, O: Origin<W>>(
    book: &Book<W>,
    line: &Line<W, O>,
    op: ReadOp<W>,
    job: Job<W>,
    queue: &mut WriteQueue<W>,
) -> Stage<W>
    requires work { AtWork book.now (st.Landed op job) }
    requires caused { IsCaused book.now line.now (st.Landed op job) }
    ensures work { AtWork book.now (seen result) }
    ensures caused { IsCaused book.now line.now (seen result) }
    ensures puts { Puts book.now line.now (st.Landed op job) queue.old book.now line.now (seen result) queue.new }
{
    match queue.put(job) {
        Ok(()) => Stage::Reading(op),
        Err(job) => Stage::Full(op, job, queue.capacity()),
    }
}

/// Drops the block for which the queue had no room, with so many jobs in it.
pub(crate) fn drop_full<W: World, O: Origin<W>>(
    book: &Book<W>,
    line: &Line<W, O>,
    core: &mut FileCore<W>,
    op: ReadOp<W>,
    job: Job<W>,
    capacity: u32,
) -> Stage<W>
    requires work { AtWork book.now (st.Full op job capacity) }
    requires knows { Knows book.now (st.Full op job capacity) core.old }
    requires here { op.reading.instance ≡ core.old.instance }
    requires caused { IsCaused book.now line.now (st.Full op job capacity) }
    ensures work { AtWork book.now (seen result) }
    ensures caused { IsCaused book.now line.now (seen result) }
    ensures step { Step book.now line.now (st.Full op job capacity) core.old book.now line.now (seen result) core.new }
    ensures calm { GrowsCalmly core.old.entries core.new.entries }
{
    match core.drop_job(job, DropCause::Full { capacity }) {
        Ok(()) => Stage::Reading(op),
        Err(Strayed { token, why: _ }) => {
            drop(token);
            Stage::Reading(op)
        }
    }
}
