// The end of a read.
ghost use Rattle.std.specs.Prelude.{◌≡◌, ◌+◌, ◌≤◌, ◌<◌, ℕ, [], ◌++◌, length, map, reverse, vec_capacity, OnOk, All, Some, IsTrue, ◌↔◌};
ghost use Rattle.pfc_log.specs.declared.entry.Fell.TheVariants as fell;
ghost use Rattle.pfc_span.specs.Pieces.{pieces_in, asked_of};
ghost use Rattle.pfc_world.specs.Files.{HasSize};
ghost use Rattle.pfc_core.specs.Marks.{TicketKind, PinKind, DiskKind};
ghost use Rattle.pfc_read.specs.OpView.{ToEnd};
ghost use Rattle.pfc_read.specs.Segments.{pin_in, disk_in};
ghost use Rattle.pfc_read.specs.Steps.{IsTokenOf};
ghost use Rattle.pfc_read.specs.Ends.{Answers, EndsRead, GivesBack, op_len, served_in};

use super::ReadOp;
use crate::action::Answer;
use crate::segment::{Found, Owed, Pending};
use pfc_core::{FileCore, OnDisk, Pin, Reading, Strayed, Ticket};
use pfc_log::{Fell, Served};
use pfc_world::World;

/// The pins that were looked at, and then those that weren't.
fn gather<W: World>(mut pins: Vec<Pin<W>>, mut pendings: Vec<Pending<W>>) -> Vec<Pin<W>>
    requires { length pins.items + length pendings.items ≤ vec_capacity pins }
    ensures { result.items ≡ pins.items ++ map pin_in (reverse pendings.items) }
{
    while let Some(pending) = pendings.pop() {
        let Pending { pin, segment: _ } = pending;
        pins.push_reserved(pin);
    }
    pins
}

/// The rights to read from disk that weren't used.
fn gather_disks<W: World>(mut unread: Vec<OnDisk<W>>, mut disks: Vec<Found<W>>) -> Vec<OnDisk<W>>
    requires { length unread.items + length disks.items ≤ vec_capacity unread }
    ensures { result.items ≡ unread.items ++ map disk_in (reverse disks.items) }
{
    while let Some(found) = disks.pop() {
        let Found { disk, segment: _ } = found;
        unread.push_reserved(disk);
    }
    disks.destroy_empty();
    unread
}

/// Ends tickets that no core takes.
fn discard_all<W: World>(mut tickets: Vec<Ticket<W>>) {
    while let Some(ticket) = tickets.pop() {
        ticket.discard();
    }
    tickets.destroy_empty();
}

/// Ends rights to read from disk that no core takes.
fn discard_disks<W: World>(mut disks: Vec<OnDisk<W>>) {
    while let Some(disk) = disks.pop() {
        disk.discard();
    }
    disks.destroy_empty();
}

/// Ends leaves by which nothing is read.
fn discard_owed<W: World>(mut owed: Vec<Owed<W>>) {
    while let Some(one) = owed.pop() {
        one.discard();
    }
    owed.destroy_empty();
}

/// Ends a reading with its entry, and gives back the pins and what wasn't read from disk.
fn give_back<W: World>(
    core: &mut FileCore<W>,
    reading: Reading<W>,
    mut pins: Vec<Pin<W>>,
    mut disks: Vec<OnDisk<W>>,
    served: Option<Served>,
)
    ensures { GivesBack core.old reading pins.items disks.items served core.new }
{
    match core.finish(reading, &mut pins, &mut disks, served) {
        Ok(()) => disks.destroy_empty(),
        Err(Strayed { token, why: _ }) => {
            token.discard();
            discard_disks(disks);
        }
    }
}

impl<W: World> ReadOp<W> {
    /// Hands out what the type keeps.
    pub fn keeps(&self)
        ensures tickets { All (IsTokenOf self.now.reading TicketKind) self.now.tickets }
        ensures pins { All (IsTokenOf self.now.reading PinKind) self.now.pins }
        ensures disks { All (IsTokenOf self.now.reading DiskKind) self.now.disks }
        ensures least { 4096 ≤ self.now.reading.block_size }
        ensures most { self.now.reading.block_size ≤ 16777216 }
        ensures short { asked_of (pieces_in self.now.pieces) ≤ 16777216 }
        ensures right { HasSize W.told W.files self.now.reading.path self.now.reading.size }
        ensures few { self.now.failed ≤ asked_of (pieces_in self.now.pieces) }
        ensures hurt { 0 < self.now.failed → self.now.met ≡ None → ⊥ }
        ensures fetch { self.now.met ≡ Some fell.Fault → 0 < op_len self.now }
    {
        let _len = self.pins.len();
    }

    /// Whether it has a ticket that wasn't given yet.
    pub fn has_ticket(&self) -> bool
        ensures { IsTrue result ↔ (0 < length self.now.tickets) }
    {
        !self.tickets.is_empty()
    }

    /// Ends a read that no core takes.
    pub fn discard(self) {
        let ReadOp {
            pieces: _,
            size: _,
            reading,
            bytes: _,
            tickets,
            pendings: _,
            pins: _,
            disks,
            unread,
            owed,
            hand: _,
            counts: _,
            served: _,
            met: _,
        } = self;
        discard_all(tickets);
        discard_disks(gather_disks(unread, disks));
        discard_owed(owed);
        reading.discard();
    }

    /// Ends the read: its reading, its pins and its rights to read from disk go back to the core, with an entry of what it
    /// brought.
    pub fn finish(self, core: &mut FileCore<W>) -> Answer
        requires { self.given ≡ ToEnd }
        ensures answer { Answers W.told W.files self result }
        ensures core { EndsRead core.old self (served_in result) core.new }
        ensures right { HasSize W.told W.files self.reading.path self.reading.size }
    {
        let ReadOp {
            pieces,
            size,
            reading,
            bytes,
            tickets,
            pendings,
            pins,
            disks,
            unread,
            owed,
            hand: _,
            counts: _,
            served,
            met,
        } = self;
        tickets.destroy_empty();
        owed.destroy_empty();
        let pins = gather(pins, pendings);
        let disks = gather_disks(unread, disks);
        match met {
            None => {
                give_back(core, reading, pins, disks, Some(served));
                Answer::Bytes {
                    bytes,
                    pieces,
                    size,
                    served,
                }
            }
            Some(Fell::Fault) => {
                give_back(core, reading, pins, disks, None);
                Answer::Fetch
            }
            Some(Fell::Memory) => {
                give_back(core, reading, pins, disks, None);
                Answer::Memory
            }
        }
    }
}
