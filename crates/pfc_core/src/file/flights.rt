// Flights: how a part is read, and how the fetch of a block ends.
ghost use Rattle.std.specs.Prelude.{◌≡◌, ◌+◌, ◌-◌, ◌++◌, ◌∷◌, [], ◌<◌, ◌≤◌, ◌^◌, ℕ, Some, IfOk, OnOk, OnErr, IfErr};
ghost use Rattle.pfc_base.specs.Block.{count_of, IsPartOf};
ghost use Rattle.pfc_core.specs.Blocks.{block_at};
ghost use Rattle.pfc_core.specs.Calls.{Decides, Lands, Fails, Strays};
ghost use Rattle.pfc_core.specs.Homes.{home_of};
ghost use Rattle.pfc_core.specs.Pinned.{PinnedBy, found_by};
ghost use Rattle.pfc_core.specs.Slots.{slot_of, Changes, bumped};

use super::{FileCore, make_room, sum_of};
use crate::held::{Held, Tokens};
use crate::leave::leave_at;
use crate::shelf::Shelf;
use crate::slot::Slot;
use crate::token::{Decision, Job, OnDisk, Pin, Strayed, Ticket, Twin, is_of, stranger, tag_of};
use pfc_base::{Memory, Part};
use pfc_log::{Entry, Fell, FileLog, Spot, Way};
use pfc_world::World;

/// Pins a client on a block that is in memory or in flight.
fn pin_on<W: World>(
    instance: u64,
    log: &mut FileLog,
    pins: &mut Tokens,
    shelf: &mut Shelf<W>,
    n: u32,
    slot: Slot,
) -> Decision<W>
    requires there { slot_of slot.block shelf.old.slots ≡ Some slot }
    requires few { slot.pins + 1 < 2 ^ 64 }
    requires some { 0 < shelf.old.block_size }
    requires most { shelf.old.block_size ≤ 16777216 }
    requires log { 0 < log.old.room }
    requires pin { 0 < pins.old.room }
    ensures pinned { Changes slot.block (Some slot) (Some (bumped slot)) shelf.old shelf.new }
    ensures log { log.new ≡ record log.old { entries = log.old.entries ++ found_by n slot ∷ []; room = log.old.room - 1 } }
    ensures pin { PinnedBy (home_of instance shelf.old) n slot pins.old.list pins.new.list result }
{
    shelf.change(slot, slot.pinned());
    let held = pins.add(n, slot.block, slot.ticket, slot.client);
    let pin = Pin {
        tag: tag_of(instance, shelf, held),
    };
    if slot.landed {
        log.push(Entry::Hit {
            block: slot.block,
            place: Spot::Ram,
            client: n,
        });
        return Decision::Resident(pin);
    }
    log.push(Entry::Join {
        ticket: slot.ticket,
        block: slot.block,
        client: n,
    });
    Decision::Joined(pin)
}

impl<W: World> FileCore<W> {
    /// How a client reads a part: straight from the origin, where the file isn't cached; else of a block in memory, by a flight
    /// that is out, from disk, or by a new flight, which it is to run. All memory is taken first. A core in which `2^64 - 1`
    /// flights have begun answers `Memory`.
    pub fn decide(&mut self, n: u32, part: Part) -> Result<Decision<W>, Memory>
        requires { IsPartOf self.old.size self.old.block_size part }
        ensures memory { OnErr result (self.new ≡ self.old) }
        ensures ok { IfOk result (λ decision. Decides self.old n part decision self.new) }
    {
        let ticket = self.begun;
        if ticket == u64::MAX {
            return Err(Memory);
        }
        let others = sum_of(self.stays.len(), self.readings.len(), self.disks.len())?;
        make_room(&mut self.log, &mut self.pins, others, &self.shelf)?;
        self.disks.reserve()?;
        let block = part.block;
        if let Some(why) = self.uncached() {
            let way = Way::Uncached(why);
            self.log.push(Entry::Direct {
                block,
                client: n,
                why: way,
            });
            let known = self.shelf.known().copy();
            let leave = leave_at(n, known, self.shelf.block_size(), part);
            return Ok(Decision::Direct(leave));
        }
        if let Some(slot) = self.shelf.find(block) {
            return Ok(pin_on(
                self.instance,
                &mut self.log,
                &mut self.pins,
                &mut self.shelf,
                n,
                slot,
            ));
        }
        if self.sets.has(block) {
            let held = self.disks.add(n, block, 0, 0);
            self.log.push(Entry::Hit {
                block,
                place: Spot::Disk,
                client: n,
            });
            let tag = tag_of(self.instance, &self.shelf, held);
            return Ok(Decision::Stored(OnDisk { tag }));
        }
        let held = Held {
            number: ticket,
            client: n,
            block,
            flight: ticket,
            owner: n,
        };
        self.shelf.begin(Slot::fresh(block, ticket, n))?;
        let pin = self.pins.add(n, block, ticket, n);
        self.log.push(Entry::Begin {
            ticket,
            block,
            client: n,
        });
        self.begun = ticket + 1;
        let ticket = Ticket {
            tag: tag_of(self.instance, &self.shelf, held),
        };
        let pin = Pin {
            tag: tag_of(self.instance, &self.shelf, pin),
        };
        Ok(Decision::Fetch(ticket, pin))
    }

    /// Ends a flight with its block, of which the core keeps one owner and the job the other.
    pub fn land(
        &mut self,
        ticket: Ticket<W>,
        twin: Twin<W>,
    ) -> Result<Job<W>, Strayed<(Ticket<W>, Twin<W>)>>
        requires { twin ≡ block_at ticket }
        ensures ok { IfOk result (λ job. Lands self.old ticket job self.new) }
        ensures strayed { IfErr result (λ s. Strays self.old (ticket, twin) ticket s self.new) }
    {
        let why = stranger(&ticket.tag, self.instance);
        if !is_of(&ticket.tag, self.instance, &self.shelf) {
            return Err(Strayed {
                token: (ticket, twin),
                why,
            });
        }
        let Some(slot) = self.shelf.find_flying(ticket.tag.held) else {
            return Err(Strayed {
                token: (ticket, twin),
                why,
            });
        };
        let Ticket { tag } = ticket;
        let Twin { one, other } = twin;
        self.shelf.land(slot, slot.landed(), one);
        self.log.push(Entry::Landed {
            ticket: slot.ticket,
        });
        Ok(Job { tag, block: other })
    }

    /// Ends a flight that brought nothing.
    pub fn fail(&mut self, ticket: Ticket<W>, why: Fell) -> Result<(), Strayed<Ticket<W>>>
        ensures ok { OnOk result (Fails self.old ticket why self.new) }
        ensures strayed { IfErr result (λ s. Strays self.old ticket ticket s self.new) }
    {
        let unknown = stranger(&ticket.tag, self.instance);
        if !is_of(&ticket.tag, self.instance, &self.shelf) {
            return Err(Strayed {
                token: ticket,
                why: unknown,
            });
        }
        let Some(slot) = self.shelf.find_flying(ticket.tag.held) else {
            return Err(Strayed {
                token: ticket,
                why: unknown,
            });
        };
        self.shelf.remove(slot);
        self.log.push(Entry::Failed {
            ticket: slot.ticket,
            why,
        });
        ticket.discard();
        Ok(())
    }
}
