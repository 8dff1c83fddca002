// The decisions for the parts of a read.
ghost use Rattle.std.specs.Prelude.{◌≡◌, ◌+◌, ◌++◌, ◌<◌, ◌≤◌, ◌^◌, [], ◌∷◌, IfOk, All, OnOk, OnErr, length, map, sum_by, vec_len, vec_capacity};
ghost use Rattle.pfc_base.specs.Block.{IsPartOf};
ghost use Rattle.pfc_span.specs.Tiling.{part_len};
ghost use Rattle.pfc_read.specs.Draft.{IsEmptyFor, HasRoom, IsTurned, Asks, AsksAll};

use crate::segment::{Counts, Found, Owed, Pending, Segment, Source};
use pfc_base::{Memory, Part};
use pfc_core::{Decision, FileCore, Pin, Ticket};
use pfc_log::Fell;
use pfc_world::World;
use std::alloc::Global;

/// What was decided for a read so far: its tickets, and its pins, rights to read from disk and leaves, each with the place of
/// its part in the reply.
pub(crate) struct Draft<W: World> {
    pub tickets: Vec<Ticket<W>>,
    pub pendings: Vec<Pending<W>>,
    pub disks: Vec<Found<W>>,
    pub owed: Vec<Owed<W>>,
    pub counts: Counts,
}

impl<W: World> Draft<W> {
    /// An empty draft, with room for so many parts.
    pub fn new(alloc: Global, parts: usize) -> Result<Draft<W>, Memory>
        ensures { IfOk result (IsEmptyFor parts) }
    {
        let pendings = Vec::with_capacity(alloc, parts)?;
        let tickets = Vec::with_capacity(alloc, parts)?;
        let Ok(disks) = Vec::with_capacity(alloc, parts) else {
            tickets.destroy_empty();
            return Err(Memory);
        };
        let Ok(owed) = Vec::with_capacity(alloc, parts) else {
            tickets.destroy_empty();
            disks.destroy_empty();
            return Err(Memory);
        };
        Ok(Draft {
            tickets,
            pendings,
            disks,
            owed,
            counts: Counts {
                hits: 0,
                waits: 0,
                directs: 0,
                failed: 0,
            },
        })
    }

    /// Ends a draft in which nothing was decided.
    pub fn discard(self)
        requires tickets { vec_len self.tickets ≡ 0 }
        requires disks { vec_len self.disks ≡ 0 }
        requires owed { vec_len self.owed ≡ 0 }
    {
        let Draft {
            tickets,
            pendings,
            disks,
            owed,
            counts: _,
        } = self;
        drop(pendings);
        tickets.destroy_empty();
        disks.destroy_empty();
        owed.destroy_empty();
    }

    fn keep(&mut self, pin: Pin<W>, part: Part, at: usize, source: Source)
        requires { vec_len self.old.pendings < vec_capacity self.old.pendings }
        ensures pendings { self.new.pendings.items ≡ self.old.pendings.items ++ record { pin = pin; segment = record { part = part; at = at; source = source } } ∷ [] }
        ensures room { vec_capacity self.new.pendings ≡ vec_capacity self.old.pendings }
        ensures rest { self.new ≡ record self.old { pendings = self.new.pendings } }
    {
        let segment = Segment { part, at, source };
        self.pendings.push_reserved(Pending { pin, segment });
    }

    /// Decides for one part, which starts at this place of the reply.
    fn ask(&mut self, core: &mut FileCore<W>, n: u32, part: Part, at: usize) -> Result<(), Memory>
        requires part { IsPartOf core.old.size core.old.block_size part }
        requires room { HasRoom self.old }
        requires few { self.old.counts.hits + self.old.counts.waits + self.old.counts.directs < 2 ^ 63 }
        ensures memory { OnErr result (core.new ≡ core.old) }
        ensures same { OnErr result (self.new ≡ self.old) }
        ensures ok { OnOk result (Asks core.old n part at self.old self.new core.new) }
    {
        match core.decide(n, part)? {
            Decision::Direct(leave) => {
                let source = Source::Origin;
                let segment = Segment { part, at, source };
                self.counts.directs += 1;
                self.owed.push_reserved(Owed { leave, segment });
                Ok(())
            }
            Decision::Resident(pin) => {
                self.counts.hits += 1;
                self.keep(pin, part, at, Source::Cache);
                Ok(())
            }
            Decision::Joined(pin) => {
                self.counts.waits += 1;
                self.keep(pin, part, at, Source::Flight);
                Ok(())
            }
            Decision::Stored(disk) => {
                let source = Source::Cache;
                let segment = Segment { part, at, source };
                self.counts.hits += 1;
                self.disks.push_reserved(Found { disk, segment });
                Ok(())
            }
            Decision::Fetch(ticket, pin) => {
                self.counts.waits += 1;
                self.tickets.push_reserved(ticket);
                self.keep(pin, part, at, Source::Flight);
                Ok(())
            }
        }
    }

    /// Decides for the parts in order, until memory is refused. What comes first stands last in each list, from whose end it is
    /// taken.
    pub fn ask_all(&mut self, core: &mut FileCore<W>, n: u32, parts: &[(u32, Part)]) -> Option<Fell>
        requires empty { IsEmptyFor (length parts.now) self.old }
        requires few { sum_by part_len (map (λ x. x.1) parts.now) ≤ 16777216 }
        requires inside { All (IsPartOf core.old.size core.old.block_size) (map (λ x. x.1) parts.now) }
        ensures { AsksAll core.old n (map (λ x. x.1) parts.now) self.new result core.new }
    {
        let met = self.ask_each(core, n, parts);
        self.turn();
        met
    }

    fn ask_each(&mut self, core: &mut FileCore<W>, n: u32, parts: &[(u32, Part)]) -> Option<Fell>
        requires empty { IsEmptyFor (length parts.now) self.old }
        requires few { sum_by part_len (map (λ x. x.1) parts.now) ≤ 16777216 }
        requires inside { All (IsPartOf core.old.size core.old.block_size) (map (λ x. x.1) parts.now) }
        ensures { AsksAll core.old n (map (λ x. x.1) parts.now) self.new result core.new }
    {
        let mut at = 0;
        for (_, part) in parts {
            let Ok(()) = self.ask(core, n, *part, at) else {
                return Some(Fell::Memory);
            };
            at += part.len as usize;
        }
        None
    }

    /// Turns each list round.
    fn turn(&mut self)
        ensures { IsTurned self.old self.new }
    {
        self.tickets.reverse();
        self.pendings.reverse();
        self.disks.reverse();
        self.owed.reverse();
    }
}
