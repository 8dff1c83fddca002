// How the parts of a read come into its reply.
ghost use Rattle.std.specs.Prelude.{◌≡◌, ◌+◌, ◌++◌, ◌∷◌, [], ◌<◌, ◌^◌, OnOk, OnErr, vec_len, vec_capacity};
ghost use Rattle.pfc_log.specs.declared.entry.Fell.TheVariants as fell;
ghost use Rattle.pfc_world.specs.Counts.{HasCause, add_count};
ghost use Rattle.pfc_read.specs.OpView.{Nothing, ToFill, ToLook, first_met};
ghost use Rattle.pfc_read.specs.Segments.{owed_segment, with_part};
ghost use Rattle.pfc_read.specs.Steps.{IsLeaveOf, IsPinFor};
ghost use Rattle.pfc_read.specs.Fills.{LooksAt};

use super::{ReadOp, first};
use crate::action::Saw;
use crate::segment::{Hand, Owed, Pending, Segment, Source};
use pfc_base::Part;
use pfc_core::{FileCore, Leave, Line, Look, Pin};
use pfc_log::{Fell, Served};
use pfc_world::{Fault, Origin, World};

/// The bytes that came, with those of one part more.
pub(super) fn plus(served: Served, segment: Segment) -> Served
    requires { served.hit + served.missed + served.bypassed + segment.part.len < 2 ^ 64 }
    ensures { result ≡ with_part served segment.source segment.part.len }
{
    let len = u64::from(segment.part.len);
    match segment.source {
        Source::Cache => Served {
            hit: served.hit + len,
            ..served
        },
        Source::Flight => Served {
            missed: served.missed + len,
            ..served
        },
        Source::Origin => Served {
            bypassed: served.bypassed + len,
            ..served
        },
    }
}

/// Owes a part a direct read, which is the next one then.
pub(super) fn add_owed<W: World>(owed: &mut Vec<Owed<W>>, leave: Leave<W>, segment: Segment)
    requires { vec_len owed.old < vec_capacity owed.old }
    ensures items { owed.new.items ≡ owed.old.items ++ record { leave = leave; segment = owed_segment segment } ∷ [] }
    ensures room { vec_capacity owed.new ≡ vec_capacity owed.old }
{
    let segment = Segment {
        source: Source::Origin,
        ..segment
    };
    owed.push_reserved(Owed { leave, segment });
}

impl<W: World> ReadOp<W> {
    /// Reads the part of a leave straight from the origin, into the reply. After a fault the read goes on to its end.
    pub fn direct<O: Origin<W>>(
        &mut self,
        line: &mut Line<W, O>,
        leave: Leave<W>,
    ) -> Result<(), Fault>
        requires given { self.old.given ≡ ToFill leave.part }
        requires leave { IsLeaveOf self.old.reading leave }
        ensures number { line.new.number ≡ line.old.number }
        ensures calls { line.new.calls ≡ add_count line.old.calls 1 }
        ensures cause { HasCause line.old.faults line.new.faults result }
        ensures ok { OnOk result (self.new ≡ record self.old { given = Nothing }) }
        ensures err { OnErr result (self.new ≡ record self.old { met = first_met self.old.met fell.Fault; given = Nothing }) }
    {
        let Hand::Leave(segment) = self.hand else {
            unreachable!()
        };
        self.hand = Hand::Nothing;
        let end = segment.at + segment.part.len as usize;
        match line.direct(leave, &mut self.bytes[segment.at..end]) {
            Ok(()) => {
                self.served = plus(self.served, segment);
                Ok(())
            }
            Err(fault) => {
                self.met = first(self.met, Fell::Fault);
                Err(fault)
            }
        }
    }

    /// Sees what has become of a pin's flight. Where the block is in memory, its part comes into the reply.
    pub fn look(&mut self, core: &mut FileCore<W>, pin: Pin<W>, part: Part) -> Saw
        requires given { self.old.given ≡ ToLook part }
        requires pin { IsPinFor self.old.reading part pin }
        ensures { LooksAt core.old self.old pin part result self.new core.new }
    {
        let Hand::Pin(segment) = self.hand else {
            unreachable!()
        };
        self.hand = Hand::Nothing;
        let end = segment.at + segment.part.len as usize;
        match core.look(pin, part, &mut self.bytes[segment.at..end]) {
            Look::Flying(pin) => {
                self.pendings.push_reserved(Pending { pin, segment });
                Saw::Flying
            }
            Look::Ready(pin) => {
                self.pins.push_reserved(pin);
                self.served = plus(self.served, segment);
                Saw::Ready
            }
            Look::Lost(leave) => {
                self.counts.directs += 1;
                add_owed(&mut self.owed, leave, segment);
                Saw::Lost
            }
            Look::Own(pin) => {
                self.pins.push_reserved(pin);
                self.met = first(self.met, Fell::Memory);
                Saw::Own
            }
            Look::Stray(leave) => {
                self.counts.directs += 1;
                add_owed(&mut self.owed, leave, segment);
                Saw::Stray
            }
        }
    }
}
