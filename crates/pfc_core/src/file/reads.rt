// How a read goes on by its pins, and how it ends.
ghost use Rattle.std.specs.Prelude.{◌≡◌, ◌+◌, ◌*◌, ◌<◌, ◌≤◌, ℕ, [], length, IfOk, OnOk, OnErr, IfErr, IsTrue, false, sum_by};
ghost use Rattle.pfc_base.specs.Block.{IsPartOf};
ghost use Rattle.pfc_log.specs.declared.entry.Entry.{Entry};
ghost use Rattle.pfc_log.specs.declared.entry.Entry.TheVariants.{Left};
ghost use Rattle.pfc_world.specs.Files.{Holds};
ghost use Rattle.pfc_core.specs.Access.{with_read};
ghost use Rattle.pfc_core.specs.Calls.{Unpins, Strays};
ghost use Rattle.pfc_core.specs.Finishes.{Ends, Finishes, Releases, ReleasesAll, ReleasesDisks, served_entries};
ghost use Rattle.pfc_core.specs.Looks.{Looks, IfReady};
ghost use Rattle.pfc_core.specs.Marks.{Mark, listed, sees};

use super::FileCore;
use crate::leave::leave_for;
use crate::look::{Fate, Look, fate_of};
use crate::token::{OnDisk, Pin, Reading, Strayed, is_of, stranger};
use pfc_base::Part;
use pfc_log::{Entry, Served, Way};
use pfc_world::World;

impl<W: World> FileCore<W> {
    /// What has become of a pin's flight. Where the block is in memory, the part of it is copied.
    pub fn look(&mut self, pin: Pin<W>, part: Part, into: &mut [u8]) -> Look<W>
        requires block { part.block ≡ pin.block }
        requires part { IsPartOf pin.size pin.block_size part }
        requires into { length into.old ≡ part.len }
        ensures looks { Looks self.old pin part result self.new }
        ensures ready { IfReady result (Holds W.told W.files pin.path (part.block * pin.block_size + part.from) into.new) }
        ensures length { length into.new ≡ length into.old }
    {
        if !is_of(&pin.tag, self.instance, &self.shelf) {
            return Look::Stray(leave_for(pin, part));
        }
        let held = pin.tag.held;
        match fate_of(held, &self.shelf, &self.pins) {
            Fate::Stray => Look::Stray(leave_for(pin, part)),
            Fate::Flying(_slot) => Look::Flying(pin),
            Fate::Ready(slot) => {
                self.shelf.read(slot, part, into);
                Look::Ready(pin)
            }
            Fate::Own => Look::Own(pin),
            Fate::Lost => {
                let _ = self.pins.take(held);
                self.log.push(Entry::Direct {
                    block: held.block,
                    client: held.client,
                    why: Way::Lost {
                        ticket: held.flight,
                    },
                });
                Look::Lost(leave_for(pin, part))
            }
        }
    }

    /// Ends a read, with an entry where it brought data, and gives back its pins and what it hasn't read from disk. Those that
    /// the core doesn't know are dropped.
    pub fn finish(
        &mut self,
        reading: Reading<W>,
        pins: &mut Vec<Pin<W>>,
        disks: &mut Vec<OnDisk<W>>,
        served: Option<Served>,
    ) -> Result<(), Strayed<Reading<W>>>
        ensures ok { OnOk result (Finishes self.old reading pins.old.items disks.old.items served self.new) }
        ensures rest { OnOk result (self.new ≡ record self.old { entries = self.new.entries; out = self.new.out; access = with_read served self.old.access }) }
        // Where the core's list has them all, they are all taken out of it.
        ensures known { OnOk result (((m : Mark) → sees m reading + listed m pins.old.items + listed m disks.old.items ≤ listed m self.old.out) → (w : Mark → ℕ) → sum_by w self.new.out + w reading + sum_by w pins.old.items + sum_by w disks.old.items ≡ sum_by w self.old.out) }
        // Beside the entry of the read only blocks leave.
        ensures entries { OnOk result ((w : Entry → ℕ) → ((i : ℕ) → w (Left i) ≡ 0) → sum_by w self.new.entries ≡ sum_by w self.old.entries + sum_by w (served_entries reading.client served)) }
        ensures empty { OnOk result ((pins.new.items ≡ []) × (disks.new.items ≡ [])) }
        ensures strayed { IfErr result (λ s. Strays self.old reading reading s self.new) }
        ensures kept { OnErr result ((pins.new.items ≡ pins.old.items) × (disks.new.items ≡ disks.old.items)) }
    {
        self.end(reading, served)?;
        self.release_all(pins);
        pins.clear();
        self.end_disks(disks);
        Ok(())
    }

    /// Takes a reading back, and enters what it brought.
    fn end(
        &mut self,
        reading: Reading<W>,
        served: Option<Served>,
    ) -> Result<(), Strayed<Reading<W>>>
        ensures ok { OnOk result (Ends self.old reading served self.new) }
        ensures strayed { IfErr result (λ s. Strays self.old reading reading s self.new) }
    {
        let why = stranger(&reading.tag, self.instance);
        if !is_of(&reading.tag, self.instance, &self.shelf) {
            return Err(Strayed {
                token: reading,
                why,
            });
        }
        let held = reading.tag.held;
        if !self.readings.take(held) {
            return Err(Strayed {
                token: reading,
                why,
            });
        }
        reading.discard();
        let Some(served) = served else {
            return Ok(());
        };
        self.access.read(&served);
        self.log.push(Entry::Served {
            client: held.client,
            served,
        });
        Ok(())
    }

    fn end_disks(&mut self, disks: &mut Vec<OnDisk<W>>)
        ensures disks { ReleasesDisks self.old disks.old.items self.new }
        ensures empty { disks.new.items ≡ [] }
    {
        disks.reverse();
        while let Some(disk) = disks.pop() {
            let _ = self.release_disk(&disk);
            disk.discard();
        }
    }

    fn release_all(&mut self, pins: &[Pin<W>])
        ensures { ReleasesAll self.old pins.now self.new }
    {
        for pin in pins {
            let _ = self.release(pin);
        }
    }
}
