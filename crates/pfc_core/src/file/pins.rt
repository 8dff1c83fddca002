// Pins: how a block that landed is held in memory, and leaves it.
ghost use Rattle.std.specs.Prelude.{◌≡◌, ◌+◌, ◌<◌, ◌≤◌, ◌^◌, ℕ, IfOk, OnOk, OnErr, IfErr, IsTrue, false};
ghost use Rattle.pfc_core.specs.Marks.{listed};
ghost use Rattle.pfc_core.specs.Calls.{Unpins, Strays};

use super::FileCore;
use crate::token::{Pin, Strayed, is_of, stranger};
use pfc_log::Entry;
use pfc_world::World;

impl<W: World> FileCore<W> {
    /// Takes a pin back. With the last one a block whose job has ended leaves memory.
    pub fn unpin(&mut self, pin: Pin<W>) -> Result<(), Strayed<Pin<W>>>
        ensures ok { OnOk result (Unpins self.old pin self.new) }
        ensures strayed { IfErr result (λ s. Strays self.old pin pin s self.new) }
    {
        let why = stranger(&pin.tag, self.instance);
        if self.release(&pin) {
            return Ok(());
        }
        Err(Strayed { token: pin, why })
    }

    /// Takes a pin out of the list, if it is there.
    pub(super) fn release(&mut self, pin: &Pin<W>) -> bool
        ensures yes { IsTrue result → Unpins self.old pin.now self.new }
        ensures no { result ≡ false → listed pin.now self.old.out ≡ 0 }
        ensures same { result ≡ false → self.new ≡ self.old }
    {
        if !is_of(&pin.tag, self.instance, &self.shelf) {
            return false;
        }
        let held = pin.tag.held;
        if !self.pins.take(held) {
            return false;
        }
        let Some(slot) = self.shelf.find(held.block) else {
            return true;
        };
        if slot.ticket != held.flight {
            return true;
        }
        if slot.is_last() {
            self.shelf.remove(slot);
            self.log.push(Entry::Left { block: held.block });
            return true;
        }
        self.shelf.change(slot, slot.unpinned());
        true
    }
}
