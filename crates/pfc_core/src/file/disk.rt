// Blocks on disk: how the right to read one ends.
ghost use Rattle.std.specs.Prelude.{◌≡◌, false, IsTrue, OnOk, IfErr};
ghost use Rattle.pfc_base.specs.Block.{IsPartOf};
ghost use Rattle.pfc_log.specs.Charges.{is_charged};
ghost use Rattle.pfc_core.specs.Calls.{Strays};
ghost use Rattle.pfc_core.specs.Disks.{EndsDisk, LeavesBroken};
ghost use Rattle.pfc_core.specs.Marks.{listed};

use super::FileCore;
use crate::leave::{Leave, leave_for_disk};
use crate::token::{OnDisk, Strayed, is_of, stranger};
use pfc_base::Part;
use pfc_log::{Entry, Way};
use pfc_world::World;

impl<W: World> FileCore<W> {
    /// Ends the right to read a block from disk, which was read.
    pub fn end_disk(&mut self, disk: OnDisk<W>) -> Result<(), Strayed<OnDisk<W>>>
        ensures ok { OnOk result (EndsDisk self.old disk self.new) }
        ensures strayed { IfErr result (λ s. Strays self.old disk disk s self.new) }
    {
        let why = stranger(&disk.tag, self.instance);
        if self.release_disk(&disk) {
            disk.discard();
            return Ok(());
        }
        Err(Strayed { token: disk, why })
    }

    /// Takes such a right out of the list, if it is there.
    pub(super) fn release_disk(&mut self, disk: &OnDisk<W>) -> bool
        ensures yes { IsTrue result → EndsDisk self.old disk.now self.new }
        ensures no { result ≡ false → listed disk.now self.old.out ≡ 0 }
        ensures same { result ≡ false → self.new ≡ self.old }
    {
        if !is_of(&disk.tag, self.instance, &self.shelf) {
            return false;
        }
        self.disks.take(disk.tag.held)
    }

    /// Whether a store that refuses to read this block does so for a failed call of its own: it isn't frozen, or the block is
    /// durable.
    pub fn is_charged(&self, block: u32) -> bool
        ensures { result ≡ is_charged self.now.first self.now.entries block }
    {
        if self.sets.is_frozen() {
            return self.sets.is_durable(block);
        }
        true
    }

    /// Sends a part of a block that couldn't be read from disk to the origin, once its store answered that it failed or is
    /// frozen. A token that the core doesn't know is sent there too, with no entry.
    pub fn leave_broken(&mut self, disk: OnDisk<W>, part: Part) -> Leave<W>
        requires { IsPartOf disk.size disk.block_size part }
        ensures { LeavesBroken self.old disk part result self.new }
    {
        if !is_of(&disk.tag, self.instance, &self.shelf) {
            return leave_for_disk(disk, part);
        }
        let held = disk.tag.held;
        if !self.disks.take(held) {
            return leave_for_disk(disk, part);
        }
        self.log.push(Entry::Direct {
            block: held.block,
            client: held.client,
            why: Way::Device,
        });
        leave_for_disk(disk, part)
    }
}
