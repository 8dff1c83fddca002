// The half of a store that has the cinfo.
ghost use Rattle.std.specs.Prelude.{◌≡◌, ◌≤◌, ℕ, true, List, Option, length, is_ok, IsTrue, OnOk};
ghost use Rattle.pfc_base.specs.Block.{count_of};
ghost use Rattle.pfc_base.specs.BlockSet.{IsWithin};
ghost use Rattle.pfc_cinfo.specs.Cinfo.{IsTiled};
ghost use Rattle.pfc_world.specs.Counts.{HasCause};
ghost use Rattle.pfc_world.specs.Run.{moment};
ghost use Rattle.pfc_world.specs.Info.{IsMain};
ghost use Rattle.pfc_store.specs.Claims.{Says, Replaces, WithinNow, WithinSince};
ghost use Rattle.pfc_store.specs.Info.{Puts};

use crate::{Broken, InfoPutRefusal};
use pfc_base::BlockSet;
use pfc_cinfo::{Head, encode_parts};
use pfc_world::{Fault, InfoDev, Known, World};
use std::alloc::Global;
use std::marker::Model;

/// The cinfo of a file on its device: which blocks every main file claims that a crash may leave, and which the next one
/// will. Once a put has failed it is frozen for good and puts no other.
#[derive(Drop)]
pub struct InfoHalf<W: World, I: InfoDev<W>> {
    device: I,
    known: Known<W>,
    block_size: u64,
    head: Head,
    claimed: BlockSet,
    due: BlockSet,
    frozen: Option<Broken>,
}

impl<W: World, I: InfoDev<W>> Model for InfoHalf<W, I> {
    ghost use Rattle.pfc_store.specs.Views.{InfoView};
    ghost use Rattle.pfc_store.specs.Claims.{IsInfoHalf};

    ghost Value = { InfoView I };

    ghost view = { λ h. record { device = h.device; path = h.known.path; size = h.known.size; block_size = h.block_size; head = h.head; claimed = h.claimed; due = h.due; frozen = h.frozen } };

    ghost invariant = { λ h. IsInfoHalf I.told h.known.size h.block_size h.claimed h.due h.frozen (I.InfoDev.seen h.device).now };
}

/// Puts these bytes in the main file's place: at each moment it is an old one or the new one, whole.
fn replace_main<W: World, I: InfoDev<W>>(device: &mut I, bytes: &[u8]) -> Result<(), Fault>
    requires { IsTrue I.told → IsTrue (I.seen device.old).now.settled }
    ensures moments { IsTrue I.told → Replaces (Some bytes.now) (I.seen device.old) (I.seen device.new) }
    ensures done { is_ok result ≡ true → IsTrue I.told → (main : Option (List ℕ)) → IsMain (I.seen device.new).now main → main ≡ Some bytes.now }
    ensures settled { is_ok result ≡ true → IsTrue I.told → IsTrue (I.seen device.new).now.settled }
    ensures cause { HasCause (I.faults device.old) (I.faults device.new) result }
{
    device.write_temp(bytes)?;
    device.sync_temp()?;
    device.rename()
}

impl<W: World, I: InfoDev<W>> InfoHalf<W, I> {
    /// The half of a settled device whose main files claim exactly this set. `due` is an equal set.
    pub(crate) fn new(
        device: I,
        known: Known<W>,
        block_size: u64,
        head: Head,
        claimed: BlockSet,
        due: BlockSet,
    ) -> InfoHalf<W, I>
        requires tiled { IsTiled block_size known.size (length claimed) }
        requires same { due ≡ claimed }
        requires settled { IsTrue I.told → IsTrue (I.seen device).now.settled }
        requires mains { IsTrue I.told → WithinNow known.size block_size claimed claimed (I.seen device).now }
        ensures { result ≡ record { device = device; path = known.path; size = known.size; block_size = block_size; head = head; claimed = claimed; due = claimed; frozen = None } }
    {
        InfoHalf {
            device,
            known,
            block_size,
            head,
            claimed,
            due,
            frozen: None,
        }
    }

    /// Puts a cinfo with this head that claims what is due. It takes memory for its bytes.
    pub fn put_info(&mut self, alloc: Global, head: &Head) -> Result<(), InfoPutRefusal>
        ensures exact { Puts I.faults self.old result self.new }
        ensures claims { OnOk result (IsTrue I.told → (main : Option (List ℕ)) → IsMain (I.seen self.new.device).now main → Says main (record { block = self.old.block_size; size = self.old.size; head = head.now; claims = self.old.due })) }
        ensures within { IsTrue I.told → WithinSince self.old.size self.old.block_size self.old.claimed self.old.due (I.seen self.new.device) (moment (I.seen self.old.device)) }
        ensures faults { I.faults self.old.device ≤ I.faults self.new.device }
    {
        match self.frozen {
            Some(broken) => return Err(InfoPutRefusal::Frozen(broken)),
            None => {}
        }
        let bytes = encode_parts(alloc, self.block_size, self.known.size(), head, &self.due)?;
        let before = self.device.faults();
        match replace_main(&mut self.device, &bytes) {
            Ok(()) => {
                self.claimed.copy_from(&self.due);
                Ok(())
            }
            Err(Fault) => {
                let broken = Broken {
                    before,
                    after: self.device.faults(),
                };
                self.frozen = Some(broken);
                Err(InfoPutRefusal::Device(broken))
            }
        }
    }

    /// More is due.
    pub(crate) fn raise(&mut self, due: &BlockSet)
        requires bound { length self.old.due ≡ length due.now }
        requires more { IsWithin self.old.due due.now }
        ensures { self.new ≡ record self.old { due = due.now } }
    {
        self.due.copy_from(due);
    }

    /// Freezes it like the other half. It never thaws.
    pub(crate) fn freeze(&mut self, frozen: Option<Broken>)
        requires { frozen ≡ None → self.old.frozen ≡ None }
        ensures { self.new ≡ record self.old { frozen = frozen } }
    {
        self.frozen = frozen;
    }

    /// What the type keeps: the sets are as long as the file has blocks, and whatever main file a crash leaves claims at
    /// least what is claimed and at most what is due.
    pub fn keeps(&self)
        ensures due { length self.now.due ≡ count_of self.now.size self.now.block_size }
        ensures claimed { length self.now.claimed ≡ count_of self.now.size self.now.block_size }
        ensures nested { IsWithin self.now.claimed self.now.due }
        ensures within { IsTrue I.told → WithinSince self.now.size self.now.block_size self.now.claimed self.now.due (I.seen self.now.device) (moment (I.seen self.now.device)) }
    {
        let _ = &self.device;
    }

    /// The file.
    pub fn known(&self) -> &Known<W>
        ensures path { result.now.path ≡ self.now.path }
        ensures size { result.now.size ≡ self.now.size }
    {
        &self.known
    }

    /// The block size in bytes.
    pub fn block_size(&self) -> u64
        ensures { result ≡ self.now.block_size }
    {
        self.block_size
    }

    /// The head that the opening found in the main file, or made.
    pub fn head(&self) -> &Head
        ensures { result.now ≡ self.now.head }
    {
        &self.head
    }

    /// The blocks that every main file claims.
    pub fn claimed(&self) -> &BlockSet
        ensures { result.now ≡ self.now.claimed }
    {
        &self.claimed
    }

    /// The blocks that the next cinfo is to claim.
    pub fn due(&self) -> &BlockSet
        ensures { result.now ≡ self.now.due }
    {
        &self.due
    }

    /// The failure that froze it.
    pub fn frozen(&self) -> Option<Broken>
        ensures { result ≡ self.now.frozen }
    {
        self.frozen
    }

    /// The device alone.
    pub(crate) fn into_device(self) -> I
        ensures { result ≡ self.device }
    {
        self.device
    }
}
