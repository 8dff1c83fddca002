// Volumes that are wiped, so that nothing of their file is left.
ghost use Rattle.std.specs.Prelude.{◌≡◌, ◌⊎◌, ◌≤◌, ℕ, List, true, IsTrue, IsFalse};
ghost use Rattle.pfc_world.specs.Depot.{AllSound};
ghost use Rattle.pfc_world.specs.Disk.{IsImage, Clear};
ghost use Rattle.pfc_world.specs.Info.{IsMain};
ghost use Rattle.pfc_store.specs.Volume.{TakesMain, IsGone};
ghost use Rattle.pfc_purge.specs.Wiped.{SoundInTurn, StripFails, ClearFails};

use pfc_store::{Stripped, strip};
use pfc_world::{DataDev, InfoDev, World};

/// What is left of a volume that was to be wiped.
#[derive(Drop)]
pub struct Wiped<D, I> {
    /// The device with the data.
    pub first: D,
    /// The device with the main file.
    pub second: I,
    /// Whether the main file and the data are gone. False only where a call on one of the devices failed.
    pub cleared: bool,
}

/// Takes the main file away and then the data. Where the main file can't be taken away the data is left alone, so that no
/// crash leaves a main file that claims what isn't there. It takes no memory.
pub fn wipe<W: World, D: DataDev<W>, I: InfoDev<W>>(first: D, second: I) -> Wiped<D, I>
    // At each moment a main file is one of before, or absent.
    ensures mains { IsTrue I.told → TakesMain (I.seen second) (I.seen result.second) }
    // The main file is gone in every image before the data is touched.
    ensures order { IsTrue I.told → (result.first ≡ first) ⊎ IsGone (I.seen result.second).now }

    ensures cleared { IsTrue result.cleared → IsTrue D.told → Clear true (D.seen first) (D.seen result.first) }
    ensures gone { IsTrue result.cleared → IsTrue I.told → IsGone (I.seen result.second).now }
    // It gives up only where a device failed in this call.
    ensures not_cleared { IsFalse result.cleared → StripFails I.faults first second result ⊎ ClearFails D.told I.told D.seen I.seen D.faults first result }
    ensures faults { (D.faults first ≤ D.faults result.first) × (I.faults second ≤ I.faults result.second) }

    ensures sound { (path : List ℕ) → IsTrue I.told → AllSound W.files path (IsImage (D.seen first).now) (IsMain (I.seen second).now) → SoundInTurn W.files path (D.seen first) (D.seen result.first) (I.seen second) (I.seen result.second) }
    ensures sound_now { (path : List ℕ) → IsTrue I.told → AllSound W.files path (IsImage (D.seen first).now) (IsMain (I.seen second).now) → AllSound W.files path (IsImage (D.seen result.first).now) (IsMain (I.seen result.second).now) }
{
    match strip::<W, D, I>(first, second) {
        Ok(mut bare) => {
            let cleared = bare.clear().is_ok();
            let (first, second) = bare.parts();
            Wiped {
                first,
                second,
                cleared,
            }
        }
        Err(Stripped { first, second, .. }) => Wiped {
            first,
            second,
            cleared: false,
        },
    }
}
