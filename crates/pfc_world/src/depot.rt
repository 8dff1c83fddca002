ghost use Rattle.std.specs.Prelude.{◌≡◌, ◌≢◌, ◌↔◌, ◌⊎◌, ℕ, Bool, false, List, Option, Contains, IsTrue, IfOk, length};
ghost use Rattle.pfc_world.specs.Counts.{RefusalCause, add_count};
ghost use Rattle.pfc_world.specs.Disk.{IsImage};
ghost use Rattle.pfc_world.specs.Info.{IsMain};
ghost use Rattle.pfc_world.specs.Depot.{AllSound, Fewer, Nothing, FewerAtHome, SameElsewhere, HasVolume, InByteOrder, CountsFaults, Gains, Loses, risen, IfVolume, UnlessVolume, is_out, TakenCause};

use crate::{DataDev, InfoDev, Refusal, World};
use pfc_base::Path;
use std::alloc::Global;

/// What a depot answers to whoever wants a path's volume.
#[derive(Drop)]
pub enum Taken<D, I> {
    /// The path's data and main file.
    Volume(D, I),
    /// The volume is out already.
    Out,
    /// The outside failed.
    Fault,
    /// Memory was refused.
    Memory,
}

/// Keeps the volumes of a cache, one for each path: a data device and an info device. Who takes a volume has it alone
/// until it is put back.
pub trait Depot<W: World> {
    type Data: DataDev<W>;

    type Info: InfoDev<W>;

    /// Whether a list is an image of the data device that is home at a path. Nothing is home at a path that is out.
    ghost home_data: { Self → List ℕ → List ℕ → Type 0 };

    /// Whether an absent or present list is an image of the main file that is home there.
    ghost home_main: { Self → List ℕ → Option (List ℕ) → Type 0 };

    /// The paths that are out.
    ghost out: { Self → List (List ℕ) };

    /// For each path that is out, the counts of its two devices as they were taken.
    ghost lent: { Self → List ℕ → ℕ × ℕ };

    /// How many calls failed, on the depot and on the devices that came back.
    ghost faults: { Self → ℕ };

    /// How many calls of `list` failed.
    ghost unlisted: { Self → ℕ };

    /// Each path with a data file or a main file.
    fn list(&mut self, alloc: Global) -> Result<Vec<Path>, Refusal>
        ensures order { IfOk result (λ paths. InByteOrder paths.items) }
        ensures all { IsTrue Self.Data.told → IfOk result (λ paths. (path : List ℕ) → HasVolume (home_data self.old path) (home_main self.old path) → Contains paths.items path) }
        ensures only { IsTrue Self.Data.told → IfOk result (λ paths. (path : List ℕ) → Contains paths.items path → HasVolume (home_data self.old path) (home_main self.old path) ⊎ Contains (out self.old) path) }
        ensures home { IsTrue Self.Data.told → FewerAtHome (home_data self.old) (home_main self.old) (home_data self.new) (home_main self.new) }
        ensures out { out self.new ≡ out self.old }
        ensures lent { (path : List ℕ) → lent self.new path ≡ lent self.old path }
        ensures cause { RefusalCause (faults self.old) (faults self.new) result }
        ensures unlisted { CountsFaults (unlisted self.old) (unlisted self.new) result };

    /// Gives the volume of a path. One that was never put back is empty, without a main file.
    fn take(&mut self, alloc: Global, path: &Path) -> Taken<Self::Data, Self::Info>
        ensures out_already { IsTrue (is_out result) ↔ Contains (out self.old) path.now }
        ensures images { IsTrue Self.Data.told → IfVolume result (λ first second. Fewer (home_data self.old path.now) (IsImage (Self.Data.seen first).now) × Fewer (home_main self.old path.now) (IsMain (Self.Info.seen second).now)) }
        ensures away { IsTrue Self.Data.told → IfVolume result (λ first second. Nothing (home_data self.new path.now) × Nothing (home_main self.new path.now)) }
        ensures elsewhere { IsTrue Self.Data.told → SameElsewhere path.now (home_data self.old) (home_main self.old) (home_data self.new) (home_main self.new) }
        ensures home { IsTrue Self.Data.told → UnlessVolume result (FewerAtHome (home_data self.old) (home_main self.old) (home_data self.new) (home_main self.new)) }
        ensures out { IfVolume result (λ first second. Gains path.now (out self.old) (out self.new)) }
        ensures not_out { UnlessVolume result (out self.new ≡ out self.old) }
        ensures lent { IfVolume result (λ first second. lent self.new path.now ≡ (Self.Data.faults first, Self.Info.faults second)) }
        ensures lent_elsewhere { (other : List ℕ) → other ≢ path.now → lent self.new other ≡ lent self.old other }
        ensures not_lent { UnlessVolume result (lent self.new path.now ≡ lent self.old path.now) }
        ensures cause { TakenCause (faults self.old) (faults self.new) result }
        ensures unlisted { unlisted self.new ≡ unlisted self.old };

    /// Takes a volume back, and adds what the counts of its devices rose to the depot's. The answer is false where the
    /// path isn't out; the devices are dropped then.
    fn put_back(&mut self, path: &Path, first: Self::Data, second: Self::Info) -> bool
        requires { IsTrue W.told → IsTrue Self.Data.told → AllSound W.files path.now (IsImage (Self.Data.seen first).now) (IsMain (Self.Info.seen second).now) }
        ensures answer { IsTrue result ↔ Contains (out self.old) path.now }
        ensures images { IsTrue result → IsTrue Self.Data.told → Fewer (IsImage (Self.Data.seen first).now) (home_data self.new path.now) × Fewer (IsMain (Self.Info.seen second).now) (home_main self.new path.now) }
        ensures elsewhere { IsTrue Self.Data.told → SameElsewhere path.now (home_data self.old) (home_main self.old) (home_data self.new) (home_main self.new) }
        ensures home { result ≡ false → IsTrue Self.Data.told → FewerAtHome (home_data self.old) (home_main self.old) (home_data self.new) (home_main self.new) }
        ensures out { IsTrue result → Loses path.now (out self.old) (out self.new) }
        ensures not_out { result ≡ false → out self.new ≡ out self.old }
        ensures lent_elsewhere { (other : List ℕ) → other ≢ path.now → lent self.new other ≡ lent self.old other }
        ensures not_lent { result ≡ false → lent self.new path.now ≡ lent self.old path.now }
        ensures faults { IsTrue result → faults self.new ≡ add_count (faults self.old) (risen (lent self.old path.now) (Self.Data.faults first) (Self.Info.faults second)) }
        ensures no_faults { result ≡ false → faults self.new ≡ faults self.old }
        ensures unlisted { unlisted self.new ≡ unlisted self.old };

    /// How many volumes are out.
    fn outs(&self) -> u64
        ensures { result ≡ length (out self.now) };

    /// Its data devices tell where its info devices do.
    ghost alike: { Self.Data.told ≡ Self.Info.told };
}
