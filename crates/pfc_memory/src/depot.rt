// The depot in memory.
ghost use Rattle.std.specs.Prelude.{◌≡◌, ◌≢◌, ◌↔◌, ◌⊎◌, refl, List, [], ℕ, Option, Some, None, true, false, IsTrue, IfOk, IfErr, Contains, length};
ghost use Rattle.std.specs.List.{AllZip};
ghost use Rattle.pfc_world.specs.Counts.{RefusalCause, add_count};
ghost use Rattle.pfc_world.specs.Disk.{IsImage};
ghost use Rattle.pfc_world.specs.Info.{IsMain};
ghost use Rattle.pfc_world.specs.Depot.{AllSound, InByteOrder, HasVolume, FewerAtHome, SameElsewhere, Fewer, Nothing, CountsFaults, TakenCause, Gains, Loses, IfVolume, UnlessVolume, is_out, risen};
ghost use Rattle.pfc_memory.specs.Data.{data_run};
ghost use Rattle.pfc_memory.specs.Mains.{info_run};
ghost use Rattle.pfc_memory.specs.Numbers.{fails_of, fuse_of};
ghost use Rattle.pfc_memory.specs.Depot.{paths_of, out_of, lent_of, volume_of, data_home, main_home, IsPlaceOf, IsGapFor, LeavesOne, IsEmptied, IsBare, Lends, Returns, IsLeftAt, IsVolumeLeftOf, Lists, AreFresh, HasFresh, Gives};

use crate::numbers::Numbers;
use crate::volume::{Devices, Volume};
use crate::{MemoryData, MemoryInfo, Pick};
use pfc_base::{Memory, Path};
use pfc_world::{Depot, Refusal, Taken, World};
use std::alloc::Global;

/// Keeps the volumes of a cache in memory. The device calls of all volumes are numbered from 0 in the order in which
/// they are made; those that a list names fail, and, where there is a fuse, all from its number on.
#[derive(Drop)]
pub struct MemoryDepot {
    numbers: Numbers,
    /// Those that are out too, in the order of their paths. So a volume finds its place when it is put back.
    volumes: Vec<Volume>,
    faults: u64,
    ghost order: { InByteOrder (paths_of volumes.items) },
}

/// Where the path's volume stands, or else where one would.
fn place_of(volumes: &[Volume], path: &Path) -> Result<usize, usize>
    requires { InByteOrder (paths_of volumes.now) }
    ensures ok { IfOk result (λ at. IsPlaceOf volumes.now path.now at) }
    ensures err { IfErr result (λ at. IsGapFor volumes.now path.now at) }
{
    volumes.binary_search_by(|volume| volume.path.cmp(path))
}

/// The paths of the volumes of which a crash may leave something.
fn held_paths(alloc: Global, volumes: &[Volume]) -> Result<Vec<Path>, Memory>
    requires { InByteOrder (paths_of volumes.now) }
    ensures order { IfOk result (λ paths. InByteOrder paths.items) }
    ensures held { IfOk result (λ paths. Lists volumes.now paths.items) }
{
    let mut paths = Vec::new(alloc);
    for volume in volumes {
        if volume.may_hold() {
            paths.push(volume.path.copy())?;
        }
    }
    Ok(paths)
}

/// Each volume as a crash leaves it.
fn crash_volumes(
    volumes: Vec<Volume>,
    alloc: Global,
    pick: Pick,
    numbers: &Numbers,
) -> Result<Vec<Volume>, Memory>
    ensures { IfOk result (λ left. AllZip (IsVolumeLeftOf numbers.now) volumes.items left.items) }
{
    let mut left = Vec::new(alloc);
    for volume in volumes {
        left.push(volume.crash(alloc, pick, numbers)?)?;
    }
    Ok(left)
}

impl MemoryDepot {
    /// Nothing is home, and nothing is out. `fails` names device calls by their numbers. From the number `fuse` on all
    /// calls fail, and those past it do nothing at all.
    pub fn new(alloc: Global, fails: Vec<u64>, fuse: Option<u64>) -> Result<MemoryDepot, Memory>
        ensures home_data { IfOk result (λ depot. (path : List ℕ) → IsEmptied (data_home depot.volumes.items path)) }
        ensures home_main { IfOk result (λ depot. (path : List ℕ) → IsBare (main_home depot.volumes.items path)) }
        ensures out { IfOk result (λ depot. out_of depot.volumes.items ≡ []) }
        ensures faults { IfOk result (λ depot. depot.faults ≡ 0) }
        ensures numbers { IfOk result (λ depot. (fails_of depot.numbers ≡ fails.items) × (fuse_of depot.numbers ≡ fuse)) }
    {
        Ok(MemoryDepot {
            numbers: Numbers::new(alloc, fails, fuse)?,
            volumes: Vec::new(alloc),
            faults: 0,
        })
    }

    /// How many device calls were made, over all volumes.
    pub fn calls(&self) -> u64 {
        self.numbers.calls()
    }

    /// How many calls failed on the devices that came back.
    pub fn faults(&self) -> u64
        ensures { result ≡ self.now.faults }
    {
        self.faults
    }

    /// The depot after a crash. Each volume that is home is one of its images, all of it settled, and no call on it
    /// fails any more. Those that are out stay out, and may be put back.
    pub fn crash(self, alloc: Global, pick: Pick) -> Result<MemoryDepot, Memory>
        ensures out { IfOk result (λ depot. out_of depot.volumes.items ≡ out_of self.volumes.items) }
        ensures lent { IfOk result (λ depot. (path : List ℕ) → lent_of (volume_of depot.volumes.items path) ≡ lent_of (volume_of self.volumes.items path)) }
        ensures away { IfOk result (λ depot. (path : List ℕ) → Contains (out_of self.volumes.items) path → Nothing (data_home depot.volumes.items path) × Nothing (main_home depot.volumes.items path)) }
        ensures home { IfOk result (λ depot. (path : List ℕ) → (Contains (out_of self.volumes.items) path → ⊥) → IsLeftAt path self.volumes.items depot.volumes.items) }
        ensures faults { IfOk result (λ depot. depot.faults ≡ 0) }
        ensures quiet { IfOk result (λ depot. (fails_of depot.numbers ≡ []) × (fuse_of depot.numbers ≡ None)) }
        ensures fresh { IfOk result (λ depot. (path : List ℕ) → HasFresh depot.numbers (volume_of depot.volumes.items path)) }
    {
        let numbers = Numbers::new(alloc, Vec::new(alloc), None)?;
        let volumes = crash_volumes(self.volumes, alloc, pick, &numbers)?;
        Ok(MemoryDepot {
            numbers,
            volumes,
            faults: 0,
        })
    }

    /// Keeps a place for a path that had no volume, which is out from now on, and gives it fresh devices.
    fn found(&mut self, alloc: Global, at: usize, path: &Path) -> Result<Devices, Memory>
        requires { IsGapFor self.old.volumes.items path.now at }
        ensures ok { IfOk result (λ devices. Lends path.now self.old.volumes.items self.new.volumes.items devices.data devices.info) }
        ensures fresh { IfOk result (λ devices. AreFresh self.old.numbers devices) }
        ensures err { IfErr result (λ _. self.new.volumes.items ≡ self.old.volumes.items) }
        ensures rest { (self.new.faults ≡ self.old.faults) × (self.new.numbers ≡ self.old.numbers) }
    {
        let devices = Devices::new(alloc, &self.numbers)?;
        self.volumes.insert(
            at,
            Volume {
                path: path.copy(),
                home: None,
                lent: devices.faults(),
            },
        )?;
        Ok(devices)
    }
}

impl<W: World> Depot<W> for MemoryDepot {
    type Data = MemoryData;

    type Info = MemoryInfo;

    ghost home_data = { λ d. data_home d.volumes.items };

    ghost home_main = { λ d. main_home d.volumes.items };

    ghost out = { λ d. out_of d.volumes.items };

    ghost lent = { λ d path. lent_of (volume_of d.volumes.items path) };

    ghost faults = { λ d. d.faults };

    ghost unlisted = { λ _. 0 };

    ghost alike = { refl };

    fn list(&mut self, alloc: Global) -> Result<Vec<Path>, Refusal>
        ensures order { IfOk result (λ paths. InByteOrder paths.items) }
        ensures all { IfOk result (λ paths. (path : List ℕ) → HasVolume (data_home self.old.volumes.items path) (main_home self.old.volumes.items path) → Contains paths.items path) }
        ensures only { IfOk result (λ paths. (path : List ℕ) → Contains paths.items path → HasVolume (data_home self.old.volumes.items path) (main_home self.old.volumes.items path) ⊎ Contains (out_of self.old.volumes.items) path) }
        ensures held { IfOk result (λ paths. Lists self.old.volumes.items paths.items) }
        ensures same { self.new ≡ self.old }
        ensures memory { IfErr result (λ refusal. refusal ≡ Refusal.Memory) }
    {
        Ok(held_paths(alloc, &self.volumes)?)
    }

    fn take(&mut self, alloc: Global, path: &Path) -> Taken<MemoryData, MemoryInfo>
        ensures lends { IfVolume result (λ first second. Lends path.now self.old.volumes.items self.new.volumes.items first second) }
        ensures stays { UnlessVolume result (self.new.volumes.items ≡ self.old.volumes.items) }
        ensures out_already { IsTrue (is_out result) ↔ Contains (out_of self.old.volumes.items) path.now }
        ensures given { IfVolume result (λ first second. Gives self.old.numbers (volume_of self.old.volumes.items path.now) first second) }
        ensures never { result ≢ Taken.Fault }
        ensures rest { (self.new.faults ≡ self.old.faults) × (self.new.numbers ≡ self.old.numbers) }
    {
        let at = match place_of(&self.volumes, path) {
            Ok(at) => at,
            Err(at) => {
                return match self.found(alloc, at, path) {
                    Ok(devices) => Taken::Volume(devices.data, devices.info),
                    Err(Memory) => Taken::Memory,
                };
            }
        };
        match self.volumes[at].lend() {
            None => Taken::Out,
            Some(devices) => Taken::Volume(devices.data, devices.info),
        }
    }

    fn put_back(&mut self, path: &Path, first: MemoryData, second: MemoryInfo) -> bool
        ensures answer { IsTrue result ↔ Contains (out_of self.old.volumes.items) path.now }
        ensures back { IsTrue result → Returns path.now self.old.volumes.items self.new.volumes.items first second }
        ensures numbers { self.new.numbers ≡ self.old.numbers }
        ensures stays { result ≡ false → (self.new.volumes.items ≡ self.old.volumes.items) × (self.new.faults ≡ self.old.faults) }
        ensures faults { IsTrue result → self.new.faults ≡ add_count self.old.faults (risen (lent_of (volume_of self.old.volumes.items path.now)) first.calls.faults second.calls.faults) }
    {
        let Ok(at) = place_of(&self.volumes, path) else {
            return false;
        };
        if self.volumes[at].home.is_some() {
            return false;
        }
        let (first_rise, second_rise) = self.volumes[at].accept(first, second);
        self.faults = self
            .faults
            .saturating_add(first_rise)
            .saturating_add(second_rise);
        true
    }

    fn outs(&self) -> u64 {
        self.volumes
            .iter()
            .filter(|volume| volume.home.is_none())
            .count() as u64
    }
}

#[cfg(test)]
mod tests;
