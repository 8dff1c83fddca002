// Volumes in memory.
ghost use Rattle.std.specs.Prelude.{◌≡◌, ◌↔◌, None, Some, IsTrue, IsSome, IfOk, IfSome, IfNone};
ghost use Rattle.pfc_world.specs.Counts.{rise};
ghost use Rattle.pfc_world.specs.Depot.{HasVolume};
ghost use Rattle.pfc_memory.specs.Depot.{IsDataAt, IsMainAt, IsEmptied, IsBare, AreFresh, IsForgot, IsLeftOf, IsHomeLeftOf, IsVolumeLeftOf};

use crate::numbers::Numbers;
use crate::{MemoryData, MemoryInfo, Pick};
use pfc_base::{Memory, Path};
use std::alloc::Global;

/// The two devices of a volume.
#[derive(Drop)]
pub(crate) struct Devices {
    pub(crate) data: MemoryData,
    pub(crate) info: MemoryInfo,
}

/// A volume that is home, or was lent.
#[derive(Drop)]
pub(crate) struct Volume {
    pub(crate) path: Path,
    /// `None` while the volume is out.
    pub(crate) home: Option<Devices>,
    /// How many calls of each device had failed as the volume was lent last.
    pub(crate) lent: (u64, u64),
}

/// How far a count rose. One at its last value may stand for any rise.
fn rise_of(before: u64, after: u64) -> u64
    ensures { result ≡ rise before after }
{
    if after == u64::MAX {
        return u64::MAX;
    }
    after.saturating_sub(before)
}

impl Devices {
    /// Empty ones, without a main file.
    pub(crate) fn new(alloc: Global, numbers: &Numbers) -> Result<Devices, Memory>
        ensures data { IfOk result (λ devices. IsEmptied (IsDataAt (Some devices))) }
        ensures main { IfOk result (λ devices. IsBare (IsMainAt (Some devices))) }
        ensures fresh { IfOk result (λ devices. AreFresh numbers.now devices) }
    {
        Ok(Devices {
            data: MemoryData::new(alloc, numbers.share()?),
            info: MemoryInfo::new(alloc, numbers.share()?),
        })
    }

    /// How many calls of each failed.
    pub(crate) fn faults(&self) -> (u64, u64)
        ensures { result ≡ (self.now.data.calls.faults, self.now.info.calls.faults) }
    {
        (self.data.calls.faults(), self.info.calls.faults())
    }

    /// Whether a crash may leave bytes or a main file.
    fn may_hold(&self) -> bool
        ensures { IsTrue result ↔ HasVolume (IsDataAt (Some self.now)) (IsMainAt (Some self.now)) }
    {
        self.data.may_hold() || self.info.may_hold()
    }

    /// Both as a crash leaves them.
    fn crash(self, alloc: Global, pick: Pick, numbers: &Numbers) -> Result<Devices, Memory>
        ensures { IfOk result (λ left. IsLeftOf numbers.now self left) }
    {
        Ok(Devices {
            data: self.data.crash(alloc, pick, numbers.share()?)?,
            info: self.info.crash(alloc, pick, numbers.share()?)?,
        })
    }
}

/// The devices that are home after a crash.
fn crash_home(
    home: Option<Devices>,
    alloc: Global,
    pick: Pick,
    numbers: &Numbers,
) -> Result<Option<Devices>, Memory>
    ensures { IfOk result (λ left. IsHomeLeftOf numbers.now home left) }
{
    match home {
        None => Ok(None),
        Some(devices) => Ok(Some(devices.crash(alloc, pick, numbers)?)),
    }
}

impl Volume {
    /// Whether it is home, and a crash may leave bytes or a main file.
    pub(crate) fn may_hold(&self) -> bool
        ensures { IsTrue result ↔ HasVolume (IsDataAt self.now.home) (IsMainAt self.now.home) }
    {
        match &self.home {
            None => false,
            Some(devices) => devices.may_hold(),
        }
    }

    /// Gives the devices away, if they are home.
    pub(crate) fn lend(&mut self) -> Option<Devices>
        ensures path { self.new.path ≡ self.old.path }
        ensures devices { result ≡ self.old.home }
        ensures none { IfNone result (self.new ≡ self.old) }
        ensures some { IfSome result (λ devices. self.new ≡ record self.old { home = None; lent = (devices.data.calls.faults, devices.info.calls.faults) }) }
    {
        let devices = self.home.take()?;
        self.lent = devices.faults();
        Some(devices)
    }

    /// Takes devices back, and answers how many of their calls failed while they were lent.
    pub(crate) fn accept(&mut self, first: MemoryData, second: MemoryInfo) -> (u64, u64)
        ensures path { self.new.path ≡ self.old.path }
        ensures lent { self.new.lent ≡ self.old.lent }
        ensures home { IfSome self.new.home (λ devices. IsForgot first second devices) }
        ensures some { IsSome self.new.home }
        ensures risen { result ≡ (rise self.old.lent.0 first.calls.faults, rise self.old.lent.1 second.calls.faults) }
    {
        let mut devices = Devices {
            data: first,
            info: second,
        };
        let (first_faults, second_faults) = devices.faults();
        devices.data.forget();
        devices.info.forget();
        self.home = Some(devices);
        (
            rise_of(self.lent.0, first_faults),
            rise_of(self.lent.1, second_faults),
        )
    }

    /// The volume after a crash. One that is out stays out.
    pub(crate) fn crash(
        self,
        alloc: Global,
        pick: Pick,
        numbers: &Numbers,
    ) -> Result<Volume, Memory>
        ensures { IfOk result (λ left. IsVolumeLeftOf numbers.now self left) }
    {
        Ok(Volume {
            path: self.path,
            home: crash_home(self.home, alloc, pick, numbers)?,
            lent: self.lent,
        })
    }
}
