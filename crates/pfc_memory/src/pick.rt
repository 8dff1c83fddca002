// What a crash leaves of a device in memory.
ghost use Rattle.std.specs.Prelude.{◌≡◌, ◌<◌, ◌≤◌, ℕ, List, Option, [], length, slice_index, true, IfOk, IsFalse};
ghost use Rattle.pfc_world.specs.Disk.{IsImage, Firm, LiesBetween, not_settled};
ghost use Rattle.pfc_world.specs.Info.{IsMain, bytes_of};
ghost use Rattle.pfc_memory.specs.Mains.{info_of, info_run, mains_of, Among, oldest_of};
ghost use Rattle.pfc_memory.specs.declared.pick.Pick.TheVariants.{Old, New};
ghost use Rattle.pfc_memory.specs.Places.{place_of, place_at};
ghost use Rattle.pfc_memory.specs.Data.{disk_of, data_run, FirmBelow, SameWhereFirm};

use crate::lay::DiskState;
use crate::main_file::MainState;
use crate::numbers::Numbers;
use crate::place::{Place, place_at};
use crate::{MemoryData, MemoryInfo};
use pfc_base::Memory;
use std::alloc::Global;

/// Which image of each device a crash leaves.
#[derive(Clone, Copy, Debug, PartialEq, Eq)]
pub enum Pick {
    /// What the disk settled: other bytes are 0, and a main file is the oldest that may stand.
    Old,
    /// What the device reads.
    New,
    /// What the disk settled, with garbage everywhere else, and a main file is torn if it may be, and else the oldest
    /// that may stand.
    Torn,
}

/// What a byte that isn't settled is garbled with.
const GARBAGE: u8 = 0xA5;

impl Pick {
    /// What it leaves of a byte that isn't settled.
    fn byte(self, byte: u8) -> u8 {
        match self {
            Pick::Old => 0,
            Pick::New => byte,
            Pick::Torn => byte ^ GARBAGE,
        }
    }
}

/// The length that the settled bytes reach.
fn settled_len(count: usize, places: &[Place]) -> usize
    ensures within { result ≤ count }
    ensures reach { FirmBelow count places.now result }
{
    let mut len = 0;
    for number in 0..count {
        if !place_at(places, number).is_loose() {
            len = number + 1;
        }
    }
    len
}

/// Where the places that aren't settled, from a number on, end.
fn loose_end(from: usize, places: &[Place]) -> usize
    ensures from { from ≤ result }
    ensures loose { (p : ℕ) → LiesBetween from result p → not_settled (place_of (place_at places.now p)) ≡ true }
{
    let mut end = from;
    for number in from..places.len() {
        if !places[number].is_loose() {
            return end;
        }
        end = number + 1;
    }
    end
}

/// Puts what a crash leaves in the place of each byte that isn't settled.
fn spoil(pick: Pick, bytes: &mut [u8], places: &[Place])
    ensures { SameWhereFirm places.now bytes.old bytes.new }
{
    for number in 0..bytes.len() {
        if place_at(places, number).is_loose() {
            bytes[number] = pick.byte(bytes[number]);
        }
    }
}

/// What a crash leaves of a disk.
fn image(pick: Pick, state: DiskState) -> Result<Vec<u8>, Memory>
    ensures image { IfOk result (λ image. IsImage (disk_of state) image.items) }
    ensures reads { pick ≡ New → IfOk result (λ image. image.items ≡ state.bytes.items) }
{
    let DiskState { mut bytes, places } = state;
    match pick {
        Pick::Old => bytes.truncate(settled_len(bytes.len(), &places)),
        Pick::New => return Ok(bytes),
        Pick::Torn => bytes.resize(loose_end(bytes.len(), &places), 0)?,
    }
    spoil(pick, &mut bytes, &places);
    Ok(bytes)
}

impl MemoryData {
    /// The device after a crash: one of its images, all of it settled, that no call failed on yet.
    pub(crate) fn crash(
        self,
        alloc: Global,
        pick: Pick,
        numbers: Numbers,
    ) -> Result<MemoryData, Memory>
        ensures image { IfOk result (λ after. IsImage (data_run self).now (data_run after).now.reads) }
        ensures reads { pick ≡ New → IfOk result (λ after. (data_run after).now.reads ≡ (data_run self).now.reads) }
        ensures settled { IfOk result (λ after. (p : ℕ) → Firm (data_run after).now p) }
        ensures past { IfOk result (λ after. (data_run after).past ≡ []) }
        ensures numbers { IfOk result (λ after. after.calls.numbers ≡ numbers) }
        ensures fresh { IfOk result (λ after. IsFalse after.calls.burnt) }
        ensures faults { IfOk result (λ after. after.calls.faults ≡ 0) }
    {
        let MemoryData { history, .. } = self;
        let mut after = MemoryData::new(alloc, numbers);
        after.history.now.bytes = image(pick, history.now)?;
        Ok(after)
    }
}

/// A torn main file: the first half of what reads.
fn half(alloc: Global, shown: Option<Vec<u8>>) -> Vec<u8> {
    match shown {
        None => Vec::new(alloc),
        Some(mut bytes) => {
            bytes.truncate(bytes.len() / 2);
            bytes
        }
    }
}

/// The oldest main file that may stand.
fn oldest(shown: Option<Vec<u8>>, others: Vec<Option<Vec<u8>>>) -> Option<Vec<u8>>
    ensures among { Among (bytes_of shown) (mains_of others.items) (bytes_of result) }
    ensures oldest { bytes_of result ≡ oldest_of (bytes_of shown) (mains_of others.items) }
{
    match others.into_iter().next() {
        None => shown,
        Some(main) => main,
    }
}

/// What a crash leaves of a main file.
fn main_image(alloc: Global, pick: Pick, state: MainState) -> Option<Vec<u8>>
    ensures image { IsMain (info_of state) (bytes_of result) }
    ensures reads { pick ≡ New → bytes_of result ≡ (info_of state).shown }
    ensures oldest { pick ≡ Old → bytes_of result ≡ oldest_of (info_of state).shown (info_of state).others }
{
    let MainState {
        shown,
        others,
        torn,
        ..
    } = state;
    match pick {
        Pick::New => shown,
        Pick::Torn if torn => Some(half(alloc, shown)),
        Pick::Old | Pick::Torn => oldest(shown, others),
    }
}

impl MemoryInfo {
    /// The device after a crash: one of its main files, settled, that no call failed on yet.
    pub(crate) fn crash(
        self,
        alloc: Global,
        pick: Pick,
        numbers: Numbers,
    ) -> Result<MemoryInfo, Memory>
        ensures image { IfOk result (λ after. IsMain (info_run self).now (info_run after).now.shown) }
        ensures reads { pick ≡ New → IfOk result (λ after. (info_run after).now.shown ≡ (info_run self).now.shown) }
        ensures oldest { pick ≡ Old → IfOk result (λ after. (info_run after).now.shown ≡ oldest_of (info_run self).now.shown (info_run self).now.others) }
        ensures only { IfOk result (λ after. (main : Option (List ℕ)) → IsMain (info_run after).now main → main ≡ (info_run after).now.shown) }
        ensures past { IfOk result (λ after. (info_run after).past ≡ []) }
        ensures numbers { IfOk result (λ after. after.calls.numbers ≡ numbers) }
        ensures fresh { IfOk result (λ after. IsFalse after.calls.burnt) }
        ensures faults { IfOk result (λ after. after.calls.faults ≡ 0) }
    {
        let MemoryInfo { history, .. } = self;
        Ok(MemoryInfo::of(alloc, numbers, main_image(alloc, pick, history.now)))
    }
}
