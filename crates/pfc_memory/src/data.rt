// Data devices in memory.
ghost use Rattle.std.specs.Prelude.{⊤, ◌≡◌, ◌≢◌, ◌↔◌, ◌≤◌, ◌+◌, ℕ, List, [], length, true, IsTrue, IsFalse, IsOk, IsErr, is_ok, Some};
ghost use Rattle.pfc_world.specs.Counts.{HasCause};
ghost use Rattle.pfc_world.specs.Run.{Goes};
ghost use Rattle.pfc_world.specs.Disk.{Read, Write, Sync, Clear, IsImage, Firm};
ghost use Rattle.pfc_memory.specs.declared.numbers.Turn.TheVariants.{Passes};
ghost use Rattle.pfc_memory.specs.History.{Counts, OkWherePasses, Leaves, turn_between};

use crate::history::{DeviceCalls, History};
use crate::lay::{self, DiskState};
use crate::numbers::{Numbers, Turn};
use crate::place::place_at;
use pfc_world::{DataDev, Fault, World};
use std::alloc::Global;

/// A file's data on a disk in memory. Its calls fail as the numbering of its depot says, and those that find no memory.
#[derive(Drop)]
pub struct MemoryData {
    pub(crate) alloc: Global,
    pub(crate) history: History<DiskState>,
    pub(crate) calls: DeviceCalls,
}

impl MemoryData {
    ghost use Rattle.pfc_memory.specs.Data.{data_run, MayHold};

    /// Empty and settled, without a history.
    pub(crate) fn new(alloc: Global, numbers: Numbers) -> MemoryData
        ensures empty { (data_run result).now.reads ≡ [] }
        ensures settled { (p : ℕ) → Firm (data_run result).now p }
        ensures past { (data_run result).past ≡ [] }
        ensures numbers { result.calls.numbers ≡ numbers }
        ensures fresh { IsFalse result.calls.burnt }
        ensures faults { result.calls.faults ≡ 0 }
    {
        let state = DiskState {
            bytes: Vec::new(alloc),
            places: Vec::new(alloc),
        };
        MemoryData {
            alloc,
            history: History::new(alloc, state),
            calls: DeviceCalls::new(numbers),
        }
    }

    /// Whether a crash may leave bytes.
    pub(crate) fn may_hold(&self) -> bool
        ensures { IsTrue result ↔ MayHold (data_run self.now).now }
    {
        let DiskState { bytes, places } = &self.history.now;
        !bytes.is_empty() || place_at(places, 0).is_loose()
    }

    /// Forgets what was before: the present moment stays.
    pub(crate) fn forget(&mut self)
        ensures now { (data_run self.new).now ≡ (data_run self.old).now }
        ensures past { (data_run self.new).past ≡ [] }
        ensures calls { self.new.calls ≡ self.old.calls }
    {
        self.history.forget();
    }
}

impl<W: World> DataDev<W> for MemoryData {
    ghost use Rattle.pfc_memory.specs.Data.{data_run, Unsettles, MayWrite, Settled, MaySync, MayClear};

    ghost told = { true };

    ghost seen = { data_run };

    ghost faults = { λ d. d.calls.faults };

    fn read_at(&mut self, at: u64, into: &mut [u8]) -> Result<(), Fault>
        ensures read { Read at into.new (is_ok result) (data_run self.old) (data_run self.new) }
        ensures cause { HasCause self.old.calls.faults self.new.calls.faults result }
        ensures counts { Counts self.old.calls self.new.calls result }
        ensures exactly { IsOk result ↔ (turn_between self.old.calls self.new.calls ≡ Some Passes) × (at + length into.old ≤ length (data_run self.old).now.reads) }
    {
        let at = at as usize;
        let bytes = &self.history.now.bytes;
        if self.calls.make() != Turn::Passes || at > bytes.len() || into.len() > bytes.len() - at {
            return Err(self.calls.fail());
        }
        into.copy_from_slice(&bytes[at..at + into.len()]);
        Ok(())
    }

    fn write_at(&mut self, at: u64, from: &[u8]) -> Result<(), Fault>
        ensures write { Goes (Write at from.now (is_ok result)) (data_run self.old) (data_run self.new) }
        ensures cause { HasCause self.old.calls.faults self.new.calls.faults result }
        ensures counts { Counts self.old.calls self.new.calls result }
        ensures exactly { OkWherePasses self.old.calls self.new.calls result }
        ensures leaves { Leaves (Unsettles at (length from.now)) (MayWrite at from.now) self.old.calls self.new.calls (data_run self.old) (data_run self.new) }
    {
        let sides = lay::write(self.alloc, &self.history.now, at as usize, from);
        self.history.step(&mut self.calls, sides)
    }

    fn sync(&mut self) -> Result<(), Fault>
        ensures sync { Goes (Sync (is_ok result)) (data_run self.old) (data_run self.new) }
        ensures cause { HasCause self.old.calls.faults self.new.calls.faults result }
        ensures counts { Counts self.old.calls self.new.calls result }
        ensures exactly { OkWherePasses self.old.calls self.new.calls result }
        ensures leaves { Leaves Settled MaySync self.old.calls self.new.calls (data_run self.old) (data_run self.new) }
    {
        let sides = lay::sync(self.alloc, &self.history.now);
        self.history.step(&mut self.calls, sides)
    }

    fn clear(&mut self) -> Result<(), Fault>
        ensures clear { Clear (is_ok result) (data_run self.old) (data_run self.new) }
        ensures cause { HasCause self.old.calls.faults self.new.calls.faults result }
        ensures counts { Counts self.old.calls self.new.calls result }
        ensures exactly { OkWherePasses self.old.calls self.new.calls result }
        ensures leaves { Leaves (λ _ _. ⊤) MayClear self.old.calls self.new.calls (data_run self.old) (data_run self.new) }
    {
        let sides = lay::clear(self.alloc, &self.history.now);
        self.history.step(&mut self.calls, sides)
    }

    fn faults(&self) -> u64 {
        self.calls.faults()
    }
}
