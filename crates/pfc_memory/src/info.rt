// Info devices in memory.
ghost use Rattle.std.specs.Prelude.{⊤, ◌≡◌, ◌↔◌, ◌≤◌, ℕ, List, Option, [], None, true, IsTrue, IsFalse, is_some, IfOk, IfSome, is_ok, vec_len};
ghost use Rattle.pfc_world.specs.Counts.{HasCause, RefusalCause};
ghost use Rattle.pfc_world.specs.Run.{Goes};
ghost use Rattle.pfc_world.specs.Info.{Info, IsMain, IsCutOf, bytes_of, WriteTemp, SyncTemp, Rename, Remove, Settle};
ghost use Rattle.std.specs.List.{list_any};
ghost use Rattle.pfc_memory.specs.History.{Counts, OkWherePasses, Leaves};

use crate::history::{DeviceCalls, History};
use crate::main_file::{self, MainState, Temporary};
use crate::numbers::{Numbers, Turn};
use pfc_base::Memory;
use pfc_world::{Fault, InfoDev, MAIN_READ_MOST, Refusal, World};
use std::alloc::Global;

/// A small file beside a file's data on a disk in memory. Its calls fail as the numbering of its depot says, and those
/// that find no memory.
#[derive(Drop)]
pub struct MemoryInfo {
    pub(crate) alloc: Global,
    pub(crate) history: History<MainState>,
    pub(crate) calls: DeviceCalls,
}

/// The first bytes of a main file, at most so many.
fn front(alloc: Global, main: &Option<Vec<u8>>, most: usize) -> Result<Option<Vec<u8>>, Memory>
    ensures cut { IfOk result (λ cut. IsCutOf most (bytes_of main.now) (bytes_of cut)) }
    ensures most { IfOk result (λ cut. IfSome cut (λ bytes. vec_len bytes ≤ most)) }
{
    match main {
        None => Ok(None),
        Some(bytes) => Ok(Some(bytes[..bytes.len().min(most)].to_vec(alloc)?)),
    }
}

/// Whether one of these is a main file.
fn is_some_main(mains: &[Option<Vec<u8>>]) -> bool
    ensures { result ≡ list_any is_some mains.now }
{
    for main in mains {
        if main.is_some() {
            return true;
        }
    }
    false
}

impl MemoryInfo {
    ghost use Rattle.pfc_memory.specs.Mains.{info_run, MayHaveMain};

    /// Without a main file, and settled, without a history.
    pub(crate) fn new(alloc: Global, numbers: Numbers) -> MemoryInfo
        ensures shown { (info_run result).now.shown ≡ None }
        ensures none { (main : Option (List ℕ)) → IsMain (info_run result).now main → main ≡ None }
        ensures past { (info_run result).past ≡ [] }
        ensures numbers { result.calls.numbers ≡ numbers }
        ensures fresh { IsFalse result.calls.burnt }
        ensures faults { result.calls.faults ≡ 0 }
    {
        MemoryInfo::of(alloc, numbers, None)
    }

    /// With this main file alone, settled, without a history.
    pub(crate) fn of(alloc: Global, numbers: Numbers, main: Option<Vec<u8>>) -> MemoryInfo
        ensures shown { (info_run result).now.shown ≡ bytes_of main }
        ensures only { (other : Option (List ℕ)) → IsMain (info_run result).now other → other ≡ bytes_of main }
        ensures past { (info_run result).past ≡ [] }
        ensures numbers { result.calls.numbers ≡ numbers }
        ensures fresh { IsFalse result.calls.burnt }
        ensures faults { result.calls.faults ≡ 0 }
    {
        let state = MainState {
            shown: main,
            others: Vec::new(alloc),
            torn: false,
            temporary: Temporary::Ragged,
            settled: true,
        };
        MemoryInfo {
            alloc,
            history: History::new(alloc, state),
            calls: DeviceCalls::new(numbers),
        }
    }

    /// Whether a crash may leave a main file.
    pub(crate) fn may_hold(&self) -> bool
        ensures { IsTrue result ↔ MayHaveMain (info_run self.now).now }
    {
        let now = &self.history.now;
        now.torn || (now.shown.is_some() || is_some_main(&now.others))
    }

    /// Forgets what was before: the present moment stays.
    pub(crate) fn forget(&mut self)
        ensures now { (info_run self.new).now ≡ (info_run self.old).now }
        ensures past { (info_run self.new).past ≡ [] }
        ensures calls { self.new.calls ≡ self.old.calls }
    {
        self.history.forget();
    }
}

impl<W: World> InfoDev<W> for MemoryInfo {
    ghost use Rattle.pfc_memory.specs.Mains.{info_run, CountsRead, MaySpoilTemp, Brings, MayRename, MayRemove, KeepsMains};

    ghost told = { true };

    ghost seen = { info_run };

    ghost faults = { λ d. d.calls.faults };

    fn read_main(&mut self, alloc: Global) -> Result<Option<Vec<u8>>, Refusal>
        ensures shown { IfOk result (λ main. IsCutOf MAIN_READ_MOST (info_run self.old).now.shown (bytes_of main)) }
        ensures most { IfOk result (λ main. IfSome main (λ bytes. vec_len bytes ≤ MAIN_READ_MOST)) }
        ensures same { info_run self.new ≡ info_run self.old }
        ensures cause { RefusalCause self.old.calls.faults self.new.calls.faults result }
        ensures counts { CountsRead self.old.calls self.new.calls result }
    {
        if self.calls.make() != Turn::Passes {
            let _ = self.calls.fail();
            return Err(Refusal::Fault);
        }
        match front(alloc, &self.history.now.shown, MAIN_READ_MOST) {
            Ok(main) => Ok(main),
            Err(Memory) => Err(Refusal::Memory),
        }
    }

    fn write_temp(&mut self, from: &[u8]) -> Result<(), Fault>
        ensures write { Goes (WriteTemp from.now (is_ok result)) (info_run self.old) (info_run self.new) }
        ensures cause { HasCause self.old.calls.faults self.new.calls.faults result }
        ensures counts { Counts self.old.calls self.new.calls result }
        ensures exactly { OkWherePasses self.old.calls self.new.calls result }
        ensures leaves { Leaves KeepsMains MaySpoilTemp self.old.calls self.new.calls (info_run self.old) (info_run self.new) }
    {
        let sides = main_file::write_temp(self.alloc, &self.history.now, from);
        self.history.step(&mut self.calls, sides)
    }

    fn sync_temp(&mut self) -> Result<(), Fault>
        ensures sync { Goes (SyncTemp (is_ok result)) (info_run self.old) (info_run self.new) }
        ensures cause { HasCause self.old.calls.faults self.new.calls.faults result }
        ensures counts { Counts self.old.calls self.new.calls result }
        ensures exactly { OkWherePasses self.old.calls self.new.calls result }
        ensures leaves { Leaves KeepsMains MaySpoilTemp self.old.calls self.new.calls (info_run self.old) (info_run self.new) }
    {
        let sides = main_file::sync_temp(self.alloc, &self.history.now);
        self.history.step(&mut self.calls, sides)
    }

    fn rename(&mut self) -> Result<(), Fault>
        ensures rename { Goes (Rename (is_ok result)) (info_run self.old) (info_run self.new) }
        ensures cause { HasCause self.old.calls.faults self.new.calls.faults result }
        ensures counts { Counts self.old.calls self.new.calls result }
        ensures exactly { OkWherePasses self.old.calls self.new.calls result }
        ensures leaves { Leaves Brings MayRename self.old.calls self.new.calls (info_run self.old) (info_run self.new) }
    {
        let sides = main_file::rename(self.alloc, &self.history.now);
        self.history.step(&mut self.calls, sides)
    }

    fn remove(&mut self) -> Result<(), Fault>
        ensures remove { Goes (Remove (is_ok result)) (info_run self.old) (info_run self.new) }
        ensures cause { HasCause self.old.calls.faults self.new.calls.faults result }
        ensures counts { Counts self.old.calls self.new.calls result }
        ensures exactly { OkWherePasses self.old.calls self.new.calls result }
        ensures leaves { Leaves (λ _ _. ⊤) MayRemove self.old.calls self.new.calls (info_run self.old) (info_run self.new) }
    {
        let sides = main_file::remove(self.alloc, &self.history.now);
        self.history.step(&mut self.calls, sides)
    }

    fn settle(&mut self) -> Result<(), Fault>
        ensures settle { Goes (Settle (is_ok result)) (info_run self.old) (info_run self.new) }
        ensures cause { HasCause self.old.calls.faults self.new.calls.faults result }
        ensures counts { Counts self.old.calls self.new.calls result }
        ensures exactly { OkWherePasses self.old.calls self.new.calls result }
        ensures leaves { Leaves (λ _ _. ⊤) KeepsMains self.old.calls self.new.calls (info_run self.old) (info_run self.new) }
    {
        let sides = main_file::settle(self.alloc, &self.history.now);
        self.history.step(&mut self.calls, sides)
    }

    fn faults(&self) -> u64 {
        self.calls.faults()
    }
}
