//! The outside of the tests' runs.
ghost use Rattle.std.specs.Prelude.{◌≡◌, ℕ, List, [], IfOk, refl};
ghost use Rattle.pfc_world.specs.Depot.{AllSound};
ghost use Rattle.pfc_memory.specs.Depot.{data_home, main_home, out_of};
ghost use Rattle.pfc_memory.specs.Rows.{row_files};

use crate::run_replay;
use pfc_base::Path;
use pfc_memory::{
    ListClock, MemoryData, MemoryDepot, MemoryHost, MemoryInfo, Pick, RowWorld, VecSink,
};
use pfc_world::{Depot, Refusal, Taken};
use std::alloc::Global;
use std::test::Fail;

/// A host whose texts `config` and `schedule` are these. `fails` names calls of links that fail: the link's number and the call's,
/// from 0 on.
pub fn host_of(
    alloc: Global,
    config: &str,
    schedule: &str,
    fails: &[(u32, u64)],
) -> Result<MemoryHost<RowWorld>, Fail> {
    let mut texts = Vec::new(alloc);
    texts.push((
        String::from_str(alloc, "config")?,
        Vec::from_slice(alloc, config.as_bytes())?,
    ))?;
    texts.push((
        String::from_str(alloc, "schedule")?,
        Vec::from_slice(alloc, schedule.as_bytes())?,
    ))?;
    let fails = Vec::from_slice(alloc, fails)?;
    Ok(MemoryHost::new(alloc, texts, fails, Vec::new(alloc))?)
}

/// The words of a line.
pub fn words_of(alloc: Global, line: &str) -> Result<Vec<String>, Fail> {
    let mut words = Vec::new(alloc);
    for word in line.split(' ') {
        words.push(String::from_str(alloc, word)?)?;
    }
    Ok(words)
}

/// A depot with nothing in it, of whose device calls these fail, and all from the fuse on.
pub fn empty_depot(alloc: Global, breaks: &[u64], fuse: Option<u64>) -> Result<MemoryDepot, Fail>
    ensures home { IfOk result (λ depot. out_of depot.volumes.items ≡ []) }
    ensures sound { IfOk result (λ depot. (path : List ℕ) → AllSound row_files path (data_home depot.volumes.items path) (main_home depot.volumes.items path)) }
{
    Ok(MemoryDepot::new(alloc, Vec::from_slice(alloc, breaks)?, fuse)?)
}

/// Runs a schedule over a depot whose volumes are home and sound, which they are afterwards too.
pub fn run_by(
    alloc: Global,
    words: &[String],
    host: &mut MemoryHost<RowWorld>,
    depot: &mut MemoryDepot,
    mut clock: ListClock,
    out: &mut VecSink,
) -> u8
    requires home { out_of depot.old.volumes.items ≡ [] }
    requires sound { (path : List ℕ) → AllSound row_files path (data_home depot.old.volumes.items path) (main_home depot.old.volumes.items path) }
    ensures home { out_of depot.new.volumes.items ≡ [] }
    ensures sound { (path : List ℕ) → AllSound row_files path (data_home depot.new.volumes.items path) (main_home depot.new.volumes.items path) }
{
    run_replay::<RowWorld, MemoryHost<RowWorld>, MemoryDepot, ListClock, VecSink>(
        alloc, words, host, depot, &mut clock, out,
    )
}

/// Runs a schedule so, while the clock always tells 0.
pub fn run_over(
    alloc: Global,
    words: &[String],
    host: &mut MemoryHost<RowWorld>,
    depot: &mut MemoryDepot,
    out: &mut VecSink,
) -> u8
    requires home { out_of depot.old.volumes.items ≡ [] }
    requires sound { (path : List ℕ) → AllSound row_files path (data_home depot.old.volumes.items path) (main_home depot.old.volumes.items path) }
    ensures home { out_of depot.new.volumes.items ≡ [] }
    ensures sound { (path : List ℕ) → AllSound row_files path (data_home depot.new.volumes.items path) (main_home depot.new.volumes.items path) }
{
    let clock = ListClock::new(Vec::new(alloc));
    run_by(alloc, words, host, depot, clock, out)
}

/// What a crash leaves of a depot whose volumes are home and sound.
pub fn crashed(alloc: Global, depot: MemoryDepot, pick: Pick) -> Result<MemoryDepot, Fail>
    requires home { out_of depot.volumes.items ≡ [] }
    requires sound { (path : List ℕ) → AllSound row_files path (data_home depot.volumes.items path) (main_home depot.volumes.items path) }
    ensures home { IfOk result (λ left. out_of left.volumes.items ≡ []) }
    ensures sound { IfOk result (λ left. (path : List ℕ) → AllSound row_files path (data_home left.volumes.items path) (main_home left.volumes.items path)) }
{
    Ok(depot.crash(alloc, pick)?)
}

/// A depot that can't be listed, and has no volume.
#[derive(Drop)]
pub struct ShutDepot {
    faults: u64,
}

impl ShutDepot {
    pub fn new() -> ShutDepot {
        ShutDepot { faults: 0 }
    }
}

impl Depot<RowWorld> for ShutDepot {
    type Data = MemoryData;

    type Info = MemoryInfo;

    ghost home_data = { λ _ _ _. ⊥ };

    ghost home_main = { λ _ _ _. ⊥ };

    ghost out = { λ _. [] };

    ghost lent = { λ _ _. (0, 0) };

    ghost faults = { λ d. d.faults };

    ghost unlisted = { λ d. d.faults };

    ghost alike = { refl };

    fn list(&mut self, _alloc: Global) -> Result<Vec<Path>, Refusal> {
        self.faults = self.faults.saturating_add(1);
        Err(Refusal::Fault)
    }

    fn take(&mut self, _alloc: Global, _path: &Path) -> Taken<MemoryData, MemoryInfo> {
        Taken::Memory
    }

    fn put_back(&mut self, _path: &Path, _first: MemoryData, _second: MemoryInfo) -> bool {
        false
    }

    fn outs(&self) -> u64 {
        0
    }
}
