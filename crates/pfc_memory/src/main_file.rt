// What the calls on an info device in memory leave.
ghost use Rattle.std.specs.Prelude.{◌≡◌, ◌||◌, not, IfOk};
ghost use Rattle.pfc_world.specs.Info.{bytes_of};
ghost use Rattle.pfc_memory.specs.Mains.{info_of, temporary_of, mains_of, certain_of, uncertain_of, is_stable, Brought, Synced, WritesTemp, SyncsTemp, Renames, Removes, Settles};

use crate::history::Sides;
use pfc_base::Memory;
use std::alloc::Global;

/// The temporary beside a main file.
#[derive(Drop)]
pub(crate) enum Temporary {
    /// It may hold anything.
    Ragged,
    /// It is whole, and a crash may tear it.
    Whole(Vec<u8>),
    /// It is whole, and stays so.
    Stable(Vec<u8>),
}

/// What an info device reads, what else a crash may leave of the main file, and its temporary.
#[derive(Drop)]
pub(crate) struct MainState {
    pub(crate) shown: Option<Vec<u8>>,
    // The oldest first.
    pub(crate) others: Vec<Option<Vec<u8>>>,
    // Whether a crash may leave a main file of any bytes.
    pub(crate) torn: bool,
    pub(crate) temporary: Temporary,
    pub(crate) settled: bool,
}

fn copy(alloc: Global, main: &Option<Vec<u8>>) -> Result<Option<Vec<u8>>, Memory>
    ensures { IfOk result (λ other. bytes_of other ≡ bytes_of main.now) }
{
    match main {
        Some(bytes) => Ok(Some(bytes.to_vec(alloc)?)),
        None => Ok(None),
    }
}

fn copy_others(alloc: Global, mains: &[Option<Vec<u8>>]) -> Result<Vec<Option<Vec<u8>>>, Memory>
    ensures { IfOk result (λ others. mains_of others.items ≡ mains_of mains.now) }
{
    let mut others = Vec::new(alloc);
    for main in mains {
        others.push(copy(alloc, main)?)?;
    }
    Ok(others)
}

fn copy_temporary(alloc: Global, temporary: &Temporary) -> Result<Temporary, Memory>
    ensures { IfOk result (λ other. temporary_of other ≡ temporary_of temporary.now) }
{
    Ok(match temporary {
        Temporary::Ragged => Temporary::Ragged,
        Temporary::Whole(bytes) => Temporary::Whole(bytes.to_vec(alloc)?),
        Temporary::Stable(bytes) => Temporary::Stable(bytes.to_vec(alloc)?),
    })
}

/// The same main file, with another temporary.
fn with_temporary(alloc: Global, old: &MainState, temporary: Temporary) -> Result<MainState, Memory>
    ensures { IfOk result (λ state. info_of state ≡ record (info_of old.now) { temporary = temporary_of temporary }) }
{
    Ok(MainState {
        shown: copy(alloc, &old.shown)?,
        others: copy_others(alloc, &old.others)?,
        torn: old.torn,
        temporary,
        settled: old.settled,
    })
}

/// A main file of which a crash leaves what reads, or anything if it may be torn.
fn certain(alloc: Global, shown: Option<Vec<u8>>, torn: bool, temporary: Temporary) -> MainState
    ensures { info_of result ≡ certain_of (bytes_of shown) torn (temporary_of temporary) }
{
    MainState {
        shown,
        others: Vec::new(alloc),
        torn,
        temporary,
        settled: true,
    }
}

/// Another main file, of which a crash may leave the old one too.
fn uncertain(
    alloc: Global,
    old: &MainState,
    shown: Option<Vec<u8>>,
    torn: bool,
    temporary: Temporary,
) -> Result<MainState, Memory>
    ensures { IfOk result (λ state. info_of state ≡ uncertain_of (info_of old.now) (bytes_of shown) torn (temporary_of temporary)) }
{
    let mut others = copy_others(alloc, &old.others)?;
    others.push(copy(alloc, &old.shown)?)?;
    Ok(MainState {
        shown,
        others,
        torn,
        temporary,
        settled: false,
    })
}

/// What a write of a temporary leaves.
pub(crate) fn write_temp(
    alloc: Global,
    old: &MainState,
    from: &[u8],
) -> Result<Sides<MainState>, Memory>
    ensures { IfOk result (λ sides. WritesTemp from.now old.now sides) }
{
    Ok(Sides {
        done: with_temporary(alloc, old, Temporary::Whole(from.to_vec(alloc)?))?,
        doubtful: with_temporary(alloc, old, Temporary::Ragged)?,
    })
}

/// The temporary after a sync.
fn synced(alloc: Global, temporary: &Temporary) -> Result<Temporary, Memory>
    ensures { IfOk result (λ other. Synced temporary.now other) }
{
    Ok(match temporary {
        Temporary::Ragged => Temporary::Ragged,
        Temporary::Whole(bytes) | Temporary::Stable(bytes) => {
            Temporary::Stable(bytes.to_vec(alloc)?)
        }
    })
}

/// What a sync of the temporary leaves.
pub(crate) fn sync_temp(alloc: Global, old: &MainState) -> Result<Sides<MainState>, Memory>
    ensures { IfOk result (λ sides. SyncsTemp old.now sides) }
{
    let temporary = synced(alloc, &old.temporary)?;
    Ok(Sides {
        done: with_temporary(alloc, old, temporary)?,
        doubtful: with_temporary(alloc, old, Temporary::Ragged)?,
    })
}

/// The main file that a rename brings.
fn brought(alloc: Global, temporary: &Temporary) -> Result<Vec<u8>, Memory>
    ensures { IfOk result (λ bytes. Brought temporary.now bytes.items) }
{
    match temporary {
        Temporary::Ragged => Ok(Vec::new(alloc)),
        Temporary::Whole(bytes) | Temporary::Stable(bytes) => Ok(bytes.to_vec(alloc)?),
    }
}

/// Whether a crash leaves the temporary as it is.
fn is_stable(temporary: &Temporary) -> bool
    ensures { result ≡ is_stable (temporary_of temporary.now) }
{
    match temporary {
        Temporary::Ragged | Temporary::Whole(_) => false,
        Temporary::Stable(_) => true,
    }
}

/// Whether a crash may tear the main file after a rename that failed.
fn may_tear(old: &MainState) -> bool
    ensures { result ≡ (old.now.torn || not (is_stable (temporary_of old.now.temporary))) }
{
    old.torn || !is_stable(&old.temporary)
}

/// What a rename leaves. A temporary that isn't stable brings a main file that a crash may tear.
pub(crate) fn rename(alloc: Global, old: &MainState) -> Result<Sides<MainState>, Memory>
    ensures { IfOk result (λ sides. Renames old.now sides) }
{
    let torn = !is_stable(&old.temporary);
    let first = brought(alloc, &old.temporary)?;
    let second = brought(alloc, &old.temporary)?;
    Ok(Sides {
        done: certain(alloc, Some(first), torn, Temporary::Ragged),
        doubtful: uncertain(alloc, old, Some(second), may_tear(old), Temporary::Ragged)?,
    })
}

/// What a removal leaves.
pub(crate) fn remove(alloc: Global, old: &MainState) -> Result<Sides<MainState>, Memory>
    ensures { IfOk result (λ sides. Removes old.now sides) }
{
    let first = copy_temporary(alloc, &old.temporary)?;
    let second = copy_temporary(alloc, &old.temporary)?;
    Ok(Sides {
        done: certain(alloc, None, false, first),
        doubtful: uncertain(alloc, old, None, old.torn, second)?,
    })
}

/// What a settling leaves. One that fails changes nothing.
pub(crate) fn settle(alloc: Global, old: &MainState) -> Result<Sides<MainState>, Memory>
    ensures { IfOk result (λ sides. Settles old.now sides) }
{
    let first = copy_temporary(alloc, &old.temporary)?;
    let second = copy_temporary(alloc, &old.temporary)?;
    Ok(Sides {
        done: certain(alloc, copy(alloc, &old.shown)?, false, first),
        doubtful: with_temporary(alloc, old, second)?,
    })
}
