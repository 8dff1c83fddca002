// What the calls on a data device in memory leave.
ghost use Rattle.std.specs.Prelude.{◌≡◌, ◌+◌, ◌<◌, ◌≤◌, ◌^◌, length, map, IfOk};
ghost use Rattle.pfc_memory.specs.Places.{after_sync, after_loss, Marked, Loses};
ghost use Rattle.pfc_memory.specs.Data.{Laid, Writes, Syncs, Clears};

use crate::history::Sides;
use crate::place::Place;
use pfc_base::Memory;
use std::alloc::Global;

/// What a data device reads, and how durable each place is. Places past the end of their list are settled.
#[derive(Drop)]
pub(crate) struct DiskState {
    pub(crate) bytes: Vec<u8>,
    pub(crate) places: Vec<Place>,
}

/// The bytes with others laid over them from a place on, and zeros in a gap before it.
fn laid(alloc: Global, old: &[u8], at: usize, from: &[u8]) -> Result<Vec<u8>, Memory>
    requires { at + length from.now < 2 ^ 64 }
    ensures { IfOk result (λ bytes. Laid at from.now old.now bytes.items) }
{
    let mut bytes = Vec::new(alloc);
    bytes.extend_from_slice(&old[..at.min(old.len())])?;
    bytes.resize(at, 0)?;
    bytes.extend_from_slice(from)?;
    bytes.extend_from_slice(&old[(at + from.len()).min(old.len())..])?;
    Ok(bytes)
}

/// The places with those of a range unsettled.
fn marked(alloc: Global, old: &[Place], from: usize, to: usize) -> Result<Vec<Place>, Memory>
    requires { from ≤ to }
    ensures { IfOk result (λ places. Marked from to old.now places.items) }
{
    let mut places = Vec::new(alloc);
    places.extend_from_slice(&old[..from.min(old.len())])?;
    places.resize(from, Place::Settled)?;
    places.resize(to, Place::Unsettled)?;
    places.extend_from_slice(&old[to.min(old.len())..])?;
    Ok(places)
}

/// The places after a sync.
fn synced(alloc: Global, old: &[Place]) -> Result<Vec<Place>, Memory>
    ensures { IfOk result (λ places. places.items ≡ map after_sync old.now) }
{
    Ok(old.iter().map(|place| place.synced()).collect(alloc)?)
}

/// The places after a sync that failed.
fn lost(alloc: Global, old: &[Place]) -> Result<Vec<Place>, Memory>
    ensures { IfOk result (λ places. places.items ≡ map after_loss old.now) }
{
    Ok(old.iter().map(|place| place.lost()).collect(alloc)?)
}

/// The places after a clear of so many bytes that failed.
fn all_lost(alloc: Global, old: &[Place], count: usize) -> Result<Vec<Place>, Memory>
    ensures { IfOk result (λ places. Loses count old.now places.items) }
{
    let mut places = Vec::new(alloc);
    places.resize(count, Place::LeftOver)?;
    let rest = lost(alloc, &old[count.min(old.len())..])?;
    places.extend_from_slice(&rest)?;
    Ok(places)
}

/// What a write of these bytes leaves.
pub(crate) fn write(
    alloc: Global,
    old: &DiskState,
    at: usize,
    from: &[u8],
) -> Result<Sides<DiskState>, Memory>
    ensures { IfOk result (λ sides. Writes at from.now old.now sides) }
{
    // Where the bytes end past 2 ^ 64 there is no memory for them.
    let end = at.checked_add(from.len()).ok_or(Memory)?;
    let first = at.min(old.bytes.len());
    Ok(Sides {
        done: DiskState {
            bytes: laid(alloc, &old.bytes, at, from)?,
            places: marked(alloc, &old.places, first, end)?,
        },
        doubtful: DiskState {
            bytes: old.bytes.to_vec(alloc)?,
            places: marked(alloc, &old.places, first, end)?,
        },
    })
}

/// What a sync leaves.
pub(crate) fn sync(alloc: Global, old: &DiskState) -> Result<Sides<DiskState>, Memory>
    ensures { IfOk result (λ sides. Syncs old.now sides) }
{
    Ok(Sides {
        done: DiskState {
            bytes: old.bytes.to_vec(alloc)?,
            places: synced(alloc, &old.places)?,
        },
        doubtful: DiskState {
            bytes: old.bytes.to_vec(alloc)?,
            places: lost(alloc, &old.places)?,
        },
    })
}

/// What a clear leaves.
pub(crate) fn clear(alloc: Global, old: &DiskState) -> Result<Sides<DiskState>, Memory>
    ensures { IfOk result (λ sides. Clears old.now sides) }
{
    Ok(Sides {
        done: DiskState {
            bytes: Vec::new(alloc),
            places: Vec::new(alloc),
        },
        doubtful: DiskState {
            bytes: old.bytes.to_vec(alloc)?,
            places: all_lost(alloc, &old.places, old.bytes.len())?,
        },
    })
}
