use crate::{MemoryData, MemoryDepot, MemoryInfo, Pick, RowWorld};
use pfc_base::Path;
use pfc_world::{DataDev, Depot, Fault, InfoDev, Taken};
use std::alloc::Global;
use std::test::Fail;

fn take(
    depot: &mut MemoryDepot,
    alloc: Global,
    path: &Path,
) -> Result<(MemoryData, MemoryInfo), Fail> {
    match Depot::<RowWorld>::take(depot, alloc, path) {
        Taken::Volume(first, second) => Ok((first, second)),
        _ => Err("no volume".into()),
    }
}

/// Puts bytes at the front, then syncs or doesn't.
fn write_front(data: &mut MemoryData, bytes: &[u8], syncs: bool) -> Result<(), Fault> {
    DataDev::<RowWorld>::write_at(data, 0, bytes)?;
    if syncs {
        DataDev::<RowWorld>::sync(data)?;
    }
    Ok(())
}

/// Puts bytes at the front of a volume's data. The answer is whether that was done and the depot took the volume back.
fn store(
    depot: &mut MemoryDepot,
    alloc: Global,
    path: &Path,
    bytes: &[u8],
    syncs: bool,
) -> Result<bool, Fail> {
    let (mut first, second) = take(depot, alloc, path)?;
    let written = write_front(&mut first, bytes, syncs).is_ok();
    Ok(Depot::<RowWorld>::put_back(depot, path, first, second) && written)
}

/// The first three bytes of a volume's data, which is put back.
fn front(depot: &mut MemoryDepot, alloc: Global, path: &Path) -> Result<[u8; 3], Fail> {
    let mut place = [0u8; 3];
    let (mut first, second) = take(depot, alloc, path)?;
    let read = DataDev::<RowWorld>::read_at(&mut first, 0, &mut place).is_ok();
    if Depot::<RowWorld>::put_back(depot, path, first, second) && read {
        Ok(place)
    } else {
        Err("nothing read".into())
    }
}

fn replace_main(info: &mut MemoryInfo, bytes: &[u8]) -> Result<(), Fault> {
    InfoDev::<RowWorld>::settle(info)?;
    InfoDev::<RowWorld>::write_temp(info, bytes)?;
    InfoDev::<RowWorld>::sync_temp(info)?;
    InfoDev::<RowWorld>::rename(info)
}

/// Puts a main file beside a volume's data. The answer is whether that was done and the depot took the volume back.
fn put_main(
    depot: &mut MemoryDepot,
    alloc: Global,
    path: &Path,
    bytes: &[u8],
) -> Result<bool, Fail> {
    let (first, mut second) = take(depot, alloc, path)?;
    let replaced = replace_main(&mut second, bytes).is_ok();
    Ok(Depot::<RowWorld>::put_back(depot, path, first, second) && replaced)
}

/// Whether the paths that are listed are these.
fn listed(depot: &mut MemoryDepot, alloc: Global, wanted: &[&[u8]]) -> Result<bool, Fail> {
    let paths = Depot::<RowWorld>::list(depot, alloc)?;
    if paths.len() != wanted.len() {
        return Ok(false);
    }
    for (path, bytes) in paths.iter().zip(wanted) {
        if path.as_bytes() != *bytes {
            return Ok(false);
        }
    }
    Ok(true)
}

fn new_depot(alloc: Global, fails: &[u64]) -> Result<MemoryDepot, Fail> {
    Ok(MemoryDepot::new(alloc, Vec::from_slice(alloc, fails)?, None)?)
}

/// What two volumes of one path read one after the other, and how many device calls were made and failed.
fn store_twice(alloc: Global) -> Result<([u8; 3], [u8; 3], u64, u64), Fail> {
    let mut depot = new_depot(alloc, &[])?;
    let path = Path::read(b"/a")?;
    let _ = store(&mut depot, alloc, &path, b"one two", true)?;
    let one = front(&mut depot, alloc, &path)?;
    let _ = store(&mut depot, alloc, &path, b"six", true)?;
    let six = front(&mut depot, alloc, &path)?;
    Ok((one, six, depot.calls(), depot.faults()))
}

#[test]
fn a_volume_comes_back_as_it_was_put(rt: HostRuntime) -> Result<(), Fail> {
    let (one, six, calls, faults) = store_twice(rt.alloc())?;
    assert_eq!(rt; one, *b"one");
    assert_eq!(rt; six, *b"six");
    // Two writes, two syncs and two reads.
    assert_eq!(rt; calls, 6);
    assert_eq!(rt; faults, 0);
    Ok(())
}

/// Whether a path that is out is told as out, how many are out then, and whether the depot takes devices back for a path
/// that isn't.
fn take_twice(alloc: Global) -> Result<(bool, u64, bool), Fail> {
    let mut depot = new_depot(alloc, &[])?;
    let path = Path::read(b"/a")?;
    let (first, second) = take(&mut depot, alloc, &path)?;
    let out = match Depot::<RowWorld>::take(&mut depot, alloc, &path) {
        Taken::Out => true,
        _ => false,
    };
    let outs = Depot::<RowWorld>::outs(&depot);
    let other = Path::read(b"/b")?;
    let taken = Depot::<RowWorld>::put_back(&mut depot, &other, first, second);
    Ok((out, outs, taken))
}

#[test]
fn a_path_that_is_out_is_not_given_again(rt: HostRuntime) -> Result<(), Fail> {
    let (out, outs, taken) = take_twice(rt.alloc())?;
    assert!(rt; out);
    assert_eq!(rt; outs, 1);
    assert!(rt; !taken);
    Ok(())
}

/// Whether an empty depot lists nothing, and one with a main file, an empty volume and one with bytes the first and the
/// last in order.
fn list_twice(alloc: Global) -> Result<(bool, bool), Fail> {
    let mut depot = new_depot(alloc, &[])?;
    let none = listed(&mut depot, alloc, &[])?;
    let _ = put_main(&mut depot, alloc, &Path::read(b"/c")?, b"main")?;
    let _ = store(&mut depot, alloc, &Path::read(b"/a")?, b"", true)?;
    let _ = store(&mut depot, alloc, &Path::read(b"/b")?, b"x", false)?;
    let two = listed(&mut depot, alloc, &[b"/b".as_slice(), b"/c".as_slice()])?;
    Ok((none, two))
}

#[test]
fn volumes_with_bytes_or_a_main_file_are_listed_in_order(rt: HostRuntime) -> Result<(), Fail> {
    let (none, two) = list_twice(rt.alloc())?;
    assert!(rt; none);
    assert!(rt; two);
    Ok(())
}

/// Whether a write and a sync succeed of which the second is named, and how many calls were made and failed.
fn fail_at_one(alloc: Global) -> Result<(bool, bool, u64, u64), Fail> {
    let mut depot = new_depot(alloc, &[1])?;
    let path = Path::read(b"/a")?;
    let (mut first, second) = take(&mut depot, alloc, &path)?;
    let written = DataDev::<RowWorld>::write_at(&mut first, 0, b"abc").is_ok();
    let synced = DataDev::<RowWorld>::sync(&mut first).is_ok();
    let _ = Depot::<RowWorld>::put_back(&mut depot, &path, first, second);
    Ok((written, synced, depot.calls(), depot.faults()))
}

#[test]
fn the_named_call_fails_and_is_counted(rt: HostRuntime) -> Result<(), Fail> {
    let (written, synced, calls, faults) = fail_at_one(rt.alloc())?;
    assert!(rt; written);
    assert!(rt; !synced);
    assert_eq!(rt; calls, 2);
    assert_eq!(rt; faults, 1);
    Ok(())
}

/// The first bytes that a crash leaves of a volume whose last write wasn't synced.
fn after_crash(alloc: Global, pick: Pick) -> Result<[u8; 3], Fail> {
    let mut depot = new_depot(alloc, &[])?;
    let path = Path::read(b"/a")?;
    let _ = store(&mut depot, alloc, &path, b"abc", true)?;
    let _ = store(&mut depot, alloc, &path, b"xy", false)?;
    let mut after = depot.crash(alloc, pick)?;
    front(&mut after, alloc, &path)
}

#[test]
fn a_crash_leaves_an_image_of_each_volume(rt: HostRuntime) -> Result<(), Fail> {
    let alloc = rt.alloc();
    assert_eq!(rt; after_crash(alloc, Pick::Old)?, *b"\0\0c");
    assert_eq!(rt; after_crash(alloc, Pick::New)?, *b"xyc");
    assert_eq!(rt;
        after_crash(alloc, Pick::Torn)?,
        [b'x' ^ 0xA5, b'y' ^ 0xA5, b'c']
    );
    Ok(())
}
