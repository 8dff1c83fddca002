// The cache's folder.
use super::files::{depot_over, make_empty, words_of};
use crate::{FolderData, FolderDepot, FolderInfo, WallClock};
use pfc_base::Path;
use pfc_world::{Clock, DataDev, Depot, InfoDev, Taken};
use std::alloc::Global;
use std::fs;
use std::test::Fail;

/// What a data device answered, and its count of faults.
#[derive(Clone, Copy)]
struct DataRun {
    bytes: [u8; 8],
    as_wanted: [bool; 9],
    faults: u64,
}

fn run_data(data: &mut FolderData<HostRuntime>) -> DataRun {
    let mut bytes = [7u8; 8];
    let as_wanted = [
        data.read_at(0, &mut []).is_ok(),
        data.read_at(0, &mut [0; 1]).is_err(),
        data.sync().is_ok(),
        data.write_at(3, b"stone").is_ok(),
        data.read_at(0, &mut bytes).is_ok(),
        data.read_at(8, &mut [0; 1]).is_err(),
        data.read_at(9, &mut []).is_err(),
        data.write_at(u64::MAX, b"x").is_err(),
        data.sync().is_ok(),
    ];
    let faults = data.faults();
    DataRun {
        bytes,
        as_wanted,
        faults,
    }
}

/// Takes a path's volume, uses its data, and puts it back.
fn data_of(
    depot: &mut FolderDepot<HostRuntime>,
    alloc: Global,
    path: &Path,
) -> Result<(DataRun, bool), Fail> {
    let Taken::Volume(mut data, info) = depot.take(alloc, path) else {
        return Err("no volume".into());
    };
    let run = run_data(&mut data);
    let back = depot.put_back(path, data, info);
    Ok((run, back))
}

/// Takes a path's volume, clears its data, and puts it back.
fn clear_of(
    depot: &mut FolderDepot<HostRuntime>,
    alloc: Global,
    path: &Path,
) -> Result<[bool; 4], Fail> {
    let Taken::Volume(mut data, info) = depot.take(alloc, path) else {
        return Err("no volume".into());
    };
    let kept = data.read_at(3, &mut [0; 5]).is_ok();
    let cleared = data.clear().is_ok();
    let gone = data.read_at(0, &mut [0; 1]).is_err();
    Ok([kept, cleared, gone, depot.put_back(path, data, info)])
}

#[test]
fn data_is_written_read_and_cleared(rt: HostRuntime) -> Result<(), Fail> {
    let alloc = rt.alloc();
    let folder = make_empty(&rt, "data")?;
    let name = format!(in alloc; "{folder}/far/below/file")?;
    let path = Path::read(b"/far/below/file")?;
    let mut depot = depot_over(rt, folder.as_str())?;
    let (run, back) = data_of(&mut depot, alloc, &path)?;
    assert_eq!(rt; run.bytes, *b"\0\0\0stone", "the gap is zeros");
    assert_eq!(rt; run.as_wanted, [true; 9]);
    assert_eq!(rt; run.faults, 4);
    assert!(rt; back);
    assert_eq!(rt; depot.faults(), 4);
    assert_eq!(rt; fs::metadata(&rt, name.as_str())?.len(), 8);
    assert_eq!(rt; clear_of(&mut depot, alloc, &path)?, [true; 4]);
    assert_eq!(rt; fs::exists(&rt, name.as_str())?, false);
    fs::remove_dir_all(&rt, folder.as_str())?;
    Ok(())
}

/// The main file has these bytes.
fn shows(info: &mut FolderInfo<HostRuntime>, alloc: Global, bytes: &[u8]) -> bool {
    match info.read_main(alloc) {
        Ok(Some(main)) => main.as_slice() == bytes,
        _ => false,
    }
}

/// There is no main file.
fn shows_none(info: &mut FolderInfo<HostRuntime>, alloc: Global) -> bool {
    match info.read_main(alloc) {
        Ok(None) => true,
        _ => false,
    }
}

/// Puts a main file by way of the temporary.
fn put(info: &mut FolderInfo<HostRuntime>, bytes: &[u8]) -> bool {
    info.write_temp(bytes).is_ok() && info.sync_temp().is_ok() && info.rename().is_ok()
}

/// Puts two main files, one after the other, and takes the second away.
fn run_info(info: &mut FolderInfo<HostRuntime>, alloc: Global) -> [bool; 12] {
    [
        shows_none(info, alloc),
        info.settle().is_ok(),
        info.remove().is_ok(),
        info.rename().is_err(),
        info.sync_temp().is_err(),
        put(info, b"a longer first"),
        shows(info, alloc, b"a longer first"),
        put(info, b"second"),
        shows(info, alloc, b"second"),
        info.settle().is_ok(),
        info.remove().is_ok(),
        shows_none(info, alloc),
    ]
}

/// Takes a path's volume, runs its info device, leaves a temporary alone, and puts it back.
fn info_of(
    depot: &mut FolderDepot<HostRuntime>,
    alloc: Global,
    path: &Path,
) -> Result<([bool; 12], u64), Fail> {
    let Taken::Volume(data, mut info) = depot.take(alloc, path) else {
        return Err("no volume".into());
    };
    let run = run_info(&mut info, alloc);
    let left = info.write_temp(b"left").is_ok();
    let faults = info.faults();
    if !left || !depot.put_back(path, data, info) {
        return Err("no temporary".into());
    }
    Ok((run, faults))
}

#[test]
fn a_main_file_is_put_read_and_removed(rt: HostRuntime) -> Result<(), Fail> {
    let alloc = rt.alloc();
    let folder = make_empty(&rt, "info")?;
    let temp = format!(in alloc; "{folder}/far/file.cinfo.tmp")?;
    let path = Path::read(b"/far/file")?;
    let mut depot = depot_over(rt, folder.as_str())?;
    let (run, faults) = info_of(&mut depot, alloc, &path)?;
    assert_eq!(rt; run, [true; 12]);
    assert_eq!(rt; faults, 2);
    assert_eq!(rt; fs::metadata(&rt, temp.as_str())?.len(), 4);
    assert_eq!(rt; depot.list(alloc)?.len(), 0, "a temporary alone");
    fs::remove_dir_all(&rt, folder.as_str())?;
    Ok(())
}

/// The paths that a depot lists, a space behind each.
fn list_text(depot: &mut FolderDepot<HostRuntime>, alloc: Global) -> Result<String, Fail> {
    let mut text = String::new(alloc);
    for path in depot.list(alloc)? {
        text.push_str(std::str::from_utf8(path.as_bytes())?)?;
        text.push_str(" ")?;
    }
    Ok(text)
}

/// Makes files of these names in a folder that has a folder `below`.
fn make_files(rt: &HostRuntime, folder: &str, names: &[&str]) -> Result<(), Fail> {
    let below = format!(in rt.alloc(); "{folder}/below")?;
    fs::create_dir(rt, below.as_str())?;
    for name in names {
        let file = format!(in rt.alloc(); "{folder}/{name}")?;
        fs::write(rt, file.as_str(), b"x".as_slice())?;
    }
    Ok(())
}

#[test]
fn paths_are_listed_in_byte_order(rt: HostRuntime) -> Result<(), Fail> {
    let alloc = rt.alloc();
    let folder = make_empty(&rt, "list")?;
    let names = [
        "z",
        "below/b",
        "below-c",
        "z.cinfo",
        "no path",
        "e.cinfo",
        "t.cinfo.tmp",
        "x.cinfo.cinfo",
    ];
    make_files(&rt, folder.as_str(), &names)?;
    let mut depot = depot_over(rt, folder.as_str())?;
    let text = list_text(&mut depot, alloc)?;
    assert_eq!(rt; text.as_str(), "/below-c /below/b /e /z ");
    assert_eq!(rt; depot.faults(), 0);
    fs::remove_dir_all(&rt, folder.as_str())?;
    Ok(())
}

/// What a take answers, by a letter. A volume that it gives is put back under another path, which isn't out.
fn answer(depot: &mut FolderDepot<HostRuntime>, alloc: Global, path: &Path, other: &Path) -> char {
    match depot.take(alloc, path) {
        Taken::Volume(data, info) => {
            if depot.put_back(other, data, info) {
                return 'b';
            }
            'v'
        }
        Taken::Out => 'o',
        Taken::Fault => 'f',
        Taken::Memory => 'm',
    }
}

#[test]
fn a_volume_is_given_once(rt: HostRuntime) -> Result<(), Fail> {
    let alloc = rt.alloc();
    let folder = make_empty(&rt, "take")?;
    let mut depot = depot_over(rt, folder.as_str())?;
    let one = Path::read(b"/one")?;
    let two = Path::read(b"/two")?;
    assert_eq!(rt; answer(&mut depot, alloc, &one, &two), 'v');
    assert_eq!(rt; answer(&mut depot, alloc, &one, &two), 'o');
    assert_eq!(rt; depot.outs(), 1);
    assert_eq!(rt; answer(&mut depot, alloc, &two, &two), 'b');
    assert_eq!(rt; answer(&mut depot, alloc, &two, &two), 'b');
    assert_eq!(rt; depot.faults(), 0);
    let kept = Path::read(b"/one.cinfo")?;
    assert_eq!(rt; answer(&mut depot, alloc, &kept, &two), 'f');
    assert_eq!(rt; depot.faults(), 1);
    assert_eq!(rt; depot.list(alloc)?.len(), 0, "no file was made");
    fs::remove_dir_all(&rt, folder.as_str())?;
    Ok(())
}

/// Takes a volume, whose folder goes away then, and tells which of its calls fail.
fn lose_folder(
    depot: &mut FolderDepot<HostRuntime>,
    rt: &HostRuntime,
    folder: &str,
    path: &Path,
) -> Result<[bool; 4], Fail> {
    let Taken::Volume(mut data, mut info) = depot.take(rt.alloc(), path) else {
        return Err("no volume".into());
    };
    fs::remove_dir_all(rt, folder)?;
    let cleared = data.clear().is_err();
    let settled = info.settle().is_err();
    let wrote = data.write_at(0, b"x").is_err();
    Ok([cleared, settled, wrote, depot.put_back(path, data, info)])
}

#[test]
fn without_its_folder_a_depot_has_nothing(rt: HostRuntime) -> Result<(), Fail> {
    let alloc = rt.alloc();
    let folder = make_empty(&rt, "gone")?;
    let path = Path::read(b"/one")?;
    let mut depot = depot_over(rt, folder.as_str())?;
    let lost = lose_folder(&mut depot, &rt, folder.as_str(), &path)?;
    assert_eq!(rt; lost, [true; 4]);
    assert_eq!(rt; depot.faults(), 3);
    assert!(rt; depot.list(alloc).is_err());
    assert_eq!(rt; answer(&mut depot, alloc, &path, &path), 'f');
    assert_eq!(rt; depot.faults(), 5);
    let mut unnamed = FolderDepot::new(rt, alloc, &words_of(alloc, &["config", "origin"])?)?;
    assert!(rt; unnamed.list(alloc).is_err());
    assert_eq!(rt; answer(&mut unnamed, alloc, &path, &path), 'f');
    assert_eq!(rt; unnamed.faults(), 2);
    Ok(())
}

#[test]
fn the_clock_is_past_the_year_2023(rt: HostRuntime) -> Result<(), Fail> {
    let mut clock = WallClock::new(rt);
    assert!(rt; clock.now() > 1_700_000_000);
    Ok(())
}
