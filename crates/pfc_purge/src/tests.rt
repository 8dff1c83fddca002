use crate::{Wiped, wipe};
use pfc_base::Path;
use pfc_memory::{MemoryData, MemoryDepot, MemoryInfo, Pick, RowWorld};
use pfc_world::{DataDev, Depot, InfoDev, Taken};
use std::alloc::Global;
use std::test::Fail;

const MAIN: &[u8] = b"main";

const DATA: [u8; 4] = *b"data";

/// What a wipe answered, and what a crash leaves after it.
#[derive(Clone, Copy, Debug, PartialEq, Eq)]
struct Outcome {
    cleared: bool,
    /// Whether the main file is there.
    main: bool,
    /// Whether the data is there as it was.
    data: bool,
}

fn take(
    depot: &mut MemoryDepot,
    alloc: Global,
    path: &Path,
) -> Result<(MemoryData, MemoryInfo), Fail> {
    match Depot::<RowWorld>::take(depot, alloc, path) {
        Taken::Volume(first, second) => Ok((first, second)),
        Taken::Out | Taken::Fault | Taken::Memory => Err("no volume".into()),
    }
}

/// Puts a main file and data, by calls 0 to 4, each of which settles.
fn fill(first: &mut MemoryData, second: &mut MemoryInfo) -> bool {
    InfoDev::<RowWorld>::write_temp(second, MAIN).is_ok()
        && InfoDev::<RowWorld>::sync_temp(second).is_ok()
        && InfoDev::<RowWorld>::rename(second).is_ok()
        && DataDev::<RowWorld>::write_at(first, 0, &DATA).is_ok()
        && DataDev::<RowWorld>::sync(first).is_ok()
}

/// A depot with a volume that is filled and then wiped, and whether the wipe cleared it. The wipe makes calls 5 to 7: a
/// settling of the main file, its removal and the clearing of the data.
fn wiped(alloc: Global, path: &Path, fails: &[u64]) -> Result<(MemoryDepot, bool), Fail> {
    let mut depot = MemoryDepot::new(alloc, Vec::from_slice(alloc, fails)?, None)?;
    let (mut first, mut second) = take(&mut depot, alloc, path)?;
    if !fill(&mut first, &mut second) {
        return Err("the volume was not filled".into());
    }
    let Wiped {
        first,
        second,
        cleared,
    } = wipe::<RowWorld, MemoryData, MemoryInfo>(first, second);
    let _ = Depot::<RowWorld>::put_back(&mut depot, path, first, second);
    Ok((depot, cleared))
}

fn has_main(alloc: Global, second: &mut MemoryInfo) -> Result<bool, Fail> {
    match InfoDev::<RowWorld>::read_main(second, alloc) {
        Ok(Some(bytes)) => Ok(bytes.as_slice() == MAIN),
        Ok(None) => Ok(false),
        Err(_) => Err("no main file was read".into()),
    }
}

fn has_data(first: &mut MemoryData) -> bool {
    let mut place = [0; 4];
    let read = DataDev::<RowWorld>::read_at(first, 0, &mut place).is_ok();
    read && place == DATA
}

fn left(alloc: Global, fails: &[u64], pick: Pick) -> Result<Outcome, Fail> {
    let path = Path::read(b"/a")?;
    let (depot, cleared) = wiped(alloc, &path, fails)?;
    let mut depot = depot.crash(alloc, pick)?;
    let (mut first, mut second) = take(&mut depot, alloc, &path)?;
    Ok(Outcome {
        cleared,
        main: has_main(alloc, &mut second)?,
        data: has_data(&mut first),
    })
}

/// The same for each image that a crash may leave: the old one, the new one, and a torn one.
fn lefts(alloc: Global, fails: &[u64]) -> Result<[Outcome; 3], Fail> {
    Ok([
        left(alloc, fails, Pick::Old)?,
        left(alloc, fails, Pick::New)?,
        left(alloc, fails, Pick::Torn)?,
    ])
}

const ALL: Outcome = Outcome {
    cleared: false,
    main: true,
    data: true,
};

const DATA_ALONE: Outcome = Outcome {
    cleared: false,
    main: false,
    data: true,
};

const NEITHER: Outcome = Outcome {
    cleared: false,
    main: false,
    data: false,
};

/// What is left where a call fails. While the main file may be there, the data is.
fn wanted(call: u64) -> [Outcome; 3] {
    match call {
        5 => [ALL, ALL, ALL],
        6 => [ALL, DATA_ALONE, ALL],
        7 => [NEITHER, DATA_ALONE, NEITHER],
        _ => [Outcome {
            cleared: true,
            ..NEITHER
        }; 3],
    }
}

#[test]
fn a_wipe_whose_device_fails_leaves_the_main_file_only_with_the_data(
    rt: HostRuntime,
) -> Result<(), Fail> {
    let alloc = rt.alloc();
    for call in 5..9u64 {
        let found = lefts(alloc, &[call])?;
        assert_eq!(rt; found, wanted(call), "a failure of call {call}");
    }
    Ok(())
}

/// Whether a wipe cleared a volume, how many of its calls failed, and how many volumes are left.
fn counted(alloc: Global, fails: &[u64]) -> Result<(bool, u64, usize), Fail> {
    let path = Path::read(b"/a")?;
    let (mut depot, cleared) = wiped(alloc, &path, fails)?;
    let Ok(paths) = Depot::<RowWorld>::list(&mut depot, alloc) else {
        return Err("no list".into());
    };
    Ok((cleared, depot.faults(), paths.len()))
}

#[test]
fn a_volume_that_is_wiped_is_not_listed(rt: HostRuntime) -> Result<(), Fail> {
    let alloc = rt.alloc();
    assert_eq!(rt; counted(alloc, &[])?, (true, 0, 0));
    assert_eq!(rt; counted(alloc, &[6])?, (false, 1, 1));
    assert_eq!(rt; counted(alloc, &[7])?, (false, 1, 1));
    Ok(())
}
