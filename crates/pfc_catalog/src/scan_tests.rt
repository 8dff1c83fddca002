//! Scans of depots in memory.
ghost use Rattle.std.specs.Prelude.{false, []};
ghost use Rattle.std.proofs.Common.{refl};

use crate::{Catalog, Entry, ScanRefusal, State, scan};
use pfc_base::{BlockSet, Path};
use pfc_cinfo::{Cinfo, Head, Record, Records, encode};
use pfc_memory::{MemoryData, MemoryDepot, MemoryInfo};
use pfc_world::{DataDev, Depot, Fault, InfoDev, Refusal, Taken, World};
use std::alloc::Global;
use std::test::Fail;

/// A world that tells nothing, so that each volume is sound.
struct Silent;

impl World for Silent {
    ghost files = { [] };

    ghost told = { false };

    ghost short = { tt };
}

/// A cinfo of a file of 8193 bytes in three blocks. It claims the first, and the last, of one byte, where that is said.
fn cinfo(alloc: Global, last: bool, attach: u64, detach: u64) -> Result<Vec<u8>, Fail> {
    let mut claims = BlockSet::new(alloc, 3)?;
    claims.set(0);
    if last {
        claims.set(2);
    }
    let record = Record {
        attach,
        detach,
        ios: 1,
        duration: 0,
        merged: 0,
        hit: 0,
        missed: 4,
        bypassed: 0,
    };
    let records = Vec::from_slice(alloc, &[record])?;
    let cinfo = Cinfo {
        block: 4096,
        size: 8193,
        head: Head {
            created: 10,
            accesses: 1,
            records: Records::from_vec(records),
        },
        claims,
    };
    Ok(encode(alloc, &cinfo)?)
}

fn replace_main(info: &mut MemoryInfo, bytes: &[u8]) -> Result<(), Fault> {
    InfoDev::<Silent>::settle(info)?;
    InfoDev::<Silent>::write_temp(info, bytes)?;
    InfoDev::<Silent>::sync_temp(info)?;
    InfoDev::<Silent>::rename(info)
}

fn write_data(data: &mut MemoryData) -> Result<(), Fault> {
    DataDev::<Silent>::write_at(data, 0, b"some bytes")
}

/// Puts data and a main file in a volume, by five device calls.
fn put(depot: &mut MemoryDepot, alloc: Global, path: &[u8], main: &[u8]) -> Result<(), Fail> {
    let path = Path::read(path)?;
    let Taken::Volume(mut first, mut second) = Depot::<Silent>::take(depot, alloc, &path) else {
        return Err("no volume".into());
    };
    let written = write_data(&mut first).is_ok();
    let replaced = replace_main(&mut second, main).is_ok();
    if Depot::<Silent>::put_back(depot, &path, first, second) && written && replaced {
        return Ok(());
    }
    Err("nothing was put".into())
}

/// Three volumes: `/a` and `/c` with cinfos, `/b` with a main file that is none. It took device calls 0 to 14.
fn three(alloc: Global, fails: &[u64]) -> Result<MemoryDepot, Fail> {
    let mut depot = MemoryDepot::new(alloc, Vec::from_slice(alloc, fails)?, None)?;
    let first = cinfo(alloc, false, 10, 20)?;
    let last = cinfo(alloc, true, 30, 0)?;
    put(&mut depot, alloc, b"/a", &first)?;
    put(&mut depot, alloc, b"/b", b"no cinfo")?;
    put(&mut depot, alloc, b"/c", &last)?;
    Ok(depot)
}

fn scanned(alloc: Global, depot: &mut MemoryDepot) -> Result<Catalog, Fail> {
    match scan::<Silent, MemoryDepot>(alloc, depot) {
        Ok(catalog) => Ok(catalog),
        Err(_) => Err("no catalog".into()),
    }
}

fn found(catalog: &Catalog, path: &[u8]) -> Result<Option<Entry>, Fail> {
    Ok(catalog.entry(&Path::read(path)?))
}

fn entry(usage: u64, last: u64, marked: bool) -> Option<Entry> {
    Some(Entry {
        state: State::Home,
        usage,
        last,
        marked,
    })
}

/// The entries of the three.
fn entries(catalog: &Catalog) -> Result<[Option<Entry>; 3], Fail> {
    Ok([
        found(catalog, b"/a")?,
        found(catalog, b"/b")?,
        found(catalog, b"/c")?,
    ])
}

/// What a scan of the three finds, while these device calls fail, and what a second one does.
fn scanned_twice(alloc: Global, fails: &[u64]) -> Result<[[Option<Entry>; 3]; 2], Fail> {
    let mut depot = three(alloc, fails)?;
    let first = entries(&scanned(alloc, &mut depot)?)?;
    let second = entries(&scanned(alloc, &mut depot)?)?;
    Ok([first, second])
}

#[test]
fn each_file_has_what_its_cinfo_says(rt: HostRuntime) -> Result<(), Fail> {
    // What was no cinfo is gone with its data, so the second scan doesn't find it.
    let (one, three) = (entry(4096, 20, false), entry(4097, 30, false));
    assert_eq!(rt;
        scanned_twice(rt.alloc(), &[])?,
        [[one, entry(0, 0, false), three], [one, None, three]]
    );
    Ok(())
}

#[test]
fn a_volume_that_fails_is_marked(rt: HostRuntime) -> Result<(), Fail> {
    // The settling of `/a`, and the removal of the main file of `/b`.
    let three = entry(4097, 30, false);
    let marked = entry(0, 0, true);
    assert_eq!(rt;
        scanned_twice(rt.alloc(), &[15, 18])?,
        [
            [marked, marked, three],
            [entry(4096, 20, false), entry(0, 0, false), three]
        ]
    );
    Ok(())
}

#[test]
fn an_empty_depot_has_no_files(rt: HostRuntime) -> Result<(), Fail> {
    let alloc = rt.alloc();
    let mut depot = MemoryDepot::new(alloc, Vec::new(alloc), None)?;
    let mut catalog = scanned(alloc, &mut depot)?;
    assert_eq!(rt; found(&catalog, b"/a")?, None);
    assert_eq!(rt; catalog.usage(), 0);
    assert_eq!(rt; catalog.draw(), 0);
    Ok(())
}

/// A depot that can't be listed, and has no volume.
#[derive(Drop)]
struct ShutDepot {
    faults: u64,
}

impl Depot<Silent> for ShutDepot {
    type Data = MemoryData;

    type Info = MemoryInfo;

    ghost home_data = { λ _ _ _. ⊥ };

    ghost home_main = { λ _ _ _. ⊥ };

    ghost out = { λ _. [] };

    ghost lent = { λ _ _. (0, 0) };

    ghost faults = { λ d. d.faults };

    ghost unlisted = { λ d. d.faults };

    ghost alike = { refl };

    fn list(&mut self, _alloc: Global) -> Result<Vec<Path>, Refusal> {
        self.faults = self.faults.saturating_add(1);
        Err(Refusal::Fault)
    }

    fn take(&mut self, _alloc: Global, _path: &Path) -> Taken<MemoryData, MemoryInfo> {
        Taken::Memory
    }

    fn put_back(&mut self, _path: &Path, _first: MemoryData, _second: MemoryInfo) -> bool {
        false
    }

    fn outs(&self) -> u64 {
        0
    }
}

#[test]
fn a_depot_that_cannot_be_listed_is_not_scanned(rt: HostRuntime) -> Result<(), Fail> {
    let mut depot = ShutDepot { faults: 0 };
    let refusal = scan::<Silent, ShutDepot>(rt.alloc(), &mut depot).err();
    assert_eq!(rt; refusal, Some(ScanRefusal::Fault));
    assert_eq!(rt; depot.faults, 1);
    Ok(())
}
