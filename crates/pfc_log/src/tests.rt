use crate::{
    Counts, DropCause, Entry, Fell, FileLog, Mark, Served, Spot, Start, Stranger, Uncached, Way,
    push_entry, push_log, uncached_cause,
};
use pfc_base::{BlockSet, Memory, Path};
use std::alloc::Global;
use std::test::Fail;

fn add(log: &mut FileLog, entry: Entry) -> Result<(), Memory> {
    log.reserve(1)?;
    log.push(entry);
    Ok(())
}

fn reads_as(alloc: Global, entry: Entry, want: &[u8]) -> Result<bool, Memory> {
    let mut out = Vec::new(alloc);
    push_entry(alloc, &mut out, &entry)?;
    Ok(out.as_slice() == want)
}

fn section(alloc: Global, path: &Path, log: &FileLog, want: &[u8]) -> Result<bool, Memory> {
    let mut out = Vec::new(alloc);
    push_log(alloc, &mut out, path, log)?;
    Ok(out.as_slice() == want)
}

/// Two clients share one flight; the block isn't written, since the queue has no place.
fn shared_flight(alloc: Global) -> Result<FileLog, Memory> {
    let served = Served {
        hit: 0,
        missed: 2,
        bypassed: 0,
    };
    let mut log = FileLog::new(alloc, Start::Stored(BlockSet::new(alloc, 1)?));
    add(&mut log, Entry::Opened { client: 1 })?;
    add(&mut log, Entry::Opened { client: 2 })?;
    add(
        &mut log,
        Entry::Begin {
            ticket: 0,
            block: 0,
            client: 1,
        },
    )?;
    add(
        &mut log,
        Entry::Join {
            ticket: 0,
            block: 0,
            client: 2,
        },
    )?;
    add(&mut log, Entry::Landed { ticket: 0 })?;
    add(
        &mut log,
        Entry::Dropped {
            block: 0,
            why: DropCause::Full { capacity: 0 },
        },
    )?;
    add(&mut log, Entry::Served { client: 1, served })?;
    add(&mut log, Entry::Served { client: 2, served })?;
    add(&mut log, Entry::Left { block: 0 })?;
    add(&mut log, Entry::Closed { client: 1 })?;
    add(&mut log, Entry::Closed { client: 2 })?;
    Ok(log)
}

#[test]
fn a_shared_flight_prints_its_entries(rt: HostRuntime) -> Result<(), Fail> {
    let alloc = rt.alloc();
    let path = Path::read(b"/a")?;
    let log = shared_flight(alloc)?;
    let want =
        b"log /a stored -\nopened 1\nopened 2\nbegin 0 0 1\njoin 0 0 2\nlanded 0\ndropped 0 full 0\nserved 1 0 2 0\nserved 2 0 2 0\nleft 0\nclosed 1\nclosed 2\n";
    assert!(rt; section(alloc, &path, &log, want)?);
    assert_eq!(rt; log.len(), 11);
    assert_eq!(rt; log.entries().len(), 11);
    Ok(())
}

#[test]
fn a_shared_flight_counts_once(rt: HostRuntime) -> Result<(), Fail> {
    let log = shared_flight(rt.alloc())?;
    let want = Counts {
        opens: 2,
        reads: 2,
        hit: 0,
        missed: 4,
        bypassed: 0,
        joined: 1,
        fetched: 1,
        prefetched: 0,
        failed: 0,
        written: 0,
        dropped: 1,
        synced: 0,
        claimed: 0,
    };
    assert_eq!(rt; log.counts(), want);
    Ok(())
}

#[test]
fn a_flight_of_client_0_is_a_prefetch(rt: HostRuntime) -> Result<(), Fail> {
    let alloc = rt.alloc();
    let mut log = FileLog::new(alloc, Start::Stored(BlockSet::new(alloc, 2)?));
    add(
        &mut log,
        Entry::Begin {
            ticket: 0,
            block: 0,
            client: 1,
        },
    )?;
    add(
        &mut log,
        Entry::Begin {
            ticket: 1,
            block: 1,
            client: 0,
        },
    )?;
    add(&mut log, Entry::Landed { ticket: 1 })?;
    add(&mut log, Entry::Landed { ticket: 0 })?;
    assert_eq!(rt; log.counts().fetched, 2);
    assert_eq!(rt; log.counts().prefetched, 1);
    Ok(())
}

#[test]
fn starts_print_as_runs_or_a_cause(rt: HostRuntime) -> Result<(), Fail> {
    let alloc = rt.alloc();
    let path = Path::read(b"/data/b")?;
    let mut set = BlockSet::new(alloc, 70)?;
    set.set(0);
    set.set(1);
    set.set(5);
    set.set(69);
    let stored = FileLog::new(alloc, Start::Stored(set));
    assert!(rt; section(alloc, &path, &stored, b"log /data/b stored 0-1,5-5,69-69\n")?);
    let bare = FileLog::new(alloc, Start::Uncached(Uncached::Volume));
    assert!(rt; section(alloc, &path, &bare, b"log /data/b uncached volume\n")?);
    Ok(())
}

#[test]
fn each_entry_has_its_text(rt: HostRuntime) -> Result<(), Fail> {
    let alloc = rt.alloc();
    let full = Way::Full {
        found: 4096,
        want: 8192,
        limit: 10000,
    };
    let who = Stranger {
        token: Mark {
            instance: 3,
            number: 4,
        },
        instance: 5,
    };
    assert!(rt;
        reads_as(
            alloc,
            Entry::Hit {
                block: 7,
                place: Spot::Ram,
                client: 2
            },
            b"hit 7 memory 2"
        )?
    );
    assert!(rt;
        reads_as(
            alloc,
            Entry::Hit {
                block: 7,
                place: Spot::Disk,
                client: 2
            },
            b"hit 7 disk 2"
        )?
    );
    assert!(rt;
        reads_as(
            alloc,
            Entry::Direct {
                block: 1,
                client: 2,
                why: full
            },
            b"direct 1 2 full 4096 8192 10000"
        )?
    );
    assert!(rt;
        reads_as(
            alloc,
            Entry::Direct {
                block: 1,
                client: 2,
                why: Way::Lost { ticket: 9 }
            },
            b"direct 1 2 lost 9"
        )?
    );
    assert!(rt;
        reads_as(
            alloc,
            Entry::Direct {
                block: 1,
                client: 2,
                why: Way::Device
            },
            b"direct 1 2 device"
        )?
    );
    assert!(rt;
        reads_as(
            alloc,
            Entry::Direct {
                block: 1,
                client: 2,
                why: Way::Uncached(Uncached::Strayed(who))
            },
            b"direct 1 2 uncached strayed"
        )?
    );
    assert!(rt;
        reads_as(
            alloc,
            Entry::Failed {
                ticket: 6,
                why: Fell::Fault
            },
            b"failed 6 fault"
        )?
    );
    assert!(rt;
        reads_as(
            alloc,
            Entry::Failed {
                ticket: 6,
                why: Fell::Memory
            },
            b"failed 6 memory"
        )?
    );
    assert!(rt;
        reads_as(
            alloc,
            Entry::Dropped {
                block: 3,
                why: DropCause::There
            },
            b"dropped 3 there"
        )?
    );
    assert!(rt;
        reads_as(
            alloc,
            Entry::Dropped {
                block: 3,
                why: DropCause::Frozen
            },
            b"dropped 3 frozen"
        )?
    );
    assert!(rt; reads_as(alloc, Entry::Wrote { block: 3 }, b"wrote 3")?);
    assert!(rt; reads_as(alloc, Entry::Synced, b"synced")?);
    assert!(rt;
        reads_as(
            alloc,
            Entry::Claimed {
                at: 18446744073709551615,
                count: 12
            },
            b"claimed 18446744073709551615 12"
        )?
    );
    assert!(rt; reads_as(alloc, Entry::Frozen, b"frozen")?);
    assert!(rt; reads_as(alloc, Entry::WrittenOff, b"written_off")?);
    Ok(())
}

#[test]
fn companions_and_files_of_too_many_blocks_are_not_cached(rt: HostRuntime) -> Result<(), Fail> {
    let a = Path::read(b"/a")?;
    let cinfo = Path::read(b"/d/a.cinfo")?;
    let temporary = Path::read(b"/a.cinfo.tmp")?;
    let neither = Path::read(b"/a.cinfo.tmp2")?;
    assert_eq!(rt; uncached_cause(&a, 16777216), None);
    assert_eq!(rt; uncached_cause(&a, 16777217), Some(Uncached::Blocks));
    assert_eq!(rt; uncached_cause(&cinfo, 1), Some(Uncached::Suffix));
    assert_eq!(rt;
        uncached_cause(&temporary, 16777217),
        Some(Uncached::Suffix)
    );
    assert_eq!(rt; uncached_cause(&neither, 0), None);
    Ok(())
}
