use super::*;
use crate::numbers::Numbers;
use pfc_world::{Clock, DataDev, InfoDev, Refusal};
use std::alloc::Global;
use std::test::Fail;

fn numbers_of(alloc: Global, fails: &[u64], fuse: Option<u64>) -> Result<Numbers, Fail> {
    Ok(Numbers::new(alloc, Vec::from_slice(alloc, fails)?, fuse)?)
}

fn write(device: &mut MemoryData, at: u64, from: &[u8]) -> bool {
    DataDev::<RowWorld>::write_at(device, at, from).is_ok()
}

fn sync(device: &mut MemoryData) -> bool {
    DataDev::<RowWorld>::sync(device).is_ok()
}

fn clear(device: &mut MemoryData) -> bool {
    DataDev::<RowWorld>::clear(device).is_ok()
}

/// Whether a read of so many bytes is Ok, and what it gives.
fn read(device: &mut MemoryData, at: u64, len: usize) -> (bool, [u8; 4]) {
    let mut place = [0; 4];
    let ok = len <= 4 && DataDev::<RowWorld>::read_at(device, at, &mut place[..len]).is_ok();
    (ok, place)
}

/// Two blocks, of which the second isn't settled by the sync that fails nor by the next one, and a write that meets the
/// fuse.
fn spoilt(alloc: Global) -> Result<(MemoryData, [bool; 7], u64), Fail> {
    let mut device = MemoryData::new(alloc, numbers_of(alloc, &[3], Some(5))?);
    let answers = [
        write(&mut device, 0, b"abcdef"),
        sync(&mut device),
        write(&mut device, 4, b"XYZ!"),
        sync(&mut device),
        sync(&mut device),
        write(&mut device, 8, b"zz"),
        write(&mut device, 0, b"lost"),
    ];
    let faults = DataDev::<RowWorld>::faults(&device);
    Ok((device, answers, faults))
}

fn left_of(alloc: Global, pick: Pick) -> Result<Vec<u8>, Fail> {
    let (device, _, _) = spoilt(alloc)?;
    let after = device.crash(alloc, pick, numbers_of(alloc, &[], None)?)?;
    Ok(after.history.now.bytes.to_vec(alloc)?)
}

#[test]
fn data_calls_fail_where_they_are_named_and_from_the_fuse_on(rt: HostRuntime) -> Result<(), Fail> {
    let (device, answers, faults) = spoilt(rt.alloc())?;
    drop(device);
    assert_eq!(rt; answers, [true, true, true, false, true, false, false]);
    assert_eq!(rt; faults, 3);
    Ok(())
}

#[test]
fn a_crash_leaves_what_is_settled_or_what_reads_or_garbage(rt: HostRuntime) -> Result<(), Fail> {
    let old = left_of(rt.alloc(), Pick::Old)?;
    let new = left_of(rt.alloc(), Pick::New)?;
    let torn = left_of(rt.alloc(), Pick::Torn)?;
    assert_eq!(rt; old.as_slice(), b"abcd".as_slice());
    assert_eq!(rt; new.as_slice(), b"abcdXYZ!".as_slice());
    // X, Y, Z and ! are 58, 59, 5A and 21; the write that met the fuse left two bytes of garbage behind them.
    assert_eq!(rt; torn.as_slice(), b"abcd\xFD\xFC\xFF\x84\xA5\xA5".as_slice());
    Ok(())
}

fn reads(alloc: Global) -> Result<([bool; 3], [u8; 4]), Fail> {
    let mut device = MemoryData::new(alloc, numbers_of(alloc, &[], None)?);
    let _ = write(&mut device, 2, b"abcd");
    let (within, bytes) = read(&mut device, 1, 4);
    let (past, _) = read(&mut device, 3, 4);
    let (far, _) = read(&mut device, u64::MAX, 4);
    Ok(([within, past, far], bytes))
}

#[test]
fn a_read_past_the_end_fails_and_a_gap_is_zeros(rt: HostRuntime) -> Result<(), Fail> {
    let (answers, bytes) = reads(rt.alloc())?;
    assert_eq!(rt; answers, [true, false, false]);
    assert_eq!(rt; bytes, *b"\0abc");
    Ok(())
}

/// What a crash leaves after a clear that fails or doesn't.
fn cleared(alloc: Global, fails: &[u64], pick: Pick) -> Result<(bool, usize), Fail> {
    let mut device = MemoryData::new(alloc, numbers_of(alloc, fails, None)?);
    let _ = write(&mut device, 0, b"abcdef");
    let _ = sync(&mut device);
    let ok = clear(&mut device);
    let after = device.crash(alloc, pick, numbers_of(alloc, &[], None)?)?;
    Ok((ok, after.history.now.bytes.len()))
}

#[test]
fn a_clear_that_fails_leaves_all_or_nothing(rt: HostRuntime) -> Result<(), Fail> {
    let alloc = rt.alloc();
    assert_eq!(rt; cleared(alloc, &[2], Pick::Old)?, (false, 0));
    assert_eq!(rt; cleared(alloc, &[2], Pick::New)?, (false, 6));
    assert_eq!(rt; cleared(alloc, &[], Pick::New)?, (true, 0));
    Ok(())
}

fn write_temp(device: &mut MemoryInfo, from: &[u8]) -> bool {
    InfoDev::<RowWorld>::write_temp(device, from).is_ok()
}

fn sync_temp(device: &mut MemoryInfo) -> bool {
    InfoDev::<RowWorld>::sync_temp(device).is_ok()
}

fn rename(device: &mut MemoryInfo) -> bool {
    InfoDev::<RowWorld>::rename(device).is_ok()
}

fn remove(device: &mut MemoryInfo) -> bool {
    InfoDev::<RowWorld>::remove(device).is_ok()
}

/// Two main files, one after another, the second of which is put in place by the sixth call, and its removal.
fn replaced(
    alloc: Global,
    fails: &[u64],
    fuse: Option<u64>,
) -> Result<(MemoryInfo, [bool; 7]), Fail> {
    let mut device = MemoryInfo::new(alloc, numbers_of(alloc, fails, fuse)?);
    let answers = [
        write_temp(&mut device, b"first"),
        sync_temp(&mut device),
        rename(&mut device),
        write_temp(&mut device, b"second"),
        sync_temp(&mut device),
        rename(&mut device),
        remove(&mut device),
    ];
    Ok((device, answers))
}

/// The length of the main file that a crash leaves, and `None` where it leaves none.
fn main_after(alloc: Global, device: MemoryInfo, pick: Pick) -> Result<Option<usize>, Fail> {
    let mut after = device.crash(alloc, pick, numbers_of(alloc, &[], None)?)?;
    match InfoDev::<RowWorld>::read_main(&mut after, alloc) {
        Ok(main) => Ok(main.map(|bytes| bytes.len())),
        Err(Refusal::Fault | Refusal::Memory) => Err(Fail::from("no main file was read")),
    }
}

fn main_left(
    alloc: Global,
    fails: &[u64],
    fuse: Option<u64>,
    pick: Pick,
) -> Result<Option<usize>, Fail> {
    let (device, _) = replaced(alloc, fails, fuse)?;
    main_after(alloc, device, pick)
}

#[test]
fn a_rename_that_meets_the_fuse_leaves_either_main_file(rt: HostRuntime) -> Result<(), Fail> {
    let alloc = rt.alloc();
    let (device, answers) = replaced(alloc, &[], Some(5))?;
    drop(device);
    assert_eq!(rt; answers, [true, true, true, true, true, false, false]);
    assert_eq!(rt; main_left(alloc, &[], Some(5), Pick::Old)?, Some(5));
    assert_eq!(rt; main_left(alloc, &[], Some(5), Pick::New)?, Some(6));
    assert_eq!(rt; main_left(alloc, &[], Some(5), Pick::Torn)?, Some(5));
    Ok(())
}

#[test]
fn a_removal_that_fails_leaves_the_main_file_or_none(rt: HostRuntime) -> Result<(), Fail> {
    let alloc = rt.alloc();
    assert_eq!(rt; main_left(alloc, &[6], None, Pick::Old)?, Some(6));
    assert_eq!(rt; main_left(alloc, &[6], None, Pick::New)?, None);
    assert_eq!(rt; main_left(alloc, &[], None, Pick::New)?, None);
    Ok(())
}

fn hasty(alloc: Global, pick: Pick) -> Result<Option<usize>, Fail> {
    let mut device = MemoryInfo::new(alloc, numbers_of(alloc, &[], None)?);
    let _ = write_temp(&mut device, b"six by");
    let _ = rename(&mut device);
    main_after(alloc, device, pick)
}

#[test]
fn a_temporary_that_was_not_synced_brings_a_main_file_that_may_be_torn(
    rt: HostRuntime,
) -> Result<(), Fail> {
    let alloc = rt.alloc();
    assert_eq!(rt; hasty(alloc, Pick::Torn)?, Some(3));
    assert_eq!(rt; hasty(alloc, Pick::New)?, Some(6));
    Ok(())
}

fn shared(alloc: Global) -> Result<([bool; 4], u64), Fail> {
    let numbers = numbers_of(alloc, &[1], None)?;
    let mut first = MemoryData::new(alloc, numbers.share()?);
    let mut second = MemoryData::new(alloc, numbers.share()?);
    let answers = [
        sync(&mut first),
        sync(&mut second),
        sync(&mut second),
        sync(&mut first),
    ];
    Ok((answers, numbers.calls()))
}

#[test]
fn devices_of_one_depot_are_numbered_together(rt: HostRuntime) -> Result<(), Fail> {
    let (answers, calls) = shared(rt.alloc())?;
    assert_eq!(rt; answers, [true, false, true, true]);
    assert_eq!(rt; calls, 4);
    Ok(())
}

#[test]
fn a_clock_tells_its_last_moment_again(rt: HostRuntime) -> Result<(), Fail> {
    let alloc = rt.alloc();
    let mut clock = ListClock::new(Vec::from_slice(alloc, &[5, 7])?);
    assert_eq!(rt; [clock.now(), clock.now(), clock.now()], [5, 7, 7]);
    let mut none = ListClock::new(Vec::new(alloc));
    assert_eq!(rt; [none.now(), none.now()], [0, 0]);
    Ok(())
}
