//! Runs over a depot that an earlier run left, by itself or by a crash inside a device call.
ghost use Rattle.std.specs.Prelude.{◌≡◌, ℕ, List, []};
ghost use Rattle.pfc_world.specs.Depot.{AllSound};
ghost use Rattle.pfc_memory.specs.Depot.{data_home, main_home, out_of};
ghost use Rattle.pfc_memory.specs.Rows.{row_files};

use crate::outside::{crashed, empty_depot, host_of, run_over, words_of};
use pfc_memory::{MemoryDepot, Pick, VecSink};
use std::alloc::Global;
use std::test::Fail;

const CONFIG: &str = "pfc.blocksize 4k\n";

/// Two blocks are written, and each is synced and claimed by itself.
const TWO_SYNCS: &str =
    "ask 1 open 0 /a\nask 1 read 0 0 1\nask 1 read 0 4096 1\ngo 1 100\nwrite 1 6\nsync /a 3\nwrite 1 6\nsync /a 3\n";

/// The replies of that run, whatever becomes of its devices.
const TWO_REPLIES: &str = "client 1\nok 8193\ndata 1 00\ndata 1 50\n";

/// The file is opened again, and a byte of each of its blocks is read.
const READ_BACK: &str =
    "ask 1 open 0 /a\nask 1 read 0 1 1\nask 1 read 0 4097 1\nask 1 read 0 8192 1\n";

/// By the file's rule byte 1 is 01, byte 4097 is 51 and byte 8192 is a0.
const BACK_REPLIES: &str = "client 1\nok 8193\ndata 1 01\ndata 1 51\ndata 1 a0\n";

/// The calls of devices that the two syncs make, the opening's four among them.
const CALLS: u64 = 14;

/// Runs a schedule over a depot, and gives its text.
fn text_of(alloc: Global, schedule: &str, depot: &mut MemoryDepot) -> Result<String, Fail>
    requires home { out_of depot.old.volumes.items ≡ [] }
    requires sound { (path : List ℕ) → AllSound row_files path (data_home depot.old.volumes.items path) (main_home depot.old.volumes.items path) }
    ensures home { out_of depot.new.volumes.items ≡ [] }
    ensures sound { (path : List ℕ) → AllSound row_files path (data_home depot.new.volumes.items path) (main_home depot.new.volumes.items path) }
{
    let words = words_of(alloc, "config origin cache 100000 schedule")?;
    let mut host = host_of(alloc, CONFIG, schedule, &[])?;
    let mut out = VecSink::new(alloc, Vec::new(alloc));
    let status = run_over(alloc, &words, &mut host, depot, &mut out);
    if status != 0 {
        return Err(Fail::from("status"));
    }
    let bytes = Vec::from_slice(alloc, out.bytes())?;
    Ok(String::from_utf8(bytes).ok().ok_or("text")?)
}

/// The runs of the blocks with which the first log of a text starts.
fn start_of(text: &str) -> Option<&str> {
    for line in text.split('\n') {
        if let Some(runs) = line.strip_prefix("log /a stored ") {
            return Some(runs);
        }
    }
    None
}

#[test]
fn what_a_run_claimed_is_read_from_disk_by_the_next(rt: HostRuntime) -> Result<(), Fail> {
    let alloc = rt.alloc();
    let schedule = "ask 1 open 0 /a\nask 1 read 0 0 4\n";
    let mut depot = empty_depot(alloc, &[], None)?;
    let first = text_of(alloc, schedule, &mut depot)?;
    assert_eq!(rt;
        first.as_str(),
        "client 1\nok 8193\ndata 4 00010203\nlog /a stored -\nopened 1\nbegin 0 0 1\nlanded 0\nserved 1 0 4 0\nwrote 0\nleft 0\nclosed 1\nsynced\nclaimed 8 1\n"
    );
    let second = text_of(alloc, schedule, &mut depot)?;
    assert_eq!(rt;
        second.as_str(),
        "client 1\nok 8193\ndata 4 00010203\nlog /a stored 0-0\nopened 1\nhit 0 disk 1\nserved 1 4 0 0\nclosed 1\nsynced\nclaimed 5 1\n"
    );
    Ok(())
}

/// What the cinfo claims after a run whose devices stop working in this call, by whether the crash leaves what is there last.
fn wanted(call: u64, is_new: bool) -> &'static str {
    match (call, is_new) {
        (0..=8, _) | (9, false) => "-",
        (9, true) | (10..=12, _) | (13, false) => "0-0",
        _ => "0-1",
    }
}

/// The claims that are found after such a run and a crash, once its replies and the file's bytes were seen to be right.
fn found_after(alloc: Global, call: u64, pick: Pick) -> Result<String, Fail> {
    let mut depot = empty_depot(alloc, &[], Some(call))?;
    let text = text_of(alloc, TWO_SYNCS, &mut depot)?;
    if !text.starts_with(TWO_REPLIES) {
        return Err(Fail::from("replies"));
    }
    let mut left = crashed(alloc, depot, pick)?;
    let back = text_of(alloc, READ_BACK, &mut left)?;
    if !back.starts_with(BACK_REPLIES) {
        return Err(Fail::from("bytes"));
    }
    let runs = start_of(back.as_str()).ok_or("start")?;
    Ok(String::from_str(alloc, runs)?)
}

#[test]
fn a_crash_at_any_device_call_leaves_claims_of_what_is_there(rt: HostRuntime) -> Result<(), Fail> {
    let alloc = rt.alloc();
    for call in 0..CALLS + 1 {
        let old = found_after(alloc, call, Pick::Old)?;
        assert_eq!(rt;
            old.as_str(),
            wanted(call, false),
            "the old side at call {call}"
        );
        let new = found_after(alloc, call, Pick::New)?;
        assert_eq!(rt;
            new.as_str(),
            wanted(call, true),
            "the new side at call {call}"
        );
        let torn = found_after(alloc, call, Pick::Torn)?;
        assert!(rt; torn == old || torn == new, "a torn side at call {call}");
    }
    Ok(())
}
