//! What runs leave of accesses in the cinfos of their files, the moments told by a list.
ghost use Rattle.std.specs.Prelude.{◌≡◌, ℕ, List, []};
ghost use Rattle.pfc_world.specs.Depot.{AllSound};
ghost use Rattle.pfc_memory.specs.Depot.{data_home, main_home, out_of};
ghost use Rattle.pfc_memory.specs.Rows.{row_files};

use crate::outside::{empty_depot, host_of, run_by, words_of};
use pfc_base::Path;
use pfc_cinfo::{Cinfo, MOST_RECORDS, decode};
use pfc_memory::{ListClock, MemoryDepot, MemoryInfo, RowWorld, VecSink};
use pfc_world::{Depot, InfoDev, Taken};
use std::alloc::Global;
use std::process::Abort;
use std::test::Fail;

const CONFIG: &str = "pfc.blocksize 4k\n";

/// What one run is to leave in the cinfos of its files.
struct RecordCase {
    shows: &'static str,
    schedule: &'static str,
    /// The moments that the clock tells, in seconds, and then the last one again.
    clock: &'static [u64],
    /// The calls of links that fail: the link's number and the call's, from 0 on.
    fails: &'static [(u32, u64)],
    /// Each path's main file, in hex.
    mains: &'static [(&'static str, &'static str)],
}

/// Runs a schedule over a depot with the moments that a clock tells. Its status is 0.
fn run_at(
    alloc: Global,
    schedule: &str,
    clock: &[u64],
    fails: &[(u32, u64)],
    depot: &mut MemoryDepot,
) -> Result<(), Fail>
    requires home { out_of depot.old.volumes.items ≡ [] }
    requires sound { (path : List ℕ) → AllSound row_files path (data_home depot.old.volumes.items path) (main_home depot.old.volumes.items path) }
    ensures home { out_of depot.new.volumes.items ≡ [] }
    ensures sound { (path : List ℕ) → AllSound row_files path (data_home depot.new.volumes.items path) (main_home depot.new.volumes.items path) }
{
    let words = words_of(alloc, "config origin cache 100000 schedule")?;
    let mut host = host_of(alloc, CONFIG, schedule, fails)?;
    let moments: Vec<u64> = Vec::from_slice(alloc, clock)?;
    let clock = ListClock::new(moments);
    let mut out = VecSink::new(alloc, Vec::new(alloc));
    let status = run_by(alloc, &words, &mut host, depot, clock, &mut out);
    if status != 0 {
        return Err(Fail::from("status"));
    }
    Ok(())
}

/// The main file of a path.
fn main_of(alloc: Global, depot: &mut MemoryDepot, path: &str) -> Result<Vec<u8>, Fail> {
    let path = Path::read(path.as_bytes())?;
    let taken = <MemoryDepot as Depot<RowWorld>>::take(depot, alloc, &path);
    let Taken::Volume(_first, mut second) = taken else {
        return Err(Fail::from("no volume"));
    };
    let main = <MemoryInfo as InfoDev<RowWorld>>::read_main(&mut second, alloc)?;
    Ok(main.ok_or("no main file")?)
}

fn look(rt: &impl Abort, alloc: Global, case: &RecordCase) -> Result<(), Fail> {
    let mut depot = empty_depot(alloc, &[], None)?;
    run_at(alloc, case.schedule, case.clock, case.fails, &mut depot)?;
    for (path, main) in case.mains {
        let found = main_of(alloc, &mut depot, path)?;
        let text = hex::encode(alloc, found)?;
        assert_eq!(rt; text.as_str(), *main, "{}", case.shows);
    }
    Ok(())
}

/// Runs of a model of the program, which shares no code with it: the first of them.
const FIRST_RUNS: &[RecordCase] = &[
    RecordCase {
        shows: "a run of the model, number 3",
        schedule: "ask 1 open 3 /w\nask 2 open 1 /none\nask 3 open 4 /w\nsync /w 4\ngo 1 3\ngo 3 6\nsync /w 4\n",
        clock: &[3, 13, 20, 36, 39, 41, 63, 84, 90, 90],
        fails: &[(0, 14), (2, 7), (3, 3)],
        mains: &[(
            "/w",
            "04000000001000000000000000100000000000000300000000000000010000000000000001000000ca169e730003000000000000002400000000000000000000002100000000000000000000000000000000000000000000000000000000000000000000000000000000000000a7439dc2",
        )],
    },
    RecordCase {
        shows: "a run of the model, number 4",
        schedule: "ask 38 open 15 /a\nask 33 open 0 /a\ngo 38 5\nask 33 open 0 /y\ngo 38 1\ngo 33\n",
        clock: &[10, 30, 35, 35, 47, 50, 54, 55, 59, 60, 81],
        fails: &[],
        mains: &[(
            "/a",
            "04000000001000000000000001200000000000000a00000000000000010000000000000001000000f45e0a4e000a000000000000002300000000000000000000001900000000000000000000000000000000000000000000000000000000000000000000000000000000000000cce120ea",
        )],
    },
    RecordCase {
        shows: "a run of the model, number 5",
        schedule: "ask 1 open 0 /y\nask 2 open 3 /y\nask 3 open 3 /y\n#\ngo 2 1\nask 2 close 3\ngo 1 6\n",
        clock: &[41, 70],
        fails: &[],
        mains: &[(
            "/y",
            "040000000010000000000000001000000000000029000000000000000100000000000000010000002ff3fd560029000000000000004600000000000000000000001d0000000000000000000000000000000000000000000000000000000000000000000000000000000000000027bbe103",
        )],
    },
    RecordCase {
        shows: "a run of the model, number 8",
        schedule: "ask 1 open 0 /w\nask 2 open 7 /w\ngo 3 3\ngo 3 6\ngo 2 2\ngo 3 6\ngo 2 1\ngo 3 4\ngo 1 6\nsync /w 3\ngo 3 3\nask 1 read 0 4096 1\ngo 2 4\ngo 1 2\ngo 2 5\ngo 3 4\nask 2 open 2 /w\ngo 3 6\ngo 1 4\ngo 1 4\n",
        clock: &[1, 4, 16, 39, 44, 50, 54, 63, 65, 82],
        fails: &[(0, 1), (0, 8), (1, 9), (1, 14), (2, 3), (2, 9)],
        mains: &[(
            "/w",
            "04000000001000000000000000100000000000000100000000000000010000000000000001000000b0f9191d00010000000000000032000000000000000100000031000000000000000000000000000000000000000000000000000000000000000000000000000000000000008bbc7aaa",
        )],
    },
    RecordCase {
        shows: "a run of the model, number 9",
        schedule: "ask 2 open 2 /b\nask 3 open 15 /b\nask 4 open 2 /b\nask 4 open 0\ngo 4 1\ngo 3\n",
        clock: &[
            2, 3, 4, 9, 12, 25, 36, 37, 49, 56, 65, 65, 67, 70, 74, 78, 80, 84, 85, 86,
        ],
        fails: &[],
        mains: &[(
            "/b",
            "04000000001000000000000000500000000000000200000000000000010000000000000001000000b0663b8c0002000000000000001900000000000000000000001700000000000000000000000000000000000000000000000000000000000000000000000000000000000000a8bac087",
        )],
    },
];

#[test]
fn the_first_runs_of_the_model_leave_its_cinfos(rt: HostRuntime) -> Result<(), Fail> {
    let alloc = rt.alloc();
    for case in FIRST_RUNS {
        look(&rt, alloc, case)?;
    }
    Ok(())
}

/// Runs of a model of the program, which shares no code with it: the next of them.
const MIDDLE_RUNS: &[RecordCase] = &[
    RecordCase {
        shows: "a run of the model, number 13",
        schedule: "ask 1 read 18446744073709551615 0 1\nask 3 open 10 /a.cinfo\nask 4 open 0 a\ngo 3 10\ngo 4 6\nsync /a.cinfo 1\nask 4 open 1 /a.cinfo\nask 4 read 1 4 1\nsync /a.cinfo 2\n",
        clock: &[13, 24, 29, 30, 36, 39, 47, 50, 62, 66, 69, 77, 84, 87, 90],
        fails: &[],
        mains: &[],
    },
    RecordCase {
        shows: "a run of the model, number 14",
        schedule: "ask 2 open 2 /a\nask 3 open 5 /a\nask 4 open 15 /a\nask 3 open 3 /a\nsync /a 4\ngo 4 2\nask 2 close 2\nask 3 close 3\nask 3 close 5\nask 4 close 15\ngo 1 2\ngo 2 200\ngo 3 2\ngo 4 20\nwrite 1 60\nsync /a 5\nwrite 1 500\nsync /a 6",
        clock: &[9, 20, 22, 35, 41, 46, 48, 48, 49, 62, 63],
        fails: &[],
        mains: &[(
            "/a",
            "04000000001000000000000001200000000000000900000000000000030000000000000003000000d2cd4aca0009000000000000001400000000000000000000000b0000000000000000000000000000000000000000000000000000000000000000000000000000000000000016000000000000002300000000000000000000000d0000000000000000000000000000000000000000000000000000000000000000000000000000000000000029000000000000003000000000000000000000000700000000000000000000000000000000000000000000000000000000000000000000000000000000000000fffd5cea",
        )],
    },
    RecordCase {
        shows: "a run of the model, number 15",
        schedule: "ask 1 open 3 /x\nask 2 open 0 /a\nask 4 open 0 /x\nsync /a.cinfo 17\nsync /x 1\nsync /a.cinfo 4\nsync /a\nask 4 close 0\nask 4 open 15 /a\n",
        clock: &[7, 17, 22, 23, 26, 34, 49, 62, 85, 89],
        fails: &[(0, 4), (0, 8), (1, 15), (3, 7), (3, 13), (3, 15)],
        mains: &[
            (
                "/a",
                "04000000001000000000000001200000000000001100000000000000010000000000000001000000e96d36d20011000000000000003e00000000000000000000002d000000000000000000000000000000000000000000000000000000000000000000000000000000000000004e9642e9",
            ),
            (
                "/x",
                "040000000010000000000000001000000000000007000000000000000100000000000000010000003ec891ae0007000000000000002200000000000000000000001b00000000000000000000000000000000000000000000000000000000000000000000000000000000000000b2b252bb",
            ),
        ],
    },
];

#[test]
fn the_middle_runs_of_the_model_leave_its_cinfos(rt: HostRuntime) -> Result<(), Fail> {
    let alloc = rt.alloc();
    for case in MIDDLE_RUNS {
        look(&rt, alloc, case)?;
    }
    Ok(())
}

/// Runs of a model of the program, which shares no code with it: the last of them.
const LAST_RUNS: &[RecordCase] = &[
    RecordCase {
        shows: "a run of the model, number 20",
        schedule: "ask 1 open 0 /b\nask 2 open 15 /b\nask 4 open 2 /b\nask 5 open 1 /b\nask 3 open 0 /b\nask 3 open 2 /nnnnnnnnnnnnnnnnnnnnnnnnnnnnnnnnnnnnnnnnnnnnnnnnnnnnnnnnnnnnnnnnnnnnnnnnnnnnnnnnnnnnnnnnnnnnnnnnnnnnnnnnnnnnnnnnnnnnnnnnnnnnnnnnnnnnnnnnnnnnnnnnnnnnnnnnnnnnnnnnnnnnnnnnnnnnnnnnnnnnnnnnnnnnnnnnnnnnnnnnnnnnnnnnnnnnnnnnnnnnnnnnnnnnnnnnnnnnnnnnnnnnnnnnnnnnnn\nask 6 write 0 0 1\nask 6 close 00\nask 6 open 2 /b\ngo 1 2\ngo 5 1\nask 4 read 2 12985 1\n",
        clock: &[
            6, 14, 16, 27, 32, 47, 50, 55, 55, 56, 57, 62, 69, 87, 88, 88,
        ],
        fails: &[(3, 4), (3, 8)],
        mains: &[(
            "/b",
            "0400000000100000000000000050000000000000060000000000000001000000000000000100000044b834510806000000000000003e000000000000000100000038000000000000000000000000000000000000000100000000000000000000000000000000000000000000003f05f7b1",
        )],
    },
    RecordCase {
        shows: "a run of the model, number 21",
        schedule: "ask 1 open 10 /x\nask 2 open 7 /b\nask 4 open 2 /a\nask 5 open 2 /x\nask 6 open 2 /b\ngo 5 6\nask 5 close 2\nask 5 open 8 /a\nsync /x 6\nask 1 close 10\nask 1 open 3 /x\nask 1 open 15 /b\ngo 6\nask 6 read 2 20480 0\ngo 3 4\ngo 6 6\ngo 2 1\ngo 6 4\ngo 3 4\nsync /x 5\ngo 4 6\nwrite 2 5\n",
        clock: &[37, 40, 40, 43, 49, 56, 72],
        fails: &[],
        mains: &[
            (
                "/a",
                "0400000000100000000000000120000000000000280000000000000001000000000000000100000008709ad4002800000000000000480000000000000000000000200000000000000000000000000000000000000000000000000000000000000000000000000000000000000081d14b1a",
            ),
            (
                "/b",
                "04000000001000000000000000500000000000002800000000000000010000000000000001000000558358a9002800000000000000480000000000000001000000200000000000000000000000000000000000000000000000000000000000000000000000000000000000000085cc6206",
            ),
            (
                "/x",
                "04000000001000000000000000100000000000002500000000000000010000000000000001000000c2e601340025000000000000004800000000000000000000002300000000000000000000000000000000000000000000000000000000000000000000000000000000000000387b22b5",
            ),
        ],
    },
    RecordCase {
        shows: "a run of the model, number 22",
        schedule: "ask 35 open 1 /w\ngo 35 2\nask 35 read 1 4096 4096\nask 35 read 1 3315 4097\ngo 28\ngo 28\n",
        clock: &[7, 19, 30, 37, 39, 42, 51, 52, 60, 64, 65, 76, 83],
        fails: &[(1, 7), (3, 0)],
        mains: &[(
            "/w",
            "040000000010000000000000001000000000000007000000000000000100000000000000010000003ec891ae0107000000000000001300000000000000020000000c000000000000000000000000000000000000000d0300000000000000000000000000000000000000000000630d5090",
        )],
    },
];

#[test]
fn the_last_runs_of_the_model_leave_its_cinfos(rt: HostRuntime) -> Result<(), Fail> {
    let alloc = rt.alloc();
    for case in LAST_RUNS {
        look(&rt, alloc, case)?;
    }
    Ok(())
}

/// What a path's cinfo says.
fn cinfo_of(alloc: Global, depot: &mut MemoryDepot, path: &str) -> Result<Cinfo, Fail> {
    let main = main_of(alloc, depot, path)?;
    Ok(decode(alloc, main.as_slice())?)
}

/// Opens a file and closes it, 21 times.
fn visits(alloc: Global) -> Result<String, Fail> {
    let mut schedule = String::new(alloc);
    for _visit in 0..21 {
        schedule.push_str("ask 1 open 0 /a\nask 1 close 0\n")?;
    }
    schedule.push_str("go 1 1000\n")?;
    Ok(schedule)
}

#[test]
fn of_twenty_one_accesses_the_two_oldest_are_one(rt: HostRuntime) -> Result<(), Fail> {
    let alloc = rt.alloc();
    let schedule = visits(alloc)?;
    let mut depot = empty_depot(alloc, &[], None)?;
    run_at(
        alloc,
        schedule.as_str(),
        &[5, 7, 10, 14, 20, 21],
        &[],
        &mut depot,
    )?;
    let cinfo = cinfo_of(alloc, &mut depot, "/a")?;
    assert_eq!(rt; (cinfo.head.created, cinfo.head.accesses), (5, 21));
    let records = cinfo.head.records.as_slice();
    assert_eq!(rt; records.len(), MOST_RECORDS);
    let (oldest, next) = (records[0], records[1]);
    assert_eq!(rt; (oldest.attach, oldest.detach, oldest.duration), (5, 14, 6));
    assert_eq!(rt; oldest.merged, 1);
    assert_eq!(rt; (next.attach, next.detach, next.duration), (20, 21, 1));
    for record in &records[1..] {
        assert_eq!(rt; record.merged, 0);
    }
    Ok(())
}

#[test]
fn a_later_run_keeps_what_earlier_ones_recorded(rt: HostRuntime) -> Result<(), Fail> {
    let alloc = rt.alloc();
    let schedule = "ask 1 open 0 /a\nask 1 read 0 0 4\n";
    let mut depot = empty_depot(alloc, &[], None)?;
    run_at(alloc, schedule, &[10, 12], &[], &mut depot)?;
    run_at(alloc, schedule, &[30, 35], &[], &mut depot)?;
    let cinfo = cinfo_of(alloc, &mut depot, "/a")?;
    assert_eq!(rt; (cinfo.head.created, cinfo.head.accesses), (10, 2));
    let records = cinfo.head.records.as_slice();
    assert_eq!(rt; records.len(), 2);
    let (first, second) = (records[0], records[1]);
    assert_eq!(rt;
        (first.attach, first.detach, first.hit, first.missed),
        (10, 12, 0, 4)
    );
    assert_eq!(rt;
        (second.attach, second.detach, second.hit, second.missed),
        (30, 35, 4, 0)
    );
    assert_eq!(rt; (first.ios, second.ios), (1, 1));
    Ok(())
}
