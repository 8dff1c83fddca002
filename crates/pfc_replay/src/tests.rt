//! Runs over the world of rows, in which byte j of each file is j modulo 251: `/a` has 8193 bytes, `/e` none.
use crate::outside::{ShutDepot, empty_depot, host_of, run_over, words_of};
use crate::run_replay;
use pfc_memory::{ListClock, MemoryHost, RowWorld, VecSink};
use std::alloc::Global;
use std::test::Fail;

/// A site's configuration with blocks of 4096 bytes.
const CONFIG: &str = "pfc.blocksize 4k\n";

/// What one run is to leave: its status, what it wrote before the logs, and the calls and faults of client 1's link.
struct Case {
    shows: &'static str,
    config: &'static str,
    schedule: &'static str,
    /// The calls of link 1 that fail.
    fails: &'static [u64],
    status: u8,
    text: &'static str,
    spent: (u64, u64),
}

/// Runs a schedule whose words name the texts `config` and `schedule`.
fn play(
    alloc: Global,
    words: &str,
    case: &Case,
    writes: &[u64],
) -> Result<(u8, String, (u64, u64)), Fail> {
    let mut fails = Vec::new(alloc);
    for call in case.fails {
        fails.push((1, *call))?;
    }
    let mut host = host_of(alloc, case.config, case.schedule, &fails)?;
    let mut depot = empty_depot(alloc, &[], None)?;
    let mut out = VecSink::new(alloc, Vec::from_slice(alloc, writes)?);
    let named = words_of(alloc, words)?;
    let status = run_over(alloc, &named, &mut host, &mut depot, &mut out);
    let text = String::from_utf8(Vec::from_slice(alloc, out.bytes())?)
        .ok()
        .ok_or("text")?;
    Ok((status, text, host.spent(1)))
}

/// The runs of one client.
const CASES: &[Case] = &[
    Case {
        shows: "a file is opened, read and closed",
        config: CONFIG,
        schedule: "ask 1 open 0 /a\nask 1 read 0 0 4\nask 1 close 0\n",
        fails: &[],
        status: 0,
        text: "client 1\nok 8193\ndata 4 00010203\nok\n",
        spent: (2, 0),
    },
    Case {
        shows: "a read is cut at the end of the file",
        config: CONFIG,
        schedule: "ask 1 open 0 /a\nask 1 read 0 8190 100\n",
        fails: &[],
        status: 0,
        text: "client 1\nok 8193\ndata 3 9e9fa0\n",
        spent: (3, 0),
    },
    Case {
        shows: "a read behind the end gives no bytes and asks the origin for none",
        config: CONFIG,
        schedule: "ask 1 open 0 /a\nask 1 read 0 8193 1\nask 1 read 0 18446744073709551615 1\n",
        fails: &[],
        status: 0,
        text: "client 1\nok 8193\ndata 0 -\ndata 0 -\n",
        spent: (1, 0),
    },
    Case {
        shows: "an empty file is opened and has no bytes",
        config: CONFIG,
        schedule: "ask 1 open 0 /e\nask 1 read 0 0 10\n",
        fails: &[],
        status: 0,
        text: "client 1\nok 0\ndata 0 -\n",
        spent: (1, 0),
    },
    Case {
        shows: "a read over two blocks fetches both",
        config: CONFIG,
        schedule: "ask 1 open 0 /a\nask 1 read 0 4095 2\n",
        fails: &[],
        status: 0,
        text: "client 1\nok 8193\ndata 2 4f50\n",
        spent: (3, 0),
    },
    Case {
        shows: "each bad request has its reply, and the client goes on",
        config: CONFIG,
        schedule: "ask 1 read 1 0 4\nask 1 open 0 a\nask 1 open 0 /none\nask 1 open 16 /a\nask 1 open 0 /a\nask 1 open 0 /a\nask 1 read 0 00 4\nask 1 read 0 0 16777217\nask 1 close 0\nask 1 close 0\n",
        fails: &[],
        status: 0,
        text: "client 1\nerror descriptor\nerror path\nerror nofile\nerror descriptor\nok 8193\nerror descriptor\nerror request\nerror range\nok\nerror descriptor\n",
        spent: (2, 0),
    },
    Case {
        shows: "a failed question for the size leaves the descriptor free",
        config: CONFIG,
        schedule: "ask 1 open 0 /a\nask 1 read 0 0 4\n",
        fails: &[0],
        status: 0,
        text: "client 1\nerror fetch\nerror descriptor\n",
        spent: (1, 1),
    },
    Case {
        shows: "a failed fetch fails that read alone",
        config: CONFIG,
        schedule: "ask 1 open 0 /a\nask 1 read 0 0 4\nask 1 read 0 1 2\n",
        fails: &[1],
        status: 0,
        text: "client 1\nok 8193\nerror fetch\ndata 2 0102\n",
        spent: (3, 1),
    },
    Case {
        shows: "an empty request line has a reply too",
        config: CONFIG,
        schedule: "ask 1 \n",
        fails: &[],
        status: 0,
        text: "client 1\nerror request\n",
        spent: (0, 0),
    },
    Case {
        shows: "an empty schedule prints nothing",
        config: CONFIG,
        schedule: "",
        fails: &[],
        status: 0,
        text: "",
        spent: (0, 0),
    },
    Case {
        shows: "a line of another form is refused",
        config: CONFIG,
        schedule: "ask 1 open 0 /a\ngo 65\n",
        fails: &[],
        status: 2,
        text: "schedule 2\n",
        spent: (0, 0),
    },
    Case {
        shows: "an empty file gives no bytes",
        config: CONFIG,
        schedule: "ask 1 open 1 /e\nask 1 read 1 1 1\nask 1 read 1 1 4096",
        fails: &[],
        status: 0,
        text: "client 1\nok 0\ndata 0 -\ndata 0 -\n",
        spent: (1, 0),
    },
    Case {
        shows: "reads past the end of a file give no bytes",
        config: CONFIG,
        schedule: "ask 1 open 1 /y\nask 1 read 1 9223372036854775808 8192\nask 1 read 1 8193 4097\nask 1 close 1",
        fails: &[],
        status: 0,
        text: "client 1\nok 4096\ndata 0 -\ndata 0 -\nok\n",
        spent: (1, 0),
    },
    Case {
        shows: "a number past the limit is no request",
        config: CONFIG,
        schedule: "ask 1 read 0 18446744073709551616 1\nask 1 open 5 /a\nask 1 read 5 7025 0\nask 1 read 5 0 1",
        fails: &[],
        status: 0,
        text: "client 1\nerror request\nok 8193\ndata 0 -\ndata 1 00\n",
        spent: (2, 0),
    },
    Case {
        shows: "a last block of three bytes",
        config: CONFIG,
        schedule: "ask 1 read 0 0 01\nask 1 open 15 /a.cinfo\nask 1 read 15 2 12293\nask 1 read 15 4 4096\nask 1 read 15 4096 4095",
        fails: &[],
        status: 0,
        text: "client 1\nerror request\nok 3\ndata 1 02\ndata 0 -\ndata 0 -\n",
        spent: (2, 0),
    },
    Case {
        shows: "descriptors are opened again after a close",
        config: CONFIG,
        schedule: "ask 1 open 3 /z\nask 1 close 3\nask 1 open 1 /z\nask 1 read 1 4097 2612\nask 1 read 1 2848 1\nask 1 close 1\nask 1 open 3 /z",
        fails: &[],
        status: 0,
        text: "client 1\nok 4096\nok\nok 4096\ndata 0 -\ndata 1 57\nok\nok 4096\n",
        spent: (4, 0),
    },
    Case {
        shows: "a failing link that is not asked changes nothing",
        config: CONFIG,
        schedule: "ask 1 open 3 /e\nask 1 read 3 1 8192\nask 1 read 3 0 12293\nask 1 read 3 0 2\nask 1 read 3 1 8192\nask 1 close 3\nask 1 open 1 /e\nask 1 read 1 1 1\nask 1 read 1 0 12293",
        fails: &[9],
        status: 0,
        text: "client 1\nok 0\ndata 0 -\ndata 0 -\ndata 0 -\ndata 0 -\nok\nok 0\ndata 0 -\ndata 0 -\n",
        spent: (2, 0),
    },
    Case {
        shows: "a block size that is no multiple of 4k is refused by its line",
        config: "all.export /\n# cache\npfc.blocksize 5000\n",
        schedule: "ask 1 open 0 /a\n",
        fails: &[],
        status: 2,
        text: "config 3 range\n",
        spent: (0, 0),
    },
    Case {
        shows: "the configuration is looked at before the schedule",
        config: "pfc.foo 1\n",
        schedule: "go 65\n",
        fails: &[],
        status: 2,
        text: "config 1 unknown\n",
        spent: (0, 0),
    },
    Case {
        shows: "a schedule names no writer past those of the configuration",
        config: "pfc.blocksize 4k\npfc.writequeue 16 3\n",
        schedule: "write 3 2\nwrite 4 1\n",
        fails: &[],
        status: 2,
        text: "schedule 2\n",
        spent: (0, 0),
    },
    Case {
        shows: "a larger block size asks the origin less often",
        config: "pfc.blocksize 8k\n",
        schedule: "ask 1 open 0 /a\nask 1 read 0 4095 2\n",
        fails: &[],
        status: 0,
        text: "client 1\nok 8193\ndata 2 4f50\n",
        spent: (2, 0),
    },
];

#[test]
fn each_run_leaves_its_status_its_text_and_its_calls(rt: HostRuntime) -> Result<(), Fail> {
    for case in CASES {
        let (status, text, spent) = play(
            rt.alloc(),
            "config origin cache 100000 schedule",
            case,
            &[],
        )?;
        assert_eq!(rt; status, case.status, "{}", case.shows);
        assert!(rt; text.as_str().starts_with(case.text), "{}", case.shows);
        assert_eq!(rt; spent, case.spent, "{}", case.shows);
    }
    Ok(())
}

/// A run that asks nothing of the origin.
const QUIET: Case = Case {
    shows: "a request without an origin",
    config: CONFIG,
    schedule: "ask 1 close 0\n",
    fails: &[],
    status: 0,
    text: "client 1\nerror descriptor\n",
    spent: (0, 0),
};

#[test]
fn words_that_are_not_of_the_form_print_the_usage_line(rt: HostRuntime) -> Result<(), Fail> {
    let usage =
        "usage: xcache_replay <config> <origin> <cache> <capacity> <schedule> | generate <number>\n";
    for words in [
        "",
        "a b c 999 d",
        "a b c 1000",
        "config origin cache 1x schedule",
        "config origin cache 8192000t schedule",
    ] {
        let (status, text, _) = play(rt.alloc(), words, &QUIET, &[])?;
        assert_eq!(rt; status, 1, "{words}");
        assert_eq!(rt; text.as_str(), usage, "{words}");
    }
    let (status, _, _) = play(rt.alloc(), "config origin cache 10g schedule", &QUIET, &[])?;
    assert_eq!(rt; status, 0);
    Ok(())
}

#[test]
fn a_source_that_the_host_does_not_have_is_a_fault(rt: HostRuntime) -> Result<(), Fail> {
    let (status, text, _) = play(
        rt.alloc(),
        "nothing origin cache 1000 schedule",
        &QUIET,
        &[],
    )?;
    assert_eq!(rt; status, 3);
    assert_eq!(rt; text.as_str(), "fault config\n");
    let (status, text, _) = play(rt.alloc(), "config origin cache 1000 nothing", &QUIET, &[])?;
    assert_eq!(rt; status, 3);
    assert_eq!(rt; text.as_str(), "fault schedule\n");
    Ok(())
}

#[test]
fn a_depot_that_is_not_listed_is_a_fault(rt: HostRuntime) -> Result<(), Fail> {
    let alloc = rt.alloc();
    let words = words_of(alloc, "config origin cache 1000 schedule")?;
    for (schedule, status, text) in [
        ("ask 1 open 0 /a\n", 3, "fault depot\n"),
        ("go 65\n", 2, "schedule 1\n"),
    ] {
        let mut host = host_of(alloc, CONFIG, schedule, &[])?;
        let mut depot = ShutDepot::new();
        let mut clock = ListClock::new(Vec::new(alloc));
        let mut out = VecSink::new(alloc, Vec::new(alloc));
        let answer = run_replay::<RowWorld, MemoryHost<RowWorld>, ShutDepot, ListClock, VecSink>(
            alloc, &words, &mut host, &mut depot, &mut clock, &mut out,
        );
        assert_eq!(rt; answer, status);
        assert_eq!(rt; out.bytes(), text.as_bytes());
        assert_eq!(rt; host.spent(1), (0, 0));
    }
    Ok(())
}

#[test]
fn a_sink_that_fails_has_a_front_of_the_text(rt: HostRuntime) -> Result<(), Fail> {
    let (status, text, _) = play(
        rt.alloc(),
        "config origin cache 1000 schedule",
        &QUIET,
        &[0],
    )?;
    assert_eq!(rt; status, 4);
    assert_eq!(rt; text.as_str(), "");
    let (status, text, _) = play(
        rt.alloc(),
        "config origin cache 1000 schedule",
        &QUIET,
        &[1],
    )?;
    assert_eq!(rt; status, 4);
    assert_eq!(rt; text.as_str(), "client 1\n");
    Ok(())
}
