//! Vector reads over the world of rows, in which byte j of each file is j modulo 251: `/a` has 8193 bytes, `/e` none.
use crate::outside::{empty_depot, host_of, run_over, words_of};
use crate::shared_cases::{SharedCase, check_runs};
use pfc_memory::VecSink;
use std::alloc::Global;
use std::test::Fail;

/// The runs. The status of each is 0.
const CASES: &[SharedCase] = &[
    // Pieces stand in the reply as they were asked. A block that two of them touch is fetched once.
    SharedCase {
        schedule: "ask 1 open 0 /a\nask 1 readv 0 8192:9 0:1 0:1\n",
        fails: &[],
        text: "client 1\nok 8193\nvector 3 1:a0 1:00 1:00\nlog /a stored -\nopened 1\nbegin 0 2 1\nbegin 1 0 1\njoin 1 0 1\nlanded 0\nlanded 1\nserved 1 0 3 0\nwrote 2\nleft 2\nwrote 0\nleft 0\nclosed 1\nsynced\nclaimed 13 2\n",
        spent: &[(1, 3, 0)],
    },
    // Pieces that are empty, cut at the end, past it, and over the end of a block.
    SharedCase {
        schedule: "ask 1 open 0 /a\nask 1 readv 0 0:0 8190:100 8193:1 18446744073709551615:1 4095:2\n",
        fails: &[],
        text: "client 1\nok 8193\nvector 5 0:- 3:9e9fa0 0:- 0:- 2:4f50\nlog /a stored -\nopened 1\nbegin 0 1 1\nbegin 1 2 1\nbegin 2 0 1\njoin 0 1 1\nlanded 0\nlanded 1\nlanded 2\nserved 1 0 5 0\nwrote 1\nleft 1\nwrote 2\nleft 2\nwrote 0\nleft 0\nclosed 1\nsynced\nclaimed 17 3\n",
        spent: &[(1, 4, 0)],
    },
    // A vector of one piece is told as a vector.
    SharedCase {
        schedule: "ask 1 open 0 /a\nask 1 readv 0 0:4\n",
        fails: &[],
        text: "client 1\nok 8193\nvector 1 4:00010203\nlog /a stored -\nopened 1\nbegin 0 0 1\nlanded 0\nserved 1 0 4 0\nwrote 0\nleft 0\nclosed 1\nsynced\nclaimed 8 1\n",
        spent: &[(1, 2, 0)],
    },
    // An empty file has no bytes for any piece, and nothing is fetched.
    SharedCase {
        schedule: "ask 1 open 0 /e\nask 1 readv 0 0:10 5:0\n",
        fails: &[],
        text: "client 1\nok 0\nvector 2 0:- 0:-\nlog /e stored -\nopened 1\nserved 1 0 0 0\nclosed 1\nsynced\nclaimed 4 0\n",
        spent: &[(1, 1, 0)],
    },
    // Overlapping pieces, and the most bytes of one request.
    SharedCase {
        schedule: "ask 1 open 0 /a\nask 1 readv 0 0:3 1:3 2:3\nask 1 readv 0 8192:16777215 0:1\n",
        fails: &[],
        text: "client 1\nok 8193\nvector 3 3:000102 3:010203 3:020304\nvector 2 1:a0 1:00\nlog /a stored -\nopened 1\nbegin 0 0 1\njoin 0 0 1\njoin 0 0 1\nlanded 0\nserved 1 0 9 0\nbegin 1 2 1\nhit 0 memory 1\nlanded 1\nserved 1 1 1 0\nwrote 0\nleft 0\nwrote 2\nleft 2\nclosed 1\nsynced\nclaimed 16 2\n",
        spent: &[(1, 3, 0)],
    },
    // One fault fails the whole request. What its other flight brought is kept.
    SharedCase {
        schedule: "ask 1 open 0 /a\nask 1 readv 0 0:1 4096:1\n",
        fails: &[(1, 2)],
        text: "client 1\nok 8193\nerror fetch\nlog /a stored -\nopened 1\nbegin 0 0 1\nbegin 1 1 1\nlanded 0\nfailed 1 fault\nwrote 0\nleft 0\nclosed 1\nsynced\nclaimed 9 1\n",
        spent: &[(1, 3, 1)],
    },
    // Pieces are read from disk as a plain read is.
    SharedCase {
        schedule: "ask 1 open 0 /a\nask 1 read 0 0 4\ngo 1 100\nwrite 1 100\nask 1 readv 0 1:2 3:1\n",
        fails: &[],
        text: "client 1\nok 8193\ndata 4 00010203\nvector 2 2:0102 1:03\nlog /a stored -\nopened 1\nbegin 0 0 1\nlanded 0\nserved 1 0 4 0\nwrote 0\nleft 0\nhit 0 disk 1\nhit 0 disk 1\nserved 1 3 0 0\nclosed 1\nsynced\nclaimed 11 1\n",
        spent: &[(1, 2, 0)],
    },
    // Two clients ask for the same blocks the other way round: each is fetched once.
    SharedCase {
        schedule: "ask 1 open 0 /a\nask 2 open 0 /a\ngo 1 100\ngo 2 100\nask 1 readv 0 0:1 4096:1\nask 2 readv 0 4097:1 1:1\ngo 1\ngo 2\n",
        fails: &[],
        text: "client 1\nok 8193\nvector 2 1:00 1:50\nclient 2\nok 8193\nvector 2 1:51 1:01\nlog /a stored -\nopened 1\nopened 2\nbegin 0 0 1\nbegin 1 1 1\njoin 1 1 2\njoin 0 0 2\nlanded 0\nlanded 1\nserved 1 0 2 0\nserved 2 0 2 0\nwrote 0\nleft 0\nwrote 1\nleft 1\nclosed 1\nclosed 2\nsynced\nclaimed 17 2\n",
        spent: &[(1, 3, 0), (2, 1, 0)],
    },
    // A line of another form, a descriptor that isn't open, and more bytes than one request gives.
    SharedCase {
        schedule: "ask 1 readv 0\nask 1 readv 0 1\nask 1 readv 0 1:\nask 1 readv 0 :1\nask 1 readv 0 1:2:3\nask 1 readv 0 01:2\nask 1 readv 0 0:1 \nask 1 readv 0 0:1  0:1\nask 1 readv x 0:1\nask 1 readv 0 0:1\nask 1 readv 16 0:16777217\nask 1 open 0 /e\nask 1 readv 0 0:16777216 0:1\nask 1 readv 0 0:18446744073709551615 0:18446744073709551615\n",
        fails: &[],
        text: "client 1\nerror request\nerror request\nerror request\nerror request\nerror request\nerror request\nerror request\nerror request\nerror request\nerror descriptor\nerror descriptor\nok 0\nerror range\nerror range\nlog /e stored -\nopened 1\nclosed 1\nsynced\nclaimed 3 0\n",
        spent: &[(1, 1, 0)],
    },
    // The schedule ends while a client puts its first block and has a second flight to run, for which another client waits: the
    // flight is run before the other is waited for.
    SharedCase {
        schedule: "ask 1 open 0 /a\ngo 1 100\nask 2 open 0 /a\ngo 2 100\nask 2 read 0 4095 2\nask 1 read 0 4096 1\ngo 2\ngo 1\ngo 2\n",
        fails: &[],
        text: "client 1\nok 8193\ndata 1 50\nclient 2\nok 8193\ndata 2 4f50\nlog /a stored -\nopened 1\nopened 2\nbegin 0 0 2\nbegin 1 1 2\njoin 1 1 1\nlanded 0\nlanded 1\nserved 1 0 1 0\nserved 2 0 2 0\nwrote 0\nleft 0\nwrote 1\nleft 1\nclosed 1\nclosed 2\nsynced\nclaimed 16 2\n",
        spent: &[(1, 1, 0), (2, 3, 0)],
    },
];

#[test]
fn vector_reads_are_answered_piece_by_piece(rt: HostRuntime) -> Result<(), Fail> {
    check_runs(&rt, rt.alloc(), CASES)
}

/// A text, and then another so many times, and an end.
fn repeated(
    alloc: Global,
    first: &str,
    piece: &str,
    times: usize,
    last: &str,
) -> Result<String, Fail> {
    let mut text = String::new(alloc);
    text.push_str(first)?;
    for _time in 0..times {
        text.push_str(piece)?;
    }
    text.push_str(last)?;
    Ok(text)
}

/// What a run of this schedule prints, without its logs' heads.
fn printed(alloc: Global, schedule: &str) -> Result<String, Fail> {
    let words = words_of(alloc, "config origin cache 100000 schedule")?;
    let mut host = host_of(alloc, "pfc.blocksize 4k\n", schedule, &[])?;
    let mut depot = empty_depot(alloc, &[], None)?;
    let mut out = VecSink::new(alloc, Vec::new(alloc));
    run_over(alloc, &words, &mut host, &mut depot, &mut out);
    Ok(
        String::from_utf8(Vec::from_slice(alloc, out.bytes())?)
            .ok()
            .ok_or("text")?,
    )
}

#[test]
fn a_request_has_1024_pieces_at_most(rt: HostRuntime) -> Result<(), Fail> {
    let alloc = rt.alloc();
    let first = "ask 1 open 0 /a\nask 1 readv 0";
    let most = printed(alloc, repeated(alloc, first, " 5:1", 1024, "\n")?.as_str())?;
    let mut told = repeated(alloc, "client 1\nok 8193\nvector 1024", " 1:05", 1024, "\n")?;
    told.push_str("log /a stored -\nopened 1\nbegin 0 0 1\n")?;
    let joins = repeated(
        alloc,
        "",
        "join 0 0 1\n",
        1023,
        "landed 0\nserved 1 0 1024 0\n",
    )?;
    told.push_str(joins.as_str())?;
    told.push_str("wrote 0\nleft 0\nclosed 1\nsynced\nclaimed 1031 1\n")?;
    assert_eq!(rt; most.as_str(), told.as_str());
    let more = printed(alloc, repeated(alloc, first, " 5:1", 1025, "\n")?.as_str())?;
    let refused =
        "client 1\nok 8193\nerror request\nlog /a stored -\nopened 1\nclosed 1\nsynced\nclaimed 3 0\n";
    assert_eq!(rt; more.as_str(), refused);
    Ok(())
}
