//! Two logs, summed up and printed.
use crate::Tally;
use pfc_log::Counts;
use std::test::Fail;

fn two() -> Counts {
    Counts {
        opens: 2,
        reads: 3,
        hit: 4096,
        missed: 100,
        bypassed: 7,
        joined: 1,
        fetched: 5,
        prefetched: 4,
        failed: 6,
        written: 8,
        dropped: 9,
        synced: 10,
        claimed: 11,
    }
}

#[test]
fn two_logs_are_one_table(rt: HostRuntime) -> Result<(), Fail> {
    let mut tally = Tally::new();
    tally.add(&two());
    tally.add(&two());
    let mut out = Vec::new(rt.alloc());
    tally.push_text(rt.alloc(), &mut out, 12, u64::MAX)?;
    let wanted =
        "statistics\nopens 4\nreads 6\nhit 8192\nmissed 200\nbypassed 14\njoined 2\nfetched 10\nprefetched 8\nfailed 12\nwritten 16\ndropped 18\nsynced 20\nclaimed 22\npurged 12\nusage 18446744073709551615\n";
    assert!(rt; out.as_slice() == wanted.as_bytes());
    Ok(())
}

#[test]
fn a_server_prints_its_own_work(rt: HostRuntime) -> Result<(), Fail> {
    let mut tally = Tally::new();
    tally.add(&Counts {
        opens: u64::MAX,
        ..two()
    });
    tally.add(&two());
    let mut out = Vec::new(rt.alloc());
    tally.push_own(rt.alloc(), &mut out, 0)?;
    let wanted =
        "statistics\nopens 18446744073709551615\nreads 6\nhit 8192\nmissed 200\nbypassed 14\nfetched 10\nprefetched 8\nfailed 12\nusage 0\n";
    assert!(rt; out.as_slice() == wanted.as_bytes());
    Ok(())
}
