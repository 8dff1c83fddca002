//! Accesses of one file, as a site would see them.
use crate::{attach, detach, last_access, merge_oldest};
use pfc_cinfo::{Head, MOST_RECORDS, Records};
use pfc_log::Served;
use std::test::Fail;

#[test]
fn the_two_oldest_of_twenty_are_merged(rt: HostRuntime) -> Result<(), Fail> {
    let mut head = Head {
        created: 1,
        accesses: 0,
        records: Records::new(rt.alloc()),
    };
    for access in 0..21 {
        let served = Served {
            hit: 10,
            missed: 1,
            bypassed: 0,
        };
        attach(rt.alloc(), &mut head, 100 * access)?;
        detach(rt.alloc(), &mut head, 100 * access + 7, &served, 2);
    }
    assert_eq!(rt; head.accesses, 21);
    assert_eq!(rt; last_access(&head), 2007);
    let records = head.records.as_slice();
    assert_eq!(rt; records.len(), MOST_RECORDS);
    let (oldest, next) = (records[0], records[1]);
    assert_eq!(rt;
        (oldest.attach, oldest.detach, oldest.duration),
        (0, 107, 14)
    );
    assert_eq!(rt; (oldest.merged, oldest.ios), (1, 4));
    assert_eq!(rt; (oldest.hit, oldest.missed, oldest.bypassed), (20, 2, 0));
    assert_eq!(rt; next.attach, 200);
    merge_oldest(rt.alloc(), &mut head);
    let records = head.records.as_slice();
    assert_eq!(rt; records.len(), MOST_RECORDS - 1);
    let oldest = records[0];
    assert_eq!(rt; oldest.merged, 2);
    Ok(())
}

#[test]
fn a_clock_that_goes_back_takes_no_time(rt: HostRuntime) -> Result<(), Fail> {
    let mut head = Head {
        created: 0,
        accesses: u64::MAX,
        records: Records::new(rt.alloc()),
    };
    assert_eq!(rt; last_access(&head), 0);
    attach(rt.alloc(), &mut head, 50)?;
    assert_eq!(rt; last_access(&head), 50);
    let served = Served {
        hit: 0,
        missed: 0,
        bypassed: 3,
    };
    detach(rt.alloc(), &mut head, 20, &served, 1);
    assert_eq!(rt; head.accesses, u64::MAX);
    let records = head.records.as_slice();
    assert_eq!(rt; records.len(), 1);
    let ended = records[0];
    assert_eq!(rt; ended.duration, 0);
    assert_eq!(rt; last_access(&head), 50);
    Ok(())
}
