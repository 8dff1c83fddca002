use crate::{Budget, Full, Seat};
use std::alloc::Global;
use std::sync::Arc;
use std::sync::atomic::{AtomicU64, Ordering};
use std::test::Fail;
use std::thread;

#[test]
fn claims_up_to_the_limit(rt: HostRuntime) -> Result<(), Fail> {
    let mut seat = Budget::start(rt.alloc(), 10)?;
    seat.claim(6)?;
    let full = Full {
        found: 6,
        want: 5,
        limit: 10,
    };
    assert_eq!(rt; seat.claim(5), Err(full));
    seat.claim(4)?;
    assert_eq!(rt; seat.load(), 10);
    seat.give(10);
    assert_eq!(rt; (seat.held(), seat.load(), seat.limit()), (0, 0, 10));
    Ok(())
}

// No clause refuses a seat that always answers `Full` while it isn't alone, nor a load that sees its own seat only.
#[test]
fn sees_what_a_neighbour_holds_and_gives_back(rt: HostRuntime) -> Result<(), Fail> {
    let mut first = Budget::start(rt.alloc(), 10)?;
    let mut second = first.split()?;
    first.claim(10)?;
    assert_eq!(rt; (second.load(), second.held()), (10, 0));
    let full = Full {
        found: 10,
        want: 1,
        limit: 10,
    };
    assert_eq!(rt; second.claim(1), Err(full));
    first.give(7);
    second.claim(7)?;
    assert_eq!(rt; (first.load(), first.held(), second.held()), (10, 3, 7));
    first.join(second);
    assert_eq!(rt; (first.load(), first.held()), (10, 10));
    Ok(())
}

#[derive(Drop)]
struct Shift {
    served: u64,
    most: u64,
    seat: Seat,
}

// Claims three bytes and gives them back, many times. `together` is raised only while the bytes are held, so it
// shows at most what all seats hold.
fn works(mut seat: Seat, together: &AtomicU64) -> Shift {
    let mut served = 0u64;
    let mut most = 0u64;
    for _ in 0..2000 {
        if seat.claim(3).is_ok() {
            let before = together.fetch_add(3, Ordering::SeqCst);
            most = most.max(before.saturating_add(3));
            served = served.saturating_add(1);
            together.fetch_sub(3, Ordering::SeqCst);
            seat.give(3);
        }
    }
    Shift { served, most, seat }
}

#[test]
fn four_threads_stay_within_the_limit(rt: HostRuntime) -> Result<(), Fail> {
    let mut first = Budget::start(rt.alloc(), 7)?;
    let (a, b, c, d) = (
        first.split()?,
        first.split()?,
        first.split()?,
        first.split()?,
    );
    let together: Arc<AtomicU64, Global> = Arc::new(rt.alloc(), AtomicU64::new(0))?;
    let (e, f) = (Arc::try_clone(&together)?, Arc::try_clone(&together)?);
    let (g, h) = (Arc::try_clone(&together)?, Arc::try_clone(&together)?);
    let one = thread::spawn(&rt, move || works(a, &e))?;
    let two = thread::spawn(&rt, move || works(b, &f))?;
    let three = thread::spawn(&rt, move || works(c, &g))?;
    let four = thread::spawn(&rt, move || works(d, &h))?;
    let (one, two) = (one.join(&rt), two.join(&rt));
    let (three, four) = (three.join(&rt), four.join(&rt));
    for shift in [&one, &two, &three, &four] {
        assert!(rt; shift.most <= 6 && shift.seat.held() == 0);
    }
    // The first claim of all finds the word at 0.
    assert!(rt; one.served > 0 || two.served > 0 || three.served > 0 || four.served > 0);
    assert_eq!(rt; first.load(), 0);
    Ok(())
}
