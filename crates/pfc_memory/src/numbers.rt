// The numbers of device calls over all volumes of one depot.
ghost use Rattle.std.specs.Prelude.{◌≡◌, Option, Some, None, IfOk};
ghost use Rattle.std.specs.Arc.{arc_value};

use pfc_base::Memory;
use std::alloc::Global;
use std::sync::Arc;
use std::sync::atomic::{AtomicU64, Ordering};

/// What becomes of a device call.
#[derive(Clone, Copy, Debug, PartialEq, Eq)]
pub(crate) enum Turn {
    /// It is done.
    Passes,
    /// It fails, and a crash may leave what was before it or what it was to do.
    Fails,
    /// It fails and does nothing, as each call past the fuse.
    Burnt,
}

/// The next number, those that fail, and the fuse.
#[derive(Drop)]
pub(crate) struct Plan {
    next: AtomicU64,
    fails: Vec<u64>,
    fuse: Option<u64>,
}

/// The numbering, from 0, of all device calls of one depot, and which of them fail: those that a list names, the one with
/// the number of the fuse, and all past it. Each device has a share of it.
#[derive(Drop)]
pub(crate) struct Numbers {
    plan: Arc<Plan, Global>,
}

impl Numbers {
    ghost use Rattle.pfc_memory.specs.Numbers.{fails_of, fuse_of, turn_of, reaches};

    /// A numbering of which no number is given out.
    pub(crate) fn new(alloc: Global, fails: Vec<u64>, fuse: Option<u64>) -> Result<Numbers, Memory>
        ensures fails { IfOk result (λ numbers. fails_of numbers ≡ fails.items) }
        ensures fuse { IfOk result (λ numbers. fuse_of numbers ≡ fuse) }
    {
        let plan = Plan {
            next: AtomicU64::new(0),
            fails,
            fuse,
        };
        match Arc::new(alloc, plan) {
            Ok(plan) => Ok(Numbers { plan }),
            Err(_) => Err(Memory),
        }
    }

    /// The same numbering, for another device.
    pub(crate) fn share(&self) -> Result<Numbers, Memory>
        ensures fails { IfOk result (λ numbers. fails_of numbers ≡ fails_of self.now) }
        ensures fuse { IfOk result (λ numbers. fuse_of numbers ≡ fuse_of self.now) }
    {
        let plan = Arc::try_clone(&self.plan)?;
        Ok(Numbers { plan })
    }

    /// How many device calls were made.
    pub(crate) fn calls(&self) -> u64 {
        self.plan.next.load(Ordering::SeqCst)
    }

    /// The number of the next call.
    pub(crate) fn take(&self) -> u64 {
        self.plan.next.fetch_add(1, Ordering::SeqCst)
    }

    /// What becomes of a call with this number on a device that has met the fuse or not.
    pub(crate) fn turn(&self, burnt: bool, number: u64) -> Turn
        ensures { result ≡ turn_of burnt self.now number }
    {
        if burnt || self.plan.fuse.is_some_and(|fuse| fuse < number) {
            Turn::Burnt
        } else if self.reaches(number) || self.plan.fails.contains(&number) {
            Turn::Fails
        } else {
            Turn::Passes
        }
    }

    /// Whether a number is the fuse's or past it.
    pub(crate) fn reaches(&self, number: u64) -> bool
        ensures { result ≡ reaches (fuse_of self.now) number }
    {
        self.plan.fuse.is_some_and(|fuse| fuse <= number)
    }
}
