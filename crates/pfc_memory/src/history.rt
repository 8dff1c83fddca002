// What a device in memory holds and held, and how a call changes it.
ghost use Rattle.std.specs.Prelude.{◌≡◌, ◌<◌, [], None, false, vec_len, vec_capacity};

use crate::numbers::{Numbers, Turn};
use pfc_base::Memory;
use pfc_world::Fault;
use std::alloc::Global;
use std::mem;

/// The calls of one device.
#[derive(Drop)]
pub(crate) struct DeviceCalls {
    numbers: Numbers,
    // The number of the last call. A call that finds no memory isn't made, and has none.
    last: Option<u64>,
    // Whether a call of this device met the fuse.
    burnt: bool,
    faults: u64,
}

impl DeviceCalls {
    ghost use Rattle.pfc_memory.specs.History.{Makes, Refuses, CountsFault};

    /// None yet.
    pub(crate) fn new(numbers: Numbers) -> DeviceCalls
        ensures numbers { result.numbers ≡ numbers }
        ensures fresh { (result.last ≡ None) × (result.burnt ≡ false) }
        ensures faults { result.faults ≡ 0 }
    {
        DeviceCalls {
            numbers,
            last: None,
            burnt: false,
            faults: 0,
        }
    }

    /// How many calls failed.
    pub(crate) fn faults(&self) -> u64
        ensures { result ≡ self.now.faults }
    {
        self.faults
    }

    /// Makes a call, and says what becomes of it.
    pub(crate) fn make(&mut self) -> Turn
        ensures { Makes self.old self.new result }
    {
        let number = self.numbers.take();
        let turn = self.numbers.turn(self.burnt, number);
        self.last = Some(number);
        self.burnt = self.burnt || self.numbers.reaches(number);
        turn
    }

    /// Counts a fault of the call that was made last.
    pub(crate) fn fail(&mut self) -> Fault
        ensures { CountsFault self.old self.new }
    {
        self.faults = self.faults.saturating_add(1);
        Fault
    }

    /// Counts a fault of a call that finds no memory, and so isn't made.
    pub(crate) fn refuse(&mut self) -> Fault
        ensures { Refuses self.old self.new }
    {
        self.last = None;
        self.faults = self.faults.saturating_add(1);
        Fault
    }
}

/// What a device holds, and what it held before each of its calls, the oldest first.
#[derive(Drop)]
pub(crate) struct History<S: Drop> {
    pub(crate) now: S,
    pub(crate) past: Vec<S>,
}

/// What a call leaves where it is done, and where it fails.
#[derive(Drop)]
pub(crate) struct Sides<S: Drop> {
    pub(crate) done: S,
    pub(crate) doubtful: S,
}

impl<S: Drop> History<S> {
    ghost use Rattle.pfc_memory.specs.History.{Advances, Steps, Counts, OkWherePasses};

    /// Holds this, and held nothing before.
    pub(crate) fn new(alloc: Global, now: S) -> History<S>
        ensures now { result.now ≡ now }
        ensures past { result.past.items ≡ [] }
    {
        History {
            now,
            past: Vec::new(alloc),
        }
    }

    /// Forgets what was before.
    pub(crate) fn forget(&mut self)
        ensures now { self.new.now ≡ self.old.now }
        ensures past { self.new.past.items ≡ [] }
    {
        self.past.clear();
    }

    /// Holds another thing from now on.
    fn advance(&mut self, next: S)
        requires { vec_len self.old.past < vec_capacity self.old.past }
        ensures { Advances self.old self.new next }
    {
        let last = mem::replace(&mut self.now, next);
        let pushed = self.past.push(last);
        prove!(pushed.is_ok());
    }

    /// Makes a call that leaves one of the sides. Where they, or the history, found no memory, the call isn't made.
    pub(crate) fn step(
        &mut self,
        calls: &mut DeviceCalls,
        sides: Result<Sides<S>, Memory>,
    ) -> Result<(), Fault>
        ensures counts { Counts calls.old calls.new result }
        ensures exactly { OkWherePasses calls.old calls.new result }
        ensures steps { Steps self.old self.new calls.old calls.new sides }
    {
        let Ok(Sides { done, doubtful }) = sides else {
            return Err(calls.refuse());
        };
        if self.past.reserve(1).is_err() {
            return Err(calls.refuse());
        }
        match calls.make() {
            Turn::Passes => {
                self.advance(done);
                Ok(())
            }
            Turn::Fails => {
                self.advance(doubtful);
                Err(calls.fail())
            }
            Turn::Burnt => Err(calls.fail()),
        }
    }
}
