// Counts of calls that fail where a list names them.
ghost use Rattle.std.specs.Prelude.{◌≡◌};
ghost use Rattle.pfc_world.specs.Counts.{add_count};

use pfc_world::Fault;

/// The calls of one object: how many were made, how many of them failed, and the numbers, from 0, of those that fail.
#[derive(Drop)]
pub(crate) struct Calls {
    made: u64,
    faults: u64,
    fails: Vec<u64>,
}

impl Calls {
    ghost use Rattle.pfc_memory.specs.Calls.{CountsCall};

    /// None yet.
    pub(crate) fn new(fails: Vec<u64>) -> Calls
        ensures made { result.made ≡ 0 }
        ensures faults { result.faults ≡ 0 }
        ensures fails { result.fails ≡ fails }
    {
        Calls {
            made: 0,
            faults: 0,
            fails,
        }
    }

    /// Counts a call, and fails where the list names it.
    pub(crate) fn count(&mut self) -> Result<(), Fault>
        ensures { CountsCall self.old self.new result }
    {
        let call = self.made;
        self.made = call.saturating_add(1);
        if self.fails.contains(&call) {
            self.fail();
            return Err(Fault);
        }
        Ok(())
    }

    /// Counts a fault of a call that was counted.
    pub(crate) fn fail(&mut self)
        ensures { self.new ≡ record self.old { faults = add_count self.old.faults 1 } }
    {
        self.faults = self.faults.saturating_add(1);
    }

    /// How many calls were made.
    pub(crate) fn made(&self) -> u64
        ensures { result ≡ self.now.made }
    {
        self.made
    }

    /// How many of them failed.
    pub(crate) fn faults(&self) -> u64
        ensures { result ≡ self.now.faults }
    {
        self.faults
    }
}
