// Links to worlds in memory.
ghost use Rattle.std.specs.Prelude.{◌≡◌, ◌+◌, ◌<◌, ◌≤◌, ◌^◌, IfOk, IfSome, OnOk, length};
ghost use Rattle.pfc_world.specs.Files.{size_at, LiesIn, Holds};
ghost use Rattle.pfc_world.specs.Counts.{HasCause, add_count};
ghost use Rattle.pfc_memory.specs.Calls.{CountsCall};

use crate::MemoryWorld;
use crate::calls::Calls;
use pfc_base::Path;
use pfc_world::{Fault, Origin};
use std::marker::PhantomData;

/// A link to a world in memory. Of its calls, counted from 0, those that a list names fail, and no other.
#[derive(Drop)]
pub struct MemoryLink<W: MemoryWorld> {
    pub(crate) number: u32,
    pub(crate) calls: Calls,
    pub(crate) world: PhantomData<W>,
}

impl<W: MemoryWorld> Origin<W> for MemoryLink<W> {
    ghost number = { λ l. l.number };

    ghost calls = { λ l. l.calls.made };

    ghost faults = { λ l. l.calls.faults };

    fn stat(&mut self, path: &Path) -> Result<Option<u64>, Fault>
        ensures number { self.new.number ≡ self.old.number }
        ensures calls { self.new.calls.made ≡ add_count self.old.calls.made 1 }
        ensures cause { HasCause self.old.calls.faults self.new.calls.faults result }
        ensures told { IfOk result (λ found. found ≡ size_at W.files path.now) }
        ensures short { IfOk result (λ found. IfSome found (λ size. size < 2 ^ 44)) }
        ensures named { CountsCall self.old.calls self.new.calls result }
    {
        self.calls.count()?;
        Ok(W::size(path))
    }

    fn fetch(&mut self, path: &Path, at: u64, into: &mut [u8]) -> Result<(), Fault>
        requires { LiesIn W.told W.files path.now at (length into.old) }
        ensures number { self.new.number ≡ self.old.number }
        ensures calls { self.new.calls.made ≡ add_count self.old.calls.made 1 }
        ensures cause { HasCause self.old.calls.faults self.new.calls.faults result }
        ensures told { OnOk result (Holds W.told W.files path.now at into.new) }
        ensures named { CountsCall self.old.calls self.new.calls result }
    {
        self.calls.count()?;
        W::fill(path, at, into);
        Ok(())
    }
}
