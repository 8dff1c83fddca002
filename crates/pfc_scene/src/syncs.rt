// How the sync steps: one turn brings what was written to disk for good, the next puts a cinfo that claims it.
ghost use Rattle.std.specs.Prelude.{◌≡◌, ◌<◌, length, IfSome};
ghost use Rattle.pfc_scene.specs.Scenes.{Moves};

use crate::scene::Scene;
use pfc_actor::Standing;
use pfc_core::{FileCore, Turn};
use pfc_sync::{SyncPhase, SyncWork};
use pfc_world::{Depot, Origin, World};
use std::alloc::Global;

/// The place of the core of this path that is cached.
fn find_stored<W: World>(cores: &[FileCore<W>], path: &[u8]) -> Option<usize>
    ensures { IfSome result (λ i. i < length cores.now) }
{
    for i in 0..cores.len() {
        if cores[i].uncached().is_none() && cores[i].known().path().as_bytes() == path {
            return Some(i);
        }
    }
    None
}

impl<W: World, O: Origin<W>, P: Depot<W>> Scene<W, O, P> {
    /// Lends the store of the core at this place for a turn. It tells whether it did.
    fn lend_turn(&mut self, alloc: Global, i: usize, turn: Turn) -> bool
        requires { i < length self.old.cores }
        ensures moves { Moves self.old self.new }
        ensures cores { length self.new.cores ≡ length self.old.cores }
    {
        let lent = self.backings[i].lend_turn(alloc, &mut self.cores[i], turn);
        self.cores[i].own();
        lent
    }

    /// Makes the turn for which the store of the core at this place was lent. It tells whether that went well.
    fn turn_at(&mut self, alloc: Global, i: usize) -> bool
        requires { i < length self.old.cores }
        ensures moves { Moves self.old self.new }
        ensures cores { self.new.cores ≡ self.old.cores }
    {
        self.backings[i].turn(alloc)
    }

    /// The sync is at this from now on.
    fn at_work(&mut self, work: Option<SyncWork>)
        ensures { self.new ≡ self.old }
    {
        self.sync = work;
    }

    /// At rest it begins with the core at this place, where a block or a record isn't claimed and the store is at home.
    fn begin_sync(&mut self, alloc: Global, i: usize)
        requires { i < length self.old.cores }
        ensures moves { Moves self.old self.new }
        ensures cores { length self.new.cores ≡ length self.old.cores }
    {
        if !self.cores[i].needs_sync() {
            return;
        }
        if self.lend_turn(alloc, i, Turn::Data) {
            self.at_work(Some(SyncWork {
                core: i,
                phase: SyncPhase::Lent(Turn::Data),
            }));
        }
    }

    /// It makes the turn for which the store was lent.
    fn take_turn(&mut self, alloc: Global, i: usize, turn: Turn)
        requires { i < length self.old.cores }
        ensures moves { Moves self.old self.new }
        ensures cores { length self.new.cores ≡ length self.old.cores }
    {
        let went_well = self.turn_at(alloc, i);
        self.at_work(Some(SyncWork {
            core: i,
            phase: SyncPhase::after(turn, went_well),
        }));
    }

    /// It gives the store back. Then the other turn follows, or it is at rest.
    fn end_turn(&mut self, i: usize, follows: bool)
        requires { i < length self.old.cores }
        ensures moves { Moves self.old self.new }
        ensures cores { length self.new.cores ≡ length self.old.cores }
    {
        if !self.give(i) {
            return;
        }
        if follows {
            self.at_work(Some(SyncWork {
                core: i,
                phase: SyncPhase::Between,
            }));
        } else {
            self.at_work(None);
        }
    }

    /// It has the store lent for the put of the cinfo, once that is at home. A store that isn't lent for another cause ends the turn.
    fn begin_put(&mut self, alloc: Global, i: usize)
        requires { i < length self.old.cores }
        ensures moves { Moves self.old self.new }
        ensures cores { length self.new.cores ≡ length self.old.cores }
    {
        if self.backings[i].standing() == Standing::Lent {
            return;
        }
        if self.lend_turn(alloc, i, Turn::Info) {
            self.at_work(Some(SyncWork {
                core: i,
                phase: SyncPhase::Lent(Turn::Info),
            }));
        } else {
            self.at_work(None);
        }
    }

    /// The next step of the sync with the core at this place, which it is at.
    fn go_on_sync(&mut self, alloc: Global, i: usize, phase: SyncPhase)
        requires { i < length self.old.cores }
        ensures moves { Moves self.old self.new }
        ensures cores { length self.new.cores ≡ length self.old.cores }
    {
        match phase {
            SyncPhase::Lent(turn) => self.take_turn(alloc, i, turn),
            SyncPhase::Returning { follows } => self.end_turn(i, follows),
            SyncPhase::Between => self.begin_put(alloc, i),
        }
    }

    /// One step of the sync, where it is at rest or at the core at this place.
    pub(crate) fn sync_step(&mut self, alloc: Global, i: usize)
        requires { i < length self.old.cores }
        ensures moves { Moves self.old self.new }
        ensures cores { length self.new.cores ≡ length self.old.cores }
    {
        match self.sync {
            None => self.begin_sync(alloc, i),
            Some(work) => {
                if work.core == i {
                    self.go_on_sync(alloc, i, work.phase);
                }
            }
        }
    }

    /// The sync makes so many steps, where it is at rest or at this path. Nothing comes of it where no file of that path is cached.
    pub fn sync(&mut self, alloc: Global, path: &[u8], times: u32)
        ensures { Moves self.old self.new }
    {
        let Some(i) = find_stored(&self.cores, path) else {
            return;
        };
        for _step in 0..times {
            self.sync_step(alloc, i);
        }
    }
}
