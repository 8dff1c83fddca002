// What is done after the last line of a schedule.
ghost use Rattle.std.specs.Prelude.{◌≡◌, ◌<◌, length, IsTrue};
ghost use Rattle.pfc_actor.specs.Backings.{depot_of, IsSoundAtHome};
ghost use Rattle.pfc_scene.specs.Scenes.{IsLentBy, Moves, PersistsBy, Plays};

use crate::scene::Scene;
use pfc_client::DESCRIPTORS;
use pfc_world::{Clock, Depot, Origin, World};
use std::alloc::Global;

/// The most steps that a writer makes of one job.
const JOB_STEPS: u32 = 5;

/// The most steps that a sync makes of one core.
const SYNC_STEPS: u32 = 6;

/// The most steps that a client makes of one loan.
const LOAN_STEPS: u32 = 2;

impl<W: World, O: Origin<W>, P: Depot<W>> Scene<W, O, P> {
    /// The client at this place steps until it holds no ticket and makes no core.
    fn settle<K: Clock>(&mut self, alloc: Global, depot: &mut P, clock: &mut K, j: usize)
        requires told { IsTrue W.told → IsTrue P.Data.told }
        requires sound { IsSoundAtHome W.told P.Data.told W.files (P.home_data depot.old) (P.home_main depot.old) }
        requires lent { IsLentBy (depot_of P.out P.lent P.faults depot.old) self.old.backings }
        requires j { j < length self.old.clients }
        ensures sound { IsSoundAtHome W.told P.Data.told W.files (P.home_data depot.new) (P.home_main depot.new) }
        ensures lent { IsLentBy (depot_of P.out P.lent P.faults depot.new) self.new.backings }
        ensures plays { Plays self.old (depot_of P.out P.lent P.faults depot.old) self.new (depot_of P.out P.lent P.faults depot.new) }
        ensures persists { PersistsBy W.told P.Data.told W.files self.old (P.home_main depot.old) self.new (P.home_main depot.new) }
        ensures unlisted { P.unlisted depot.new ≡ P.unlisted depot.old }
    {
        for _turn in 0..u64::MAX {
            if !self.clients[j].is_busy() {
                return;
            }
            self.step(alloc, depot, clock, j);
        }
    }

    /// All clients settle, one after the other.
    fn settle_all<K: Clock>(&mut self, alloc: Global, depot: &mut P, clock: &mut K)
        requires told { IsTrue W.told → IsTrue P.Data.told }
        requires sound { IsSoundAtHome W.told P.Data.told W.files (P.home_data depot.old) (P.home_main depot.old) }
        requires lent { IsLentBy (depot_of P.out P.lent P.faults depot.old) self.old.backings }
        ensures sound { IsSoundAtHome W.told P.Data.told W.files (P.home_data depot.new) (P.home_main depot.new) }
        ensures lent { IsLentBy (depot_of P.out P.lent P.faults depot.new) self.new.backings }
        ensures plays { Plays self.old (depot_of P.out P.lent P.faults depot.old) self.new (depot_of P.out P.lent P.faults depot.new) }
        ensures persists { PersistsBy W.told P.Data.told W.files self.old (P.home_main depot.old) self.new (P.home_main depot.new) }
        ensures unlisted { P.unlisted depot.new ≡ P.unlisted depot.old }
    {
        for j in 0..self.clients.len() {
            self.settle(alloc, depot, clock, j);
        }
    }

    /// The writer at this place goes on with its job, if it is at one, as far as it comes.
    fn finish_job(&mut self, w: usize)
        requires { w < length self.old.writers }
        ensures { Moves self.old self.new }
    {
        for _step in 0..JOB_STEPS {
            if self.writers[w].phase().is_none() {
                return;
            }
            self.write_step(w);
        }
    }

    /// All writers do so, one after the other.
    fn finish_jobs(&mut self)
        ensures { Moves self.old self.new }
    {
        for w in 0..self.writers.len() {
            self.finish_job(w);
        }
    }

    /// The client at this place gives back the store that is lent to it.
    fn give_back<K: Clock>(&mut self, alloc: Global, clock: &mut K, j: usize)
        requires told { IsTrue W.told → IsTrue P.Data.told }
        requires j { j < length self.old.clients }
        ensures { Moves self.old self.new }
    {
        for _step in 0..LOAN_STEPS {
            if !self.clients[j].is_lent() {
                return;
            }
            self.move_within(alloc, clock, j);
        }
    }

    /// All clients do so, one after the other.
    fn give_all_back<K: Clock>(&mut self, alloc: Global, clock: &mut K)
        requires { IsTrue W.told → IsTrue P.Data.told }
        ensures { Moves self.old self.new }
    {
        for j in 0..self.clients.len() {
            self.give_back(alloc, clock, j);
        }
    }

    /// The client at this place steps until each of its requests has its reply.
    fn complete<K: Clock>(&mut self, alloc: Global, depot: &mut P, clock: &mut K, j: usize)
        requires told { IsTrue W.told → IsTrue P.Data.told }
        requires sound { IsSoundAtHome W.told P.Data.told W.files (P.home_data depot.old) (P.home_main depot.old) }
        requires lent { IsLentBy (depot_of P.out P.lent P.faults depot.old) self.old.backings }
        requires j { j < length self.old.clients }
        ensures sound { IsSoundAtHome W.told P.Data.told W.files (P.home_data depot.new) (P.home_main depot.new) }
        ensures lent { IsLentBy (depot_of P.out P.lent P.faults depot.new) self.new.backings }
        ensures plays { Plays self.old (depot_of P.out P.lent P.faults depot.old) self.new (depot_of P.out P.lent P.faults depot.new) }
        ensures persists { PersistsBy W.told P.Data.told W.files self.old (P.home_main depot.old) self.new (P.home_main depot.new) }
        ensures unlisted { P.unlisted depot.new ≡ P.unlisted depot.old }
    {
        for _turn in 0..u64::MAX {
            if self.clients[j].is_done() {
                return;
            }
            self.step(alloc, depot, clock, j);
        }
    }

    /// All clients complete, one after the other.
    fn complete_all<K: Clock>(&mut self, alloc: Global, depot: &mut P, clock: &mut K)
        requires told { IsTrue W.told → IsTrue P.Data.told }
        requires sound { IsSoundAtHome W.told P.Data.told W.files (P.home_data depot.old) (P.home_main depot.old) }
        requires lent { IsLentBy (depot_of P.out P.lent P.faults depot.old) self.old.backings }
        ensures sound { IsSoundAtHome W.told P.Data.told W.files (P.home_data depot.new) (P.home_main depot.new) }
        ensures lent { IsLentBy (depot_of P.out P.lent P.faults depot.new) self.new.backings }
        ensures plays { Plays self.old (depot_of P.out P.lent P.faults depot.old) self.new (depot_of P.out P.lent P.faults depot.new) }
        ensures persists { PersistsBy W.told P.Data.told W.files self.old (P.home_main depot.old) self.new (P.home_main depot.new) }
        ensures unlisted { P.unlisted depot.new ≡ P.unlisted depot.old }
    {
        for j in 0..self.clients.len() {
            self.complete(alloc, depot, clock, j);
        }
    }

    /// The first writer steps until no job waits and it is at none.
    fn write_out(&mut self)
        ensures { Moves self.old self.new }
    {
        if self.writers.len() == 0 {
            return;
        }
        for _turn in 0..u64::MAX {
            if self.queue.is_empty() && self.writers[0].phase().is_none() {
                return;
            }
            self.write_step(0);
        }
    }

    /// The client at this place closes the descriptors that are still open, in order of number.
    fn shut<K: Clock>(&mut self, alloc: Global, clock: &mut K, j: usize)
        requires { j < length self.old.clients }
        ensures { Moves self.old self.new }
    {
        for _descriptor in 0..DESCRIPTORS {
            let Some(i) = self.clients[j].open_at() else {
                return;
            };
            self.shut_at(alloc, clock, j, i as usize);
        }
    }

    /// All clients do so, one after the other.
    fn shut_all<K: Clock>(&mut self, alloc: Global, clock: &mut K)
        ensures { Moves self.old self.new }
    {
        for j in 0..self.clients.len() {
            self.shut(alloc, clock, j);
        }
    }

    /// The sync goes on with the core at this place, if it is at one, as far as it comes.
    fn finish_sync_at(&mut self, alloc: Global, i: usize)
        requires { i < length self.old.cores }
        ensures moves { Moves self.old self.new }
        ensures cores { length self.new.cores ≡ length self.old.cores }
    {
        for _step in 0..SYNC_STEPS {
            if self.sync.is_none() {
                return;
            }
            self.sync_step(alloc, i);
        }
    }

    /// The sync goes on with what it is at, as far as it comes.
    fn finish_sync(&mut self, alloc: Global)
        ensures { Moves self.old self.new }
    {
        let Some(work) = self.sync else {
            return;
        };
        if work.core < self.cores.len() {
            self.finish_sync_at(alloc, work.core);
        }
    }

    /// What is lent is given back, in two rounds, since one may have waited for another, and no writer is at a job after them.
    fn give_all<K: Clock>(&mut self, alloc: Global, clock: &mut K)
        requires { IsTrue W.told → IsTrue P.Data.told }
        ensures { Moves self.old self.new }
    {
        self.finish_jobs();
        self.finish_sync(alloc);
        self.give_all_back(alloc, clock);
        self.finish_jobs();
        self.finish_sync(alloc);
        self.give_all_back(alloc, clock);
    }

    /// What can be read of each file is claimed, one file after the other.
    fn sync_all(&mut self, alloc: Global)
        ensures { Moves self.old self.new }
    {
        for i in 0..self.cores.len() {
            self.sync_step(alloc, i);
            self.finish_sync_at(alloc, i);
        }
    }

    /// After the last line of a schedule each client gives up what others may wait for, and all loans come back. Then the requests
    /// are completed, the queue is written out, what is still open is closed, and what is on disk is claimed.
    pub fn drain<K: Clock>(&mut self, alloc: Global, depot: &mut P, clock: &mut K)
        requires told { IsTrue W.told → IsTrue P.Data.told }
        requires sound { IsSoundAtHome W.told P.Data.told W.files (P.home_data depot.old) (P.home_main depot.old) }
        requires lent { IsLentBy (depot_of P.out P.lent P.faults depot.old) self.old.backings }
        ensures sound { IsSoundAtHome W.told P.Data.told W.files (P.home_data depot.new) (P.home_main depot.new) }
        ensures lent { IsLentBy (depot_of P.out P.lent P.faults depot.new) self.new.backings }
        ensures plays { Plays self.old (depot_of P.out P.lent P.faults depot.old) self.new (depot_of P.out P.lent P.faults depot.new) }
        ensures persists { PersistsBy W.told P.Data.told W.files self.old (P.home_main depot.old) self.new (P.home_main depot.new) }
        ensures unlisted { P.unlisted depot.new ≡ P.unlisted depot.old }
    {
        self.settle_all(alloc, depot, clock);
        self.give_all(alloc, clock);
        self.complete_all(alloc, depot, clock);
        self.write_out();
        self.shut_all(alloc, clock);
        self.sync_all(alloc);
    }
}
