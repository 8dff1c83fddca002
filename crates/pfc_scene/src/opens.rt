// How clients get to the cores of the files that they open: a core is made, its volume is taken, its store is opened.
ghost use Rattle.std.specs.Prelude.{◌≡◌, ◌<◌, ◌≤◌, ◌+◌, ℕ, length, slice_index_or, slice_set, IfSome, IfErr, IsTrue, OnErr};
ghost use Rattle.pfc_base.specs.Block.{count_of};
ghost use Rattle.pfc_base.specs.Cinfo.{IsBlockSize};
ghost use Rattle.pfc_world.specs.Counts.{RoseBy};
ghost use Rattle.pfc_core.specs.View.{CoreView};
ghost use Rattle.pfc_actor.specs.declared.backing.Standing.TheVariants as standing;
ghost use Rattle.pfc_actor.specs.Backings.{BackingView, Bare, Covers, standing_of, depot_of, IsBackingOf, IsSoundAtHome, IsUnlent};
ghost use Rattle.pfc_actor.specs.Clients.{ClientView};
ghost use Rattle.pfc_actor.specs.Stages.{Here};
ghost use Rattle.pfc_scene.specs.declared.opens.Prepared.TheVariants.{Ready};
ghost use Rattle.pfc_scene.specs.Scenes.{CoversFault, IsLentBy, IsUnused, Moves, Owes, PersistsBy, Plays, settled};

use crate::cores::{
    core_at, find_core, is_unused, make_core, open_beside, put_core, without_volume,
};
use crate::scene::Scene;
use pfc_actor::{Backing, Client, Standing, Wanted};
use pfc_base::{Memory, Path, block_count};
use pfc_log::uncached_cause;
use pfc_world::{Clock, Depot, Origin, Refusal, World};
use std::alloc::Global;
use std::mem;

/// Whether a client has a core of this path that it hasn't entered yet.
fn is_made<W: World, O: Origin<W>>(clients: &[Client<W, O>], path: &Path) -> bool {
    for client in clients {
        if client.is_making(path) {
            return true;
        }
    }
    false
}

/// How an open goes on.
enum Entrance {
    /// Another client's open of the file has a core that it hasn't entered yet.
    Waits,
    /// There is a core of the file.
    Joins,
    /// The core of this number has no volume yet.
    Resumes(u64),
    /// A core is to be made.
    Makes,
}

/// What became of the volume of a core that is to be entered.
#[derive(Clone, Copy, Debug, PartialEq, Eq)]
enum Prepared {
    /// There is nothing to be done.
    Ready,
    /// The volume was taken.
    Went,
    /// The store was opened, or failed to be, at this moment in seconds.
    Opened(u64),
    /// Memory was refused.
    Failed,
}

/// What became of a volume of which something was to be done.
fn went_or_failed(done: Result<(), Memory>) -> Prepared
    ensures { result ≡ Ready → ⊥ }
{
    match done {
        Ok(()) => Prepared::Went,
        Err(_) => Prepared::Failed,
    }
}

/// What became of a store that was opened at this moment.
fn opened_or_failed(done: Result<(), Memory>, moment: u64) -> Prepared
    ensures { result ≡ Ready → ⊥ }
{
    match done {
        Ok(()) => Prepared::Opened(moment),
        Err(_) => Prepared::Failed,
    }
}

impl<W: World, O: Origin<W>, P: Depot<W>> Scene<W, O, P> {
    /// How the open of a file goes on. A file that isn't cached gets a core for each open.
    fn entrance(&self, wanted: &Wanted<W>) -> Entrance
        requires { IsBlockSize self.now.block_size }
    {
        let known = wanted.known();
        let path = known.path();
        if uncached_cause(path, block_count(known.size(), self.block_size)).is_some() {
            return Entrance::Makes;
        }
        if is_made(&self.clients, path) {
            return Entrance::Waits;
        }
        let Some(i) = find_core(&self.cores, path) else {
            return Entrance::Makes;
        };
        match self.backings[i].standing() {
            Standing::Bare if self.cores[i].uncached().is_none() => Entrance::Resumes(i as u64),
            _ => Entrance::Joins,
        }
    }

    /// The client at this place, which wants a file opened, gets a core to enter.
    pub(crate) fn enter(&mut self, alloc: Global, j: usize)
        requires { j < length self.old.clients }
        ensures { Moves self.old self.new }
    {
        let Some(wanted) = self.clients[j].wanted() else {
            return;
        };
        match self.entrance(wanted) {
            Entrance::Waits => (),
            Entrance::Joins => self.join(j, None),
            Entrance::Resumes(core) => self.join(j, Some(core)),
            Entrance::Makes => self.make(alloc, j),
        }
    }

    /// The client at this place enters the core of this number, which is made for it, or the one that is there.
    fn join(&mut self, j: usize, made: Option<u64>)
        requires { j < length self.old.clients }
        ensures { Moves self.old self.new }
    {
        self.clients[j].enter(made);
    }

    /// Makes a core for the client at this place.
    fn make(&mut self, alloc: Global, j: usize)
        requires { j < length self.old.clients }
        ensures { Moves self.old self.new }
    {
        match self.add_core(alloc, j) {
            Some(core) => self.join(j, Some(core)),
            None => self.give_up(j),
        }
    }

    /// Makes a core of the file that the client at this place wants, beside which nothing stands yet, and gives its number.
    fn add_core(&mut self, alloc: Global, j: usize) -> Option<u64>
        requires { j < length self.old.clients }
        ensures { Moves self.old self.new }
    {
        let Some(wanted) = self.clients[j].wanted() else {
            return None;
        };
        if self.backings.reserve(1).is_err() {
            return None;
        }
        match make_core(alloc, &mut self.cores, wanted, self.block_size) {
            Some(core) => {
                self.backings.push_reserved(Backing::bare());
                Some(core)
            }
            None => None,
        }
    }

    /// The core that the client at this place enters: the one that was made for its open, or else the cached one of its file.
    fn core_of(&self, j: usize) -> Option<usize>
        requires { j < length self.now.clients }
        ensures low { IfSome result (λ i. i < length self.now.cores) }
        ensures here { IfSome result (λ i. (d : ClientView) (e : CoreView) → Here (slice_index_or self.now.clients j d).book (slice_index_or self.now.clients j d).stage (slice_index_or self.now.cores i e)) }
    {
        let Some(wanted) = self.clients[j].entering() else {
            return None;
        };
        match self.clients[j].made() {
            Some(core) => core_at(&self.cores, core, wanted.path()),
            None => find_core(&self.cores, wanted.path()),
        }
    }

    /// The client at this place goes on with its open of a core of its file.
    pub(crate) fn open<K: Clock>(&mut self, alloc: Global, depot: &mut P, clock: &mut K, j: usize)
        requires sound { IsSoundAtHome W.told P.Data.told W.files (P.home_data depot.old) (P.home_main depot.old) }
        requires lent { IsLentBy (depot_of P.out P.lent P.faults depot.old) self.old.backings }
        requires j { j < length self.old.clients }
        ensures sound { IsSoundAtHome W.told P.Data.told W.files (P.home_data depot.new) (P.home_main depot.new) }
        ensures lent { IsLentBy (depot_of P.out P.lent P.faults depot.new) self.new.backings }
        ensures plays { Plays self.old (depot_of P.out P.lent P.faults depot.old) self.new (depot_of P.out P.lent P.faults depot.new) }
        ensures persists { PersistsBy W.told P.Data.told W.files self.old (P.home_main depot.old) self.new (P.home_main depot.new) }
        ensures unlisted { P.unlisted depot.new ≡ P.unlisted depot.old }
    {
        let Some(i) = self.core_of(j) else {
            self.give_up(j);
            return;
        };
        if self.clients[j].made().is_none() {
            self.step_at(alloc, clock, j, i);
            return;
        }
        match self.prepare(alloc, depot, clock, i) {
            Prepared::Ready => self.step_at(alloc, clock, j, i),
            Prepared::Went => (),
            Prepared::Opened(moment) => self.note(j, moment),
            Prepared::Failed => self.give_up(j),
        }
    }

    /// The open of the client at this place opened the store at this moment, in seconds.
    fn note(&mut self, j: usize, moment: u64)
        requires { j < length self.old.clients }
        ensures { Moves self.old self.new }
    {
        self.clients[j].note(moment);
    }

    /// Takes the volume of the core at this place, or opens its store, where that is to be done.
    fn prepare<K: Clock>(
        &mut self,
        alloc: Global,
        depot: &mut P,
        clock: &mut K,
        i: usize,
    ) -> Prepared
        requires sound { IsSoundAtHome W.told P.Data.told W.files (P.home_data depot.old) (P.home_main depot.old) }
        requires lent { IsLentBy (depot_of P.out P.lent P.faults depot.old) self.old.backings }
        requires i { i < length self.old.cores }
        ensures sound { IsSoundAtHome W.told P.Data.told W.files (P.home_data depot.new) (P.home_main depot.new) }
        ensures lent { IsLentBy (depot_of P.out P.lent P.faults depot.new) self.new.backings }
        ensures plays { Plays self.old (depot_of P.out P.lent P.faults depot.old) self.new (depot_of P.out P.lent P.faults depot.new) }
        ensures persists { PersistsBy W.told P.Data.told W.files self.old (P.home_main depot.old) self.new (P.home_main depot.new) }
        ensures unlisted { P.unlisted depot.new ≡ P.unlisted depot.old }
        ensures ready { result ≡ Ready → self.new ≡ self.old }
    {
        if !is_unused(&self.cores[i]) {
            return Prepared::Ready;
        }
        match self.backings[i].standing() {
            Standing::Bare => went_or_failed(self.take_volume(alloc, depot, i)),
            Standing::Taken => {
                let now = clock.now();
                opened_or_failed(self.open_store(alloc, depot, now, i), now)
            }
            _ => Prepared::Ready,
        }
    }

    /// Takes the volume of the core at this place, which nobody uses yet. Where that fails the file isn't cached.
    fn take_volume(&mut self, alloc: Global, depot: &mut P, i: usize) -> Result<(), Memory>
        requires sound { IsSoundAtHome W.told P.Data.told W.files (P.home_data depot.old) (P.home_main depot.old) }
        requires lent { IsLentBy (depot_of P.out P.lent P.faults depot.old) self.old.backings }
        requires i { i < length self.old.cores }
        requires unused { (e : CoreView) → IsUnused (slice_index_or self.old.cores i e) }
        requires bare { (e : BackingView) → (slice_index_or self.old.backings i e).stand ≡ Bare }
        ensures sound { IsSoundAtHome W.told P.Data.told W.files (P.home_data depot.new) (P.home_main depot.new) }
        ensures lent { IsLentBy (depot_of P.out P.lent P.faults depot.new) self.new.backings }
        ensures plays { Plays self.old (depot_of P.out P.lent P.faults depot.old) self.new (depot_of P.out P.lent P.faults depot.new) }
        ensures persists { PersistsBy W.told P.Data.told W.files self.old (P.home_main depot.old) self.new (P.home_main depot.new) }
        ensures unlisted { P.unlisted depot.new ≡ P.unlisted depot.old }
    {
        match Backing::take(alloc, depot, self.cores[i].known().copy()) {
            Ok(backing) => {
                self.stand(i, backing);
                Ok(())
            }
            Err(Refusal::Fault) => self.lose_volume(alloc, i),
            Err(Refusal::Memory) => Err(Memory),
        }
    }

    /// A volume stands beside the core at this place, which nobody uses yet, in the place of nothing.
    fn stand(&mut self, i: usize, backing: Backing<W, P>)
        requires i { i < length self.old.cores }
        requires bare { (e : BackingView) → (slice_index_or self.old.backings i e).stand ≡ Bare }
        requires unlent { IsUnlent backing.stand }
        requires backs { (e : CoreView) → IsBackingOf (slice_index_or self.old.cores i e) backing }
        ensures { self.new ≡ record self.old { backings = slice_set self.old.backings i backing } }
    {
        mem::replace(&mut self.backings[i], backing).discard();
    }

    /// The file of the core at this place, which nobody uses yet and beside which nothing stands, isn't cached.
    fn lose_volume(&mut self, alloc: Global, i: usize) -> Result<(), Memory>
        requires i { i < length self.old.cores }
        requires unused { (e : CoreView) → IsUnused (slice_index_or self.old.cores i e) }
        requires bare { (e : BackingView) → (slice_index_or self.old.backings i e).stand ≡ Bare }
        ensures { Owes self.old self.new }
    {
        let core = without_volume(alloc, &self.cores[i])?;
        put_core(&mut self.cores, i, core);
        Ok(())
    }

    /// Opens the store of the volume beside the core at this place, which nobody uses yet, at a moment in seconds. Where that fails
    /// the volume goes home, and after a failed call the file isn't cached.
    fn open_store(
        &mut self,
        alloc: Global,
        depot: &mut P,
        created: u64,
        i: usize,
    ) -> Result<(), Memory>
        requires sound { IsSoundAtHome W.told P.Data.told W.files (P.home_data depot.old) (P.home_main depot.old) }
        requires lent { IsLentBy (depot_of P.out P.lent P.faults depot.old) self.old.backings }
        requires i { i < length self.old.cores }
        requires unused { (e : CoreView) → IsUnused (slice_index_or self.old.cores i e) }
        requires taken { (e : BackingView) → standing_of (slice_index_or self.old.backings i e).stand ≡ standing.Taken }
        ensures sound { IsSoundAtHome W.told P.Data.told W.files (P.home_data depot.new) (P.home_main depot.new) }
        ensures lent { IsLentBy (depot_of P.out P.lent P.faults depot.new) self.new.backings }
        ensures plays { Plays self.old (depot_of P.out P.lent P.faults depot.old) self.new (depot_of P.out P.lent P.faults depot.new) }
        ensures persists { PersistsBy W.told P.Data.told W.files self.old (P.home_main depot.old) self.new (P.home_main depot.new) }
        ensures unlisted { P.unlisted depot.new ≡ P.unlisted depot.old }
    {
        match self.start_core(alloc, created, i) {
            Ok(()) => Ok(()),
            Err(Refusal::Fault) => self.lose_store(alloc, depot, i),
            Err(Refusal::Memory) => {
                self.return_volume(depot, i);
                Err(Memory)
            }
        }
    }

    /// Opens the store of the volume beside the core at this place, which nobody uses yet, at a moment in seconds. A core that starts
    /// with the blocks of the store takes its place.
    fn start_core(&mut self, alloc: Global, created: u64, i: usize) -> Result<(), Refusal>
        requires i { i < length self.old.cores }
        requires unused { (e : CoreView) → IsUnused (slice_index_or self.old.cores i e) }
        requires taken { (e : BackingView) → standing_of (slice_index_or self.old.backings i e).stand ≡ standing.Taken }
        ensures moves { Moves self.old self.new }
        ensures cores { OnErr result (self.new.cores ≡ self.old.cores) }
        ensures taken { OnErr result ((e : BackingView) → standing_of (slice_index_or self.new.backings i e).stand ≡ standing.Taken) }
        ensures covers { IfErr result (λ why. (e : BackingView) → CoversFault why (slice_index_or self.new.backings i e)) }
    {
        match open_beside(alloc, &self.cores[i], &mut self.backings[i], created) {
            Ok(core) => {
                put_core(&mut self.cores, i, core);
                Ok(())
            }
            Err(refusal) => Err(refusal),
        }
    }

    /// The volume beside the core at this place, which nobody uses yet, goes home after a failed call of its devices, and the file
    /// isn't cached.
    fn lose_store(&mut self, alloc: Global, depot: &mut P, i: usize) -> Result<(), Memory>
        requires sound { IsSoundAtHome W.told P.Data.told W.files (P.home_data depot.old) (P.home_main depot.old) }
        requires lent { IsLentBy (depot_of P.out P.lent P.faults depot.old) self.old.backings }
        requires i { i < length self.old.cores }
        requires unused { (e : CoreView) → IsUnused (slice_index_or self.old.cores i e) }
        requires taken { (e : BackingView) → standing_of (slice_index_or self.old.backings i e).stand ≡ standing.Taken }
        requires covers { (e : BackingView) → Covers 1 (slice_index_or self.old.backings i e) }
        ensures sound { IsSoundAtHome W.told P.Data.told W.files (P.home_data depot.new) (P.home_main depot.new) }
        ensures lent { IsLentBy (depot_of P.out P.lent P.faults depot.new) self.new.backings }
        ensures plays { Plays self.old (depot_of P.out P.lent P.faults depot.old) self.new (depot_of P.out P.lent P.faults depot.new) }
        ensures persists { PersistsBy W.told P.Data.told W.files self.old (P.home_main depot.old) self.new (P.home_main depot.new) }
        ensures unlisted { P.unlisted depot.new ≡ P.unlisted depot.old }
    {
        self.return_volume(depot, i);
        self.lose_volume(alloc, i)
    }

    /// The volume beside the core at this place, which nobody uses yet, goes home. The depot counts what failed calls it covers.
    fn return_volume(&mut self, depot: &mut P, i: usize)
        requires sound { IsSoundAtHome W.told P.Data.told W.files (P.home_data depot.old) (P.home_main depot.old) }
        requires lent { IsLentBy (depot_of P.out P.lent P.faults depot.old) self.old.backings }
        requires i { i < length self.old.cores }
        requires unused { (e : CoreView) → IsUnused (slice_index_or self.old.cores i e) }
        requires taken { (e : BackingView) → standing_of (slice_index_or self.old.backings i e).stand ≡ standing.Taken }
        ensures sound { IsSoundAtHome W.told P.Data.told W.files (P.home_data depot.new) (P.home_main depot.new) }
        ensures lent { IsLentBy (depot_of P.out P.lent P.faults depot.new) self.new.backings }
        ensures plays { Plays self.old (depot_of P.out P.lent P.faults depot.old) self.new (depot_of P.out P.lent P.faults depot.new) }
        ensures persists { PersistsBy W.told P.Data.told W.files self.old (P.home_main depot.old) self.new (P.home_main depot.new) }
        ensures unlisted { P.unlisted depot.new ≡ P.unlisted depot.old }
        ensures cores { self.new.cores ≡ self.old.cores }
        ensures bare { (e : BackingView) → (slice_index_or self.new.backings i e).stand ≡ Bare }
        ensures pays { (e : BackingView) → Covers 1 (slice_index_or self.old.backings i e) → (f : ℕ) → RoseBy f (settled self.old.cores self.old.backings) (P.faults depot.old) → RoseBy f (settled self.new.cores self.new.backings + 1) (P.faults depot.new) }
    {
        // Hands out that the core's size is that of the file.
        let _known = self.cores[i].known();
        self.backings[i].put_back(depot);
    }
}
