// How clients step, one move after the other.
ghost use Rattle.std.specs.Prelude.{◌≡◌, ◌<◌, length, IsTrue};
ghost use Rattle.pfc_actor.specs.Backings.{depot_of, IsSoundAtHome};
ghost use Rattle.pfc_scene.specs.Scenes.{IsLentBy, Moves, PersistsBy, Plays};

use crate::scene::{Scene, find_client};
use pfc_actor::Place;
use pfc_world::{Clock, Depot, Origin, World};
use std::alloc::Global;

impl<W: World, O: Origin<W>, P: Depot<W>> Scene<W, O, P> {
    /// The client at this place makes its next move, unless that is in the opening of a file.
    pub(crate) fn move_within<K: Clock>(&mut self, alloc: Global, clock: &mut K, j: usize)
        requires told { IsTrue W.told → IsTrue P.Data.told }
        requires j { j < length self.old.clients }
        ensures { Moves self.old self.new }
    {
        match self.clients[j].place() {
            Place::Alone => self.step_alone(alloc, j),
            Place::Wants => self.enter(alloc, j),
            Place::Enters => (),
            Place::Puts => self.put(j),
            Place::Core(i) => self.step_at(alloc, clock, j, i as usize),
            Place::Lends(i) => self.lend_at(j, i as usize),
            Place::Reads(i) => self.read_at(j, i as usize),
            Place::Returns(i) => self.return_at(j, i as usize),
            Place::Leaves(i) => self.leave_at(j, i as usize),
        }
    }

    /// The client at this place goes on, wherever it is.
    fn move_on<K: Clock>(&mut self, alloc: Global, depot: &mut P, clock: &mut K, j: usize)
        requires told { IsTrue W.told → IsTrue P.Data.told }
        requires sound { IsSoundAtHome W.told P.Data.told W.files (P.home_data depot.old) (P.home_main depot.old) }
        requires lent { IsLentBy (depot_of P.out P.lent P.faults depot.old) self.old.backings }
        requires j { j < length self.old.clients }
        ensures sound { IsSoundAtHome W.told P.Data.told W.files (P.home_data depot.new) (P.home_main depot.new) }
        ensures lent { IsLentBy (depot_of P.out P.lent P.faults depot.new) self.new.backings }
        ensures plays { Plays self.old (depot_of P.out P.lent P.faults depot.old) self.new (depot_of P.out P.lent P.faults depot.new) }
        ensures persists { PersistsBy W.told P.Data.told W.files self.old (P.home_main depot.old) self.new (P.home_main depot.new) }
        ensures unlisted { P.unlisted depot.new ≡ P.unlisted depot.old }
    {
        match self.clients[j].place() {
            Place::Enters => self.open(alloc, depot, clock, j),
            _ => self.move_within(alloc, clock, j),
        }
    }

    /// One step of the client at this place. A request that it takes up makes its first move on a core in the same step, and a part
    /// that is on disk its first on the store.
    pub(crate) fn step<K: Clock>(&mut self, alloc: Global, depot: &mut P, clock: &mut K, j: usize)
        requires told { IsTrue W.told → IsTrue P.Data.told }
        requires sound { IsSoundAtHome W.told P.Data.told W.files (P.home_data depot.old) (P.home_main depot.old) }
        requires lent { IsLentBy (depot_of P.out P.lent P.faults depot.old) self.old.backings }
        requires j { j < length self.old.clients }
        ensures sound { IsSoundAtHome W.told P.Data.told W.files (P.home_data depot.new) (P.home_main depot.new) }
        ensures lent { IsLentBy (depot_of P.out P.lent P.faults depot.new) self.new.backings }
        ensures plays { Plays self.old (depot_of P.out P.lent P.faults depot.old) self.new (depot_of P.out P.lent P.faults depot.new) }
        ensures persists { PersistsBy W.told P.Data.told W.files self.old (P.home_main depot.old) self.new (P.home_main depot.new) }
        ensures unlisted { P.unlisted depot.new ≡ P.unlisted depot.old }
    {
        self.move_on(alloc, depot, clock, j);
        if self.clients[j].is_taken() {
            self.move_on(alloc, depot, clock, j);
        }
    }

    /// A client makes so many steps. Nothing comes of it where there is no such client.
    pub fn go<K: Clock>(
        &mut self,
        alloc: Global,
        depot: &mut P,
        clock: &mut K,
        number: u32,
        times: u32,
    )
        requires told { IsTrue W.told → IsTrue P.Data.told }
        requires sound { IsSoundAtHome W.told P.Data.told W.files (P.home_data depot.old) (P.home_main depot.old) }
        requires lent { IsLentBy (depot_of P.out P.lent P.faults depot.old) self.old.backings }
        ensures sound { IsSoundAtHome W.told P.Data.told W.files (P.home_data depot.new) (P.home_main depot.new) }
        ensures lent { IsLentBy (depot_of P.out P.lent P.faults depot.new) self.new.backings }
        ensures plays { Plays self.old (depot_of P.out P.lent P.faults depot.old) self.new (depot_of P.out P.lent P.faults depot.new) }
        ensures persists { PersistsBy W.told P.Data.told W.files self.old (P.home_main depot.old) self.new (P.home_main depot.new) }
        ensures unlisted { P.unlisted depot.new ≡ P.unlisted depot.old }
    {
        let Some(j) = find_client(&self.clients, number) else {
            return;
        };
        for _step in 0..times {
            self.step(alloc, depot, clock, j);
        }
    }
}
