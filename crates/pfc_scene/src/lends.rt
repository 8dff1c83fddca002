// How clients read from disk: the store of a file is lent, read by, and given back.
ghost use Rattle.std.specs.Prelude.{◌≡◌, ◌<◌, length, slice_index_or, IsTrue, false, true};
ghost use Rattle.pfc_core.specs.View.{CoreView};
ghost use Rattle.pfc_actor.specs.Backings.{BackingView, IsOpen};
ghost use Rattle.pfc_actor.specs.Clients.{ClientView};
ghost use Rattle.pfc_actor.specs.Stages.{Here};
ghost use Rattle.pfc_scene.specs.Scenes.{Moves};

use crate::scene::Scene;
use pfc_actor::Standing;
use pfc_world::{Depot, Origin, World};

impl<W: World, O: Origin<W>, P: Depot<W>> Scene<W, O, P> {
    /// Lends the store of the core at this place. It tells whether it did.
    pub(crate) fn lend(&mut self, i: usize) -> bool
        requires { i < length self.old.cores }
        ensures moves { Moves self.old self.new }
        ensures clients { self.new.clients ≡ self.old.clients }
        ensures cores { length self.new.cores ≡ length self.old.cores }
        ensures jobs { (self.new.jobs ≡ self.old.jobs) × (self.new.writers ≡ self.old.writers) }
    {
        let lent = self.backings[i].lend(&mut self.cores[i]);
        self.cores[i].own();
        lent
    }

    /// Gives the loan of the core at this place back. It tells whether the core took it.
    pub(crate) fn give(&mut self, i: usize) -> bool
        requires { i < length self.old.cores }
        ensures moves { Moves self.old self.new }
        ensures clients { self.new.clients ≡ self.old.clients }
        ensures here { (e : CoreView) → (slice_index_or self.new.cores i e).instance ≡ i }
        ensures cores { length self.new.cores ≡ length self.old.cores }
        ensures jobs { (self.new.jobs ≡ self.old.jobs) × (self.new.writers ≡ self.old.writers) }
        ensures back { IsTrue result → (e : BackingView) → IsOpen (slice_index_or self.new.backings i e).stand }
        ensures backings { length self.new.backings ≡ length self.old.backings }
    {
        let given = self.backings[i].give(&mut self.cores[i]);
        self.cores[i].own();
        given
    }

    /// The client at this place has the store that it wants.
    fn borrow(&mut self, j: usize)
        requires { j < length self.old.clients }
        ensures { Moves self.old self.new }
    {
        self.clients[j].borrow();
    }

    /// The client at this place, which wants the store of the core at that, has it lent where it is at home. Where there is none,
    /// the part is left for the origin.
    pub(crate) fn lend_at(&mut self, j: usize, i: usize)
        requires j { j < length self.old.clients }
        requires i { i < length self.old.cores }
        ensures { Moves self.old self.new }
    {
        match self.backings[i].standing() {
            Standing::Lent => (),
            Standing::Open => {
                if self.lend(i) {
                    self.borrow(j);
                }
            }
            _ => self.clients[j].refuse(),
        }
    }

    /// The client at this place reads by the loan of the core at that.
    pub(crate) fn read_at(&mut self, j: usize, i: usize)
        requires told { IsTrue W.told → IsTrue P.Data.told }
        requires j { j < length self.old.clients }
        requires i { i < length self.old.cores }
        ensures { Moves self.old self.new }
    {
        self.backings[i].read(&mut self.clients[j]);
    }

    /// The client at this place, which gave the store of the core at that back, goes on.
    fn returned(&mut self, j: usize, i: usize)
        requires j { j < length self.old.clients }
        requires i { i < length self.old.cores }
        requires here { (d : ClientView) (e : CoreView) → Here (slice_index_or self.old.clients j d).book (slice_index_or self.old.clients j d).stage (slice_index_or self.old.cores i e) }
        ensures { Moves self.old self.new }
    {
        self.clients[j].returned(&mut self.cores[i]);
        self.cores[i].own();
    }

    /// The client at this place gives the store of the core at that back.
    pub(crate) fn return_at(&mut self, j: usize, i: usize)
        requires j { j < length self.old.clients }
        requires i { i < length self.old.cores }
        requires here { (d : ClientView) (e : CoreView) → e.instance ≡ i → Here (slice_index_or self.old.clients j d).book (slice_index_or self.old.clients j d).stage e }
        ensures { Moves self.old self.new }
    {
        if self.give(i) {
            self.returned(j, i);
        }
    }

    /// The client at this place leaves its part, of a block of the core at that, for the origin, where a failed call stands for it.
    pub(crate) fn leave_at(&mut self, j: usize, i: usize)
        requires j { j < length self.old.clients }
        requires i { i < length self.old.cores }
        requires here { (d : ClientView) (e : CoreView) → Here (slice_index_or self.old.clients j d).book (slice_index_or self.old.clients j d).stage (slice_index_or self.old.cores i e) }
        ensures { Moves self.old self.new }
    {
        let Some(block) = self.clients[j].leaving() else {
            return;
        };
        if self.backings[i].allows(&self.cores[i], block) {
            self.clients[j].leave_at(&mut self.cores[i]);
            self.cores[i].own();
        }
    }
}
