// How writers step.
ghost use Rattle.std.specs.Prelude.{◌≡◌, ◌<◌, false, length, slice_index_or, Option, Some, option_map, IfSome};
ghost use Rattle.pfc_writer.specs.Writer.{Task, is_returning};
ghost use Rattle.pfc_scene.specs.Queues.{MayGoOn};
ghost use Rattle.pfc_scene.specs.Scenes.{Moves};

use crate::scene::Scene;
use pfc_world::{Depot, Origin, World};
use pfc_writer::Phase;

impl<W: World, O: Origin<W>, P: Depot<W>> Scene<W, O, P> {
    /// The place of the core of the job that the writer at this place is at.
    fn core_of_job(&self, w: usize) -> Option<usize>
        requires { w < length self.now.writers }
        ensures low { IfSome result (λ i. i < length self.now.cores) }
        ensures of { IfSome result (λ i. (d : Option Task) → option_map (λ t. t.job.instance) (slice_index_or self.now.writers w d) ≡ Some i) }
    {
        let Some(instance) = self.writers[w].instance() else {
            return None;
        };
        if instance >= self.cores.len() as u64 {
            return None;
        }
        Some(instance as usize)
    }

    /// The writer at this place takes the first job of the queue, if there is one.
    fn take_job(&mut self, w: usize)
        requires { w < length self.old.writers }
        ensures { Moves self.old self.new }
    {
        let _taken = self.writers[w].take(&mut self.queue);
    }

    /// The writer at this place goes on to its next phase.
    fn go_on(&mut self, w: usize)
        requires w { w < length self.old.writers }
        requires may { (d : Option Task) → MayGoOn self.old.backings (slice_index_or self.old.writers w d) }
        ensures { Moves self.old self.new }
    {
        self.writers[w].go_on();
    }

    /// The writer at this place has the store of the core at that lent, where it is at home.
    fn lend_to(&mut self, w: usize, i: usize)
        requires w { w < length self.old.writers }
        requires i { i < length self.old.cores }
        requires phase { (d : Option Task) → option_map (λ t. t.returning) (slice_index_or self.old.writers w d) ≡ Some false }
        ensures { Moves self.old self.new }
    {
        if self.lend(i) {
            self.go_on(w);
        }
    }

    /// The writer at this place writes the block of its job by the loan of the core at that.
    fn write_at(&mut self, w: usize, i: usize)
        requires w { w < length self.old.writers }
        requires i { i < length self.old.cores }
        requires of { (d : Option Task) → option_map (λ t. t.job.instance) (slice_index_or self.old.writers w d) ≡ Some i }
        ensures { Moves self.old self.new }
    {
        let _turn = self.backings[i].write(&mut self.writers[w]);
    }

    /// The writer at this place gives the store of the core at that back.
    fn give_from(&mut self, w: usize, i: usize)
        requires w { w < length self.old.writers }
        requires i { i < length self.old.cores }
        requires of { (d : Option Task) → option_map (λ t. t.job.instance) (slice_index_or self.old.writers w d) ≡ Some i }
        ensures { Moves self.old self.new }
    {
        if self.give(i) {
            self.go_on(w);
        }
    }

    /// The writer at this place ends its job in the core at that.
    fn end_job(&mut self, w: usize, i: usize)
        requires w { w < length self.old.writers }
        requires i { i < length self.old.cores }
        requires phase { (d : Option Task) → option_map (λ t. t.returning) (slice_index_or self.old.writers w d) ≡ Some false }
        ensures { Moves self.old self.new }
    {
        let _ended = self.writers[w].end(&mut self.cores[i]);
        self.cores[i].own();
    }

    /// The next step of the job that the writer at this place is at.
    fn work(&mut self, w: usize, phase: Phase)
        requires w { w < length self.old.writers }
        requires phase { (d : Option Task) → option_map (λ t. t.returning) (slice_index_or self.old.writers w d) ≡ Some (is_returning phase) }
        ensures { Moves self.old self.new }
    {
        let Some(i) = self.core_of_job(w) else {
            return;
        };
        match phase {
            Phase::Taken => self.lend_to(w, i),
            Phase::Lent => self.write_at(w, i),
            Phase::Returning(_) => self.give_from(w, i),
            Phase::Given(_) => self.go_on(w),
            Phase::Counted(_) => self.end_job(w, i),
        }
    }

    /// One step of the writer at this place.
    pub(crate) fn write_step(&mut self, w: usize)
        requires { w < length self.old.writers }
        ensures { Moves self.old self.new }
    {
        match self.writers[w].phase() {
            None => self.take_job(w),
            Some(phase) => self.work(w, phase),
        }
    }

    /// The writer of this number, from 1 on, makes so many steps. Nothing comes of it where there is no such writer.
    pub fn write(&mut self, number: u32, times: u32)
        ensures { Moves self.old self.new }
    {
        if number == 0 || number as usize > self.writers.len() {
            return;
        }
        let w = number as usize - 1;
        for _step in 0..times {
            self.write_step(w);
        }
    }
}
