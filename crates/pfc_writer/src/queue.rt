// The write queue of a run.
ghost use Rattle.std.specs.Prelude.{◌≡◌, ◌<◌, ◌≤◌, ◌++◌, ◌∷◌, [], length, IfOk, OnOk, IfErr, IfNone, IsTrue, ◌↔◌, option_to_list};

use pfc_base::Memory;
use pfc_core::Job;
use pfc_world::World;
use std::alloc::Global;
use std::collections::VecDeque;
use std::marker::Model;

/// The jobs of landed blocks that wait to be written, first in first out, and how many there may be.
#[derive(Drop)]
pub struct WriteQueue<W: World> {
    jobs: VecDeque<Job<W>>,
    capacity: u32,
}

impl<W: World> Model for WriteQueue<W> {
    ghost use Rattle.std.specs.Prelude.{◌≤◌};
    ghost use Rattle.std.specs.VecDeque.{deque_capacity};
    ghost use Rattle.pfc_writer.specs.Queue.{QueueView};

    ghost Value = { QueueView };

    ghost view = { λ q. record { jobs = q.jobs.items; capacity = q.capacity } };

    ghost invariant = { λ q. q.capacity ≤ deque_capacity q.jobs };
}

impl<W: World> WriteQueue<W> {
    /// An empty queue. All the room that it will ever need is taken here.
    pub fn new(alloc: Global, capacity: u32) -> Result<WriteQueue<W>, Memory>
        ensures { IfOk result (λ queue. queue ≡ record { jobs = []; capacity = capacity }) }
    {
        let jobs = VecDeque::with_capacity(alloc, capacity as usize)?;
        Ok(WriteQueue { jobs, capacity })
    }

    /// How many jobs there may be.
    pub fn capacity(&self) -> u32
        ensures { result ≡ self.now.capacity }
    {
        self.capacity
    }

    pub fn is_empty(&self) -> bool
        ensures { IsTrue result ↔ (self.now.jobs ≡ []) }
    {
        self.jobs.is_empty()
    }

    /// Puts a job behind the others. It comes back where the queue is full.
    pub fn put(&mut self, job: Job<W>) -> Result<(), Job<W>>
        ensures ok { OnOk result (self.new ≡ record self.old { jobs = self.old.jobs ++ job ∷ [] }) }
        ensures room { OnOk result (length self.old.jobs < self.old.capacity) }
        ensures full { IfErr result (λ back. (back ≡ job) × (self.new ≡ self.old) × (self.old.capacity ≤ length self.old.jobs)) }
    {
        if self.jobs.len() >= self.capacity as usize {
            return Err(job);
        }
        match self.jobs.push_back(job) {
            Ok(()) => Ok(()),
            Err(_) => unreachable!(),
        }
    }

    /// Takes the first job.
    pub fn take(&mut self) -> Option<Job<W>>
        ensures items { self.old.jobs ≡ option_to_list result ++ self.new.jobs }
        ensures none { IfNone result (self.old.jobs ≡ []) }
        ensures capacity { self.new.capacity ≡ self.old.capacity }
    {
        self.jobs.pop_front()
    }
}
