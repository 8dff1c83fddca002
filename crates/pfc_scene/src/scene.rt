// Clients, the cores of their files with what stands beside them, and writers, which step in turn.
ghost use Rattle.std.specs.Prelude.{◌≡◌, ◌<◌, ◌≤◌, ◌+◌, ℕ, List, [], replicate, length, slice_index_or, IfSome, IfNone, OnOk, IfOk, IsTrue, true, false, ◌==◌, map, Option, None};
ghost use Rattle.pfc_base.specs.Cinfo.{IsBlockSize};
ghost use Rattle.pfc_core.specs.View.{CoreView};
ghost use Rattle.pfc_writer.specs.Writer.{Task};
ghost use Rattle.pfc_actor.specs.Clients.{ClientView, IsFresh};
ghost use Rattle.pfc_actor.specs.Stages.{Here};
ghost use Rattle.pfc_scene.specs.Scenes.{SceneView, IsScene, AreUnique, Moves, who, number_of, asked_more};

use pfc_actor::{Backing, Client};
use pfc_base::Memory;
use pfc_core::FileCore;
use pfc_sync::SyncWork;
use pfc_world::{Clock, Depot, Origin, World};
use pfc_writer::{WriteQueue, Writer};
use std::alloc::Global;
use std::marker::Model;

/// Clients, and a core for each path that any of them opened, or for each open of a file that isn't cached, each with its volume
/// beside it; the writers and their queue, and the sync.
pub struct Scene<W: World, O: Origin<W>, P: Depot<W>> {
    pub(crate) clients: Vec<Client<W, O>>,
    pub(crate) cores: Vec<FileCore<W>>,
    pub(crate) backings: Vec<Backing<W, P>>,
    pub(crate) writers: Vec<Writer<W>>,
    pub(crate) queue: WriteQueue<W>,
    /// What the sync is at; none at rest.
    pub(crate) sync: Option<SyncWork>,
    pub(crate) block_size: u64,
}

impl<W: World, O: Origin<W>, P: Depot<W>> Model for Scene<W, O, P> {
    ghost use Rattle.pfc_scene.specs.Scenes.{SceneView, IsScene};

    ghost Value = { SceneView };

    ghost view = { λ s. record { clients = s.clients.items; cores = s.cores.items; backings = s.backings.items; writers = s.writers.items; jobs = s.queue.jobs; capacity = s.queue.capacity; block_size = s.block_size } };

    ghost invariant = { λ s. IsScene (record { clients = s.clients.items; cores = s.cores.items; backings = s.backings.items; writers = s.writers.items; jobs = s.queue.jobs; capacity = s.queue.capacity; block_size = s.block_size }) };
}

/// The client of a number.
pub(crate) fn find_client<W: World, O: Origin<W>>(
    clients: &[Client<W, O>],
    number: u32,
) -> Option<usize>
    ensures some { IfSome result (λ j. (j < length clients.now) × ((d : ClientView) → (slice_index_or clients.now j d).book.number ≡ number)) }
    ensures none { IfNone result ((j : ℕ) (d : ClientView) → j < length clients.now → ((slice_index_or clients.now j d).book.number == number) ≡ false) }
{
    for j in 0..clients.len() {
        if clients[j].number() == number {
            return Some(j);
        }
    }
    None
}

impl<W: World, O: Origin<W>, P: Depot<W>> Scene<W, O, P> {
    /// Clients that were asked nothing yet, writers at rest with an empty queue, and no core. Files have blocks of so many bytes.
    pub fn new(
        alloc: Global,
        clients: Vec<Client<W, O>>,
        writers: Vec<Writer<W>>,
        queue: WriteQueue<W>,
        block_size: u64,
    ) -> Scene<W, O, P>
        requires fresh { (j : ℕ) (d : ClientView) → j < length clients.items → (n : ℕ) × IsFresh n (slice_index_or clients.items j d) }
        requires unique { AreUnique clients.items }
        requires resting { (w : ℕ) (d : Option Task) → w < length writers.items → slice_index_or writers.items w d ≡ None }
        requires empty { queue.jobs ≡ [] }
        requires block_size { IsBlockSize block_size }
        ensures { result ≡ record { clients = clients.items; cores = []; backings = []; writers = writers.items; jobs = []; capacity = queue.capacity; block_size = block_size } }
    {
        Scene {
            clients,
            cores: Vec::new(alloc),
            backings: Vec::new(alloc),
            writers,
            queue,
            sync: None,
            block_size,
        }
    }

    /// A client is asked one more line. Nothing comes of it where there is no such client.
    pub fn ask(&mut self, alloc: Global, number: u32, line: &[u8]) -> Result<(), Memory>
        ensures asked { OnOk result (map who self.new.clients ≡ map (asked_more number line.now) (map who self.old.clients)) }
        ensures numbers { map number_of self.new.clients ≡ map number_of self.old.clients }
        ensures rest { self.new ≡ record self.old { clients = self.new.clients } }
        ensures length { length self.new.clients ≡ length self.old.clients }
    {
        let Some(j) = find_client(&self.clients, number) else {
            return Ok(());
        };
        self.clients[j].ask(alloc, line)?;
        Ok(())
    }

    /// The client at this place steps on the core at that.
    pub(crate) fn step_at<K: Clock>(&mut self, alloc: Global, clock: &mut K, j: usize, i: usize)
        requires j { j < length self.old.clients }
        requires i { i < length self.old.cores }
        requires here { (d : ClientView) (e : CoreView) → Here (slice_index_or self.old.clients j d).book (slice_index_or self.old.clients j d).stage (slice_index_or self.old.cores i e) }
        ensures { Moves self.old self.new }
    {
        self.clients[j].step_at(alloc, clock, &mut self.cores[i]);
        self.cores[i].own();
    }

    /// The client at this place steps on no core.
    pub(crate) fn step_alone(&mut self, alloc: Global, j: usize)
        requires { j < length self.old.clients }
        ensures { Moves self.old self.new }
    {
        self.clients[j].step_alone(alloc);
    }

    /// The client at this place finds no memory for a core of the file that it wants.
    pub(crate) fn give_up(&mut self, j: usize)
        requires { j < length self.old.clients }
        ensures { Moves self.old self.new }
    {
        self.clients[j].give_up();
    }

    /// The client at this place puts its landed block to the queue, or finds no room there.
    pub(crate) fn put(&mut self, j: usize)
        requires { j < length self.old.clients }
        ensures { Moves self.old self.new }
    {
        self.clients[j].put(&mut self.queue);
    }

    /// The client at this place closes its lowest open descriptor, if its file is of the core at that.
    pub(crate) fn shut_at<K: Clock>(&mut self, alloc: Global, clock: &mut K, j: usize, i: usize)
        requires j { j < length self.old.clients }
        requires i { i < length self.old.cores }
        ensures { Moves self.old self.new }
    {
        self.clients[j].shut_at(alloc, clock, &mut self.cores[i]);
        self.cores[i].own();
    }

    /// Takes the scene apart.
    pub(crate) fn parts(self) -> (Vec<Client<W, O>>, Vec<FileCore<W>>, Vec<Backing<W, P>>)
        ensures clients { result.0.items ≡ self.clients }
        ensures cores { result.1.items ≡ self.cores }
        ensures backings { result.2.items ≡ self.backings }
        ensures scene { IsScene self }
    {
        let Scene {
            clients,
            cores,
            backings,
            writers: _,
            queue: _,
            sync: _,
            block_size: _,
        } = self;
        (clients, cores, backings)
    }
}
