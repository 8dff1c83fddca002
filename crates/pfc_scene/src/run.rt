// A run of a plan: its clients and their links, its steps, its drain, its end.
ghost use Rattle.std.specs.Prelude.{◌≡◌, ◌≢◌, ◌<◌, ◌≤◌, ◌+◌, ◌++◌, ◌∷◌, [], ℕ, List, length, slice_index_or, take, map, IfOk, OnOk, IsTrue, vec_len, vec_capacity, replicate, None, false, true, All, IfSome, Option, ⊤, reverse, if◌then◌else◌};
ghost use Rattle.pfc_report.specs.Schedule.{Line, asked, asked_clients};
ghost use Rattle.pfc_report.specs.Plan.{line_of};
ghost use Rattle.pfc_report.specs.Spent.{rows_of, spent_by, nothing_spent};
ghost use Rattle.pfc_report.specs.Caused.{IsAccounted, IsCausedReport, disks_of};
ghost use Rattle.pfc_base.specs.Cinfo.{IsBlockSize};
ghost use Rattle.pfc_world.specs.Counts.{RoseBy};
ghost use Rattle.pfc_writer.specs.Writer.{Task};
ghost use Rattle.pfc_actor.specs.Backings.{depot_of, IsSoundAtHome};
ghost use Rattle.pfc_actor.specs.Clients.{ClientView, IsDone};
ghost use Rattle.pfc_scene.specs.Scenes.{SceneView, IsScene, IsLentBy, PersistsBy, settled, who, number_of};
ghost use Rattle.pfc_actor.specs.Clients.{IsFresh};
ghost use Rattle.pfc_log.specs.Lawful.{IsCached};
ghost use Rattle.pfc_actor.specs.declared.backing.Standing.TheVariants as standing;
ghost use Rattle.pfc_scene.specs.Ends.{AreOpen, AreSections, PutsFrom, Settles, row_of, told_of, asked_by, all_asked, fresh_book};

use crate::home::put_all;
use crate::scene::Scene;
use pfc_actor::{Backing, Book, Client, Standing};
use pfc_base::Memory;
use pfc_core::FileCore;
use pfc_report::{CLIENTS, Plan, Replies, Report, Section, Step, Told};
use pfc_world::{Clock, Depot, Origin, World};
use pfc_writer::{WriteQueue, Writer};
use std::alloc::Global;

/// Whether each client is done.
fn all_done<W: World, O: Origin<W>>(clients: &[Client<W, O>]) -> bool
    ensures { IsTrue result → (j : ℕ) (d : ClientView) → j < length clients.now → IsDone W.told W.files (slice_index_or clients.now j d).book (slice_index_or clients.now j d).line (slice_index_or clients.now j d).stage }
{
    for j in 0..clients.len() {
        if !clients[j].is_done() {
            return false;
        }
    }
    true
}

/// Whether this stands beside a core as its store at home does, if its file is cached and something happened on it.
fn is_open<W: World>(core: &FileCore<W>, beside: Standing) -> bool
    ensures { IsTrue result → IsCached core.now.first → core.now.entries ≢ [] → beside ≡ standing.Open }
{
    core.uncached().is_some() || core.log().len() == 0 || beside == Standing::Open
}

/// Whether each core whose file is cached has its store at home, if something happened on it.
fn all_open<W: World, P: Depot<W>>(cores: &[FileCore<W>], backings: &[Backing<W, P>]) -> bool
    requires { length backings.now ≡ length cores.now }
    ensures { IsTrue result → AreOpen cores.now backings.now }
{
    for i in 0..cores.len() {
        if !is_open(&cores[i], backings[i].standing()) {
            return false;
        }
    }
    true
}

/// Ends clients, the last first: their links go into one list, what they were told into another.
fn end_clients<W: World, O: Origin<W>>(
    mut clients: Vec<Client<W, O>>,
    links: &mut Vec<O>,
    told: &mut Vec<Told>,
)
    requires link_room { length links.old.items + length clients.items ≤ vec_capacity links.old }
    requires told_room { length told.old.items + length clients.items ≤ vec_capacity told.old }
    ensures links { rows_of O.number O.calls O.faults links.new.items ≡ rows_of O.number O.calls O.faults links.old.items ++ map row_of (reverse clients.items) }
    ensures told { told.new.items ≡ told.old.items ++ map told_of (reverse clients.items) }
    ensures numbers { map O.number links.new.items ≡ map O.number links.old.items ++ map number_of (reverse clients.items) }
{
    while let Some(client) = clients.pop() {
        let (number, link, replies) = client.end();
        links.push_reserved(link);
        told.push_reserved(Told {
            number,
            replies: Replies::new(replies),
        });
    }
    clients.destroy_empty();
}

/// Ends cores: the log of each, with its path. What can be read of each file is claimed by then.
fn end_cores<W: World>(alloc: Global, cores: Vec<FileCore<W>>) -> Result<Vec<Section>, Memory>
    ensures { IfOk result (λ logs. AreSections W.told W.files logs.items cores.items) }
{
    let mut logs = Vec::with_capacity(alloc, cores.len())?;
    for core in cores {
        let path = core.known().path().copy();
        core.keeps();
        if !core.settled() {
            return Err(Memory);
        }
        match core.retire() {
            Ok(retired) => logs.push_reserved(Section {
                path,
                log: retired.log,
            }),
            Err(_) => return Err(Memory),
        }
    }
    Ok(logs)
}

/// How a run is laid out.
#[derive(Clone, Copy, Debug, PartialEq, Eq)]
pub struct Settings {
    /// The bytes of a block.
    pub block_size: u64,
    /// How many jobs wait to be written, at most.
    pub capacity: u32,
    /// How many write.
    pub writers: u32,
}

/// Plays one step of a plan.
fn play_step<W: World, O: Origin<W>, P: Depot<W>, K: Clock>(
    alloc: Global,
    scene: &mut Scene<W, O, P>,
    depot: &mut P,
    clock: &mut K,
    step: Step<'_>,
) -> Result<(), Memory>
    requires told { IsTrue W.told → IsTrue P.Data.told }
    requires sound { IsSoundAtHome W.told P.Data.told W.files (P.home_data depot.old) (P.home_main depot.old) }
    requires lent { IsLentBy (depot_of P.out P.lent P.faults depot.old) scene.old.backings }
    ensures sound { IsSoundAtHome W.told P.Data.told W.files (P.home_data depot.new) (P.home_main depot.new) }
    ensures lent { IsLentBy (depot_of P.out P.lent P.faults depot.new) scene.new.backings }
    ensures persists { OnOk result (PersistsBy W.told P.Data.told W.files scene.old (P.home_main depot.old) scene.new (P.home_main depot.new)) }
    ensures paid { (f : ℕ) → RoseBy f (settled scene.old.cores scene.old.backings) (P.faults depot.old) → RoseBy f (settled scene.new.cores scene.new.backings) (P.faults depot.new) }
    ensures unlisted { P.unlisted depot.new ≡ P.unlisted depot.old }
    ensures asked { OnOk result (map who scene.new.clients ≡ map (all_asked (line_of step.entry ∷ [])) (map who scene.old.clients)) }
    ensures numbers { map number_of scene.new.clients ≡ map number_of scene.old.clients }
    ensures block_size { scene.new.block_size ≡ scene.old.block_size }
    ensures capacity { scene.new.capacity ≡ scene.old.capacity }
    ensures length { length scene.new.clients ≡ length scene.old.clients }
{
    match step {
        Step::Ask { client, rest } => scene.ask(alloc, client, rest),
        Step::Go { client, times } => {
            scene.go(alloc, depot, clock, client, times);
            Ok(())
        }
        Step::Write { writer, times } => {
            scene.write(writer, times);
            Ok(())
        }
        Step::Sync { path, times } => {
            scene.sync(alloc, path, times);
            Ok(())
        }
    }
}

/// Plays the steps of a plan.
fn play<W: World, O: Origin<W>, P: Depot<W>, K: Clock>(
    alloc: Global,
    scene: &mut Scene<W, O, P>,
    depot: &mut P,
    clock: &mut K,
    plan: &Plan<'_>,
) -> Result<(), Memory>
    requires told { IsTrue W.told → IsTrue P.Data.told }
    requires sound { IsSoundAtHome W.told P.Data.told W.files (P.home_data depot.old) (P.home_main depot.old) }
    requires lent { IsLentBy (depot_of P.out P.lent P.faults depot.old) scene.old.backings }
    ensures sound { IsSoundAtHome W.told P.Data.told W.files (P.home_data depot.new) (P.home_main depot.new) }
    ensures lent { IsLentBy (depot_of P.out P.lent P.faults depot.new) scene.new.backings }
    ensures persists { OnOk result (PersistsBy W.told P.Data.told W.files scene.old (P.home_main depot.old) scene.new (P.home_main depot.new)) }
    ensures paid { (f : ℕ) → RoseBy f (settled scene.old.cores scene.old.backings) (P.faults depot.old) → RoseBy f (settled scene.new.cores scene.new.backings) (P.faults depot.new) }
    ensures unlisted { P.unlisted depot.new ≡ P.unlisted depot.old }
    ensures asked { OnOk result (map who scene.new.clients ≡ map (all_asked plan.now) (map who scene.old.clients)) }
    ensures numbers { map number_of scene.new.clients ≡ map number_of scene.old.clients }
    ensures block_size { scene.new.block_size ≡ scene.old.block_size }
    ensures capacity { scene.new.capacity ≡ scene.old.capacity }
    ensures length { length scene.new.clients ≡ length scene.old.clients }
{
    for step in plan.steps() {
        play_step(alloc, scene, depot, clock, *step)?;
    }
    Ok(())
}

impl<W: World, O: Origin<W>, P: Depot<W>> Scene<W, O, P> {
    /// The end of a run: the links of its clients, and its report where each client is done and each core ended. All volumes go
    /// home. The lists that are handed in are empty, with room for all clients.
    fn end(
        self,
        alloc: Global,
        depot: &mut P,
        mut links: Vec<O>,
        mut told: Vec<Told>,
    ) -> (Vec<O>, Result<Report, Memory>)
        requires links { links.items ≡ [] }
        requires told { told.items ≡ [] }
        requires link_room { length self.clients ≤ vec_capacity links }
        requires told_room { length self.clients ≤ vec_capacity told }
        requires sound { IsSoundAtHome W.told P.Data.told W.files (P.home_data depot.old) (P.home_main depot.old) }
        requires lent { IsLentBy (depot_of P.out P.lent P.faults depot.old) self.backings }
        ensures sound { IsSoundAtHome W.told P.Data.told W.files (P.home_data depot.new) (P.home_main depot.new) }
        ensures home { P.out depot.new ≡ [] }
        ensures unlisted { P.unlisted depot.new ≡ P.unlisted depot.old }
        ensures numbers { map O.number result.0.items ≡ map number_of self.clients }
        ensures settles { IfOk result.1 (λ report. Settles W.told W.files self report.logs) }
        ensures mains { IsTrue P.Data.told → PutsFrom 0 self.backings (P.home_main depot.old) (P.home_main depot.new) }
        ensures accounted { (lines : List Line) (f : ℕ) → map who self.clients ≡ asked_by lines → RoseBy f (settled self.cores self.backings) (P.faults depot.old) → IfOk result.1 (IsAccounted W.told W.files self.block_size self.capacity lines nothing_spent (spent_by (rows_of O.number O.calls O.faults result.0.items)) f (P.faults depot.new)) }
    {
        let (mut clients, cores, backings) = self.parts();
        let done = all_done(&clients);
        let opened = all_open(&cores, &backings);
        put_all(depot, backings);
        clients.reverse();
        end_clients(clients, &mut links, &mut told);
        if !done || !opened {
            return (links, Err(Memory));
        }
        match end_cores(alloc, cores) {
            Ok(logs) => (links, Ok(Report::new(told, logs))),
            Err(memory) => (links, Err(memory)),
        }
    }
}

/// Makes the book of a client, if it is wanted.
fn add_book<W: World>(
    alloc: Global,
    books: &mut Vec<Book<W>>,
    number: u32,
    wanted: bool,
) -> Result<(), Memory>
    requires { All (λ b. b ≡ fresh_book b.number) books.old.items }
    ensures numbers { OnOk result (map (λ b. b.number) books.new.items ≡ map (λ b. b.number) books.old.items ++ (if wanted then number ∷ [] else [])) }
    ensures fresh { OnOk result (All (λ b. b ≡ fresh_book b.number) books.new.items) }
{
    if !wanted {
        return Ok(());
    }
    let book = Book::new(alloc, number)?;
    books.push(book)?;
    Ok(())
}

/// The books of the clients that a plan asks anything, in order of number.
fn make_books<W: World>(alloc: Global, plan: &Plan<'_>) -> Result<Vec<Book<W>>, Memory>
    ensures numbers { IfOk result (λ books. map (λ b. b.number) books.items ≡ asked_clients plan.now) }
    ensures fresh { IfOk result (λ books. All (λ b. b ≡ fresh_book b.number) books.items) }
{
    let wanted = plan.asked();
    let mut books = Vec::with_capacity(alloc, CLIENTS)?;
    for number in 1..CLIENTS as u32 + 1 {
        add_book(alloc, &mut books, number, wanted[number as usize])?;
    }
    Ok(books)
}

/// Clients of these books and links, the last first.
fn make_clients<W: World, O: Origin<W>>(
    mut books: Vec<Book<W>>,
    links: &mut Vec<O>,
    clients: &mut Vec<Client<W, O>>,
)
    requires rows { rows_of O.number O.calls O.faults links.old.items ≡ map (λ b. (b.number, 0, 0)) books.items }
    requires fresh { All (λ b. b ≡ fresh_book b.number) books.items }
    requires room { length books.items ≤ vec_capacity clients.old }
    requires none { clients.old.items ≡ [] }
    ensures links { links.new.items ≡ [] }
    ensures capacity { vec_capacity links.new ≡ vec_capacity links.old }
    ensures fresh { All (λ a. IsFresh a.book.number a) clients.new.items }
    ensures numbers { map number_of clients.new.items ≡ reverse (map (λ b. b.number) books.items) }
{
    while let Some(book) = books.pop() {
        let Some(link) = links.pop() else {
            return;
        };
        clients.push_reserved(Client::new(book, link));
    }
}

/// So many writers at rest.
fn make_writers<W: World>(alloc: Global, count: u32) -> Result<Vec<Writer<W>>, Memory>
    ensures { IfOk result (λ writers. (w : ℕ) (d : Option Task) → w < length writers.items → slice_index_or writers.items w d ≡ None) }
{
    let mut writers = Vec::with_capacity(alloc, count as usize)?;
    for _writer in 0..count {
        writers.push_reserved(Writer::new());
    }
    Ok(writers)
}

/// Runs a plan over fresh links, one for each client that it asks anything, in order of number, and hands them back. The volumes
/// of the files are taken from a depot from which nothing is out, and all of them are home in the end.
pub fn run_scene<W: World, O: Origin<W>, P: Depot<W>, K: Clock>(
    alloc: Global,
    mut links: Vec<O>,
    plan: &Plan<'_>,
    depot: &mut P,
    clock: &mut K,
    settings: Settings,
) -> (Vec<O>, Result<Report, Memory>)
    requires told { IsTrue W.told → IsTrue P.Data.told }
    requires block_size { IsBlockSize settings.block_size }
    requires fresh { rows_of O.number O.calls O.faults links.items ≡ map (λ n. (n, 0, 0)) (asked_clients plan.now) }
    requires home { P.out depot.old ≡ [] }
    requires sound { IsSoundAtHome W.told P.Data.told W.files (P.home_data depot.old) (P.home_main depot.old) }
    ensures numbers { map O.number result.0.items ≡ asked_clients plan.now }
    ensures caused { IfOk result.1 (IsCausedReport W.told W.files settings.block_size settings.capacity plan.now nothing_spent (spent_by (rows_of O.number O.calls O.faults result.0.items)) (disks_of P.Data.told P.home_main P.faults depot.old) (disks_of P.Data.told P.home_main P.faults depot.new)) }
    ensures home { P.out depot.new ≡ [] }
    ensures sound { IsSoundAtHome W.told P.Data.told W.files (P.home_data depot.new) (P.home_main depot.new) }
    ensures unlisted { P.unlisted depot.new ≡ P.unlisted depot.old }
{
    let Ok(books) = make_books(alloc, plan) else {
        return (links, Err(Memory));
    };
    let Ok(told) = Vec::with_capacity(alloc, books.len()) else {
        return (links, Err(Memory));
    };
    let Ok(writers) = make_writers(alloc, settings.writers) else {
        return (links, Err(Memory));
    };
    let Ok(queue) = WriteQueue::new(alloc, settings.capacity) else {
        return (links, Err(Memory));
    };
    let Ok(mut clients) = Vec::with_capacity(alloc, books.len()) else {
        return (links, Err(Memory));
    };
    make_clients(books, &mut links, &mut clients);
    clients.reverse();
    let mut scene = Scene::new(alloc, clients, writers, queue, settings.block_size);
    match play(alloc, &mut scene, depot, clock, plan) {
        Ok(()) => {
            scene.drain(alloc, depot, clock);
            scene.end(alloc, depot, links, told)
        }
        Err(memory) => {
            let (links, _report) = scene.end(alloc, depot, links, told);
            (links, Err(memory))
        }
    }
}
