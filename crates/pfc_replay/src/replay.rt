ghost use Rattle.std.specs.Prelude.{◌≡◌, ◌+◌, ◌<◌, ◌≤◌, ◌⊎◌, ℕ, [], Some, Ok, Err, map, string_bytes, take, vec_len, IfOk, IfErr, IsSomeAnd, IsTrue};
ghost use Rattle.pfc_base.specs.Cinfo.{IsBlockSize};
ghost use Rattle.pfc_world.specs.Counts.{Rose, RefusalCause, Stayed};
ghost use Rattle.pfc_world.specs.Depot.{CountsFaults};
ghost use Rattle.pfc_world.specs.Files.{file_at};
ghost use Rattle.pfc_actor.specs.Backings.{FewerMains, IsSoundAtHome};
ghost use Rattle.pfc_replay.specs.Depots.{state_of};
ghost use Rattle.pfc_replay.specs.Outcome.{Asked, Causes, Writes, WritesFront, WritesPlain, IsUnhindered};
ghost use Rattle.pfc_replay.specs.Run.{Goes, Runs, laid_out};

use crate::outcome::{Outcome, Part};
use crate::play::{PlayRefusal, play};
use crate::words::read_words;
use crate::write::write_outcome;
use pfc_base::Memory;
use pfc_config::{Config, read_config};
use pfc_report::{Plan, SCHEDULE_LIMIT, ScheduleRefusal, read_schedule};
use pfc_scene::Settings;
use pfc_world::{Clock, Depot, Host, Refusal, Sink, Sources, World, read_text};
use std::alloc::Global;

/// The most bytes of a configuration.
const CONFIG_LIMIT: usize = 1048576;

/// The text of a name, up to so many bytes.
fn fetch_text<H: Sources>(
    alloc: Global,
    host: &mut H,
    name: &str,
    most: usize,
) -> Result<Vec<u8>, Refusal>
    ensures text { IfOk result (λ text. IsTrue H.told → IsSomeAnd (file_at (H.texts host.old) name.now) (λ all. text.items ≡ take most all)) }
    ensures cause { RefusalCause (H.faults host.old) (H.faults host.new) result }
    ensures texts { H.texts host.new ≡ H.texts host.old }
    ensures spent { (n : ℕ) → H.spent host.new n ≡ H.spent host.old n }
{
    let mut input = host.source(alloc, name)?;
    let text = read_text(alloc, &mut input, most);
    host.done(input);
    text
}

/// Lists the paths of a depot, of which nothing is asked yet but that it can be listed.
fn list_depot<W: World, P: Depot<W>>(alloc: Global, depot: &mut P) -> Result<(), Refusal>
    requires sound { IsSoundAtHome W.told P.Data.told W.files (P.home_data depot.old) (P.home_main depot.old) }
    ensures unlisted { CountsFaults (P.unlisted depot.old) (P.unlisted depot.new) result }
    ensures later { P.faults depot.old ≤ P.faults depot.new }
    ensures mains { IsTrue P.Data.told → FewerMains (P.home_main depot.old) (P.home_main depot.new) }
    ensures home { P.out depot.new ≡ P.out depot.old }
    ensures sound { IsSoundAtHome W.told P.Data.told W.files (P.home_data depot.new) (P.home_main depot.new) }
{
    match depot.list(alloc) {
        Ok(_paths) => Ok(()),
        Err(refusal) => Err(refusal),
    }
}

/// Runs a plan. The depot is listed first.
fn run_plan<W: World, H: Host<W>, P: Depot<W>, K: Clock>(
    alloc: Global,
    host: &mut H,
    depot: &mut P,
    clock: &mut K,
    plan: &Plan<'_>,
    settings: Settings,
) -> Result<Outcome, Memory>
    requires told { IsTrue W.told → IsTrue P.Data.told }
    requires block_size { IsBlockSize settings.block_size }
    requires home { P.out depot.old ≡ [] }
    requires sound { IsSoundAtHome W.told P.Data.told W.files (P.home_data depot.old) (P.home_main depot.old) }
    ensures goes { IfOk result (Goes W.told W.files settings plan.now (H.faults host.old) (H.faults host.new) (state_of P.Data.told P.home_main P.faults P.unlisted depot.old) (state_of P.Data.told P.home_main P.faults P.unlisted depot.new) (H.spent host.old) (H.spent host.new)) }
    ensures home { P.out depot.new ≡ [] }
    ensures sound { IsSoundAtHome W.told P.Data.told W.files (P.home_data depot.new) (P.home_main depot.new) }
{
    match list_depot::<W, P>(alloc, depot) {
        Ok(()) => (),
        Err(Refusal::Fault) => return Ok(Outcome::Fault(Part::Depot)),
        Err(Refusal::Memory) => return Err(Memory),
    }
    match play::<W, H, P, K>(alloc, host, depot, clock, plan, settings) {
        Ok(report) => Ok(Outcome::Report(report)),
        Err(PlayRefusal::Link { number }) => Ok(Outcome::Fault(Part::Link(number))),
        Err(PlayRefusal::Memory) => Err(Memory),
    }
}

/// Runs the schedule of a name.
fn run_schedule<W: World, H: Host<W>, P: Depot<W>, K: Clock>(
    alloc: Global,
    host: &mut H,
    depot: &mut P,
    clock: &mut K,
    name: &str,
    settings: Settings,
) -> Result<Outcome, Memory>
    requires told { IsTrue W.told → IsTrue P.Data.told }
    requires block_size { IsBlockSize settings.block_size }
    requires home { P.out depot.old ≡ [] }
    requires sound { IsSoundAtHome W.told P.Data.told W.files (P.home_data depot.old) (P.home_main depot.old) }
    ensures runs { IfOk result (Runs W.told W.files settings H.told (H.texts host.old) name.now (H.faults host.old) (H.faults host.new) (state_of P.Data.told P.home_main P.faults P.unlisted depot.old) (state_of P.Data.told P.home_main P.faults P.unlisted depot.new) (H.spent host.old) (H.spent host.new)) }
    ensures home { P.out depot.new ≡ [] }
    ensures sound { IsSoundAtHome W.told P.Data.told W.files (P.home_data depot.new) (P.home_main depot.new) }
{
    let text = match fetch_text(alloc, host, name, SCHEDULE_LIMIT + 1) {
        Ok(text) => text,
        Err(Refusal::Fault) => return Ok(Outcome::Fault(Part::Schedule)),
        Err(Refusal::Memory) => return Err(Memory),
    };
    let plan = match read_schedule(alloc, &text, settings.writers) {
        Ok(plan) => plan,
        Err(ScheduleRefusal::Bad { line }) => return Ok(Outcome::Schedule { line }),
        Err(ScheduleRefusal::Memory) => return Err(Memory),
    };
    run_plan::<W, H, P, K>(alloc, host, depot, clock, &plan, settings)
}

/// How a configuration lays a run out.
fn settings_of(config: &Config) -> Settings
    ensures { result ≡ laid_out config.now }
{
    Settings {
        block_size: config.blocksize,
        capacity: config.queue,
        writers: config.writers,
    }
}

/// What a call with these words comes to. The words are read first, then the configuration, then the schedule.
fn run<W: World, H: Host<W>, P: Depot<W>, K: Clock>(
    alloc: Global,
    words: &[String],
    host: &mut H,
    depot: &mut P,
    clock: &mut K,
) -> Result<Outcome, Memory>
    requires told { IsTrue W.told → IsTrue P.Data.told }
    requires home { P.out depot.old ≡ [] }
    requires sound { IsSoundAtHome W.told P.Data.told W.files (P.home_data depot.old) (P.home_main depot.old) }
    ensures causes { IfOk result (Causes W.told W.files (record { told = H.told; texts = H.texts host.old; words = map string_bytes words.now }) (H.faults host.old) (H.faults host.new) (state_of P.Data.told P.home_main P.faults P.unlisted depot.old) (state_of P.Data.told P.home_main P.faults P.unlisted depot.new) (H.spent host.old) (H.spent host.new)) }
    ensures home { P.out depot.new ≡ [] }
    ensures sound { IsSoundAtHome W.told P.Data.told W.files (P.home_data depot.new) (P.home_main depot.new) }
{
    let call = match read_words(words) {
        None => return Ok(Outcome::Usage),
        Some(call) => call,
    };
    let text = match fetch_text(alloc, host, call.config, CONFIG_LIMIT + 1) {
        Ok(text) => text,
        Err(Refusal::Fault) => return Ok(Outcome::Fault(Part::Config)),
        Err(Refusal::Memory) => return Err(Memory),
    };
    let config = match read_config(&text, call.capacity) {
        Ok(config) => config,
        Err(refusal) => return Ok(Outcome::from(refusal)),
    };
    run_schedule::<W, H, P, K>(
        alloc,
        host,
        depot,
        clock,
        call.schedule,
        settings_of(&config),
    )
}

/// The exit status of a program that writes what a call comes to: the outcome's, 4 where the sink failed, 5 for want of
/// memory. The depot's volumes are home before and after, and sound.
pub fn run_replay<W: World, H: Host<W>, P: Depot<W>, K: Clock, S: Sink>(
    alloc: Global,
    words: &[String],
    host: &mut H,
    depot: &mut P,
    clock: &mut K,
    out: &mut S,
) -> u8
    requires told { IsTrue W.told → IsTrue P.Data.told }
    requires home { P.out depot.old ≡ [] }
    requires sound { IsSoundAtHome W.told P.Data.told W.files (P.home_data depot.old) (P.home_main depot.old) }

    // What was written is the text of an outcome that has its cause, whole, and the answer is its status ..
    ensures whole { result ≤ 3 → Writes (Causes W.told W.files (record { told = H.told; texts = H.texts host.old; words = map string_bytes words.now }) (H.faults host.old) (H.faults host.new) (state_of P.Data.told P.home_main P.faults P.unlisted depot.old) (state_of P.Data.told P.home_main P.faults P.unlisted depot.new) (H.spent host.old) (H.spent host.new)) result S.told (S.written out.old) (S.written out.new) }
    // .. or a front of it, where the sink failed ..
    ensures sink { result ≡ 4 → Rose (S.faults out.old) (S.faults out.new) × WritesFront (Causes W.told W.files (record { told = H.told; texts = H.texts host.old; words = map string_bytes words.now }) (H.faults host.old) (H.faults host.new) (state_of P.Data.told P.home_main P.faults P.unlisted depot.old) (state_of P.Data.told P.home_main P.faults P.unlisted depot.new) (H.spent host.old) (H.spent host.new)) S.told (S.written out.old) (S.written out.new) }
    // .. or a front of it, or nothing, where memory ran out.
    ensures memory { result ≡ 5 → (S.written out.new ≡ S.written out.old) ⊎ WritesFront (Causes W.told W.files (record { told = H.told; texts = H.texts host.old; words = map string_bytes words.now }) (H.faults host.old) (H.faults host.new) (state_of P.Data.told P.home_main P.faults P.unlisted depot.old) (state_of P.Data.told P.home_main P.faults P.unlisted depot.new) (H.spent host.old) (H.spent host.new)) S.told (S.written out.old) (S.written out.new) }
    ensures last { result ≤ 5 }

    // A client whose link had no fault is told the plain replies, but for want of memory.
    ensures plain { result ≡ 0 → WritesPlain W.told W.files (record { told = H.told; texts = H.texts host.old; words = map string_bytes words.now }) (state_of P.Data.told P.home_main P.faults P.unlisted depot.old) (state_of P.Data.told P.home_main P.faults P.unlisted depot.new) (H.spent host.old) (H.spent host.new) S.told (S.written out.old) (S.written out.new) }
    // Where all is of the form and nothing failed, the schedule is run, unless memory runs out.
    ensures complete { IsUnhindered (record { told = H.told; texts = H.texts host.old; words = map string_bytes words.now }) (H.faults host.old) (H.faults host.new) (state_of P.Data.told P.home_main P.faults P.unlisted depot.old) (state_of P.Data.told P.home_main P.faults P.unlisted depot.new) (S.faults out.old) (S.faults out.new) → (result ≡ 0) ⊎ (result ≡ 5) }

    // With any answer each volume is home again, and sound.
    ensures home { P.out depot.new ≡ [] }
    ensures sound { IsSoundAtHome W.told P.Data.told W.files (P.home_data depot.new) (P.home_main depot.new) }
{
    let outcome = match run::<W, H, P, K>(alloc, words, host, depot, clock) {
        Ok(outcome) => outcome,
        Err(_) => return 5,
    };
    match write_outcome(alloc, out, &outcome) {
        Ok(()) => outcome.status(),
        Err(Refusal::Fault) => 4,
        Err(Refusal::Memory) => 5,
    }
}
