ghost use Rattle.std.specs.Prelude.{◌≡◌, ◌++◌, [], ◌∷◌, ℕ, ◌+◌, ◌<◌, ◌≤◌, All, map, vec_len, vec_capacity, IfOk, IfErr, OnOk, OnErr, IsTrue, if◌then◌else◌};
ghost use Rattle.pfc_base.specs.Cinfo.{IsBlockSize};
ghost use Rattle.pfc_report.specs.Schedule.{asked_clients, is_asked};
ghost use Rattle.pfc_report.specs.Spent.{rows_of, spent_by, nothing_spent};
ghost use Rattle.pfc_report.specs.Caused.{IsCausedReport, disks_of};
ghost use Rattle.pfc_actor.specs.Backings.{IsSoundAtHome};
ghost use Rattle.pfc_replay.specs.Play.{fresh_rows, given_back, StopsAt, StopsBy};
ghost use Rattle.pfc_replay.specs.declared.play.PlayRefusal.TheVariants as stop;

use pfc_base::Memory;
use pfc_report::{CLIENTS, Plan, Report};
use pfc_scene::{Settings, run_scene};
use pfc_world::{Clock, Depot, Host, Origin, Refusal, World};
use std::alloc::{AllocError, Global};

/// Why a plan isn't run to its end.
#[derive(Clone, Copy, Debug, PartialEq, Eq)]
pub enum PlayRefusal {
    /// The host didn't give the link of this client.
    Link { number: u32 },
    /// Memory was refused.
    Memory,
}

impl From<AllocError> for PlayRefusal {
    ghost from_gives = { λ _ e. e ≡ stop.Memory };

    fn from(_: AllocError) -> Self {
        PlayRefusal::Memory
    }
}

/// Makes the link of a number, if it is to be made.
fn add_link<W: World, H: Host<W>>(
    alloc: Global,
    host: &mut H,
    links: &mut Vec<H::Link>,
    number: u32,
    wanted: bool,
) -> Result<(), PlayRefusal>
    requires number { number ≤ 64 }
    requires room { vec_len links.old < vec_capacity links.old }
    requires small { All (λ link. H.Link.number link ≤ 64) links.old.items }
    ensures ok { OnOk result (rows_of H.Link.number H.Link.calls H.Link.faults links.new.items ≡ rows_of H.Link.number H.Link.calls H.Link.faults links.old.items ++ (if wanted then (number, 0, 0) ∷ [] else [])) }
    ensures err { OnErr result (links.new.items ≡ links.old.items) }
    ensures small { All (λ link. H.Link.number link ≤ 64) links.new.items }
    ensures len { vec_len links.new ≤ vec_len links.old + 1 }
    ensures capacity { vec_capacity links.new ≡ vec_capacity links.old }
    ensures cause { IfErr result (StopsAt number wanted (H.faults host.old) (H.faults host.new)) }
    ensures later { H.faults host.old ≤ H.faults host.new }
    ensures spent { (n : ℕ) → H.spent host.new n ≡ H.spent host.old n }
{
    if !wanted {
        return Ok(());
    }
    match host.link(alloc, number) {
        Ok(link) => {
            links.push_reserved(link);
            Ok(())
        }
        Err(Refusal::Fault) => Err(PlayRefusal::Link { number }),
        Err(Refusal::Memory) => Err(PlayRefusal::Memory),
    }
}

/// Makes the links of the clients that a plan asks anything, in order of number. After a refusal those that were made
/// stand in the list.
fn add_links<W: World, H: Host<W>>(
    alloc: Global,
    host: &mut H,
    plan: &Plan<'_>,
    links: &mut Vec<H::Link>,
) -> Result<(), PlayRefusal>
    requires none { links.old.items ≡ [] }
    requires room { 64 ≤ vec_capacity links.old }
    ensures ok { OnOk result (rows_of H.Link.number H.Link.calls H.Link.faults links.new.items ≡ fresh_rows (asked_clients plan.now)) }
    ensures small { All (λ link. H.Link.number link ≤ 64) links.new.items }
    ensures cause { IfErr result (StopsBy plan.now (H.faults host.old) (H.faults host.new)) }
    ensures spent { (n : ℕ) → H.spent host.new n ≡ H.spent host.old n }
{
    let wanted = plan.asked();
    for number in 1..CLIENTS as u32 + 1 {
        match add_link::<W, H>(alloc, host, links, number, wanted[number as usize]) {
            Ok(()) => (),
            Err(refusal) => return Err(refusal),
        }
    }
    Ok(())
}

/// Gives links back to their host.
fn give_back<W: World, H: Host<W>>(host: &mut H, links: Vec<H::Link>)
    requires { All (λ link. H.Link.number link ≤ 64) links.items }
    ensures spent { (n : ℕ) → H.spent host.new n ≡ given_back (H.spent host.old) (rows_of H.Link.number H.Link.calls H.Link.faults links.items) n }
    ensures faults { H.faults host.new ≡ H.faults host.old }
{
    for link in links {
        host.back(link);
    }
}

/// Runs a plan over links that were made for it, and gives them back.
fn play_over<W: World, H: Host<W>, P: Depot<W>, K: Clock>(
    alloc: Global,
    host: &mut H,
    depot: &mut P,
    clock: &mut K,
    links: Vec<H::Link>,
    plan: &Plan<'_>,
    settings: Settings,
) -> Result<Report, PlayRefusal>
    requires told { IsTrue W.told → IsTrue P.Data.told }
    requires block_size { IsBlockSize settings.block_size }
    requires fresh { rows_of H.Link.number H.Link.calls H.Link.faults links.items ≡ fresh_rows (asked_clients plan.now) }
    requires home { P.out depot.old ≡ [] }
    requires sound { IsSoundAtHome W.told P.Data.told W.files (P.home_data depot.old) (P.home_main depot.old) }
    ensures caused { IfOk result (IsCausedReport W.told W.files settings.block_size settings.capacity plan.now (H.spent host.old) (H.spent host.new) (disks_of P.Data.told P.home_main P.faults depot.old) (disks_of P.Data.told P.home_main P.faults depot.new)) }
    ensures memory { IfErr result (λ refusal. refusal ≡ stop.Memory) }
    ensures home { P.out depot.new ≡ [] }
    ensures sound { IsSoundAtHome W.told P.Data.told W.files (P.home_data depot.new) (P.home_main depot.new) }
    ensures unlisted { P.unlisted depot.new ≡ P.unlisted depot.old }
{
    let (links, report) = run_scene::<W, H::Link, P, K>(alloc, links, plan, depot, clock, settings);
    give_back::<W, H>(host, links);
    match report {
        Ok(report) => Ok(report),
        Err(Memory) => Err(PlayRefusal::Memory),
    }
}

/// Runs a plan over the volumes of a depot. The links of all clients that it asks anything are made first, in order of number,
/// and go back to the host whatever comes; so do the volumes to the depot.
pub fn play<W: World, H: Host<W>, P: Depot<W>, K: Clock>(
    alloc: Global,
    host: &mut H,
    depot: &mut P,
    clock: &mut K,
    plan: &Plan<'_>,
    settings: Settings,
) -> Result<Report, PlayRefusal>
    requires told { IsTrue W.told → IsTrue P.Data.told }
    requires block_size { IsBlockSize settings.block_size }
    requires home { P.out depot.old ≡ [] }
    requires sound { IsSoundAtHome W.told P.Data.told W.files (P.home_data depot.old) (P.home_main depot.old) }
    ensures caused { IfOk result (IsCausedReport W.told W.files settings.block_size settings.capacity plan.now (H.spent host.old) (H.spent host.new) (disks_of P.Data.told P.home_main P.faults depot.old) (disks_of P.Data.told P.home_main P.faults depot.new)) }
    ensures refused { IfErr result (StopsBy plan.now (H.faults host.old) (H.faults host.new)) }
    ensures home { P.out depot.new ≡ [] }
    ensures sound { IsSoundAtHome W.told P.Data.told W.files (P.home_data depot.new) (P.home_main depot.new) }
    ensures unlisted { P.unlisted depot.new ≡ P.unlisted depot.old }
{
    let mut links = Vec::with_capacity(alloc, CLIENTS)?;
    match add_links::<W, H>(alloc, host, plan, &mut links) {
        Ok(()) => play_over::<W, H, P, K>(alloc, host, depot, clock, links, plan, settings),
        Err(refusal) => {
            give_back::<W, H>(host, links);
            Err(refusal)
        }
    }
}
