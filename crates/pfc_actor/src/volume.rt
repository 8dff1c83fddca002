// What is done with a volume, its store or the loan of that.
ghost use Rattle.std.specs.Prelude.{◌≡◌, ◌≢◌, ◌≤◌, ◌⊎◌, List, ℕ, Contains, length, false, Some, IsTrue, IfOk, IfErr, OnOk, OnErr, MatchBool};
ghost use Rattle.pfc_base.specs.Block.{count_of};
ghost use Rattle.pfc_base.specs.Cinfo.{IsBlockSize};
ghost use Rattle.pfc_world.specs.Counts.{add_count, last_count};
ghost use Rattle.pfc_world.specs.Depot.{AllSound, Loses, risen};
ghost use Rattle.pfc_world.specs.Disk.{IsImage};
ghost use Rattle.pfc_world.specs.Info.{IsMain};
ghost use Rattle.pfc_actor.specs.Backings.{Bare, Taken, OpensFound, IsSoundAtHome, IsTaken, Later, Opens, OpensBy};
ghost use Rattle.pfc_actor.specs.Standings.{stand_of, now_of, info_of, told_by, claimed_of, durable_of, ClaimsRight, OpensHeld, PutsVolume, Shuts, Counted, GivenBy, IsParted, LentBy, TurnsBy, WritesBlock, WritesBy};
ghost use Rattle.pfc_writer.specs.Writer.{Task, turned};

use crate::backing::Held;
use pfc_base::{BlockSet, Memory};
use pfc_core::{Did, FileCore, Loan, Strayed, Turn};
use pfc_store::{FileStore, OpenRefusal, ReadRefusal};
use pfc_sync::turn_by;
use pfc_world::{DataDev, Depot, InfoDev, Known, Refusal, World};
use pfc_writer::Writer;
use std::alloc::Global;
use std::marker::Model;

/// A file with the two devices of its volume, of which each pair of images that a crash may leave is sound.
#[derive(Drop)]
pub(crate) struct Volume<W: World, D: DataDev<W>, I: InfoDev<W>> {
    known: Known<W>,
    first: D,
    second: I,
}

impl<W: World, D: DataDev<W>, I: InfoDev<W>> Model for Volume<W, D, I> {
    ghost use Rattle.std.specs.Prelude.{IsTrue};
    ghost use Rattle.pfc_world.specs.Depot.{AllSound};
    ghost use Rattle.pfc_world.specs.Disk.{IsImage};
    ghost use Rattle.pfc_world.specs.Info.{IsMain};
    ghost use Rattle.pfc_actor.specs.Backings.{VolumeView};

    ghost Value = { VolumeView D I };

    ghost view = { λ v. record { path = v.known.path; size = v.known.size; first = v.first; second = v.second } };

    ghost invariant = { λ v. IsTrue W.told → IsTrue D.told → AllSound W.files v.known.path (IsImage (D.seen v.first).now) (IsMain (I.seen v.second).now) };
}

impl<W: World, D: DataDev<W>, I: InfoDev<W>> Volume<W, D, I> {
    pub fn new(known: Known<W>, first: D, second: I) -> Volume<W, D, I>
        requires { IsTrue W.told → IsTrue D.told → AllSound W.files known.path (IsImage (D.seen first).now) (IsMain (I.seen second).now) }
        ensures { result ≡ record { path = known.path; size = known.size; first = first; second = second } }
    {
        Volume {
            known,
            first,
            second,
        }
    }
}

/// Spends what stands beside a core, with its volume.
pub(crate) fn spend<W: World, D: DataDev<W>, I: InfoDev<W>>(held: Held<W, D, I>) {
    match held {
        Held::Bare => (),
        Held::Taken(volume) => drop(volume),
        Held::Open(store) => drop(store),
        Held::Lent(loan) => {
            let (first, second) = loan.end();
            drop(first);
            drop(second);
        }
    }
}

/// Whether nothing stands there.
pub(crate) fn is_bare<W: World, D: DataDev<W>, I: InfoDev<W>>(held: &Held<W, D, I>) -> bool
    ensures { MatchBool result (stand_of held.now ≡ Bare) (stand_of held.now ≡ Bare → ⊥) }
{
    match held {
        Held::Bare => true,
        Held::Taken(_) => false,
        Held::Open(_) => false,
        Held::Lent(_) => false,
    }
}

/// The file and the devices of what stands there.
pub(crate) fn parted<W: World, D: DataDev<W>, I: InfoDev<W>>(
    held: Held<W, D, I>,
) -> Option<Volume<W, D, I>>
    requires { IsTrue D.told → IsTrue I.told }
    ensures parted { IsParted D.faults I.faults I.told I.seen held result }
    ensures claims { ClaimsRight I.told I.seen held }
{
    match held {
        Held::Bare => None,
        Held::Taken(volume) => Some(volume),
        Held::Open(store) => {
            store.keeps();
            let known = store.known().copy();
            let (first, second) = store.parts();
            Some(Volume::new(known, first, second))
        }
        Held::Lent(loan) => {
            loan.keeps();
            let known = loan.known().copy();
            let (first, second) = loan.end();
            Some(Volume::new(known, first, second))
        }
    }
}

/// Puts a volume back that is out.
pub(crate) fn put_home<W: World, P: Depot<W>>(depot: &mut P, volume: Volume<W, P::Data, P::Info>)
    requires sound { IsSoundAtHome W.told P.Data.told W.files (P.home_data depot.old) (P.home_main depot.old) }
    requires out { Contains (P.out depot.old) volume.path }
    ensures sound { IsSoundAtHome W.told P.Data.told W.files (P.home_data depot.new) (P.home_main depot.new) }
    ensures loses { Loses volume.path (P.out depot.old) (P.out depot.new) }
    ensures elsewhere { (other : List ℕ) → other ≢ volume.path → P.lent depot.new other ≡ P.lent depot.old other }
    ensures faults { P.faults depot.new ≡ add_count (P.faults depot.old) (risen (P.lent depot.old volume.path) (P.Data.faults volume.first) (P.Info.faults volume.second)) }
    ensures first { P.Data.faults volume.first ≤ last_count }
    ensures second { P.Info.faults volume.second ≤ last_count }
    ensures mains { IsTrue P.Data.told → PutsVolume volume.path (P.Info.seen volume.second).now (P.home_main depot.old) (P.home_main depot.new) }
    ensures unlisted { P.unlisted depot.new ≡ P.unlisted depot.old }
{
    let Volume {
        known,
        first,
        second,
    } = volume;
    let _first = first.faults();
    let _second = second.faults();
    let _is_back = depot.put_back(known.path(), first, second);
}

/// Opens the store of the volume that stands there. After a refusal the volume stands there as before.
pub(crate) fn opened<W: World, D: DataDev<W>, I: InfoDev<W>>(
    alloc: Global,
    held: Held<W, D, I>,
    block_size: u64,
    created: u64,
) -> (Held<W, D, I>, Result<(), Refusal>)
    requires taken { IsTaken block_size (stand_of held) }
    requires block_size { IsBlockSize block_size }
    requires alike { IsTrue D.told → IsTrue I.told }
    ensures opens { OnOk result.1 (Opens block_size (stand_of held) (stand_of result.0)) }
    ensures stays { OnErr result.1 (stand_of result.0 ≡ stand_of held) }
    ensures found { OpensHeld I.told I.seen block_size held result.0 }
    ensures later { Later (now_of D.faults I.faults held) (now_of D.faults I.faults result.0) }
    ensures cause { IfErr result.1 (OpensBy (now_of D.faults I.faults held) (now_of D.faults I.faults result.0)) }
{
    match held {
        Held::Taken(volume) => opened_volume(alloc, volume, block_size, created),
        other => (other, Err(Refusal::Memory)),
    }
}

/// Opens the store of a volume, or leaves it as it is.
fn opened_volume<W: World, D: DataDev<W>, I: InfoDev<W>>(
    alloc: Global,
    volume: Volume<W, D, I>,
    block_size: u64,
    created: u64,
) -> (Held<W, D, I>, Result<(), Refusal>)
    requires block_size { IsBlockSize block_size }
    requires blocks { count_of volume.size block_size ≤ 16777216 }
    requires alike { IsTrue D.told → IsTrue I.told }
    ensures opens { OnOk result.1 (Opens block_size (Taken volume.path volume.size) (stand_of result.0)) }
    ensures stays { OnErr result.1 (stand_of result.0 ≡ Taken volume.path volume.size) }
    ensures found { OpensFound volume.size block_size (told_by I.told (I.seen volume.second).now) (info_of I.told I.seen result.0) (stand_of result.0) (claimed_of result.0) (durable_of result.0) }
    ensures later { Later (D.faults volume.first, I.faults volume.second) (now_of D.faults I.faults result.0) }
    ensures cause { IfErr result.1 (OpensBy (D.faults volume.first, I.faults volume.second) (now_of D.faults I.faults result.0)) }
{
    let Volume {
        known,
        first,
        second,
    } = volume;
    let kept = known.copy();
    match FileStore::open_store(alloc, first, second, known, block_size, created) {
        Ok(store) => (Held::Open(store), Ok(())),
        Err(
            OpenRefusal::Device {
                first,
                second,
                broken: _,
            },
        ) => (
            Held::Taken(Volume::new(kept, first, second)),
            Err(Refusal::Fault),
        ),
        Err(OpenRefusal::Memory { first, second }) => (
            Held::Taken(Volume::new(kept, first, second)),
            Err(Refusal::Memory),
        ),
    }
}

/// The volume of the store that stands there, as it was taken.
pub(crate) fn shut<W: World, D: DataDev<W>, I: InfoDev<W>>(held: Held<W, D, I>) -> Held<W, D, I>
    requires alike { IsTrue D.told → IsTrue I.told }
    ensures { Shuts held result }
{
    match held {
        Held::Open(store) => {
            let known = store.known().copy();
            let (first, second) = store.parts();
            Held::Taken(Volume::new(known, first, second))
        }
        other => other,
    }
}

/// A copy of the set of blocks that are on disk for good.
pub(crate) fn copied<W: World, D: DataDev<W>, I: InfoDev<W>>(
    alloc: Global,
    store: &FileStore<W, D, I>,
) -> Result<BlockSet, Memory>
    ensures length { IfOk result (λ set. length set ≡ count_of store.now.size store.now.block_size) }
    ensures durable { IfOk result (λ set. set ≡ store.now.durable) }
{
    store.keeps();
    let set = store.durable().copy(alloc)?;
    Ok(set)
}

/// Lends the store that stands there for its core. It tells whether it did.
pub(crate) fn lent_by<W: World, D: DataDev<W>, I: InfoDev<W>>(
    core: &mut FileCore<W>,
    held: Held<W, D, I>,
) -> (Held<W, D, I>, bool)
    ensures { MatchBool result.1 (LentBy core.old held core.new result.0) ((core.new ≡ core.old) × (result.0 ≡ held)) }
{
    let Held::Open(store) = held else {
        return (held, false);
    };
    let mut home = Some(store);
    match core.lend(&mut home) {
        Ok(loan) => {
            loan.keeps();
            (Held::Lent(loan), true)
        }
        Err(_) => match home {
            Some(store) => (Held::Open(store), false),
            None => unreachable!(),
        },
    }
}

/// Lends the store that stands there for a turn of a sync. It tells whether it did.
pub(crate) fn lent_for_turn<W: World, D: DataDev<W>, I: InfoDev<W>>(
    alloc: Global,
    core: &mut FileCore<W>,
    held: Held<W, D, I>,
    turn: Turn,
) -> (Held<W, D, I>, bool)
    ensures { MatchBool result.1 (LentBy core.old held core.new result.0) ((core.new ≡ core.old) × (result.0 ≡ held)) }
{
    let Held::Open(store) = held else {
        return (held, false);
    };
    let mut home = Some(store);
    match core.lend_turn(alloc, &mut home, turn) {
        Ok(loan) => {
            loan.keeps();
            (Held::Lent(loan), true)
        }
        Err(_) => match home {
            Some(store) => (Held::Open(store), false),
            None => unreachable!(),
        },
    }
}

/// Makes the turn for which a store was lent, where the loan did nothing yet. It tells whether that went well.
pub(crate) fn turn_of<W: World, D: DataDev<W>, I: InfoDev<W>>(
    alloc: Global,
    loan: &mut Loan<W, D, I>,
) -> bool
    ensures { TurnsBy D.faults I.faults loan.old loan.new ⊎ (loan.new ≡ loan.old) }
{
    turn_by(alloc, loan)
}

/// Gives the loan that stands there back to its core. It tells whether the core took it.
pub(crate) fn given_to<W: World, D: DataDev<W>, I: InfoDev<W>>(
    core: &mut FileCore<W>,
    held: Held<W, D, I>,
) -> (Held<W, D, I>, bool)
    ensures { MatchBool result.1 (GivenBy core.old held core.new result.0) ((core.new ≡ core.old) × (result.0 ≡ held)) }
{
    let Held::Lent(loan) = held else {
        return (held, false);
    };
    loan.keeps();
    let mut home = None;
    match core.give(&mut home, loan) {
        Ok(()) => match home {
            Some(store) => (Held::Open(store), true),
            None => unreachable!(),
        },
        Err(Strayed { token, why: _ }) => (Held::Lent(token), false),
    }
}

/// Writes the block of a writer's job by a loan, where that is of the job's file and did nothing yet. It tells whether the writer
/// had its turn.
pub(crate) fn write_by<W: World, D: DataDev<W>, I: InfoDev<W>>(
    loan: &mut Loan<W, D, I>,
    writer: &mut Writer<W>,
) -> bool
    ensures loan { MatchBool result (WritesBy D.faults loan.old loan.new) (loan.new ≡ loan.old) }
    ensures yes { IsTrue result → (task : Task) × (writer.old ≡ Some task) × (writer.new ≡ Some (turned task)) × WritesBlock task.job.block loan.new.did }
    ensures no { result ≡ false → writer.new ≡ writer.old }
{
    if loan.did() != Did::Nothing {
        return false;
    }
    if !writer.fits(loan) {
        return false;
    }
    match writer.write(loan) {
        Some(_) => true,
        None => false,
    }
}

/// How many failed reads are unspent after this one.
pub(crate) fn counted(unspent: u64, answer: Option<Result<(), ReadRefusal>>) -> u64
    ensures { Counted unspent answer result }
{
    match answer {
        None => unspent,
        Some(Ok(())) => unspent,
        Some(Err(ReadRefusal::Absent)) => unspent,
        Some(Err(ReadRefusal::Frozen(_))) => unspent,
        Some(Err(ReadRefusal::Device(_))) => unspent.saturating_add(1),
    }
}
