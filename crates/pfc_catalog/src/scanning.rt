// What a depot has is entered in a fresh catalog: each volume is taken, read and put back.
ghost use Rattle.std.specs.Prelude.{◌≡◌, ◌≢◌, ◌≤◌, ◌↔◌, ◌⊎◌, ℕ, List, Option, Some, None, false, Contains, IsTrue, IsSome, IfOk, OnOk, OnErr};
ghost use Rattle.std.specs.Map.{keys_of};
ghost use Rattle.pfc_world.specs.Counts.{RoseBy};
ghost use Rattle.pfc_world.specs.Depot.{AllSound, Fewer, HasVolume, InByteOrder, Loses, SameElsewhere};
ghost use Rattle.pfc_world.specs.Disk.{IsImage};
ghost use Rattle.pfc_world.specs.Info.{IsMain};
ghost use Rattle.pfc_catalog.specs.declared.entry.Entry as found;
ghost use Rattle.pfc_catalog.specs.Files.{entry_at};
ghost use Rattle.pfc_catalog.specs.Shells.{holder};
ghost use Rattle.pfc_catalog.specs.Catalog.{put};
ghost use Rattle.pfc_catalog.specs.Scan.{IsSoundAtHome, StaysOut, KeepsMains, IsCached, KeepsCached, IsFoundAs, broken_in, ScanCause, entry_of, is_away, Sees, LookCause, Weighs};

use crate::catalog::Catalog;
use pfc_access::last_access;
use pfc_base::{Memory, Path};
use pfc_store::{Found, SurveyRefusal, survey};
use pfc_world::{DataDev, Depot, InfoDev, Refusal, Taken, World};
use std::alloc::Global;

/// Why a depot wasn't scanned.
#[derive(Clone, Copy, Debug, PartialEq, Eq)]
pub enum ScanRefusal {
    /// The depot couldn't be listed.
    Fault,
    /// Memory was refused.
    Memory,
}

/// What was seen of a volume.
#[derive(Clone, Copy, Debug, PartialEq, Eq)]
pub(crate) enum Looked {
    /// It is out.
    Out,
    /// A call of the depot or of a device failed.
    Broken,
    /// The bytes that its claimed blocks take, and the moment of the last access in seconds. Both are 0 where no main file stands.
    Known { usage: u64, last: u64 },
}

/// What a survey found, in short.
fn weigh(surveyed: Result<Found, SurveyRefusal>) -> Result<Looked, Memory>
    ensures { Weighs surveyed result }
{
    match surveyed {
        Ok(Found::Valid(cinfo)) => Ok(Looked::Known {
            usage: cinfo.claimed_bytes(),
            last: last_access(&cinfo.head),
        }),
        Ok(Found::Cleared) => Ok(Looked::Known { usage: 0, last: 0 }),
        Err(SurveyRefusal::Device(_)) => Ok(Looked::Broken),
        Err(SurveyRefusal::Memory) => Err(Memory),
    }
}

/// Reads a volume that is out, and puts it back whatever was read.
fn read_home<W: World, P: Depot<W>>(
    alloc: Global,
    depot: &mut P,
    path: &Path,
    mut first: P::Data,
    mut second: P::Info,
) -> Result<Looked, Memory>
    requires out { Contains (P.out depot.old) path.now }
    requires lent { P.lent depot.old path.now ≡ (P.Data.faults first, P.Info.faults second) }
    requires sound { IsTrue W.told → IsTrue P.Data.told → AllSound W.files path.now (IsImage (P.Data.seen first).now) (IsMain (P.Info.seen second).now) }
    ensures sees { IsTrue P.Data.told → IfOk result (Sees (P.home_main depot.new path.now)) }
    ensures here { IfOk result (λ looked. is_away looked ≡ false) }
    ensures mains { IsTrue P.Data.told → (main : Option (List ℕ)) → P.home_main depot.new path.now main → IsMain (P.Info.seen second).now main ⊎ (main ≡ None) }
    ensures kept { IsTrue P.Data.told → IsCached (IsMain (P.Info.seen second).now) → Fewer (IsImage (P.Data.seen first).now) (P.home_data depot.new path.now) × Fewer (IsMain (P.Info.seen second).now) (P.home_main depot.new path.now) }
    ensures sound { IsTrue W.told → IsTrue P.Data.told → AllSound W.files path.now (P.home_data depot.new path.now) (P.home_main depot.new path.now) }
    ensures elsewhere { IsTrue P.Data.told → SameElsewhere path.now (P.home_data depot.old) (P.home_main depot.old) (P.home_data depot.new) (P.home_main depot.new) }
    ensures out { Loses path.now (P.out depot.old) (P.out depot.new) }
    ensures lent { (other : List ℕ) → other ≢ path.now → P.lent depot.new other ≡ P.lent depot.old other }
    ensures cause { LookCause (P.faults depot.old) (P.faults depot.new) result }
    ensures unlisted { P.unlisted depot.new ≡ P.unlisted depot.old }
{
    let surveyed = survey::<W, P::Data, P::Info>(alloc, &mut first, &mut second);
    let _first = first.faults();
    let _second = second.faults();
    let _is_back = depot.put_back(path, first, second);
    weigh(surveyed)
}

/// Takes the volume of a path, where it is home, reads it, and puts it back.
fn look<W: World, P: Depot<W>>(alloc: Global, depot: &mut P, path: &Path) -> Result<Looked, Memory>
    requires { IsSoundAtHome W.told P.Data.told W.files (P.home_data depot.old) (P.home_main depot.old) }
    ensures sees { IsTrue P.Data.told → IfOk result (Sees (P.home_main depot.new path.now)) }
    ensures away { IfOk result (λ looked. IsTrue (is_away looked) ↔ Contains (P.out depot.old) path.now) }
    ensures mains { IsTrue P.Data.told → KeepsMains (P.home_main depot.old) (P.home_main depot.new) }
    ensures kept { IsTrue P.Data.told → KeepsCached (P.home_data depot.old) (P.home_main depot.old) (P.home_data depot.new) (P.home_main depot.new) }
    ensures sound { IsSoundAtHome W.told P.Data.told W.files (P.home_data depot.new) (P.home_main depot.new) }
    ensures elsewhere { IsTrue P.Data.told → SameElsewhere path.now (P.home_data depot.old) (P.home_main depot.old) (P.home_data depot.new) (P.home_main depot.new) }
    ensures out { StaysOut (P.out depot.old) (P.lent depot.old) (P.out depot.new) (P.lent depot.new) }
    ensures cause { LookCause (P.faults depot.old) (P.faults depot.new) result }
    ensures unlisted { P.unlisted depot.new ≡ P.unlisted depot.old }
{
    match depot.take(alloc, path) {
        Taken::Volume(first, second) => read_home::<W, P>(alloc, depot, path, first, second),
        Taken::Out => Ok(Looked::Out),
        Taken::Fault => Ok(Looked::Broken),
        Taken::Memory => Err(Memory),
    }
}

/// Enters what was seen of a volume.
fn enter(catalog: &mut Catalog, path: &Path, looked: Looked) -> Result<(), Memory>
    requires { entry_at path.now catalog.old.entries ≡ None }
    ensures ok { OnOk result (catalog.new ≡ record catalog.old { entries = put path.now (entry_of looked) catalog.old.entries }) }
    ensures err { OnErr result (catalog.new ≡ catalog.old) }
{
    match looked {
        Looked::Out => catalog.learn(path, 0, 0, true),
        Looked::Broken => catalog.learn(path, 0, 0, true),
        Looked::Known { usage, last } => catalog.learn(path, usage, last, false),
    }
}

/// Looks at the volumes of these paths, and enters each in a fresh catalog.
fn look_at_all<W: World, P: Depot<W>>(
    alloc: Global,
    depot: &mut P,
    paths: &[Path],
) -> Result<Catalog, Memory>
    requires order { InByteOrder paths.now }
    requires sound { IsSoundAtHome W.told P.Data.told W.files (P.home_data depot.old) (P.home_main depot.old) }
    ensures keys { IfOk result (λ catalog. keys_of catalog.entries ≡ paths.now) }
    ensures found { IfOk result (λ catalog. (path : List ℕ) (e : found.Entry) → entry_at path catalog.entries ≡ Some e → IsFoundAs P.Data.told (P.home_main depot.new path) (Contains (P.out depot.old) path) e) }
    ensures instances { IfOk result (λ catalog. (catalog.next ≡ 0) × ((s : ℕ) → holder s catalog.entries ≡ None)) }
    ensures broken { IfOk result (λ catalog. RoseBy (P.faults depot.old) (broken_in (P.out depot.old) catalog.entries) (P.faults depot.new)) }
    ensures mains { IsTrue P.Data.told → KeepsMains (P.home_main depot.old) (P.home_main depot.new) }
    ensures kept { IsTrue P.Data.told → KeepsCached (P.home_data depot.old) (P.home_main depot.old) (P.home_data depot.new) (P.home_main depot.new) }
    ensures sound { IsSoundAtHome W.told P.Data.told W.files (P.home_data depot.new) (P.home_main depot.new) }
    ensures out { StaysOut (P.out depot.old) (P.lent depot.old) (P.out depot.new) (P.lent depot.new) }
    ensures faults { P.faults depot.old ≤ P.faults depot.new }
    ensures unlisted { P.unlisted depot.new ≡ P.unlisted depot.old }
{
    let mut catalog = Catalog::new(alloc);
    for path in paths {
        let looked = look::<W, P>(alloc, depot, path)?;
        enter(&mut catalog, path, looked)?;
    }
    Ok(catalog)
}

/// Lists a depot, and enters each volume in a catalog. A main file that is no cinfo is removed, and then its data. A volume that is out
/// or couldn't be read is marked; each that was taken is home again, whatever the answer. `Fault` comes where the listing failed.
pub fn scan<W: World, P: Depot<W>>(alloc: Global, depot: &mut P) -> Result<Catalog, ScanRefusal>
    requires { IsSoundAtHome W.told P.Data.told W.files (P.home_data depot.old) (P.home_main depot.old) }
    // Each path once, in the order of their bytes.
    ensures order { IfOk result (λ catalog. InByteOrder (keys_of catalog.entries)) }
    ensures all { IsTrue P.Data.told → IfOk result (λ catalog. (path : List ℕ) → HasVolume (P.home_data depot.old path) (P.home_main depot.old path) → IsSome (entry_at path catalog.entries)) }
    ensures only { IsTrue P.Data.told → IfOk result (λ catalog. (path : List ℕ) → IsSome (entry_at path catalog.entries) → HasVolume (P.home_data depot.old path) (P.home_main depot.old path) ⊎ Contains (P.out depot.old) path) }
    ensures found { IfOk result (λ catalog. (path : List ℕ) (e : found.Entry) → entry_at path catalog.entries ≡ Some e → IsFoundAs P.Data.told (P.home_main depot.new path) (Contains (P.out depot.old) path) e) }
    ensures broken { IfOk result (λ catalog. RoseBy (P.faults depot.old) (broken_in (P.out depot.old) catalog.entries) (P.faults depot.new)) }
    ensures instances { IfOk result (λ catalog. (catalog.next ≡ 0) × ((s : ℕ) → holder s catalog.entries ≡ None)) }
    ensures mains { IsTrue P.Data.told → KeepsMains (P.home_main depot.old) (P.home_main depot.new) }
    ensures kept { IsTrue P.Data.told → KeepsCached (P.home_data depot.old) (P.home_main depot.old) (P.home_data depot.new) (P.home_main depot.new) }
    ensures sound { IsSoundAtHome W.told P.Data.told W.files (P.home_data depot.new) (P.home_main depot.new) }
    ensures out { StaysOut (P.out depot.old) (P.lent depot.old) (P.out depot.new) (P.lent depot.new) }
    ensures faults { P.faults depot.old ≤ P.faults depot.new }
    ensures cause { ScanCause (P.unlisted depot.old) (P.unlisted depot.new) result }
{
    let paths = match depot.list(alloc) {
        Ok(paths) => paths,
        Err(Refusal::Fault) => return Err(ScanRefusal::Fault),
        Err(Refusal::Memory) => return Err(ScanRefusal::Memory),
    };
    match look_at_all::<W, P>(alloc, depot, &paths) {
        Ok(catalog) => Ok(catalog),
        Err(Memory) => Err(ScanRefusal::Memory),
    }
}
