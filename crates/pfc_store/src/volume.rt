// Calls on the devices of a volume that isn't open, each with the count around the call that failed.
ghost use Rattle.std.specs.Prelude.{◌≡◌, ℕ, List, Option, true, is_ok, IsTrue, IfOk, MatchOption};
ghost use Rattle.pfc_world.specs.Disk.{Clear};
ghost use Rattle.pfc_world.specs.Info.{IsMain, bytes_of};
ghost use Rattle.pfc_store.specs.Claims.{Says};
ghost use Rattle.pfc_store.specs.Volume.{KeepsImages, KeepsMains, TakesMain, IsGone, SaysNothing, Judges, BreaksAt, RefusedAt};

use crate::{Broken, SurveyRefusal};
use pfc_base::Memory;
use pfc_cinfo::{Cinfo, DecodeRefusal, decode};
use pfc_world::{DataDev, Fault, InfoDev, Refusal, World};
use std::alloc::Global;

/// Syncs the data.
pub(crate) fn sync<W: World, D: DataDev<W>>(first: &mut D) -> Result<(), Broken>
    ensures images { IsTrue D.told → KeepsImages (D.seen first.old) (D.seen first.new) }
    ensures cause { BreaksAt (D.faults first.old) (D.faults first.new) result }
{
    let before = first.faults();
    if let Err(Fault) = first.sync() {
        let after = first.faults();
        return Err(Broken { before, after });
    }
    Ok(())
}

/// Has a crash leave the main file that a read gives, and no other.
pub(crate) fn settle<W: World, I: InfoDev<W>>(second: &mut I) -> Result<(), Broken>
    ensures mains { IsTrue I.told → KeepsMains (I.seen second.old) (I.seen second.new) }
    ensures shown { IsTrue I.told → (I.seen second.new).now.shown ≡ (I.seen second.old).now.shown }
    ensures one { is_ok result ≡ true → IsTrue I.told → (main : Option (List ℕ)) → IsMain (I.seen second.new).now main → main ≡ (I.seen second.old).now.shown }
    ensures settled { is_ok result ≡ true → IsTrue I.told → IsTrue (I.seen second.new).now.settled }
    ensures cause { BreaksAt (I.faults second.old) (I.faults second.new) result }
{
    let before = second.faults();
    if let Err(Fault) = second.settle() {
        let after = second.faults();
        return Err(Broken { before, after });
    }
    Ok(())
}

/// Takes the main file away.
pub(crate) fn remove<W: World, I: InfoDev<W>>(second: &mut I) -> Result<(), Broken>
    requires { IsTrue I.told → IsTrue (I.seen second.old).now.settled }
    ensures mains { IsTrue I.told → TakesMain (I.seen second.old) (I.seen second.new) }
    ensures gone { is_ok result ≡ true → IsTrue I.told → IsGone (I.seen second.new).now }
    ensures settled { is_ok result ≡ true → IsTrue I.told → IsTrue (I.seen second.new).now.settled }
    ensures cause { BreaksAt (I.faults second.old) (I.faults second.new) result }
{
    let before = second.faults();
    if let Err(Fault) = second.remove() {
        let after = second.faults();
        return Err(Broken { before, after });
    }
    Ok(())
}

/// Takes the data away, where no crash leaves a main file.
pub(crate) fn clear<W: World, D: DataDev<W>, I: InfoDev<W>>(
    first: &mut D,
    second: &I,
) -> Result<(), Broken>
    requires { IsTrue I.told → IsGone (I.seen second.now).now }
    ensures clears { IsTrue D.told → Clear (is_ok result) (D.seen first.old) (D.seen first.new) }
    ensures cause { BreaksAt (D.faults first.old) (D.faults first.new) result }
{
    let _ = second;
    let before = first.faults();
    if let Err(Fault) = first.clear() {
        let after = first.faults();
        return Err(Broken { before, after });
    }
    Ok(())
}

/// What a main file says, where it is a cinfo.
fn read_bytes(alloc: Global, main: &Option<Vec<u8>>) -> Result<Option<Cinfo>, Memory>
    ensures { IfOk result (λ found. MatchOption found (SaysNothing (bytes_of main.now)) (λ cinfo. Says (bytes_of main.now) cinfo)) }
{
    let Some(bytes) = main else {
        return Ok(None);
    };
    match decode(alloc, bytes) {
        Ok(cinfo) => Ok(Some(cinfo)),
        Err(DecodeRefusal::Damaged(_)) => Ok(None),
        Err(DecodeRefusal::Memory) => Err(Memory),
    }
}

/// What the main file says, where it is a cinfo.
fn read_cinfo<W: World, I: InfoDev<W>>(
    alloc: Global,
    second: &mut I,
) -> Result<Option<Cinfo>, SurveyRefusal>
    ensures found { IfOk result (λ found. IsTrue I.told → MatchOption found (SaysNothing (I.seen second.old).now.shown) (λ cinfo. Says (I.seen second.old).now.shown cinfo)) }
    ensures same { IsTrue I.told → I.seen second.new ≡ I.seen second.old }
    ensures cause { RefusedAt (I.faults second.old) (I.faults second.new) result }
{
    let before = second.faults();
    let main = match second.read_main(alloc) {
        Ok(main) => main,
        Err(Refusal::Memory) => return Err(SurveyRefusal::Memory),
        Err(Refusal::Fault) => {
            let after = second.faults();
            return Err(SurveyRefusal::Device(Broken { before, after }));
        }
    };
    match read_bytes(alloc, &main) {
        Ok(found) => Ok(found),
        Err(Memory) => Err(SurveyRefusal::Memory),
    }
}

/// Settles the main file and reads it.
pub(crate) fn judge<W: World, I: InfoDev<W>>(
    alloc: Global,
    second: &mut I,
) -> Result<Option<Cinfo>, SurveyRefusal>
    ensures found { IfOk result (λ found. IsTrue I.told → Judges (I.seen second.old).now.shown (I.seen second.new).now found) }
    ensures mains { IsTrue I.told → KeepsMains (I.seen second.old) (I.seen second.new) }
    ensures settled { is_ok result ≡ true → IsTrue I.told → IsTrue (I.seen second.new).now.settled }
    ensures cause { RefusedAt (I.faults second.old) (I.faults second.new) result }
{
    match settle(second) {
        Ok(()) => {}
        Err(broken) => return Err(SurveyRefusal::Device(broken)),
    }
    let found = read_cinfo(alloc, second)?;
    Ok(found)
}
