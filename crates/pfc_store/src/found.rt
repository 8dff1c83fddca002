// What is found of a volume whose path nobody has opened.
ghost use Rattle.std.specs.Prelude.{◌≡◌, ◌⊎◌, ◌≤◌, ℕ, List, true, is_ok, IsTrue, IfOk};
ghost use Rattle.pfc_base.specs.Cinfo as said;
ghost use Rattle.pfc_world.specs.Depot.{AllSound};
ghost use Rattle.pfc_world.specs.Disk.{IsImage};
ghost use Rattle.pfc_world.specs.Info.{IsMain, MainSince};
ghost use Rattle.pfc_world.specs.Run.{moment};
ghost use Rattle.pfc_store.specs.Claims.{Says};
ghost use Rattle.pfc_store.specs.Volume.{KeepsMains, TakesMain, IsGone, Finds, EmptiesData, SurveysData, EmptyCause, SurveyCause};

use crate::volume::{clear, judge, remove};
use crate::{Broken, SurveyRefusal};
use pfc_cinfo::Cinfo;
use pfc_world::{DataDev, InfoDev, World};
use std::alloc::Global;

/// What a survey found.
#[derive(Drop)]
pub enum Found {
    /// The main file is a cinfo. It and the data are as they were.
    Valid(Cinfo),
    /// There was no main file or one that is no cinfo. There is none now, and no data.
    Cleared,
}

/// Takes the main file away, and then the data.
fn empty<W: World, D: DataDev<W>, I: InfoDev<W>>(
    first: &mut D,
    second: &mut I,
) -> Result<(), Broken>
    requires { IsTrue I.told → IsTrue (I.seen second.old).now.settled }
    ensures mains { IsTrue I.told → TakesMain (I.seen second.old) (I.seen second.new) }
    ensures gone { is_ok result ≡ true → IsTrue I.told → IsGone (I.seen second.new).now }
    ensures order { IsTrue I.told → (first.new ≡ first.old) ⊎ IsGone (I.seen second.new).now }
    ensures clears { EmptiesData D.told D.seen first.old result first.new }
    ensures cause { EmptyCause (D.faults first.old) (D.faults first.new) (I.faults second.old) (I.faults second.new) result }
{
    match remove(second) {
        Ok(()) => {}
        Err(broken) => return Err(broken),
    }
    clear(first, second)
}

/// Reads the main file of a volume. Where it is no cinfo it is taken away, and then the data.
pub fn survey<W: World, D: DataDev<W>, I: InfoDev<W>>(
    alloc: Global,
    first: &mut D,
    second: &mut I,
) -> Result<Found, SurveyRefusal>
    ensures found { IfOk result (λ found. IsTrue I.told → Finds (I.seen second.old).now.shown (I.seen second.new).now found) }
    ensures mains { IsTrue I.told → TakesMain (I.seen second.old) (I.seen second.new) }
    // Where what it reads is a cinfo no other main file has come.
    ensures kept { (c : said.Cinfo) → IsTrue I.told → Says (I.seen second.old).now.shown c → KeepsMains (I.seen second.old) (I.seen second.new) }
    ensures data_device { SurveysData D.told D.seen first.old result first.new }
    // The main file is gone before the data is touched.
    ensures order { IsTrue I.told → (first.new ≡ first.old) ⊎ IsGone (I.seen second.new).now }
    ensures sound { (path : List ℕ) → IsTrue I.told → AllSound W.files path (IsImage (D.seen first.old).now) (IsMain (I.seen second.old).now) → AllSound W.files path (IsImage (D.seen first.old).now) (MainSince (I.seen second.new) (moment (I.seen second.old))) }
    ensures sound_now { (path : List ℕ) → IsTrue I.told → AllSound W.files path (IsImage (D.seen first.old).now) (IsMain (I.seen second.old).now) → AllSound W.files path (IsImage (D.seen first.new).now) (IsMain (I.seen second.new).now) }
    ensures cause { SurveyCause (D.faults first.old) (D.faults first.new) (I.faults second.old) (I.faults second.new) result }
{
    let found = match judge(alloc, second) {
        Ok(found) => found,
        Err(refusal) => return Err(refusal),
    };
    if let Some(cinfo) = found {
        return Ok(Found::Valid(cinfo));
    }
    match empty(first, second) {
        Ok(()) => Ok(Found::Cleared),
        Err(broken) => Err(SurveyRefusal::Device(broken)),
    }
}
