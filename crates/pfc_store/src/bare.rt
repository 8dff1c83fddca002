// Volumes that are emptied: the main file first, the data behind it.
ghost use Rattle.std.specs.Prelude.{◌≡◌, ◌≤◌, ℕ, true, List, is_ok, IsTrue, IfOk, IfErr};
ghost use Rattle.pfc_world.specs.Depot.{AllSound};
ghost use Rattle.pfc_world.specs.Disk.{IsImage, Clear};
ghost use Rattle.pfc_world.specs.Info.{IsMain};
ghost use Rattle.pfc_store.specs.Moments.{SoundSince};
ghost use Rattle.pfc_store.specs.Volume.{TakesMain, IsGone, BreaksAt, BreaksIn, pair_of};

use crate::Broken;
use crate::volume::{clear, remove, settle};
use pfc_world::{DataDev, InfoDev, World};
use std::marker::{Model, PhantomData};

/// A volume of which no crash leaves a main file, so that its data may be cleared.
#[derive(Drop)]
pub struct Bare<W: World, D: DataDev<W>, I: InfoDev<W>> {
    first: D,
    second: I,
    world: PhantomData<W>,
}

impl<W: World, D: DataDev<W>, I: InfoDev<W>> Model for Bare<W, D, I> {
    ghost use Rattle.std.specs.Prelude.{IsTrue};
    ghost use Rattle.pfc_store.specs.Views.{BareView};
    ghost use Rattle.pfc_store.specs.Volume.{IsGone};

    ghost Value = { BareView D I };

    ghost view = { λ b. record { first = b.first; second = b.second } };

    ghost invariant = { λ b. IsTrue I.told → IsGone (I.InfoDev.seen b.second).now };
}

/// A volume whose main file could not be taken away.
#[derive(Drop)]
pub struct Stripped<D, I> {
    pub first: D,
    pub second: I,
    pub broken: Broken,
}

fn take_main<W: World, I: InfoDev<W>>(second: &mut I) -> Result<(), Broken>
    ensures mains { IsTrue I.told → TakesMain (I.seen second.old) (I.seen second.new) }
    ensures gone { is_ok result ≡ true → IsTrue I.told → IsGone (I.seen second.new).now }
    ensures cause { BreaksAt (I.faults second.old) (I.faults second.new) result }
{
    settle(second)?;
    remove(second)
}

/// Takes the main file away, and leaves the data as it is.
pub fn strip<W: World, D: DataDev<W>, I: InfoDev<W>>(
    first: D,
    second: I,
) -> Result<Bare<W, D, I>, Stripped<D, I>>
    ensures first { (pair_of result).0 ≡ first }
    ensures mains { IsTrue I.told → TakesMain (I.seen second) (I.seen (pair_of result).1) }
    ensures gone { IfOk result (λ bare. IsTrue I.told → IsGone (I.seen bare.second).now) }
    ensures sound { (path : List ℕ) → IsTrue I.told → AllSound W.files path (IsImage (D.seen first).now) (IsMain (I.seen second).now) → SoundSince W.files path (D.seen first) (D.seen (pair_of result).0) (I.seen second) (I.seen (pair_of result).1) }
    ensures broken { IfErr result (λ stripped. BreaksIn (I.faults second) (I.faults stripped.second) stripped.broken) }
    ensures faults { I.faults second ≤ I.faults (pair_of result).1 }
{
    let mut second = second;
    match take_main(&mut second) {
        Ok(()) => Ok(Bare {
            first,
            second,
            world: PhantomData,
        }),
        Err(broken) => Err(Stripped {
            first,
            second,
            broken,
        }),
    }
}

impl<W: World, D: DataDev<W>, I: InfoDev<W>> Bare<W, D, I> {
    /// Takes the data away.
    pub fn clear(&mut self) -> Result<(), Broken>
        ensures second { self.new.second ≡ self.old.second }
        ensures clears { IsTrue D.told → Clear (is_ok result) (D.seen self.old.first) (D.seen self.new.first) }
        ensures sound { (path : List ℕ) → IsTrue I.told → SoundSince W.files path (D.seen self.old.first) (D.seen self.new.first) (I.seen self.old.second) (I.seen self.new.second) }
        ensures cause { BreaksAt (D.faults self.old.first) (D.faults self.new.first) result }
    {
        clear(&mut self.first, &self.second)
    }

    /// Its devices.
    pub fn parts(self) -> (D, I)
        ensures first { result.0 ≡ self.first }
        ensures second { result.1 ≡ self.second }
        ensures gone { IsTrue I.told → IsGone (I.seen result.1).now }
    {
        let Bare { first, second, .. } = self;
        (first, second)
    }
}
