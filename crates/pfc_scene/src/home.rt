// How volumes go home at the end of a run.
ghost use Rattle.std.specs.Prelude.{◌≡◌, ℕ, IsTrue, List, []};
ghost use Rattle.pfc_world.specs.Counts.{RoseBy};
ghost use Rattle.pfc_core.specs.View.{CoreView};
ghost use Rattle.pfc_actor.specs.Backings.{depot_of, IsSoundAtHome};
ghost use Rattle.pfc_scene.specs.Ends.{PutsFrom};
ghost use Rattle.pfc_scene.specs.Scenes.{AreBackings, IsLentBy, all_charges, settled};

use pfc_actor::Backing;
use pfc_world::{Depot, World};

/// Puts all volumes home. Then the depot's count covers each failed call that the logs show.
pub(crate) fn put_all<W: World, P: Depot<W>>(depot: &mut P, mut backings: Vec<Backing<W, P>>)
    requires sound { IsSoundAtHome W.told P.Data.told W.files (P.home_data depot.old) (P.home_main depot.old) }
    requires lent { IsLentBy (depot_of P.out P.lent P.faults depot.old) backings.items }
    ensures sound { IsSoundAtHome W.told P.Data.told W.files (P.home_data depot.new) (P.home_main depot.new) }
    ensures home { P.out depot.new ≡ [] }
    ensures paid { (cores : List CoreView) → AreBackings cores backings.items → (f : ℕ) → RoseBy f (settled cores backings.items) (P.faults depot.old) → RoseBy f (all_charges cores) (P.faults depot.new) }
    ensures unlisted { P.unlisted depot.new ≡ P.unlisted depot.old }
    ensures mains { IsTrue P.Data.told → PutsFrom 0 backings.items (P.home_main depot.old) (P.home_main depot.new) }
{
    while let Some(mut backing) = backings.pop() {
        backing.put_back(depot);
        backing.discard();
    }
    backings.destroy_empty();
}
