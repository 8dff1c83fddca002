// Sets of paths.
ghost use Rattle.std.specs.Prelude.{◌≡◌, ◌↔◌, Contains, IsTrue, IfOk, OnErr, OnOk, false};
ghost use Rattle.std.specs.BTreeSet.{keys};
ghost use Rattle.std.specs.Cmp.Lexicographic.{slice_cmp};
ghost use Rattle.std.specs.List.Sorted.{IsStrictlySortedBy};
ghost use Rattle.std.specs.Ordering.{nat_cmp};
ghost use Rattle.pfc_world.specs.Depot.{Gains, InByteOrder, Loses};

use pfc_base::{Memory, Path};
use std::alloc::{AllocError, Global};
use std::collections::BTreeSet;

/// The path is one of them.
pub(crate) fn has(paths: &BTreeSet<Path>, path: &Path) -> bool
    ensures { IsTrue result ↔ Contains (keys paths.now) path.now }
{
    paths.contains(path)
}

/// Puts a path in that isn't one of them.
pub(crate) fn put(paths: &mut BTreeSet<Path>, path: &Path) -> Result<(), Memory>
    requires { ¬ Contains (keys paths.old) path.now }
    ensures gains { OnOk result (Gains path.now (keys paths.old) (keys paths.new)) }
    ensures same { OnErr result (keys paths.new ≡ keys paths.old) }
{
    match paths.insert(path.copy()) {
        Ok(_) => Ok(()),
        Err(_) => Err(Memory),
    }
}

/// Takes a path out; it is false where it isn't one of them.
pub(crate) fn remove(paths: &mut BTreeSet<Path>, path: &Path) -> bool
    ensures answer { IsTrue result ↔ Contains (keys paths.old) path.now }
    ensures loses { IsTrue result → Loses path.now (keys paths.old) (keys paths.new) }
    ensures same { result ≡ false → keys paths.new ≡ keys paths.old }
{
    paths.remove(path)
}

/// The paths of a set, as the set has them.
fn listed(alloc: Global, paths: BTreeSet<Path>) -> Result<Vec<Path>, AllocError>
    ensures all { IfOk result (λ list. list.items ≡ keys paths) }
    ensures sorted { IsStrictlySortedBy (slice_cmp nat_cmp) (keys paths) }
{
    paths.into_iter().collect(alloc)
}

/// The paths of a set in byte order.
pub(crate) fn in_order(alloc: Global, paths: BTreeSet<Path>) -> Result<Vec<Path>, AllocError>
    ensures order { IfOk result (λ list. InByteOrder list.items) }
    ensures all { IfOk result (λ list. list.items ≡ keys paths) }
{
    let list = listed(alloc, paths)?;
    Ok(list)
}
