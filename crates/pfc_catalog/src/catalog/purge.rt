// Which file a purge takes next.
ghost use Rattle.std.specs.Prelude.{◌≡◌, ◌<◌, ◌+◌, ℕ, List, IfSome, IfNone, Some, None, true, slice_get, length};
ghost use Rattle.std.specs.List.{IsDistinct};
ghost use Rattle.std.specs.Map.{keys_of};
ghost use Rattle.std.specs.Ordering.{is_lt};
ghost use Rattle.pfc_catalog.specs.Files.{same_path};
ghost use Rattle.pfc_catalog.specs.Purge.{Takes, IsFirst, HasNoCandidate, purge_cmp};
ghost use Rattle.pfc_catalog.specs.Best.{IsBest};
ghost use Rattle.pfc_catalog.specs.Order.{IsNoted};

use crate::catalog::{Catalog, Victim};
use crate::entry::{Entry, State};
use crate::files::Files;
use crate::order::Order;
use pfc_base::Path;
use std::cmp::Ordering;

/// Whether a purge takes the first file before the second.
pub(crate) fn is_before(path: &Path, entry: Entry, other: &Path, than: Entry) -> bool
    ensures { result ≡ is_lt (purge_cmp (path.now, entry) (other.now, than)) }
{
    match entry.last.cmp(&than.last) {
        Ordering::Less => true,
        Ordering::Equal => path < other,
        Ordering::Greater => false,
    }
}

/// The better of the best one so far and the file at a place.
fn better(files: &Files, best: Option<usize>, place: usize) -> Option<usize>
    requires within { place < length files.now }
    requires best { IsBest files.now place best }
    ensures { IsBest files.now (place + 1) result }
{
    let Some((path, entry)) = files.at(place) else {
        return best;
    };
    if !entry.is_candidate() {
        return best;
    }
    let Some(other) = best else {
        return Some(place);
    };
    let Some((other_path, than)) = files.at(other) else {
        return best;
    };
    if is_before(path, entry, other_path, than) {
        return Some(place);
    }
    best
}

/// The place of the file that a purge takes next.
fn first_place(files: &Files) -> Option<usize>
    ensures best { IsBest files.now (length files.now) result }
    ensures distinct { IsDistinct same_path (keys_of files.now) }
{
    let mut best = None;
    for place in 0..files.len() {
        best = better(files, best, place);
    }
    best
}

/// The file that a purge takes next, and its place, by a look at each file.
fn first_searched(files: &Files) -> Option<(usize, Path, Entry)>
    ensures some { IfSome result (λ v. (slice_get files.now v.0 ≡ Some (v.1, v.2)) × IsFirst files.now v.1 v.2) }
    ensures none { IfNone result (HasNoCandidate files.now) }
{
    let place = first_place(files)?;
    let (path, entry) = files.at(place)?;
    Some((place, path.copy(), entry))
}

/// The same by the notes, where they are whole.
fn first_noted(files: &Files, order: &Order) -> Option<(usize, Path, Entry)>
    requires whole { order.now.whole ≡ true }
    requires noted { IsNoted files.now order.now }
    ensures some { IfSome result (λ v. (slice_get files.now v.0 ≡ Some (v.1, v.2)) × IsFirst files.now v.1 v.2) }
    ensures none { IfNone result (HasNoCandidate files.now) }
{
    let key = order.first()?;
    let (place, entry) = files.find(&key.1)?;
    Some((place, key.1.copy(), entry))
}

impl Catalog {
    /// The file that a purge takes next, and its place.
    fn first_candidate(&self) -> Option<(usize, Path, Entry)>
        ensures some { IfSome result (λ v. (slice_get self.now.entries v.0 ≡ Some (v.1, v.2)) × IsFirst self.now.entries v.1 v.2) }
        ensures none { IfNone result (HasNoCandidate self.now.entries) }
    {
        if self.order.is_whole() {
            return first_noted(&self.files, &self.order);
        }
        first_searched(&self.files)
    }

    /// Names the next file that a purge removes, and holds it until `gone` or `kept`. None is named where the usage is
    /// at most the low mark, in bytes.
    pub fn take_victim(&mut self, low: u64) -> Victim
        ensures { Takes low self.old result self.new }
    {
        let usage = self.usage();
        if usage <= low {
            return Victim::Enough { usage, low };
        }
        let Some((place, path, was)) = self.first_candidate() else {
            return Victim::NoneLeft;
        };
        self.put(&path, place, was, was.with(State::Victim));
        Victim::Take(path)
    }
}
