// The candidates of a purge, in its order. A note of one takes memory; where that is refused, all notes are given up, and
// who wants the first candidate looks through all files from then on.
ghost use Rattle.std.specs.Prelude.{◌≡◌, ℕ, List, [], true, false, IfSome, IfNone};
ghost use Rattle.std.specs.Ordering.{is_lt};
ghost use Rattle.pfc_catalog.specs.Order.{key_cmp, is_key, has, without, with_it};

use crate::entry::Entry;
use pfc_base::Path;
use std::alloc::Global;
use std::collections::BTreeSet;
use std::marker::Model;

#[derive(Drop)]
pub(crate) struct Order {
    keys: BTreeSet<(u64, Path)>,
    whole: bool,
}

impl Model for Order {
    ghost use Rattle.pfc_catalog.specs.Order.{OrderView};

    ghost Value = { OrderView };

    ghost view = { λ o. record { keys = o.keys.keys; whole = o.whole } };
}

impl Order {
    pub fn new(alloc: Global) -> Order
        ensures { result ≡ record { keys = []; whole = true } }
    {
        Order {
            keys: BTreeSet::new(alloc),
            whole: true,
        }
    }

    /// Whether the notes are those of all candidates.
    pub fn is_whole(&self) -> bool
        ensures { result ≡ self.now.whole }
    {
        self.whole
    }

    /// The last access and the path of the first candidate.
    pub fn first(&self) -> Option<&(u64, Path)>
        ensures none { IfNone result ((key : ℕ × List ℕ) → has key self.now.keys ≡ false) }
        ensures there { IfSome result (λ k. has k.now self.now.keys ≡ true) }
        ensures first { IfSome result (λ k. (key : ℕ × List ℕ) → has key self.now.keys ≡ true → is_lt (key_cmp key k.now) ≡ false) }
    {
        self.keys.first()
    }

    /// The file at a path isn't a candidate any more.
    pub fn forget(&mut self, path: &Path, entry: Entry)
        ensures whole { self.new.whole ≡ self.old.whole }
        ensures keys { (key : ℕ × List ℕ) → has key self.new.keys ≡ without path.now entry key (has key self.old.keys) }
    {
        if !entry.is_candidate() {
            return;
        }
        let key = (entry.last, path.copy());
        let _ = self.keys.remove(&key);
    }

    /// The file at a path may be a candidate now.
    pub fn note(&mut self, path: &Path, entry: Entry)
        ensures whole { self.new.whole ≡ true → self.old.whole ≡ true }
        ensures keys { self.new.whole ≡ true → (key : ℕ × List ℕ) → has key self.new.keys ≡ with_it path.now entry key (has key self.old.keys) }
    {
        if !self.whole || !entry.is_candidate() {
            return;
        }
        let key = (entry.last, path.copy());
        if self.keys.insert(key).is_err() {
            self.keys.clear();
            self.whole = false;
        }
    }
}
