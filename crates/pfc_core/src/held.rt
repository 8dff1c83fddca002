// The tokens of one kind that are out, by number. Contracts see the list of what is kept of each, and for how many more
// there is room.
ghost use Rattle.std.specs.Prelude.{◌≡◌, ◌+◌, ◌<◌, ◌≤◌, ◌^◌, ℕ, [], true, false, length, IsTrue, OnOk, OnErr, MatchBool, count_by, sum_by};
ghost use Rattle.pfc_core.specs.Held.{is_held, Takes, Puts};

use indexmap::IndexMap;
use pfc_base::Memory;
use std::alloc::Global;
use std::marker::Model;

/// What a core keeps of a token that is out: its number, whose it is, the block and the flight that it is about, and the
/// client that began the flight; 0 for those of no block.
#[derive(Clone, Copy, Debug, PartialEq, Eq)]
pub(crate) struct Held {
    pub number: u64,
    pub client: u32,
    pub block: u32,
    pub flight: u64,
    pub owner: u32,
}

/// Whether both are one token.
pub(crate) fn is_same(held: Held, found: Held) -> bool
    ensures { result ≡ is_held held found }
{
    found.number == held.number
        && found.client == held.client
        && found.block == held.block
        && found.flight == held.flight
        && found.owner == held.owner
}

#[derive(Drop)]
pub(crate) struct Tokens {
    held: IndexMap<u64, Held>,
    next: u64,
}

impl Model for Tokens {
    ghost use Rattle.pfc_core.specs.Held.{TokensView};

    ghost Value = { TokensView };

    ghost use Rattle.pfc_core.specs.Tokens.{tokens_of, IsNumbered};

    ghost view = { tokens_of };

    ghost invariant = { IsNumbered };
}

impl Tokens {
    pub fn new(alloc: Global) -> Tokens
        ensures { result.list ≡ [] }
    {
        Tokens {
            held: IndexMap::new(alloc),
            next: 0,
        }
    }

    pub fn len(&self) -> usize
        ensures len { result ≡ length self.now.list }
        ensures small { result < 2 ^ 63 }
    {
        self.held.len()
    }

    /// Takes room for one more. There is none once every number was given out.
    pub fn reserve(&mut self) -> Result<(), Memory>
        ensures list { self.new.list ≡ self.old.list }
        ensures ok { OnOk result (0 < self.new.room) }
    {
        if self.next == u64::MAX {
            return Err(Memory);
        }
        self.held.reserve(1)?;
        Ok(())
    }

    /// Gives out the next number.
    pub fn add(&mut self, client: u32, block: u32, flight: u64, owner: u32) -> Held
        requires { 0 < self.old.room }
        ensures added { Puts self.old.list result self.new.list }
        ensures client { result.client ≡ client }
        ensures block { result.block ≡ block }
        ensures flight { result.flight ≡ flight }
        ensures owner { result.owner ≡ owner }
    {
        let held = Held {
            number: self.next,
            client,
            block,
            flight,
            owner,
        };
        self.next += 1;
        let _ = self.held.insert(held.number, held);
        held
    }

    /// Whether such a token is out.
    pub fn has(&self, held: Held) -> bool
        ensures yes { IsTrue result → 0 < count_by (is_held held) self.now.list }
        ensures no { result ≡ false → count_by (is_held held) self.now.list ≡ 0 }
    {
        let Some(found) = self.held.get(&held.number) else {
            return false;
        };
        if is_same(held, *found) {
            return true;
        }
        false
    }

    /// Takes such a token out of the list, if it is there.
    pub fn take(&mut self, held: Held) -> bool
        ensures yes { IsTrue result → Takes held self.old.list self.new.list }
        ensures listed { IsTrue result → 0 < count_by (is_held held) self.old.list }
        ensures no { result ≡ false → count_by (is_held held) self.old.list ≡ 0 }
        ensures same { result ≡ false → self.new ≡ self.old }
    {
        let Some(found) = self.held.get(&held.number) else {
            return false;
        };
        if is_same(held, *found) {
            let _ = self.held.swap_remove(&held.number);
            return true;
        }
        false
    }
}
