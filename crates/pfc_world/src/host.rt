ghost use Rattle.std.specs.Prelude.{◌≡◌, ◌+◌, ◌<◌, ◌≤◌, ◌++◌, ℕ, Bool, List, Some, length, take, IsTrue, IfOk, OnOk, OnErr};
ghost use Rattle.pfc_world.specs.Counts.{HasCause, RefusalCause, add_count};
ghost use Rattle.pfc_world.specs.Files.{file_at};
ghost use Rattle.pfc_world.specs.Texts.{Texts, Gives, Appends, SpentAt};

use crate::{Fault, Origin, Refusal, World};
use std::alloc::Global;

/// Bytes that come in.
pub trait Source: Drop {
    /// Whether it tells its bytes.
    ghost told: { Bool };

    /// How many reads failed.
    ghost faults: { Self → ℕ };

    /// The bytes that are left.
    ghost left: { Self → List ℕ };

    /// Puts bytes at the front of `into`, and says how many. 0 for a place that isn't empty is the end.
    fn read(&mut self, into: &mut [u8]) -> Result<usize, Fault>
        ensures cause { HasCause (faults self.old) (faults self.new) result }
        ensures count { IfOk result (λ n. n ≤ length into.old) }
        ensures bytes { IsTrue told → IfOk result (λ n. Gives (left self.old) (left self.new) (length into.old) n into.new) };
}

/// Bytes that go out.
pub trait Sink {
    /// Whether it tells its bytes.
    ghost told: { Bool };

    /// How many writes failed.
    ghost faults: { Self → ℕ };

    /// The bytes so far.
    ghost written: { Self → List ℕ };

    /// Takes at least one byte of a piece that isn't empty, from its front, and says how many.
    fn write(&mut self, from: &[u8]) -> Result<usize, Fault>
        ensures cause { HasCause (faults self.old) (faults self.new) result }
        ensures count { IfOk result (λ n. (n ≤ length from.now) × (0 < length from.now → 0 < n)) }
        ensures ok { IfOk result (λ n. Appends told (written self.old) (written self.new) (take n from.now)) }
        ensures err { OnErr result (IsTrue told → written self.new ≡ written self.old) };
}

/// Gives texts by name.
pub trait Sources {
    type Input: Source;

    /// Whether it tells its texts.
    ghost told: { Bool };

    /// The texts. They never change.
    ghost texts: { Self → Texts };

    /// How many calls failed, those on sources that came back included.
    ghost faults: { Self → ℕ };

    /// The calls and faults of the links that came back, by number.
    ghost spent: { Self → ℕ → ℕ × ℕ };

    /// A source with the text of a name. A name without a text is a fault.
    fn source(&mut self, alloc: Global, name: &str) -> Result<Self::Input, Refusal>
        ensures texts { texts self.new ≡ texts self.old }
        ensures spent { (n : ℕ) → spent self.new n ≡ spent self.old n }
        ensures cause { RefusalCause (faults self.old) (faults self.new) result }
        ensures fresh { IfOk result (λ input. Self.Input.faults input ≡ 0) }
        ensures told { IfOk result (λ input. IsTrue told → IsTrue Self.Input.told × (file_at (texts self.old) name.now ≡ Some (Self.Input.left input))) };

    /// Takes a source back, and adds its count of faults to the host's.
    fn done(&mut self, input: Self::Input)
        ensures texts { texts self.new ≡ texts self.old }
        ensures spent { (n : ℕ) → spent self.new n ≡ spent self.old n }
        ensures faults { faults self.new ≡ add_count (faults self.old) (Self.Input.faults input) };
}

/// Gives links to the origin of the world's files.
pub trait Host<W: World>: Sources {
    type Link: Origin<W> + Send;

    /// A fresh link of this number: 1 to 64 for a client, 0 for the prefetcher.
    fn link(&mut self, alloc: Global, number: u32) -> Result<Self::Link, Refusal>
        requires { number ≤ 64 }
        ensures texts { Self.texts self.new ≡ Self.texts self.old }
        ensures spent { (n : ℕ) → Self.spent self.new n ≡ Self.spent self.old n }
        ensures cause { RefusalCause (Self.faults self.old) (Self.faults self.new) result }
        ensures link { IfOk result (λ link. (Self.Link.number link ≡ number) × (Self.Link.calls link ≡ 0) × (Self.Link.faults link ≡ 0)) };

    /// Takes a link back, and adds what it counted to what its number has spent.
    fn back(&mut self, link: Self::Link)
        requires { Self.Link.number link ≤ 64 }
        ensures texts { Self.texts self.new ≡ Self.texts self.old }
        ensures faults { Self.faults self.new ≡ Self.faults self.old }
        ensures spent { (n : ℕ) → Self.spent self.new n ≡ SpentAt (Self.spent self.old) (Self.Link.number link) (Self.Link.calls link) (Self.Link.faults link) n };
}
