// A set of block numbers, kept in words of 64 bits. Contracts see it as a list of tests, as long as its bound.
ghost use Rattle.std.specs.Prelude.{◌≡◌, ◌↔◌, ◌+◌, ◌*◌, ◌/◌, ◌<◌, ◌≤◌, ◌++◌, ℕ, List, true, false, not, length, replicate, slice_set, count_by, IsTrue, IfOk, OnOk, OnErr, MatchOption};
ghost use Rattle.pfc_base.specs.BlockSet.{is_member, IsWithin, IsBitmap, HasPadding, AreWords, AreRuns};
ghost use Rattle.pfc_base.specs.Words.{IsFirst};

use crate::Memory;
use crate::words::{append_bytes, below, first_place, first_zero, ones, words_of, words_within};
use std::alloc::Global;
use std::marker::Model;

/// A set of numbers below a bound that is fixed when it is made.
#[derive(Drop)]
pub struct BlockSet {
    words: Vec<u64>,
    bound: u32,
}

impl Model for BlockSet {
    ghost use Rattle.std.specs.Prelude.{List, Bool};
    ghost use Rattle.pfc_base.specs.BlockSet.{members_of, AreKept};

    ghost Value = { List Bool };

    ghost view = { λ s. members_of s.words.items s.bound };

    ghost invariant = { λ s. AreKept s.words.items s.bound };
}

impl BlockSet {
    /// The empty set of numbers below `count`.
    pub fn new(alloc: Global, count: u32) -> Result<BlockSet, Memory>
        ensures { IfOk result (λ set. set ≡ replicate count false) }
    {
        let words = vec![in alloc; 0; count.div_ceil(64) as usize]?;
        Ok(BlockSet {
            words,
            bound: count,
        })
    }

    /// Puts a number into the set.
    pub fn set(&mut self, i: u32)
        requires { i < length self.old }
        ensures { self.new ≡ slice_set self.old i true }
    {
        self.words[(i / 64) as usize] |= 1 << (i % 64);
    }

    /// Whether a number is in the set.
    pub fn test(&self, i: u32) -> bool
        requires { i < length self.now }
        ensures { result ≡ is_member self.now i }
    {
        (self.words[(i / 64) as usize] >> (i % 64)) & 1 == 1
    }

    /// How many numbers are in the set.
    pub fn count(&self) -> u32
        ensures { result ≡ count_by (λ member. member) self.now }
    {
        ones(&self.words) as u32
    }

    /// The number that all members are below.
    pub fn bound(&self) -> u32
        ensures { result ≡ length self.now }
    {
        self.bound
    }

    /// An equal set.
    pub fn copy(&self, alloc: Global) -> Result<BlockSet, Memory>
        ensures { IfOk result (λ set. set ≡ self.now) }
    {
        let words = self.words.to_vec(alloc)?;
        Ok(BlockSet {
            words,
            bound: self.bound,
        })
    }

    /// Makes it equal to another.
    pub fn copy_from(&mut self, other: &BlockSet)
        requires { length self.old ≡ length other.now }
        ensures { self.new ≡ other.now }
    {
        self.words.copy_from_slice(&other.words);
    }

    /// Whether both have the same members.
    pub fn equals(&self, other: &BlockSet) -> bool
        requires { length self.now ≡ length other.now }
        ensures { IsTrue result ↔ (self.now ≡ other.now) }
    {
        self.words == other.words
    }

    /// Whether each member is in the other set.
    pub fn is_within(&self, other: &BlockSet) -> bool
        requires { length self.now ≡ length other.now }
        ensures { IsTrue result ↔ IsWithin self.now other.now }
    {
        words_within(&self.words, &other.words)
    }

    /// The words in which the set is kept, 64 numbers each: the low word first, and in a word the low bit.
    pub fn words(&self) -> &[u64]
        ensures { AreWords result.now self.now }
    {
        &self.words
    }

    /// The least number that is not in the set and not below `from`.
    pub fn first_absent(&self, from: u32) -> Option<u32>
        ensures { IsFirst (λ i. not (is_member self.now i)) from (length self.now) result }
    {
        below(first_zero(&self.words, u64::from(from)), self.bound)
    }

    fn first_member(&self, from: u32) -> Option<u32>
        ensures { IsFirst (λ i. is_member self.now i) from (length self.now) result }
    {
        below(first_place(&self.words, u64::from(from), true), self.bound)
    }

    /// The longest runs of numbers that are in the set, each its first and its last, in order.
    pub fn runs(&self, alloc: Global) -> Result<Vec<(u32, u32)>, Memory>
        ensures { IfOk result (λ runs. AreRuns runs.items self.now) }
    {
        let mut runs = Vec::new(alloc);
        let mut from = 0;
        while let Some(first) = self.first_member(from) {
            let end = self.first_absent(first).unwrap_or(self.bound());
            runs.push((first, end - 1))?;
            from = end;
        }
        Ok(runs)
    }

    /// Appends the set's bitmap: a bit for each number below the bound, low bit first, and no set bit after them.
    pub fn bytes_into(&self, into: &mut Vec<u8>) -> Result<(), Memory>
        ensures ok { OnOk result ((bytes : List ℕ) × (into.new.items ≡ into.old.items ++ bytes) × IsBitmap bytes self.now) }
        ensures err { OnErr result (into.new.items ≡ into.old.items) }
    {
        append_bytes(&self.words, self.bound.div_ceil(8) as usize, into)?;
        Ok(())
    }

    /// The set below a bound that has this bitmap, or `None` where a bit past the bound is set.
    pub fn from_bitmap(alloc: Global, bytes: &[u8], bound: u32) -> Result<Option<BlockSet>, Memory>
        requires { length bytes.now ≡ (bound + 7) / 8 }
        ensures { IfOk result (λ set. MatchOption set (HasPadding bytes.now bound) (λ s. (length s ≡ bound) × IsBitmap bytes.now s)) }
    {
        let words = words_of(alloc, bytes)?;
        if first_place(&words, u64::from(bound), true).is_some() {
            return Ok(None);
        }
        Ok(Some(BlockSet { words, bound }))
    }
}

#[cfg(test)]
mod tests {
    use super::*;
    use std::test::Fail;

    /// The numbers 0 to 127 and 129, below 130.
    fn all_but_128(alloc: Global) -> Result<BlockSet, Memory>
        ensures { IfOk result (λ set. length set ≡ 130) }
    {
        let mut set = BlockSet::new(alloc, 130)?;
        for i in 0..128 {
            set.set(i);
        }
        set.set(129);
        Ok(set)
    }

    #[test]
    fn keeps_its_numbers_in_words(rt: HostRuntime) -> Result<(), Fail> {
        let set = all_but_128(rt.alloc())?;
        assert_eq!(rt; set.words(), [u64::MAX, u64::MAX, 2].as_slice());
        assert_eq!(rt; set.count(), 129);
        assert!(rt; set.test(127) && !set.test(128));
        Ok(())
    }

    #[test]
    fn finds_runs_and_the_gap(rt: HostRuntime) -> Result<(), Fail> {
        let set = all_but_128(rt.alloc())?;
        let runs = set.runs(rt.alloc())?;
        assert_eq!(rt; runs.as_slice(), [(0, 127), (129, 129)].as_slice());
        assert_eq!(rt; set.first_absent(0), Some(128));
        assert_eq!(rt; set.first_absent(129), None);
        Ok(())
    }

    #[test]
    fn goes_through_its_bitmap(rt: HostRuntime) -> Result<(), Fail> {
        let set = all_but_128(rt.alloc())?;
        let copy = set.copy(rt.alloc())?;
        let mut bytes = Vec::new(rt.alloc());
        copy.bytes_into(&mut bytes)?;
        assert_eq!(rt; bytes.len(), 17);
        assert!(rt; bytes[..16] == [255; 16] && bytes[16] == 2);
        let back = BlockSet::from_bitmap(rt.alloc(), &bytes, 130)?.ok_or("padding")?;
        assert_eq!(rt; back.bound(), 130);
        assert!(rt; back.equals(&set));
        bytes[16] = 4;
        assert!(rt; BlockSet::from_bitmap(rt.alloc(), &bytes, 130)?.is_none());
        Ok(())
    }
}
