// Sources and sinks in memory.
ghost use Rattle.std.specs.Prelude.{◌≡◌, ◌≤◌, ◌<◌, ◌++◌, [], ◌+◌, ◌⊎◌, length, drop, true, vec_len, vec_capacity, IsTrue, IfOk, IsErr, OnOk, OnErr};
ghost use Rattle.pfc_world.specs.Counts.{HasCause, add_count};
ghost use Rattle.pfc_world.specs.Texts.{Gives, Appends};
ghost use Rattle.pfc_memory.specs.Calls.{CountsCall, is_named};

use crate::calls::Calls;
use pfc_world::{Fault, Sink, Source};
use std::alloc::Global;

/// Gives bytes from memory. Of its reads, counted from 0, those that a list names fail, and no other.
#[derive(Drop)]
pub struct VecSource {
    bytes: Vec<u8>,
    at: usize,
    calls: Calls,
    ghost within: { at ≤ vec_len bytes },
}

impl Source for VecSource {
    ghost told = { true };

    ghost faults = { λ s. s.calls.faults };

    ghost left = { λ s. drop s.at s.bytes.items };

    fn read(&mut self, into: &mut [u8]) -> Result<usize, Fault>
        ensures cause { HasCause self.old.calls.faults self.new.calls.faults result }
        ensures count { IfOk result (λ n. n ≤ length into.old) }
        ensures bytes { IfOk result (λ n. Gives (drop self.old.at self.old.bytes.items) (drop self.new.at self.new.bytes.items) (length into.old) n into.new) }
        ensures named { CountsCall self.old.calls self.new.calls result }
    {
        self.calls.count()?;
        let n = into.len().min(self.bytes.len() - self.at);
        into[..n].copy_from_slice(&self.bytes[self.at..self.at + n]);
        self.at += n;
        Ok(n)
    }
}

impl VecSource {
    /// Gives these bytes.
    pub fn new(bytes: Vec<u8>, fails: Vec<u64>) -> VecSource
        ensures left { drop result.at result.bytes.items ≡ bytes.items }
        ensures fails { result.calls.fails ≡ fails }
        ensures calls { result.calls.made ≡ 0 }
        ensures faults { result.calls.faults ≡ 0 }
    {
        VecSource {
            bytes,
            at: 0,
            calls: Calls::new(fails),
        }
    }

    /// How many reads failed.
    pub fn faults(&self) -> u64
        ensures { result ≡ self.now.calls.faults }
    {
        self.calls.faults()
    }
}

/// Keeps bytes in memory. Of its writes, counted from 0, those that a list names fail, and those whose bytes find no
/// memory.
#[derive(Drop)]
pub struct VecSink {
    bytes: Vec<u8>,
    calls: Calls,
}

impl Sink for VecSink {
    ghost told = { true };

    ghost faults = { λ s. s.calls.faults };

    ghost written = { λ s. s.bytes.items };

    fn write(&mut self, from: &[u8]) -> Result<usize, Fault>
        ensures cause { HasCause self.old.calls.faults self.new.calls.faults result }
        ensures count { IfOk result (λ n. n ≡ length from.now) }
        ensures ok { OnOk result (self.new.bytes.items ≡ self.old.bytes.items ++ from.now) }
        ensures err { OnErr result (self.new.bytes.items ≡ self.old.bytes.items) }
        ensures fails { self.new.calls.fails ≡ self.old.calls.fails }
        ensures made { self.new.calls.made ≡ add_count self.old.calls.made 1 }
        ensures named { IsTrue (is_named self.old.calls.fails.items self.old.calls.made) → IsErr result }
        ensures fitting { IsErr result → IsTrue (is_named self.old.calls.fails.items self.old.calls.made) ⊎ (vec_capacity self.old.bytes < vec_len self.old.bytes + length from.now) }
    {
        self.calls.count()?;
        match self.bytes.extend_from_slice(from) {
            Ok(()) => Ok(from.len()),
            Err(_) => {
                self.calls.fail();
                Err(Fault)
            }
        }
    }
}

impl VecSink {
    /// Keeps no bytes yet.
    pub fn new(alloc: Global, fails: Vec<u64>) -> VecSink
        ensures written { result.bytes.items ≡ [] }
        ensures fails { result.calls.fails ≡ fails }
        ensures calls { result.calls.made ≡ 0 }
        ensures faults { result.calls.faults ≡ 0 }
    {
        VecSink {
            bytes: Vec::new(alloc),
            calls: Calls::new(fails),
        }
    }

    /// The bytes so far.
    pub fn bytes(&self) -> &[u8]
        ensures { result.now ≡ self.now.bytes.items }
    {
        &self.bytes
    }

    /// How many writes failed.
    pub fn faults(&self) -> u64
        ensures { result ≡ self.now.calls.faults }
    {
        self.calls.faults()
    }
}
