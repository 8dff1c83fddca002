// Standard output.
ghost use Rattle.std.specs.Prelude.{◌≡◌, [], false};

use crate::fault::fault;
use pfc_world::{Fault, Sink};
use std::io::Print;

/// Writes to standard output, by one write of the system for each call. Nothing is told of the bytes.
#[derive(Drop)]
pub struct StdSink<R: Print + Clone + Send + Drop> {
    rt: R,
    faults: u64,
}

impl<R: Print + Clone + Send + Drop> StdSink<R> {
    /// Nothing is written yet.
    pub fn new(rt: R) -> StdSink<R>
        ensures { result.faults ≡ 0 }
    {
        StdSink { rt, faults: 0 }
    }

    /// How many writes failed.
    pub fn faults(&self) -> u64
        ensures { result ≡ self.now.faults }
    {
        self.faults
    }
}

impl<R: Print + Clone + Send + Drop> Sink for StdSink<R> {
    ghost told = { false };

    ghost faults = { λ s. s.faults };

    ghost written = { λ _. [] };

    fn write(&mut self, from: &[u8]) -> Result<usize, Fault> {
        if from.is_empty() {
            return Ok(0);
        }
        match self.rt.write_some(from) {
            // A write that took nothing would be tried without end.
            Ok(n) if n > 0 => Ok(n),
            _ => Err(fault(&mut self.faults)),
        }
    }
}
