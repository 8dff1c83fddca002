// Bytes of a file, in order.
ghost use Rattle.std.specs.Prelude.{[], false};

use crate::fault::fault;
use pfc_world::{Fault, Source};
use std::fs::File;
use std::io::Read;

/// Gives the bytes of a file from its beginning. Nothing is told of them.
#[derive(Drop)]
pub struct FileSource {
    pub(crate) file: File,
    pub(crate) faults: u64,
}

impl Source for FileSource {
    ghost told = { false };

    ghost faults = { λ s. s.faults };

    ghost left = { λ _. [] };

    fn read(&mut self, into: &mut [u8]) -> Result<usize, Fault> {
        match self.file.read(into) {
            Ok(n) => Ok(n),
            Err(_) => Err(fault(&mut self.faults)),
        }
    }
}
