// Links to the files of a folder.
ghost use Rattle.std.specs.Prelude.{◌≡◌, ◌<◌, ◌^◌, None, IfOk, IfSome, IsErr};
ghost use Rattle.pfc_world.specs.Counts.{HasCause, add_count};

use crate::FolderWorld;
use crate::fault::fault;
use crate::folder::Folder;
use pfc_base::Path;
use pfc_world::{Fault, Origin};
use std::fs::File;
use std::rt::Files;

/// A link to the files of a folder; without a folder each call is a fault. It keeps the files that it used last open.
#[derive(Drop)]
pub struct FolderLink<R: Files<File = File> + Clone + Send + Drop> {
    pub(crate) rt: R,
    pub(crate) number: u32,
    pub(crate) calls: u64,
    pub(crate) faults: u64,
    pub(crate) folder: Option<Folder>,
}

impl<R: Files<File = File> + Clone + Send + Drop> Origin<FolderWorld> for FolderLink<R> {
    ghost number = { λ l. l.number };

    ghost calls = { λ l. l.calls };

    ghost faults = { λ l. l.faults };

    fn stat(&mut self, path: &Path) -> Result<Option<u64>, Fault>
        ensures number { self.new.number ≡ self.old.number }
        ensures calls { self.new.calls ≡ add_count self.old.calls 1 }
        ensures cause { HasCause self.old.faults self.new.faults result }
        ensures short { IfOk result (λ found. IfSome found (λ size. size < 2 ^ 44)) }
        ensures nowhere { self.old.folder ≡ None → IsErr result }
    {
        self.calls = self.calls.saturating_add(1);
        if let Some(folder) = &mut self.folder
            && let Ok(found) = folder.size(&self.rt, path)
        {
            return Ok(found);
        }
        Err(fault(&mut self.faults))
    }

    fn fetch(&mut self, path: &Path, at: u64, into: &mut [u8]) -> Result<(), Fault>
        ensures number { self.new.number ≡ self.old.number }
        ensures calls { self.new.calls ≡ add_count self.old.calls 1 }
        ensures cause { HasCause self.old.faults self.new.faults result }
        ensures nowhere { self.old.folder ≡ None → IsErr result }
    {
        self.calls = self.calls.saturating_add(1);
        if let Some(folder) = &mut self.folder
            && folder.read(&self.rt, path, at, into).is_ok()
        {
            return Ok(());
        }
        Err(fault(&mut self.faults))
    }
}
