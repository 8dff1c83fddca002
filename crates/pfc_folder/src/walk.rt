// Which paths have files below a folder.
ghost use Rattle.std.specs.Prelude.{IfOk};
ghost use Rattle.pfc_world.specs.Depot.{InByteOrder};

use crate::folder::is_absent;
use crate::paths::in_order;
use crate::place::{MAIN_ENDING, is_kept};
use pfc_base::Path;
use std::alloc::{AllocError, Global};
use std::collections::BTreeSet;
use std::fs::{File, Metadata};
use std::io::ErrorKind;
use std::rt::Files;
use std::{fs, io};

/// The paths that were found, and the folders that are still to be looked through, named from the root on.
#[derive(Drop)]
struct Walk {
    alloc: Global,
    paths: BTreeSet<Path>,
    folders: Vec<String>,
}

/// The path that a file of this name belongs to; `None` for a temporary, or a name that is no path.
fn path_of(name: &str) -> Option<Path> {
    let text = match name.strip_suffix(MAIN_ENDING) {
        Some(front) => front,
        None => name,
    };
    if is_kept(text) {
        return None;
    }
    Path::read(text.as_bytes()).ok()
}

/// A name below a folder.
fn name_below(alloc: Global, folder: &str, name: &str) -> Result<String, AllocError> {
    let mut joined = String::from_str(alloc, folder)?;
    joined.push_str("/")?;
    joined.push_str(name)?;
    Ok(joined)
}

impl Walk {
    /// Adds a file's path or a folder. A symbolic link is neither.
    fn add(&mut self, name: String, found: &Metadata) -> Result<(), AllocError> {
        if found.is_dir() && Path::read(name.as_bytes()).is_ok() {
            self.folders.push(name)?;
        } else if found.is_file()
            && let Some(path) = path_of(name.as_str())
        {
            self.paths.insert(path)?;
        }
        Ok(())
    }

    /// Adds what a folder has. What goes away meanwhile is passed over, as volumes that are out have their files changed.
    fn look_through<R: Files<File = File>>(
        &mut self,
        rt: &R,
        root: &str,
        below: &str,
    ) -> io::Result<()> {
        let mut folder = String::from_str(self.alloc, root)?;
        folder.push_str(below)?;
        for entry in fs::read_dir(&(rt, self.alloc), folder.as_str())? {
            let entry = match entry {
                Ok(entry) => entry,
                // A name that is no text is no path.
                Err(error) if error.kind() == ErrorKind::InvalidFilename => continue,
                Err(error) => return Err(error),
            };
            match entry.metadata() {
                Ok(found) => self.add(name_below(self.alloc, below, entry.file_name())?, &found)?,
                Err(error) if is_absent(&error) => {}
                Err(error) => return Err(error),
            }
        }
        Ok(())
    }

    /// Looks through all folders below the root.
    fn run<R: Files<File = File>>(&mut self, rt: &R, root: &str) -> io::Result<()> {
        self.folders.push(String::new(self.alloc))?;
        for _ in 0..u64::MAX {
            let Some(below) = self.folders.pop() else {
                return Ok(());
            };
            match self.look_through(rt, root, below.as_str()) {
                Ok(()) => {}
                Err(error) if is_absent(&error) && !below.is_empty() => {}
                Err(error) => return Err(error),
            }
        }
        Err(io::Error::from(ErrorKind::Other))
    }
}

/// Each path that has a data file or a main file below the root, in byte order.
pub(crate) fn paths_below<R: Files<File = File>>(
    rt: &R,
    alloc: Global,
    root: &str,
) -> io::Result<Vec<Path>>
    ensures order { IfOk result (λ paths. InByteOrder paths.items) }
{
    let mut walk = Walk {
        alloc,
        paths: BTreeSet::new(alloc),
        folders: Vec::new(alloc),
    };
    walk.run(rt, root)?;
    Ok(in_order(alloc, walk.paths)?)
}
