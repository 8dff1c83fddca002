// Where a file lies below the cache's folder.
ghost use Rattle.std.specs.Prelude.{◌≡◌, ◌++◌, IfOk, string_bytes};

use crate::folder::is_absent;
use std::alloc::{AllocError, Global};
use std::fs::{File, Files, OpenFile, OpenOptions};
use std::io::ErrorKind;
use std::{fs, io};

/// The name of a file below the cache's folder. `stable` is set once the folders
/// between them are there whatever a crash takes.
#[derive(Drop)]
pub(crate) struct Place {
    name: String,
    root_len: usize,
    stable: bool,
}

/// The ending of a main file's name.
pub(crate) const MAIN_ENDING: &str = ".cinfo";

/// The ending of a temporary's name.
pub(crate) const TEMP_ENDING: &str = ".cinfo.tmp";

/// A file of this name is a main file or a temporary, so no data can have it.
pub(crate) fn is_kept(name: &str) -> bool {
    name.ends_with(MAIN_ENDING) || name.ends_with(TEMP_ENDING)
}

/// Opens a file, `None` where there is none.
pub(crate) fn open_if_there<R: Files<File = File>>(
    rt: &R,
    how: &OpenOptions,
    name: &str,
) -> io::Result<Option<File>> {
    match how.open(rt, name) {
        Ok(file) => Ok(Some(file)),
        Err(error) => {
            if is_absent(&error) {
                return Ok(None);
            }
            Err(error)
        }
    }
}

/// Takes a file away; it is no error if there is none.
pub(crate) fn remove_if_there<R: Files<File = File>>(rt: &R, name: &str) -> io::Result<()> {
    match fs::remove_file(rt, name) {
        Ok(()) => Ok(()),
        Err(error) => {
            if is_absent(&error) {
                return Ok(());
            }
            Err(error)
        }
    }
}

/// Makes a folder that may be there.
fn make_folder<R: Files<File = File>>(rt: &R, name: &str) -> io::Result<()> {
    match fs::create_dir(rt, name) {
        Ok(()) => Ok(()),
        Err(error) => {
            if error.kind() == ErrorKind::AlreadyExists {
                return Ok(());
            }
            Err(error)
        }
    }
}

/// Makes stable which names a folder has. It is false where there is no such folder.
fn sync_folder<R: Files<File = File>>(rt: &R, name: &str) -> io::Result<bool> {
    let mut how = OpenOptions::new();
    how.read(true);
    match open_if_there(rt, &how, name)? {
        Some(folder) => {
            folder.sync_all()?;
            Ok(true)
        }
        None => Ok(false),
    }
}

/// The folder that ends before this place in a name, where a slash stands there.
fn folder_before(name: &str, end: usize) -> Option<&str> {
    match name.split_at_checked(end) {
        Some((folder, rest)) if rest.starts_with('/') => Some(folder),
        _ => None,
    }
}

impl Place {
    /// The place of a path's file with this ending to its name.
    pub(crate) fn new(
        alloc: Global,
        root: &str,
        path: &str,
        ending: &str,
    ) -> Result<Place, AllocError>
        ensures name { IfOk result (λ place. string_bytes place.name ≡ root.now ++ path.now ++ ending.now) }
    {
        let mut name = String::from_str(alloc, root)?;
        name.push_str(path)?;
        name.push_str(ending)?;
        Ok(Place {
            name,
            root_len: root.len(),
            stable: false,
        })
    }

    /// The name of the file.
    pub(crate) fn name(&self) -> &str
        ensures { result.now ≡ string_bytes self.now.name }
    {
        self.name.as_str()
    }

    /// No crash takes the file, or a folder above it, away.
    pub(crate) fn is_stable(&self) -> bool
        ensures { result ≡ self.now.stable }
    {
        self.stable
    }

    /// Makes the folders between the cache's folder and the file. The cache's folder itself is never made: where it is
    /// missing, a disk may not be mounted.
    pub(crate) fn make_folders<R: Files<File = File>>(&mut self, rt: &R) -> io::Result<()>
        ensures name { string_bytes self.new.name ≡ string_bytes self.old.name }
    {
        self.stable = false;
        for end in self.root_len..self.name.len() {
            if end > self.root_len
                && let Some(folder) = folder_before(self.name.as_str(), end)
            {
                make_folder(rt, folder)?;
            }
        }
        Ok(())
    }

    /// Makes stable that the file is there, or that it isn't. Until all folders above the file are known to be stable it
    /// goes over each, as one of them may be new, and later over the file's own alone.
    pub(crate) fn sync_folders<R: Files<File = File>>(&mut self, rt: &R) -> io::Result<()>
        ensures name { string_bytes self.new.name ≡ string_bytes self.old.name }
    {
        let name = self.name.as_str();
        let from = match name.rsplit_once('/') {
            Some((folder, _)) if self.stable => folder.len(),
            _ => self.root_len,
        };
        for end in from..name.len() {
            if let Some(folder) = folder_before(name, end)
                && !sync_folder(rt, folder)?
            {
                // The first one was there: a disk may be gone. Below another that is missing there is no file.
                if end == from {
                    return Err(io::Error::from(ErrorKind::NotFound));
                }
                return Ok(());
            }
        }
        self.stable = true;
        Ok(())
    }
}
