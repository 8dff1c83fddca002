// The files below a folder, the last few of them open.
ghost use Rattle.std.specs.Prelude.{◌≡◌, ◌<◌, ◌^◌, ◌++◌, IfOk, IfSome, OnOk, string_bytes, vec_len};

use pfc_base::Path;
use std::alloc::{AllocError, Global};
use std::fs::{File, OpenFile};
use std::io::ErrorKind;
use std::os::unix::fs::FileExt;
use std::rt::Files;
use std::{fs, io, str};

/// How many files stay open. A file that is read from again soon needs no second opening, and the links of all
/// clients together stay far below the 1024 files that a process may commonly have open.
const MOST_OPEN: usize = 4;

/// How many bytes a path has at most.
const PATH_MAX: usize = 255;

/// Each file is shorter than this, in bytes.
const SIZE_END: u64 = 1 << 44;

/// A file that stays open.
#[derive(Drop)]
struct Handle {
    path: Path,
    file: File,
}

/// A folder, by its name in the file system. The handle opened last is the last one. `name` keeps the memory for the
/// names of files.
#[derive(Drop)]
pub(crate) struct Folder {
    root: String,
    name: String,
    handles: Vec<Handle>,
}

/// There is no such file: neither the name nor, where it lies below a file, a folder that it names.
pub(crate) fn is_absent(error: &io::Error) -> bool {
    error.kind() == ErrorKind::NotFound || error.kind() == ErrorKind::NotADirectory
}

/// Reads from a place until `into` is full; where the file ends before that, it is an error.
pub(crate) fn read_whole(file: &File, at: u64, into: &mut [u8]) -> io::Result<()> {
    if into.is_empty() && file.metadata()?.len() < at {
        return Err(io::Error::from(ErrorKind::UnexpectedEof));
    }
    file.read_exact_at(into, at)
}

impl Folder {
    /// The folder of this name, with the memory that the calls below need.
    pub(crate) fn new(alloc: Global, root: &str) -> Result<Folder, AllocError>
        ensures root { IfOk result (λ folder. string_bytes folder.root ≡ root.now) }
    {
        Ok(Folder {
            root: String::from_str(alloc, root)?,
            name: String::with_capacity(alloc, root.len().saturating_add(PATH_MAX))?,
            handles: Vec::with_capacity(alloc, MOST_OPEN)?,
        })
    }

    /// Puts the file's name in the file system into `name`.
    fn name_file(&mut self, path: &Path) -> io::Result<()>
        ensures root { self.new.root ≡ self.old.root }
        ensures name { OnOk result (string_bytes self.new.name ≡ string_bytes self.old.root ++ path.now) }
    {
        let Ok(text) = str::from_utf8(path.as_bytes()) else {
            return Err(io::Error::from(ErrorKind::InvalidInput));
        };
        self.name.clear();
        self.name.push_str(self.root.as_str())?;
        self.name.push_str(text)?;
        Ok(())
    }

    /// The length of the path's file in bytes, and `None` where there is none, or a folder.
    pub(crate) fn size<R: Files<File = File>>(
        &mut self,
        rt: &R,
        path: &Path,
    ) -> io::Result<Option<u64>>
        ensures root { self.new.root ≡ self.old.root }
        ensures short { IfOk result (λ found. IfSome found (λ size. size < 2 ^ 44)) }
    {
        self.name_file(path)?;
        let found = match rt.metadata(self.name.as_str()) {
            Ok(found) => found,
            Err(error) => {
                if is_absent(&error) {
                    return Ok(None);
                }
                return Err(error);
            }
        };
        if found.is_dir() {
            return Ok(None);
        }
        if found.len() >= SIZE_END {
            return Err(io::Error::from(ErrorKind::FileTooLarge));
        }
        Ok(Some(found.len()))
    }

    /// Where the path's file stands among those that are open. It is opened if it isn't, and then the one that was
    /// opened first is closed where too many are open.
    fn place<R: Files<File = File>>(&mut self, rt: &R, path: &Path) -> io::Result<usize>
        ensures root { self.new.root ≡ self.old.root }
        ensures within { IfOk result (λ place. place < vec_len self.new.handles) }
    {
        if let Some(place) = self.handles.iter().position(|handle| handle.path == *path) {
            return Ok(place);
        }
        self.name_file(path)?;
        let file = fs::open(rt, self.name.as_str())?;
        if self.handles.len() >= MOST_OPEN {
            self.handles.remove(0);
        }
        self.handles.push(Handle {
            path: path.copy(),
            file,
        })?;
        Ok(self.handles.len() - 1)
    }

    /// Fills `into` from a place in the path's file. A file that ends before that is an error.
    pub(crate) fn read<R: Files<File = File>>(
        &mut self,
        rt: &R,
        path: &Path,
        at: u64,
        into: &mut [u8],
    ) -> io::Result<()>
        ensures root { self.new.root ≡ self.old.root }
    {
        let place = self.place(rt, path)?;
        read_whole(&self.handles[place].file, at, into)
    }
}
