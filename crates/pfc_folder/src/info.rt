// A path's cinfo, in a main file that a temporary replaces whole.
ghost use Rattle.std.specs.Prelude.{◌≡◌, ◌≤◌, [], None, false, true, IfOk, IfSome, vec_len};
ghost use Rattle.pfc_world.specs.Counts.{HasCause, RefusalCause};
ghost use Rattle.pfc_world.specs.Info.{ragged};
ghost use Rattle.pfc_folder.specs.Places.{SameNames};

use crate::FolderWorld;
use crate::fault::{counted, fault, refusal_of};
use crate::place::{Place, open_if_there, remove_if_there};
use pfc_world::{Fault, InfoDev, MAIN_READ_MOST, Refusal};
use std::alloc::Global;
use std::fs::{File, OpenFile, OpenOptions};
use std::io::{ErrorKind, Write};
use std::os::unix::fs::FileExt;
use std::rt::Files;
use std::{fs, io};

/// The main file and its temporary. The temporary is open once it is written whole and until it is renamed.
#[derive(Drop)]
pub(crate) struct InfoFiles {
    main: Place,
    temp: Place,
    written: Option<File>,
}

/// The first bytes of a file, `MAIN_READ_MOST` at most.
fn read_front(alloc: Global, file: &File) -> io::Result<Vec<u8>>
    ensures most { IfOk result (λ bytes. vec_len bytes ≤ MAIN_READ_MOST) }
{
    let len = file.metadata()?.len().min(MAIN_READ_MOST as u64) as usize;
    let mut bytes = vec![in alloc; 0u8; len]?;
    file.read_exact_at(&mut bytes, 0)?;
    Ok(bytes)
}

impl InfoFiles {
    /// The files of these places, none of them open.
    pub(crate) fn new(main: Place, temp: Place) -> InfoFiles
        ensures main { result.main ≡ main }
        ensures temp { result.temp ≡ temp }
    {
        InfoFiles {
            main,
            temp,
            written: None,
        }
    }

    /// Opens the main file, `None` where there is none.
    fn open_main<R: Files<File = File>>(&self, rt: &R) -> io::Result<Option<File>> {
        let mut how = OpenOptions::new();
        how.read(true);
        open_if_there(rt, &how, self.main.name())
    }

    fn read<R: Files<File = File>>(&self, rt: &R, alloc: Global) -> io::Result<Option<Vec<u8>>>
        ensures most { IfOk result (λ main. IfSome main (λ bytes. vec_len bytes ≤ MAIN_READ_MOST)) }
    {
        match self.open_main(rt)? {
            None => Ok(None),
            Some(file) => Ok(Some(read_front(alloc, &file)?)),
        }
    }

    /// Makes the temporary anew, and the folders above it that aren't there.
    fn make_temp<R: Files<File = File>>(&mut self, rt: &R) -> io::Result<File>
        ensures { SameNames self.old self.new }
    {
        match fs::create(rt, self.temp.name()) {
            Ok(file) => return Ok(file),
            Err(error) => {
                if error.kind() != ErrorKind::NotFound {
                    return Err(error);
                }
            }
        }
        self.main.make_folders(rt)?;
        fs::create(rt, self.temp.name())
    }

    fn write_temp<R: Files<File = File>>(&mut self, rt: &R, from: &[u8]) -> io::Result<()>
        ensures { SameNames self.old self.new }
    {
        self.written = None;
        let mut file = self.make_temp(rt)?;
        file.write_all(from)?;
        self.written = Some(file);
        Ok(())
    }

    /// After a failure the temporary has to be written again: a second sync may not find what the first one lost.
    fn sync_temp(&mut self) -> io::Result<()>
        ensures { SameNames self.old self.new }
    {
        let Some(file) = self.written.take() else {
            return Err(io::Error::from(ErrorKind::NotFound));
        };
        file.sync_all()?;
        self.written = Some(file);
        Ok(())
    }

    fn rename<R: Files<File = File>>(&mut self, rt: &R) -> io::Result<()>
        ensures { SameNames self.old self.new }
    {
        self.written = None;
        fs::rename(rt, self.temp.name(), self.main.name())?;
        self.main.sync_folders(rt)
    }

    fn remove<R: Files<File = File>>(&mut self, rt: &R) -> io::Result<()>
        ensures { SameNames self.old self.new }
    {
        remove_if_there(rt, self.main.name())?;
        self.main.sync_folders(rt)
    }

    fn settle<R: Files<File = File>>(&mut self, rt: &R) -> io::Result<()>
        ensures { SameNames self.old self.new }
    {
        if let Some(file) = self.open_main(rt)? {
            file.sync_all()?;
        }
        self.main.sync_folders(rt)
    }
}

/// The cinfo of a path, in a main file of the cache's folder with a temporary beside it. Nothing is told of its bytes.
#[derive(Drop)]
pub struct FolderInfo<R: Files<File = File> + Clone + Send + Drop> {
    pub(crate) rt: R,
    pub(crate) files: InfoFiles,
    pub(crate) faults: u64,
}

impl<R: Files<File = File> + Clone + Send + Drop> InfoDev<FolderWorld> for FolderInfo<R> {
    ghost told = { false };

    ghost seen = { λ _. record { now = record { shown = None; others = []; torn = true; temporary = ragged; settled = false }; past = [] } };

    ghost faults = { λ i. i.faults };

    fn read_main(&mut self, alloc: Global) -> Result<Option<Vec<u8>>, Refusal>
        ensures most { IfOk result (λ main. IfSome main (λ bytes. vec_len bytes ≤ MAIN_READ_MOST)) }
        ensures cause { RefusalCause self.old.faults self.new.faults result }
        ensures names { SameNames self.old.files self.new.files }
    {
        match self.files.read(&self.rt, alloc) {
            Ok(main) => Ok(main),
            Err(error) => match refusal_of(&error) {
                Refusal::Memory => Err(Refusal::Memory),
                Refusal::Fault => Err(fault(&mut self.faults).into()),
            },
        }
    }

    fn write_temp(&mut self, from: &[u8]) -> Result<(), Fault>
        ensures cause { HasCause self.old.faults self.new.faults result }
        ensures names { SameNames self.old.files self.new.files }
    {
        let outcome = self.files.write_temp(&self.rt, from);
        counted(outcome, &mut self.faults)
    }

    fn sync_temp(&mut self) -> Result<(), Fault>
        ensures cause { HasCause self.old.faults self.new.faults result }
        ensures names { SameNames self.old.files self.new.files }
    {
        let outcome = self.files.sync_temp();
        counted(outcome, &mut self.faults)
    }

    fn rename(&mut self) -> Result<(), Fault>
        ensures cause { HasCause self.old.faults self.new.faults result }
        ensures names { SameNames self.old.files self.new.files }
    {
        let outcome = self.files.rename(&self.rt);
        counted(outcome, &mut self.faults)
    }

    fn remove(&mut self) -> Result<(), Fault>
        ensures cause { HasCause self.old.faults self.new.faults result }
        ensures names { SameNames self.old.files self.new.files }
    {
        let outcome = self.files.remove(&self.rt);
        counted(outcome, &mut self.faults)
    }

    fn settle(&mut self) -> Result<(), Fault>
        ensures cause { HasCause self.old.faults self.new.faults result }
        ensures names { SameNames self.old.files self.new.files }
    {
        let outcome = self.files.settle(&self.rt);
        counted(outcome, &mut self.faults)
    }

    fn faults(&self) -> u64 {
        self.faults
    }
}
