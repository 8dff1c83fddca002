// A path's data, in a file.
ghost use Rattle.std.specs.Prelude.{◌≡◌, [], false, string_bytes};
ghost use Rattle.pfc_world.specs.Counts.{HasCause};
ghost use Rattle.pfc_world.specs.Disk.{settled};

use crate::FolderWorld;
use crate::fault::counted;
use crate::folder::read_whole;
use crate::place::{Place, open_if_there, remove_if_there};
use pfc_world::{DataDev, Fault};
use std::fs::{File, OpenFile, OpenOptions};
use std::io;
use std::io::ErrorKind;
use std::os::unix::fs::FileExt;
use std::rt::Files;

/// The file of a path's data, which is opened by the first call that finds it, and made by the first write.
#[derive(Drop)]
pub(crate) struct DataFile {
    place: Place,
    file: Option<File>,
}

impl DataFile {
    /// The file of this place, which isn't open yet.
    pub(crate) fn new(place: Place) -> DataFile
        ensures { result.place ≡ place }
    {
        DataFile { place, file: None }
    }

    /// Opens the file, if it is there and isn't open.
    fn open<R: Files<File = File>>(&mut self, rt: &R) -> io::Result<()>
        ensures { self.new.place ≡ self.old.place }
    {
        if self.file.is_none() {
            let mut how = OpenOptions::new();
            how.read(true).write(true);
            self.file = open_if_there(rt, &how, self.place.name())?;
        }
        Ok(())
    }

    /// Makes the file, and the folders above it that aren't there.
    fn make<R: Files<File = File>>(&mut self, rt: &R) -> io::Result<()>
        ensures { string_bytes self.new.place.name ≡ string_bytes self.old.place.name }
    {
        self.place.make_folders(rt)?;
        let mut how = OpenOptions::new();
        how.read(true).write(true).create(true);
        self.file = Some(how.open(rt, self.place.name())?);
        Ok(())
    }

    fn read<R: Files<File = File>>(&mut self, rt: &R, at: u64, into: &mut [u8]) -> io::Result<()>
        ensures { string_bytes self.new.place.name ≡ string_bytes self.old.place.name }
    {
        self.open(rt)?;
        match &self.file {
            Some(file) => read_whole(file, at, into),
            None if at == 0 && into.is_empty() => Ok(()),
            None => Err(io::Error::from(ErrorKind::UnexpectedEof)),
        }
    }

    fn write<R: Files<File = File>>(&mut self, rt: &R, at: u64, from: &[u8]) -> io::Result<()>
        ensures { string_bytes self.new.place.name ≡ string_bytes self.old.place.name }
    {
        self.open(rt)?;
        if self.file.is_none() {
            self.make(rt)?;
        }
        match &self.file {
            Some(file) => file.write_all_at(from, at),
            None => Err(io::Error::from(ErrorKind::NotFound)),
        }
    }

    fn sync<R: Files<File = File>>(&mut self, rt: &R) -> io::Result<()>
        ensures { string_bytes self.new.place.name ≡ string_bytes self.old.place.name }
    {
        self.open(rt)?;
        let Some(file) = &self.file else {
            return Ok(());
        };
        file.sync_data()?;
        if self.place.is_stable() {
            return Ok(());
        }
        self.place.sync_folders(rt)
    }

    fn clear<R: Files<File = File>>(&mut self, rt: &R) -> io::Result<()>
        ensures { string_bytes self.new.place.name ≡ string_bytes self.old.place.name }
    {
        self.open(rt)?;
        // The file goes only once it is empty for good, so that no crash brings its bytes back.
        if let Some(file) = self.file.take() {
            file.set_len(0)?;
            file.sync_all()?;
        }
        remove_if_there(rt, self.place.name())?;
        self.place.sync_folders(rt)
    }
}

/// The data of a path, in a file of the cache's folder. Nothing is told of its bytes.
#[derive(Drop)]
pub struct FolderData<R: Files<File = File> + Clone + Send + Drop> {
    pub(crate) rt: R,
    pub(crate) file: DataFile,
    pub(crate) faults: u64,
}

impl<R: Files<File = File> + Clone + Send + Drop> DataDev<FolderWorld> for FolderData<R> {
    ghost told = { false };

    ghost seen = { λ _. record { now = record { reads = []; places = λ _. settled }; past = [] } };

    ghost faults = { λ d. d.faults };

    fn read_at(&mut self, at: u64, into: &mut [u8]) -> Result<(), Fault>
        ensures cause { HasCause self.old.faults self.new.faults result }
        ensures name { string_bytes self.new.file.place.name ≡ string_bytes self.old.file.place.name }
    {
        let outcome = self.file.read(&self.rt, at, into);
        counted(outcome, &mut self.faults)
    }

    fn write_at(&mut self, at: u64, from: &[u8]) -> Result<(), Fault>
        ensures cause { HasCause self.old.faults self.new.faults result }
        ensures name { string_bytes self.new.file.place.name ≡ string_bytes self.old.file.place.name }
    {
        let outcome = self.file.write(&self.rt, at, from);
        counted(outcome, &mut self.faults)
    }

    fn sync(&mut self) -> Result<(), Fault>
        ensures cause { HasCause self.old.faults self.new.faults result }
        ensures name { string_bytes self.new.file.place.name ≡ string_bytes self.old.file.place.name }
    {
        let outcome = self.file.sync(&self.rt);
        counted(outcome, &mut self.faults)
    }

    fn clear(&mut self) -> Result<(), Fault>
        ensures cause { HasCause self.old.faults self.new.faults result }
        ensures name { string_bytes self.new.file.place.name ≡ string_bytes self.old.file.place.name }
    {
        let outcome = self.file.clear(&self.rt);
        counted(outcome, &mut self.faults)
    }

    fn faults(&self) -> u64 {
        self.faults
    }
}
