// A depot over a folder.
ghost use Rattle.std.specs.Prelude.{◌≡◌, ◌↔◌, ◌≢◌, ℕ, List, None, [], Contains, false, map, option_map, refl, string_bytes, IfOk, IsErr, IsSomeAnd, IsTrue};
ghost use Rattle.std.specs.BTreeSet.{keys};
ghost use Rattle.pfc_world.specs.Counts.{RefusalCause, add_count};
ghost use Rattle.pfc_world.specs.Depot.{CountsFaults, Gains, IfVolume, InByteOrder, Loses, TakenCause, UnlessVolume, is_out};
ghost use Rattle.pfc_folder.specs.Places.{HasNames};
ghost use Rattle.pfc_folder.specs.Words.{cache_of};

use crate::data::DataFile;
use crate::fault::{fault, refusal_of};
use crate::info::InfoFiles;
use crate::place::{MAIN_ENDING, Place, TEMP_ENDING, is_kept};
use crate::walk::paths_below;
use crate::{FolderData, FolderInfo, FolderWorld, paths};
use pfc_base::{Memory, Path};
use pfc_world::{Depot, Refusal, Taken};
use std::alloc::{AllocError, Global};
use std::collections::BTreeSet;
use std::fs::File;
use std::io::ErrorKind;
use std::rt::Files;
use std::{io, str};

/// Keeps volumes as files below the cache's folder: a path's data in the file of its name, its cinfo in the one with
/// `.cinfo` behind. Nothing is told of the bytes.
#[derive(Drop)]
pub struct FolderDepot<R: Files<File = File> + Clone + Send + Drop> {
    rt: R,
    folder: Option<String>,
    out: BTreeSet<Path>,
    faults: u64,
    unlisted: u64,
}

/// The name of the cache's folder among a program's words.
fn cache_word(words: &[String]) -> Option<&str>
    ensures { option_map (λ name. name.now) result ≡ cache_of (map string_bytes words.now) }
{
    match words {
        [_, _, folder, ..] if !folder.is_empty() => Some(folder.as_str()),
        _ => None,
    }
}

/// The folder, where one is named.
fn named(folder: &Option<String>) -> io::Result<&str>
    ensures none { folder.now ≡ None → IsErr result }
    ensures name { IfOk result (λ name. IsSomeAnd folder.now (λ root. name.now ≡ string_bytes root)) }
{
    match folder {
        Some(name) => Ok(name.as_str()),
        None => Err(io::Error::from(ErrorKind::NotFound)),
    }
}

/// The text of a path. A name that is kept for main files and temporaries is an error.
fn text_of(path: &Path) -> io::Result<&str>
    ensures { IfOk result (λ text. text.now ≡ path.now) }
{
    match str::from_utf8(path.as_bytes()) {
        Ok(text) if !is_kept(text) => Ok(text),
        _ => Err(io::Error::from(ErrorKind::InvalidFilename)),
    }
}

/// The files of a path, none of them open. Without the cache's folder it is an error: a disk may not be mounted.
fn files_of<R: Files<File = File>>(
    rt: &R,
    alloc: Global,
    root: &str,
    path: &Path,
) -> io::Result<(DataFile, InfoFiles)>
    ensures { IfOk result (λ files. HasNames root.now path.now files.0 files.1) }
{
    if !rt.metadata(root)?.is_dir() {
        return Err(io::Error::from(ErrorKind::NotADirectory));
    }
    let text = text_of(path)?;
    let file = Place::new(alloc, root, text, "")?;
    let main = Place::new(alloc, root, text, MAIN_ENDING)?;
    let temp = Place::new(alloc, root, text, TEMP_ENDING)?;
    Ok((DataFile::new(file), InfoFiles::new(main, temp)))
}

/// A runtime for each device.
fn two_of<R: Clone + Drop>(rt: &R) -> Result<(R, R), AllocError> {
    Ok((rt.clone()?, rt.clone()?))
}

impl<R: Files<File = File> + Clone + Send + Drop> FolderDepot<R> {
    /// A depot over the folder that the third word names. With fewer words, or an empty one, each call is a fault, as it
    /// is where there is no such folder.
    pub fn new(rt: R, alloc: Global, words: &[String]) -> Result<FolderDepot<R>, Memory>
        ensures folder { IfOk result (λ depot. option_map string_bytes depot.folder ≡ cache_of (map string_bytes words.now)) }
        ensures out { IfOk result (λ depot. keys depot.out ≡ []) }
        ensures faults { IfOk result (λ depot. depot.faults ≡ 0) }
        ensures unlisted { IfOk result (λ depot. depot.unlisted ≡ 0) }
    {
        let folder = match cache_word(words) {
            None => None,
            Some(name) => Some(String::from_str(alloc, name)?),
        };
        Ok(FolderDepot {
            rt,
            folder,
            out: BTreeSet::new(alloc),
            faults: 0,
            unlisted: 0,
        })
    }

    /// How many calls failed, on the depot and on the devices that came back.
    pub fn faults(&self) -> u64
        ensures { result ≡ self.now.faults }
    {
        self.faults
    }
}

impl<R: Files<File = File> + Clone + Send + Drop> Depot<FolderWorld> for FolderDepot<R> {
    type Data = FolderData<R>;

    type Info = FolderInfo<R>;

    ghost home_data = { λ _ _ _. ⊥ };

    ghost home_main = { λ _ _ _. ⊥ };

    ghost out = { λ d. keys d.out };

    ghost lent = { λ _ _. (0, 0) };

    ghost faults = { λ d. d.faults };

    ghost unlisted = { λ d. d.unlisted };

    fn list(&mut self, alloc: Global) -> Result<Vec<Path>, Refusal>
        ensures order { IfOk result (λ paths. InByteOrder paths.items) }
        ensures out { keys self.new.out ≡ keys self.old.out }
        ensures cause { RefusalCause self.old.faults self.new.faults result }
        ensures unlisted { CountsFaults self.old.unlisted self.new.unlisted result }
        ensures folder { self.new.folder ≡ self.old.folder }
        ensures nowhere { self.old.folder ≡ None → IsErr result }
    {
        let found = match named(&self.folder) {
            Ok(root) => paths_below(&self.rt, alloc, root),
            Err(error) => Err(error),
        };
        match found {
            Ok(list) => Ok(list),
            Err(error) => match refusal_of(&error) {
                Refusal::Memory => Err(Refusal::Memory),
                Refusal::Fault => {
                    self.unlisted = self.unlisted.saturating_add(1);
                    Err(fault(&mut self.faults).into())
                }
            },
        }
    }

    fn take(&mut self, alloc: Global, path: &Path) -> Taken<FolderData<R>, FolderInfo<R>>
        ensures out_already { IsTrue (is_out result) ↔ Contains (keys self.old.out) path.now }
        ensures out { IfVolume result (λ first second. Gains path.now (keys self.old.out) (keys self.new.out)) }
        ensures not_out { UnlessVolume result (keys self.new.out ≡ keys self.old.out) }
        ensures cause { TakenCause self.old.faults self.new.faults result }
        ensures unlisted { self.new.unlisted ≡ self.old.unlisted }
        ensures fresh { IfVolume result (λ first second. (first.faults ≡ 0) × (second.faults ≡ 0)) }
        ensures folder { self.new.folder ≡ self.old.folder }
        ensures names { IfVolume result (λ first second. IsSomeAnd self.old.folder (λ root. HasNames (string_bytes root) path.now first.file second.files)) }
    {
        if paths::has(&self.out, path) {
            return Taken::Out;
        }
        let files = match named(&self.folder) {
            Ok(root) => files_of(&self.rt, alloc, root, path),
            Err(error) => Err(error),
        };
        let (file, files) = match files {
            Ok(files) => files,
            Err(error) => {
                return match refusal_of(&error) {
                    Refusal::Memory => Taken::Memory,
                    Refusal::Fault => {
                        fault(&mut self.faults);
                        Taken::Fault
                    }
                };
            }
        };
        let Ok((first, second)) = two_of(&self.rt) else {
            return Taken::Memory;
        };
        if let Err(Memory) = paths::put(&mut self.out, path) {
            return Taken::Memory;
        }
        Taken::Volume(
            FolderData {
                rt: first,
                file,
                faults: 0,
            },
            FolderInfo {
                rt: second,
                files,
                faults: 0,
            },
        )
    }

    fn put_back(&mut self, path: &Path, first: FolderData<R>, second: FolderInfo<R>) -> bool
        ensures answer { IsTrue result ↔ Contains (keys self.old.out) path.now }
        ensures out { IsTrue result → Loses path.now (keys self.old.out) (keys self.new.out) }
        ensures not_out { result ≡ false → keys self.new.out ≡ keys self.old.out }
        ensures faults { IsTrue result → self.new.faults ≡ add_count (add_count self.old.faults first.faults) second.faults }
        ensures no_faults { result ≡ false → self.new.faults ≡ self.old.faults }
        ensures unlisted { self.new.unlisted ≡ self.old.unlisted }
        ensures folder { self.new.folder ≡ self.old.folder }
    {
        if !paths::remove(&mut self.out, path) {
            return false;
        }
        let sum = self.faults.saturating_add(first.faults);
        self.faults = sum.saturating_add(second.faults);
        true
    }

    fn outs(&self) -> u64 {
        self.out.len() as u64
    }

    ghost alike = { refl };
}
