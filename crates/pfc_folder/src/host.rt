// A host over real files.
ghost use Rattle.std.specs.Prelude.{◌≡◌, ◌≤◌, ℕ, [], false, length, vec_len, map, option_map, IfOk, IfErr, slice_index_or, string_bytes};
ghost use Rattle.pfc_world.specs.Counts.{RefusalCause, add_count};
ghost use Rattle.pfc_folder.specs.Words.{folder_of};

use crate::fault::fault;
use crate::folder::Folder;
use crate::{FileSource, FolderLink, FolderWorld};
use pfc_base::Memory;
use pfc_world::{Host, Refusal, Sources};
use std::alloc::{AllocError, Global};
use std::fs;
use std::fs::File;
use std::rt::Files;

/// How many numbers links have: 0 for the prefetcher, 1 to 64 for the clients.
const NUMBERS: usize = 65;

/// Gives the files of the file system as texts, and links to the files of one folder. Nothing is told of them.
#[derive(Drop)]
pub struct FolderHost<R: Files<File = File> + Clone + Send + Drop> {
    rt: R,
    folder: Option<String>,
    faults: u64,
    spent: Vec<(u64, u64)>,
    ghost numbers: { vec_len spent ≡ 65 },
}

/// The name of the origin's folder among a program's words.
fn folder_word(words: &[String]) -> Option<&str>
    ensures { option_map (λ name. name.now) result ≡ folder_of (map string_bytes words.now) }
{
    match words {
        [_, folder, ..] if !folder.is_empty() => Some(folder.as_str()),
        _ => None,
    }
}

/// The folder of this name, if one is named.
fn folder_named(alloc: Global, name: Option<&str>) -> Result<Option<Folder>, AllocError>
    ensures { IfOk result (λ folder. option_map (λ f. string_bytes f.root) folder ≡ option_map (λ n. n.now) name.entry) }
{
    match name {
        None => Ok(None),
        Some(name) => Ok(Some(Folder::new(alloc, name)?)),
    }
}

impl<R: Files<File = File> + Clone + Send + Drop> FolderHost<R> {
    /// A host whose links lead to the folder that the second word names. With fewer words, or an empty one, each call
    /// on a link is a fault.
    pub fn new(rt: R, alloc: Global, words: &[String]) -> Result<FolderHost<R>, Memory>
        ensures folder { IfOk result (λ host. option_map string_bytes host.folder ≡ folder_of (map string_bytes words.now)) }
        ensures spent { IfOk result (λ host. (n : ℕ) → slice_index_or host.spent.items n (0, 0) ≡ (0, 0)) }
        ensures faults { IfOk result (λ host. host.faults ≡ 0) }
    {
        let folder = match folder_word(words) {
            None => None,
            Some(name) => Some(String::from_str(alloc, name)?),
        };
        let spent = vec![in alloc; (0u64, 0u64); NUMBERS]?;
        Ok(FolderHost {
            rt,
            folder,
            faults: 0,
            spent,
        })
    }

    /// The calls and the faults of the links of this number that came back; a number above 64 has none.
    pub fn spent(&self, number: u32) -> (u64, u64)
        ensures { result ≡ slice_index_or self.now.spent.items number (0, 0) }
    {
        match self.spent.get(number as usize) {
            None => (0, 0),
            Some(spent) => *spent,
        }
    }

    /// How many calls failed, those on sources that came back included.
    pub fn faults(&self) -> u64
        ensures { result ≡ self.now.faults }
    {
        self.faults
    }
}

impl<R: Files<File = File> + Clone + Send + Drop> Sources for FolderHost<R> {
    type Input = FileSource;

    ghost told = { false };

    ghost texts = { λ _. [] };

    ghost faults = { λ h. h.faults };

    ghost spent = { λ h n. slice_index_or h.spent.items n (0, 0) };

    fn source(&mut self, alloc: Global, name: &str) -> Result<FileSource, Refusal> {
        let _ = alloc;
        match fs::open(&self.rt, name) {
            Ok(file) => Ok(FileSource { file, faults: 0 }),
            Err(_) => Err(fault(&mut self.faults).into()),
        }
    }

    fn done(&mut self, input: FileSource) {
        self.faults = self.faults.saturating_add(input.faults);
    }
}

impl<R: Files<File = File> + Clone + Send + Drop> Host<FolderWorld> for FolderHost<R> {
    type Link = FolderLink<R>;

    fn link(&mut self, alloc: Global, number: u32) -> Result<FolderLink<R>, Refusal>
        ensures spent { (n : ℕ) → slice_index_or self.new.spent.items n (0, 0) ≡ slice_index_or self.old.spent.items n (0, 0) }
        ensures cause { RefusalCause self.old.faults self.new.faults result }
        ensures memory { IfErr result (λ refusal. refusal ≡ Refusal.Memory) }
        ensures link { IfOk result (λ link. (link.number ≡ number) × (link.calls ≡ 0) × (link.faults ≡ 0)) }
        ensures folder { IfOk result (λ link. option_map (λ f. string_bytes f.root) link.folder ≡ option_map string_bytes self.old.folder) }
    {
        let name = self.folder.as_ref().map(|name| name.as_str());
        Ok(FolderLink {
            rt: self.rt.clone()?,
            number,
            calls: 0,
            faults: 0,
            folder: folder_named(alloc, name)?,
        })
    }

    fn back(&mut self, link: FolderLink<R>) {
        let at = link.number as usize;
        let (calls, faults) = self.spent[at];
        self.spent[at] = (
            calls.saturating_add(link.calls),
            faults.saturating_add(link.faults),
        );
    }
}
