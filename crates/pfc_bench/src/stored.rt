// A file of an origin, and stores of it in a cache folder.
use crate::sample::have;
use anyhow::{Result, bail};
use pfc_base::Path;
use pfc_folder::{FolderData, FolderDepot, FolderHost, FolderInfo, FolderLink, FolderWorld};
use pfc_store::FileStore;
use pfc_world::{Block, DataDev, Depot, Host, InfoDev, Known, Taken};
use std::alloc::Global;
use std::{env, fs};

/// The size of the file in bytes.
pub const FILE_SIZE: u64 = 1 << 22;

/// The block size in bytes.
pub const BLOCK_SIZE: u64 = 1 << 20;

/// How many blocks the file has.
pub const BLOCKS: u32 = 4;

const NAME: &str = "/file";

pub type Store = FileStore<FolderWorld, FolderData<HostRuntime>, FolderInfo<HostRuntime>>;

/// A link to the origin's folder with one file, and a depot over an empty folder.
#[derive(Drop)]
pub struct Stored {
    folder: String,
    path: Path,
    link: FolderLink<HostRuntime>,
    depot: FolderDepot<HostRuntime>,
}

/// Makes a folder of its own, with the folders `origin` and `cache`.
fn make_folder(rt: &HostRuntime) -> Result<String> {
    let temp = env::temp_dir(rt)?;
    let Some(temp) = temp.to_str() else {
        bail!("no temporary folder");
    };
    for n in 0..1000u32 {
        let folder = format!(in rt.alloc(); "{temp}/pfc_bench_{n}")?;
        if fs::create_dir(rt, folder.as_str()).is_ok() {
            for name in ["origin", "cache"] {
                let inner = format!(in rt.alloc(); "{folder}/{name}")?;
                fs::create_dir(rt, inner.as_str())?;
            }
            return Ok(folder);
        }
    }
    bail!("no folder")
}

/// The file's bytes: each is its place modulo 251.
fn content(alloc: Global) -> Result<Vec<u8>> {
    let mut bytes = vec![in alloc; 0u8; FILE_SIZE as usize]?;
    for (place, byte) in bytes.iter_mut().enumerate() {
        *byte = (place % 251) as u8;
    }
    Ok(bytes)
}

fn words_of(alloc: Global, folder: &str) -> Result<Vec<String>> {
    let mut words = Vec::new(alloc);
    words.push(String::from_str(alloc, "bench")?)?;
    words.push(format!(in alloc; "{folder}/origin")?)?;
    words.push(format!(in alloc; "{folder}/cache")?)?;
    Ok(words)
}

impl Stored {
    /// Makes the folders and the origin's file.
    pub fn make(rt: &HostRuntime) -> Result<Stored> {
        let alloc = rt.alloc();
        let folder = make_folder(rt)?;
        let file = format!(in alloc; "{folder}/origin{NAME}")?;
        fs::write(rt, file.as_str(), content(alloc)?)?;
        let words = words_of(alloc, folder.as_str())?;
        let mut host = have(FolderHost::new(*rt, alloc, &words))?;
        let Ok(link) = host.link(alloc, 0) else {
            bail!("no link");
        };
        let Ok(path) = Path::read(NAME.as_bytes()) else {
            bail!("no path");
        };
        let depot = have(FolderDepot::new(*rt, alloc, &words))?;
        Ok(Stored {
            folder,
            path,
            link,
            depot,
        })
    }

    /// What the origin says of the file.
    fn known(&mut self) -> Result<Known<FolderWorld>> {
        match Known::ask(&mut self.link, &self.path) {
            Ok(Some(known)) => Ok(known),
            _ => bail!("no file"),
        }
    }

    /// Opens the store of the file, with what its volume has.
    pub fn open(&mut self, alloc: Global) -> Result<Store> {
        let known = self.known()?;
        if known.size() != FILE_SIZE {
            bail!("another size");
        }
        let Taken::Volume(first, second) = self.depot.take(alloc, &self.path) else {
            bail!("no volume");
        };
        match FileStore::open_store(alloc, first, second, known, BLOCK_SIZE, 0) {
            Ok(store) => Ok(store),
            Err(_) => bail!("no store"),
        }
    }

    /// Closes a store, and takes its files away.
    pub fn discard(&mut self, store: Store) -> Result<()> {
        let (mut first, mut second) = store.parts();
        if second.remove().is_err() || first.clear().is_err() {
            bail!("the files stay");
        }
        self.depot.put_back(&self.path, first, second);
        Ok(())
    }

    /// The blocks of the file.
    pub fn blocks(&mut self, alloc: Global) -> Result<Vec<Block<FolderWorld>>> {
        let known = self.known()?;
        if known.size() != FILE_SIZE {
            bail!("another size");
        }
        let mut blocks = Vec::new(alloc);
        for number in 0..BLOCKS {
            let Ok(block) = Block::fetch(alloc, &mut self.link, &known, BLOCK_SIZE, number) else {
                bail!("no block");
            };
            blocks.push(block)?;
        }
        Ok(blocks)
    }

    /// Takes the folders away.
    pub fn end(self, rt: &HostRuntime) -> Result<()> {
        fs::remove_dir_all(rt, self.folder.as_str())?;
        Ok(())
    }
}
