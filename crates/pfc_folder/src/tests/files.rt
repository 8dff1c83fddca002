// Folders for the tests, and depots over them.
use crate::FolderDepot;
use std::alloc::Global;
use std::test::Fail;
use std::{env, fs};

/// Makes an empty folder of its own for a test.
pub(super) fn make_empty(rt: &HostRuntime, name: &str) -> Result<String, Fail> {
    let temp = env::temp_dir(rt)?;
    let Some(temp) = temp.to_str() else {
        return Err("no temporary folder".into());
    };
    for n in 0..1000u32 {
        let folder = format!(in rt.alloc(); "{temp}/pfc_{name}_{n}")?;
        if fs::create_dir(rt, folder.as_str()).is_ok() {
            return Ok(folder);
        }
    }
    Err("no folder".into())
}

pub(super) fn words_of(alloc: Global, words: &[&str]) -> Result<Vec<String>, Fail> {
    let mut texts = Vec::new(alloc);
    for word in words {
        texts.push(String::from_str(alloc, word)?)?;
    }
    Ok(texts)
}

/// A depot over this folder.
pub(super) fn depot_over(rt: HostRuntime, folder: &str) -> Result<FolderDepot<HostRuntime>, Fail> {
    let alloc = rt.alloc();
    let words = words_of(alloc, &["config", "origin", folder])?;
    Ok(FolderDepot::new(rt, alloc, &words)?)
}
