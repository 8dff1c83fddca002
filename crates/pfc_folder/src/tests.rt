mod cache;
mod files;

use super::*;
use pfc_base::Path;
use pfc_world::{Fault, Host, Origin, Refusal, Sink, Source, Sources};
use std::alloc::Global;
use std::test::Fail;
use std::{env, fs};

/// Makes a folder of its own for a test, with the files `a`, of ten bytes, and `below/b`.
fn make_folder(rt: &HostRuntime) -> Result<String, Fail> {
    let temp = env::temp_dir(rt)?;
    let Some(temp) = temp.to_str() else {
        return Err("no temporary folder".into());
    };
    for n in 0..1000u32 {
        let folder = format!(in rt.alloc(); "{temp}/pfc_folder_{n}")?;
        if fs::create_dir(rt, folder.as_str()).is_ok() {
            let below = format!(in rt.alloc(); "{folder}/below")?;
            fs::create_dir(rt, below.as_str())?;
            let inner = format!(in rt.alloc(); "{below}/b")?;
            fs::write(rt, inner.as_str(), b"below".as_slice())?;
            let outer = format!(in rt.alloc(); "{folder}/a")?;
            fs::write(rt, outer.as_str(), b"0123456789".as_slice())?;
            return Ok(folder);
        }
    }
    Err("no folder".into())
}

fn words_of(alloc: Global, words: &[&str]) -> Result<Vec<String>, Fail> {
    let mut texts = Vec::new(alloc);
    for word in words {
        texts.push(String::from_str(alloc, word)?)?;
    }
    Ok(texts)
}

#[test]
fn a_link_reads_the_files_of_its_folder(rt: HostRuntime) -> Result<(), Fail> {
    let alloc = rt.alloc();
    let folder = make_folder(&rt)?;
    let words = words_of(alloc, &["config", folder.as_str(), "cache"])?;
    let mut host = FolderHost::new(rt, alloc, &words)?;
    let mut link = host.link(alloc, 3)?;
    let a = Path::read(b"/a")?;
    let b = Path::read(b"/below/b")?;
    assert_eq!(rt; link.stat(&a), Ok(Some(10)));
    assert_eq!(rt; link.stat(&b), Ok(Some(5)));
    assert_eq!(rt; link.stat(&Path::read(b"/below")?), Ok(None), "a folder");
    assert_eq!(rt; link.stat(&Path::read(b"/c")?), Ok(None), "missing");
    assert_eq!(rt; link.stat(&Path::read(b"/a/b")?), Ok(None), "below a file");
    let mut place = [0u8; 4];
    link.fetch(&a, 3, &mut place)?;
    assert_eq!(rt; place.as_slice(), b"3456".as_slice());
    link.fetch(&b, 0, &mut place)?;
    assert_eq!(rt; place.as_slice(), b"belo".as_slice());
    link.fetch(&a, 6, &mut place)?;
    assert_eq!(rt; place.as_slice(), b"6789".as_slice());
    assert_eq!(rt; link.fetch(&a, 7, &mut place), Err(Fault), "past the end");
    assert_eq!(rt;
        link.fetch(&a, 11, &mut []),
        Err(Fault),
        "nothing past the end"
    );
    host.back(link);
    assert_eq!(rt; host.spent(3), (10, 2));
    fs::remove_dir_all(&rt, folder.as_str())?;
    Ok(())
}

#[test]
fn without_a_folder_each_call_is_a_fault(rt: HostRuntime) -> Result<(), Fail> {
    let alloc = rt.alloc();
    let words = words_of(alloc, &["config"])?;
    let mut host = FolderHost::new(rt, alloc, &words)?;
    let mut link = host.link(alloc, 0)?;
    let path = Path::read(b"/tmp")?;
    assert_eq!(rt; link.stat(&path), Err(Fault));
    assert_eq!(rt; link.fetch(&path, 0, &mut [0; 2]), Err(Fault));
    host.back(link);
    assert_eq!(rt; host.spent(0), (2, 2));
    Ok(())
}

#[test]
fn a_source_reads_the_file_of_its_name(rt: HostRuntime) -> Result<(), Fail> {
    let alloc = rt.alloc();
    let folder = make_folder(&rt)?;
    let name = format!(in alloc; "{folder}/a")?;
    let mut host = FolderHost::new(rt, alloc, &words_of(alloc, &[])?)?;
    let mut input = host.source(alloc, name.as_str())?;
    let mut place = [0u8; 7];
    assert_eq!(rt; input.read(&mut place)?, 7);
    assert_eq!(rt; place.as_slice(), b"0123456".as_slice());
    assert_eq!(rt; input.read(&mut place)?, 3);
    assert_eq!(rt; place.get(..3), Some(b"789".as_slice()));
    assert_eq!(rt; input.read(&mut place)?, 0);
    host.done(input);
    assert_eq!(rt; host.faults(), 0);
    fs::remove_dir_all(&rt, folder.as_str())?;
    assert_eq!(rt;
        host.source(alloc, name.as_str()).err(),
        Some(Refusal::Fault)
    );
    assert_eq!(rt; host.faults(), 1);
    Ok(())
}

#[test]
fn standard_output_takes_bytes(rt: HostRuntime) -> Result<(), Fail> {
    let mut out = StdSink::new(rt);
    assert_eq!(rt; out.write(b"a line\n")?, 7);
    assert_eq!(rt; out.write(b"")?, 0);
    assert_eq!(rt; out.faults(), 0);
    Ok(())
}
