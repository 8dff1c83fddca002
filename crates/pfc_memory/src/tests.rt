use super::*;
use pfc_base::Path;
use pfc_world::{Block, Host, Known, Refusal, Sink, Source, Sources};
use std::alloc::Global;
use std::test::Fail;

fn host_of(
    alloc: Global,
    fails: &[(u32, u64)],
    reads: &[u64],
) -> Result<MemoryHost<RowWorld>, Fail> {
    let mut files = Vec::new(alloc);
    files.push((
        String::from_str(alloc, "words")?,
        Vec::from_slice(alloc, b"some words")?,
    ))?;
    let mut named = Vec::new(alloc);
    for fail in fails {
        named.push(*fail)?;
    }
    Ok(MemoryHost::new(alloc, files, named, Vec::from_slice(alloc, reads)?)?)
}

#[test]
fn a_link_fails_at_the_named_call_and_at_no_other(rt: HostRuntime) -> Result<(), Fail> {
    let alloc = rt.alloc();
    let mut host = host_of(alloc, &[(1, 1)], &[])?;
    let path = Path::read(b"/b")?;
    let mut first = host.link(alloc, 1)?;
    let mut second = host.link(alloc, 2)?;
    let known = Known::ask(&mut first, &path)?.ok_or("no file")?;
    assert_eq!(rt; known.size(), 20480);
    assert!(rt; Block::fetch(alloc, &mut first, &known, 4096, 4).is_err());
    let block = Block::fetch(alloc, &mut first, &known, 4096, 4)?;
    assert_eq!(rt; block.bytes().len(), 4096);
    // Byte 16384 of the file, the first of the block, is 16384 modulo 251.
    assert_eq!(rt; block.bytes().get(..2), Some([69, 70].as_slice()));
    let _ = Known::ask(&mut second, &path)?;
    let _ = Block::fetch(alloc, &mut second, &known, 4096, 0)?;
    host.back(first);
    host.back(second);
    assert_eq!(rt; host.spent(1), (3, 1));
    assert_eq!(rt; host.spent(2), (2, 0));
    assert_eq!(rt; host.spent(0), (0, 0));
    assert_eq!(rt; host.faults(), 0);
    Ok(())
}

#[test]
fn sources_give_the_text_and_fail_at_the_named_read(rt: HostRuntime) -> Result<(), Fail> {
    let alloc = rt.alloc();
    let mut host = host_of(alloc, &[], &[1])?;
    assert_eq!(rt; host.source(alloc, "other").err(), Some(Refusal::Fault));
    assert_eq!(rt; host.faults(), 1);
    let mut input = host.source(alloc, "words")?;
    let mut place = [0u8; 6];
    assert_eq!(rt; input.read(&mut place)?, 6);
    assert_eq!(rt; place.as_slice(), b"some w".as_slice());
    assert!(rt; input.read(&mut place).is_err());
    assert_eq!(rt; input.read(&mut place)?, 4);
    assert_eq!(rt; place.get(..4), Some(b"ords".as_slice()));
    assert_eq!(rt; input.read(&mut place)?, 0);
    assert_eq!(rt; input.faults(), 1);
    host.done(input);
    assert_eq!(rt; host.faults(), 2);
    Ok(())
}

#[test]
fn sinks_keep_what_they_took(rt: HostRuntime) -> Result<(), Fail> {
    let alloc = rt.alloc();
    let mut sink = VecSink::new(alloc, Vec::from_slice(alloc, &[1])?);
    assert_eq!(rt; sink.write(b"one")?, 3);
    assert!(rt; sink.write(b" lost").is_err());
    assert_eq!(rt; sink.write(b", two")?, 5);
    assert_eq!(rt; sink.bytes(), b"one, two".as_slice());
    assert_eq!(rt; sink.faults(), 1);
    Ok(())
}
