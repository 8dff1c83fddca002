//! Reads of a file that isn't cached, and of one whose block 0 is on disk, over bytes 4095 and 4096.
use super::{Core, Kind, RowLine, core_with, end, has_log, known_of, line_of};
use crate::{Answer, ReadOp};
use pfc_base::Piece;
use pfc_core::FileCore;
use pfc_log::{Served, Uncached};
use pfc_span::Pieces;
use std::alloc::Global;
use std::process::Abort;
use std::test::Fail;

/// What a read is to take and to bring, and what its core is to have then.
#[derive(Clone, Copy)]
struct Wanted {
    kinds: &'static [Kind],
    /// By where the bytes come from; none where the origin fails.
    served: Option<Served>,
    log: &'static [u8],
    quiet: bool,
}

/// What of it came so.
#[derive(Clone, Copy, Debug, PartialEq, Eq)]
struct Came {
    kinds: bool,
    answer: bool,
    log: bool,
    quiet: bool,
}

const ALL: Came = Came {
    kinds: true,
    answer: true,
    log: true,
    quiet: true,
};

/// Whether the answer has the two bytes, by where they came from.
fn is_wanted(answer: &Answer, wanted: Option<Served>) -> bool {
    match answer {
        Answer::Bytes {
            bytes,
            pieces: _,
            size: _,
            served,
        } => { bytes.as_slice() == [0x4f, 0x50].as_slice() && Some(*served) == wanted }
        Answer::Fetch => wanted.is_none(),
        Answer::Memory => false,
    }
}

/// Reads the two bytes to the end.
fn reads(
    rt: &impl Abort,
    alloc: Global,
    mut core: Core,
    mut line: RowLine,
    wanted: &Wanted,
) -> Result<Came, Fail> {
    if core.block_size() < 4096 {
        return Err(Fail::new("small blocks"));
    }
    let mut kinds = Vec::new(alloc);
    let pieces = Pieces::One(Piece { off: 4095, len: 2 });
    let op = ReadOp::plan(alloc, &mut core, 1, pieces)?;
    let answer = end(rt, alloc, &mut core, &mut line, op, &mut kinds);
    Ok(Came {
        kinds: kinds.as_slice() == wanted.kinds,
        answer: is_wanted(&answer, wanted.served),
        log: has_log(alloc, &core, wanted.log)?,
        quiet: core.quiet() == wanted.quiet,
    })
}

/// Reads them of a file that isn't cached.
fn reads_uncached(rt: &impl Abort, alloc: Global, wanted: &Wanted) -> Result<Came, Fail> {
    let mut line = line_of(alloc, &[])?;
    let known = known_of(&mut line)?;
    let core = FileCore::direct_only(alloc, 5, known, 4096, Uncached::Shell)?;
    reads(rt, alloc, core, line, wanted)
}

/// Reads them where block 0 is on disk, and these calls fail.
fn reads_stored(
    rt: &impl Abort,
    alloc: Global,
    fails: &[u64],
    wanted: &Wanted,
) -> Result<Came, Fail> {
    let mut line = line_of(alloc, fails)?;
    let core = core_with(alloc, &mut line, Some(0))?;
    reads(rt, alloc, core, line, wanted)
}

#[test]
fn a_file_that_is_not_cached_is_read_with_one_direct_read_a_block(
    rt: HostRuntime,
) -> Result<(), Fail> {
    let wanted = Wanted {
        kinds: &[Kind::Direct, Kind::Direct, Kind::Finish],
        served: Some(Served {
            hit: 0,
            missed: 0,
            bypassed: 2,
        }),
        log: b"log /a uncached shell\ndirect 0 1 uncached shell\ndirect 1 1 uncached shell\nserved 1 0 0 2\n",
        quiet: true,
    };
    assert_eq!(rt; reads_uncached(&rt, rt.alloc(), &wanted)?, ALL);
    Ok(())
}

#[test]
fn a_part_on_disk_follows_the_looks_and_comes_from_the_origin_where_it_is_left(
    rt: HostRuntime,
) -> Result<(), Fail> {
    let wanted = Wanted {
        kinds: &[
            Kind::Run,
            Kind::Look,
            Kind::Disk,
            Kind::Direct,
            Kind::Finish,
        ],
        served: Some(Served {
            hit: 0,
            missed: 1,
            bypassed: 1,
        }),
        log: b"log /a stored 0-0\nhit 0 disk 1\nbegin 0 1 1\nlanded 0\ndirect 0 1 device\nserved 1 0 1 1\n",
        // Block 1 is in memory.
        quiet: false,
    };
    assert_eq!(rt; reads_stored(&rt, rt.alloc(), &[], &wanted)?, ALL);
    Ok(())
}

#[test]
fn after_a_failed_flight_what_was_not_read_from_disk_goes_back(
    rt: HostRuntime,
) -> Result<(), Fail> {
    let wanted = Wanted {
        kinds: &[Kind::Run, Kind::Finish],
        served: None,
        log: b"log /a stored 0-0\nhit 0 disk 1\nbegin 0 1 1\nfailed 0 fault\n",
        quiet: true,
    };
    assert_eq!(rt; reads_stored(&rt, rt.alloc(), &[1], &wanted)?, ALL);
    Ok(())
}
