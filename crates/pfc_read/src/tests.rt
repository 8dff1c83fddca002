//! Reads over the world of rows, in which byte j of each file is j modulo 251: `/a` has 8193 bytes.
ghost use Rattle.std.specs.Prelude.{◌≡◌, ◌≤◌, length, IfOk, MatchBool};
ghost use Rattle.pfc_read.specs.OpView.{Nothing, ToEnd};

mod disk;
mod pieces;

use crate::{Action, Answer, Done, ReadOp};
use pfc_base::{BlockSet, Path, Piece, block_count};
use pfc_cinfo::{Head, Records};
use pfc_core::{FileCore, Flight, Line, Strayed, Ticket};
use pfc_log::{Fell, Served, push_log};
use pfc_memory::{MemoryHost, MemoryLink, RowWorld};
use pfc_span::{Pieces, asked};
use pfc_world::{Host, Known};
use std::alloc::Global;
use std::process::Abort;
use std::test::Fail;

type Core = FileCore<RowWorld>;

type Op = ReadOp<RowWorld>;

type RowLine = Line<RowWorld, MemoryLink<RowWorld>>;

/// Client 1's line, of which the calls with these numbers fail.
fn line_of(alloc: Global, fails: &[u64]) -> Result<RowLine, Fail> {
    let mut named = Vec::new(alloc);
    for fail in fails {
        named.push((1, *fail))?;
    }
    let mut host = MemoryHost::new(alloc, Vec::new(alloc), named, Vec::new(alloc))?;
    Ok(Line::new(host.link(alloc, 1)?))
}

/// The file `/a`, for which the line is asked once.
fn known_of(line: &mut RowLine) -> Result<Known<RowWorld>, Fail> {
    let path = Path::read(b"/a")?;
    Ok(line.stat(&path)?.ok_or("no file")?)
}

/// So many blocks, of which this one is on disk.
fn set_of(alloc: Global, count: u32, on_disk: Option<u32>) -> Result<BlockSet, Fail>
    ensures { IfOk result (λ set. length set ≡ count) }
{
    let mut set = BlockSet::new(alloc, count)?;
    match on_disk {
        Some(block) if block < count => {
            set.set(block);
            Ok(set)
        }
        _ => Ok(set),
    }
}

/// A core of that file in blocks of 4096 bytes, of which this one is on disk.
fn core_with(alloc: Global, line: &mut RowLine, on_disk: Option<u32>) -> Result<Core, Fail>
    ensures { IfOk result (λ core. core.block_size ≡ 4096) }
{
    let known = known_of(line)?;
    let count = block_count(known.size(), 4096);
    if count > 16777216 {
        return Err(Fail::new("too many blocks"));
    }
    let start = set_of(alloc, count as u32, on_disk)?;
    let head = Head {
        created: 0,
        accesses: 0,
        records: Records::new(alloc),
    };
    Ok(FileCore::new(alloc, 5, known, 4096, start, head)?)
}

/// A core of that file, of which no block is on disk.
fn core_of(alloc: Global, line: &mut RowLine) -> Result<Core, Fail>
    ensures { IfOk result (λ core. core.block_size ≡ 4096) }
{
    core_with(alloc, line, None)
}

/// Runs a flight to its end. Its job is let go, so the block stays in memory.
fn fly(
    rt: &impl Abort,
    alloc: Global,
    core: &mut Core,
    line: &mut RowLine,
    ticket: Ticket<RowWorld>,
) -> Done {
    match line.run(alloc, ticket) {
        Flight::Landed(ticket, twin) => match core.land(ticket, twin) {
            Ok(_job) => Done::Landed,
            Err(Strayed { token, why: _ }) => {
                token.0.discard();
                panic!(rt; "a strayed ticket")
            }
        },
        Flight::Fault(ticket) => match core.fail(ticket, Fell::Fault) {
            Ok(()) => Done::Failed(Fell::Fault),
            Err(Strayed { token, why: _ }) => {
                token.discard();
                panic!(rt; "a strayed ticket")
            }
        },
        Flight::Memory(ticket) => {
            ticket.discard();
            panic!(rt; "no memory")
        }
    }
}

/// What a read is to do.
#[derive(Clone, Copy, Debug, PartialEq, Eq)]
enum Kind {
    Run,
    Direct,
    Look,
    Disk,
    Finish,
}

fn kind_of(action: &Action<RowWorld>) -> Kind {
    match action {
        Action::Run(_) => Kind::Run,
        Action::Direct(_) => Kind::Direct,
        Action::Look(_, _) => Kind::Look,
        Action::Disk(_, _) => Kind::Disk,
        Action::Finish => Kind::Finish,
    }
}

/// Does the next action of a read, and says whether it was the last. A part on disk is left to the origin.
fn step(
    rt: &impl Abort,
    alloc: Global,
    core: &mut Core,
    line: &mut RowLine,
    op: &mut Op,
    kinds: &mut Vec<Kind>,
) -> bool
    requires { op.old.given ≡ Nothing }
    ensures { MatchBool result (op.new.given ≡ ToEnd) (op.new.given ≡ Nothing) }
{
    let action = op.next();
    let _ = kinds.push(kind_of(&action));
    match action {
        Action::Run(ticket) => {
            op.supply(fly(rt, alloc, core, line, ticket));
            false
        }
        Action::Direct(leave) => {
            let _ = op.direct(line, leave);
            false
        }
        Action::Look(pin, part) => {
            let _ = op.look(core, pin, part);
            false
        }
        Action::Disk(disk, part) => {
            op.owe(core.leave_broken(disk, part));
            false
        }
        Action::Finish => true,
    }
}

/// Ends a read, of which no flight of another client is still out, and adds which actions it took.
fn end(
    rt: &impl Abort,
    alloc: Global,
    core: &mut Core,
    line: &mut RowLine,
    mut op: Op,
    kinds: &mut Vec<Kind>,
) -> Answer
    requires { op.given ≡ Nothing }
{
    for _ in 0..2048 {
        if step(rt, alloc, core, line, &mut op, kinds) {
            return op.finish(core);
        }
    }
    panic!(rt; "the read goes on")
}

/// A read of client 1 to its end.
fn read(
    rt: &impl Abort,
    alloc: Global,
    core: &mut Core,
    line: &mut RowLine,
    pieces: Pieces,
) -> Result<Answer, Fail> {
    if core.block_size() < 4096 {
        return Err(Fail::new("small blocks"));
    }
    if asked(pieces.as_slice()) > 16777216 {
        return Err(Fail::new("too many bytes"));
    }
    let op = ReadOp::plan(alloc, core, 1, pieces)?;
    Ok(end(rt, alloc, core, line, op, &mut Vec::new(alloc)))
}

/// A read of client 1 on a fresh core, with the calls of its line that fail.
struct Case {
    shows: &'static str,
    fails: &'static [u64],
    piece: Piece,
    /// The bytes, or that the origin failed.
    bytes: Option<&'static [u8]>,
    served: (u64, u64, u64),
}

/// Call 0 asks for the size.
const CASES: &[Case] = &[
    Case {
        shows: "a read over two blocks",
        fails: &[],
        piece: Piece { off: 4095, len: 2 },
        bytes: Some(&[0x4f, 0x50]),
        served: (0, 2, 0),
    },
    Case {
        shows: "a read is cut at the file's end",
        fails: &[],
        piece: Piece {
            off: 8190,
            len: 100,
        },
        bytes: Some(&[0x9e, 0x9f, 0xa0]),
        served: (0, 3, 0),
    },
    Case {
        shows: "a read past the end has no bytes",
        fails: &[],
        piece: Piece { off: 8193, len: 1 },
        bytes: Some(&[]),
        served: (0, 0, 0),
    },
    Case {
        shows: "the second flight fails",
        fails: &[2],
        piece: Piece { off: 4095, len: 2 },
        bytes: None,
        served: (0, 0, 0),
    },
];

/// Whether the answer is what the case wants.
fn is_wanted(case: &Case, answer: &Answer) -> bool {
    match answer {
        Answer::Bytes {
            bytes,
            pieces: _,
            size: _,
            served,
        } => {
            let (hit, missed, bypassed) = case.served;
            let wanted = Served {
                hit,
                missed,
                bypassed,
            };
            case.bytes == Some(bytes.as_slice()) && *served == wanted
        }
        Answer::Fetch => case.bytes.is_none(),
        Answer::Memory => false,
    }
}

#[test]
fn one_client_reads(rt: HostRuntime) -> Result<(), Fail> {
    let alloc = rt.alloc();
    for case in CASES {
        let mut line = line_of(alloc, case.fails)?;
        let mut core = core_of(alloc, &mut line)?;
        let answer = read(&rt, alloc, &mut core, &mut line, Pieces::One(case.piece))?;
        assert!(rt; is_wanted(case, &answer), "{}", case.shows);
    }
    Ok(())
}

/// Whether the log of the core has this text.
fn has_log(alloc: Global, core: &Core, text: &[u8]) -> Result<bool, Fail> {
    let mut log = Vec::new(alloc);
    push_log(alloc, &mut log, core.known().path(), core.log())?;
    Ok(log.as_slice() == text)
}

/// What clients 1 and 2 get who ask for byte 7 one after the other, before the flight has ended; and the log.
fn share(rt: &impl Abort, alloc: Global, fails: &[u64]) -> Result<(Answer, Answer, Vec<u8>), Fail> {
    let mut line = line_of(alloc, fails)?;
    let mut core = core_of(alloc, &mut line)?;
    let piece = Piece { off: 7, len: 1 };
    let first = ReadOp::plan(alloc, &mut core, 1, Pieces::One(piece))?;
    let second = match ReadOp::plan(alloc, &mut core, 2, Pieces::One(piece)) {
        Ok(op) => op,
        Err(_) => panic!(rt; "no memory"),
    };
    let mut kinds = Vec::new(alloc);
    let first = end(rt, alloc, &mut core, &mut line, first, &mut kinds);
    let second = end(rt, alloc, &mut core, &mut line, second, &mut kinds);
    let mut log = Vec::new(alloc);
    push_log(alloc, &mut log, core.known().path(), core.log())?;
    Ok((first, second, log))
}

#[test]
fn two_clients_share_a_flight(rt: HostRuntime) -> Result<(), Fail> {
    let (first, second, log) = share(&rt, rt.alloc(), &[])?;
    for answer in [&first, &second] {
        let Answer::Bytes {
            bytes,
            pieces: _,
            size: _,
            served,
        } = answer
        else {
            return Err(Fail::new("no data"));
        };
        assert_eq!(rt; bytes.as_slice(), [7].as_slice());
        assert_eq!(rt; served.missed, 1);
    }
    assert_eq!(rt;
        log.as_slice(),
        b"log /a stored -\nbegin 0 0 1\njoin 0 0 2\nlanded 0\nserved 1 0 1 0\nserved 2 0 1 0\n".as_slice()
    );
    Ok(())
}

#[test]
fn the_second_client_of_a_failed_flight_reads_from_the_origin(rt: HostRuntime) -> Result<(), Fail> {
    let (first, second, log) = share(&rt, rt.alloc(), &[1])?;
    let Answer::Fetch = first else {
        return Err(Fail::new("the first client's flight failed"));
    };
    let Answer::Bytes {
        bytes,
        pieces: _,
        size: _,
        served,
    } = second
    else {
        return Err(Fail::new("no data"));
    };
    assert_eq!(rt; bytes.as_slice(), [7].as_slice());
    assert_eq!(rt; served.bypassed, 1);
    assert_eq!(rt;
        log.as_slice(),
        b"log /a stored -\nbegin 0 0 1\njoin 0 0 2\nfailed 0 fault\ndirect 0 2 lost 0\nserved 2 0 0 1\n".as_slice()
    );
    Ok(())
}

#[test]
fn a_block_in_memory_is_hit(rt: HostRuntime) -> Result<(), Fail> {
    let alloc = rt.alloc();
    let mut line = line_of(alloc, &[])?;
    let mut core = core_of(alloc, &mut line)?;
    let piece = Piece { off: 4096, len: 2 };
    for wanted in [0u64, 2] {
        let answer = read(&rt, alloc, &mut core, &mut line, Pieces::One(piece))?;
        let Answer::Bytes {
            bytes,
            pieces: _,
            size: _,
            served,
        } = answer
        else {
            return Err(Fail::new("no data"));
        };
        assert_eq!(rt; bytes.as_slice(), [0x50, 0x51].as_slice());
        assert_eq!(rt; served.hit, wanted);
    }
    Ok(())
}
