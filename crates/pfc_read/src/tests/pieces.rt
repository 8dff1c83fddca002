//! Reads of several pieces with one plan, in blocks of 4096 bytes.
use super::{core_of, has_log, line_of, read};
use crate::Answer;
use pfc_base::Piece;
use pfc_log::Served;
use pfc_span::{MOST_PIECES, PieceList, Pieces};
use std::alloc::Global;
use std::test::Fail;

/// These pieces, in this order.
fn vector(alloc: Global, all: &[Piece]) -> Result<Pieces, Fail> {
    let mut pieces = Vec::new(alloc);
    for piece in all {
        pieces.push(*piece)?;
    }
    list(pieces)
}

fn list(pieces: Vec<Piece>) -> Result<Pieces, Fail> {
    if pieces.len() > MOST_PIECES {
        return Err(Fail::new("too many pieces"));
    }
    Ok(Pieces::Vector(PieceList::new(pieces)))
}

/// A read of client 1 on a fresh core, with the calls of its line that fail.
struct Case {
    shows: &'static str,
    fails: &'static [u64],
    pieces: &'static [Piece],
    /// The bytes, or that the origin failed.
    bytes: Option<&'static [u8]>,
    /// How many of them a flight brought.
    missed: u64,
}

/// Call 0 asks for the size.
const CASES: &[Case] = &[
    Case {
        shows: "no pieces have no bytes",
        fails: &[],
        pieces: &[],
        bytes: Some(&[]),
        missed: 0,
    },
    Case {
        shows: "pieces come in their own order",
        fails: &[],
        pieces: &[
            Piece { off: 4096, len: 2 },
            Piece { off: 8192, len: 1 },
            Piece { off: 1, len: 3 },
        ],
        bytes: Some(&[0x50, 0x51, 0xa0, 1, 2, 3]),
        missed: 6,
    },
    Case {
        shows: "what pieces share comes for each of them",
        fails: &[],
        pieces: &[
            Piece { off: 4095, len: 2 },
            Piece { off: 4094, len: 3 },
            Piece { off: 4095, len: 2 },
        ],
        bytes: Some(&[0x4f, 0x50, 0x4e, 0x4f, 0x50, 0x4f, 0x50]),
        missed: 7,
    },
    Case {
        shows: "an empty piece has no bytes",
        fails: &[],
        pieces: &[
            Piece { off: 5, len: 0 },
            Piece { off: 7, len: 1 },
            Piece { off: 8193, len: 0 },
            Piece { off: 9, len: 1 },
        ],
        bytes: Some(&[7, 9]),
        missed: 2,
    },
    Case {
        shows: "each piece is cut at the file's end",
        fails: &[],
        pieces: &[
            Piece {
                off: 8190,
                len: 100,
            },
            Piece { off: 8193, len: 5 },
            Piece {
                off: u64::MAX,
                len: 3,
            },
            Piece { off: 0, len: 1 },
            Piece {
                off: 8192,
                len: 8193,
            },
        ],
        bytes: Some(&[0x9e, 0x9f, 0xa0, 0, 0xa0]),
        missed: 5,
    },
    Case {
        shows: "the flight that two pieces wait for fails",
        fails: &[1],
        pieces: &[Piece { off: 4, len: 1 }, Piece { off: 2, len: 1 }],
        bytes: None,
        missed: 0,
    },
];

/// Whether the answer is what the case wants, with the pieces that were asked and the size of the file.
fn is_wanted(case: &Case, answer: &Answer) -> bool {
    match answer {
        Answer::Bytes {
            bytes,
            pieces,
            size,
            served,
        } => {
            let wanted = Served {
                hit: 0,
                missed: case.missed,
                bypassed: 0,
            };
            case.bytes == Some(bytes.as_slice())
                && pieces.as_slice() == case.pieces
                && *size == 8193
                && *served == wanted
        }
        Answer::Fetch => case.bytes.is_none(),
        Answer::Memory => false,
    }
}

#[test]
fn one_read_of_several_pieces(rt: HostRuntime) -> Result<(), Fail> {
    let alloc = rt.alloc();
    for case in CASES {
        let mut line = line_of(alloc, case.fails)?;
        let mut core = core_of(alloc, &mut line)?;
        let pieces = vector(alloc, case.pieces)?;
        let answer = read(&rt, alloc, &mut core, &mut line, pieces)?;
        assert!(rt; is_wanted(case, &answer), "{}", case.shows);
    }
    Ok(())
}

#[test]
fn a_block_of_two_pieces_is_fetched_once(rt: HostRuntime) -> Result<(), Fail> {
    let alloc = rt.alloc();
    let mut line = line_of(alloc, &[])?;
    let mut core = core_of(alloc, &mut line)?;
    let pieces = vector(alloc, &[Piece { off: 4, len: 1 }, Piece { off: 2, len: 1 }])?;
    let answer = read(&rt, alloc, &mut core, &mut line, pieces)?;
    let Answer::Bytes {
        bytes,
        pieces: _,
        size: _,
        served,
    } = answer
    else {
        return Err(Fail::new("no data"));
    };
    assert_eq!(rt; bytes.as_slice(), [4, 2].as_slice());
    assert_eq!(rt; served.missed, 2);
    assert!(rt;
        has_log(
            alloc,
            &core,
            b"log /a stored -\nbegin 0 0 1\njoin 0 0 1\nlanded 0\nserved 1 0 2 0\n"
        )?
    );
    Ok(())
}

#[test]
fn the_most_pieces_come_in_their_own_order(rt: HostRuntime) -> Result<(), Fail> {
    let alloc = rt.alloc();
    let mut line = line_of(alloc, &[])?;
    let mut core = core_of(alloc, &mut line)?;
    let mut pieces = Vec::new(alloc);
    for i in 0..1024u64 {
        // From byte 8184 down to byte 0, eight apart.
        let off = 8184 - 8 * i;
        pieces.push(Piece { off, len: 1 })?;
    }
    let answer = read(&rt, alloc, &mut core, &mut line, list(pieces)?)?;
    let Answer::Bytes {
        bytes,
        pieces: _,
        size: _,
        served,
    } = answer
    else {
        return Err(Fail::new("no data"));
    };
    let mut wanted: Vec<u8> = Vec::new(alloc);
    for i in 0..1024u64 {
        wanted.push(((8184 - 8 * i) % 251) as u8)?;
    }
    assert_eq!(rt; bytes.as_slice(), wanted.as_slice());
    assert_eq!(rt; served.missed, 1024);
    Ok(())
}
