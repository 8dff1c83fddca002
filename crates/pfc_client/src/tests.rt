//! Lines of vector reads, and the texts of their replies, as a client would see them.
use super::*;
use pfc_base::{Memory, Piece};
use pfc_span::{PieceList, Pieces, asked, total};
use std::alloc::Global;
use std::test::Fail;

/// Whether the line asks these pieces of this number, as a vector read.
fn asks(alloc: Global, line: &[u8], number: u64, want: &[Piece]) -> Result<bool, Memory> {
    match read_request(alloc, line)? {
        Ok(
            Request::Read {
                number: found,
                pieces: Pieces::Vector(list),
            },
        ) => Ok(found == number && list.as_slice() == want),
        _ => Ok(false),
    }
}

fn has_no_form(alloc: Global, line: &[u8]) -> Result<bool, Memory> {
    match read_request(alloc, line)? {
        Err(why) => Ok(why == RequestRefusal::Form),
        Ok(_) => Ok(false),
    }
}

/// A vector read with so many pieces, the longest that there are.
fn long_line(alloc: Global, count: u32) -> Result<Vec<u8>, Memory> {
    let mut line = Vec::new(alloc);
    line.extend_from_slice(b"readv 3")?;
    for _ in 0..count {
        line.extend_from_slice(b" 18446744073709551615:18446744073709551615")?;
    }
    Ok(line)
}

/// The text of the reply with these bytes of the pieces, or none where their number doesn't fit.
fn told(alloc: Global, pieces: &[Piece], size: u64, bytes: &[u8]) -> Result<Vec<u8>, Memory> {
    let mut out = Vec::new(alloc);
    if pieces.len() > 1024 || asked(pieces) > 16777216 {
        return Ok(out);
    }
    if total(pieces, size) != bytes.len() as u64 {
        return Ok(out);
    }
    let mut list = Vec::new(alloc);
    list.extend_from_slice(pieces)?;
    let mut copy = Vec::new(alloc);
    copy.extend_from_slice(bytes)?;
    let vector = VectorBytes::new(PieceList::new(list), size, copy);
    push_reply(alloc, &mut out, &Reply::Vector(vector))?;
    Ok(out)
}

#[test]
fn lines_of_vector_reads_are_read(rt: HostRuntime) -> Result<(), Fail> {
    let alloc = rt.alloc();
    let one = [Piece { off: 5, len: 7 }];
    let three = [
        Piece {
            off: 8192,
            len: 100,
        },
        Piece { off: 0, len: 0 },
        Piece {
            off: 18446744073709551615,
            len: 18446744073709551615,
        },
    ];
    assert!(rt; asks(alloc, b"readv 0 5:7", 0, &one)?);
    assert!(rt;
        asks(
            alloc,
            b"readv 15 8192:100 0:0 18446744073709551615:18446744073709551615",
            15,
            &three
        )?
    );
    // With one piece too it isn't a plain read, nor is a plain read a vector read.
    assert!(rt; !asks(alloc, b"read 0 5 7", 0, &one)?);
    match read_request(alloc, b"read 0 5 7")? {
        Ok(
            Request::Read {
                number,
                pieces: Pieces::One(piece),
            },
        ) => {
            assert_eq!(rt; number, 0);
            assert_eq!(rt; (piece.off, piece.len), (5, 7));
        }
        _ => return Err(Fail::from("no plain read")),
    }
    Ok(())
}

#[test]
fn a_line_has_at_most_1024_pieces(rt: HostRuntime) -> Result<(), Fail> {
    let alloc = rt.alloc();
    let last = Piece {
        off: 18446744073709551615,
        len: 18446744073709551615,
    };
    match read_request(alloc, long_line(alloc, 1024)?.as_slice())? {
        Ok(Request::Read { number, pieces }) => {
            assert_eq!(rt; number, 3);
            assert_eq!(rt; pieces.as_slice().len(), 1024);
            assert!(rt; pieces.as_slice().last() == Some(&last));
        }
        _ => return Err(Fail::from("1024 pieces aren't read")),
    }
    assert!(rt; has_no_form(alloc, long_line(alloc, 1025)?.as_slice())?);
    assert!(rt; has_no_form(alloc, long_line(alloc, 0)?.as_slice())?);
    Ok(())
}

#[test]
fn other_shapes_have_no_form(rt: HostRuntime) -> Result<(), Fail> {
    let lines =
        "readv\nreadv 3\nreadv 3 \nreadv 3 1\nreadv 3 1 2\nreadv 3 1;2\nreadv 3 :\nreadv 3 1:\nreadv 3 :2\nreadv 3 1:2:3\nreadv 3 1:2:\nreadv 3 1::2\nreadv 3 01:2\nreadv 3 1:02\nreadv 03 1:2\nreadv x 1:2\nreadv  1:2\nreadv 3 1:2 \nreadv 3  1:2\nreadv 3 1:2  3:4\nreadv 3 1:2 x\nreadv 3 1:2 3\nreadv 3 -1:2\nreadv 3 1:18446744073709551616\nREADV 3 1:2\nread 3 1:2\nread 3 1:2 3:4\nreadvv 3 1:2\n readv 3 1:2";
    for line in lines.split('\n') {
        assert!(rt; has_no_form(rt.alloc(), line.as_bytes())?, "at {line}");
    }
    Ok(())
}

#[test]
fn vector_replies_have_their_text(rt: HostRuntime) -> Result<(), Fail> {
    let alloc = rt.alloc();
    let past = [
        Piece { off: 0, len: 1 },
        Piece { off: 5, len: 1 },
        Piece { off: 9, len: 3 },
    ];
    assert_eq!(rt;
        told(alloc, &past, 9, &[160, 0])?.as_slice(),
        b"vector 3 1:a0 1:00 0:-".as_slice()
    );
    // A piece that is cut at the file's end tells what it has.
    let cut = [Piece { off: 8, len: 5 }, Piece { off: 0, len: 3 }];
    assert_eq!(rt;
        told(alloc, &cut, 10, &[1, 2, 160, 176, 255])?.as_slice(),
        b"vector 2 2:0102 3:a0b0ff".as_slice()
    );
    let ten = [Piece { off: 0, len: 10 }];
    assert_eq!(rt;
        told(alloc, &ten, 10, b"0123456789")?.as_slice(),
        b"vector 1 10:30313233343536373839".as_slice()
    );
    let none = [Piece { off: 4, len: 0 }, Piece { off: 0, len: 4 }];
    assert_eq!(rt;
        told(alloc, &none, 0, &[])?.as_slice(),
        b"vector 2 0:- 0:-".as_slice()
    );
    Ok(())
}
