ghost use Rattle.std.specs.Prelude.{◌≡◌, ◌≤◌, length, IfOk, OnErr, MatchOption};
ghost use Rattle.pfc_base.specs.Pieces.{pieces_of};
ghost use Rattle.pfc_base.specs.Number.{decimal_of};
ghost use Rattle.pfc_client.specs.Requests.{request_of, by_words, plain_words, opening, reading, closing, piece_of, few_pieces, vectoring, OpensNothing};

use pfc_base::{Memory, Path, Piece, decimal, next_piece};
use pfc_span::{MOST_PIECES, PieceList, Pieces};
use std::alloc::Global;

/// What a client asks. `number` is one of the client's descriptors, or a number that names none.
#[derive(Drop)]
pub enum Request {
    Open { number: u64, path: Path },
    Read { number: u64, pieces: Pieces },
    Close { number: u64 },
}

/// Why a line asks nothing.
#[derive(Clone, Copy, Debug, PartialEq, Eq)]
pub enum RequestRefusal {
    /// The line has no request's form.
    Form,
    /// An open's third word is no path.
    Path,
}

fn open_request(number: &[u8], third: &[u8]) -> Result<Request, RequestRefusal>
    ensures { result ≡ opening (decimal_of number.now) third.now }
{
    match decimal(number) {
        None => Err(RequestRefusal::Form),
        Some(number) => {
            if third.is_empty() {
                return Err(RequestRefusal::Form);
            }
            match Path::read(third) {
                Ok(path) => Ok(Request::Open { number, path }),
                Err(_) => Err(RequestRefusal::Path),
            }
        }
    }
}

fn read_of_file(number: &[u8], off: &[u8], len: &[u8]) -> Result<Request, RequestRefusal>
    ensures { result ≡ reading (decimal_of number.now) (decimal_of off.now) (decimal_of len.now) }
{
    match decimal(number) {
        None => Err(RequestRefusal::Form),
        Some(number) => match decimal(off) {
            None => Err(RequestRefusal::Form),
            Some(off) => match decimal(len) {
                None => Err(RequestRefusal::Form),
                Some(len) => Ok(Request::Read {
                    number,
                    pieces: Pieces::One(Piece { off, len }),
                }),
            },
        },
    }
}

fn close_request(number: &[u8]) -> Result<Request, RequestRefusal>
    ensures { result ≡ closing (decimal_of number.now) }
{
    match decimal(number) {
        None => Err(RequestRefusal::Form),
        Some(number) => Ok(Request::Close { number }),
    }
}

/// The request that a line of words asks which is no vector read.
fn request_in_words(line: &[u8]) -> Result<Request, RequestRefusal>
    ensures { result ≡ plain_words (pieces_of 32 line.now) }
{
    let (verb, rest) = next_piece(line, b' ');
    let rest = match rest {
        None => return Err(RequestRefusal::Form),
        Some(rest) => rest,
    };
    let (number, rest) = next_piece(rest, b' ');
    let rest = match rest {
        None => {
            if verb == b"close".as_slice() {
                return close_request(number);
            }
            return Err(RequestRefusal::Form);
        }
        Some(rest) => rest,
    };
    let (third, rest) = next_piece(rest, b' ');
    let rest = match rest {
        None => {
            if verb == b"open".as_slice() {
                return open_request(number, third);
            }
            return Err(RequestRefusal::Form);
        }
        Some(rest) => rest,
    };
    let (fourth, rest) = next_piece(rest, b' ');
    match rest {
        None => {
            if verb == b"read".as_slice() {
                return read_of_file(number, third, fourth);
            }
            Err(RequestRefusal::Form)
        }
        Some(_) => Err(RequestRefusal::Form),
    }
}

/// The piece that a word names.
fn read_piece(word: &[u8]) -> Option<Piece>
    ensures { result ≡ piece_of word.now }
{
    let (off, behind) = next_piece(word, b':');
    let (len, more) = next_piece(behind?, b':');
    match more {
        Some(_) => None,
        None => {
            let off = decimal(off)?;
            let len = decimal(len)?;
            Some(Piece { off, len })
        }
    }
}

/// The pieces that these words name, if each names one and there are no more than a request may have.
fn read_pieces(alloc: Global, words: &[u8]) -> Result<Option<PieceList>, Memory>
    ensures { IfOk result (λ list. list ≡ few_pieces (pieces_of 32 words.now)) }
{
    let mut pieces = Vec::new(alloc);
    let mut rest = words;
    'words: loop {
        let (word, more) = next_piece(rest, b' ');
        if pieces.len() == MOST_PIECES {
            return Ok(None);
        }
        let Some(piece) = read_piece(word) else {
            return Ok(None);
        };
        pieces.push(piece)?;
        match more {
            None => return Ok(Some(PieceList::new(pieces))),
            Some(after) => rest = after,
        }
    }
}

/// The request of a vector read with this number's word and these words of pieces.
fn vector_request(
    alloc: Global,
    number: &[u8],
    words: &[u8],
) -> Result<Result<Request, RequestRefusal>, Memory>
    ensures { IfOk result (λ read. read ≡ vectoring (decimal_of number.now) (few_pieces (pieces_of 32 words.now))) }
{
    let Some(number) = decimal(number) else {
        return Ok(Err(RequestRefusal::Form));
    };
    match read_pieces(alloc, words)? {
        None => Ok(Err(RequestRefusal::Form)),
        Some(list) => Ok(Ok(Request::Read {
            number,
            pieces: Pieces::Vector(list),
        })),
    }
}

/// The number's word and the words of the pieces, where the line is a vector read.
fn vector_words(line: &[u8]) -> Option<(&[u8], &[u8])>
    ensures { MatchOption result (by_words (pieces_of 32 line.now) ≡ plain_words (pieces_of 32 line.now)) (λ r. by_words (pieces_of 32 line.now) ≡ vectoring (decimal_of r.0.now) (few_pieces (pieces_of 32 r.1.now))) }
{
    let (verb, rest) = next_piece(line, b' ');
    let (number, words) = next_piece(rest?, b' ');
    let words = words?;
    if verb == b"readv".as_slice() {
        Some((number, words))
    } else {
        None
    }
}

/// What a line asks. Words stand behind exactly one space each; a line of more than 65536 bytes has no form. Only the pieces of a
/// vector read take memory, so that none is refused for another line.
pub fn read_request(alloc: Global, line: &[u8]) -> Result<Result<Request, RequestRefusal>, Memory>
    ensures ok { IfOk result (λ read. read ≡ request_of line.now) }
    ensures memory { OnErr result (OpensNothing (request_of line.now)) }
{
    if line.len() > 65536 {
        return Ok(Err(RequestRefusal::Form));
    }
    match vector_words(line) {
        None => Ok(request_in_words(line)),
        Some((number, words)) => vector_request(alloc, number, words),
    }
}
