// What one request asks of a file.
ghost use Rattle.std.specs.Prelude.{◌≡◌, ◌≤◌, ◌-◌, ◌^◌, min, length};
ghost use Rattle.pfc_span.specs.Pieces.{pieces_in, asked_of, total_of};

use pfc_base::Piece;
use std::marker::Model;
use std::slice::from_ref;

/// The most pieces of one request.
pub const MOST_PIECES: usize = 1024;

/// At most 1024 pieces, which contracts see as a list.
#[derive(Drop)]
pub struct PieceList {
    pieces: Vec<Piece>,
}

impl Model for PieceList {
    ghost use Rattle.std.specs.Prelude.{◌≤◌, List, length};
    ghost use Rattle.pfc_base.specs.declared.block.Piece.{Piece};

    ghost Value = { List Piece };

    ghost view = { λ l. l.pieces.items };

    ghost invariant = { λ l. length l.pieces.items ≤ 1024 };
}

impl PieceList {
    /// These pieces, in the order of the reply.
    pub fn new(pieces: Vec<Piece>) -> PieceList
        requires { length pieces.items ≤ 1024 }
        ensures { result ≡ pieces.items }
    {
        PieceList { pieces }
    }

    /// The pieces, in their order.
    pub fn as_slice(&self) -> &[Piece]
        ensures all { result.now ≡ self.now }
        ensures few { length result.now ≤ 1024 }
    {
        &self.pieces
    }
}

/// What one request asks: a piece, or several, whose reply tells how many bytes each has.
#[derive(Drop)]
pub enum Pieces {
    One(Piece),
    Vector(PieceList),
}

impl Pieces {
    /// The pieces, in the order of the reply.
    pub fn as_slice(&self) -> &[Piece]
        ensures all { result.now ≡ pieces_in self.now }
        ensures few { length result.now ≤ 1024 }
    {
        match self {
            Pieces::One(piece) => from_ref(piece),
            Pieces::Vector(list) => list.as_slice(),
        }
    }
}

/// How many bytes these pieces ask together, wherever the file ends; a sum that no `u64` has is told as its largest.
pub fn asked(pieces: &[Piece]) -> u64
    ensures { result ≡ min (asked_of pieces.now) (2 ^ 64 - 1) }
{
    let mut sum: u64 = 0;
    for piece in pieces {
        sum = sum.saturating_add(piece.len);
    }
    sum
}

/// How many bytes the reply to these pieces of a file of `size` bytes has.
pub fn total(pieces: &[Piece], size: u64) -> u64
    requires { asked_of pieces.now ≤ 16777216 }
    ensures all { result ≡ total_of size pieces.now }
    ensures within { result ≤ 16777216 }
{
    let mut sum: u64 = 0;
    for piece in pieces {
        sum += piece.len.min(size.saturating_sub(piece.off));
    }
    sum
}
