// The bytes that a vector read brings.
ghost use Rattle.std.specs.Prelude.{◌≡◌, ◌++◌, length, OnOk};
ghost use Rattle.std.specs.List.{flat_map};
ghost use Rattle.pfc_span.specs.Pieces.{total_of};
ghost use Rattle.pfc_client.specs.Vectors.{in_pieces, piece_text, vector_text};

use crate::reply::push_hex;
use pfc_base::{Memory, Piece, push_number, push_word, slice};
use pfc_span::PieceList;
use std::alloc::Global;
use std::marker::Model;

/// The bytes of several pieces of a file of `size` bytes, one behind the other. Contracts see those of each piece.
#[derive(Drop)]
pub struct VectorBytes {
    pieces: PieceList,
    size: u64,
    bytes: Vec<u8>,
}

impl Model for VectorBytes {
    ghost use Rattle.std.specs.Prelude.{◌≡◌, ℕ, List, length};
    ghost use Rattle.pfc_span.specs.Pieces.{total_of};
    ghost use Rattle.pfc_client.specs.Vectors.{in_pieces};

    ghost Value = { List (List ℕ) };

    ghost view = { λ v. in_pieces v.size v.pieces v.bytes.items };

    ghost invariant = { λ v. length v.bytes.items ≡ total_of v.size v.pieces };
}

impl VectorBytes {
    pub fn new(pieces: PieceList, size: u64, bytes: Vec<u8>) -> VectorBytes
        requires { length bytes.items ≡ total_of size pieces }
        ensures { result ≡ in_pieces size pieces bytes.items }
    {
        VectorBytes {
            pieces,
            size,
            bytes,
        }
    }
}

/// Appends a blank and the word of a piece.
fn push_piece(alloc: Global, out: &mut Vec<u8>, bytes: &[u8]) -> Result<(), Memory>
    ensures { OnOk result (out.new.items ≡ out.old.items ++ piece_text bytes.now) }
{
    if bytes.is_empty() {
        return push_word(out, b" 0:-");
    }
    push_word(out, b" ")?;
    push_number(alloc, out, bytes.len() as u64)?;
    push_word(out, b":")?;
    push_hex(out, bytes)
}

/// Appends the words of the pieces of a file of `size` bytes, whose bytes these are.
fn push_pieces(
    alloc: Global,
    out: &mut Vec<u8>,
    pieces: &[Piece],
    size: u64,
    bytes: &[u8],
) -> Result<(), Memory>
    requires { length bytes.now ≡ total_of size pieces.now }
    ensures { OnOk result (out.new.items ≡ out.old.items ++ flat_map piece_text (in_pieces size pieces.now bytes.now)) }
{
    let mut at: u64 = 0;
    for piece in pieces {
        let len = piece.len.min(size.saturating_sub(piece.off));
        push_piece(alloc, out, slice(bytes, at, len))?;
        at += len;
    }
    Ok(())
}

/// Appends `vector`, how many pieces there are, and their words.
pub(crate) fn push_vector(
    alloc: Global,
    out: &mut Vec<u8>,
    vector: &VectorBytes,
) -> Result<(), Memory>
    ensures { OnOk result (out.new.items ≡ out.old.items ++ vector_text vector.now) }
{
    let pieces = vector.pieces.as_slice();
    push_word(out, b"vector ")?;
    push_number(alloc, out, pieces.len() as u64)?;
    push_pieces(alloc, out, pieces, vector.size, &vector.bytes)?;
    Ok(())
}
